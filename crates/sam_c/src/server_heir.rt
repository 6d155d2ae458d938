//! What C calls to have a terminal take a durable server's texts over: include/sulgrevad.h says what the call does.

ghost use Rattle.std.specs.Prelude.{◌≡◌};
ghost use Rattle.std.specs.Result.{result_map_both};
ghost use Rattle.sam_server.specs.Heirs.{Inherits};
ghost use Rattle.sam_c.specs.Servers.{ServerInherited};

use crate::server_handle::SamServer;
use crate::server_status::heir_fault;
use sam_handles::link_id::SamLinkId;
use sam_handles::status::{MADE, OK};
use sam_handles::with_end;
use sam_link::Id;
use sam_server::{DurableServer, HeirFault};
use std::alloc::Global;

/// Makes the server of another session, in a box, which begins with the texts of this one.
#[tactic(auto, using(crate::proofs::ServerLaws::inherited_without_room))]
fn inherit(end: &DurableServer, id: Id, alloc: Global) -> Result<Box<DurableServer>, HeirFault>
    ensures { Inherits end.now id (result_map_both (λ b. b.value) (λ why. why) result) }
{
    let heir = end.heir(id)?;
    match Box::new(alloc, heir) {
        Ok(heir) => Ok(heir),
        Err(_) => Err(HeirFault::OutOfMemory),
    }
}

/// Makes a server of another session in an empty handle, which begins with the texts of this one. This one is not changed.
///
/// Errors, in this order: `SAM_NO_HANDLE` if this handle is empty; `SAM_MADE` if the other is made already; `SAM_WAITING`;
/// `SAM_SERVER_EFFECT_WAITS`; `SAM_NO_MEMORY`. After an error both handles are as they were.
#[unsafe(no_mangle)]
pub extern "C" fn sam_server_heir(
    server: &mut SamServer,
    id: &SamLinkId,
    heir: &mut SamServer,
    alloc: Global,
) -> u32
    ensures made { ServerInherited server.old.held.end id.now.bytes heir.old.held.end result heir.new.held.end }
    ensures kept { server.new.held.end ≡ server.old.held.end }
{
    with_end!(server alloc end {
        if heir.is_made() {
            MADE
        } else {
            match inherit(&end, id.to_id(), alloc) {
                Ok(made) => {
                    heir.put(made);
                    OK
                }
                Err(why) => heir_fault(why),
            }
        }
    })
}
