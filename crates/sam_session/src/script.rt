//! Inputs that are scripts.

ghost use Rattle.std.specs.Prelude.{◌≡◌, ◌≤◌, IfOk, IfErr, IfSome, length};
ghost use Rattle.sam_script.specs.Spelling.{Spells};
ghost use Rattle.sam_modes.specs.Limits.{most_input};
ghost use Rattle.sam_session.specs.Replaying.{IsUnread, of_script};

use sam_ends::Stop;
use sam_host::HostFault;
use sam_modes::{PlayFault, read_all};
use sam_script::{Script, ScriptFault};
use std::alloc::Global;
use std::io::Read;

/// Reads the script that the reader gives. The input is read whole before it is parsed, so the errors are those of the reading, and then
/// those of the script.
#[tactic(auto, using(crate::proofs::Scripts::script_read, crate::proofs::Scripts::script_wrong, crate::proofs::Scripts::input_failed))]
pub fn script_in<R: Read>(alloc: Global, reader: &mut R) -> Result<Script, PlayFault>
    ensures ok { IfOk result (λ script. IfSome (R.remaining reader.old) (λ input. (length input ≤ most_input) × Spells input script)) }
    ensures fault { IfErr result (λ fault. IfSome (R.remaining reader.old) (λ input. IsUnread input fault)) }
{
    let input = read_all(alloc, reader)?;
    match Script::read(alloc, input.as_slice()) {
        Ok(script) => Ok(script),
        Err(fault) => Err(of_script(fault)),
    }
}

/// Returns what a fault of a script is for the program.
pub(crate) fn of_script(fault: ScriptFault) -> PlayFault
    ensures { result ≡ of_script fault }
{
    match fault {
        ScriptFault::Line(line) => PlayFault::Script(line),
        ScriptFault::CountFull => PlayFault::Side(Stop::from(HostFault::CountFull)),
        ScriptFault::OutOfMemory => PlayFault::OutOfMemory,
    }
}
