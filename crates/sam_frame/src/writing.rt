//! Messages written as bytes, one frame after another.

ghost use Rattle.std.specs.Prelude.{◌≡◌, ◌++◌, OnOk, OnErr, IfErr, Decides};
ghost use Rattle.sam_mesg.specs.declared.fault.MesgFault.TheVariants.{OutOfMemory};
ghost use Rattle.sam_frame.specs.Stream.{CanEncode, stream_of};

use crate::wire::Wire;
use sam_mesg::MesgFault;

/// Returns whether each message fits in version 2, as `encode_all` requires. It takes a constant time a message, except for one that
/// sets the snarfed text, which is walked.
pub fn can_encode<M: Wire>(messages: &[M]) -> bool
    ensures { Decides result (CanEncode M.direction messages.now) }
{
    for message in messages {
        if !message.fits(2) {
            return false;
        }
    }
    true
}

/// Puts the frames of the messages at the end of `out`, in order: all of them, or none. Each message has to fit in version 2, as
/// `can_encode` says. On a stream of version 1 the caller sends only what fits there.
///
/// The only error is `OutOfMemory`, after which `out` is as before.
#[tactic(auto, using(crate::proofs::Encoding::encode_all_facts))]
pub fn encode_all<M: Wire>(messages: &[M], out: &mut Vec<u8>) -> Result<(), MesgFault>
    requires { CanEncode M.direction messages.now }
    ensures encoded { OnOk result (out.new.items ≡ out.old.items ++ stream_of M.direction messages.now) }
    ensures unchanged { OnErr result (out.new.items ≡ out.old.items) }
    ensures memory { IfErr result (λ e. e ≡ OutOfMemory) }
{
    let before = out.len();
    for message in messages {
        if let Err(fault) = message.encode(out) {
            out.truncate(before);
            return Err(fault);
        }
    }
    Ok(())
}
