//! The locks that messages take as they are composed, as in samterm, and a small test of messages.

ghost use Rattle.std.specs.Prelude.{◌≡◌};
ghost use Rattle.sam_term.specs.Locking.{is_request};

use sam_mesg::Tmesg;

/// The lock that composing a message takes. It keeps the user out of a file, or of all files, until the host's answer has come: a frame
/// frees it.
#[derive(Drop)]
pub enum Lock {
    /// None: the user may go on at once.
    NoLock,
    /// The command lock, under which no event acts. `Hunlock` or `Hexit` frees it.
    CommandLock,
    /// One lock of this file, under which no event on it acts. `Hunlockfile` frees one, `Hclose` all of the file, `Hexit` all.
    FileLock(u16),
}

/// Returns whether a message is a `Trequest`, whose file then awaits its `Hdata`.
pub fn is_request(message: &Tmesg) -> bool
    ensures { result ≡ is_request message.now }
{
    match message {
        Tmesg::Trequest(_, _, _) => true,
        _ => false,
    }
}
