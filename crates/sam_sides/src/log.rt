//! The log that the terminal of a session writes.

use sam_term::event::UserEvent;

/// One entry of a terminal's log. The terminal of a session writes down what it does, in order; `merge` of sam_world makes a schedule of
/// both sides from it.
#[derive(Drop)]
pub enum TermLog {
    /// The user did this, and the terminal held it.
    User(UserEvent),
    /// The oldest held event was done or refused. An attempt that a lock held back is not written down.
    Act,
    /// The unsent runes, where there were any, were composed as a message.
    Flush,
    /// A frame was taken. The number is its stamp: how many messages the host had taken, with the one that the frame answers.
    Take(u64),
}
