//! What the line of events carries to the terminal.

use sam_mesg::HFrame;
use sam_term::event::UserEvent;

/// One item of the line of events. The keyboard (sender 0) and the mouse (sender 1) send only `User`, and the host reader (sender 2) sends
/// only `Host`.
#[derive(Drop)]
pub enum Input {
    /// Something the user did, at the keyboard or with the mouse.
    User(UserEvent),
    /// A frame of the host, as the host reader cut it from the stream.
    Host(HFrame),
}
