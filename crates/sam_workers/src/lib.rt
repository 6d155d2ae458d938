//! Four of the five workers of a session: the keyboard, the mouse, the host and the host reader; and a terminal that is fed in pieces. The
//! worker of the terminal stands in `sam_term_worker`.
#![tactic(auto)]

mod drain;
mod feeding;
mod host_side;
mod pieces;
mod reader;
mod users;

pub use feeding::{Fed, feed_terminal};
pub use host_side::serve_host;
pub use reader::pass_frames;
pub use users::send_events;
