//! A link: two ends, whose bytes and notes go over connections that may break anywhere, each once and in order.
//!
//! docs/reference/LINK.md has the wire. An end keeps what it puts until the other side has acknowledged it, and each connection goes on
//! where the other side's hello says.
#![tactic(auto)]

mod answering;
mod fault;
mod feeding;
mod hello;
mod inbox;
mod keeping;
mod laws;
mod link;
mod packet;
mod phase;
mod reading;
mod steps;
mod writing;

pub use fault::{AnswerFault, CallFault, FeedFault, NotOpen, NoteFault, WelcomeFault};
pub use hello::{HELLO_BYTES, Hello, Id, Refusal, What, read_hello};
pub use inbox::Place;
pub use keeping::{Kept, PutFault};
pub use laws::{
    carried_is_all, connections_are_made, good_line_delivers, honest_meet, links_carry, one_feed,
    one_hello, one_reading, turns_deliver,
};
pub use link::{Counts, Link};
pub use packet::MOST_BODY;
pub use phase::{Phase, Role};
pub use reading::PacketFault;
