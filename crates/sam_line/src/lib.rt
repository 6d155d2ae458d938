//! The terminal's end of a link, with the clock of its connections: when one is to be made, when it is to be given up, and what of it is
//! for the link. The program makes connections, moves their bytes, and hands in the time.
#![tactic(auto)]

mod clock;
mod fault;
mod greeting;
pub mod laws;
mod line;
mod question;
mod steps;

pub use clock::{
    ASK_AFTER, DROP_AFTER, DROP_AFTER_MOVE, Deadline, MISSING_FOR, PAUSES, RETRY_AFTER_MOVE,
    STEADY_AFTER, State, Tick, WELCOME_WITHIN,
};
pub use fault::ReceiveFault;
pub use line::{Line, MOST_ANSWERS, MOST_WORDS};
