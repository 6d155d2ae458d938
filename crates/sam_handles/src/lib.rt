//! What the calls for C share, whichever library exports them: the handles that a C program holds, the structs that it reads, the numbers
//! that it gets, and how texts go into its buffers. include/sulgrevad.h says what each is.
#![tactic(auto)]

pub mod did;
pub mod event;
pub mod handle;
mod lending;
pub mod line_details;
pub mod line_status;
pub mod link_id;
pub mod link_status;
pub mod measures;
pub mod members;
pub mod note_status;
pub mod overlay_status;
pub mod parts;
pub mod shown;
pub mod snapshots;
pub mod splice;
pub mod status;
pub mod telling;
pub mod utf8;
