//! Edits of the user that wait over a terminal endpoint: what is typed is shown at once, also while a file is locked. Begin with `Overlay`;
//! `OrderedOverlay` has requests besides, which act behind the edits made before them.
#![tactic(auto)]

mod fault;
mod frame_plan;
mod gaps;
mod layers;
mod marks;
mod numbers;
mod ordered;
mod outcome;
mod overlay;
mod request;
mod shown_change;
mod steps;

pub use fault::{AskFault, PutFault, ReplaceFault};
pub use numbers::RequestNumbers;
pub use ordered::{MOST_WAITING_REQUESTS, OrderedOverlay};
pub use overlay::{Overlay, is_request};
pub use shown_change::{Asked, OverlayStep, Put, Told, Turn};
