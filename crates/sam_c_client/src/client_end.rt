//! `ClientEnd`: a client with its tasks and loads, and the splices that its program has still to take.

use sam_front::Front;
use sam_shown::Splices;

/// A client with what is asked of it, and the changes of the shown text that its last step made and that were not handed out yet.
#[derive(Drop)]
pub struct ClientEnd {
    /// The client, its requests, its tasks, and what it loads by itself.
    pub front: Front,
    /// The changes of the shown text by the last step that were not handed out.
    pub splices: Splices,
}
