//! A client for C: each export does what a call of sam_client or sam_front does, and states its clauses again over the client that the
//! handle holds. What a C program owes, and what each call does, stands in include/sulgrevad.h.
#![tactic(auto)]

mod client_calls;
mod client_end;
mod client_events;
mod client_readers;
mod client_status;
mod client_tasks;
mod handle;

pub use handle::SamClient;
