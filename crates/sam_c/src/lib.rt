//! The host, the terminal, an overlay, a link, a line, a durable server and messages for C, and the replay of scripts. Each export does
//! what a call of a lower crate does, and states its clauses again over the value that the handle holds, or over the bytes that it is
//! given. What a C program owes, and what each call does, stands in include/sulgrevad.h.
#![tactic(auto)]

mod host_calls;
mod host_files;
mod host_readers;
mod journal_calls;
mod line_calls;
mod line_readers;
mod link_calls;
mod note_calls;
mod overlay_calls;
mod overlay_drops;
mod overlay_events;
mod overlay_readers;
mod recovery_calls;
mod scripts;
mod server_calls;
mod server_effects;
mod server_handle;
mod server_heir;
mod server_readers;
mod server_records;
mod server_status;
mod steps;
mod term_calls;
mod term_events;
mod term_readers;
mod term_texts;
mod term_typing;

pub use journal_calls::{SamJournalHead, SamRecord, SamRecordFrame};
pub use link_calls::SamLinkHello;
pub use note_calls::SamNote;
pub use server_effects::SamEffect;
pub use server_handle::{SamRecovery, SamServer};
