//! As if there were no network: a session ends where the same events on one machine would have ended.
//!
//! This crate computes nothing. Its definitions say what an editor without a network is: both sides with nothing under way between them
//! and each rune loaded, where each event of the user is carried through to its end before the next one begins (`carried`,
//! `carried_all` in specs/Local). Its laws say that every run of a world comes to just what its events do to that editor, in the same
//! order, however slow the line is, however messages cross, and whichever side goes first.
//!
//! How it is proved. `outlook` of a world is what both sides come to where nothing new is begun: the host answers all that is under way
//! and the unsent runes, the terminal takes all frames, and all runes are loaded. A step that takes a message or a frame, or sends the
//! unsent runes, leaves it (proofs/Steps, Takes). An act does to it what the event does to the editor without a network (proofs/Acts):
//! just what stands against the event here stands against it there (proofs/Checks); what it changes at a free file moves past all that is
//! under way, since that leaves a free file alone (proofs/Gentle); and it leaves the same messages for the host
//! (proofs/Events), where runes that join those which are unsent come to what they come to alone (proofs/Joined).
//!
//! What an event does to that editor is read off its messages and their answers (proofs/Editing, Replacing, Finding, Looking, Lines,
//! Opening): a change of both sides is one of the editor that they are at rest (proofs/Whole), and frames of one file compose
//! (proofs/Seen). By these laws each event keeps the terminal's names and marks the host's (proofs/Names).
#![tactic(auto)]

pub mod laws;
