//! A session whose host is a server with a journal, and may crash at any moment, is a session in which a connection breaks: [`laws`].
//!
//! The server stands here as a definition: what it does with each record, what may go out before a record is durable, and what a crash
//! leaves. What a program does by the calls of sam_server is such a session (`programs_are_served`).
#![tactic(auto)]

pub mod laws;
