//! A client, and at the other end a program with a durable server, which may be killed at any moment: where that leaves them: [`laws`].
#![tactic(auto)]

pub mod laws;
