//! A session whose terminal is a client: what its calls come to: [`laws`].
#![tactic(auto)]

pub mod laws;
