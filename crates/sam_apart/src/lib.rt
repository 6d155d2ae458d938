//! A host and a terminal that work apart, joined only by streams of bytes, are one run of a world: [`laws`].
#![tactic(auto)]

pub mod laws;
