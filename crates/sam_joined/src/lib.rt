//! A host endpoint and a terminal endpoint that carry each other's bytes, in whatever pieces and order, are one run of a world: [`laws`].
#![tactic(auto)]

pub mod laws;
