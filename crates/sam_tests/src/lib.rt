//! Tests, without threads, of what neither a script nor a caller of the C library sees. Each module has the crate, or the part of one, that
//! it is named after. `tests/library/rows` has all others.
#![tactic(auto)]

#[cfg(test)]
mod client;
#[cfg(test)]
mod journal;
#[cfg(test)]
mod line;
#[cfg(test)]
mod link;
#[cfg(test)]
mod messages;
#[cfg(test)]
mod ordered;
#[cfg(test)]
mod overlay;
#[cfg(test)]
mod pending;
#[cfg(test)]
mod rest;
#[cfg(test)]
mod sections;
#[cfg(test)]
mod server;
#[cfg(test)]
mod world;
