//! Tests that need threads, of what neither a script nor a row of `tests/library/rows` can see: the lines between threads and their bells,
//! and the gates of a session.
#![tactic(auto)]

#[cfg(test)]
mod bells;
#[cfg(test)]
mod gates;
#[cfg(test)]
mod lines;
