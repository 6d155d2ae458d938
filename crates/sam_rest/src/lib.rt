//! Coming to rest: no session is ever stuck.
//!
//! An event applies in a world where it is not the user's and changes something (`Applies` in specs/Rest). The laws say that such events
//! come to an end, whatever their order; that where none applies any more nothing is unsent, under way, held or locked, and no request
//! awaits its data; and that a view that was set last has no gap then. The steps of a `drain` are such events, and
//! [`Rest::rest`](resting::Rest::rest) makes them happen until none applies. One law more is of names: a Version tells them all.
//!
//! How it is proved. Each step but an act lowers a number (`work` in proofs/Work): the messages that are under way to the host, two if
//! runes are unsent, and a weight for each frame that comes once the host has answered all of these. A frame that may make the terminal
//! ask for a gap weighs four times what its file wants besides: the gaps that are left once all frames have come, and one for each frame
//! that may move them and has no data after it (`wants` in proofs/Gaps). A request that gets an answer lowers that: none is awaited when
//! it is composed, so no data are under way, and either a frame that moves gaps is, which then has data after it, or the gap is where it
//! was and is filled. An act may raise the number, but there are only so many held events (proofs/Ends). Each Hdata that comes was asked
//! for, and in the end no request is awaited (proofs/Actions, Kept, Steps). How many events of a drain are left is a count (`steps_left`
//! in proofs/Rule), which falls at each drain of `rest` (proofs/Drains).
//!
//! Of names: those that the terminal knows are changed by frames alone (proofs/TermNames), and each answer tells as much of a file's name
//! as it changes (proofs/HostNames). After a Version only a file that joins is not announced (proofs/Announced, Names).
#![tactic(auto)]

pub mod laws;
pub mod resting;

pub use resting::Rest;
