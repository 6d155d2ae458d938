//! Each call of a line is a step of its laws: what they suppose of a call is what its own clauses say.

ghost use Rattle.std.specs.Prelude.{◌≤◌, length};
ghost use Rattle.sam_line.specs.Calls.{LineDoes};
ghost use Rattle.sam_line.specs.Calls.LineCall.{Acknowledge, AddressChanged, Ask, Broken, Connected, Expect, NextNote, NotConnected, Put, PutNote, Receive};
ghost use Rattle.sam_line.specs.Calls.LineCall.{TakeIn, TakeOut, TickAt};

use crate::clock::Tick;
use crate::fault::ReceiveFault;
use crate::line::Line;
use sam_link::{CallFault, NotOpen, NoteFault, PutFault};

/// `Line::tick`.
pub fn tick(line: &mut Line, now: u64) -> Tick
    ensures { LineDoes line.old (TickAt now result) line.new }
{
    line.tick(now)
}

/// `Line::connected`.
pub fn connected(line: &mut Line, now: u64) -> Result<u64, CallFault>
    ensures { LineDoes line.old (Connected now result) line.new }
{
    line.connected(now)
}

/// `Line::not_connected`.
pub fn not_connected(line: &mut Line, now: u64)
    ensures { LineDoes line.old (NotConnected now) line.new }
{
    line.not_connected(now);
}

/// `Line::broken`.
pub fn broken(line: &mut Line, attempt: u64, now: u64)
    ensures { LineDoes line.old (Broken attempt now) line.new }
{
    line.broken(attempt, now);
}

/// `Line::address_changed`.
pub fn address_changed(line: &mut Line, now: u64)
    ensures { LineDoes line.old (AddressChanged now) line.new }
{
    line.address_changed(now);
}

/// `Line::expect`.
pub fn expect(line: &mut Line, expects: bool, now: u64)
    ensures { LineDoes line.old (Expect expects now) line.new }
{
    line.expect(expects, now);
}

/// `Line::receive`.
pub fn receive(line: &mut Line, attempt: u64, piece: &[u8], now: u64) -> Result<(), ReceiveFault>
    ensures { LineDoes line.old (Receive attempt piece.now now result) line.new }
{
    line.receive(attempt, piece, now)
}

/// `Line::put`.
pub fn put(line: &mut Line, bytes: &[u8], now: u64) -> Result<(), PutFault>
    ensures { LineDoes line.old (Put bytes.now now result) line.new }
{
    line.put(bytes, now)
}

/// `Line::put_note`.
pub fn put_note(line: &mut Line, bytes: &[u8], now: u64) -> Result<(), NoteFault>
    ensures { LineDoes line.old (PutNote bytes.now now result) line.new }
{
    line.put_note(bytes, now)
}

/// `Line::ask`.
pub fn ask(line: &mut Line, now: u64) -> Result<(), PutFault>
    ensures { LineDoes line.old (Ask now result) line.new }
{
    line.ask(now)
}

/// `Line::acknowledge`.
pub fn acknowledge(line: &mut Line) -> Result<(), PutFault>
    ensures { LineDoes line.old (Acknowledge result) line.new }
{
    line.acknowledge()
}

/// `Line::take_out`.
pub fn take_out(line: &mut Line, attempt: u64, into: &mut [u8]) -> Result<usize, NotOpen>
    ensures { LineDoes line.old (TakeOut attempt into.old result into.new) line.new }
{
    line.take_out(attempt, into)
}

/// `Line::take_in`.
pub fn take_in(line: &mut Line, into: &mut [u8]) -> usize
    ensures { LineDoes line.old (TakeIn into.old result into.new) line.new }
{
    line.take_in(into)
}

/// `Line::next_note`.
pub fn next_note(line: &mut Line, into: &mut [u8]) -> Option<usize>
    requires { 4096 ≤ length into.old }
    ensures { LineDoes line.old (NextNote into.old result into.new) line.new }
{
    line.next_note(into)
}
