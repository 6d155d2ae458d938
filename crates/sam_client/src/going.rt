//! How a client goes on: what moves between its parts, one thing after another.

ghost use Rattle.std.specs.Prelude.{◌≡◌, ◌↔◌, IsTrue, length, ℕ, ◌^◌, ◌<◌, ◌≤◌, []};
ghost use Rattle.sam_endpoint.specs.TermStepping.{IsReady};
ghost use Rattle.sam_client.specs.Clients.{Does, HasReceived, fetched};
ghost use Rattle.sam_client.specs.Clients.Act.{ActNext, AskHost, Bring, Fetch, FetchNote, PutEdit, Send, SendNote, Step, TellRefusal};
ghost use Rattle.sam_client.specs.Going.{EditIdle, EditsIdle, EndIdle, GoesOn, IfIdle, InIdle, IsNextTag, IsPut, OutIdle, RequestsIdle, Rests, most_moves, step_event};
ghost use Rattle.sam_client.specs.Notes.{HasActed, PutsNote, SendsAll, SendsWithNote, WritesActed, note_fault};

use crate::client::Client;
use crate::event::Event;
use crate::fault::GoOnFault;
use sam_endpoint::{BringFault, EndpointFault, TermEndpoint, TermStep, TermStop};
use sam_link::{MOST_BODY, NoteFault, PutFault as SendFault};
use sam_overlay::{OverlayStep, Put, PutFault, Turn};
use sam_runes::ALL_TAGS;
use sam_term::Refusal;

/// So many moves at most are made by one call.
pub const MOST_MOVES: usize = 1_000;

/// Returns what is told of a step.
fn told_of_step(step: OverlayStep) -> Event
    ensures { result ≡ step_event step }
{
    match step.step {
        TermStep::Idle | TermStep::Locked => Event::Idle,
        TermStep::Wrote => Event::Busy,
        TermStep::Refused { .. } => Event::Busy,
        TermStep::Received { .. } => Event::Stepped(step),
        TermStep::Acted { .. } => Event::Stepped(step),
    }
}

/// Returns whether messages of what acted last are left over to be written.
#[tactic(auto, using(crate::proofs::NoteLaws::left_over))]
fn has_acted(end: &TermEndpoint) -> bool
    ensures { IsTrue result ↔ HasActed end.now }
{
    match end.stopped() {
        Some(_) => false,
        None => match end.first_frame() {
            Some(_) => false,
            None => !end.is_idle(),
        },
    }
}

/// Returns the fault of a note in front of which the line did not take what was composed.
fn note_fault(why: SendFault) -> NoteFault
    ensures { result ≡ note_fault why }
{
    match why {
        SendFault::CountFull => NoteFault::CountFull,
        SendFault::OutOfMemory => NoteFault::OutOfMemory,
    }
}

impl Client {
    // ---- One thing

    /// Hands out the oldest refusal of an event.
    fn tell_refusal(&mut self) -> Option<(u64, Refusal)>
        ensures { Does self.old (TellRefusal result) self.new }
    {
        self.ordered.next_refusal()
    }

    /// Has the terminal's end go on by one step.
    fn step(&mut self) -> Result<OverlayStep, EndpointFault<TermStop>>
        ensures { Does self.old (Step result) self.new }
    {
        self.ordered.step()
    }

    /// Has the oldest request act, if nothing is left before it: the terminal's end holds it then.
    fn act_next(&mut self) -> Result<Turn, PutFault>
        ensures { Does self.old (ActNext result) self.new }
    {
        self.ordered.act_next()
    }

    /// Puts the next edit that waits over a file as an event, if no request stands before it.
    fn put_edit(&mut self, tag: u16) -> Result<Put, PutFault>
        ensures { Does self.old (PutEdit tag result) self.new }
    {
        self.ordered.put_next(tag)
    }

    /// Puts all that the end composed into the line.
    fn send(&mut self, now: u64) -> Result<(), SendFault>
        ensures { Does self.old (Send self.old.ordered.overlay.end.pending_bytes now result) self.new }
    {
        self.line
            .put(self.ordered.overlay().end().pending_bytes(), now)?;
        let count = self.overlay().end().pending();
        self.ordered.consume(count);
        Ok(())
    }

    /// Puts a note into the line, where nothing is left of what the end composed.
    fn send_note(&mut self, bytes: &[u8], now: u64) -> Result<(), NoteFault>
        requires { self.old.ordered.overlay.end.pending_bytes ≡ [] }
        ensures { Does self.old (SendNote bytes.now now result) self.new }
    {
        self.line.put_note(bytes, now)
    }

    /// Takes the bytes that leave the line next.
    fn fetch(&mut self)
        requires { HasReceived self.old }
        ensures { Does self.old (Fetch self.new.held) self.new }
    {
        self.held.fetch(&mut self.line);
    }

    /// Brings the terminal's end the held bytes.
    fn bring(&mut self) -> Result<(), BringFault<TermStop>>
        ensures { Does self.old (Bring self.old.held result) self.new }
    {
        self.ordered.bring(self.held.bytes())?;
        self.held.clear();
        Ok(())
    }

    /// Takes the note that leaves the line next, and returns whether there is one.
    fn fetch_note(&mut self) -> bool
        requires { HasReceived self.old }
        ensures { Does self.old (FetchNote (fetched result self.new.note)) self.new }
    {
        self.note.fetch_note(&mut self.line)
    }

    /// Asks the host whether all has come.
    fn ask_host(&mut self, now: u64) -> Result<(), SendFault>
        ensures { Does self.old (AskHost now result) self.new }
    {
        self.line.ask(now)
    }

    // ---- One part of going on: each answers `Idle` where it has nothing to do

    /// Tells a refusal, or makes a step.
    fn go_on_end(&mut self) -> Result<Event, GoOnFault>
        ensures goes { (now : ℕ) → GoesOn now 1 self.old result self.new }
        ensures idle { IfIdle result (EndIdle self.new) }
    {
        if let Some((number, why)) = self.tell_refusal() {
            return Ok(Event::Refused(number, why));
        }
        match self.step() {
            Ok(step) => Ok(told_of_step(step)),
            Err(why) => Err(GoOnFault::of_step(why)),
        }
    }

    /// Has the oldest request act.
    fn go_on_requests(&mut self) -> Result<Event, GoOnFault>
        ensures goes { (now : ℕ) → GoesOn now 1 self.old result self.new }
        ensures idle { IfIdle result (RequestsIdle self.old self.new) }
    {
        match self.act_next() {
            Ok(Turn::Request) => Ok(Event::Busy),
            Ok(Turn::Nothing) => Ok(Event::Idle),
            Ok(Turn::NotYet) => Ok(Event::Idle),
            Err(why) => Err(GoOnFault::of_act(why)),
        }
    }

    /// Puts the next edit of a file.
    fn go_on_edit(&mut self, tag: u16) -> Result<Event, GoOnFault>
        ensures goes { (now : ℕ) → GoesOn now 1 self.old result self.new }
        ensures idle { IfIdle result (EditIdle tag self.old self.new) }
    {
        match self.put_edit(tag) {
            Ok(Put::Edit) => Ok(Event::Busy),
            Ok(Put::Nothing) => Ok(Event::Idle),
            Ok(Put::NotFree) => Ok(Event::Idle),
            Err(why) => match GoOnFault::of_put(why) {
                Some(fault) => Err(fault),
                None => Ok(Event::Idle),
            },
        }
    }

    /// Returns the first tag from that one on for whose file a list of edits is kept, or `ALL_TAGS`.
    #[tactic(auto, using(crate::proofs::GoingLaws::all_show))]
    fn next_kept(&self, from: usize) -> usize
        requires { from ≤ 2 ^ 16 }
        ensures next { IsNextTag self.now.ordered.overlay from result }
        ensures put { (f : ℕ) → from ≤ f → f < result → IsPut self.now.ordered f }
    {
        if from >= ALL_TAGS {
            return ALL_TAGS;
        }
        match self.overlay().next_kept(from as u16) {
            Some(tag) => tag as usize,
            None => ALL_TAGS,
        }
    }

    /// Puts the next edit of the first file that has one which can act, and lets go the lists of which none is left.
    #[tactic(auto, using(crate::proofs::GoingLaws::none_so_far))]
    fn go_on_edits(&mut self) -> Result<Event, GoOnFault>
        ensures goes { (now : ℕ) → GoesOn now 1 self.old result self.new }
        ensures idle { IfIdle result (EditsIdle self.old self.new) }
    {
        let mut tag = self.next_kept(0);
        'tags: while tag < ALL_TAGS {
            match self.go_on_edit(tag as u16)? {
                Event::Idle => {}
                event => return Ok(event),
            }
            tag = self.next_kept(tag + 1);
        }
        self.overlay().facts();
        Ok(Event::Idle)
    }

    /// Puts what the end composed into the line.
    fn go_on_out(&mut self, now: u64) -> Result<Event, GoOnFault>
        ensures goes { GoesOn now 1 self.old result self.new }
        ensures idle { IfIdle result (OutIdle self.old self.new) }
    {
        if self.overlay().end().pending() == 0 {
            return Ok(Event::Idle);
        }
        match self.send(now) {
            Ok(()) => Ok(Event::Busy),
            Err(why) => Err(GoOnFault::of_send(why)),
        }
    }

    /// Brings the terminal's end what comes from the line, or takes a note; asks the host where there is nothing.
    fn go_on_in(&mut self, now: u64) -> Result<Event, GoOnFault>
        requires { IsReady self.old.ordered.overlay.end }
        ensures goes { GoesOn now 1 self.old result self.new }
        ensures idle { IfIdle result (InIdle self.old self.new) }
    {
        if !self.held.is_empty() {
            return match self.bring() {
                Ok(()) => Ok(Event::Busy),
                Err(why) => Err(GoOnFault::of_bring(why)),
            };
        }
        self.fetch();
        if !self.held.is_empty() {
            return Ok(Event::Busy);
        }
        if self.fetch_note() {
            return Ok(Event::Note);
        }
        match self.ask_host(now) {
            Ok(()) => Ok(Event::Idle),
            Err(why) => Err(GoOnFault::of_send(why)),
        }
    }

    // ---- All

    /// Goes on by what can move first.
    fn advance(&mut self, now: u64) -> Result<Event, GoOnFault>
        ensures goes { GoesOn now 1 self.old result self.new }
        ensures idle { IfIdle result (Rests self.new) }
    {
        match self.go_on_end()? {
            Event::Idle => {}
            event => return Ok(event),
        }
        match self.go_on_requests()? {
            Event::Idle => {}
            event => return Ok(event),
        }
        match self.go_on_edits()? {
            Event::Idle => {}
            event => return Ok(event),
        }
        match self.go_on_out(now)? {
            Event::Idle => {}
            event => return Ok(event),
        }
        self.go_on_in(now)
    }

    /// Goes on until there is something to tell: bytes of the host go from the line to the terminal's end, its steps are made, requests act
    /// and edits of free files are put in their one order, and what the end composed goes into the line. Call it after each call that
    /// brought something, until it answers `Idle`. It makes `MOST_MOVES` moves at most that do something, and answers `Busy` just if it
    /// made so many and nothing is to be told.
    ///
    /// Errors: `Stopped` if the terminal's end has stopped; `CountFull` if a count of bytes or events would pass 2^64-1; `OutOfMemory`.
    /// Nothing is lost by them: the next call goes on.
    pub fn go_on(&mut self, now: u64) -> Result<Event, GoOnFault>
        ensures goes { GoesOn now most_moves self.old result self.new }
        ensures idle { IfIdle result (Rests self.new) }
    {
        'moves: for _made in 0..MOST_MOVES {
            match self.advance(now)? {
                Event::Busy => {}
                event => return Ok(event),
            }
        }
        Ok(Event::Busy)
    }

    // ---- Notes

    /// Puts all that the end composed into the line, if there is something.
    fn send_all(&mut self, now: u64) -> Result<(), SendFault>
        ensures { SendsAll self.old now result self.new }
    {
        if self.overlay().end().pending() == 0 {
            return Ok(());
        }
        self.send(now)
    }

    /// Has the terminal's end write the messages of what acted last, if these are left over.
    #[tactic(auto, using(crate::proofs::NoteLaws::step_writes, crate::proofs::NoteLaws::step_fails))]
    fn write_acted(&mut self) -> Result<(), EndpointFault<TermStop>>
        ensures { WritesActed self.old result self.new }
    {
        if !has_acted(self.overlay().end()) {
            return Ok(());
        }
        match self.step() {
            Ok(_) => Ok(()),
            Err(why) => Err(why),
        }
    }

    /// Puts all that was written into the line, and a note behind it.
    fn send_with_note(&mut self, bytes: &[u8], now: u64) -> Result<(), NoteFault>
        requires { length bytes.now ≤ 4096 }
        ensures { SendsWithNote self.old bytes.now now result self.new }
    {
        match self.send_all(now) {
            Ok(()) => self.send_note(bytes, now),
            Err(why) => Err(note_fault(why)),
        }
    }

    /// Puts a note for the host's program, behind all that acted. Errors, in this order: `TooLong` for more than 4,096 bytes, after which
    /// all is as before; `CountFull`, `OutOfMemory`, after which the note is not put.
    pub fn put_note(&mut self, bytes: &[u8], now: u64) -> Result<(), NoteFault>
        ensures { PutsNote self.old bytes.now now result self.new }
    {
        if bytes.len() > MOST_BODY {
            return Err(NoteFault::TooLong);
        }
        match self.write_acted() {
            Ok(()) => self.send_with_note(bytes, now),
            Err(_) => Err(NoteFault::OutOfMemory),
        }
    }
}
