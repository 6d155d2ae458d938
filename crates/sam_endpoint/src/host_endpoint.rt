//! A host at one end of a stream of bytes each way.

ghost use Rattle.std.specs.Prelude.{◌≡◌, ◌↔◌, ◌<◌, ◌∷◌, ◌++◌, IsTrue, IfOk, OnOk, OnErr, MatchOption, drop, length, min, take, true, false, None, slice_get, option_to_list};
ghost use Rattle.std.specs.Str.{chars, is_utf8};
ghost use Rattle.std.specs.VecDeque.{deque_len, deque_capacity};
ghost use Rattle.sam_runes.specs.Checks.{first_of_checks};
ghost use Rattle.sam_endpoint.specs.HostEndpoints.{Adds, Feeds, Finishes, GoesOn, IsIdle, Marks, new_host_endpoint, add_checks, fault_place, writes_of};
ghost use Rattle.sam_endpoint.specs.HostRuns.{begun_with};
ghost use Rattle.sam_endpoint.specs.HostSteps.{Brings, Ends, Handles, HandlesNext, TakesSo, Writes, written_behind};
ghost use Rattle.sam_endpoint.specs.Streams.{FitFrames};

use crate::duplex::Duplex;
use crate::fault::{AddFault, EndpointFault, FinishFault, HostStop};
use crate::known::{know_frame, know_frames};
use sam_host::{Host, HostFault, MarkFault, Taken};
use sam_mesg::{HFrame, Tmesg};
use sam_runes::{ALL_TAGS, MAX_RUNES, MOST_IN_NAME, Text, read_utf8};
use std::alloc::{AllocError, Global};
use std::collections::VecDeque;
use std::marker::Model;
use std::str;

/// Returns how many runes the text has.
#[tactic(auto, using(std::proofs::lemmas::Str::chars_from_encodes))]
fn count_runes(text: &str) -> usize
    ensures { result ≡ length (chars text.now) }
{
    text.chars().count()
}

/// Returns how many runes the bytes spell; `None` if they are not UTF-8.
fn runes_in(bytes: &[u8]) -> Option<usize>
    ensures { MatchOption result (is_utf8 bytes.now ≡ false) (λ count. (is_utf8 bytes.now ≡ true) × (count ≡ length (chars bytes.now))) }
{
    match str::from_utf8(bytes) {
        Ok(text) => Some(count_runes(text)),
        Err(_) => None,
    }
}

/// Returns the tag of the file that the host writes when it handles the message. A host that is done writes nothing.
fn write_in(host: &Host, message: &Tmesg) -> Option<u16>
    ensures { option_to_list result ≡ writes_of host.now message.now }
{
    match message {
        Tmesg::Twrite(tag) => { if host.is_done() { None } else { Some(*tag) } }
        _ => None,
    }
}

/// Returns the oldest message that waits.
pub(crate) fn oldest(duplex: &Duplex<Tmesg, HFrame, HostStop>) -> &Tmesg
    requires { 0 < length duplex.now.waiting }
    ensures { duplex.now.waiting ≡ result.now ∷ drop 1 duplex.now.waiting }
{
    match duplex.first() {
        Some(message) => message,
        None => unreachable!(),
    }
}

/// Puts the tag after the others, if there is one. There is room for it.
fn note(writes: &mut VecDeque<u16>, tag: Option<u16>)
    requires { deque_len writes.old < deque_capacity writes.old }
    ensures { writes.new.items ≡ writes.old.items ++ option_to_list tag }
{
    if let Some(tag) = tag {
        writes.push_back_reserved(tag);
    }
}

/// A host that takes the bytes of a terminal's messages, answers them in order, and keeps the bytes of its frames until they are taken
/// out.
///
/// Out of memory loses nothing: what could not be answered or written waits, and the next `feed` goes on with it. A fault of the stream, or
/// a message that the host refuses, stops the endpoint for good, once the messages before it are answered.
///
/// ```rust
/// let mut endpoint = HostEndpoint::new(alloc)?;
/// let tag = endpoint.add_file(b"notes", b"hello\n")?;
/// endpoint.feed(piece)?;                             // bytes that came from the terminal
/// let count = endpoint.take_out(&mut buffer);        // bytes that go to the terminal
/// while let Some(tag) = endpoint.next_written() { .. } // now write endpoint.host().files().saved(tag) to disk
/// ```
#[derive(Drop)]
pub struct HostEndpoint {
    /// Where everything takes its memory from.
    alloc: Global,
    /// The host, as the messages answered so far left it.
    host: Host,
    /// The terminal's stream of messages, which wait until they are answered, and the host's of frames. Nothing waits after a `feed` that
    /// returned `Ok`. The framer has not failed while no fault is known.
    pub(crate) duplex: Duplex<Tmesg, HFrame, HostStop>,
    /// The tags of files that the terminal had the host write (Twrite) and `next_written` has not handed out, the oldest first.
    writes: VecDeque<u16>,
}

impl Model for HostEndpoint {
    ghost use Rattle.sam_endpoint.specs.HostEndpoints.{PlainHostEndpoint};
    ghost use Rattle.sam_endpoint.specs.HostSteps.{IsSound};

    ghost Value = { PlainHostEndpoint };

    ghost view = { λ a. record {
      framer = a.duplex.framer;
      host = a.host;
      waiting = a.duplex.waiting;
      broken_by = a.duplex.broken_by;
      unwritten = a.duplex.unwritten;
      pending_bytes = a.duplex.pending_bytes;
      writes = a.writes.items;
      stop = a.duplex.stop;
    } };

    ghost invariant = { λ a. IsSound (record {
      framer = a.duplex.framer;
      host = a.host;
      waiting = a.duplex.waiting;
      broken_by = a.duplex.broken_by;
      unwritten = a.duplex.unwritten;
      pending_bytes = a.duplex.pending_bytes;
      writes = a.writes.items;
      stop = a.duplex.stop;
    }) };
}

impl HostEndpoint {
    /// Makes a host with no file but the command file, to which nothing was fed. Its only error is out of memory.
    pub fn new(alloc: Global) -> Result<HostEndpoint, AllocError>
        ensures { IfOk result (λ end. end ≡ new_host_endpoint) }
    {
        let Ok(host) = Host::new(alloc, Vec::new(alloc)) else {
            return Err(AllocError);
        };
        Ok(HostEndpoint::with_host(alloc, host))
    }

    /// Makes an endpoint of this host, to which nothing was fed. It takes no memory.
    pub fn with_host(alloc: Global, host: Host) -> HostEndpoint
        ensures { result ≡ begun_with host }
    {
        HostEndpoint {
            alloc,
            host,
            duplex: Duplex::new(alloc),
            writes: VecDeque::new(alloc),
        }
    }

    /// Returns the first test of `AddFault` that stands against a file of this name and text. Out of memory is not among them.
    fn refusal(&self, name: &[u8], text: &[u8]) -> Option<AddFault>
        ensures { result ≡ first_of_checks (add_checks self.now name.now text.now) }
    {
        let Some(name) = runes_in(name) else {
            return Some(AddFault::NotText);
        };
        let Some(text) = runes_in(text) else {
            return Some(AddFault::NotText);
        };
        if name > MOST_IN_NAME || text > MAX_RUNES as usize {
            return Some(AddFault::TooLong);
        }
        if self.host.files().tags() >= ALL_TAGS {
            return Some(AddFault::NoTag);
        }
        None
    }

    /// Adds a file under the next tag, and returns the tag: 1 for the first file, 2 for the next, and so on. `name` and `text` are UTF-8
    /// (RFC 3629). The file is clean and closed, and its name is not announced yet: the answer to the terminal's next Tversion has it.
    ///
    /// It may be called at any time, also on an endpoint that has stopped, or whose terminal has exited. The host answers no message by it,
    /// and no byte becomes pending. A message that came before and still waits, as after `Unfinished`, is answered after the file has
    /// joined. The cost is that of the name and the text.
    ///
    /// Errors, in this order: `NotText` if the name or the text is not UTF-8; `TooLong` if the name has more than `MOST_IN_NAME` runes or
    /// the text more than `MAX_RUNES`; `NoTag` if all tags were given; `OutOfMemory`. After an error the endpoint is as it was.
    #[tactic(auto, using(crate::proofs::HostEndpointFiles::adds_files))]
    pub fn add_file(&mut self, name: &[u8], text: &[u8]) -> Result<u16, AddFault>
        ensures { Adds self.old name.now text.now result self.new }
    {
        if let Some(fault) = self.refusal(name, text) {
            return Err(fault);
        }
        let Ok(name) = read_utf8(self.alloc, name) else {
            return Err(AddFault::OutOfMemory);
        };
        let Ok(runes) = read_utf8(self.alloc, text) else {
            return Err(AddFault::OutOfMemory);
        };
        let Ok(text) = Text::from_runes(self.alloc, runes.as_slice()) else {
            return Err(AddFault::OutOfMemory);
        };
        match self.host.add_file(name, text) {
            Ok(tag) => Ok(tag),
            Err(_) => Err(AddFault::OutOfMemory),
        }
    }

    /// Writes what is left over, and then this frame if there is one, into the pending bytes, all or none. Its only error is out of memory,
    /// which leaves all as it was.
    #[tactic(auto, using(crate::proofs::HostEndpointMarks::writes_marks))]
    fn write_mark(&mut self, frame: Option<HFrame>) -> Result<(), AllocError>
        requires { FitFrames (option_to_list frame) }
        ensures written { OnOk result (self.new ≡ written_behind self.old (option_to_list frame)) }
        ensures unchanged { OnErr result (self.new ≡ self.old) }
    {
        match frame {
            Some(frame) => self.duplex.write_behind(frame),
            None => match self.write_answer() {
                Ok(()) => Ok(()),
                Err(_) => Err(AllocError),
            },
        }
    }

    /// Marks a file as dirty, open or not: for a program whose write of it failed, or that has another text on disk. The frame `Hdirty` for
    /// the terminal becomes pending if the file was clean, behind all that the host answered before; what `Unfinished` left over to be
    /// written becomes pending in any case. The frame frees no lock.
    ///
    /// It may be called at any time, as `add_file` may. A message that came before and still waits is answered after the mark.
    ///
    /// Errors, in this order: `NoFile` if the tag was never given or its file was closed; `CommandFile` for tag 0; `NotAnnounced` if the
    /// terminal was not told the name yet; `OutOfMemory`. After an error the endpoint is as it was; else no text, dot or name has changed.
    #[tactic(auto, using(crate::proofs::HostEndpointMarks::marks_files))]
    pub fn mark_dirty(&mut self, tag: u16) -> Result<(), MarkFault>
        ensures { Marks self.old tag result self.new }
    {
        if let Some(fault) = self.host.refusal_of_mark(tag) {
            return Err(fault);
        }
        let frame = self.host.frame_of_mark(tag);
        know_frame(&frame);
        if self.write_mark(frame).is_err() {
            return Err(MarkFault::OutOfMemory);
        }
        match self.host.mark_dirty(tag) {
            Ok(_) => Ok(()),
            Err(_) => unreachable!(),
        }
    }

    /// Takes a piece of the terminal's stream, of any length. The host answers the messages that are whole with it, in order, and the
    /// bytes of its frames are then pending. Before that it goes on with what waited; with an empty piece it does just that.
    ///
    /// Errors, in this order:
    ///
    /// - `Stopped` if the endpoint had stopped before. It is as it was.
    /// - `OutOfMemory`, or `Stopped`, as what waited goes on. The piece is not taken.
    /// - `CountFull` if the stream would be longer than 2^64-1 bytes, and then `OutOfMemory`. The piece is not taken, and nothing waits.
    /// - `Unfinished` or `Stopped`, as the messages of the piece are answered. The piece is taken, and after `Unfinished` the next call
    ///   goes on.
    ///
    /// It stops at a message that the host refuses, or at a fault of the stream after all messages. What stands before that is answered.
    pub fn feed(&mut self, piece: &[u8]) -> Result<(), EndpointFault<HostStop>>
        ensures { Feeds self.old piece.now result self.new }
    {
        if let Some(why) = self.stopped() {
            return Err(EndpointFault::Stopped(why));
        }
        if let Err(fault) = self.go_on() {
            return Err(fault.not_taken());
        }
        self.take_in(piece)?;
        self.go_on()
    }

    /// Says whether the terminal's stream may end here. Errors, in this order: `Stopped` if the endpoint has stopped before; `Unfinished`
    /// if some of what came waits, since memory was refused; `Truncated` if the stream ends inside a message. A program asks it where its
    /// input has ended.
    pub fn finish(&self) -> Result<(), FinishFault<HostStop>>
        ensures { Finishes self.now result }
    {
        self.duplex.finish()
    }

    /// Returns how many bytes for the terminal wait to be taken out.
    pub fn pending(&self) -> usize
        ensures { result ≡ length self.now.pending_bytes }
    {
        self.duplex.pending()
    }

    /// Moves the first bytes for the terminal into the buffer, as many as wait and have room there, and returns how many. The rest of the
    /// buffer stays as it was, and so does everything else of the endpoint. It works on an endpoint that has stopped, too. The cost is that
    /// of the bytes it moves.
    pub fn take_out(&mut self, into: &mut [u8]) -> usize
        ensures count { result ≡ min (length self.old.pending_bytes) (length into.old) }
        ensures bytes { into.new ≡ take result self.old.pending_bytes ++ drop result into.old }
        ensures rest { self.new ≡ record self.old { pending_bytes = drop result self.old.pending_bytes } }
    {
        self.duplex.take_out(into)
    }

    /// Lends the bytes for the terminal that wait to be taken out, in order.
    pub fn pending_bytes(&self) -> &[u8]
        ensures { result.now ≡ self.now.pending_bytes }
    {
        self.duplex.pending_bytes()
    }

    /// Takes out the first `count` bytes for the terminal without moving them, or all if fewer wait. Everything else of the endpoint stays
    /// as it was. It works on an endpoint that has stopped, too.
    pub fn consume(&mut self, count: usize)
        ensures { self.new ≡ record self.old { pending_bytes = drop count self.old.pending_bytes } }
    {
        self.duplex.consume(count);
    }

    /// Hands out the oldest tag that the terminal had the host write (Twrite) and that was not handed out before. Returns `None` if there
    /// is none.
    pub fn next_written(&mut self) -> Option<u16>
        ensures tag { result ≡ slice_get self.old.writes 0 }
        ensures rest { self.new ≡ record self.old { writes = drop 1 self.old.writes } }
    {
        self.writes.pop_front()
    }

    /// Returns the host, to be read: its files, its version, and how many messages it has taken.
    pub fn host(&self) -> &Host
        ensures { result.now ≡ self.now.host }
    {
        &self.host
    }

    /// Takes the endpoint apart, and returns its host. What waits and what is pending is dropped.
    pub fn into_host(self) -> Host
        ensures { result ≡ self.host }
    {
        self.host
    }

    /// Returns why the endpoint has stopped for good; `None` while it goes on.
    pub fn stopped(&self) -> Option<HostStop>
        ensures { result ≡ self.now.stop }
    {
        self.duplex.stopped()
    }

    /// Returns where the fault of the terminal's stream is at which the endpoint has stopped: how many bytes of the stream stand before the
    /// frame that is wrong. `None` if it goes on, or has stopped at a message that the host refused.
    pub fn fault_place(&self) -> Option<u64>
        ensures { result ≡ fault_place self.now }
    {
        match self.duplex.stopped() {
            Some(HostStop::Stream(_)) => Some(self.duplex.place()),
            Some(HostStop::Refused(_)) | None => None,
        }
    }

    /// Returns whether no message waits to be answered and no frame waits to be written. That is so whenever `feed` has returned `Ok`.
    pub fn is_idle(&self) -> bool
        ensures { IsTrue result ↔ IsIdle self.now }
    {
        self.duplex.is_idle()
    }

    /// Returns whether a message waits to be answered.
    pub(crate) fn is_waiting(&self) -> bool
        ensures { IsTrue result ↔ (0 < length self.now.waiting) }
    {
        self.duplex.is_waiting()
    }

    /// Has the host answer the oldest message that waits, which then waits no longer. All memory is had before: after `Unfinished` all is
    /// as it was. After `Stopped` the message waits on.
    pub(crate) fn answer_first(&mut self) -> Result<(), EndpointFault<HostStop>>
        requires { 0 < length self.old.waiting }
        ensures { Handles self.old result self.new }
    {
        if self.writes.reserve(1).is_err() {
            return Err(EndpointFault::Unfinished);
        }
        let message = oldest(&self.duplex);
        let tag = write_in(&self.host, message);
        match self.host.handle_lent(message) {
            Ok(frames) => {
                know_frames(frames.as_slice());
                self.duplex.drop_oldest(1);
                note(&mut self.writes, tag);
                self.duplex.leave_over(frames.into_vec());
                Ok(())
            }
            Err(HostFault::OutOfMemory) => Err(EndpointFault::Unfinished),
            Err(fault) => {
                let stop = EndpointFault::Stopped(HostStop::Refused(fault));
                Err(self.duplex.stop_by(stop))
            }
        }
    }

    /// Has the host take edits of one file that wait first, with the checks among them, at once. Returns how many messages it took; they
    /// wait no longer, and the answers to the checks are left over to be written.
    #[tactic(auto, using(crate::proofs::HostEndpointGoing::took_none))]
    pub(crate) fn take_edits(&mut self) -> usize
        ensures took { 0 < result → TakesSo self.old result self.new }
        ensures unchanged { result ≡ 0 → self.new ≡ self.old }
    {
        let Taken { count, frames } = self.host.handle_edits(self.duplex.waiting());
        if count == 0 {
            return 0;
        }
        know_frames(frames.as_slice());
        self.duplex.drop_oldest(count);
        self.duplex.leave_over(frames);
        count
    }

    /// Has the host take what waits first: edits of one file at once, with the checks among them, else the oldest message.
    fn answer_next(&mut self) -> Result<(), EndpointFault<HostStop>>
        requires { 0 < length self.old.waiting }
        ensures { HandlesNext self.old result self.new }
    {
        if self.take_edits() > 0 {
            return Ok(());
        }
        self.answer_first()
    }

    /// Writes the frames of the last answer into the pending bytes, all or none. Its only error is `Unfinished`.
    #[tactic(auto, using(crate::proofs::HostEndpointGoing::none_written))]
    pub(crate) fn write_answer(&mut self) -> Result<(), EndpointFault<HostStop>>
        ensures { Writes self.old result self.new }
    {
        self.duplex.write()
    }

    /// Stops the endpoint for good if the stream shows a fault, once all messages before it are answered.
    pub(crate) fn end(&mut self) -> Result<(), EndpointFault<HostStop>>
        ensures { Ends self.old result self.new }
    {
        match self.duplex.broken_by() {
            None => Ok(()),
            Some(fault) => {
                let stop = EndpointFault::Stopped(HostStop::Stream(fault));
                Err(self.duplex.stop_by(stop))
            }
        }
    }

    /// Goes on with what waits: it writes the last answer, and then answers and writes one message after another. Edits of one file that
    /// follow each other cost the text once, also where checks stand among them, which are answered with them.
    fn go_on(&mut self) -> Result<(), EndpointFault<HostStop>>
        requires { self.old.stop ≡ None }
        ensures { GoesOn self.old result self.new }
    {
        self.write_answer()?;
        while self.is_waiting() {
            self.answer_next()?;
            self.write_answer()?;
        }
        self.end()
    }

    /// Feeds the piece to the framer when nothing waits. Then its messages wait, and perhaps a fault after them.
    pub(crate) fn take_in(&mut self, piece: &[u8]) -> Result<(), EndpointFault<HostStop>>
        requires { self.old.broken_by ≡ None }
        ensures { Brings self.old piece.now result self.new }
    {
        self.duplex.take_in(piece)
    }
}
