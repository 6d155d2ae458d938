//! The client: what the program calls.

ghost use Rattle.std.specs.Prelude.{◌≡◌, ◌↔◌, IsTrue, false, length};
ghost use Rattle.sam_line.specs.Calls.LineCall.{Acknowledge, AddressChanged, Broken, Connected, Expect, NotConnected, Receive, TakeOut, TickAt};
ghost use Rattle.sam_line.specs.Clock as clocks;
ghost use Rattle.sam_line.specs.Line.{is_due};
ghost use Rattle.sam_overlay.specs.Calls.{shown_at};
ghost use Rattle.sam_overlay.specs.Overlays.{is_request};
ghost use Rattle.sam_overlay.specs.Requests.{is_closing};
ghost use Rattle.sam_term.specs.Term.{rasp_at};
ghost use Rattle.sam_client.specs.Clients.{Does, new_client};
ghost use Rattle.sam_client.specs.Delivery.{HasAll, HasSent, is_unsaved};
ghost use Rattle.sam_client.specs.Clients.Act.{OfLine, Replace, Request, TakeBack};
ghost use Rattle.sam_client.specs.Batches.{ReplacesEach};

use crate::packet::Packet;
use crate::replacement::{Replaced, Replacement};
use sam_line::{Line, ReceiveFault, Tick};
use sam_link::{CallFault, Id, NotOpen, PutFault};
use sam_overlay::{AskFault, Asked, OrderedOverlay, Overlay, ReplaceFault};
use sam_pending::{Dropped, PendingFault};
use sam_term::UserEvent;
use std::alloc::Global;

/// The terminal's side of a session: a terminal's end with edits and requests that wait, and its line to the host. It has no input, output
/// or clock of its own: the program makes connections, moves their bytes, hands in the time, in milliseconds of any clock, and shows what
/// is told.
///
/// ```rust
/// let mut client = Client::new(alloc, id, false, now);
/// client.replace(1, 5, 5, &['!'])?;                        // the user types, whatever is locked
/// client.ask(UserEvent::Write(1))?;                        // and saves what is shown now
/// client.receive(attempt, piece, now)?;                    // a connection brought bytes
/// loop {
///     match client.go_on(now)? {
///         Event::Stepped(step) => show(step.tag, step.told),
///         Event::Refused(number, why) => tell(number, why),
///         Event::Note => hear(client.note()),
///         Event::Busy => {}
///         Event::Idle => break,
///     }
/// }
/// let count = client.take_out(attempt, &mut buffer)?;      // bytes for the connection
/// ```
#[derive(Drop)]
pub struct Client {
    pub(crate) ordered: OrderedOverlay,
    pub(crate) line: Line,
    /// What left the line, and the terminal's end has not got.
    pub(crate) held: Packet,
    /// The note that left the line last.
    pub(crate) note: Packet,
}

impl Client {
    /// Makes a client of the session of this name, at this time, that knows no file. The first connection is due at once. `take_over` asks
    /// for a session of the texts of another, as long as no welcome has come. It takes no memory.
    pub fn new(alloc: Global, id: Id, take_over: bool, now: u64) -> Client
        ensures { result ≡ new_client id take_over now }
    {
        Client {
            ordered: OrderedOverlay::new(alloc),
            line: Line::new(alloc, id, take_over, now),
            held: Packet::new(),
            note: Packet::new(),
        }
    }

    // ---- The line

    /// Says what the program is to do at this time, as `Line::tick` does.
    pub fn tick(&mut self, now: u64) -> Tick
        ensures { Does self.old (OfLine (TickAt now result)) self.new }
    {
        self.line.tick(now)
    }

    /// Returns how many milliseconds it is until `tick` has something to say, as `Line::due_in` does.
    pub fn due_in(&self, now: u64) -> Option<u64>
        ensures { result ≡ clocks.due_in self.now.line.clock (is_due self.now.line) now }
    {
        self.line.due_in(now)
    }

    /// Takes a connection that is open, and returns its number, as `Line::connected` does. The only error that comes is `CountFull`.
    pub fn connected(&mut self, now: u64) -> Result<u64, CallFault>
        ensures { Does self.old (OfLine (Connected now result)) self.new }
    {
        self.line.connected(now)
    }

    /// Notes that no connection could be made, as `Line::not_connected` does.
    pub fn not_connected(&mut self, now: u64)
        ensures { Does self.old (OfLine (NotConnected now)) self.new }
    {
        self.line.not_connected(now);
    }

    /// Notes that the connection of this number is over, as `Line::broken` does.
    pub fn broken(&mut self, attempt: u64, now: u64)
        ensures { Does self.old (OfLine (Broken attempt now)) self.new }
    {
        self.line.broken(attempt, now);
    }

    /// Notes that an address of the machine came or went, as `Line::address_changed` does.
    pub fn address_changed(&mut self, now: u64)
        ensures { Does self.old (OfLine (AddressChanged now)) self.new }
    {
        self.line.address_changed(now);
    }

    /// Notes whether the program waits for an answer of the host's program, as `Line::expect` does.
    pub fn expect(&mut self, expects: bool, now: u64)
        ensures { Does self.old (OfLine (Expect expects now)) self.new }
    {
        self.line.expect(expects, now);
    }

    /// Takes the next piece of the connection of this number, all of it or nothing, as `Line::receive` does. Then go on. Errors are those
    /// of that call, in its order.
    pub fn receive(&mut self, attempt: u64, piece: &[u8], now: u64) -> Result<(), ReceiveFault>
        ensures { Does self.old (OfLine (Receive attempt piece.now now result)) self.new }
    {
        self.line.receive(attempt, piece, now)
    }

    /// Moves the next bytes for the connection of this number into the buffer, and returns how many, as `Line::take_out` does. Go on
    /// before, so that all is there. The error is `NotOpen`. It takes no memory.
    pub fn take_out(&mut self, attempt: u64, into: &mut [u8]) -> Result<usize, NotOpen>
        ensures { Does self.old (OfLine (TakeOut attempt into.old result into.new)) self.new }
    {
        self.line.take_out(attempt, into)
    }

    /// Tells the host how many of its bytes have come, as `Line::acknowledge` does. Errors, in this order: `CountFull`, `OutOfMemory`,
    /// after which all is as before.
    pub fn acknowledge(&mut self) -> Result<(), PutFault>
        ensures { Does self.old (OfLine (Acknowledge result)) self.new }
    {
        self.line.acknowledge()
    }

    // ---- What the user does

    /// Puts `runes` in the place of what is shown of a file from place `p` to place `q`, behind all requests that wait, as
    /// `OrderedOverlay::replace` does. It is shown at once, whatever is locked, and goes to the host as the client goes on. Errors are
    /// those of that call, in its order; after each all is as before.
    pub fn replace(&mut self, tag: u16, p: u32, q: u32, runes: &[char]) -> Result<(), ReplaceFault>
        ensures { Does self.old (Replace tag p q runes.now result) self.new }
    {
        self.ordered.replace(tag, p, q, runes)
    }

    /// Makes replacements of what is shown of a file, one after another, each as `replace` does: its places are those of the text that the
    /// ones before it have left. Each takes its runes from `runes`, in their order, as many as are left and no more. It stops in front of
    /// the first one that is refused, which changes nothing, and returns how many were made, and why it stopped.
    #[tactic(auto, using(crate::proofs::BatchLaws::begun))]
    pub fn replace_each(
        &mut self,
        tag: u16,
        replacements: &[Replacement],
        runes: &[char],
    ) -> Replaced
        ensures { ReplacesEach self.old tag replacements.now runes.now result self.new }
    {
        let mut left = replacements;
        let mut rest = runes;
        let mut made = 0;
        'left: while !left.is_empty() {
            let next = left[0];
            let count = rest.len().min(next.count as usize);
            let result = self.replace(tag, next.p, next.q, &rest[..count]);
            if result.is_err() {
                return Replaced { made, result };
            }
            made += 1;
            left = &left[1..];
            rest = &rest[count..];
        }
        Replaced {
            made,
            result: Ok(()),
        }
    }

    /// Takes a request of the user in behind the others, as `OrderedOverlay::ask` does, and says which write that waits it shares, if it
    /// shares one: an event that leaves each text but that of the command file (`is_request` of sam_overlay). It acts as the client goes
    /// on, and comes to the text that is shown now, with the host's changes since. Errors are those of that call, in its order; after each
    /// all is as before.
    pub fn ask(&mut self, event: UserEvent) -> Result<Asked, AskFault>
        requires { IsTrue (is_request event) }
        ensures { Does self.old (Request event result) self.new }
    {
        self.ordered.ask(event)
    }

    /// Takes back the next runes that wait over a file for which its text has no room, as `OrderedOverlay::drop_next` does, and returns
    /// them and where they stood. `None` if there are none, or no edit of the file can act at once. So a program asks where the client is
    /// idle and edits wait over a free file. The only error is `OutOfMemory`, after which all is as before.
    pub fn drop_next(&mut self, tag: u16) -> Result<Option<Dropped>, PendingFault>
        ensures { Does self.old (TakeBack tag result) self.new }
    {
        self.ordered.drop_next(tag)
    }

    // ---- Readers

    /// Returns whether nothing that the user did is left here: no request and no edit waits, no event is held, no rune that was typed is
    /// unsent, and all that was composed was taken, also the answers to the host's frames.
    #[tactic(auto, using(crate::proofs::DeliveryLaws::sent_facts))]
    fn has_sent(&self) -> bool
        ensures { IsTrue result ↔ HasSent self.now.ordered }
    {
        let end = self.overlay().end();
        if self.requests() != 0 {
            return false;
        }
        if end.term().held() != 0 || end.term().has_unsent() || end.pending() != 0 {
            return false;
        }
        match self.overlay().next_waiting(0) {
            Some(_) => false,
            None => end.is_idle(),
        }
    }

    /// Returns whether the host's end of the link has all that the user did, and all notes: nothing waits here (no request, no edit, no
    /// event that a lock holds back, no rune that was typed and not sent, no byte that was composed), and all that was put is acknowledged.
    pub fn has_all(&self) -> bool
        ensures { IsTrue result ↔ HasAll self.now }
    {
        self.has_sent() && self.line.has_all()
    }

    /// Returns whether what is shown of a file may differ from what was written last: an edit waits over it, or `Terminal::is_changed`
    /// says so. If not, what is shown is its rasp. False of the command file, and of a file that is not known. A write that waits does
    /// not count.
    #[tactic(auto, using(crate::proofs::DeliveryLaws::shows_rasp))]
    pub fn is_unsaved(&self, tag: u16) -> bool
        ensures value { result ≡ is_unsaved self.now tag }
        ensures shown { result ≡ false
            → shown_at self.now.ordered.overlay tag ≡ rasp_at self.now.ordered.overlay.end.term tag }
    {
        let overlay = self.overlay();
        overlay.facts();
        overlay.is_waiting(tag) || overlay.end().term().is_changed(tag)
    }

    /// Returns how many requests wait, those not among them that the terminal's end has.
    pub fn requests(&self) -> usize
        ensures { result ≡ length self.now.ordered.queue }
    {
        self.ordered.waiting()
    }

    /// Returns whether a request waits that closes a file.
    pub fn is_closing(&self, tag: u16) -> bool
        ensures { result ≡ is_closing self.now.ordered.queue tag }
    {
        self.ordered.is_closing(tag)
    }

    /// Lends the terminal's end with the edits that wait, to be read.
    pub fn overlay(&self) -> &Overlay
        ensures { result.now ≡ self.now.ordered.overlay }
    {
        self.ordered.overlay()
    }

    /// Lends the line, to be read.
    pub fn line(&self) -> &Line
        ensures { result.now ≡ self.now.line }
    {
        &self.line
    }

    /// Lends the note that was told last.
    pub fn note(&self) -> &[u8]
        ensures { result.now ≡ self.now.note }
    {
        self.note.bytes()
    }
}
