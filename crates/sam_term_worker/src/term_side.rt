//! The worker of the terminal.

ghost use Rattle.std.specs.Prelude.{◌≡◌, ◌⊎◌, ◌<◌, IsTrue, Some, None, is_some, true, false};
ghost use Rattle.sam_queue.specs.Views.{new_take, new_post, closed_post};
ghost use Rattle.sam_queue.specs.History.{IsEnded};
ghost use Rattle.sam_ends.specs.Gates.{LetOn, TermHandled, TermKeptOut, TermLetOn};
ghost use Rattle.sam_ends.specs.WorkerEnds.{TermTold};
ghost use Rattle.sam_term_worker.specs.TermMoments.{Goes, HasActed, IsDone, IsFound, IsQuiet, MayExit, Rests, new_side};

use crate::logged_terminal::LoggedTerminal;
use sam_ends::{Gate, Input, Stop, TERMINAL, TermEnd};
use sam_queue::{Backoff, Got, Post, Take};
use sam_term::event::UserEvent;
use std::alloc::Global;
use std::marker::Model;
use std::sync::Wait;

/// What a turn found in the line of events.
#[derive(Clone, Copy, PartialEq, Eq)]
enum Found {
    /// An entry, which was taken.
    Entry,
    /// No entry, though some sender has not left.
    Nothing,
    /// The end mark of each sender was taken before.
    Ended,
}

/// The terminal with its ends of the lines. Once `stop` says why, it handles nothing more: it only takes and drops what comes, and
/// closes its post.
#[derive(Drop)]
struct Side<'q> {
    /// The worker's take of the line of events, which has three senders.
    take: Take<'q, Input>,
    /// The worker's post to the line up.
    post: Post<'q, Vec<u8>>,
    /// The terminal, its log from a new terminal on, and the bytes that are not put yet.
    logged: LoggedTerminal,
    /// How many items were handled; once at 2^64-1 it stays there.
    handled: u64,
    /// Whether the end mark of the keyboard was taken.
    keyboard_left: bool,
    /// Whether the end mark of the mouse was taken.
    mouse_left: bool,
    /// Whether the worker has put an Exit of its own, which it does only once keyboard and mouse have left.
    exit_put: bool,
    /// Why the worker has stopped handling; `None` while it goes on.
    stop: Option<Stop>,
}

impl<'q> Model for Side<'q> {
    ghost use Rattle.sam_term_worker.specs.TermMoments.{SideView, Ran};

    ghost Value = { SideView };

    ghost view = { λ s. record {
      take = s.take;
      post = s.post;
      logged = s.logged;
      keyboard_left = s.keyboard_left;
      mouse_left = s.mouse_left;
      exit_put = s.exit_put;
      steps = s.handled;
      stop = s.stop;
    } };

    ghost invariant = { λ s. Ran (record {
      take = s.take;
      post = s.post;
      logged = s.logged;
      keyboard_left = s.keyboard_left;
      mouse_left = s.mouse_left;
      exit_put = s.exit_put;
      steps = s.handled;
      stop = s.stop;
    }) };
}

impl<'q> Side<'q> {
    /// Makes the worker's state at its beginning. `stop` is `Gate` if the gate refused it.
    fn new(
        alloc: Global,
        piece: usize,
        take: Take<'q, Input>,
        post: Post<'q, Vec<u8>>,
        stop: Option<Stop>,
    ) -> Side<'q>
        requires piece { 0 < piece }
        requires take { take ≡ new_take take.line }
        requires three { take.line.senders ≡ 3 }
        requires post { post ≡ new_post post.line 0 }
        requires stop { (stop ≡ None) ⊎ (stop ≡ Some Stop.Gate) }
        ensures { result ≡ new_side take.entry post.entry piece stop }
    {
        Side {
            take,
            post,
            logged: LoggedTerminal::new(alloc, piece),
            handled: 0,
            keyboard_left: false,
            mouse_left: false,
            exit_put: false,
            stop,
        }
    }

    /// Makes the terminal's next step, if there is one. Returns whether it did something; else no event can act, or it has stopped.
    #[tactic(auto, using(crate::proofs::TermKeeping::steps_kept))]
    fn act_once(&mut self) -> bool
        ensures goes { Goes self.old self.new }
        ensures acted { result ≡ false → HasActed self.new }
    {
        if self.stop.is_some() {
            return false;
        }
        match self.logged.act() {
            Ok(went) => went,
            Err(stop) => {
                self.stop = Some(stop);
                false
            }
        }
    }

    /// Acts until no event is held, a lock holds the oldest back, or something stops it.
    #[tactic(auto, using(crate::proofs::TermKeeping::goes_on))]
    fn act_all<R: Wait>(&mut self, rt: &R)
        ensures goes { Goes self.old self.new }
        ensures acted { HasActed self.new }
    {
        for _turn in rt.forever() {
            if !self.act_once() {
                return;
            }
        }
        unreachable!()
    }

    /// Acts as `act_all` does if an entry was taken. Where none was, no event can act that could not before: only a frame frees a lock.
    fn act_after<R: Wait>(&mut self, rt: &R, found: Found)
        ensures goes { Goes self.old self.new }
        ensures acted { found ≡ Found.Entry → HasActed self.new }
    {
        match found {
            Found::Entry => self.act_all(rt),
            Found::Nothing | Found::Ended => {}
        }
    }

    /// Composes the unsent runes, if there are any.
    #[tactic(auto, using(crate::proofs::TermKeeping::steps_kept))]
    fn compose(&mut self)
        ensures { Goes self.old self.new }
    {
        if self.stop.is_some() || !self.logged.has_unsent() {
            return;
        }
        match self.logged.flush() {
            Ok(()) => {}
            Err(stop) => self.stop = Some(stop),
        }
    }

    /// Composes the unsent runes, if there are any, and writes their message.
    #[tactic(auto, using(crate::proofs::TermKeeping::goes_on))]
    fn flush(&mut self)
        ensures { Goes self.old self.new }
    {
        self.compose();
        let _wrote = self.act_once();
    }

    /// Returns whether an Exit of its own is to be put: once keyboard and mouse have left, if the session is not over and none was put
    /// before.
    fn may_exit(&self) -> bool
        ensures { IsTrue result → MayExit self.now }
    {
        !self.stop.is_some()
            && !self.exit_put
            && self.keyboard_left
            && self.mouse_left
            && !self.logged.exited()
    }

    /// Puts an Exit of its own after the held events, if one is to be put.
    #[tactic(auto, using(crate::proofs::TermKeeping::can_go_on))]
    fn put_exit(&mut self)
        ensures { Goes self.old self.new }
    {
        if !self.may_exit() {
            return;
        }
        match self.logged.user(UserEvent::Exit) {
            Ok(()) => self.exit_put = true,
            Err(stop) => self.stop = Some(stop),
        }
    }

    /// Puts the next piece if there is one and the line has room for it. Returns whether it put one.
    #[tactic(auto, using(crate::proofs::TermKeeping::pieces_kept))]
    fn put_piece<R: Wait>(&mut self, rt: &R) -> bool
        ensures { Goes self.old self.new }
    {
        if self.stop.is_some() {
            return false;
        }
        let Ok(put) = self.logged.put(rt, &mut self.post) else {
            self.stop = Some(Stop::Memory);
            return false;
        };
        put
    }

    /// Puts pieces until none is left or the line is full. Returns whether it put any.
    #[tactic(auto, using(crate::proofs::TermKeeping::goes_on))]
    fn put_pieces<R: Wait>(&mut self, rt: &R) -> bool
        ensures { Goes self.old self.new }
    {
        let mut some = false;
        for _turn in rt.forever() {
            if !self.put_piece(rt) {
                return some;
            }
            some = true;
        }
        unreachable!()
    }

    /// Closes the post unless the line is full. Returns whether the post is closed.
    #[tactic(auto, using(crate::proofs::TermKeeping::kept_closed))]
    fn try_close<R: Wait>(&mut self, rt: &R) -> bool
        ensures goes { Goes self.old self.new }
        ensures rests { Rests self.old self.new }
        ensures closed { IsTrue result → self.new ≡ record self.old { post = closed_post self.old.post } }
    {
        self.post.try_close(rt)
    }

    /// Takes the next entry, if there is one. It lets the terminal handle an item, and notes who has left. If the host reader has left
    /// before the session is over, it stops.
    #[tactic(auto, using(crate::proofs::TermTaking::takes_kept, crate::proofs::TermKeeping::can_go_on, sam_ends::proofs::GateLaws::let_on_none, sam_ends::proofs::GateLaws::let_on_at))]
    fn take_next<R: Wait, G: Gate>(&mut self, rt: &R, gate: &G) -> Found
        requires running { is_some self.old.stop ≡ false }
        ensures take { self.new.take.line ≡ self.old.take.line }
        ensures post { self.new.post ≡ self.old.post }
        ensures gate { self.new.stop ≡ Some Stop.Gate → G.may_refuse gate.now 4 }
        ensures found { IsFound self.new result }
        ensures let_on { LetOn (G.must_refuse gate.now 4) self.old.steps self.new.steps }
    {
        match self.take.try_recv(rt) {
            Got::Empty => Found::Nothing,
            Got::Ended => Found::Ended,
            Got::Left(sender) => {
                match sender {
                    0 => self.keyboard_left = true,
                    1 => self.mouse_left = true,
                    _ => {
                        if !self.logged.exited() {
                            self.stop = Some(Stop::PeerGone);
                        }
                    }
                }
                Found::Entry
            }
            Got::Item(sender, input) => {
                if !gate.go_on(TERMINAL, self.handled) {
                    self.stop = Some(Stop::Gate);
                    return Found::Entry;
                }
                match self.logged.handle(sender, input) {
                    Ok(()) => self.handled = self.handled.saturating_add(1),
                    Err(stop) => self.stop = Some(stop),
                }
                Found::Entry
            }
        }
    }

    /// Takes the next entry and drops it, or waits a little for one. Returns whether all have left before.
    fn drop_next<R: Wait>(&mut self, rt: &R, backoff: &mut Backoff) -> bool
        requires stopped { is_some self.old.stop ≡ true }
        ensures take { self.new.take.line ≡ self.old.take.line }
        ensures post { self.new.post ≡ self.old.post }
        ensures rests { Rests self.old self.new }
        ensures ended { IsTrue result → IsEnded 3 self.new.take.taken }
    {
        match self.take.try_recv(rt) {
            Got::Empty => {
                self.take.wait(rt, backoff);
                false
            }
            Got::Ended => true,
            Got::Left(_) => false,
            Got::Item(_, _) => false,
        }
    }

    /// Returns whether something has stopped the worker.
    fn is_stopped(&self) -> bool
        ensures { result ≡ is_some self.now.stop }
    {
        self.stop.is_some()
    }

    /// Stops the worker if the session is not over: everybody has left, and without the host nothing ends it any more.
    #[tactic(auto, using(crate::proofs::TermKeeping::kept_lost))]
    fn lose_host(&mut self)
        requires { IsEnded 3 self.old.take.taken }
        ensures { Goes self.old self.new }
    {
        if self.stop.is_some() || self.logged.exited() {
            return;
        }
        self.stop = Some(Stop::PeerGone);
    }

    /// Returns true only if the session is over, and nothing is held, unsent or not put.
    fn is_quiet(&self) -> bool
        ensures { IsTrue result → IsQuiet self.now }
    {
        self.logged.exited()
            && self.logged.holds_none()
            && !self.logged.has_unsent()
            && self.logged.is_all_put()
    }

    /// Closes the post if the session is over and all is put. Returns whether nothing more comes either, and so all is done.
    #[tactic(auto, using(crate::proofs::TermKeeping::goes_on, crate::proofs::TermKeeping::done_quiet))]
    fn finish<R: Wait>(&mut self, rt: &R, found: Found) -> bool
        requires { IsFound self.old found }
        ensures goes { Goes self.old self.new }
        ensures done { IsTrue result → IsDone self.new }
    {
        match found {
            Found::Ended => {
                self.lose_host();
                self.is_quiet() && self.try_close(rt)
            }
            _ => {
                if self.is_quiet() {
                    let _closed = self.try_close(rt);
                }
                false
            }
        }
    }

    /// Makes one turn where nothing has stopped the worker: it takes, acts if it took an entry, puts, and tries to finish. If it took and
    /// put nothing, it waits a little for an entry, and composes the unsent runes before it would sleep. Returns whether all is done.
    #[tactic(auto, using(crate::proofs::TermKeeping::goes_on, crate::proofs::TermKeeping::found_still, sam_ends::proofs::GateLaws::let_on_to))]
    fn turn<R: Wait, G: Gate>(&mut self, rt: &R, gate: &G, backoff: &mut Backoff) -> bool
        requires running { is_some self.old.stop ≡ false }
        ensures take { self.new.take.line ≡ self.old.take.line }
        ensures post { self.new.post.line ≡ self.old.post.line }
        ensures gate { self.new.stop ≡ Some Stop.Gate → G.may_refuse gate.now 4 }
        ensures let_on { LetOn (G.must_refuse gate.now 4) self.old.steps self.new.steps }
        ensures done { IsTrue result → IsDone self.new }
    {
        let found = self.take_next(rt, gate);
        let waits = found != Found::Entry;
        self.put_exit();
        self.act_after(rt, found);
        if waits && backoff.sleeps_next() && self.logged.is_all_put() {
            self.flush();
        }
        let put = self.put_pieces(rt);
        let done = self.finish(rt, found);
        if waits && !put && !done {
            self.take.wait(rt, backoff);
        } else {
            *backoff = Backoff::new();
        }
        done
    }

    /// Makes one turn after a stop: it drops an entry, and tries to close. Returns whether all have left and the post is closed.
    #[tactic(auto, using(crate::proofs::TermKeeping::done_stopped))]
    fn last_turn<R: Wait>(&mut self, rt: &R, backoff: &mut Backoff) -> bool
        requires stopped { is_some self.old.stop ≡ true }
        ensures take { self.new.take.line ≡ self.old.take.line }
        ensures post { self.new.post.line ≡ self.old.post.line }
        ensures rests { Rests self.old self.new }
        ensures done { IsTrue result → IsDone self.new }
    {
        let ended = self.drop_next(rt, backoff);
        let closed = self.try_close(rt);
        if ended && !closed {
            self.take.wait(rt, backoff);
        }
        ended && closed
    }

    /// Makes turns until all is done.
    #[tactic(auto, using(sam_ends::proofs::GateLaws::let_on_none, sam_ends::proofs::GateLaws::let_on_more, sam_ends::proofs::GateLaws::let_on_to))]
    fn run<R: Wait, G: Gate>(&mut self, rt: &R, gate: &G)
        requires gate { self.old.stop ≡ Some Stop.Gate → G.may_refuse gate.now 4 }
        ensures take { self.new.take.line ≡ self.old.take.line }
        ensures post { self.new.post.line ≡ self.old.post.line }
        ensures gate { self.new.stop ≡ Some Stop.Gate → G.may_refuse gate.now 4 }
        ensures let_on { LetOn (G.must_refuse gate.now 4) self.old.steps self.new.steps }
        ensures rests { is_some self.old.stop ≡ true → Rests self.old self.new }
        ensures done { IsDone self.new }
    {
        let mut backoff = Backoff::new();
        for _turn in rt.forever() {
            let done = if self.is_stopped() {
                self.last_turn(rt, &mut backoff)
            } else {
                self.turn(rt, gate, &mut backoff)
            };
            if done {
                return;
            }
        }
        unreachable!()
    }

    /// Returns the worker's end.
    #[tactic(auto, using(crate::proofs::TermKeeping::told, crate::proofs::TermKeeping::told_handled))]
    fn into_end(self, passed: bool) -> TermEnd<'q>
        requires { IsDone self }
        ensures told { TermTold self.entry.take.line self.entry.post.line result }
        ensures passed { result.passed ≡ passed }
        ensures stop { result.stop ≡ self.entry.stop }
        ensures post { result.post ≡ self.entry.post }
        ensures term { result.term ≡ self.entry.logged.end.term }
        ensures log { result.log.items ≡ self.entry.logged.log }
        ensures handled { TermHandled self.entry.steps result }
    {
        let Side {
            take,
            post,
            logged,
            handled: _,
            keyboard_left: _,
            mouse_left: _,
            exit_put: _,
            stop,
        } = self;
        let LoggedTerminal {
            alloc: _,
            most: _,
            end,
            log,
        } = logged;
        let term = end.into_terminal();
        TermEnd {
            take,
            post,
            term,
            log,
            passed,
            stop,
        }
    }
}

/// Runs the terminal on what comes over the line of events, puts the bytes of its messages into the line up in pieces of at most `piece`
/// bytes, and returns the worker's end. It is worker 4, the terminal. It begins with a new terminal.
///
/// It never waits in a send: bytes for which the line has no room wait outside it. Once an entry is taken, held events act. Typed runes
/// wait, so that those typed one after another go up together: until something else is composed, a `Flush` acts, runes come that don't
/// join them, or the line of events has stayed empty for a while and nothing is left to put. Once keyboard and mouse have left it puts an
/// Exit of its own after the held events, unless the session is over.
///
/// The end's `stop` is `None` if the host ended the session, everybody left, and nothing is held, unsent or not put. Else it is `Gate` if
/// the gate refused the worker; `Frame(1)` or `Frame(2)` for an item that no worker of a session sends; `Term` if the terminal refused a
/// frame or could not count a message; `PeerGone` if the host reader left before the session was over; `Memory` when out of memory, or
/// where 2^64-1 events came before. Once stopped it closes its post, and takes and drops until everybody has left, so that nobody waits for
/// it.
#[tactic(auto, using(crate::proofs::TermKeeping::term_let_on))]
pub fn run_terminal<'q, R: Wait, G: Gate>(
    rt: &R,
    alloc: Global,
    gate: &G,
    piece: usize,
    take: Take<'q, Input>,
    post: Post<'q, Vec<u8>>,
) -> TermEnd<'q>
    requires piece { 0 < piece }
    requires take { take ≡ new_take take.line }
    requires three { take.line.senders ≡ 3 }
    requires post { post ≡ new_post post.line 0 }
    ensures told { TermTold take.entry.line post.entry.line result }
    ensures begins { result.passed ≡ false → G.may_refuse gate.now 4 }
    ensures kept_out { result.passed ≡ false → TermKeptOut result }
    ensures way { result.stop ≡ Some Stop.Gate → G.may_refuse gate.now 4 }
    ensures let_in { result.passed ≡ true → G.must_refuse gate.now 4 None → ⊥ }
    ensures let_on { TermLetOn (G.must_refuse gate.now 4) result }
{
    let passed = gate.pass(TERMINAL);
    let stop = if passed { None } else { Some(Stop::Gate) };
    let mut side = Side::new(alloc, piece, take, post, stop);
    side.run(rt, gate);
    side.into_end(passed)
}
