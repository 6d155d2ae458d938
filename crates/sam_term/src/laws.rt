//! Laws of what a terminal does, for readers and for the crates above. They speak of the definitions that `act`, `flush` and `receive`
//! compute; `Terminal::facts` has what is true of each terminal. Each function does nothing: its clauses are the law.

ghost use Rattle.std.specs.Prelude.{◌≡◌, ◌+◌, ◌||◌, ℕ, Some, None, true, false};
ghost use Rattle.sam_mesg.specs.declared.hmesg.Hmesg.{Hmesg};
ghost use Rattle.sam_runes.specs.Checks.{first_of_checks};
ghost use Rattle.sam_term.specs.Effect.{shown, changed_by};
ghost use Rattle.sam_term.specs.Fitting.{all_fit};
ghost use Rattle.sam_term.specs.Loading.{EventsAskOnce, FramesAskOnce, LoadLaw, LoadsAll, LoadsFew, RuleWaits};
ghost use Rattle.sam_term.specs.LockCounts.{locks_taken, takes_command, requests, locks_left, command_left, awaited_left};
ghost use Rattle.sam_term.specs.Replacing.{EditComposes, EditLocksNothing, EditOfNothing, EditReplaces};
ghost use Rattle.sam_term.specs.Sound.{IsSound};
ghost use Rattle.sam_term.specs.Unsent.{EventsSendFirst, FramesSendFirst};
ghost use Rattle.sam_term.specs.Term.{is_open, window_at, event_checks, flushed, frame_outcome, event_outcome, rasp_at, PlainTerminal};
ghost use Rattle.sam_term.specs.Events.{file_of};
ghost use Rattle.sam_term.specs.declared.event.UserEvent.{UserEvent};

/// Says what an event does to the rasp of a file: `Typed`, `Cut` and `Paste` take the dot out, `Typed` puts its runes in that place, an
/// `Edit` puts its runes in the place of its range, and no other event changes it.
#[tactic(auto, using(crate::proofs::TermLaws::event_changes))]
pub fn event_changes_text()
    ensures { (t : PlainTerminal) (e : UserEvent) (f : ℕ) → rasp_at (event_outcome t e).0 f ≡ changed_by t e f (rasp_at t f) }
{}

/// Says what a frame does to the rasp of a file that is open after it: gaps or runes come in, some are loaded, some go, or it begins
/// empty.
#[tactic(auto, using(crate::proofs::TermLaws::frame_shows))]
pub fn frame_changes_text()
    ensures { (t : PlainTerminal) (m : Hmesg) (f : ℕ) → is_open (frame_outcome t m).0 f ≡ true
        → rasp_at (frame_outcome t m).0 f ≡ shown f m (rasp_at t f) }
{}

/// Says that an event on a file acts only while neither the command lock nor a lock of that file is held.
#[tactic(auto, using(crate::proofs::FitLaws::event_finds_no_lock))]
pub fn event_finds_no_lock()
    ensures { (t : PlainTerminal) (e : UserEvent) (f : ℕ) → file_of e ≡ Some f → first_of_checks (event_checks t e) ≡ None
        → (t.command_lock ≡ false) × ((window_at t f).locks ≡ 0) }
{}

/// Says that the messages of an event that nothing stands against fit in the terminal's version.
#[tactic(auto, using(crate::proofs::FitLaws::event_fits))]
pub fn event_fits()
    ensures { (t : PlainTerminal) (e : UserEvent) → IsSound t → first_of_checks (event_checks t e) ≡ None
        → all_fit t.version (event_outcome t e).1 ≡ true }
{}

/// Says that what a flush composes fits in the terminal's version.
#[tactic(auto, using(crate::proofs::FitLaws::flush_fits))]
pub fn flush_fits()
    ensures { (t : PlainTerminal) → IsSound t → all_fit t.version (flushed t).1 ≡ true }
{}

/// Says that the messages which are composed in answer to a frame fit in the terminal's version.
#[tactic(auto, using(crate::proofs::FitLaws::frame_fits))]
pub fn frame_fits()
    ensures { (t : PlainTerminal) (m : Hmesg) → IsSound t → all_fit t.version (frame_outcome t m).1 ≡ true }
{}

/// Says that where an event, or the answer to a frame, composes messages, the first has the unsent runes if there are any, perhaps with
/// runes after them that the event typed.
#[tactic(auto, using(crate::proofs::UnsentLaws::events_send_first, crate::proofs::UnsentLaws::frames_send_first))]
pub fn unsent_goes_first()
    ensures events { EventsSendFirst }
    ensures frames { FramesSendFirst }
{}

/// Says what an event does to the locks: those that were held are held still, and the messages that it composes take theirs. The requests
/// that a file awaited are awaited still, and beside them those among the messages.
#[tactic(auto, using(crate::proofs::LockLaws::event_command, crate::proofs::LockLaws::event_locks, crate::proofs::LockLaws::event_awaits))]
pub fn event_takes_locks()
    ensures command { (t : PlainTerminal) (e : UserEvent)
        → (event_outcome t e).0.command_lock ≡ (t.command_lock || takes_command (event_outcome t e).1) }
    ensures files { (t : PlainTerminal) (e : UserEvent) (f : ℕ)
        → (window_at (event_outcome t e).0 f).locks ≡ (window_at t f).locks + locks_taken f (event_outcome t e).1 }
    ensures awaited { (t : PlainTerminal) (e : UserEvent) (f : ℕ)
        → (window_at (event_outcome t e).0 f).awaited ≡ (window_at t f).awaited + requests f (event_outcome t e).1 }
{}

/// Says what a flush does to the locks: those that were held are held still, and the message that it composes, if any, takes its lock. A
/// file awaits what it did before.
#[tactic(auto, using(crate::proofs::LockLaws::flush_command, crate::proofs::LockLaws::flush_locks, crate::proofs::LockLaws::flush_awaits))]
pub fn flush_takes_locks()
    ensures command { (t : PlainTerminal) → (flushed t).0.command_lock ≡ (t.command_lock || takes_command (flushed t).1) }
    ensures files { (t : PlainTerminal) (f : ℕ)
        → (window_at (flushed t).0 f).locks ≡ (window_at t f).locks + locks_taken f (flushed t).1 }
    ensures awaited { (t : PlainTerminal) (f : ℕ)
        → (window_at (flushed t).0 f).awaited ≡ (window_at t f).awaited + requests f (flushed t).1 }
{}

/// Says what a frame does to the locks: it frees some and leaves the others, and the messages that are composed in answer take theirs. A
/// file awaits the requests that the frame leaves, and beside them those among the messages.
#[tactic(auto, using(crate::proofs::LockLaws::frame_command, crate::proofs::LockLaws::frame_locks, crate::proofs::LockLaws::frame_awaits))]
pub fn frame_changes_locks()
    ensures command { (t : PlainTerminal) (m : Hmesg)
        → (frame_outcome t m).0.command_lock ≡ (command_left m t.command_lock || takes_command (frame_outcome t m).1) }
    ensures files { (t : PlainTerminal) (m : Hmesg) (f : ℕ)
        → (window_at (frame_outcome t m).0 f).locks ≡ locks_left m f (window_at t f).locks + locks_taken f (frame_outcome t m).1 }
    ensures awaited { (t : PlainTerminal) (m : Hmesg) (f : ℕ)
        → (window_at (frame_outcome t m).0 f).awaited ≡ awaited_left m f (window_at t f).awaited + requests f (frame_outcome t m).1 }
{}

/// Says which stretches a `Load` asks for: they are of gaps alone and lie one after the other in the view, they are no more than it may
/// ask for, and where they are fewer they have all gaps of the view.
#[tactic(auto, using(crate::proofs::Stretches::load_law, crate::proofs::Loads::stretches_few, crate::proofs::Stretches::loads_all))]
pub fn load_asks_for_gaps()
    ensures gaps { LoadLaw }
    ensures few { LoadsFew }
    ensures all { LoadsAll }
{}

/// Says what an `Edit` does: its text comes in the place of its range, all of it; and what it composes after the unsent runes is the cut of
/// the range, unless that is empty, and then messages whose runes one after another are the text. None of these takes a lock, as long as
/// the file is not the command file. Where nothing goes and nothing comes, nothing is done.
#[tactic(auto, using(crate::proofs::Pieces::edit_law, crate::proofs::Pieces::edit_idle, crate::proofs::TermLaws::edit_text))]
pub fn edit_replaces()
    ensures text { EditReplaces }
    ensures messages { EditComposes }
    ensures locks { EditLocksNothing }
    ensures nothing { EditOfNothing }
{}

/// Says that the request rule composes nothing while a request is awaited, and so that a file never awaits more than one, as long as no
/// `Load` acts.
#[tactic(auto, using(crate::proofs::AskLaws::rule_waits, crate::proofs::AskLaws::events_ask_once, crate::proofs::AskLaws::frames_ask_once))]
pub fn one_request_at_a_time()
    ensures rule { RuleWaits }
    ensures events { EventsAskOnce }
    ensures frames { FramesAskOnce }
{}
