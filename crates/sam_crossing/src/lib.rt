//! Why no edit is lost where messages and frames cross. This crate computes nothing: it has the events of a world
//! ([`event`]), the definition of a world, and the proofs from which `sam_world`, `sam_local` and `sam_rest` make their laws.
//! docs/explanation/DESIGN.md says the same in prose.
//!
//! What they show: take any state that a run reaches, and let both sides handle what is under way and the unsent runes, with no new event
//! of the user. Then nothing is refused, no lock is held at the end, and the rasp of each open file agrees with the host's text. And
//! after each frame that changes a file stands one that frees this file's lock or the command lock.
//!
//! One lemma carries all: `still` in proofs/Runs.antt. A user's edit acts only on a free file, where no lock keeps the user out. The
//! terminal would refuse a frame that frees a lock which isn't held, and it refuses nothing; so no frame under way to a free file frees
//! a lock. Then none changes the file either, since a frame that frees a lock would stand after it. Those that are left do nothing to
//! the file, as it is before the edit and as it is after it: the edit moves past all that is under way.
//!
//! Nothing of the two sides is written here a second time: the messages are those of sam_mesg, the answers are sam_host's `reply_to`, the
//! terminal's steps and locks are sam_term's. Projections forget what doesn't matter here: `view` of a terminal, `file_in` of a host's
//! files, `action` of a frame.
//!
//! Read the files in this order; each name is that of an .antt file.
//!
//! 1. specs/Lens, Frames: a file as the terminal knows it (`Lens`), what a frame does to it (`action`, `move`), and that all that is under
//!    way leads to what the host has (`ComesToSync`).
//! 2. proofs/Runs: `still`. proofs/Lenses, AllComeToSync: each step at one file keeps `ComesToSync`; `kept_act` is the user's edit.
//! 3. proofs/Changes, Accepting: what the terminal changes as it composes a message, by sam_term's `lock_of` (`change_by`), what a message
//!    rests on at its file (`need_of`), at the terminal and then at the host (`Accepted`), and what a message with its answer must do
//!    then (`Synced`).
//! 4. proofs/HostFiles, Tests, Guards: aids. proofs/Telling: what frames about one open file do (`Told`), one lemma for each ending that
//!    answers share. proofs/FileLocks, Edits, Commands, Announcing, Lines: one lemma for each kind of message; Composing finds them.
//! 5. specs/View, proofs/FrameMoves: the terminal itself, seen as lenses, does what they do. [`frames_move`] sums it up.
//! 6. specs/Steady, Fold, Order: all files and all that is under way at once (`AllComeToSync`, `InOrder`). proofs/Versions, Folds, Steady,
//!    Composing: these, with one message or frame more or less.
//! 7. proofs/Starting, Passing, Views, Dots, Sending, Joins, Typing, Replacing, Acting, Receiving: the first state is in order, and each
//!    event of the user (`event_goes`) and each frame (`received`) keeps it so.
//! 8. proofs/Ordered: the host's step (`host_goes`), and what follows. specs/StreamVersions, proofs/Streaming: both sides have one version.
//! 9. specs/World: both sides with all that is under way, what an event makes of it (`step_of`), and a run (`run_of`). specs/RunOrder,
//!    proofs/OrderLaws, RunLaws: the laws of every step and run.
//! 10. specs/Joining, proofs/Joining, MoreFiles: a host to which files were added answers every message as before, but for those whose
//!    answers tell which files there are (`hears`). So all is in order however many files join (`IsInOrder`).
//! 11. proofs/DirtyFiles, DirtyReplies, Dirt, Known, Marking: a host that marks a file as dirty answers every message as before, but that
//!    it tells of fewer files that they become dirty; and the terminal knows each announced file once it has taken what is under way. So a
//!    mark keeps all in order.
#![tactic(auto)]

pub mod event;

ghost use Rattle.sam_crossing.specs.View.{TakeLaw};

/// Says that where no lens refuses a frame the terminal doesn't either. Each lens then moves as the frame's action says, and besides the
/// unsent runes at most one message is composed.
pub fn frames_move()
    ensures take { TakeLaw }
{}
