//! What stands against a frame of the host: one function for each group of kinds with the same tests.

ghost use Rattle.std.specs.Prelude.{◌≡◌, ◌∷◌, ◌+◌, ◌==◌, [], nat_lt};
ghost use Rattle.sam_runes.specs.Checks.{first_of_checks};
ghost use Rattle.sam_term.specs.Taking.{frame_fault};
ghost use Rattle.sam_term.specs.Term.{window_at, unknown_file, not_opened, bound, past_end, no_room};

use crate::fault::TermFault;
use crate::term::Terminal;
use sam_mesg::Hmesg;
use sam_runes::MAX_RUNES;

impl Terminal {
    /// Returns what stands against a message of the host: the first of its kind's tests that holds, in the order of `TermFault`, or
    /// `None`. The stamp of the frame is not tested here.
    pub(crate) fn refusal(&self, message: &Hmesg) -> Option<TermFault>
        ensures { result ≡ frame_fault self.now message.now }
    {
        match message {
            Hmesg::Hversion(_) => None,
            Hmesg::Hbindname(tag) => self.refusal_of_bound(*tag),
            Hmesg::Hcurrent(tag) => self.refusal_of_unknown(*tag),
            Hmesg::Hnewname(tag) => if self.knows(*tag) {
                Some(TermFault::AlreadyBound)
            } else {
                None
            },
            Hmesg::Hmovname(tag, _) => self.refusal_of_unknown(*tag),
            Hmesg::Hgrow(tag, p, n) => self.refusal_of_growth(*tag, *p, *n as usize),
            Hmesg::Hcheck(tag) => self.refusal_of_shut(*tag),
            Hmesg::Hunlock => if self.command_lock {
                None
            } else {
                Some(TermFault::LockNotHeld)
            },
            Hmesg::Hdata(tag, p, text) => self.refusal_of_data(*tag, *p, text.as_slice().len()),
            Hmesg::Horigin(tag, p) => self.refusal_of_place(*tag, *p as u64),
            Hmesg::Hunlockfile(tag) => self.refusal_of_free(*tag),
            Hmesg::Hsetdot(tag, p, q) => self.refusal_of_range(*tag, *p, *q),
            Hmesg::Hgrowdata(tag, p, text) => self.refusal_of_growth(
                *tag,
                *p,
                text.as_slice().len(),
            ),
            Hmesg::Hmoveto(tag, p) => self.refusal_of_place(*tag, *p as u64),
            Hmesg::Hclean(tag) => self.refusal_of_unknown(*tag),
            Hmesg::Hdirty(tag) => self.refusal_of_unknown(*tag),
            Hmesg::Hcut(tag, p, n) => self.refusal_of_place(*tag, *p as u64 + *n as u64),
            Hmesg::Hsetpat(_) => None,
            Hmesg::Hdelname(tag) => self.refusal_of_bound(*tag),
            Hmesg::Hclose(tag) => self.refusal_of_shut(*tag),
            Hmesg::Hsetsnarf(_) => None,
            Hmesg::Hsnarflen(_) => None,
            Hmesg::Hack => None,
            Hmesg::Hexit => None,
        }
    }

    /// Tests that the file is known. The one fault is `NoFile`.
    fn refusal_of_unknown(&self, tag: u16) -> Option<TermFault>
        ensures { result ≡ first_of_checks (unknown_file self.now tag ∷ []) }
    {
        if !self.knows(tag) {
            return Some(TermFault::NoFile);
        }
        None
    }

    /// Tests that the file is known and not open. Faults, in this order: `NoFile`; `AlreadyBound`.
    fn refusal_of_bound(&self, tag: u16) -> Option<TermFault>
        ensures { result ≡ first_of_checks (unknown_file self.now tag ∷ bound self.now tag ∷ []) }
    {
        if !self.knows(tag) {
            return Some(TermFault::NoFile);
        }
        if self.has_open(tag) {
            return Some(TermFault::AlreadyBound);
        }
        None
    }

    /// Tests that the file is known and open. Faults, in this order: `NoFile`; `NotOpen`.
    fn refusal_of_shut(&self, tag: u16) -> Option<TermFault>
        ensures { result ≡ first_of_checks (unknown_file self.now tag ∷ not_opened self.now tag ∷ []) }
    {
        if !self.knows(tag) {
            return Some(TermFault::NoFile);
        }
        if !self.has_open(tag) {
            return Some(TermFault::NotOpen);
        }
        None
    }

    /// Tests that the file is known and open, and that `p` is not past the end of its rasp. Faults, in this order: `NoFile`; `NotOpen`;
    /// `BadPosition`.
    fn refusal_of_place(&self, tag: u16, p: u64) -> Option<TermFault>
        ensures { result ≡ first_of_checks (unknown_file self.now tag ∷ not_opened self.now tag ∷ past_end self.now tag p ∷ []) }
    {
        if !self.knows(tag) {
            return Some(TermFault::NoFile);
        }
        if !self.has_open(tag) {
            return Some(TermFault::NotOpen);
        }
        if (self.rasp_len(tag) as u64) < p {
            return Some(TermFault::BadPosition);
        }
        None
    }

    /// Tests that the file is known and open, and has `n` runes and gaps from `p` on. Faults, in this order: `NoFile`; `NotOpen`;
    /// `BadPosition`.
    fn refusal_of_data(&self, tag: u16, p: u32, n: usize) -> Option<TermFault>
        ensures { result ≡ first_of_checks (unknown_file self.now tag ∷ not_opened self.now tag ∷ past_end self.now tag (p + n) ∷ []) }
    {
        if !self.knows(tag) {
            return Some(TermFault::NoFile);
        }
        if !self.has_open(tag) {
            return Some(TermFault::NotOpen);
        }
        let len = self.rasp_len(tag);
        if len < p as usize || len - (p as usize) < n {
            return Some(TermFault::BadPosition);
        }
        None
    }

    /// Tests that the file is known and open, and has the range from `p` to `q`. Faults, in this order: `NoFile`; `NotOpen`;
    /// `BadPosition`.
    fn refusal_of_range(&self, tag: u16, p: u32, q: u32) -> Option<TermFault>
        ensures { result ≡ first_of_checks
            (unknown_file self.now tag ∷ not_opened self.now tag ∷ (nat_lt q p, TermFault.BadPosition) ∷ past_end self.now tag q ∷ []) }
    {
        if !self.knows(tag) {
            return Some(TermFault::NoFile);
        }
        if !self.has_open(tag) {
            return Some(TermFault::NotOpen);
        }
        if q < p {
            return Some(TermFault::BadPosition);
        }
        if self.rasp_len(tag) < q as usize {
            return Some(TermFault::BadPosition);
        }
        None
    }

    /// Tests that the file is known and open, and that `n` more runes or gaps may come in at `p`. Faults, in this order: `NoFile`;
    /// `NotOpen`; `BadPosition` if `p` is past the end; `TooLong` if there would be more than `MAX_RUNES`.
    fn refusal_of_growth(&self, tag: u16, p: u32, n: usize) -> Option<TermFault>
        ensures { result ≡ first_of_checks
            (unknown_file self.now tag ∷ not_opened self.now tag ∷ past_end self.now tag p ∷ no_room self.now tag n ∷ []) }
    {
        if !self.knows(tag) {
            return Some(TermFault::NoFile);
        }
        if !self.has_open(tag) {
            return Some(TermFault::NotOpen);
        }
        let len = self.rasp_len(tag);
        if len < p as usize {
            return Some(TermFault::BadPosition);
        }
        let most = MAX_RUNES as usize;
        if most < len || most - len < n {
            return Some(TermFault::TooLong);
        }
        None
    }

    /// Tests that the file is known and open, and has a lock. Faults, in this order: `NoFile`; `NotOpen`; `LockNotHeld`.
    fn refusal_of_free(&self, tag: u16) -> Option<TermFault>
        ensures { result ≡ first_of_checks
            (unknown_file self.now tag ∷ not_opened self.now tag ∷ ((window_at self.now tag).locks == 0, TermFault.LockNotHeld) ∷ []) }
    {
        if !self.knows(tag) {
            return Some(TermFault::NoFile);
        }
        if !self.has_open(tag) {
            return Some(TermFault::NotOpen);
        }
        if self.locks(tag) == 0 {
            return Some(TermFault::LockNotHeld);
        }
        None
    }
}
