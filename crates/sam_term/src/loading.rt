//! What the event `Load` does: it asks for all gaps of a view at once, where `View` asks for the first. The request rule stands in
//! `composing`.

ghost use Rattle.std.specs.Prelude.{◌≡◌, ◌+◌, ◌++◌, ◌≤◌, length, None, IsTrue, option_map};
ghost use Rattle.sam_rasp.specs.Rasp.{hole_within};
ghost use Rattle.sam_runes.specs.Texts.{most_count};
ghost use Rattle.sam_term.specs.Acting.{made_first, free_first, first_event};
ghost use Rattle.sam_term.specs.Editing.{shown_from};
ghost use Rattle.sam_term.specs.Locking.{awaiting};
ghost use Rattle.sam_term.specs.Taking.{IsAnswer, done};
ghost use Rattle.sam_term.specs.Term.{is_open, window_at, all_composed, all_wanted, front_of, most_requests, requests_for, stretches};
ghost use Rattle.sam_term.specs.declared.event.UserEvent.{UserEvent};

use crate::composing::end_of_view;
use crate::event::Acted;
use crate::fault::TermFault;
use crate::outbox::Outbox;
use crate::term::Terminal;
use sam_mesg::Tmesg;
use sam_rasp::Rasp;
use sam_runes::MOST_IN_MESSAGE;

/// The most requests that one `Load` composes: as many as the longest text wants. Each asks for at most `MOST_IN_MESSAGE` gaps.
pub const MOST_REQUESTS: usize = 1954;

impl Terminal {
    /// Does a `Load`: shows a file from `p` on, `n` runes and gaps at most, and composes a request for each stretch of gaps that is then
    /// shown, `MOST_REQUESTS` at most. Errors, in this order: `CountFull`; `OutOfMemory`. The terminal is then unchanged.
    #[tactic(auto, using(crate::proofs::Loads::load_facts), unfolding(crate::proofs::Edits::makes_opened))]
    pub(crate) fn make_load(&mut self, tag: u16, p: u32, n: u32) -> Result<Acted, TermFault>
        requires free { free_first self.old ≡ None }
        requires first { first_event self.old.held ≡ UserEvent.Load tag p n }
        ensures { IsAnswer self.old self.new result (done (made_first self.old)) }
    {
        let requests = self.count_requests(tag, p, n);
        if requests == 0 {
            self.drop_first();
            self.set_view(tag, p, n);
            return Ok(self.done_quietly());
        }
        let mut out = self.prepare(requests + self.unsent_count())?;
        self.drop_first();
        self.set_view(tag, p, n);
        self.compose_unsent(&mut out);
        self.compose_requests(tag, requests, &mut out);
        Ok(self.done_with(out))
    }

    /// Returns how many messages a `Load` composes, the oldest held event.
    #[tactic(auto, using(crate::proofs::FullCounts::loaded_facts, crate::proofs::Loads::loads_within, crate::proofs::Acts::opened_by))]
    pub(crate) fn loaded_count(&self, tag: u16, p: u32, n: u32) -> usize
        requires free { free_first self.now ≡ None }
        requires first { first_event self.now.held ≡ UserEvent.Load tag p n }
        ensures { result ≡ length (made_first self.now).1 }
    {
        let requests = self.count_requests(tag, p, n);
        if requests == 0 {
            0
        } else {
            requests + self.unsent_count()
        }
    }

    /// Returns how many requests an open file will want once it is shown from `p` on, `n` runes and gaps at most. Its view is still the
    /// old one.
    #[tactic(auto, using(crate::proofs::Loads::count_facts), unfolding(crate::specs::Term::all_wanted))]
    fn count_requests(&self, tag: u16, p: u32, n: u32) -> usize
        requires opened { IsTrue (is_open self.now tag) }
        requires within { p ≤ length (window_at self.now tag).rasp }
        ensures all { result ≡ length (all_wanted (shown_from self.now tag p n) tag) }
        ensures few { result ≤ most_requests }
    {
        let Some(window) = self.files.window(tag) else {
            unreachable!()
        };
        let end = p + n.min(window.rasp.len() - p);
        count_stretches(&window.rasp, p, end)
    }

    /// Composes the requests for the gaps in the view of an open file, of which there are `count`.
    #[tactic(auto, using(crate::proofs::Loads::asked_all))]
    fn compose_requests(&mut self, tag: u16, count: usize, out: &mut Outbox)
        requires opened { IsTrue (is_open self.old tag) }
        requires all { count ≡ length (all_wanted self.old tag) }
        requires counts { self.old.sent + count ≤ most_count }
        requires room { count ≤ out.old.room }
        ensures composed { self.new ≡ all_composed self.old (all_wanted self.old tag) }
        ensures messages { out.new.messages ≡ out.old.messages ++ all_wanted self.old tag }
    {
        self.put_requests(tag, out);
        self.await_data(tag, count);
    }

    /// Puts the requests for the gaps in the view of an open file into an outbox that has room for them. They are not counted yet.
    #[tactic(auto, unfolding(crate::specs::Term::all_wanted))]
    fn put_requests(&self, tag: u16, out: &mut Outbox)
        requires opened { IsTrue (is_open self.now tag) }
        requires room { length (all_wanted self.now tag) ≤ out.old.room }
        ensures { out.new.messages ≡ out.old.messages ++ all_wanted self.now tag }
    {
        self.window_facts(tag);
        let Some(window) = self.files.window(tag) else {
            unreachable!()
        };
        put_stretches(
            &window.rasp,
            tag,
            (window.view_start, end_of_view(window)),
            out,
        );
    }

    /// Counts `count` requests of an open file. Each takes a lock of the file, and awaits its data.
    #[tactic(auto, using(crate::proofs::FileSteps::file_puts), unfolding(crate::specs::Sound::FitsUnsent))]
    fn await_data(&mut self, tag: u16, count: usize)
        requires counts { self.old.sent + count ≤ most_count }
        requires opened { IsTrue (is_open self.old tag) }
        ensures { self.new ≡ awaiting self.old tag count }
    {
        let window = self.files.window_mut(tag);
        window.locks += count as u64;
        window.awaited += count as u64;
        self.file_locks += count as u64;
        self.sent += count as u64;
    }
}

/// Returns in how many stretches of at most `MOST_IN_MESSAGE` the gaps from `p` to `q` are asked for: `MOST_REQUESTS` at most. Each is
/// looked for once, at the cost of `Rasp::first_hole`.
#[tactic(auto, using(crate::proofs::Loads::stretch_facts))]
fn count_stretches(rasp: &Rasp, p: u32, q: u32) -> usize
    requires ascending { p ≤ q }
    requires within { q ≤ length rasp.now }
    ensures all { result ≡ length (stretches rasp.now p q most_requests) }
    ensures few { result ≤ most_requests }
{
    let mut place = p;
    for count in 0..MOST_REQUESTS {
        let Some((start, asked)) = first_stretch(rasp, place, q) else {
            return count;
        };
        place = start + asked as u32;
    }
    MOST_REQUESTS
}

/// Puts a request for each stretch of gaps in a range of the rasp of file `tag` into an outbox that has room for them: `MOST_REQUESTS` at
/// most.
#[tactic(auto, using(crate::proofs::Loads::stretch_facts))]
fn put_stretches(rasp: &Rasp, tag: u16, range: (u32, u32), out: &mut Outbox)
    requires ascending { range.0 ≤ range.1 }
    requires within { range.1 ≤ length rasp.now }
    requires room { length (stretches rasp.now range.0 range.1 most_requests) ≤ out.old.room }
    ensures { out.new.messages ≡ out.old.messages ++ requests_for tag (stretches rasp.now range.0 range.1 most_requests) }
{
    let mut place = range.0;
    for _ in 0..MOST_REQUESTS {
        let Some((start, asked)) = first_stretch(rasp, place, range.1) else {
            return;
        };
        out.put(Tmesg::Trequest(tag, start, asked));
        place = start + asked as u32;
    }
}

/// Returns the first stretch of at most `MOST_IN_MESSAGE` gaps from `p` to `q`, by its start and its length, if there is one.
#[tactic(auto, using(crate::proofs::Loads::stretch_facts))]
pub fn first_stretch(rasp: &Rasp, p: u32, q: u32) -> Option<(u32, u16)>
    requires ascending { p ≤ q }
    requires within { q ≤ length rasp.now }
    ensures stretch { result ≡ option_map front_of (hole_within rasp.now p q) }
{
    match rasp.first_hole(p, q) {
        Some(hole) => Some((hole.0, (hole.1 - hole.0).min(MOST_IN_MESSAGE as u32) as u16)),
        None => None,
    }
}
