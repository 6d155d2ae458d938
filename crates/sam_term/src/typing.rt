//! What the event `Typed` does: its runes come in the place of the dot, join the unsent ones if they follow them, and go to the host at
//! once if they end a command line.

ghost use Rattle.std.specs.Prelude.{◌≡◌, ◌+◌, ◌-◌, ◌<◌, ◌≤◌, ◌^◌, ◌++◌, ◌==◌, ◌&&◌, [], length, OnErr, OnOk, IfOk, IsTrue, None, Some, false, nat_le, not, is_some, option_map, drop};
ghost use Rattle.sam_rasp.specs.Rasp.{place_after_ins, place_after_del};
ghost use Rattle.sam_runes.specs.Texts.{is_empty, max_runes, most_count, most_in_message};
ghost use Rattle.sam_term.specs.Acting.{first_event, free_first, is_typing, made_first};
ghost use Rattle.sam_term.specs.Editing.{typed_over, typed_runes, typed_file, joined_at, lengthened, shortened, one_if, flushed_if};
ghost use Rattle.sam_term.specs.Events.{is_command_line};
ghost use Rattle.sam_term.specs.Taking.{IsAnswer, done};
ghost use Rattle.sam_term.specs.Term.{is_open, window_at, put_window, all_composed, cut_message, unsent_message, joins};

use crate::event::{Acted, UserEvent};
use crate::fault::TermFault;
use crate::outbox::Outbox;
use crate::records::{Unsent, Window};
use crate::term::Terminal;
use sam_mesg::Tmesg;
use sam_runes::{MOST_IN_MESSAGE, Runes};
use std::alloc::AllocError;

/// Returns where a place goes as `n` runes come in the place of what stands from `p` to `q`.
pub fn after_typing(p: u32, q: u32, n: u32, place: u32) -> u32
    requires ordered { p ≤ q }
    requires fits { place + n < 2 ^ 32 }
    ensures { result ≡ place_after_ins p n (place_after_del p q place) }
{
    if place <= p {
        return place;
    }
    if place < q {
        return p;
    }
    let moved = place - (q - p);
    if p < moved { moved + n } else { moved }
}

/// Puts runes in the place of the dot of a window, which is then empty and after them. The only error is out of memory, and the window
/// is then unchanged.
pub fn type_over(window: &mut Window, runes: &[char]) -> Result<(), AllocError>
    requires ordered { window.old.dot.0 ≤ window.old.dot.1 }
    requires within { window.old.dot.1 ≤ max_runes }
    requires view { window.old.view_start ≤ max_runes }
    requires size { length runes.now ≤ max_runes }
    ensures ok { OnOk result (window.new ≡ typed_over window.old runes.now) }
    ensures err { OnErr result (window.new ≡ window.old) }
{
    let (p, q) = window.dot;
    if window.rasp.replace(p, q, runes).is_err() {
        return Err(AllocError);
    }
    let n = runes.len() as u32;
    window.dot = (p + n, p + n);
    window.view_start = after_typing(p, q, n, window.view_start);
    Ok(())
}

/// Returns the runes of a `Typed`.
fn typed_runes(event: &UserEvent) -> &[char]
    requires { IsTrue (is_typing event.now) }
    ensures { result.now ≡ typed_runes event.now }
{
    match event {
        UserEvent::Typed(_, text) => text.as_slice(),
        _ => unreachable!(),
    }
}

fn typed_file(event: &UserEvent) -> u16
    requires { IsTrue (is_typing event.now) }
    ensures { result ≡ typed_file event.now }
{
    match event {
        UserEvent::Typed(tag, _) => *tag,
        _ => unreachable!(),
    }
}

/// Returns whether a `Typed` ends a line of the command file.
fn types_line(event: &UserEvent) -> bool
    requires { IsTrue (is_typing event.now) }
    ensures { result ≡ is_command_line (typed_file event.now) (typed_runes event.now) }
{
    match event {
        UserEvent::Typed(tag, text) => *tag == 0 && text.ends_line(),
        _ => unreachable!(),
    }
}

/// Returns the runes of a `Typed`, which is used up.
fn text_of(event: UserEvent) -> Runes
    requires { IsTrue (is_typing event) }
    ensures { result ≡ typed_runes event }
{
    match event {
        UserEvent::Typed(_, text) => text,
        _ => unreachable!(),
    }
}

/// Returns whether `n` runes typed at `p` stand right after the unsent ones, in the same file, and all fit in one message.
fn follows(unsent: &Unsent, tag: u16, p: u32, n: usize) -> bool
    requires before { length unsent.now.runes ≤ most_in_message }
    requires few { n ≤ most_in_message }
    ensures { result ≡ (unsent.now.file == tag && unsent.now.place + length unsent.now.runes == p
        && nat_le (length unsent.now.runes + n) most_in_message) }
{
    let count = unsent.runes.len();
    unsent.file == tag
        && unsent.place as u64 + count as u64 == p as u64
        && count + n <= MOST_IN_MESSAGE
}

/// The least room that is asked for, in runes, once the unsent ones have none left: so most keys ask for no memory.
const LEAST_ROOM: usize = 32;

/// Puts `more` at the end of `runes`. The only error is out of memory, and nothing has changed then.
fn put_behind(runes: &mut Vec<char>, more: &[char]) -> Result<(), AllocError>
    ensures ok { OnOk result (runes.new.items ≡ runes.old.items ++ more.now) }
    ensures err { OnErr result (runes.new.items ≡ runes.old.items) }
{
    if runes.capacity().saturating_sub(runes.len()) < more.len() {
        runes.reserve(more.len().max(LEAST_ROOM))?;
    }
    runes.extend_from_slice(more)
}

/// Puts runes after the unsent ones, if there are any. The only error is out of memory, and nothing has changed then.
fn lengthen(unsent: &mut Option<Unsent>, more: &[char]) -> Result<(), AllocError>
    ensures ok { OnOk result (unsent.new ≡ option_map (lengthened more.now) unsent.old) }
    ensures err { OnErr result (unsent.new ≡ unsent.old) }
{
    let Some(before) = unsent.take() else {
        return Ok(());
    };
    let mut runes = before.runes.into_vec();
    let grown = put_behind(&mut runes, more);
    *unsent = Some(Unsent {
        file: before.file,
        place: before.place,
        runes: Runes::from_vec(runes),
    });
    grown
}

/// Takes the last `n` of the unsent runes off, if there are any.
fn shorten(unsent: &mut Option<Unsent>, n: usize)
    ensures { unsent.new ≡ option_map (shortened n) unsent.old }
{
    let Some(before) = unsent.take() else {
        return;
    };
    let mut runes = before.runes.into_vec();
    runes.truncate(runes.len().saturating_sub(n));
    *unsent = Some(Unsent {
        file: before.file,
        place: before.place,
        runes: Runes::from_vec(runes),
    });
}

/// Returns how many messages the cut of a dot makes: 1, or 0 if it is empty.
pub fn cut_count(dot: (u32, u32)) -> usize
    ensures { result ≡ one_if (not (dot.0 == dot.1)) }
{
    if dot.0 == dot.1 { 0 } else { 1 }
}

/// Returns how many messages the typed runes make at once: 1 if they end a command line, else 0.
fn line_count(line: bool) -> usize
    ensures { result ≡ one_if line }
{
    if line { 1 } else { 0 }
}

impl Terminal {
    /// Does a `Typed`: puts its runes in the place of the dot, and keeps them unsent. Errors, in this order: `CountFull`; `OutOfMemory`.
    /// The terminal is then unchanged.
    #[tactic(auto, using(crate::proofs::Acts::first_is, crate::proofs::Acts::opened_by, crate::proofs::TypedMade::make_typed_facts))]
    pub(crate) fn make_typed(&mut self) -> Result<Acted, TermFault>
        requires free { free_first self.old ≡ None }
        requires first { IsTrue (is_typing (first_event self.old.held)) }
        ensures { IsAnswer self.old self.new result (done (made_first self.old)) }
    {
        let Some(event) = self.held.first() else {
            unreachable!()
        };
        let tag = typed_file(event);
        let line = types_line(event);
        let runes = typed_runes(event);
        let dot = self.dot_of(tag);
        if runes.is_empty() {
            return self.type_nothing(tag, dot);
        }
        if dot.0 == dot.1 && self.joins_unsent(tag, dot.0, runes) {
            return self.type_behind(tag, dot, line);
        }
        self.type_apart(tag, dot, line)
    }

    /// Returns whether runes typed at `p` join the unsent ones, if there are any.
    #[tactic(auto, unfolding(crate::specs::Sound::IsShort))]
    fn joins_unsent(&self, tag: u16, p: u32, runes: &[char]) -> bool
        requires few { length runes.now ≤ most_in_message }
        ensures { result ≡ joins self.now.unsent tag p runes.now }
    {
        match &self.unsent {
            Some(unsent) => follows(unsent, tag, p, runes.len()),
            None => false,
        }
    }

    /// Returns how many messages a `Typed` composes, the oldest held event.
    #[tactic(auto, using(crate::proofs::Acts::first_is, crate::proofs::Acts::opened_by, crate::proofs::TypedMade::make_typed_facts))]
    pub(crate) fn typed_count(&self) -> usize
        requires free { free_first self.now ≡ None }
        requires first { IsTrue (is_typing (first_event self.now.held)) }
        ensures { result ≡ length (made_first self.now).1 }
    {
        let Some(event) = self.held.first() else {
            unreachable!()
        };
        let tag = typed_file(event);
        let text = typed_runes(event);
        let dot = self.dot_of(tag);
        let line = types_line(event);
        if text.is_empty() {
            return self.empty_typed_count(tag, dot);
        }
        if dot.0 == dot.1 && self.joins_unsent(tag, dot.0, text) {
            return self.joining_count(tag, dot, line);
        }
        self.apart_typed_count(tag, dot, line)
    }

    /// Returns how many messages a `Typed` with no runes composes.
    #[tactic(auto, using(crate::proofs::FullCounts::nothing_none_count, crate::proofs::FullCounts::nothing_some_count))]
    fn empty_typed_count(&self, tag: u16, dot: (u32, u32)) -> usize
        requires first { first_event self.now.held ≡ UserEvent.Typed tag [] }
        requires dot { dot ≡ (window_at self.now tag).dot }
        ensures { result ≡ length (made_first self.now).1 }
    {
        if dot.0 == dot.1 {
            0
        } else {
            1 + self.unsent_count()
        }
    }

    /// Returns how many messages a `Typed` composes whose runes join the unsent ones. The dot is empty.
    #[tactic(auto, using(crate::proofs::TypedMade::behind_count))]
    fn joining_count(&self, tag: u16, dot: (u32, u32), line: bool) -> usize
        requires first { first_event self.now.held ≡ UserEvent.Typed tag (typed_runes (first_event self.now.held)) }
        requires some { is_empty (typed_runes (first_event self.now.held)) ≡ false }
        requires dot { dot ≡ (window_at self.now tag).dot }
        requires line { line ≡ is_command_line tag (typed_runes (first_event self.now.held)) }
        requires nothing { dot.0 ≡ dot.1 }
        requires joins { IsTrue (joins self.now.unsent tag dot.0 (typed_runes (first_event self.now.held))) }
        ensures { result ≡ length (made_first self.now).1 }
    {
        let _ = &self.alloc;
        line_count(line)
    }

    /// Returns how many messages a `Typed` composes whose runes join no unsent ones.
    #[tactic(auto, using(crate::proofs::TypedMade::apart_count))]
    fn apart_typed_count(&self, tag: u16, dot: (u32, u32), line: bool) -> usize
        requires opened { IsTrue (is_open self.now tag) }
        requires first { first_event self.now.held ≡ UserEvent.Typed tag (typed_runes (first_event self.now.held)) }
        requires some { is_empty (typed_runes (first_event self.now.held)) ≡ false }
        requires dot { dot ≡ (window_at self.now tag).dot }
        requires line { line ≡ is_command_line tag (typed_runes (first_event self.now.held)) }
        requires apart { (dot.0 == dot.1 && joins self.now.unsent tag dot.0 (typed_runes (first_event self.now.held))) ≡ false }
        ensures { result ≡ length (made_first self.now).1 }
    {
        self.window_facts(tag);
        self.unsent_count() + cut_count(dot) + line_count(line)
    }

    /// Does a `Typed` with no runes, which only cuts the dot.
    #[tactic(auto, using(crate::proofs::Edits::make_facts), unfolding(crate::proofs::Edits::makes_opened))]
    fn type_nothing(&mut self, tag: u16, dot: (u32, u32)) -> Result<Acted, TermFault>
        requires first { first_event self.old.held ≡ UserEvent.Typed tag [] }
        requires opened { IsTrue (is_open self.old tag) }
        requires dot { dot ≡ (window_at self.old tag).dot }
        ensures { IsAnswer self.old self.new result (done (made_first self.old)) }
    {
        if dot.0 == dot.1 {
            self.drop_first();
            return Ok(self.done_quietly());
        }
        let count = 1 + self.unsent_count();
        let mut out = self.prepare(count)?;
        self.drop_first();
        self.cut_selected(tag, dot, &mut out);
        self.compose(Tmesg::Tcut(tag, dot.0, dot.1), &mut out);
        Ok(self.done_with(out))
    }

    /// Does a `Typed` whose runes join the unsent ones. The dot is empty.
    #[tactic(auto, using(crate::proofs::TypedMade::behind_facts), unfolding(crate::specs::Taking::done, crate::specs::Acting::made_first))]
    fn type_behind(&mut self, tag: u16, dot: (u32, u32), line: bool) -> Result<Acted, TermFault>
        requires free { free_first self.old ≡ None }
        requires first { first_event self.old.held ≡ UserEvent.Typed tag (typed_runes (first_event self.old.held)) }
        requires some { is_empty (typed_runes (first_event self.old.held)) ≡ false }
        requires dot { dot ≡ (window_at self.old tag).dot }
        requires line { line ≡ is_command_line tag (typed_runes (first_event self.old.held)) }
        requires nothing { dot.0 ≡ dot.1 }
        requires joins { IsTrue (joins self.old.unsent tag dot.0 (typed_runes (first_event self.old.held))) }
        ensures { IsAnswer self.old self.new result (done (made_first self.old)) }
    {
        let mut out = self.prepare(line_count(line))?;
        self.join_first(tag)?;
        self.mark_changed(tag);
        self.drop_first();
        self.compose_line(line, &mut out);
        Ok(self.done_with(out))
    }

    /// Does a `Typed` whose runes join no unsent ones: these are composed first, and then the cut of the dot. The new runes are then
    /// unsent.
    #[tactic(auto, using(crate::proofs::TypedMade::apart_facts), unfolding(crate::specs::Taking::done, crate::specs::Acting::made_first))]
    fn type_apart(&mut self, tag: u16, dot: (u32, u32), line: bool) -> Result<Acted, TermFault>
        requires free { free_first self.old ≡ None }
        requires first { first_event self.old.held ≡ UserEvent.Typed tag (typed_runes (first_event self.old.held)) }
        requires some { is_empty (typed_runes (first_event self.old.held)) ≡ false }
        requires dot { dot ≡ (window_at self.old tag).dot }
        requires line { line ≡ is_command_line tag (typed_runes (first_event self.old.held)) }
        requires apart { (dot.0 == dot.1 && joins self.old.unsent tag dot.0 (typed_runes (first_event self.old.held))) ≡ false }
        ensures { IsAnswer self.old self.new result (done (made_first self.old)) }
    {
        self.window_facts(tag);
        let count = self.unsent_count() + cut_count(dot) + line_count(line);
        let mut out = self.prepare(count)?;
        let before = self.type_first(tag)?;
        self.mark_changed(tag);
        let runes = self.take_typed();
        self.compose_runes(before, &mut out);
        self.compose_cut(tag, dot, &mut out);
        let unsent = Unsent {
            file: tag,
            place: dot.0,
            runes,
        };
        self.keep_typed(unsent, line, &mut out);
        Ok(self.done_with(out))
    }

    /// Puts the runes of the oldest event in the place of the dot of their file, which is empty, and after the unsent ones, which they
    /// join. The caller marks the file as changed. The only error is out of memory, and the terminal is then unchanged.
    #[tactic(auto, using(crate::proofs::TypedMade::joined_facts), unfolding(crate::proofs::FileSteps::unsent_opened))]
    fn join_first(&mut self, tag: u16) -> Result<(), AllocError>
        requires opened { IsTrue (is_open self.old tag) }
        requires first { IsTrue (is_typing (first_event self.old.held)) }
        requires size { length (window_at self.old tag).rasp + length (typed_runes (first_event self.old.held)) ≤ max_runes }
        requires nothing { (window_at self.old tag).dot.0 ≡ (window_at self.old tag).dot.1 }
        requires joins { IsTrue (joins self.old.unsent tag (window_at self.old tag).dot.0 (typed_runes (first_event self.old.held))) }
        ensures ok { OnOk result (self.new ≡ joined_at self.old tag (typed_runes (first_event self.old.held))) }
        ensures err { OnErr result (self.new ≡ self.old) }
    {
        let Some(event) = self.held.first() else {
            unreachable!()
        };
        let runes = typed_runes(event);
        lengthen(&mut self.unsent, runes)?;
        // Only the unsent runes can be cut back without memory, so they come first.
        let typed = type_over(self.files.window_mut(tag), runes);
        if typed.is_err() {
            shorten(&mut self.unsent, runes.len());
        }
        typed
    }

    /// Takes the oldest event, a `Typed`, out of the held ones and returns its runes.
    fn take_typed(&mut self) -> Runes
        requires { IsTrue (is_typing (first_event self.old.held)) }
        ensures runes { result ≡ typed_runes (first_event self.old.held) }
        ensures dropped { self.new ≡ record self.old { held = drop 1 self.old.held } }
    {
        let Some(event) = self.held.take_first() else {
            unreachable!()
        };
        text_of(event)
    }

    /// Composes runes that `type_first` handed over as they were unsent, if there were any.
    pub(crate) fn compose_runes(&mut self, before: Option<Unsent>, out: &mut Outbox)
        requires counts { self.old.sent + length (unsent_message before) ≤ most_count }
        requires room { length (unsent_message before) ≤ out.old.room }
        ensures composed { self.new ≡ all_composed self.old (unsent_message before) }
        ensures messages { out.new.messages ≡ out.old.messages ++ unsent_message before }
        ensures room { out.old.room ≤ out.new.room + length (unsent_message before) }
    {
        if let Some(unsent) = before {
            self.compose(Tmesg::Ttype(unsent.file, unsent.place, unsent.runes), out);
        }
    }

    /// Composes the cut of a dot, if it is not empty. The rasp was cut before.
    pub(crate) fn compose_cut(&mut self, tag: u16, dot: (u32, u32), out: &mut Outbox)
        requires counts { self.old.sent + one_if (not (dot.0 == dot.1)) ≤ most_count }
        requires room { one_if (not (dot.0 == dot.1)) ≤ out.old.room }
        ensures composed { self.new ≡ all_composed self.old (cut_message tag dot) }
        ensures messages { out.new.messages ≡ out.old.messages ++ cut_message tag dot }
        ensures room { out.old.room ≤ out.new.room + one_if (not (dot.0 == dot.1)) }
    {
        if dot.0 == dot.1 {
            return;
        }
        self.compose(Tmesg::Tcut(tag, dot.0, dot.1), out);
    }

    /// Keeps typed runes unsent, or composes them at once if they end a command line.
    #[tactic(auto, unfolding(crate::specs::Sound::FitsUnsent, crate::specs::Sound::IsShort))]
    fn keep_typed(&mut self, unsent: Unsent, line: bool, out: &mut Outbox)
        requires within { unsent.place ≤ (window_at self.old unsent.file).dot.1 }
        requires short { length unsent.runes ≤ most_in_message }
        requires counts { self.old.sent + one_if line ≤ most_count }
        requires room { one_if line ≤ out.old.room }
        ensures kept { self.new ≡ (flushed_if line (record self.old { unsent = Some unsent })).0 }
        ensures messages { out.new.messages ≡ out.old.messages ++ (flushed_if line (record self.old { unsent = Some unsent })).1 }
    {
        self.unsent = Some(unsent);
        self.compose_line(line, out);
    }

    /// Composes the unsent runes at once if they end a command line.
    fn compose_line(&mut self, line: bool, out: &mut Outbox)
        requires some { IsTrue (is_some self.old.unsent) }
        requires counts { self.old.sent + one_if line ≤ most_count }
        requires room { one_if line ≤ out.old.room }
        ensures composed { self.new ≡ (flushed_if line self.old).0 }
        ensures messages { out.new.messages ≡ out.old.messages ++ (flushed_if line self.old).1 }
    {
        if line {
            self.compose_unsent(out);
        }
    }

    /// Puts the runes of the oldest event in the place of the dot of their file, which the caller marks as changed. The unsent runes are
    /// handed over, since the place where they begin may go with the dot. The only error is out of memory, and the terminal is then
    /// unchanged.
    #[tactic(auto, using(crate::proofs::FileSteps::typed_in_facts), unfolding(crate::proofs::FileSteps::unsent_opened))]
    pub(crate) fn type_first(&mut self, tag: u16) -> Result<Option<Unsent>, AllocError>
        requires opened { IsTrue (is_open self.old tag) }
        requires first { IsTrue (is_typing (first_event self.old.held)) }
        requires size { length (window_at self.old tag).rasp + length (typed_runes (first_event self.old.held))
            ≤ max_runes + ((window_at self.old tag).dot.1 - (window_at self.old tag).dot.0) }
        ensures unsent { IfOk result (λ before. before ≡ self.old.unsent) }
        ensures ok { OnOk result (self.new ≡ record
            (put_window self.old tag (typed_over (window_at self.old tag) (typed_runes (first_event self.old.held)))) { unsent = None }) }
        ensures err { OnErr result (self.new ≡ self.old) }
    {
        let Some(event) = self.held.first() else {
            unreachable!()
        };
        type_over(self.files.window_mut(tag), typed_runes(event))?;
        Ok(self.unsent.take())
    }
}
