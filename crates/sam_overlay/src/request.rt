//! Requests of the user that wait, and which edits stand before them.

ghost use Rattle.std.specs.Prelude.{◌≡◌, ◌++◌, ◌<◌, ◌+◌, ◌^◌, ◌∷◌, [], IfOk, IfSome, IsTrue, None, OnErr, OnOk, Some, if◌then◌else◌, true, drop, length, map, option_copied, slice_get};
ghost use Rattle.sam_overlay.specs.Marks.{marked, marks_after, marks_after_drop};
ghost use Rattle.sam_overlay.specs.Overlays.{first_effect, is_request};
ghost use Rattle.sam_overlay.specs.Requests.{AreAsked, closes, concerns, is_closing, is_leaving, leaves, next_group, put_limit, serves, shared_write, writes};
ghost use Rattle.sam_term.specs.Events.{file_of, waits_for_all};

use crate::marks::{Marks, marks_of, put_marks};
use crate::overlay::Overlay;
use sam_term::UserEvent;
use std::alloc::{AllocError, Global};
use std::marker::Model;

/// A request of the user that waits.
#[derive(Drop)]
pub(crate) struct Request {
    /// What it asks for.
    pub event: UserEvent,
    /// The newest group of edits that stands before it.
    pub group: u32,
}

/// The requests that wait, the oldest first. Contracts see a list.
#[derive(Drop)]
pub(crate) struct RequestQueue {
    waiting: Vec<Request>,
}

impl Model for RequestQueue {
    ghost use Rattle.std.specs.Prelude.{List};
    ghost use Rattle.sam_overlay.specs.Requests.{AreAsked};
    ghost use Rattle.sam_overlay.specs.declared.request.Request.{Request};

    ghost Value = { List Request };

    ghost view = { λ a. a.waiting.items };

    ghost invariant = { λ a. AreAsked a.waiting.items };
}

impl RequestQueue {
    /// Returns a queue in which none waits. It takes no memory.
    pub fn new(alloc: Global) -> RequestQueue
        ensures { result ≡ [] }
    {
        RequestQueue {
            waiting: Vec::new(alloc),
        }
    }

    /// Returns how many wait.
    pub fn len(&self) -> usize
        ensures { result ≡ length self.now }
    {
        self.waiting.len()
    }

    /// Returns the group of the next edit, which stands behind all of them.
    pub fn next_group(&self) -> u32
        ensures { result ≡ next_group self.now }
    {
        next_group(self.waiting.as_slice())
    }

    /// Returns up to which group edits of a file may be put: to that of the first request that concerns it; `None` if there is none.
    pub fn limit(&self, tag: u16) -> Option<u32>
        ensures { result ≡ put_limit self.now tag }
    {
        put_limit(self.waiting.as_slice(), tag)
    }

    /// Returns whether one of them closes a file.
    pub fn closes(&self, tag: u16) -> bool
        ensures { result ≡ is_closing self.now tag }
    {
        is_closing(self.waiting.as_slice(), tag)
    }

    /// Returns whether one of them leaves.
    pub fn leaves(&self) -> bool
        ensures { result ≡ is_leaving self.now }
    {
        is_leaving(self.waiting.as_slice())
    }

    /// Returns the place, the oldest at 0, of the write of a file that another write of it shares, where `newest` is the newest group of
    /// the edits that wait over the file; `None` if there is none.
    pub fn shared_write(&self, tag: u16, newest: u32) -> Option<usize>
        ensures { result ≡ shared_write self.now tag newest }
    {
        shared_write(self.waiting.as_slice(), tag, newest)
    }

    /// Returns the oldest; `None` if none waits.
    #[tactic(auto, using(crate::proofs::QueueLaws::first_asked))]
    pub fn first(&self) -> Option<&Request>
        ensures first { option_copied result ≡ slice_get self.now 0 }
        ensures event { IfSome (option_copied result) (λ r. is_request r.event ≡ true) }
    {
        self.waiting.first()
    }

    /// Puts a request behind the others. The only error is out of memory; after it all is unchanged.
    #[tactic(auto, using(crate::proofs::QueueLaws::more_asked))]
    pub fn push(&mut self, request: Request) -> Result<(), AllocError>
        requires event { IsTrue (is_request request.event) }
        requires group { request.group + 1 < 2 ^ 32 }
        ensures ok { OnOk result (self.new ≡ self.old ++ request ∷ []) }
        ensures err { OnErr result (self.new ≡ self.old) }
    {
        self.waiting.push(request)?;
        Ok(())
    }

    /// Returns where the places of each request go as the end takes the oldest frame that waits. The only error is out of memory.
    pub fn marks_after(&self, alloc: Global, overlay: &Overlay) -> Result<Vec<Marks>, AllocError>
        ensures { IfOk result (λ marks.
            marks.items ≡ map (marks_after overlay.now (first_effect overlay.now.end.waiting)) self.now) }
    {
        marks_after(alloc, self.waiting.as_slice(), overlay)
    }

    /// Returns where the places of each request go as runes that wait over a file are taken back, of the groups up to a limit. The only
    /// error is out of memory.
    pub fn marks_after_drop(
        &self,
        alloc: Global,
        overlay: &Overlay,
        tag: u16,
        up_to: Option<u32>,
    ) -> Result<Vec<Marks>, AllocError>
        ensures { IfOk result (λ marks. marks.items ≡ map (marks_after_drop up_to overlay.now tag) self.now) }
    {
        marks_after_drop(alloc, self.waiting.as_slice(), overlay, tag, up_to)
    }

    /// Puts other places into the requests, one after another.
    #[tactic(auto, using(crate::proofs::MarkLaws::put_facts))]
    pub fn put_marks(&mut self, marks: &[Marks])
        requires { length marks.now ≡ length self.old }
        ensures { self.new ≡ marked marks.now self.old }
    {
        put_all_marks(&mut self.waiting, marks);
    }

    /// Lets the oldest go, if there is one.
    #[tactic(auto, using(crate::proofs::QueueLaws::fewer_asked))]
    pub fn drop_first(&mut self)
        ensures { self.new ≡ drop 1 self.old }
    {
        if !self.waiting.is_empty() {
            let _request = self.waiting.remove(0);
        }
    }
}

/// Returns where the places of each request go as the end takes the oldest frame that waits. The only error is out of memory.
fn marks_after(
    alloc: Global,
    requests: &[Request],
    overlay: &Overlay,
) -> Result<Vec<Marks>, AllocError>
    ensures { IfOk result (λ marks.
        marks.items ≡ map (marks_after overlay.now (first_effect overlay.now.end.waiting)) requests.now) }
{
    let mut marks = Vec::new(alloc);
    for request in requests {
        marks.push(request_marks(overlay, request))?;
    }
    Ok(marks)
}

/// Returns where the places of a request go as the end takes the oldest frame that waits.
fn request_marks(overlay: &Overlay, request: &Request) -> Marks
    ensures { result ≡ marks_after overlay.now (first_effect overlay.now.end.waiting) request.now }
{
    let marks = marks_of(&request.event);
    match file_of(&request.event) {
        None => marks,
        Some(tag) => Marks {
            p: overlay.place_after(tag, request.group, marks.p),
            q: overlay.place_after(tag, request.group, marks.q),
        },
    }
}

/// Returns where the places of each request go as runes that wait over a file are taken back, of the groups up to a limit. The only error
/// is out of memory.
fn marks_after_drop(
    alloc: Global,
    requests: &[Request],
    overlay: &Overlay,
    tag: u16,
    up_to: Option<u32>,
) -> Result<Vec<Marks>, AllocError>
    ensures { IfOk result (λ marks. marks.items ≡ map (marks_after_drop up_to overlay.now tag) requests.now) }
{
    let mut marks = Vec::new(alloc);
    for request in requests {
        marks.push(request_marks_after_drop(overlay, request, tag, up_to))?;
    }
    Ok(marks)
}

/// Returns where the places of a request go as runes that wait over a file are taken back, of the groups up to a limit.
fn request_marks_after_drop(
    overlay: &Overlay,
    request: &Request,
    tag: u16,
    up_to: Option<u32>,
) -> Marks
    ensures { result ≡ marks_after_drop up_to overlay.now tag request.now }
{
    let marks = marks_of(&request.event);
    let Some(file) = file_of(&request.event) else {
        return marks;
    };
    if file != tag {
        return marks;
    }
    Marks {
        p: overlay.place_after_drop(tag, up_to, request.group, marks.p),
        q: overlay.place_after_drop(tag, up_to, request.group, marks.q),
    }
}

/// Puts other places into the requests, one after another.
#[tactic(auto, using(crate::proofs::MarkLaws::mark_facts))]
fn put_all_marks(requests: &mut Vec<Request>, marks: &[Marks])
    requires { length marks.now ≡ length requests.old.items }
    ensures { requests.new.items ≡ marked marks.now requests.old.items }
{
    for index in 0..marks.len() {
        put_marks(&mut requests[index].event, marks[index]);
    }
}

/// Returns the number above the groups of all requests.
fn next_group(requests: &[Request]) -> u32
    requires { AreAsked requests.now }
    ensures { result ≡ next_group requests.now }
{
    let mut group: u32 = 0;
    for request in requests {
        group = group.max(request.group + 1);
    }
    group
}

/// Returns the group of the first request that concerns a file; `None` if there is none.
fn put_limit(requests: &[Request], tag: u16) -> Option<u32>
    ensures { result ≡ put_limit requests.now tag }
{
    for request in requests {
        if concerns(&request.event, tag) {
            return Some(request.group);
        }
    }
    None
}

/// Returns the place of the youngest request that concerns a file, if it serves for a write of it; `None` if not.
#[tactic(auto, using(crate::proofs::QueueLaws::found_first))]
fn shared_write(requests: &[Request], tag: u16, newest: u32) -> Option<usize>
    ensures { result ≡ shared_write requests.now tag newest }
{
    let mut shared = None;
    for (place, request) in requests.iter().enumerate() {
        if concerns(&request.event, tag) {
            shared = served_at(place, request, tag, newest);
        }
    }
    shared
}

/// Returns the place if the request serves for a write of a file; `None` if not.
fn served_at(place: usize, request: &Request, tag: u16, newest: u32) -> Option<usize>
    ensures { result ≡ (if serves tag newest request.now then Some place else None) }
{
    if writes(&request.event, tag) && newest <= request.group {
        Some(place)
    } else {
        None
    }
}

/// Returns whether a request closes a file.
fn is_closing(requests: &[Request], tag: u16) -> bool
    ensures { result ≡ is_closing requests.now tag }
{
    for request in requests {
        if closes(&request.event, tag) {
            return true;
        }
    }
    false
}

/// Returns whether a request leaves.
fn is_leaving(requests: &[Request]) -> bool
    ensures { result ≡ is_leaving requests.now }
{
    for request in requests {
        if leaves(&request.event) {
            return true;
        }
    }
    false
}

/// Returns whether a request waits for edits of a file: it names the file, or it takes the command lock.
pub(crate) fn concerns(event: &UserEvent, tag: u16) -> bool
    ensures { result ≡ concerns event.now tag }
{
    if waits_for_all(event) {
        return true;
    }
    match file_of(event) {
        Some(file) => file == tag,
        None => false,
    }
}

/// Returns whether an event closes a file.
fn closes(event: &UserEvent, tag: u16) -> bool
    ensures { result ≡ closes tag event.now }
{
    match event {
        UserEvent::Close(file) => *file == tag,
        _ => false,
    }
}

/// Returns whether an event writes a file.
fn writes(event: &UserEvent, tag: u16) -> bool
    ensures { result ≡ writes tag event.now }
{
    match event {
        UserEvent::Write(file) => *file == tag,
        _ => false,
    }
}

/// Returns whether an event ends the session.
fn leaves(event: &UserEvent) -> bool
    ensures { result ≡ leaves event.now }
{
    match event {
        UserEvent::Exit => true,
        _ => false,
    }
}

/// Returns the file that an event names, if it names one.
fn file_of(event: &UserEvent) -> Option<u16>
    ensures { result ≡ file_of event.now }
{
    match event {
        UserEvent::Typed(tag, _)
        | UserEvent::Select(tag, _, _)
        | UserEvent::Cut(tag)
        | UserEvent::Paste(tag)
        | UserEvent::Snarf(tag)
        | UserEvent::Look(tag)
        | UserEvent::Search(tag)
        | UserEvent::Send(tag)
        | UserEvent::Dclick(tag, _)
        | UserEvent::Scroll(tag, _)
        | UserEvent::View(tag, _, _)
        | UserEvent::Load(tag, _, _)
        | UserEvent::Edit(tag, _, _, _)
        | UserEvent::Open(tag)
        | UserEvent::Close(tag)
        | UserEvent::Write(tag)
        | UserEvent::Work(tag)
        | UserEvent::Check(tag) => Some(*tag),
        _ => None,
    }
}

/// Returns whether an event takes the command lock.
fn waits_for_all(event: &UserEvent) -> bool
    ensures { result ≡ waits_for_all event.now }
{
    match event {
        UserEvent::Typed(tag, text) => *tag == 0 && text.ends_line(),
        UserEvent::Send(_)
        | UserEvent::Open(_)
        | UserEvent::Close(_)
        | UserEvent::OpenCmd
        | UserEvent::New
        | UserEvent::Exit
        | UserEvent::Version(_) => true,
        _ => false,
    }
}
