//! `ShownEnd`: an overlay with its requests and their numbers, and the splices that its front end has still to take.

ghost use Rattle.std.specs.Prelude.{◌≡◌, IsTrue};
ghost use Rattle.sam_overlay.specs.Overlays.{is_request};
ghost use Rattle.sam_runes.specs.Texts.{is_empty};
ghost use Rattle.sam_shown.specs.Shown.{AsksNumbered, Edits, StepsShown, new_shown_end};

use crate::splices::Splices;
use sam_endpoint::{EndpointFault, TermStep, TermStop};
use sam_overlay::{AskFault, OrderedOverlay, Overlay, ReplaceFault, RequestNumbers};
use sam_term::UserEvent;
use std::alloc::Global;

/// What a step of a `ShownEnd` did.
#[derive(Clone, Copy, Drop)]
pub struct ShownStep {
    /// What the terminal end did. Its changes are those of the rasp.
    pub step: TermStep,
    /// The number of the request that acted or was refused; 0 if none did.
    pub request: u64,
}

/// A terminal end over whose rasps edits wait, with requests between them, and the changes of the shown text that the last step made and
/// that were not handed out yet. All parts are public: the calls that change nothing which is shown, and take no request, are those of
/// `ordered`. A front end takes all splices before the next step, and before it says what its user did: so its copy is what is shown, and
/// the places that it names are right.
///
/// ```rust
/// end.ordered.bring(piece)?; // what came from the host
/// while end.step()?.step != TermStep::Idle {
///     while let Some(splice) = end.splices.next() {} // each one goes into the copy
/// }
/// end.replace(1, 5, 5, &['!'])?; // the user typed, and the copy has it already
/// let number = end.ask(UserEvent::Write(1))?; // the step at which the write acts says this number
/// ```
#[derive(Drop)]
pub struct ShownEnd {
    /// The terminal end, and what waits over it.
    pub ordered: OrderedOverlay,
    /// The changes of the shown text by the last step that were not handed out.
    pub splices: Splices,
    /// The numbers of the requests.
    pub numbers: RequestNumbers,
}

impl ShownEnd {
    /// Makes an end that knows no file. It takes no memory.
    pub fn new(alloc: Global) -> ShownEnd
        ensures { result ≡ new_shown_end }
    {
        ShownEnd {
            ordered: OrderedOverlay::new(alloc),
            splices: Splices::none(),
            numbers: RequestNumbers::new(),
        }
    }

    /// Returns the overlay, to be read.
    pub fn overlay(&self) -> &Overlay
        ensures { result.now ≡ self.now.ordered.overlay }
    {
        self.ordered.overlay()
    }

    /// Goes on by one step, as `OrderedOverlay::step` does, and says which request acted or was refused by it. The splices by which the
    /// shown text changed can then be handed out.
    ///
    /// Errors are those of that call. After each nothing that is shown has changed.
    pub fn step(&mut self) -> Result<ShownStep, EndpointFault<TermStop>>
        requires { IsTrue (is_empty self.old.splices) }
        ensures { StepsShown self.old result self.new }
    {
        let step = self.ordered.step()?;
        self.splices = Splices::of(step.tag, step.told);
        let request = self.numbers.tell(step.step, self.ordered.waiting());
        Ok(ShownStep {
            step: step.step,
            request,
        })
    }

    /// Puts `runes` in the place of what is shown of a file from place `p` to place `q`, as `OrderedOverlay::replace` does. No splice tells
    /// of it.
    ///
    /// Errors are those of that call, in its order. After each all is as before.
    pub fn replace(&mut self, tag: u16, p: u32, q: u32, runes: &[char]) -> Result<(), ReplaceFault>
        requires { IsTrue (is_empty self.old.splices) }
        ensures replaced { Edits self.old.ordered tag p q runes.now result self.new.ordered }
        ensures splices { self.new.splices ≡ self.old.splices }
        ensures numbers { self.new.numbers ≡ self.old.numbers }
    {
        self.ordered.replace(tag, p, q, runes)
    }

    /// Takes a request in behind the others, as `OrderedOverlay::ask` does, and returns its number, counted from 1 over those that were
    /// taken. A write that shares one that waits has the number of that.
    ///
    /// Errors, in this order, after which all is as before: `CountFull` if 2^64-1 requests were taken; those of that call, in its order.
    pub fn ask(&mut self, event: UserEvent) -> Result<u64, AskFault>
        requires { IsTrue (is_request event) }
        ensures { AsksNumbered self.old event result self.new }
    {
        if self.numbers.is_full() {
            return Err(AskFault::CountFull);
        }
        match self.ordered.ask(event) {
            Ok(asked) => Ok(self.numbers.number(asked, self.ordered.waiting())),
            Err(why) => Err(why),
        }
    }
}
