//! The handles that a C program holds. It declares each as a struct of a pointer and a number, all bytes zero at first, and gives its
//! address to the calls. An exported type may hold no box, so a handle carries the parts of one under a pointer to bytes.

ghost use Rattle.std.specs.Prelude.{◌≡◌, None, Option, Some, eqb, is_some, option_map};
ghost use Rattle.sam_endpoint.specs.HostEndpoints.{PlainHostEndpoint};
ghost use Rattle.sam_endpoint.specs.TermEndpoints.{PlainTermEndpoint};
ghost use Rattle.sam_line.specs.declared.line.Line.{Line as PlainLine};
ghost use Rattle.sam_link.specs.End.{End};
ghost use Rattle.sam_shown.specs.declared.shown_end.ShownEnd.{ShownEnd as PlainShownEnd};
ghost use Rattle.sam_handles.specs.Handles.{held_host_coded, held_line_coded, held_link_coded, held_overlay_coded, held_term_coded, holds_host};
ghost use Rattle.sam_handles.specs.Handles.{holds_line, holds_link, holds_overlay, holds_term, host_mark, line_mark, link_mark, overlay_mark};
ghost use Rattle.sam_handles.specs.Handles.{term_mark};

use crate::parts::Parts;
use sam_endpoint::{HostEndpoint, TermEndpoint};
use sam_line::Line;
use sam_link::Link;
use sam_shown::ShownEnd;
use std::alloc::Global;
use std::marker::Model;

/// What stands in a host's handle that is made: "sam host" as a number. Any other number says that the handle is empty.
const HOST_MARK: u64 = 8_314_046_373_061_161_844;

/// What stands in a terminal's handle that is made: "sam term" as a number. Any other number says that the handle is empty.
const TERM_MARK: u64 = 8_314_046_373_261_832_813;

/// What stands in a link's handle that is made: "sam link" as a number. Any other number says that the handle is empty.
const LINK_MARK: u64 = 8_314_046_373_127_876_203;

/// What stands in an overlay's handle that is made: "sam over" as a number. Any other number says that the handle is empty.
const OVERLAY_MARK: u64 = 8_314_046_373_179_057_522;

/// What stands in a line's handle that is made: "sam line" as a number. Any other number says that the handle is empty.
const LINE_MARK: u64 = 8_314_046_373_127_876_197;

/// A host end behind a pointer, or none. The derived drop leaves the memory to whoever holds the pointer by then.
#[repr(C)]
#[derive(Drop)]
pub struct HeldHost {
    /// Where the end lies, as a pointer to bytes; null if there is none.
    at: *mut u8,
    /// The allocator that the end's box came from.
    alloc: Global,
    /// The end behind the pointer, as contracts see it.
    pub ghost end: { Option PlainHostEndpoint } by { held_host_coded },
}

impl Model for HeldHost {
    ghost also_owns = { λ h. holds_host h.alloc h.at h.end };
}

unsafe impl Send for HeldHost {}

impl HeldHost {
    /// Keeps the parts of a box.
    fn of_parts(parts: Parts<HostEndpoint, Global>) -> HeldHost
        ensures { result.end ≡ parts.value }
    {
        let Parts { at, alloc } = parts;
        HeldHost {
            at: at as *mut u8,
            alloc,
        }
    }

    /// Gives the parts back.
    fn into_parts(self) -> Parts<HostEndpoint, Global>
        ensures { result.value ≡ self.end }
    {
        let HeldHost { at, alloc } = self;
        Parts {
            at: at as *mut HostEndpoint,
            alloc,
        }
    }
}

/// The handle of a host: `sam_host` of include/sulgrevad.h. It is empty, or holds an endpoint, which clauses call `held.end`.
#[repr(C)]
pub struct SamHost {
    /// The end, if the handle is made.
    held: HeldHost,
    /// `HOST_MARK` if and only if the handle holds an endpoint.
    made: u64,
    /// States that `held` and `made` agree.
    ghost is_marked: { is_some held.end ≡ eqb made host_mark },
}

impl SamHost {
    /// Makes an empty handle.
    fn empty(alloc: Global) -> SamHost
        ensures { result.held.end ≡ None }
    {
        SamHost {
            held: HeldHost::of_parts(Parts::none(alloc)),
            made: 0,
        }
    }

    /// Returns the end; `None` if the handle is empty.
    fn into_end(self) -> Option<Box<HostEndpoint>>
        ensures { option_map (λ end. end.value) result ≡ self.held.end }
    {
        let SamHost { held, made } = self;
        if made == HOST_MARK {
            Some(held.into_parts().into_box())
        } else {
            None
        }
    }

    /// Returns whether the handle holds an endpoint.
    pub fn is_made(&self) -> bool
        ensures { result ≡ is_some self.now.held.end }
    {
        self.made == HOST_MARK
    }

    /// Takes the end out of the handle, which is then empty. Returns `None` if it was empty.
    pub fn take(&mut self, alloc: Global) -> Option<Box<HostEndpoint>>
        ensures end { option_map (λ end. end.value) result ≡ self.old.held.end }
        ensures empty { self.new.held.end ≡ None }
    {
        if !self.is_made() {
            return None;
        }
        std::mem::replace(self, SamHost::empty(alloc)).into_end()
    }

    /// Puts an endpoint into the handle. An endpoint that it held before is freed.
    pub fn put(&mut self, end: Box<HostEndpoint>)
        ensures { self.new.held.end ≡ Some end.value }
    {
        *self = SamHost {
            held: HeldHost::of_parts(Parts::of(end)),
            made: HOST_MARK,
        };
    }
}

impl Drop for SamHost {
    /// Frees the end, if the handle holds one.
    fn drop(self) {
        drop(self.into_end());
    }
}

/// A terminal end behind a pointer, or none. The derived drop leaves the memory to whoever holds the pointer by then.
#[repr(C)]
#[derive(Drop)]
pub struct HeldTerm {
    /// Where the end lies, as a pointer to bytes; null if there is none.
    at: *mut u8,
    /// The allocator that the end's box came from.
    alloc: Global,
    /// The end behind the pointer, as contracts see it.
    pub ghost end: { Option PlainTermEndpoint } by { held_term_coded },
}

impl Model for HeldTerm {
    ghost also_owns = { λ h. holds_term h.alloc h.at h.end };
}

unsafe impl Send for HeldTerm {}

impl HeldTerm {
    /// Keeps the parts of a box.
    fn of_parts(parts: Parts<TermEndpoint, Global>) -> HeldTerm
        ensures { result.end ≡ parts.value }
    {
        let Parts { at, alloc } = parts;
        HeldTerm {
            at: at as *mut u8,
            alloc,
        }
    }

    /// Gives the parts back.
    fn into_parts(self) -> Parts<TermEndpoint, Global>
        ensures { result.value ≡ self.end }
    {
        let HeldTerm { at, alloc } = self;
        Parts {
            at: at as *mut TermEndpoint,
            alloc,
        }
    }
}

/// The handle of a terminal: `sam_term` of include/sulgrevad.h. It is empty, or holds an endpoint, which clauses call `held.end`.
#[repr(C)]
pub struct SamTerm {
    /// The end, if the handle is made.
    held: HeldTerm,
    /// `TERM_MARK` if and only if the handle holds an endpoint.
    made: u64,
    /// States that `held` and `made` agree.
    ghost is_marked: { is_some held.end ≡ eqb made term_mark },
}

impl SamTerm {
    /// Makes an empty handle.
    fn empty(alloc: Global) -> SamTerm
        ensures { result.held.end ≡ None }
    {
        SamTerm {
            held: HeldTerm::of_parts(Parts::none(alloc)),
            made: 0,
        }
    }

    /// Returns the end; `None` if the handle is empty.
    fn into_end(self) -> Option<Box<TermEndpoint>>
        ensures { option_map (λ end. end.value) result ≡ self.held.end }
    {
        let SamTerm { held, made } = self;
        if made == TERM_MARK {
            Some(held.into_parts().into_box())
        } else {
            None
        }
    }

    /// Returns whether the handle holds an endpoint.
    pub fn is_made(&self) -> bool
        ensures { result ≡ is_some self.now.held.end }
    {
        self.made == TERM_MARK
    }

    /// Takes the end out of the handle, which is then empty. Returns `None` if it was empty.
    pub fn take(&mut self, alloc: Global) -> Option<Box<TermEndpoint>>
        ensures end { option_map (λ end. end.value) result ≡ self.old.held.end }
        ensures empty { self.new.held.end ≡ None }
    {
        if !self.is_made() {
            return None;
        }
        std::mem::replace(self, SamTerm::empty(alloc)).into_end()
    }

    /// Puts an endpoint into the handle. An endpoint that it held before is freed.
    pub fn put(&mut self, end: Box<TermEndpoint>)
        ensures { self.new.held.end ≡ Some end.value }
    {
        *self = SamTerm {
            held: HeldTerm::of_parts(Parts::of(end)),
            made: TERM_MARK,
        };
    }
}

impl Drop for SamTerm {
    /// Frees the end, if the handle holds one.
    fn drop(self) {
        drop(self.into_end());
    }
}

/// A link's end behind a pointer, or none. The derived drop leaves the memory to whoever holds the pointer by then.
#[repr(C)]
#[derive(Drop)]
pub struct HeldLink {
    /// Where the end lies, as a pointer to bytes; null if there is none.
    at: *mut u8,
    /// The allocator that the end's box came from.
    alloc: Global,
    /// The end behind the pointer, as contracts see it.
    pub ghost end: { Option End } by { held_link_coded },
}

impl Model for HeldLink {
    ghost also_owns = { λ h. holds_link h.alloc h.at h.end };
}

unsafe impl Send for HeldLink {}

impl HeldLink {
    /// Keeps the parts of a box.
    fn of_parts(parts: Parts<Link, Global>) -> HeldLink
        ensures { result.end ≡ parts.value }
    {
        let Parts { at, alloc } = parts;
        HeldLink {
            at: at as *mut u8,
            alloc,
        }
    }

    /// Gives the parts back.
    fn into_parts(self) -> Parts<Link, Global>
        ensures { result.value ≡ self.end }
    {
        let HeldLink { at, alloc } = self;
        Parts {
            at: at as *mut Link,
            alloc,
        }
    }
}

/// The handle of a link: `sam_link` of include/sulgrevad.h. It is empty, or holds an end, which clauses call `held.end`.
#[repr(C)]
pub struct SamLink {
    /// The end, if the handle is made.
    held: HeldLink,
    /// `LINK_MARK` if and only if the handle holds an end.
    made: u64,
    /// States that `held` and `made` agree.
    ghost is_marked: { is_some held.end ≡ eqb made link_mark },
}

impl SamLink {
    /// Makes an empty handle.
    fn empty(alloc: Global) -> SamLink
        ensures { result.held.end ≡ None }
    {
        SamLink {
            held: HeldLink::of_parts(Parts::none(alloc)),
            made: 0,
        }
    }

    /// Returns the end; `None` if the handle is empty.
    fn into_end(self) -> Option<Box<Link>>
        ensures { option_map (λ end. end.value) result ≡ self.held.end }
    {
        let SamLink { held, made } = self;
        if made == LINK_MARK {
            Some(held.into_parts().into_box())
        } else {
            None
        }
    }

    /// Returns whether the handle holds an end.
    pub fn is_made(&self) -> bool
        ensures { result ≡ is_some self.now.held.end }
    {
        self.made == LINK_MARK
    }

    /// Takes the end out of the handle, which is then empty. Returns `None` if it was empty.
    pub fn take(&mut self, alloc: Global) -> Option<Box<Link>>
        ensures end { option_map (λ end. end.value) result ≡ self.old.held.end }
        ensures empty { self.new.held.end ≡ None }
    {
        if !self.is_made() {
            return None;
        }
        std::mem::replace(self, SamLink::empty(alloc)).into_end()
    }

    /// Puts an end into the handle. One that it held before is freed.
    pub fn put(&mut self, end: Box<Link>)
        ensures { self.new.held.end ≡ Some end.value }
    {
        *self = SamLink {
            held: HeldLink::of_parts(Parts::of(end)),
            made: LINK_MARK,
        };
    }
}

impl Drop for SamLink {
    /// Frees the end, if the handle holds one.
    fn drop(self) {
        drop(self.into_end());
    }
}

/// A line behind a pointer, or none. The derived drop leaves the memory to whoever holds the pointer by then.
#[repr(C)]
#[derive(Drop)]
pub struct HeldLine {
    /// Where the line lies, as a pointer to bytes; null if there is none.
    at: *mut u8,
    /// The allocator that the line's box came from.
    alloc: Global,
    /// The line behind the pointer, as contracts see it.
    pub ghost end: { Option PlainLine } by { held_line_coded },
}

impl Model for HeldLine {
    ghost also_owns = { λ h. holds_line h.alloc h.at h.end };
}

unsafe impl Send for HeldLine {}

impl HeldLine {
    /// Keeps the parts of a box.
    fn of_parts(parts: Parts<Line, Global>) -> HeldLine
        ensures { result.end ≡ parts.value }
    {
        let Parts { at, alloc } = parts;
        HeldLine {
            at: at as *mut u8,
            alloc,
        }
    }

    /// Gives the parts back.
    fn into_parts(self) -> Parts<Line, Global>
        ensures { result.value ≡ self.end }
    {
        let HeldLine { at, alloc } = self;
        Parts {
            at: at as *mut Line,
            alloc,
        }
    }
}

/// The handle of a line: `sam_line` of include/sulgrevad.h. It is empty, or holds a line, which clauses call `held.end`.
#[repr(C)]
pub struct SamLine {
    /// The line, if the handle is made.
    held: HeldLine,
    /// `LINE_MARK` if and only if the handle holds a line.
    made: u64,
    /// States that `held` and `made` agree.
    ghost is_marked: { is_some held.end ≡ eqb made line_mark },
}

impl SamLine {
    /// Makes an empty handle.
    fn empty(alloc: Global) -> SamLine
        ensures { result.held.end ≡ None }
    {
        SamLine {
            held: HeldLine::of_parts(Parts::none(alloc)),
            made: 0,
        }
    }

    /// Returns the line; `None` if the handle is empty.
    fn into_end(self) -> Option<Box<Line>>
        ensures { option_map (λ end. end.value) result ≡ self.held.end }
    {
        let SamLine { held, made } = self;
        if made == LINE_MARK {
            Some(held.into_parts().into_box())
        } else {
            None
        }
    }

    /// Returns whether the handle holds a line.
    pub fn is_made(&self) -> bool
        ensures { result ≡ is_some self.now.held.end }
    {
        self.made == LINE_MARK
    }

    /// Takes the line out of the handle, which is then empty. Returns `None` if it was empty.
    pub fn take(&mut self, alloc: Global) -> Option<Box<Line>>
        ensures end { option_map (λ end. end.value) result ≡ self.old.held.end }
        ensures empty { self.new.held.end ≡ None }
    {
        if !self.is_made() {
            return None;
        }
        std::mem::replace(self, SamLine::empty(alloc)).into_end()
    }

    /// Puts a line into the handle. One that it held before is freed.
    pub fn put(&mut self, end: Box<Line>)
        ensures { self.new.held.end ≡ Some end.value }
    {
        *self = SamLine {
            held: HeldLine::of_parts(Parts::of(end)),
            made: LINE_MARK,
        };
    }
}

impl Drop for SamLine {
    /// Frees the line, if the handle holds one.
    fn drop(self) {
        drop(self.into_end());
    }
}

/// An overlay behind a pointer, or none. The derived drop leaves the memory to whoever holds the pointer by then.
#[repr(C)]
#[derive(Drop)]
pub struct HeldOverlay {
    /// Where the overlay lies, as a pointer to bytes; null if there is none.
    at: *mut u8,
    /// The allocator that the overlay's box came from.
    alloc: Global,
    /// The overlay behind the pointer, as contracts see it.
    pub ghost end: { Option PlainShownEnd } by { held_overlay_coded },
}

impl Model for HeldOverlay {
    ghost also_owns = { λ h. holds_overlay h.alloc h.at h.end };
}

unsafe impl Send for HeldOverlay {}

impl HeldOverlay {
    /// Keeps the parts of a box.
    fn of_parts(parts: Parts<ShownEnd, Global>) -> HeldOverlay
        ensures { result.end ≡ parts.value }
    {
        let Parts { at, alloc } = parts;
        HeldOverlay {
            at: at as *mut u8,
            alloc,
        }
    }

    /// Gives the parts back.
    fn into_parts(self) -> Parts<ShownEnd, Global>
        ensures { result.value ≡ self.end }
    {
        let HeldOverlay { at, alloc } = self;
        Parts {
            at: at as *mut ShownEnd,
            alloc,
        }
    }
}

/// The handle of an overlay: `sam_overlay` of include/sulgrevad.h. It is empty, or holds an overlay, which clauses call `held.end`.
#[repr(C)]
pub struct SamOverlay {
    /// The overlay, if the handle is made.
    held: HeldOverlay,
    /// `OVERLAY_MARK` if and only if the handle holds an overlay.
    made: u64,
    /// States that `held` and `made` agree.
    ghost is_marked: { is_some held.end ≡ eqb made overlay_mark },
}

impl SamOverlay {
    /// Makes an empty handle.
    fn empty(alloc: Global) -> SamOverlay
        ensures { result.held.end ≡ None }
    {
        SamOverlay {
            held: HeldOverlay::of_parts(Parts::none(alloc)),
            made: 0,
        }
    }

    /// Returns the overlay; `None` if the handle is empty.
    fn into_end(self) -> Option<Box<ShownEnd>>
        ensures { option_map (λ end. end.value) result ≡ self.held.end }
    {
        let SamOverlay { held, made } = self;
        if made == OVERLAY_MARK {
            Some(held.into_parts().into_box())
        } else {
            None
        }
    }

    /// Returns whether the handle holds an overlay.
    pub fn is_made(&self) -> bool
        ensures { result ≡ is_some self.now.held.end }
    {
        self.made == OVERLAY_MARK
    }

    /// Takes the overlay out of the handle, which is then empty. Returns `None` if it was empty.
    pub fn take(&mut self, alloc: Global) -> Option<Box<ShownEnd>>
        ensures end { option_map (λ end. end.value) result ≡ self.old.held.end }
        ensures empty { self.new.held.end ≡ None }
    {
        if !self.is_made() {
            return None;
        }
        std::mem::replace(self, SamOverlay::empty(alloc)).into_end()
    }

    /// Puts an overlay into the handle. One that it held before is freed.
    pub fn put(&mut self, end: Box<ShownEnd>)
        ensures { self.new.held.end ≡ Some end.value }
    {
        *self = SamOverlay {
            held: HeldOverlay::of_parts(Parts::of(end)),
            made: OVERLAY_MARK,
        };
    }
}

impl Drop for SamOverlay {
    /// Frees the overlay, if the handle holds one.
    fn drop(self) {
        drop(self.into_end());
    }
}
