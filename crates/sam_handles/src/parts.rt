//! A box taken apart, so that a type with no box in it can carry the pieces.

ghost use Rattle.std.specs.Prelude.{◌≡◌, None, Option, Some, is_some, true};
ghost use Rattle.sam_handles.specs.Handles.{holds};

use std::alloc::Allocator;
use std::marker::Model;

/// The pointer of a box and its allocator; or a null pointer, with no value behind it.
///
/// It owns what the box owned, and has no drop: parts that hold a value have to go back by `into_box`.
pub struct Parts<T, A: Allocator> {
    /// Where the box's value lies; null if there is none.
    pub at: *mut T,
    /// The allocator that the box came from.
    pub alloc: A,
    /// The value behind the pointer, as contracts see it.
    pub ghost value: { Option T },
}

impl<T, A: Allocator> Model for Parts<T, A> {
    ghost also_owns = { λ p. holds (A.dealloc_token p.alloc) T.row p.at p.value };
}

impl<T, A: Allocator> Parts<T, A> {
    /// Makes parts that hold nothing.
    pub fn none(alloc: A) -> Parts<T, A>
        ensures { result.value ≡ None }
    {
        Parts {
            at: std::ptr::null_mut(),
            alloc,
        }
    }

    /// Takes a box apart.
    pub fn of(whole: Box<T, A>) -> Parts<T, A>
    where
        T: Drop,
        ensures { result.value ≡ Some whole.value }
    {
        let (at, alloc) = Box::into_raw_with_allocator(whole);
        Parts { at, alloc }
    }

    /// Puts the box together again. The parts hold a value.
    pub fn into_box(self) -> Box<T, A>
        requires { is_some self.value ≡ true }
        ensures { Some result.value ≡ self.value }
    {
        let Parts { at, alloc } = self;
        unsafe { Box::from_raw(alloc, at) }
    }
}
