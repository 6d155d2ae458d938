//! The handle of a client, as those of sam_handles.

ghost use Rattle.std.specs.Prelude.{◌≡◌, None, Option, Some, eqb, is_some, option_map};
ghost use Rattle.sam_c_client.specs.Handles.{client_mark, held_client_coded, holds_client};
ghost use Rattle.sam_c_client.specs.declared.client_end.ClientEnd.{ClientEnd as PlainClientEnd};

use crate::client_end::ClientEnd;
use sam_handles::parts::Parts;
use std::alloc::Global;
use std::marker::Model;

/// What stands in a client's handle that is made: "sam clie" as a number. Any other number says that the handle is empty.
const CLIENT_MARK: u64 = 8_314_046_372_977_076_581;

/// A client behind a pointer, or none. The derived drop leaves the memory to whoever holds the pointer by then.
#[repr(C)]
#[derive(Drop)]
pub struct HeldClient {
    /// Where the client lies, as a pointer to bytes; null if there is none.
    at: *mut u8,
    /// The allocator that the client's box came from.
    alloc: Global,
    /// The client behind the pointer, as contracts see it.
    pub ghost end: { Option PlainClientEnd } by { held_client_coded },
}

impl Model for HeldClient {
    ghost also_owns = { λ h. holds_client h.alloc h.at h.end };
}

unsafe impl Send for HeldClient {}

impl HeldClient {
    /// Keeps the parts of a box.
    fn of_parts(parts: Parts<ClientEnd, Global>) -> HeldClient
        ensures { result.end ≡ parts.value }
    {
        let Parts { at, alloc } = parts;
        HeldClient {
            at: at as *mut u8,
            alloc,
        }
    }

    /// Gives the parts back.
    fn into_parts(self) -> Parts<ClientEnd, Global>
        ensures { result.value ≡ self.end }
    {
        let HeldClient { at, alloc } = self;
        Parts {
            at: at as *mut ClientEnd,
            alloc,
        }
    }
}

/// The handle of a client: `sam_client` of include/sulgrevad.h. It is empty, or holds a client, which clauses call `held.end`.
#[repr(C)]
pub struct SamClient {
    /// The client, if the handle is made.
    held: HeldClient,
    /// `CLIENT_MARK` if and only if the handle holds a client.
    made: u64,
    /// States that `held` and `made` agree.
    ghost is_marked: { is_some held.end ≡ eqb made client_mark },
}

impl SamClient {
    /// Makes an empty handle.
    fn empty(alloc: Global) -> SamClient
        ensures { result.held.end ≡ None }
    {
        SamClient {
            held: HeldClient::of_parts(Parts::none(alloc)),
            made: 0,
        }
    }

    /// Returns the client; `None` if the handle is empty.
    fn into_end(self) -> Option<Box<ClientEnd>>
        ensures { option_map (λ end. end.value) result ≡ self.held.end }
    {
        let SamClient { held, made } = self;
        if made == CLIENT_MARK {
            Some(held.into_parts().into_box())
        } else {
            None
        }
    }

    /// Returns whether the handle holds a client.
    pub(crate) fn is_made(&self) -> bool
        ensures { result ≡ is_some self.now.held.end }
    {
        self.made == CLIENT_MARK
    }

    /// Takes the client out of the handle, which is then empty. Returns `None` if it was empty.
    pub(crate) fn take(&mut self, alloc: Global) -> Option<Box<ClientEnd>>
        ensures end { option_map (λ end. end.value) result ≡ self.old.held.end }
        ensures empty { self.new.held.end ≡ None }
    {
        if !self.is_made() {
            return None;
        }
        std::mem::replace(self, SamClient::empty(alloc)).into_end()
    }

    /// Puts a client into the handle. One that it held before is freed.
    pub(crate) fn put(&mut self, end: Box<ClientEnd>)
        ensures { self.new.held.end ≡ Some end.value }
    {
        *self = SamClient {
            held: HeldClient::of_parts(Parts::of(end)),
            made: CLIENT_MARK,
        };
    }
}

impl Drop for SamClient {
    /// Frees the client, if the handle holds one.
    fn drop(self) {
        drop(self.into_end());
    }
}
