//! The handles of a durable server and of a recovery, as those of handle.rt.

ghost use Rattle.std.specs.Prelude.{◌≡◌, None, Option, Some, eqb, is_some, option_map};
ghost use Rattle.sam_server.specs.DurableServers.{PlainDurableServer};
ghost use Rattle.sam_server.specs.Servers.{Server as PlainServer};
ghost use Rattle.sam_c.specs.ServerHandles.{held_recovery_coded, held_server_coded, holds_recovery, holds_server, recovery_mark, server_mark};

use sam_handles::parts::Parts;
use sam_server::{DurableServer, Recovery};
use std::alloc::Global;
use std::marker::Model;

/// What stands in a server's handle that is made: "sam serv" as a number. Any other number says that the handle is empty.
const SERVER_MARK: u64 = 8_314_046_373_245_055_606;

/// What stands in a recovery's handle that is made: "sam reco" as a number. Any other number says that the handle is empty.
const RECOVERY_MARK: u64 = 8_314_046_373_228_274_543;

/// A server behind a pointer, or none. The derived drop leaves the memory to whoever holds the pointer by then.
#[repr(C)]
#[derive(Drop)]
pub struct HeldServer {
    /// Where the server lies, as a pointer to bytes; null if there is none.
    at: *mut u8,
    /// The allocator that the server's box came from.
    alloc: Global,
    /// The server behind the pointer, as contracts see it.
    pub ghost end: { Option PlainDurableServer } by { held_server_coded },
}

impl Model for HeldServer {
    ghost also_owns = { λ h. holds_server h.alloc h.at h.end };
}

unsafe impl Send for HeldServer {}

impl HeldServer {
    /// Keeps the parts of a box.
    fn of_parts(parts: Parts<DurableServer, Global>) -> HeldServer
        ensures { result.end ≡ parts.value }
    {
        let Parts { at, alloc } = parts;
        HeldServer {
            at: at as *mut u8,
            alloc,
        }
    }

    /// Gives the parts back.
    fn into_parts(self) -> Parts<DurableServer, Global>
        ensures { result.value ≡ self.end }
    {
        let HeldServer { at, alloc } = self;
        Parts {
            at: at as *mut DurableServer,
            alloc,
        }
    }
}

/// The handle of a server: `sam_server` of include/sulgrevad.h. It is empty, or holds a server, which clauses call `held.end`.
#[repr(C)]
pub struct SamServer {
    /// The server, if the handle is made.
    held: HeldServer,
    /// `SERVER_MARK` if and only if the handle holds a server.
    made: u64,
    /// States that `held` and `made` agree.
    ghost is_marked: { is_some held.end ≡ eqb made server_mark },
}

impl SamServer {
    /// Makes an empty handle.
    fn empty(alloc: Global) -> SamServer
        ensures { result.held.end ≡ None }
    {
        SamServer {
            held: HeldServer::of_parts(Parts::none(alloc)),
            made: 0,
        }
    }

    /// Returns the server; `None` if the handle is empty.
    fn into_end(self) -> Option<Box<DurableServer>>
        ensures { option_map (λ end. end.value) result ≡ self.held.end }
    {
        let SamServer { held, made } = self;
        if made == SERVER_MARK {
            Some(held.into_parts().into_box())
        } else {
            None
        }
    }

    /// Returns whether the handle holds a server.
    pub(crate) fn is_made(&self) -> bool
        ensures { result ≡ is_some self.now.held.end }
    {
        self.made == SERVER_MARK
    }

    /// Takes the server out of the handle, which is then empty. Returns `None` if it was empty.
    pub(crate) fn take(&mut self, alloc: Global) -> Option<Box<DurableServer>>
        ensures end { option_map (λ end. end.value) result ≡ self.old.held.end }
        ensures empty { self.new.held.end ≡ None }
    {
        if !self.is_made() {
            return None;
        }
        std::mem::replace(self, SamServer::empty(alloc)).into_end()
    }

    /// Puts a server into the handle. One that it held before is freed.
    pub(crate) fn put(&mut self, end: Box<DurableServer>)
        ensures { self.new.held.end ≡ Some end.value }
    {
        *self = SamServer {
            held: HeldServer::of_parts(Parts::of(end)),
            made: SERVER_MARK,
        };
    }
}

impl Drop for SamServer {
    /// Frees the server, if the handle holds one.
    fn drop(self) {
        drop(self.into_end());
    }
}

/// A recovery behind a pointer, or none. The derived drop leaves the memory to whoever holds the pointer by then.
#[repr(C)]
#[derive(Drop)]
pub struct HeldRecovery {
    /// Where the recovery lies, as a pointer to bytes; null if there is none.
    at: *mut u8,
    /// The allocator that the recovery's box came from.
    alloc: Global,
    /// The recovery behind the pointer, as contracts see it.
    pub ghost end: { Option PlainServer } by { held_recovery_coded },
}

impl Model for HeldRecovery {
    ghost also_owns = { λ h. holds_recovery h.alloc h.at h.end };
}

unsafe impl Send for HeldRecovery {}

impl HeldRecovery {
    /// Keeps the parts of a box.
    fn of_parts(parts: Parts<Recovery, Global>) -> HeldRecovery
        ensures { result.end ≡ parts.value }
    {
        let Parts { at, alloc } = parts;
        HeldRecovery {
            at: at as *mut u8,
            alloc,
        }
    }

    /// Gives the parts back.
    fn into_parts(self) -> Parts<Recovery, Global>
        ensures { result.value ≡ self.end }
    {
        let HeldRecovery { at, alloc } = self;
        Parts {
            at: at as *mut Recovery,
            alloc,
        }
    }
}

/// The handle of a recovery: `sam_recovery` of include/sulgrevad.h. It is empty, or holds a recovery, which clauses call `held.end`.
#[repr(C)]
pub struct SamRecovery {
    /// The recovery, if the handle is made.
    held: HeldRecovery,
    /// `RECOVERY_MARK` if and only if the handle holds a recovery.
    made: u64,
    /// States that `held` and `made` agree.
    ghost is_marked: { is_some held.end ≡ eqb made recovery_mark },
}

impl SamRecovery {
    /// Makes an empty handle.
    fn empty(alloc: Global) -> SamRecovery
        ensures { result.held.end ≡ None }
    {
        SamRecovery {
            held: HeldRecovery::of_parts(Parts::none(alloc)),
            made: 0,
        }
    }

    /// Returns the recovery; `None` if the handle is empty.
    fn into_end(self) -> Option<Box<Recovery>>
        ensures { option_map (λ end. end.value) result ≡ self.held.end }
    {
        let SamRecovery { held, made } = self;
        if made == RECOVERY_MARK {
            Some(held.into_parts().into_box())
        } else {
            None
        }
    }

    /// Returns whether the handle holds a recovery.
    pub(crate) fn is_made(&self) -> bool
        ensures { result ≡ is_some self.now.held.end }
    {
        self.made == RECOVERY_MARK
    }

    /// Takes the recovery out of the handle, which is then empty. Returns `None` if it was empty.
    pub(crate) fn take(&mut self, alloc: Global) -> Option<Box<Recovery>>
        ensures end { option_map (λ end. end.value) result ≡ self.old.held.end }
        ensures empty { self.new.held.end ≡ None }
    {
        if !self.is_made() {
            return None;
        }
        std::mem::replace(self, SamRecovery::empty(alloc)).into_end()
    }

    /// Puts a recovery into the handle. One that it held before is freed.
    pub(crate) fn put(&mut self, end: Box<Recovery>)
        ensures { self.new.held.end ≡ Some end.value }
    {
        *self = SamRecovery {
            held: HeldRecovery::of_parts(Parts::of(end)),
            made: RECOVERY_MARK,
        };
    }
}

impl Drop for SamRecovery {
    /// Frees the recovery, if the handle holds one.
    fn drop(self) {
        drop(self.into_end());
    }
}
