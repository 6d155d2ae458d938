//! How a call takes the end out of a handle and puts it back.

/// Takes the end out of a handle, gives what the body makes of it, and puts it back. Of an empty handle it returns `NO_HANDLE`. With `mut`
/// the body may change the end.
#[macro_export]
macro_rules! with_end {
    ($handle:ident $alloc:ident mut $end:ident $body:block) => {{
        let Some(mut $end) = $handle.take($alloc) else {
            return $crate::status::NO_HANDLE;
        };
        let status = $body;
        $handle.put($end);
        status
    }};
    ($handle:ident $alloc:ident $end:ident $body:block) => {{
        let Some($end) = $handle.take($alloc) else {
            return $crate::status::NO_HANDLE;
        };
        let status = $body;
        $handle.put($end);
        status
    }};
}
