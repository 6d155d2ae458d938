//! What a call hands out where C has room for it, and the number that it returns.

ghost use Rattle.std.specs.Prelude.{Some};
ghost use Rattle.sam_handles.specs.Calls.{TellsOne};

use crate::status::{NONE, OK};

/// Hands out a value. Returns `OK`.
pub fn tell<T: Copy>(value: T, room: &mut T) -> u32
    ensures { TellsOne (Some value) result room.old room.new }
{
    *room = value;
    OK
}

/// Hands out a value, and returns `OK`. If there is none, it returns `NONE`, and what stood there stays.
pub fn tell_some<T: Copy>(value: Option<T>, room: &mut T) -> u32
    ensures { TellsOne value result room.old room.new }
{
    match value {
        Some(value) => tell(value, room),
        None => NONE,
    }
}

/// Hands out two values, and returns `OK`. If there are none, it returns `NONE`, and what stood there stays.
pub fn tell_two<T: Copy, U: Copy>(values: Option<(T, U)>, first: &mut T, second: &mut U) -> u32
    ensures { TellsOne values result (first.old, second.old) (first.new, second.new) }
{
    match values {
        Some(values) => {
            *first = values.0;
            *second = values.1;
            OK
        }
        None => NONE,
    }
}
