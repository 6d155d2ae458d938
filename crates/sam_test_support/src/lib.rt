//! Lends a value to whoever tries it. A test that owns a terminal or a world takes it apart at each of its exits, which is slow to prove.
//! A generic function drops it by one call.
#![tactic(auto)]

/// Lends the value to the body, to be changed, and returns what the body returns. The value is then dropped.
pub fn lent<T: Drop, A, F: FnOnce(&mut T) -> A>(value: T, body: F) -> A
    requires { F.IsAlwaysCallable body }
{
    let mut value = value;
    body(&mut value)
}

/// Returns what `look` returns of the value, which is then dropped.
pub fn told_of<T: Drop, A, F: FnOnce(&T) -> A>(value: T, look: F) -> A
    requires { F.IsAlwaysCallable look }
{
    look(&value)
}
