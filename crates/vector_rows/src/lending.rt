//! A value that is lent to one call.

/// What a call gives that a value is lent to; the value is dropped behind it. A check lists all parts of a long value
/// at each place of the function that owns it, and those of its drop. Here they are those of no type.
pub fn lent<T: Drop, X, F: FnOnce(&mut T) -> X>(mut value: T, call: F) -> X
    requires { F.IsAlwaysCallable call }
{
    call(&mut value)
}

/// The same of a value that could be made; else why it couldn't.
pub fn lent_ok<T: Drop, E, X, F: Drop + FnOnce(&mut T) -> X>(
    made: Result<T, E>,
    call: F,
) -> Result<X, E>
    requires { F.IsAlwaysCallable call }
{
    match made {
        Ok(value) => Ok(lent(value, call)),
        Err(error) => Err(error),
    }
}
