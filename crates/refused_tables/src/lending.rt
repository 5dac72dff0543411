//! Values that are made, lent to a call and dropped behind it.
//!
//! They are of any type here, so what becomes of them is proved once, and not again in each case.
use growth_answers::{Answer, Seen, Unready, judged, twice};
use relay_tables::TableFault;
use std::alloc::{AllocError, Global};

/// The answer of a call that gives a value, or is refused memory.
pub(crate) fn made<T: Drop, F: FnOnce(&T) -> bool>(
    made: Result<T, AllocError>,
    is_right: F,
) -> Answer
    requires { F.IsAlwaysCallable is_right }
{
    match made {
        Ok(value) => judged(value, is_right),
        Err(_) => Answer::Refused,
    }
}

/// The answer of a call that may be refused for another reason, which would be wrong.
pub(crate) fn built<T: Drop, F: FnOnce(&T) -> bool>(
    built: Result<T, TableFault>,
    is_right: F,
) -> Answer
    requires { F.IsAlwaysCallable is_right }
{
    match built {
        Ok(value) => judged(value, is_right),
        Err(TableFault::Memory) => Answer::Refused,
        Err(_) => Answer::Wrong,
    }
}

/// How a case goes that is lent its input.
pub(crate) fn lent_input<A: Drop, F: FnOnce(&A) -> Result<Seen, Unready>>(
    input: Result<A, Unready>,
    case: F,
) -> Result<Seen, Unready>
    requires { F.IsAlwaysCallable case }
{
    match input {
        Ok(input) => case(&input),
        Err(unready) => Err(unready),
    }
}

/// How a call goes that is lent its input, and again where it is refused.
pub(crate) fn tried<A: Drop, F: Fn(Global, &A) -> Answer>(
    alloc: Global,
    input: Result<A, Unready>,
    call: F,
) -> Result<Seen, Unready>
    requires { F.IsAlwaysCallable call }
{
    match input {
        Ok(input) => Ok(twice!(call(alloc, &input))),
        Err(unready) => Err(unready),
    }
}

/// What is made of two inputs, which are dropped behind it.
pub(crate) fn of_both<A: Drop, B: Drop, T: Drop, F: FnOnce(&A, &B) -> Result<T, Unready>>(
    first: Result<A, Unready>,
    second: Result<B, Unready>,
    make: F,
) -> Result<T, Unready>
    requires { F.IsAlwaysCallable make }
{
    match first {
        Ok(first) => match second {
            Ok(second) => make(&first, &second),
            Err(unready) => Err(unready),
        },
        Err(unready) => Err(unready),
    }
}

/// How a call goes that is lent two inputs, and again where it is refused.
pub(crate) fn tried_on_both<A: Drop, B: Drop, F: Fn(Global, &A, &B) -> Answer>(
    alloc: Global,
    first: Result<A, Unready>,
    second: Result<B, Unready>,
    call: F,
) -> Result<Seen, Unready>
    requires { F.IsAlwaysCallable call }
{
    match first {
        Ok(first) => match second {
            Ok(second) => Ok(twice!(call(alloc, &first, &second))),
            Err(unready) => Err(unready),
        },
        Err(unready) => Err(unready),
    }
}
