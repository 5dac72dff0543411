//! Values that are made by two calls.
ghost use Rattle.std.specs.Prelude.{◌≡◌, Ok, IfOk};

/// What two calls gave, or the error of one of them. A function of its own: a caller would drop what the one gave where the other failed.
pub(crate) fn both_of<A: Drop, B: Drop, E: Drop>(
    first: Result<A, E>,
    second: Result<B, E>,
) -> Result<(A, B), E>
    ensures { IfOk result (λ both. (first ≡ Ok both.0) × (second ≡ Ok both.1)) }
{
    match first {
        Ok(first) => beside(first, second),
        Err(error) => Err(error),
    }
}

/// A value and what was made after it, or the error of that. A function of its own for the same reason.
pub(crate) fn beside<A: Drop, B: Drop, E: Drop>(first: A, second: Result<B, E>) -> Result<(A, B), E>
    ensures { IfOk result (λ both. (both.0 ≡ first) × (second ≡ Ok both.1)) }
{
    match second {
        Ok(second) => Ok((first, second)),
        Err(error) => Err(error),
    }
}
