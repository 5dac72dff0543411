//! Two values of which one can't be had without the other.
//!
//! Functions of their own, and for any values: a caller would drop what the one part gave where the other failed.
ghost use Rattle.std.specs.Prelude.{◌≡◌, ◌⊎◌, Ok, Err, IfOk, IfErr};

/// What two parts gave, or a fault of one.
pub(crate) fn both_or_fault<A: Drop, B: Drop, E: Drop>(
    first: Result<A, E>,
    second: Result<B, E>,
) -> Result<(A, B), E>
    ensures both { IfOk result (λ both. (first ≡ Ok both.0) × (second ≡ Ok both.1)) }
    ensures fault { IfErr result (λ fault. (first ≡ Err fault) ⊎ (second ≡ Err fault)) }
{
    match first {
        Ok(first) => with_or_fault(first, second),
        Err(fault) => Err(fault),
    }
}

/// A value, and what a part gave that came after it, or the fault of that part.
pub(crate) fn with_or_fault<A: Drop, B: Drop, E: Drop>(
    first: A,
    second: Result<B, E>,
) -> Result<(A, B), E>
    ensures both { IfOk result (λ both. (first ≡ both.0) × (second ≡ Ok both.1)) }
    ensures fault { IfErr result (λ fault. second ≡ Err fault) }
{
    match second {
        Ok(second) => Ok((first, second)),
        Err(fault) => Err(fault),
    }
}
