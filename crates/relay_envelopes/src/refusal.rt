//! Why an envelope has no plan.

/// Why one envelope of many is refused; the others are planned.
#[derive(Clone, Copy, Debug, PartialEq, Eq)]
pub enum Refusal {
    /// The line of its section, from 1, that isn't what an envelope has there; 0 where the section ends too early.
    BadEnvelope(usize),
    TooManyNames,
    TooManyOwners,
    TooManyPairs,
    /// Its section has more bytes than a job may have.
    TooLong,
}
