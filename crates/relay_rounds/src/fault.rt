//! Why there is no answer.
ghost use Rattle.std.specs.Prelude.{◌≡◌};
ghost use Rattle.relay_rounds.specs.declared.fault.ReachFault.TheVariants.{Memory};

use std::alloc::{AllocError, AllocFailed};
use thiserror::Error;

/// Why there is no answer.
#[derive(Clone, Copy, Debug, PartialEq, Eq, Error)]
pub enum ReachFault {
    /// More keys are reached than the limit.
    #[error("more keys are reached than the limit")]
    TooManyPairs,
    /// There was no memory. It is answered after all threads have ended, and the same call may be made again.
    #[error("out of memory")]
    Memory,
}

impl From<AllocError> for ReachFault {
    ghost from_gives = { λ _ fault. fault ≡ Memory };

    fn from(_error: AllocError) -> ReachFault {
        ReachFault::Memory
    }
}

impl<T: Drop> From<AllocFailed<T>> for ReachFault {
    ghost from_gives = { λ _ fault. fault ≡ Memory };

    fn from(_error: AllocFailed<T>) -> ReachFault {
        ReachFault::Memory
    }
}
