//! Why a run has no plan.
ghost use Rattle.std.specs.Prelude.{◌≡◌};
ghost use Rattle.relay_job.specs.declared.fault.RunFault.TheVariants.{Memory};

use std::alloc::{AllocError, AllocFailed};
use thiserror::Error;

/// Why there is no plan, in the order of the checks. A line is a job's line, from 1; 0 where there is none.
#[derive(Clone, Copy, Debug, PartialEq, Eq, Error)]
pub enum RunFault {
    #[error("cannot read the job")]
    Read,
    #[error("job too long")]
    TooLong,
    #[error("line {0}: bad job line")]
    BadJob(usize),
    #[error("line {0}: bad setting")]
    BadSetting(usize),
    #[error("line {0}: bad envelope")]
    BadEnvelope(usize),
    #[error("too many names")]
    TooManyNames,
    #[error("too many owners")]
    TooManyOwners,
    #[error("too many pairs")]
    TooManyPairs,
    #[error("cannot write")]
    Write,
    #[error("out of memory")]
    Memory,
}

impl From<AllocError> for RunFault {
    ghost from_gives = { λ _ fault. fault ≡ Memory };

    fn from(_error: AllocError) -> RunFault {
        RunFault::Memory
    }
}

impl<T: Drop> From<AllocFailed<T>> for RunFault {
    ghost from_gives = { λ _ fault. fault ≡ Memory };

    fn from(_error: AllocFailed<T>) -> RunFault {
        RunFault::Memory
    }
}
