//! Why a new key or text got no number.
ghost use Rattle.std.specs.Prelude.{◌≡◌};
ghost use Rattle.relay_chains.specs.declared.fault.ChainFault.TheVariants.{Memory};

use std::alloc::{AllocError, AllocFailed};
use thiserror::Error;

/// Why a new key or text got no number. Either way the set is as it was.
#[derive(Clone, Copy, Debug, PartialEq, Eq, Error)]
pub enum ChainFault {
    /// It is new, and the set holds as many as its limit.
    #[error("the set is full")]
    Full,
    /// It is new, and there was no memory for it. It may be tried again.
    #[error("out of memory")]
    Memory,
}

impl From<AllocError> for ChainFault {
    ghost from_gives = { λ _ fault. fault ≡ Memory };

    fn from(_error: AllocError) -> ChainFault {
        ChainFault::Memory
    }
}

impl<T: Drop> From<AllocFailed<T>> for ChainFault {
    ghost from_gives = { λ _ fault. fault ≡ Memory };

    fn from(_error: AllocFailed<T>) -> ChainFault {
        ChainFault::Memory
    }
}
