//! Why there is no graph.
ghost use Rattle.std.specs.Prelude.{◌≡◌};
ghost use Rattle.relay_tables.specs.declared.fault.TableFault.TheVariants.{Memory};

use std::alloc::{AllocError, AllocFailed};
use thiserror::Error;

/// Why there is no graph, in the order of the checks.
#[derive(Clone, Copy, Debug, PartialEq, Eq, Error)]
pub enum TableFault {
    /// There are more nodes than were allowed.
    #[error("too many names")]
    TooManyNames,
    /// More aliases have an owner than were allowed.
    #[error("too many lists with an owner")]
    TooManyOwners,
    /// Memory ran out.
    #[error("out of memory")]
    Memory,
}

impl From<AllocError> for TableFault {
    ghost from_gives = { λ _ fault. fault ≡ Memory };

    fn from(_error: AllocError) -> TableFault {
        TableFault::Memory
    }
}

impl<T: Drop> From<AllocFailed<T>> for TableFault {
    ghost from_gives = { λ _ fault. fault ≡ Memory };

    fn from(_error: AllocFailed<T>) -> TableFault {
        TableFault::Memory
    }
}
