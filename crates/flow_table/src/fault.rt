//! Why a table was not changed.

ghost use Rattle.std.specs.Prelude.{◌≡◌};
ghost use Rattle.flow_table.specs.declared.fault.ChangeFault.TheVariants.{NoMemory};

use of_types::OfError;
use std::alloc::{AllocError, AllocFailed};
use thiserror::Error;

/// Why a table was not changed.
#[derive(Clone, Copy, Debug, PartialEq, Eq, Error)]
pub enum ChangeFault {
    /// The switch refuses the change: a bad command, an overlap, or a full table.
    #[error("{0}")]
    Refused(OfError),
    /// There is no memory.
    #[error("out of memory")]
    NoMemory,
}

impl From<AllocError> for ChangeFault {
    ghost from_gives = { λ _ e. e ≡ NoMemory };

    fn from(_error: AllocError) -> ChangeFault {
        ChangeFault::NoMemory
    }
}

impl<T: Drop> From<AllocFailed<T>> for ChangeFault {
    ghost from_gives = { λ _ e. e ≡ NoMemory };

    fn from(_error: AllocFailed<T>) -> ChangeFault {
        ChangeFault::NoMemory
    }
}
