//! Why statistics could not be read.

ghost use Rattle.std.specs.Prelude.{◌≡◌};
ghost use Rattle.of_stats.specs.declared.fault.StatsFault.TheVariants.{NoMemory};

use std::alloc::{AllocError, AllocFailed};
use thiserror::Error;

/// Why statistics could not be read.
#[derive(Clone, Copy, Debug, PartialEq, Eq, Error)]
pub enum StatsFault {
    /// Of rows, the offset at which the first row that is at fault begins; of parts, the index of the
    /// first part that is.
    #[error("bad statistics at {place}")]
    Bad { place: usize },
    /// There is no memory.
    #[error("out of memory")]
    NoMemory,
}

impl From<AllocError> for StatsFault {
    ghost from_gives = { λ _ e. e ≡ NoMemory };

    fn from(_error: AllocError) -> StatsFault {
        StatsFault::NoMemory
    }
}

impl<T: Drop> From<AllocFailed<T>> for StatsFault {
    ghost from_gives = { λ _ e. e ≡ NoMemory };

    fn from(_error: AllocFailed<T>) -> StatsFault {
        StatsFault::NoMemory
    }
}
