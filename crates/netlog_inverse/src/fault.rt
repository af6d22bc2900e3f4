//! Why a change was not planned.

ghost use Rattle.std.specs.Prelude.{◌≡◌};
ghost use Rattle.netlog_inverse.specs.declared.fault.PlanFault.TheVariants.{NoMemory};

use of_match::Key;
use of_stats::FlowRow;
use std::alloc::{AllocError, AllocFailed};
use thiserror::Error;

/// Why a change was not planned.
#[derive(Drop, Debug, PartialEq, Eq, Error)]
pub enum PlanFault {
    /// The change takes the entry of this key out of the view, and the switch reports no row of it.
    #[error("an entry of the view has no row")]
    NoRow(Key),
    /// The switch reports a row of which the view has no entry.
    #[error("a row has no entry in the view")]
    NoShadow(FlowRow),
    /// There is no memory.
    #[error("out of memory")]
    NoMemory,
}

impl From<AllocError> for PlanFault {
    ghost from_gives = { λ _ e. e ≡ NoMemory };

    fn from(_error: AllocError) -> PlanFault {
        PlanFault::NoMemory
    }
}

impl<T: Drop> From<AllocFailed<T>> for PlanFault {
    ghost from_gives = { λ _ e. e ≡ NoMemory };

    fn from(_error: AllocFailed<T>) -> PlanFault {
        PlanFault::NoMemory
    }
}
