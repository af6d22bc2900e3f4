//! Why a list of actions could not be read.

ghost use Rattle.std.specs.Prelude.{◌≡◌};
ghost use Rattle.of_action.specs.declared.fault.ActionFault.TheVariants.{NoMemory};

use std::alloc::{AllocError, AllocFailed};
use thiserror::Error;

/// What is wrong with an action.
#[derive(Clone, Copy, Debug, PartialEq, Eq, Error)]
pub enum ActionKind {
    /// Its type is not in the standard's table.
    #[error("no such type")]
    BadType,
    /// Its length is not one that it may have, or not in the list.
    #[error("a wrong length")]
    BadLen,
}

/// Why a list of actions could not be read.
#[derive(Drop, Debug, PartialEq, Eq, Error)]
pub enum ActionFault {
    /// The first action that is at fault begins at offset `place` of the list's bytes.
    #[error("the action at byte {place}: {kind}")]
    Bad { place: usize, kind: ActionKind },
    /// There is no memory.
    #[error("out of memory")]
    NoMemory,
}

impl From<AllocError> for ActionFault {
    ghost from_gives = { λ _ e. e ≡ NoMemory };

    fn from(_error: AllocError) -> ActionFault {
        ActionFault::NoMemory
    }
}

impl<T: Drop> From<AllocFailed<T>> for ActionFault {
    ghost from_gives = { λ _ e. e ≡ NoMemory };

    fn from(_error: AllocFailed<T>) -> ActionFault {
        ActionFault::NoMemory
    }
}
