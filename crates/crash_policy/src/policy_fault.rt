//! Why a text is no policy.

ghost use Rattle.std.specs.Prelude.{◌≡◌};
ghost use Rattle.crash_policy.specs.declared.policy_fault.PolicyFault.TheVariants.{NoMemory};

use std::alloc::{AllocError, AllocFailed};
use thiserror::Error;

/// The first thing that is wrong with a policy. It shows as the words that follow `bad policy`.
#[derive(Debug, Drop, PartialEq, Eq, Error)]
pub enum PolicyFault {
    /// The bytes are no TOML.
    #[error("text")]
    Text,
    /// There is no such key.
    #[error("unknown {0}")]
    UnknownKey(String),
    /// The key is needed.
    #[error("missing {0}")]
    Missing(String),
    /// The key's value is of another type, or not among those that it may have.
    #[error("range {0}")]
    Range(String),
    /// An earlier application has the name.
    #[error("double {0}")]
    Double(String),
    /// Memory ran out, which says nothing of the text.
    #[error("no memory")]
    NoMemory,
}

impl From<AllocError> for PolicyFault {
    ghost from_gives = { λ _ e. e ≡ NoMemory };

    fn from(_error: AllocError) -> PolicyFault {
        PolicyFault::NoMemory
    }
}

impl<T: Drop> From<AllocFailed<T>> for PolicyFault {
    ghost from_gives = { λ _ e. e ≡ NoMemory };

    fn from(_error: AllocFailed<T>) -> PolicyFault {
        PolicyFault::NoMemory
    }
}
