//! Why bytes could not be read as a message.

ghost use Rattle.std.specs.Prelude.{◌≡◌};
ghost use Rattle.of_wire.specs.Faults.{wire_fault};
ghost use Rattle.of_wire.specs.declared.fault.WireFault.TheVariants.{NoMemory};

use of_action::{ActionFault, ActionKind};
use std::alloc::{AllocError, AllocFailed};
use thiserror::Error;

/// Why bytes could not be read as a message; the first that applies, in this order.
#[derive(Drop, Debug, PartialEq, Eq, Error)]
pub enum WireFault {
    /// The version is not that of OpenFlow 1.0, which is 1.
    #[error("the version is not that of OpenFlow 1.0")]
    BadVersion,
    /// The type is above 21.
    #[error("no such type of message")]
    BadType,
    /// Fewer bytes than a header has, which comes before the version; or the header's length is not the
    /// number of bytes, or not one that the type may have, or the actions pass the end.
    #[error("a wrong length")]
    BadLength,
    /// An action is at fault; `place` is the offset of its first byte in the list of actions.
    #[error("the action at byte {place}: {kind}")]
    BadAction { place: usize, kind: ActionKind },
    /// There is no memory.
    #[error("out of memory")]
    NoMemory,
}

impl From<AllocError> for WireFault {
    ghost from_gives = { λ _ e. e ≡ NoMemory };

    fn from(_error: AllocError) -> WireFault {
        WireFault::NoMemory
    }
}

impl<T: Drop> From<AllocFailed<T>> for WireFault {
    ghost from_gives = { λ _ e. e ≡ NoMemory };

    fn from(_error: AllocFailed<T>) -> WireFault {
        WireFault::NoMemory
    }
}

impl From<ActionFault> for WireFault {
    ghost from_gives = { λ fault e. e ≡ wire_fault fault };

    fn from(fault: ActionFault) -> WireFault {
        match fault {
            ActionFault::Bad { place, kind } => WireFault::BadAction { place, kind },
            ActionFault::NoMemory => WireFault::NoMemory,
        }
    }
}
