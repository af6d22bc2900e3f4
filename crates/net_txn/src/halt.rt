//! How calls on a switch end before their end.

ghost use Rattle.std.specs.Prelude.{◌≡◌};
ghost use Rattle.net_txn.specs.declared.halt.Halt.TheVariants.{Fault};
ghost use Rattle.lego_model.specs.declared.fault.TxnFault.TheVariants.{NoMemory};

use lego_model::TxnFault;
use std::alloc::{AllocError, AllocFailed};

/// Why calls on a switch did not come to their end.
#[derive(Drop, Debug)]
pub(crate) enum Halt {
    /// The link of the switch failed, and the switch is lost.
    Lost,
    /// A fault that ends the run.
    Fault(TxnFault),
}

impl From<AllocError> for Halt {
    ghost from_gives = { λ _ e. e ≡ Fault NoMemory };

    fn from(_error: AllocError) -> Halt {
        Halt::Fault(TxnFault::NoMemory)
    }
}

impl<T: Drop> From<AllocFailed<T>> for Halt {
    ghost from_gives = { λ _ e. e ≡ Fault NoMemory };

    fn from(_error: AllocFailed<T>) -> Halt {
        Halt::Fault(TxnFault::NoMemory)
    }
}
