//! What ends a run before its end.

ghost use Rattle.std.specs.Prelude.{◌≡◌};
ghost use Rattle.event_dispatch.specs.declared.fault.Fault.TheVariants as faults;
ghost use Rattle.event_dispatch.specs.Why.{fault_of};

use lego_io::WriteFault;
use net_txn::TxnFault;
use std::alloc::{AllocError, AllocFailed};

/// What is wrong with the outside, the sink or a switch, so that a run cannot go on. A link that fails is none of it.
#[derive(Drop, Debug)]
pub(crate) enum Fault {
    /// The sink failed.
    Write,
    /// The outside failed at what comes next.
    Next,
    /// A switch broke a rule of the protocol.
    Txn(TxnFault),
    /// Memory ran out.
    NoMemory,
}

impl From<AllocError> for Fault {
    ghost from_gives = { λ _ f. f ≡ faults.NoMemory };

    fn from(_error: AllocError) -> Fault {
        Fault::NoMemory
    }
}

impl<T: Drop> From<AllocFailed<T>> for Fault {
    ghost from_gives = { λ _ f. f ≡ faults.NoMemory };

    fn from(_error: AllocFailed<T>) -> Fault {
        Fault::NoMemory
    }
}

impl From<WriteFault> for Fault {
    ghost from_gives = { λ _ f. f ≡ faults.Write };

    fn from(_fault: WriteFault) -> Fault {
        Fault::Write
    }
}

impl From<TxnFault> for Fault {
    ghost from_gives = { λ fault f. f ≡ fault_of fault };

    fn from(fault: TxnFault) -> Fault {
        match fault {
            TxnFault::NoMemory => Fault::NoMemory,
            fault => Fault::Txn(fault),
        }
    }
}
