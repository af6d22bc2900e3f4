//! How a run ended.

ghost use Rattle.std.specs.Prelude.{◌≡◌};
ghost use Rattle.event_dispatch.specs.declared.served.Served.TheVariants as ends;
ghost use Rattle.event_dispatch.specs.Why.{served_by};

use crate::fault::Fault;
use net_txn::TxnFault;
use std::alloc::{AllocError, AllocFailed};

/// How a run ended.
#[derive(Drop, Debug)]
pub enum Served {
    /// No more came, all events were dispatched, and the report was written.
    Ended {
        /// How many events were dispatched.
        events: u64,
    },
    /// The sink failed.
    WriteFault,
    /// The outside stays shut.
    Shut,
    /// The outside failed at what comes next.
    NextFault,
    /// A switch broke a rule of the protocol.
    Txn(TxnFault),
    /// After the last batch so many events were left.
    EventsLeft(usize),
    /// Memory ran out.
    NoMemory,
}

impl From<Fault> for Served {
    ghost from_gives = { λ fault s. s ≡ served_by fault };

    fn from(fault: Fault) -> Served {
        match fault {
            Fault::Write => Served::WriteFault,
            Fault::Next => Served::NextFault,
            Fault::Txn(fault) => Served::Txn(fault),
            Fault::NoMemory => Served::NoMemory,
        }
    }
}

impl From<AllocError> for Served {
    ghost from_gives = { λ _ s. s ≡ ends.NoMemory };

    fn from(_error: AllocError) -> Served {
        Served::NoMemory
    }
}

impl<T: Drop> From<AllocFailed<T>> for Served {
    ghost from_gives = { λ _ s. s ≡ ends.NoMemory };

    fn from(_error: AllocFailed<T>) -> Served {
        Served::NoMemory
    }
}
