//! Why a call on the network failed.

ghost use Rattle.std.specs.Prelude.{◌≡◌};
ghost use Rattle.lego_model.specs.declared.fault.TxnFault.TheVariants.{NoMemory};

use of_types::{ByteList, Dpid};
use std::alloc::{AllocError, AllocFailed};
use thiserror::Error;

/// Why a call on the network failed. A `Dpid` is the switch that it came from.
#[derive(Drop, Debug, Error)]
pub enum TxnFault {
    /// The switch sent these bytes, which are no message.
    #[error("switch {0} sent bytes that are no message")]
    SwitchBroke(Dpid, ByteList),
    /// The switch answered the first message, which the host sent of its own, by the second one.
    #[error("switch {0} refused a message of the host")]
    Diverged(Dpid, ByteList, ByteList),
    /// The switch sent so many messages without the reply to a barrier.
    #[error("switch {0} sent {1} messages without the reply to a barrier")]
    Flooded(Dpid, u32),
    /// Memory ran out.
    #[error("no memory")]
    NoMemory,
}

impl From<AllocError> for TxnFault {
    ghost from_gives = { λ _ e. e ≡ NoMemory };

    fn from(_error: AllocError) -> TxnFault {
        TxnFault::NoMemory
    }
}

impl<T: Drop> From<AllocFailed<T>> for TxnFault {
    ghost from_gives = { λ _ e. e ≡ NoMemory };

    fn from(_error: AllocFailed<T>) -> TxnFault {
        TxnFault::NoMemory
    }
}
