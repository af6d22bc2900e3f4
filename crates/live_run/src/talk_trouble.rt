//! What went wrong with an application that is restored.

use crate::talk::Awaited;
use std::alloc::AllocError;
use thiserror::Error;

/// What went wrong with an application that is restored.
#[derive(Drop, Debug, Error)]
pub enum TalkTrouble {
    /// Memory ran out.
    #[error("memory ran out")]
    NoMemory,
    /// The clock cannot be read.
    #[error("the clock cannot be read")]
    NoClock,
    /// The child could not be started.
    #[error("the child was not started")]
    NotStarted,
    /// It took no bytes.
    #[error("the child took no bytes")]
    Gone,
    /// It closed its output before the frame that is awaited.
    #[error("the child closed its output before {0}")]
    Closed(Awaited),
    /// It gave nothing for a while.
    #[error("the child was silent before {0}")]
    Silent(Awaited),
    /// It gave bytes that are no frame.
    #[error("the child gave bytes that are no frame before {0}")]
    Garbled(Awaited),
}

impl From<AllocError> for TalkTrouble {
    fn from(_error: AllocError) -> TalkTrouble {
        TalkTrouble::NoMemory
    }
}
