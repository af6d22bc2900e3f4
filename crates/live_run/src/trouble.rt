//! What went wrong.

use event_dispatch::Served;
use std::alloc::AllocError;
use std::io;
use thiserror::Error;

/// What went wrong in a trial.
#[derive(Drop, Debug, Error)]
pub enum Trouble {
    /// Memory ran out.
    #[error("memory ran out")]
    NoMemory,
    /// The system refused a clock, a port or a child.
    #[error("{0}")]
    System(io::Error),
    /// The run ended otherwise than by its end.
    #[error("the run ended so: {0:?}")]
    Ended(Served),
    /// Each port that was free was taken meanwhile.
    #[error("no port could be opened")]
    NoPort,
    /// Too few packets came in time.
    #[error("only {0} packets came in time")]
    Late(u32),
}

impl From<AllocError> for Trouble {
    fn from(_error: AllocError) -> Trouble {
        Trouble::NoMemory
    }
}

impl From<io::Error> for Trouble {
    fn from(error: io::Error) -> Trouble {
        Trouble::System(error)
    }
}
