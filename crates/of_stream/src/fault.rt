//! Why no frame could be handed out.

ghost use Rattle.std.specs.Prelude.{◌≡◌};
ghost use Rattle.of_stream.specs.declared.fault.CutFault.TheVariants.{NoMemory};

use std::alloc::AllocError;
use thiserror::Error;

/// Why no frame could be handed out.
#[derive(Clone, Copy, Debug, PartialEq, Eq, Error)]
pub enum CutFault {
    /// The next header says a length below 8, that of a header.
    #[error("a length below that of a header")]
    BadLength,
    /// There is no memory.
    #[error("out of memory")]
    NoMemory,
}

impl From<AllocError> for CutFault {
    ghost from_gives = { λ _ e. e ≡ NoMemory };

    fn from(_error: AllocError) -> CutFault {
        CutFault::NoMemory
    }
}
