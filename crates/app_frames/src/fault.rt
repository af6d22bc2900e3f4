//! Why bytes are no frame.

ghost use Rattle.std.specs.Prelude.{◌≡◌};
ghost use Rattle.app_frames.specs.declared.fault.AppFrameError.TheVariants.{NoMemory, Refused};

use std::alloc::AllocError;
use thiserror::Error;

/// Why bytes are no frame.
#[derive(Clone, Copy, Debug, PartialEq, Eq, Error)]
pub enum FrameFault {
    /// The length is above 1,048,579, that of the longest frame of an application.
    #[error("the frame is too long")]
    TooLong,
    /// The length leaves no room for a kind, or there is no such kind.
    #[error("no such kind of frame")]
    BadKind,
    /// The kind has no such body.
    #[error("the frame's kind has no such body")]
    BadBody,
}

/// Why no frame could be read.
#[derive(Clone, Copy, Debug, PartialEq, Eq, Error)]
pub enum AppFrameError {
    /// The bytes are no frame, whatever comes later.
    #[error("{0}")]
    Refused(FrameFault),
    /// There is no memory.
    #[error("out of memory")]
    NoMemory,
}

/// The refusal of a body that its kind does not have.
pub(crate) const BAD_BODY: AppFrameError = AppFrameError::Refused(FrameFault::BadBody);

impl From<AllocError> for AppFrameError {
    ghost from_gives = { λ _ e. e ≡ NoMemory };

    fn from(_error: AllocError) -> AppFrameError {
        AppFrameError::NoMemory
    }
}

impl From<FrameFault> for AppFrameError {
    ghost from_gives = { λ fault e. e ≡ Refused fault };

    fn from(fault: FrameFault) -> AppFrameError {
        AppFrameError::Refused(fault)
    }
}
