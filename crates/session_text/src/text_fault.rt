//! Why the text of a session is not read.

ghost use Rattle.std.specs.Prelude.{◌≡◌};
ghost use Rattle.session_text.specs.declared.text_fault.LineFault.TheVariants as line;
ghost use Rattle.session_text.specs.declared.text_fault.SessionError.TheVariants as text;

use lego_model::{SessionFault, SessionKind};
use std::alloc::{AllocError, AllocFailed};
use thiserror::Error;

/// Why one line is not read.
#[derive(Clone, Copy, Debug, PartialEq, Eq)]
pub enum LineFault {
    /// This is wrong with it.
    Kind(SessionKind),
    /// Memory ran out.
    NoMemory,
}

impl From<AllocError> for LineFault {
    ghost from_gives = { λ _ e. e ≡ line.NoMemory };

    fn from(_e: AllocError) -> LineFault {
        LineFault::NoMemory
    }
}

impl<T: Drop> From<AllocFailed<T>> for LineFault {
    ghost from_gives = { λ _ e. e ≡ line.NoMemory };

    fn from(_e: AllocFailed<T>) -> LineFault {
        LineFault::NoMemory
    }
}

/// Why a text is not read as a session.
#[derive(Clone, Copy, Debug, PartialEq, Eq, Error)]
pub enum SessionError {
    /// The text is no session: the first fault.
    #[error("the text is no session: {0}")]
    Bad(SessionFault),
    /// Memory ran out, which says nothing of the text.
    #[error("no memory")]
    NoMemory,
}

impl From<AllocError> for SessionError {
    ghost from_gives = { λ _ e. e ≡ text.NoMemory };

    fn from(_e: AllocError) -> SessionError {
        SessionError::NoMemory
    }
}
