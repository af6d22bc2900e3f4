//! Why a call of a world failed. Each comes only where the world's count of it rose.

use thiserror::Error;

/// The world's own memory ran out.
#[derive(Clone, Copy, Debug, PartialEq, Eq, Error)]
#[error("the outside is out of memory")]
pub struct Short;

/// Why the world was not opened.
#[derive(Clone, Copy, Debug, PartialEq, Eq, Error)]
pub enum OpenFault {
    /// It stays shut.
    #[error("the outside stays shut")]
    Shut,
    /// The world's own memory ran out.
    #[error("the outside is out of memory")]
    Short,
}

/// Why nothing was taken of what comes next.
#[derive(Clone, Copy, Debug, PartialEq, Eq, Error)]
pub enum NextFault {
    /// The outside failed.
    #[error("the outside failed")]
    Failed,
    /// The world's own memory ran out.
    #[error("the outside is out of memory")]
    Short,
}

/// Why an application was not started.
#[derive(Clone, Copy, Debug, PartialEq, Eq, Error)]
pub enum StartFault {
    /// It does not start.
    #[error("the application does not start")]
    NotStarted,
    /// The world's own memory ran out.
    #[error("the outside is out of memory")]
    Short,
}

/// Why an application was given nothing.
#[derive(Clone, Copy, Debug, PartialEq, Eq, Error)]
pub enum GiveFault {
    /// It is gone.
    #[error("the application is gone")]
    Gone,
    /// The world's own memory ran out.
    #[error("the outside is out of memory")]
    Short,
}

/// Why nothing went to a switch or came from it.
#[derive(Clone, Copy, Debug, PartialEq, Eq, Error)]
pub enum LinkFault {
    /// The link failed.
    #[error("the link failed")]
    Failed,
    /// The world's own memory ran out.
    #[error("the outside is out of memory")]
    Short,
}
