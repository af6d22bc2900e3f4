//! How a turn of an application ended, as a report says it.

use app_frames::Cause;

/// How a turn of an application ended, as a report says it.
#[derive(Clone, Copy, Debug, PartialEq, Eq)]
pub enum TurnWord {
    /// It was done: what it changed stays.
    Done,
    /// It was done, and no further application is given the event.
    Stop,
    /// It failed for this cause: what it changed is undone.
    Failed(Cause),
}
