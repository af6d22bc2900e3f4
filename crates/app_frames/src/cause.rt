//! How a turn and a start of an application end.

use crate::fault::FrameFault;

/// Why an application failed at an event.
#[derive(Clone, Copy, Debug, PartialEq, Eq)]
pub enum Cause {
    /// It closed its end before it was done.
    Closed,
    /// It gave nothing in time.
    Silent,
    /// It gave bytes that are no frame.
    Garbled(FrameFault),
    /// It gave more frames than its budget.
    Budget,
    /// It saved with seven saves open.
    Depth,
    /// It kept or undid with no save open, was done with one open, or was ready once more.
    Unbalanced,
    /// It was done, and the judge refused the tables that it left.
    Judged,
}

/// How one attempt to start an application ended.
#[derive(Clone, Copy, Debug, PartialEq, Eq)]
pub enum Tried {
    /// It is ready.
    Ready,
    /// It could not be started.
    Refused,
    /// It closed its end before its first frame.
    Closed,
    /// It gave nothing in time.
    Silent,
    /// Its first frame was no frame, or was not that it is ready.
    Garbled,
}
