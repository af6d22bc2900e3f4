//! How a turn was closed.

use app_frames::Cause;
use of_types::Dpid;

/// How a turn was closed.
#[derive(Drop)]
pub(crate) enum Closing {
    /// It was done, and said whether the event goes no further; what it did stays. These packets were released: the switch of
    /// each, and how many bytes it has.
    Done { stop: bool, out: Vec<(Dpid, u32)> },
    /// It failed, and why; what it did was undone.
    Failed(Cause),
}
