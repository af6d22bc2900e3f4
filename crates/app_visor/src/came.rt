//! What comes of an application next.

use app_frames::{AppFrame, FrameFault};

/// What comes of an application next.
#[derive(Drop, Debug)]
pub(crate) enum Came {
    /// A whole frame.
    Frame(AppFrame),
    /// Bytes that are no frame.
    Refused(FrameFault),
    /// It has closed its end.
    Closed,
    /// It gave nothing in time.
    Silent,
}
