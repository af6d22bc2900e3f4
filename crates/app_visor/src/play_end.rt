//! How the frames of a turn end.

use app_frames::Cause;
use of_types::ByteList;

/// How the frames of a turn end.
#[derive(Drop, Debug)]
pub(crate) enum PlayEnd {
    /// The application is done with the event, and hands over a checkpoint or none.
    Done {
        stop: bool,
        checkpoint: Option<ByteList>,
    },
    /// It failed, and why.
    Failed(Cause),
}
