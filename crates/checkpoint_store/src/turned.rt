//! Completed turns.

ghost use Rattle.std.specs.Prelude.{◌≡◌, ◌-◌, ◌^◌, length, min, sum_by};
ghost use Rattle.checkpoint_store.specs.Past.{turn_size, turns_size};

use crate::frame_list::FrameList;
use of_types::ByteList;

/// A completed turn, as it is given again after a restart. Every frame is whole, with its length word.
#[derive(Drop, Debug)]
pub struct Turned {
    /// The Event frame.
    pub event: ByteList,
    /// The Answer frames, one for each frame that was answered, oldest first.
    pub answers: FrameList,
    /// The application's own frames, oldest first.
    pub frames: FrameList,
}

/// Counts the bytes of frames, or the greatest number where there are more.
fn frames_size(frames: &[ByteList]) -> usize
    ensures { result ≡ min (sum_by length frames.now) (2 ^ 64 - 1) }
{
    let mut size: usize = 0;
    for frame in frames {
        size = size.saturating_add(frame.len());
    }
    size
}

/// Counts the bytes of a turn, or the greatest number where there are more.
pub(crate) fn turn_size(turn: &Turned) -> usize
    ensures { result ≡ min (turn_size turn.now) (2 ^ 64 - 1) }
{
    let answers = frames_size(turn.answers.as_slice());
    let frames = frames_size(turn.frames.as_slice());
    turn.event
        .len()
        .saturating_add(answers)
        .saturating_add(frames)
}

/// Counts the bytes of turns, or the greatest number where there are more.
pub(crate) fn turns_size(turns: &[Turned]) -> usize
    ensures { result ≡ min (turns_size turns.now) (2 ^ 64 - 1) }
{
    let mut size: usize = 0;
    for turn in turns {
        size = size.saturating_add(turn_size(turn));
    }
    size
}
