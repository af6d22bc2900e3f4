//! Whole streams.

ghost use Rattle.std.specs.Prelude.{◌≡◌, ◌⊎◌, ◌++◌, List, [], ℕ, All, IfOk, OnOk};
ghost use Rattle.std.specs.List.{concat};
ghost use Rattle.of_stream.specs.Frames.{IsFrame, IsPartial, IsBroken, stream_of, Cuts};
ghost use Rattle.of_stream.specs.Runs.{Step, Leads, bytes_fed, frames_handed_out};

use crate::cutter::Cutter;
use crate::fault::CutFault;
use of_types::ByteList;
use std::alloc::{AllocError, Global};

/// A stream cut into frames.
#[derive(Drop)]
pub struct Cut {
    /// The frames, in the stream's order.
    pub frames: Vec<ByteList>,
    /// What is left behind them: a frame that is not whole, or what begins with a length that no frame has.
    pub rest: ByteList,
}

/// Hands out all frames that the cutter can, at the end of `frames`.
fn take_frames(cutter: &mut Cutter, frames: &mut Vec<ByteList>) -> Result<(), AllocError>
    ensures stream { OnOk result (stream_of frames.new.items cutter.new
        ≡ stream_of frames.old.items cutter.old) }
    ensures each { All IsFrame frames.old.items → OnOk result (All IsFrame frames.new.items) }
    ensures over { OnOk result (IsPartial cutter.new ⊎ IsBroken cutter.new) }
{
    loop {
        match cutter.next() {
            Ok(Some(frame)) => frames.push(frame)?,
            Ok(None) | Err(CutFault::BadLength) => return Ok(()),
            Err(CutFault::NoMemory) => return Err(AllocError),
        }
    }
}

/// Cuts a stream that comes in these pieces into its frames. `AllocError` where there is no memory for them.
pub fn cut_pieces(alloc: Global, pieces: &[ByteList]) -> Result<Cut, AllocError>
    // The stream is these frames and then no further one.
    ensures split { IfOk result (λ cut. Cuts (concat pieces.now) cut.frames.items cut.rest) }
    // It is no others, so it does not matter where the stream was cut into pieces.
    ensures only { IfOk result (λ cut. (frames : List (List ℕ)) (rest : List ℕ) → Cuts (concat pieces.now) frames rest
        → (cut.frames.items ≡ frames) × (cut.rest ≡ rest)) }
{
    let mut cutter = Cutter::new(alloc)?;
    let mut frames = Vec::new(alloc);
    for piece in pieces {
        cutter.feed(piece.as_slice())?;
        take_frames(&mut cutter, &mut frames)?;
    }
    let rest = ByteList::from_slice(alloc, cutter.held())?;
    Ok(Cut { frames, rest })
}

/// States the laws of streams: whatever calls a cutter has had, the stream so far is the frames that it handed out
/// and then the bytes held; these frames are the first of the whole stream, whatever comes later; and a stream
/// is cut in one way.
pub fn laws_of_streams()
    ensures so_far { (steps : List Step) (held : List ℕ) → Leads steps [] held
        → (bytes_fed steps ≡ stream_of (frames_handed_out steps) held) × All IsFrame (frames_handed_out steps) }
    ensures first { (frames whole : List (List ℕ)) (held more rest : List ℕ) → All IsFrame frames
        → Cuts (stream_of frames held ++ more) whole rest
        → (later : List (List ℕ)) × (whole ≡ frames ++ later) × (held ++ more ≡ stream_of later rest) }
    ensures one_cut { (stream : List ℕ) (frames others : List (List ℕ)) (rest end : List ℕ)
        → Cuts stream frames rest → Cuts stream others end → (frames ≡ others) × (rest ≡ end) }
{}
