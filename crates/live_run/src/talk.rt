//! What an application gives, up to a frame that is awaited.

ghost use Rattle.std.specs.Prelude.{◌≤◌, length, IfOk, IfSome};

use crate::talk_trouble::TalkTrouble;
use app_frames::{AppFrame, AppFrameError, HostFrame, decode_app, encode_host};
use live_world::Clock;
use outside::{Taken, World};
use std::alloc::Global;
use std::fmt;
use std::fmt::{Display, Formatter};

/// The index of the application.
pub(crate) const APP: u32 = 0;

/// How many frames are looked at until the one that is awaited.
const MOST_FRAMES: u32 = 1_000;

/// How many bytes are taken at once.
const PIECE_BYTES: usize = 4_096;

/// How many seconds the frame that is awaited may take.
const MOST_SECONDS: u64 = 20;

/// A frame that is awaited.
#[derive(Clone, Copy, Debug, PartialEq, Eq)]
pub enum Awaited {
    Ready,
    Done,
}

impl Awaited {
    fn is(self, frame: &AppFrame) -> bool {
        match self {
            Awaited::Ready => matches!(frame, AppFrame::Ready),
            Awaited::Done => matches!(frame, AppFrame::Done { .. }),
        }
    }
}

impl Display for Awaited {
    fn fmt<W: fmt::Write>(&self, f: &mut Formatter<W>) -> fmt::Result {
        match self {
            Awaited::Ready => f.write_str("Ready"),
            Awaited::Done => f.write_str("Done"),
        }
    }
}

/// Where the awaited frame ends, if it has come.
fn end_of(alloc: Global, bytes: &[u8], awaited: Awaited) -> Result<Option<usize>, TalkTrouble>
    ensures { IfOk result (λ end. IfSome end (λ end. end ≤ length bytes.now)) }
{
    let mut at = 0;
    for _ in 0..MOST_FRAMES {
        let rest = &bytes[at..];
        match decode_app(alloc, rest) {
            Ok(Some((frame, size))) => {
                at += size.min(rest.len());
                if awaited.is(&frame) {
                    return Ok(Some(at));
                }
            }
            Ok(None) => return Ok(None),
            Err(AppFrameError::Refused(_)) => return Err(TalkTrouble::Garbled(awaited)),
            Err(AppFrameError::NoMemory) => return Err(TalkTrouble::NoMemory),
        }
    }
    Ok(None)
}

/// Gives the application a frame.
pub(crate) fn give<W: World>(
    alloc: Global,
    world: &mut W,
    frame: &HostFrame,
) -> Result<(), TalkTrouble> {
    if !frame.fits() {
        return Err(TalkTrouble::Gone);
    }
    let bytes = encode_host(alloc, frame)?;
    world
        .give(APP, bytes.as_slice())
        .map_err(|_| TalkTrouble::Gone)
}

/// Takes what the application gives, up to the awaited frame and with it. What it gave behind that is dropped.
pub(crate) fn take_until<W: World, C: Clock>(
    alloc: Global,
    world: &mut W,
    clock: &mut C,
    awaited: Awaited,
) -> Result<Vec<u8>, TalkTrouble> {
    let begin = clock.seconds();
    let mut taken = Vec::new(alloc);
    let mut piece = [0u8; PIECE_BYTES];
    for _ in 0..u64::MAX {
        if let Some(end) = end_of(alloc, &taken, awaited)? {
            taken.truncate(end);
            return Ok(taken);
        }
        if clock.seconds().saturating_sub(begin) >= MOST_SECONDS {
            break;
        }
        match world.take(APP, &mut piece) {
            Ok(Taken::Some(count)) => taken.extend_from_slice(&piece[..count])?,
            Ok(Taken::Closed) => return Err(TalkTrouble::Closed(awaited)),
            Ok(Taken::Silent) => return Err(TalkTrouble::Silent(awaited)),
            Err(_) => return Err(TalkTrouble::NoMemory),
        }
    }
    Err(TalkTrouble::Silent(awaited))
}
