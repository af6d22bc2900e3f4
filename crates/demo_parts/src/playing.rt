//! Plays an application over a source and a sink.

use crate::part::{Part, Step};
use app_frames::{AppFrameError, decode_host};
use bytes::BytesMut;
use lego_io::{Sink, Source, write_all};
use std::alloc::{AllocError, Global};

/// How many bytes are read at once.
const PIECE_BYTES: usize = 8_192;

/// The status at the end of the input, and where the part ends itself.
const WELL: u8 = 0;

/// The status where input or output failed.
const FAILED: u8 = 1;

/// Answers all whole frames that have come, and drops them. Bytes that are no frame end it.
fn answer(
    alloc: Global,
    part: &mut Part,
    held: &mut BytesMut,
    out: &mut Vec<u8>,
) -> Result<Step, AllocError> {
    for _ in 0..u64::MAX {
        match decode_host(alloc, held.as_slice()) {
            Ok(Some((frame, size))) => {
                if part.react(alloc, &frame, out)? == Step::Ends {
                    return Ok(Step::Ends);
                }
                held.advance(size.min(held.len()));
            }
            Ok(None) => return Ok(Step::GoesOn),
            Err(AppFrameError::Refused(_)) => return Ok(Step::Ends),
            Err(AppFrameError::NoMemory) => return Err(AllocError),
        }
    }
    Ok(Step::Ends)
}

/// Plays the part until the input ends or the part does, and answers the status.
pub fn play<S: Source, K: Sink>(
    alloc: Global,
    mut part: Part,
    source: &mut S,
    sink: &mut K,
) -> Result<u8, AllocError> {
    let mut piece = [0u8; PIECE_BYTES];
    let mut held = BytesMut::with_capacity(alloc, PIECE_BYTES)?;
    for _ in 0..u64::MAX {
        let Ok(count) = source.read(&mut piece) else {
            return Ok(FAILED);
        };
        if count == 0 {
            return Ok(WELL);
        }
        held.extend_from_slice(&piece[..count])?;
        let mut out = Vec::new(alloc);
        let step = answer(alloc, &mut part, &mut held, &mut out)?;
        if write_all(sink, &out).is_err() {
            return Ok(FAILED);
        }
        if step == Step::Ends {
            return Ok(WELL);
        }
    }
    Ok(WELL)
}
