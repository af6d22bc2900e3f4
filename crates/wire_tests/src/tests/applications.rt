//! Frames between the host and applications (`docs/FRAMES.md`), written out by hand.

use super::has_bytes;
use app_frames::{
    AppFrame, AppFrameError, HostFrame, decode_app, decode_host, encode_app, encode_host,
};
use std::alloc::{AllocError, Global};
use std::test::Fail;

/// Frames of applications: a message, the marks, Done with no, an empty and a whole checkpoint, and Ready.
static OF_APPLICATIONS: [&[u8]; 8] = [
    &[
        0, 0, 0, 17, 1, 0, 0, 0, 0, 0, 0, 1, 2, 1, 0, 0, 8, 0, 0, 0, 0,
    ],
    &[0, 0, 0, 1, 2],
    &[0, 0, 0, 1, 3],
    &[0, 0, 0, 1, 4],
    &[0, 0, 0, 3, 5, 0, 0],
    &[0, 0, 0, 3, 5, 1, 1],
    &[0, 0, 0, 5, 5, 0, 1, 0xab, 0xcd],
    &[0, 0, 0, 1, 6],
];

/// Frames of the host: an empty and a whole checkpoint, two events, the second one an ERROR, and the four answers.
static OF_THE_HOST: [&[u8]; 8] = [
    &[0, 0, 0, 1, 1],
    &[0, 0, 0, 3, 1, 0xaa, 0xbb],
    &[
        0, 0, 0, 26, 2, 0, 0, 0, 0, 0, 0, 0, 0, 0, 0, 0, 0, 0, 0, 0, 0, 1, 0, 0, 0, 0, 0, 0, 0, 0,
    ],
    &[
        0, 0, 0, 30, 2, 0, 0, 0, 0, 0, 0, 0, 1, 0, 0, 0, 0, 0, 0, 2, 0, 6, 0, 0, 0, 0, 0, 3, 0, 0,
        0, 1, 0, 6,
    ],
    &[0, 0, 0, 2, 3, 0],
    &[0, 0, 0, 6, 3, 1, 0, 3, 0, 1],
    &[
        0, 0, 0, 0x1c, 3, 2, 0, 2, 0, 0, 0, 0, 0, 0, 0, 7, 0, 0, 0, 0, 0, 0, 2, 0xbc, 0, 0, 0, 2,
        0, 0, 0, 0,
    ],
    &[0, 0, 0, 2, 3, 3],
];

/// Tells whether these bytes, and no others, are written of the frame.
fn is_app_written(alloc: Global, frame: &AppFrame, bytes: &[u8]) -> Result<bool, AppFrameError> {
    Ok(frame.fits() && has_bytes(encode_app(alloc, frame)?, bytes))
}

/// Tells whether the bytes are one frame of an application, and what is written of it.
fn is_of_application(alloc: Global, bytes: &[u8]) -> Result<bool, AppFrameError> {
    let Some((frame, size)) = decode_app(alloc, bytes)? else {
        return Ok(false);
    };
    let is_written = is_app_written(alloc, &frame, bytes);
    drop(frame);
    Ok(size == bytes.len() && is_written?)
}

/// Tells whether these bytes, and no others, are written of the frame.
fn is_host_written(alloc: Global, frame: &HostFrame, bytes: &[u8]) -> Result<bool, AppFrameError> {
    Ok(frame.fits() && has_bytes(encode_host(alloc, frame)?, bytes))
}

/// Tells whether the bytes are one frame of the host, and what is written of it.
fn is_of_the_host(alloc: Global, bytes: &[u8]) -> Result<bool, AppFrameError> {
    let Some((frame, size)) = decode_host(alloc, bytes)? else {
        return Ok(false);
    };
    let is_written = is_host_written(alloc, &frame, bytes);
    drop(frame);
    Ok(size == bytes.len() && is_written?)
}

#[test]
fn frames_of_applications(rt: HostRuntime) -> Result<(), Fail> {
    for bytes in &OF_APPLICATIONS {
        assert!(rt; is_of_application(rt.alloc(), bytes)?, "{bytes:?}");
    }
    Ok(())
}

#[test]
fn frames_of_the_host(rt: HostRuntime) -> Result<(), Fail> {
    for bytes in &OF_THE_HOST {
        assert!(rt; is_of_the_host(rt.alloc(), bytes)?, "{bytes:?}");
    }
    Ok(())
}

/// Tells whether a frame stops with this checkpoint.
fn stops_with(frame: &AppFrame, bytes: &[u8]) -> bool {
    match frame {
        AppFrame::Done {
            stop: true,
            checkpoint: Some(checkpoint),
        } => checkpoint.as_slice() == bytes,
        _ => false,
    }
}

/// Tells whether the bytes are read as a frame that stops with this checkpoint.
fn is_stop_with(alloc: Global, bytes: &[u8], checkpoint: &[u8]) -> Result<bool, AppFrameError> {
    let Some((frame, size)) = decode_app(alloc, bytes)? else {
        return Ok(false);
    };
    let stops = stops_with(&frame, checkpoint);
    drop(frame);
    Ok(size == bytes.len() && stops)
}

/// A frame that stops with the longest checkpoint, 1,048,576 bytes.
fn longest(alloc: Global) -> Result<Vec<u8>, AllocError> {
    let mut bytes = Vec::from_slice(alloc, &[0, 0x10, 0, 3, 5, 1, 1])?;
    bytes.resize(1_048_583, 7).and(Ok(bytes))
}

/// Tells whether the bytes are one frame that stops with a checkpoint, which is all bytes behind the seventh.
fn is_whole_stop(alloc: Global, bytes: &[u8]) -> Result<bool, AppFrameError> {
    match bytes.get(7..) {
        Some(checkpoint) => {
            Ok(is_stop_with(alloc, bytes, checkpoint)? && is_of_application(alloc, bytes)?)
        }
        None => Ok(false),
    }
}

/// Tells whether the longest frame is read so, and written.
fn is_longest_whole(alloc: Global) -> Result<bool, AppFrameError> {
    let bytes = longest(alloc)?;
    let is_whole = is_whole_stop(alloc, &bytes);
    drop(bytes);
    is_whole
}

#[test]
fn the_longest_frame(rt: HostRuntime) -> Result<(), Fail> {
    assert!(rt; is_longest_whole(rt.alloc())?);
    Ok(())
}
