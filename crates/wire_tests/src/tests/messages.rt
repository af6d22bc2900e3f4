//! Messages by the tables of OpenFlow 1.0.0, 5.1 to 5.5, written out by hand.

use super::has_bytes;
use of_action::ActionKind;
use of_wire::{Envelope, WireFault, check, decode, encode, size};
use std::alloc::{AllocError, Global};
use std::test::Fail;

/// One message of each type.
static MESSAGES: [&[u8]; 23] = [
    // HELLO
    &[1, 0, 0, 11, 1, 2, 3, 4, 0xaa, 0xbb, 0xcc],
    // ERROR
    &[1, 1, 0, 14, 1, 2, 3, 4, 0, 3, 0, 1, 0xde, 0xad],
    // ECHO_REQUEST
    &[1, 2, 0, 10, 1, 2, 3, 4, 104, 105],
    // ECHO_REPLY
    &[1, 3, 0, 8, 1, 2, 3, 4],
    // VENDOR
    &[1, 4, 0, 13, 1, 2, 3, 4, 0, 0, 0x23, 0x20, 9],
    // FEATURES_REQUEST
    &[1, 5, 0, 8, 1, 2, 3, 4],
    // FEATURES_REPLY
    &[
        1, 6, 0, 80, 1, 2, 3, 4, 0, 0, 0, 0, 0, 0, 0, 1, 0, 0, 1, 0, 2, 0, 0, 0, 0, 0, 0, 0x87, 0,
        0, 7, 0xff, 0, 1, 10, 11, 12, 13, 14, 15, b'p', b'1', 0, 0, 0, 0, 0, 0, 0, 0, 0, 0, 0, 0,
        0, 0, 0, 0, 0, 1, 0, 0, 0, 1, 0, 0, 0, 2, 0, 0, 0, 3, 0, 0, 0, 4, 0, 0, 0, 5,
    ],
    // GET_CONFIG_REQUEST
    &[1, 7, 0, 8, 1, 2, 3, 4],
    // GET_CONFIG_REPLY
    &[1, 8, 0, 12, 1, 2, 3, 4, 0, 1, 0xff, 0x80],
    // SET_CONFIG
    &[1, 9, 0, 12, 1, 2, 3, 4, 0, 1, 0xff, 0x80],
    // PACKET_IN
    &[
        1, 10, 0, 20, 1, 2, 3, 4, 255, 255, 255, 255, 0, 64, 0, 3, 1, 0, 0x55, 0x66,
    ],
    // FLOW_REMOVED
    &[
        1, 11, 0, 88, 1, 2, 3, 4, 0, 0x38, 0x20, 0xff, 0, 0, 0, 0, 0, 0, 0, 0, 0, 0, 0, 0, 0, 0, 0,
        0, 0, 0, 0, 0, 0, 0, 0, 0, 0, 0, 0, 0, 0, 0, 0, 0, 0, 0, 0, 0, 0x11, 0x22, 0x33, 0x44,
        0x55, 0x66, 0x77, 0x88, 0x80, 0, 2, 0, 0, 0, 0, 5, 0, 0, 0, 6, 0, 7, 0, 0, 0, 0, 0, 0, 0,
        0, 0, 8, 0, 0, 0, 0, 0, 0, 0, 9,
    ],
    // PORT_STATUS
    &[
        1, 12, 0, 64, 1, 2, 3, 4, 2, 0, 0, 0, 0, 0, 0, 0, 0, 1, 10, 11, 12, 13, 14, 15, b'p', b'1',
        0, 0, 0, 0, 0, 0, 0, 0, 0, 0, 0, 0, 0, 0, 0, 0, 0, 1, 0, 0, 0, 1, 0, 0, 0, 2, 0, 0, 0, 3,
        0, 0, 0, 4, 0, 0, 0, 5,
    ],
    // PACKET_OUT
    &[
        1, 13, 0, 26, 1, 2, 3, 4, 0, 0, 0, 5, 255, 255, 0, 8, 0, 0, 0, 8, 0xff, 0xfb, 0, 0, 0x77,
        0x88,
    ],
    // FLOW_MOD
    &[
        1, 14, 0, 80, 1, 2, 3, 4, 0, 0x38, 0x20, 0xfe, 0, 1, 0, 0, 0, 0, 0, 0, 0, 0, 0, 0, 0, 0, 0,
        0, 0, 0, 0, 0, 0, 0, 0, 0, 0, 0, 0, 0, 0, 0, 0, 0, 0, 0, 0, 0, 0, 0, 0, 0, 0, 0, 0, 0, 0,
        0, 0, 0, 0, 0, 0, 100, 255, 255, 255, 255, 255, 255, 0, 0, 0, 0, 0, 8, 0, 2, 0, 0,
    ],
    // PORT_MOD
    &[
        1, 15, 0, 32, 1, 2, 3, 4, 0, 3, 2, 0, 0, 1, 0, 3, 0, 0, 0, 1, 0, 0, 0, 0x41, 0, 0, 0, 7, 0,
        0, 0, 0,
    ],
    // STATS_REQUEST
    &[1, 16, 0, 12, 1, 2, 3, 4, 0, 3, 0, 1],
    // STATS_REPLY
    &[1, 17, 0, 14, 1, 2, 3, 4, 0, 3, 0, 1, 9, 8],
    // BARRIER_REQUEST
    &[1, 18, 0, 8, 1, 2, 3, 4],
    // BARRIER_REPLY
    &[1, 19, 0, 8, 1, 2, 3, 4],
    // QUEUE_GET_CONFIG_REQUEST
    &[1, 20, 0, 12, 1, 2, 3, 4, 0, 1, 0, 0],
    // QUEUE_GET_CONFIG_REPLY
    &[1, 21, 0, 16, 1, 2, 3, 4, 0, 1, 0, 0, 0, 0, 0, 0],
    // PACKET_OUT with an action of each type
    &[
        1, 13, 0, 144, 1, 2, 3, 4, 0, 0, 0, 5, 255, 255, 0, 128, 0, 0, 0, 8, 0, 2, 0, 0x80, 0, 1,
        0, 8, 0x0a, 0xbc, 0, 0, 0, 2, 0, 8, 7, 0, 0, 0, 0, 3, 0, 8, 0, 0, 0, 0, 0, 4, 0, 16, 1, 2,
        3, 4, 5, 6, 0, 0, 0, 0, 0, 0, 0, 5, 0, 16, 6, 5, 4, 3, 2, 1, 0, 0, 0, 0, 0, 0, 0, 6, 0, 8,
        0x0a, 0, 0, 1, 0, 7, 0, 8, 0x0a, 0, 0, 2, 0, 8, 0, 8, 0xfc, 0, 0, 0, 0, 9, 0, 8, 0, 80, 0,
        0, 0, 10, 0, 8, 0x1f, 0x90, 0, 0, 0, 11, 0, 16, 0, 3, 0, 0, 0, 0, 0, 0, 0, 0, 0, 9, 0xff,
        0xff, 0, 8, 0, 0, 0x23, 0x20,
    ],
];

/// Tells whether these bytes, and no others, are written of the message.
fn is_written(alloc: Global, envelope: &Envelope, bytes: &[u8]) -> Result<bool, WireFault> {
    let message = &envelope.message;
    Ok(
        size(message) == bytes.len()
            && bytes.len() <= 65_535
            && has_bytes(encode(alloc, envelope.xid, message)?, bytes),
    )
}

/// Tells whether the copy of a message equals it.
fn is_copied(envelope: &Envelope) -> Result<bool, WireFault> {
    let copy = envelope.clone()?;
    let is_same = copy == *envelope;
    drop(copy);
    Ok(is_same)
}

/// Tells whether a message has this xid, is written as these bytes and equals its copy.
fn is_kept(alloc: Global, envelope: &Envelope, xid: u32, bytes: &[u8]) -> Result<bool, WireFault> {
    Ok(envelope.xid == xid && is_copied(envelope)? && is_written(alloc, envelope, bytes)?)
}

/// Tells whether the bytes are read as a message of this xid, which is written as these bytes and equals its copy.
fn is_message(alloc: Global, xid: u32, bytes: &[u8]) -> Result<bool, WireFault> {
    check(bytes)?;
    let envelope = decode(alloc, bytes)?;
    let is_kept = is_kept(alloc, &envelope, xid, bytes);
    drop(envelope);
    is_kept
}

#[test]
fn messages_are_read_and_written(rt: HostRuntime) -> Result<(), Fail> {
    for bytes in &MESSAGES {
        assert!(rt; is_message(rt.alloc(), 0x0102_0304, bytes)?, "{bytes:?}");
    }
    Ok(())
}

/// An ECHO_REQUEST of 65,535 bytes.
fn largest(alloc: Global) -> Result<Vec<u8>, AllocError> {
    let mut bytes = Vec::from_slice(alloc, &[1, 2, 0xff, 0xff])?;
    bytes.resize(65_535, 7).and(Ok(bytes))
}

/// Tells whether the largest message is read and written.
fn is_largest_read(alloc: Global) -> Result<bool, WireFault> {
    let bytes = largest(alloc)?;
    let is_message = is_message(alloc, 0x0707_0707, &bytes);
    drop(bytes);
    is_message
}

#[test]
fn the_largest_message(rt: HostRuntime) -> Result<(), Fail> {
    assert!(rt; is_largest_read(rt.alloc())?);
    Ok(())
}

/// Bytes that are no message, and why.
static REFUSED: [(&[u8], WireFault); 12] = [
    (&[4, 22, 0, 9, 0, 0, 0, 0], WireFault::BadVersion),
    (&[1, 22, 0, 9, 0, 0, 0, 0], WireFault::BadType),
    (&[1], WireFault::BadLength),
    (&[4, 22, 0, 7, 0, 0, 0], WireFault::BadLength),
    (&[1, 0, 0, 7, 0, 0, 0, 0], WireFault::BadLength),
    (&[1, 0, 0, 9, 0, 0, 0, 0], WireFault::BadLength),
    (&[1, 14, 0, 8, 0, 0, 0, 0], WireFault::BadLength),
    (&[1, 4, 0, 11, 0, 0, 0, 0, 1, 2, 3], WireFault::BadLength),
    (&[1, 5, 0, 9, 0, 0, 0, 0, 1], WireFault::BadLength),
    (
        &[1, 20, 0, 13, 0, 0, 0, 0, 0, 1, 0, 0, 0],
        WireFault::BadLength,
    ),
    (
        &[1, 13, 0, 16, 0, 0, 0, 0, 255, 255, 255, 255, 255, 255, 0, 1],
        WireFault::BadLength,
    ),
    (
        &[
            1, 13, 0, 32, 0, 0, 0, 0, 255, 255, 255, 255, 255, 255, 0, 16, 0, 0, 0, 8, 0, 2, 0, 0,
            0, 12, 0, 8, 0, 0, 0, 0,
        ],
        WireFault::BadAction {
            place: 8,
            kind: ActionKind::BadType,
        },
    ),
];

/// Tells whether the bytes are no message for this reason.
fn is_refused(bytes: &[u8], fault: &WireFault) -> bool {
    match check(bytes) {
        Ok(()) => false,
        Err(found) => found == *fault,
    }
}

#[test]
fn messages_are_refused(rt: HostRuntime) {
    for (bytes, fault) in &REFUSED {
        assert!(rt; is_refused(bytes, fault), "{bytes:?}");
    }
}
