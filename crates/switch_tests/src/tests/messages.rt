//! Messages as OpenFlow 1.0.0 spells them, written out by hand. All have transaction id 9.

use std::alloc::{AllocError, Global};

/// Other bytes at some places of a message.
pub(super) type Changes = &'static [(usize, u8)];

/// A broadcast frame of an unknown type.
pub(super) const FRAME: [u8; 14] = [
    0xff, 0xff, 0xff, 0xff, 0xff, 0xff, 2, 0, 0, 0, 0, 1, 0x88, 0xb5,
];

/// FLOW_MOD (5.3.3): ADD of the packets of port 1 with priority 5, no timeouts, buffer and flags, and an OUTPUT to port 2. The
/// low bytes of in_port, command, buffer, flags and of the output's port stand at 13, 57, 67, 71 and 77.
pub(super) const ADD: [u8; 80] = [
    1, 14, 0, 80, 0, 0, 0, 9, 0, 0x38, 0x20, 0xfe, 0, 1, 0, 0, 0, 0, 0, 0, 0, 0, 0, 0, 0, 0, 0, 0,
    0, 0, 0, 0, 0, 0, 0, 0, 0, 0, 0, 0, 0, 0, 0, 0, 0, 0, 0, 0, 0, 0, 0, 0, 0, 0, 0, 0, 0, 0, 0, 0,
    0, 0, 0, 5, 0xff, 0xff, 0xff, 0xff, 0xff, 0xff, 0, 0, 0, 0, 0, 8, 0, 2, 0, 0,
];

/// ADD with an ENQUEUE to queue 0 of port 1 in place of the OUTPUT.
pub(super) const ENQUEUE: [u8; 88] = [
    1, 14, 0, 88, 0, 0, 0, 9, 0, 0x38, 0x20, 0xfe, 0, 1, 0, 0, 0, 0, 0, 0, 0, 0, 0, 0, 0, 0, 0, 0,
    0, 0, 0, 0, 0, 0, 0, 0, 0, 0, 0, 0, 0, 0, 0, 0, 0, 0, 0, 0, 0, 0, 0, 0, 0, 0, 0, 0, 0, 0, 0, 0,
    0, 0, 0, 5, 0xff, 0xff, 0xff, 0xff, 0xff, 0xff, 0, 0, 0, 11, 0, 16, 0, 1, 0, 0, 0, 0, 0, 0, 0,
    0, 0, 0,
];

/// PACKET_OUT (5.3.6) of `FRAME`, which came in by port 1, with an OUTPUT to port 0. The port stands at 20 and 21.
pub(super) const PACKET_OUT: [u8; 38] = [
    1, 13, 0, 38, 0, 0, 0, 9, 0xff, 0xff, 0xff, 0xff, 0, 1, 0, 8, 0, 0, 0, 8, 0, 0, 0, 0, 0xff,
    0xff, 0xff, 0xff, 0xff, 0xff, 2, 0, 0, 0, 0, 1, 0x88, 0xb5,
];

/// The OUTPUT of `PACKET_OUT` goes to IN_PORT, TABLE, FLOOD, ALL and CONTROLLER (5.2.1).
pub(super) const TO_IN_PORT: Changes = &[(20, 0xff), (21, 0xf8)];

pub(super) const TO_TABLE: Changes = &[(20, 0xff), (21, 0xf9)];

pub(super) const TO_FLOOD: Changes = &[(20, 0xff), (21, 0xfb)];

pub(super) const TO_ALL: Changes = &[(20, 0xff), (21, 0xfc)];

pub(super) const TO_CONTROLLER: Changes = &[(20, 0xff), (21, 0xfd)];

/// PORT_MOD (5.3.3) of port 0 of switch 1: the bits of the mask become those of the config. The low bytes of port, address, config
/// and mask stand at 9, 15, 19 and 23.
pub(super) const PORT_MOD: [u8; 32] = [
    1, 15, 0, 32, 0, 0, 0, 9, 0, 0, 2, 0, 0, 1, 0, 0, 0, 0, 0, 0, 0, 0, 0, 0, 0, 0, 0, 0, 0, 0, 0,
    0,
];

/// A request of the statistics of all ports (5.3.5).
pub(super) const PORT_STATISTICS: [u8; 20] = [
    1, 16, 0, 20, 0, 0, 0, 9, 0, 4, 0, 0, 0xff, 0xff, 0, 0, 0, 0, 0, 0,
];

/// The message with other bytes at some places.
pub(super) fn changed(
    alloc: Global,
    message: &[u8],
    changes: &[(usize, u8)],
) -> Result<Vec<u8>, AllocError> {
    let mut bytes = Vec::from_slice(alloc, message)?;
    for (at, byte) in changes {
        if *at < bytes.len() {
            bytes[*at] = *byte;
        }
    }
    Ok(bytes)
}
