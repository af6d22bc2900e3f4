//! Messages as OpenFlow 1.0.0 spells them, written out by hand.

/// FLOW_MOD (5.3.3): ADD of any match with cookie 5 and priority 7, no timeouts, buffer and flags, and an OUTPUT to
/// port 2. The low bytes of hard timeout and priority stand at 61 and 63.
pub static ADD: [u8; 80] = [
    1, 14, 0, 80, 0, 0, 0, 9, 0, 0x38, 0x20, 0xff, 0, 0, 0, 0, 0, 0, 0, 0, 0, 0, 0, 0, 0, 0, 0, 0,
    0, 0, 0, 0, 0, 0, 0, 0, 0, 0, 0, 0, 0, 0, 0, 0, 0, 0, 0, 0, 0, 0, 0, 0, 0, 0, 0, 5, 0, 0, 0, 0,
    0, 0, 0, 7, 0xff, 0xff, 0xff, 0xff, 0xff, 0xff, 0, 0, 0, 0, 0, 8, 0, 2, 0, 0,
];

/// ADD with another byte at a place.
pub fn changed(at: usize, byte: u8) -> [u8; 80] {
    let mut bytes = ADD;
    if at < bytes.len() {
        bytes[at] = byte;
    }
    bytes
}

/// HELLO (5.5.1).
pub const HELLO: [u8; 8] = [1, 0, 0, 8, 0, 0, 0, 0];

/// ECHO_REQUEST (5.5.2).
pub const ECHO_REQUEST: [u8; 8] = [1, 2, 0, 8, 0, 0, 0, 0];

/// A message of a type that there is not.
pub const BROKEN: [u8; 8] = [1, 22, 0, 8, 0, 0, 0, 0];

/// ERROR (5.4.4): ALL_TABLES_FULL.
pub const ERROR: [u8; 12] = [1, 1, 0, 12, 0, 0, 0, 0, 0, 3, 0, 0];

/// PACKET_IN (5.4.1): a packet of two bytes came at port 1 and met no entry.
pub const PACKET_IN: [u8; 20] = [
    1, 10, 0, 20, 0, 0, 0, 0, 0xff, 0xff, 0xff, 0xff, 0, 2, 0, 1, 0, 0, 0xaa, 0xbb,
];

/// PACKET_OUT (5.3.6) of the bytes aa and this one, in no buffer and of no port, with an OUTPUT to this port.
pub const fn packet(port: [u8; 2], byte: u8) -> [u8; 26] {
    [
        1, 13, 0, 26, 0, 0, 0, 9, 0xff, 0xff, 0xff, 0xff, 0xff, 0xff, 0, 8, 0, 0, 0, 8, port[0],
        port[1], 0, 0, 0xaa, byte,
    ]
}

/// The port CONTROLLER (5.2.1).
pub const CONTROLLER: [u8; 2] = [0xff, 0xfd];

/// PACKET_IN (5.4.1) of the bytes aa and this one, which came of no port and were sent by an action.
pub const fn told(byte: u8) -> [u8; 20] {
    [
        1, 10, 0, 20, 0, 0, 0, 0, 0xff, 0xff, 0xff, 0xff, 0, 2, 0xff, 0xff, 1, 0, 0xaa, byte,
    ]
}

/// PORT_STATUS (5.4.3): port 1 of switch 1 is modified, and its link is down.
pub const PORT_DOWN: [u8; 64] = [
    1, 12, 0, 64, 0, 0, 0, 0, 2, 0, 0, 0, 0, 0, 0, 0, 0, 1, 2, 0, 0, 1, 0, 1, b'p', b'1', 0, 0, 0,
    0, 0, 0, 0, 0, 0, 0, 0, 0, 0, 0, 0, 0, 0, 0, 0, 0, 0, 1, 0, 0, 0, 0, 0, 0, 0, 0, 0, 0, 0, 0, 0,
    0, 0, 0,
];

/// The ports of switch 1 (5.2.1): the link of port 1 is down, that of port 2 is not.
pub static PORTS: [u8; 96] = [
    0, 1, 2, 0, 0, 1, 0, 1, b'p', b'1', 0, 0, 0, 0, 0, 0, 0, 0, 0, 0, 0, 0, 0, 0, 0, 0, 0, 0, 0, 0,
    0, 1, 0, 0, 0, 0, 0, 0, 0, 0, 0, 0, 0, 0, 0, 0, 0, 0, //
    0, 2, 2, 0, 0, 1, 0, 2, b'p', b'2', 0, 0, 0, 0, 0, 0, 0, 0, 0, 0, 0, 0, 0, 0, 0, 0, 0, 0, 0, 0,
    0, 0, 0, 0, 0, 0, 0, 0, 0, 0, 0, 0, 0, 0, 0, 0, 0, 0,
];

/// The ports of switch 1 as it joins (5.2.1): no link is down.
pub static PORTS_AT_JOIN: [u8; 96] = [
    0, 1, 2, 0, 0, 1, 0, 1, b'p', b'1', 0, 0, 0, 0, 0, 0, 0, 0, 0, 0, 0, 0, 0, 0, 0, 0, 0, 0, 0, 0,
    0, 0, 0, 0, 0, 0, 0, 0, 0, 0, 0, 0, 0, 0, 0, 0, 0, 0, //
    0, 2, 2, 0, 0, 1, 0, 2, b'p', b'2', 0, 0, 0, 0, 0, 0, 0, 0, 0, 0, 0, 0, 0, 0, 0, 0, 0, 0, 0, 0,
    0, 0, 0, 0, 0, 0, 0, 0, 0, 0, 0, 0, 0, 0, 0, 0, 0, 0,
];

/// The body of the event of a message: the kind and code of an ERROR, else the message.
pub fn body_of(frame: &[u8]) -> &[u8] {
    if frame.len() == 12 {
        &frame[8..]
    } else {
        frame
    }
}
