//! A stream of messages, cut anywhere.

use of_stream::{Cut, cut_pieces};
use of_types::ByteList;
use std::alloc::{AllocError, Global};
use std::test::Fail;

/// A dozen messages of both sides, written by the tables of OpenFlow 1.0.0, 5.
const HELLO: [u8; 8] = [1, 0, 0, 8, 0, 0, 0, 1];

const FEATURES_REQUEST: [u8; 8] = [1, 5, 0, 8, 0, 0, 0, 2];

const FEATURES_REPLY: [u8; 32] = [
    1, 6, 0, 32, 0, 0, 0, 2, // header
    0, 0, 0, 0, 0, 0, 0, 7, // datapath_id
    0, 0, 1, 0, 1, 0, 0, 0, // n_buffers, n_tables
    0, 0, 0, 0x87, 0, 0, 0x0f, 0xff, // capabilities, actions
];

const SET_CONFIG: [u8; 12] = [1, 9, 0, 12, 0, 0, 0, 3, 0, 0, 0, 128];

const ECHO_REQUEST: [u8; 11] = [1, 2, 0, 11, 0, 0, 0, 4, b'a', b'b', b'c'];

const ERROR: [u8; 14] = [1, 1, 0, 14, 0, 0, 0, 5, 0, 1, 0, 6, 1, 0];

const PACKET_IN: [u8; 32] = [
    1, 10, 0, 32, 0, 0, 0, 6, // header
    0xff, 0xff, 0xff, 0xff, 0, 14, 0, 3, 0, 0, // buffer_id, total_len, in_port, reason
    2, 0, 0, 0, 0, 1, 2, 0, 0, 0, 0, 2, 8, 0, // an Ethernet header
];

const PACKET_OUT: [u8; 24] = [
    1, 13, 0, 24, 0, 0, 0, 7, // header
    0, 0, 0, 9, 0, 3, 0, 8, // buffer_id, in_port, actions_len
    0, 0, 0, 8, 0xff, 0xfb, 0, 0, // OUTPUT to FLOOD
];

const FLOW_MOD: [u8; 72] = [
    1, 14, 0, 72, 0, 0, 0, 8, // header
    0, 0x38, 0x20, 0xff, 0, 0, 0, 0, 0, 0, 0, 0, 0, 0, 0, 0, 0, 0, 0, 0, // a match of all
    0, 0, 0, 0, 0, 0, 0, 0, 0, 0, 0, 0, 0, 0, 0, 0, 0, 0, 0, 0, // packets
    0, 0, 0, 0, 0, 0, 0, 0, 0, 3, 0, 0, 0, 0, 0, 0, // cookie, command, timeouts, priority
    0xff, 0xff, 0xff, 0xff, 0xff, 0xff, 0, 0, // buffer_id, out_port, flags
];

const STATS_REPLY: [u8; 36] = [
    1, 17, 0, 36, 0, 0, 0, 9, 0, 2, 0, 0, // header, type, flags
    0, 0, 0, 0, 0, 0, 0, 5, 0, 0, 0, 0, 0, 0, 1, 44, 0, 0, 0, 2, 0, 0, 0, 0, // sums
];

const BARRIER_REQUEST: [u8; 8] = [1, 18, 0, 8, 0, 0, 0, 10];

const BARRIER_REPLY: [u8; 8] = [1, 19, 0, 8, 0, 0, 0, 10];

static MESSAGES: [&[u8]; 12] = [
    &HELLO,
    &FEATURES_REQUEST,
    &FEATURES_REPLY,
    &SET_CONFIG,
    &ECHO_REQUEST,
    &ERROR,
    &PACKET_IN,
    &PACKET_OUT,
    &FLOW_MOD,
    &STATS_REPLY,
    &BARRIER_REQUEST,
    &BARRIER_REPLY,
];

/// Adds a list of these bytes.
fn push_list(lists: &mut Vec<ByteList>, alloc: Global, part: &[u8]) -> Result<(), AllocError> {
    lists.push(ByteList::from_slice(alloc, part)?)?;
    Ok(())
}

/// Adds lists of these bytes.
fn push_lists(lists: &mut Vec<ByteList>, alloc: Global, parts: &[&[u8]]) -> Result<(), AllocError> {
    for part in parts {
        push_list(lists, alloc, part)?;
    }
    Ok(())
}

/// Lists of these bytes.
fn lists(alloc: Global, parts: &[&[u8]]) -> Result<Vec<ByteList>, AllocError> {
    let mut lists = Vec::new(alloc);
    push_lists(&mut lists, alloc, parts).and(Ok(lists))
}

/// Adds the messages, one after the other.
fn push_messages(bytes: &mut Vec<u8>) -> Result<(), AllocError> {
    for message in &MESSAGES {
        bytes.extend_from_slice(message)?;
    }
    Ok(())
}

/// The messages, one after the other.
fn stream(alloc: Global) -> Result<Vec<u8>, AllocError> {
    let mut bytes = Vec::new(alloc);
    push_messages(&mut bytes).and(Ok(bytes))
}

/// Tells whether a stream was cut into these messages, and nothing is left.
fn are_messages(cut: Cut, messages: &[ByteList]) -> bool {
    let are_messages = cut.frames.as_slice() == messages && cut.rest.is_empty();
    drop(cut);
    are_messages
}

/// Tells whether a stream that comes in these two pieces is cut into these messages, and nothing is left.
fn is_cut(
    alloc: Global,
    front: &[u8],
    back: &[u8],
    messages: &[ByteList],
) -> Result<bool, AllocError> {
    let pieces = lists(alloc, &[front, back])?;
    let cut = cut_pieces(alloc, &pieces);
    drop(pieces);
    Ok(are_messages(cut?, messages))
}

/// The first place at which a stream is not cut into these messages.
fn first_wrong(
    alloc: Global,
    bytes: &[u8],
    messages: &[ByteList],
) -> Result<Option<usize>, AllocError> {
    for place in 0..bytes.len() {
        if !is_cut(alloc, &bytes[..place], &bytes[place..], messages)? {
            return Ok(Some(place));
        }
    }
    Ok(None)
}

/// The first place at which the stream of these messages is not cut into them.
fn first_wrong_of(alloc: Global, messages: &[ByteList]) -> Result<Option<usize>, AllocError> {
    let bytes = stream(alloc)?;
    let wrong = first_wrong(alloc, &bytes, messages);
    drop(bytes);
    wrong
}

/// The first place at which the stream of the messages is not cut into them.
fn first_wrong_place(alloc: Global) -> Result<Option<usize>, AllocError> {
    let messages = lists(alloc, &MESSAGES)?;
    let wrong = first_wrong_of(alloc, &messages);
    drop(messages);
    wrong
}

#[test]
fn one_stream_cut_at_every_place(rt: HostRuntime) -> Result<(), Fail> {
    let wrong = first_wrong_place(rt.alloc())?;
    assert!(rt; wrong.is_none(), "{wrong:?}");
    Ok(())
}
