//! Answers to ECHO_REQUESTs.

ghost use Rattle.std.specs.Prelude.{◌≡◌, ◌≤◌, ◌++◌, length, IfSome, OnOk, OnErr};
ghost use Rattle.live_world.specs.Echoes.{reply_to};

use crate::hearing::is_echo_request;
use crate::outbound::Outbound;
use of_types::{get_u16, kinds};
use std::alloc::AllocError;

/// The length of a header (OpenFlow 1.0.0, 5.1 OpenFlow Header).
const HEADER: usize = 8;

/// Up to where the ECHO_REQUESTs of a connection are answered.
#[derive(Clone, Copy, Debug, PartialEq, Eq)]
pub(crate) struct Answered {
    /// How many bytes were looked at.
    pub(crate) count: usize,
    /// Whether an ECHO_REQUEST stands behind them whose answer has no room.
    pub(crate) is_held: bool,
}

/// How many bytes the first message has, if it is whole.
fn whole_size(bytes: &[u8]) -> Option<usize>
    ensures header { IfSome result (λ size. 8 ≤ size) }
    ensures within { IfSome result (λ size. size ≤ length bytes.now) }
{
    if bytes.len() < HEADER {
        return None;
    }
    let size = get_u16(bytes, 2) as usize;
    if size < HEADER || bytes.len() < size {
        None
    } else {
        Some(size)
    }
}

/// Puts the answer to an ECHO_REQUEST behind what is to be sent: the same message as an ECHO_REPLY.
fn put_reply(request: &[u8], replies: &mut Outbound) -> Result<(), AllocError>
    requires { 2 ≤ length request.now }
    ensures ok { OnOk result (replies.new ≡ replies.old ++ reply_to request.now) }
    ensures err { OnErr result (replies.new ≡ replies.old) }
{
    replies.put_both(&[request[0], kinds::ECHO_REPLY], &request[2..])
}

/// Looks at the messages that stand whole behind this place, and puts the answers to the ECHO_REQUESTs among them behind what is to be
/// sent. It stops at a request whose answer has no room.
pub(crate) fn answer_echoes(bytes: &[u8], from: usize, replies: &mut Outbound) -> Answered
    requires { from ≤ length bytes.now }
{
    let mut rest = &bytes[from..];
    for _ in 0..bytes.len() {
        match passed_size(rest, replies) {
            Some(size) => rest = &rest[size..],
            None => break,
        }
    }
    Answered {
        count: bytes.len().saturating_sub(rest.len()),
        is_held: whole_size(rest).is_some(),
    }
}

/// How many bytes the first message has, if it is whole and no ECHO_REQUEST, or one whose answer has room: then that is put behind what
/// is to be sent.
fn passed_size(bytes: &[u8], replies: &mut Outbound) -> Option<usize>
    ensures { IfSome result (λ size. size ≤ length bytes.now) }
{
    let size = whole_size(bytes)?;
    let message = &bytes[..size];
    if is_echo_request(message) && !is_answered(message, replies) {
        None
    } else {
        Some(size)
    }
}

/// Puts the answer to an ECHO_REQUEST behind what is to be sent, where there is room for it. Tells whether it did.
fn is_answered(request: &[u8], replies: &mut Outbound) -> bool
    requires { 2 ≤ length request.now }
{
    replies.has_room(request.len()) && put_reply(request, replies).is_ok()
}
