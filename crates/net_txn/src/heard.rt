//! What a message of a switch is to a wait for the reply to a barrier.

ghost use Rattle.std.specs.Prelude.{◌≡◌, ◌≤◌, length, IsOk};
ghost use Rattle.of_wire.specs.declared.message.Message.TheVariants.{BarrierRequest, BarrierReply};
ghost use Rattle.of_wire.specs.Reading.{reading_of};
ghost use Rattle.of_wire.specs.Spelling.{message_bytes};
ghost use Rattle.lego_model.specs.BarrierWaits.{is_awaited, is_apart, heard, refusal_of};

use lego_model::{Awaited, Heard, Notices, Refusal};
use of_types::{OfError, Xid, flows, get_u8, get_u16, get_u32, kinds};
use of_wire::{Message, encode_into};

/// Returns the reply to a barrier.
#[tactic(auto, unfolding(of_wire::specs::Spelling::message_size))]
pub(crate) fn barrier_reply(xid: Xid) -> [u8; 8]
    ensures { result ≡ message_bytes xid BarrierReply }
{
    let mut bytes = [0; 8];
    encode_into(xid, &Message::BarrierReply, &mut bytes);
    bytes
}

/// Returns a barrier.
#[tactic(auto, unfolding(of_wire::specs::Spelling::message_size))]
pub(crate) fn barrier_request(xid: Xid) -> [u8; 8]
    ensures read { IsOk (reading_of result) }
    ensures bytes { result ≡ message_bytes xid BarrierRequest }
{
    let mut bytes = [0; 8];
    encode_into(xid, &Message::BarrierRequest, &mut bytes);
    bytes
}

/// Tells whether a message with this transaction id may be answered.
fn may_answer(awaited: &Awaited, xid: Xid) -> bool
    ensures { result ≡ is_awaited awaited.now xid }
{
    if awaited.first <= awaited.barrier {
        awaited.first <= xid && xid < awaited.barrier
    } else {
        awaited.first <= xid || xid < awaited.barrier
    }
}

/// Tells what an ERROR says.
fn read_error(message: &[u8]) -> Refusal
    requires { 12 ≤ length message.now }
    ensures { result ≡ refusal_of message.now }
{
    Refusal {
        xid: get_u32(message, 4),
        error: OfError {
            kind: get_u16(message, 8),
            code: get_u16(message, 10),
        },
    }
}

/// Tells whether a notice of an entry that was deleted is no message as any other.
fn stands_apart(notices: Notices) -> bool
    ensures { result ≡ is_apart notices }
{
    match notices {
        Notices::Held | Notices::Dropped => true,
        Notices::Kept => false,
    }
}

/// Tells what a message is to a wait.
#[tactic(auto, unfolding(lego_model::specs::BarrierWaits::heard), using(crate::specs::laws::SizeLaws::sizes))]
pub(crate) fn classify(message: &[u8], awaited: &Awaited) -> Heard
    requires { IsOk (reading_of message.now) }
    ensures { result ≡ heard awaited.now message.now }
{
    if message == barrier_reply(awaited.barrier).as_slice() {
        return Heard::Reply;
    }
    let kind = get_u8(message, 1);
    if kind == kinds::ERROR && may_answer(awaited, get_u32(message, 4)) {
        Heard::Refused(read_error(message))
    } else if kind == kinds::FLOW_REMOVED
        && get_u8(message, 58) == flows::DELETED
        && stands_apart(awaited.notices)
    {
        Heard::Notice
    } else if kind == kinds::ECHO_REQUEST {
        Heard::Echo
    } else {
        Heard::Other
    }
}
