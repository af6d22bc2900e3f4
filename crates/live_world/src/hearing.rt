//! What a message on a connection is to a live world.

ghost use Rattle.std.specs.Prelude.{◌≡◌, IfOk};
ghost use Rattle.live_world.specs.Hearing.{greeting_of, hearing_of, IsHearingRead, is_later_hello, is_own_echo, is_echo_request, answers_request};
ghost use Rattle.live_world.specs.Greetings.{IsGreetingOf};

use of_types::{Dpid, Xid, get_u8, get_u32, kinds};
use of_wire::{Message, WireFault, check, decode};
use std::alloc::{AllocError, Global};

/// The `xid` of the messages that a live world sends of its own. The controller's are 1 and above.
pub(crate) const OWN_XID: Xid = 0;

/// What a connection that has not said who it is said.
#[derive(Clone, Copy, Debug, PartialEq, Eq)]
pub enum Greeting {
    /// Nothing that matters.
    Passed,
    /// It is this switch.
    Features(Dpid),
    /// Bytes that are no message.
    Refused,
}

/// What a joined switch said.
#[derive(Clone, Copy, Debug, PartialEq, Eq)]
pub enum Hearing {
    /// An ECHO_REQUEST, which is answered when it comes, or the answer to a question of the live world's own.
    Passed,
    /// A message that answers a request of the controller.
    Reply,
    /// A message that the switch says by itself.
    Told,
    /// Bytes that are no message.
    Refused,
}

/// Whether it is a HELLO of a version above that of OpenFlow 1.0.
fn is_later_hello(frame: &[u8]) -> bool
    ensures { result ≡ is_later_hello frame.now }
{
    frame.len() >= 8 && get_u8(frame, 0) > kinds::VERSION && get_u8(frame, 1) == kinds::HELLO
}

/// Whether it is the answer to an ECHO_REQUEST of the live world's own: an ECHO_REPLY with nothing but a header and
/// with the `xid` 0.
fn is_own_echo(frame: &[u8]) -> bool
    ensures { result ≡ is_own_echo frame.now }
{
    frame.len() == 8 && get_u8(frame, 1) == kinds::ECHO_REPLY && get_u32(frame, 4) == OWN_XID
}

/// Whether it is an ECHO_REQUEST.
pub(crate) fn is_echo_request(frame: &[u8]) -> bool
    ensures { result ≡ is_echo_request frame.now }
{
    frame.len() >= 8
        && get_u8(frame, 0) == kinds::VERSION
        && get_u8(frame, 1) == kinds::ECHO_REQUEST
}

/// Whether messages of this type answer a request. All others a switch says by itself.
fn answers_request(kind: u8) -> bool
    ensures { result ≡ answers_request kind }
{
    matches!(
        kind,
        kinds::ERROR
            | kinds::ECHO_REPLY
            | kinds::FEATURES_REPLY
            | kinds::GET_CONFIG_REPLY
            | kinds::STATS_REPLY
            | kinds::BARRIER_REPLY
            | kinds::QUEUE_GET_CONFIG_REPLY
    )
}

/// Tells what a connection says before it has said who it is. `AllocError` where there is no memory to read it.
pub fn hear_greeting(alloc: Global, frame: &[u8]) -> Result<Greeting, AllocError>
    ensures exact { IfOk result (λ greeting. greeting ≡ greeting_of frame.now) }
    ensures features { IfOk result (λ greeting. IsGreetingOf greeting frame.now) }
{
    if is_later_hello(frame) {
        return Ok(Greeting::Passed);
    }
    match decode(alloc, frame) {
        Ok(envelope) => match envelope.message {
            Message::FeaturesReply(features) => Ok(Greeting::Features(features.dpid)),
            _ => Ok(Greeting::Passed),
        },
        Err(WireFault::NoMemory) => Err(AllocError),
        Err(_) => Ok(Greeting::Refused),
    }
}

/// Tells what a joined switch says.
pub fn hear_joined(frame: &[u8]) -> Hearing
    ensures exact { result ≡ hearing_of frame.now }
    ensures read { IsHearingRead result frame.now }
{
    if check(frame).is_err() {
        Hearing::Refused
    } else if is_own_echo(frame) || is_echo_request(frame) {
        Hearing::Passed
    } else if frame.len() >= 8 && answers_request(get_u8(frame, 1)) {
        Hearing::Reply
    } else {
        Hearing::Told
    }
}
