//! The messages that a live world sends of its own.

ghost use Rattle.std.specs.Prelude.{◌≡◌, [], ◌++◌, OnOk};
ghost use Rattle.of_wire.specs.declared.message.Message.TheVariants as messages;
ghost use Rattle.of_wire.specs.Spelling.{message_bytes};

use crate::hearing::OWN_XID;
use crate::outbound::Outbound;
use of_types::ByteList;
use of_wire::{Message, encode_into};
use std::alloc::{AllocError, Global};

/// The HELLO without a payload (OpenFlow 1.0.0, 5.5.1 Hello).
#[tactic(auto, unfolding(of_wire::specs::Spelling::message_size))]
fn hello(alloc: Global) -> [u8; 8]
    ensures { result ≡ message_bytes 0 (messages.Hello []) }
{
    let mut bytes = [0; 8];
    let payload = ByteList::new(alloc);
    encode_into(OWN_XID, &Message::Hello { payload }, &mut bytes);
    bytes
}

/// The FEATURES_REQUEST (OpenFlow 1.0.0, 5.3.1 Handshake).
#[tactic(auto, unfolding(of_wire::specs::Spelling::message_size))]
fn features_request() -> [u8; 8]
    ensures { result ≡ message_bytes 0 messages.FeaturesRequest }
{
    let mut bytes = [0; 8];
    encode_into(OWN_XID, &Message::FeaturesRequest, &mut bytes);
    bytes
}

/// The ECHO_REQUEST without a payload (OpenFlow 1.0.0, 5.5.2 Echo Request).
#[tactic(auto, unfolding(of_wire::specs::Spelling::message_size))]
fn echo_request(alloc: Global) -> [u8; 8]
    ensures { result ≡ message_bytes 0 (messages.EchoRequest []) }
{
    let mut bytes = [0; 8];
    let payload = ByteList::new(alloc);
    encode_into(OWN_XID, &Message::EchoRequest { payload }, &mut bytes);
    bytes
}

/// Has a new connection be sent what each is sent first.
pub(crate) fn greet(alloc: Global, outbound: &mut Outbound) -> Result<(), AllocError>
    ensures { OnOk result (outbound.new ≡ outbound.old ++ message_bytes 0 (messages.Hello []) ++ message_bytes 0 messages.FeaturesRequest) }
{
    outbound.put(&hello(alloc))?;
    outbound.put(&features_request())
}

/// Has a silent switch be asked whether it is there.
pub(crate) fn ask(alloc: Global, outbound: &mut Outbound) -> Result<(), AllocError>
    ensures { OnOk result (outbound.new ≡ outbound.old ++ message_bytes 0 (messages.EchoRequest [])) }
{
    outbound.put(&echo_request(alloc))
}
