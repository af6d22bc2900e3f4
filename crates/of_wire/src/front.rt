//! A message's front: its header, its type, and whether its length is one that the type may have.

ghost use Rattle.std.specs.Prelude.{◌≡◌, length, IfOk, IsTrue};
ghost use Rattle.of_wire.specs.Reading.{front_of, has_length};

use crate::fault::WireFault;
use crate::kind::MessageKind;
use of_types::{get_u8, get_u16, kinds};

/// The length is one that the standard's table has for the type.
fn has_length_of(kind: MessageKind, len: usize) -> bool
    ensures { result ≡ has_length kind len }
{
    match kind {
        MessageKind::Hello | MessageKind::EchoRequest | MessageKind::EchoReply => len >= 8,
        MessageKind::Error | MessageKind::Vendor => len >= 12,
        MessageKind::FeaturesRequest | MessageKind::GetConfigRequest => len == 8,
        MessageKind::FeaturesReply => len >= 32 && (len - 32) % 48 == 0,
        MessageKind::GetConfigReply | MessageKind::SetConfig => len == 12,
        MessageKind::PacketIn => len >= 18,
        MessageKind::FlowRemoved => len == 88,
        MessageKind::PortStatus => len == 64,
        MessageKind::PacketOut | MessageKind::QueueGetConfigReply => len >= 16,
        MessageKind::FlowMod => len >= 72,
        MessageKind::PortMod => len == 32,
        MessageKind::StatsRequest | MessageKind::StatsReply => len >= 12,
        MessageKind::BarrierRequest | MessageKind::BarrierReply => len == 8,
        MessageKind::QueueGetConfigRequest => len == 12,
    }
}

/// The message's type, where the header and the length are in order.
#[tactic(auto, unfolding(crate::specs::Reading::front_of))]
pub(crate) fn front(bytes: &[u8]) -> Result<MessageKind, WireFault>
    ensures exact { result ≡ front_of bytes.now }
    ensures sized { IfOk result (λ kind. IsTrue (has_length kind (length bytes.now))) }
{
    if bytes.len() < 8 {
        return Err(WireFault::BadLength);
    }
    if get_u8(bytes, 0) != kinds::VERSION {
        return Err(WireFault::BadVersion);
    }
    match MessageKind::from_number(get_u8(bytes, 1)) {
        None => Err(WireFault::BadType),
        Some(kind) => {
            if usize::from(get_u16(bytes, 2)) == bytes.len() && has_length_of(kind, bytes.len()) {
                Ok(kind)
            } else {
                Err(WireFault::BadLength)
            }
        }
    }
}
