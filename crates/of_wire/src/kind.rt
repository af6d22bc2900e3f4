//! The types of messages.

ghost use Rattle.std.specs.Prelude.{◌≡◌};
ghost use Rattle.of_wire.specs.Kinds.{kind_of_number, number_of_kind};

use of_types::kinds;

/// A type of message (OpenFlow 1.0.0, 5.1 OpenFlow Header).
#[derive(Clone, Copy, Debug, PartialEq, Eq)]
pub enum MessageKind {
    Hello,
    Error,
    EchoRequest,
    EchoReply,
    Vendor,
    FeaturesRequest,
    FeaturesReply,
    GetConfigRequest,
    GetConfigReply,
    SetConfig,
    PacketIn,
    FlowRemoved,
    PortStatus,
    PacketOut,
    FlowMod,
    PortMod,
    StatsRequest,
    StatsReply,
    BarrierRequest,
    BarrierReply,
    QueueGetConfigRequest,
    QueueGetConfigReply,
}

impl MessageKind {
    /// Reads a type from its number; `None` exactly above 21.
    #[tactic(auto, unfolding(crate::specs::Kinds::kind_of_number))]
    pub fn from_number(number: u8) -> Option<MessageKind>
        ensures { result ≡ kind_of_number number }
    {
        Some(match number {
            kinds::HELLO => MessageKind::Hello,
            kinds::ERROR => MessageKind::Error,
            kinds::ECHO_REQUEST => MessageKind::EchoRequest,
            kinds::ECHO_REPLY => MessageKind::EchoReply,
            kinds::VENDOR => MessageKind::Vendor,
            kinds::FEATURES_REQUEST => MessageKind::FeaturesRequest,
            kinds::FEATURES_REPLY => MessageKind::FeaturesReply,
            kinds::GET_CONFIG_REQUEST => MessageKind::GetConfigRequest,
            kinds::GET_CONFIG_REPLY => MessageKind::GetConfigReply,
            kinds::SET_CONFIG => MessageKind::SetConfig,
            kinds::PACKET_IN => MessageKind::PacketIn,
            kinds::FLOW_REMOVED => MessageKind::FlowRemoved,
            kinds::PORT_STATUS => MessageKind::PortStatus,
            kinds::PACKET_OUT => MessageKind::PacketOut,
            kinds::FLOW_MOD => MessageKind::FlowMod,
            kinds::PORT_MOD => MessageKind::PortMod,
            kinds::STATS_REQUEST => MessageKind::StatsRequest,
            kinds::STATS_REPLY => MessageKind::StatsReply,
            kinds::BARRIER_REQUEST => MessageKind::BarrierRequest,
            kinds::BARRIER_REPLY => MessageKind::BarrierReply,
            kinds::QUEUE_GET_CONFIG_REQUEST => MessageKind::QueueGetConfigRequest,
            kinds::QUEUE_GET_CONFIG_REPLY => MessageKind::QueueGetConfigReply,
            _ => return None,
        })
    }

    /// Tells the type's number, 0 to 21.
    pub fn number(self) -> u8
        ensures { result ≡ number_of_kind self }
    {
        self as u8
    }
}
