//! Messages.

use crate::bodies::{
    FeaturesReply, FlowMod, FlowRemoved, PacketIn, PacketOut, PortMod, PortStatus, Stats,
    SwitchConfig,
};
use crate::kind::MessageKind;
use of_types::{ByteList, Xid};

/// A message without its `xid`, one variant for each type of the standard (OpenFlow 1.0.0, 5.1 OpenFlow
/// Header).
#[derive(Drop, Debug, Clone, PartialEq, Eq)]
pub enum Message {
    /// The first message of each side (5.5.1); its payload says nothing.
    Hello {
        payload: ByteList,
    },
    /// A switch refuses a request (5.4.4). The payload is the request, or a front of 64 bytes at least.
    Error {
        kind: u16,
        code: u16,
        payload: ByteList,
    },
    /// Asks the other side to answer with the payload (5.5.2).
    EchoRequest {
        payload: ByteList,
    },
    /// Answers an EchoRequest with its payload (5.5.3).
    EchoReply {
        payload: ByteList,
    },
    /// A message of a vendor's own (5.5.4). The payload begins with the vendor's four bytes.
    Vendor {
        payload: ByteList,
    },
    /// Asks what the switch is (5.3.1).
    FeaturesRequest,
    /// Says what the switch is (5.3.1).
    FeaturesReply(FeaturesReply),
    /// Asks for the configuration (5.3.2).
    GetConfigRequest,
    /// Tells the configuration (5.3.2).
    GetConfigReply(SwitchConfig),
    /// Sets the configuration (5.3.2).
    SetConfig(SwitchConfig),
    /// A packet that the switch sends (5.4.1).
    PacketIn(PacketIn),
    /// A flow is gone (5.4.2).
    FlowRemoved(FlowRemoved),
    /// A port came, went or changed (5.4.3).
    PortStatus(PortStatus),
    /// A packet that the switch is to send (5.3.6).
    PacketOut(PacketOut),
    /// Changes the flow table (5.3.3).
    FlowMod(FlowMod),
    /// Changes a port (5.3.3).
    PortMod(PortMod),
    /// Asks for statistics (5.3.5).
    StatsRequest(Stats),
    /// A part of the statistics that were asked for (5.3.5).
    StatsReply(Stats),
    /// Asks for an answer once all that came before it is done (5.3.7).
    BarrierRequest,
    /// All that came before the request is done (5.3.7).
    BarrierReply,
    /// Asks for a port's queues (5.3.4). The payload is kept as it is.
    QueueGetConfigRequest {
        payload: ByteList,
    },
    /// Tells a port's queues (5.3.4). The payload is kept as it is.
    QueueGetConfigReply {
        payload: ByteList,
    },
}

/// A message with its `xid`.
#[derive(Drop, Debug, Clone, PartialEq, Eq)]
pub struct Envelope {
    /// What ties an answer to its request.
    pub xid: Xid,
    /// The message.
    pub message: Message,
}

impl Message {
    ghost use Rattle.std.specs.Prelude.{◌≡◌};
    ghost use Rattle.of_wire.specs.Spelling.{kind_of};

    /// Tells the message's type.
    pub fn kind(&self) -> MessageKind
        ensures { result ≡ kind_of self.now }
    {
        match self {
            Message::Hello { .. } => MessageKind::Hello,
            Message::Error { .. } => MessageKind::Error,
            Message::EchoRequest { .. } => MessageKind::EchoRequest,
            Message::EchoReply { .. } => MessageKind::EchoReply,
            Message::Vendor { .. } => MessageKind::Vendor,
            Message::FeaturesRequest => MessageKind::FeaturesRequest,
            Message::FeaturesReply(_) => MessageKind::FeaturesReply,
            Message::GetConfigRequest => MessageKind::GetConfigRequest,
            Message::GetConfigReply(_) => MessageKind::GetConfigReply,
            Message::SetConfig(_) => MessageKind::SetConfig,
            Message::PacketIn(_) => MessageKind::PacketIn,
            Message::FlowRemoved(_) => MessageKind::FlowRemoved,
            Message::PortStatus(_) => MessageKind::PortStatus,
            Message::PacketOut(_) => MessageKind::PacketOut,
            Message::FlowMod(_) => MessageKind::FlowMod,
            Message::PortMod(_) => MessageKind::PortMod,
            Message::StatsRequest(_) => MessageKind::StatsRequest,
            Message::StatsReply(_) => MessageKind::StatsReply,
            Message::BarrierRequest => MessageKind::BarrierRequest,
            Message::BarrierReply => MessageKind::BarrierReply,
            Message::QueueGetConfigRequest { .. } => MessageKind::QueueGetConfigRequest,
            Message::QueueGetConfigReply { .. } => MessageKind::QueueGetConfigReply,
        }
    }
}
