//! Messages that a switch sends.

ghost use Rattle.std.specs.Prelude.{◌≡◌, ◌≤◌, ◌<◌, ◌^◌, length, take, map, Ok, All, IfOk};
ghost use Rattle.of_types.specs.Layout.{AreFields};
ghost use Rattle.of_wire.specs.Grammar.{IsMessage, enveloped};
ghost use Rattle.of_wire.specs.Reading.{reading_of};
ghost use Rattle.of_wire.specs.Spelling.{message_bytes, message_size, port_fields};
ghost use Rattle.flow_table.specs.Switch.{port_desc};
ghost use Rattle.flow_table.specs.Frames.{packet_in};
ghost use Rattle.flow_table.specs.Step.{flow_removed, error_bytes, port_status};
ghost use Rattle.switch_sim.specs.Readable.{IsReadable, features_message};

use crate::port::Port;
use flow_table::Notice;
use of_types::{ByteList, Dpid, OfError, PortNo, Xid, flows};
use of_wire::{
    FeaturesReply, FlowRemoved, Message, PacketIn, PortList, PortStatus, SwitchConfig, encode,
};
use std::alloc::{AllocError, Global};

/// The most bytes of a frame that a PACKET_IN can carry.
pub(crate) const MOST_FRAME: usize = 65_517;

/// Spells the bytes of a message of the grammar, which is read again.
pub(crate) fn spell(alloc: Global, xid: Xid, message: &Message) -> Result<ByteList, AllocError>
    requires { IsMessage message.now }
    ensures bytes { IfOk result (λ bytes. bytes ≡ message_bytes xid message.now) }
    ensures read { IfOk result (λ bytes. reading_of bytes ≡ Ok (enveloped xid message.now)) }
    ensures readable { IfOk result IsReadable }
{
    encode(alloc, xid, message)
}

/// Returns a PACKET_IN of a whole frame, in no buffer (OpenFlow 1.0.0, 5.4.1 Packet-In Message).
#[tactic(auto, unfolding(flow_table::specs::Frames::packet_in))]
pub(crate) fn packet_in(
    alloc: Global,
    reason: u8,
    in_port: PortNo,
    frame: &[u8],
) -> Result<ByteList, AllocError>
    requires { length frame.now ≤ MOST_FRAME }
    ensures bytes { IfOk result (λ bytes. bytes ≡ packet_in reason in_port frame.now) }
    ensures readable { IfOk result IsReadable }
{
    let packet = PacketIn {
        buffer_id: flows::NO_BUFFER,
        total_len: frame.len() as u16,
        in_port,
        reason,
        payload: ByteList::from_slice(alloc, frame)?,
    };
    spell_packet_in(alloc, packet)
}

#[tactic(auto, unfolding(of_wire::specs::Spelling::message_size))]
fn spell_packet_in(alloc: Global, packet: PacketIn) -> Result<ByteList, AllocError>
    requires { length packet.payload ≤ MOST_FRAME }
    ensures bytes { IfOk result (λ bytes. bytes ≡ message_bytes 0 (Message.PacketIn packet)) }
    ensures readable { IfOk result IsReadable }
{
    spell(alloc, 0, &Message::PacketIn(packet))
}

/// Lends the first 64 bytes.
fn front(bytes: &[u8]) -> &[u8]
    ensures front { result.now ≡ take 64 bytes.now }
    ensures len { length result.now ≤ 64 }
{
    if bytes.len() <= 64 {
        bytes
    } else {
        &bytes[..64]
    }
}

/// Returns the ERROR that answers a message: it has its `xid` and its first 64 bytes (OpenFlow 1.0.0, 5.4.4 Error
/// Message).
#[tactic(auto, unfolding(flow_table::specs::Step::error_bytes, of_wire::specs::Spelling::message_size))]
pub(crate) fn error(
    alloc: Global,
    xid: Xid,
    message: &Message,
    error: OfError,
) -> Result<ByteList, AllocError>
    requires { message_size message.now ≤ 65535 }
    ensures bytes { IfOk result (λ bytes. bytes ≡ error_bytes xid message.now error) }
    ensures readable { IfOk result IsReadable }
{
    let request = encode(alloc, xid, message)?;
    let payload = ByteList::from_slice(alloc, front(request.as_slice()))?;
    spell_error(alloc, xid, error, payload)
}

#[tactic(auto, unfolding(of_wire::specs::Spelling::message_size))]
fn spell_error(
    alloc: Global,
    xid: Xid,
    error: OfError,
    payload: ByteList,
) -> Result<ByteList, AllocError>
    requires { length payload ≤ 64 }
    ensures bytes { IfOk result (λ bytes. bytes ≡ message_bytes xid (Message.Error error.kind error.code payload)) }
    ensures readable { IfOk result IsReadable }
{
    spell(
        alloc,
        xid,
        &Message::Error {
            kind: error.kind,
            code: error.code,
            payload,
        },
    )
}

/// Returns what a FLOW_REMOVED says of an entry that went (OpenFlow 1.0.0, 5.4.2 Flow Removed Message).
pub(crate) fn flow_removed(notice: &Notice) -> FlowRemoved
    requires { notice.now.duration < 2 ^ 32 }
    ensures { result ≡ flow_removed notice.now }
{
    FlowRemoved {
        matching: notice.removed.key.matching,
        cookie: notice.removed.cookie,
        priority: notice.removed.key.priority,
        reason: notice.reason,
        duration_sec: notice.duration as u32,
        duration_nsec: 0,
        idle_timeout: notice.removed.idle,
        packet_count: notice.removed.packets,
        byte_count: notice.removed.bytes,
    }
}

/// Returns a PORT_STATUS with the port's description (OpenFlow 1.0.0, 5.4.3 Port Status Message).
#[tactic(auto, unfolding(flow_table::specs::Step::port_status, of_wire::specs::Spelling::message_size))]
pub(crate) fn port_status(
    alloc: Global,
    reason: u8,
    dpid: Dpid,
    port: &Port,
) -> Result<ByteList, AllocError>
    ensures bytes { IfOk result (λ bytes. bytes ≡ port_status reason dpid port.now) }
    ensures readable { IfOk result IsReadable }
{
    let port = port.describe(alloc, dpid)?;
    spell(alloc, 0, &Message::PortStatus(PortStatus { reason, port }))
}

/// Returns the descriptions of ports.
fn describe_all(alloc: Global, dpid: Dpid, ports: &[Port]) -> Result<PortList, AllocError>
    ensures ports { IfOk result (λ list. list ≡ map (port_desc dpid) ports.now) }
    ensures fields { IfOk result (λ list. All (λ port. AreFields (port_fields port)) list) }
{
    let mut descriptions = Vec::new(alloc);
    for port in ports {
        descriptions.push(port.describe(alloc, dpid)?)?;
    }
    Ok(PortList::from_vec(descriptions))
}

/// Returns the FEATURES_REPLY of a switch with at most 64 ports (OpenFlow 1.0.0, 5.3.1 Handshake).
#[tactic(auto, unfolding(of_wire::specs::Spelling::message_size))]
pub(crate) fn features(
    alloc: Global,
    xid: Xid,
    dpid: Dpid,
    ports: &[Port],
) -> Result<ByteList, AllocError>
    requires { length ports.now ≤ 64 }
    ensures bytes { IfOk result (λ bytes. bytes ≡ message_bytes xid (features_message dpid ports.now)) }
    ensures read { IfOk result (λ bytes. reading_of bytes ≡ Ok (enveloped xid (features_message dpid ports.now))) }
    ensures readable { IfOk result IsReadable }
{
    let ports = describe_all(alloc, dpid, ports)?;
    let features = FeaturesReply {
        dpid,
        n_buffers: 0,
        n_tables: 1,
        capabilities: 0x87,
        actions: 0x7ff,
        ports,
    };
    spell(alloc, xid, &Message::FeaturesReply(features))
}

/// Returns the BARRIER_REPLY (OpenFlow 1.0.0, 5.3.7 Barrier Message).
#[tactic(auto, unfolding(of_wire::specs::Spelling::message_size))]
pub(crate) fn barrier(alloc: Global, xid: Xid) -> Result<ByteList, AllocError>
    ensures bytes { IfOk result (λ bytes. bytes ≡ message_bytes xid Message.BarrierReply) }
    ensures readable { IfOk result IsReadable }
{
    spell(alloc, xid, &Message::BarrierReply)
}

/// Returns the ECHO_REPLY with the request's data (OpenFlow 1.0.0, 5.5.3 Echo Reply).
#[tactic(auto, unfolding(of_wire::specs::Spelling::message_size))]
pub(crate) fn echo(alloc: Global, xid: Xid, payload: &ByteList) -> Result<ByteList, AllocError>
    requires { message_size (Message.EchoRequest payload.now) ≤ 65535 }
    ensures bytes { IfOk result (λ bytes. bytes ≡ message_bytes xid (Message.EchoReply payload.now)) }
    ensures readable { IfOk result IsReadable }
{
    let payload = payload.clone()?;
    spell_echo(alloc, xid, payload)
}

#[tactic(auto, unfolding(of_wire::specs::Spelling::message_size))]
fn spell_echo(alloc: Global, xid: Xid, payload: ByteList) -> Result<ByteList, AllocError>
    requires { length payload ≤ 65527 }
    ensures bytes { IfOk result (λ bytes. bytes ≡ message_bytes xid (Message.EchoReply payload)) }
    ensures readable { IfOk result IsReadable }
{
    spell(alloc, xid, &Message::EchoReply { payload })
}

/// Returns the GET_CONFIG_REPLY (OpenFlow 1.0.0, 5.3.2 Switch Configuration).
#[tactic(auto, unfolding(of_wire::specs::Spelling::message_size))]
pub(crate) fn config(alloc: Global, xid: Xid, config: SwitchConfig) -> Result<ByteList, AllocError>
    ensures bytes { IfOk result (λ bytes. bytes ≡ message_bytes xid (Message.GetConfigReply config)) }
    ensures readable { IfOk result IsReadable }
{
    spell(alloc, xid, &Message::GetConfigReply(config))
}
