//! Messages out of bytes.

ghost use Rattle.std.specs.Prelude.{◌≡◌, ℕ, ◌+◌, ◌-◌, ◌*◌, ◌/◌, ◌≤◌, length, drop, IfOk, IsTrue, Ok};
ghost use Rattle.of_action.specs.Reading.{actions_of};
ghost use Rattle.of_wire.specs.declared.kind.MessageKind.TheVariants as kinds_of;
ghost use Rattle.of_wire.specs.declared.message.Message.{Message};
ghost use Rattle.of_wire.specs.Grammar.{IsMessage, SpellMessage, enveloped};
ghost use Rattle.of_wire.specs.Reading.{Gives, of_actions, has_length, port_of, ports_of, config_of, flow_removed_of, port_mod_of, stats_of, port_status_of, has_payload_alone, packet_out_of, flow_mod_of, body_of, reading_of};

use crate::bodies::{
    FeaturesReply, FlowMod, FlowRemoved, PacketIn, PacketOut, PortMod, PortStatus, Stats,
    SwitchConfig,
};
use crate::fault::WireFault;
use crate::front::front;
use crate::kind::MessageKind;
use crate::message::{Envelope, Message};
use crate::port_list::PortList;
use of_action::{ActionList, decode_list};
use of_match::Match;
use of_types::{ByteList, PortDesc, get_array, get_u8, get_u16, get_u32, get_u64};
use std::alloc::{AllocError, Global};

/// The bytes from `at` to the end.
fn rest(alloc: Global, bytes: &[u8], at: usize) -> Result<ByteList, AllocError>
    requires { at ≤ length bytes.now }
    ensures { IfOk result (λ list. list ≡ drop at bytes.now) }
{
    ByteList::from_slice(alloc, &bytes[at..])
}

/// The port that 48 bytes at the front describe.
fn port_at_front(bytes: &[u8]) -> PortDesc
    requires { 48 ≤ length bytes.now }
    ensures { result ≡ port_of bytes.now }
{
    PortDesc {
        port_no: get_u16(bytes, 0),
        hw_addr: get_array(bytes, 2),
        name: get_array(bytes, 8),
        config: get_u32(bytes, 24),
        state: get_u32(bytes, 28),
        curr: get_u32(bytes, 32),
        advertised: get_u32(bytes, 36),
        supported: get_u32(bytes, 40),
        peer: get_u32(bytes, 44),
    }
}

fn config(bytes: &[u8]) -> SwitchConfig
    requires { 12 ≤ length bytes.now }
    ensures { result ≡ config_of bytes.now }
{
    SwitchConfig {
        flags: get_u16(bytes, 8),
        miss_send_len: get_u16(bytes, 10),
    }
}

/// The actions that the bytes spell.
fn action_list(alloc: Global, bytes: &[u8]) -> Result<ActionList, WireFault>
    ensures { Gives result (of_actions (actions_of bytes.now)) }
{
    Ok(decode_list(alloc, bytes)?)
}

#[tactic(auto, unfolding(crate::specs::Reading::packet_out_of))]
fn packet_out(alloc: Global, bytes: &[u8]) -> Result<Message, WireFault>
    requires { 16 ≤ length bytes.now }
    ensures { Gives result (packet_out_of bytes.now) }
{
    let actions_len = usize::from(get_u16(bytes, 14));
    if bytes.len() < 16 + actions_len {
        return Err(WireFault::BadLength);
    }
    let actions = action_list(alloc, &bytes[16..16 + actions_len])?;
    let payload = rest(alloc, bytes, 16 + actions_len)?;
    Ok(Message::PacketOut(PacketOut {
        buffer_id: get_u32(bytes, 8),
        in_port: get_u16(bytes, 12),
        actions,
        payload,
    }))
}

/// The actions that the bytes from `at` to the end spell.
fn action_list_from(alloc: Global, bytes: &[u8], at: usize) -> Result<ActionList, WireFault>
    requires { at ≤ length bytes.now }
    ensures { Gives result (of_actions (actions_of (drop at bytes.now))) }
{
    action_list(alloc, &bytes[at..])
}

#[tactic(auto, unfolding(crate::specs::Reading::flow_mod_of))]
fn flow_mod(alloc: Global, bytes: &[u8]) -> Result<Message, WireFault>
    requires { 72 ≤ length bytes.now }
    ensures { Gives result (flow_mod_of bytes.now) }
{
    let actions = action_list_from(alloc, bytes, 72)?;
    Ok(Message::FlowMod(FlowMod {
        matching: Match::decode(&get_array(bytes, 8)),
        cookie: get_u64(bytes, 48),
        command: get_u16(bytes, 56),
        idle: get_u16(bytes, 58),
        hard: get_u16(bytes, 60),
        priority: get_u16(bytes, 62),
        buffer_id: get_u32(bytes, 64),
        out_port: get_u16(bytes, 68),
        flags: get_u16(bytes, 70),
        actions,
    }))
}

/// So many ports, one after the other from `at` on.
fn ports_from(alloc: Global, bytes: &[u8], at: usize, count: usize) -> Result<PortList, AllocError>
    requires { at + 48 * count ≤ length bytes.now }
    ensures { IfOk result (λ list. list ≡ ports_of count (drop at bytes.now)) }
{
    let mut ports = Vec::with_capacity(alloc, count)?;
    for i in 0..count {
        ports.push(port_at_front(&bytes[at + 48 * i..]))?;
    }
    Ok(PortList::from_vec(ports))
}

#[tactic(auto, unfolding(crate::specs::Reading::body_of))]
fn features_reply(alloc: Global, bytes: &[u8]) -> Result<Message, WireFault>
    requires { 32 ≤ length bytes.now }
    ensures { Gives result (body_of kinds_of.FeaturesReply bytes.now) }
{
    let ports = ports_from(alloc, bytes, 32, (bytes.len() - 32) / 48)?;
    Ok(Message::FeaturesReply(FeaturesReply {
        dpid: get_u64(bytes, 8),
        n_buffers: get_u32(bytes, 16),
        n_tables: get_u8(bytes, 20),
        capabilities: get_u32(bytes, 24),
        actions: get_u32(bytes, 28),
        ports,
    }))
}

#[tactic(auto, unfolding(crate::specs::Reading::body_of))]
fn packet_in(alloc: Global, bytes: &[u8]) -> Result<Message, WireFault>
    requires { 18 ≤ length bytes.now }
    ensures { Gives result (body_of kinds_of.PacketIn bytes.now) }
{
    let payload = rest(alloc, bytes, 18)?;
    Ok(Message::PacketIn(PacketIn {
        buffer_id: get_u32(bytes, 8),
        total_len: get_u16(bytes, 12),
        in_port: get_u16(bytes, 14),
        reason: get_u8(bytes, 16),
        payload,
    }))
}

fn flow_removed(bytes: &[u8]) -> FlowRemoved
    requires { 88 ≤ length bytes.now }
    ensures { result ≡ flow_removed_of bytes.now }
{
    FlowRemoved {
        matching: Match::decode(&get_array(bytes, 8)),
        cookie: get_u64(bytes, 48),
        priority: get_u16(bytes, 56),
        reason: get_u8(bytes, 58),
        duration_sec: get_u32(bytes, 60),
        duration_nsec: get_u32(bytes, 64),
        idle_timeout: get_u16(bytes, 68),
        packet_count: get_u64(bytes, 72),
        byte_count: get_u64(bytes, 80),
    }
}

fn port_mod(bytes: &[u8]) -> PortMod
    requires { 32 ≤ length bytes.now }
    ensures { result ≡ port_mod_of bytes.now }
{
    PortMod {
        port_no: get_u16(bytes, 8),
        hw_addr: get_array(bytes, 10),
        config: get_u32(bytes, 16),
        mask: get_u32(bytes, 20),
        advertise: get_u32(bytes, 24),
    }
}

fn stats(alloc: Global, bytes: &[u8]) -> Result<Stats, AllocError>
    requires { 12 ≤ length bytes.now }
    ensures { IfOk result (λ stats. stats ≡ stats_of bytes.now) }
{
    let body = rest(alloc, bytes, 12)?;
    Ok(Stats {
        kind: get_u16(bytes, 8),
        flags: get_u16(bytes, 10),
        body,
    })
}

fn port_status(bytes: &[u8]) -> PortStatus
    requires { 64 ≤ length bytes.now }
    ensures { result ≡ port_status_of bytes.now }
{
    PortStatus {
        reason: get_u8(bytes, 8),
        port: port_at_front(&bytes[16..]),
    }
}

#[tactic(auto, unfolding(crate::specs::Reading::body_of))]
fn error(alloc: Global, bytes: &[u8]) -> Result<Message, WireFault>
    requires { 12 ≤ length bytes.now }
    ensures { Gives result (body_of kinds_of.Error bytes.now) }
{
    let payload = rest(alloc, bytes, 12)?;
    Ok(Message::Error {
        kind: get_u16(bytes, 8),
        code: get_u16(bytes, 10),
        payload,
    })
}

/// A message that is its type and bytes.
#[tactic(auto, unfolding(crate::specs::Reading::body_of))]
fn with_payload(alloc: Global, kind: MessageKind, bytes: &[u8]) -> Result<Message, WireFault>
    requires header { 8 ≤ length bytes.now }
    requires kind { IsTrue (has_payload_alone kind) }
    ensures { Gives result (body_of kind bytes.now) }
{
    let payload = rest(alloc, bytes, 8)?;
    Ok(match kind {
        MessageKind::EchoRequest => Message::EchoRequest { payload },
        MessageKind::EchoReply => Message::EchoReply { payload },
        MessageKind::Vendor => Message::Vendor { payload },
        MessageKind::QueueGetConfigRequest => Message::QueueGetConfigRequest { payload },
        MessageKind::QueueGetConfigReply => Message::QueueGetConfigReply { payload },
        _ => Message::Hello { payload },
    })
}

/// The message behind a front that is in order.
#[tactic(auto, unfolding(crate::specs::Reading::body_of))]
fn body(alloc: Global, kind: MessageKind, bytes: &[u8]) -> Result<Message, WireFault>
    requires { IsTrue (has_length kind (length bytes.now)) }
    ensures { Gives result (body_of kind bytes.now) }
{
    match kind {
        MessageKind::Hello
        | MessageKind::EchoRequest
        | MessageKind::EchoReply
        | MessageKind::Vendor
        | MessageKind::QueueGetConfigRequest
        | MessageKind::QueueGetConfigReply => with_payload(alloc, kind, bytes),
        MessageKind::Error => error(alloc, bytes),
        MessageKind::FeaturesReply => features_reply(alloc, bytes),
        MessageKind::PacketIn => packet_in(alloc, bytes),
        MessageKind::PacketOut => packet_out(alloc, bytes),
        MessageKind::FlowMod => flow_mod(alloc, bytes),
        MessageKind::StatsRequest => Ok(Message::StatsRequest(stats(alloc, bytes)?)),
        MessageKind::StatsReply => Ok(Message::StatsReply(stats(alloc, bytes)?)),
        MessageKind::FeaturesRequest => Ok(Message::FeaturesRequest),
        MessageKind::GetConfigRequest => Ok(Message::GetConfigRequest),
        MessageKind::GetConfigReply => Ok(Message::GetConfigReply(config(bytes))),
        MessageKind::SetConfig => Ok(Message::SetConfig(config(bytes))),
        MessageKind::FlowRemoved => Ok(Message::FlowRemoved(flow_removed(bytes))),
        MessageKind::PortStatus => Ok(Message::PortStatus(port_status(bytes))),
        MessageKind::PortMod => Ok(Message::PortMod(port_mod(bytes))),
        MessageKind::BarrierRequest => Ok(Message::BarrierRequest),
        MessageKind::BarrierReply => Ok(Message::BarrierReply),
    }
}

#[tactic(auto, unfolding(crate::specs::Reading::reading_of))]
fn envelope(alloc: Global, bytes: &[u8]) -> Result<Envelope, WireFault>
    ensures { Gives result (reading_of bytes.now) }
{
    let kind = front(bytes)?;
    let message = body(alloc, kind, bytes)?;
    Ok(Envelope {
        xid: get_u32(bytes, 4),
        message,
    })
}

/// Reads the message that the bytes spell, all of the bytes. Where they spell none, the first fault: fewer than
/// 8 bytes, the version, the type, the length, then the actions, with the offset in their list; `NoMemory` where
/// there is no memory for the message.
pub fn decode(alloc: Global, bytes: &[u8]) -> Result<Envelope, WireFault>
    // The value or the first fault, unless memory runs out.
    ensures exact { Gives result (reading_of bytes.now) }
    // What is read is in the grammar, and the bytes spell it.
    ensures found { IfOk result
        (λ envelope. IsMessage envelope.message × SpellMessage envelope.xid envelope.message bytes.now) }
    // What is in the grammar is read, unless memory runs out.
    ensures only { (xid : ℕ) (message : Message) → IsMessage message → SpellMessage xid message bytes.now
        → Gives result (Ok (enveloped xid message)) }
{
    envelope(alloc, bytes)
}
