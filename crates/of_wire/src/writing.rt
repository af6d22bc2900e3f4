//! Messages into bytes.

ghost use Rattle.std.specs.Prelude.{◌≡◌, ◌+◌, ◌*◌, ◌^◌, ◌-◌, ◌<◌, ◌≤◌, ◌++◌, length, take, min, IfOk};
ghost use Rattle.of_types.specs.Layout.{spelled};
ghost use Rattle.of_action.specs.Spelling.{list_bytes, list_size};
ghost use Rattle.of_wire.specs.Spelling.{header_fields, port_fields, ports_bytes, body_bytes, message_bytes, message_size};

use crate::bodies::{
    FeaturesReply, FlowMod, FlowRemoved, PacketIn, PacketOut, PortMod, PortStatus, Stats,
    SwitchConfig,
};
use crate::kind::MessageKind;
use crate::message::Message;
use of_action::{ActionList, encode_list, size as size_of_list};
use of_types::{
    ByteList, PortDesc, Xid, kinds, put_array, put_bytes, put_u8, put_u16, put_u32, put_u64,
};
use std::alloc::{AllocError, Global};

fn put_header(out: &mut [u8], kind: MessageKind, xid: u32)
    requires header { 8 ≤ length out.old }
    requires size { length out.old < 2 ^ 16 }
    ensures { take 8 out.new ≡ spelled (header_fields kind (length out.old) xid) }
{
    let size = out.len() as u16;
    put_u8(out, 0, kinds::VERSION);
    put_u8(out, 1, kind.number());
    put_u16(out, 2, size);
    put_u32(out, 4, xid);
}

fn put_payload(out: &mut [u8], payload: &[u8])
    requires { length out.old ≡ 8 + length payload.now }
    ensures { out.new ≡ take 8 out.old ++ payload.now }
{
    put_bytes(out, 8, payload);
}

#[tactic(auto, unfolding(crate::specs::Spelling::message_size, crate::specs::Spelling::body_bytes))]
fn put_error(out: &mut [u8], kind: u16, code: u16, payload: &ByteList)
    requires { length out.old ≡ message_size (Message.Error kind code payload.now) }
    ensures { out.new ≡ take 8 out.old ++ body_bytes (Message.Error kind code payload.now) }
{
    put_u16(out, 8, kind);
    put_u16(out, 10, code);
    put_bytes(out, 12, payload.as_slice());
}

#[tactic(auto, unfolding(crate::specs::Spelling::message_size, crate::specs::Spelling::body_bytes))]
fn put_packet_in(out: &mut [u8], packet: &PacketIn)
    requires { length out.old ≡ message_size (Message.PacketIn packet.now) }
    ensures { out.new ≡ take 8 out.old ++ body_bytes (Message.PacketIn packet.now) }
{
    put_u32(out, 8, packet.buffer_id);
    put_u16(out, 12, packet.total_len);
    put_u16(out, 14, packet.in_port);
    put_u8(out, 16, packet.reason);
    put_array(out, 17, &[0]);
    put_bytes(out, 18, packet.payload.as_slice());
}

fn put_port(out: &mut [u8], port: &PortDesc)
    requires { length out.old ≡ 48 }
    ensures { out.new ≡ spelled (port_fields port.now) }
{
    put_u16(out, 0, port.port_no);
    put_array(out, 2, &port.hw_addr);
    put_array(out, 8, &port.name);
    put_u32(out, 24, port.config);
    put_u32(out, 28, port.state);
    put_u32(out, 32, port.curr);
    put_u32(out, 36, port.advertised);
    put_u32(out, 40, port.supported);
    put_u32(out, 44, port.peer);
}

fn put_port_at(out: &mut [u8], at: usize, port: &PortDesc)
    requires { at + 48 ≤ length out.old }
    ensures { take (at + 48) out.new ≡ take at out.old ++ spelled (port_fields port.now) }
{
    put_port(&mut out[at..at + 48], port);
}

fn put_list_at(out: &mut [u8], at: usize, list: &ActionList)
    requires { at + list_size list.now ≤ length out.old }
    ensures { take (at + list_size list.now) out.new ≡ take at out.old ++ list_bytes list.now }
{
    let end = at + size_of_list(list);
    encode_list(list, &mut out[at..end]);
}

#[tactic(auto, unfolding(crate::specs::Spelling::message_size, crate::specs::Spelling::body_bytes))]
fn put_features(out: &mut [u8], features: &FeaturesReply)
    requires { length out.old ≡ message_size (Message.FeaturesReply features.now) }
    ensures { out.new ≡ take 8 out.old ++ body_bytes (Message.FeaturesReply features.now) }
{
    put_u64(out, 8, features.dpid);
    put_u32(out, 16, features.n_buffers);
    put_u8(out, 20, features.n_tables);
    put_array(out, 21, &[0; 3]);
    put_u32(out, 24, features.capabilities);
    put_u32(out, 28, features.actions);
    put_ports(out, features.ports.as_slice());
}

fn put_ports(out: &mut [u8], ports: &[PortDesc])
    requires { length out.old ≡ 32 + 48 * length ports.now }
    ensures { out.new ≡ take 32 out.old ++ ports_bytes ports.now }
{
    let mut at = 32;
    for port in ports {
        put_port_at(out, at, port);
        at += 48;
    }
}

#[tactic(auto, unfolding(crate::specs::Spelling::body_bytes))]
fn put_config(out: &mut [u8], config: SwitchConfig)
    requires { length out.old ≡ 12 }
    ensures { out.new ≡ take 8 out.old ++ body_bytes (Message.SetConfig config) }
{
    put_u16(out, 8, config.flags);
    put_u16(out, 10, config.miss_send_len);
}

#[tactic(auto, unfolding(crate::specs::Spelling::body_bytes))]
fn put_flow_removed(out: &mut [u8], flow: &FlowRemoved)
    requires { length out.old ≡ 88 }
    ensures { out.new ≡ take 8 out.old ++ body_bytes (Message.FlowRemoved flow.now) }
{
    put_array(out, 8, &flow.matching.encode());
    put_u64(out, 48, flow.cookie);
    put_u16(out, 56, flow.priority);
    put_u8(out, 58, flow.reason);
    put_array(out, 59, &[0]);
    put_u32(out, 60, flow.duration_sec);
    put_u32(out, 64, flow.duration_nsec);
    put_u16(out, 68, flow.idle_timeout);
    put_array(out, 70, &[0; 2]);
    put_u64(out, 72, flow.packet_count);
    put_u64(out, 80, flow.byte_count);
}

#[tactic(auto, unfolding(crate::specs::Spelling::body_bytes))]
fn put_port_status(out: &mut [u8], status: &PortStatus)
    requires { length out.old ≡ 64 }
    ensures { out.new ≡ take 8 out.old ++ body_bytes (Message.PortStatus status.now) }
{
    put_u8(out, 8, status.reason);
    put_array(out, 9, &[0; 7]);
    put_port_at(out, 16, &status.port);
}

#[tactic(auto, unfolding(crate::specs::Spelling::message_size, crate::specs::Spelling::body_bytes))]
fn put_packet_out(out: &mut [u8], packet: &PacketOut)
    requires size { length out.old ≡ message_size (Message.PacketOut packet.now) }
    requires fits { length out.old < 2 ^ 16 }
    ensures { out.new ≡ take 8 out.old ++ body_bytes (Message.PacketOut packet.now) }
{
    let actions_len = size_of_list(&packet.actions);
    put_u32(out, 8, packet.buffer_id);
    put_u16(out, 12, packet.in_port);
    put_u16(out, 14, actions_len as u16);
    put_list_at(out, 16, &packet.actions);
    put_bytes(out, 16 + actions_len, packet.payload.as_slice());
}

#[tactic(auto, unfolding(crate::specs::Spelling::message_size, crate::specs::Spelling::body_bytes))]
fn put_flow_mod(out: &mut [u8], flow: &FlowMod)
    requires { length out.old ≡ message_size (Message.FlowMod flow.now) }
    ensures { out.new ≡ take 8 out.old ++ body_bytes (Message.FlowMod flow.now) }
{
    put_array(out, 8, &flow.matching.encode());
    put_u64(out, 48, flow.cookie);
    put_u16(out, 56, flow.command);
    put_u16(out, 58, flow.idle);
    put_u16(out, 60, flow.hard);
    put_u16(out, 62, flow.priority);
    put_u32(out, 64, flow.buffer_id);
    put_u16(out, 68, flow.out_port);
    put_u16(out, 70, flow.flags);
    put_list_at(out, 72, &flow.actions);
}

#[tactic(auto, unfolding(crate::specs::Spelling::body_bytes))]
fn put_port_mod(out: &mut [u8], port: &PortMod)
    requires { length out.old ≡ 32 }
    ensures { out.new ≡ take 8 out.old ++ body_bytes (Message.PortMod port.now) }
{
    put_u16(out, 8, port.port_no);
    put_array(out, 10, &port.hw_addr);
    put_u32(out, 16, port.config);
    put_u32(out, 20, port.mask);
    put_u32(out, 24, port.advertise);
    put_array(out, 28, &[0; 4]);
}

#[tactic(auto, unfolding(crate::specs::Spelling::message_size, crate::specs::Spelling::body_bytes))]
fn put_stats(out: &mut [u8], stats: &Stats)
    requires { length out.old ≡ message_size (Message.StatsRequest stats.now) }
    ensures { out.new ≡ take 8 out.old ++ body_bytes (Message.StatsRequest stats.now) }
{
    put_u16(out, 8, stats.kind);
    put_u16(out, 10, stats.flags);
    put_bytes(out, 12, stats.body.as_slice());
}

/// The bytes behind the header.
#[tactic(auto, unfolding(crate::specs::Spelling::message_size, crate::specs::Spelling::body_bytes))]
fn put_body(out: &mut [u8], message: &Message)
    requires size { length out.old ≡ message_size message.now }
    requires fits { length out.old < 2 ^ 16 }
    ensures { out.new ≡ take 8 out.old ++ body_bytes message.now }
{
    match message {
        Message::Hello { payload }
        | Message::EchoRequest { payload }
        | Message::EchoReply { payload }
        | Message::Vendor { payload }
        | Message::QueueGetConfigRequest { payload }
        | Message::QueueGetConfigReply { payload } => put_payload(out, payload.as_slice()),
        Message::Error {
            kind,
            code,
            payload,
        } => put_error(out, *kind, *code, payload),
        Message::FeaturesReply(features) => put_features(out, features),
        Message::GetConfigReply(config) | Message::SetConfig(config) => put_config(out, *config),
        Message::PacketIn(packet) => put_packet_in(out, packet),
        Message::FlowRemoved(flow) => put_flow_removed(out, flow),
        Message::PortStatus(status) => put_port_status(out, status),
        Message::PacketOut(packet) => put_packet_out(out, packet),
        Message::FlowMod(flow) => put_flow_mod(out, flow),
        Message::PortMod(port) => put_port_mod(out, port),
        Message::StatsRequest(stats) | Message::StatsReply(stats) => put_stats(out, stats),
        Message::FeaturesRequest
        | Message::GetConfigRequest
        | Message::BarrierRequest
        | Message::BarrierReply => {}
    }
}

/// Counts the bytes that the message takes, its header included; the type's greatest value where they are more.
/// Takes no memory.
#[tactic(auto, unfolding(crate::specs::Spelling::message_size))]
pub fn size(message: &Message) -> usize
    ensures { result ≡ min (message_size message.now) (2 ^ 64 - 1) }
{
    match message {
        Message::Hello { payload }
        | Message::EchoRequest { payload }
        | Message::EchoReply { payload }
        | Message::Vendor { payload }
        | Message::QueueGetConfigRequest { payload }
        | Message::QueueGetConfigReply { payload } => payload.len().saturating_add(8),
        Message::Error { payload, .. } => payload.len().saturating_add(12),
        Message::FeaturesReply(features) => features
            .ports
            .len()
            .saturating_mul(48)
            .saturating_add(32),
        Message::PacketIn(packet) => packet.payload.len().saturating_add(18),
        Message::FlowRemoved(_) => 88,
        Message::PortStatus(_) => 64,
        Message::PacketOut(packet) => {
            let actions_len = size_of_list(&packet.actions);
            actions_len
                .saturating_add(packet.payload.len())
                .saturating_add(16)
        }
        Message::FlowMod(flow) => size_of_list(&flow.actions).saturating_add(72),
        Message::PortMod(_) => 32,
        Message::StatsRequest(stats) | Message::StatsReply(stats) => stats
            .body
            .len()
            .saturating_add(12),
        Message::GetConfigReply(_) | Message::SetConfig(_) => 12,
        Message::FeaturesRequest
        | Message::GetConfigRequest
        | Message::BarrierRequest
        | Message::BarrierReply => 8,
    }
}

/// Writes the message, of at most 65,535 bytes, over all of `out`, which has its size. Takes no memory.
#[tactic(auto, unfolding(crate::specs::Spelling::message_bytes))]
pub fn encode_into(xid: Xid, message: &Message, out: &mut [u8])
    requires fits { message_size message.now ≤ 65535 }
    requires size { length out.old ≡ message_size message.now }
    ensures { out.new ≡ message_bytes xid message.now }
{
    put_header(out, message.kind(), xid);
    put_body(out, message);
}

/// Writes the message, of at most 65,535 bytes, in its one spelling. `AllocError` where there is no memory for it.
pub fn encode(alloc: Global, xid: Xid, message: &Message) -> Result<ByteList, AllocError>
    requires { message_size message.now ≤ 65535 }
    ensures { IfOk result (λ bytes. bytes ≡ message_bytes xid message.now) }
{
    let mut bytes = vec![in alloc; 0; size(message)]?;
    encode_into(xid, message, &mut bytes);
    Ok(ByteList::from_vec(bytes))
}
