//! Messages in words.

use crate::actions::ActionWords;
use crate::errors::ErrorWords;
use crate::names::{
    capabilities, command, flow_flags, flow_removed_reason, kind_name, packet_in_reason,
    port_config, port_state, port_status_reason, statistics,
};
use crate::values::{Ethernet, port};
use of_match::{Match, text};
use of_types::flows::NO_BUFFER;
use of_types::{ByteList, OfError, get_array, ports, stats};
use of_wire::{
    FeaturesReply, FlowMod, FlowRemoved, Message, PacketIn, PacketOut, PortList, PortMod,
    PortStatus, Stats, SwitchConfig, WireFault, decode,
};
use std::alloc::Global;
use std::fmt;

/// Bytes that are to be a message, in words: the message, or why they are none.
#[derive(Clone, Copy)]
pub struct MessageWords<'a> {
    /// Where the message is read to.
    pub alloc: Global,
    /// All bytes of one message.
    pub bytes: &'a [u8],
}

impl fmt::Display for MessageWords<'_> {
    fn fmt<W: fmt::Write>(&self, f: &mut fmt::Formatter<W>) -> fmt::Result {
        match decode(self.alloc, self.bytes) {
            Ok(envelope) => {
                let name = kind_name(envelope.message.kind());
                let xid = envelope.xid;
                write!(f, "{name} xid={xid}")?;
                put_body(f, self.alloc, &envelope.message)
            }
            Err(WireFault::NoMemory) => Err(fmt::Error),
            Err(fault) => {
                let count = self.bytes.len();
                write!(f, "{count} bytes that are no message: {fault:?}")
            }
        }
    }
}

/// What a message says behind its type and its xid, each with a space in front.
fn put_body<W: fmt::Write>(
    f: &mut fmt::Formatter<W>,
    alloc: Global,
    message: &Message,
) -> fmt::Result {
    match message {
        Message::Hello { payload } => put_count(f, payload),
        Message::Error { kind, code, .. } => put_error(f, *kind, *code),
        Message::EchoRequest { payload } => put_count(f, payload),
        Message::EchoReply { payload } => put_count(f, payload),
        Message::Vendor { payload } => put_count(f, payload),
        Message::FeaturesReply(features) => put_features(f, features),
        Message::GetConfigReply(config) => put_config(f, *config),
        Message::SetConfig(config) => put_config(f, *config),
        Message::PacketIn(packet) => put_packet_in(f, packet),
        Message::FlowRemoved(removed) => put_flow_removed(f, alloc, removed),
        Message::PortStatus(status) => put_port_status(f, status),
        Message::PacketOut(packet) => put_packet_out(f, packet),
        Message::FlowMod(change) => put_flow_mod(f, alloc, change),
        Message::PortMod(change) => put_port_mod(f, change),
        Message::StatsRequest(asked) => put_stats_request(f, alloc, asked),
        Message::StatsReply(told) => put_stats_reply(f, told),
        Message::QueueGetConfigRequest { payload } => put_count(f, payload),
        Message::QueueGetConfigReply { payload } => put_count(f, payload),
        _ => Ok(()),
    }
}

fn put_count<W: fmt::Write>(f: &mut fmt::Formatter<W>, payload: &ByteList) -> fmt::Result {
    let count = payload.len();
    write!(f, " bytes={count}")
}

fn put_error<W: fmt::Write>(f: &mut fmt::Formatter<W>, kind: u16, code: u16) -> fmt::Result {
    let error = ErrorWords(OfError { kind, code });
    write!(f, " {error}")
}

fn put_features<W: fmt::Write>(f: &mut fmt::Formatter<W>, features: &FeaturesReply) -> fmt::Result {
    let dpid = features.dpid;
    let (buffers, tables) = (features.n_buffers, features.n_tables);
    write!(f, " dpid={dpid} buffers={buffers} tables={tables}")?;
    let can = capabilities(features.capabilities);
    write!(f, " capabilities={can} ports=")?;
    put_ports(f, &features.ports)
}

/// The numbers of ports, joined by commas; `-` for none.
fn put_ports<W: fmt::Write>(f: &mut fmt::Formatter<W>, list: &PortList) -> fmt::Result {
    if list.is_empty() {
        return f.write_str("-");
    }
    for (place, description) in list.as_slice().iter().enumerate() {
        if place > 0 {
            f.write_str(",")?;
        }
        let number = port(description.port_no);
        write!(f, "{number}")?;
    }
    Ok(())
}

fn put_config<W: fmt::Write>(f: &mut fmt::Formatter<W>, config: SwitchConfig) -> fmt::Result {
    let (flags, most) = (config.flags, config.miss_send_len);
    write!(f, " flags={flags} miss_send_len={most}")
}

/// Where a switch keeps the packet, by its number.
fn put_buffer<W: fmt::Write>(f: &mut fmt::Formatter<W>, buffer: u32) -> fmt::Result {
    if buffer == NO_BUFFER {
        Ok(())
    } else {
        write!(f, " buffer={buffer}")
    }
}

/// How many bytes of the packet are there, and of how many in all where that is another number.
fn put_packet_in<W: fmt::Write>(f: &mut fmt::Formatter<W>, packet: &PacketIn) -> fmt::Result {
    let in_port = port(packet.in_port);
    let reason = packet_in_reason(packet.reason);
    let count = packet.payload.len();
    write!(f, " in_port={in_port} reason={reason} bytes={count}")?;
    let total = packet.total_len;
    if usize::from(total) != count {
        write!(f, " of={total}")?;
    }
    put_buffer(f, packet.buffer_id)
}

fn put_match<W: fmt::Write>(
    f: &mut fmt::Formatter<W>,
    alloc: Global,
    matching: &Match,
) -> fmt::Result {
    let matching = text(alloc, matching)?;
    write!(f, " {matching}")
}

fn put_flow_removed<W: fmt::Write>(
    f: &mut fmt::Formatter<W>,
    alloc: Global,
    removed: &FlowRemoved,
) -> fmt::Result {
    let reason = flow_removed_reason(removed.reason);
    write!(f, " {reason}")?;
    put_match(f, alloc, &removed.matching)?;
    let (priority, cookie, idle) = (removed.priority, removed.cookie, removed.idle_timeout);
    write!(f, " priority={priority} idle={idle} cookie={cookie}")?;
    let (age, packets, bytes) = (
        removed.duration_sec,
        removed.packet_count,
        removed.byte_count,
    );
    write!(f, " age={age} packets={packets} bytes={bytes}")
}

fn put_port_status<W: fmt::Write>(f: &mut fmt::Formatter<W>, status: &PortStatus) -> fmt::Result {
    let reason = port_status_reason(status.reason);
    let number = port(status.port.port_no);
    write!(f, " {reason} port={number}")?;
    let config = port_config(status.port.config);
    let state = port_state(status.port.state);
    write!(f, " config={config} state={state}")
}

fn put_packet_out<W: fmt::Write>(f: &mut fmt::Formatter<W>, packet: &PacketOut) -> fmt::Result {
    let in_port = port(packet.in_port);
    let count = packet.payload.len();
    write!(f, " in_port={in_port} bytes={count}")?;
    put_buffer(f, packet.buffer_id)?;
    let actions = ActionWords(&packet.actions);
    write!(f, " out: {actions}")
}

/// The port of the flows that a DELETE means, where it does not mean all.
fn put_out_port<W: fmt::Write>(f: &mut fmt::Formatter<W>, out_port: u16) -> fmt::Result {
    if out_port == ports::NONE {
        return Ok(());
    }
    let out_port = port(out_port);
    write!(f, " out_port={out_port}")
}

fn put_flow_mod<W: fmt::Write>(
    f: &mut fmt::Formatter<W>,
    alloc: Global,
    change: &FlowMod,
) -> fmt::Result {
    let command = command(change.command);
    write!(f, " {command}")?;
    put_match(f, alloc, &change.matching)?;
    put_terms(f, change)?;
    put_buffer(f, change.buffer_id)?;
    put_out_port(f, change.out_port)?;
    let actions = ActionWords(&change.actions);
    write!(f, " out: {actions}")
}

/// What a flow is, beside its match and its actions. Timeouts are in seconds.
fn put_terms<W: fmt::Write>(f: &mut fmt::Formatter<W>, change: &FlowMod) -> fmt::Result {
    let (priority, idle, hard) = (change.priority, change.idle, change.hard);
    write!(f, " priority={priority} idle={idle} hard={hard}")?;
    let cookie = change.cookie;
    let flags = flow_flags(change.flags);
    write!(f, " cookie={cookie} flags={flags}")
}

fn put_port_mod<W: fmt::Write>(f: &mut fmt::Formatter<W>, change: &PortMod) -> fmt::Result {
    let number = port(change.port_no);
    let address = Ethernet(change.hw_addr);
    write!(f, " port={number} hw_addr={address}")?;
    let config = port_config(change.config);
    let mask = port_config(change.mask);
    write!(f, " config={config} mask={mask}")
}

/// The match of flows that are asked for; of another body how many bytes it has.
fn put_stats_request<W: fmt::Write>(
    f: &mut fmt::Formatter<W>,
    alloc: Global,
    asked: &Stats,
) -> fmt::Result {
    let kind = statistics(asked.kind);
    write!(f, " {kind}")?;
    let body = asked.body.as_slice();
    if matches!(asked.kind, stats::FLOW | stats::AGGREGATE) && body.len() == 44 {
        put_match(f, alloc, &Match::decode(&get_array(body, 0)))
    } else {
        put_count(f, &asked.body)
    }
}

/// How many bytes a part of a reply has, and whether more parts follow.
fn put_stats_reply<W: fmt::Write>(f: &mut fmt::Formatter<W>, told: &Stats) -> fmt::Result {
    let kind = statistics(told.kind);
    write!(f, " {kind}")?;
    put_count(f, &told.body)?;
    if told.flags & stats::MORE != 0 {
        f.write_str(" MORE")?;
    }
    Ok(())
}
