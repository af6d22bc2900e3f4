//! Names of the standard for its numbers, each without what its group begins with, as `OFPFC_` (OpenFlow 1.0.0, 5).

use crate::values::{Bits, Named};
use of_types::{flows, ports, stats};
use of_wire::MessageKind;

/// A message's type (5.1 OpenFlow Header).
pub(crate) fn kind_name(kind: MessageKind) -> &'static str {
    match kind {
        MessageKind::Hello => "HELLO",
        MessageKind::Error => "ERROR",
        MessageKind::EchoRequest => "ECHO_REQUEST",
        MessageKind::EchoReply => "ECHO_REPLY",
        MessageKind::Vendor => "VENDOR",
        MessageKind::FeaturesRequest => "FEATURES_REQUEST",
        MessageKind::FeaturesReply => "FEATURES_REPLY",
        MessageKind::GetConfigRequest => "GET_CONFIG_REQUEST",
        MessageKind::GetConfigReply => "GET_CONFIG_REPLY",
        MessageKind::SetConfig => "SET_CONFIG",
        MessageKind::PacketIn => "PACKET_IN",
        MessageKind::FlowRemoved => "FLOW_REMOVED",
        MessageKind::PortStatus => "PORT_STATUS",
        MessageKind::PacketOut => "PACKET_OUT",
        MessageKind::FlowMod => "FLOW_MOD",
        MessageKind::PortMod => "PORT_MOD",
        MessageKind::StatsRequest => "STATS_REQUEST",
        MessageKind::StatsReply => "STATS_REPLY",
        MessageKind::BarrierRequest => "BARRIER_REQUEST",
        MessageKind::BarrierReply => "BARRIER_REPLY",
        MessageKind::QueueGetConfigRequest => "QUEUE_GET_CONFIG_REQUEST",
        MessageKind::QueueGetConfigReply => "QUEUE_GET_CONFIG_REPLY",
    }
}

fn command_name(number: u16) -> Option<&'static str> {
    Some(match number {
        flows::ADD => "ADD",
        flows::MODIFY => "MODIFY",
        flows::MODIFY_STRICT => "MODIFY_STRICT",
        flows::DELETE => "DELETE",
        flows::DELETE_STRICT => "DELETE_STRICT",
        _ => return None,
    })
}

/// A FLOW_MOD's command (5.3.3 Modify State Messages).
pub(crate) fn command(number: u16) -> Named {
    Named {
        name: command_name(number),
        number: u64::from(number),
    }
}

fn packet_in_name(number: u8) -> Option<&'static str> {
    match number {
        flows::NO_MATCH => Some("NO_MATCH"),
        flows::ACTION => Some("ACTION"),
        _ => None,
    }
}

/// A PACKET_IN's reason (5.4.1 Packet-In Message).
pub(crate) fn packet_in_reason(number: u8) -> Named {
    Named {
        name: packet_in_name(number),
        number: u64::from(number),
    }
}

fn flow_removed_name(number: u8) -> Option<&'static str> {
    match number {
        flows::IDLE_TIMEOUT => Some("IDLE_TIMEOUT"),
        flows::HARD_TIMEOUT => Some("HARD_TIMEOUT"),
        flows::DELETED => Some("DELETE"),
        _ => None,
    }
}

/// A FLOW_REMOVED's reason (5.4.2 Flow Removed Message).
pub(crate) fn flow_removed_reason(number: u8) -> Named {
    Named {
        name: flow_removed_name(number),
        number: u64::from(number),
    }
}

fn port_status_name(number: u8) -> Option<&'static str> {
    match number {
        ports::ADD => Some("ADD"),
        ports::DELETE => Some("DELETE"),
        ports::MODIFY => Some("MODIFY"),
        _ => None,
    }
}

/// A PORT_STATUS's reason (5.4.3 Port Status Message).
pub(crate) fn port_status_reason(number: u8) -> Named {
    Named {
        name: port_status_name(number),
        number: u64::from(number),
    }
}

fn statistics_name(number: u16) -> Option<&'static str> {
    Some(match number {
        stats::DESC => "DESC",
        stats::FLOW => "FLOW",
        stats::AGGREGATE => "AGGREGATE",
        stats::TABLE => "TABLE",
        stats::PORT => "PORT",
        5 => "QUEUE",
        0xffff => "VENDOR",
        _ => return None,
    })
}

/// A type of statistics (5.3.5 Read State Messages).
pub(crate) fn statistics(number: u16) -> Named {
    Named {
        name: statistics_name(number),
        number: u64::from(number),
    }
}

/// A FLOW_MOD's flags (5.3.3 Modify State Messages).
pub(crate) fn flow_flags(bits: u16) -> Bits {
    Bits {
        bits: u32::from(bits),
        names: &["SEND_FLOW_REM", "CHECK_OVERLAP", "EMERG"],
    }
}

/// What a switch can (5.3.1 Handshake).
pub(crate) fn capabilities(bits: u32) -> Bits {
    Bits {
        bits,
        names: &[
            "FLOW_STATS",
            "TABLE_STATS",
            "PORT_STATS",
            "STP",
            "RESERVED",
            "IP_REASM",
            "QUEUE_STATS",
            "ARP_MATCH_IP",
        ],
    }
}

/// A port's config (5.2.1 Port Structures).
pub(crate) fn port_config(bits: u32) -> Bits {
    Bits {
        bits,
        names: &[
            "PORT_DOWN",
            "NO_STP",
            "NO_RECV",
            "NO_RECV_STP",
            "NO_FLOOD",
            "NO_FWD",
            "NO_PACKET_IN",
        ],
    }
}

/// A port's state, of which those of 802.1D are told as a number (5.2.1 Port Structures).
pub(crate) fn port_state(bits: u32) -> Bits {
    Bits {
        bits,
        names: &["LINK_DOWN"],
    }
}
