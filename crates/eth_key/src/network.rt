//! The fields of the layers above Ethernet.

ghost use Rattle.std.specs.Prelude.{◌≡◌, ◌≤◌, length};
ghost use Rattle.eth_key.specs.Ipv4.{IsWithin};
ghost use Rattle.eth_key.specs.PacketFields.{ports_of, ipv4_fields, arp_network, network_in};

use crate::ethernet::Payload;
use crate::ipv4::{IPV4, Ipv4Header, has_icmp, has_ports, header_at, protocol};
use of_types::{get_u8, get_u16, get_u32};

/// The type of a frame that holds an ARP packet (RFC 826).
const ARP: u16 = 0x0806;

/// The bytes of an ARP packet between Ethernet and IPv4 addresses (RFC 826, Packet format).
const ARP_LEN: usize = 28;

/// The ports of TCP and UDP, or the type and code of ICMP; 0 where there are none.
#[derive(Clone, Copy)]
pub(crate) struct Ports {
    pub(crate) tp_src: u16,
    pub(crate) tp_dst: u16,
}

/// The fields above Ethernet; 0 where there are none.
#[derive(Clone, Copy)]
pub(crate) struct Network {
    pub(crate) nw_tos: u8,
    pub(crate) nw_proto: u8,
    pub(crate) nw_src: u32,
    pub(crate) nw_dst: u32,
    pub(crate) ports: Ports,
}

const NO_PORTS: Ports = Ports {
    tp_src: 0,
    tp_dst: 0,
};

const NO_NETWORK: Network = Network {
    nw_tos: 0,
    nw_proto: 0,
    nw_src: 0,
    nw_dst: 0,
    ports: NO_PORTS,
};

#[tactic(auto, unfolding(crate::specs::PacketFields::ports_of))]
fn ports_of(frame: &[u8], header: &Ipv4Header) -> Ports
    requires { IsWithin header.now frame.now }
    ensures { result ≡ ports_of header.now frame.now }
{
    let at = header.end;
    if has_ports(frame, header) {
        Ports {
            tp_src: get_u16(frame, at),
            tp_dst: get_u16(frame, at + 2),
        }
    } else if has_icmp(frame, header) {
        Ports {
            tp_src: u16::from(get_u8(frame, at)),
            tp_dst: u16::from(get_u8(frame, at + 1)),
        }
    } else {
        NO_PORTS
    }
}

#[tactic(auto, unfolding(crate::specs::PacketFields::ipv4_fields))]
fn ipv4_fields(frame: &[u8], header: &Ipv4Header) -> Network
    requires { IsWithin header.now frame.now }
    ensures { result ≡ ipv4_fields header.now frame.now }
{
    Network {
        nw_tos: get_u8(frame, header.start + 1) & 0xfc,
        nw_proto: protocol(frame, header),
        nw_src: get_u32(frame, header.start + 12),
        nw_dst: get_u32(frame, header.start + 16),
        ports: ports_of(frame, header),
    }
}

#[tactic(auto, unfolding(crate::specs::PacketFields::arp_network))]
fn arp_network(frame: &[u8], start: usize) -> Network
    requires { start ≤ length frame.now }
    ensures { result ≡ arp_network start frame.now }
{
    if frame.len() - start < ARP_LEN {
        return NO_NETWORK;
    }
    Network {
        nw_proto: get_u8(frame, start + 7),
        nw_src: get_u32(frame, start + 14),
        nw_dst: get_u32(frame, start + 24),
        ..NO_NETWORK
    }
}

#[tactic(auto, unfolding(crate::specs::PacketFields::network_in))]
pub(crate) fn network_in(frame: &[u8], payload: Payload) -> Network
    requires { payload.start ≤ length frame.now }
    ensures { result ≡ network_in payload frame.now }
{
    match payload.dl_type {
        IPV4 => match header_at(frame, payload.start) {
            Some(header) => ipv4_fields(frame, &header),
            None => NO_NETWORK,
        },
        ARP => arp_network(frame, payload.start),
        _ => NO_NETWORK,
    }
}
