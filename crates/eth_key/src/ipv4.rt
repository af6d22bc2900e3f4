//! The IPv4 header in a frame, and what kind of datagram it heads.

ghost use Rattle.std.specs.Prelude.{◌≡◌, ◌+◌, ◌≤◌, length, IfSome, IsTrue};
ghost use Rattle.eth_key.specs.Ipv4.{IsWithin, header_at, has_icmp, has_ports, ipv4_header, is_fragment, is_header, protocol};

use crate::ethernet::payload_of;
use of_types::{get_u8, get_u16};

/// The type of a frame that holds an IPv4 datagram (RFC 894).
pub(crate) const IPV4: u16 = 0x0800;

/// The least bytes of a header (RFC 791, 3.1).
const MIN_HEADER_LEN: usize = 20;

/// The bits of the flags and the offset that tell a fragment: more fragments, and the offset.
const FRAGMENT: u16 = 0x3fff;

/// The protocol number of ICMP (RFC 790).
const ICMP: u8 = 1;

/// The protocol number of TCP (RFC 790).
pub const TCP: u8 = 6;

/// The protocol number of UDP (RFC 790).
pub const UDP: u8 = 17;

/// Where an IPv4 header stands in a frame (RFC 791, 3.1).
#[derive(Clone, Copy, Debug, PartialEq, Eq)]
pub struct Ipv4Header {
    /// The offset of its first byte.
    pub start: usize,
    /// The offset behind its last byte, options among them.
    pub end: usize,
}

#[tactic(auto, unfolding(crate::specs::Ipv4::header_at, crate::specs::Ipv4::is_header))]
pub(crate) fn header_at(frame: &[u8], start: usize) -> Option<Ipv4Header>
    requires { start ≤ length frame.now }
    ensures value { result ≡ header_at start frame.now }
    ensures within { IfSome result (λ header. IsWithin header frame.now) }
{
    let room = frame.len() - start;
    if room < MIN_HEADER_LEN {
        return None;
    }
    let first = get_u8(frame, start);
    let len = 4 * (first & 0x0f) as usize;
    if first >> 4 == 4 && len >= MIN_HEADER_LEN && len <= room {
        Some(Ipv4Header {
            start,
            end: start + len,
        })
    } else {
        None
    }
}

/// Finds the IPv4 header that the frame has: its payload is of the type 0x0800, and begins with a whole
/// header of version 4 and at least 20 bytes.
pub fn ipv4_header(frame: &[u8]) -> Option<Ipv4Header>
    ensures value { result ≡ ipv4_header frame.now }
    ensures within { IfSome result (λ header. IsWithin header frame.now) }
{
    let payload = payload_of(frame)?;
    if payload.dl_type == IPV4 {
        header_at(frame, payload.start)
    } else {
        None
    }
}

/// Reads the number of the protocol behind the header.
pub fn protocol(frame: &[u8], header: &Ipv4Header) -> u8
    requires { IsWithin header.now frame.now }
    ensures { result ≡ protocol header.now frame.now }
{
    get_u8(frame, header.start + 9)
}

/// Tells whether the datagram is a fragment: more follow, or it is not the first.
#[tactic(auto, unfolding(crate::specs::Ipv4::is_fragment))]
pub fn is_fragment(frame: &[u8], header: &Ipv4Header) -> bool
    requires { IsWithin header.now frame.now }
    ensures { result ≡ is_fragment header.now frame.now }
{
    get_u16(frame, header.start + 6) & FRAGMENT != 0
}

/// Tells whether the datagram is no fragment, and has the ports of TCP or UDP, which stand where the header
/// ends (RFC 793, 3.1; RFC 768).
#[tactic(auto, unfolding(crate::specs::Ipv4::has_ports))]
pub fn has_ports(frame: &[u8], header: &Ipv4Header) -> bool
    requires { IsWithin header.now frame.now }
    ensures value { result ≡ has_ports header.now frame.now }
    ensures within { IsTrue result → header.now.end + 4 ≤ length frame.now }
{
    let protocol = protocol(frame, header);
    !is_fragment(frame, header)
        && (protocol == TCP || protocol == UDP)
        && frame.len() - header.end >= 4
}

#[tactic(auto, unfolding(crate::specs::Ipv4::has_icmp))]
pub(crate) fn has_icmp(frame: &[u8], header: &Ipv4Header) -> bool
    requires { IsWithin header.now frame.now }
    ensures value { result ≡ has_icmp header.now frame.now }
    ensures within { IsTrue result → header.now.end + 2 ≤ length frame.now }
{
    !is_fragment(frame, header) && protocol(frame, header) == ICMP && frame.len() - header.end >= 2
}
