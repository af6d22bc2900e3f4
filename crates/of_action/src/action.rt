//! One action.

use crate::opaque::Opaque;
use of_types::PortNo;

/// What a switch does to a packet (OpenFlow 1.0.0, 5.2.4 Flow Action Structures).
#[derive(Drop, Debug, Clone, PartialEq, Eq)]
pub enum Action {
    /// Sends it out by the port; to the controller at most `max_len` bytes of it.
    Output { port: PortNo, max_len: u16 },
    /// Sets the identifier in its VLAN tag, the low 12 bits, and adds a tag where it has none.
    SetVlanVid(u16),
    /// Sets the priority in its VLAN tag, the low 3 bits, and adds a tag where it has none.
    SetVlanPcp(u8),
    /// Removes its VLAN tag.
    StripVlan,
    /// Sets its Ethernet source address.
    SetDlSrc([u8; 6]),
    /// Sets its Ethernet destination address.
    SetDlDst([u8; 6]),
    /// Sets its IPv4 source address.
    SetNwSrc(u32),
    /// Sets its IPv4 destination address.
    SetNwDst(u32),
    /// Sets its IPv4 type of service, the high 6 bits.
    SetNwTos(u8),
    /// Sets its TCP or UDP source port.
    SetTpSrc(u16),
    /// Sets its TCP or UDP destination port.
    SetTpDst(u16),
    /// Sends it out by a queue of the port.
    Enqueue { port: PortNo, queue: u32 },
    /// Does what a vendor says.
    Vendor(Opaque),
}
