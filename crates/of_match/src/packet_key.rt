//! The fields of a packet.

/// The twelve fields of a packet that matches are held against (OpenFlow 1.0.0, 3.4 Matching).
#[derive(Clone, Copy, Debug, PartialEq, Eq)]
pub struct PacketKey {
    /// The port that the packet came in by.
    pub in_port: u16,
    /// The Ethernet source address.
    pub dl_src: [u8; 6],
    /// The Ethernet destination address.
    pub dl_dst: [u8; 6],
    /// The VLAN identifier; 0xffff where the packet has none.
    pub dl_vlan: u16,
    /// The VLAN priority.
    pub dl_vlan_pcp: u8,
    /// The Ethernet frame type.
    pub dl_type: u16,
    /// The IP type of service.
    pub nw_tos: u8,
    /// The IP protocol, or the low byte of an ARP operation.
    pub nw_proto: u8,
    /// The IP source address.
    pub nw_src: u32,
    /// The IP destination address.
    pub nw_dst: u32,
    /// The TCP or UDP source port, or the ICMP type.
    pub tp_src: u16,
    /// The TCP or UDP destination port, or the ICMP code.
    pub tp_dst: u16,
}
