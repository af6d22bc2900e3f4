//! The twelve fields of a match, each any or a value.

/// The fields of a match (OpenFlow 1.0.0, 5.2.3 Flow Match Structures): `None` is any.
///
/// `nw_src` and `nw_dst` are an address and the length of its prefix, 1 to 32.
#[derive(Clone, Copy, Debug, PartialEq, Eq)]
pub struct Fields {
    /// The port that a packet came in by.
    pub in_port: Option<u16>,
    /// The Ethernet source address.
    pub dl_src: Option<[u8; 6]>,
    /// The Ethernet destination address.
    pub dl_dst: Option<[u8; 6]>,
    /// The VLAN identifier; 0xffff where a packet has none.
    pub dl_vlan: Option<u16>,
    /// The VLAN priority.
    pub dl_vlan_pcp: Option<u8>,
    /// The Ethernet frame type.
    pub dl_type: Option<u16>,
    /// The IP type of service.
    pub nw_tos: Option<u8>,
    /// The IP protocol, or the low byte of an ARP operation.
    pub nw_proto: Option<u8>,
    /// The IP source address and its prefix length.
    pub nw_src: Option<(u32, u8)>,
    /// The IP destination address and its prefix length.
    pub nw_dst: Option<(u32, u8)>,
    /// The TCP or UDP source port, or the ICMP type.
    pub tp_src: Option<u16>,
    /// The TCP or UDP destination port, or the ICMP code.
    pub tp_dst: Option<u16>,
}

impl Fields {
    /// Each field is any.
    pub const ANY: Fields = Fields {
        in_port: None,
        dl_src: None,
        dl_dst: None,
        dl_vlan: None,
        dl_vlan_pcp: None,
        dl_type: None,
        nw_tos: None,
        nw_proto: None,
        nw_src: None,
        nw_dst: None,
        tp_src: None,
        tp_dst: None,
    };
}
