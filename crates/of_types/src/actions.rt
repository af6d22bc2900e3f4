//! The types of actions (OpenFlow 1.0.0, 5.2.4 Flow Action Structures).

/// Output to a port.
pub const OUTPUT: u16 = 0;
/// Set the VLAN's number.
pub const SET_VLAN_VID: u16 = 1;
/// Set the VLAN's priority.
pub const SET_VLAN_PCP: u16 = 2;
/// Remove the VLAN tag.
pub const STRIP_VLAN: u16 = 3;
/// Set the Ethernet source address.
pub const SET_DL_SRC: u16 = 4;
/// Set the Ethernet destination address.
pub const SET_DL_DST: u16 = 5;
/// Set the IP source address.
pub const SET_NW_SRC: u16 = 6;
/// Set the IP destination address.
pub const SET_NW_DST: u16 = 7;
/// Set the IP type of service.
pub const SET_NW_TOS: u16 = 8;
/// Set the TCP or UDP source port.
pub const SET_TP_SRC: u16 = 9;
/// Set the TCP or UDP destination port.
pub const SET_TP_DST: u16 = 10;
/// Output through a port's queue.
pub const ENQUEUE: u16 = 11;
/// An action of a vendor's own.
pub const VENDOR: u16 = 0xffff;
