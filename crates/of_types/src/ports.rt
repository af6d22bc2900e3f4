//! Numbers and bits of ports (OpenFlow 1.0.0, 5.2.1 Port Structures).

/// The highest number of a physical port; the lowest is 1.
pub const MAX: u16 = 0xff00;
/// Back through the port that the packet came in by.
pub const IN_PORT: u16 = 0xfff8;
/// Through the flow table, in a PACKET_OUT alone.
pub const TABLE: u16 = 0xfff9;
/// As a switch without OpenFlow would forward.
pub const NORMAL: u16 = 0xfffa;
/// All ports but the one that the packet came in by, and those with NO_FLOOD.
pub const FLOOD: u16 = 0xfffb;
/// All ports but the one that the packet came in by.
pub const ALL: u16 = 0xfffc;
/// To the controller.
pub const CONTROLLER: u16 = 0xfffd;
/// The switch's own network stack.
pub const LOCAL: u16 = 0xfffe;
/// No port.
pub const NONE: u16 = 0xffff;

/// Bits of a port's config: the port is set down.
pub const PORT_DOWN: u32 = 0x01;
/// 802.1D spanning tree is disabled.
pub const NO_STP: u32 = 0x02;
/// Packets but those of 802.1D are dropped.
pub const NO_RECV: u32 = 0x04;
/// Packets of 802.1D are dropped.
pub const NO_RECV_STP: u32 = 0x08;
/// Floods leave the port out.
pub const NO_FLOOD: u32 = 0x10;
/// Packets that are to go out by the port are dropped.
pub const NO_FWD: u32 = 0x20;
/// Packets from the port make no PACKET_IN.
pub const NO_PACKET_IN: u32 = 0x40;

/// The bit of a port's state that says that there is no link.
pub const LINK_DOWN: u32 = 0x01;

/// Reasons of a PORT_STATUS (OpenFlow 1.0.0, 5.4.3 Port Status Message): the port was added.
pub const ADD: u8 = 0;
/// The port was removed.
pub const DELETE: u8 = 1;
/// Some attribute of the port has changed.
pub const MODIFY: u8 = 2;
