//! A port as a switch describes it.

/// A port's description: 48 bytes on the wire (OpenFlow 1.0.0, 5.2.1 Port Structures).
#[derive(Clone, Copy, Debug, PartialEq, Eq)]
pub struct PortDesc {
    /// The port's number: 1 to 65,280 for a physical port.
    pub port_no: u16,
    /// Its Ethernet address.
    pub hw_addr: [u8; 6],
    /// Its name in ASCII, padded with zero bytes.
    pub name: [u8; 16],
    /// Bits that the controller sets: PORT_DOWN, NO_STP, NO_RECV, NO_RECV_STP, NO_FLOOD, NO_FWD, NO_PACKET_IN.
    pub config: u32,
    /// Bits that the switch sets: LINK_DOWN and those of 802.1D.
    pub state: u32,
    /// Bits of the features in use.
    pub curr: u32,
    /// Bits of the features that the port advertises.
    pub advertised: u32,
    /// Bits of the features that the port has.
    pub supported: u32,
    /// Bits of the features that the peer advertises.
    pub peer: u32,
}
