//! What an operator says of a network for the judge against forwarding loops: which field of packets it looks at, and
//! which ports of switches are joined by links.
//!
//! These are plain data, which the policy's reader makes and the judge takes.
#![tactic(auto)]

/// The field of packets by which rows send them to different places.
#[derive(Clone, Copy, Debug, PartialEq, Eq)]
pub enum GuardField {
    /// The Ethernet destination address.
    DlDst,
    /// The IPv4 destination address.
    NwDst,
}

/// A link between two ports, each of them a switch's number and a port's. Packets pass it both ways.
#[derive(Clone, Copy, Debug, PartialEq, Eq)]
pub struct Link {
    /// The one end.
    pub a: (u64, u16),
    /// The other end.
    pub b: (u64, u16),
}

/// What a guard needs to know: the field, and the links.
#[derive(Debug, Drop, PartialEq, Eq)]
pub struct GuardRule {
    /// The field that it looks at.
    pub field: GuardField,
    /// 1 to 64 links; each end stands at most once in all.
    pub links: Vec<Link>,
}
