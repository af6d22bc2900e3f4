//! The packet key of an Ethernet frame, and where its layers stand.
//!
//! `key_of` is the definition by layers, total and without memory (`value`, `within`): Ethernet with a VLAN tag or SNAP,
//! IPv4 with options and fragments, TCP, UDP, ICMP and ARP. `payload_of`, `ipv4_header`, `protocol`, `is_fragment` and
//! `has_ports` are exact too. See docs/PACKETS.md.
#![tactic(auto)]

mod ethernet;
mod ipv4;
mod key;
mod network;

pub use ethernet::{ETHERNET_LEN, Payload, is_tagged, payload_of};
pub use ipv4::{Ipv4Header, TCP, UDP, has_ports, ipv4_header, is_fragment, protocol};
pub use key::key_of;
