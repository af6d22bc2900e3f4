//! What the actions of a flow make of a frame.
//!
//! `apply` gives for each OUTPUT its port and the frame as edited so far; it writes VLAN tags, addresses, types of
//! service and ports, and computes the IPv4, TCP and UDP checksums anew. Laws: `laws_of_checksums` (what is computed anew
//! verifies), `laws_of_edits` (bytes outside the field and the checksums stay). See docs/PACKETS.md.
#![tactic(auto)]

mod applying;
mod checksum;
mod datagram;
mod fields;
mod laws;
mod outputs;
mod tag;

pub use applying::{Edited, apply};
pub use laws::{laws_of_checksums, laws_of_edits};
pub use outputs::OutList;
