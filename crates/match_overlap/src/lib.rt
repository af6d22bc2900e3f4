//! Relations of flow matches: whether one covers all that another covers, whether two cover a packet together, and their
//! meet.
//!
//! `subsumes` (`subsumes`), `overlaps` (`overlaps`) and `meet` (`some`, `covers`) hold of all packet keys; each equals a
//! test of fields (`value`), and visits no packet. Laws: `subsumes_is_an_order`, `overlap_is_symmetric`,
//! `meet_is_greatest_lower_bound`.
#![tactic(auto)]

mod fieldwise;
mod laws;
mod overlapping;
mod relations;

pub use laws::{meet_is_greatest_lower_bound, overlap_is_symmetric, subsumes_is_an_order};
pub use relations::{meet, overlaps, subsumes};
