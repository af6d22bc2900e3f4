//! What a judge refuses tables for.

use crate::found::Found;
use guard_rule::GuardField;

/// What a judge found against the tables of a network.
#[derive(Clone, Copy, Debug, PartialEq, Eq)]
pub enum Refusal {
    /// A table has more entries than the quota.
    Crowded {
        /// The switch.
        dpid: u64,
        /// How many entries its table has.
        count: usize,
        /// The quota.
        most: u32,
    },
    /// A guard found this of the packets that it tells apart by this field.
    Guarded {
        /// The field.
        field: GuardField,
        /// What it found.
        found: Found,
    },
}
