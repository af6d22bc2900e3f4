//! Statistics of one flow.

use of_action::ActionList;
use of_match::Key;

/// A flow and its counts: 88 bytes and the actions (OpenFlow 1.0.0, 5.3.5 Read State Messages: Individual Flow
/// Statistics).
///
/// `table_id` and `duration_nsec` are not kept: any are read, and both are written 0.
#[derive(Drop, Debug, Clone, PartialEq, Eq)]
pub struct FlowRow {
    /// The flow's priority and match.
    pub key: Key,
    /// How long the flow has stood, in whole seconds.
    pub duration_sec: u32,
    /// Seconds without a packet until it goes, 0 for none.
    pub idle: u16,
    /// Seconds until it goes, 0 for none.
    pub hard: u16,
    /// The number that the controller gave the flow.
    pub cookie: u64,
    /// How many packets it counted.
    pub packets: u64,
    /// How many bytes it counted.
    pub bytes: u64,
    /// What is done to its packets.
    pub actions: ActionList,
}
