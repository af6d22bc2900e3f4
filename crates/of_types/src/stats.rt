//! The types and flags of statistics (OpenFlow 1.0.0, 5.3.5 Read State Messages).

/// What the switch is.
pub const DESC: u16 = 0;
/// Flows, one by one.
pub const FLOW: u16 = 1;
/// Flows, summed up.
pub const AGGREGATE: u16 = 2;
/// Tables.
pub const TABLE: u16 = 3;
/// Ports.
pub const PORT: u16 = 4;

/// The flag of a reply that more parts follow.
pub const MORE: u16 = 1;
