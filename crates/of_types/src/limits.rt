//! The limits that more than one crate tests or keeps. Those of messages and actions follow from 16 bit
//! length fields (OpenFlow 1.0.0, 5.1 OpenFlow Header and 5.3.5 Read State Messages). The others are our own
//! choice.

/// How many bytes a message has at most, its header included.
pub const MOST_MESSAGE_BYTES: usize = 65_535;

/// How many bytes of rows the body of one STATS_REPLY has at most: a message without its 12 bytes in front.
pub const MOST_PART_BYTES: usize = 65_523;

/// How many bytes the actions of an entry have at most. A row of flow statistics has 88 bytes more, and it
/// fits one STATS_REPLY; each action has a multiple of 8 bytes.
pub const MOST_ACTION_BYTES: usize = 65_432;

/// How many bytes a frame has at least that arrives at a simulated switch: an Ethernet header.
pub const LEAST_FRAME_BYTES: usize = 14;

/// How many bytes a frame has at most that arrives at a simulated switch.
pub const MOST_FRAME_BYTES: usize = 9_216;

/// How many ports a simulated switch has at most.
pub const MOST_PORTS: usize = 64;

/// How many entries the table of a simulated switch takes at most.
pub const MOST_ENTRIES: u32 = 4_096;

/// How many rounds a run has at most; a round is a batch and the events that wait then.
pub const MOST_ROUNDS: u64 = 1_000_000_000;

/// How many frames an application may take for a turn, where nothing else is said.
pub const BUDGET: u32 = 1_000;
