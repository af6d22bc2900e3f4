//! The kinds of packed records.

use of_types::PortChange;

/// What a packed step is; the bytes of `Bytes` are those of the record.
#[derive(Clone, Copy, Debug, PartialEq, Eq)]
pub(crate) enum StepKind {
    Bytes,
    Closed,
    Silent,
}

/// What a packed stimulus is. Its numbers stand in the record, and the bytes of a frame or a message behind them.
#[derive(Clone, Copy, Debug, PartialEq, Eq)]
pub(crate) enum StimulusKind {
    /// A datapath id.
    Join,
    /// A datapath id.
    Leave,
    /// A moment of 32 bits.
    At,
    /// A moment of 64 bits.
    LateAt,
    /// A datapath id, a port, and the frame's bytes.
    Frame,
    /// A datapath id and a moment.
    Advance,
    /// A datapath id and a port.
    Port(PortChange),
    /// A datapath id, a priority, and counts of packets and of bytes.
    Counts,
    /// A datapath id, and the message's bytes.
    Raw,
}
