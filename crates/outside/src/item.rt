//! What comes next, and what an application gave.

use of_types::Dpid;

/// What comes next. A `usize` is how many bytes of the buffer were filled.
#[derive(Clone, Copy, Debug, PartialEq, Eq)]
pub enum Item {
    /// One message came from the switch.
    From(Dpid, usize),
    /// The switch joined; the bytes are its FEATURES_REPLY.
    Joined(Dpid, usize),
    /// The switch left.
    Left(Dpid),
    /// The moment is this one, in seconds from the start.
    Moment(u64),
    /// Nothing waits now.
    Idle,
    /// Nothing comes any more.
    End,
}

/// What was taken from an application.
#[derive(Clone, Copy, Debug, PartialEq, Eq)]
pub enum Taken {
    /// So many bytes, at least one.
    Some(usize),
    /// It has closed its end.
    Closed,
    /// It gave nothing in time.
    Silent,
}
