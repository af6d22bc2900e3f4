//! The steps of a history.

use of_types::{Act, ByteList, Dpid, TookWhat};

/// One step of what happened between the engine and a world: an act of the journal, an item told, or a call that
/// failed. A call that answered `Short` is no step.
#[derive(Drop, Debug, Clone, PartialEq, Eq)]
pub enum WorldStep {
    /// An act of the journal, but a `Took` or a `Lost`. A `Got` here came by `recv`, and a `Stim` stands where `next` began
    /// it.
    Acted(Act),
    /// `take` from the application answered this, into a buffer of so many bytes; the journal has it as `Took`.
    TookInto(u32, TookWhat, usize),
    /// `next` told this message of the switch; the journal has it as `Got`.
    From(Dpid, ByteList),
    /// `next` told that the switch joined, with its FEATURES_REPLY.
    Joined(Dpid, ByteList),
    /// `next` told that the switch left.
    Left(Dpid),
    /// `next` told the moment, in seconds from the start.
    Moment(u64),
    /// `next` told that nothing waits now.
    Idle,
    /// `next` told that nothing comes any more.
    End,
    /// `open` opened the world.
    Opened,
    /// `open` answered `Shut`.
    NotOpened,
    /// `next` answered `Failed`.
    NextFailed,
    /// `send` to the switch answered `Failed` while it was joined, or `part` parted with it; the journal has it as `Lost`.
    SendLost(Dpid),
    /// `recv` from the switch answered `Failed` while it was joined; the journal has it as `Lost`.
    RecvLost(Dpid),
    /// `send` to the switch answered `Failed`, or `part` was called for it, and it was not joined.
    SendFailed(Dpid),
    /// `recv` from the switch answered `Failed`, and it was not joined.
    RecvFailed(Dpid),
}
