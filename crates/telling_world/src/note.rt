//! What is noted of the calls.

use of_types::Dpid;

/// One thing that a call or its answer says. The bytes of a message stand before it, one by one.
#[derive(Clone, Copy, Debug, PartialEq, Eq)]
pub(crate) enum Note {
    /// A byte of what is noted next.
    Byte(u8),
    /// The world was opened.
    Opened,
    /// The world could not be opened.
    Shut,
    /// A message came of a switch.
    From(Dpid),
    /// A switch joined, with this FEATURES_REPLY.
    Joined(Dpid),
    /// A switch left.
    Left(Dpid),
    /// The moment came.
    Moment(u64),
    /// Nothing waits.
    Idle,
    /// Nothing will come.
    End,
    /// What comes next could not be told.
    Untellable,
    /// An application was started.
    Started(u32),
    /// An application did not start.
    NotStarted(u32),
    /// An application was given bytes.
    Gave(u32),
    /// An application was gone as it was to be given bytes.
    Gone(u32),
    /// Bytes were taken of an application, into a buffer of this length.
    Took(u32, usize),
    /// An application had closed.
    Closed(u32, usize),
    /// An application was silent.
    Silent(u32, usize),
    /// An application was ended.
    Ended(u32),
    /// A message was sent to a switch.
    Sent(Dpid),
    /// A message could not be sent to a switch.
    Unsent(Dpid),
    /// A message of a switch was got.
    Got(Dpid),
    /// No message of a switch could be got.
    Unreceived(Dpid),
    /// Memory was wanting.
    Short,
    /// Memory was wanting for a switch.
    ShortOf(Dpid),
}
