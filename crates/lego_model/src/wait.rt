//! What is awaited of a switch, and what a message of it is to that wait.

use of_types::{Dpid, OfError, Xid};

/// What is awaited of a switch: the reply to the barrier, and before it answers to the messages that were sent
/// from the first one on.
#[derive(Clone, Copy, Debug, PartialEq, Eq)]
pub struct Awaited {
    /// The switch.
    pub dpid: Dpid,
    /// The transaction id of the first message that may be answered; the barrier's where none is.
    pub first: Xid,
    /// The transaction id of the barrier.
    pub barrier: Xid,
    /// What becomes of notices of entries that were deleted.
    pub notices: Notices,
}

/// What becomes of a notice of an entry that was deleted (FLOW_REMOVED with reason DELETE) which comes in a wait.
#[derive(Clone, Copy, Debug, PartialEq, Eq)]
pub enum Notices {
    /// A change is awaited, and the notice is held with it.
    Held,
    /// The host deletes entries of its own, and the notice is dropped.
    Dropped,
    /// Nothing is awaited that deletes entries, and the notice is kept as any other message.
    Kept,
}

/// An ERROR that answers a message by its transaction id.
#[derive(Clone, Copy, Debug, PartialEq, Eq)]
pub struct Refusal {
    /// The transaction id of the message that is refused.
    pub xid: Xid,
    /// The kind and code of the ERROR.
    pub error: OfError,
}

/// What a message is to a wait.
#[derive(Clone, Copy, Debug, PartialEq, Eq)]
pub enum Heard {
    /// The reply to the barrier, which ends the wait.
    Reply,
    /// The answer to a message that was sent.
    Refused(Refusal),
    /// A notice of an entry that was deleted, which is held or dropped.
    Notice,
    /// An ECHO_REQUEST, which is answered at once.
    Echo,
    /// Anything else, which is kept.
    Other,
}
