//! Why calls of a switch failed, told without memory.

use of_match::Key;
use of_types::Xid;

/// Why calls of a switch failed. A `usize` is how many bytes stand in the front of the buffer.
#[derive(Clone, Copy, Debug, PartialEq, Eq)]
pub(crate) enum Trouble {
    /// Its link failed.
    Link,
    /// It sent bytes that are no message.
    Broke(usize),
    /// It refused the inverse for a key that was sent with this transaction id.
    Refused(Key, Xid, usize),
    /// It sent too many messages without the reply to a barrier.
    Flooded,
    /// The world's own memory ran out.
    Short,
    /// No memory was left to keep a message.
    Full,
    /// It was parted with, since it refused an inverse or sent too many messages.
    Parted,
}
