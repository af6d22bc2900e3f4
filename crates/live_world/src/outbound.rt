//! What is to be sent on a connection.

ghost use Rattle.std.specs.Prelude.{◌≡◌, ◌≤◌, [], ◌++◌, length, drop, IfOk, OnOk, OnErr};

use bytes::BytesMut;
use std::alloc::{AllocError, Global};
use std::io::{ErrorKind, Write};
use std::marker::Model;

/// How many bytes wait at most until a connection takes some. The longest message fits, and its answer.
const MOST_BYTES: usize = 262_144;

/// What a write to a connection came to.
#[derive(Clone, Copy, Debug, PartialEq, Eq)]
pub enum WriteEnd {
    /// All bytes are sent.
    All,
    /// The connection takes no more now.
    Full,
    /// It takes none any more.
    Failed,
}

/// The bytes that are to be sent on a connection, in their order. Contracts see those that are not sent yet.
#[derive(Drop)]
pub struct Outbound {
    bytes: BytesMut,
}

impl Model for Outbound {
    ghost use Rattle.std.specs.Prelude.{List, ℕ};

    ghost Value = { List ℕ };

    ghost view = { λ s. s.bytes.items };
}

impl Outbound {
    /// Begins with none; takes no memory.
    pub(crate) fn new(alloc: Global) -> Outbound
        ensures { result ≡ [] }
    {
        Outbound {
            bytes: BytesMut::new(alloc),
        }
    }

    /// Tells whether all bytes are sent.
    pub(crate) fn is_empty(&self) -> bool {
        self.bytes.is_empty()
    }

    /// Tells whether so many bytes more may wait.
    pub(crate) fn has_room(&self, more: usize) -> bool {
        self.bytes.len().saturating_add(more) <= MOST_BYTES
    }

    /// Puts a message behind the others.
    pub(crate) fn put(&mut self, message: &[u8]) -> Result<(), AllocError>
        ensures ok { OnOk result (self.new ≡ self.old ++ message.now) }
        ensures err { OnErr result (self.new ≡ self.old) }
    {
        self.bytes.extend_from_slice(message)
    }

    /// Puts a message in two parts behind the others.
    pub(crate) fn put_both(&mut self, front: &[u8], rest: &[u8]) -> Result<(), AllocError>
        ensures ok { OnOk result (self.new ≡ self.old ++ (front.now ++ rest.now)) }
        ensures err { OnErr result (self.new ≡ self.old) }
    {
        self.bytes.reserve(front.len().saturating_add(rest.len()))?;
        self.bytes.extend_from_slice(front)?;
        self.bytes.extend_from_slice(rest)
    }

    /// Writes what is to be sent, as far as it is taken at once.
    pub(crate) fn write_to<S: Write>(&mut self, target: &mut S) -> WriteEnd {
        for _ in 0..u64::MAX {
            if self.bytes.is_empty() {
                return WriteEnd::All;
            }
            match target.write(self.bytes.as_slice()) {
                Ok(0) => return WriteEnd::Failed,
                Ok(count) => self.bytes.advance(count),
                Err(error) if error.kind() == ErrorKind::Interrupted => {}
                Err(error) if error.kind() == ErrorKind::WouldBlock => return WriteEnd::Full,
                Err(_) => return WriteEnd::Failed,
            }
        }
        WriteEnd::Failed
    }
}
