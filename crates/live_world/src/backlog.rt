//! Messages that were put off until `next` tells them.

ghost use Rattle.std.specs.Prelude.{◌≡◌, ◌≤◌, ◌⊎◌, [], ◌++◌, true, false, length, None, Ok, IfOk, IfSome, OnErr};
ghost use Rattle.of_stream.specs.Frames.{IsFrame, IsPartial, IsBroken};

use of_stream::{CutFault, Cutter};
use of_types::ByteList;
use std::alloc::{AllocError, Global};

/// How many bytes of messages are kept of a connection at most.
pub(crate) const MOST_BYTES: usize = 16_777_216;

/// The messages that a switch said by itself while its answer to a request was awaited, in their order.
#[derive(Drop)]
pub struct Backlog {
    /// Their bytes.
    pub(crate) stream: Cutter,
}

impl Backlog {
    /// Begins with none. `AllocError` where there is no room for the first ones.
    pub(crate) fn new(alloc: Global) -> Result<Backlog, AllocError>
        ensures { IfOk result (λ backlog. backlog.stream ≡ []) }
    {
        Ok(Backlog {
            stream: Cutter::new(alloc)?,
        })
    }

    /// Tells how many bytes they have.
    pub(crate) fn len(&self) -> usize
        ensures { result ≡ length self.now.stream }
    {
        self.stream.held().len()
    }

    /// Keeps a message behind the others, if there is room for it. Tells whether it is kept.
    pub(crate) fn keep(&mut self, message: &[u8]) -> bool
        ensures kept { result ≡ true → self.new.stream ≡ self.old.stream ++ message.now }
        ensures at_most { result ≡ true → length self.new.stream ≤ 16777216 }
        ensures unchanged { result ≡ false → self.new.stream ≡ self.old.stream }
    {
        self.len().saturating_add(message.len()) <= MOST_BYTES && self.stream.feed(message).is_ok()
    }

    /// Takes the oldest one. Where memory runs out it stays.
    pub(crate) fn take(&mut self) -> Result<Option<ByteList>, AllocError>
        ensures oldest { IfOk result (λ oldest. IfSome oldest (λ frame. IsFrame frame × (self.old.stream ≡ frame ++ self.new.stream))) }
        ensures none { result ≡ Ok None → IsPartial self.old.stream ⊎ IsBroken self.old.stream }
        ensures kept { OnErr result (self.new.stream ≡ self.old.stream) }
    {
        match self.stream.next() {
            Ok(oldest) => Ok(oldest),
            Err(CutFault::BadLength) => Ok(None),
            Err(CutFault::NoMemory) => Err(AllocError),
        }
    }
}
