//! The cutter.

ghost use Rattle.std.specs.Prelude.{◌≡◌, ◌↔◌, [], ◌++◌, IfOk, OnOk, OnErr, IfSome, IsErrOf, Ok, None};
ghost use Rattle.of_stream.specs.Frames.{IsFrame, IsPartial, IsBroken};
ghost use Rattle.of_stream.specs.Front.{IsFront};

use crate::fault::CutFault;
use bytes::BytesMut;
use of_types::{ByteList, get_u16};
use std::alloc::{AllocError, Global};
use std::marker::Model;

/// The length of a header (OpenFlow 1.0.0, 5.1 OpenFlow Header).
const HEADER: usize = 8;

/// The room for bytes that a cutter begins with; it grows as it needs.
const ROOM: usize = 4_096;

/// What stands next on a stream.
enum Front {
    /// A frame that is not whole yet.
    Partial,
    /// A length that no frame has.
    Broken,
    /// A frame of so many bytes.
    Whole(usize),
}

fn front_of(held: &[u8]) -> Front
    ensures { IsFront result held.now }
{
    if held.len() < 4 {
        return Front::Partial;
    }
    let size = get_u16(held, 2) as usize;
    if size < HEADER {
        Front::Broken
    } else if held.len() < size {
        Front::Partial
    } else {
        Front::Whole(size)
    }
}

/// Cuts a stream into frames. Contracts see the bytes held: those that were fed and that no frame
/// handed out has.
///
/// The time to feed and to hand out is linear in the bytes, however small or large the pieces.
#[derive(Drop)]
pub struct Cutter {
    buffer: BytesMut,
}

impl Model for Cutter {
    ghost use Rattle.std.specs.Prelude.{List, ℕ};

    ghost Value = { List ℕ };

    ghost view = { λ c. c.buffer.items };
}

impl Cutter {
    /// Begins a stream: nothing is held. `AllocError` where there is no memory for 4,096 bytes.
    pub fn new(alloc: Global) -> Result<Cutter, AllocError>
        ensures { IfOk result (λ cutter. cutter ≡ []) }
    {
        Ok(Cutter {
            buffer: BytesMut::with_capacity(alloc, ROOM)?,
        })
    }

    /// Lends the bytes held.
    pub fn held(&self) -> &[u8]
        ensures { result.now ≡ self.now }
    {
        self.buffer.as_slice()
    }

    /// Takes the next bytes of the stream, as many as have come. `AllocError` where there is no room for them; then
    /// none is taken.
    pub fn feed(&mut self, bytes: &[u8]) -> Result<(), AllocError>
        ensures ok { OnOk result (self.new ≡ self.old ++ bytes.now) }
        ensures err { OnErr result (self.new ≡ self.old) }
        // Whatever comes, a bad length stays.
        ensures stays { IsBroken self.old → IsBroken self.new }
    {
        self.buffer.extend_from_slice(bytes)
    }

    /// Hands out the next frame of the stream, 8 to 65,535 bytes, once it is whole; `None` while it is still to come.
    /// `BadLength` where a length below 8 stands next, now and later; `NoMemory` comes only where a frame is whole.
    pub fn next(&mut self) -> Result<Option<ByteList>, CutFault>
        ensures frame { IfOk result (λ next. IfSome next (λ frame.
            IsFrame frame × (self.old ≡ frame ++ self.new))) }
        ensures none { (result ≡ Ok None) ↔ IsPartial self.old }
        ensures bad_length { IsErrOf result CutFault.BadLength ↔ IsBroken self.old }

        // Without a frame nothing changes.
        ensures kept { (result ≡ Ok None) → self.new ≡ self.old }
        ensures err { OnErr result (self.new ≡ self.old) }
    {
        match front_of(self.buffer.as_slice()) {
            Front::Partial => Ok(None),
            Front::Broken => Err(CutFault::BadLength),
            Front::Whole(size) => {
                let alloc = *self.buffer.allocator();
                let frame = ByteList::from_slice(alloc, &self.buffer.as_slice()[..size])?;
                self.buffer.advance(size);
                Ok(Some(frame))
            }
        }
    }
}
