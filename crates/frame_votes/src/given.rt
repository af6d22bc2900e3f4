//! What a copy of an application gave.

ghost use Rattle.std.specs.Prelude.{◌≡◌, ◌++◌, [], IfOk, OnOk, OnErr, true, false};
ghost use Rattle.frame_votes.specs.Votes.{awaits, front_of, front_in, agreed, out, settled_if};

use app_frames::{AppFrameError, decode_app};
use bytes::BytesMut;
use of_types::ByteList;
use std::alloc::{AllocError, Global};
use std::marker::Model;

/// A copy: whether it is in, and what it gave and was not voted yet.
#[derive(Drop)]
pub(crate) struct Given {
    is_in: bool,
    held: BytesMut,
}

impl Model for Given {
    ghost use Rattle.frame_votes.specs.Votes.{Given as Copy};

    ghost Value = { Copy };

    ghost view = { λ g. record { is_in = g.is_in; held = g.held.items } };
}

/// The whole frame at the front of the bytes, as bytes.
#[tactic(auto, unfolding(crate::specs::Votes::front_of))]
fn front_of(alloc: Global, bytes: &[u8]) -> Result<Option<ByteList>, AllocError>
    ensures { IfOk result (λ front. front ≡ front_of bytes.now) }
{
    match decode_app(alloc, bytes) {
        Ok(Some((_, size))) => Ok(Some(ByteList::from_slice(
            alloc,
            &bytes[..size.min(bytes.len())],
        )?)),
        Ok(None) | Err(AppFrameError::Refused(_)) => Ok(None),
        Err(AppFrameError::NoMemory) => Err(AllocError),
    }
}

impl Given {
    /// A copy that is out.
    pub(crate) fn new(alloc: Global) -> Given
        ensures { result ≡ out }
    {
        Given {
            is_in: false,
            held: BytesMut::new(alloc),
        }
    }

    /// Tells whether it is in.
    pub(crate) fn is_in(&self) -> bool
        ensures { result ≡ self.now.is_in }
    {
        self.is_in
    }

    /// Begins a life: it is in, and gave nothing yet.
    pub(crate) fn begin(&mut self)
        ensures { self.new ≡ record { is_in = true; held = [] } }
    {
        self.is_in = true;
        self.held.clear();
    }

    /// Ends its life.
    pub(crate) fn end(&mut self)
        ensures { self.new ≡ out }
    {
        self.is_in = false;
        self.held.clear();
    }

    /// Holds bytes that it gave.
    pub(crate) fn hold(&mut self, bytes: &[u8]) -> Result<(), AllocError>
        ensures ok { OnOk result (self.new ≡ record self.old { held = self.old.held ++ bytes.now }) }
        ensures err { OnErr result (self.new ≡ self.old) }
    {
        self.held.extend_from_slice(bytes)?;
        Ok(())
    }

    /// Its next frame, if it is in and gave that whole.
    pub(crate) fn front(&self, alloc: Global) -> Result<Option<ByteList>, AllocError>
        ensures { IfOk result (λ front. front ≡ front_in self.now) }
    {
        if self.is_in {
            front_of(alloc, self.held.as_slice())
        } else {
            Ok(None)
        }
    }

    /// Tells whether more of its next frame may come.
    #[tactic(auto, unfolding(crate::specs::Votes::awaits))]
    pub(crate) fn awaits(&self, alloc: Global) -> Result<bool, AllocError>
        ensures { IfOk result (λ awaited. awaited ≡ awaits self.now) }
    {
        if !self.is_in {
            return Ok(false);
        }
        match decode_app(alloc, self.held.as_slice()) {
            Ok(None) => Ok(true),
            Ok(Some(_)) | Err(AppFrameError::Refused(_)) => Ok(false),
            Err(AppFrameError::NoMemory) => Err(AllocError),
        }
    }

    /// Goes on behind a frame that was voted, or is out.
    pub(crate) fn settle(&mut self, frame: &Option<ByteList>)
        ensures { self.new ≡ settled_if frame.now self.old }
    {
        match frame {
            Some(frame) => {
                self.is_in = true;
                self.held.advance(frame.len().min(self.held.len()));
            }
            None => self.end(),
        }
    }
}
