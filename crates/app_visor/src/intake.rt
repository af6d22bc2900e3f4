//! The bytes that are taken from an application.

ghost use Rattle.std.specs.Prelude.{◌≡◌, ℕ, ◌<◌, List, length, OnErr, IfOk, Ok, None, ◌⊎◌};
ghost use Rattle.app_visor.specs.Talks.{Wants};
ghost use Rattle.app_visor.specs.Reads.{IsAtFront, Gave, TakesOne};

use crate::came::Came;
use app_frames::{AppFrameError, decode_app};
use bytes::BytesMut;
use of_types::ByteList;
use outside::{Taken, World};
use std::alloc::{AllocError, Global};
use std::fmt;
use std::fmt::{Debug, Formatter};
use std::marker::Model;

/// How many bytes are taken at most at once.
const MOST_TAKEN: usize = 65_536;

/// The bytes that were taken from an application and not read, and a buffer to take into. Contracts see the bytes.
///
/// The time to take and to read is linear in the bytes, however small or large the pieces.
#[derive(Drop)]
pub(crate) struct Intake {
    unread: BytesMut,
    buf: Vec<u8>,
}

impl Model for Intake {
    ghost use Rattle.std.specs.Prelude.{◌≡◌, List, ℕ, vec_len};

    ghost Value = { List ℕ };

    ghost view = { λ s. s.unread.items };

    ghost invariant = { λ s. vec_len s.buf ≡ 65536 };
}

impl Intake {
    /// Returns an intake that begins with these bytes.
    pub(crate) fn new(alloc: Global, rest: &[u8]) -> Result<Intake, AllocError>
        ensures { IfOk result (λ s. s ≡ rest.now) }
    {
        let mut unread = BytesMut::with_capacity(alloc, MOST_TAKEN)?;
        unread.extend_from_slice(rest)?;
        let buf = vec![in alloc; 0; MOST_TAKEN]?;
        Ok(Intake { unread, buf })
    }

    /// Returns the same intake, which begins anew with these bytes.
    fn again(self, rest: &[u8]) -> Result<Intake, AllocError>
        ensures { IfOk result (λ s. s ≡ rest.now) }
    {
        let mut unread = self.unread;
        unread.clear();
        unread.extend_from_slice(rest)?;
        Ok(Intake {
            unread,
            buf: self.buf,
        })
    }

    /// Returns a copy of what is unread.
    pub(crate) fn rest(&self, alloc: Global) -> Result<ByteList, AllocError>
        ensures { IfOk result (λ rest. rest ≡ self.now) }
    {
        ByteList::from_slice(alloc, self.unread.as_slice())
    }

    /// Reads what stands at the front, where that is a whole frame or no frame.
    pub(crate) fn look(&mut self, alloc: Global) -> Result<Option<Came>, AllocError>
        ensures ok { IfOk result (λ came. IsAtFront came self.old self.new) }
        ensures short { (result ≡ Ok None) → length self.old < 1048583 }
    {
        match decode_app(alloc, self.unread.as_slice()) {
            Ok(Some((frame, size))) => {
                self.unread.advance(size);
                Ok(Some(Came::Frame(frame)))
            }
            Ok(None) => Ok(None),
            Err(AppFrameError::Refused(fault)) => Ok(Some(Came::Refused(fault))),
            Err(AppFrameError::NoMemory) => Err(AllocError),
        }
    }

    /// Takes a piece of what the application gives, or says why there is none.
    pub(crate) fn take<W: World>(
        &mut self,
        world: &mut W,
        app: u32,
    ) -> Result<Option<Came>, AllocError>
        ensures ok { IfOk result (λ came. Gave W.Tells app came self.old self.new (W.seen world.old) (W.seen world.new)) }
        ensures err { OnErr result (Wants W.Tells (W.seen world.old) (W.seen world.new)
            ⊎ ((left : List ℕ) × TakesOne W.Tells app self.old left (W.seen world.old) (W.seen world.new))) }
    {
        match world.take(app, &mut self.buf) {
            Ok(Taken::Some(size)) => {
                self.unread.extend_from_slice(&self.buf[..size])?;
                Ok(None)
            }
            Ok(Taken::Closed) => Ok(Some(Came::Closed)),
            Ok(Taken::Silent) => Ok(Some(Came::Silent)),
            Err(_) => Err(AllocError),
        }
    }
}

/// An intake that is kept from one turn to the next, so that no turn makes its buffers anew. Contracts see nothing of it.
#[derive(Drop)]
pub struct TakeBuffer {
    kept: Option<Intake>,
}

impl Model for TakeBuffer {
    ghost Value = { Unit {0} };

    ghost view = { λ _. tt };
}

impl Debug for TakeBuffer {
    fn fmt<W: fmt::Write>(&self, f: &mut Formatter<W>) -> fmt::Result {
        f.write_str("TakeBuffer")
    }
}

impl TakeBuffer {
    /// None is kept yet; takes no memory.
    pub(crate) fn new() -> TakeBuffer {
        TakeBuffer { kept: None }
    }

    /// Returns an intake that begins with these bytes: the one that is kept, where there is one.
    pub(crate) fn take(&mut self, alloc: Global, rest: &[u8]) -> Result<Intake, AllocError>
        ensures { IfOk result (λ s. s ≡ rest.now) }
    {
        match self.kept.take() {
            Some(intake) => intake.again(rest),
            None => Intake::new(alloc, rest),
        }
    }

    /// Keeps an intake for the next turn.
    pub(crate) fn keep(&mut self, intake: Intake) {
        self.kept = Some(intake);
    }
}
