//! What has come on a connection and was not passed on yet.

ghost use Rattle.std.specs.Prelude.{◌≡◌, ℕ, ◌<◌, ◌≤◌, List, [], ◌++◌, take, Some, Ok, IfOk, OnOk, OnErr, IfSome, vec_len};
ghost use Rattle.std.proofs.Props.{props};
ghost use Rattle.std.specs.Io.KnownBytes.{ReadConsumes};
ghost use Rattle.of_stream.specs.Frames.{IsFrame, IsPartial, IsBroken};

use crate::echoes::answer_echoes;
use crate::outbound::Outbound;
use of_stream::{CutFault, Cutter};
use of_types::ByteList;
use std::alloc::{AllocError, Global};
use std::io;
use std::io::{ErrorKind, Read};

/// How many bytes are read at once.
const PIECE_BYTES: usize = 4_096;

/// What a read gave.
#[derive(Clone, Copy, Debug, PartialEq, Eq)]
pub enum ReadEnd {
    /// Bytes came, and more may wait.
    More,
    /// Bytes came, and no more wait now.
    Some,
    /// Nothing waits now.
    Nothing,
    /// The other side sends nothing any more, or the connection failed.
    Over,
}

/// What stands next on a connection.
#[derive(Clone, Copy, Debug, PartialEq, Eq)]
pub enum Next {
    /// A whole message, which `frame` lends.
    Whole,
    /// A front of a message at most.
    Partial,
    /// A length that no message has.
    Broken,
}

/// The bytes that were read from a connection and not passed on yet. Nothing that was read is lost where memory runs
/// out.
#[derive(Drop)]
pub struct Inbound {
    /// The message that is next, once it was cut off.
    pub(crate) front: Option<ByteList>,
    /// What came behind it.
    pub(crate) cutter: Cutter,
    /// Room for what is read; its first `filled` bytes came behind the rest.
    pub(crate) piece: Vec<u8>,
    pub(crate) filled: usize,
    /// How many bytes of the cutter were looked at for ECHO_REQUESTs, and these answered.
    pub(crate) answered: usize,
    /// Whether an ECHO_REQUEST stands behind these whose answer has no room yet.
    pub(crate) is_held: bool,
    ghost has_room: { 0 < vec_len piece },
    ghost filled_is_within: { filled ≤ vec_len piece },
    ghost front_is_frame: { IfSome front IsFrame } by { Prim.hlevel props },
}

impl Inbound {
    ghost use Rattle.live_world.specs.Inbound.{unread, front_bytes};

    /// Begins with no bytes. `AllocError` where there is no room for the first ones.
    pub(crate) fn new(alloc: Global) -> Result<Inbound, AllocError>
        ensures { IfOk result (λ inbound. unread inbound ≡ []) }
    {
        Ok(Inbound {
            front: None,
            cutter: Cutter::new(alloc)?,
            piece: vec![in alloc; 0u8; PIECE_BYTES]?,
            filled: 0,
            answered: 0,
            is_held: false,
        })
    }

    /// Cuts the next message off, if it is whole. No byte is lost, also where memory runs out.
    pub(crate) fn cut(&mut self) -> Result<Next, AllocError>
        ensures unread { unread self.new ≡ unread self.old }
        ensures whole { result ≡ Ok Next.Whole → (frame : List ℕ) × (self.new.front ≡ Some frame) }
        ensures partial { result ≡ Ok Next.Partial → IsPartial (unread self.new) }
        ensures broken { result ≡ Ok Next.Broken → IsBroken (unread self.new) }
    {
        if self.front.is_some() {
            return Ok(Next::Whole);
        }
        self.feed()?;
        match self.cutter.next() {
            Ok(Some(frame)) => {
                self.answered = self.answered.saturating_sub(frame.as_slice().len());
                self.front = Some(frame);
                Ok(Next::Whole)
            }
            Ok(None) => Ok(Next::Partial),
            Err(CutFault::BadLength) => Ok(Next::Broken),
            Err(CutFault::NoMemory) => Err(AllocError),
        }
    }

    /// Tells how many bytes were read and not cut off yet.
    pub(crate) fn len(&self) -> usize {
        self.cutter.held().len().saturating_add(self.filled)
    }

    /// Answers the ECHO_REQUESTs that came, as far as there is room for what is to be sent.
    pub(crate) fn answer(&mut self, replies: &mut Outbound) -> Result<(), AllocError>
        ensures unread { unread self.new ≡ unread self.old }
        ensures front { self.new.front ≡ self.old.front }
    {
        self.feed()?;
        let bytes = self.cutter.held();
        let from = self.answered.min(bytes.len());
        let answered = answer_echoes(bytes, from, replies);
        self.answered = answered.count;
        self.is_held = answered.is_held;
        Ok(())
    }

    /// Tells whether an ECHO_REQUEST is next whose answer has no room yet.
    pub(crate) fn is_held_back(&self) -> bool {
        self.is_held && self.answered == 0 && self.front.is_none()
    }

    /// Moves what was read into the cutter.
    fn feed(&mut self) -> Result<(), AllocError>
        ensures unread { unread self.new ≡ unread self.old }
        ensures front { self.new.front ≡ self.old.front }
        ensures fed { OnOk result (self.new.filled ≡ 0) }
    {
        self.cutter.feed(&self.piece[..self.filled])?;
        self.filled = 0;
        Ok(())
    }

    /// Lends the message that was cut off.
    pub(crate) fn frame(&self) -> Option<&[u8]>
        ensures frame { IfSome result (λ frame. IsFrame frame.now) }
        ensures lends { IfSome result (λ frame. self.now.front ≡ Some frame.now) }
    {
        Some(self.front.as_ref()?.as_slice())
    }

    /// Passes the message on that was cut off.
    pub(crate) fn pass(&mut self)
        ensures { unread self.old ≡ front_bytes self.old.front ++ unread self.new }
    {
        self.front = None;
    }

    /// Reads what waits, up to 4,096 bytes, behind what was read before. While bytes of an earlier read are not cut, it
    /// reads nothing and answers `More`.
    pub(crate) fn read_from<S: Read>(&mut self, source: &mut S) -> ReadEnd
        ensures kept { (bytes : List ℕ) × (unread self.new ≡ unread self.old ++ bytes) }
    {
        if self.filled > 0 {
            return ReadEnd::More;
        }
        match self.read_piece(source) {
            Ok(0) => ReadEnd::Over,
            Ok(count) if count < PIECE_BYTES => ReadEnd::Some,
            Ok(_) => ReadEnd::More,
            Err(error) if error.kind() == ErrorKind::WouldBlock => ReadEnd::Nothing,
            Err(error) if error.kind() == ErrorKind::Interrupted => ReadEnd::More,
            Err(_) => ReadEnd::Over,
        }
    }

    /// Reads once, into the piece, in which nothing stands.
    fn read_piece<S: Read>(&mut self, source: &mut S) -> io::Result<usize>
        requires { self.old.filled ≡ 0 }
        ensures behind { IfOk result (λ n. unread self.new ≡ unread self.old ++ take n self.new.piece.items) }
        ensures kept { OnErr result (unread self.new ≡ unread self.old) }
        ensures bytes { ReadConsumes (S.remaining source.old) (S.remaining source.new) result self.new.piece.items }
    {
        let count = source.read(&mut self.piece)?;
        self.filled = count;
        Ok(count)
    }
}
