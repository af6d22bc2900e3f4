//! The deeds of applications, packed.

ghost use Rattle.std.specs.Prelude.{◌≡◌, ◌+◌, ◌∷◌, [], ◌++◌, ◌==◌, length, filter, IfOk, OnOk, OnErr, None, Some};
ghost use Rattle.session_record.specs.Deeds.{Notes, deeds_in};

use crate::deed::DeedKind;
use std::alloc::{AllocError, Global};
use std::marker::Model;

/// A deed: its bytes are those from one place to another of the block of all bytes.
#[derive(Clone, Copy, Debug)]
pub(crate) struct Kept {
    pub(crate) app: u32,
    pub(crate) kind: DeedKind,
    pub(crate) start: u32,
    pub(crate) end: u32,
}

/// The deeds of applications in order, each in sixteen bytes and its own. Once memory was refused it keeps none. Contracts see a
/// list, if there is one.
#[derive(Drop)]
pub(crate) struct Log {
    kept: Vec<Kept>,
    bytes: Vec<u8>,
    is_short: bool,
}

impl Model for Log {
    ghost use Rattle.std.specs.Prelude.{List, Option, None, Some, length, if◌then◌else◌};
    ghost use Rattle.session_record.specs.Deeds.{Deed, deeds_in, AreWithin};

    ghost Value = { Option (List Deed) };

    ghost view = { λ s. if s.is_short then None else Some (deeds_in s.bytes.items s.kept.items) };

    ghost invariant = { λ s. AreWithin (length s.bytes.items) s.kept.items };
}

/// Finds where a piece ends behind the bytes, if 32 bits count that far.
fn end_with(bytes: &[u8], piece: &[u8]) -> Result<u32, AllocError>
    ensures { IfOk result (λ end. end ≡ length bytes.now + length piece.now) }
{
    match bytes.len().checked_add(piece.len()) {
        Some(end) => u32::try_from(end).map_err(|_| AllocError),
        None => Err(AllocError),
    }
}

/// Puts one deed behind the others. Want of memory changes nothing, nor does a deed beyond 4 GiB of bytes.
fn put(
    kept: &mut Vec<Kept>,
    bytes: &mut Vec<u8>,
    app: u32,
    kind: DeedKind,
    piece: &[u8],
) -> Result<(), AllocError>
    ensures kept { OnOk result (kept.new.items ≡ kept.old.items ++ record { app = app; kind = kind; start = length bytes.old.items; end = length bytes.old.items + length piece.now } ∷ []) }
    ensures bytes { OnOk result (bytes.new.items ≡ bytes.old.items ++ piece.now) }
    ensures same { OnErr result ((kept.new.items ≡ kept.old.items) × (bytes.new.items ≡ bytes.old.items)) }
{
    let end = end_with(bytes, piece)?;
    let start = u32::try_from(bytes.len()).map_err(|_| AllocError)?;
    kept.reserve(1)?;
    bytes.extend_from_slice(piece)?;
    kept.push_reserved(Kept {
        app,
        kind,
        start,
        end,
    });
    Ok(())
}

impl Log {
    /// Returns a log of no deeds; takes no memory.
    pub(crate) fn new(alloc: Global) -> Log
        ensures { result ≡ Some [] }
    {
        Log {
            kept: Vec::new(alloc),
            bytes: Vec::new(alloc),
            is_short: false,
        }
    }

    /// Returns a log that keeps nothing; takes no memory.
    pub(crate) fn silent(alloc: Global) -> Log
        ensures { result ≡ None }
    {
        Log {
            kept: Vec::new(alloc),
            bytes: Vec::new(alloc),
            is_short: true,
        }
    }

    /// Keeps one deed more. Once memory is refused it keeps none.
    #[tactic(auto, using(crate::specs::laws::DeedLaws::within_more, crate::specs::laws::DeedLaws::deeds_more))]
    pub(crate) fn note(&mut self, app: u32, kind: DeedKind, bytes: &[u8])
        ensures { Notes (record { app = app; kind = kind; bytes = bytes.now } ∷ []) self.old self.new }
    {
        if !self.is_short {
            self.is_short = put(&mut self.kept, &mut self.bytes, app, kind, bytes).is_err();
        }
    }

    /// Lends the deeds, and the block of their bytes, unless memory was refused.
    pub(crate) fn deeds(&self) -> Result<(&[Kept], &[u8]), AllocError>
        ensures { IfOk result (λ found. self.now ≡ Some (deeds_in found.1.now found.0.now)) }
    {
        if self.is_short {
            return Err(AllocError);
        }
        Ok((&self.kept, &self.bytes))
    }
}

/// Copies the deeds of one application.
pub(crate) fn deeds_of(alloc: Global, deeds: &[Kept], app: usize) -> Result<Vec<Kept>, AllocError>
    ensures { IfOk result (λ own. own.items ≡ filter (λ k. k.app == app) deeds.now) }
{
    deeds
        .iter()
        .filter(|kept| kept.app as usize == app)
        .copied()
        .collect(alloc)
}
