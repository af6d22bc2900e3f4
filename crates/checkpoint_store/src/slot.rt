//! The place of one application in a store.

ghost use Rattle.std.specs.Prelude.{◌≡◌, ◌+◌, ◌≤◌, length, drop, nat_le, OnOk, OnErr};
ghost use Rattle.checkpoint_store.specs.Past.{turn_size, turns_size, checkpoints, remembers, forgets, IsWithinLimits};
ghost use Rattle.checkpoint_store.specs.Slots.{empty_slot, staged, done, dropped};

use crate::turned::{Turned, turn_size, turns_size};
use of_types::ByteList;
use std::alloc::{AllocError, Global};
use std::marker::Model;

/// How many bytes the remembered turns of an application have at most.
const MOST_REMEMBERED: usize = 16_777_216;

/// What is kept of an application, and what `keep` would leave. Contracts see both.
#[derive(Drop, Debug)]
pub(crate) struct Slot {
    /// The kept checkpoint.
    checkpoint: ByteList,
    /// The staged checkpoint, which takes its place.
    staged: Option<ByteList>,
    /// The remembered turns, and behind them the staged ones.
    turns: Vec<Turned>,
    /// How many of the turns are remembered.
    remembered: usize,
    /// How many of the remembered turns, the oldest, are forgotten when the staged ones are kept: all or none.
    forgotten: usize,
}

impl Model for Slot {
    ghost use Rattle.checkpoint_store.specs.Slots.{Slot};
    ghost use Rattle.checkpoint_store.specs.Inside.{slot_view, IsSound};

    ghost Value = { Slot };

    ghost view = { slot_view };

    ghost invariant = { IsSound };
}

impl Slot {
    /// Makes a place where nothing is kept and nothing staged; takes no memory.
    pub(crate) fn new(alloc: Global) -> Slot
        ensures { result ≡ empty_slot }
    {
        Slot {
            checkpoint: ByteList::new(alloc),
            staged: None,
            turns: Vec::new(alloc),
            remembered: 0,
            forgotten: 0,
        }
    }

    /// Stages a checkpoint; takes no memory.
    pub(crate) fn stage(&mut self, checkpoint: ByteList)
        requires { length checkpoint ≤ 1048576 }
        ensures { self.new ≡ staged (checkpoints checkpoint) self.old }
    {
        self.staged = Some(checkpoint);
    }

    /// Stages a turn.
    pub(crate) fn remember(&mut self, turn: Turned) -> Result<(), AllocError>
        requires { turns_size self.old.pending.turns + turn_size turn ≤ 16777216 }
        ensures ok { OnOk result (self.new ≡ staged (remembers turn) self.old) }
        ensures err { OnErr result (self.new ≡ self.old) }
    {
        self.turns.push(turn)?;
        Ok(())
    }

    /// Stages that no turn is remembered; takes no memory.
    pub(crate) fn forget(&mut self)
        ensures { self.new ≡ staged forgets self.old }
    {
        self.turns.truncate(self.remembered);
        self.forgotten = self.remembered;
    }

    /// Does what is staged; takes no memory.
    pub(crate) fn keep(&mut self)
        ensures { self.new ≡ done self.old }
    {
        if let Some(checkpoint) = self.staged.take() {
            self.checkpoint = checkpoint;
        }
        drop_first(&mut self.turns, self.forgotten);
        self.remembered = self.turns.len();
        self.forgotten = 0;
    }

    /// Drops what is staged; takes no memory.
    pub(crate) fn drop_staged(&mut self)
        ensures { self.new ≡ dropped self.old }
    {
        self.staged = None;
        self.turns.truncate(self.remembered);
        self.forgotten = 0;
    }

    /// Tells whether a turn more may be staged.
    pub(crate) fn has_room(&self, turn: &Turned) -> bool
        ensures { result ≡ nat_le (turns_size self.now.pending.turns + turn_size turn.now) MOST_REMEMBERED }
    {
        let (_, bytes) = self.pending();
        bytes.saturating_add(turn_size(turn)) <= MOST_REMEMBERED
    }

    /// Lends the kept checkpoint.
    pub(crate) fn kept(&self) -> &[u8]
        ensures bytes { result.now ≡ self.now.kept.checkpoint }
        ensures limits { IsWithinLimits self.now.kept }
    {
        self.checkpoint.as_slice()
    }

    /// Lends the remembered turns, oldest first.
    pub(crate) fn remembered(&self) -> &[Turned]
        ensures turns { result.now ≡ self.now.kept.turns }
        ensures limits { IsWithinLimits self.now.kept }
    {
        &self.turns[..self.remembered]
    }

    /// Tells how many turns `keep` would leave remembered, and how many bytes they have.
    pub(crate) fn pending(&self) -> (usize, usize)
        ensures number { result.0 ≡ length self.now.pending.turns }
        ensures bytes { result.1 ≡ turns_size self.now.pending.turns }
        ensures limits { IsWithinLimits self.now.pending }
    {
        let turns = &self.turns[self.forgotten..];
        (turns.len(), turns_size(turns))
    }
}

/// Drops the first turns; takes no memory.
fn drop_first(turns: &mut Vec<Turned>, count: usize)
    requires { count ≤ length turns.old.items }
    ensures { turns.new.items ≡ drop count turns.old.items }
{
    let _ = turns.drain(..count);
}
