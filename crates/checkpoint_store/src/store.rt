//! The store: one place for each application.

ghost use Rattle.std.specs.Prelude.{◌≡◌, ◌+◌, ◌<◌, ◌≤◌, length, nat_le, replicate, IfOk, OnOk, OnErr};
ghost use Rattle.checkpoint_store.specs.Past.{turn_size, turns_size, checkpoints, remembers, forgets, IsWithinLimits};
ghost use Rattle.checkpoint_store.specs.Slots.{empty_slot, slot_of, with_slot, staged, done, dropped};

use crate::slot::Slot;
use crate::turned::Turned;
use of_types::ByteList;
use std::alloc::{AllocError, Global};
use std::marker::Model;

/// The checkpoints and remembered turns of applications, which are numbered from 0 on. Contracts see a list of `Slot`.
#[derive(Drop, Debug)]
pub struct Store {
    alloc: Global,
    slots: Vec<Slot>,
}

impl Model for Store {
    ghost use Rattle.std.specs.Prelude.{List};
    ghost use Rattle.checkpoint_store.specs.Slots.{Slot};

    ghost Value = { List Slot };

    ghost view = { λ s. s.slots.items };
}

impl Store {
    /// Makes a store for so many applications, of which nothing is kept and nothing staged.
    pub fn new(alloc: Global, apps: u32) -> Result<Store, AllocError>
        ensures { IfOk result (λ store. store ≡ replicate apps empty_slot) }
    {
        let mut slots = Vec::new(alloc);
        for _ in 0..apps {
            slots.push(Slot::new(alloc))?;
        }
        Ok(Store { alloc, slots })
    }

    /// Stages a checkpoint of an application: `keep` makes it the kept one. It has at most 1,048,576 bytes.
    pub fn stage(&mut self, app: u32, bytes: &[u8]) -> Result<(), AllocError>
        requires app { app < length self.old }
        requires limit { length bytes.now ≤ 1048576 }
        ensures ok { OnOk result (self.new ≡ with_slot app (staged (checkpoints bytes.now)) self.old) }
        ensures err { OnErr result (self.new ≡ self.old) }
    {
        let checkpoint = ByteList::from_slice(self.alloc, bytes)?;
        self.slots[app as usize].stage(checkpoint);
        Ok(())
    }

    /// Stages a completed turn of an application: `keep` remembers it behind the others. All turns that `keep` would
    /// leave have at most 16,777,216 bytes.
    pub fn remember(&mut self, app: u32, turn: Turned) -> Result<(), AllocError>
        requires app { app < length self.old }
        requires limit { turns_size (slot_of app self.old).pending.turns + turn_size turn ≤ 16777216 }
        ensures ok { OnOk result (self.new ≡ with_slot app (staged (remembers turn)) self.old) }
        ensures err { OnErr result (self.new ≡ self.old) }
    {
        self.slots[app as usize].remember(turn)
    }

    /// Stages that an application's remembered turns are forgotten, with those that are staged; takes no memory.
    pub fn forget(&mut self, app: u32)
        requires { app < length self.old }
        ensures { self.new ≡ with_slot app (staged forgets) self.old }
    {
        self.slots[app as usize].forget();
    }

    /// Does what is staged for an application, in the order in which it was staged; takes no memory.
    pub fn keep(&mut self, app: u32)
        requires { app < length self.old }
        ensures { self.new ≡ with_slot app done self.old }
    {
        self.slots[app as usize].keep();
    }

    /// Drops what is staged for an application; takes no memory.
    pub fn drop_staged(&mut self, app: u32)
        requires { app < length self.old }
        ensures { self.new ≡ with_slot app dropped self.old }
    {
        self.slots[app as usize].drop_staged();
    }

    /// Tells whether `remember` may be called with a turn: what `keep` would leave with it has at most 16,777,216
    /// bytes.
    pub fn has_room(&self, app: u32, turn: &Turned) -> bool
        requires { app < length self.now }
        ensures { result ≡ nat_le (turns_size (slot_of app self.now).pending.turns + turn_size turn.now) 16777216 }
    {
        self.slots[app as usize].has_room(turn)
    }

    /// Lends the kept checkpoint of an application.
    pub fn kept(&self, app: u32) -> &[u8]
        requires { app < length self.now }
        ensures bytes { result.now ≡ (slot_of app self.now).kept.checkpoint }
        ensures limits { IsWithinLimits (slot_of app self.now).kept }
    {
        self.slots[app as usize].kept()
    }

    /// Lends the remembered turns of an application, oldest first.
    pub fn remembered(&self, app: u32) -> &[Turned]
        requires { app < length self.now }
        ensures turns { result.now ≡ (slot_of app self.now).kept.turns }
        ensures limits { IsWithinLimits (slot_of app self.now).kept }
    {
        self.slots[app as usize].remembered()
    }

    /// Tells how many turns of an application `keep` would leave remembered, and how many bytes they have.
    pub fn pending(&self, app: u32) -> (usize, usize)
        requires { app < length self.now }
        ensures number { result.0 ≡ length (slot_of app self.now).pending.turns }
        ensures bytes { result.1 ≡ turns_size (slot_of app self.now).pending.turns }
        ensures limits { IsWithinLimits (slot_of app self.now).pending }
    {
        self.slots[app as usize].pending()
    }
}
