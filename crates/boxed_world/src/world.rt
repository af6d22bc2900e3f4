//! A world whose applications are objects.

ghost use Rattle.std.specs.Prelude.{◌≡◌, ◌≢◌, ◌<◌, ◌≤◌, ℕ, [], ◌∷◌, ◌++◌, length, true, false, is_some, Ok, IsOk, IsErrOf, IfOk, OnOk, OnErr, IfSome, slice_get, Option, None};
ghost use Rattle.lego_io.specs.Count.{raised};
ghost use Rattle.of_types.specs.Membership.{is_among};
ghost use Rattle.of_wire.specs.Reading.{reading_of};
ghost use Rattle.outside.specs.declared.step.WorldStep.TheVariants.{TookInto};
ghost use Rattle.outside.specs.InOrder.{InOrder, BringMessages};
ghost use Rattle.outside.specs.Conforming.{Conforming};
ghost use Rattle.outside.specs.Calls.{most_message, Opens, Nexts, Starts, Gives, Takes, Ends, Sends, Receives, take_steps};
ghost use Rattle.linked_world.specs.Linked.{seen_of};
ghost use Rattle.boxed_world.specs.Lives.{Begins, Fed, LifeTaken, next_taken, dies_at};

use crate::life::{Death, Life};
use crate::lives::{begin, end, feed, has_spare, is_alive, next_of, took};
use linked_world::Linked;
use of_types::Dpid;
use outside::{GiveFault, Item, LinkFault, NextFault, OpenFault, Short, StartFault, Taken, World};
use std::alloc::{AllocError, Global};

/// A world whose switches are those of another world, and whose applications are objects of the same program: an
/// application is its place among the lives. An application beyond them is never started.
#[derive(Drop)]
pub struct BoxedWorld<W: World> {
    alloc: Global,
    linked: Linked<W>,
    lives: Vec<Life>,
    deaths: Vec<Death>,
}

impl<W: World> BoxedWorld<W> {
    /// Takes the switches of this world, and these applications, each of which was not started. Takes no memory.
    pub fn new(alloc: Global, links: W, lives: Vec<Life>) -> BoxedWorld<W>
        ensures links { result.linked.links ≡ links }
        ensures lives { result.lives ≡ lives }
        ensures deaths { result.deaths.items ≡ [] }
    {
        BoxedWorld {
            alloc,
            linked: Linked::new(alloc, links),
            lives,
            deaths: Vec::new(alloc),
        }
    }

    /// Lets the application find its end closed at its take of this number, counted from 1 over the whole run. Want of
    /// memory changes nothing.
    pub fn add_death(&mut self, app: u32, number: u64) -> Result<(), AllocError>
        ensures linked { self.new.linked ≡ self.old.linked }
        ensures lives { self.new.lives ≡ self.old.lives }
        ensures ok { OnOk result (self.new.deaths.items ≡ self.old.deaths.items ++ (record { app = app; number = number }) ∷ []) }
        ensures err { OnErr result (self.new.deaths.items ≡ self.old.deaths.items) }
    {
        self.deaths.push(Death { app, number })?;
        Ok(())
    }

    /// Lends the other world.
    pub fn links(&self) -> &W
        ensures { result.now ≡ self.now.linked.links }
    {
        self.linked.links()
    }

    /// Finds that the world keeps its word as the other one does: with switches that tell in order it tells in order, and
    /// where all that they sent is messages, it keeps its word.
    pub fn keeps_word(&self)
        ensures order { W.Tells → InOrder (W.seen self.now.linked.links) → InOrder (seen_of W.seen self.now.linked) }
        ensures word { W.Tells → InOrder (W.seen self.now.linked.links) → BringMessages (W.seen self.now.linked.links).history
            → Conforming (seen_of W.seen self.now.linked) }
    {
        self.linked.keeps_word();
    }
}

impl<W: World> World for BoxedWorld<W> {
    ghost Tells = { W.Tells };

    ghost Own = { W.Own };

    // Its switches cannot be parted with, also where those of the other world can: that one promises nothing of a parting
    // where it cannot, and what is seen here is woven of its history.
    ghost CanPart = { ⊥ };

    ghost seen = { λ b. seen_of W.seen b.linked };

    fn open(&mut self, port: u16) -> Result<(), OpenFault> {
        self.linked.open(port)
    }

    fn next(&mut self, buf: &mut [u8]) -> Result<Item, NextFault> {
        self.linked.next(buf)
    }

    fn start(&mut self, app: u32, _words: &[String]) -> Result<(), StartFault>
        ensures seen { Starts W.Tells app (seen_of W.seen self.old.linked) (seen_of W.seen self.new.linked) result }
        ensures life { OnOk result (IfSome (slice_get self.old.lives.items app) (λ l. IfSome (slice_get self.new.lives.items app) (λ m.
            Begins l.spares.items m.spares.items m.object m.held.items))) }
        ensures not_started { IsErrOf result StartFault.NotStarted → is_among app self.old.linked.running ≡ false
            → IfSome (slice_get self.old.lives.items app) (λ l. l.spares.items ≡ []) }
        ensures others { (i : ℕ) → i ≢ app → slice_get self.new.lives.items i ≡ slice_get self.old.lives.items i }
        ensures err { OnErr result (self.new.lives ≡ self.old.lives) }
    {
        let ready = has_spare(&self.lives, app);
        self.linked.start(app, ready)?;
        begin(&mut self.lives, app);
        Ok(())
    }

    fn give(&mut self, app: u32, bytes: &[u8]) -> Result<(), GiveFault>
        ensures seen { Gives W.Tells app bytes.now (seen_of W.seen self.old.linked) (seen_of W.seen self.new.linked) result }
        ensures fed { OnOk result (IfSome (slice_get self.old.lives.items app) (λ l. IfSome (slice_get self.new.lives.items app) (λ m.
            Fed (λ o. gives o) (λ o. would o) bytes.now l.object m.object l.held.items m.held.items))) }
        ensures alive { OnOk result (IfSome (slice_get self.old.lives.items app) (λ l. is_some l.object ≡ true)) }
        ensures gone { IsErrOf result GiveFault.Gone → is_among app self.old.linked.running ≡ true
            → IfSome (slice_get self.old.lives.items app) (λ l. is_some l.object ≡ false) }
        ensures others { (i : ℕ) → i ≢ app → slice_get self.new.lives.items i ≡ slice_get self.old.lives.items i }
        ensures err { OnErr result (self.new.lives ≡ self.old.lives) }
    {
        let takes = is_alive(&self.lives, app);
        self.linked.give(app, bytes, takes)?;
        feed(self.alloc, &mut self.lives, app, bytes);
        Ok(())
    }

    fn take(&mut self, app: u32, buf: &mut [u8]) -> Result<Taken, Short>
        requires { 0 < length buf.old }
        ensures seen { Takes W.Tells app (seen_of W.seen self.old.linked) (seen_of W.seen self.new.linked) result buf.new }
        ensures what { IfOk result (λ taken. is_among app self.old.linked.running ≡ true → IfSome (slice_get self.old.lives.items app) (λ l.
            take_steps app (Ok taken) buf.new ≡ TookInto app (next_taken (dies_at app (raised l.takes) self.old.deaths.items) (is_some l.object) (length buf.old) l.held.items) (length buf.new) ∷ [])) }
        ensures took { OnOk result (IfSome (slice_get self.old.lives.items app) (λ l. IfSome (slice_get self.new.lives.items app) (λ m.
            LifeTaken (dies_at app (raised l.takes) self.old.deaths.items) (length buf.old) l.object m.object l.held.items m.held.items))) }
        ensures others { (i : ℕ) → i ≢ app → slice_get self.new.lives.items i ≡ slice_get self.old.lives.items i }
        ensures err { OnErr result (self.new.lives ≡ self.old.lives) }
    {
        let Ok(what) = next_of(self.alloc, &self.lives, &self.deaths, app, buf.len()) else {
            return Err(self.linked.take_short(app));
        };
        let taken = self.linked.take(app, what, buf);
        took(&mut self.lives, &self.deaths, app, buf.len());
        Ok(taken)
    }

    fn end(&mut self, app: u32)
        ensures seen { Ends W.Tells app (seen_of W.seen self.old.linked) (seen_of W.seen self.new.linked) }
        ensures ended { IfSome (slice_get self.new.lives.items app) (λ m. (m.object ≡ None) × (m.held.items ≡ [])) }
        ensures others { (i : ℕ) → i ≢ app → slice_get self.new.lives.items i ≡ slice_get self.old.lives.items i }
    {
        self.linked.end(app);
        end(&mut self.lives, app);
    }

    fn send(&mut self, dpid: Dpid, frame: &[u8]) -> Result<(), LinkFault> {
        self.linked.send(dpid, frame)
    }

    fn recv(&mut self, dpid: Dpid, buf: &mut [u8]) -> Result<usize, LinkFault> {
        self.linked.recv(dpid, buf)
    }

    fn can_part(&self) -> bool {
        false
    }

    fn part(&mut self, _dpid: Dpid) {}
}
