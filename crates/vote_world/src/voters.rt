//! The other world, and the applications that have copies there.

ghost use Rattle.std.specs.Prelude.{◌≡◌, ◌≢◌, ◌<◌, ◌≤◌, ℕ, [], length, true, false, Ok, IsOk, IfOk, IfSome, Option, None, slice_get};
ghost use Rattle.of_types.specs.Membership.{is_among};
ghost use Rattle.of_wire.specs.Reading.{reading_of};
ghost use Rattle.outside.specs.State.{state, is_running};
ghost use Rattle.outside.specs.Calls.{most_message, Opens, Nexts, Starts, Gives, Takes, Ends, Sends, Receives};
ghost use Rattle.linked_world.specs.Linked.{seen_of, IsTakeable};
ghost use Rattle.linked_world.specs.Still.{Still, Tried};
ghost use Rattle.vote_world.specs.Lives.{Rests, AppGoes, AppBegins, IsPolled, bytes_in, what_in, taken_in};
ghost use Rattle.vote_world.specs.World.{IsVotings, TakesOf, Keeps, IsFresh, CopiesAt, Remains, Answers, StartsTo, GivesTo, IsEnded, BegunTo, GivenTo, wants_memory};

use crate::copies::Copies;
use linked_world::Linked;
use of_types::{Dpid, TookWhat};
use outside::{GiveFault, Item, LinkFault, NextFault, OpenFault, Short, StartFault, Taken, World};
use std::alloc::Global;

/// The other world with what is noted of applications, and the applications.
#[derive(Drop)]
pub(crate) struct Voters<W: World> {
    pub(crate) alloc: Global,
    pub(crate) linked: Linked<W>,
    pub(crate) copies: Vec<Copies>,
}

/// Tells whether bytes were not given for want of memory.
fn wants_memory(given: &Result<(), GiveFault>) -> bool
    ensures { result ≡ wants_memory given.now }
{
    matches!(given, Err(GiveFault::Short))
}

impl<W: World> Voters<W> {
    /// Opens the other world.
    pub(crate) fn open(&mut self, port: u16) -> Result<(), OpenFault>
        ensures seen { Opens W.Tells (seen_of W.seen self.old.linked) (seen_of W.seen self.new.linked) result }
        ensures keeps { Keeps W.Tells W.seen self.old.linked self.old.copies.items self.new.linked self.new.copies.items }
        ensures copies { self.new.copies.items ≡ self.old.copies.items }
    {
        self.linked.open(port)
    }

    /// Tells what comes next in the other world.
    pub(crate) fn next(&mut self, buf: &mut [u8]) -> Result<Item, NextFault>
        requires { most_message ≤ length buf.old }
        ensures seen { Nexts W.Tells (seen_of W.seen self.old.linked) (seen_of W.seen self.new.linked) result buf.new }
        ensures keeps { Keeps W.Tells W.seen self.old.linked self.old.copies.items self.new.linked self.new.copies.items }
        ensures copies { self.new.copies.items ≡ self.old.copies.items }
    {
        self.linked.next(buf)
    }

    /// Sends one message to a switch of the other world.
    pub(crate) fn send(&mut self, dpid: Dpid, frame: &[u8]) -> Result<(), LinkFault>
        requires { IsOk (reading_of frame.now) }
        ensures seen { Sends W.Tells dpid frame.now (seen_of W.seen self.old.linked) (seen_of W.seen self.new.linked) result }
        ensures keeps { Keeps W.Tells W.seen self.old.linked self.old.copies.items self.new.linked self.new.copies.items }
        ensures copies { self.new.copies.items ≡ self.old.copies.items }
    {
        self.linked.send(dpid, frame)
    }

    /// Takes one message from a switch of the other world.
    pub(crate) fn recv(&mut self, dpid: Dpid, buf: &mut [u8]) -> Result<usize, LinkFault>
        requires { most_message ≤ length buf.old }
        ensures seen { Receives W.Tells dpid (seen_of W.seen self.old.linked) (seen_of W.seen self.new.linked) result buf.new }
        ensures keeps { Keeps W.Tells W.seen self.old.linked self.old.copies.items self.new.linked self.new.copies.items }
        ensures copies { self.new.copies.items ≡ self.old.copies.items }
    {
        self.linked.recv(dpid, buf)
    }

    /// Starts an application, and its copies before.
    pub(crate) fn start(&mut self, app: u32, words: &[String]) -> Result<(), StartFault>
        ensures seen { Starts W.Tells app (seen_of W.seen self.old.linked) (seen_of W.seen self.new.linked) result }
        ensures keeps { Keeps W.Tells W.seen self.old.linked self.old.copies.items self.new.linked self.new.copies.items }
        ensures idle { is_among app self.old.linked.running ≡ false → CopiesAt (StartsTo result) app self.old.copies.items self.new.copies.items }
        ensures runs { is_among app self.old.linked.running ≡ true → self.new.copies.items ≡ self.old.copies.items }
    {
        if self.linked.runs(app) {
            self.linked.start(app, false)
        } else {
            self.start_idle(app, words)
        }
    }

    /// Gives bytes to an application, and to its copies before.
    pub(crate) fn give(&mut self, app: u32, bytes: &[u8]) -> Result<(), GiveFault>
        ensures seen { Gives W.Tells app bytes.now (seen_of W.seen self.old.linked) (seen_of W.seen self.new.linked) result }
        ensures keeps { Keeps W.Tells W.seen self.old.linked self.old.copies.items self.new.linked self.new.copies.items }
        ensures runs { is_among app self.old.linked.running ≡ true → CopiesAt (GivesTo result) app self.old.copies.items self.new.copies.items }
        ensures idle { is_among app self.old.linked.running ≡ false → self.new.copies.items ≡ self.old.copies.items }
    {
        if self.linked.runs(app) {
            self.give_running(app, bytes)
        } else {
            self.linked.give(app, bytes, false)
        }
    }

    /// Takes from an application what its copies voted.
    pub(crate) fn take(&mut self, app: u32, buf: &mut [u8]) -> Result<Taken, Short>
        requires { 0 < length buf.old }
        ensures seen { Takes W.Tells app (seen_of W.seen self.old.linked) (seen_of W.seen self.new.linked) result buf.new }
        ensures keeps { Keeps W.Tells W.seen self.old.linked self.old.copies.items self.new.linked self.new.copies.items }
        ensures copies { CopiesAt Remains app self.old.copies.items self.new.copies.items }
        ensures voted { IsVotings W.Tells W.seen (record { linked = self.old.linked; copies = self.old.copies.items }) → IfOk result (λ taken. W.Tells → TakesOf W.seen app (taken_in (Ok taken) buf.new) (record { linked = self.old.linked; copies = self.old.copies.items }) (record { linked = self.new.linked; copies = self.new.copies.items })) }
    {
        if self.linked.runs(app) {
            self.take_running(app, buf)
        } else {
            Ok(self.linked.take(app, TookWhat::Closed, buf))
        }
    }

    /// Ends an application, and its copies before.
    pub(crate) fn end(&mut self, app: u32)
        ensures seen { Ends W.Tells app (seen_of W.seen self.old.linked) (seen_of W.seen self.new.linked) }
        ensures keeps { Keeps W.Tells W.seen self.old.linked self.old.copies.items self.new.linked self.new.copies.items }
        ensures copies { CopiesAt IsEnded app self.old.copies.items self.new.copies.items }
    {
        self.end_copies(app);
        self.linked.end(app);
    }

    /// Starts the copies of an application, and tells whether enough were started.
    #[tactic(auto, using(linked_world::specs::laws::StillLaws::still_none, crate::specs::laws::LifeLaws::rests_none))]
    fn start_copies(&mut self, app: u32, words: &[String]) -> Result<bool, Short>
        ensures seen { Tried W.Tells result (seen_of W.seen self.old.linked) (seen_of W.seen self.new.linked) }
        ensures size { length self.new.copies.items ≡ length self.old.copies.items }
        ensures others { (i : ℕ) → i ≢ app → slice_get self.new.copies.items i ≡ slice_get self.old.copies.items i }
        ensures here { IfSome (slice_get self.old.copies.items app) (λ o. IfSome (slice_get self.new.copies.items app) (λ n. AppBegins W.Tells W.seen o n self.old.linked self.new.linked)) }
        ensures none { slice_get self.old.copies.items app ≡ None → Rests W.Tells W.seen self.old.linked self.new.linked }
        ensures answers { IfSome (slice_get self.new.copies.items app) (λ n. Answers result n) }
    {
        let place = app as usize;
        if place < self.copies.len() {
            self.copies[place].begin(&mut self.linked, words)
        } else {
            Ok(false)
        }
    }

    /// Gives bytes to the copies of an application, and tells whether enough are in then.
    #[tactic(auto, using(linked_world::specs::laws::StillLaws::still_none, crate::specs::laws::LifeLaws::rests_none))]
    fn give_copies(&mut self, app: u32, bytes: &[u8]) -> Result<bool, Short>
        ensures seen { Tried W.Tells result (seen_of W.seen self.old.linked) (seen_of W.seen self.new.linked) }
        ensures size { length self.new.copies.items ≡ length self.old.copies.items }
        ensures others { (i : ℕ) → i ≢ app → slice_get self.new.copies.items i ≡ slice_get self.old.copies.items i }
        ensures here { IfSome (slice_get self.old.copies.items app) (λ o. IfSome (slice_get self.new.copies.items app) (λ n. AppGoes W.Tells W.seen [] o n self.old.linked self.new.linked)) }
        ensures none { slice_get self.old.copies.items app ≡ None → Rests W.Tells W.seen self.old.linked self.new.linked }
        ensures answers { IfSome (slice_get self.new.copies.items app) (λ n. Answers result n) }
    {
        let place = app as usize;
        if place < self.copies.len() {
            self.copies[place].give(&mut self.linked, bytes)
        } else {
            Ok(false)
        }
    }

    /// Takes what the copies of an application voted.
    #[tactic(auto, using(linked_world::specs::laws::StillLaws::still_none, crate::specs::laws::LifeLaws::rests_none))]
    fn take_copies(&mut self, app: u32, buf: &mut [u8]) -> Result<TookWhat, Short>
        requires { 0 < length buf.old }
        ensures seen { Tried W.Tells result (seen_of W.seen self.old.linked) (seen_of W.seen self.new.linked) }
        ensures takeable { IfOk result (λ what. IsTakeable what (length buf.new)) }
        ensures size { length self.new.copies.items ≡ length self.old.copies.items }
        ensures others { (i : ℕ) → i ≢ app → slice_get self.new.copies.items i ≡ slice_get self.old.copies.items i }
        ensures here { IfSome (slice_get self.old.copies.items app) (λ o. IfSome (slice_get self.new.copies.items app) (λ n. AppGoes W.Tells W.seen (what_in result) o n self.old.linked self.new.linked)) }
        ensures none { slice_get self.old.copies.items app ≡ None → Rests W.Tells W.seen self.old.linked self.new.linked }
        ensures polls { IfOk result (λ what. IfSome (slice_get self.old.copies.items app) (λ o. IfSome (slice_get self.new.copies.items app) (λ n. IsPolled W.Tells W.seen (bytes_in what) o n self.old.linked self.new.linked))) }
    {
        let place = app as usize;
        if place < self.copies.len() {
            self.copies[place].take(self.alloc, &mut self.linked, buf)
        } else {
            Ok(TookWhat::Closed)
        }
    }

    /// Ends the copies of an application.
    #[tactic(auto, using(linked_world::specs::laws::StillLaws::still_none, crate::specs::laws::LifeLaws::rests_none))]
    fn end_copies(&mut self, app: u32)
        ensures seen { Still W.Tells (seen_of W.seen self.old.linked) (seen_of W.seen self.new.linked) }
        ensures size { length self.new.copies.items ≡ length self.old.copies.items }
        ensures others { (i : ℕ) → i ≢ app → slice_get self.new.copies.items i ≡ slice_get self.old.copies.items i }
        ensures here { IfSome (slice_get self.old.copies.items app) (λ o. IfSome (slice_get self.new.copies.items app) (λ n. AppGoes W.Tells W.seen [] o n self.old.linked self.new.linked)) }
        ensures none { slice_get self.old.copies.items app ≡ None → Rests W.Tells W.seen self.old.linked self.new.linked }
        ensures ended { IfSome (slice_get self.old.copies.items app) (λ o. IfSome (slice_get self.new.copies.items app) (λ n. IsEnded o n)) }
    {
        let place = app as usize;
        if place < self.copies.len() {
            self.copies[place].end(&mut self.linked);
        }
    }

    /// Ends the copies of an application that could not be started or given bytes.
    #[tactic(auto, using(linked_world::specs::laws::StillLaws::still_none))]
    fn end_copies_unless(&mut self, app: u32, stands: bool)
        ensures seen { Still W.Tells (seen_of W.seen self.old.linked) (seen_of W.seen self.new.linked) }
        ensures keeps { Keeps W.Tells W.seen self.old.linked self.old.copies.items self.new.linked self.new.copies.items }
        ensures stand { stands ≡ true → self.new.copies.items ≡ self.old.copies.items }
        ensures end { stands ≡ false → CopiesAt IsEnded app self.old.copies.items self.new.copies.items }
    {
        if !stands {
            self.end_copies(app);
        }
    }

    /// Starts an application that does not run, and its copies before.
    fn start_idle(&mut self, app: u32, words: &[String]) -> Result<(), StartFault>
        requires told { W.Tells → is_running app (state (seen_of W.seen self.old.linked)) ≡ false }
        requires idle { is_among app self.old.linked.running ≡ false }
        ensures seen { Starts W.Tells app (seen_of W.seen self.old.linked) (seen_of W.seen self.new.linked) result }
        ensures keeps { Keeps W.Tells W.seen self.old.linked self.old.copies.items self.new.linked self.new.copies.items }
        ensures copies { CopiesAt (StartsTo result) app self.old.copies.items self.new.copies.items }
    {
        match self.start_copies(app, words) {
            Ok(ready) => self.begun(app, ready),
            Err(_) => Err(StartFault::Short),
        }
    }

    /// Gives bytes to an application that runs, and to its copies before.
    fn give_running(&mut self, app: u32, bytes: &[u8]) -> Result<(), GiveFault>
        requires told { W.Tells → is_running app (state (seen_of W.seen self.old.linked)) ≡ true }
        requires runs { is_among app self.old.linked.running ≡ true }
        ensures seen { Gives W.Tells app bytes.now (seen_of W.seen self.old.linked) (seen_of W.seen self.new.linked) result }
        ensures keeps { Keeps W.Tells W.seen self.old.linked self.old.copies.items self.new.linked self.new.copies.items }
        ensures copies { CopiesAt (GivesTo result) app self.old.copies.items self.new.copies.items }
    {
        match self.give_copies(app, bytes) {
            Ok(enough) => self.given(app, bytes, enough),
            Err(_) => Err(GiveFault::Short),
        }
    }

    /// Takes from an application that runs what its copies voted.
    fn take_running(&mut self, app: u32, buf: &mut [u8]) -> Result<Taken, Short>
        requires told { W.Tells → is_running app (state (seen_of W.seen self.old.linked)) ≡ true }
        requires runs { is_among app self.old.linked.running ≡ true }
        requires room { 0 < length buf.old }
        ensures seen { Takes W.Tells app (seen_of W.seen self.old.linked) (seen_of W.seen self.new.linked) result buf.new }
        ensures keeps { Keeps W.Tells W.seen self.old.linked self.old.copies.items self.new.linked self.new.copies.items }
        ensures copies { CopiesAt Remains app self.old.copies.items self.new.copies.items }
        ensures voted { IsVotings W.Tells W.seen (record { linked = self.old.linked; copies = self.old.copies.items }) → IfOk result (λ taken. W.Tells → TakesOf W.seen app (taken_in (Ok taken) buf.new) (record { linked = self.old.linked; copies = self.old.copies.items }) (record { linked = self.new.linked; copies = self.new.copies.items })) }
    {
        match self.take_copies(app, buf) {
            Ok(what) => Ok(self.linked.take(app, what, buf)),
            Err(short) => Err(short),
        }
    }

    /// Starts an application, whose copies were started or not.
    #[tactic(auto, using(linked_world::specs::laws::StillLaws::starts_before))]
    fn begun(&mut self, app: u32, ready: bool) -> Result<(), StartFault>
        ensures seen { Starts W.Tells app (seen_of W.seen self.old.linked) (seen_of W.seen self.new.linked) result }
        ensures keeps { (W.Tells → IsFresh W.seen app self.old.linked self.old.copies.items) → Keeps W.Tells W.seen self.old.linked self.old.copies.items self.new.linked self.new.copies.items }
        ensures begun { BegunTo ready result app self.old.copies.items self.new.copies.items }
    {
        let started = self.linked.start(app, ready);
        let stands = started.is_ok();
        self.end_copies_unless(app, stands);
        started
    }

    /// Gives bytes to an application, whose copies were given them or not.
    #[tactic(auto, using(linked_world::specs::laws::StillLaws::gives_before))]
    fn given(&mut self, app: u32, bytes: &[u8], enough: bool) -> Result<(), GiveFault>
        requires { is_among app self.old.linked.running ≡ true }
        ensures seen { Gives W.Tells app bytes.now (seen_of W.seen self.old.linked) (seen_of W.seen self.new.linked) result }
        ensures keeps { Keeps W.Tells W.seen self.old.linked self.old.copies.items self.new.linked self.new.copies.items }
        ensures given { GivenTo enough result app self.old.copies.items self.new.copies.items }
    {
        let given = self.linked.give(app, bytes, enough);
        let stands = !wants_memory(&given);
        self.end_copies_unless(app, stands);
        given
    }
}
