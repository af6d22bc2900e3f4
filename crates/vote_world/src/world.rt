//! A world in which an application has three copies.

ghost use Rattle.std.specs.Prelude.{◌≡◌, ◌==◌, ◌+◌, ◌<◌, ◌≤◌, [], ◌∷◌, ◌++◌, length, true, false, Ok, IsOk, IfOk, OnOk};
ghost use Rattle.outside.specs.InOrder.{InOrder, BringMessages};
ghost use Rattle.outside.specs.Conforming.{Conforming};
ghost use Rattle.of_types.specs.Membership.{is_among};
ghost use Rattle.of_wire.specs.Reading.{reading_of};
ghost use Rattle.outside.specs.Calls.{most_message, Opens, Nexts, Starts, Gives, Takes, Ends, Sends, Receives};
ghost use Rattle.outside.specs.Parting.{TellsMessage, GivesMessage};
ghost use Rattle.linked_world.specs.Linked.{seen_of};
ghost use Rattle.vote_world.specs.Voting.{copies_in, numbered, none_in};
ghost use Rattle.vote_world.specs.Lives.{taken_in};
ghost use Rattle.vote_world.specs.World.{TakesOf, CopiesAt, Remains, StartsTo, GivesTo, IsEnded};

use crate::copies::Copies;
use crate::voters::Voters;
use linked_world::Linked;
use of_types::Dpid;
use outside::{GiveFault, Item, LinkFault, NextFault, OpenFault, Short, StartFault, Taken, World};
use std::alloc::{AllocError, Global};
use std::marker::Model;

/// A world whose switches are those of another world, and whose applications have copies there: an application is its place
/// among them. One beyond them is never started.
#[derive(Drop)]
pub struct VoteWorld<W: World> {
    parts: Voters<W>,
}

impl<W: World> Model for VoteWorld<W> {
    ghost use Rattle.vote_world.specs.World.{Votings, IsVotings};

    ghost Value = { Votings W };

    ghost view = { λ v. record { linked = v.parts.linked; copies = v.parts.copies.items } };

    ghost invariant = { λ v. IsVotings W.Tells W.seen (record { linked = v.parts.linked; copies = v.parts.copies.items }) };
}

/// How many copies all applications may have: 32 applications of three copies.
const MOST_COPIES: u32 = 96;

/// The copies that an application has, by whether it has three.
fn copies_in(three: bool) -> u32
    ensures { result ≡ copies_in three }
{
    if three { 3 } else { 1 }
}

/// Adds an application with so many copies, the first of which has this number, and tells the number behind them.
fn add(alloc: Global, all: &mut Vec<Copies>, first: u32, number: u8) -> Result<u32, AllocError>
    requires { first ≤ 96 }
    ensures all { OnOk result (all.new.items ≡ all.old.items ++ (record { first = first; three = number == 3; ballot = none_in; left = [] }) ∷ []) }
    ensures next { IfOk result (λ next. next ≡ first + copies_in (number == 3)) }
{
    let three = number == 3;
    all.push(Copies::new(alloc, first, three))
        .map_err(AllocError::from)?;
    Ok(first + copies_in(three))
}

/// The applications with so many copies, of which none was started.
fn applications(alloc: Global, copies: &[u8]) -> Result<Vec<Copies>, AllocError>
    requires { length copies.now ≤ 32 }
    ensures { IfOk result (λ all. all.items ≡ numbered 0 copies.now) }
{
    let mut all = Vec::new(alloc);
    let mut first: u32 = 0;
    for number in copies {
        first = add(alloc, &mut all, first, *number)?;
    }
    Ok(all)
}

impl<W: World + Drop> VoteWorld<W> {
    /// Takes the switches of this world, and applications of which each has three copies in it, or one: one for each number,
    /// which is 3 or 1. The copies of an application come behind those of the applications before it.
    pub fn new(alloc: Global, world: W, copies: &[u8]) -> Result<VoteWorld<W>, AllocError>
        requires { length copies.now ≤ 32 }
        ensures links { IfOk result (λ v. v.linked.links ≡ world) }
        ensures copies { IfOk result (λ v. v.copies ≡ numbered 0 copies.now) }
    {
        let applications = applications(alloc, copies)?;
        let linked = Linked::with_inside(alloc, world, MOST_COPIES)?;
        Ok(VoteWorld {
            parts: Voters {
                alloc,
                linked,
                copies: applications,
            },
        })
    }
}

impl<W: World> VoteWorld<W> {
    /// Lends the other world.
    pub fn links(&self) -> &W
        ensures { result.now ≡ self.now.linked.links }
    {
        self.parts.linked.links()
    }

    /// Finds that the world keeps its word as the other one does: with switches that tell in order it tells in order, and
    /// where all that they sent is messages, it keeps its word.
    pub fn keeps_word(&self)
        ensures order { W.Tells → InOrder (W.seen self.now.linked.links) → InOrder (seen_of W.seen self.now.linked) }
        ensures word { W.Tells → InOrder (W.seen self.now.linked.links) → BringMessages (W.seen self.now.linked.links).history
            → Conforming (seen_of W.seen self.now.linked) }
    {
        self.parts.linked.keeps_word();
    }
}

impl<W: World> World for VoteWorld<W> {
    ghost Tells = { W.Tells };

    ghost Own = { W.Own };

    ghost CanPart = { ⊥ };

    ghost seen = { λ v. seen_of W.seen v.linked };

    fn open(&mut self, port: u16) -> Result<(), OpenFault>
        ensures seen { Opens W.Tells (seen_of W.seen self.old.linked) (seen_of W.seen self.new.linked) result }
        ensures copies { self.new.copies ≡ self.old.copies }
    {
        self.parts.open(port)
    }

    fn next(&mut self, buf: &mut [u8]) -> Result<Item, NextFault>
        requires { most_message ≤ length buf.old }
        ensures seen { Nexts W.Tells (seen_of W.seen self.old.linked) (seen_of W.seen self.new.linked) result buf.new }
        ensures message { ⊥ → TellsMessage result buf.new }
        ensures copies { self.new.copies ≡ self.old.copies }
    {
        self.parts.next(buf)
    }

    fn start(&mut self, app: u32, words: &[String]) -> Result<(), StartFault>
        ensures seen { Starts W.Tells app (seen_of W.seen self.old.linked) (seen_of W.seen self.new.linked) result }
        ensures idle { is_among app self.old.linked.running ≡ false → CopiesAt (StartsTo result) app self.old.copies self.new.copies }
        ensures runs { is_among app self.old.linked.running ≡ true → self.new.copies ≡ self.old.copies }
    {
        self.parts.start(app, words)
    }

    fn give(&mut self, app: u32, bytes: &[u8]) -> Result<(), GiveFault>
        ensures seen { Gives W.Tells app bytes.now (seen_of W.seen self.old.linked) (seen_of W.seen self.new.linked) result }
        ensures runs { is_among app self.old.linked.running ≡ true → CopiesAt (GivesTo result) app self.old.copies self.new.copies }
        ensures idle { is_among app self.old.linked.running ≡ false → self.new.copies ≡ self.old.copies }
    {
        self.parts.give(app, bytes)
    }

    fn take(&mut self, app: u32, buf: &mut [u8]) -> Result<Taken, Short>
        requires { 0 < length buf.old }
        ensures seen { Takes W.Tells app (seen_of W.seen self.old.linked) (seen_of W.seen self.new.linked) result buf.new }
        ensures copies { CopiesAt Remains app self.old.copies self.new.copies }
        ensures voted { IfOk result (λ taken. W.Tells → TakesOf W.seen app (taken_in (Ok taken) buf.new) self.old self.new) }
    {
        self.parts.take(app, buf)
    }

    fn end(&mut self, app: u32)
        ensures seen { Ends W.Tells app (seen_of W.seen self.old.linked) (seen_of W.seen self.new.linked) }
        ensures copies { CopiesAt IsEnded app self.old.copies self.new.copies }
    {
        self.parts.end(app);
    }

    fn send(&mut self, dpid: Dpid, frame: &[u8]) -> Result<(), LinkFault>
        requires { IsOk (reading_of frame.now) }
        ensures seen { Sends W.Tells dpid frame.now (seen_of W.seen self.old.linked) (seen_of W.seen self.new.linked) result }
        ensures copies { self.new.copies ≡ self.old.copies }
    {
        self.parts.send(dpid, frame)
    }

    fn recv(&mut self, dpid: Dpid, buf: &mut [u8]) -> Result<usize, LinkFault>
        requires { most_message ≤ length buf.old }
        ensures seen { Receives W.Tells dpid (seen_of W.seen self.old.linked) (seen_of W.seen self.new.linked) result buf.new }
        ensures message { ⊥ → GivesMessage result buf.new }
        ensures copies { self.new.copies ≡ self.old.copies }
    {
        self.parts.recv(dpid, buf)
    }

    fn can_part(&self) -> bool {
        false
    }

    fn part(&mut self, _dpid: Dpid) {}
}
