//! A world that tells, over one that need not.

ghost use Rattle.std.specs.Prelude.{◌≡◌, ◌⊎◌, ◌<◌, ◌≤◌, ◌↔◌, ◌^◌, [], false, length, Ok, Err, IfOk, IsOk, IsErr, IsTrue};
ghost use Rattle.of_types.specs.Membership.{is_among};
ghost use Rattle.of_wire.specs.Reading.{reading_of};
ghost use Rattle.outside.specs.declared.faults.NextFault.TheVariants.{Short as ShortNext};
ghost use Rattle.outside.specs.State.{state, is_joined};
ghost use Rattle.outside.specs.Calls.{most_message, Opens, Nexts, Starts, Gives, Takes, Ends, Sends, Receives, PartsWith};
ghost use Rattle.outside.specs.Parting.{TellsMessage, GivesMessage};
ghost use Rattle.telling_world.specs.Story.{untold, seen_of, ListsAsTold, ListsAsLost, PassesItem, PassesMessage};

use crate::joined::Joined;
use crate::story::Story;
use of_types::Dpid;
use outside::{GiveFault, Item, LinkFault, NextFault, OpenFault, Short, StartFault, Taken, World};
use std::alloc::Global;
use std::marker::Model;

/// A world that passes each call on to another one, and tells as its history what was said: each call with its answer, and the bytes that
/// went to and fro. A message for a switch that has not joined, or that left or was lost since, is not passed on and fails.
///
/// It shows nothing of what is outside: no stimulus is foretold, so each join, leave and moment is one that begins as it is told. Contracts see
/// the world within, and what was told.
#[derive(Drop)]
pub struct Telling<W> {
    world: W,
    story: Story,
    joined: Joined,
}

impl<W> Model for Telling<W> {
    ghost use Rattle.telling_world.specs.Story.{TellingData, AreJoined};

    ghost Value = { TellingData W };

    ghost view = { λ t. record { world = t.world; story = t.story } };

    ghost invariant = { λ t. AreJoined t.joined t.story };
}

impl<W> Telling<W> {
    /// Takes this world, of which nothing was told yet. Takes no memory.
    #[tactic(auto, using(crate::specs::laws::StoryLaws::untold_story))]
    pub fn new(alloc: Global, world: W) -> Telling<W>
        ensures { result ≡ record { world = world; story = untold } }
    {
        Telling {
            world,
            story: Story::new(),
            joined: Joined::new(alloc),
        }
    }

    /// Lends the world within.
    pub fn world(&self) -> &W
        ensures { result.now ≡ self.now.world }
    {
        &self.world
    }

    /// Finds that it shows nothing of what is outside.
    #[tactic(auto, using(crate::specs::laws::StoryLaws::unshown))]
    pub fn shows_nothing(&self)
        ensures { (seen_of self.now.story).given.shows ≡ false }
    {
        let _story = &self.story;
    }

    /// Gives back the world within. Takes no memory.
    pub fn into_world(self) -> W
        ensures { result ≡ self.world }
    {
        self.world
    }
}

/// Notes which switch joins or leaves; where there is no memory for a number, the answer is that.
fn follow(joined: &mut Joined, answer: Result<Item, NextFault>) -> Result<Item, NextFault>
    ensures lists { ListsAsTold result joined.old joined.new }
    ensures same { (result ≡ answer) ⊎ (result ≡ Err ShortNext) }
{
    match answer {
        Ok(Item::Joined(dpid, length)) => {
            if joined.insert(dpid).is_err() {
                return Err(NextFault::Short);
            }
            Ok(Item::Joined(dpid, length))
        }
        Ok(Item::Left(dpid)) => {
            joined.remove(dpid);
            Ok(Item::Left(dpid))
        }
        other => other,
    }
}

/// Takes out a switch whose link failed.
fn lose<T>(joined: &mut Joined, dpid: Dpid, answer: &Result<T, LinkFault>)
    ensures { ListsAsLost dpid answer.now joined.old joined.new }
{
    if matches!(answer, Err(LinkFault::Failed)) {
        joined.remove(dpid);
    }
}

impl<W: World> World for Telling<W> {
    ghost Tells = { Unit {0} };

    ghost Own = { Unit {0} };

    ghost CanPart = { W.CanPart };

    ghost seen = { λ t. seen_of t.story };

    #[tactic(auto, using(crate::specs::laws::StoryLaws::opened_so, crate::specs::laws::StoryLaws::opened_story))]
    fn open(&mut self, port: u16) -> Result<(), OpenFault>
        ensures told { Opens (Unit {0}) (seen_of self.old.story) (seen_of self.new.story) result }
        ensures within { Opens W.Tells (W.seen self.old.world) (W.seen self.new.world) result }
    {
        let answer = self.world.open(port);
        self.story.opened(&answer);
        answer
    }

    #[tactic(auto, using(crate::specs::laws::StoryLaws::came_so, crate::specs::laws::StoryLaws::came_story, crate::specs::laws::StoryLaws::holds_item, crate::specs::laws::StoryLaws::passed_item))]
    fn next(&mut self, buf: &mut [u8]) -> Result<Item, NextFault>
        requires { most_message ≤ length buf.old }
        ensures told { Nexts (Unit {0}) (seen_of self.old.story) (seen_of self.new.story) result buf.new }
        ensures message { W.CanPart → TellsMessage result buf.new }
        ensures within { PassesItem W.Tells (W.seen self.old.world) (W.seen self.new.world) result buf.new }
    {
        let answer = self.world.next(buf);
        let answer = follow(&mut self.joined, answer);
        self.story.came(&answer, buf);
        answer
    }

    #[tactic(auto, using(crate::specs::laws::StoryLaws::started_so, crate::specs::laws::StoryLaws::started_story))]
    fn start(&mut self, app: u32, words: &[String]) -> Result<(), StartFault>
        ensures told { Starts (Unit {0}) app (seen_of self.old.story) (seen_of self.new.story) result }
        ensures within { Starts W.Tells app (W.seen self.old.world) (W.seen self.new.world) result }
    {
        let answer = self.world.start(app, words);
        self.story.started(app, &answer);
        answer
    }

    #[tactic(auto, using(crate::specs::laws::StoryLaws::gave_so, crate::specs::laws::StoryLaws::gave_story))]
    fn give(&mut self, app: u32, bytes: &[u8]) -> Result<(), GiveFault>
        ensures told { Gives (Unit {0}) app bytes.now (seen_of self.old.story) (seen_of self.new.story) result }
        ensures within { Gives W.Tells app bytes.now (W.seen self.old.world) (W.seen self.new.world) result }
    {
        let answer = self.world.give(app, bytes);
        self.story.gave(app, bytes, &answer);
        answer
    }

    #[tactic(auto, using(crate::specs::laws::StoryLaws::took_so, crate::specs::laws::StoryLaws::took_story, crate::specs::laws::StoryLaws::holds_taken))]
    fn take(&mut self, app: u32, buf: &mut [u8]) -> Result<Taken, Short>
        requires { 0 < length buf.old }
        ensures told { Takes (Unit {0}) app (seen_of self.old.story) (seen_of self.new.story) result buf.new }
        ensures within { Takes W.Tells app (W.seen self.old.world) (W.seen self.new.world) result buf.new }
    {
        let answer = self.world.take(app, buf);
        self.story.took(app, &answer, buf);
        answer
    }

    #[tactic(auto, using(crate::specs::laws::StoryLaws::ended_so, crate::specs::laws::StoryLaws::ended_story))]
    fn end(&mut self, app: u32)
        ensures told { Ends (Unit {0}) app (seen_of self.old.story) (seen_of self.new.story) }
        ensures within { Ends W.Tells app (W.seen self.old.world) (W.seen self.new.world) }
    {
        self.world.end(app);
        self.story.ended(app);
    }

    #[tactic(auto, using(crate::specs::laws::StoryLaws::sent_so, crate::specs::laws::StoryLaws::sent_story, crate::specs::laws::StoryLaws::passed_message))]
    fn send(&mut self, dpid: Dpid, frame: &[u8]) -> Result<(), LinkFault>
        requires { IsOk (reading_of frame.now) }
        ensures told { Sends (Unit {0}) dpid frame.now (seen_of self.old.story) (seen_of self.new.story) result }
        ensures within { PassesMessage W.Tells dpid frame.now (is_joined dpid (state (seen_of self.old.story))) (W.seen self.old.world) (W.seen self.new.world) result }
    {
        let answer = if self.joined.holds(dpid) {
            self.world.send(dpid, frame)
        } else {
            Err(LinkFault::Failed)
        };
        lose(&mut self.joined, dpid, &answer);
        self.story.sent(dpid, frame, &answer);
        answer
    }

    #[tactic(auto, using(crate::specs::laws::StoryLaws::received_so, crate::specs::laws::StoryLaws::received_story, crate::specs::laws::StoryLaws::holds_message))]
    fn recv(&mut self, dpid: Dpid, buf: &mut [u8]) -> Result<usize, LinkFault>
        requires { most_message ≤ length buf.old }
        ensures told { Receives (Unit {0}) dpid (seen_of self.old.story) (seen_of self.new.story) result buf.new }
        ensures message { W.CanPart → GivesMessage result buf.new }
        ensures within { Receives W.Tells dpid (W.seen self.old.world) (W.seen self.new.world) result buf.new }
    {
        let answer = self.world.recv(dpid, buf);
        lose(&mut self.joined, dpid, &answer);
        self.story.received(dpid, &answer, buf);
        answer
    }

    fn can_part(&self) -> bool {
        self.world.can_part()
    }

    #[tactic(auto, using(crate::specs::laws::StoryLaws::sent_so, crate::specs::laws::StoryLaws::sent_story))]
    fn part(&mut self, dpid: Dpid)
        ensures told { PartsWith (Unit {0}) dpid (seen_of self.old.story) (seen_of self.new.story) }
        ensures within { W.CanPart → PartsWith W.Tells dpid (W.seen self.old.world) (W.seen self.new.world) }
    {
        self.world.part(dpid);
        let answer: Result<(), LinkFault> = Err(LinkFault::Failed);
        lose(&mut self.joined, dpid, &answer);
        self.story.sent(dpid, &[], &answer);
    }
}
