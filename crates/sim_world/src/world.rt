//! A simulated world.

ghost use Rattle.std.specs.Prelude.{◌≡◌, ◌<◌, ◌≤◌, true, length, IsOk, IsErr, IsErrOf};
ghost use Rattle.of_wire.specs.Reading.{reading_of};
ghost use Rattle.lego_io.specs.Count.{raised};
ghost use Rattle.outside.specs.Calls.{most_message, Opens, Nexts, Starts, Gives, Takes, Ends, Sends, Receives};
ghost use Rattle.outside.specs.InOrder.{InOrder};
ghost use Rattle.sim_world.specs.Told.{without_links};
ghost use Rattle.sim_world.specs.Scripts.{KeepsScripts};
ghost use Rattle.sim_world.specs.Places.{AreExpected};
ghost use Rattle.sim_world.specs.World.{AreAsTold, seen_of, given_of, short_told};
ghost use Rattle.outside.specs.State.{at_first};

use crate::parts::Parts;
use of_types::Dpid;
use outside::{GiveFault, Item, LinkFault, NextFault, OpenFault, Short, StartFault, Taken, World};
use std::marker::Model;

/// A world of simulated switches and scripted applications, in which stimuli happen and calls fail as told.
///
/// It tells its history, and keeps its word: see `keeps_word`. Contracts see it as data (`WorldData`), and by the
/// trait `World` as what is seen of it.
#[derive(Debug, Drop)]
pub struct SimWorld {
    pub(crate) parts: Parts,
}

impl Model for SimWorld {
    ghost use Rattle.sim_world.specs.World.{WorldData};
    ghost use Rattle.sim_world.specs.Keeping.{Keeps};

    ghost Value = { WorldData };

    ghost view = { λ w. w.parts };

    ghost invariant = { λ w. Keeps w.parts };
}

impl SimWorld {
    /// Finds that the world keeps its word: what its switches send is told in order, none of it missing until a switch is
    /// lost, so that with messages it conforms to what a world of switches may do; applications do what their scripts say;
    /// calls fail where they are told to or out of place, and nowhere else; and where each call was in place, no more
    /// were counted as out of place than wanted memory.
    #[tactic(auto, using(crate::specs::laws::StandingLaws::in_order, crate::specs::laws::StandingLaws::scripts_kept, crate::specs::laws::StandingLaws::told_kept, crate::specs::laws::StandingLaws::strays_kept))]
    pub fn keeps_word(&self)
        ensures word { InOrder (seen_of self.now) }
        ensures scripts { KeepsScripts self.now.scripts (without_links self.now.fails) self.now.history }
        ensures told { AreAsTold (without_links self.now.fails) 0 self.now.history (at_first (given_of self.now)) }
        ensures strays { AreExpected self.now.history (at_first (given_of self.now)) → (seen_of self.now).counts.strays ≤ (seen_of self.now).counts.shorts }
    {
        let _parts = &self.parts;
    }
}

impl World for SimWorld {
    ghost use Rattle.sim_world.specs.Scripts.{Scripts};
    ghost use Rattle.sim_world.specs.World.{seen_of};

    ghost Tells = { Unit {0} };

    ghost Own = { Scripts };

    ghost CanPart = { ⊥ };

    ghost seen = { λ w. seen_of w };

    #[tactic(auto, using(crate::specs::laws::StandingLaws::links_stand, crate::specs::laws::StandingLaws::short_kept, crate::specs::laws::DoingLaws::Opens_by, crate::specs::laws::KeepingLaws::keeps_open))]
    fn open(&mut self, _port: u16) -> Result<(), OpenFault>
        ensures seen { Opens (Unit {0}) (seen_of self.old) (seen_of self.new) result }
        ensures short { short_told self.old.fails self.old.calls ≡ true → IsErrOf result OpenFault.Short }
        ensures calls { self.new.calls ≡ raised self.old.calls }
    {
        self.parts.are_few();
        self.parts.open()
    }

    #[tactic(auto, using(crate::specs::laws::StandingLaws::next_stands, crate::specs::laws::StandingLaws::short_kept, crate::specs::laws::DoingLaws::Nexts_by, crate::specs::laws::KeepingLaws::keeps_next))]
    fn next(&mut self, buf: &mut [u8]) -> Result<Item, NextFault>
        requires { most_message ≤ length buf.old }
        ensures seen { Nexts (Unit {0}) (seen_of self.old) (seen_of self.new) result buf.new }
        ensures short { short_told self.old.fails self.old.calls ≡ true → IsErrOf result NextFault.Short }
        ensures calls { self.new.calls ≡ raised self.old.calls }
    {
        self.parts.are_few();
        self.parts.next(buf)
    }

    #[tactic(auto, using(crate::specs::laws::StandingLaws::apps_stand, crate::specs::laws::StandingLaws::short_kept, crate::specs::laws::DoingLaws::Starts_by, crate::specs::laws::KeepingLaws::keeps_start))]
    fn start(&mut self, app: u32, _words: &[String]) -> Result<(), StartFault>
        ensures seen { Starts (Unit {0}) app (seen_of self.old) (seen_of self.new) result }
        ensures short { short_told self.old.fails self.old.calls ≡ true → IsErrOf result StartFault.Short }
        ensures calls { self.new.calls ≡ raised self.old.calls }
    {
        self.parts.are_few();
        self.parts.start(app)
    }

    #[tactic(auto, using(crate::specs::laws::StandingLaws::apps_stand, crate::specs::laws::StandingLaws::short_kept, crate::specs::laws::DoingLaws::Gives_by, crate::specs::laws::KeepingLaws::keeps_give))]
    fn give(&mut self, app: u32, bytes: &[u8]) -> Result<(), GiveFault>
        ensures seen { Gives (Unit {0}) app bytes.now (seen_of self.old) (seen_of self.new) result }
        ensures short { short_told self.old.fails self.old.calls ≡ true → IsErrOf result GiveFault.Short }
        ensures calls { self.new.calls ≡ raised self.old.calls }
    {
        self.parts.are_few();
        self.parts.give(app, bytes)
    }

    #[tactic(auto, using(crate::specs::laws::StandingLaws::apps_stand, crate::specs::laws::StandingLaws::short_kept, crate::specs::laws::DoingLaws::Takes_by, crate::specs::laws::KeepingLaws::keeps_take))]
    fn take(&mut self, app: u32, buf: &mut [u8]) -> Result<Taken, Short>
        requires { 0 < length buf.old }
        ensures seen { Takes (Unit {0}) app (seen_of self.old) (seen_of self.new) result buf.new }
        ensures short { short_told self.old.fails self.old.calls ≡ true → IsErr result }
        ensures calls { self.new.calls ≡ raised self.old.calls }
    {
        self.parts.are_few();
        self.parts.take(app, buf)
    }

    #[tactic(auto, using(crate::specs::laws::StandingLaws::apps_stand, crate::specs::laws::DoingLaws::Ends_by, crate::specs::laws::KeepingLaws::keeps_end))]
    fn end(&mut self, app: u32)
        ensures seen { Ends (Unit {0}) app (seen_of self.old) (seen_of self.new) }
        ensures calls { self.new.calls ≡ self.old.calls }
    {
        self.parts.are_few();
        self.parts.end(app);
    }

    #[tactic(auto, using(crate::specs::laws::StandingLaws::links_stand, crate::specs::laws::StandingLaws::short_kept, crate::specs::laws::DoingLaws::Sends_by, crate::specs::laws::KeepingLaws::keeps_send))]
    fn send(&mut self, dpid: Dpid, frame: &[u8]) -> Result<(), LinkFault>
        requires { IsOk (reading_of frame.now) }
        ensures seen { Sends (Unit {0}) dpid frame.now (seen_of self.old) (seen_of self.new) result }
        ensures short { short_told self.old.fails self.old.calls ≡ true → IsErrOf result LinkFault.Short }
        ensures calls { self.new.calls ≡ raised self.old.calls }
    {
        self.parts.are_few();
        self.parts.send(dpid, frame)
    }

    #[tactic(auto, using(crate::specs::laws::StandingLaws::links_stand, crate::specs::laws::StandingLaws::short_kept, crate::specs::laws::DoingLaws::Receives_by, crate::specs::laws::KeepingLaws::keeps_recv))]
    fn recv(&mut self, dpid: Dpid, buf: &mut [u8]) -> Result<usize, LinkFault>
        requires { most_message ≤ length buf.old }
        ensures seen { Receives (Unit {0}) dpid (seen_of self.old) (seen_of self.new) result buf.new }
        ensures short { short_told self.old.fails self.old.calls ≡ true → IsErrOf result LinkFault.Short }
        ensures calls { self.new.calls ≡ raised self.old.calls }
    {
        self.parts.are_few();
        self.parts.recv(dpid, buf)
    }

    /// Simulated switches are never parted with.
    fn can_part(&self) -> bool {
        false
    }

    fn part(&mut self, _dpid: Dpid) {}
}
