//! The calls of a simulated world that reach switches.

ghost use Rattle.std.specs.Prelude.{◌≡◌, ◌+◌, ◌≤◌, ◌<◌, [], ◌∷◌, true, not, length, take, IsOk, IsErrOf, IfSome, IfNone, Some, slice_get, OnOk, OnErr};
ghost use Rattle.of_types.specs.declared.journal.Act.TheVariants.{Sent, Got};
ghost use Rattle.of_wire.specs.Reading.{reading_of};
ghost use Rattle.outside.specs.declared.step.WorldStep.TheVariants.{Acted, SendLost, RecvLost, SendFailed, RecvFailed};
ghost use Rattle.outside.specs.State.{link_fails, is_joined, has_waiting, waits_of, link_of};
ghost use Rattle.outside.specs.Calls.{send_steps, receive_steps};
ghost use Rattle.outside.specs.InOrder.{MayComeAll};
ghost use Rattle.sim_world.specs.Tally.{tally_stray, tally_short_of, tally_fault_of};
ghost use Rattle.sim_world.specs.Links.{MayCall};
ghost use Rattle.sim_world.specs.World.{Moves, AreAsTold, all_declared, short_told};
ghost use Rattle.lego_io.specs.Count.{raised};
ghost use Rattle.sim_world.specs.Doing.{LinksStand, DoesSend, DoesReceive};

use crate::parts::Parts;
use crate::waits::copy_to_front;
use of_types::{Act, ByteList, Dpid};
use outside::{LinkFault, WorldStep};
use std::alloc::AllocError;

impl Parts {
    /// Notes that a call of a link wants memory, and whether it is out of place.
    fn want_memory_of(&mut self, dpid: Dpid, stray: bool)
        requires { length self.old.state.running ≤ self.old.room }
        ensures moves { Moves self.old self.new [] (tally_stray stray (tally_short_of dpid self.old.tally)) }
        ensures calls { self.new.calls ≡ self.old.calls }
    {
        self.tally.raise_shorts_of(dpid);
        self.tally.raise_strays(stray);
    }

    /// Tells whether the next call of the link is to fail.
    #[tactic(auto, unfolding(outside::specs::State::link_fails))]
    fn link_fails(&self, dpid: Dpid) -> bool
        requires { IfSome (link_of dpid self.now.state.links) MayCall }
        ensures { result ≡ link_fails dpid self.now.state }
    {
        self.links.is_failing(dpid)
    }

    /// Tells whether the switch is not joined.
    #[tactic(auto, unfolding(outside::specs::State::switch_of))]
    fn is_out(&self, dpid: Dpid) -> bool
        ensures { result ≡ not (is_joined dpid self.now.state) }
    {
        !self.links.is_joined(dpid)
    }

    /// Tells whether no message of the switch waits.
    #[tactic(auto, unfolding(outside::specs::State::waits_of))]
    fn none_waits(&self, dpid: Dpid) -> bool
        ensures { result ≡ not (has_waiting dpid self.now.state) }
    {
        !self.links.has_waiting(dpid)
    }

    /// Notes that a call to send failed for a switch that is joined, which is lost.
    #[tactic(auto, unfolding(outside::specs::State::after_step, crate::specs::Scripts::life_after))]
    fn send_lost(&mut self, dpid: Dpid, stray: bool)
        requires may { IfSome (link_of dpid self.old.state.links) MayCall }
        requires room { length self.old.state.running + 1 ≤ self.old.room }
        ensures moves { Moves self.old self.new (SendLost dpid ∷ []) (tally_stray stray (tally_fault_of dpid self.old.tally)) }
        ensures calls { self.new.calls ≡ self.old.calls }
    {
        self.links.lose(dpid);
        self.history.push(WorldStep::SendLost(dpid));
        self.tally.raise_faults_of(dpid);
        self.tally.raise_strays(stray);
    }

    /// Notes that a call to take a message failed for a switch that is joined, which is lost.
    #[tactic(auto, unfolding(outside::specs::State::after_step, crate::specs::Scripts::life_after))]
    fn recv_lost(&mut self, dpid: Dpid, stray: bool)
        requires may { IfSome (link_of dpid self.old.state.links) MayCall }
        requires room { length self.old.state.running + 1 ≤ self.old.room }
        ensures moves { Moves self.old self.new (RecvLost dpid ∷ []) (tally_stray stray (tally_fault_of dpid self.old.tally)) }
        ensures calls { self.new.calls ≡ self.old.calls }
    {
        self.links.lose(dpid);
        self.history.push(WorldStep::RecvLost(dpid));
        self.tally.raise_faults_of(dpid);
        self.tally.raise_strays(stray);
    }

    /// Notes that a call to send failed for a switch that is out.
    #[tactic(auto, unfolding(outside::specs::State::after_step, crate::specs::Scripts::life_after))]
    fn send_failed(&mut self, dpid: Dpid, stray: bool)
        requires may { IfSome (link_of dpid self.old.state.links) MayCall }
        requires room { length self.old.state.running + 1 ≤ self.old.room }
        ensures moves { Moves self.old self.new (SendFailed dpid ∷ []) (tally_stray stray (tally_fault_of dpid self.old.tally)) }
        ensures calls { self.new.calls ≡ self.old.calls }
    {
        self.links.fail(dpid);
        self.history.push(WorldStep::SendFailed(dpid));
        self.tally.raise_faults_of(dpid);
        self.tally.raise_strays(stray);
    }

    /// Notes that a call to take a message failed for a switch that is out.
    #[tactic(auto, unfolding(outside::specs::State::after_step, crate::specs::Scripts::life_after))]
    fn recv_failed(&mut self, dpid: Dpid, stray: bool)
        requires may { IfSome (link_of dpid self.old.state.links) MayCall }
        requires room { length self.old.state.running + 1 ≤ self.old.room }
        ensures moves { Moves self.old self.new (RecvFailed dpid ∷ []) (tally_stray stray (tally_fault_of dpid self.old.tally)) }
        ensures calls { self.new.calls ≡ self.old.calls }
    {
        self.links.fail(dpid);
        self.history.push(WorldStep::RecvFailed(dpid));
        self.tally.raise_faults_of(dpid);
        self.tally.raise_strays(stray);
    }

    /// Notes the message that was sent; takes no memory.
    #[tactic(auto, unfolding(outside::specs::State::after_step, outside::specs::State::after_act, crate::specs::Scripts::life_after))]
    fn sent(&mut self, dpid: Dpid, frame: &[u8], copy: ByteList) -> Result<(), AllocError>
        requires frame { IsOk (reading_of frame.now) }
        requires copy { copy ≡ frame.now }
        requires may { IfSome (link_of dpid self.old.state.links) MayCall }
        requires room { length self.old.state.running + 1 ≤ self.old.room }
        ensures ok { OnOk result (Moves self.old self.new (Acted (Sent dpid frame.now) ∷ []) self.old.tally) }
        ensures err { OnErr result (self.new ≡ self.old) }
        ensures calls { self.new.calls ≡ self.old.calls }
    {
        self.links.send(dpid, frame)?;
        self.history.push(WorldStep::Acted(Act::Sent(dpid, copy)));
        Ok(())
    }

    /// Sends a message to a switch, which is lost where this is to fail.
    #[tactic(auto, unfolding(outside::specs::Calls::send_steps, outside::specs::InOrder::MayCome, outside::specs::Conforming::MayStep, outside::specs::Conforming::MayAct, crate::specs::World::IsAsTold))]
    pub(crate) fn send(&mut self, dpid: Dpid, frame: &[u8]) -> Result<(), LinkFault>
        requires frame { IsOk (reading_of frame.now) }
        requires stands { LinksStand self.old }
        ensures does { DoesSend dpid frame.now self.old self.new result }
        ensures word { MayComeAll (all_declared self.old.state) (send_steps dpid frame.now (is_joined dpid self.old.state) result) self.old.state }
        ensures told { AreAsTold self.old.told self.old.nexts (send_steps dpid frame.now (is_joined dpid self.old.state) result) self.old.state }
        ensures short { short_told self.old.told self.old.calls ≡ true → IsErrOf result LinkFault.Short }
        ensures calls { self.new.calls ≡ raised self.old.calls }
    {
        let stray = self.is_out(dpid);
        if !self.is_ready(1) {
            self.want_memory_of(dpid, stray);
            return Err(LinkFault::Short);
        }
        let Ok(copy) = ByteList::from_slice(self.alloc, frame) else {
            self.want_memory_of(dpid, stray);
            return Err(LinkFault::Short);
        };
        if stray {
            self.send_failed(dpid, stray);
            return Err(LinkFault::Failed);
        }
        if self.link_fails(dpid) {
            self.send_lost(dpid, stray);
            return Err(LinkFault::Failed);
        }
        match self.sent(dpid, frame, copy) {
            Ok(()) => Ok(()),
            Err(_) => {
                self.want_memory_of(dpid, stray);
                Err(LinkFault::Short)
            }
        }
    }

    /// Notes the message that was taken, and copies it to the front of the buffer; takes no memory.
    #[tactic(auto, unfolding(outside::specs::State::after_step, outside::specs::State::after_act, outside::specs::State::waits_of, crate::specs::Scripts::life_after))]
    fn got(&mut self, dpid: Dpid, buf: &mut [u8]) -> Option<usize>
        requires may { IfSome (link_of dpid self.old.state.links) MayCall }
        requires buf { 65535 ≤ length buf.old }
        requires room { length self.old.state.running + 1 ≤ self.old.room }
        ensures some { IfSome result (λ n. Moves self.old self.new (Acted (Got dpid (take n buf.new)) ∷ []) self.old.tally) }
        ensures message { IfSome result (λ n. slice_get (waits_of dpid self.old.state) 0 ≡ Some (take n buf.new)) }
        ensures within { IfSome result (λ n. (n ≤ length buf.new) × (n ≤ 65535)) }
        ensures none { IfNone result ((waits_of dpid self.old.state ≡ []) × (self.new ≡ self.old)) }
        ensures calls { self.new.calls ≡ self.old.calls }
    {
        let message = self.links.got(dpid)?;
        let len = copy_to_front(message.as_slice(), buf);
        self.history.push(WorldStep::Acted(Act::Got(dpid, message)));
        Some(len)
    }

    /// Takes a message of a switch, which is lost where this is to fail, or where none waits.
    #[tactic(auto, unfolding(outside::specs::Calls::receive_steps, outside::specs::InOrder::MayCome, outside::specs::Conforming::MayStep, outside::specs::Conforming::MayAct, crate::specs::World::IsAsTold))]
    pub(crate) fn recv(&mut self, dpid: Dpid, buf: &mut [u8]) -> Result<usize, LinkFault>
        requires stands { LinksStand self.old }
        requires buf { 65535 ≤ length buf.old }
        ensures does { DoesReceive dpid self.old self.new result buf.new }
        ensures word { MayComeAll (all_declared self.old.state) (receive_steps dpid (is_joined dpid self.old.state) result buf.new) self.old.state }
        ensures told { AreAsTold self.old.told self.old.nexts (receive_steps dpid (is_joined dpid self.old.state) result buf.new) self.old.state }
        ensures short { short_told self.old.told self.old.calls ≡ true → IsErrOf result LinkFault.Short }
        ensures calls { self.new.calls ≡ raised self.old.calls }
    {
        let stray = self.none_waits(dpid);
        if !self.is_ready(1) {
            self.want_memory_of(dpid, stray);
            return Err(LinkFault::Short);
        }
        if self.is_out(dpid) {
            self.recv_failed(dpid, stray);
            return Err(LinkFault::Failed);
        }
        if self.link_fails(dpid) {
            self.recv_lost(dpid, stray);
            return Err(LinkFault::Failed);
        }
        match self.got(dpid, buf) {
            Some(len) => Ok(len),
            None => {
                self.recv_lost(dpid, stray);
                Err(LinkFault::Failed)
            }
        }
    }
}
