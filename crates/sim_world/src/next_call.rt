//! What comes next in a simulated world.

ghost use Rattle.std.specs.List.{AllByRecursion};
ghost use Rattle.std.specs.Option.{option_to_list};
ghost use Rattle.std.specs.VecDeque.{deque_len, deque_capacity};
ghost use Rattle.std.specs.Prelude.{◌≡◌, ◌+◌, ◌-◌, ◌^◌, ◌≤◌, ◌<◌, ◌++◌, [], ◌∷◌, All, length, false, true, IfOk, IfSome, IfNone, OnOk, OnErr, IsErrOf, Some, slice_get};
ghost use Rattle.of_types.specs.declared.journal.Act.TheVariants.{Stim};
ghost use Rattle.of_types.specs.declared.journal.WorldStim.{WorldStim};
ghost use Rattle.outside.specs.declared.step.WorldStep.TheVariants.{Acted, Idle, End, NextFailed};
ghost use Rattle.outside.specs.State.{moment_after, waiting_in};
ghost use Rattle.outside.specs.Calls.{item_step, IsItemIn};
ghost use Rattle.outside.specs.Conforming.{IsWorldStim};
ghost use Rattle.lego_io.specs.Count.{raised};
ghost use Rattle.sim_world.specs.Links.{IsDue, StandsAt};
ghost use Rattle.sim_world.specs.laws.NextLaws.{IsMessage};
ghost use Rattle.sim_world.specs.Doing.{Tells, NextStands, DoesNext};
ghost use Rattle.sim_world.specs.World.{Moves, all_declared, next_told, short_told};

use crate::parts::Parts;
use crate::waits::copy_to_front;
use of_types::{Act, WorldStim};
use outside::{CallKind, Item, NextFault, WorldStep};
use std::alloc::AllocError;
use std::collections::VecDeque;

/// Returns the item that tells a step that is due, with its bytes in the front of the buffer.
#[tactic(auto, unfolding(outside::specs::Calls::item_step, crate::specs::Links::IsDue))]
fn item_of(step: &WorldStep, buf: &mut [u8]) -> Item
    requires due { IsDue step.now }
    requires buf { 65535 ≤ length buf.old }
    ensures step { item_step result buf.new ≡ step.now }
    ensures item { IsItemIn (Unit {0}) result buf.new }
{
    match step {
        WorldStep::Joined(dpid, bytes) => Item::Joined(*dpid, copy_to_front(bytes.as_slice(), buf)),
        WorldStep::Left(dpid) => Item::Left(*dpid),
        WorldStep::Moment(moment) => Item::Moment(*moment),
        WorldStep::Acted(_)
        | WorldStep::TookInto(..)
        | WorldStep::From(..)
        | WorldStep::Idle
        | WorldStep::End
        | WorldStep::Opened
        | WorldStep::NotOpened
        | WorldStep::NextFailed
        | WorldStep::SendLost(_)
        | WorldStep::RecvLost(_)
        | WorldStep::SendFailed(_)
        | WorldStep::RecvFailed(_) => Item::Idle,
    }
}

impl Parts {
    /// Notes that `next` failed.
    #[tactic(auto, unfolding(outside::specs::State::after_step, crate::specs::Scripts::life_after))]
    fn next_failed(&mut self)
        requires room { length self.old.state.running + 1 ≤ self.old.room }
        requires few { self.old.nexts < 2 ^ 64 - 1 }
        ensures moves { Moves self.old self.new (NextFailed ∷ []) (record self.old.tally { next_faults = raised self.old.tally.next_faults }) }
        ensures calls { self.new.calls ≡ self.old.calls }
    {
        self.history.push(WorldStep::NextFailed);
        self.nexts += 1;
        self.tally.raise_next_faults();
    }

    /// Tells the end, as the answer of `next`.
    #[tactic(auto, unfolding(outside::specs::State::after_step, crate::specs::Scripts::life_after))]
    fn tell_end(&mut self)
        requires room { length self.old.state.running + 1 ≤ self.old.room }
        requires few { self.old.nexts < 2 ^ 64 - 1 }
        ensures moves { Moves self.old self.new (End ∷ []) self.old.tally }
        ensures calls { self.new.calls ≡ self.old.calls }
    {
        self.history.push(WorldStep::End);
        self.nexts += 1;
    }

    /// Tells that nothing waits, as the answer of `next`.
    #[tactic(auto, unfolding(outside::specs::State::after_step, crate::specs::Scripts::life_after))]
    fn tell_idle(&mut self)
        requires room { length self.old.state.running + 1 ≤ self.old.room }
        requires few { self.old.nexts < 2 ^ 64 - 1 }
        ensures moves { Moves self.old self.new (Idle ∷ []) self.old.tally }
        ensures calls { self.new.calls ≡ self.old.calls }
    {
        self.history.push(WorldStep::Idle);
        self.nexts += 1;
        self.begun = false;
    }

    /// Begins a stimulus, the next of those to come; a copy of it goes into the history. After want of memory all is as
    /// before.
    #[tactic(auto, using(crate::specs::laws::NextLaws::due_is, crate::specs::laws::NextLaws::one_fewer, crate::specs::laws::NextLaws::all_due, crate::specs::laws::NextLaws::next_within), unfolding(crate::specs::World::all_declared, outside::specs::State::after_step, outside::specs::State::after_act, outside::specs::State::after_stim, crate::specs::Scripts::life_after))]
    fn begin_with(&mut self, x: WorldStim) -> Result<(), AllocError>
        requires next { slice_get self.old.state.to_come 0 ≡ Some x }
        requires room { length self.old.state.running + 2 ≤ self.old.room }
        requires stimulus { IsWorldStim (all_declared self.old.state) self.old.state.moment x }
        requires stand { AllByRecursion (λ l. StandsAt self.old.state.moment l.switch) self.old.state.links }
        requires within { self.old.state.moment ≤ 4294967295 }
        requires due { All IsDue self.old.state.due }
        ensures ok { OnOk result (Moves self.old self.new (Acted (Stim x) ∷ []) self.old.tally) }
        ensures room { OnOk result (length self.new.state.running + 1 ≤ self.new.room) }
        ensures few { OnOk result (length (waiting_in self.new.state.links) ≤ length (waiting_in self.old.state.links) + 262144) }
        ensures due { OnOk result (All IsDue self.new.state.due) }
        ensures begun { OnOk result (self.new.state.begun ≡ true) }
        ensures nexts { OnOk result (self.new.nexts ≡ self.old.nexts) }
        ensures err { OnErr result (self.new ≡ self.old) }
        ensures calls { self.new.calls ≡ self.old.calls }
    {
        // There are fewer stimuli than a number of this size counts.
        let _count = self.stimuli.len();
        self.due.reserve(1)?;
        let due = self.links.begin(&x, self.moment)?;
        push_due(&mut self.due, due);
        self.moment = moment_after(&x, self.moment);
        self.begun_stimuli += 1;
        self.begun = true;
        self.history.push(WorldStep::Acted(Act::Stim(x)));
        Ok(())
    }

    /// Tells what is due, if anything is.
    #[tactic(auto, using(crate::specs::laws::NextLaws::due_moves, crate::specs::laws::NextLaws::due_lives, crate::specs::laws::NextLaws::due_counts, crate::specs::laws::NextLaws::first_due))]
    fn tell_due(&mut self, buf: &mut [u8]) -> Option<Item>
        requires room { length self.old.state.running + 1 ≤ self.old.room }
        requires few { self.old.nexts < 2 ^ 64 - 1 }
        requires due { All IsDue self.old.state.due }
        requires buf { 65535 ≤ length buf.old }
        ensures moves { IfSome result (λ item. Moves self.old self.new (item_step item buf.new ∷ []) self.old.tally) }
        ensures due { IfSome result (λ item. IsDue (item_step item buf.new)) }
        ensures first { IfSome result (λ item. slice_get self.old.state.due 0 ≡ Some (item_step item buf.new)) }
        ensures within { IfSome result (λ item. IsItemIn (Unit {0}) item buf.new) }
        ensures none { IfNone result ((self.old.state.due ≡ []) × (self.new ≡ self.old)) }
        ensures calls { self.new.calls ≡ self.old.calls }
    {
        let step = self.due.pop_front()?;
        let item = item_of(&step, buf);
        self.history.push(step);
        self.nexts += 1;
        Some(item)
    }

    /// Tells the message that waits and comes next, if any waits.
    #[tactic(auto, unfolding(outside::specs::State::after_step, outside::specs::Calls::item_step, crate::specs::Scripts::life_after))]
    fn tell_message(&mut self, buf: &mut [u8]) -> Option<Item>
        requires room { length self.old.state.running + 1 ≤ self.old.room }
        requires few { self.old.nexts < 2 ^ 64 - 1 }
        requires buf { 65535 ≤ length buf.old }
        ensures moves { IfSome result (λ item. Moves self.old self.new (item_step item buf.new ∷ []) self.old.tally) }
        ensures next { IfSome result (λ item. slice_get (waiting_in self.old.state.links) 0 ≡ Some (item_step item buf.new)) }
        ensures message { IfSome result (λ item. IsMessage item) }
        ensures within { IfSome result (λ item. IsItemIn (Unit {0}) item buf.new) }
        ensures none { IfNone result ((waiting_in self.old.state.links ≡ []) × (self.new ≡ self.old)) }
        ensures calls { self.new.calls ≡ self.old.calls }
    {
        let (dpid, message) = self.links.told()?;
        let len = copy_to_front(message.as_slice(), buf);
        self.history.push(WorldStep::From(dpid, message));
        self.nexts += 1;
        Some(Item::From(dpid, len))
    }

    /// Tells what comes next of the stimulus that is begun.
    #[tactic(auto, using(crate::specs::laws::TellLaws::Tells_by_due, crate::specs::laws::TellLaws::Tells_by_message, crate::specs::laws::TellLaws::Tells_by_idle))]
    fn tell(&mut self, buf: &mut [u8]) -> Item
        requires begun { self.old.state.begun ≡ true }
        requires room { length self.old.state.running + 1 ≤ self.old.room }
        requires few { self.old.nexts < 2 ^ 64 - 1 }
        requires due { All IsDue self.old.state.due }
        requires buf { 65535 ≤ length buf.old }
        ensures tells { Tells self.old self.new result buf.new }
        ensures calls { self.new.calls ≡ self.old.calls }
    {
        if let Some(item) = self.tell_due(buf) {
            return item;
        }
        if let Some(item) = self.tell_message(buf) {
            return item;
        }
        self.tell_idle();
        Item::Idle
    }

    /// Copies the next stimulus to come, if one is.
    fn next_stimulus(&self) -> Result<Option<WorldStim>, AllocError>
        ensures none { IfOk result (λ next. IfNone next (self.now.state.to_come ≡ [])) }
        ensures some { IfOk result (λ next. IfSome next (λ x. slice_get self.now.state.to_come 0 ≡ Some x)) }
    {
        self.stimuli.get(self.alloc, self.begun_stimuli)
    }

    /// Tells whether the next answer of `next` is told to fail.
    fn is_next_told(&self) -> bool
        requires { self.now.nexts < 2 ^ 64 - 1 }
        ensures { result ≡ next_told self.now.told self.now.nexts }
    {
        self.told.is_told(CallKind::Next, 0, self.nexts + 1)
    }

    /// Begins a stimulus and tells what comes first of it, or wants memory.
    #[tactic(auto, using(crate::specs::laws::NextCallLaws::Next_begun, crate::specs::laws::NextCallLaws::Next_short, crate::specs::laws::NextCallLaws::can_come_next))]
    fn begin_and_tell(&mut self, x: WorldStim, buf: &mut [u8]) -> Result<Item, NextFault>
        requires stands { NextStands self.old }
        requires told { next_told self.old.told self.old.nexts ≡ false }
        requires rests { self.old.state.begun ≡ false }
        requires next { slice_get self.old.state.to_come 0 ≡ Some x }
        requires room { length self.old.state.running + 2 ≤ self.old.room }
        requires buf { 65535 ≤ length buf.old }
        ensures does { DoesNext self.old self.new result buf.new }
        ensures calls { self.new.calls ≡ self.old.calls }
    {
        match self.begin_with(x) {
            Ok(()) => Ok(self.tell(buf)),
            Err(_) => {
                self.want_memory(false);
                Err(NextFault::Short)
            }
        }
    }

    /// Tells what comes next, where there is room for two steps.
    #[tactic(auto, using(crate::specs::laws::NextCallLaws::Next_failed, crate::specs::laws::NextCallLaws::Next_told, crate::specs::laws::NextCallLaws::Next_end, crate::specs::laws::NextCallLaws::Next_short))]
    fn next_in_room(&mut self, buf: &mut [u8]) -> Result<Item, NextFault>
        requires stands { NextStands self.old }
        requires room { length self.old.state.running + 2 ≤ self.old.room }
        requires buf { 65535 ≤ length buf.old }
        ensures does { DoesNext self.old self.new result buf.new }
        ensures calls { self.new.calls ≡ self.old.calls }
    {
        if self.is_next_told() {
            self.next_failed();
            return Err(NextFault::Failed);
        }
        if self.begun {
            return Ok(self.tell(buf));
        }
        match self.next_stimulus() {
            Ok(Some(x)) => self.begin_and_tell(x, buf),
            Ok(None) => {
                self.tell_end();
                Ok(Item::End)
            }
            Err(_) => {
                self.want_memory(false);
                Err(NextFault::Short)
            }
        }
    }

    /// Tells what comes next.
    #[tactic(auto, using(crate::specs::laws::NextCallLaws::NextStands_ready, crate::specs::laws::NextCallLaws::Next_short_ready))]
    pub(crate) fn next(&mut self, buf: &mut [u8]) -> Result<Item, NextFault>
        requires stands { NextStands self.old }
        requires buf { 65535 ≤ length buf.old }
        ensures does { DoesNext self.old self.new result buf.new }
        ensures short { short_told self.old.told self.old.calls ≡ true → IsErrOf result NextFault.Short }
        ensures calls { self.new.calls ≡ raised self.old.calls }
    {
        if !self.is_ready(2) {
            self.want_memory(false);
            return Err(NextFault::Short);
        }
        self.next_in_room(buf)
    }
}

/// Puts what is due behind the rest; there is room for it.
fn push_due(all: &mut VecDeque<WorldStep>, due: Option<WorldStep>)
    requires { deque_len all.old < deque_capacity all.old }
    ensures { all.new.items ≡ all.old.items ++ option_to_list due }
{
    if let Some(step) = due {
        all.push_back_reserved(step);
    }
}

/// Returns the moment when a stimulus has begun.
fn moment_after(x: &WorldStim, moment: u64) -> u64
    ensures { result ≡ moment_after x.now moment }
{
    match x {
        WorldStim::At(next) => *next,
        _ => moment,
    }
}
