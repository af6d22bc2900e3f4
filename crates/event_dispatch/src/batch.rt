//! A batch: what comes up to the next rest of the outside, and the events that it makes.

ghost use Rattle.std.specs.Prelude.{◌≡◌, ◌==◌, ◌≤◌, length, None, IsOk, IfOk, IfErr, OnOk, MatchResult, []};
ghost use Rattle.std.specs.List.{list_any};
ghost use Rattle.outside.specs.declared.step.WorldStep.TheVariants.{From, Joined};
ghost use Rattle.outside.specs.Calls.{most_message, item_step, IsItemIn};
ghost use Rattle.outside.specs.Parting.{IsItemReadIn};
ghost use Rattle.of_wire.specs.Reading.{reading_of};
ghost use Rattle.of_wire.specs.Spelling.{message_size};
ghost use Rattle.net_txn.specs.Views.{rows_at, is_viewed};
ghost use Rattle.batch_laws.specs.Knowledge.{with_event};
ghost use Rattle.event_dispatch.specs.Runs.{AreRead};
ghost use Rattle.event_dispatch.specs.Batch.{of_memory};
ghost use Rattle.event_dispatch.specs.Why.{IsReason, WhyItem, WhyMessage};
ghost use Rattle.event_dispatch.specs.Talking.{KeepsTalking};
ghost use Rattle.event_dispatch.specs.Passes.{Passes};
ghost use Rattle.event_dispatch.specs.Taking.{IsJoinedBy, AsksNext, NextDone, Fails, PassesOnLinks, ItemDone, ToldDone, TakeOutDone, UsesLinksAt, UsesLinksOf};
ghost use Rattle.event_dispatch.specs.Taking.{JoinDone, Announces, KeptDone, PassesNext, HandledNext, BatchDone, BatchFails};
ghost use Rattle.event_dispatch.specs.Plain.{IsPlainEnd, PlainRead, PlainJoin, PlainItem, PlainNext, PlainKept};

use crate::engine_core::Core;
use crate::fault::Fault;
use crate::limits::MOST_ITEMS;
use app_frames::{Event, EventKind};
use flow_table::TableView;
use net_txn::{EventQueue, Net};
use of_types::Dpid;
use of_wire::{Message, WireFault, decode, encode};
use outside::{Item, NextFault, World};
use std::alloc::AllocError;

/// How a batch ended.
#[derive(Clone, Copy, Debug, PartialEq, Eq)]
pub(crate) enum Rest {
    /// Nothing waits now.
    Idle,
    /// Nothing comes any more.
    End,
}

/// Tells whether a switch has one of these views.
fn is_among(views: &[TableView], dpid: Dpid) -> bool
    ensures { result ≡ list_any (λ v. v.dpid == dpid) views.now }
{
    views.iter().any(|view| view.dpid == dpid)
}

/// Tells whether a switch has a view.
fn has_view(net: &Net, dpid: Dpid) -> bool
    ensures { result ≡ is_viewed dpid net.now.views }
{
    is_among(net.views(), dpid)
}

/// Tells whether a switch is joined.
#[tactic(auto, using(crate::specs::laws::ViewedLaws::joined_rows, switch_laws::specs::laws::ShownUndoLaws::rows_of_none))]
pub(crate) fn is_joined(net: &Net, dpid: Dpid) -> bool
    ensures { IsJoinedBy dpid net.now.views result }
{
    has_view(net, dpid)
}

/// Tells whether bytes were not read for want of memory.
fn ran_short(fault: &WireFault) -> bool
    ensures { result ≡ of_memory fault.now }
{
    matches!(fault, WireFault::NoMemory)
}

/// Appends an event, where there is one.
fn append(queue: &mut EventQueue, event: Option<Event>) -> Result<(), AllocError>
    ensures { OnOk result (queue.new ≡ with_event event queue.old) }
{
    if let Some(event) = event {
        queue.push(event)?;
    }
    Ok(())
}

/// Asks the outside what comes next.
fn next_item<W: World>(world: &mut W, buf: &mut [u8]) -> Result<Item, Fault>
    requires { most_message ≤ length buf.old }
    ensures asks { AsksNext W.Tells (W.seen world.old) (W.seen world.new) buf.old buf.new }
    ensures done { MatchResult result (λ item. NextDone W.Tells item buf.new (W.seen world.old) (W.seen world.new))
        (λ fault. Fails (IsReason W.Tells (W.seen world.old) (W.seen world.new) 0 0 fault) (IsPlainEnd fault)) }
    ensures message { W.CanPart → IfOk result (IsItemReadIn buf.new) }
{
    match world.next(buf) {
        Ok(item) => Ok(item),
        Err(NextFault::Failed) => Err(Fault::Next),
        Err(NextFault::Short) => Err(Fault::NoMemory),
    }
}

impl Core {
    /// Takes a message that was kept. One of a switch that is not joined is ignored; where an ECHO_REQUEST could not be answered the
    /// switch is lost, and told.
    pub(crate) fn take_message<W: World>(
        &mut self,
        world: &mut W,
        dpid: Dpid,
        frame: &[u8],
    ) -> Result<(), Fault>
        requires none_left { self.old.net.left ≡ [] }
        ensures passes { PassesOnLinks W.Tells (length self.old.store) (W.seen world.old) (W.seen world.new) self.old.net self.new.net result }
        ensures done { MatchResult result (λ _. ItemDone W.Tells (From dpid frame.now) (W.seen world.old) (W.seen world.new) self.old self.new)
            (λ fault. Fails (WhyMessage W.Tells dpid frame.now (W.seen world.old) (W.seen world.new) fault) (PlainRead frame.now fault)) }
    {
        if !is_joined(&self.net, dpid) {
            return Ok(());
        }
        let event = self.net.arrived(world, dpid, frame)?;
        append(&mut self.queue, event)?;
        Ok(self.tell_lost()?)
    }

    /// Takes a message that is told now, as one that was kept. But a notice that an entry was deleted is in doubt where a row has its
    /// key, since it may be of an earlier entry: it is settled by what the switch answers.
    fn take_told<W: World>(&mut self, world: &mut W, dpid: Dpid, frame: &[u8]) -> Result<(), Fault>
        requires none_left { self.old.net.left ≡ [] }
        ensures passes { PassesOnLinks W.Tells (length self.old.store) (W.seen world.old) (W.seen world.new) self.old.net self.new.net result }
        ensures done { MatchResult result (λ _. ToldDone W.Tells (From dpid frame.now) (W.seen world.old) (W.seen world.new) self.old self.new)
            (λ fault. Fails (WhyMessage W.Tells dpid frame.now (W.seen world.old) (W.seen world.new) fault)
            (PlainItem W.Tells (From dpid frame.now) (W.seen world.old) (W.seen world.new) fault)) }
        ensures parted { W.CanPart → IsOk (reading_of frame.now) → IfErr result IsPlainEnd }
    {
        if !is_joined(&self.net, dpid) {
            return Ok(());
        }
        let event = self.net.settle(world, dpid, frame)?;
        append(&mut self.queue, event)?;
        Ok(self.tell_lost()?)
    }

    /// Takes a switch out that leaves. One that is not joined is ignored.
    fn take_out(&mut self, dpid: Dpid) -> Result<(), AllocError>
        ensures lines { self.new.lines ≡ self.old.lines }
        ensures done { OnOk result (TakeOutDone dpid self.old self.new) }
    {
        if is_joined(&self.net, dpid) {
            let event = self.net.left(dpid)?;
            self.queue.push(event)?;
        }
        Ok(())
    }

    /// Takes a switch in that describes itself as it joins. One that is joined is not taken in again.
    fn take_in<W: World>(&mut self, world: &mut W, dpid: Dpid, frame: &[u8]) -> Result<(), Fault>
        requires none_left { self.old.net.left ≡ [] }
        ensures uses { UsesLinksAt W.Tells (length self.old.store) (Joined dpid frame.now) (W.seen world.old) (W.seen world.new) self.old.net self.new.net result }
        ensures done { MatchResult result (λ _. ItemDone W.Tells (Joined dpid frame.now) (W.seen world.old) (W.seen world.new) self.old self.new)
            (λ fault. Fails (IsReason W.Tells (W.seen world.old) (W.seen world.new) 0 0 fault)
            (PlainJoin W.Tells dpid (W.seen world.old) (W.seen world.new) fault)) }
        ensures parted { W.CanPart → IfErr result IsPlainEnd }
    {
        if is_joined(&self.net, dpid) {
            return Ok(());
        }
        match decode(self.alloc, frame) {
            Ok(envelope) => self.join(world, dpid, &envelope.message),
            Err(fault) => {
                if ran_short(&fault) {
                    return Err(Fault::NoMemory);
                }
                Ok(())
            }
        }
    }

    /// Lets a switch join with what it says of itself. Where it is lost meanwhile, that is told, and makes no event.
    fn join<W: World>(&mut self, world: &mut W, dpid: Dpid, message: &Message) -> Result<(), Fault>
        requires out { rows_at dpid self.old.net.views ≡ None }
        requires fits { message_size message.now ≤ 65535 }
        ensures uses { UsesLinksOf W.Tells dpid (W.seen world.old) (W.seen world.new) self.old.net self.new.net result }
        ensures done { MatchResult result (λ _. JoinDone W.Tells dpid message.now (W.seen world.old) (W.seen world.new) self.old self.new)
            (λ fault. Fails (IsReason W.Tells (W.seen world.old) (W.seen world.new) 0 0 fault)
            (PlainJoin W.Tells dpid (W.seen world.old) (W.seen world.new) fault)) }
        ensures parted { W.CanPart → IfErr result IsPlainEnd }
    {
        if let Message::FeaturesReply(features) = message {
            if self.net.joined(world, dpid, features)? {
                self.announce(dpid, message)?;
            } else {
                self.note_loss(dpid)?;
            }
        }
        Ok(())
    }

    /// Appends the event that a switch joined.
    fn announce(&mut self, dpid: Dpid, message: &Message) -> Result<(), AllocError>
        requires { message_size message.now ≤ 65535 }
        ensures { Announces dpid message.now self.old self.new result }
    {
        let body = encode(self.alloc, 0, message)?;
        let kind = EventKind::Join;
        self.queue.push(Event { kind, dpid, body })?;
        Ok(())
    }

    /// Takes one item. Bytes that it has stand in the buffer.
    fn take_item<W: World>(&mut self, world: &mut W, item: Item, buf: &[u8]) -> Result<(), Fault>
        requires item { IsItemIn W.Tells item buf.now }
        requires none_left { self.old.net.left ≡ [] }
        ensures uses { UsesLinksAt W.Tells (length self.old.store) (item_step item buf.now) (W.seen world.old) (W.seen world.new) self.old.net self.new.net result }
        ensures done { MatchResult result (λ _. ToldDone W.Tells (item_step item buf.now) (W.seen world.old) (W.seen world.new) self.old self.new)
            (λ fault. Fails (WhyItem W.Tells (item_step item buf.now) (W.seen world.old) (W.seen world.new) fault)
            (PlainItem W.Tells (item_step item buf.now) (W.seen world.old) (W.seen world.new) fault)) }
        ensures parted { W.CanPart → IsItemReadIn buf.now item → IfErr result IsPlainEnd }
    {
        match item {
            Item::From(dpid, size) => self.take_told(world, dpid, &buf[..size]),
            Item::Joined(dpid, size) => self.take_in(world, dpid, &buf[..size]),
            Item::Left(dpid) => Ok(self.take_out(dpid)?),
            Item::Moment(moment) => {
                self.net.set_moment(moment);
                Ok(())
            }
            Item::Idle | Item::End => Ok(()),
        }
    }

    /// Takes the messages that were kept while something else was awaited, oldest first, and answers how many items the
    /// batch can still have.
    fn take_kept<W: World>(&mut self, world: &mut W) -> Result<u32, Fault>
        requires read { AreRead self.old.net.kept }
        requires none_left { self.old.net.left ≡ [] }
        ensures passes { PassesOnLinks W.Tells (length self.old.store) (W.seen world.old) (W.seen world.new) self.old.net self.new.net result }
        ensures done { MatchResult result (λ left. KeptDone W.Tells left (W.seen world.old) (W.seen world.new) self.old self.new)
            (λ fault. Fails (IsReason W.Tells (W.seen world.old) (W.seen world.new) 0 0 fault) (PlainKept self.old.net fault)) }
        ensures plain { IfErr result IsPlainEnd }
    {
        for taken in 0..MOST_ITEMS {
            let Some((dpid, message)) = self.net.waiting()? else {
                return Ok(MOST_ITEMS - taken);
            };
            self.take_message(world, dpid, message.as_slice())?;
        }
        Ok(0)
    }

    /// Takes what the outside tells next, and answers whether the batch is over.
    fn take_next<W: World>(&mut self, world: &mut W, buf: &mut [u8]) -> Result<Option<Rest>, Fault>
        requires buffer { most_message ≤ length buf.old }
        requires none_left { self.old.net.left ≡ [] }
        ensures passes { PassesNext W.Tells (length self.old.store) (W.seen world.old) (W.seen world.new) self.old.net self.new.net buf.old buf.new result }
        ensures done { MatchResult result (λ rest. HandledNext W.Tells rest (W.seen world.old) (W.seen world.new) self.old self.new)
            (λ fault. Fails (IsReason W.Tells (W.seen world.old) (W.seen world.new) 0 0 fault)
            (PlainNext W.Tells (W.seen world.old) (W.seen world.new) fault)) }
        ensures parted { W.CanPart → IfErr result IsPlainEnd }
    {
        let item = next_item(world, buf)?;
        match item {
            Item::Idle => Ok(Some(Rest::Idle)),
            Item::End => Ok(Some(Rest::End)),
            _ => {
                self.take_item(world, item, buf)?;
                Ok(None)
            }
        }
    }

    /// Takes a batch: the messages that were kept while something else was awaited, then what the outside tells.
    pub(crate) fn take_batch<W: World>(
        &mut self,
        world: &mut W,
        buf: &mut [u8],
    ) -> Result<Rest, Fault>
        requires buffer { most_message ≤ length buf.old }
        requires read { AreRead self.old.net.kept }
        requires none_left { self.old.net.left ≡ [] }

        // Where the world tells in order and the host keeps up with its switches, no call of a link is a stray one; where the batch was done,
        // all that came were messages, and the host keeps up then.
        ensures passes { Passes W.Tells (length self.old.store) (W.seen world.old) (W.seen world.new) self.old.net self.new.net result }
        ensures talks { KeepsTalking W.Tells (W.seen world.old) (W.seen world.new) }
        ensures buffer { length buf.new ≡ length buf.old }
        ensures done { MatchResult result (λ rest. BatchDone W.Tells rest (W.seen world.old) (W.seen world.new) self.old self.new)
            (λ fault. BatchFails W.Tells (length self.old.store) (W.seen world.old) (W.seen world.new) self.old.net fault) }
        ensures parted { W.CanPart → IfErr result IsPlainEnd }
    {
        let left = self.take_kept(world)?;
        for _item in 0..left {
            if let Some(rest) = self.take_next(world, buf)? {
                return Ok(rest);
            }
        }
        Ok(Rest::Idle)
    }
}
