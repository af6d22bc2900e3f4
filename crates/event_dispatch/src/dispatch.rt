//! Events, given to the application one after the other.

ghost use Rattle.std.specs.Prelude.{◌≡◌, ◌+◌, ◌^◌, ◌<◌, ◌≤◌, [], ◌++◌, length, IfOk, IfErr, OnOk, MatchResult};
ghost use Rattle.lego_io.specs.Count.{NeverFell};
ghost use Rattle.app_frames.specs.declared.frame.HostFrame.TheVariants as host;
ghost use Rattle.app_frames.specs.Frames.{HostFits};
ghost use Rattle.app_visor.specs.CallsFor.{CalmLater};
ghost use Rattle.checkpoint_store.specs.Slots.{with_slot};
ghost use Rattle.lego_model.specs.RunReport.{turn_line as turn_line_of, gone_line as gone_line_of};
ghost use Rattle.run_laws.specs.Facts.{out_text, starts_text};
ghost use Rattle.event_dispatch.specs.Passes.{Passes, PassesQuietly};
ghost use Rattle.event_dispatch.specs.Lines.{OnlyNotes};
ghost use Rattle.event_dispatch.specs.Runs.{AreRead, StoreRests, CoreGoes, AreGoing, Going};
ghost use Rattle.event_dispatch.specs.Stored.{closes_slot};
ghost use Rattle.event_dispatch.specs.Plain.{IsPlainEnd};
ghost use Rattle.event_dispatch.specs.TurnParts.{TurnFails, PlayDone, PlayKeeps, HoldDone, HoldFails, HoldKeeps, TurnDone, StartDone, StartKeeps, LeaveDone, GoOnDone, CloseDone, CloseKeeps};
ghost use Rattle.event_dispatch.specs.EventParts.{OfferDone, OfferStops, OffersDone, OffersStop, DispatchDone, DispatchStops, OldestDone, OldestStops, WaitingDone, WaitingStops};

use crate::closing::Closing;
use crate::engine_core::Core;
use crate::fault::Fault;
use crate::limits::{MOST_BODY, MOST_EVENTS};
use crate::run::{Managed, Run};
use app_frames::{Event, EventKind};
use app_visor::{AppState, Back, TurnEnd, restart, turn};
use checkpoint_store::Store;
use crash_policy::{Policy, rule};
use lego_io::Sink;
use net_txn::{EventQueue, Net, Txn};
use of_types::Dpid;
use outside::{Judge, World};
use report_text::{TurnWord, event_line, gone_line, out_line, start_line, turn_line};
use std::alloc::{AllocError, Global};

/// What a turn is held for: an event, which one of the run it is, how many frames it may have, who judges the tables that it
/// leaves, and where its memory comes from.
struct Occasion<'a, J> {
    alloc: Global,
    budget: u32,
    number: u64,
    event: &'a Event,
    judge: &'a J,
}

/// Plays a turn of the application. Where it was done its changes are kept and its packets released; where it failed its
/// changes are undone. The checkpoint that it hands over is staged, and no more.
fn play_turn<W: World, J: Judge>(
    world: &mut W,
    net: &mut Net,
    queue: &mut EventQueue,
    store: &mut Store,
    app: &mut AppState,
    occasion: Occasion<'_, J>,
) -> Result<Closing, Fault>
    requires room { 1 ≤ net.old.room }
    requires place { app.old.index < length store.old }
    requires fits { HostFits (host.Event occasion.number net.old.moment occasion.event.now) }
    ensures passes { Passes W.Tells (length store.old) (W.seen world.old) (W.seen world.new) net.old net.new result }
    ensures keeps { PlayKeeps W.Tells app.old app.new (W.seen world.old) (W.seen world.new) store.old store.new }
    ensures done { MatchResult result (λ end. PlayDone W.Tells (J.accepts occasion.entry.judge.now) app.old.index occasion.entry.budget occasion.entry.number
        occasion.entry.event.now end
        (W.seen world.old) (W.seen world.new) net.old net.new queue.old queue.new app.old.rest app.new.rest store.old store.new)
        (TurnFails W.Tells app.old.index occasion.entry.budget app.old.rest (W.seen world.old) (W.seen world.new) net.old) }
    ensures parted { W.CanPart → IfErr result IsPlainEnd }
{
    let Occasion {
        alloc,
        budget,
        number,
        event,
        judge,
    } = occasion;
    let mut txn = Txn::begin(net);
    match turn(
        alloc, world, &mut txn, judge, store, app, number, event, budget,
    ) {
        Ok(TurnEnd::Done { stop }) => {
            let out = txn.commit(world, queue)?;
            Ok(Closing::Done { stop, out })
        }
        Ok(TurnEnd::Failed(cause)) => {
            txn.abort(world)?;
            Ok(Closing::Failed(cause))
        }
        Err(fault) => {
            let _ = txn.abort(world);
            Err(Fault::from(fault))
        }
    }
}

/// Keeps what a turn staged where it was done, and drops it where it was not.
fn close_store(store: &mut Store, app: u32, closing: &Result<Closing, Fault>)
    requires { app < length store.old }
    ensures { store.new ≡ with_slot app (closes_slot closing.now) store.old }
{
    match closing {
        Ok(Closing::Done { .. }) => store.keep(app),
        _ => store.drop_staged(app),
    }
}

/// Holds a turn of the application: where it was done, what it did is kept, with the checkpoint that it handed over, and its
/// packets are released; where it failed, what it did is undone.
fn hold_turn<W: World, J: Judge>(
    world: &mut W,
    net: &mut Net,
    queue: &mut EventQueue,
    store: &mut Store,
    app: &mut AppState,
    occasion: Occasion<'_, J>,
) -> Result<Closing, Fault>
    requires room { 1 ≤ net.old.room }
    requires place { app.old.index < length store.old }
    requires fits { HostFits (host.Event occasion.number net.old.moment occasion.event.now) }
    requires rests { StoreRests store.old }
    ensures passes { Passes W.Tells (length store.old) (W.seen world.old) (W.seen world.new) net.old net.new result }
    // However it went, nothing that it staged is left; where it did not go well, the kept checkpoint is the one before. Those of others stay.
    ensures keeps { HoldKeeps W.Tells app.old app.new (W.seen world.old) (W.seen world.new) store.old store.new }
    ensures done { MatchResult result (λ end. HoldDone W.Tells (J.accepts occasion.entry.judge.now) app.old.index occasion.entry.budget occasion.entry.number
        occasion.entry.event.now end
        (W.seen world.old) (W.seen world.new) net.old net.new queue.old queue.new app.old.rest app.new.rest store.old store.new)
        (HoldFails W.Tells app.old.index occasion.entry.budget app.old.rest (W.seen world.old) (W.seen world.new) net.old store.old store.new) }
    ensures parted { W.CanPart → IfErr result IsPlainEnd }
{
    let index = app.index;
    let closing = play_turn(world, net, queue, store, app, occasion);
    close_store(store, index, &closing);
    closing
}

/// Counts so many turns more. More than eight bytes can count are more than the report could tell.
pub(crate) fn counted(turns: u64, more: u64) -> Result<u64, AllocError>
    ensures { MatchResult result (λ all. all ≡ turns + more) (λ _. 2 ^ 64 ≤ turns + more) }
{
    match turns.checked_add(more) {
        Some(all) => Ok(all),
        None => Err(AllocError),
    }
}

impl Core {
    /// Appends the line of how a turn of the application of a name ended.
    fn note_turn(&mut self, name: &str, word: TurnWord) -> Result<(), AllocError>
        ensures { OnOk result (OnlyNotes (turn_line_of (name.now) word) self.old self.new) }
    {
        let line = turn_line(self.alloc, name, &word)?;
        self.note(&line)
    }

    /// Starts an application at its kept checkpoint, in at most three attempts.
    pub(crate) fn start<W: World>(
        &mut self,
        world: &mut W,
        app: &mut Managed<'_>,
    ) -> Result<(), AllocError>
        requires place { app.old.state.index < length self.old.store }
        requires store { StoreRests self.old.store }
        ensures passes { PassesQuietly W.Tells (length self.old.store) (W.seen world.old) (W.seen world.new) self.old.net self.new.net result }
        ensures keeps { StartKeeps W.Tells (W.seen world.old) (W.seen world.new) app.old app.new }
        ensures done { OnOk result (StartDone W.Tells (W.seen world.old) (W.seen world.new) self.old self.new app.old app.new) }
    {
        let back = restart(
            self.alloc,
            world,
            &self.store,
            &mut app.state,
            &app.rule.command,
        )?;
        self.note_start(app.rule.name.as_str(), back)
    }

    /// Appends the lines of the attempts to start the application of a name.
    fn note_start(&mut self, name: &str, back: Back) -> Result<(), AllocError>
        ensures { OnOk result (OnlyNotes (starts_text (name.now) back.tries.items back.back) self.old self.new) }
    {
        for tried in back.tries.iter() {
            let line = start_line(self.alloc, name, tried)?;
            self.note(&line)?;
        }
        if !back.back {
            self.note_gone(name)?;
        }
        Ok(())
    }

    /// Appends the line that says that the application of a name is gone.
    fn note_gone(&mut self, name: &str) -> Result<(), AllocError>
        ensures { OnOk result (OnlyNotes (gone_line_of (name.now)) self.old self.new) }
    {
        let line = gone_line(self.alloc, name)?;
        self.note(&line)
    }

    /// Ends an application, which is gone from now on.
    fn leave<W: World>(&mut self, world: &mut W, app: &mut Managed<'_>) -> Result<(), AllocError>
        requires place { app.old.state.index < length self.old.store }
        ensures passes { PassesQuietly W.Tells (length self.old.store) (W.seen world.old) (W.seen world.new) self.old.net self.new.net result }
        ensures keeps { StartKeeps W.Tells (W.seen world.old) (W.seen world.new) app.old app.new }
        ensures done { OnOk result (LeaveDone W.Tells (W.seen world.old) (W.seen world.new) self.old self.new app.old app.new) }
    {
        world.end(app.state.index);
        app.state.alive = false;
        self.note_gone(app.rule.name.as_str())
    }

    /// Does what the policy says of an application whose turn failed at an event of a kind: it is gone, or it is started again
    /// at its kept checkpoint.
    fn go_on<W: World>(
        &mut self,
        world: &mut W,
        app: &mut Managed<'_>,
        kind: EventKind,
    ) -> Result<(), AllocError>
        requires place { app.old.state.index < length self.old.store }
        requires store { StoreRests self.old.store }
        ensures passes { PassesQuietly W.Tells (length self.old.store) (W.seen world.old) (W.seen world.new) self.old.net self.new.net result }
        ensures keeps { StartKeeps W.Tells (W.seen world.old) (W.seen world.new) app.old app.new }
        ensures done { OnOk result (GoOnDone W.Tells kind (W.seen world.old) (W.seen world.new) self.old self.new app.old app.new) }
    {
        match rule(app.rule, kind) {
            Policy::None => self.leave(world, app),
            Policy::Absolute | Policy::Equivalence => self.start(world, app),
        }
    }

    /// Appends the lines of the packets that were released.
    pub(crate) fn note_out(&mut self, out: &[(Dpid, u32)]) -> Result<(), AllocError>
        ensures { OnOk result (OnlyNotes (out_text out.now) self.old self.new) }
    {
        for &(dpid, len) in out {
            let line = out_line(self.alloc, dpid, len)?;
            self.note(&line)?;
        }
        Ok(())
    }

    /// Appends the lines of a turn that was done: how it ended, and the packets that were released.
    fn note_done(
        &mut self,
        name: &str,
        word: TurnWord,
        out: &[(Dpid, u32)],
    ) -> Result<(), AllocError>
        ensures { OnOk result (OnlyNotes (turn_line_of (name.now) word ++ out_text out.now) self.old self.new) }
    {
        self.note_turn(name, word)?;
        self.note_out(out)
    }

    /// Closes a turn of an application at an event of a kind: counts and tells it, with the switches that were lost in it, and
    /// does what the policy says of one that failed. Answers whether the event goes no further.
    fn close<W: World>(
        &mut self,
        world: &mut W,
        app: &mut Managed<'_>,
        kind: EventKind,
        closing: Closing,
    ) -> Result<bool, AllocError>
        requires room { 1 ≤ self.old.net.room }
        requires place { app.old.state.index < length self.old.store }
        requires read { AreRead self.old.net.kept }
        requires store { StoreRests self.old.store }
        ensures passes { PassesQuietly W.Tells (length self.old.store) (W.seen world.old) (W.seen world.new) self.old.net self.new.net result }
        ensures keeps { CloseKeeps W.Tells (W.seen world.old) (W.seen world.new) app.old app.new }
        ensures done { IfOk result (λ stops. CloseDone W.Tells kind closing stops (W.seen world.old) (W.seen world.new) self.old self.new app.old app.new) }
    {
        let name = app.rule.name.as_str();
        match closing {
            Closing::Done { stop, out } => {
                app.done = counted(app.done, 1)?;
                self.note_done(
                    name,
                    if stop { TurnWord::Stop } else { TurnWord::Done },
                    &out,
                )?;
                self.tell_lost()?;
                Ok(stop)
            }
            Closing::Failed(cause) => {
                app.failed = counted(app.failed, 1)?;
                self.note_turn(name, TurnWord::Failed(cause))?;
                self.tell_lost()?;
                self.go_on(world, app, kind)?;
                Ok(false)
            }
        }
    }

    /// Gives an application its turn at an event, whose frame four bytes can count. Answers whether the event goes no further.
    fn take_turn<'x, W: World, J: Judge>(
        &mut self,
        world: &mut W,
        app: &mut Managed<'_>,
        judge: &'x J,
        event: &'x Event,
    ) -> Result<bool, Fault>
        requires goes { CoreGoes self.old }
        requires place { app.old.state.index < length self.old.store }
        requires fits { HostFits (host.Event self.old.events self.old.net.moment event.now) }
        ensures passes { Passes W.Tells (length self.old.store) (W.seen world.old) (W.seen world.new) self.old.net self.new.net result }
        ensures later { W.Tells → CalmLater app.old.state.index (W.seen world.old) (W.seen world.new) }
        ensures done { MatchResult result (λ stops. TurnDone W.Tells (J.accepts judge.now) event.now stops (W.seen world.old) (W.seen world.new) self.old
            self.new app.old app.new)
            (TurnFails W.Tells app.old.state.index app.old.rule.now.budget app.old.state.rest (W.seen world.old) (W.seen world.new) self.old.net) }
        ensures parted { W.CanPart → IfErr result IsPlainEnd }
    {
        let budget = app.rule.budget;
        let closing = hold_turn(
            world,
            &mut self.net,
            &mut self.queue,
            &mut self.store,
            &mut app.state,
            Occasion {
                alloc: self.alloc,
                budget,
                number: self.events,
                event,
                judge,
            },
        )?;
        Ok(self.close(world, app, event.kind, closing)?)
    }
}

/// Gives an event to an application, where it has a turn at it, and what stands in place of it, where that turn fails. Answers
/// whether the event goes no further.
fn offer<'x, W: World, J: Judge>(
    core: &mut Core,
    world: &mut W,
    app: &mut Managed<'_>,
    judge: &'x J,
    event: &'x Event,
) -> Result<bool, Fault>
    requires goes { CoreGoes core.old }
    requires few { core.old.events < 2 ^ 64 }
    requires place { app.old.state.index < length core.old.store }
    ensures passes { Passes W.Tells (length core.old.store) (W.seen world.old) (W.seen world.new) core.old.net core.new.net result }
    ensures done { MatchResult result (λ stops. OfferDone W.Tells (J.accepts judge.now) event.now stops (W.seen world.old) (W.seen world.new) core.old core.new
        app.old app.new)
        (OfferStops W.Tells event.now (W.seen world.old) (W.seen world.new) core.old app.old) }
    ensures parted { W.CanPart → IfErr result IsPlainEnd }
{
    if !app.takes(event) {
        return Ok(false);
    }
    if event.body.len() > MOST_BODY {
        return Err(Fault::NoMemory);
    }
    let failed = app.failed;
    let stops = core.take_turn(world, app, judge, event)?;
    if app.failed == failed {
        return Ok(stops);
    }
    core.give_instead(world, app, judge, event)
}

/// Gives an event to the applications that have a turn at it, in order, until one that was done says that it goes no further.
fn offer_all<'x, W: World, J: Judge>(
    core: &mut Core,
    world: &mut W,
    apps: &mut Vec<Managed<'_>>,
    judge: &'x J,
    event: &'x Event,
) -> Result<(), Fault>
    requires going { AreGoing core.old apps.old.items }
    requires few { core.old.events < 2 ^ 64 }
    ensures passes { Passes W.Tells (length core.old.store) (W.seen world.old) (W.seen world.new) core.old.net core.new.net result }
    ensures done { MatchResult result (λ _. OffersDone W.Tells (J.accepts judge.now) event.now (W.seen world.old) (W.seen world.new) core.old core.new
        apps.old.items apps.new.items)
        (OffersStop W.Tells (J.accepts judge.now) event.now (W.seen world.old) (W.seen world.new) core.old apps.old.items) }
    ensures parted { W.CanPart → IfErr result IsPlainEnd }
{
    for at in 0..apps.len() {
        if offer(core, world, &mut apps[at], judge, event)? {
            return Ok(());
        }
    }
    Ok(())
}

impl Run<'_> {
    /// Gives an event to the applications that have a turn at it.
    fn dispatch<W: World, J: Judge>(
        &mut self,
        world: &mut W,
        judge: &J,
        event: &Event,
    ) -> Result<(), Fault>
        requires going { Going self.old }
        requires few { self.old.core.events < 2 ^ 63 }
        ensures passes { Passes W.Tells (length self.old.core.store) (W.seen world.old) (W.seen world.new) self.old.core.net self.new.core.net result }
        ensures done { MatchResult result (λ _. DispatchDone W.Tells (J.accepts judge.now) event.now (W.seen world.old) (W.seen world.new) self.old self.new)
            (DispatchStops W.Tells (J.accepts judge.now) event.now (W.seen world.old) (W.seen world.new) self.old) }
        ensures parted { W.CanPart → IfErr result IsPlainEnd }
    {
        self.core.events += 1;
        let line = event_line(self.core.alloc, self.core.events, event.kind, event.dpid)?;
        self.core.note(&line)?;
        offer_all(&mut self.core, world, &mut self.apps, judge, event)
    }

    /// Dispatches the oldest event that waits, and writes its lines; answers whether there was one.
    fn dispatch_oldest<W: World, J: Judge, K: Sink>(
        &mut self,
        world: &mut W,
        judge: &J,
        sink: &mut K,
    ) -> Result<bool, Fault>
        requires going { Going self.old }
        requires few { self.old.core.events < 2 ^ 63 }
        requires none_waits { self.old.core.lines.items ≡ [] }
        ensures passes { Passes W.Tells (length self.old.core.store) (W.seen world.old) (W.seen world.new) self.old.core.net self.new.core.net result }
        ensures never_fell { NeverFell (K.faults sink.old) (K.faults sink.new) }
        ensures done { MatchResult result (λ found. OldestDone W.Tells (J.accepts judge.now) found (K.contents sink.old) (K.contents sink.new)
            (W.seen world.old) (W.seen world.new) self.old self.new)
            (OldestStops W.Tells (J.accepts judge.now) (K.contents sink.old) (K.contents sink.new) (K.faults sink.old) (K.faults sink.new) (W.seen world.old)
            (W.seen world.new) self.old) }
        ensures parted { W.CanPart → IfErr result IsPlainEnd }
    {
        let Some(event) = self.core.queue.take_first() else {
            return Ok(false);
        };
        self.dispatch(world, judge, &event)?;
        self.core.write(sink)?;
        Ok(true)
    }

    /// Dispatches the events that wait, first in first out, and those that join them meanwhile, up to 1,000.
    pub(crate) fn dispatch_waiting<W: World, J: Judge, K: Sink>(
        &mut self,
        world: &mut W,
        judge: &J,
        sink: &mut K,
    ) -> Result<(), Fault>
        requires going { Going self.old }
        requires few { self.old.core.events < 2 ^ 62 }
        requires none_waits { self.old.core.lines.items ≡ [] }
        ensures passes { Passes W.Tells (length self.old.core.store) (W.seen world.old) (W.seen world.new) self.old.core.net self.new.core.net result }
        ensures never_fell { NeverFell (K.faults sink.old) (K.faults sink.new) }

        // In a world that keeps its word this is what the reference controller does with the events that wait. Where a fault ends it, it is so up to an
        // event; and where all was settled, too, the fault is a plain one.
        ensures done { MatchResult result (λ _. WaitingDone W.Tells (J.accepts judge.now) (K.contents sink.old) (K.contents sink.new) (W.seen world.old)
            (W.seen world.new) self.old self.new)
            (WaitingStops W.Tells (J.accepts judge.now) (K.contents sink.old) (K.contents sink.new) (K.faults sink.old) (K.faults sink.new) (W.seen world.old)
            (W.seen world.new) self.old) }
        ensures parted { W.CanPart → IfErr result IsPlainEnd }
    {
        for _event in 0..MOST_EVENTS {
            if !self.dispatch_oldest(world, judge, sink)? {
                return Ok(());
            }
        }
        Ok(())
    }
}
