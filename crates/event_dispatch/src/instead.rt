//! Turns at the events that an application is given in place of one at which it failed, in one transaction.

ghost use Rattle.std.specs.Prelude.{◌≡◌, ◌<◌, ◌≤◌, ◌++◌, true, length, OnOk, IfOk, IfErr, MatchResult};
ghost use Rattle.std.specs.List.{AllByRecursion, list_all};
ghost use Rattle.app_frames.specs.declared.frame.HostFrame.TheVariants as host;
ghost use Rattle.app_frames.specs.Frames.{HostFits};
ghost use Rattle.net_txn.specs.Causes.{IsPlain};
ghost use Rattle.run_laws.specs.Facts.{turn_word, out_text, says_stop as says_stop_of, end_fails as end_fails_of};
ghost use Rattle.event_dispatch.specs.GroupParts.{EndNoted, PlayedOne, PlaysFail, TurnsKeep, GroupPlayed, GroupKeeps, GroupDone, GroupFails, GroupHolds, GroupCloseDone, UnkeptBy, GroupTaken, InsteadDone, InsteadFails, QuietAgain, closes_group, pending_of, is_carried as is_carried_in};
ghost use Rattle.event_dispatch.specs.Passes.{Passes, PassesQuietly};
ghost use Rattle.event_dispatch.specs.Plain.{IsPlainEnd};
ghost use Rattle.event_dispatch.specs.Lines.{OnlyNotes};
ghost use Rattle.event_dispatch.specs.Runs.{AreRead, CoreGoes, StoreRests};
ghost use Rattle.event_dispatch.specs.TurnParts.{CloseKeeps};
ghost use Rattle.app_visor.specs.Attempts.{kept_of};
ghost use Rattle.checkpoint_store.specs.Slots.{with_slot};
ghost use Rattle.crash_policy.specs.Asking.{rule_at};
ghost use Rattle.crash_policy.specs.Policies.{app_value};
ghost use Rattle.lego_model.specs.Controller.{instead_by};
ghost use Rattle.lego_model.specs.RunReport.{group_line as group_line_of};

use crate::dispatch::counted;
use crate::engine_core::Core;
use crate::fault::Fault;
use crate::limits::MOST_BODY;
use crate::run::Managed;
use app_frames::Event;
use app_visor::{AppState, TurnEnd, turn};
use checkpoint_store::Store;
use crash_policy::{AppRule, Policy, replacements, rule};
use net_txn::{EventQueue, Net, Txn, TxnFault};
use of_types::Dpid;
use outside::{Judge, World};
use report_text::{TurnWord, group_line, instead_line};
use std::alloc::{AllocError, Global};

/// What some turns come to so far.
#[derive(Drop)]
struct Played {
    /// One of them said that the event goes no further.
    stop: bool,
    /// The last of them failed.
    failed: bool,
    /// The lines of how they ended.
    text: Vec<u8>,
}

/// How the turns were closed.
#[derive(Drop)]
pub(crate) enum Grouped {
    /// All were done, and one may have said that the event goes no further; what they did stays. These packets were released:
    /// the switch of each, and how many bytes it has.
    Kept {
        stop: bool,
        text: Vec<u8>,
        out: Vec<(Dpid, u32)>,
    },
    /// One failed; what all of them did was undone.
    Undone {
        text: Vec<u8>,
    },
}

/// What the turns are held for: what the policy says of the application, events, the number that all of them have, who judges the tables that a turn leaves, and where
/// memory comes from.
pub(crate) struct Group<'a, J> {
    pub(crate) alloc: Global,
    pub(crate) rule: &'a AppRule,
    pub(crate) number: u64,
    pub(crate) events: &'a [Event],
    pub(crate) judge: &'a J,
}

/// Makes the events that an application is given in place of one at which it failed, by what the policy says of such events.
fn others_for(alloc: Global, app: &AppRule, event: &Event) -> Result<Vec<Event>, AllocError>
    ensures { IfOk result (λ events. events.items ≡ instead_by (rule_at (app_value app.now) event.now.kind) event.now) }
{
    match rule(app, event.kind) {
        Policy::None | Policy::Absolute => Ok(Vec::new(alloc)),
        Policy::Equivalence => replacements(alloc, event),
    }
}

/// Tells whether a frame can carry an event.
fn is_carried(event: &Event) -> bool
    ensures { result ≡ is_carried_in event.now }
{
    event.body.len() <= MOST_BODY
}

/// Tells whether frames can carry all of these.
fn are_carried(events: &[Event]) -> bool
    ensures { result ≡ list_all is_carried_in events.now }
{
    events.iter().all(|event| is_carried(event))
}

/// Tells whether a turn was done, and said that the event goes no further.
fn says_stop(end: &TurnEnd) -> bool
    ensures { result ≡ says_stop_of end.now }
{
    match end {
        TurnEnd::Done { stop } => *stop,
        TurnEnd::Failed(_) => false,
    }
}

/// Tells whether a turn failed.
fn has_failed(end: &TurnEnd) -> bool
    ensures { result ≡ end_fails_of end.now }
{
    match end {
        TurnEnd::Done { .. } => false,
        TurnEnd::Failed(_) => true,
    }
}

/// The word of a report for how a turn ended.
fn word_of(end: TurnEnd) -> TurnWord
    ensures { result ≡ turn_word end }
{
    match end {
        TurnEnd::Done { stop: true } => TurnWord::Stop,
        TurnEnd::Done { stop: false } => TurnWord::Done,
        TurnEnd::Failed(cause) => TurnWord::Failed(cause),
    }
}

/// Notes how the turn of an application of a name at an event ended.
fn note_end(
    alloc: Global,
    name: &str,
    event: &Event,
    end: TurnEnd,
    played: &mut Played,
) -> Result<(), AllocError>
    ensures { OnOk result (EndNoted (name.now) event.now end played.old played.new) }
{
    let stop = says_stop(&end);
    let failed = has_failed(&end);
    let line = instead_line(alloc, name, event.kind, event.dpid, &word_of(end))?;
    played.text.extend_from_slice(line.as_slice())?;
    played.stop = played.stop || stop;
    played.failed = failed;
    Ok(())
}

/// Plays one turn more in a transaction, and notes how it ended.
fn play_one<W: World, J: Judge>(
    alloc: Global,
    world: &mut W,
    txn: &mut Txn<'_>,
    judge: &J,
    store: &mut Store,
    app: &mut AppState,
    rule: &AppRule,
    number: u64,
    event: &Event,
    played: &mut Played,
) -> Result<(), TxnFault>
    requires fits { HostFits (host.Event number txn.old.net.now.moment event.now) }
    requires place { app.old.index < length store.old }
    ensures same_reference { txn.new.net.ghost_name ≡ txn.old.net.ghost_name }
    ensures start { txn.new.start ≡ txn.old.start }
    ensures keeps { TurnsKeep W.Tells number (W.seen world.old) (W.seen world.new) txn.old.net.now txn.new.net.now store.old store.new app.old app.new }
    ensures done { OnOk result (PlayedOne W.Tells (J.accepts judge.now) app.old.index rule.now number event.now played.old played.new (W.seen world.old) (W.seen world.new)
        txn.old.net.now txn.new.net.now app.old.rest app.new.rest (pending_of app.old.index store.old) (pending_of app.old.index store.new)) }
    ensures fails { IfErr result (PlaysFail W.Tells app.old.index app.old.rest (W.seen world.old) (W.seen world.new) txn.old.net.now txn.new.net.now) }
    ensures parted { W.CanPart → IfErr result IsPlain }
{
    let end = turn(
        alloc,
        world,
        txn,
        judge,
        store,
        app,
        number,
        event,
        rule.budget,
    )?;
    note_end(alloc, rule.name.as_str(), event, end, played)?;
    Ok(())
}

/// Plays the turns of an application at some events in a transaction, one after the other, up to the first that fails.
fn play_all<W: World, J: Judge>(
    alloc: Global,
    world: &mut W,
    txn: &mut Txn<'_>,
    judge: &J,
    store: &mut Store,
    app: &mut AppState,
    rule: &AppRule,
    number: u64,
    events: &[Event],
) -> Result<Played, TxnFault>
    requires fits { AllByRecursion (λ e. HostFits (host.Event number txn.old.net.now.moment e)) events.now }
    requires place { app.old.index < length store.old }
    ensures same_reference { txn.new.net.ghost_name ≡ txn.old.net.ghost_name }
    ensures start { txn.new.start ≡ txn.old.start }
    ensures keeps { TurnsKeep W.Tells number (W.seen world.old) (W.seen world.new) txn.old.net.now txn.new.net.now store.old store.new app.old app.new }
    ensures done { IfOk result (GroupPlayed W.Tells (J.accepts judge.now) app.old.index rule.now number events.now (W.seen world.old) (W.seen world.new)
        txn.old.net.now txn.new.net.now app.old.rest app.new.rest (pending_of app.old.index store.old) (pending_of app.old.index store.new)) }
    ensures fails { IfErr result (PlaysFail W.Tells app.old.index app.old.rest (W.seen world.old) (W.seen world.new) txn.old.net.now txn.new.net.now) }
    ensures parted { W.CanPart → IfErr result IsPlain }
{
    let mut played = Played {
        stop: false,
        failed: false,
        text: Vec::new(alloc),
    };
    for at in 0..events.len() {
        play_one(
            alloc,
            world,
            txn,
            judge,
            store,
            app,
            rule,
            number,
            &events[at],
            &mut played,
        )?;
        if played.failed {
            return Ok(played);
        }
    }
    Ok(played)
}

/// Plays the turns of an application at some events. Where all were done their changes are kept and their packets released,
/// once; where one failed the changes of all are undone. The checkpoint that was handed over last is staged, and no more.
fn play_group<W: World, J: Judge>(
    world: &mut W,
    net: &mut Net,
    queue: &mut EventQueue,
    store: &mut Store,
    app: &mut AppState,
    group: Group<'_, J>,
) -> Result<Grouped, Fault>
    requires room { 1 ≤ net.old.room }
    requires place { app.old.index < length store.old }
    requires fits { AllByRecursion (λ e. HostFits (host.Event group.number net.old.moment e)) group.events.now }
    requires some { 1 ≤ length group.events.now }
    ensures passes { Passes W.Tells (length store.old) (W.seen world.old) (W.seen world.new) net.old net.new result }
    ensures keeps { GroupKeeps W.Tells group.entry.number (W.seen world.old) (W.seen world.new) store.old store.new app.old app.new }
    ensures done { MatchResult result (GroupDone W.Tells (J.accepts group.entry.judge.now) app.old.index group.entry.rule.now group.entry.number group.entry.events.now
        (W.seen world.old) (W.seen world.new) net.old net.new queue.old queue.new app.old.rest app.new.rest
        (pending_of app.old.index store.old) (pending_of app.old.index store.new))
        (GroupFails W.Tells app.old.index group.entry.rule.now.budget app.old.rest (W.seen world.old) (W.seen world.new) net.old) }
    ensures parted { W.CanPart → IfErr result IsPlainEnd }
{
    let Group {
        alloc,
        rule,
        number,
        events,
        judge,
    } = group;
    let mut txn = Txn::begin(net);
    match play_all(
        alloc, world, &mut txn, judge, store, app, rule, number, events,
    ) {
        Ok(played) => {
            if played.failed {
                txn.abort(world)?;
                Ok(Grouped::Undone { text: played.text })
            } else {
                let out = txn.commit(world, queue)?;
                Ok(Grouped::Kept {
                    stop: played.stop,
                    text: played.text,
                    out,
                })
            }
        }
        Err(fault) => {
            let _ = txn.abort(world);
            Err(Fault::from(fault))
        }
    }
}

/// Keeps what the turns staged where all were done, and drops it where one was not.
fn close_store(store: &mut Store, app: u32, grouped: &Result<Grouped, Fault>)
    requires { app < length store.old }
    ensures { store.new ≡ with_slot app (closes_group grouped.now) store.old }
{
    match grouped {
        Ok(Grouped::Kept { .. }) => store.keep(app),
        _ => store.drop_staged(app),
    }
}

/// Holds the turns of an application at some events. Where all were done, what they did is kept, with the checkpoint that was
/// handed over last, and their packets are released, once; where one failed, what all of them did is undone.
fn hold_group<W: World, J: Judge>(
    world: &mut W,
    net: &mut Net,
    queue: &mut EventQueue,
    store: &mut Store,
    app: &mut AppState,
    group: Group<'_, J>,
) -> Result<Grouped, Fault>
    requires room { 1 ≤ net.old.room }
    requires place { app.old.index < length store.old }
    requires fits { AllByRecursion (λ e. HostFits (host.Event group.number net.old.moment e)) group.events.now }
    requires some { 1 ≤ length group.events.now }
    requires rests { StoreRests store.old }
    ensures passes { Passes W.Tells (length store.old) (W.seen world.old) (W.seen world.new) net.old net.new result }
    // However it went, nothing that they staged is left. Checkpoints of others stay.
    ensures keeps { GroupHolds W.Tells group.entry.number (W.seen world.old) (W.seen world.new) store.old store.new app.old app.new }
    // Where one failed, or a fault ended them, the kept checkpoint is the one before.
    ensures kept { UnkeptBy result (kept_of app.old.index store.old) (kept_of app.old.index store.new) }
    ensures done { MatchResult result (GroupDone W.Tells (J.accepts group.entry.judge.now) app.old.index group.entry.rule.now group.entry.number group.entry.events.now
        (W.seen world.old) (W.seen world.new) net.old net.new queue.old queue.new app.old.rest app.new.rest
        (kept_of app.old.index store.old) (kept_of app.old.index store.new))
        (GroupFails W.Tells app.old.index group.entry.rule.now.budget app.old.rest (W.seen world.old) (W.seen world.new) net.old) }
    ensures parted { W.CanPart → IfErr result IsPlainEnd }
{
    let index = app.index;
    let grouped = play_group(world, net, queue, store, app, group);
    close_store(store, index, &grouped);
    grouped
}

impl Core {
    /// Appends the lines of the turns of the application of a name, and that all were done, or that they were not.
    fn note_group(&mut self, text: &[u8], name: &str, kept: bool) -> Result<(), AllocError>
        ensures { OnOk result (OnlyNotes (text.now ++ group_line_of (name.now) kept) self.old self.new) }
    {
        self.note_bytes(text)?;
        let line = group_line(self.alloc, name, kept)?;
        self.note(&line)
    }

    /// Appends the lines of turns that were all done, and of the packets that were released.
    fn note_kept(&mut self, text: &[u8], name: &str, out: &[(Dpid, u32)]) -> Result<(), AllocError>
        ensures { OnOk result (OnlyNotes (text.now ++ group_line_of (name.now) true ++ out_text out.now) self.old self.new) }
    {
        self.note_group(text, name, true)?;
        self.note_out(out)
    }

    /// Closes so many turns of an application: counts and tells them, with the switches that were lost in them, and starts the
    /// application again where one failed. Answers whether the event for which they stand goes no further.
    fn close_group<W: World>(
        &mut self,
        world: &mut W,
        app: &mut Managed<'_>,
        turns: u64,
        grouped: Grouped,
    ) -> Result<bool, AllocError>
        requires room { 1 ≤ self.old.net.room }
        requires place { app.old.state.index < length self.old.store }
        requires read { AreRead self.old.net.kept }
        requires store { StoreRests self.old.store }
        ensures passes { PassesQuietly W.Tells (length self.old.store) (W.seen world.old) (W.seen world.new) self.old.net self.new.net result }
        ensures keeps { CloseKeeps W.Tells (W.seen world.old) (W.seen world.new) app.old app.new }
        ensures done { IfOk result (λ stops. GroupCloseDone W.Tells turns grouped stops (W.seen world.old) (W.seen world.new) self.old self.new app.old app.new) }
    {
        let name = app.rule.name.as_str();
        match grouped {
            Grouped::Kept { stop, text, out } => {
                app.done = counted(app.done, turns)?;
                self.note_kept(&text, name, &out)?;
                self.tell_lost()?;
                Ok(stop)
            }
            Grouped::Undone { text } => {
                app.failed = counted(app.failed, 1)?;
                self.note_group(&text, name, false)?;
                self.tell_lost()?;
                self.start(world, app)?;
                Ok(false)
            }
        }
    }

    /// Gives an application its turns at events in place of one. Answers whether that one goes no further.
    fn take_group<'x, W: World, J: Judge>(
        &mut self,
        world: &mut W,
        app: &mut Managed<'_>,
        judge: &'x J,
        events: &'x [Event],
    ) -> Result<bool, Fault>
        requires goes { CoreGoes self.old }
        requires place { app.old.state.index < length self.old.store }
        requires fits { AllByRecursion (λ e. HostFits (host.Event self.old.events self.old.net.moment e)) events.now }
        requires some { 1 ≤ length events.now }
        ensures passes { Passes W.Tells (length self.old.store) (W.seen world.old) (W.seen world.new) self.old.net self.new.net result }
        ensures quiet { W.Tells → QuietAgain app.old.state.index self.old.events (W.seen world.old) (W.seen world.new) }
        ensures done { MatchResult result (λ stops. GroupTaken W.Tells (J.accepts judge.now) events.now stops (W.seen world.old) (W.seen world.new) self.old
            self.new app.old app.new)
            (GroupFails W.Tells app.old.state.index app.old.rule.now.budget app.old.state.rest (W.seen world.old) (W.seen world.new) self.old.net) }
        ensures parted { W.CanPart → IfErr result IsPlainEnd }
    {
        let rule = app.rule;
        let grouped = hold_group(
            world,
            &mut self.net,
            &mut self.queue,
            &mut self.store,
            &mut app.state,
            Group {
                alloc: self.alloc,
                rule,
                number: self.events,
                events,
                judge,
            },
        )?;
        Ok(self.close_group(world, app, events.len() as u64, grouped)?)
    }
    /// Gives an application that failed at an event what it is given in place of it, if anything. Answers whether the event goes
    /// no further.
    pub(crate) fn give_instead<'x, W: World, J: Judge>(
        &mut self,
        world: &mut W,
        app: &mut Managed<'_>,
        judge: &'x J,
        event: &'x Event,
    ) -> Result<bool, Fault>
        requires goes { CoreGoes self.old }
        requires place { app.old.state.index < length self.old.store }
        ensures passes { Passes W.Tells (length self.old.store) (W.seen world.old) (W.seen world.new) self.old.net self.new.net result }
        ensures quiet { W.Tells → QuietAgain app.old.state.index self.old.events (W.seen world.old) (W.seen world.new) }
        ensures done { MatchResult result (λ stops. InsteadDone W.Tells (J.accepts judge.now) event.now stops (W.seen world.old) (W.seen world.new) self.old
            self.new app.old app.new)
            (λ fault. InsteadFails W.Tells fault (W.seen world.old) (W.seen world.new) self.old app.old) }
        ensures parted { W.CanPart → IfErr result IsPlainEnd }
    {
        if !app.state.alive {
            return Ok(false);
        }
        let others = others_for(self.alloc, app.rule, event)?;
        let events: &[Event] = &others;
        if events.is_empty() {
            return Ok(false);
        }
        if !are_carried(events) {
            return Err(Fault::NoMemory);
        }
        self.take_group(world, app, judge, events)
    }
}
