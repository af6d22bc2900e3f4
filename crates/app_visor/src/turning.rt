//! The turn of an application at an event.

ghost use Rattle.std.specs.Prelude.{◌≡◌, ◌<◌, true, List, [], length, IfOk, IfErr, OnOk, OnErr};
ghost use Rattle.app_frames.specs.declared.frame.HostFrame.TheVariants as host;
ghost use Rattle.app_frames.specs.Frames.{HostFits};
ghost use Rattle.of_types.specs.declared.journal.Act.{Act};
ghost use Rattle.lego_model.specs.Controller.{event_frame};
ghost use Rattle.lego_model.specs.AtOnce.{Before, before, Passes};
ghost use Rattle.net_txn.specs.Causes.{IsPlain};
ghost use Rattle.app_visor.specs.Dialogues.{LeadsOn, Talks};
ghost use Rattle.app_visor.specs.Beats.{Stops, Leads, Stays};
ghost use Rattle.app_visor.specs.CallsFor.{Calmly, CalmBehind};
ghost use Rattle.app_frames.specs.declared.frame.AppFrame.TheVariants as frames;
ghost use Rattle.outside.specs.Seen.{Continues};
ghost use Rattle.app_visor.specs.Turns.{IsShort, turn_end, handed_at, with_handed, TurnsFrom, StagesTurn, FramePlayed, Plays, done_as, cause_of, unread_after};

use crate::asking::{encode_event, exchange};
use crate::came::Came;
use crate::intake::Intake;
use crate::play_end::PlayEnd;
use crate::state::{AppState, TurnEnd};
use crate::talk::{give, next_frame};
use app_frames::{AppFrame, Cause, Event};
use checkpoint_store::Store;
use flow_table::Judge;
use net_txn::{Txn, TxnFault};
use of_types::{ByteList, Dpid};
use outside::World;
use std::alloc::{AllocError, Global};
use std::mem::replace;

/// Tells how the turn ends where the application is done: the judge is asked about the tables.
fn finish<J: Judge>(txn: &Txn<'_>, judge: &J, stop: bool, checkpoint: Option<ByteList>) -> PlayEnd
    ensures { result ≡ done_as (J.accepts judge.now txn.now.net.now.views) stop checkpoint }
{
    if judge.allows(txn.views()) {
        PlayEnd::Done { stop, checkpoint }
    } else {
        PlayEnd::Failed(Cause::Judged)
    }
}

/// Tells why a turn fails where no frame comes, or one too many.
fn cause_of(came: Came) -> Cause
    ensures { result ≡ cause_of came }
{
    match came {
        Came::Frame(_) => Cause::Budget,
        Came::Refused(fault) => Cause::Garbled(fault),
        Came::Closed => Cause::Closed,
        Came::Silent => Cause::Silent,
    }
}

/// Has a message answered; the turn ends where the answer cannot be given.
fn answer<W: World, J: Judge>(
    alloc: Global,
    world: &mut W,
    txn: &mut Txn<'_>,
    judge: &J,
    app: u32,
    dpid: Dpid,
    bytes: ByteList,
) -> Result<Option<PlayEnd>, TxnFault>
    ensures same_reference { txn.new.net.ghost_name ≡ txn.old.net.ghost_name }
    ensures start { txn.new.start ≡ txn.old.start }
    ensures leads { OnOk result (Leads W.Tells app (W.seen world.old) (W.seen world.new) txn.old.net.now txn.new.net.now) }
    ensures ok { IfOk result (Plays W.Tells (J.accepts judge.now) app (frames.Message dpid bytes) (W.seen world.old) (W.seen world.new) txn.old.net.now txn.new.net.now) }
    ensures err { IfErr result (λ fault. Stops W.Tells app (W.seen world.old) (W.seen world.new) txn.old.net.now txn.new.net.now fault) }
    ensures talks { OnErr result (W.Tells → (s : Before) → LeadsOn app s (W.seen world.old) (W.seen world.new)) }
    ensures calm { W.Tells → Calmly app (W.seen world.old) (W.seen world.new) }
    ensures parted { W.CanPart → IfErr result IsPlain }
{
    if exchange(alloc, world, txn, app, dpid, bytes.as_slice())? {
        Ok(None)
    } else {
        Ok(Some(PlayEnd::Failed(Cause::Closed)))
    }
}

/// Plays one frame, and answers how the turn ends with it, where it does.
fn play<W: World, J: Judge>(
    alloc: Global,
    world: &mut W,
    txn: &mut Txn<'_>,
    judge: &J,
    app: u32,
    frame: AppFrame,
) -> Result<Option<PlayEnd>, TxnFault>
    ensures same_reference { txn.new.net.ghost_name ≡ txn.old.net.ghost_name }
    ensures start { txn.new.start ≡ txn.old.start }
    ensures leads { OnOk result (Leads W.Tells app (W.seen world.old) (W.seen world.new) txn.old.net.now txn.new.net.now) }
    ensures ok { IfOk result (Plays W.Tells (J.accepts judge.now) app frame (W.seen world.old) (W.seen world.new) txn.old.net.now txn.new.net.now) }
    ensures err { IfErr result (λ fault. Stops W.Tells app (W.seen world.old) (W.seen world.new) txn.old.net.now txn.new.net.now fault) }
    ensures talks { OnErr result (W.Tells → (s : Before) → LeadsOn app s (W.seen world.old) (W.seen world.new)) }
    ensures calm { W.Tells → Calmly app (W.seen world.old) (W.seen world.new) }
    ensures parted { W.CanPart → IfErr result IsPlain }
{
    match frame {
        AppFrame::Message(dpid, bytes) => answer(alloc, world, txn, judge, app, dpid, bytes),
        AppFrame::Done { stop, checkpoint } => Ok(Some(finish(txn, judge, stop, checkpoint))),
        AppFrame::Save | AppFrame::Keep | AppFrame::Undo | AppFrame::Ready => Ok(Some(
            PlayEnd::Failed(Cause::Unbalanced),
        )),
    }
}

/// Takes the next frame and plays it, and answers how the turn ends with it, where it does.
fn play_next<W: World, J: Judge>(
    alloc: Global,
    world: &mut W,
    txn: &mut Txn<'_>,
    judge: &J,
    app: u32,
    intake: &mut Intake,
) -> Result<Option<PlayEnd>, TxnFault>
    ensures same_reference { txn.new.net.ghost_name ≡ txn.old.net.ghost_name }
    ensures start { txn.new.start ≡ txn.old.start }
    ensures leads { OnOk result (Leads W.Tells app (W.seen world.old) (W.seen world.new) txn.old.net.now txn.new.net.now) }
    ensures ok { IfOk result (λ end. FramePlayed W.Tells (J.accepts judge.now) app end intake.old intake.new (W.seen world.old) (W.seen world.new) txn.old.net.now txn.new.net.now) }
    ensures err { IfErr result (λ fault. Stops W.Tells app (W.seen world.old) (W.seen world.new) txn.old.net.now txn.new.net.now fault) }
    ensures talks { OnErr result (W.Tells → (since : List Act) → LeadsOn app (before intake.old since) (W.seen world.old) (W.seen world.new)) }
    ensures calm { W.Tells → Calmly app (W.seen world.old) (W.seen world.new) }
    ensures parted { W.CanPart → IfErr result IsPlain }
{
    match next_frame(alloc, world, app, intake)? {
        Came::Frame(frame) => play(alloc, world, txn, judge, app, frame),
        came => Ok(Some(PlayEnd::Failed(cause_of(came)))),
    }
}

/// Plays frames until the turn ends, at most so many.
fn play_all<W: World, J: Judge>(
    alloc: Global,
    world: &mut W,
    txn: &mut Txn<'_>,
    judge: &J,
    app: u32,
    intake: &mut Intake,
    budget: u32,
) -> Result<PlayEnd, TxnFault>
    ensures same_reference { txn.new.net.ghost_name ≡ txn.old.net.ghost_name }
    ensures start { txn.new.start ≡ txn.old.start }
    ensures ok { IfOk result (λ end. TurnsFrom W.Tells (J.accepts judge.now) app budget intake.old (W.seen world.old) (W.seen world.new) txn.old.net.now txn.new.net.now end intake.new) }
    ensures err { IfErr result (λ fault. Stops W.Tells app (W.seen world.old) (W.seen world.new) txn.old.net.now txn.new.net.now fault) }
    ensures talks { OnErr result (W.Tells → LeadsOn app (before intake.old []) (W.seen world.old) (W.seen world.new)) }
    ensures calm { W.Tells → Calmly app (W.seen world.old) (W.seen world.new) }
    ensures parted { W.CanPart → IfErr result IsPlain }
{
    for _played in 0..budget {
        if let Some(end) = play_next(alloc, world, txn, judge, app, intake)? {
            return Ok(end);
        }
    }
    Ok(PlayEnd::Failed(cause_of(next_frame(alloc, world, app, intake)?)))
}

/// Tells what stays unread: nothing where the turn failed.
fn rest_after(alloc: Global, end: &PlayEnd, intake: &Intake) -> Result<ByteList, AllocError>
    ensures { IfOk result (λ rest. rest ≡ unread_after (turn_end end.now) intake.now) }
{
    match end {
        PlayEnd::Done { .. } => intake.rest(alloc),
        PlayEnd::Failed(_) => Ok(ByteList::new(alloc)),
    }
}

/// Stages the checkpoint that was handed over, where there is one.
fn stage(store: &mut Store, app: u32, checkpoint: Option<ByteList>) -> Result<(), AllocError>
    requires app { app < length store.old }
    requires short { IsShort checkpoint }
    ensures ok { OnOk result (store.new ≡ with_handed app checkpoint store.old) }
    ensures err { OnErr result (store.new ≡ store.old) }
{
    match checkpoint {
        Some(checkpoint) => store.stage(app, checkpoint.as_slice()),
        None => Ok(()),
    }
}

/// Stages the checkpoint of a turn that is done, and answers how the turn ended.
fn hand_over(store: &mut Store, app: u32, end: PlayEnd) -> Result<TurnEnd, AllocError>
    requires app { app < length store.old }
    requires short { IsShort (handed_at end) }
    ensures end { IfOk result (λ answer. answer ≡ turn_end end) }
    ensures ok { OnOk result (store.new ≡ with_handed app (handed_at end) store.old) }
    ensures err { OnErr result (store.new ≡ store.old) }
{
    match end {
        PlayEnd::Done { stop, checkpoint } => {
            stage(store, app, checkpoint)?;
            Ok(TurnEnd::Done { stop })
        }
        PlayEnd::Failed(cause) => Ok(TurnEnd::Failed(cause)),
    }
}

/// Holds the turn of an application at an event: it is given the event, and its frames are played in order, at most
/// `budget` of them before the one that it is done. Each message is answered by the transaction, which is neither
/// committed nor undone here. The checkpoint of a turn that is done is staged, where it handed one over.
pub fn turn<W: World, J: Judge>(
    alloc: Global,
    world: &mut W,
    txn: &mut Txn<'_>,
    judge: &J,
    store: &mut Store,
    app: &mut AppState,
    number: u64,
    event: &Event,
    budget: u32,
) -> Result<TurnEnd, TxnFault>
    requires fits { HostFits (host.Event number txn.old.net.now.moment event.now) }
    requires app { app.old.index < length store.old }
    ensures same_reference { txn.new.net.ghost_name ≡ txn.old.net.ghost_name }
    ensures start { txn.new.start ≡ txn.old.start }
    ensures stays { Stays txn.old.net.now txn.new.net.now }
    ensures index { app.new.index ≡ app.old.index }
    ensures alive { app.new.alive ≡ app.old.alive }
    // How it ended is what the event, the frames of the application, their end and the answers say.
    // The checkpoint that it handed over was staged where it is done; otherwise nothing was staged.
    ensures ok { IfOk result (λ end. StagesTurn W.Tells (J.accepts judge.now) app.old.index budget app.old.rest (event_frame number txn.old.net.now.moment event.now)
        (W.seen world.old) (W.seen world.new) txn.old.net.now txn.new.net.now end app.new.rest store.old store.new) }
    // Memory was wanting, or the network failed at a message; nothing is unread then, and nothing was staged.
    ensures err_rest { OnErr result (app.new.rest ≡ []) }
    ensures err_store { OnErr result (store.new ≡ store.old) }
    ensures err { IfErr result (λ fault. Stops W.Tells app.old.index (W.seen world.old) (W.seen world.new) txn.old.net.now txn.new.net.now fault) }
    // Then too the turn goes on with the dialogue, where the application runs.
    ensures talks { OnErr result (W.Tells → (s : Before) → s.running ≡ true → Passes s.unread app.old.rest → Talks app.old.index s (W.seen world.old) (W.seen world.new)) }
    // However it ended, the application was given the event at first, no other was called, and no point behind the one where it began was quiescent.
    ensures later { W.Tells → CalmBehind app.old.index (event_frame number txn.old.net.now.moment event.now) (W.seen world.old) (W.seen world.new) }
    ensures continues { Continues W.Tells (W.seen world.old) (W.seen world.new) }
    // Where the world's switches can be parted with, one at fault is lost, and a fault is one of memory.
    ensures parted { W.CanPart → IfErr result IsPlain }
{
    let rest = replace(&mut app.rest, ByteList::new(alloc));
    let frame = encode_event(alloc, number, txn.moment(), event)?;
    let mut intake = app.buffer.take(alloc, rest.as_slice())?;
    if !give(world, app.index, frame.as_slice())? {
        app.buffer.keep(intake);
        return Ok(TurnEnd::Failed(Cause::Closed));
    }
    let end = play_all(alloc, world, txn, judge, app.index, &mut intake, budget)?;
    let rest = rest_after(alloc, &end, &intake)?;
    let end = hand_over(store, app.index, end)?;
    app.rest = rest;
    app.buffer.keep(intake);
    Ok(end)
}
