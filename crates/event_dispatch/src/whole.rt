//! A whole run.

ghost use Rattle.std.specs.Prelude.{◌≡◌, ◌^◌, ◌<◌, ◌≤◌, Bool, List, [], length, map, IfErr, OnOk, MatchResult};
ghost use Rattle.lego_io.specs.Count.{NeverFell};
ghost use Rattle.outside.specs.Seen.{Continues};
ghost use Rattle.outside.specs.Calls.{most_message};
ghost use Rattle.outside.specs.State.{state};
ghost use Rattle.outside.specs.InOrder.{InOrder};
ghost use Rattle.net_txn.specs.LinkSteps.{MakesNoStrayCall};
ghost use Rattle.event_dispatch.specs.Runs.{AreGoing, Going, most_rounds};
ghost use Rattle.event_dispatch.specs.Why.{IsWhy};
ghost use Rattle.event_dispatch.specs.Plain.{IsPlainEnd, IsPlainServed, EndsPlain};
ghost use Rattle.crash_policy.specs.Policies.{app_value};
ghost use Rattle.lego_model.specs.OwnIds.{IsShortRun, OwnIdsAscend};
ghost use Rattle.lego_model.specs.Places.{Place};
ghost use Rattle.run_laws.specs.First.{net_at_first, engine_at_first};
ghost use Rattle.run_laws.specs.Promise.{PremiseSoFar, Premise};
ghost use Rattle.event_dispatch.specs.Cut.{IsReadServed};
ghost use Rattle.event_dispatch.specs.Serves.{EndsReport, IsCut, IsAlike, GoesItsCourse};
ghost use Rattle.event_dispatch.specs.Passes.{PassesQuietly};
ghost use Rattle.event_dispatch.specs.Parts.{PassesOn, PassesRound, PassesServed, PassesEnded, WritesNoted, StartedAll, BeginDone, BeginFails};
ghost use Rattle.event_dispatch.specs.Parts.{RoundDone, RoundFails, RoundsDone, RoundsFail, ReportFails, FinishesSo, GoesSo, RunsSo, Opens, EndsOne, EndsAll};

use crate::batch::Rest;
use crate::engine_core::Core;
use crate::fault::Fault;
use crate::run::{Managed, Run};
use crate::served::Served;
use crash_policy::AppRule;
use lego_io::{Sink, WriteFault};
use of_types::limits::MOST_MESSAGE_BYTES;
use outside::{Judge, OpenFault, World};
use std::alloc::{AllocError, Global};

impl Core {
    /// Writes the lines that a batch noted, of a switch that was lost; mostly there are none.
    fn write_noted<K: Sink>(&mut self, sink: &mut K) -> Result<(), WriteFault>
        ensures { WritesNoted (K.contents sink.old) (K.contents sink.new) (K.faults sink.old) (K.faults sink.new) self.old self.new result }
    {
        if self.lines.is_empty() {
            return Ok(());
        }
        self.write(sink)
    }
}

/// Starts applications at their kept checkpoints, in order.
fn start_all<W: World>(
    core: &mut Core,
    world: &mut W,
    apps: &mut Vec<Managed<'_>>,
) -> Result<(), AllocError>
    requires going { AreGoing core.old apps.old.items }
    ensures passes { PassesQuietly W.Tells (length core.old.store) (W.seen world.old) (W.seen world.new) core.old.net core.new.net result }
    ensures done { OnOk result (StartedAll W.Tells (W.seen world.old) (W.seen world.new) core.old core.new apps.old.items apps.new.items) }
{
    for at in 0..apps.len() {
        core.start(world, &mut apps[at])?;
    }
    Ok(())
}

impl Run<'_> {
    /// Runs one round: a batch, whose lines are written, and then the events that wait.
    fn run_round<W: World, J: Judge, K: Sink>(
        &mut self,
        world: &mut W,
        judge: &J,
        sink: &mut K,
        buf: &mut [u8],
    ) -> Result<Rest, Fault>
        requires buffer { most_message ≤ length buf.old }
        requires going { Going self.old }
        requires few { self.old.core.events < 2 ^ 62 }
        requires none_waits { self.old.core.lines.items ≡ [] }
        ensures passes { PassesRound W.Tells (length self.old.core.store) (W.seen world.old) (W.seen world.new) self.old.core.net self.new.core.net
            (K.faults sink.old) (K.faults sink.new) buf.old buf.new result }
        ensures done { MatchResult result (λ rest. RoundDone W.Tells (J.accepts judge.now) rest (K.contents sink.old) (K.contents sink.new)
            (W.seen world.old) (W.seen world.new) self.old self.new)
            (RoundFails W.Tells (J.accepts judge.now) (K.contents sink.old) (K.contents sink.new) (K.faults sink.old) (K.faults sink.new)
            (W.seen world.old) (W.seen world.new) self.old) }
        ensures parted { W.CanPart → IfErr result IsPlainEnd }
    {
        let rest = self.core.take_batch(world, buf)?;
        self.core.write_noted(sink)?;
        self.dispatch_waiting(world, judge, sink)?;
        Ok(rest)
    }

    /// Runs batch after batch, at most so many, until nothing comes any more.
    fn run_rounds<W: World, J: Judge, K: Sink>(
        &mut self,
        world: &mut W,
        judge: &J,
        sink: &mut K,
        buf: &mut [u8],
        rounds: u64,
    ) -> Result<(), Fault>
        requires buffer { most_message ≤ length buf.old }
        requires few { rounds ≤ most_rounds }
        requires going { Going self.old }
        requires none { self.old.core.events ≡ 0 }
        requires none_waits { self.old.core.lines.items ≡ [] }
        ensures passes { PassesOn W.Tells (length self.old.core.store) (W.seen world.old) (W.seen world.new) self.old.core.net self.new.core.net
            (K.faults sink.old) (K.faults sink.new) result }
        ensures done { MatchResult result (λ _. RoundsDone W.Tells (J.accepts judge.now) rounds (K.contents sink.old) (K.contents sink.new)
            (W.seen world.old) (W.seen world.new) self.old self.new)
            (RoundsFail W.Tells (J.accepts judge.now) (K.contents sink.old) (K.contents sink.new) (K.faults sink.old) (K.faults sink.new)
            (W.seen world.old) (W.seen world.new) self.old) }
        ensures parted { W.CanPart → IfErr result IsPlainEnd }
    {
        for _round in 0..rounds {
            match self.run_round(world, judge, sink, buf)? {
                Rest::Idle => {}
                Rest::End => return Ok(()),
            }
        }
        Ok(())
    }

    /// Starts the applications, and writes how their attempts ended.
    fn begin<W: World, K: Sink>(&mut self, world: &mut W, sink: &mut K) -> Result<(), Fault>
        requires going { Going self.old }
        requires none { self.old.core.events ≡ 0 }
        requires none_waits { self.old.core.lines.items ≡ [] }
        ensures passes { PassesOn W.Tells (length self.old.core.store) (W.seen world.old) (W.seen world.new) self.old.core.net self.new.core.net
            (K.faults sink.old) (K.faults sink.new) result }
        ensures done { MatchResult result (λ _. BeginDone W.Tells (K.contents sink.old) (K.contents sink.new)
            (W.seen world.old) (W.seen world.new) self.old self.new)
            (BeginFails W.Tells (K.contents sink.old) (K.contents sink.new) (K.faults sink.old) (K.faults sink.new) (W.seen world.old) (W.seen world.new) self.old) }
    {
        start_all(&mut self.core, world, &mut self.apps)?;
        self.core.write(sink)?;
        Ok(())
    }

    /// Writes the end of the report.
    fn end_report<W: World, K: Sink>(&mut self, world: &mut W, sink: &mut K) -> Result<(), Fault>
        requires going { Going self.old }
        requires none_waits { self.old.core.lines.items ≡ [] }
        ensures passes { PassesOn W.Tells (length self.old.core.store) (W.seen world.old) (W.seen world.new) self.old.core.net self.new.core.net
            (K.faults sink.old) (K.faults sink.new) result }
        ensures done { MatchResult result (λ _. EndsReport W.Tells (K.contents sink.old) (K.contents sink.new)
            (W.seen world.old) (W.seen world.new) self.old self.new)
            (ReportFails W.Tells (K.contents sink.old) (K.contents sink.new) (K.faults sink.old) (K.faults sink.new)
            (W.seen world.old) (W.seen world.new) self.old) }
        ensures parted { W.CanPart → IfErr result IsPlainEnd }
    {
        self.note_last(world)?;
        self.core.write(sink)?;
        Ok(())
    }

    /// Writes the end of the report, where no event is left.
    fn finish<W: World, K: Sink>(&mut self, world: &mut W, sink: &mut K) -> Result<(), Served>
        requires going { Going self.old }
        requires none_waits { self.old.core.lines.items ≡ [] }
        ensures passes { PassesServed W.Tells (length self.old.core.store)
            (W.seen world.old) (W.seen world.new) self.old.core.net (K.faults sink.old) (K.faults sink.new) result }
        ensures done { FinishesSo W.Tells (K.contents sink.old) (K.contents sink.new) (K.faults sink.old) (K.faults sink.new)
            (W.seen world.old) (W.seen world.new) self.old self.new result }
        ensures parted { W.CanPart → IfErr result IsPlainServed }
    {
        if !self.core.queue.is_empty() {
            return Err(Served::EventsLeft(self.core.queue.len()));
        }
        Ok(self.end_report(world, sink)?)
    }

    /// Runs a world that was opened, from the start of its applications to the end of the report.
    fn run_opened<W: World, J: Judge, K: Sink>(
        &mut self,
        world: &mut W,
        judge: &J,
        sink: &mut K,
        buf: &mut [u8],
        rounds: u64,
    ) -> Result<(), Served>
        requires buffer { most_message ≤ length buf.old }
        requires few { rounds ≤ most_rounds }
        requires going { Going self.old }
        requires none { self.old.core.events ≡ 0 }
        requires none_waits { self.old.core.lines.items ≡ [] }
        ensures passes { PassesServed W.Tells (length self.old.core.store)
            (W.seen world.old) (W.seen world.new) self.old.core.net (K.faults sink.old) (K.faults sink.new) result }
        ensures done { GoesSo W.Tells (J.accepts judge.now) rounds (K.contents sink.old) (K.contents sink.new) (K.faults sink.old) (K.faults sink.new)
            (W.seen world.old) (W.seen world.new) self.old self.new result }
        ensures parted { W.CanPart → IfErr result IsPlainServed }
    {
        self.begin(world, sink)?;
        self.run_rounds(world, judge, sink, buf, rounds)?;
        self.finish(world, sink)
    }
}

/// Opens the world at a port.
fn open<W: World>(world: &mut W, port: u16) -> Result<(), Served>
    ensures { Opens W.Tells (W.seen world.old) (W.seen world.new) result }
{
    match world.open(port) {
        Ok(()) => Ok(()),
        Err(OpenFault::Shut) => Err(Served::Shut),
        Err(OpenFault::Short) => Err(Served::NoMemory),
    }
}

/// Ends an application, if it runs.
fn end_one<W: World>(world: &mut W, app: u32)
    ensures { EndsOne W.Tells app (W.seen world.old) (W.seen world.new) }
{
    world.end(app);
}

/// Ends the first so many applications, those of them that run.
fn end_all<W: World>(world: &mut W, apps: u32)
    ensures { EndsAll W.Tells apps (W.seen world.old) (W.seen world.new) }
{
    for app in 0..apps {
        end_one(world, app);
    }
}

/// Runs an opened world to its end, after which its applications are ended.
fn run_then_end<W: World, J: Judge, K: Sink>(
    run: &mut Run<'_>,
    world: &mut W,
    judge: &J,
    sink: &mut K,
    buf: &mut [u8],
    rounds: u64,
) -> Result<(), Served>
    requires buffer { most_message ≤ length buf.old }
    requires few { rounds ≤ most_rounds }
    requires going { Going run.old }
    requires number { length run.old.apps.items < 2 ^ 32 }
    requires none { run.old.core.events ≡ 0 }
    requires none_waits { run.old.core.lines.items ≡ [] }
    ensures passes { PassesEnded W.Tells (length run.old.core.store)
        (W.seen world.old) (W.seen world.new) run.old.core.net (K.faults sink.old) (K.faults sink.new) result }
    ensures done { GoesSo W.Tells (J.accepts judge.now) rounds (K.contents sink.old) (K.contents sink.new) (K.faults sink.old) (K.faults sink.new)
        (W.seen world.old) (W.seen world.new) run.old run.new result }
    ensures parted { W.CanPart → IfErr result IsPlainServed }
{
    let apps = run.apps.len() as u32;
    let ended = run.run_opened(world, judge, sink, buf, rounds);
    end_all(world, apps);
    ended
}

/// Runs an opened world to its end, and answers how many events were dispatched.
fn run<W: World, J: Judge, K: Sink>(
    alloc: Global,
    rules: &[AppRule],
    world: &mut W,
    judge: &J,
    sink: &mut K,
    rounds: u64,
) -> Result<u64, Served>
    requires few { rounds ≤ most_rounds }
    ensures passes { PassesEnded W.Tells (length rules.now) (W.seen world.old) (W.seen world.new) net_at_first (K.faults sink.old) (K.faults sink.new) result }
    ensures done { RunsSo (map app_value rules.now) W.Tells (J.accepts judge.now) rounds (K.contents sink.old) (K.contents sink.new)
        (K.faults sink.old) (K.faults sink.new) (W.seen world.old) (W.seen world.new) (engine_at_first (map app_value rules.now)) result }
    ensures parted { W.CanPart → IfErr result IsPlainServed }
{
    let mut run = Run::new(alloc, rules)?;
    let mut buf = vec![in alloc; 0; MOST_MESSAGE_BYTES]?;
    run_then_end(&mut run, world, judge, sink, &mut buf, rounds)?;
    Ok(run.core.events)
}

/// Runs the world to its end with the applications of a policy, and writes the report.
///
/// The world is opened at the port. The words of an application's command start it, at first, in the order of the policy, and after
/// a failed turn where its policy for events of that kind says so; under `none` it is gone then. Each is given events of the kinds
/// that it is to be given, in the order of the policy, until one that was done says that the event goes no further; and has a turn
/// of at most so many frames, as the policy says, at each. At most so many rounds are run; one is a batch and the events that wait
/// then. The lines of an event are written when its dispatch has ended. However the run ends, all applications are ended. A switch whose link fails
/// is lost: it leaves, and the run goes on. Any other fault of a switch ends the run, and so does a fault of the sink, or of what comes next, and
/// so do events that are left after the last batch.
///
/// Each stimulus takes a round, and so does the end of the stimuli, at which the events that are left have one batch more. So
/// where as many stimuli come as there are rounds, or more, the run takes the first of them, and has no batch more. No clause
/// speaks of the port or of the words of the command.
pub fn serve<W: World, J: Judge, K: Sink>(
    alloc: Global,
    rules: &[AppRule],
    world: &mut W,
    judge: &J,
    sink: &mut K,
    port: u16,
    rounds: u64,
) -> Served
    requires rounds { rounds ≤ most_rounds }
    ensures continues { Continues W.Tells (W.seen world.old) (W.seen world.new) }
    ensures never_fell { NeverFell (K.faults sink.old) (K.faults sink.new) }
    // Each end but the whole one and want of memory has its cause in this call.
    ensures end_has_cause { IsWhy W.Tells (W.seen world.old) (W.seen world.new) (K.faults sink.old) (K.faults sink.new) result }
    // In a world that tells and keeps its word, on which no call was made before, the run takes the first stimuli that the world was given,
    // as many as there are rounds, or all. It is the reference controller's over what the world told: the tables agree at every quiescent point, each application was given what it
    // is given there, the packets that were released are those that it releases and the switches that were lost those that it loses, in
    // their order, and what was written is the report, whole
    // where all events were dispatched, and as far as these go where some were left. It is so, too, over all that was said of the
    // applications, of which the world told the front.
    ensures reference_run { (allows : List Place → Bool) → Premise W.Tells (J.accepts judge.now) allows (W.seen world.old) (W.seen world.new)
        → IsAlike (map app_value rules.now) allows rounds (W.seen world.new) (K.contents sink.old) (K.contents sink.new) result }
    // Where a fault ends the run, it is so up to a point, with the lines of all that was done up to there, and where the sink failed,
    // with a part of the lines of the last; if the world kept its word as far as there, whatever came behind it. The whole journal is a dialogue with each application then. A world that tells in order kept its word as far as there,
    // since all bytes that came are messages up to there. Behind it no quiescent point lies in such a world, and no other application than
    // those of the policy was called.
    ensures reference_run_until_fault { (allows : List Place → Bool) → PremiseSoFar W.Tells (J.accepts judge.now) allows (W.seen world.old)
        → IsCut (map app_value rules.now) allows (W.seen world.new) (K.contents sink.old) (K.contents sink.new) result }
    // In a world that keeps its word to the end no switch is at fault for what it sent, and none ends the run, unless a packet that was
    // released made it send as many messages as are too many: one whose link fails is lost, and the run goes on.
    ensures no_switch_at_fault { (allows : List Place → Bool) → Premise W.Tells (J.accepts judge.now) allows (W.seen world.old) (W.seen world.new)
        → EndsPlain (W.seen world.old) (W.seen world.new) result }
    // In a world that tells in order, though bytes that come of switches may be no messages: no call of a link is a stray one, and at the end
    // of a run that no fault ends all that came of switches is messages, so that the world kept its word.
    ensures no_stray_call { W.Tells → (W.seen world.old).history ≡ [] → InOrder (W.seen world.new) → MakesNoStrayCall (W.seen world.old) (W.seen world.new) }
    ensures all_bytes_are_messages { W.Tells → (W.seen world.old).history ≡ [] → InOrder (W.seen world.new) → IsReadServed (W.seen world.new) result }
    // In such a world the transaction ids of its own messages ascend from 1 on, so that none is used twice, in a run of less than a thousand million
    // steps and declared switches.
    ensures own_ids_ascend { W.Tells → (W.seen world.old).history ≡ [] → InOrder (W.seen world.new) → IsShortRun (W.seen world.new) → OwnIdsAscend (W.seen world.new) }
    // However the run ends, each application that was started is ended: where no call was made before, none runs.
    ensures every_application_ended { W.Tells → (W.seen world.old).history ≡ [] → (state (W.seen world.new)).running ≡ [] }
    // In any world, whatever its switches send: the messages that were kept while something else was awaited come first in the next batch, oldest first.
    // None of them is lost but with its switch, where that leaves or is lost; an undo keeps a message only where there is room. The events that
    // they make are given behind those that waited, and printed. So the run goes from part to part, up to its end or a fault.
    ensures kept_messages_come_first { GoesItsCourse (map app_value rules.now) W.Tells (J.accepts judge.now) (W.seen world.old) (W.seen world.new)
        (K.contents sink.old) (K.contents sink.new) result }
    // Where the world's switches can be parted with, one at fault is lost, and no fault of a switch ends the run.
    ensures no_switch_ends_it { W.CanPart → IsPlainServed result }
{
    if let Err(served) = open(world, port) {
        return served;
    }
    match run(alloc, rules, world, judge, sink, rounds) {
        Ok(events) => Served::Ended { events },
        Err(served) => served,
    }
}
