//! The other world, and what is noted of applications.

ghost use Rattle.std.specs.Prelude.{◌≡◌, ◌≢◌, ◌==◌, ◌<◌, ◌≤◌, ◌&&◌, filter, [], ◌∷◌, ◌++◌, ℕ, List, true, false, not, length, Ok, Err, IsTrue, IsOk, IfOk, IsErr, IsErrOf, OnOk, OnErr, Some, slice_get};
ghost use Rattle.lego_io.specs.Count.{raised};
ghost use Rattle.of_types.specs.declared.journal.Act.TheVariants.{Started, Gave, Gone, Ended};
ghost use Rattle.outside.specs.declared.step.WorldStep.TheVariants.{Acted, TookInto};
ghost use Rattle.of_types.specs.Membership.{is_among};
ghost use Rattle.of_wire.specs.Reading.{reading_of};
ghost use Rattle.outside.specs.Calls.{most_message, Opens, Nexts, Gives, Takes, Ends, Sends, Receives, start_steps, give_steps, take_steps, end_steps, IsTakenIn};
ghost use Rattle.linked_world.specs.Linked.{running_after, running_without, take_count, stray_count, short_count, Notes, IsTakeable, in_place};
ghost use Rattle.linked_world.specs.Still.{start_answer, give_answer};
ghost use Rattle.linked_world.specs.laws.LinkCallLaws.{LinksMoved};
ghost use Rattle.linked_world.specs.laws.ThereLaws.{MovedThere, Restarts, was_started};
ghost use Rattle.linked_world.specs.laws.AppCallLaws.{started_counts, gave_counts, taken_counts};

use crate::counts::CallCounts;
use http_server::Log;
use of_types::{Act, ByteList, Dpid, TookWhat};
use outside::{
    GiveFault, Item, LinkFault, NextFault, OpenFault, Short, StartFault, Taken, World, WorldStep,
};
use std::alloc::{AllocError, Global};
use std::marker::Model;

/// The other world, and what is noted of applications. The notes are kept for contracts alone and take no memory.
/// Contracts see it as data.
#[derive(Drop)]
pub(crate) struct Parts<W> {
    pub(crate) alloc: Global,
    pub(crate) links: W,
    pub(crate) notes: Log<W, WorldStep>,
    pub(crate) running: Vec<u32>,
    pub(crate) counts: CallCounts,
    pub(crate) inside: Vec<bool>,
}

impl<W> Model for Parts<W> {
    ghost use Rattle.linked_world.specs.Linked.{Linkage};

    ghost Value = { Linkage W };

    ghost view = { λ p. record {
      links = p.links;
      notes = p.notes.items;
      running = p.running.items;
      counts = p.counts;
      inside = p.inside.items;
    } };
}

/// Takes an application out.
fn remove(running: &mut Vec<u32>, app: u32)
    ensures { running.new.items ≡ filter (λ a. not (a == app)) running.old.items }
{
    running.retain(|running| *running != app);
}

/// Room for so many applications of the other world, none of which runs.
#[tactic(auto, using(crate::specs::laws::AppCallLaws::none_there, crate::specs::laws::AppCallLaws::none_more))]
pub(crate) fn none_inside(alloc: Global, number: u32) -> Result<Vec<bool>, AllocError>
    ensures { IfOk result (λ all. (i : ℕ) → slice_get all.items i ≢ Some true) }
{
    let mut inside = Vec::new(alloc);
    for _ in 0..number {
        inside.push(false)?;
    }
    Ok(inside)
}

/// Says of an application of the other world that it does not run.
fn leave_out(inside: &mut [bool], app: u32)
    ensures here { slice_get inside.new app ≢ Some true }
    ensures others { (i : ℕ) → i ≢ app → slice_get inside.new i ≡ slice_get inside.old i }
{
    let place = app as usize;
    if place < inside.len() {
        inside[place] = false;
    }
}

/// What a start answered.
fn start_answer(started: Result<(), StartFault>) -> Result<bool, Short>
    ensures { start_answer result ≡ started }
{
    match started {
        Ok(()) => Ok(true),
        Err(StartFault::NotStarted) => Ok(false),
        Err(StartFault::Short) => Err(Short),
    }
}

/// Whether an application was started.
fn was_started(started: &Result<bool, Short>) -> bool
    ensures { result ≡ was_started started.now }
{
    matches!(started, Ok(true))
}

/// What a give answered.
fn give_answer(given: Result<(), GiveFault>) -> Result<bool, Short>
    ensures { give_answer result ≡ given }
{
    match given {
        Ok(()) => Ok(true),
        Err(GiveFault::Gone) => Ok(false),
        Err(GiveFault::Short) => Err(Short),
    }
}

/// Ends an application of a world, if it runs, and starts it.
fn restart<W: World>(world: &mut W, app: u32, words: &[String]) -> Result<bool, Short>
    ensures { Restarts W.Tells app (W.seen world.old) (W.seen world.new) result }
{
    world.end(app);
    start_answer(world.start(app, words))
}

/// Whether an application is among those that run.
fn runs(running: &[u32], app: u32) -> bool
    ensures { result ≡ is_among app running.now }
{
    running.iter().any(|running| *running == app)
}

impl<W: World> Parts<W> {
    /// Tells whether the application was started and not ended.
    pub(crate) fn runs(&self, app: u32) -> bool
        ensures { result ≡ is_among app self.now.running }
    {
        runs(&self.running, app)
    }

    /// Opens the other world.
    pub(crate) fn open(&mut self, port: u16) -> Result<(), OpenFault>
        ensures moved { LinksMoved self.old self.new }
        ensures call { Opens W.Tells (W.seen self.old.links) (W.seen self.new.links) result }
    {
        self.links.open(port)
    }

    /// Tells what comes next in the other world.
    pub(crate) fn next(&mut self, buf: &mut [u8]) -> Result<Item, NextFault>
        requires { most_message ≤ length buf.old }
        ensures moved { LinksMoved self.old self.new }
        ensures call { Nexts W.Tells (W.seen self.old.links) (W.seen self.new.links) result buf.new }
    {
        self.links.next(buf)
    }

    /// Sends one message to a switch of the other world.
    pub(crate) fn send(&mut self, dpid: Dpid, frame: &[u8]) -> Result<(), LinkFault>
        requires { IsOk (reading_of frame.now) }
        ensures moved { LinksMoved self.old self.new }
        ensures call { Sends W.Tells dpid frame.now (W.seen self.old.links) (W.seen self.new.links) result }
    {
        self.links.send(dpid, frame)
    }

    /// Takes one message from a switch of the other world.
    pub(crate) fn recv(&mut self, dpid: Dpid, buf: &mut [u8]) -> Result<usize, LinkFault>
        requires { most_message ≤ length buf.old }
        ensures moved { LinksMoved self.old self.new }
        ensures call { Receives W.Tells dpid (W.seen self.old.links) (W.seen self.new.links) result buf.new }
    {
        self.links.recv(dpid, buf)
    }

    /// Tells whether an application of the other world was started from here and not ended.
    pub(crate) fn runs_there(&self, app: u32) -> bool
        ensures { result ≡ true → slice_get self.now.inside app ≡ Some true }
    {
        let place = app as usize;
        place < self.inside.len() && self.inside[place]
    }

    /// Tells whether an application of the other world may be started from here.
    pub(crate) fn has_place(&self, app: u32) -> bool
        ensures { result ≡ true → app < length self.now.inside }
    {
        (app as usize) < self.inside.len()
    }

    /// Starts an application of the other world; one that runs is ended before.
    pub(crate) fn start_there(&mut self, app: u32, words: &[String]) -> Result<bool, Short>
        requires { app < length self.old.inside }
        ensures moved { MovedThere self.old self.new }
        ensures here { slice_get self.new.inside app ≡ Some (was_started result) }
        ensures others { (i : ℕ) → i ≢ app → slice_get self.new.inside i ≡ slice_get self.old.inside i }
        ensures call { Restarts W.Tells app (W.seen self.old.links) (W.seen self.new.links) result }
    {
        let started = restart(&mut self.links, app, words);
        self.inside[app as usize] = was_started(&started);
        started
    }

    /// Gives bytes to an application of the other world.
    pub(crate) fn give_there(&mut self, app: u32, bytes: &[u8]) -> Result<bool, Short>
        ensures moved { LinksMoved self.old self.new }
        ensures call { Gives W.Tells app bytes.now (W.seen self.old.links) (W.seen self.new.links) (give_answer result) }
    {
        give_answer(self.links.give(app, bytes))
    }

    /// Takes bytes from an application of the other world.
    pub(crate) fn take_there(&mut self, app: u32, buf: &mut [u8]) -> Result<Taken, Short>
        requires { 0 < length buf.old }
        ensures moved { LinksMoved self.old self.new }
        ensures call { Takes W.Tells app (W.seen self.old.links) (W.seen self.new.links) result buf.new }
    {
        self.links.take(app, buf)
    }

    /// Ends an application of the other world, if it runs.
    pub(crate) fn end_there(&mut self, app: u32)
        ensures moved { MovedThere self.old self.new }
        ensures here { slice_get self.new.inside app ≢ Some true }
        ensures others { (i : ℕ) → i ≢ app → slice_get self.new.inside i ≡ slice_get self.old.inside i }
        ensures call { Ends W.Tells app (W.seen self.old.links) (W.seen self.new.links) }
    {
        self.links.end(app);
        leave_out(&mut self.inside, app);
    }

    /// Notes a step.
    fn note(&mut self, step: &WorldStep)
        ensures { self.new ≡ record self.old { notes = self.old.notes ++ (self.old.links, step.now) ∷ [] } }
    {
        self.notes = self.notes.and(&self.links, step);
    }

    /// Notes that an application was started, where there is memory to note it.
    fn started(&mut self, app: u32) -> Result<(), AllocError>
        ensures ok { OnOk result (self.new ≡ record self.old {
          notes = self.old.notes ++ (self.old.links, Acted (Started app true)) ∷ [];
          running = self.old.running ++ app ∷ [];
        }) }
        ensures err { OnErr result (self.new ≡ self.old) }
    {
        self.running.push(app)?;
        self.note(&WorldStep::Acted(Act::Started(app, true)));
        Ok(())
    }

    /// Counts want of memory, and whether the call is out of place.
    pub(crate) fn want_memory(&mut self, stray: bool)
        ensures { self.new ≡ record self.old { counts = stray_count stray (short_count self.old.counts) } }
    {
        self.counts.raise_shorts();
        self.counts.raise_strays(stray);
    }

    /// Counts a start that failed, and whether it is out of place.
    fn not_started(&mut self, app: u32, stray: bool)
        ensures { self.new ≡ record self.old {
          notes = self.old.notes ++ (self.old.links, Acted (Started app false)) ∷ [];
          counts = stray_count stray (record self.old.counts { starts_failed = raised self.old.counts.starts_failed });
        } }
    {
        self.note(&WorldStep::Acted(Act::Started(app, false)));
        self.counts.raise_starts_failed();
        self.counts.raise_strays(stray);
    }

    /// Starts an application, if it is ready and does not run.
    #[tactic(auto, using(crate::specs::laws::AppCallLaws::noted_one, crate::specs::laws::AppCallLaws::noted_none), unfolding(outside::specs::Calls::start_steps, crate::specs::Linked::start_count))]
    pub(crate) fn start(&mut self, app: u32, ready: bool) -> Result<(), StartFault>
        ensures notes { Notes W.seen (start_steps app result) (running_after app result self.old.running) (started_counts app result self.old.running self.old.counts) self.old self.new }
        ensures out { IsTrue (is_among app self.old.running) → IsErr result }
        ensures ok { IsOk result → (ready && not (is_among app self.old.running)) ≡ true }
        ensures refused { IsErrOf result StartFault.NotStarted → (ready && not (is_among app self.old.running)) ≡ false }
    {
        let stray = self.runs(app);
        if stray || !ready {
            self.not_started(app, stray);
            return Err(StartFault::NotStarted);
        }
        match self.started(app) {
            Ok(()) => Ok(()),
            Err(_) => {
                self.want_memory(stray);
                Err(StartFault::Short)
            }
        }
    }

    /// Notes that an application was given bytes.
    fn gave(&mut self, app: u32, bytes: ByteList)
        ensures { self.new ≡ record self.old { notes = self.old.notes ++ (self.old.links, Acted (Gave app bytes)) ∷ [] } }
    {
        self.note(&WorldStep::Acted(Act::Gave(app, bytes)));
    }

    /// Notes that an application was gone before it was given bytes.
    fn gone(&mut self, app: u32, bytes: ByteList, stray: bool)
        ensures { self.new ≡ record self.old {
          notes = self.old.notes ++ (self.old.links, Acted (Gone app bytes)) ∷ [];
          counts = stray_count stray (record self.old.counts { closings = raised self.old.counts.closings });
        } }
    {
        self.note(&WorldStep::Acted(Act::Gone(app, bytes)));
        self.counts.raise_closings();
        self.counts.raise_strays(stray);
    }

    /// Notes that an application is given bytes, if it runs and takes them.
    #[tactic(auto, using(crate::specs::laws::AppCallLaws::noted_one, crate::specs::laws::AppCallLaws::noted_none), unfolding(outside::specs::Calls::give_steps, crate::specs::Linked::give_count))]
    pub(crate) fn give(&mut self, app: u32, bytes: &[u8], takes: bool) -> Result<(), GiveFault>
        ensures notes { Notes W.seen (give_steps app bytes.now result) self.old.running (gave_counts app result self.old.running self.old.counts) self.old self.new }
        ensures out { is_among app self.old.running ≡ false → IsErr result }
        ensures ok { IsOk result → (takes && is_among app self.old.running) ≡ true }
        ensures gone { IsErrOf result GiveFault.Gone → (takes && is_among app self.old.running) ≡ false }
    {
        let stray = !self.runs(app);
        let Ok(bytes) = ByteList::from_slice(self.alloc, bytes) else {
            self.want_memory(stray);
            return Err(GiveFault::Short);
        };
        if stray || !takes {
            self.gone(app, bytes, stray);
            Err(GiveFault::Gone)
        } else {
            self.gave(app, bytes);
            Ok(())
        }
    }

    /// Counts what a take answered, and whether it is out of place.
    #[tactic(auto, unfolding(crate::specs::Linked::take_count))]
    fn count_take(&mut self, taken: Taken, stray: bool)
        ensures { self.new ≡ record self.old { counts = stray_count stray (take_count (Ok taken) self.old.counts) } }
    {
        match taken {
            Taken::Some(_) => {}
            Taken::Closed => self.counts.raise_closings(),
            Taken::Silent => self.counts.raise_silences(),
        }
        self.counts.raise_strays(stray);
    }

    /// Notes that this was taken from an application, and puts the bytes into the front of the buffer; of one that does
    /// not run, that it has closed its end.
    #[tactic(auto, using(crate::specs::laws::AppCallLaws::noted_one))]
    pub(crate) fn take(&mut self, app: u32, what: TookWhat, buf: &mut [u8]) -> Taken
        requires { IsTakeable what (length buf.old) }
        ensures notes { Notes W.seen (take_steps app (Ok result) buf.new) self.old.running (taken_counts app (Ok result) self.old.running self.old.counts) self.old self.new }
        ensures what { take_steps app (Ok result) buf.new ≡ TookInto app (in_place (is_among app self.old.running) what) (length buf.new) ∷ [] }
        ensures taken { IsTakenIn result buf.new }
        ensures out { is_among app self.old.running ≡ false → result ≡ Taken.Closed }
    {
        let runs = self.runs(app);
        let what = in_place(runs, what);
        let taken = put(&what, buf);
        self.note(&WorldStep::TookInto(app, what, buf.len()));
        self.count_take(taken, !runs);
        taken
    }

    /// Counts that a take wants memory.
    #[tactic(auto, using(crate::specs::laws::AppCallLaws::noted_none), unfolding(outside::specs::Calls::take_steps, crate::specs::Linked::take_count))]
    pub(crate) fn take_short(&mut self, app: u32) -> Short
        ensures running { self.new.running ≡ self.old.running }
        ensures notes { (buf : List ℕ) → Notes W.seen (take_steps app (Err result) buf) self.old.running (taken_counts app (Err result) self.old.running self.old.counts) self.old self.new }
    {
        let stray = !self.runs(app);
        self.want_memory(stray);
        Short
    }

    /// Notes that an application was ended, if it runs.
    #[tactic(auto, using(crate::specs::laws::AppCallLaws::noted_one, crate::specs::laws::AppCallLaws::noted_none, crate::specs::laws::AppCallLaws::without_absent), unfolding(outside::specs::Calls::end_steps))]
    pub(crate) fn end(&mut self, app: u32)
        ensures { Notes W.seen (end_steps app (is_among app self.old.running)) (running_without app self.old.running) self.old.counts self.old self.new }
    {
        if self.runs(app) {
            remove(&mut self.running, app);
            self.note(&WorldStep::Acted(Act::Ended(app)));
        }
    }
}

/// What is answered of an application that runs, or does not.
fn in_place(runs: bool, what: TookWhat) -> TookWhat
    ensures { result ≡ in_place runs what }
{
    if runs { what } else { TookWhat::Closed }
}

/// Puts what was taken into the front of the buffer.
#[tactic(auto, unfolding(outside::specs::Calls::take_steps))]
fn put(what: &TookWhat, buf: &mut [u8]) -> Taken
    requires { IsTakeable what.now (length buf.old) }
    ensures what { (app : ℕ) → take_steps app (Ok result) buf.new ≡ TookInto app what.now (length buf.new) ∷ [] }
    ensures closed { what.now ≡ TookWhat.Closed → result ≡ Taken.Closed }
    ensures taken { IsTakenIn result buf.new }
    ensures room { length buf.new ≡ length buf.old }
{
    match what {
        TookWhat::Bytes(bytes) => {
            let len = bytes.len();
            buf[..len].copy_from_slice(bytes.as_slice());
            Taken::Some(len)
        }
        TookWhat::Closed => Taken::Closed,
        TookWhat::Silent => Taken::Silent,
    }
}
