//! The parts of a simulated world, and what each step does to them.

ghost use Rattle.std.specs.Prelude.{◌≡◌, ℕ, ◌+◌, ◌-◌, ◌^◌, ◌≤◌, ◌<◌, ◌==◌, [], ◌∷◌, true, false, not, filter, length, IsTrue, IsErrOf, OnOk, OnErr};
ghost use Rattle.lego_io.specs.Count.{raised};
ghost use Rattle.of_types.specs.declared.journal.Act.TheVariants.{Started, Gave, Gone, Ended};
ghost use Rattle.outside.specs.declared.step.WorldStep.TheVariants.{Acted, Opened, NotOpened};
ghost use Rattle.sim_world.specs.Lives.{life_in, has_life};
ghost use Rattle.sim_world.specs.Tally.{tally_stray, tally_short};
ghost use Rattle.outside.specs.Calls.{open_steps};
ghost use Rattle.sim_world.specs.World.{Moves, AreAsTold, short_told};
ghost use Rattle.sim_world.specs.Doing.{DoesOpen};

use crate::history::History;
use crate::links::Links;
use crate::lives::Lives;
use crate::tally::Tally;
use crate::told::Told;
use of_types::{Act, ByteList};
use outside::{CallKind, FailCall, OpenFault, WorldStep};
use session_lists::StimulusList;
use std::alloc::{AllocError, Global};
use std::collections::VecDeque;
use std::marker::Model;

/// What a simulated world holds. Contracts see it as data.
#[derive(Debug, Drop)]
pub(crate) struct Parts {
    pub(crate) alloc: Global,
    pub(crate) lives: Lives,
    pub(crate) stimuli: StimulusList,
    pub(crate) fails: Vec<FailCall>,
    pub(crate) told: Told,
    pub(crate) history: History,
    pub(crate) tally: Tally,
    pub(crate) opened: bool,
    pub(crate) running: Vec<u32>,
    pub(crate) moment: u64,
    pub(crate) begun_stimuli: usize,
    pub(crate) links: Links,
    pub(crate) due: VecDeque<WorldStep>,
    pub(crate) begun: bool,
    pub(crate) nexts: u64,
    pub(crate) calls: u64,
}

impl Model for Parts {
    ghost use Rattle.std.specs.Prelude.{[], drop};
    ghost use Rattle.sim_world.specs.World.{WorldData};

    ghost Value = { WorldData };

    ghost view = { λ w. record {
      scripts = w.lives.own;
      stimuli = w.stimuli;
      fails = w.fails.items;
      told = w.told;
      history = w.history.steps;
      room = w.history.room;
      nexts = w.nexts;
      calls = w.calls;
      tally = w.tally;
      state = record {
        opened = w.opened;
        running = w.running.items;
        moment = w.moment;
        to_come = drop w.begun_stimuli w.stimuli;
        links = w.links;
        due = w.due.items;
        begun = w.begun;
        marks = [];
      };
      lives = w.lives.lives;
    } };
}

/// Takes an application out.
fn remove(running: &mut Vec<u32>, app: u32)
    ensures { running.new.items ≡ filter (λ a. not (a == app)) running.old.items }
{
    running.retain(|running| *running != app);
}

impl Parts {
    /// Finds that there are few steps.
    pub(crate) fn are_few(&self)
        ensures { length self.now.history < 2 ^ 63 }
    {
        self.history.are_few();
    }

    /// Counts a call that can want memory, and makes room for so many steps and for the ends that are promised; answers
    /// whether there is memory.
    pub(crate) fn is_ready(&mut self, more: usize) -> bool
        requires promised { length self.old.state.running ≤ self.old.room }
        requires few { more ≤ 2 }
        ensures same { self.new ≡ record self.old { room = self.new.room; calls = self.new.calls } }
        ensures calls { self.new.calls ≡ raised self.old.calls }
        ensures told { short_told self.old.told self.old.calls ≡ true → result ≡ false }
        ensures promised { length self.new.state.running ≤ self.new.room }
        ensures room { IsTrue result → length self.new.state.running + more ≤ self.new.room }
    {
        self.calls = self.calls.saturating_add(1);
        let is_told = self.told.is_told(CallKind::Short, 0, self.calls);
        !is_told && self.history.reserve(self.running.len() + more).is_ok()
    }

    /// Notes that a call wants memory, and whether it is out of place.
    pub(crate) fn want_memory(&mut self, stray: bool)
        requires { length self.old.state.running ≤ self.old.room }
        ensures moves { Moves self.old self.new [] (tally_stray stray (tally_short self.old.tally)) }
        ensures calls { self.new.calls ≡ self.old.calls }
    {
        self.tally.raise_shorts();
        self.tally.raise_strays(stray);
    }

    /// Opens the world.
    #[tactic(auto, unfolding(outside::specs::State::after_step, crate::specs::Scripts::life_after))]
    fn open_up(&mut self)
        requires { length self.old.state.running + 1 ≤ self.old.room }
        ensures moves { Moves self.old self.new (Opened ∷ []) (tally_stray self.old.state.opened self.old.tally) }
        ensures calls { self.new.calls ≡ self.old.calls }
    {
        self.history.push(WorldStep::Opened);
        self.tally.raise_strays(self.opened);
        self.opened = true;
    }

    /// Leaves the world shut.
    #[tactic(auto, unfolding(outside::specs::State::after_step, crate::specs::Scripts::life_after))]
    fn stay_shut(&mut self)
        requires { length self.old.state.running + 1 ≤ self.old.room }
        ensures moves { Moves self.old self.new (NotOpened ∷ []) (tally_stray self.old.state.opened (record self.old.tally { shuts = raised self.old.tally.shuts })) }
        ensures calls { self.new.calls ≡ self.old.calls }
    {
        self.history.push(WorldStep::NotOpened);
        self.tally.raise_shuts();
        self.tally.raise_strays(self.opened);
        self.opened = true;
    }

    /// Opens the world.
    #[tactic(auto, unfolding(outside::specs::Calls::open_steps, crate::specs::World::IsAsTold))]
    pub(crate) fn open(&mut self) -> Result<(), OpenFault>
        requires { length self.old.state.running ≤ self.old.room }
        ensures does { DoesOpen self.old self.new result }
        ensures told { AreAsTold self.old.told self.old.nexts (open_steps result) self.old.state }
        ensures short { short_told self.old.told self.old.calls ≡ true → IsErrOf result OpenFault.Short }
        ensures calls { self.new.calls ≡ raised self.old.calls }
    {
        if !self.is_ready(1) {
            self.want_memory(self.opened);
            return Err(OpenFault::Short);
        }
        if self.opened || self.told.is_told(CallKind::Open, 0, 1) {
            self.stay_shut();
            return Err(OpenFault::Shut);
        }
        self.open_up();
        Ok(())
    }

    /// Makes ready for a call of an application that can want memory.
    #[tactic(auto, unfolding(crate::specs::Lives::life_of, crate::specs::Lives::is_known))]
    pub(crate) fn is_ready_for(&mut self, app: u32, more: usize) -> bool
        requires promised { length self.old.state.running ≤ self.old.room }
        requires few { more ≤ 2 }
        ensures same { self.new ≡ record self.old { room = self.new.room; calls = self.new.calls; lives = self.new.lives } }
        ensures calls { self.new.calls ≡ raised self.old.calls }
        ensures told { short_told self.old.told self.old.calls ≡ true → result ≡ false }
        ensures lives { (a : ℕ) → life_in a self.new.lives ≡ life_in a self.old.lives }
        ensures promised { length self.new.state.running ≤ self.new.room }
        ensures room { IsTrue result → length self.new.state.running + more ≤ self.new.room }
        ensures known { IsTrue result → IsTrue (has_life app self.new.lives) }
    {
        self.is_ready(more) && self.lives.ensure(app).is_ok()
    }

    /// Notes that an application was started, where there is memory to note it.
    #[tactic(auto, unfolding(outside::specs::State::after_step, outside::specs::State::after_act, crate::specs::Lives::life_of, crate::specs::Lives::is_known))]
    pub(crate) fn started(&mut self, app: u32) -> Result<(), AllocError>
        requires room { length self.old.state.running + 2 ≤ self.old.room }
        requires known { IsTrue (has_life app self.old.lives) }
        requires few { (life_in app self.old.lives).start_calls < 2 ^ 64 - 1 }
        ensures ok { OnOk result (Moves self.old self.new (Acted (Started app true) ∷ []) self.old.tally) }
        ensures err { OnErr result (self.new ≡ self.old) }
        ensures calls { self.new.calls ≡ self.old.calls }
    {
        self.running.push(app)?;
        self.lives.start(&self.told, app, true);
        self.history.push(WorldStep::Acted(Act::Started(app, true)));
        Ok(())
    }

    /// Notes that an application was not started.
    #[tactic(auto, unfolding(outside::specs::State::after_step, outside::specs::State::after_act, crate::specs::Lives::life_of, crate::specs::Lives::is_known))]
    pub(crate) fn not_started(&mut self, app: u32, stray: bool)
        requires room { length self.old.state.running + 1 ≤ self.old.room }
        requires known { IsTrue (has_life app self.old.lives) }
        requires few { (life_in app self.old.lives).start_calls < 2 ^ 64 - 1 }
        ensures moves { Moves self.old self.new (Acted (Started app false) ∷ []) (tally_stray stray (record self.old.tally { starts_failed = raised self.old.tally.starts_failed })) }
        ensures calls { self.new.calls ≡ self.old.calls }
    {
        self.lives.start(&self.told, app, false);
        self.history
            .push(WorldStep::Acted(Act::Started(app, false)));
        self.tally.raise_starts_failed();
        self.tally.raise_strays(stray);
    }

    /// Notes that an application was given bytes.
    #[tactic(auto, unfolding(outside::specs::State::after_step, outside::specs::State::after_act, crate::specs::Lives::life_of, crate::specs::Lives::is_known))]
    pub(crate) fn gave(&mut self, app: u32, bytes: ByteList)
        requires room { length self.old.state.running + 1 ≤ self.old.room }
        requires known { IsTrue (has_life app self.old.lives) }
        requires few { (life_in app self.old.lives).give_calls < 2 ^ 64 - 1 }
        ensures moves { Moves self.old self.new (Acted (Gave app bytes) ∷ []) self.old.tally }
        ensures calls { self.new.calls ≡ self.old.calls }
    {
        self.lives.gave(app, bytes.as_slice());
        self.history.push(WorldStep::Acted(Act::Gave(app, bytes)));
    }

    /// Notes that an application was gone before it was given bytes.
    #[tactic(auto, unfolding(outside::specs::State::after_step, outside::specs::State::after_act, crate::specs::Lives::life_of, crate::specs::Lives::is_known))]
    pub(crate) fn gone(&mut self, app: u32, bytes: ByteList, stray: bool)
        requires room { length self.old.state.running + 1 ≤ self.old.room }
        requires known { IsTrue (has_life app self.old.lives) }
        requires few { (life_in app self.old.lives).give_calls < 2 ^ 64 - 1 }
        ensures moves { Moves self.old self.new (Acted (Gone app bytes) ∷ []) (tally_stray stray (record self.old.tally { closings = raised self.old.tally.closings })) }
        ensures calls { self.new.calls ≡ self.old.calls }
    {
        self.lives.gone(app);
        self.history.push(WorldStep::Acted(Act::Gone(app, bytes)));
        self.tally.raise_closings();
        self.tally.raise_strays(stray);
    }

    /// Notes that an application was ended.
    #[tactic(auto, unfolding(outside::specs::State::after_step, outside::specs::State::after_act, crate::specs::Lives::life_of, crate::specs::Lives::is_known))]
    pub(crate) fn ended(&mut self, app: u32)
        requires { length (filter (λ a. not (a == app)) self.old.state.running) + 1 ≤ self.old.room }
        ensures moves { Moves self.old self.new (Acted (Ended app) ∷ []) self.old.tally }
        ensures calls { self.new.calls ≡ self.old.calls }
    {
        self.lives.end(app);
        remove(&mut self.running, app);
        self.history.push(WorldStep::Acted(Act::Ended(app)));
    }
}
