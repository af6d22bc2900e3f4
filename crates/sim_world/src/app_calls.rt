//! The calls of a simulated world that reach applications.

ghost use Rattle.std.specs.Prelude.{◌≡◌, ◌+◌, ◌-◌, ◌^◌, ◌≤◌, ◌<◌, [], ◌∷◌, true, length, Result, IsErr, IsErrOf};
ghost use Rattle.outside.specs.State.{is_running};
ghost use Rattle.outside.specs.declared.step.WorldStep.TheVariants.{TookInto};
ghost use Rattle.outside.specs.Calls.{start_steps, give_steps, take_steps, end_steps, IsTakenIn};
ghost use Rattle.sim_world.specs.Lives.{has_life, took_of};
ghost use Rattle.sim_world.specs.Tally.{tally_stray};
ghost use Rattle.sim_world.specs.Scripts.{AreScripted, will_start, will_give, next_taken, taken_bytes};
ghost use Rattle.sim_world.specs.World.{Moves, short_told};
ghost use Rattle.lego_io.specs.Count.{raised};
ghost use Rattle.sim_world.specs.Doing.{AppsStand, lives_of, take_tally, DoesStart, DoesGive, DoesTake};

use crate::parts::Parts;
use of_types::{ByteList, TookWhat};
use outside::{GiveFault, Short, StartFault, Taken, WorldStep};

impl Parts {
    /// Tells whether the application was started and not ended.
    #[tactic(auto, unfolding(crate::specs::Lives::life_of))]
    pub(crate) fn runs(&self, app: u32) -> bool
        ensures { result ≡ (lives_of self.now app).running }
    {
        self.lives.is_running(app)
    }

    /// Tells whether its next start succeeds.
    #[tactic(auto, unfolding(crate::specs::Lives::life_of, crate::specs::Lives::is_known))]
    fn will_start(&self, app: u32) -> bool
        requires known { has_life app self.now.lives ≡ true }
        requires few { (lives_of self.now app).start_calls < 2 ^ 64 - 1 }
        ensures { result ≡ will_start self.now.scripts self.now.told app (lives_of self.now app) }
    {
        self.lives.will_start(&self.told, app)
    }

    /// Tells whether it takes what it is given next.
    #[tactic(auto, unfolding(crate::specs::Lives::life_of, crate::specs::Lives::is_known))]
    fn will_give(&self, app: u32) -> bool
        requires known { has_life app self.now.lives ≡ true }
        requires few { (lives_of self.now app).give_calls < 2 ^ 64 - 1 }
        ensures { result ≡ will_give self.now.told app (lives_of self.now app) }
    {
        self.lives.will_give(&self.told, app)
    }

    /// Starts an application.
    #[tactic(auto, using(crate::specs::laws::WorldLaws::Moves_ready, crate::specs::laws::DoingLaws::started_in_place), unfolding(outside::specs::Calls::start_steps, crate::specs::Scripts::IsScripted))]
    pub(crate) fn start(&mut self, app: u32) -> Result<(), StartFault>
        requires { AppsStand self.old }
        ensures does { DoesStart app self.old self.new result }
        ensures scripted { AreScripted self.old.scripts self.old.told (start_steps app result) (lives_of self.old) }
        ensures short { short_told self.old.told self.old.calls ≡ true → IsErrOf result StartFault.Short }
        ensures calls { self.new.calls ≡ raised self.old.calls }
    {
        let stray = self.runs(app);
        if !self.is_ready_for(app, 2) {
            self.want_memory(stray);
            return Err(StartFault::Short);
        }
        if !self.will_start(app) {
            self.not_started(app, stray);
            return Err(StartFault::NotStarted);
        }
        match self.started(app) {
            Ok(()) => Ok(()),
            Err(_) => {
                self.want_memory(stray);
                Err(StartFault::Short)
            }
        }
    }

    /// Gives bytes to an application.
    #[tactic(auto, using(crate::specs::laws::WorldLaws::Moves_ready, crate::specs::laws::DoingLaws::given_in_place), unfolding(outside::specs::Calls::give_steps, crate::specs::Scripts::IsScripted))]
    pub(crate) fn give(&mut self, app: u32, bytes: &[u8]) -> Result<(), GiveFault>
        requires { AppsStand self.old }
        ensures does { DoesGive app bytes.now self.old self.new result }
        ensures scripted { AreScripted self.old.scripts self.old.told (give_steps app bytes.now result) (lives_of self.old) }
        ensures short { short_told self.old.told self.old.calls ≡ true → IsErrOf result GiveFault.Short }
        ensures calls { self.new.calls ≡ raised self.old.calls }
    {
        let stray = !self.runs(app);
        if !self.is_ready_for(app, 1) {
            self.want_memory(stray);
            return Err(GiveFault::Short);
        }
        let Ok(bytes) = ByteList::from_slice(self.alloc, bytes) else {
            self.want_memory(stray);
            return Err(GiveFault::Short);
        };
        if self.will_give(app) {
            self.gave(app, bytes);
            Ok(())
        } else {
            self.gone(app, bytes, stray);
            Err(GiveFault::Gone)
        }
    }

    /// Tells how many bytes the next take from it gives into so much room.
    #[tactic(auto, unfolding(crate::specs::Lives::life_of, crate::specs::Lives::is_known))]
    fn next_len(&self, app: u32, room: usize) -> usize
        requires known { has_life app self.now.lives ≡ true }
        requires few { (lives_of self.now app).take_calls < 2 ^ 64 - 1 }
        ensures { result ≡ length (taken_bytes (next_taken self.now.told app room (lives_of self.now app))) }
    {
        self.lives.next_len(&self.told, app, room)
    }

    /// Counts what a take answered.
    fn count_take(&mut self, taken: Taken, stray: bool)
        ensures { self.new ≡ record self.old { tally = tally_stray stray (take_tally (Result.Ok taken) self.old.tally) } }
    {
        match taken {
            Taken::Some(_) => {}
            Taken::Closed => self.tally.raise_closings(),
            Taken::Silent => self.tally.raise_silences(),
        }
        self.tally.raise_strays(stray);
    }

    /// Takes from an application; `copy` is as long as what comes.
    #[tactic(auto, unfolding(outside::specs::State::after_step, crate::specs::Lives::life_of, crate::specs::Lives::is_known))]
    fn take_with(&mut self, app: u32, buf: &mut [u8], copy: Vec<u8>, stray: bool) -> Taken
        requires promised { length self.old.state.running + 1 ≤ self.old.room }
        requires known { has_life app self.old.lives ≡ true }
        requires few { (lives_of self.old app).take_calls < 2 ^ 64 - 1 }
        requires room { 0 < length buf.old }
        requires len { length copy.items ≡ length (taken_bytes (next_taken self.old.told app (length buf.old) (lives_of self.old app))) }
        ensures moves { Moves self.old self.new (TookInto app (took_of result buf.new) (length buf.new) ∷ []) (tally_stray stray (take_tally (Result.Ok result) self.old.tally)) }
        ensures taken { IsTakenIn result buf.new }
        ensures what { took_of result buf.new ≡ next_taken self.old.told app (length buf.old) (lives_of self.old app) }
        ensures calls { self.new.calls ≡ self.old.calls }
    {
        let taken = self.lives.take(&self.told, app, buf);
        let what = what_of(taken, copy, buf);
        self.history.push(WorldStep::TookInto(app, what, buf.len()));
        self.count_take(taken, stray);
        taken
    }

    /// Takes bytes from an application.
    #[tactic(auto, using(crate::specs::laws::WorldLaws::Moves_ready), unfolding(outside::specs::Calls::take_steps))]
    pub(crate) fn take(&mut self, app: u32, buf: &mut [u8]) -> Result<Taken, Short>
        requires stands { AppsStand self.old }
        requires room { 0 < length buf.old }
        ensures does { DoesTake app self.old self.new result buf.new }
        ensures scripted { AreScripted self.old.scripts self.old.told (take_steps app result buf.new) (lives_of self.old) }
        ensures short { short_told self.old.told self.old.calls ≡ true → IsErr result }
        ensures calls { self.new.calls ≡ raised self.old.calls }
    {
        let stray = !self.runs(app);
        if !self.is_ready_for(app, 1) {
            self.want_memory(stray);
            return Err(Short);
        }
        let len = self.next_len(app, buf.len());
        let Ok(copy) = vec![in self.alloc; 0u8; len] else {
            self.want_memory(stray);
            return Err(Short);
        };
        Ok(self.take_with(app, buf, copy, stray))
    }

    /// Ends an application, if it was started.
    #[tactic(auto, using(crate::specs::laws::DoingLaws::fewer_run, crate::specs::laws::DoingLaws::Moves_none), unfolding(outside::specs::Calls::end_steps, crate::specs::Scripts::IsScripted))]
    pub(crate) fn end(&mut self, app: u32)
        requires { AppsStand self.old }
        ensures moves { Moves self.old self.new (end_steps app (is_running app self.old.state)) self.old.tally }
        ensures scripted { AreScripted self.old.scripts self.old.told (end_steps app (is_running app self.old.state)) (lives_of self.old) }
        ensures calls { self.new.calls ≡ self.old.calls }
    {
        if self.runs(app) {
            self.ended(app);
        }
    }
}

/// Returns what a take answered, for the history; `copy` is as long as what was taken.
fn what_of(taken: Taken, copy: Vec<u8>, buf: &[u8]) -> TookWhat
    requires taken { IsTakenIn taken buf.now }
    requires len { length copy.items ≡ length (taken_bytes (took_of taken buf.now)) }
    ensures { result ≡ took_of taken buf.now }
{
    let mut copy = copy;
    match taken {
        Taken::Some(count) => {
            copy.copy_from_slice(&buf[..count]);
            TookWhat::Bytes(ByteList::from_vec(copy))
        }
        Taken::Closed => TookWhat::Closed,
        Taken::Silent => TookWhat::Silent,
    }
}
