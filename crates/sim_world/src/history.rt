//! The history of a world.

ghost use Rattle.std.specs.Prelude.{◌≡◌, ◌+◌, ◌<◌, ◌≤◌, ◌^◌, [], ◌∷◌, ◌++◌, length, OnOk};

use http_server::Log;
use outside::WorldStep;
use std::alloc::AllocError;
use std::fmt;
use std::marker::Model;

/// How many steps a history has at most.
const MOST_STEPS: usize = 0x7fff_ffff_ffff_ffff;

/// What happened, step by step. The steps are kept for contracts alone and take no memory: nothing reads them when the
/// program runs. Contracts see the steps, and for how many more there is room below the most.
#[derive(Drop)]
pub(crate) struct History {
    steps: Log<WorldStep, ()>,
    count: usize,
    room: usize,
}

impl Model for History {
    ghost use Rattle.sim_world.specs.Room.{Roomy, CountsSteps, steps_in};

    ghost Value = { Roomy };

    ghost view = { λ h. record { steps = steps_in h.steps.items; room = h.room } };

    ghost invariant = { λ h. CountsSteps h.steps.items h.count h.room };
}

impl History {
    /// Makes a history of no steps, with room for none.
    pub(crate) fn new() -> History
        ensures { result.steps ≡ [] }
    {
        History {
            steps: Log::new(),
            count: 0,
            room: 0,
        }
    }

    /// Finds that there are few steps.
    pub(crate) fn are_few(&self)
        ensures { length self.now.steps < 2 ^ 63 }
    {
        let _count = self.count;
    }

    /// Makes room for so many more steps, unless there would be too many.
    pub(crate) fn reserve(&mut self, more: usize) -> Result<(), AllocError>
        ensures steps { self.new.steps ≡ self.old.steps }
        ensures room { OnOk result (more ≤ self.new.room) }
        ensures kept { self.old.room ≤ self.new.room }
    {
        if MOST_STEPS - self.count < more {
            return Err(AllocError);
        }
        if self.room < more {
            self.room = more;
        }
        Ok(())
    }

    /// Adds one step, for which there is room.
    #[tactic(auto, using(crate::specs::laws::RoomLaws::noted_more, crate::specs::laws::RoomLaws::counted_more))]
    pub(crate) fn push(&mut self, step: WorldStep)
        requires { 1 ≤ self.old.room }
        ensures steps { self.new.steps ≡ self.old.steps ++ step ∷ [] }
        ensures room { self.old.room ≤ self.new.room + 1 }
    {
        self.steps = self.steps.and(&step, &());
        self.count += 1;
        self.room -= 1;
    }
}

impl fmt::Debug for History {
    fn fmt<W: fmt::Write>(&self, f: &mut fmt::Formatter<W>) -> fmt::Result {
        let count = self.count;
        write!(f, "History({count} steps)")
    }
}
