//! What it takes to do a run of a simulated world again.

ghost use Rattle.std.specs.Prelude.{◌≡◌, ◌++◌, List, IfOk, slice_get};
ghost use Rattle.of_types.specs.declared.journal.WorldStim.{WorldStim};
ghost use Rattle.sim_world.specs.World.{all_declared};

use crate::parts::Parts;
use crate::world::SimWorld;
use of_types::WorldStim;
use outside::{Decl, Told};
use std::alloc::{AllocError, Global};

impl Parts {
    /// Copies the stimulus of a number, counted from 0, of those that were begun, if there were as many.
    #[tactic(auto, using(crate::specs::laws::BegunLaws::begun_at, crate::specs::laws::BegunLaws::none_begun_at))]
    fn stimulus(&self, alloc: Global, number: usize) -> Result<Option<WorldStim>, AllocError>
        ensures { (begun : List WorldStim) → begun ++ self.now.state.to_come ≡ self.now.stimuli → IfOk result (λ x. x ≡ slice_get begun number) }
    {
        if number < self.begun_stimuli {
            self.stimuli.get(alloc, number)
        } else {
            Ok(None)
        }
    }

    /// Copies what the switches are declared to be, in order.
    #[tactic(auto, unfolding(crate::specs::World::all_declared))]
    fn declared(&self, alloc: Global) -> Result<Vec<Decl>, AllocError>
        ensures { IfOk result (λ all. all.items ≡ all_declared self.now.state) }
    {
        self.links.declared(alloc)
    }
}

impl Told for SimWorld {
    #[tactic(auto, using(crate::specs::laws::BegunLaws::begun_kept))]
    fn stimulus(&self, alloc: Global, number: usize) -> Result<Option<WorldStim>, AllocError> {
        self.parts.stimulus(alloc, number)
    }

    #[tactic(auto, unfolding(crate::specs::World::seen_of, crate::specs::World::given_of))]
    fn declared(&self, alloc: Global) -> Result<Vec<Decl>, AllocError> {
        self.parts.declared(alloc)
    }
}
