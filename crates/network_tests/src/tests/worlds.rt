//! A simulated world.

ghost use Rattle.std.specs.Prelude.{◌≡◌, [], IsTrue, OnOk};
ghost use Rattle.outside.specs.Seen.{is_declared};
ghost use Rattle.sim_world.specs.World.{given_of};
ghost use Rattle.sim_world.specs.Building.{nothing_given, IsNew};

use of_types::WorldStim;
use outside::CallKind;
use sim_world::SimWorld;
use std::alloc::{AllocError, Global};

/// Declares switch 1, with two ports.
fn declare(world: &mut SimWorld) -> Result<(), AllocError>
    requires new { IsNew world.old }
    requires nothing { given_of world.old ≡ nothing_given }
    ensures new { OnOk result (IsNew world.new) }
    ensures first { OnOk result (IsTrue (is_declared 1 (given_of world.new).declared)) }
    ensures stimuli { OnOk result ((given_of world.new).stimuli ≡ []) }
{
    world.add_switch(1, 8, &[1, 2])
}

/// Switch 1 joins, and then it is moment 5.
#[tactic(auto, unfolding(outside::specs::Conforming::IsWorldStim))]
fn let_happen(world: &mut SimWorld) -> Result<(), AllocError>
    requires new { IsNew world.old }
    requires first { IsTrue (is_declared 1 (given_of world.old).declared) }
    requires stimuli { (given_of world.old).stimuli ≡ [] }
    ensures { OnOk result (IsNew world.new) }
{
    world.add_stimulus(WorldStim::Join(1))?;
    world.add_stimulus(WorldStim::At(5))
}

/// Lets a call fail, if one is named by its kind and its number: one of the link of switch 1, of application 0, or of the world.
fn let_fail(world: &mut SimWorld, fails: Option<(CallKind, u64)>) -> Result<(), AllocError>
    requires { IsNew world.old }
{
    match fails {
        Some((CallKind::Link, number)) => world.fail_call(CallKind::Link, 1, number),
        Some((kind, number)) => world.fail_call(kind, 0, number),
        None => Ok(()),
    }
}

/// Declares switch 1, lets it join, and then it is moment 5; one call is to fail, if one is named.
fn prepare(world: &mut SimWorld, fails: Option<(CallKind, u64)>) -> Result<(), AllocError>
    requires new { IsNew world.old }
    requires nothing { given_of world.old ≡ nothing_given }
{
    declare(world)?;
    let_happen(world)?;
    let_fail(world, fails)
}

/// A world in which switch 1 joins, and then it is moment 5; in it one call is to fail, if one is named.
pub fn small_world(alloc: Global, fails: Option<(CallKind, u64)>) -> Result<SimWorld, AllocError> {
    let mut world = SimWorld::new(alloc)?;
    prepare(&mut world, fails).and(Ok(world))
}
