//! The run of a world.

ghost use Rattle.std.specs.Prelude.{◌≡◌, ◌≤◌, [], length, map, IfErr};
ghost use Rattle.crash_policy.specs.Policies.{app_value};
ghost use Rattle.lego_io.specs.Count.{NeverFell};
ghost use Rattle.outside.specs.Seen.{Continues};
ghost use Rattle.outside.specs.State.{state};
ghost use Rattle.outside.specs.InOrder.{InOrder};
ghost use Rattle.lego_model.specs.OwnIds.{IsShortRun, OwnIdsAscend};
ghost use Rattle.legosdn.specs.Input.{program_of};
ghost use Rattle.legosdn.specs.Headline.{IsRunCause};
ghost use Rattle.run_course.specs.Parts.{TakesCourse};
ghost use Rattle.legosdn.specs.Course.{StandsAt};
ghost use Rattle.legosdn.specs.Live.{TellsInOrder, ServesAs, NoneStray, IsOfNoSwitch};

use crate::judging::ToldJudge;
use crate::stop::Stop;
use crash_policy::AppRule;
use event_dispatch::{Served, serve};
use lego_io::Sink;
use net_guard::ChosenJudge;
use outside::World;
use std::alloc::Global;
use trace_world::Aside;

/// Runs the applications of a policy in a world to its end, for this many rounds at most, and writes the report. A turn whose
/// tables the judge refuses is undone, and what they are refused for is told aside. The world is opened at the port.
#[tactic(auto, using(crate::proofs::Causes::switch_cause))]
pub fn run_world<K: Sink, W: World>(
    alloc: Global,
    apps: &[AppRule],
    judge: &ChosenJudge,
    aside: Option<Aside>,
    sink: &mut K,
    world: &mut W,
    port: u16,
    rounds: u64,
) -> Result<(), Stop>
    requires rounds { rounds ≤ 1000000000 }
    requires few { length apps.now ≤ 32 }
    ensures runs { TellsInOrder W.Tells (W.seen world.old) (W.seen world.new)
        → ServesAs (program_of apps.now judge.now) rounds result (W.seen world.new) (K.contents sink.old) (K.contents sink.new) }
    ensures strays { TellsInOrder W.Tells (W.seen world.old) (W.seen world.new) → NoneStray (W.seen world.new) }
    ensures course { W.Tells → TakesCourse (map app_value apps.now) (W.seen world.old) (W.seen world.new) (K.contents sink.old) (StandsAt result (K.contents sink.new)) }
    ensures why { IfErr result (IsRunCause W.Tells (K.faults sink.old) (K.faults sink.new) (W.seen world.old) (W.seen world.new)) }
    ensures continues { Continues W.Tells (W.seen world.old) (W.seen world.new) }
    ensures ended { W.Tells → (W.seen world.old).history ≡ [] → (state (W.seen world.new)).running ≡ [] }
    ensures ids { W.Tells → (W.seen world.old).history ≡ [] → InOrder (W.seen world.new) → IsShortRun (W.seen world.new) → OwnIdsAscend (W.seen world.new) }
    ensures never_fell { NeverFell (K.faults sink.old) (K.faults sink.new) }
    ensures no_switch { W.CanPart → IfErr result IsOfNoSwitch }
{
    let judge = ToldJudge {
        alloc,
        judge,
        aside,
    };
    match serve(alloc, apps, world, &judge, sink, port, rounds) {
        Served::Ended { .. } => Ok(()),
        Served::WriteFault => Err(Stop::WriteFault),
        Served::Shut => Err(Stop::Shut),
        Served::NextFault => Err(Stop::NextFault),
        Served::Txn(fault) => Err(Stop::from(fault)),
        Served::EventsLeft(left) => Err(Stop::EventsLeft(left)),
        Served::NoMemory => Err(Stop::NoMemory),
    }
}
