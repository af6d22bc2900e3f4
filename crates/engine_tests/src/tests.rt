//! How a run ends, what it wrote, and which acts its world wrote down: worked out by hand. Nothing happens in the world, and one call of it or one
//! write is to fail; or two moments come, and a run has one round or more.

ghost use Rattle.std.specs.Prelude.{◌≡◌, ◌≤◌, []};
ghost use Rattle.sim_world.specs.World.{given_of};
ghost use Rattle.sim_world.specs.Building.{IsNew};

use crash_policy::{AppRule, DEFAULT_BUDGET, Policy};
use event_dispatch::{Served, serve};
use lego_io::{MemSink, Sink};
use of_types::WorldStim;
use of_types::limits::MOST_ROUNDS;
use outside::{AllowAll, CallKind, World};
use sim_world::SimWorld;
use std::alloc::{AllocError, Global};
use std::test::Fail;
use trace_world::Traced;

/// The rules for the kinds of events where a policy says nothing of them.
static SAME_RULES: [Policy; 6] = [Policy::Absolute; 6];

/// It is given events of each kind.
static ALL_EVENTS: [bool; 6] = [true; 6];

/// An application `app` of which a policy says nothing else, and that no command starts.
fn usual_app(alloc: Global) -> Result<AppRule, AllocError> {
    Ok(AppRule {
        name: String::from_str(alloc, "app")?,
        command: Vec::new(alloc),
        policy: Policy::Absolute,
        rules: SAME_RULES,
        events: ALL_EVENTS,
        budget: DEFAULT_BUDGET,
    })
}

/// How a run ended, without its numbers.
#[derive(Clone, Copy, PartialEq, Eq)]
enum Ending {
    Whole,
    Shut,
    NextFault,
    WriteFault,
    NoMemory,
    Otherwise,
}

/// The end of a run.
fn ending_of(served: &Served) -> Ending {
    match served {
        Served::Ended { .. } => Ending::Whole,
        Served::Shut => Ending::Shut,
        Served::NextFault => Ending::NextFault,
        Served::WriteFault => Ending::WriteFault,
        Served::NoMemory => Ending::NoMemory,
        _ => Ending::Otherwise,
    }
}

/// Runs any world, in at most so many rounds. Nothing is said of the run, so that no proof looks into one.
fn run<W: World, K: Sink>(
    alloc: Global,
    world: &mut W,
    sink: &mut K,
    rounds: u64,
) -> Result<Ending, AllocError>
    requires { rounds ≤ 1000000000 }
{
    let apps = [usual_app(alloc)?];
    let served = serve(alloc, &apps, world, &AllowAll, sink, 0, rounds);
    Ok(ending_of(&served))
}

/// Lets a call fail, if one is named.
fn let_fail(world: &mut SimWorld, fails: Option<(CallKind, u64)>) -> Result<(), AllocError>
    requires { IsNew world.old }
{
    match fails {
        Some((kind, number)) => world.fail_call(kind, 0, number),
        None => Ok(()),
    }
}

/// A world in which nothing happens, where a call is to fail, if one is named.
fn quiet_world(alloc: Global, fails: Option<(CallKind, u64)>) -> Result<SimWorld, AllocError> {
    let mut world = SimWorld::new(alloc)?;
    let_fail(&mut world, fails).and(Ok(world))
}

/// Two moments come.
#[tactic(auto, unfolding(outside::specs::Conforming::IsWorldStim))]
fn let_moments_come(world: &mut SimWorld) -> Result<(), AllocError>
    requires new { IsNew world.old }
    requires none { (given_of world.old).stimuli ≡ [] }
{
    world.add_stimulus(WorldStim::At(1))?;
    world.add_stimulus(WorldStim::At(2))
}

/// A world in which two moments come.
fn world_of_moments(alloc: Global) -> Result<SimWorld, AllocError> {
    let mut world = SimWorld::new(alloc)?;
    let_moments_come(&mut world).and(Ok(world))
}

/// How a run comes out: its end, its report, and the acts of its world in words.
type Outcome<'a> = (Ending, &'a str, &'a str);

/// Tells whether a run in any world comes out so, where some writes of its report and some of the acts are to fail. The world ends with it.
fn comes_out_so<W: World + Drop>(
    alloc: Global,
    world: W,
    rounds: u64,
    writes: &[u64],
    lines: &[u64],
    wanted: &Outcome<'_>,
) -> Result<bool, AllocError>
    requires { rounds ≤ 1000000000 }
{
    let acts = MemSink::new(alloc, 4096, lines)?;
    let mut report = MemSink::new(alloc, 4096, writes)?;
    let mut traced = Traced::new(alloc, world, acts);
    let ending = run(alloc, &mut traced, &mut report, rounds)?;
    let (_world, acts) = traced.into_parts();
    Ok(
        ending == wanted.0
            && report.bytes() == wanted.1.as_bytes()
            && acts.bytes() == wanted.2.as_bytes(),
    )
}

const STARTED: &str = "start app ready\n";

const REPORT: &str = "start app ready\napp app alive done 0 failed 0\nend 0 events 0\n";

/// The acts where no call fails.
const ACTS: &str = "\
world opened, port 0
app 0 started
app 0 <- RESTORE bytes=0
app 0 -> READY
world ended
app 0 ended
";

/// The acts where the first line of the report is not written.
const STARTED_ACTS: &str = "\
world opened, port 0
app 0 started
app 0 <- RESTORE bytes=0
app 0 -> READY
app 0 ended
";

/// The acts where what comes next fails.
const FAILED_ACTS: &str = "\
world opened, port 0
app 0 started
app 0 <- RESTORE bytes=0
app 0 -> READY
world failed
app 0 ended
";

/// The acts where the third line is not written: it is left out, and the run goes on.
const ACTS_BUT_ONE: &str = "\
world opened, port 0
app 0 started
app 0 -> READY
world ended
app 0 ended
";

/// Which call of the world is to fail, which writes of the report, and which of the acts; and what comes of it.
static FAILURES: [(Option<(CallKind, u64)>, &[u64], &[u64], Outcome<'static>); 7] = [
    (None, &[], &[], (Ending::Whole, REPORT, ACTS)),
    (
        Some((CallKind::Open, 1)),
        &[],
        &[],
        (Ending::Shut, "", "world stays shut, port 0\n"),
    ),
    (
        Some((CallKind::Next, 1)),
        &[],
        &[],
        (Ending::NextFault, STARTED, FAILED_ACTS),
    ),
    (
        Some((CallKind::Short, 1)),
        &[],
        &[],
        (Ending::NoMemory, "", "world out of memory\n"),
    ),
    (None, &[1], &[], (Ending::WriteFault, "", STARTED_ACTS)),
    (None, &[2], &[], (Ending::WriteFault, STARTED, ACTS)),
    (None, &[], &[3], (Ending::Whole, REPORT, ACTS_BUT_ONE)),
];

#[test]
fn worlds_and_sinks_fail(rt: HostRuntime) -> Result<(), Fail> {
    for (fails, writes, lines, wanted) in &FAILURES {
        let world = quiet_world(rt.alloc(), *fails)?;
        let is_so = comes_out_so(rt.alloc(), world, MOST_ROUNDS, writes, lines, wanted)?;
        assert!(rt; is_so, "{fails:?}");
    }
    Ok(())
}

/// The report where the last moment was this one.
const REPORT_AT_ONE: &str = "start app ready\napp app alive done 0 failed 0\nend 1 events 0\n";

const REPORT_AT_TWO: &str = "start app ready\napp app alive done 0 failed 0\nend 2 events 0\n";

/// The acts in one round: the second moment does not come.
const ACTS_OF_ONE: &str = "\
world opened, port 0
app 0 started
app 0 <- RESTORE bytes=0
app 0 -> READY
moment 1
app 0 ended
";

/// The acts in two rounds: it is not found that no more comes.
const ACTS_OF_TWO: &str = "\
world opened, port 0
app 0 started
app 0 <- RESTORE bytes=0
app 0 -> READY
moment 1
moment 2
app 0 ended
";

const ACTS_OF_THREE: &str = "\
world opened, port 0
app 0 started
app 0 <- RESTORE bytes=0
app 0 -> READY
moment 1
moment 2
world ended
app 0 ended
";

/// How many rounds a run has over two moments, and what comes of it.
static ROUNDS: [(u64, Outcome<'static>); 3] = [
    (1, (Ending::Whole, REPORT_AT_ONE, ACTS_OF_ONE)),
    (2, (Ending::Whole, REPORT_AT_TWO, ACTS_OF_TWO)),
    (3, (Ending::Whole, REPORT_AT_TWO, ACTS_OF_THREE)),
];

#[test]
fn each_stimulus_takes_a_round(rt: HostRuntime) -> Result<(), Fail> {
    for (rounds, wanted) in &ROUNDS {
        let world = world_of_moments(rt.alloc())?;
        let rounds = (*rounds).min(MOST_ROUNDS);
        let is_so = comes_out_so(rt.alloc(), world, rounds, &[], &[], wanted)?;
        assert!(rt; is_so, "{rounds}");
    }
    Ok(())
}
