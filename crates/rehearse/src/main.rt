//! The program: a rehearsal. It runs applications as they are, over the switches and the stimuli of a session, and writes the report.
//!
//! The input is a policy whose applications have commands, the line `---`, and a session, such as a recorded run. What the session
//! says of applications, its lines `start`, `reply` and `again`, is passed over, and a comment before the report says how many lines
//! that were. Moments are those of the session; only the deadlines of the children are real time. So two rehearsals of a
//! deterministic application print the same bytes. With `LEGOSDN_TRACE=1` each act is told in words on standard error.
//!
//! The world is `Rehearsal`, which does call by call what any world does. All else is proved safe, and to end.
#![tactic(auto)]

ghost use Rattle.std.specs.Prelude.{◌≡◌, ◌≤◌, length, IfOk};
ghost use Rattle.sim_world.specs.World.{given_of};
ghost use Rattle.sim_world.specs.Building.{nothing_given, IsNew};

mod applications;
mod input;
mod rehearsal;
mod stop;

use crate::applications::read_apps;
use crate::input::{Input, read_input};
use crate::rehearsal::Rehearsal;
use crate::stop::{Stop, stop_of};
use crash_policy::AppRule;
use event_dispatch::serve;
use lego_io::{Sink, Source, StdSink, StdSource, write_all};
use live_stage::SteadyClock;
use live_world::LiveWorld;
use of_types::limits::MOST_ROUNDS;
use outside::{AllowAll, World};
use session_text::read_session;
use sim_world::SimWorld;
use std::alloc::{AllocError, Global};
use std::process::ExitCode;
use std::{env, io};
use trace_world::Traced;

/// The variable that asks for a trace.
const TRACE: &str = "LEGOSDN_TRACE";

/// The status where memory runs out before anything could be made.
const NO_MEMORY: u8 = 12;

/// Gives the names of applications, in their order.
fn names_of(alloc: Global, apps: &[AppRule]) -> Result<Vec<String>, AllocError> {
    let mut names = Vec::new(alloc);
    for app in apps {
        names.push(String::from_str(alloc, app.name.as_str())?)?;
    }
    Ok(names)
}

/// Makes the world of a session, of which nothing happened yet.
fn links_of(alloc: Global, input: &Input, apps: &[AppRule]) -> Result<SimWorld, Stop> {
    let mut links = SimWorld::new(alloc)?;
    let names = names_of(alloc, apps)?;
    read_session(
        alloc,
        &input.session,
        u64::from(input.first_line),
        &names,
        &mut links,
    )?;
    Ok(links)
}

/// Writes how many lines of the session were passed over.
fn write_passed<K: Sink>(alloc: Global, sink: &mut K, passed: u64) -> Result<(), Stop> {
    let line = format!(in alloc; "# start, reply and again lines passed over: {passed}\n")?;
    write_all(sink, line.as_bytes())?;
    Ok(())
}

/// Whether acts are to be told in words.
fn is_traced(rt: &HostRuntime) -> bool {
    match env::var(rt, TRACE) {
        Ok(text) => text.as_str() == "1",
        Err(_) => false,
    }
}

/// Returns this world, whose acts are told to the sink where that is asked for.
fn with_trace<W: World + Drop, K: Sink + Drop>(
    is_traced: bool,
    alloc: Global,
    world: W,
    sink: K,
) -> Traced<W, K> {
    if is_traced {
        Traced::new(alloc, world, sink)
    } else {
        Traced::silent(alloc, world, sink)
    }
}

/// Runs the applications over this world to the end of its stimuli, and writes the report. The acts of the world are told to the other
/// sink where that is asked for.
fn perform<K: Sink, W: World + Drop, E: Sink + Drop>(
    alloc: Global,
    apps: &[AppRule],
    sink: &mut K,
    world: W,
    is_traced: bool,
    acts: E,
) -> Result<(), Stop>
    requires { length apps.now ≤ 32 }
{
    let mut world = with_trace(is_traced, alloc, world, acts);
    stop_of(serve(alloc, apps, &mut world, &AllowAll, sink, 0, MOST_ROUNDS))
}

/// Runs the applications as children of this process over the switches of a world.
fn perform_over<K: Sink, L: World + Drop>(
    rt: &HostRuntime,
    apps: &[AppRule],
    sink: &mut K,
    links: L,
) -> Result<(), Stop>
    requires { length apps.now ≤ 32 }
{
    let alloc = rt.alloc();
    let is_traced = is_traced(rt);
    let acts = StdSink::new(rt.stderr(), alloc)?;
    let errors = StdSink::new(rt.stderr(), alloc)?;
    let clock = SteadyClock::new(rt.clone()?)?;
    let children = LiveWorld::new(rt.clone()?, alloc, clock, errors)?;
    let world = Rehearsal::new(alloc, links, children);
    perform(alloc, apps, sink, world, is_traced, acts)
}

/// Reads an input, rehearses it with children of this process, and writes the report.
fn rehearse<S: Source, K: Sink>(
    rt: &HostRuntime,
    source: &mut S,
    sink: &mut K,
) -> Result<(), Stop> {
    let alloc = rt.alloc();
    let input = read_input(alloc, source)?;
    let apps = read_apps(alloc, &input.policy)?;
    let links = links_of(alloc, &input, &apps)?;
    write_passed(alloc, sink, input.passed)?;
    perform_over(rt, &apps, sink, links)
}

/// Whether the program was called with words.
fn has_words(rt: &HostRuntime) -> io::Result<bool> {
    let words: Vec<String> = env::args(rt)?.skip(1).collect(rt.alloc())?;
    Ok(!words.is_empty())
}

/// Does what the program is for.
fn act<K: Sink>(rt: &HostRuntime, sink: &mut K) -> Result<(), Stop> {
    if has_words(rt).unwrap_or(true) {
        return Err(Stop::Usage);
    }
    let mut source = StdSource::new(rt, rt.alloc())?;
    rehearse(rt, &mut source, sink)
}

/// Does what the program is for, writes the line of what stopped it, and answers the status.
fn run(rt: &HostRuntime) -> Result<u8, AllocError> {
    let mut sink = StdSink::new(rt, rt.alloc())?;
    let Err(stop) = act(rt, &mut sink) else {
        return Ok(0);
    };
    if let Ok(line) = format!(in rt.alloc(); "{stop}\n") {
        let _ = write_all(&mut sink, line.as_bytes());
    }
    Ok(stop.status())
}

fn main(rt: HostRuntime) -> ExitCode {
    ExitCode::from(run(&rt).unwrap_or(NO_MEMORY))
}
