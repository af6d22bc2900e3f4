//! The program: it reads an input, runs a world, and writes the report. `replay` runs the session of the input in a simulated
//! world. `run` runs the applications of a policy over the switches that connect, and `record` writes that down as a session.
//!
//! The call is `top::legosdn`, over any source, sink and worlds. Its clauses `replay`, `run` and `record` are the promises of the
//! commands, records of specs/Promise.antt: a field for each sentence of the README, and one for statuses. The others say
//! what is so at every status, and before anything runs.
//! docs/GUARANTEES.md says each in plain words, docs/SESSION.md describes input, report and statuses.
#![tactic(auto)]

ghost use Rattle.std.specs.Prelude.{◌≡◌};
ghost use Rattle.sim_world.specs.World.{given_of};
ghost use Rattle.sim_world.specs.Building.{nothing_given, IsNew};

mod drawn;
mod explaining;
mod input;
mod judging;
mod kept_source;
mod live;
mod policy;
mod recorded_run;
mod recording;
mod settings;
mod stop;
mod top;
mod world;

use crate::explaining::explain;
use crate::kept_source::{KeptSource, MOST_EXPLAINED};
use crate::recording::{is_record, write_recording};
use crate::settings::{SettingFault, Settings, SystemClock};
use crate::top::legosdn;
use lego_io::{Sink, Source, StdSink, StdSource, write_all};
use live_world::{Clock, LiveWorld};
use outside::{Told, World};
use session_record::Recorder;
use sim_world::SimWorld;
use std::alloc::{AllocError, Global};
use std::env::Env;
use std::net::Net;
use std::process::{ExitCode, Processes, SystemProcess};
use std::{env, io};
use telling_world::Telling;
use trace_world::Traced;

/// The status where a setting of the environment is none, as where the words are no command.
const NO_SETTING: u8 = 2;

/// The status where an input is refused.
const BAD_INPUT: u8 = 3;

/// The status where memory runs out before anything could be made.
const NO_MEMORY: u8 = 12;

/// Reads the words behind the program's name. Words that are no text are no command, and neither is none.
fn words_of(rt: &HostRuntime) -> Result<Vec<String>, AllocError> {
    match env::args(rt) {
        Ok(words) => words.skip(1).collect(rt.alloc()),
        Err(error) if error.kind() == io::ErrorKind::OutOfMemory => Err(AllocError),
        Err(_) => Ok(Vec::new(rt.alloc())),
    }
}

/// Returns this world, whose acts are told to the sink where the environment asks for it.
fn with_trace<W: World + Drop, K: Sink + Drop>(
    settings: &Settings,
    alloc: Global,
    world: W,
    errors: K,
) -> Traced<W, K>
    ensures { result ≡ world }
{
    if settings.is_traced {
        Traced::new(alloc, world, errors)
    } else {
        Traced::silent(alloc, world, errors)
    }
}

/// What the program is called with: its words, and its standard streams.
#[derive(Drop)]
struct Console<S, K> {
    words: Vec<String>,
    source: KeptSource<S>,
    sink: K,
}

/// Tells whether a run is to be recorded: the environment asks for it, or the words do.
fn is_kept(settings: &Settings, alloc: Global, words: &[String]) -> bool {
    settings.is_recorded || is_record(alloc, words)
}

/// Returns this world, which is recorded where that is asked for.
fn with_record<W: World + Drop>(
    is_kept: bool,
    alloc: Global,
    world: W,
) -> Result<Recorder<W>, AllocError> {
    if is_kept {
        Recorder::new(alloc, world)
    } else {
        Ok(Recorder::silent(alloc, world))
    }
}

/// Writes the recording of a run that has ended, where the environment asks for one beside its report. The world ends here.
fn end_of<S, K, E: Sink + Drop, L: Told + Drop>(
    settings: &Settings,
    alloc: Global,
    console: &Console<S, K>,
    live: Traced<Recorder<L>, E>,
) {
    let (recorder, mut errors) = live.into_parts();
    if settings.is_recorded {
        write_recording(
            alloc,
            &console.words,
            &console.source,
            &recorder,
            &mut errors,
        );
    }
}

/// Makes the call over a simulated world and another one, whose acts are told, and which is recorded, where that is asked for.
///
/// Each world is made in a function of its own: to prove one that holds both takes a quarter of an hour.
fn call_over<S: Source + Drop, K: Sink + Drop, E: Sink + Drop, L: Told + Drop>(
    settings: &Settings,
    alloc: Global,
    console: &mut Console<S, K>,
    sim: &mut Traced<SimWorld, E>,
    live: L,
    errors: E,
) -> Result<u8, AllocError>
    requires new_world { IsNew sim.old }
    requires empty_world { given_of sim.old ≡ nothing_given }
{
    let is_kept = is_kept(settings, alloc, &console.words);
    let recorder = with_record(is_kept, alloc, live)?;
    let mut live = Telling::new(alloc, with_trace(settings, alloc, recorder, errors));
    let status = legosdn(
        alloc,
        &console.words,
        &mut console.source,
        &mut console.sink,
        sim,
        &mut live,
    );
    end_of(settings, alloc, console, live.into_world());
    Ok(status)
}

/// Where what is told of the world of real switches goes: its acts, and what it notes beside them.
#[derive(Drop)]
struct LiveErrors<E> {
    acts: E,
    notes: E,
}

/// Makes the world of the switches that connect, and the call over it.
fn run_beside<
    R: Net + Processes<Started = SystemProcess> + Env + AllocGlobal + Drop,
    C: Clock + Drop,
    S: Source + Drop,
    K: Sink + Drop,
    E: Sink + Drop,
>(
    rt: R,
    clock: C,
    settings: &Settings,
    console: &mut Console<S, K>,
    sim: &mut Traced<SimWorld, E>,
    errors: LiveErrors<E>,
) -> Result<u8, AllocError>
    requires new_world { IsNew sim.old }
    requires empty_world { given_of sim.old ≡ nothing_given }
{
    let alloc = rt.alloc();
    let LiveErrors { acts, notes } = errors;
    let mut live = LiveWorld::new(rt, alloc, clock, notes)?;
    live.listen_at(settings.address);
    if let Some(port) = settings.stop_port {
        live.stop_at(port);
    }
    if settings.is_traced {
        live.note_connections();
    }
    if is_kept(settings, alloc, &console.words) {
        live.keep_stimuli();
    }
    call_over(settings, alloc, console, sim, live, acts)
}

/// Runs the command of the words over a simulated world and the world of real switches, and answers the status. The acts of
/// both are told where the environment asks for it, each to its own sink.
fn run_in_worlds<
    R: Net + Processes<Started = SystemProcess> + Env + AllocGlobal + Drop,
    C: Clock + Drop,
    S: Source + Drop,
    K: Sink + Drop,
    E: Sink + Drop,
>(
    rt: R,
    clock: C,
    settings: &Settings,
    console: &mut Console<S, K>,
    errors: E,
    live_errors: LiveErrors<E>,
) -> Result<u8, AllocError> {
    let alloc = rt.alloc();
    let sim = SimWorld::new(alloc)?;
    let mut sim = with_trace(settings, alloc, sim, errors);
    run_beside(rt, clock, settings, console, &mut sim, live_errors)
}

/// How many bytes of the input are kept: all where a recording is to hold the policy, else enough to explain what is wrong.
fn most_kept(settings: &Settings) -> usize {
    if settings.is_recorded {
        usize::MAX
    } else {
        MOST_EXPLAINED
    }
}

/// Runs the command of the words over the standard streams, and answers the status. What is told of the worlds goes to
/// standard error.
fn run(rt: &HostRuntime, settings: &Settings) -> Result<u8, AllocError> {
    let alloc = rt.alloc();
    let mut console = Console {
        words: words_of(rt)?,
        source: KeptSource::new(alloc, StdSource::new(rt, alloc)?, most_kept(settings)),
        sink: StdSink::new(rt, alloc)?,
    };
    let errors = StdSink::new(rt.stderr(), alloc)?;
    let live_errors = LiveErrors {
        acts: StdSink::new(rt.stderr(), alloc)?,
        notes: StdSink::new(rt.stderr(), alloc)?,
    };
    let clock = SystemClock::new(rt);
    let status = run_in_worlds(rt, clock, settings, &mut console, errors, live_errors)?;
    if status == BAD_INPUT {
        explain_input(rt, &console)?;
    }
    Ok(status)
}

/// Writes to standard error what the line of a refused input does not say of its policy.
fn explain_input<S, K>(rt: &HostRuntime, console: &Console<S, K>) -> Result<(), AllocError> {
    let is_run = match console.words.first() {
        Some(word) => matches!(word.as_str(), "run" | "record"),
        None => false,
    };
    let Some(input) = console.source.kept() else {
        return Ok(());
    };
    if let Some(text) = explain(rt.alloc(), input, is_run)? {
        tell(rt, text.as_str())?;
    }
    Ok(())
}

/// Writes a text to standard error.
fn tell(rt: &HostRuntime, text: &str) -> Result<(), AllocError> {
    let mut errors = StdSink::new(rt.stderr(), rt.alloc())?;
    let _ = write_all(&mut errors, text.as_bytes());
    Ok(())
}

/// Writes what is wrong with a setting of the environment, and to standard error which value it has; answers the status.
fn refuse(rt: &HostRuntime, fault: SettingFault) -> Result<u8, AllocError> {
    let line = format!(in rt.alloc(); "{fault}\n")?;
    let mut sink = StdSink::new(rt, rt.alloc())?;
    let _ = write_all(&mut sink, line.as_bytes());
    if let Some(text) = fault.explain(rt)? {
        tell(rt, text.as_str())?;
    }
    Ok(NO_SETTING)
}

fn main(rt: HostRuntime) -> ExitCode {
    let status = match Settings::read(&rt) {
        Ok(settings) => run(&rt, &settings),
        Err(SettingFault::NoMemory) => Err(AllocError),
        Err(fault) => refuse(&rt, fault),
    };
    ExitCode::from(status.unwrap_or(NO_MEMORY))
}
