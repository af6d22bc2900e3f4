//! The command `gen`: a session is drawn and replayed, and its report summed up.

ghost use Rattle.std.specs.Prelude.{◌≡◌, ◌≤◌, ℕ, List, [], Option, Some, length, IfOk, OnOk, IfErr};
ghost use Rattle.std.specs.Io.KnownBytes.{append_known};
ghost use Rattle.lego_io.specs.Count.{NeverFell};
ghost use Rattle.sim_world.specs.World.{given_of, seen_of};
ghost use Rattle.sim_world.specs.Building.{nothing_given, IsNew};
ghost use Rattle.session_gen.specs.Summary.{summary_line as summary_text};
ghost use Rattle.legosdn.specs.Input.{drawn, program_value};
ghost use Rattle.legosdn.specs.Headline.{streams, IsNoSession, IsReadCause, IsEarly, Loaded, Replays};
ghost use Rattle.legosdn.specs.Drawn.{CutLine, StopsSo, Generates};
ghost use Rattle.legosdn.specs.Promise.{AtEveryStatus};

use crate::policy::{Program, program_in};
use crate::stop::Stop;
use crate::top::simulate;
use lego_io::{MemSink, Sink, write_all};
use session_gen::summary_line;
use session_text::generate;
use sim_world::SimWorld;
use std::alloc::Global;
use trace_world::Traced;

/// How many bytes a report that is not written has at most (64 MiB).
pub const MOST_REPORT: usize = 67_108_864;

/// Gives the world the session that a start and a count draw; answers its program, that of an empty policy.
fn draw(alloc: Global, start: u64, count: u32, sim: &mut SimWorld) -> Result<Program, Stop>
    requires rounds { count ≤ 100000 }
    requires new { IsNew sim.old }
    requires nothing { given_of sim.old ≡ nothing_given }
    ensures loaded { IfOk result (λ program. Loaded (drawn start count) (program_value program) (Some []) (Some []) (seen_of sim.new)) }
    ensures new { IsNew sim.new }
    ensures few_apps { IfOk result (λ program. length program.apps.items ≤ 32) }
    ensures few { OnOk result (length (seen_of sim.new).given.stimuli ≤ 1000000) }
    ensures why { IfErr result (IsReadCause (IsNoSession (drawn start count)) (Some []) 0 0) }
    ensures early { IfErr result (λ stop. IsEarly stop → sim.new ≡ sim.old) }
{
    let program = program_in(alloc, b"")?;
    generate(alloc, start, count, sim)?;
    Ok(program)
}

/// Draws a session and replays it, and writes its report.
fn replay_drawn<K: Sink, E: Sink + Drop>(
    alloc: Global,
    start: u64,
    count: u32,
    sink: &mut K,
    sim: &mut Traced<SimWorld, E>,
) -> Result<(), Stop>
    requires rounds { count ≤ 100000 }
    requires new { IsNew sim.old }
    requires nothing { given_of sim.old ≡ nothing_given }
    ensures replays { Replays (drawn start count) result (streams (Some []) (K.contents sink.old) 0 (K.faults sink.old))
        (streams (Some []) (K.contents sink.new) 0 (K.faults sink.new)) sim.old sim.new ((sim.new ≡ sim.old) × (sink.new ≡ sink.old)) }
    ensures always { AtEveryStatus (drawn start count) (Some []) (Some []) (seen_of sim.new) }
{
    let program = draw(alloc, start, count, sim.world_mut())?;
    simulate(alloc, &program.apps, &program.judge, sink, sim)
}

/// Writes the line that sums up a report.
fn write_summary<K: Sink>(
    alloc: Global,
    start: u64,
    count: u32,
    report: &[u8],
    sink: &mut K,
) -> Result<(), Stop>
    ensures all { OnOk result (K.contents sink.new ≡ append_known (K.contents sink.old) (summary_text start count report.now)) }
    ensures cut { (told : Option (List ℕ)) → (faults : ℕ) → IfErr result (λ stop. CutLine stop (summary_text start count report.now) (streams told (K.contents sink.old) faults (K.faults sink.old))
        (streams told (K.contents sink.new) faults (K.faults sink.new))) }
    ensures never_fell { NeverFell (K.faults sink.old) (K.faults sink.new) }
{
    let line = summary_line(alloc, start, count, report)?;
    match write_all(sink, line.as_bytes()) {
        Ok(()) => Ok(()),
        Err(_) => Err(Stop::WriteFault),
    }
}

/// Gives the stop where a run stopped whose report goes to memory. Where that was not written, memory was wanting for it.
pub fn stop_of_replay(stop: Stop) -> Stop
    ensures { StopsSo stop result }
{
    match stop {
        Stop::WriteFault => Stop::NoMemory,
        stop => stop,
    }
}

/// Draws a session, replays it, and writes the line that sums up its report in place of the report.
pub fn run_drawn<K: Sink, E: Sink + Drop>(
    alloc: Global,
    start: u64,
    count: u32,
    sink: &mut K,
    sim: &mut Traced<SimWorld, E>,
) -> Result<(), Stop>
    requires rounds { count ≤ 100000 }
    requires new { IsNew sim.old }
    requires nothing { given_of sim.old ≡ nothing_given }
    ensures generates { (told : Option (List ℕ)) → (faults : ℕ) → Generates start count result (streams told (K.contents sink.old) faults (K.faults sink.old))
        (streams told (K.contents sink.new) faults (K.faults sink.new)) sim.old sim.new }
    ensures always { AtEveryStatus (drawn start count) (Some []) (Some []) (seen_of sim.new) }
    ensures early { IfErr result (λ stop. IsEarly stop → (sim.new ≡ sim.old) × (sink.new ≡ sink.old)) }
    ensures never_fell { NeverFell (K.faults sink.old) (K.faults sink.new) }
{
    let mut report = MemSink::new(alloc, MOST_REPORT, &[])?;
    match replay_drawn(alloc, start, count, &mut report, sim) {
        Ok(()) => write_summary(alloc, start, count, report.bytes(), sink),
        Err(stop) => Err(stop_of_replay(stop)),
    }
}
