//! The command `record`: a run, of which the recording is written in place of the report.

ghost use Rattle.std.specs.Prelude.{◌≡◌, ◌≤◌, ℕ, List, Option, map, IfErr, OnOk};
ghost use Rattle.std.specs.Io.KnownBytes.{append_known};
ghost use Rattle.crash_policy.specs.Policies.{app_value};
ghost use Rattle.lego_io.specs.Count.{NeverFell};
ghost use Rattle.legosdn.specs.Headline.{streams, IsEarly};
ghost use Rattle.legosdn.specs.Live.{IsOfNoSwitch};
ghost use Rattle.legosdn.specs.Recorded.{IsRecording, CutRecording, Records};
ghost use Rattle.legosdn.specs.Promise.{LiveAtEveryStatus};

use crate::drawn::{MOST_REPORT, stop_of_replay};
use crate::live::run_policy;
use crate::policy::ReadProgram;
use crate::recording::{Recorded, recording_of};
use crate::stop::Stop;
use lego_io::{MemSink, Sink, Source, write_all};
use std::alloc::Global;

/// Writes the recording of a run under a policy.
fn write_recorded<K: Sink, W: Recorded>(
    alloc: Global,
    read: &ReadProgram,
    live: &W,
    sink: &mut K,
) -> Result<(), Stop>
    ensures all { OnOk result ((bytes : List ℕ) × IsRecording W.Tells (W.seen live.now) (map app_value read.now.program.apps.items) read.now.text.items (W.kept live.now) bytes
        × (K.contents sink.new ≡ append_known (K.contents sink.old) bytes)) }
    ensures cut { (told left : Option (List ℕ)) → (i j : ℕ) → IfErr result (λ stop. CutRecording stop (IsRecording W.Tells (W.seen live.now) (map app_value read.now.program.apps.items) read.now.text.items (W.kept live.now))
        (streams told (K.contents sink.old) i (K.faults sink.old)) (streams left (K.contents sink.new) j (K.faults sink.new))) }
    ensures never_fell { NeverFell (K.faults sink.old) (K.faults sink.new) }
{
    let bytes = recording_of(alloc, read, live)?;
    match write_all(sink, &bytes) {
        Ok(()) => Ok(()),
        Err(_) => Err(Stop::WriteFault),
    }
}

/// Reads a policy to its end, runs its applications over the switches of a world, for this many rounds at most, and writes the
/// recording of that in place of the report.
pub fn run_recorded<S: Source, K: Sink, W: Recorded>(
    alloc: Global,
    source: &mut S,
    sink: &mut K,
    live: &mut W,
    port: u16,
    rounds: u64,
) -> Result<(), Stop>
    requires rounds { rounds ≤ 1000000000 }
    ensures records { Records W.Tells rounds result (streams (S.remaining source.old) (K.contents sink.old) (S.faults source.old) (K.faults sink.old))
        (streams (S.remaining source.new) (K.contents sink.new) (S.faults source.new) (K.faults sink.new)) (W.seen live.old) (W.seen live.new) (W.kept live.new) (live.new ≡ live.old) }
    ensures always { LiveAtEveryStatus W.Tells (W.seen live.old) (W.seen live.new) }
    ensures early { IfErr result (λ stop. IsEarly stop → (live.new ≡ live.old) × (sink.new ≡ sink.old)) }
    ensures never_fell { NeverFell (K.faults sink.old) (K.faults sink.new) }
    ensures no_switch { W.CanPart → IfErr result IsOfNoSwitch }
{
    let mut report = MemSink::new(alloc, MOST_REPORT, &[])?;
    match run_policy(alloc, source, &mut report, live, port, rounds) {
        Ok(read) => write_recorded(alloc, &read, live, sink),
        Err(stop) => Err(stop_of_replay(stop)),
    }
}
