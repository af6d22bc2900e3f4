//! The command `run`.

ghost use Rattle.std.specs.Prelude.{◌≡◌, ◌≤◌, IfOk, IfSome, IfErr};
ghost use Rattle.lego_io.specs.Count.{NeverFell};
ghost use Rattle.legosdn.specs.Headline.{streams};
ghost use Rattle.legosdn.specs.Input.{program_value};
ghost use Rattle.legosdn.specs.Live.{Taken, Serves, IsOfNoSwitch};
ghost use Rattle.legosdn.specs.Promise.{LiveAtEveryStatus};

use crate::policy::{ReadProgram, read_program};
use crate::recording::Recorded;
use crate::stop::Stop;
use crate::world::run_world;
use lego_io::{Sink, Source};
use std::alloc::Global;

/// Reads a policy to its end, and runs its applications over the switches of a world, for this many rounds at most; gives the policy.
pub fn run_policy<S: Source, K: Sink, W: Recorded>(
    alloc: Global,
    source: &mut S,
    sink: &mut K,
    live: &mut W,
    port: u16,
    rounds: u64,
) -> Result<ReadProgram, Stop>
    requires rounds { rounds ≤ 1000000000 }
    ensures serves { Serves W.Tells rounds result (streams (S.remaining source.old) (K.contents sink.old) (S.faults source.old) (K.faults sink.old))
        (streams (S.remaining source.new) (K.contents sink.new) (S.faults source.new) (K.faults sink.new)) (W.seen live.old) (W.seen live.new) ((live.new ≡ live.old) × (sink.new ≡ sink.old)) }
    ensures taken { IfOk result (λ read. Taken (program_value read.program) (S.remaining source.old) (S.remaining source.new)) }
    ensures text { IfOk result (λ read. IfSome (S.remaining source.old) (λ told. read.text.items ≡ told)) }
    ensures always { LiveAtEveryStatus W.Tells (W.seen live.old) (W.seen live.new) }
    ensures never_fell { NeverFell (K.faults sink.old) (K.faults sink.new) }
    ensures no_switch { W.CanPart → IfErr result IsOfNoSwitch }
{
    let read = read_program(alloc, source)?;
    let aside = live.aside();
    match run_world(
        alloc,
        &read.program.apps,
        &read.program.judge,
        aside,
        sink,
        live,
        port,
        rounds,
    ) {
        Ok(()) => Ok(read),
        Err(stop) => Err(stop),
    }
}

/// Does what `run_policy` does, and gives nothing.
pub fn run_live<S: Source, K: Sink, W: Recorded>(
    alloc: Global,
    source: &mut S,
    sink: &mut K,
    live: &mut W,
    port: u16,
    rounds: u64,
) -> Result<(), Stop>
    requires rounds { rounds ≤ 1000000000 }
    ensures serves { Serves W.Tells rounds result (streams (S.remaining source.old) (K.contents sink.old) (S.faults source.old) (K.faults sink.old))
        (streams (S.remaining source.new) (K.contents sink.new) (S.faults source.new) (K.faults sink.new)) (W.seen live.old) (W.seen live.new) ((live.new ≡ live.old) × (sink.new ≡ sink.old)) }
    ensures always { LiveAtEveryStatus W.Tells (W.seen live.old) (W.seen live.new) }
    ensures never_fell { NeverFell (K.faults sink.old) (K.faults sink.new) }
    ensures no_switch { W.CanPart → IfErr result IsOfNoSwitch }
{
    match run_policy(alloc, source, sink, live, port, rounds) {
        Ok(_) => Ok(()),
        Err(stop) => Err(stop),
    }
}
