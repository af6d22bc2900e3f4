//! The program as a call over a source, a sink and two worlds.

ghost use Rattle.std.specs.Prelude.{◌≡◌, ◌⊎◌, ◌≤◌, ◌∷◌, [], ℕ, None, length, map, Contains, IfOk, OnOk, IfErr, string_bytes};
ghost use Rattle.std.specs.Result.{IsErrAnd};
ghost use Rattle.crash_policy.specs.Policies.{app_value};
ghost use Rattle.lego_io.specs.Count.{Rose, NeverFell};
ghost use Rattle.outside.specs.Seen.{Continues};
ghost use Rattle.outside.specs.State.{state, at_first};
ghost use Rattle.outside.specs.InOrder.{InOrder};
ghost use Rattle.sim_world.specs.World.{given_of, seen_of};
ghost use Rattle.sim_world.specs.Places.{AreExpected};
ghost use Rattle.sim_world.specs.Building.{nothing_given, IsNew};
ghost use Rattle.command_words.specs.Commands.{command_in};
ghost use Rattle.lego_model.specs.OwnIds.{IsShortRun, OwnIdsAscend};
ghost use Rattle.lego_model.specs.Application.{names};
ghost use Rattle.run_course.specs.Parts.{TakesCourse};
ghost use Rattle.legosdn.specs.Course.{StandsAt};
ghost use Rattle.legosdn.specs.Input.{program_of, program_value, session_of, spelled_to, read_by};
ghost use Rattle.legosdn.specs.Stops.{stop_status, stop_line};
ghost use Rattle.legosdn.specs.Headline.{IsReplay, IsRun, IsRecord, IsGen, IsNoSession, streams, IsReadCause, IsRunCause, IsEarly, Loaded, LosesByFaults, RunsAs, KeepsLines, Wrote, Replays};
ghost use Rattle.legosdn.specs.Live.{Serves, IsOfNoSwitch};
ghost use Rattle.legosdn.specs.Drawn.{Generates};
ghost use Rattle.legosdn.specs.Recorded.{Records};
ghost use Rattle.legosdn.specs.LinkFaults.{LosesAsTold, TellsAsTold};
ghost use Rattle.legosdn.specs.Promise.{ReplayPromise, GenPromise, RunPromise, RecordPromise, NoSwitchEnds, AtEveryStatus, LiveAtEveryStatus};

use crate::drawn::run_drawn;
use crate::input::{cut, read_input};
use crate::live::run_live;
use crate::policy::{Program, program_in};
use crate::recorded_run::run_recorded;
use crate::recording::Recorded;
use crate::stop::Stop;
use crate::world::run_world;
use command_words::{Command, read_words};
use crash_policy::AppRule;
use lego_io::{Sink, Source};
use net_guard::ChosenJudge;
use of_types::limits::MOST_ROUNDS;
use session_text::read_session;
use sim_world::SimWorld;
use std::alloc::{AllocError, Global};
use trace_world::Traced;

/// Gives the names of applications, in their order.
pub fn app_names(alloc: Global, apps: &[AppRule]) -> Result<Vec<String>, AllocError>
    ensures { IfOk result (λ all. map string_bytes all.items ≡ names (map app_value apps.now)) }
{
    let mut names = Vec::new(alloc);
    for app in apps {
        names.push(String::from_str(alloc, app.name.as_str())?)?;
    }
    Ok(names)
}

/// Reads an input to its end, and its session into the world; answers its program.
fn load<S: Source>(alloc: Global, source: &mut S, sim: &mut SimWorld) -> Result<Program, Stop>
    requires new { IsNew sim.old }
    requires nothing { given_of sim.old ≡ nothing_given }
    ensures loaded { IfOk result (λ program. Loaded session_of (program_value program) (S.remaining source.old) (S.remaining source.new) (seen_of sim.new)) }
    ensures new { IsNew sim.new }
    ensures few_apps { IfOk result (λ program. length program.apps.items ≤ 32) }
    ensures few { OnOk result (length (seen_of sim.new).given.stimuli ≤ 1000000) }
    ensures why { IfErr result (IsReadCause (IsNoSession session_of) (S.remaining source.old) (S.faults source.old) (S.faults source.new)) }
    ensures early { IfErr result (λ stop. IsEarly stop → sim.new ≡ sim.old) }
    ensures never_fell { NeverFell (S.faults source.old) (S.faults source.new) }
{
    let input = read_input(alloc, source)?;
    let parts = cut(&input)?;
    let program = program_in(alloc, parts.policy)?;
    let names = app_names(alloc, &program.apps)?;
    read_session(alloc, parts.session, parts.first_line, &names, sim)?;
    Ok(program)
}

/// Finds that the simulated world keeps its word.
#[tactic(auto, using(crate::proofs::FaultLines::tells_as_told))]
fn keeps_word<E: Sink + Drop>(sim: &Traced<SimWorld, E>)
    ensures word { InOrder (seen_of sim.now) }
    ensures told { TellsAsTold (seen_of sim.now) }
    ensures scripts { KeepsLines sim.now }
    ensures strays { AreExpected sim.now.history (at_first (given_of sim.now)) → (seen_of sim.now).counts.strays ≤ (seen_of sim.now).counts.shorts }
{
    sim.world().keeps_word();
}

/// Runs the applications in the simulated world to its end, and writes the report.
pub fn simulate<K: Sink, E: Sink + Drop>(
    alloc: Global,
    apps: &[AppRule],
    judge: &ChosenJudge,
    sink: &mut K,
    sim: &mut Traced<SimWorld, E>,
) -> Result<(), Stop>
    requires few { length apps.now ≤ 32 }
    ensures runs { (seen_of sim.old).history ≡ [] → length (seen_of sim.old).given.stimuli ≤ 1000000
        → RunsAs (program_of apps.now judge.now) result sim.new (K.contents sink.old) (K.contents sink.new) }
    ensures course { TakesCourse (map app_value apps.now) (seen_of sim.old) (seen_of sim.new) (K.contents sink.old) (StandsAt result (K.contents sink.new)) }
    ensures lines { KeepsLines sim.new }
    ensures strays { (seen_of sim.old).history ≡ [] → (seen_of sim.new).counts.strays ≤ (seen_of sim.new).counts.shorts }
    ensures lost { (seen_of sim.old).history ≡ [] → LosesByFaults (seen_of sim.new) × LosesAsTold (seen_of sim.new) }
    ensures why { IfErr result (IsRunCause (Unit {0}) (K.faults sink.old) (K.faults sink.new) (seen_of sim.old) (seen_of sim.new)) }
    ensures continues { Continues (Unit {0}) (seen_of sim.old) (seen_of sim.new) }
    ensures ended { (seen_of sim.old).history ≡ [] → (state (seen_of sim.new)).running ≡ [] }
    ensures ids { (seen_of sim.old).history ≡ [] → IsShortRun (seen_of sim.new) → OwnIdsAscend (seen_of sim.new) }
    ensures never_fell { NeverFell (K.faults sink.old) (K.faults sink.new) }
{
    let aside = sim.aside();
    let ended = run_world(alloc, apps, judge, aside, sink, sim, 0, MOST_ROUNDS);
    keeps_word(sim);
    ended
}

/// Reads a session to its end, and runs it in the simulated world.
fn replay<S: Source, K: Sink, E: Sink + Drop>(
    alloc: Global,
    source: &mut S,
    sink: &mut K,
    sim: &mut Traced<SimWorld, E>,
) -> Result<(), Stop>
    requires new { IsNew sim.old }
    requires nothing { given_of sim.old ≡ nothing_given }
    ensures replays { Replays session_of result (streams (S.remaining source.old) (K.contents sink.old) (S.faults source.old) (K.faults sink.old))
        (streams (S.remaining source.new) (K.contents sink.new) (S.faults source.new) (K.faults sink.new)) sim.old sim.new ((sim.new ≡ sim.old) × (sink.new ≡ sink.old)) }
    ensures always { AtEveryStatus session_of (S.remaining source.old) (S.remaining source.new) (seen_of sim.new) }
    ensures never_fell { NeverFell (K.faults sink.old) (K.faults sink.new) }
{
    let program = load(alloc, source, sim.world_mut())?;
    simulate(alloc, &program.apps, &program.judge, sink, sim)
}

/// Runs the command that the words are.
fn run<S: Source, K: Sink, E: Sink + Drop, W: Recorded>(
    alloc: Global,
    words: &[String],
    source: &mut S,
    sink: &mut K,
    sim: &mut Traced<SimWorld, E>,
    live: &mut W,
) -> Result<(), Stop>
    requires new { IsNew sim.old }
    requires nothing { given_of sim.old ≡ nothing_given }
    ensures replays { IsReplay (map string_bytes words.now) → Replays session_of result (streams (S.remaining source.old) (K.contents sink.old) (S.faults source.old) (K.faults sink.old))
        (streams (S.remaining source.new) (K.contents sink.new) (S.faults source.new) (K.faults sink.new)) sim.old sim.new ((sim.new ≡ sim.old) × (sink.new ≡ sink.old)) }
    ensures replay_leaves_live { IsReplay (map string_bytes words.now) → live.new ≡ live.old }
    ensures generates { (start count : ℕ) → IsGen (map string_bytes words.now) start count → Generates start count result (streams (S.remaining source.old) (K.contents sink.old) (S.faults source.old) (K.faults sink.old))
        (streams (S.remaining source.new) (K.contents sink.new) (S.faults source.new) (K.faults sink.new)) sim.old sim.new }
    ensures gen_leaves_others { (start count : ℕ) → IsGen (map string_bytes words.now) start count → (live.new ≡ live.old) × (source.new ≡ source.old) }
    ensures serves { (port rounds : ℕ) → IsRun (map string_bytes words.now) port rounds
        → Serves W.Tells rounds result (streams (S.remaining source.old) (K.contents sink.old) (S.faults source.old) (K.faults sink.old))
        (streams (S.remaining source.new) (K.contents sink.new) (S.faults source.new) (K.faults sink.new)) (W.seen live.old) (W.seen live.new) ((live.new ≡ live.old) × (sink.new ≡ sink.old)) }
    ensures run_leaves_sim { (port rounds : ℕ) → IsRun (map string_bytes words.now) port rounds → sim.new ≡ sim.old }
    ensures records { (port rounds : ℕ) → IsRecord (map string_bytes words.now) port rounds
        → Records W.Tells rounds result (streams (S.remaining source.old) (K.contents sink.old) (S.faults source.old) (K.faults sink.old))
        (streams (S.remaining source.new) (K.contents sink.new) (S.faults source.new) (K.faults sink.new)) (W.seen live.old) (W.seen live.new) (W.kept live.new) (live.new ≡ live.old) }
    ensures record_leaves_sim { (port rounds : ℕ) → IsRecord (map string_bytes words.now) port rounds → sim.new ≡ sim.old }
    ensures always { AtEveryStatus (spelled_to (command_in (map string_bytes words.now))) (read_by (command_in (map string_bytes words.now)) (S.remaining source.old)) (read_by (command_in (map string_bytes words.now)) (S.remaining source.new)) (seen_of sim.new) }
    ensures live_always { LiveAtEveryStatus W.Tells (W.seen live.old) (W.seen live.new) }
    ensures early { IfErr result (λ stop. IsEarly stop → (sim.new ≡ sim.old) × (live.new ≡ live.old) × (sink.new ≡ sink.old)) }
    ensures usage { IfErr result (λ stop. stop ≡ Stop.Usage → command_in (map string_bytes words.now) ≡ None) }
    ensures no_command { command_in (map string_bytes words.now) ≡ None
        → IsErrAnd result (λ stop. Contains (2 ∷ 12 ∷ []) (stop_status stop) × (sim.new ≡ sim.old) × (live.new ≡ live.old) × (sink.new ≡ sink.old)) }
    ensures never_fell { NeverFell (K.faults sink.old) (K.faults sink.new) }
    ensures no_switch { (port rounds : ℕ) → IsRun (map string_bytes words.now) port rounds → W.CanPart → IfErr result IsOfNoSwitch }
    ensures no_switch_recorded { (port rounds : ℕ) → IsRecord (map string_bytes words.now) port rounds → W.CanPart → IfErr result IsOfNoSwitch }
{
    match read_words(alloc, words)? {
        Some(Command::Replay) => replay(alloc, source, sink, sim),
        Some(Command::Run { port, rounds }) => run_live(alloc, source, sink, live, port, rounds),
        Some(Command::Record { port, rounds }) => {
            run_recorded(alloc, source, sink, live, port, rounds)
        }
        Some(Command::Gen { start, count }) => run_drawn(alloc, start, count, sink, sim),
        None => Err(Stop::Usage),
    }
}

/// Writes the line of a stop, and answers its status. A failed write does not change the status.
#[tactic(auto, using(crate::proofs::Causes::wrote))]
pub fn halt<K: Sink>(sink: &mut K, stop: Stop) -> u8
    ensures status { result ≡ stop_status stop }
    ensures line { Wrote (K.contents sink.old) (K.contents sink.new) (K.faults sink.old) (K.faults sink.new) (stop_line stop) }
    ensures never_fell { NeverFell (K.faults sink.old) (K.faults sink.new) }
{
    let _ = stop.write_line(sink);
    stop.status()
}

/// Runs one command: reads an input to its end, runs a world, and writes the report.
///
/// `replay` runs the session of the input, with the applications of its policy, in the simulated world, and `run` the applications
/// of a policy over the switches of the other world. `record` does the same, and writes the session that does it again in place of the report. `gen` replays a session that it draws, and writes one line in place of the report.
/// The simulated world may tell its acts in words; contracts see it without them. The answer is the status
/// of the program: 0 where the whole report was written, 2 where
/// the words are no command, 3 where the input is refused, 4 where the source failed, 5 where the sink failed, 6 where
/// the world stays shut or fails, 8 where a switch broke, 9 where it diverged, 10 where events were left, 12 where memory
/// ran out. A switch whose link fails is lost, and the run goes on;
/// so it is with a switch at fault, where the world can part with it. At any status but 0 and 5 the last line that is written says why.
pub fn legosdn<S: Source, K: Sink, E: Sink + Drop, W: Recorded>(
    alloc: Global,
    words: &[String],
    source: &mut S,
    sink: &mut K,
    sim: &mut Traced<SimWorld, E>,
    live: &mut W,
) -> u8
    requires new_world { IsNew sim.old }
    requires empty_world { given_of sim.old ≡ nothing_given }
    // The five sentences of the README and what statuses say, of `replay`, of `gen`, and of `run` and `record` over any world. A command leaves the world of the other one,
    // and `gen` the input too.
    ensures replay { (IsReplay (map string_bytes words.now) → ReplayPromise session_of result (streams (S.remaining source.old) (K.contents sink.old) (S.faults source.old) (K.faults sink.old))
        (streams (S.remaining source.new) (K.contents sink.new) (S.faults source.new) (K.faults sink.new)) sim.old sim.new)
        × ((start count : ℕ) → IsGen (map string_bytes words.now) start count → GenPromise start count result (streams (S.remaining source.old) (K.contents sink.old) (S.faults source.old) (K.faults sink.old))
        (streams (S.remaining source.new) (K.contents sink.new) (S.faults source.new) (K.faults sink.new)) sim.old sim.new) }
    ensures run { (port rounds : ℕ) → IsRun (map string_bytes words.now) port rounds
        → RunPromise W.Tells rounds result (streams (S.remaining source.old) (K.contents sink.old) (S.faults source.old) (K.faults sink.old))
        (streams (S.remaining source.new) (K.contents sink.new) (S.faults source.new) (K.faults sink.new)) (W.seen live.old) (W.seen live.new) (live.new ≡ live.old) }
    ensures record { (port rounds : ℕ) → IsRecord (map string_bytes words.now) port rounds
        → RecordPromise W.Tells rounds result (streams (S.remaining source.old) (K.contents sink.old) (S.faults source.old) (K.faults sink.old))
        (streams (S.remaining source.new) (K.contents sink.new) (S.faults source.new) (K.faults sink.new)) (W.seen live.old) (W.seen live.new) (W.kept live.new) (live.new ≡ live.old) }
    ensures leaves_other_world { (IsReplay (map string_bytes words.now) → live.new ≡ live.old) × ((start count : ℕ) → IsGen (map string_bytes words.now) start count → (live.new ≡ live.old) × (source.new ≡ source.old)) × ((port rounds : ℕ) → IsRun (map string_bytes words.now) port rounds ⊎ IsRecord (map string_bytes words.now) port rounds → sim.new ≡ sim.old) }
    // Where the switches of the other world can be parted with, none ends a `run` or a `record`: statuses 8 and 9 never come.
    ensures no_switch_ends_the_run { (port rounds : ℕ) → IsRun (map string_bytes words.now) port rounds ⊎ IsRecord (map string_bytes words.now) port rounds → W.CanPart → NoSwitchEnds result }
    // At every status, of each world.
    ensures at_every_status { AtEveryStatus (spelled_to (command_in (map string_bytes words.now))) (read_by (command_in (map string_bytes words.now)) (S.remaining source.old)) (read_by (command_in (map string_bytes words.now)) (S.remaining source.new)) (seen_of sim.new) × TellsAsTold (seen_of sim.new) }
    ensures live_at_every_status { LiveAtEveryStatus W.Tells (W.seen live.old) (W.seen live.new) }

    // Status 2 comes only where the words are no command. Then it is 2, or memory is wanting for them; one line is written, and nothing runs.
    ensures usage { result ≡ 2 → command_in (map string_bytes words.now) ≡ None }
    ensures no_command { command_in (map string_bytes words.now) ≡ None → Contains (2 ∷ 12 ∷ []) result × (sim.new ≡ sim.old) × (live.new ≡ live.old)
        × ((stop : Stop) × (result ≡ stop_status stop) × Wrote (K.contents sink.old) (K.contents sink.new) (K.faults sink.old) (K.faults sink.new) (stop_line stop)) }
    ensures source_failed { result ≡ 4 → Rose (S.faults source.old) (S.faults source.new) }
    ensures sink_failed { result ≡ 5 → Rose (K.faults sink.old) (K.faults sink.new) }

    // Before anything runs one line is written and nothing else, and the worlds stay as they are.
    ensures world_untouched { Contains (2 ∷ 3 ∷ 4 ∷ []) result → (sim.new ≡ sim.old) × (live.new ≡ live.old) × ((stop : Stop) × (result ≡ stop_status stop)
        × Wrote (K.contents sink.old) (K.contents sink.new) (K.faults sink.old) (K.faults sink.new) (stop_line stop)) }
{
    let ended = run(alloc, words, source, sink, sim, live);
    keeps_word(sim);
    match ended {
        Ok(()) => 0,
        Err(stop) => halt(sink, stop),
    }
}
