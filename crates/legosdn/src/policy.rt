//! The policy, and the applications that it names.

ghost use Rattle.std.specs.Prelude.{◌≡◌, ◌≤◌, Ok, Err, length, option_map, vec_len, IfSome, IfOk, IfErr};
ghost use Rattle.std.specs.List.{list_all};
ghost use Rattle.lego_io.specs.Count.{NeverFell};
ghost use Rattle.crash_policy.specs.Policies.{app_value, guard_value};
ghost use Rattle.crash_policy.specs.Order.{policy_of};
ghost use Rattle.legosdn.specs.Input.{has_words, with_words, judge_of as judge_by, program_value, program_in as program_of_policy};
ghost use Rattle.legosdn.specs.Stops.{refusal_line};
ghost use Rattle.legosdn.specs.Headline.{IsReadCause, IsNoPolicy, IsPolicyCause};
ghost use Rattle.legosdn.specs.Live.{Taken};

use crate::input::read_input;
use crate::stop::{InputRefusal, Stop};
use crash_policy::{AppRule, PolicyFile, read_policy};
use lego_io::Source;
use net_guard::{ChosenJudge, Guard, GuardRule, Quota};
use std::alloc::{AllocError, Global};

/// What runs: applications, and the judge of the tables that their turns leave.
#[derive(Drop, Debug)]
pub struct Program {
    /// The applications, in the order of the policy.
    pub apps: Vec<AppRule>,
    /// A turn whose tables it refuses is undone.
    pub judge: ChosenJudge,
}

/// Makes the judge of a policy.
fn judge_of(
    alloc: Global,
    quota: Option<u32>,
    guard: Option<GuardRule>,
) -> Result<ChosenJudge, AllocError>
    requires { IfSome guard (λ rule. vec_len rule.links ≤ 64) }
    ensures { IfOk result (λ judge. judge ≡ judge_by quota (option_map guard_value guard)) }
{
    match (quota, guard) {
        (_, Some(rule)) => Ok(ChosenJudge::Guard(Guard::new(alloc, &rule)?)),
        (Some(most), None) => Ok(ChosenJudge::Quota(Quota { most })),
        (None, None) => Ok(ChosenJudge::All),
    }
}

/// Reads the program of a policy text.
pub fn program_in(alloc: Global, text: &[u8]) -> Result<Program, Stop>
    ensures taken { IfOk result (λ program. program_of_policy (policy_of text.now) ≡ Ok (program_value program)) }
    ensures few { IfOk result (λ program. length program.apps.items ≤ 32) }
    ensures why { IfErr result (IsPolicyCause text.now) }
{
    let policy = read_policy(alloc, text)?;
    let PolicyFile { quota, guard, apps } = policy;
    let judge = judge_of(alloc, quota, guard)?;
    Ok(Program { apps, judge })
}

/// Tells whether a command starts an application.
#[tactic(auto, unfolding(crate::specs::Input::has_words))]
fn is_startable(app: &AppRule) -> bool
    ensures { result ≡ has_words (app_value app.now) }
{
    match app.command.first() {
        Some(program) => !program.is_empty(),
        None => false,
    }
}

/// Tells whether a command starts each of these.
fn are_startable(apps: &[AppRule]) -> bool
    ensures { result ≡ list_all (λ app. has_words (app_value app)) apps.now }
{
    apps.iter().all(|app| is_startable(app))
}

/// Gives the program, where each application has a command.
#[tactic(auto, using(crate::proofs::Policies::all_have_words))]
fn with_commands(program: Program) -> Result<Program, InputRefusal>
    ensures taken { IfOk result (λ same. (same ≡ program) × (with_words (program_value program) ≡ Ok (program_value program))) }
    ensures refused { IfErr result (λ refusal. with_words (program_value program) ≡ Err (refusal_line refusal)) }
{
    if !are_startable(&program.apps) {
        return Err(InputRefusal::NoCommand);
    }
    Ok(program)
}

/// A policy as it was read, and the program that it starts.
#[derive(Drop, Debug)]
pub struct ReadProgram {
    /// Its text.
    pub text: Vec<u8>,
    /// What it starts.
    pub program: Program,
}

/// Reads an input to its end, as a policy, and gives it with the program that it starts.
pub fn read_program<S: Source>(alloc: Global, source: &mut S) -> Result<ReadProgram, Stop>
    ensures taken { IfOk result (λ read. Taken (program_value read.program) (S.remaining source.old) (S.remaining source.new)) }
    ensures text { IfOk result (λ read. IfSome (S.remaining source.old) (λ told. read.text.items ≡ told)) }
    ensures few { IfOk result (λ read. length read.program.apps.items ≤ 32) }
    ensures why { IfErr result (IsReadCause IsNoPolicy (S.remaining source.old) (S.faults source.old) (S.faults source.new)) }
    ensures never_fell { NeverFell (S.faults source.old) (S.faults source.new) }
{
    let input = read_input(alloc, source)?;
    let program = program_in(alloc, &input)?;
    Ok(ReadProgram {
        program: with_commands(program)?,
        text: input,
    })
}
