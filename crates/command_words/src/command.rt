//! The commands of the program.

ghost use Rattle.std.specs.Prelude.{◌≡◌, ◌≤◌, map, IfSome};
ghost use Rattle.command_words.specs.Commands.{replay_with, port_and_rounds, run_with, record_with, gen_with, command_with, command_named, usage_line, IsWithin};

use crate::numbers::number;
use of_types::limits::MOST_ROUNDS;

/// How many rounds a session that is drawn has at most.
const MOST_DRAWN: u64 = 100_000;

/// What the program is asked to do.
#[derive(Drop, Debug, Clone, Copy, PartialEq, Eq)]
pub enum Command {
    /// Run a session that is read from standard input.
    Replay,
    /// Control switches that connect.
    Run {
        /// The TCP port to listen at, from 1 on.
        port: u16,
        /// How many stimuli are taken at most, from 1 to 1,000,000,000.
        rounds: u64,
    },
    /// Control switches that connect, and write down the session that does it again.
    Record {
        /// The TCP port to listen at, from 1 on.
        port: u16,
        /// How many stimuli are taken at most, from 1 to 1,000,000,000.
        rounds: u64,
    },
    /// Draw a session, run it, and sum up its report.
    Gen {
        /// The number from which it is drawn.
        start: u64,
        /// How many rounds it has, at most 100,000.
        count: u32,
    },
}

/// What is written where the words are no command.
const USAGE: &str = "usage: legosdn replay, run PORT ROUNDS, record PORT ROUNDS, gen START COUNT";

/// Returns the line that says which words are commands, without its end.
pub fn usage_line() -> &'static str
    ensures { result.now ≡ usage_line }
{
    USAGE
}

/// Returns the command `replay`.
fn replay_with(arguments: &[&str]) -> Option<Command>
    ensures value { result ≡ replay_with (map (λ a. a.now) arguments.now) }
    ensures within { IfSome result IsWithin }
{
    match arguments {
        [] => Some(Command::Replay),
        _ => None,
    }
}

/// Reads a TCP port and a number of rounds, which are all arguments.
#[tactic(auto, unfolding(crate::specs::Commands::port_and_rounds))]
fn port_and_rounds(arguments: &[&str]) -> Option<(u16, u64)>
    ensures value { result ≡ port_and_rounds (map (λ a. a.now) arguments.now) }
    ensures within { IfSome result (λ at. (1 ≤ at.0) × (at.0 ≤ 65535) × (1 ≤ at.1) × (at.1 ≤ 1000000000)) }
{
    match arguments {
        [port, rounds] => Some((
            number(port, 1, 65_535)? as u16,
            number(rounds, 1, MOST_ROUNDS)?,
        )),
        _ => None,
    }
}

/// Returns the command `run PORT ROUNDS`.
fn run_with(arguments: &[&str]) -> Option<Command>
    ensures value { result ≡ run_with (map (λ a. a.now) arguments.now) }
    ensures within { IfSome result IsWithin }
{
    let (port, rounds) = port_and_rounds(arguments)?;
    Some(Command::Run { port, rounds })
}

/// Returns the command `record PORT ROUNDS`.
fn record_with(arguments: &[&str]) -> Option<Command>
    ensures value { result ≡ record_with (map (λ a. a.now) arguments.now) }
    ensures within { IfSome result IsWithin }
{
    let (port, rounds) = port_and_rounds(arguments)?;
    Some(Command::Record { port, rounds })
}

/// Returns the command `gen START COUNT`.
#[tactic(auto, unfolding(crate::specs::Commands::gen_with))]
fn gen_with(arguments: &[&str]) -> Option<Command>
    ensures value { result ≡ gen_with (map (λ a. a.now) arguments.now) }
    ensures within { IfSome result IsWithin }
{
    match arguments {
        [start, count] => Some(Command::Gen {
            start: number(start, 0, u64::MAX)?,
            count: number(count, 0, MOST_DRAWN)? as u32,
        }),
        _ => None,
    }
}

/// Returns the command of a name with its arguments.
#[tactic(auto, unfolding(crate::specs::Commands::command_with))]
fn command_with(name: &str, arguments: &[&str]) -> Option<Command>
    ensures value { result ≡ command_with name.now (map (λ a. a.now) arguments.now) }
    ensures within { IfSome result IsWithin }
{
    match name {
        "replay" => replay_with(arguments),
        "run" => run_with(arguments),
        "record" => record_with(arguments),
        "gen" => gen_with(arguments),
        _ => None,
    }
}

/// Returns the command that plain words name.
pub(crate) fn command_named(words: &[&str]) -> Option<Command>
    ensures value { result ≡ command_named (map (λ w. w.now) words.now) }
    ensures within { IfSome result IsWithin }
{
    let (name, arguments) = words.split_first()?;
    command_with(name, arguments)
}
