//! Plain words, as `clap` reads them: one argument that takes all words, and no options.

ghost use Rattle.std.specs.Prelude.{◌≡◌, ◌≢◌, [], Some, None, IfOk, IfErr, map, codes, option_map, unwrap_or, string_bytes};
ghost use Rattle.clap.specs.Words.{app_of, found_of, kind_of, matched_of, raw_values};
ghost use Rattle.command_words.specs.Plain.{plain_words};
ghost use Rattle.command_words.specs.PlainApp.{plain_app};

use clap::error::ErrorKind;
use clap::{Arg, ArgAction, ArgMatches, Command, Error};
use std::alloc::{AllocError, Global};

/// The name under which `clap` keeps the words.
pub(crate) const WORDS: &str = "words";

/// Makes a command line of any number of plain words, as `clap` holds it.
pub(crate) fn command<'a>(alloc: Global) -> Result<Command<'a>, AllocError>
    ensures { IfOk result (λ c. app_of c ≡ plain_app) }
{
    let words = Arg::new(alloc, WORDS)
        .action(ArgAction::Append)
        .num_args(0..);
    Ok(
        Command::new(alloc, "legosdn")
            .no_binary_name(true)
            .disable_help_flag(true)
            .arg(words)?,
    )
}

/// Reads the plain words of a command line. An error that is not want of memory says that a word asks for an option.
pub(crate) fn parse<'a>(command: Command<'a>, words: &'a [String]) -> Result<ArgMatches<'a>, Error>
    requires { app_of command ≡ plain_app }
    ensures plain { IfOk result (λ m. plain_words (map string_bytes words.entry.now)
        ≡ Some (unwrap_or (option_map raw_values (matched_of (found_of m) (codes "words"))) [])) }
    ensures option { IfErr result (λ e. kind_of e ≢ ErrorKind.OutOfMemory
        → plain_words (map string_bytes words.entry.now) ≡ None) }
{
    command.try_get_matches_from(words)
}
