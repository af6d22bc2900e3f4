//! The command that the words of the command line name.

ghost use Rattle.std.specs.Prelude.{◌≡◌, map, IfOk, IfSome, string_bytes};
ghost use Rattle.command_words.specs.Commands.{command_in, IsWithin};

use crate::command::{Command, command_named};
use crate::plain::{WORDS, command, parse};
use clap::error::ErrorKind;
use std::alloc::{AllocError, Global};

/// Reads the command that words name, without the program's own name; `None` where they are no command.
pub fn read_words(alloc: Global, words: &[String]) -> Result<Option<Command>, AllocError>
    ensures command { IfOk result (λ command. command ≡ command_in (map string_bytes words.now)) }
    ensures within { IfOk result (λ command. IfSome command IsWithin) }
{
    match parse(command(alloc)?, words) {
        Ok(matches) => Ok(command_named(matches.get_strs(WORDS).unwrap_or(&[]))),
        Err(error) if error.kind() == ErrorKind::OutOfMemory => Err(AllocError),
        Err(_) => Ok(None),
    }
}
