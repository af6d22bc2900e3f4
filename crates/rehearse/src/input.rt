//! An input: a policy, and a session of which what applications did is passed over.

ghost use Rattle.std.specs.Prelude.{◌≡◌};

use crate::stop::Stop;
use lego_io::{Source, read_all};
use std::alloc::{AllocError, Global};

/// How many bytes an input has at most (64 MiB).
const MOST_INPUT: usize = 67_108_864;

/// The first words of the lines that are passed over.
const PASSED: [&[u8]; 3] = [b"start ", b"reply ", b"again "];

/// An input, cut at its first line `---`.
#[derive(Drop)]
pub(crate) struct Input {
    /// The bytes before that line.
    pub(crate) policy: Vec<u8>,
    /// The bytes behind it; each line that was passed over is empty.
    pub(crate) session: Vec<u8>,
    /// The number of the session's first line, where the lines of the whole input are counted from 1.
    pub(crate) first_line: u32,
    /// How many lines were passed over.
    pub(crate) passed: u64,
}

/// Whether a line, without its LF, is the separator.
fn is_separator(line: &[u8]) -> bool {
    matches!(line, b"---" | b"---\r")
}

/// Whether a line says what an application did.
fn is_passed(line: &[u8]) -> bool {
    PASSED.iter().any(|word| line.starts_with(word))
}

/// Cuts the lines behind the separator off, and passes those over that say what applications did.
fn input_of(alloc: Global, bytes: &[u8]) -> Result<Option<Input>, AllocError> {
    let mut input = Input {
        policy: Vec::new(alloc),
        session: Vec::new(alloc),
        first_line: 1,
        passed: 0,
    };
    let mut is_session = false;
    for line in bytes.split(|byte| *byte == b'\n') {
        if !is_session {
            is_session = is_separator(line);
            input.first_line = input.first_line.saturating_add(1);
            if !is_session {
                push_line(&mut input.policy, line)?;
            }
        } else if is_passed(line) {
            input.passed = input.passed.saturating_add(1);
            push_line(&mut input.session, &[])?;
        } else {
            push_line(&mut input.session, line)?;
        }
    }
    Ok(if is_session { Some(input) } else { None })
}

fn push_line(text: &mut Vec<u8>, line: &[u8]) -> Result<(), AllocError> {
    text.extend_from_slice(line)?;
    text.push(b'\n')?;
    Ok(())
}

/// Reads all bytes of the source, and cuts them.
pub(crate) fn read_input<S: Source>(alloc: Global, source: &mut S) -> Result<Input, Stop> {
    let bytes = read_all(alloc, source, MOST_INPUT)?;
    input_of(alloc, &bytes)?.ok_or(Stop::Separator)
}
