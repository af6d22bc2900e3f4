//! A child program that plays one part: an application, which speaks frames over its standard input and output, or a
//! switch, which connects to a controller.
//!
//! Its word is `learn` (a learning switch), `clean` (it deletes the flows to a port that went down), `close` and `garble`
//! (they do nothing, and fail at their second event), or `switch` with a port of the loopback address. An application ends
//! with status 0 at the end of its input. With other words the program writes nothing and ends with status 2.
#![tactic(auto)]

use demo_parts::perform;
use std::process::ExitCode;
use std::{env, io};

/// The status where the words name no part.
const NO_PART: u8 = 2;

/// The status where the words cannot be read.
const FAILED: u8 = 1;

/// Plays the part of the words, and answers the status.
fn run(rt: &HostRuntime) -> io::Result<u8> {
    let words: Vec<String> = env::args(rt)?.skip(1).collect(rt.alloc())?;
    Ok(perform(rt, &words).unwrap_or(NO_PART))
}

fn main(rt: HostRuntime) -> ExitCode {
    ExitCode::from(run(&rt).unwrap_or(FAILED))
}
