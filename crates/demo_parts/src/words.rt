//! Which part words name.

use crate::part::Part;
use crate::playing::play;
use crate::switch::{Arrival, connect, play_over};
use lego_io::{StdSink, StdSource};
use std::alloc::AllocError;
use std::io;
use std::io::Read;
use std::net::Net;

/// The status where memory ran out, or input or output failed.
const FAILED: u8 = 1;

fn try_part<I: Read + Drop, R: Input<Reader = I> + Print + AllocGlobal>(
    rt: &R,
    part: Part,
) -> Result<u8, AllocError> {
    let mut source = StdSource::new(rt, rt.alloc())?;
    let mut sink = StdSink::new(rt, rt.alloc())?;
    play(rt.alloc(), part, &mut source, &mut sink)
}

/// Plays an application over the standard streams, and answers the status: 0 at the end of the input, and where the
/// application ends itself.
pub fn play_part<I: Read + Drop, R: Input<Reader = I> + Print + AllocGlobal>(
    rt: &R,
    part: Part,
) -> u8 {
    try_part(rt, part).unwrap_or(FAILED)
}

fn try_switch<R: Net + AllocGlobal>(rt: &R, port: u16, arrival: Arrival) -> io::Result<u8> {
    let mut stream = connect(rt, port)?;
    play_over(rt.alloc(), &mut stream, arrival)
}

/// Plays switch 1, with room for 64 entries and with the ports 1 and 2, at the controller of this port of the loopback
/// address, until the connection ends. Answers the status: 0, or 1 where there is no connection, or where something comes
/// that is no message. Time does not pass for the switch.
pub fn play_switch<R: Net + AllocGlobal>(rt: &R, port: u16, arrival: Arrival) -> u8 {
    try_switch(rt, port, arrival).unwrap_or(FAILED)
}

/// Plays the part that the words name, to its end, and answers the status. `None` if they name none.
///
/// The words are `learn`, `clean`, `close` or `garble`, alone, or `switch` with a port of the loopback address.
pub fn perform<I: Read + Drop, R: Input<Reader = I> + Print + Net + AllocGlobal>(
    rt: &R,
    words: &[String],
) -> Option<u8> {
    match words {
        [word] => {
            let part = Part::named(rt.alloc(), word.as_str())?;
            Some(play_part(rt, part))
        }
        [word, port] if word.as_str() == "switch" => match port.parse() {
            Ok(port) => Some(play_switch(rt, port, Arrival::Apart)),
            Err(_) => None,
        },
        _ => None,
    }
}
