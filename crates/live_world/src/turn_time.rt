//! How long an application may talk.

ghost use Rattle.std.specs.Prelude.{◌≡◌};
ghost use Rattle.live_world.specs.TurnTimes.{begins_turn, turn_end, take_end};

use crate::deadline::{CALL_MILLISECONDS, Deadline};
use of_types::get_u8;

/// How many milliseconds a turn has, from its Event to its Done.
const TURN_MILLISECONDS: u64 = 10_000;

/// The kind of the frame Event, behind the four bytes of a frame's length.
const EVENT: u8 = 2;

/// Whether these bytes for an application begin with the frame Event.
fn begins_turn(bytes: &[u8]) -> bool
    ensures { result ≡ begins_turn bytes.now }
{
    bytes.len() > 4 && get_u8(bytes, 4) == EVENT
}

/// Until when the application is heard, once it is given these bytes.
pub(crate) fn turn_end(until: Deadline, bytes: &[u8], now: u64) -> Deadline
    ensures { result ≡ record { at = turn_end until.at bytes.now now } }
{
    if begins_turn(bytes) {
        Deadline::after(now, TURN_MILLISECONDS)
    } else {
        until
    }
}

/// Until when a byte of it is awaited, of which nothing came up to now.
pub(crate) fn take_end(until: Deadline, now: u64) -> Deadline
    ensures { result ≡ record { at = take_end until.at now } }
{
    Deadline::after(now, CALL_MILLISECONDS).earlier(until)
}
