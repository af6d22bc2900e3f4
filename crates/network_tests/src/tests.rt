use app_frames::EventKind;
use outside::CallKind;
use outside::CallKind::{Give, Link, Next, Open, Short, Start, TakeClosed, TakeSilent};
use std::alloc::{AllocError, Global};
use std::test::Fail;

mod calls;
mod ended;
mod failing;
mod messages;
mod plays;
mod releases;
mod worlds;

use ended::Ended;
use ended::Ended::{
    Event, Fine, Lost, NoEvent, NoMemory, NoRow, NoneKept, NotMade, Removed, Row, SwitchBroke,
    Unknown,
};
use failing::answers_in;
use messages::{BROKEN, ECHO_REQUEST, ERROR, HELLO, PACKET_IN, PORT_DOWN};
use plays::Play::{Arrive, Keep, Leave, Lose, Release, Undo, Wait};
use plays::{Play, played};
use worlds::small_world;

/// Tells whether these calls were made, and no more.
fn are_made(found: &[Ended; 5], made: &[Ended]) -> bool {
    for (at, end) in found.iter().enumerate() {
        if *end != made.get(at).copied().unwrap_or(NotMade) {
            return false;
        }
    }
    true
}

/// Tells whether the calls of a play end so in a world where a call is to fail, if one is named.
fn ends_so(
    alloc: Global,
    what: Play,
    fails: Option<(CallKind, u64)>,
    ends: &[Ended],
) -> Result<bool, AllocError> {
    let found = played(alloc, small_world(alloc, fails)?, what);
    Ok(are_made(&found, ends))
}

/// Tells the same where a call of the world has no memory, of these numbers each in turn.
fn ends_so_each_time(
    alloc: Global,
    what: Play,
    (first, last): (u64, u64),
    ends: &[Ended],
) -> Result<bool, AllocError> {
    for number in first..=last {
        if !ends_so(alloc, what, Some((Short, number)), ends)? {
            return Ok(false);
        }
    }
    Ok(true)
}

/// The row of a change.
const ROW: Ended = Row {
    priority: 7,
    cookie: 5,
};

/// Two packets of two bytes each.
const OUT: Ended = Ended::Released {
    packets: 2,
    bytes: 4,
};

/// What is told of a packet for the controller.
const TOLD: Ended = Event(EventKind::PacketIn);

/// What is told of a switch that left or was lost.
const LEFT: Ended = Event(EventKind::Leave);

/// What is played, which calls of the world have no memory, one at a time, and how the calls of the play end.
///
/// The world's are what comes next, and the link's. These are four of the join, three of the change, four of its undo and four
/// for the rows; of a release four for each packet: it, the barrier, the PACKET_IN and the reply. The last row of each is the call behind them.
/// A change that was not sent is not there, and an inverse that was not sent leaves it. What came of a packet is taken behind the reply.
static WANTING: [(Play, (u64, u64), &[Ended]); 15] = [
    (Keep, (1, 5), &[NoMemory]),
    (Keep, (6, 6), &[NoMemory, Fine, NoRow]),
    (Keep, (7, 8), &[NoMemory, Fine, ROW]),
    (Keep, (9, 12), &[Fine, Fine, NoMemory]),
    (Keep, (13, 13), &[Fine, Fine, ROW]),
    (Undo, (1, 5), &[NoMemory]),
    (Undo, (6, 8), &[NoMemory, Fine, NoRow]),
    (Undo, (9, 9), &[Fine, NoMemory, ROW]),
    (Undo, (10, 12), &[Fine, NoMemory, NoRow]),
    (Undo, (13, 16), &[Fine, Fine, NoMemory]),
    (Undo, (17, 17), &[Fine, Fine, NoRow]),
    (Release, (1, 5), &[NoMemory]),
    (Release, (6, 9), &[Fine, Fine, NoMemory, NoEvent, NoEvent]),
    (Release, (10, 13), &[Fine, Fine, NoMemory, TOLD, NoEvent]),
    (Release, (14, 14), &[Fine, Fine, OUT, TOLD, TOLD]),
];

#[test]
fn memory_is_wanting_in_turn(rt: HostRuntime) -> Result<(), Fail> {
    for (what, numbers, ends) in &WANTING {
        let as_expected = ends_so_each_time(rt.alloc(), *what, *numbers, ends)?;
        assert!(rt; as_expected, "{numbers:?}");
    }
    Ok(())
}

/// What is played, which call is to fail, and how the calls of the play end.
///
/// Switch 1 says something of itself, leaves, is lost at a change, in an undo or not at all, or says something while
/// something else is awaited. Of an ECHO_REQUEST only the answer is sent. The notice of an entry is kept, but of a switch that is lost nothing is;
/// where memory is wanting, the notice was not got, or it was, but not the reply to the barrier.
static TELLING: [(Play, Option<(CallKind, u64)>, &[Ended]); 17] = [
    (Arrive(&HELLO), None, &[NoEvent]),
    (Arrive(&BROKEN), None, &[SwitchBroke(1)]),
    (Arrive(&ECHO_REQUEST), None, &[NoEvent]),
    (Arrive(&ECHO_REQUEST), Some((Link, 5)), &[Lost]),
    (Arrive(&ECHO_REQUEST), Some((Short, 6)), &[NoMemory]),
    (Arrive(&PACKET_IN), Some((Link, 5)), &[TOLD]),
    (
        Arrive(&ERROR),
        Some((Link, 5)),
        &[Event(EventKind::SwitchError)],
    ),
    (
        Arrive(&PORT_DOWN),
        Some((Link, 5)),
        &[Event(EventKind::PortStatus)],
    ),
    (Leave, None, &[LEFT, Unknown]),
    (Lose, Some((Link, 6)), &[Unknown, Fine, LEFT, NoEvent]),
    (Lose, Some((Link, 9)), &[Fine, Fine, LEFT, NoEvent]),
    (Lose, Some((Link, 12)), &[Fine, Fine, NoEvent, NoEvent]),
    (Wait, None, &[Fine, Fine, Removed(1), NoneKept]),
    (Wait, Some((Link, 10)), &[Fine, Unknown, NoneKept, NoneKept]),
    (Wait, Some((Link, 11)), &[Fine, Unknown, NoneKept, NoneKept]),
    (
        Wait,
        Some((Short, 13)),
        &[Fine, NoMemory, NoneKept, NoneKept],
    ),
    (
        Wait,
        Some((Short, 14)),
        &[Fine, NoMemory, Removed(1), NoneKept],
    ),
];

#[test]
fn switches_tell_and_leave(rt: HostRuntime) -> Result<(), Fail> {
    for (what, fails, ends) in &TELLING {
        let as_expected = ends_so(rt.alloc(), *what, *fails, ends)?;
        assert!(rt; as_expected, "{fails:?}");
    }
    Ok(())
}

const YES: bool = true;

const NO: bool = false;

/// Which call of a world is to fail, and which of ten calls then answer as they do where none fails.
static ANSWERING: [(Option<(CallKind, u64)>, [bool; 10]); 11] = [
    (None, [YES; 10]),
    (
        Some((Open, 1)),
        [NO, YES, YES, YES, YES, YES, YES, YES, YES, YES],
    ),
    (
        Some((Next, 1)),
        [YES, NO, YES, YES, YES, YES, NO, NO, NO, NO],
    ),
    (
        Some((Next, 3)),
        [YES, YES, YES, YES, YES, YES, YES, YES, YES, NO],
    ),
    (
        Some((Short, 1)),
        [NO, YES, YES, YES, YES, YES, YES, YES, YES, YES],
    ),
    (
        Some((Start, 1)),
        [YES, YES, NO, NO, NO, NO, YES, YES, YES, YES],
    ),
    (
        Some((Give, 1)),
        [YES, YES, YES, YES, NO, NO, YES, YES, YES, YES],
    ),
    (
        Some((TakeClosed, 1)),
        [YES, YES, YES, NO, YES, YES, YES, YES, YES, YES],
    ),
    (
        Some((TakeSilent, 2)),
        [YES, YES, YES, YES, YES, NO, YES, YES, YES, YES],
    ),
    (
        Some((Link, 1)),
        [YES, YES, YES, YES, YES, YES, NO, NO, YES, YES],
    ),
    (
        Some((Link, 2)),
        [YES, YES, YES, YES, YES, YES, YES, NO, YES, YES],
    ),
];

/// Tells whether the calls of a world answer so where one is to fail, if one is named.
fn answers_so(
    alloc: Global,
    fails: Option<(CallKind, u64)>,
    answers: &[bool; 10],
) -> Result<bool, AllocError> {
    let found = answers_in(alloc, small_world(alloc, fails)?)?;
    Ok(found == *answers)
}

#[test]
fn calls_fail_as_told(rt: HostRuntime) -> Result<(), Fail> {
    for (fails, answers) in &ANSWERING {
        let as_expected = answers_so(rt.alloc(), *fails, answers)?;
        assert!(rt; as_expected, "{fails:?}");
    }
    Ok(())
}
