//! A table, and the plain body of the same definitions, over calls that look drawn.

ghost use Rattle.std.specs.Prelude.{◌≤◌, All, IsTrue};
ghost use Rattle.flow_table.specs.Table.{IsMoment};

use super::entries::{ANY, Change, EXACT_1, EXACT_2, PORT_1, PORT_2};
use super::hits::{Call, table_call};
use flow_table::{
    ChangeFault, Entry, NoticeList, Table, TableAnswer, TableCall, is_plan, plain, run,
};
use flow_timeouts::LAST_MOMENT;
use of_types::ports;
use std::alloc::{AllocError, Global};
use std::test::Fail;

/// Numbers that look drawn: a linear congruence.
#[derive(Clone, Copy)]
struct Draw {
    state: u64,
}

impl Draw {
    /// The next number, below 2^16.
    fn next(&mut self) -> u16 {
        self.state = self
            .state
            .wrapping_mul(6_364_136_223_846_793_005)
            .wrapping_add(1_442_695_040_888_963_407);
        ((self.state >> 40) % 65_536) as u16
    }
}

fn some_change(draw: &mut Draw) -> Change {
    let command = draw.next() % 6;
    let priority = draw.next() % 4;
    let flags = draw.next() % 4;
    let cookie = draw.next() % 3;
    let packets = match draw.next() % 5 {
        0 => EXACT_1,
        1 => EXACT_2,
        2 => PORT_1,
        3 => PORT_2,
        _ => ANY,
    };
    let idle = draw.next() % 9;
    let hard = draw.next() % 13;
    let out_port = match draw.next() % 4 {
        0 => 1,
        _ => ports::NONE,
    };
    Change(
        command,
        (priority, packets),
        flags,
        cookie,
        (idle, hard),
        out_port,
    )
}

fn some_call(draw: &mut Draw, now: u64) -> Call {
    match draw.next() % 8 {
        0 => Call::Expire(now),
        1 | 2 => Call::Hit(draw.next() % 3, 60, now),
        _ => Call::Make(some_change(draw), now, 7),
    }
}

/// So many calls, each up to two seconds after the one before it.
fn some_calls(alloc: Global, count: u16) -> Result<Vec<TableCall>, AllocError> {
    let mut draw = Draw { state: 7 };
    let mut now = 0u64;
    let mut calls = Vec::new(alloc);
    for _ in 0..count {
        now = now.wrapping_add(u64::from(draw.next() % 3));
        calls.push(table_call(alloc, some_call(&mut draw, now))?)?;
    }
    Ok(calls)
}

/// Entries that the plain body keeps, and the next serial.
#[derive(Drop)]
struct Plain {
    entries: Vec<Entry>,
    next: u64,
}

/// The last moment at which an entry was put in or used; 0 in an empty table.
fn latest(entries: &[Entry]) -> u64
    ensures installed { All (λ e. e.installed ≤ result) entries.now }
    ensures used { All (λ e. e.used ≤ result) entries.now }
{
    let mut last = 0u64;
    for entry in entries {
        last = last.max(entry.installed).max(entry.used);
    }
    last
}

/// Whether a moment is within the last one, and no entry was put in or used after it.
fn is_moment(entries: &[Entry], now: u64) -> bool
    ensures { IsTrue result → IsMoment now entries.now }
{
    now <= LAST_MOMENT && latest(entries) <= now
}

/// Makes a call of the plain body, and says whether it may be made and is answered so; where a packet hit is not looked at.
fn agrees(
    alloc: Global,
    state: &mut Plain,
    call: &TableCall,
    answer: &TableAnswer,
) -> Result<bool, AllocError> {
    match call {
        TableCall::Change { flow, now, cap } if state.next < 1_000_000 => {
            match plain::change(alloc, &state.entries, state.next, flow, *now, *cap) {
                Ok(changed) => {
                    state.entries = changed.entries;
                    state.next = changed.next;
                    let notices = NoticeList::from_vec(changed.notices);
                    Ok(*answer == TableAnswer::Changed(notices))
                }
                Err(ChangeFault::Refused(error)) => Ok(*answer == TableAnswer::Refused(error)),
                Err(ChangeFault::NoMemory) => Err(AllocError),
            }
        }
        TableCall::Hit { key, len, now } => {
            state.entries = plain::hit(alloc, &state.entries, key, *len, *now)?;
            Ok(matches!(answer, TableAnswer::Hit(_)))
        }
        TableCall::Expire { now } => {
            let entries = state.entries.as_slice();
            if !is_moment(entries, *now) {
                return Ok(false);
            }
            let (left, notices) = plain::expire(alloc, entries, *now)?;
            state.entries = left;
            Ok(*answer == TableAnswer::Expired(NoticeList::from_vec(notices)))
        }
        _ => Ok(false),
    }
}

/// Whether the plain body answers to calls as a table did, and is left with the same entries.
fn all_agree(
    alloc: Global,
    calls: &[TableCall],
    answers: &[TableAnswer],
    entries: &[Entry],
) -> Result<bool, AllocError> {
    let mut state = Plain {
        entries: Vec::new(alloc),
        next: 0,
    };
    if calls.len() != answers.len() {
        return Ok(false);
    }
    for k in 0..calls.len() {
        if !agrees(alloc, &mut state, &calls[k], &answers[k])? {
            return Ok(false);
        }
    }
    Ok(state.entries.as_slice() == entries)
}

/// Whether so many calls may be made of a new table, and the plain body agrees.
fn is_agreed(alloc: Global, count: u16) -> Result<bool, AllocError> {
    let calls = some_calls(alloc, count)?;
    let calls = calls.as_slice();
    let mut table = Table::new(alloc)?;
    if !is_plan(&table, calls) {
        return Ok(false);
    }
    let answers = run(alloc, &mut table, calls)?;
    all_agree(alloc, calls, &answers, table.entries())
}

#[test]
fn a_slow_body_agrees(rt: HostRuntime) -> Result<(), Fail> {
    assert!(rt; is_agreed(rt.alloc(), 600)?);
    Ok(())
}
