//! Changes of a table.

ghost use Rattle.std.specs.Prelude.{◌≡◌, ◌<◌, ◌≤◌, ◌+◌, ◌-◌, ◌^◌};

use flow_table::{ChangeFault, Entry, Notice, Table};
use of_action::{Action, ActionList};
use of_match::Match;
use of_types::{OfError, flows, ports};
use of_wire::FlowMod;
use std::alloc::{AllocError, Global};
use std::test::Fail;

/// The packets of a match (5.2.3): its wildcards, and its in_port.
pub(super) type Packets = (u32, u8);

pub(super) const ANY: Packets = (0x0038_20ff, 0);

pub(super) const PORT_1: Packets = (0x0038_20fe, 1);

pub(super) const PORT_2: Packets = (0x0038_20fe, 2);

/// The packets of that port with 0 in every other field.
pub(super) const EXACT_1: Packets = (0, 1);

pub(super) const EXACT_2: Packets = (0, 2);

pub(super) fn matching((wildcards, in_port): Packets) -> Match {
    let [_, high, middle, low] = wildcards.to_be_bytes();
    let mut bytes = [0; 40];
    bytes[1] = high;
    bytes[2] = middle;
    bytes[3] = low;
    bytes[5] = in_port;
    Match::decode(&bytes)
}

/// A FLOW_MOD (5.3.3): its command, its priority and packets, flags, cookie, timeouts (idle and hard), and out_port. Its action
/// is an OUTPUT to the port whose number is the cookie.
#[derive(Clone, Copy)]
pub(super) struct Change(
    pub u16,
    pub (u16, Packets),
    pub u16,
    pub u16,
    pub (u16, u16),
    pub u16,
);

pub(super) fn flow_mod(alloc: Global, change: Change) -> Result<FlowMod, AllocError> {
    let Change(command, (priority, packets), flags, cookie, (idle, hard), out_port) = change;
    let mut actions = Vec::new(alloc);
    actions.push(Action::Output {
        port: cookie,
        max_len: 0,
    })?;
    Ok(FlowMod {
        matching: matching(packets),
        cookie: u64::from(cookie),
        command,
        idle,
        hard,
        priority,
        buffer_id: flows::NO_BUFFER,
        out_port,
        flags,
        actions: ActionList::from_vec(actions),
    })
}

/// The port of the only action.
fn output(actions: &ActionList) -> u64 {
    match actions.as_slice() {
        [Action::Output { port, .. }] => u64::from(*port),
        _ => 0,
    }
}

/// Of an entry: priority, cookie, output, flags, moment, packets, serial, bytes, and the moment of its last use.
pub(super) type Row = [u64; 9];

/// Whether these are the entries.
pub(super) fn are_entries(entries: &[Entry], wants: &[Row]) -> bool {
    if entries.len() != wants.len() {
        return false;
    }
    for k in 0..entries.len() {
        let e = &entries[k];
        let row = [
            u64::from(e.key.priority),
            e.cookie,
            output(&e.actions),
            u64::from(e.flags),
            e.installed,
            e.packets,
            e.serial,
            e.bytes,
            e.used,
        ];
        if row != wants[k] {
            return false;
        }
    }
    true
}

/// Whether these are the notices: of each its cookie, reason and duration.
pub(super) fn are_told(notices: &[Notice], wants: &[[u64; 3]]) -> bool {
    if notices.len() != wants.len() {
        return false;
    }
    for k in 0..notices.len() {
        let n = &notices[k];
        if [n.removed.cookie, u64::from(n.reason), n.duration] != wants[k] {
            return false;
        }
    }
    true
}

/// Whether the error has this kind and code, in place of one notice.
pub(super) fn is_refused(error: &OfError, wants: &[[u64; 3]]) -> bool {
    wants == [[u64::from(error.kind), u64::from(error.code), 0]].as_slice()
}

/// A change, its moment, and how many entries the table takes; then the answer, by notices or an error, and the entries.
type Step = (Change, u64, u32, &'static [[u64; 3]], &'static [Row]);

const IN_A_FULL_TABLE: [Step; 5] = [
    (
        Change(flows::ADD, (5, PORT_1), 0, 1, (0, 0), ports::NONE),
        0,
        1,
        &[],
        &[[5, 1, 1, 0, 0, 0, 0, 0, 0]],
    ),
    (
        Change(flows::ADD, (5, PORT_2), 2, 2, (0, 0), ports::NONE),
        1,
        1,
        &[[3, 0, 0]],
        &[[5, 1, 1, 0, 0, 0, 0, 0, 0]],
    ),
    (
        Change(flows::ADD, (5, ANY), 2, 2, (0, 0), ports::NONE),
        2,
        1,
        &[[3, 1, 0]],
        &[[5, 1, 1, 0, 0, 0, 0, 0, 0]],
    ),
    (
        Change(5, (5, PORT_1), 0, 2, (0, 0), ports::NONE),
        3,
        1,
        &[[3, 4, 0]],
        &[[5, 1, 1, 0, 0, 0, 0, 0, 0]],
    ),
    (
        Change(flows::ADD, (5, PORT_1), 1, 3, (0, 0), ports::NONE),
        4,
        1,
        &[],
        &[[5, 3, 3, 1, 4, 0, 1, 0, 4]],
    ),
];

const MODIFY_AND_DELETE: [Step; 5] = [
    (
        Change(flows::ADD, (10, PORT_1), 3, 1, (0, 0), ports::NONE),
        0,
        9,
        &[],
        &[[10, 1, 1, 1, 0, 0, 0, 0, 0]],
    ),
    (
        Change(flows::MODIFY, (0, ANY), 0, 2, (0, 0), ports::NONE),
        1,
        9,
        &[],
        &[[10, 1, 2, 1, 0, 7, 0, 70, 0]],
    ),
    (
        Change(
            flows::MODIFY_STRICT,
            (11, PORT_1),
            1,
            3,
            (0, 0),
            ports::NONE,
        ),
        2,
        9,
        &[],
        &[
            [11, 3, 3, 1, 2, 0, 1, 0, 2],
            [10, 1, 2, 1, 0, 14, 0, 140, 0],
        ],
    ),
    (
        Change(flows::DELETE_STRICT, (11, PORT_1), 0, 0, (0, 0), 2),
        3,
        9,
        &[],
        &[
            [11, 3, 3, 1, 2, 0, 1, 0, 2],
            [10, 1, 2, 1, 0, 21, 0, 210, 0],
        ],
    ),
    (
        Change(flows::DELETE, (0, ANY), 0, 0, (0, 0), ports::NONE),
        9,
        9,
        &[[3, 2, 7], [1, 2, 9]],
        &[],
    ),
];

/// Whether a table answers so to a change.
fn answers(
    table: &mut Table,
    flow: &FlowMod,
    now: u64,
    cap: u32,
    wants: &[[u64; 3]],
) -> Result<bool, AllocError>
    requires { table.old.next < 2 ^ 64 - 1 }
    ensures { table.new.next ≤ table.old.next + 1 }
{
    match table.change(flow, now, cap) {
        Ok(notices) => Ok(are_told(notices.as_slice(), wants)),
        Err(ChangeFault::Refused(error)) => Ok(is_refused(&error, wants)),
        Err(ChangeFault::NoMemory) => Err(AllocError),
    }
}

/// Counts 7 packets of 10 bytes at each entry of priority 10, makes the change, and says whether the answer and then the
/// entries are these.
fn goes(alloc: Global, table: &mut Table, step: Step) -> Result<bool, AllocError>
    requires { table.old.next < 2 ^ 64 - 1 }
    ensures { table.new.next ≤ table.old.next + 1 }
{
    let (change, now, cap, notices, entries) = step;
    let flow = flow_mod(alloc, change)?;
    table.add_counts(10, 7, 70);
    let told = answers(table, &flow, now, cap, notices)?;
    Ok(told && are_entries(table.entries(), entries))
}

/// The first of changes that goes otherwise, counted from 0.
fn first_wrong(
    alloc: Global,
    table: &mut Table,
    steps: &[Step],
) -> Result<Option<usize>, AllocError>
    requires { table.old.next ≡ 0 }
{
    for k in 0..steps.len().min(1_000) {
        if !goes(alloc, table, steps[k])? {
            return Ok(Some(k));
        }
    }
    Ok(None)
}

#[test]
fn changes_of_a_table(rt: HostRuntime) -> Result<(), Fail> {
    let mut table = Table::new(rt.alloc())?;
    let full = first_wrong(rt.alloc(), &mut table, &IN_A_FULL_TABLE)?;
    let mut table = Table::new(rt.alloc())?;
    let other = first_wrong(rt.alloc(), &mut table, &MODIFY_AND_DELETE)?;
    assert!(rt; full.is_none() && other.is_none(), "{full:?} {other:?}");
    Ok(())
}
