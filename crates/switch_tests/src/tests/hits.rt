//! Packets that hit entries, entries that go, and lists of calls.

use super::entries::{
    ANY, Change, EXACT_1, PORT_1, PORT_2, Packets, Row, are_entries, are_told, flow_mod,
    is_refused, matching,
};
use flow_table::{Table, TableAnswer, TableCall, is_plan, run};
use of_match::PacketKey;
use of_types::{flows, ports};
use std::alloc::{AllocError, Global};
use std::test::Fail;

/// A call of a table.
#[derive(Clone, Copy)]
pub(super) enum Call {
    /// An ADD at moment 0, in a table of 9 entries: its priority and packets, flags, cookie and timeouts.
    Add((u16, Packets), u16, u16, (u16, u16)),
    /// A change at a moment, in a table of so many entries.
    Make(Change, u64, u32),
    /// A packet of a port, with 0 in every other field, of so many bytes, at a moment.
    Hit(u16, u32, u64),
    /// A moment comes.
    Expire(u64),
    /// To each entry of a priority come so many packets and bytes.
    Count(u16, u64, u64),
}

/// A packet of that port, with 0 in every other field.
fn packet(in_port: u16) -> PacketKey {
    PacketKey {
        in_port,
        dl_src: [0; 6],
        dl_dst: [0; 6],
        dl_vlan: 0,
        dl_vlan_pcp: 0,
        dl_type: 0,
        nw_tos: 0,
        nw_proto: 0,
        nw_src: 0,
        nw_dst: 0,
        tp_src: 0,
        tp_dst: 0,
    }
}

/// A change at a moment, in a table of so many entries.
fn table_change(
    alloc: Global,
    change: Change,
    now: u64,
    cap: u32,
) -> Result<TableCall, AllocError> {
    let flow = flow_mod(alloc, change)?;
    Ok(TableCall::Change { flow, now, cap })
}

/// The call, as the table takes it.
pub(super) fn table_call(alloc: Global, call: Call) -> Result<TableCall, AllocError> {
    match call {
        Call::Add(key, flags, cookie, timeouts) => {
            let change = Change(flows::ADD, key, flags, cookie, timeouts, ports::NONE);
            table_change(alloc, change, 0, 9)
        }
        Call::Make(change, now, cap) => table_change(alloc, change, now, cap),
        Call::Hit(in_port, len, now) => Ok(TableCall::Hit {
            key: packet(in_port),
            len,
            now,
        }),
        Call::Expire(now) => Ok(TableCall::Expire { now }),
        Call::Count(priority, packets, bytes) => Ok(TableCall::AddCounts {
            priority,
            packets,
            bytes,
        }),
    }
}

fn table_calls(alloc: Global, calls: &[Call]) -> Result<Vec<TableCall>, AllocError> {
    let mut all = Vec::new(alloc);
    for call in calls {
        all.push(table_call(alloc, *call)?)?;
    }
    Ok(all)
}

/// Calls of a new table, and what comes of them.
#[derive(Clone, Copy)]
struct Case {
    calls: &'static [Call],
    /// Of each call: the notices, by cookie, reason and duration; or the kind and code of an error; or where the entry stands that
    /// the packet hit, counted from 1. If there are none, the calls are no plan.
    answers: &'static [&'static [[u64; 3]]],
    /// The entries in the end.
    entries: &'static [Row],
    /// Packets and an out_port, and where the entries stand that they select.
    selected: &'static [(Packets, u16, &'static [usize])],
}

const CASES: [Case; 4] = [
    // Port 1 hits the exact match of priority 1, port 2 the lesser key of two of priority 9: the greatest rank, then the least key.
    Case {
        calls: &[
            Call::Add((1, EXACT_1), 0, 1, (0, 0)),
            Call::Add((9, ANY), 0, 2, (0, 0)),
            Call::Add((9, PORT_2), 0, 3, (0, 0)),
            Call::Add((7, PORT_1), 0, 4, (0, 0)),
            Call::Hit(1, 60, 5),
            Call::Hit(2, 70, 6),
            Call::Hit(3, 80, 7),
            Call::Count(9, 10, 100),
        ],
        answers: &[
            &[],
            &[],
            &[],
            &[],
            &[[4, 0, 0]],
            &[[1, 0, 0]],
            &[[2, 0, 0]],
            &[],
        ],
        entries: &[
            [9, 3, 3, 0, 0, 11, 2, 170, 6],
            [9, 2, 2, 0, 0, 11, 1, 180, 7],
            [7, 4, 4, 0, 0, 0, 3, 0, 0],
            [1, 1, 1, 0, 0, 1, 0, 60, 5],
        ],
        selected: &[],
    },
    // Notices come by deadlines, then by keys.
    Case {
        calls: &[
            Call::Add((9, ANY), 1, 1, (15, 0)),
            Call::Add((8, ANY), 1, 2, (10, 10)),
            Call::Add((7, PORT_1), 0, 3, (9, 0)),
            Call::Add((7, PORT_2), 1, 4, (10, 12)),
            Call::Add((6, ANY), 1, 5, (0, 16)),
            Call::Add((5, ANY), 1, 6, (0, 0)),
            Call::Expire(8),
            Call::Expire(15),
        ],
        answers: &[
            &[],
            &[],
            &[],
            &[],
            &[],
            &[],
            &[],
            &[[2, 1, 10], [4, 0, 10], [1, 0, 15]],
        ],
        entries: &[[6, 5, 5, 1, 0, 0, 4, 0, 0], [5, 6, 6, 1, 0, 0, 5, 0, 0]],
        selected: &[],
    },
    // A refusal; entries are selected by their match, and by an OUTPUT.
    Case {
        calls: &[
            Call::Add((9, PORT_1), 0, 7, (0, 0)),
            Call::Add((6, PORT_2), 0, 7, (0, 0)),
            Call::Make(Change(9, (6, ANY), 1, 8, (0, 0), ports::NONE), 1, 2),
        ],
        answers: &[&[], &[], &[[3, 4, 0]]],
        entries: &[[9, 7, 7, 0, 0, 0, 0, 0, 0], [6, 7, 7, 0, 0, 0, 1, 0, 0]],
        selected: &[
            (ANY, 7, &[0, 1]),
            (PORT_2, ports::NONE, &[1]),
            (ANY, 8, &[]),
        ],
    },
    // A moment may not go back.
    Case {
        calls: &[
            Call::Add((9, PORT_1), 0, 7, (0, 0)),
            Call::Add((6, PORT_2), 0, 7, (0, 0)),
            Call::Hit(1, 60, 5),
            Call::Expire(4),
        ],
        answers: &[],
        entries: &[],
        selected: &[],
    },
];

fn is_answer(answer: &TableAnswer, wants: &[[u64; 3]]) -> bool {
    match answer {
        TableAnswer::Changed(notices) | TableAnswer::Expired(notices) => are_told(
            notices.as_slice(),
            wants,
        ),
        TableAnswer::Refused(error) => is_refused(error, wants),
        TableAnswer::Hit(Some(place)) => wants == [[place.wrapping_add(1) as u64, 0, 0]].as_slice(),
        TableAnswer::Hit(None) | TableAnswer::Counted => wants.is_empty(),
    }
}

fn are_answers(answers: &[TableAnswer], wants: &[&[[u64; 3]]]) -> bool {
    if answers.len() != wants.len() {
        return false;
    }
    for k in 0..answers.len() {
        if !is_answer(&answers[k], wants[k]) {
            return false;
        }
    }
    true
}

/// Whether each of these selects those entries.
fn are_selected(table: &Table, wants: &[(Packets, u16, &[usize])]) -> Result<bool, AllocError> {
    for (packets, out_port, places) in wants {
        let selected = table.select(&matching(*packets), *out_port)?;
        if selected.as_slice() != *places {
            return Ok(false);
        }
    }
    Ok(true)
}

/// Whether the calls of a case are answered so, and leave this.
fn is_right(alloc: Global, case: &Case) -> Result<bool, AllocError> {
    let calls = table_calls(alloc, case.calls)?;
    let calls = calls.as_slice();
    let mut table = Table::new(alloc)?;
    if !is_plan(&table, calls) {
        return Ok(case.answers.is_empty());
    }
    let answers = run(alloc, &mut table, calls)?;
    Ok(
        are_answers(&answers, case.answers)
            && are_entries(table.entries(), case.entries)
            && are_selected(&table, case.selected)?,
    )
}

/// The first case that goes otherwise, counted from 0.
fn first_wrong(alloc: Global, cases: &[Case]) -> Result<Option<usize>, AllocError> {
    for k in 0..cases.len() {
        if !is_right(alloc, &cases[k])? {
            return Ok(Some(k));
        }
    }
    Ok(None)
}

#[test]
fn calls_of_a_table(rt: HostRuntime) -> Result<(), Fail> {
    let wrong = first_wrong(rt.alloc(), &CASES)?;
    assert!(rt; wrong.is_none(), "case {wrong:?}");
    Ok(())
}
