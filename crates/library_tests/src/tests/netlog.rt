//! Plans, and the log of images: each allocating call once with ample memory.

ghost use Rattle.std.specs.Prelude.{◌≤◌, length, IfOk};
ghost use Rattle.netlog_inverse.specs.Plans.{AreShowable};

use super::key;
use counter_cache::Cache;
use flow_table::{TableView, ViewList, ViewRow};
use netlog_inverse::{Image, Inverse, Log, Logged, Mark, PlanFault, plan};
use of_action::ActionList;
use of_match::Match;
use of_stats::{FlowRow, RowList};
use of_types::{flows, ports};
use of_wire::FlowMod;
use std::alloc::{AllocError, Global};
use std::test::Fail;

/// A FLOW_MOD of all packets, without actions.
fn change(alloc: Global, command: u16) -> FlowMod {
    FlowMod {
        matching: Match::any(),
        cookie: 9,
        command,
        idle: 0,
        hard: 60,
        priority: 7,
        buffer_id: flows::NO_BUFFER,
        out_port: ports::NONE,
        flags: 0,
        actions: ActionList::new(alloc),
    }
}

/// A view without entries.
fn empty(alloc: Global) -> TableView
    ensures { AreShowable result.rows.rows }
{
    TableView {
        dpid: 1,
        rows: ViewList::new(alloc),
    }
}

/// A view of one entry, without actions, that goes after a minute.
fn view(alloc: Global) -> Result<TableView, AllocError>
    ensures { IfOk result (λ v. AreShowable v.rows.rows) }
{
    let mut rows = Vec::new(alloc);
    rows.push(ViewRow {
        key: key(),
        actions: ActionList::new(alloc),
        cookie: 9,
        idle: 0,
        hard: 60,
        flags: 0,
    })?;
    Ok(TableView {
        dpid: 1,
        rows: ViewList::from_vec(rows),
    })
}

/// What the switch reports of it after 20 seconds.
fn reported(alloc: Global) -> Result<RowList, AllocError> {
    let mut rows = Vec::new(alloc);
    rows.push(FlowRow {
        key: key(),
        duration_sec: 20,
        idle: 0,
        hard: 60,
        cookie: 9,
        packets: 3,
        bytes: 180,
        actions: ActionList::new(alloc),
    })?;
    Ok(RowList::from_vec(rows))
}

/// What is planned for such a FLOW_MOD where nothing was lost before.
fn planned(
    alloc: Global,
    command: u16,
    view: &TableView,
    rows: &RowList,
) -> Result<Inverse, PlanFault>
    requires { AreShowable view.now.rows.rows }
{
    let cache = Cache::new(alloc)?;
    plan(alloc, &change(alloc, command), view, &cache, rows)
}

/// Whether it is a DELETE_STRICT alone, of 72 bytes with the command 4.
fn is_delete_alone(image: &Image) -> bool {
    let delete = image.delete.as_slice();
    delete.len() == 72 && delete[57] == 4 && image.add.is_empty()
}

/// Whether an ADD at a new key is undone by a DELETE_STRICT.
fn plans_delete(alloc: Global) -> Result<bool, PlanFault> {
    let inverse = planned(alloc, flows::ADD, &empty(alloc), &RowList::new(alloc))?;
    match inverse.images.as_slice() {
        [image] => Ok(is_delete_alone(image)),
        _ => Ok(false),
    }
}

#[test]
fn plans_an_add(rt: HostRuntime) -> Result<(), Fail> {
    assert!(rt; plans_delete(rt.alloc())?);
    Ok(())
}

/// What is planned for a DELETE of the entry.
fn gone(alloc: Global) -> Result<Inverse, PlanFault> {
    planned(alloc, flows::DELETE, &view(alloc)?, &reported(alloc)?)
}

/// Logs an inverse since a mark, with room made first.
fn log_more(log: &mut Log, mark: Mark, inverse: Inverse) -> Result<(), AllocError>
    requires { mark.at ≤ length log.old.logged }
    ensures { length log.old.logged ≤ length log.new.logged }
{
    log.reserve(inverse.images.len())?;
    log.push(mark, 1, inverse);
    Ok(())
}

/// Whether it has an ADD with a hard timeout of 40 seconds.
fn adds_for_40_seconds(logged: &Logged) -> bool {
    let add = logged.image.add.as_slice();
    add.len() == 72 && add[61] == 40
}

/// Whether the image of an entry that goes after 20 of 60 seconds is logged once, and is taken out again.
fn logs_once(alloc: Global) -> Result<bool, PlanFault> {
    let mut log = Log::new(alloc)?;
    let mark = log.mark();
    log_more(&mut log, mark, gone(alloc)?)?;
    log_more(&mut log, mark, gone(alloc)?)?;
    if log.since(mark).len() != 1 {
        return Ok(false);
    }
    let is_add = match log.pop(mark) {
        Some(logged) => adds_for_40_seconds(&logged),
        None => false,
    };
    Ok(is_add && log.since(mark).is_empty())
}

#[test]
fn logs_a_delete(rt: HostRuntime) -> Result<(), Fail> {
    assert!(rt; logs_once(rt.alloc())?);
    Ok(())
}

/// Whether an entry that goes without a row is NoRow.
fn wants_row(alloc: Global) -> Result<bool, AllocError> {
    let answer = planned(alloc, flows::DELETE, &view(alloc)?, &RowList::new(alloc));
    Ok(matches!(answer, Err(PlanFault::NoRow(_))))
}

/// Whether a row without an entry is NoShadow.
fn wants_entry(alloc: Global) -> Result<bool, AllocError> {
    let answer = planned(alloc, flows::DELETE, &empty(alloc), &reported(alloc)?);
    Ok(matches!(answer, Err(PlanFault::NoShadow(_))))
}

#[test]
fn refuses_what_differs(rt: HostRuntime) -> Result<(), Fail> {
    assert!(rt; wants_row(rt.alloc())?);
    assert!(rt; wants_entry(rt.alloc())?);
    Ok(())
}
