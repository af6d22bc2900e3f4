//! Copies of rows.

ghost use Rattle.std.specs.Prelude.{◌≡◌, IfOk};

use flow_table::ViewRow;
use of_action::copy_actions;
use of_stats::FlowRow;
use std::alloc::{AllocError, Global};

/// Returns a copy of a row of a view.
pub(crate) fn copy_row(alloc: Global, row: &ViewRow) -> Result<ViewRow, AllocError>
    ensures { IfOk result (λ r. r ≡ row.now) }
{
    Ok(ViewRow {
        key: row.key,
        actions: copy_actions(alloc, &row.actions)?,
        cookie: row.cookie,
        idle: row.idle,
        hard: row.hard,
        flags: row.flags,
    })
}

/// Returns a copy of what a switch reports of an entry.
pub(crate) fn copy_counts(alloc: Global, row: &FlowRow) -> Result<FlowRow, AllocError>
    ensures { IfOk result (λ f. f ≡ row.now) }
{
    Ok(FlowRow {
        key: row.key,
        duration_sec: row.duration_sec,
        idle: row.idle,
        hard: row.hard,
        cookie: row.cookie,
        packets: row.packets,
        bytes: row.bytes,
        actions: copy_actions(alloc, &row.actions)?,
    })
}
