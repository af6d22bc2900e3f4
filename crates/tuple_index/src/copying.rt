//! Copies of entries.

ghost use Rattle.std.specs.Prelude.{◌≡◌, IfOk};

use flow_table::Entry;
use of_action::copy_actions;
use std::alloc::{AllocError, Global};

/// A copy of an entry.
pub(crate) fn copy_entry(alloc: Global, entry: &Entry) -> Result<Entry, AllocError>
    ensures { IfOk result (λ e. e ≡ entry.now) }
{
    Ok(Entry {
        key: entry.key,
        actions: copy_actions(alloc, &entry.actions)?,
        cookie: entry.cookie,
        idle: entry.idle,
        hard: entry.hard,
        flags: entry.flags,
        installed: entry.installed,
        used: entry.used,
        packets: entry.packets,
        bytes: entry.bytes,
        serial: entry.serial,
    })
}
