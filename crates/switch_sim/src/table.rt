//! Changes of the table, with the messages that they send.

ghost use Rattle.std.specs.Prelude.{◌≡◌, ◌-◌, ◌<◌, ◌^◌, map, All, IfOk, OnOk, OnErr};
ghost use Rattle.flow_table.specs.Table.{IsTable, IsMoment};
ghost use Rattle.flow_table.specs.Change.{refusal, changed, notices_of};
ghost use Rattle.flow_table.specs.Expiry.{expiry_notices};
ghost use Rattle.flow_table.specs.Step.{flow_removed_bytes};
ghost use Rattle.switch_sim.specs.Readable.{AreReadable};
ghost use Rattle.switch_sim.specs.Sound.{IsEntryAt};
ghost use Rattle.switch_sim.specs.Words.{AnswersWith};

use crate::message_list::MessageList;
use crate::notices::{count_due, make_room, write_all};
use flow_table::ChangeFault;
use of_wire::FlowMod;
use std::alloc::{AllocError, Global};
use tuple_index::TupleTable;

/// Changes the table as a FLOW_MOD says, and gives its FLOW_REMOVED messages.
pub(crate) fn change(
    alloc: Global,
    table: &mut TupleTable,
    m: &FlowMod,
    now: u64,
    cap: u32,
) -> Result<MessageList, ChangeFault>
    requires now { IsMoment now table.old.entries }
    requires serials { table.old.next < 2 ^ 64 - 1 }
    ensures answer { AnswersWith result (refusal cap m.now table.old.entries) (map flow_removed_bytes (notices_of now m.now table.old.entries)) }
    ensures readable { IfOk result AreReadable }
    ensures ok { OnOk result (table.new ≡ changed now m.now table.old) }
    ensures err { OnErr result (table.new ≡ table.old) }
    ensures in_order { IsTable table.old.entries }
{
    let _entries = table.entries().len();
    let room = make_room(alloc, table.count_told(m))?;
    let notices = table.change(m, now, cap)?;
    Ok(write_all(room, notices.as_slice()))
}

/// Returns the FLOW_REMOVED messages of the entries that are due at a moment.
pub(crate) fn due(alloc: Global, table: &TupleTable, now: u64) -> Result<MessageList, AllocError>
    requires now { IsMoment now table.now.entries }
    requires each { All (IsEntryAt now) table.now.entries }
    ensures sent { IfOk result (λ list. list ≡ map flow_removed_bytes (expiry_notices now table.now.entries)) }
    ensures readable { IfOk result AreReadable }
{
    let room = make_room(alloc, count_due(table.entries(), now))?;
    let notices = table.due(now)?;
    Ok(write_all(room, notices.as_slice()))
}
