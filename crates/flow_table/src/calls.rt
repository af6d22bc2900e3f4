//! A list of calls on one table.

ghost use Rattle.std.specs.Prelude.{◌≡◌, ◌↔◌, ℕ, ◌+◌, ◌-◌, ◌^◌, ◌<◌, ◌≤◌, length, take, All, IsTrue, IfOk, OnOk, OnErr};
ghost use Rattle.flow_table.specs.Table.{IsMoment};
ghost use Rattle.flow_table.specs.Change.{change, refusal, notices_of};
ghost use Rattle.flow_table.specs.Run.{IsChangeAnswer, IsAnswer, AreAnswers, IsPlan, MomentsFrom, moment_after, after_call, after_calls, IsAllowed};

use crate::entry::Entry;
use crate::fault::ChangeFault;
use crate::notice::NoticeList;
use crate::table::Table;
use flow_timeouts::LAST_MOMENT;
use of_match::PacketKey;
use of_types::OfError;
use of_wire::FlowMod;
use std::alloc::{AllocError, Global};

/// A call that may change a table. Moments are in seconds.
#[derive(Drop, Debug, Clone, PartialEq, Eq)]
pub enum TableCall {
    /// A FLOW_MOD at a moment, in a switch whose table takes `cap` entries.
    Change {
        flow: FlowMod,
        now: u64,
        cap: u32,
    },
    /// A packet of `len` bytes with these fields at a moment.
    Hit {
        key: PacketKey,
        len: u32,
        now: u64,
    },
    /// A moment comes.
    Expire {
        now: u64,
    },
    /// So many packets and bytes more for each entry of a priority.
    AddCounts {
        priority: u16,
        packets: u64,
        bytes: u64,
    },
}

/// What a call answers.
#[derive(Drop, Debug, Clone, PartialEq, Eq)]
pub enum TableAnswer {
    /// The change was made, with notices of the entries that it removed.
    Changed(NoticeList),
    /// The change was refused.
    Refused(OfError),
    /// Where the entry stands that the packet hit.
    Hit(Option<usize>),
    /// Notices of the entries that went.
    Expired(NoticeList),
    /// The counts were added.
    Counted,
}

/// Makes a change, and gives the refusal as an answer.
#[tactic(auto, unfolding(crate::specs::Change::change))]
fn change(table: &mut Table, flow: &FlowMod, now: u64, cap: u32) -> Result<TableAnswer, AllocError>
    requires now { IsMoment now table.old.entries }
    requires serials { table.old.next < 2 ^ 64 - 1 }
    ensures answer { IfOk result (IsChangeAnswer (refusal cap flow.now table.old.entries) (notices_of now flow.now table.old.entries)) }
    ensures ok { OnOk result (table.new ≡ change cap now flow.now table.old) }
    ensures err { OnErr result (table.new ≡ table.old) }
{
    match table.change(flow, now, cap) {
        Ok(notices) => Ok(TableAnswer::Changed(notices)),
        Err(ChangeFault::Refused(error)) => Ok(TableAnswer::Refused(error)),
        Err(ChangeFault::NoMemory) => Err(AllocError),
    }
}

/// Makes one call.
#[tactic(auto, unfolding(crate::specs::Run::after_call, crate::specs::Run::IsAnswer, crate::specs::Run::IsAllowed))]
fn make(table: &mut Table, call: &TableCall) -> Result<TableAnswer, AllocError>
    requires { IsAllowed call.now table.old }
    ensures answer { IfOk result (IsAnswer call.now table.old) }
    ensures ok { OnOk result (table.new ≡ after_call call.now table.old) }
    ensures err { OnErr result (table.new ≡ table.old) }
{
    match call {
        TableCall::Change { flow, now, cap } => change(table, flow, *now, *cap),
        TableCall::Hit { key, len, now } => Ok(TableAnswer::Hit(table.hit(key, *len, *now))),
        TableCall::Expire { now } => Ok(TableAnswer::Expired(table.expire(*now)?)),
        TableCall::AddCounts {
            priority,
            packets,
            bytes,
        } => {
            table.add_counts(*priority, *packets, *bytes);
            Ok(TableAnswer::Counted)
        }
    }
}

/// The last moment at which an entry was put in or used; 0 in an empty table.
fn latest(entries: &[Entry]) -> u64
    ensures installed { All (λ e. e.installed ≤ result) entries.now }
    ensures used { All (λ e. e.used ≤ result) entries.now }
    ensures least { (n : ℕ) → All (λ e. e.installed ≤ n) entries.now → All (λ e. e.used ≤ n) entries.now → result ≤ n }
{
    let mut last = 0u64;
    for entry in entries {
        last = last.max(entry.installed).max(entry.used);
    }
    last
}

/// When a call is made, after one at an earlier moment.
fn moment(call: &TableCall, last: u64) -> u64
    ensures { result ≡ moment_after last call.now }
{
    match call {
        TableCall::Change { now, .. } | TableCall::Hit { now, .. } | TableCall::Expire { now } =>
            *now,
        TableCall::AddCounts { .. } => last,
    }
}

/// Whether the moments of calls do not go back from one on, and none is after the last one.
fn rises(calls: &[TableCall], from: u64) -> bool
    ensures { IsTrue result ↔ MomentsFrom from calls.now }
{
    let mut last = from;
    for call in calls {
        let next = moment(call, last);
        if next < last || LAST_MOMENT < next {
            return false;
        }
        last = next;
    }
    true
}

/// Tells whether the moments of calls do not go back, and none is before an entry of the table was put in or used.
pub fn is_plan(table: &Table, calls: &[TableCall]) -> bool
    ensures { IsTrue result ↔ IsPlan calls.now table.now }
{
    let start = latest(table.entries());
    start <= LAST_MOMENT && rises(calls, start)
}

/// Whether a moment is within the last one, and no entry was put in or used after it.
pub(crate) fn is_moment(entries: &[Entry], now: u64) -> bool
    ensures { IsTrue result → IsMoment now entries.now }
{
    now <= LAST_MOMENT && latest(entries) <= now
}

/// Makes calls one after another, and gives their answers. Their moments may not go back, which [`is_plan`]
/// tells.
///
/// Each answer and the table in the end are those of the definitions, call by call. Where memory is wanting,
/// the table is as the first so many of the calls left it.
pub fn run(
    alloc: Global,
    table: &mut Table,
    calls: &[TableCall],
) -> Result<Vec<TableAnswer>, AllocError>
    requires plan { IsPlan calls.now table.old }
    requires serials { table.old.next + length calls.now < 2 ^ 64 }
    ensures answers { IfOk result (λ answers. AreAnswers calls.now table.old answers.items) }
    ensures ok { OnOk result (table.new ≡ after_calls calls.now table.old) }
    ensures err { OnErr result ((k : ℕ) × (table.new ≡ after_calls (take k calls.now) table.old)) }
{
    let mut answers = Vec::new(alloc);
    for call in calls {
        answers.push(make(table, call)?)?;
    }
    Ok(answers)
}
