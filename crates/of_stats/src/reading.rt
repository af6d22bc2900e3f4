//! Rows of flows out of bytes.

ghost use Rattle.std.specs.Prelude.{◌≡◌, ◌+◌, ◌≤◌, ◌<◌, List, length, drop, IfOk, IfSome, Ok};
ghost use Rattle.of_stats.specs.declared.flow_row.FlowRow.{FlowRow};
ghost use Rattle.of_stats.specs.Flows.{AreRows, SpellRows};
ghost use Rattle.of_stats.specs.Reading.{Gives, row_length_at, row_with as row_value, row_of, row_at, rows_of};

use crate::fault::StatsFault;
use crate::flow_row::FlowRow;
use crate::row_list::RowList;
use of_action::{ActionFault, ActionList, decode_list};
use of_match::{Key, Match};
use of_types::{get_array, get_u16, get_u32, get_u64};
use std::alloc::Global;

/// The length of a row without actions.
const FIELDS: usize = 88;

/// The length of the row at the front.
#[tactic(auto, unfolding(crate::specs::Reading::row_length_at))]
fn row_length(bytes: &[u8]) -> Option<usize>
    ensures exact { result ≡ row_length_at bytes.now }
    ensures within { IfSome result (λ len. (88 ≤ len) × (len ≤ length bytes.now)) }
{
    if bytes.len() < 2 {
        return None;
    }
    let len = get_u16(bytes, 0) as usize;
    if len < FIELDS || bytes.len() < len {
        None
    } else {
        Some(len)
    }
}

fn row_with(bytes: &[u8], actions: ActionList) -> FlowRow
    requires { 88 ≤ length bytes.now }
    ensures { result ≡ row_value bytes.now actions }
{
    FlowRow {
        key: Key {
            priority: get_u16(bytes, 52),
            matching: Match::decode(&get_array(bytes, 4)),
        },
        duration_sec: get_u32(bytes, 44),
        idle: get_u16(bytes, 54),
        hard: get_u16(bytes, 56),
        cookie: get_u64(bytes, 64),
        packets: get_u64(bytes, 72),
        bytes: get_u64(bytes, 80),
        actions,
    }
}

/// The row that a row's bytes spell; the row stands at offset `place`.
#[tactic(auto, unfolding(crate::specs::Reading::row_of))]
fn read_row(alloc: Global, bytes: &[u8], place: usize) -> Result<FlowRow, StatsFault>
    requires { 88 ≤ length bytes.now }
    ensures { Gives result (row_of place bytes.now) }
{
    match decode_list(alloc, &bytes[FIELDS..]) {
        Ok(actions) => Ok(row_with(bytes, actions)),
        Err(ActionFault::Bad { .. }) => Err(StatsFault::Bad { place }),
        Err(ActionFault::NoMemory) => Err(StatsFault::NoMemory),
    }
}

/// The row at offset `place`, and its length.
#[tactic(auto, unfolding(crate::specs::Reading::row_at))]
fn next_row(alloc: Global, bytes: &[u8], place: usize) -> Result<(FlowRow, usize), StatsFault>
    requires { place ≤ length bytes.now }
    ensures exact { Gives result (row_at place (drop place bytes.now)) }
    ensures within { IfOk result (λ next. (88 ≤ next.1) × (place + next.1 ≤ length bytes.now)) }
{
    let rest = &bytes[place..];
    match row_length(rest) {
        None => Err(StatsFault::Bad { place }),
        Some(len) => {
            let row = read_row(alloc, &rest[..len], place)?;
            Ok((row, len))
        }
    }
}

fn list_of(alloc: Global, bytes: &[u8]) -> Result<RowList, StatsFault>
    ensures { Gives result (rows_of bytes.now) }
{
    let mut rows = Vec::new(alloc);
    let mut place = 0;
    while place < bytes.len() {
        let (row, len) = next_row(alloc, bytes, place)?;
        rows.push(row)?;
        place += len;
    }
    Ok(RowList::from_vec(rows))
}

/// Reads the rows that the body of a FLOW reply spells, all of the body. `Bad` has the offset at which the first row
/// that is at fault begins: its length is below 88 or above what is left, or its actions are at fault. `NoMemory`
/// where there is no memory for the rows.
pub fn read_flow_rows(alloc: Global, body: &[u8]) -> Result<RowList, StatsFault>
    // The value or the first fault, unless memory runs out.
    ensures exact { Gives result (rows_of body.now) }
    // What is read is in the grammar, and the bytes spell it.
    ensures found { IfOk result (λ rows. AreRows rows × SpellRows rows body.now) }
    // What is in the grammar is read, unless memory runs out.
    ensures only { (rows : List FlowRow) → AreRows rows → SpellRows rows body.now → Gives result (Ok rows) }
{
    list_of(alloc, body)
}
