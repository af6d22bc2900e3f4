//! Rows of flows into bytes.

ghost use Rattle.std.specs.Prelude.{◌≡◌, ◌+◌, ◌≤◌, ◌++◌, length, take, All, IfOk};
ghost use Rattle.of_action.specs.Spelling.{list_bytes, list_size};
ghost use Rattle.of_stats.specs.Flows.{row_size, row_bytes, rows_bytes};

use crate::flow_row::FlowRow;
use crate::row_list::RowList;
use of_action::{ActionList, encode_list, size};
use of_types::{ByteList, put_array, put_u16, put_u32, put_u64};
use std::alloc::{AllocError, Global};

fn put_list_at(out: &mut [u8], at: usize, list: &ActionList)
    requires { at + list_size list.now ≤ length out.old }
    ensures { take (at + list_size list.now) out.new ≡ take at out.old ++ list_bytes list.now }
{
    let end = at + size(list);
    encode_list(list, &mut out[at..end]);
}

/// Writes the row over all of `out`, which has its size.
#[tactic(auto, unfolding(crate::specs::Flows::row_bytes))]
fn put_row(out: &mut [u8], row: &FlowRow)
    requires size { length out.old ≡ row_size row.now }
    requires fits { row_size row.now ≤ 65535 }
    ensures { out.new ≡ row_bytes row.now }
{
    let size = out.len() as u16;
    put_u16(out, 0, size);
    put_array(out, 2, &[0; 2]);
    put_array(out, 4, &row.key.matching.encode());
    put_u32(out, 44, row.duration_sec);
    put_array(out, 48, &[0; 4]);
    put_u16(out, 52, row.key.priority);
    put_u16(out, 54, row.idle);
    put_u16(out, 56, row.hard);
    put_array(out, 58, &[0; 6]);
    put_u64(out, 64, row.cookie);
    put_u64(out, 72, row.packets);
    put_u64(out, 80, row.bytes);
    put_list_at(out, 88, &row.actions);
}

/// Writes one row, of at most 65,535 bytes: its 88 bytes, pads 0, and its actions. `AllocError` where there is no
/// memory for it.
pub fn write_flow_row(alloc: Global, row: &FlowRow) -> Result<ByteList, AllocError>
    requires { row_size row.now ≤ 65535 }
    ensures { IfOk result (λ bytes. bytes ≡ row_bytes row.now) }
{
    let mut bytes = vec![in alloc; 0; 88 + size(&row.actions)]?;
    put_row(&mut bytes, row);
    Ok(ByteList::from_vec(bytes))
}

/// Writes the body of a FLOW reply that has these rows, of at most 65,535 bytes each. `AllocError` where there is no
/// memory for it.
pub fn write_flow_rows(alloc: Global, rows: &RowList) -> Result<ByteList, AllocError>
    requires { All (λ row. row_size row ≤ 65535) rows.now }
    ensures { IfOk result (λ bytes. bytes ≡ rows_bytes rows.now) }
{
    let mut bytes = Vec::new(alloc);
    for row in rows.as_slice() {
        let row_bytes = write_flow_row(alloc, row)?;
        bytes.extend_from_slice(row_bytes.as_slice())?;
    }
    Ok(ByteList::from_vec(bytes))
}
