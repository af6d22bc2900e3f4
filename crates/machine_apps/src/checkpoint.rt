//! What was learned, as bytes.

ghost use Rattle.std.specs.Prelude.{◌≡◌, ◌≤◌, ◌*◌, [], length, take, None, IfOk};
ghost use Rattle.of_types.specs.Fields.{number_at};
ghost use Rattle.machine_apps.specs.Checkpoint.{row_bytes, checkpoint_of, is_below, is_ascending, rows_in, with_rows, restored};

use of_types::{ByteList, PortNo, get_array, get_u16, put_array, put_u16};
use std::alloc::{AllocError, Global};
use std::collections::BTreeMap;

/// The number of a switch, and an Ethernet address that was seen there.
pub type Station = [u8; 14];

/// By which port each station is reached.
pub(crate) type Rows = BTreeMap<Station, PortNo>;

/// The most rows; a further station is not learned.
pub(crate) const MOST_ROWS: usize = 65_536;

/// The bytes of a row.
const ROW_BYTES: usize = 16;

/// A row of a checkpoint.
fn row_of(bytes: &[u8]) -> (Station, PortNo)
    requires { 16 ≤ length bytes.now }
    ensures { result ≡ (take 14 bytes.now, number_at 2 14 bytes.now) }
{
    (get_array(bytes, 0), get_u16(bytes, 14))
}

/// A row as it stands in a checkpoint.
fn row_bytes(station: Station, port: PortNo) -> [u8; 16]
    ensures { result ≡ row_bytes (station, port) }
{
    let mut bytes = [0; ROW_BYTES];
    put_array(&mut bytes, 0, &station);
    put_u16(&mut bytes, 14, port);
    bytes
}

/// Whether the station comes behind the last one.
fn is_below(last: Option<Station>, station: Station) -> bool
    ensures { result ≡ is_below last station }
{
    match last {
        Some(last) => last.cmp(&station).is_lt(),
        None => true,
    }
}

/// Whether each station comes behind the one before it.
fn is_ascending(rows: &[(Station, PortNo)]) -> bool
    ensures { result ≡ is_ascending None rows.now }
{
    let mut last = None;
    for row in rows {
        if !is_below(last, row.0) {
            return false;
        }
        last = Some(row.0);
    }
    true
}

/// So many rows, one after the other.
fn rows_from(
    alloc: Global,
    bytes: &[u8],
    count: usize,
) -> Result<Vec<(Station, PortNo)>, AllocError>
    requires { 16 * count ≤ length bytes.now }
    ensures { IfOk result (λ rows. rows.items ≡ rows_in count bytes.now) }
{
    let mut rows = Vec::with_capacity(alloc, count)?;
    for i in 0..count {
        rows.push(row_of(&bytes[ROW_BYTES * i..]))?;
    }
    Ok(rows)
}

/// A map of the rows.
fn collected(alloc: Global, rows: &[(Station, PortNo)]) -> Result<Rows, AllocError>
    ensures { IfOk result (λ map. map.entries ≡ with_rows [] rows.now) }
{
    let mut map = BTreeMap::new(alloc);
    for row in rows {
        map.insert(row.0, row.1)?;
    }
    Ok(map)
}

/// The rows of a checkpoint; none, if it has not its form: at most 65,536 whole rows that ascend.
#[tactic(auto, unfolding(crate::specs::Checkpoint::restored))]
pub(crate) fn restore(alloc: Global, checkpoint: &[u8]) -> Result<Rows, AllocError>
    ensures { IfOk result (λ rows. rows.entries ≡ restored checkpoint.now) }
{
    let count = checkpoint.len() / ROW_BYTES;
    if checkpoint.len() % ROW_BYTES != 0 || count > MOST_ROWS {
        return Ok(BTreeMap::new(alloc));
    }
    let rows = rows_from(alloc, checkpoint, count)?;
    if is_ascending(&rows) {
        collected(alloc, &rows)
    } else {
        Ok(BTreeMap::new(alloc))
    }
}

/// All rows, ascending.
#[tactic(auto, unfolding(crate::specs::Checkpoint::checkpoint_of))]
pub(crate) fn checkpoint(alloc: Global, rows: &Rows) -> Result<ByteList, AllocError>
    ensures { IfOk result (λ bytes. bytes ≡ checkpoint_of rows.now.entries) }
{
    let mut bytes = Vec::new(alloc);
    for (station, port) in rows {
        bytes.extend_from_slice(&row_bytes(*station, *port))?;
    }
    Ok(ByteList::from_vec(bytes))
}
