//! Statistics of one table.

ghost use Rattle.std.specs.Prelude.{◌≡◌, []};
ghost use Rattle.of_types.specs.Layout.{spelled, IsLaidOut};
ghost use Rattle.of_stats.specs.Layouts.{table_fields};

use of_types::{get_array, get_u8, get_u32, get_u64, put_array, put_u8, put_u32, put_u64};

/// A table and its counts (OpenFlow 1.0.0, 5.3.5 Read State Messages: Table Statistics).
#[derive(Clone, Copy, Debug, PartialEq, Eq)]
pub struct TableRow {
    /// The table's number.
    pub table_id: u8,
    /// Its name in ASCII, padded with zero bytes.
    pub name: [u8; 32],
    /// The wildcards that the table supports.
    pub wildcards: u32,
    /// How many flows it takes.
    pub max_entries: u32,
    /// How many flows it has.
    pub active_count: u32,
    /// How many packets were looked up in it.
    pub lookup_count: u64,
    /// How many packets hit a flow of it.
    pub matched_count: u64,
}

/// Reads the row that 64 bytes of a TABLE reply spell; any bytes do.
pub fn read_table_row(bytes: &[u8; 64]) -> TableRow
    ensures { IsLaidOut 0 (table_fields result) [] bytes.now }
{
    TableRow {
        table_id: get_u8(bytes, 0),
        name: get_array(bytes, 4),
        wildcards: get_u32(bytes, 36),
        max_entries: get_u32(bytes, 40),
        active_count: get_u32(bytes, 44),
        lookup_count: get_u64(bytes, 48),
        matched_count: get_u64(bytes, 56),
    }
}

/// Writes the row as 64 bytes of a TABLE reply; the pad is 0.
pub fn write_table_row(row: &TableRow) -> [u8; 64]
    ensures { result ≡ spelled (table_fields row.now) }
{
    let mut out = [0; 64];
    put_u8(&mut out, 0, row.table_id);
    put_array(&mut out, 1, &[0; 3]);
    put_array(&mut out, 4, &row.name);
    put_u32(&mut out, 36, row.wildcards);
    put_u32(&mut out, 40, row.max_entries);
    put_u32(&mut out, 44, row.active_count);
    put_u64(&mut out, 48, row.lookup_count);
    put_u64(&mut out, 56, row.matched_count);
    out
}
