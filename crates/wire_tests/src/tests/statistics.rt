//! Bodies of statistics by the tables of OpenFlow 1.0.0, 5.3.5.

ghost use Rattle.std.specs.Prelude.{◌≤◌, length, All, IfOk, OnOk};

use super::has_bytes;
use of_stats::{
    FlowRow, PortRow, StatsFault, Sum, TableRow, join_replies, read_flow_rows, read_port_row,
    read_sum, split_reply, write_flow_rows, write_sum, write_table_row,
};
use of_types::ByteList;
use std::alloc::{AllocError, Global};
use std::test::Fail;

/// A row of flow statistics, by the table of OpenFlow 1.0.0, 5.3.5: in_port 3, one OUTPUT to port 2.
static ROW: [u8; 96] = [
    0, 96, 0, 0, // length, table_id, pad
    0, 0x38, 0x20, 0xfe, 0, 3, 0, 0, 0, 0, 0, 0, 0, 0, 0, 0, 0, 0, 0, 0, // match
    0, 0, 0, 0, 0, 0, 0, 0, 0, 0, 0, 0, 0, 0, 0, 0, 0, 0, 0, 0, //
    0, 0, 1, 44, 0, 0, 0, 0, // duration_sec, duration_nsec
    0x80, 0, 0, 10, 0, 20, 0, 0, 0, 0, 0, 0, // priority, idle_timeout, hard_timeout, pad
    0, 0, 0, 0, 0, 0, 0, 7, // cookie
    0, 0, 0, 0, 0, 0, 0, 2, // packet_count
    0, 0, 0, 0, 0, 0, 0, 128, // byte_count
    0, 0, 0, 8, 0, 2, 0, 0, // OUTPUT
];

/// Tells whether the row counts what `ROW` says.
fn is_row(row: &FlowRow) -> bool {
    row.key.priority == 0x8000
        && (row.idle == 10 && row.hard == 20)
        && (row.cookie == 7 && row.packets == 2 && row.bytes == 128)
        && row.duration_sec == 300
}

/// Tells whether the body is read as so many rows that count what `ROW` says, which are written as these bytes.
fn has_rows(alloc: Global, body: &[u8], count: usize, written: &[u8]) -> Result<bool, StatsFault> {
    let rows = read_flow_rows(alloc, body)?;
    let are_rows = rows.len() == count && rows.iter().all(is_row);
    let bytes = write_flow_rows(alloc, &rows);
    drop(rows);
    Ok(has_bytes(bytes?, written) && are_rows)
}

/// `ROW` twice.
fn two_rows(alloc: Global) -> Result<Vec<u8>, AllocError> {
    let mut rows = Vec::from_slice(alloc, &ROW)?;
    rows.extend_from_slice(&ROW).and(Ok(rows))
}

/// Tells whether two rows are read, and written again.
fn are_two_rows(alloc: Global) -> Result<bool, StatsFault> {
    let body = two_rows(alloc)?;
    let has_rows = has_rows(alloc, &body, 2, &body);
    drop(body);
    has_rows
}

/// `ROW` with other bytes where its table and its nanoseconds stand.
fn other_row() -> [u8; 96] {
    let mut row = ROW;
    row[2] = 9;
    row[51] = 9;
    row
}

#[test]
fn rows_of_flows(rt: HostRuntime) -> Result<(), Fail> {
    assert!(rt; are_two_rows(rt.alloc())?);
    // What a row says of its table and of nanoseconds is not kept.
    assert!(rt; has_rows(rt.alloc(), &other_row(), 1, &ROW)?);
    Ok(())
}

static SUM: Sum = Sum {
    packets: 5,
    bytes: 300,
    flows: 2,
};

static SUM_BYTES: [u8; 24] = [
    0, 0, 0, 0, 0, 0, 0, 5, 0, 0, 0, 0, 0, 0, 1, 44, 0, 0, 0, 2, 0, 0, 0, 0,
];

static TABLE: TableRow = TableRow {
    table_id: 1,
    name: *b"table0\0\0\0\0\0\0\0\0\0\0\0\0\0\0\0\0\0\0\0\0\0\0\0\0\0\0",
    wildcards: 0x3f_ffff,
    max_entries: 256,
    active_count: 3,
    lookup_count: 4,
    matched_count: 5,
};

static TABLE_BYTES: [u8; 64] = [
    1, 0, 0, 0, b't', b'a', b'b', b'l', b'e', b'0', 0, 0, 0, 0, 0, 0, 0, 0, 0, 0, 0, 0, 0, 0, 0, 0,
    0, 0, 0, 0, 0, 0, 0, 0, 0, 0, 0, 0x3f, 0xff, 0xff, 0, 0, 1, 0, 0, 0, 0, 3, 0, 0, 0, 0, 0, 0, 0,
    4, 0, 0, 0, 0, 0, 0, 0, 5,
];

static PORT: PortRow = PortRow {
    port_no: 7,
    rx_packets: 1,
    tx_packets: 2,
    rx_bytes: 3,
    tx_bytes: 4,
    rx_dropped: 5,
    tx_dropped: 6,
    rx_errors: 7,
    tx_errors: 8,
    rx_frame_err: 9,
    rx_over_err: 10,
    rx_crc_err: 11,
    collisions: 12,
};

static PORT_BYTES: [u8; 104] = [
    0, 7, 0, 0, 0, 0, 0, 0, 0, 0, 0, 0, 0, 0, 0, 1, 0, 0, 0, 0, 0, 0, 0, 2, 0, 0, 0, 0, 0, 0, 0, 3,
    0, 0, 0, 0, 0, 0, 0, 4, 0, 0, 0, 0, 0, 0, 0, 5, 0, 0, 0, 0, 0, 0, 0, 6, 0, 0, 0, 0, 0, 0, 0, 7,
    0, 0, 0, 0, 0, 0, 0, 8, 0, 0, 0, 0, 0, 0, 0, 9, 0, 0, 0, 0, 0, 0, 0, 10, 0, 0, 0, 0, 0, 0, 0,
    11, 0, 0, 0, 0, 0, 0, 0, 12,
];

#[test]
fn sums_tables_and_ports(rt: HostRuntime) {
    assert!(rt; read_sum(&SUM_BYTES) == SUM && write_sum(&SUM) == SUM_BYTES);
    assert!(rt; write_table_row(&TABLE) == TABLE_BYTES);
    assert!(rt; read_port_row(&PORT_BYTES) == PORT);
}

/// A part of a reply: its type, flags and body.
type Part<'a> = (u16, u16, &'a [u8]);

/// Parts, and the body that they are joined to.
static JOINED: [(&[Part<'static>], Result<&[u8], StatsFault>); 4] = [
    // Of another type.
    (
        &[(1, 1, b"a"), (2, 0, b"b")],
        Err(StatsFault::Bad { place: 1 }),
    ),
    (&[(1, 1, b"a"), (1, 0, b"b")], Ok(b"ab")),
    (&[], Err(StatsFault::Bad { place: 0 })),
    // Unfinished.
    (&[(1, 1, b"")], Err(StatsFault::Bad { place: 0 })),
];

/// Parts with bodies of their own.
type Parts = Vec<(u16, u16, ByteList)>;

/// Adds a part with a copy of its body.
fn push_part(owned: &mut Parts, alloc: Global, part: &Part<'_>) -> Result<(), AllocError> {
    let (kind, flags, body) = *part;
    owned.push((kind, flags, ByteList::from_slice(alloc, body)?))?;
    Ok(())
}

/// Adds parts with copies of their bodies.
fn push_parts(owned: &mut Parts, alloc: Global, parts: &[Part<'_>]) -> Result<(), AllocError> {
    for part in parts {
        push_part(owned, alloc, part)?;
    }
    Ok(())
}

/// Copies the bodies of parts.
fn owned(alloc: Global, parts: &[Part<'_>]) -> Result<Parts, AllocError> {
    let mut owned = Vec::new(alloc);
    push_parts(&mut owned, alloc, parts).and(Ok(owned))
}

/// Tells whether this body is wanted.
fn is_body(body: ByteList, want: &Result<&[u8], StatsFault>) -> bool {
    match want {
        Ok(bytes) => has_bytes(body, bytes),
        Err(_) => false,
    }
}

/// Tells whether the parts are joined to this body, or are not for this reason.
fn is_joined(
    alloc: Global,
    parts: &[Part<'_>],
    want: &Result<&[u8], StatsFault>,
) -> Result<bool, AllocError> {
    let parts = owned(alloc, parts)?;
    let joined = join_replies(alloc, &parts);
    drop(parts);
    Ok(match joined {
        Ok(body) => is_body(body, want),
        Err(fault) => *want == Err(fault),
    })
}

#[test]
fn parts_joined(rt: HostRuntime) -> Result<(), Fail> {
    for (number, (parts, want)) in JOINED.iter().enumerate() {
        assert!(rt; is_joined(rt.alloc(), parts, want)?, "row {number}");
    }
    Ok(())
}

/// Adds a row of so many bytes.
fn push_row(rows: &mut Vec<ByteList>, alloc: Global, size: usize) -> Result<(), AllocError>
    requires { size ≤ 65523 }
    ensures { All (λ row. length row ≤ 65523) rows.old.items
        → OnOk result (All (λ row. length row ≤ 65523) rows.new.items) }
{
    rows.push(ByteList::from_vec(vec![in alloc; 1; size]?))?;
    Ok(())
}

/// Rows of which the first two fill a part, and the last fills one.
fn four_rows(alloc: Global) -> Result<Vec<ByteList>, AllocError>
    ensures { IfOk result (λ rows. All (λ row. length row ≤ 65523) rows.items) }
{
    let mut rows = Vec::new(alloc);
    push_row(&mut rows, alloc, 30_000)?;
    push_row(&mut rows, alloc, 35_523)?;
    push_row(&mut rows, alloc, 1)?;
    push_row(&mut rows, alloc, 65_523)?;
    Ok(rows)
}

/// Tells whether the parts have these types, flags and numbers of bytes.
fn are_parts(parts: &[(u16, u16, ByteList)], wants: &[(u16, u16, usize)]) -> bool {
    if parts.len() != wants.len() {
        return false;
    }
    for k in 0..parts.len() {
        let (kind, flags, body) = &parts[k];
        if (*kind, *flags, body.len()) != wants[k] {
            return false;
        }
    }
    true
}

/// Tells whether the rows are split into parts of these types, flags and numbers of bytes.
fn is_split(
    alloc: Global,
    kind: u16,
    rows: &[ByteList],
    wants: &[(u16, u16, usize)],
) -> Result<bool, AllocError>
    requires { All (λ row. length row ≤ 65523) rows.now }
{
    let parts = split_reply(alloc, kind, rows)?;
    let are_parts = are_parts(&parts, wants);
    drop(parts);
    Ok(are_parts)
}

/// Tells whether four rows are split into three parts.
fn are_four_rows_split(alloc: Global) -> Result<bool, AllocError> {
    let rows = four_rows(alloc)?;
    let wants = [(4, 1, 65_523), (4, 1, 1), (4, 0, 65_523)];
    let is_split = is_split(alloc, 4, &rows, &wants);
    drop(rows);
    is_split
}

#[test]
fn parts_of_rows(rt: HostRuntime) -> Result<(), Fail> {
    assert!(rt; is_split(rt.alloc(), 1, &[], &[(1, 0, 0)])?);
    assert!(rt; are_four_rows_split(rt.alloc())?);
    Ok(())
}
