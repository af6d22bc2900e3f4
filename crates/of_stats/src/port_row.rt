//! Statistics of one port.

ghost use Rattle.std.specs.Prelude.{◌≡◌, []};
ghost use Rattle.of_types.specs.Layout.{spelled, IsLaidOut};
ghost use Rattle.of_stats.specs.Layouts.{port_fields};

use of_types::{PortNo, get_u16, get_u64, put_array, put_u16, put_u64};

/// A port and its counts (OpenFlow 1.0.0, 5.3.5 Read State Messages: Port Statistics).
#[derive(Clone, Copy, Debug, PartialEq, Eq)]
pub struct PortRow {
    /// The port's number.
    pub port_no: PortNo,
    /// How many packets came in.
    pub rx_packets: u64,
    /// How many packets went out.
    pub tx_packets: u64,
    /// How many bytes came in.
    pub rx_bytes: u64,
    /// How many bytes went out.
    pub tx_bytes: u64,
    /// How many packets that came in were dropped.
    pub rx_dropped: u64,
    /// How many packets that were to go out were dropped.
    pub tx_dropped: u64,
    /// How many errors there were when packets came in, the three below among them.
    pub rx_errors: u64,
    /// How many errors there were when packets went out.
    pub tx_errors: u64,
    /// How many frames were not aligned.
    pub rx_frame_err: u64,
    /// How many packets came in too fast.
    pub rx_over_err: u64,
    /// How many checksums were wrong.
    pub rx_crc_err: u64,
    /// How many collisions there were.
    pub collisions: u64,
}

/// Reads the row that 104 bytes of a PORT reply spell; any bytes do.
pub fn read_port_row(bytes: &[u8; 104]) -> PortRow
    ensures { IsLaidOut 0 (port_fields result) [] bytes.now }
{
    PortRow {
        port_no: get_u16(bytes, 0),
        rx_packets: get_u64(bytes, 8),
        tx_packets: get_u64(bytes, 16),
        rx_bytes: get_u64(bytes, 24),
        tx_bytes: get_u64(bytes, 32),
        rx_dropped: get_u64(bytes, 40),
        tx_dropped: get_u64(bytes, 48),
        rx_errors: get_u64(bytes, 56),
        tx_errors: get_u64(bytes, 64),
        rx_frame_err: get_u64(bytes, 72),
        rx_over_err: get_u64(bytes, 80),
        rx_crc_err: get_u64(bytes, 88),
        collisions: get_u64(bytes, 96),
    }
}

/// Writes the row as 104 bytes of a PORT reply; the pad is 0.
pub fn write_port_row(row: &PortRow) -> [u8; 104]
    ensures { result ≡ spelled (port_fields row.now) }
{
    let mut out = [0; 104];
    put_u16(&mut out, 0, row.port_no);
    put_array(&mut out, 2, &[0; 6]);
    put_u64(&mut out, 8, row.rx_packets);
    put_u64(&mut out, 16, row.tx_packets);
    put_u64(&mut out, 24, row.rx_bytes);
    put_u64(&mut out, 32, row.tx_bytes);
    put_u64(&mut out, 40, row.rx_dropped);
    put_u64(&mut out, 48, row.tx_dropped);
    put_u64(&mut out, 56, row.rx_errors);
    put_u64(&mut out, 64, row.tx_errors);
    put_u64(&mut out, 72, row.rx_frame_err);
    put_u64(&mut out, 80, row.rx_over_err);
    put_u64(&mut out, 88, row.rx_crc_err);
    put_u64(&mut out, 96, row.collisions);
    out
}
