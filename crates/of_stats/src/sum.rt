//! Statistics of many flows, summed up.

ghost use Rattle.std.specs.Prelude.{◌≡◌, []};
ghost use Rattle.of_types.specs.Layout.{spelled, IsLaidOut};
ghost use Rattle.of_stats.specs.Layouts.{sum_fields};

use of_types::{get_u32, get_u64, put_array, put_u32, put_u64};

/// The counts of many flows (OpenFlow 1.0.0, 5.3.5 Read State Messages: Aggregate Flow Statistics).
#[derive(Clone, Copy, Debug, PartialEq, Eq)]
pub struct Sum {
    /// How many packets the flows counted.
    pub packets: u64,
    /// How many bytes they counted.
    pub bytes: u64,
    /// How many flows there are.
    pub flows: u32,
}

/// Reads the sum that the body of an AGGREGATE reply spells; any 24 bytes do.
pub fn read_sum(body: &[u8; 24]) -> Sum
    ensures { IsLaidOut 0 (sum_fields result) [] body.now }
{
    Sum {
        packets: get_u64(body, 0),
        bytes: get_u64(body, 8),
        flows: get_u32(body, 16),
    }
}

/// Writes the body of an AGGREGATE reply: 24 bytes, the last four of them 0.
pub fn write_sum(sum: &Sum) -> [u8; 24]
    ensures { result ≡ spelled (sum_fields sum.now) }
{
    let mut out = [0; 24];
    put_u64(&mut out, 0, sum.packets);
    put_u64(&mut out, 8, sum.bytes);
    put_u32(&mut out, 16, sum.flows);
    put_array(&mut out, 20, &[0; 4]);
    out
}
