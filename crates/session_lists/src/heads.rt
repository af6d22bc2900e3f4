//! The numbers at the front of a record.

ghost use Rattle.std.specs.Prelude.{◌≡◌, ◌^◌, ◌<◌, ◌++◌};
ghost use Rattle.of_types.specs.Fields.{number_bytes};

use of_types::{Dpid, put_u16, put_u32, put_u64};

/// Spells a number of 32 bits.
pub(crate) fn head_of_second(number: u32) -> [u8; 4]
    ensures bytes { result ≡ number_bytes 4 number }
    ensures fits { number < 2 ^ 32 }
{
    let mut head = [0; 4];
    put_u32(&mut head, 0, number);
    head
}

/// Spells a number of 64 bits.
pub(crate) fn head_of_number(number: u64) -> [u8; 8]
    ensures bytes { result ≡ number_bytes 8 number }
    ensures fits { number < 2 ^ 64 }
{
    let mut head = [0; 8];
    put_u64(&mut head, 0, number);
    head
}

/// Spells a datapath id, and a port or a priority.
pub(crate) fn head_of_port(dpid: Dpid, port: u16) -> [u8; 10]
    ensures bytes { result ≡ number_bytes 8 dpid ++ number_bytes 2 port }
    ensures fits { (dpid < 2 ^ 64) × (port < 2 ^ 16) }
{
    let mut head = [0; 10];
    put_u64(&mut head, 0, dpid);
    put_u16(&mut head, 8, port);
    head
}

/// Spells two numbers of 64 bits.
pub(crate) fn head_of_two(first: u64, second: u64) -> [u8; 16]
    ensures bytes { result ≡ number_bytes 8 first ++ number_bytes 8 second }
    ensures fits { (first < 2 ^ 64) × (second < 2 ^ 64) }
{
    let mut head = [0; 16];
    put_u64(&mut head, 0, first);
    put_u64(&mut head, 8, second);
    head
}
