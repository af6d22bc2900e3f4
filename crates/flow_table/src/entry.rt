//! A flow entry.

ghost use Rattle.std.specs.Prelude.{◌≡◌, ◌==◌};
ghost use Rattle.std.specs.Ordering.{nat_cmp};
ghost use Rattle.of_match.specs.Key.{key_number};
ghost use Rattle.flow_table.specs.Table.{place_of};

use of_action::ActionList;
use of_match::Key;
use std::cmp::Ordering;

/// A flow entry (OpenFlow 1.0.0, 3.1 Flow Table). Moments and timeouts are in seconds; counters are
/// modulo 2^64.
#[derive(Drop, Debug, Clone, PartialEq, Eq)]
pub struct Entry {
    /// Priority and match, which no two entries of a table share.
    pub key: Key,
    /// What is done to a packet that hits the entry.
    pub actions: ActionList,
    /// The application's own mark, which the switch keeps and never reads.
    pub cookie: u64,
    /// Seconds without a hit after which the entry goes; 0: never.
    pub idle: u16,
    /// Seconds after which the entry goes; 0: never.
    pub hard: u16,
    /// SEND_FLOW_REM or 0.
    pub flags: u16,
    /// The moment at which the entry was put in.
    pub installed: u64,
    /// The moment of the last hit, or that at which the entry was put in.
    pub used: u64,
    /// How many packets hit the entry.
    pub packets: u64,
    /// How many bytes those packets had.
    pub bytes: u64,
    /// Which of all entries that the table ever took this is, counted from 0.
    pub serial: u64,
}

/// How a key stands to another in key order.
fn key_order(a: &Key, b: &Key) -> Ordering
    ensures { result ≡ nat_cmp (key_number a.now) (key_number b.now) }
{
    let _first = a.priority;
    let _second = b.priority;
    a.cmp(b)
}

impl Entry {
    /// How the entry stands to a key in key order: priority descending, then the bytes of the match ascending.
    pub(crate) fn compare(&self, key: &Key) -> Ordering
        ensures { result ≡ nat_cmp (place_of self.now) (key_number key.now) }
    {
        key_order(&self.key, key)
    }

    /// Tells whether this is the entry of the key: both have one priority and one match.
    pub fn has_key(&self, key: &Key) -> bool
        ensures { result ≡ (place_of self.now == key_number key.now) }
    {
        self.compare(key) == Ordering::Equal
    }
}
