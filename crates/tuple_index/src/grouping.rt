//! Keys in the order of groups, found by halves.

ghost use Rattle.std.specs.Prelude.{◌≡◌, ◌≢◌, ◌<◌, ◌≤◌, length, map, slice_index_or};
ghost use Rattle.std.specs.Ordering.{nat_cmp};
ghost use Rattle.flow_table.specs.Sorted.{Ascends, IsFoundAt};
ghost use Rattle.of_match.specs.declared.key.Key.{Key};
ghost use Rattle.of_match.specs.Key.{key_number};
ghost use Rattle.tuple_index.specs.Groups.{wildcards, spot, different, IsGroup};

use of_match::{Key, Match};
use std::cmp::Ordering;

/// The wildcards of a match (OpenFlow 1.0.0, 5.2.3 Flow Match Structures).
pub(crate) fn wildcards(m: &Match) -> u32
    ensures { result ≡ wildcards m.now }
{
    let bytes = m.encode();
    u32::from_be_bytes([bytes[0], bytes[1], bytes[2], bytes[3]])
}

/// How a key stands to another in key order.
pub(crate) fn key_order(a: &Key, b: &Key) -> Ordering
    ensures { result ≡ nat_cmp (key_number a.now) (key_number b.now) }
{
    let _first = a.priority;
    let _second = b.priority;
    a.cmp(b)
}

/// How a key stands to another in the order of groups: by the bytes of the match, then by priority descending.
fn group_order(a: &Key, b: &Key) -> Ordering
    ensures { result ≡ nat_cmp (spot a.now) (spot b.now) }
{
    let _first = a.priority;
    let _second = b.priority;
    a.matching
        .cmp(&b.matching)
        .then(b.priority.cmp(&a.priority))
}

/// Where a key stands in the order of groups, or where it would stand.
pub(crate) fn place(keys: &[Key], key: &Key) -> Result<usize, usize>
    requires { Ascends spot 0 keys.now }
    ensures { IsFoundAt spot (spot key.now) keys.now result }
{
    let mut low = 0;
    let mut high = keys.len();
    while low < high {
        let middle = low + (high - low) / 2;
        match group_order(&keys[middle], key) {
            Ordering::Less => low = middle + 1,
            Ordering::Equal => return Ok(middle),
            Ordering::Greater => high = middle,
        }
    }
    Err(low)
}

/// Where the group of the key at a place ends.
pub(crate) fn group_end(keys: &[Key], from: usize) -> usize
    requires in_order { Ascends spot 0 keys.now }
    requires from { from < length keys.now }
    ensures behind { from < result }
    ensures within { result ≤ length keys.now }
    ensures group { IsGroup from result keys.now }
    ensures next { (k : Key) → result < length keys.now → wildcards (slice_index_or keys.now result k).matching ≢ wildcards (slice_index_or keys.now from k).matching }
{
    let word = wildcards(&keys[from].matching);
    let mut low = from + 1;
    let mut high = keys.len();
    while low < high {
        let middle = low + (high - low) / 2;
        if wildcards(&keys[middle].matching) == word {
            low = middle + 1;
        } else {
            high = middle;
        }
    }
    low
}

/// Counts the groups.
pub(crate) fn count_groups(keys: &[Key]) -> usize
    requires { Ascends spot 0 keys.now }
    ensures { result ≡ different (map (λ k. wildcards k.matching) keys.now) }
{
    let mut count = 0;
    let mut at = 0;
    while at < keys.len() {
        at = group_end(keys, at);
        count += 1;
    }
    count
}
