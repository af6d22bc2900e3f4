//! Which entry a packet hits, and what it counts there.

ghost use Rattle.std.specs.Prelude.{◌≡◌, ◌+◌, ◌<◌, nat_lt, drop, length};
ghost use Rattle.flow_table.specs.Table.{IsTable, IsPositionOf};
ghost use Rattle.flow_table.specs.Hit.{rank, best, counted, hit, with_more, with_counts};

use crate::entry::Entry;
use of_match::{PacketKey, covers};

/// How an entry ranks among those that cover a packet: one whose match has no wildcard above each that has
/// one, otherwise by priority (OpenFlow 1.0.0, 3.4 Matching).
#[tactic(auto, unfolding(crate::specs::Hit::rank))]
fn rank(entry: &Entry) -> u32
    ensures { result ≡ rank entry.now }
{
    let priority = u32::from(entry.key.priority);
    if entry.key.matching.is_exact() {
        65_536 + priority
    } else {
        priority
    }
}

/// Whether the first entry has the greater rank.
pub(crate) fn outranks(a: &Entry, b: &Entry) -> bool
    ensures { result ≡ nat_lt (rank b.now) (rank a.now) }
{
    rank(b) < rank(a)
}

/// The position of the better one of the i-th entry and the best of those behind it.
fn better(entries: &[Entry], i: usize, behind: Option<usize>, k: &PacketKey) -> Option<usize>
    requires within { i < length entries.now }
    requires behind { IsPositionOf (best k.now (drop (i + 1) entries.now)) entries.now behind }
    ensures { IsPositionOf (best k.now (drop i entries.now)) entries.now result }
{
    let entry = &entries[i];
    if !covers(&entry.key.matching, k) {
        return behind;
    }
    match behind {
        None => Some(i),
        Some(j) if outranks(&entries[j], entry) => Some(j),
        Some(_) => Some(i),
    }
}

/// Where the entry stands that a packet with these fields hits, of entries in key order.
pub(crate) fn lookup(entries: &[Entry], k: &PacketKey) -> Option<usize>
    ensures { IsPositionOf (best k.now entries.now) entries.now result }
{
    let mut found = None;
    for i in (0..entries.len()).rev() {
        found = better(entries, i, found, k);
    }
    found
}

/// Counts one packet of `len` bytes.
pub(crate) fn count(entry: &mut Entry, len: u32, now: u64)
    ensures { entry.new ≡ counted len now entry.old }
{
    entry.packets = entry.packets.wrapping_add(1);
    entry.bytes = entry.bytes.wrapping_add(u64::from(len));
    entry.used = now;
}

/// Counts a packet of `len` bytes at the entry that it hits, and says where that entry stands.
#[tactic(auto, unfolding(crate::specs::Hit::hit))]
pub(crate) fn hit(entries: &mut [Entry], k: &PacketKey, len: u32, now: u64) -> Option<usize>
    requires { IsTable entries.old }
    ensures found { IsPositionOf (best k.now entries.old) entries.old result }
    ensures entries { entries.new ≡ hit k.now len now entries.old }
    ensures table { IsTable entries.new }
{
    let found = lookup(entries, k);
    if let Some(i) = found {
        count(&mut entries[i], len, now);
    }
    found
}

/// Adds so many packets and bytes if the entry has the priority, modulo 2^64.
fn add(entry: &mut Entry, priority: u16, packets: u64, bytes: u64)
    ensures { entry.new ≡ with_more priority packets bytes entry.old }
{
    if entry.key.priority == priority {
        entry.packets = entry.packets.wrapping_add(packets);
        entry.bytes = entry.bytes.wrapping_add(bytes);
    }
}

/// Adds so many packets and bytes to each entry of a priority, modulo 2^64.
#[tactic(auto, unfolding(crate::specs::Hit::with_counts))]
pub(crate) fn add_counts(entries: &mut [Entry], priority: u16, packets: u64, bytes: u64)
    requires { IsTable entries.old }
    ensures entries { entries.new ≡ with_counts priority packets bytes entries.old }
    ensures table { IsTable entries.new }
{
    for entry in entries.iter_mut() {
        add(entry, priority, packets, bytes);
    }
}
