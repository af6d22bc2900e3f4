//! Which entry a packet hits, and what is counted at entries.

ghost use Rattle.std.specs.Prelude.{◌≡◌, ◌<◌, length, slice_get, Some};
ghost use Rattle.flow_table.specs.declared.entry.Entry.{Entry};
ghost use Rattle.flow_table.specs.Table.{IsPositionOf, with_entry};
ghost use Rattle.flow_table.specs.Hit.{best, counted, hit, with_more, with_counts};
ghost use Rattle.tuple_index.specs.Groups.{IsIndexed};

use crate::describing::position;
use crate::hitting::find;
use flow_table::Entry;
use of_match::{Key, PacketKey};

/// Where the entry stands that a packet with these fields hits.
pub(crate) fn lookup(entries: &[Entry], index: &[Key], k: &PacketKey) -> Option<usize>
    requires { IsIndexed index.now entries.now }
    ensures { IsPositionOf (best k.now entries.now) entries.now result }
{
    match find(index, k) {
        None => None,
        Some(at) => match position(entries, &index[at]) {
            Ok(place) => Some(place),
            Err(_) => None,
        },
    }
}

/// Counts one packet of `len` bytes.
fn count(entry: &mut Entry, len: u32, now: u64)
    ensures { entry.new ≡ counted len now entry.old }
{
    entry.packets = entry.packets.wrapping_add(1);
    entry.bytes = entry.bytes.wrapping_add(u64::from(len));
    entry.used = now;
}

/// Counts a packet of `len` bytes at the entry that stands at a place.
pub(crate) fn count_at(entries: &mut [Entry], index: &[Key], i: usize, len: u32, now: u64)
    requires indexed { IsIndexed index.now entries.old }
    requires within { i < length entries.old }
    ensures entries { (e : Entry) → slice_get entries.old i ≡ Some e → entries.new ≡ with_entry (counted len now e) entries.old }
    ensures indexed { IsIndexed index.now entries.new }
{
    count(&mut entries[i], len, now);
}

/// Counts a packet of `len` bytes at the entry that it hits, and says where that entry stands.
pub(crate) fn hit(
    entries: &mut [Entry],
    index: &[Key],
    k: &PacketKey,
    len: u32,
    now: u64,
) -> Option<usize>
    requires { IsIndexed index.now entries.old }
    ensures found { IsPositionOf (best k.now entries.old) entries.old result }
    ensures entries { entries.new ≡ hit k.now len now entries.old }
    ensures indexed { IsIndexed index.now entries.new }
{
    let found = lookup(entries, index, k);
    if let Some(i) = found {
        count_at(entries, index, i, len, now);
    }
    found
}

/// Adds so many packets and bytes if the entry has the priority, modulo 2^64.
fn add(entry: &mut Entry, priority: u16, packets: u64, bytes: u64)
    ensures { entry.new ≡ with_more priority packets bytes entry.old }
{
    if entry.key.priority == priority {
        entry.packets = entry.packets.wrapping_add(packets);
        entry.bytes = entry.bytes.wrapping_add(bytes);
    }
}

/// Adds so many packets and bytes to each entry of a priority, modulo 2^64.
#[tactic(auto, unfolding(flow_table::specs::Hit::with_counts))]
pub(crate) fn add_counts(
    entries: &mut [Entry],
    index: &[Key],
    priority: u16,
    packets: u64,
    bytes: u64,
)
    requires { IsIndexed index.now entries.old }
    ensures entries { entries.new ≡ with_counts priority packets bytes entries.old }
    ensures indexed { IsIndexed index.now entries.new }
{
    for entry in entries.iter_mut() {
        add(entry, priority, packets, bytes);
    }
}
