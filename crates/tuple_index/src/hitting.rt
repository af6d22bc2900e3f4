//! Which key of an index a packet takes: of each group the one with the packet's values, and of those the best.

ghost use Rattle.std.specs.Prelude.{◌≡◌, ℕ, ◌<◌, ◌≤◌, length, MatchBool};
ghost use Rattle.of_match.specs.Fields.{IsFields, HasPrefixes, normal_fields};
ghost use Rattle.of_match.specs.Match.{fields_in};
ghost use Rattle.flow_table.specs.Sorted.{Ascends};
ghost use Rattle.tuple_index.specs.Groups.{spot, IsFirstFrom, IsGroup};
ghost use Rattle.tuple_index.specs.Masked.{filled, filled_prefix, masked};
ghost use Rattle.tuple_index.specs.Taken.{key_rank, Prevails, IsTaken, IsTakenInGroup};

use crate::grouping::{group_end, key_order, place};
use of_match::{Fields, Key, Match, PacketKey};
use std::cmp::Ordering;

fn fill_byte(field: Option<u8>, value: u8) -> Option<u8>
    ensures { result ≡ filled field value }
{
    match field {
        None => None,
        Some(_) => Some(value),
    }
}

fn fill_half(field: Option<u16>, value: u16) -> Option<u16>
    ensures { result ≡ filled field value }
{
    match field {
        None => None,
        Some(_) => Some(value),
    }
}

fn fill_address(field: Option<[u8; 6]>, value: [u8; 6]) -> Option<[u8; 6]>
    ensures { result ≡ filled field value }
{
    match field {
        None => None,
        Some(_) => Some(value),
    }
}

fn fill_prefix(field: Option<(u32, u8)>, address: u32) -> Option<(u32, u8)>
    ensures { result ≡ filled_prefix field address }
{
    match field {
        None => None,
        Some((_, len)) => Some((address, len)),
    }
}

/// The values of a packet in the fields that are not any.
#[tactic(auto, unfolding(crate::specs::Masked::masked))]
fn fill(f: Fields, k: PacketKey) -> Fields
    requires { IsFields f }
    ensures value { result ≡ masked f k }
    ensures prefixes { HasPrefixes result }
{
    Fields {
        in_port: fill_half(f.in_port, k.in_port),
        dl_src: fill_address(f.dl_src, k.dl_src),
        dl_dst: fill_address(f.dl_dst, k.dl_dst),
        dl_vlan: fill_half(f.dl_vlan, k.dl_vlan),
        dl_vlan_pcp: fill_byte(f.dl_vlan_pcp, k.dl_vlan_pcp),
        dl_type: fill_half(f.dl_type, k.dl_type),
        nw_tos: fill_byte(f.nw_tos, k.nw_tos),
        nw_proto: fill_byte(f.nw_proto, k.nw_proto),
        nw_src: fill_prefix(f.nw_src, k.nw_src),
        nw_dst: fill_prefix(f.nw_dst, k.nw_dst),
        tp_src: fill_half(f.tp_src, k.tp_src),
        tp_dst: fill_half(f.tp_dst, k.tp_dst),
    }
}

/// The match with a packet's values wherever a match has one.
fn mask(m: &Match, k: &PacketKey) -> Match
    ensures { fields_in result ≡ normal_fields (masked (fields_in m.now) k.now) }
{
    Match::new(&fill(m.fields(), *k))
}

/// The first place at which a key stands that is not before the given one.
fn first_from(keys: &[Key], key: &Key) -> usize
    requires { Ascends spot 0 keys.now }
    ensures { IsFirstFrom (spot key.now) keys.now result }
{
    match place(keys, key) {
        Ok(at) => at,
        Err(at) => at,
    }
}

/// The key that a packet takes of the group of the one at a place.
fn taken_in_group(keys: &[Key], at: usize, k: &PacketKey) -> Option<usize>
    requires in_order { Ascends spot 0 keys.now }
    requires at { at < length keys.now }
    ensures { IsTakenInGroup at k.now keys.now result }
{
    let wanted = mask(&keys[at].matching, k);
    let first = first_from(
        keys,
        &Key {
            priority: u16::MAX,
            matching: wanted,
        },
    );
    if first < keys.len() && keys[first].matching == wanted {
        Some(first)
    } else {
        None
    }
}

/// The rank of an entry with this key: one whose match has no wildcard stands above each that has one, otherwise the
/// priority decides (OpenFlow 1.0.0, 3.4 Matching).
#[tactic(auto, unfolding(crate::specs::Taken::key_rank))]
fn rank(key: &Key) -> u32
    ensures { result ≡ key_rank key.now }
{
    let priority = u32::from(key.priority);
    if key.matching.is_exact() {
        65_536 + priority
    } else {
        priority
    }
}

/// Whether the first key is taken before the second.
fn prevails(a: &Key, b: &Key) -> bool
    ensures { MatchBool result (Prevails a.now b.now) (Prevails b.now a.now) }
{
    let first = rank(a);
    let second = rank(b);
    if first == second {
        key_order(a, b) != Ordering::Greater
    } else {
        second < first
    }
}

/// Of the key that was taken of those before a group, and the one of the group, the one that is taken.
fn take_group(
    keys: &[Key],
    k: &PacketKey,
    from: usize,
    end: usize,
    found: Option<usize>,
) -> Option<usize>
    requires in_order { Ascends spot 0 keys.now }
    requires from { from < length keys.now }
    requires group { IsGroup from end keys.now }
    requires found { IsTaken from k.now keys.now found }
    ensures { IsTaken end k.now keys.now result }
{
    match (found, taken_in_group(keys, from, k)) {
        (None, here) => here,
        (Some(a), None) => Some(a),
        (Some(a), Some(b)) if prevails(&keys[a], &keys[b]) => Some(a),
        (Some(_), Some(b)) => Some(b),
    }
}

/// The key that a packet takes, of each group by one search.
pub(crate) fn find(keys: &[Key], k: &PacketKey) -> Option<usize>
    requires { Ascends spot 0 keys.now }
    ensures { IsTaken (length keys.now) k.now keys.now result }
{
    let mut found = None;
    let mut at = 0;
    while at < keys.len() {
        let end = group_end(keys, at);
        found = take_group(keys, k, at, end, found);
        at = end;
    }
    found
}
