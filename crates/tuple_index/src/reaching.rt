//! Which groups a description with wildcards reaches, and whether it meets a key there.

ghost use Rattle.std.specs.Prelude.{◌≡◌, ℕ, true, false, ◌<◌, ◌≤◌, length, slice_index_or, MatchBool};
ghost use Rattle.std.specs.List.{list_any};
ghost use Rattle.of_match.specs.declared.key.Key.{Key};
ghost use Rattle.of_match.specs.Match.{fields_in};
ghost use Rattle.match_overlap.specs.Relations.{is_subsuming};
ghost use Rattle.flow_table.specs.Sorted.{Ascends};
ghost use Rattle.tuple_index.specs.Groups.{spot, IsGroup};
ghost use Rattle.tuple_index.specs.Reach.{value_reaches, prefix_reaches, link_reaches, frame_reaches, network_reaches, fields_reach, key_clashes};

use crate::grouping::{group_end, key_order, wildcards};
use match_overlap::{overlaps, subsumes};
use of_match::{Fields, Key, Match};
use std::cmp::Ordering;

fn byte_reaches(first: Option<u8>, second: Option<u8>) -> bool
    ensures { result ≡ value_reaches first second }
{
    match (first, second) {
        (Some(_), None) => false,
        (None, _) | (Some(_), Some(_)) => true,
    }
}

fn half_reaches(first: Option<u16>, second: Option<u16>) -> bool
    ensures { result ≡ value_reaches first second }
{
    match (first, second) {
        (Some(_), None) => false,
        (None, _) | (Some(_), Some(_)) => true,
    }
}

fn address_reaches(first: Option<[u8; 6]>, second: Option<[u8; 6]>) -> bool
    ensures { result ≡ value_reaches first second }
{
    match (first, second) {
        (Some(_), None) => false,
        (None, _) | (Some(_), Some(_)) => true,
    }
}

fn network_prefix_reaches(first: Option<(u32, u8)>, second: Option<(u32, u8)>) -> bool
    ensures { result ≡ prefix_reaches first second }
{
    match (first, second) {
        (None, _) => true,
        (Some(_), None) => false,
        (Some((_, short)), Some((_, long))) => short <= long,
    }
}

fn link_test(f: Fields, g: Fields) -> bool
    ensures { result ≡ link_reaches f g }
{
    half_reaches(f.in_port, g.in_port)
        && address_reaches(f.dl_src, g.dl_src)
        && address_reaches(f.dl_dst, g.dl_dst)
        && half_reaches(f.dl_vlan, g.dl_vlan)
}

fn frame_test(f: Fields, g: Fields) -> bool
    ensures { result ≡ frame_reaches f g }
{
    byte_reaches(f.dl_vlan_pcp, g.dl_vlan_pcp)
        && half_reaches(f.dl_type, g.dl_type)
        && byte_reaches(f.nw_tos, g.nw_tos)
        && byte_reaches(f.nw_proto, g.nw_proto)
}

fn network_test(f: Fields, g: Fields) -> bool
    ensures { result ≡ network_reaches f g }
{
    network_prefix_reaches(f.nw_src, g.nw_src)
        && network_prefix_reaches(f.nw_dst, g.nw_dst)
        && half_reaches(f.tp_src, g.tp_src)
        && half_reaches(f.tp_dst, g.tp_dst)
}

#[tactic(auto, unfolding(crate::specs::Reach::fields_reach))]
fn fields_reach(f: Fields, g: Fields) -> bool
    ensures { result ≡ fields_reach f g }
{
    link_test(f, g) && frame_test(f, g) && network_test(f, g)
}

/// Whether a match may subsume one with the wildcards of another.
fn reaches(m: &Match, group: &Match) -> bool
    ensures { result ≡ fields_reach (fields_in m.now) (fields_in group.now) }
{
    fields_reach(m.fields(), group.fields())
}

/// Whether a match subsumes that of some key.
fn subsumes_one(keys: &[Key], m: &Match) -> bool
    ensures { result ≡ list_any (λ k. is_subsuming m.now k.matching) keys.now }
{
    keys.iter().any(|key| subsumes(m, &key.matching))
}

/// Whether a match subsumes that of some key of a group, which is passed over where the match does not reach it.
fn subsumes_in_group(keys: &[Key], m: &Match, from: usize, end: usize) -> bool
    requires from { from < end }
    requires end { end ≤ length keys.now }
    requires group { IsGroup from end keys.now }
    ensures { MatchBool result
        (list_any (λ k. is_subsuming m.now k.matching) keys.now ≡ true)
        ((i : ℕ) (k : Key) → from ≤ i → i < end → is_subsuming m.now (slice_index_or keys.now i k).matching ≡ false) }
{
    reaches(m, &keys[from].matching) && subsumes_one(&keys[from..end], m)
}

/// Whether a match subsumes that of some key of an index.
pub(crate) fn subsumes_some(keys: &[Key], m: &Match) -> bool
    requires { Ascends spot 0 keys.now }
    ensures { result ≡ list_any (λ k. is_subsuming m.now k.matching) keys.now }
{
    let mut at = 0;
    while at < keys.len() {
        let end = group_end(keys, at);
        if subsumes_in_group(keys, m, at, end) {
            return true;
        }
        at = end;
    }
    false
}

/// Whether the second key has the priority of the first, another match, and some packet in common with it.
fn is_clash(key: &Key, other: &Key) -> bool
    ensures { result ≡ key_clashes key.now other.now }
{
    other.priority == key.priority
        && key_order(other, key) != Ordering::Equal
        && overlaps(&other.matching, &key.matching)
}

/// Whether some key clashes with this one.
fn clashes_one(keys: &[Key], key: &Key) -> bool
    ensures { result ≡ list_any (key_clashes key.now) keys.now }
{
    keys.iter().any(|other| is_clash(key, other))
}

/// Whether some key of a group clashes with this one; its own group is passed over, since of that no two matches have a packet in
/// common.
fn clashes_in_group(keys: &[Key], key: &Key, from: usize, end: usize) -> bool
    requires from { from < end }
    requires end { end ≤ length keys.now }
    requires group { IsGroup from end keys.now }
    ensures { MatchBool result
        (list_any (key_clashes key.now) keys.now ≡ true)
        ((i : ℕ) (k : Key) → from ≤ i → i < end → key_clashes key.now (slice_index_or keys.now i k) ≡ false) }
{
    wildcards(&keys[from].matching) != wildcards(&key.matching)
        && clashes_one(&keys[from..end], key)
}

/// Whether some key of an index clashes with this one.
pub(crate) fn clashes_some(keys: &[Key], key: &Key) -> bool
    requires { Ascends spot 0 keys.now }
    ensures { result ≡ list_any (key_clashes key.now) keys.now }
{
    let mut at = 0;
    while at < keys.len() {
        let end = group_end(keys, at);
        if clashes_in_group(keys, key, at, end) {
            return true;
        }
        at = end;
    }
    false
}
