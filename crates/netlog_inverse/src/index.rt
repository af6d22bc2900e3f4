//! The index of a log: where the images of keys stand in it.

ghost use Rattle.std.specs.Prelude.{◌≡◌, ◌<◌, ◌≤◌, ◌^◌, true, false, List, length, vec_capacity};
ghost use Rattle.std.specs.List.{insert};
ghost use Rattle.std.specs.Option.{is_some};
ghost use Rattle.std.specs.Ordering.{nat_cmp};
ghost use Rattle.flow_table.specs.Sorted.{Ascends, at_place, without_place};
ghost use Rattle.netlog_inverse.specs.declared.image.Logged.{Logged};
ghost use Rattle.netlog_inverse.specs.Index.{rank_of, rank, IsIndex, IsBound, IsHere, dpid_rank, start_rank};
ghost use Rattle.netlog_inverse.specs.Next.{IsFirstFrom};

use crate::rows::is_same;
use keyed_rows::compare_keys;
use of_match::Key;
use of_types::Dpid;
use std::cmp::Ordering;

/// Where an image of a key of a switch stands in a log. Spots are ordered by switches, keys and positions.
#[derive(Clone, Copy, Debug, PartialEq, Eq)]
pub(crate) struct Spot {
    pub(crate) dpid: Dpid,
    pub(crate) key: Key,
    pub(crate) at: usize,
}

/// Tells how a spot stands to one of these parts.
fn compare(spot: &Spot, dpid: Dpid, key: &Key, at: usize) -> Ordering
    ensures { result ≡ nat_cmp (rank spot.now) (rank_of dpid key.now at) }
{
    let here = spot.at;
    spot.dpid
        .cmp(&dpid)
        .then(compare_keys(&spot.key, key))
        .then(here.cmp(&at))
}

/// Tells by halves where the first spot stands that is not below one of these parts.
pub(crate) fn bound(index: &[Spot], dpid: Dpid, key: &Key, at: usize) -> usize
    requires { Ascends rank 0 index.now }
    ensures { IsBound (rank_of dpid key.now at) index.now result }
{
    let mut low = 0;
    let mut high = index.len();
    while low < high {
        let middle = low + (high - low) / 2;
        match compare(&index[middle], dpid, key, at) {
            Ordering::Less => low = middle + 1,
            Ordering::Equal => high = middle,
            Ordering::Greater => high = middle,
        }
    }
    low
}

/// Tells whether a spot is of a switch below one.
fn is_below(spot: &Spot, dpid: Dpid) -> bool
    ensures below { result ≡ true → rank spot.now < dpid_rank dpid }
    ensures above { result ≡ false → dpid_rank dpid ≤ rank spot.now }
{
    let _at = spot.at;
    spot.dpid < dpid
}

/// Tells by halves where the first spot of a switch stands, or of one above it.
fn first_of(index: &[Spot], dpid: Dpid) -> usize
    requires { Ascends rank 0 index.now }
    ensures { IsBound (dpid_rank dpid) index.now result }
{
    let mut low = 0;
    let mut high = index.len();
    while low < high {
        let middle = low + (high - low) / 2;
        if is_below(&index[middle], dpid) {
            low = middle + 1;
        } else {
            high = middle;
        }
    }
    low
}

/// Tells where the spots of a switch's keys behind a key begin, or those of all its keys.
pub(crate) fn start(index: &[Spot], dpid: Dpid, after: Option<Key>) -> usize
    requires { Ascends rank 0 index.now }
    ensures { IsBound (start_rank dpid after) index.now result }
{
    match after {
        None => first_of(index, dpid),
        Some(key) => bound(index, dpid, &key, usize::MAX),
    }
}

/// Tells at which position the first image of a key stands, from a position on.
pub(crate) fn first_from(index: &[Spot], dpid: Dpid, key: &Key, from: usize) -> Option<usize>
    requires { Ascends rank 0 index.now }
    ensures { (log : List Logged) → IsIndex log index.now → length log < 2 ^ 64 → IsFirstFrom dpid key.now from log result }
{
    let place = bound(index, dpid, key, from);
    if is_here(index, place, dpid, key) {
        Some(index[place].at)
    } else {
        None
    }
}

/// Tells whether the spot at a position is of a key of a switch.
pub(crate) fn is_here(index: &[Spot], at: usize, dpid: Dpid, key: &Key) -> bool
    ensures { IsHere dpid key.now at index.now result }
{
    at < index.len() && index[at].dpid == dpid && is_same(&index[at].key, key)
}

/// Puts a spot before another one, where there is room for it.
pub(crate) fn insert_spot(index: &mut Vec<Spot>, at: usize, spot: Spot)
    requires at { at ≤ length index.old.items }
    requires room { length index.old.items < vec_capacity index.old }
    ensures items { index.new.items ≡ insert index.old.items at spot }
    ensures room { vec_capacity index.new ≡ vec_capacity index.old }
{
    index.insert(at, spot).unwrap();
}

/// Takes the spot of these parts out, which is there.
pub(crate) fn remove_spot(index: &mut Vec<Spot>, dpid: Dpid, key: &Key, at: usize)
    requires in_order { Ascends rank 0 index.old.items }
    requires there { is_some (at_place rank (rank_of dpid key.now at) index.old.items) ≡ true }
    ensures items { index.new.items ≡ without_place rank (rank_of dpid key.now at) index.old.items }
    ensures room { vec_capacity index.new ≡ vec_capacity index.old }
{
    let place = bound(index, dpid, key, at);
    index.remove(place);
}
