//! Replies in parts.

ghost use Rattle.std.specs.Prelude.{◌≡◌, ◌≤◌, ◌<◌, ◌+◌, ◌↔◌, ℕ, List, length, map, take, Ok, All, IfOk, IsErrOf, IsTrue, MatchOption};
ghost use Rattle.std.specs.List.{concat};
ghost use Rattle.of_stats.specs.declared.flow_row.FlowRow.{FlowRow};
ghost use Rattle.of_stats.specs.Flows.{row_bytes, AreRows};
ghost use Rattle.of_stats.specs.Reading.{rows_of};
ghost use Rattle.of_stats.specs.Parts.{Part, room, IsFull, AreParts, IsInPlace, IsWhole, IsFirstBad, joined};

use crate::fault::StatsFault;
use of_types::limits::MOST_PART_BYTES;
use of_types::{ByteList, stats};
use std::alloc::{AllocError, Global};

/// How many bytes of rows fit a part.
const ROOM: usize = MOST_PART_BYTES;

/// How many rows from the front on fit a part.
fn count_fitting(rows: &[ByteList]) -> usize
    requires { All (λ row. length row ≤ room) rows.now }
    ensures within { result ≤ length rows.now }
    ensures fit { length (concat (take result rows.now)) ≤ room }
    ensures full { result < length rows.now → IsFull result rows.now }
{
    let mut size = 0;
    for (count, row) in rows.iter().enumerate() {
        size += row.len();
        if size > ROOM {
            return count;
        }
    }
    rows.len()
}

/// The rows, one after the other.
fn concat_rows(alloc: Global, rows: &[ByteList]) -> Result<ByteList, AllocError>
    ensures { IfOk result (λ bytes. bytes ≡ concat rows.now) }
{
    let mut bytes = Vec::new(alloc);
    for row in rows {
        bytes.extend_from_slice(row.as_slice())?;
    }
    Ok(ByteList::from_vec(bytes))
}

/// The part of an index has the first one's type, and says that more follow exactly where they do.
fn is_in_place(parts: &[(u16, u16, ByteList)], place: usize) -> bool
    requires { place < length parts.now }
    ensures { IsTrue result ↔ IsInPlace place parts.now }
{
    let (kind, flags, _) = &parts[place];
    let says_more = flags & stats::MORE == stats::MORE;
    let more_follow = place + 1 < parts.len();
    *kind == parts[0].0 && says_more == more_follow
}

/// The index of the first part that is not in its place; 0 where there is no part.
fn first_bad(parts: &[(u16, u16, ByteList)]) -> Option<usize>
    ensures { MatchOption result (IsWhole parts.now) (λ place. IsFirstBad place parts.now) }
{
    if parts.is_empty() {
        return Some(0);
    }
    for place in 0..parts.len() {
        if !is_in_place(parts, place) {
            return Some(place);
        }
    }
    None
}

/// The bodies, one after the other.
fn concat_bodies(alloc: Global, parts: &[(u16, u16, ByteList)]) -> Result<ByteList, AllocError>
    ensures { IfOk result (λ bytes. bytes ≡ joined parts.now) }
{
    let mut bytes = Vec::new(alloc);
    for (_, _, body) in parts {
        bytes.extend_from_slice(body.as_slice())?;
    }
    Ok(ByteList::from_vec(bytes))
}

/// Joins the parts in which a reply came, each with its type, flags and body, to one body.
///
/// `NoMemory` where there is no memory for it. `Bad` has the index of the first part that has not the first one's type, or whose flags do not say that
/// more follow exactly where they do; it is 0 where there is no part.
pub fn join_replies(alloc: Global, parts: &[(u16, u16, ByteList)]) -> Result<ByteList, StatsFault>
    ensures joined { IfOk result (λ body. IsWhole parts.now × (body ≡ joined parts.now)) }
    ensures bad { (place : ℕ) → IsErrOf result (StatsFault.Bad place) ↔ IsFirstBad place parts.now }
{
    match first_bad(parts) {
        Some(place) => Err(StatsFault::Bad { place }),
        None => Ok(concat_bodies(alloc, parts)?),
    }
}

/// Splits a reply of these rows into parts, each with its type, flags and body. There is one part at least; a part
/// has as many whole rows as fit 65,523 bytes, and each row is to fit. `AllocError` where there is no memory for them.
pub fn split_reply(
    alloc: Global,
    kind: u16,
    rows: &[ByteList],
) -> Result<Vec<(u16, u16, ByteList)>, AllocError>
    requires { All (λ row. length row ≤ room) rows.now }
    ensures { IfOk result (λ parts. AreParts kind rows.now parts.items) }
{
    let mut parts = Vec::new(alloc);
    let mut rest = rows;
    loop {
        let (front, back) = rest.split_at(count_fitting(rest));
        let body = concat_rows(alloc, front)?;
        if back.is_empty() {
            parts.push((kind, 0, body))?;
            return Ok(parts);
        }
        parts.push((kind, stats::MORE, body))?;
        rest = back;
    }
}

/// States that joining what was split gives the rows in order, and that rows are split in one way. So rows of flows that were
/// written, split and joined are read again.
pub fn laws_of_parts()
    ensures whole { (kind : ℕ) (rows : List (List ℕ)) (parts : List Part) → AreParts kind rows parts → IsWhole parts }
    ensures rows { (kind : ℕ) (rows : List (List ℕ)) (parts : List Part) → AreParts kind rows parts
        → joined parts ≡ concat rows }
    ensures one_split { (kind : ℕ) (rows : List (List ℕ)) (parts others : List Part) → AreParts kind rows parts
        → AreParts kind rows others → parts ≡ others }
    ensures flows { (kind : ℕ) (rows : List FlowRow) (parts : List Part) → AreRows rows
        → AreParts kind (map row_bytes rows) parts → rows_of (joined parts) ≡ Ok rows }
{}
