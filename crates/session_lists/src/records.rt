//! Short records, one behind the other in one block of memory.

ghost use Rattle.std.specs.Prelude.{◌≡◌, ◌+◌, ◌-◌, ◌<◌, ◌≤◌, [], ◌∷◌, ◌++◌, length, take, drop, Some, IfOk, OnOk, OnErr, slice_get};
ghost use Rattle.session_lists.specs.Records.{records_in as all_records, IsCut as IsCutSo};
ghost use Rattle.session_lists.specs.laws.RecordLaws.{start_of};

use std::alloc::{AllocError, Global};
use std::marker::Model;

/// A list of records, each of which has a kind and bytes. A record takes its bytes, its kind, and four bytes. Contracts
/// see a list of pairs.
#[derive(Drop, Debug)]
pub(crate) struct Records<K> {
    kinds: Vec<K>,
    ends: Vec<u32>,
    bytes: Vec<u8>,
}

impl<K> Model for Records<K> {
    ghost use Rattle.std.specs.Prelude.{List, ℕ, length};
    ghost use Rattle.session_lists.specs.Records.{records_in, IsCut};

    ghost Value = { List (K × List ℕ) };

    ghost view = { λ s. records_in 0 s.kinds.items s.ends.items s.bytes.items };

    ghost invariant = { λ s. IsCut 0 s.kinds.items s.ends.items (length s.bytes.items) };
}

/// Finds where the record of a number begins.
fn start_in(ends: &[u32], number: usize) -> usize
    requires { number ≤ length ends.now }
    ensures { result ≡ start_of 0 ends.now number }
{
    if number == 0 {
        0
    } else {
        ends[number - 1] as usize
    }
}

/// Finds where a record of these two pieces ends behind the bytes, if 32 bits count that far.
fn end_with(bytes: &[u8], head: &[u8], tail: &[u8]) -> Result<u32, AllocError>
    ensures { IfOk result (λ end. end ≡ length bytes.now + length (head.now ++ tail.now)) }
{
    let more = head.len() + tail.len();
    match bytes.len().checked_add(more) {
        Some(end) => u32::try_from(end).map_err(|_| AllocError),
        None => Err(AllocError),
    }
}

/// Puts two pieces behind the bytes.
fn extend(bytes: &mut Vec<u8>, head: &[u8], tail: &[u8]) -> Result<(), AllocError>
    ensures ok { OnOk result (bytes.new.items ≡ bytes.old.items ++ (head.now ++ tail.now)) }
    ensures err { OnErr result (bytes.new.items ≡ bytes.old.items) }
{
    bytes.reserve(head.len() + tail.len())?;
    let _ = bytes.extend_from_slice(head);
    let _ = bytes.extend_from_slice(tail);
    Ok(())
}

/// Lends the bytes from one place to another.
fn piece_of(bytes: &[u8], start: usize, end: usize) -> &[u8]
    requires rises { start ≤ end }
    requires within { end ≤ length bytes.now }
    ensures { result.now ≡ take (end - start) (drop start bytes.now) }
{
    &bytes[start..end]
}

/// Lends the record of a number.
fn record_of<'a, K: Copy>(
    kinds: &[K],
    ends: &[u32],
    bytes: &'a [u8],
    number: usize,
) -> (K, &'a [u8])
    requires cut { IsCutSo 0 kinds.now ends.now (length bytes.now) }
    requires within { number < length kinds.now }
    ensures { slice_get (all_records 0 kinds.now ends.now bytes.now) number ≡ Some (result.0, result.1.now) }
{
    let start = start_in(ends, number);
    let end = ends[number] as usize;
    (kinds[number], piece_of(bytes, start, end))
}

impl<K: Copy> Records<K> {
    /// Returns a list of no records; takes no memory.
    pub(crate) fn new(alloc: Global) -> Records<K>
        ensures { result ≡ [] }
    {
        Records {
            kinds: Vec::new(alloc),
            ends: Vec::new(alloc),
            bytes: Vec::new(alloc),
        }
    }

    /// Tells how many records there are.
    pub(crate) fn len(&self) -> usize
        ensures { result ≡ length self.now }
    {
        self.kinds.as_slice().len()
    }

    /// Adds one record, of two pieces. Want of memory changes nothing, nor does a record beyond 4 GiB of bytes.
    pub(crate) fn push(&mut self, kind: K, head: &[u8], tail: &[u8]) -> Result<(), AllocError>
        ensures ok { OnOk result (self.new ≡ self.old ++ (kind, head.now ++ tail.now) ∷ []) }
        ensures err { OnErr result (self.new ≡ self.old) }
    {
        let end = end_with(&self.bytes, head, tail)?;
        self.kinds.reserve(1)?;
        self.ends.reserve(1)?;
        extend(&mut self.bytes, head, tail)?;
        self.ends.push_reserved(end);
        self.kinds.push_reserved(kind);
        Ok(())
    }

    /// Lends the record of a number, counted from 0.
    pub(crate) fn get(&self, number: usize) -> (K, &[u8])
        requires { number < length self.now }
        ensures { slice_get self.now number ≡ Some (result.0, result.1.now) }
    {
        record_of(&self.kinds, &self.ends, &self.bytes, number)
    }
}
