//! A list of bytes.

ghost use Rattle.std.specs.Prelude.{◌≡◌, ◌==◌, ◌↔◌, [], length, IfOk, IsTrue};
ghost use Rattle.std.specs.Slice.Iter.{iter_rest};

use std::alloc::{AllocError, Global};
use std::cmp::{Eq, PartialEq};
use std::marker::Model;
use std::slice;

/// Bytes in order. Contracts see the list of their values, and nothing of capacity or address.
#[derive(Drop, Debug, Clone)]
pub struct ByteList {
    bytes: Vec<u8>,
}

impl Model for ByteList {
    ghost use Rattle.std.specs.Prelude.{List, ℕ};

    ghost Value = { List ℕ };

    ghost view = { λ s. s.bytes.items };
}

impl ByteList {
    /// Makes an empty list; takes no memory.
    pub fn new(alloc: Global) -> ByteList
        ensures { result ≡ [] }
    {
        ByteList {
            bytes: Vec::new(alloc),
        }
    }

    /// Makes a vector into the list of its bytes; takes no memory.
    pub fn from_vec(bytes: Vec<u8>) -> ByteList
        ensures { result ≡ bytes.items }
    {
        ByteList { bytes }
    }

    /// Copies the bytes of a slice. `AllocError` where there is no memory for them.
    pub fn from_slice(alloc: Global, bytes: &[u8]) -> Result<ByteList, AllocError>
        ensures { IfOk result (λ c. c ≡ bytes.now) }
    {
        Ok(ByteList {
            bytes: Vec::from_slice(alloc, bytes)?,
        })
    }

    /// Gives the vector back; takes no memory.
    pub fn into_vec(self) -> Vec<u8>
        ensures { result.items ≡ self }
    {
        self.bytes
    }

    /// Lends the bytes as a slice.
    pub fn as_slice(&self) -> &[u8]
        ensures { result.now ≡ self.now }
    {
        self.bytes.as_slice()
    }

    /// Goes over the bytes, from the first to the last.
    pub fn iter(&self) -> slice::Iter<'_, u8>
        ensures { iter_rest result ≡ self.now }
    {
        self.bytes.iter()
    }

    /// Counts the bytes.
    pub fn len(&self) -> usize
        ensures { result ≡ length self.now }
    {
        self.bytes.len()
    }

    /// Tells whether there are no bytes.
    pub fn is_empty(&self) -> bool
        ensures { IsTrue result ↔ (self.now ≡ []) }
    {
        self.bytes.is_empty()
    }
}

impl PartialEq for ByteList {
    ghost use Rattle.std.specs.Prelude.{nat_eq};
    ghost use Rattle.std.specs.Cmp.Lexicographic.{pointwise};
    ghost use Rattle.std.specs.Cmp.Rules.{comparing};
    ghost use Rattle.std.proofs.Common.{rules};

    ghost eq = { λ x y. pointwise nat_eq x y };

    ghost laws = { Prim.search (comparing, rules) };

    fn eq(&self, other: &ByteList) -> bool {
        self.bytes == other.bytes
    }
}

impl Eq for ByteList {
    ghost use Rattle.std.specs.Cmp.Rules.{comparing};
    ghost use Rattle.std.proofs.Common.{rules};

    ghost laws = { Prim.search (comparing, rules) };
}
