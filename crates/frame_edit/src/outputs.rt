//! What is sent out, and by which ports.

ghost use Rattle.std.specs.Prelude.{◌≡◌, ◌↔◌, [], length, IsTrue};
ghost use Rattle.std.specs.Slice.Iter.{iter_rest};

use of_types::{ByteList, PortNo};
use std::alloc::Global;
use std::marker::Model;
use std::slice;

/// Frames in the order in which they are sent out, each with its port. Contracts see the list of pairs of
/// a port and bytes.
#[derive(Drop, Debug, Clone)]
pub struct OutList {
    frames: Vec<(PortNo, ByteList)>,
}

impl Model for OutList {
    ghost use Rattle.std.specs.Prelude.{List, ℕ};

    ghost Value = { List (ℕ × List ℕ) };

    ghost view = { λ s. s.frames.items };
}

impl OutList {
    /// Makes an empty list; takes no memory.
    pub fn new(alloc: Global) -> OutList
        ensures { result ≡ [] }
    {
        OutList {
            frames: Vec::new(alloc),
        }
    }

    /// Makes a vector into the list of its frames; takes no memory.
    pub fn from_vec(frames: Vec<(PortNo, ByteList)>) -> OutList
        ensures { result ≡ frames.items }
    {
        OutList { frames }
    }

    /// Gives the vector back; takes no memory.
    pub fn into_vec(self) -> Vec<(PortNo, ByteList)>
        ensures { result.items ≡ self }
    {
        self.frames
    }

    /// Lends the frames with their ports as a slice.
    pub fn as_slice(&self) -> &[(PortNo, ByteList)]
        ensures { result.now ≡ self.now }
    {
        self.frames.as_slice()
    }

    /// Goes over the frames, from the first to the last.
    pub fn iter(&self) -> slice::Iter<'_, (PortNo, ByteList)>
        ensures { iter_rest result ≡ self.now }
    {
        self.frames.iter()
    }

    /// Counts the frames.
    pub fn len(&self) -> usize
        ensures { result ≡ length self.now }
    {
        self.frames.len()
    }

    /// Tells whether there are no frames.
    pub fn is_empty(&self) -> bool
        ensures { IsTrue result ↔ (self.now ≡ []) }
    {
        self.frames.is_empty()
    }
}
