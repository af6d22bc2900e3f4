//! A list of whole frames.

ghost use Rattle.std.specs.Prelude.{◌≡◌, ◌↔◌, [], length, IsTrue};
ghost use Rattle.std.specs.Slice.Iter.{iter_rest};

use of_types::ByteList;
use std::alloc::Global;
use std::marker::Model;
use std::slice;

/// Frames as bytes, each with its length word, in their order. Contracts see a list of lists of bytes.
#[derive(Drop, Debug, Clone)]
pub struct FrameList {
    frames: Vec<ByteList>,
}

impl Model for FrameList {
    ghost use Rattle.std.specs.Prelude.{List, ℕ};

    ghost Value = { List (List ℕ) };

    ghost view = { λ s. s.frames.items };
}

impl FrameList {
    /// Makes an empty list; takes no memory.
    pub fn new(alloc: Global) -> FrameList
        ensures { result ≡ [] }
    {
        FrameList {
            frames: Vec::new(alloc),
        }
    }

    /// Makes a vector into the list of its frames; takes no memory.
    pub fn from_vec(frames: Vec<ByteList>) -> FrameList
        ensures { result ≡ frames.items }
    {
        FrameList { frames }
    }

    /// Gives the vector back; takes no memory.
    pub fn into_vec(self) -> Vec<ByteList>
        ensures { result.items ≡ self }
    {
        self.frames
    }

    /// Lends the frames as a slice.
    pub fn as_slice(&self) -> &[ByteList]
        ensures { result.now ≡ self.now }
    {
        self.frames.as_slice()
    }

    /// Goes over the frames, from the first to the last.
    pub fn iter(&self) -> slice::Iter<'_, ByteList>
        ensures { iter_rest result ≡ self.now }
    {
        self.frames.iter()
    }

    /// Counts the frames.
    pub fn len(&self) -> usize
        ensures { result ≡ length self.now }
    {
        self.frames.len()
    }

    /// Tells whether there are no frames.
    pub fn is_empty(&self) -> bool
        ensures { IsTrue result ↔ (self.now ≡ []) }
    {
        self.frames.is_empty()
    }
}
