//! A source whose bytes are kept, so that what is wrong with them can be told, and that a recording can hold them.

ghost use Rattle.std.specs.Prelude.{◌≡◌};

use lego_io::{ReadFault, Source};
use std::alloc::Global;

/// How many bytes of an input are kept to explain what is wrong with it (1 MiB).
pub const MOST_EXPLAINED: usize = 1_048_576;

/// A source that keeps what is read of it, if that is not much. It tells what the inner one tells.
#[derive(Drop)]
pub struct KeptSource<S> {
    inner: S,
    kept: Kept,
}

/// What was read, up to so many bytes.
#[derive(Drop)]
struct Kept {
    bytes: Vec<u8>,
    most: usize,
    is_whole: bool,
}

impl<S> KeptSource<S> {
    /// Keeps what is read of this source from now on, if it is at most so many bytes.
    pub fn new(alloc: Global, inner: S, most: usize) -> KeptSource<S> {
        let kept = Kept {
            bytes: Vec::new(alloc),
            most,
            is_whole: true,
        };
        KeptSource { inner, kept }
    }

    /// Lends all that was read, while it is kept.
    pub fn kept(&self) -> Option<&[u8]> {
        if self.kept.is_whole {
            Some(&self.kept.bytes)
        } else {
            None
        }
    }
}

impl Kept {
    /// Keeps the first of these bytes. Where they are too many, or memory runs out, nothing is kept any more.
    fn keep(&mut self, bytes: &[u8], count: usize) {
        let has_room = self.bytes.len().saturating_add(count) <= self.most;
        let is_kept = match bytes.get(..count) {
            Some(front) if self.is_whole && has_room => {
                self.bytes.extend_from_slice(front).is_ok()
            }
            _ => false,
        };
        if !is_kept {
            self.is_whole = false;
            self.bytes.clear();
        }
    }
}

impl<S: Source + Drop> Source for KeptSource<S> {
    ghost remaining = { λ s. S.remaining s.inner };

    ghost faults = { λ s. S.faults s.inner };

    fn read(&mut self, buf: &mut [u8]) -> Result<usize, ReadFault> {
        let read = self.inner.read(buf);
        if let Ok(count) = read {
            self.kept.keep(buf, count);
        }
        read
    }
}
