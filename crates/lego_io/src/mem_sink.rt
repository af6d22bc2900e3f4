//! A sink into memory.

ghost use Rattle.std.specs.Prelude.{◌≡◌, ◌<◌, ◌≤◌, ◌-◌, ◌↔◌, ◌⊎◌, length, take, min, Some, IfOk, OnErr, IsErr, Contains};
ghost use Rattle.lego_io.specs.Count.{NeverFell, raised};
ghost use Rattle.lego_io.specs.MemSink.{store_of, after_write, after_fault};

use crate::sink::{Sink, WriteFault};
use std::alloc::{AllocError, Global};
use std::marker::Model;

/// A sink into memory, with room for so many bytes, whose chosen writes fail.
#[derive(Debug, Drop)]
pub struct MemSink {
    bytes: Vec<u8>,
    room: usize,
    calls: u64,
    fails: Vec<u64>,
    faults: u64,
}

impl Model for MemSink {
    ghost use Rattle.std.specs.Prelude.{◌≤◌, length, vec_capacity};
    ghost use Rattle.lego_io.specs.MemSink.{Store};

    ghost Value = { Store };

    ghost view = { λ s. record { taken = s.bytes.items; room = s.room; calls = s.calls; fails = s.fails.items; faults = s.faults } };

    ghost invariant = { λ s. (length s.bytes.items ≤ s.room) × (s.room ≤ vec_capacity s.bytes) };
}

impl MemSink {
    /// Makes an empty sink that takes `room` bytes in all. The writes whose numbers, from 1 on, are in `fails` will fail.
    /// `AllocError` where there is no memory for the room.
    pub fn new(alloc: Global, room: usize, fails: &[u64]) -> Result<MemSink, AllocError>
        ensures { IfOk result (λ sink. sink ≡ store_of room fails.now) }
    {
        Ok(MemSink {
            bytes: Vec::with_capacity(alloc, room)?,
            room,
            calls: 0,
            fails: fails.to_vec(alloc)?,
            faults: 0,
        })
    }

    /// Lends the bytes that were taken.
    pub fn bytes(&self) -> &[u8]
        ensures { result.now ≡ self.now.taken }
    {
        &self.bytes
    }
}

impl Sink for MemSink {
    ghost contents = { λ s. Some s.taken };

    ghost faults = { λ s. s.faults };

    /// Takes what fits. It fails where it was told to, and where bytes come and no room is left.
    fn write(&mut self, bytes: &[u8]) -> Result<usize, WriteFault>
        ensures fails { IsErr result ↔ (Contains self.old.fails (raised self.old.calls)
            ⊎ ((0 < length bytes.now) × (self.old.room ≤ length self.old.taken))) }
        ensures count { IfOk result (λ n. n ≡ min (length bytes.now) (self.old.room - length self.old.taken)) }
        ensures after_write { IfOk result (λ n. self.new ≡ after_write self.old (take n bytes.now)) }
        ensures after_fault { OnErr result (self.new ≡ after_fault self.old) }
        ensures never_fell { NeverFell self.old.faults self.new.faults }
    {
        self.calls = self.calls.saturating_add(1);
        let count = bytes.len().min(self.room - self.bytes.len());
        if self.fails.contains(&self.calls) || (count == 0 && !bytes.is_empty()) {
            self.faults = self.faults.saturating_add(1);
            return Err(WriteFault);
        }
        self.bytes.extend_from_slice(&bytes[..count]).unwrap();
        Ok(count)
    }
}
