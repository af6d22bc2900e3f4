//! A source over bytes in memory.

ghost use Rattle.std.specs.Prelude.{◌≡◌, ◌<◌, ◌↔◌, ◌++◌, length, take, drop, min, Some, IfOk, OnErr, IsErr, Contains};
ghost use Rattle.lego_io.specs.Count.{NeverFell, raised};
ghost use Rattle.lego_io.specs.MemSource.{supply_of, after_read, after_fault};

use crate::source::{ReadFault, Source};
use std::alloc::{AllocError, Global};
use std::marker::Model;

/// A source over bytes in memory, whose chosen reads fail.
#[derive(Debug, Drop)]
pub struct MemSource {
    bytes: Vec<u8>,
    at: usize,
    calls: u64,
    fails: Vec<u64>,
    faults: u64,
}

impl Model for MemSource {
    ghost use Rattle.std.specs.Prelude.{◌≤◌, drop, length};
    ghost use Rattle.lego_io.specs.MemSource.{Supply};

    ghost Value = { Supply };

    ghost view = { λ s. record { left = drop s.at s.bytes.items; calls = s.calls; fails = s.fails.items; faults = s.faults } };

    ghost invariant = { λ s. s.at ≤ length s.bytes.items };
}

impl MemSource {
    /// Makes a source of a copy of these bytes. The reads whose numbers, from 1 on, are in `fails` will fail.
    pub fn new(alloc: Global, bytes: &[u8], fails: &[u64]) -> Result<MemSource, AllocError>
        ensures { IfOk result (λ source. source ≡ supply_of bytes.now fails.now) }
    {
        Ok(MemSource {
            bytes: bytes.to_vec(alloc)?,
            at: 0,
            calls: 0,
            fails: fails.to_vec(alloc)?,
            faults: 0,
        })
    }
}

impl Source for MemSource {
    ghost remaining = { λ s. Some s.left };

    ghost faults = { λ s. s.faults };

    /// Moves as many bytes as there are and as the buffer holds, or fails where it was told to.
    fn read(&mut self, buf: &mut [u8]) -> Result<usize, ReadFault>
        requires { 0 < length buf.old }
        ensures front { IfOk result (λ n. self.old.left ≡ take n buf.new ++ self.new.left) }
        ensures behind { IfOk result (λ n. drop n buf.new ≡ drop n buf.old) }

        ensures fails { IsErr result ↔ Contains self.old.fails (raised self.old.calls) }
        ensures count { IfOk result (λ n. n ≡ min (length buf.old) (length self.old.left)) }
        ensures after_read { IfOk result (λ n. self.new ≡ after_read self.old n) }
        ensures after_fault { OnErr result (self.new ≡ after_fault self.old) }
        ensures never_fell { NeverFell self.old.faults self.new.faults }
    {
        self.calls = self.calls.saturating_add(1);
        if self.fails.contains(&self.calls) {
            self.faults = self.faults.saturating_add(1);
            return Err(ReadFault);
        }
        let count = copy_front(&self.bytes[self.at..], buf);
        self.at += count;
        Ok(count)
    }
}

/// Copies as many bytes as there are and as the buffer holds to its front, and answers how many.
fn copy_front(bytes: &[u8], buf: &mut [u8]) -> usize
    ensures count { result ≡ min (length buf.old) (length bytes.now) }
    ensures front { take result buf.new ≡ take result bytes.now }
    ensures behind { drop result buf.new ≡ drop result buf.old }
{
    let count = buf.len().min(bytes.len());
    buf[..count].copy_from_slice(&bytes[..count]);
    count
}
