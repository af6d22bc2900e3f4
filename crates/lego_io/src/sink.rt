//! What bytes are written to.

ghost use Rattle.std.specs.Prelude.{◌≡◌, ℕ, ◌<◌, ◌≤◌, List, length, take, Option, IfOk, OnErr};
ghost use Rattle.std.specs.Io.KnownBytes.{append_known};
ghost use Rattle.lego_io.specs.Count.{Rose, NeverFell};

use thiserror::Error;

/// A write failed. Nothing was written, and the sink's count of faults rose.
#[derive(Clone, Copy, Debug, PartialEq, Eq, Error)]
#[error("a write failed")]
pub struct WriteFault;

/// A sink of bytes.
pub trait Sink {
    // The bytes that were taken, where the sink tells.
    ghost contents: { Self → Option (List ℕ) };

    // How many writes failed.
    ghost faults: { Self → ℕ };

    /// Takes bytes from the front of `bytes` and answers how many, at least one where there are any.
    fn write(&mut self, bytes: &[u8]) -> Result<usize, WriteFault>
        ensures within { IfOk result (λ n. n ≤ length bytes.now) }
        ensures some { 0 < length bytes.now → IfOk result (λ n. 0 < n) }
        ensures front { IfOk result (λ n. contents self.new ≡ append_known (contents self.old) (take n bytes.now)) }

        ensures fault_rose { OnErr result (Rose (faults self.old) (faults self.new)) }
        ensures fault_took_nothing { OnErr result (contents self.new ≡ contents self.old) }
        ensures never_fell { NeverFell (faults self.old) (faults self.new) };
}
