//! What bytes are read from.

ghost use Rattle.std.specs.Prelude.{◌≡◌, ℕ, ◌<◌, ◌≤◌, ◌↔◌, List, [], length, take, drop, Option, IfSome, IfOk, OnErr};
ghost use Rattle.std.specs.Io.KnownBytes.{prepend_known};
ghost use Rattle.lego_io.specs.Count.{Rose, NeverFell};

use thiserror::Error;

/// How many bytes are asked for in one read.
pub(crate) const PIECE_BYTES: usize = 65_536;

/// A read failed. Nothing was read, and the source's count of faults rose.
#[derive(Clone, Copy, Debug, PartialEq, Eq, Error)]
#[error("a read failed")]
pub struct ReadFault;

/// A source of bytes.
pub trait Source {
    // The bytes that are left, where the source tells.
    ghost remaining: { Self → Option (List ℕ) };

    // How many reads failed.
    ghost faults: { Self → ℕ };

    /// Moves the next bytes to the front of `buf` and answers how many; 0 means that none is left.
    fn read(&mut self, buf: &mut [u8]) -> Result<usize, ReadFault>
        requires { 0 < length buf.old }
        ensures within { IfOk result (λ n. n ≤ length buf.old) }
        ensures front { IfOk result (λ n. remaining self.old ≡ prepend_known (take n buf.new) (remaining self.new)) }
        ensures behind { IfOk result (λ n. drop n buf.new ≡ drop n buf.old) }
        ensures end { IfOk result (λ n. IfSome (remaining self.old) (λ left. (n ≡ 0) ↔ (left ≡ []))) }

        ensures fault_rose { OnErr result (Rose (faults self.old) (faults self.new)) }
        ensures fault_took_nothing { OnErr result (remaining self.new ≡ remaining self.old) }
        ensures never_fell { NeverFell (faults self.old) (faults self.new) };
}
