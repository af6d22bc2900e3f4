//! Applications as objects.

ghost use Rattle.std.specs.Prelude.{IfOk, OnOk};
ghost use Rattle.app_objects.specs.Machine.{Reacts, Restored, SameWould};

use std::alloc::AllocError;

/// Whether an object lives on.
#[derive(Clone, Copy, Debug, PartialEq, Eq)]
pub enum Step {
    /// It lives on.
    Alive,
    /// It has died.
    Died,
}

/// An application as an object of the same program. After want of memory it has died.
pub trait AppObject: Drop {
    ghost use Rattle.app_objects.specs.Machine.{Gives, Would};

    // What it gives at frames of the host to come.
    ghost gives: { Self → Gives };

    // What it would give after it was restored to a checkpoint.
    ghost would: { Self → Would };

    /// Goes back to the state of a checkpoint.
    fn restore(&mut self, checkpoint: &[u8]) -> Result<(), AllocError>
        ensures same { SameWould (would self.old) (would self.new) }
        ensures restored { OnOk result (Restored checkpoint.now (would self.old) (gives self.new)) };

    /// Handles one frame of the host, and puts what it gives for it at the end of `out`.
    fn react(&mut self, frame: &[u8], out: &mut Vec<u8>) -> Result<Step, AllocError>
        ensures same { SameWould (would self.old) (would self.new) }
        ensures reacts { IfOk result (λ step. Reacts frame.now step (gives self.old) (gives self.new) out.old.items out.new.items) };
}
