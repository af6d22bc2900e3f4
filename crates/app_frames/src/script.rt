//! What an application of a session does: its starts, and the steps of a turn.

ghost use Rattle.std.specs.Prelude.{◌≡◌, ◌↔◌, [], length, IsTrue};
ghost use Rattle.std.specs.Slice.Iter.{iter_rest};

use of_types::ByteList;
use std::alloc::Global;
use std::cmp::{Eq, PartialEq};
use std::marker::Model;
use std::slice;

/// What an application gives when it is asked.
#[derive(Drop, Debug, Clone, PartialEq, Eq)]
pub enum ScriptStep {
    /// Bytes, whether or not they are frames.
    Bytes(ByteList),
    /// It has closed its end.
    Closed,
    /// Nothing in time.
    Silent,
}

/// How a start of an application ends.
#[derive(Clone, Copy, Debug, PartialEq, Eq)]
pub enum StartScript {
    /// It is ready.
    Ready,
    /// It cannot be started.
    Refused,
    /// It closes its end before its first frame.
    Closed,
    /// It gives nothing in time.
    Silent,
    /// It gives bytes that are no frame.
    Garbled,
}

/// The steps of one turn, in their order. Contracts see a list.
#[derive(Drop, Debug, Clone)]
pub struct Script {
    steps: Vec<ScriptStep>,
}

impl Model for Script {
    ghost use Rattle.std.specs.Prelude.{List};
    ghost use Rattle.app_frames.specs.declared.script.ScriptStep.{ScriptStep};

    ghost Value = { List ScriptStep };

    ghost view = { λ s. s.steps.items };
}

impl Script {
    /// Makes an empty list; takes no memory.
    pub fn new(alloc: Global) -> Script
        ensures { result ≡ [] }
    {
        Script {
            steps: Vec::new(alloc),
        }
    }

    /// Makes a vector into the list of its steps; takes no memory.
    pub fn from_vec(steps: Vec<ScriptStep>) -> Script
        ensures { result ≡ steps.items }
    {
        Script { steps }
    }

    /// Gives the vector back; takes no memory.
    pub fn into_vec(self) -> Vec<ScriptStep>
        ensures { result.items ≡ self }
    {
        self.steps
    }

    /// Lends the steps as a slice.
    pub fn as_slice(&self) -> &[ScriptStep]
        ensures { result.now ≡ self.now }
    {
        self.steps.as_slice()
    }

    /// Goes over the steps, from the first to the last.
    pub fn iter(&self) -> slice::Iter<'_, ScriptStep>
        ensures { iter_rest result ≡ self.now }
    {
        self.steps.iter()
    }

    /// Counts the steps.
    pub fn len(&self) -> usize
        ensures { result ≡ length self.now }
    {
        self.steps.len()
    }

    /// Tells whether there are no steps.
    pub fn is_empty(&self) -> bool
        ensures { IsTrue result ↔ (self.now ≡ []) }
    {
        self.steps.is_empty()
    }
}

impl PartialEq for Script {
    ghost use Rattle.std.specs.Cmp.Lexicographic.{pointwise, lists_per};
    ghost use Rattle.app_frames.specs.contracts.script.ScriptStepPartialEq.TheImpl.Laws.{laws-law};

    ghost eq = { λ x y. pointwise ⟦<ScriptStep as PartialEq>⟧.eq x y };

    ghost laws = { lists_per laws-law };

    fn eq(&self, other: &Script) -> bool {
        self.steps == other.steps
    }
}

impl Eq for Script {
    ghost use Rattle.std.specs.Cmp.Lexicographic.{lists_equiv};
    ghost use Rattle.app_frames.specs.contracts.script.ScriptStepEq.TheImpl.Laws.{laws-law};

    ghost laws = { lists_equiv laws-law };
}
