//! The steps of turns, packed.

ghost use Rattle.std.specs.Prelude.{◌≡◌, ◌-◌, ◌<◌, ◌≤◌, [], ◌∷◌, ◌++◌, length, Some, IfOk, OnOk, OnErr, slice_get};
ghost use Rattle.session_lists.specs.Steps.{step_in, step_of, steps_between, IsWithin as IsLaidWithin};

use crate::kinds::StepKind;
use crate::records::Records;
use app_frames::{Script, ScriptStep};
use std::alloc::{AllocError, Global};
use std::marker::Model;

/// A step that is lent by a list.
#[derive(Clone, Copy, Debug, PartialEq, Eq)]
pub enum StepRef<'a> {
    /// Bytes, whether or not they are frames.
    Bytes(&'a [u8]),
    /// The application has closed its end.
    Closed,
    /// Nothing in time.
    Silent,
}

/// The steps of one turn, packed: a step takes its bytes and five bytes more. Contracts see a list.
#[derive(Drop, Debug)]
pub struct StepList {
    pub(crate) records: Records<StepKind>,
}

impl Model for StepList {
    ghost use Rattle.std.specs.Prelude.{List};
    ghost use Rattle.app_frames.specs.declared.script.ScriptStep.{ScriptStep};
    ghost use Rattle.session_lists.specs.Steps.{steps_in};

    ghost Value = { List ScriptStep };

    ghost view = { λ s. steps_in s.records };
}

/// Steps that follow each other in a list, lent. Contracts see a list.
#[derive(Drop, Debug)]
pub struct Steps<'a> {
    records: &'a Records<StepKind>,
    first: usize,
    end: usize,
}

impl<'a> Model for Steps<'a> {
    ghost use Rattle.std.specs.Prelude.{List, length};
    ghost use Rattle.app_frames.specs.declared.script.ScriptStep.{ScriptStep};
    ghost use Rattle.session_lists.specs.Steps.{steps_between, IsWithin};

    ghost Value = { List ScriptStep };

    ghost view = { λ s. steps_between s.first s.end s.records.now };

    ghost invariant = { λ s. IsWithin (length s.records.now) s.first s.end };
}

impl StepList {
    /// Returns a list of no steps; takes no memory.
    pub fn new(alloc: Global) -> StepList
        ensures { result ≡ [] }
    {
        StepList {
            records: Records::new(alloc),
        }
    }

    /// Adds one step. Want of memory changes nothing.
    pub fn push(&mut self, step: &ScriptStep) -> Result<(), AllocError>
        ensures ok { OnOk result (self.new ≡ self.old ++ step.now ∷ []) }
        ensures err { OnErr result (self.new ≡ self.old) }
    {
        match step {
            ScriptStep::Bytes(bytes) => self.records.push(StepKind::Bytes, bytes.as_slice(), &[]),
            ScriptStep::Closed => self.records.push(StepKind::Closed, &[], &[]),
            ScriptStep::Silent => self.records.push(StepKind::Silent, &[], &[]),
        }
    }

    /// Packs the steps of a script.
    pub fn from_script(alloc: Global, script: &Script) -> Result<StepList, AllocError>
        ensures { IfOk result (λ steps. steps ≡ script.now) }
    {
        let mut steps = StepList::new(alloc);
        for step in script.as_slice() {
            steps.push(step)?;
        }
        Ok(steps)
    }

    /// Lends the steps.
    pub fn steps(&self) -> Steps<'_>
        ensures { result ≡ self.now }
    {
        steps_of(&self.records, 0, self.records.len())
    }
}

/// Lends the steps from one number to another.
pub(crate) fn steps_of(records: &Records<StepKind>, first: usize, end: usize) -> Steps<'_>
    requires rises { first ≤ end }
    requires within { end ≤ length records.now }
    ensures { result ≡ steps_between first end records.now }
{
    Steps {
        records,
        first,
        end,
    }
}

/// Returns the step that a record lends.
fn step_ref(kind: StepKind, bytes: &[u8]) -> StepRef<'_>
    ensures { step_of result ≡ step_in kind bytes.now }
{
    match kind {
        StepKind::Bytes => StepRef::Bytes(bytes),
        StepKind::Closed => StepRef::Closed,
        StepKind::Silent => StepRef::Silent,
    }
}

/// Lends the step of a number among the steps from one number to another.
#[tactic(auto, using(crate::specs::laws::StepLaws::step_at))]
fn step_at(records: &Records<StepKind>, first: usize, end: usize, number: usize) -> StepRef<'_>
    requires within { IsLaidWithin (length records.now) first end }
    requires less { number < end - first }
    ensures { slice_get (steps_between first end records.now) number ≡ Some (step_of result) }
{
    let (kind, bytes) = records.get(first + number);
    step_ref(kind, bytes)
}

impl<'a> Steps<'a> {
    /// Tells how many steps there are.
    pub fn len(&self) -> usize
        ensures { result ≡ length self.now }
    {
        self.end - self.first
    }

    /// Lends the step of a number, counted from 0.
    pub fn get(&self, number: usize) -> StepRef<'a>
        requires { number < length self.now }
        ensures { slice_get self.now number ≡ Some (step_of result) }
    {
        step_at(self.records, self.first, self.end, number)
    }
}
