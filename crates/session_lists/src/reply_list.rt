//! The turns of applications, packed.

ghost use Rattle.std.specs.Prelude.{◌≡◌, ◌<◌, [], ◌∷◌, ◌++◌, ℕ, List, length, Some, IfOk, OnOk, OnErr, slice_get};
ghost use Rattle.std.specs.Option.{option_map};
ghost use Rattle.app_frames.specs.declared.script.ScriptStep.{ScriptStep};
ghost use Rattle.session_lists.specs.declared.kinds.StepKind.{StepKind};

use crate::kinds::StepKind;
use crate::records::Records;
use crate::step_list::{StepList, Steps, steps_of};
use std::alloc::{AllocError, Global};
use std::marker::Model;

/// A line of an application, by its index: its steps are those from one number to another.
#[derive(Clone, Copy, Debug)]
pub(crate) struct ReplyLine {
    pub(crate) app: u32,
    pub(crate) first: u32,
    pub(crate) end: u32,
}

/// What applications give in their turns, packed: a line for each turn, with the application's index and the steps. A
/// line takes twelve bytes beside its steps. Contracts see a list of pairs.
#[derive(Drop, Debug)]
pub struct ReplyList {
    lines: Vec<ReplyLine>,
    steps: Records<StepKind>,
}

impl Model for ReplyList {
    ghost use Rattle.std.specs.Prelude.{List, ℕ, length};
    ghost use Rattle.app_frames.specs.declared.script.ScriptStep.{ScriptStep};
    ghost use Rattle.session_lists.specs.Steps.{replies_in, AreWithin};

    ghost Value = { List (ℕ × List ScriptStep) };

    ghost view = { λ s. replies_in s.steps s.lines.items };

    ghost invariant = { λ s. AreWithin (length s.steps) s.lines.items };
}

/// Puts records behind others. Where memory runs out, some of them may stand there.
fn append(to: &mut Records<StepKind>, from: &Records<StepKind>) -> Result<(), AllocError>
    ensures ok { OnOk result (to.new ≡ to.old ++ from.now) }
    ensures err { OnErr result ((more : List (StepKind × List ℕ)) × (to.new ≡ to.old ++ more)) }
{
    for number in 0..from.len() {
        let (kind, bytes) = from.get(number);
        to.push(kind, bytes, &[])?;
    }
    Ok(())
}

/// Returns a number that 32 bits hold; another one is want of memory.
fn short(number: usize) -> Result<u32, AllocError>
    ensures { IfOk result (λ n. n ≡ number) }
{
    u32::try_from(number).map_err(|_| AllocError)
}

impl ReplyList {
    /// Returns a list of no lines; takes no memory.
    pub fn new(alloc: Global) -> ReplyList
        ensures { result ≡ [] }
    {
        ReplyList {
            lines: Vec::new(alloc),
            steps: Records::new(alloc),
        }
    }

    /// Tells how many lines there are.
    pub fn len(&self) -> usize
        ensures { result ≡ length self.now }
    {
        self.lines.len()
    }

    /// Adds one line. Want of memory changes nothing.
    pub fn push(&mut self, app: u32, script: &StepList) -> Result<(), AllocError>
        ensures ok { OnOk result (self.new ≡ self.old ++ (app, script.now) ∷ []) }
        ensures err { OnErr result (self.new ≡ self.old) }
    {
        self.lines.reserve(1)?;
        let first = short(self.steps.len())?;
        append(&mut self.steps, &script.records)?;
        let end = short(self.steps.len())?;
        self.lines.push_reserved(ReplyLine { app, first, end });
        Ok(())
    }

    /// Returns the application of the line of a number, counted from 0.
    pub fn app(&self, number: usize) -> u32
        requires { number < length self.now }
        ensures { option_map (λ line. line.0) (slice_get self.now number) ≡ Some result }
    {
        self.lines[number].app
    }

    /// Lends the steps of the line of a number.
    pub fn steps(&self, number: usize) -> Steps<'_>
        requires { number < length self.now }
        ensures { option_map (λ line. line.1) (slice_get self.now number) ≡ Some result }
    {
        let line = self.lines[number];
        steps_of(&self.steps, line.first as usize, line.end as usize)
    }
}
