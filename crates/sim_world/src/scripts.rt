//! The lines of all applications: how their starts end, and what they give in their turns.

ghost use Rattle.std.specs.Prelude.{◌≡◌, ◌+◌, ◌<◌, [], ◌∷◌, ◌++◌, drop, slice_get, IfOk, OnOk, OnErr};
ghost use Rattle.sim_world.specs.Scripts.{lines_of, steps_of_start, start_or_ready, turn_or_plain, ready_bytes, done_bytes};
ghost use Rattle.sim_world.specs.Lives.{IsGivingIn, IsNextLine, Follows, steps_given};

use crate::life::Giving;
use app_frames::{ScriptStep, StartScript};
use of_types::ByteList;
use session_lists::{ReplyList, StepList, Steps};
use std::alloc::{AllocError, Global};
use std::marker::Model;

/// The frame Ready.
const READY: [u8; 5] = [0, 0, 0, 1, 6];

/// A frame of a kind that there is not.
const GARBLED: [u8; 5] = [0, 0, 0, 1, 9];

/// The frame Done, without stop and checkpoint.
const DONE: [u8; 7] = [0, 0, 0, 3, 5, 0, 0];

/// The lines of all applications in the order given, each with the application's index, and the scripts of what is
/// given where no line says it. Contracts see the lines.
#[derive(Drop, Debug)]
pub(crate) struct ScriptLines {
    starts: Vec<(u32, StartScript)>,
    replies: ReplyList,
    nothing: StepList,
    ready: StepList,
    closed: StepList,
    silent: StepList,
    garbled: StepList,
    plain: StepList,
}

impl Model for ScriptLines {
    ghost use Rattle.sim_world.specs.Scripts.{Scripts, AreFixed};

    ghost Value = { Scripts };

    ghost view = { λ s. record { starts = s.starts.items; replies = s.replies } };

    ghost invariant = { λ s. AreFixed s.nothing s.ready s.closed s.silent s.garbled s.plain };
}

/// Makes a script of one step.
fn script_of(alloc: Global, step: ScriptStep) -> Result<StepList, AllocError>
    ensures { IfOk result (λ s. s ≡ step ∷ []) }
{
    let mut steps = StepList::new(alloc);
    steps.push(&step)?;
    Ok(steps)
}

/// Makes a script of one step of bytes.
fn script_of_bytes(alloc: Global, bytes: &[u8]) -> Result<StepList, AllocError>
    ensures { IfOk result (λ s. s ≡ ScriptStep.Bytes bytes.now ∷ []) }
{
    script_of(
        alloc,
        ScriptStep::Bytes(ByteList::from_slice(alloc, bytes)?),
    )
}

/// Finds where the next line of an application stands, not before `from`.
fn find_line<A>(lines: &[(u32, A)], app: u32, from: usize) -> Option<usize>
    ensures { IsNextLine app from lines.now result }
{
    for i in from..lines.len() {
        if lines[i].0 == app {
            return Some(i);
        }
    }
    None
}

/// Finds where the next turn of an application stands, not before `from`.
fn find_turn(replies: &ReplyList, app: u32, from: usize) -> Option<usize>
    ensures { IsNextLine app from replies.now result }
{
    for i in from..replies.len() {
        if replies.app(i) == app {
            return Some(i);
        }
    }
    None
}

/// Tells how the next start of an application ends, not before the line `from`, and the line behind it.
fn start_from(starts: &[(u32, StartScript)], app: u32, from: usize) -> (StartScript, usize)
    ensures start { result.0 ≡ start_or_ready (slice_get (lines_of app (drop from starts.now)) 0) }
    ensures next { Follows app from result.1 starts.now }
{
    match find_line(starts, app, from) {
        Some(i) => (starts[i].1, i + 1),
        None => (StartScript::Ready, starts.len()),
    }
}

/// Returns what an application gives in its next turn, not before the line `from`, and the line behind it.
fn turn_from(replies: &ReplyList, app: u32, from: usize) -> (Giving, usize)
    ensures steps { steps_given replies.now result.0 ≡ turn_or_plain (slice_get (lines_of app (drop from replies.now)) 0) }
    ensures within { IsGivingIn replies.now result.0 }
    ensures next { Follows app from result.1 replies.now }
{
    let count = replies.len();
    match find_turn(replies, app, from) {
        Some(i) => (Giving::Reply(i), i + 1),
        None => (Giving::Plain, count),
    }
}

impl ScriptLines {
    /// Makes scripts of no lines.
    #[tactic(auto, unfolding(crate::specs::Scripts::ready_bytes, crate::specs::Scripts::done_bytes,))]
    pub(crate) fn new(alloc: Global) -> Result<ScriptLines, AllocError>
        ensures { IfOk result (λ s. s ≡ record { starts = []; replies = [] }) }
    {
        Ok(ScriptLines {
            starts: Vec::new(alloc),
            replies: ReplyList::new(alloc),
            nothing: StepList::new(alloc),
            ready: script_of_bytes(alloc, &READY)?,
            closed: script_of(alloc, ScriptStep::Closed)?,
            silent: script_of(alloc, ScriptStep::Silent)?,
            garbled: script_of_bytes(alloc, &GARBLED)?,
            plain: script_of_bytes(alloc, &DONE)?,
        })
    }

    /// Adds one start. Want of memory changes nothing.
    pub(crate) fn add_start(&mut self, app: u32, start: StartScript) -> Result<(), AllocError>
        ensures ok { OnOk result (self.new ≡ record self.old { starts = self.old.starts ++ (app, start) ∷ [] }) }
        ensures err { OnErr result (self.new ≡ self.old) }
    {
        self.starts.push((app, start))?;
        Ok(())
    }

    /// Adds one turn. Want of memory changes nothing.
    pub(crate) fn add_reply(&mut self, app: u32, reply: &StepList) -> Result<(), AllocError>
        ensures ok { OnOk result (self.new ≡ record self.old { replies = self.old.replies ++ (app, reply.now) ∷ [] }) }
        ensures err { OnErr result (self.new ≡ self.old) }
    {
        self.replies.push(app, reply)
    }

    /// Adds all turns at once, in the place of those before.
    pub(crate) fn add_replies(&mut self, replies: ReplyList)
        ensures { self.new ≡ record self.old { replies = replies } }
    {
        self.replies = replies;
    }

    /// Lends the steps that are being given.
    #[tactic(auto, using(crate::specs::laws::LifeLaws::steps_of_reply), unfolding(crate::specs::Lives::steps_given, crate::specs::Scripts::steps_of_start))]
    pub(crate) fn steps(&self, giving: Giving) -> Steps<'_>
        requires { IsGivingIn self.now.replies giving }
        ensures { result ≡ steps_given self.now.replies giving }
    {
        match giving {
            Giving::Nothing => self.nothing.steps(),
            Giving::Start(start) => self.start_steps(start),
            Giving::Reply(i) => self.replies.steps(i),
            Giving::Plain => self.plain.steps(),
        }
    }

    #[tactic(auto, unfolding(crate::specs::Scripts::steps_of_start))]
    fn start_steps(&self, start: StartScript) -> Steps<'_>
        ensures { result ≡ steps_of_start start }
    {
        match start {
            StartScript::Ready => self.ready.steps(),
            StartScript::Refused => self.nothing.steps(),
            StartScript::Closed => self.closed.steps(),
            StartScript::Silent => self.silent.steps(),
            StartScript::Garbled => self.garbled.steps(),
        }
    }

    /// Tells how the next start of an application ends, not before the line `from`, and the line behind it.
    pub(crate) fn next_start(&self, app: u32, from: usize) -> (StartScript, usize)
        ensures start { result.0 ≡ start_or_ready (slice_get (lines_of app (drop from self.now.starts)) 0) }
        ensures next { Follows app from result.1 self.now.starts }
    {
        start_from(&self.starts, app, from)
    }

    /// Returns what an application gives in its next turn, not before the line `from`, and the line behind it.
    pub(crate) fn next_turn(&self, app: u32, from: usize) -> (Giving, usize)
        ensures steps { steps_given self.now.replies result.0 ≡ turn_or_plain (slice_get (lines_of app (drop from self.now.replies)) 0) }
        ensures within { IsGivingIn self.now.replies result.0 }
        ensures next { Follows app from result.1 self.now.replies }
    {
        turn_from(&self.replies, app, from)
    }
}
