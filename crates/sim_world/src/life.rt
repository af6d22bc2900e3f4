//! The life of one application, kept as positions in the lines that it was given.

ghost use Rattle.std.specs.Prelude.{◌≡◌, ℕ, ◌+◌, ◌-◌, ◌<◌, ◌^◌, ◌&&◌, ◌||◌, not, true, false, List, length, take, drop, min, IsTrue, is_some};
ghost use Rattle.outside.specs.Calls.{IsTakenIn};
ghost use Rattle.outside.specs.State.{event_number};
ghost use Rattle.outside.specs.declared.call.FailCall.{FailCall};
ghost use Rattle.app_frames.specs.declared.script.ScriptStep.{ScriptStep};
ghost use Rattle.sim_world.specs.Told.{is_told};
ghost use Rattle.sim_world.specs.Scripts.{Scripts, passed, first_given, first_taken, given_of, left_of, taken_bytes, is_refused, next_start, start_reached, will_start, will_give, next_taken, after_start, after_gave, after_gone, after_take, after_end, fresh};
ghost use Rattle.sim_world.specs.Lives.{IsCellOf, life_of_cell, from_position, begins_empty, took_of};

use crate::scripts::ScriptLines;
use crate::told::Told;
use app_frames::StartScript;
use of_types::get_u8;
use outside::{CallKind, Taken};
use session_lists::{StepRef, Steps};

/// What an application is giving.
#[derive(Clone, Copy, Debug, PartialEq, Eq)]
pub(crate) enum Giving {
    /// Nothing.
    Nothing,
    /// What a start gives that ends so.
    Start(StartScript),
    /// The turn of the line at this position.
    Reply(usize),
    /// A turn for which there was no line any more.
    Plain,
}

/// A position in steps: how many steps were gone through, and how many bytes were taken of the one behind them.
#[derive(Clone, Copy, Debug, PartialEq, Eq)]
pub(crate) struct Position {
    pub(crate) step: usize,
    pub(crate) offset: usize,
}

/// The life of one application. `next_start` and `next_reply` say where to look for its next lines.
#[derive(Drop, Debug)]
pub(crate) struct LifeCell {
    pub(crate) app: u32,
    pub(crate) running: bool,
    pub(crate) starts: u64,
    pub(crate) replies: u64,
    pub(crate) start_calls: u64,
    pub(crate) give_calls: u64,
    pub(crate) take_calls: u64,
    pub(crate) next_start: usize,
    pub(crate) next_reply: usize,
    pub(crate) giving: Giving,
    pub(crate) at: Position,
}

/// The first position.
const FIRST: Position = Position { step: 0, offset: 0 };

/// Tells whether the step at a position has no byte left.
#[tactic(auto, unfolding(crate::specs::Lives::from_position))]
fn is_used_up(steps: &Steps<'_>, at: Position) -> bool
    ensures same { result ≡ begins_empty (from_position at steps.now) }
    ensures within { IsTrue result → at.step < length steps.now }
    ensures few { IsTrue result → at.step < 2 ^ 64 - 1 }
{
    if at.step >= steps.len() {
        return false;
    }
    match steps.get(at.step) {
        StepRef::Bytes(bytes) => bytes.len() <= at.offset,
        StepRef::Closed => false,
        StepRef::Silent => false,
    }
}

/// Returns the position behind the steps that have no byte left.
fn pass(steps: &Steps<'_>, at: Position) -> Position
    ensures passed { from_position result steps.now ≡ passed (from_position at steps.now) }
    ensures begun { begins_empty (from_position result steps.now) ≡ false }
{
    let mut at = at;
    while is_used_up(steps, at) {
        at = Position {
            step: at.step + 1,
            offset: 0,
        };
    }
    at
}

/// Copies as many bytes as there are and as the buffer holds to its front, and answers how many.
fn copy_front(bytes: &[u8], buf: &mut [u8]) -> usize
    ensures count { result ≡ min (length buf.old) (length bytes.now) }
    ensures front { take result buf.new ≡ take result bytes.now }
{
    let count = buf.len().min(bytes.len());
    buf[..count].copy_from_slice(&bytes[..count]);
    count
}

/// Takes bytes of the step at a position.
fn take_bytes(bytes: &[u8], offset: usize, buf: &mut [u8]) -> usize
    requires { offset < length bytes.now }
    ensures count { result ≡ min (length buf.old) (length bytes.now - offset) }
    ensures front { take result buf.new ≡ take (length buf.old) (drop offset bytes.now) }
{
    copy_front(&bytes[offset..], buf)
}

/// Takes what comes first at a position where the step has a byte left, and the position behind it.
#[tactic(auto, unfolding(crate::specs::Lives::from_position))]
fn take_first(steps: &Steps<'_>, at: Position, buf: &mut [u8]) -> (Taken, Position)
    requires room { 0 < length buf.old }
    requires begun { begins_empty (from_position at steps.now) ≡ false }
    ensures what { took_of result.0 buf.new ≡ first_given (length buf.old) (from_position at steps.now) }
    ensures left { from_position result.1 steps.now ≡ first_taken (length (taken_bytes (took_of result.0 buf.new))) (from_position at steps.now) }
    ensures taken { IsTakenIn result.0 buf.new }
{
    if at.step >= steps.len() {
        return (Taken::Closed, at);
    }
    let behind = Position {
        step: at.step + 1,
        offset: 0,
    };
    match steps.get(at.step) {
        StepRef::Bytes(bytes) => {
            let count = take_bytes(bytes, at.offset, buf);
            let offset = at.offset + count;
            (
                Taken::Some(count),
                Position {
                    step: at.step,
                    offset,
                },
            )
        }
        StepRef::Closed => (Taken::Closed, behind),
        StepRef::Silent => (Taken::Silent, behind),
    }
}

/// Takes what comes next from a position on, and the position behind it.
#[tactic(auto, unfolding(crate::specs::Scripts::given_of, crate::specs::Scripts::left_of))]
fn take_next(steps: &Steps<'_>, at: Position, buf: &mut [u8]) -> (Taken, Position)
    requires { 0 < length buf.old }
    ensures what { took_of result.0 buf.new ≡ given_of (length buf.old) (from_position at steps.now) }
    ensures left { from_position result.1 steps.now ≡ left_of (length (taken_bytes (took_of result.0 buf.new))) (from_position at steps.now) }
    ensures taken { IsTakenIn result.0 buf.new }
{
    take_first(steps, pass(steps, at), buf)
}

/// Tells how many bytes are taken at a position where the step has a byte left.
#[tactic(auto, unfolding(crate::specs::Lives::from_position))]
fn len_first(steps: &Steps<'_>, at: Position, room: usize) -> usize
    requires { begins_empty (from_position at steps.now) ≡ false }
    ensures { result ≡ length (taken_bytes (first_given room (from_position at steps.now))) }
{
    if at.step >= steps.len() {
        return 0;
    }
    match steps.get(at.step) {
        StepRef::Bytes(bytes) => room.min(bytes.len() - at.offset),
        StepRef::Closed => 0,
        StepRef::Silent => 0,
    }
}

/// Tells how many bytes are taken from a position on.
#[tactic(auto, unfolding(crate::specs::Scripts::given_of))]
fn len_next(steps: &Steps<'_>, at: Position, room: usize) -> usize
    ensures { result ≡ length (taken_bytes (given_of room (from_position at steps.now))) }
{
    len_first(steps, pass(steps, at), room)
}

/// Tells whether the bytes are a frame that tells an event.
#[tactic(auto, unfolding(outside::specs::State::event_number))]
fn is_event(bytes: &[u8]) -> bool
    ensures { result ≡ is_some (event_number bytes.now) }
{
    bytes.len() > 4 && get_u8(bytes, 4) == 2
}

fn is_refused(start: StartScript) -> bool
    ensures { result ≡ is_refused start }
{
    matches!(start, StartScript::Refused)
}

impl LifeCell {
    /// Returns the life of an application before anything happened to it; takes no memory.
    #[tactic(auto, unfolding(crate::specs::Lives::life_of_cell, crate::specs::Lives::from_position, crate::specs::Lives::steps_given, crate::specs::Scripts::fresh,))]
    pub(crate) fn fresh(app: u32) -> LifeCell
        ensures app { result.app ≡ app }
        ensures life { (replies : List (ℕ × List ScriptStep)) → life_of_cell replies result ≡ fresh }
        ensures cell { (own : Scripts) → IsCellOf own result }
    {
        LifeCell {
            app,
            running: false,
            starts: 0,
            replies: 0,
            start_calls: 0,
            give_calls: 0,
            take_calls: 0,
            next_start: 0,
            next_reply: 0,
            giving: Giving::Nothing,
            at: FIRST,
        }
    }

    /// Tells whether its next start is told to fail.
    fn is_start_told(&self, told: &Told) -> bool
        requires { self.now.start_calls < 2 ^ 64 - 1 }
        ensures { result ≡ is_told CallKind.Start self.now.app (self.now.start_calls + 1) told.now }
    {
        told.is_told(CallKind::Start, u64::from(self.app), self.start_calls + 1)
    }

    /// Tells whether its next start comes to its line, which says that it is refused.
    #[tactic(auto, unfolding(crate::specs::Lives::life_of_cell))]
    fn is_next_refused(&self, lines: &ScriptLines) -> bool
        requires { IsCellOf lines.now self.now }
        ensures { result ≡ is_refused (next_start lines.now self.now.app (life_of_cell lines.now.replies self.now)) }
    {
        is_refused(lines.next_start(self.app, self.next_start).0)
    }

    /// Tells whether its next start comes to its line: it is in place and not told to fail.
    #[tactic(auto, unfolding(crate::specs::Lives::life_of_cell))]
    fn is_start_reached(&self, lines: &ScriptLines, told: &Told) -> bool
        requires { self.now.start_calls < 2 ^ 64 - 1 }
        ensures { result ≡ start_reached told.now self.now.app (life_of_cell lines.now.replies self.now) }
    {
        !self.running && !self.is_start_told(told)
    }

    /// Tells whether its next start succeeds.
    #[tactic(auto, unfolding(crate::specs::Scripts::will_start))]
    pub(crate) fn will_start(&self, lines: &ScriptLines, told: &Told) -> bool
        requires cell { IsCellOf lines.now self.now }
        requires few { self.now.start_calls < 2 ^ 64 - 1 }
        ensures { result ≡ will_start lines.now told.now self.now.app (life_of_cell lines.now.replies self.now) }
    {
        self.is_start_reached(lines, told) && !self.is_next_refused(lines)
    }

    /// Notes a start of it that succeeded.
    fn started(&mut self, lines: &ScriptLines)
        requires cell { IsCellOf lines.now self.old }
        requires few { self.old.start_calls < 2 ^ 64 - 1 }
        ensures app { self.new.app ≡ self.old.app }
        ensures life { (fails : List FailCall) → life_of_cell lines.now.replies self.new
            ≡ after_start lines.now fails self.old.app true (life_of_cell lines.now.replies self.old) }
        ensures cell { IsCellOf lines.now self.new }
    {
        let (start, next) = lines.next_start(self.app, self.next_start);
        self.running = true;
        self.starts += 1;
        self.start_calls += 1;
        self.next_start = next;
        self.giving = Giving::Start(start);
        self.at = FIRST;
    }

    /// Tells whether its next start comes to a line that says that it is refused.
    fn comes_to_refusal(&self, lines: &ScriptLines, told: &Told) -> bool
        requires cell { IsCellOf lines.now self.now }
        requires few { self.now.start_calls < 2 ^ 64 - 1 }
        ensures { let life = life_of_cell lines.now.replies self.now in
            result ≡ (start_reached told.now self.now.app life && is_refused (next_start lines.now self.now.app life)) }
    {
        self.is_start_reached(lines, told) && self.is_next_refused(lines)
    }

    /// Notes a start of it that failed, and came to its line.
    fn refused(&mut self, lines: &ScriptLines)
        requires cell { IsCellOf lines.now self.old }
        requires few { self.old.start_calls < 2 ^ 64 - 1 }
        ensures app { self.new.app ≡ self.old.app }
        ensures life { let life = life_of_cell lines.now.replies self.old in
            life_of_cell lines.now.replies self.new ≡ record life { starts = life.starts + 1; start_calls = life.start_calls + 1 } }
        ensures cell { IsCellOf lines.now self.new }
    {
        let (_, next) = lines.next_start(self.app, self.next_start);
        self.starts += 1;
        self.start_calls += 1;
        self.next_start = next;
    }

    /// Notes a start of it that failed: its line is taken where the call came to it.
    fn not_started(&mut self, lines: &ScriptLines, told: &Told)
        requires cell { IsCellOf lines.now self.old }
        requires few { self.old.start_calls < 2 ^ 64 - 1 }
        ensures app { self.new.app ≡ self.old.app }
        ensures life { life_of_cell lines.now.replies self.new
            ≡ after_start lines.now told.now self.old.app false (life_of_cell lines.now.replies self.old) }
        ensures cell { IsCellOf lines.now self.new }
    {
        if self.comes_to_refusal(lines, told) {
            self.refused(lines);
        } else {
            self.start_calls += 1;
        }
    }

    /// Notes a start of it.
    pub(crate) fn start(&mut self, lines: &ScriptLines, told: &Told, ok: bool)
        requires cell { IsCellOf lines.now self.old }
        requires few { self.old.start_calls < 2 ^ 64 - 1 }
        ensures app { self.new.app ≡ self.old.app }
        ensures life { life_of_cell lines.now.replies self.new
            ≡ after_start lines.now told.now self.old.app ok (life_of_cell lines.now.replies self.old) }
        ensures cell { IsCellOf lines.now self.new }
    {
        if ok {
            self.started(lines);
        } else {
            self.not_started(lines, told);
        }
    }

    /// Tells whether it takes what it is given next.
    #[tactic(auto, unfolding(crate::specs::Lives::life_of_cell, crate::specs::Scripts::will_give))]
    pub(crate) fn will_give(&self, told: &Told) -> bool
        requires { self.now.give_calls < 2 ^ 64 - 1 }
        ensures { (replies : List (ℕ × List ScriptStep)) → result ≡ will_give told.now self.now.app (life_of_cell replies self.now) }
    {
        self.running && !told.is_told(CallKind::Give, u64::from(self.app), self.give_calls + 1)
    }

    /// Begins a turn: an event was given to it.
    fn begin_turn(&mut self, lines: &ScriptLines)
        requires cell { IsCellOf lines.now self.old }
        requires few { self.old.give_calls < 2 ^ 64 - 1 }
        ensures app { self.new.app ≡ self.old.app }
        ensures life { life_of_cell lines.now.replies self.new
            ≡ after_gave lines.now self.old.app true (life_of_cell lines.now.replies self.old) }
        ensures cell { IsCellOf lines.now self.new }
    {
        let (giving, next) = lines.next_turn(self.app, self.next_reply);
        self.replies += 1;
        self.give_calls += 1;
        self.next_reply = next;
        self.giving = giving;
        self.at = FIRST;
    }

    /// Notes that it was given bytes.
    pub(crate) fn gave(&mut self, lines: &ScriptLines, bytes: &[u8])
        requires cell { IsCellOf lines.now self.old }
        requires few { self.old.give_calls < 2 ^ 64 - 1 }
        ensures app { self.new.app ≡ self.old.app }
        ensures life { life_of_cell lines.now.replies self.new
            ≡ after_gave lines.now self.old.app (is_some (event_number bytes.now)) (life_of_cell lines.now.replies self.old) }
        ensures cell { IsCellOf lines.now self.new }
    {
        if is_event(bytes) {
            self.begin_turn(lines);
        } else {
            self.give_calls += 1;
        }
    }

    /// Notes that it was gone before it was given bytes.
    #[tactic(auto, unfolding(crate::specs::Lives::life_of_cell, crate::specs::Scripts::after_gone))]
    pub(crate) fn gone(&mut self)
        requires { self.old.give_calls < 2 ^ 64 - 1 }
        ensures app { self.new.app ≡ self.old.app }
        ensures life { (replies : List (ℕ × List ScriptStep)) → life_of_cell replies self.new ≡ after_gone (life_of_cell replies self.old) }
        ensures cell { (own : Scripts) → IsCellOf own self.old → IsCellOf own self.new }
    {
        self.give_calls += 1;
    }

    /// Tells whether the next take from it answers Closed, since it is out of place or told to fail so.
    fn is_closed(&self, told: &Told) -> bool
        requires { self.now.take_calls < 2 ^ 64 - 1 }
        ensures { result ≡ (not self.now.running || is_told CallKind.TakeClosed self.now.app (self.now.take_calls + 1) told.now) }
    {
        !self.running
            || told.is_told(
                CallKind::TakeClosed,
                u64::from(self.app),
                self.take_calls + 1,
            )
    }

    /// Tells whether the next take from it is told to answer Silent.
    fn is_silent(&self, told: &Told) -> bool
        requires { self.now.take_calls < 2 ^ 64 - 1 }
        ensures { result ≡ is_told CallKind.TakeSilent self.now.app (self.now.take_calls + 1) told.now }
    {
        told.is_told(
            CallKind::TakeSilent,
            u64::from(self.app),
            self.take_calls + 1,
        )
    }

    /// Takes what it gives next, and counts no call.
    #[tactic(auto, unfolding(crate::specs::Lives::life_of_cell))]
    fn take_left(&mut self, lines: &ScriptLines, buf: &mut [u8]) -> Taken
        requires cell { IsCellOf lines.now self.old }
        requires room { 0 < length buf.old }
        ensures app { self.new.app ≡ self.old.app }
        ensures what { took_of result buf.new ≡ given_of (length buf.old) (life_of_cell lines.now.replies self.old).left }
        ensures life { life_of_cell lines.now.replies self.new ≡ record (life_of_cell lines.now.replies self.old) {
          left = left_of (length (taken_bytes (took_of result buf.new))) (life_of_cell lines.now.replies self.old).left;
        } }
        ensures cell { IsCellOf lines.now self.new }
        ensures taken { IsTakenIn result buf.new }
    {
        let (taken, at) = take_next(&lines.steps(self.giving), self.at, buf);
        self.at = at;
        taken
    }

    /// Tells how many bytes it gives next, and counts no call.
    #[tactic(auto, unfolding(crate::specs::Lives::life_of_cell))]
    fn len_left(&self, lines: &ScriptLines, room: usize) -> usize
        requires { IsCellOf lines.now self.now }
        ensures { result ≡ length (taken_bytes (given_of room (life_of_cell lines.now.replies self.now).left)) }
    {
        len_next(&lines.steps(self.giving), self.at, room)
    }

    /// Tells how many bytes the next take from it gives.
    pub(crate) fn next_len(&self, lines: &ScriptLines, told: &Told, room: usize) -> usize
        requires cell { IsCellOf lines.now self.now }
        requires few { self.now.take_calls < 2 ^ 64 - 1 }
        ensures { result ≡ length (taken_bytes (next_taken told.now self.now.app room (life_of_cell lines.now.replies self.now))) }
    {
        let closed = self.is_closed(told);
        let silent = self.is_silent(told);
        if closed {
            0
        } else if silent {
            0
        } else {
            self.len_left(lines, room)
        }
    }

    /// Takes from it into the front of the buffer.
    pub(crate) fn take(&mut self, lines: &ScriptLines, told: &Told, buf: &mut [u8]) -> Taken
        requires cell { IsCellOf lines.now self.old }
        requires few { self.old.take_calls < 2 ^ 64 - 1 }
        requires room { 0 < length buf.old }
        ensures app { self.new.app ≡ self.old.app }
        ensures what { took_of result buf.new
            ≡ next_taken told.now self.old.app (length buf.old) (life_of_cell lines.now.replies self.old) }
        ensures life { life_of_cell lines.now.replies self.new
            ≡ after_take told.now self.old.app (took_of result buf.new) (life_of_cell lines.now.replies self.old) }
        ensures cell { IsCellOf lines.now self.new }
        ensures taken { IsTakenIn result buf.new }
    {
        let closed = self.is_closed(told);
        let silent = self.is_silent(told);
        self.take_calls += 1;
        if closed {
            Taken::Closed
        } else if silent {
            Taken::Silent
        } else {
            self.take_left(lines, buf)
        }
    }

    /// Ends it.
    #[tactic(auto, unfolding(crate::specs::Lives::life_of_cell, crate::specs::Lives::from_position, crate::specs::Lives::steps_given, crate::specs::Scripts::after_end,))]
    pub(crate) fn end(&mut self)
        ensures app { self.new.app ≡ self.old.app }
        ensures life { (replies : List (ℕ × List ScriptStep)) → life_of_cell replies self.new ≡ after_end (life_of_cell replies self.old) }
        ensures cell { (own : Scripts) → IsCellOf own self.old → IsCellOf own self.new }
    {
        self.running = false;
        self.giving = Giving::Nothing;
        self.at = FIRST;
    }
}
