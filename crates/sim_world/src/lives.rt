//! The lives of all applications.

ghost use Rattle.std.specs.Prelude.{◌≡◌, ℕ, ◌+◌, ◌-◌, ◌<◌, ◌^◌, [], ◌∷◌, ◌++◌, true, false, List, length, All, is_some, IfOk, OnOk, OnErr, IfSome, IfNone};
ghost use Rattle.of_types.specs.declared.journal.Act.TheVariants.{Started, Gave, Gone, Ended};
ghost use Rattle.app_frames.specs.declared.script.ScriptStep.{ScriptStep};
ghost use Rattle.outside.specs.Calls.{IsTakenIn};
ghost use Rattle.outside.specs.State.{event_number};
ghost use Rattle.outside.specs.declared.call.FailCall.{FailCall};
ghost use Rattle.outside.specs.declared.step.WorldStep.TheVariants.{Acted, TookInto};
ghost use Rattle.sim_world.specs.Scripts.{will_start, will_give, next_taken, taken_bytes, after_start, after_gave, after_gone, after_take, after_end, life_after};
ghost use Rattle.sim_world.specs.Lives.{IsCellOf, IsFirst, Moved, took_of, life_in, has_cell, named_lives, life_of, is_known};

use crate::life::LifeCell;
use crate::scripts::ScriptLines;
use crate::told::Told;
use app_frames::StartScript;
use outside::Taken;
use session_lists::{ReplyList, StepList};
use std::alloc::{AllocError, Global};
use std::marker::Model;

/// The lives of all applications, and the lines that say what they do: how their starts end, and what they give in
/// their turns. Contracts see the lines, and the lives of those applications that were spoken of. Applications are
/// named by their index.
#[derive(Drop, Debug)]
pub struct Lives {
    lines: ScriptLines,
    cells: Vec<LifeCell>,
}

impl Model for Lives {
    ghost use Rattle.std.specs.Prelude.{All};
    ghost use Rattle.sim_world.specs.Lives.{ScriptedLives, IsCellOf, named_lives};

    ghost Value = { ScriptedLives };

    ghost view = { λ s. record { own = s.lines; lives = named_lives s.lines.replies s.cells.items } };

    ghost invariant = { λ s. All (IsCellOf s.lines) s.cells.items };
}

/// Finds where the life of an application stands.
fn find(cells: &[LifeCell], app: u32) -> Option<usize>
    ensures some { IfSome result (λ i. IsFirst app i cells.now) }
    ensures within { IfSome result (λ i. i < length cells.now) }
    ensures none { IfNone result (has_cell app cells.now ≡ false) }
{
    for i in 0..cells.len() {
        if cells[i].app == app {
            return Some(i);
        }
    }
    None
}

/// Finds where the life of an application stands that was spoken of.
fn place(cells: &[LifeCell], app: u32) -> usize
    requires { has_cell app cells.now ≡ true }
    ensures first { IsFirst app result cells.now }
    ensures within { result < length cells.now }
{
    find(cells, app).unwrap()
}

/// Notes a start of an application that was spoken of.
fn start_in(cells: &mut [LifeCell], lines: &ScriptLines, told: &Told, app: u32, ok: bool)
    requires cells { All (IsCellOf lines.now) cells.old }
    requires known { has_cell app cells.old ≡ true }
    requires few { (life_in app (named_lives lines.now.replies cells.old)).start_calls < 2 ^ 64 - 1 }
    ensures cells { All (IsCellOf lines.now) cells.new }
    ensures moved { Moved app (after_start lines.now told.now app ok) (named_lives lines.now.replies cells.old)
        (named_lives lines.now.replies cells.new) }
{
    let i = place(cells, app);
    cells[i].start(lines, told, ok);
}

/// Notes that bytes were given to an application that was spoken of.
fn gave_in(cells: &mut [LifeCell], lines: &ScriptLines, app: u32, bytes: &[u8])
    requires cells { All (IsCellOf lines.now) cells.old }
    requires known { has_cell app cells.old ≡ true }
    requires few { (life_in app (named_lives lines.now.replies cells.old)).give_calls < 2 ^ 64 - 1 }
    ensures cells { All (IsCellOf lines.now) cells.new }
    ensures moved { Moved app (after_gave lines.now app (is_some (event_number bytes.now)))
        (named_lives lines.now.replies cells.old) (named_lives lines.now.replies cells.new) }
{
    let i = place(cells, app);
    cells[i].gave(lines, bytes);
}

/// Notes that an application that was spoken of was gone before it was given bytes.
fn gone_in(cells: &mut [LifeCell], lines: &ScriptLines, app: u32)
    requires cells { All (IsCellOf lines.now) cells.old }
    requires known { has_cell app cells.old ≡ true }
    requires few { (life_in app (named_lives lines.now.replies cells.old)).give_calls < 2 ^ 64 - 1 }
    ensures cells { All (IsCellOf lines.now) cells.new }
    ensures moved { Moved app after_gone (named_lives lines.now.replies cells.old)
        (named_lives lines.now.replies cells.new) }
{
    let i = place(cells, app);
    cells[i].gone();
}

/// Takes from an application that was spoken of.
fn take_in(
    cells: &mut [LifeCell],
    lines: &ScriptLines,
    told: &Told,
    app: u32,
    buf: &mut [u8],
) -> Taken
    requires cells { All (IsCellOf lines.now) cells.old }
    requires known { has_cell app cells.old ≡ true }
    requires few { (life_in app (named_lives lines.now.replies cells.old)).take_calls < 2 ^ 64 - 1 }
    requires room { 0 < length buf.old }
    ensures cells { All (IsCellOf lines.now) cells.new }
    ensures moved { Moved app (after_take told.now app (took_of result buf.new)) (named_lives lines.now.replies cells.old)
        (named_lives lines.now.replies cells.new) }
    ensures what { took_of result buf.new
        ≡ next_taken told.now app (length buf.old) (life_in app (named_lives lines.now.replies cells.old)) }
    ensures taken { IsTakenIn result buf.new }
{
    let i = place(cells, app);
    cells[i].take(lines, told, buf)
}

/// Notes the end of an application, if it was spoken of.
fn end_in(cells: &mut [LifeCell], lines: &ScriptLines, app: u32)
    requires cells { All (IsCellOf lines.now) cells.old }
    ensures cells { All (IsCellOf lines.now) cells.new }
    ensures moved { Moved app after_end (named_lives lines.now.replies cells.old)
        (named_lives lines.now.replies cells.new) }
{
    if let Some(i) = find(cells, app) {
        cells[i].end();
    }
}

/// Tells whether an application was started and not ended.
fn is_running_in(cells: &[LifeCell], app: u32) -> bool
    ensures { (replies : List (ℕ × List ScriptStep)) → result ≡ (life_in app (named_lives replies cells.now)).running }
{
    match find(cells, app) {
        Some(i) => cells[i].running,
        None => false,
    }
}

/// Tells whether the next start of an application that was spoken of succeeds.
fn will_start_in(cells: &[LifeCell], lines: &ScriptLines, told: &Told, app: u32) -> bool
    requires cells { All (IsCellOf lines.now) cells.now }
    requires known { has_cell app cells.now ≡ true }
    requires few { (life_in app (named_lives lines.now.replies cells.now)).start_calls < 2 ^ 64 - 1 }
    ensures { result ≡ will_start lines.now told.now app (life_in app (named_lives lines.now.replies cells.now)) }
{
    cells[place(cells, app)].will_start(lines, told)
}

/// Tells whether an application that was spoken of takes what it is given next.
fn will_give_in(cells: &[LifeCell], lines: &ScriptLines, told: &Told, app: u32) -> bool
    requires known { has_cell app cells.now ≡ true }
    requires few { (life_in app (named_lives lines.now.replies cells.now)).give_calls < 2 ^ 64 - 1 }
    ensures { result ≡ will_give told.now app (life_in app (named_lives lines.now.replies cells.now)) }
{
    cells[place(cells, app)].will_give(told)
}

/// Tells how many bytes the next take from an application that was spoken of gives.
fn next_len_in(cells: &[LifeCell], lines: &ScriptLines, told: &Told, app: u32, room: usize) -> usize
    requires cells { All (IsCellOf lines.now) cells.now }
    requires known { has_cell app cells.now ≡ true }
    requires few { (life_in app (named_lives lines.now.replies cells.now)).take_calls < 2 ^ 64 - 1 }
    ensures { result ≡ length (taken_bytes (next_taken told.now app room (life_in app (named_lives lines.now.replies cells.now)))) }
{
    cells[place(cells, app)].next_len(lines, told, room)
}

impl Lives {
    /// Makes a list of no lines and no lives.
    pub fn new(alloc: Global) -> Result<Lives, AllocError>
        ensures { IfOk result (λ s. s ≡ record { own = record { starts = []; replies = [] }; lives = [] }) }
    {
        Ok(Lives {
            lines: ScriptLines::new(alloc)?,
            cells: Vec::new(alloc),
        })
    }

    /// Adds one line: how the next start of the application ends. No application was spoken of yet. Want of memory
    /// changes nothing.
    pub fn add_start(&mut self, app: u32, start: StartScript) -> Result<(), AllocError>
        requires { self.old.lives ≡ [] }
        ensures ok { OnOk result (self.new ≡ record self.old {
          own = record self.old.own { starts = self.old.own.starts ++ (app, start) ∷ [] };
        }) }
        ensures err { OnErr result (self.new ≡ self.old) }
    {
        self.lines.add_start(app, start)
    }

    /// Adds one line: what the application gives in its next turn. No application was spoken of yet. Want of memory
    /// changes nothing.
    pub fn add_reply(&mut self, app: u32, reply: &StepList) -> Result<(), AllocError>
        requires { self.old.lives ≡ [] }
        ensures ok { OnOk result (self.new ≡ record self.old {
          own = record self.old.own { replies = self.old.own.replies ++ (app, reply.now) ∷ [] };
        }) }
        ensures err { OnErr result (self.new ≡ self.old) }
    {
        self.lines.add_reply(app, reply)
    }

    /// Adds all lines of turns at once, in the place of those before. No application was spoken of yet.
    pub fn add_replies(&mut self, replies: ReplyList)
        requires { self.old.lives ≡ [] }
        ensures { self.new ≡ record self.old { own = record self.old.own { replies = replies } } }
    {
        self.lines.add_replies(replies);
    }

    /// Makes room for the life of an application, so that all calls below take no memory. No life moves. Want of
    /// memory changes nothing.
    pub fn ensure(&mut self, app: u32) -> Result<(), AllocError>
        ensures own { self.new.own ≡ self.old.own }
        ensures known { OnOk result (is_known app self.new ≡ true) }
        ensures kept { (a : ℕ) → is_known a self.old ≡ true → is_known a self.new ≡ true }
        ensures lives { (a : ℕ) → life_of a self.new ≡ life_of a self.old }
        ensures err { OnErr result (self.new ≡ self.old) }
    {
        match find(&self.cells, app) {
            Some(_) => Ok(()),
            None => {
                self.cells.push(LifeCell::fresh(app))?;
                Ok(())
            }
        }
    }

    /// Tells whether the application was started and not ended; takes no memory.
    pub fn is_running(&self, app: u32) -> bool
        ensures { result ≡ (life_of app self.now).running }
    {
        is_running_in(&self.cells, app)
    }

    /// Tells whether the next start of the application succeeds; takes no memory. There is room for its life.
    pub fn will_start(&self, told: &Told, app: u32) -> bool
        requires known { is_known app self.now ≡ true }
        requires few { (life_of app self.now).start_calls < 2 ^ 64 - 1 }
        ensures { result ≡ will_start self.now.own told.now app (life_of app self.now) }
    {
        will_start_in(&self.cells, &self.lines, told, app)
    }

    /// Notes a start of the application, and whether it succeeded; takes no memory. There is room for its life.
    pub fn start(&mut self, told: &Told, app: u32, ok: bool)
        requires known { is_known app self.old ≡ true }
        requires few { (life_of app self.old).start_calls < 2 ^ 64 - 1 }
        ensures own { self.new.own ≡ self.old.own }
        ensures known { (a : ℕ) → is_known a self.new ≡ is_known a self.old }
        ensures lives { (a : ℕ) → life_of a self.new
            ≡ life_after self.old.own told.now a (Acted (Started app ok)) (life_of a self.old) }
    {
        start_in(&mut self.cells, &self.lines, told, app, ok);
    }

    /// Tells whether the application takes what it is given next; takes no memory. There is room for its life.
    pub fn will_give(&self, told: &Told, app: u32) -> bool
        requires known { is_known app self.now ≡ true }
        requires few { (life_of app self.now).give_calls < 2 ^ 64 - 1 }
        ensures { result ≡ will_give told.now app (life_of app self.now) }
    {
        will_give_in(&self.cells, &self.lines, told, app)
    }

    /// Notes that the application was given the bytes; takes no memory. There is room for its life.
    pub fn gave(&mut self, app: u32, bytes: &[u8])
        requires known { is_known app self.old ≡ true }
        requires few { (life_of app self.old).give_calls < 2 ^ 64 - 1 }
        ensures own { self.new.own ≡ self.old.own }
        ensures known { (a : ℕ) → is_known a self.new ≡ is_known a self.old }
        ensures lives { (fails : List FailCall) (a : ℕ) → life_of a self.new
            ≡ life_after self.old.own fails a (Acted (Gave app bytes.now)) (life_of a self.old) }
    {
        gave_in(&mut self.cells, &self.lines, app, bytes);
    }

    /// Notes that the application was gone before it was given bytes; takes no memory. There is room for its life.
    pub fn gone(&mut self, app: u32)
        requires known { is_known app self.old ≡ true }
        requires few { (life_of app self.old).give_calls < 2 ^ 64 - 1 }
        ensures own { self.new.own ≡ self.old.own }
        ensures known { (a : ℕ) → is_known a self.new ≡ is_known a self.old }
        ensures lives { (fails : List FailCall) (bytes : List ℕ) (a : ℕ) → life_of a self.new
            ≡ life_after self.old.own fails a (Acted (Gone app bytes)) (life_of a self.old) }
    {
        gone_in(&mut self.cells, &self.lines, app);
    }

    /// Tells how many bytes the next take from the application gives into so much room; takes no memory. There is room
    /// for its life.
    pub fn next_len(&self, told: &Told, app: u32, room: usize) -> usize
        requires known { is_known app self.now ≡ true }
        requires few { (life_of app self.now).take_calls < 2 ^ 64 - 1 }
        ensures { result ≡ length (taken_bytes (next_taken told.now app room (life_of app self.now))) }
    {
        next_len_in(&self.cells, &self.lines, told, app, room)
    }

    /// Takes what comes next from the application into the front of the buffer; takes no memory. There is room for its
    /// life.
    pub fn take(&mut self, told: &Told, app: u32, buf: &mut [u8]) -> Taken
        requires known { is_known app self.old ≡ true }
        requires few { (life_of app self.old).take_calls < 2 ^ 64 - 1 }
        requires room { 0 < length buf.old }
        ensures own { self.new.own ≡ self.old.own }
        ensures known { (a : ℕ) → is_known a self.new ≡ is_known a self.old }
        ensures lives { (a : ℕ) → life_of a self.new
            ≡ life_after self.old.own told.now a (TookInto app (took_of result buf.new) (length buf.old)) (life_of a self.old) }
        ensures what { took_of result buf.new ≡ next_taken told.now app (length buf.old) (life_of app self.old) }
        ensures taken { IsTakenIn result buf.new }
    {
        take_in(&mut self.cells, &self.lines, told, app, buf)
    }

    /// Notes that the application was ended; takes no memory. One that was not spoken of stays so.
    pub fn end(&mut self, app: u32)
        ensures own { self.new.own ≡ self.old.own }
        ensures known { (a : ℕ) → is_known a self.new ≡ is_known a self.old }
        ensures lives { (fails : List FailCall) (a : ℕ) → life_of a self.new
            ≡ life_after self.old.own fails a (Acted (Ended app)) (life_of a self.old) }
    {
        end_in(&mut self.cells, &self.lines, app);
    }
}
