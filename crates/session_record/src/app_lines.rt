//! The lines of an application.

ghost use Rattle.std.specs.Prelude.{◌≡◌, ◌==◌, ◌-◌, ◌++◌, ◌∷◌, take, map, OnOk, IfOk, string_bytes};
ghost use Rattle.session_record.specs.Deeds.{deeds_in, attempts, of_app};
ghost use Rattle.session_record.specs.Ends.{end_in};
ghost use Rattle.session_record.specs.Lines.{steps_text};
ghost use Rattle.session_record.specs.Recording.{end_steps};
ghost use Rattle.session_record.specs.Spelled as spelled;

use crate::deed::Ending;
use crate::life::{ending_of, played_size, start_told};
use crate::line_words::push_start;
use crate::log::{Kept, deeds_of};
use crate::pieces::{attempts_in, front, parts_in, piece_of};
use std::alloc::{AllocError, Global};

/// Appends the step of a piece, unless it is empty.
#[tactic(auto, unfolding(crate::specs::Lines::step_text))]
fn push_step(alloc: Global, out: &mut String, piece: &[u8]) -> Result<(), AllocError>
    ensures { OnOk result (string_bytes out.new ≡ string_bytes out.old ++ spelled.piece_text piece.now) }
{
    if piece.is_empty() {
        return Ok(());
    }
    let digits = hex::encode(alloc, piece)?;
    out.push_str(" x:")?;
    out.push_str(&digits)
}

/// Appends a step for each piece of a turn, as far as so many bytes go, and answers how many are left.
#[tactic(auto, unfolding(crate::specs::Spelled::pieces_text, crate::specs::Spelled::rest_behind), using(crate::specs::laws::PushLaws::pushed))]
fn push_steps(
    alloc: Global,
    out: &mut String,
    mut left: usize,
    turn: &[Kept],
    bytes: &[u8],
) -> Result<usize, AllocError>
    ensures text { OnOk result (string_bytes out.new ≡ string_bytes out.old ++ spelled.pieces_text left (deeds_in bytes.now turn.now)) }
    ensures left { IfOk result (λ rest. rest ≡ spelled.rest_behind left (deeds_in bytes.now turn.now)) }
{
    for kept in turn {
        let piece = piece_of(kept, bytes);
        push_step(alloc, out, front(piece, left))?;
        left = left.saturating_sub(piece.len());
    }
    Ok(left)
}

/// Appends how a turn ended.
#[tactic(auto, unfolding(crate::specs::Lines::step_text))]
fn push_ending(out: &mut String, is_bare: bool, ending: Ending) -> Result<(), AllocError>
    ensures { OnOk result (string_bytes out.new ≡ string_bytes out.old ++ steps_text (end_steps is_bare (end_in ending))) }
{
    match ending {
        Ending::Closes => out.push_str(" closed"),
        Ending::Stalls => out.push_str(" silent"),
        Ending::Untold if is_bare => out.push_str(" closed"),
        Ending::Untold => Ok(()),
    }
}

/// Appends the line of a turn, of which so many bytes may stand there, and answers how many are left.
#[tactic(auto, unfolding(crate::specs::Spelled::turn_text))]
fn push_turn(
    alloc: Global,
    out: &mut String,
    app: &str,
    first: &[u8],
    left: usize,
    turn: &[Kept],
    bytes: &[u8],
) -> Result<usize, AllocError>
    ensures text { OnOk result (string_bytes out.new ≡ string_bytes out.old ++ spelled.turn_text app.now first.now left (deeds_in bytes.now turn.now)) }
    ensures left { IfOk result (λ rest. rest ≡ spelled.turn_rest first.now left (deeds_in bytes.now turn.now)) }
{
    out.push_str("reply ")?;
    out.push_str(app)?;
    push_step(alloc, out, front(first, left))?;
    let rest = push_steps(alloc, out, left.saturating_sub(first.len()), turn, bytes)?;
    push_ending(out, rest == left, ending_of(turn, bytes))?;
    out.push_str("\n")?;
    Ok(rest)
}

/// Appends the lines of further turns of a life.
#[tactic(auto, unfolding(crate::specs::Spelled::turns_text), using(crate::specs::laws::PushLaws::pushed))]
fn push_turns(
    alloc: Global,
    out: &mut String,
    app: &str,
    mut left: usize,
    turns: &[&[Kept]],
    bytes: &[u8],
) -> Result<(), AllocError>
    ensures { OnOk result (string_bytes out.new ≡ string_bytes out.old ++ spelled.turns_text app.now left (map (λ s. deeds_in bytes.now s.now) turns.now)) }
{
    for turn in turns {
        left = push_turn(alloc, out, app, &[], left, turn, bytes)?;
    }
    Ok(())
}

/// Appends the lines of the turns of a life, the first of which begins with these bytes.
#[tactic(auto, unfolding(crate::specs::Spelled::life_text), using(crate::specs::laws::PushLaws::pushed))]
fn push_life(
    alloc: Global,
    out: &mut String,
    app: &str,
    first: &[u8],
    left: usize,
    turns: &[&[Kept]],
    bytes: &[u8],
) -> Result<(), AllocError>
    ensures { OnOk result (string_bytes out.new ≡ string_bytes out.old ++ spelled.life_text app.now first.now left (map (λ s. deeds_in bytes.now s.now) turns.now)) }
{
    match turns {
        [] => Ok(()),
        [turn, more @ ..] => {
            let left = push_turn(alloc, out, app, first, left, turn, bytes)?;
            push_turns(alloc, out, app, left, more, bytes)
        }
    }
}

/// Appends the lines of a start, and of the turns behind it.
#[tactic(auto, unfolding(crate::specs::Spelled::told_text), using(crate::specs::laws::PushLaws::told_pushed))]
fn push_told(
    alloc: Global,
    out: &mut String,
    app: &str,
    start: &[Kept],
    turns: &[&[Kept]],
    bytes: &[u8],
) -> Result<(), AllocError>
    ensures { OnOk result (string_bytes out.new ≡ string_bytes out.old ++ spelled.told_text app.now (deeds_in bytes.now start.now) (map (λ s. deeds_in bytes.now s.now) turns.now)) }
{
    let (tried, rest) = start_told(alloc, start, bytes)?;
    push_start(out, app, tried)?;
    let left = played_size(alloc, rest.as_slice(), turns, bytes)?;
    push_life(alloc, out, app, rest.as_slice(), left, turns, bytes)
}

/// Appends the lines of the parts of an attempt.
fn push_parts(
    alloc: Global,
    out: &mut String,
    app: &str,
    parts: &[&[Kept]],
    bytes: &[u8],
) -> Result<(), AllocError>
    ensures { OnOk result (string_bytes out.new ≡ string_bytes out.old ++ spelled.parts_text app.now (map (λ s. deeds_in bytes.now s.now) parts.now)) }
{
    match parts {
        [] => Ok(()),
        [start, turns @ ..] => push_told(alloc, out, app, start, turns, bytes),
    }
}

/// Appends the lines of an attempt to start, and of the life that it began.
#[tactic(auto, unfolding(crate::specs::Spelled::attempt_text))]
fn push_attempt(
    alloc: Global,
    out: &mut String,
    app: &str,
    attempt: &[Kept],
    bytes: &[u8],
) -> Result<(), AllocError>
    ensures { OnOk result (string_bytes out.new ≡ string_bytes out.old ++ spelled.attempt_text app.now (deeds_in bytes.now attempt.now)) }
{
    if attempt.is_empty() {
        return Ok(());
    }
    let all = parts_in(alloc, attempt)?;
    push_parts(alloc, out, app, &all, bytes)
}

/// Appends the lines of these attempts.
#[tactic(auto, unfolding(crate::specs::Spelled::attempts_text), using(crate::specs::laws::PushLaws::pushed))]
fn push_attempts(
    alloc: Global,
    out: &mut String,
    app: &str,
    attempts: &[&[Kept]],
    bytes: &[u8],
) -> Result<(), AllocError>
    ensures { OnOk result (string_bytes out.new ≡ string_bytes out.old ++ spelled.attempts_text app.now (map (λ s. deeds_in bytes.now s.now) attempts.now)) }
{
    for attempt in attempts {
        push_attempt(alloc, out, app, attempt, bytes)?;
    }
    Ok(())
}

/// Appends the lines of the application with an index, of all deeds.
fn push_app(
    alloc: Global,
    out: &mut String,
    app: &str,
    index: usize,
    deeds: &[Kept],
    bytes: &[u8],
) -> Result<(), AllocError>
    ensures { OnOk result (string_bytes out.new ≡ string_bytes out.old ++ spelled.attempts_text app.now (attempts (of_app index (deeds_in bytes.now deeds.now)))) }
{
    let own = deeds_of(alloc, deeds, index)?;
    let all = attempts_in(alloc, &own)?;
    push_attempts(alloc, out, app, &all, bytes)
}

/// Appends the lines of all applications, by their names.
#[tactic(auto, unfolding(crate::specs::Spelled::apps_text), using(crate::specs::laws::PushLaws::pushed))]
pub(crate) fn push_apps(
    alloc: Global,
    out: &mut String,
    names: &[String],
    deeds: &[Kept],
    bytes: &[u8],
) -> Result<(), AllocError>
    ensures { OnOk result (string_bytes out.new ≡ string_bytes out.old ++ spelled.apps_text 0 (map (λ s. string_bytes s) names.now) (deeds_in bytes.now deeds.now)) }
{
    for (app, name) in names.iter().enumerate() {
        push_app(alloc, out, name, app, deeds, bytes)?;
    }
    Ok(())
}
