//! The steps of a scripted turn.

ghost use Rattle.std.specs.Prelude.{◌≡◌, Ok, map};
ghost use Rattle.app_frames.specs.Frames.{AppFits};
ghost use Rattle.lego_model.specs.SessionSteps.{has_head as has_head_in, is_plain_end as is_plain_end_in, is_end as is_end_in, is_mark as is_mark_in, is_message as is_message_in, is_step as is_step_in, are_steps as are_steps_in, gives, message_step as message_step_in, bytes_step as bytes_step_in, checkpoint_step as checkpoint_step_in, word_step as word_step_in, headed_step as headed_step_in, step_of as step_in, steps_of as steps_in};
ghost use Rattle.lego_model.specs.SessionWords.{before, behind};
ghost use Rattle.session_text.specs.TextGives.{Gives};

use crate::text_fault::LineFault;
use crate::text_words::{a_number, cut_at, some_bytes};
use crate::words::is;
use app_frames::{AppFrame, MOST_CHECKPOINT_BYTES, ScriptStep, encode_app};
use lego_model::SessionKind;
use of_types::ByteList;
use of_types::limits::MOST_MESSAGE_BYTES;
use session_lists::StepList;
use std::alloc::Global;

/// How many bytes a message of OpenFlow 1.0 has at least: its header (OpenFlow 1.0.0, 5.1 OpenFlow Header).
const LEAST_MESSAGE: usize = 8;

/// Tells whether a step begins with this name and a colon.
fn has_head(step: &[u8], name: &[u8]) -> bool
    ensures { result ≡ has_head_in name.now step.now }
{
    match cut_at(step, b':') {
        Some((front, _)) => is(front, name),
        None => false,
    }
}

/// Tells whether a step is a word that nothing follows.
fn is_plain_end(step: &[u8]) -> bool
    ensures { result ≡ is_plain_end_in step.now }
{
    is(step, b"done") || is(step, b"stop") || is(step, b"closed") || is(step, b"silent")
}

/// Tells whether nothing follows a step.
#[tactic(auto, unfolding(lego_model::specs::SessionSteps::is_end))]
fn is_end(step: &[u8]) -> bool
    ensures { result ≡ is_end_in step.now }
{
    is_plain_end(step) || has_head(step, b"done") || has_head(step, b"stop")
}

/// Tells whether a step sets, forgets or goes back to a mark.
fn is_mark(step: &[u8]) -> bool
    ensures { result ≡ is_mark_in step.now }
{
    is(step, b"save") || is(step, b"keep") || is(step, b"undo")
}

/// Tells whether a step has the form of a message: `m:`, and a further colon.
fn is_message(step: &[u8]) -> bool
    ensures { result ≡ is_message_in step.now }
{
    match cut_at(step, b':') {
        Some((front, rest)) => is(front, b"m") && cut_at(rest, b':').is_some(),
        None => false,
    }
}

/// Tells whether a step has one of the forms.
#[tactic(auto, unfolding(lego_model::specs::SessionSteps::is_step))]
fn is_step(step: &[u8]) -> bool
    ensures { result ≡ is_step_in step.now }
{
    is_end(step) || is_mark(step) || is_message(step) || has_head(step, b"x")
}

/// Tells whether each step has one of the forms, and none follows an end.
pub fn are_steps(steps: &[&[u8]]) -> bool
    ensures { result ≡ are_steps_in (map (λ w. w.now) steps.now) }
{
    let mut rest = steps;
    while let [step, more @ ..] = rest {
        if !is_step(step) {
            return false;
        }
        if !more.is_empty() && is_end(step) {
            return false;
        }
        rest = more;
    }
    true
}

/// Makes a step that gives a frame.
fn gives_frame(alloc: Global, frame: &AppFrame) -> Result<ScriptStep, LineFault>
    requires { AppFits frame.now }
    ensures { Gives (λ s. s) result (Ok (gives frame.now)) }
{
    Ok(ScriptStep::Bytes(encode_app(alloc, frame)?))
}

/// Reads a step that gives a message for the switch of any datapath id.
#[tactic(auto, unfolding(lego_model::specs::SessionSteps::message_step))]
fn message_step(alloc: Global, dpid: &[u8], hex: &[u8]) -> Result<ScriptStep, LineFault>
    ensures { Gives (λ s. s) result (message_step_in dpid.now hex.now) }
{
    let dpid = a_number(dpid, 0, u64::MAX)?;
    let bytes = some_bytes(alloc, hex, LEAST_MESSAGE, MOST_MESSAGE_BYTES)?;
    gives_frame(alloc, &AppFrame::Message(dpid, ByteList::from_vec(bytes)))
}

/// Reads a step that gives bare bytes.
#[tactic(auto, unfolding(lego_model::specs::SessionSteps::bytes_step))]
fn bytes_step(alloc: Global, hex: &[u8]) -> Result<ScriptStep, LineFault>
    ensures { Gives (λ s. s) result (bytes_step_in hex.now) }
{
    let bytes = some_bytes(alloc, hex, 0, usize::MAX)?;
    Ok(ScriptStep::Bytes(ByteList::from_vec(bytes)))
}

/// Reads a step that ends the turn with a checkpoint.
#[tactic(auto, unfolding(lego_model::specs::SessionSteps::checkpoint_step))]
fn checkpoint_step(alloc: Global, stop: bool, hex: &[u8]) -> Result<ScriptStep, LineFault>
    ensures { Gives (λ s. s) result (checkpoint_step_in stop hex.now) }
{
    let bytes = some_bytes(alloc, hex, 0, MOST_CHECKPOINT_BYTES)?;
    let checkpoint = Some(ByteList::from_vec(bytes));
    gives_frame(alloc, &AppFrame::Done { stop, checkpoint })
}

/// Reads a step that is one word.
#[tactic(auto, unfolding(lego_model::specs::SessionSteps::word_step))]
fn word_step(alloc: Global, step: &[u8]) -> Result<ScriptStep, LineFault>
    ensures { Gives (λ s. s) result (word_step_in step.now) }
{
    if is(step, b"save") {
        gives_frame(alloc, &AppFrame::Save)
    } else if is(step, b"keep") {
        gives_frame(alloc, &AppFrame::Keep)
    } else if is(step, b"undo") {
        gives_frame(alloc, &AppFrame::Undo)
    } else if is(step, b"done") {
        let stop = false;
        let checkpoint = None;
        gives_frame(alloc, &AppFrame::Done { stop, checkpoint })
    } else if is(step, b"stop") {
        let stop = true;
        let checkpoint = None;
        gives_frame(alloc, &AppFrame::Done { stop, checkpoint })
    } else if is(step, b"closed") {
        Ok(ScriptStep::Closed)
    } else if is(step, b"silent") {
        Ok(ScriptStep::Silent)
    } else {
        Err(LineFault::Kind(SessionKind::Word))
    }
}

/// Reads a message's step behind `m:`, the datapath id and the bytes with a colon between them.
#[tactic(auto, using(crate::proofs::Cuts::unmarked))]
fn message_behind(alloc: Global, rest: &[u8]) -> Result<ScriptStep, LineFault>
    ensures { Gives (λ s. s) result (message_step_in (before 58 rest.now) (behind 58 rest.now)) }
{
    match cut_at(rest, b':') {
        Some((dpid, hex)) => message_step(alloc, dpid, hex),
        None => message_step(alloc, rest, &[]),
    }
}

/// Reads a step with a name, a colon and a rest.
#[tactic(auto, unfolding(lego_model::specs::SessionSteps::headed_step))]
fn headed_step(alloc: Global, name: &[u8], rest: &[u8]) -> Result<ScriptStep, LineFault>
    ensures { Gives (λ s. s) result (headed_step_in name.now rest.now) }
{
    if is(name, b"m") {
        message_behind(alloc, rest)
    } else if is(name, b"x") {
        bytes_step(alloc, rest)
    } else if is(name, b"done") {
        checkpoint_step(alloc, false, rest)
    } else if is(name, b"stop") {
        checkpoint_step(alloc, true, rest)
    } else {
        Err(LineFault::Kind(SessionKind::Word))
    }
}

/// Reads what a step gives.
#[tactic(auto, unfolding(lego_model::specs::SessionSteps::step_of))]
fn step_of(alloc: Global, step: &[u8]) -> Result<ScriptStep, LineFault>
    ensures { Gives (λ s. s) result (step_in step.now) }
{
    match cut_at(step, b':') {
        Some((name, rest)) => headed_step(alloc, name, rest),
        None => word_step(alloc, step),
    }
}

/// Reads what the steps of a turn give.
pub fn steps_of(alloc: Global, steps: &[&[u8]]) -> Result<StepList, LineFault>
    ensures { Gives (λ s. s) result (steps_in (map (λ w. w.now) steps.now)) }
{
    let mut given = StepList::new(alloc);
    for step in steps {
        given.push(&step_of(alloc, step)?)?;
    }
    Ok(given)
}
