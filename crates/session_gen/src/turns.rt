//! The turns that are drawn: two changes of flows, and an end.

ghost use Rattle.std.specs.Prelude.{◌≡◌, ◌<◌, ◌≤◌, ◌∷◌, [], length, IfOk, OnOk, None};
ghost use Rattle.of_action.specs.declared.action.Action.TheVariants.{Output};
ghost use Rattle.of_match.specs.Fields.{bytes_of, any_fields};
ghost use Rattle.of_match.specs.Match.{match_of};
ghost use Rattle.of_wire.specs.Spelling.{message_size, message_bytes};
ghost use Rattle.app_frames.specs.Frames.{AppFits};
ghost use Rattle.app_frames.specs.declared.script.ScriptStep.TheVariants.{Closed};
ghost use Rattle.lego_model.specs.SessionSteps.{gives};
ghost use Rattle.session_gen.specs.Draws.{next, behind};
ghost use Rattle.session_gen.specs.Turns.{in_port_drawn, terms_drawn, change_of, frame_of, plain_end, end_drawn, turn_drawn};

use crate::draws::Draws;
use app_frames::{AppFrame, ScriptStep, encode_app};
use of_action::{Action, ActionList};
use of_match::{Fields, Match};
use of_types::{ByteList, Dpid, PortNo, flows, ports};
use of_wire::{FlowMod, Message, encode_into};
use session_lists::StepList;
use std::alloc::{AllocError, Global};

/// What is drawn of a change of flows: the switch, and the numbers in the message.
#[derive(Clone, Copy, Debug, PartialEq, Eq)]
pub struct Terms {
    /// The switch.
    pub dpid: Dpid,
    /// ADD 0, MODIFY 1, MODIFY_STRICT 2, DELETE 3 or DELETE_STRICT 4.
    pub command: u16,
    /// The port that the match names, if it names one.
    pub in_port: Option<PortNo>,
    /// The priority.
    pub priority: u16,
    /// The idle timeout in seconds, 0 for never.
    pub idle: u16,
    /// The hard timeout in seconds, 0 for never.
    pub hard: u16,
    /// The port of the one action.
    pub out: PortNo,
}

/// Draws the port that a match names.
fn draw_in_port(draws: &mut Draws) -> Option<PortNo>
    ensures value { result ≡ in_port_drawn draws.old.state }
    ensures state { draws.new.state ≡ next (next draws.old.state) }
{
    let port = 1 + draws.draw(4);
    if draws.draw(3) == 0 { None } else { Some(port) }
}

/// Draws a change.
#[tactic(auto, unfolding(crate::specs::Turns::terms_drawn))]
fn draw_terms(draws: &mut Draws) -> Terms
    ensures value { result ≡ terms_drawn draws.old.state }
    ensures state { draws.new.state ≡ behind 8 draws.old.state }
{
    let dpid = 1 + u64::from(draws.draw(2));
    let command = draws.draw(5);
    let in_port = draw_in_port(draws);
    let priority = 1 + draws.draw(3);
    let idle = 10 * draws.draw(3);
    let hard = 20 * draws.draw(3);
    let out = 1 + draws.draw(4);
    Terms {
        dpid,
        command,
        in_port,
        priority,
        idle,
        hard,
        out,
    }
}

/// The one action: out by the port.
fn output(alloc: Global, port: PortNo) -> Result<ActionList, AllocError>
    ensures { IfOk result (λ actions. actions ≡ Output port 0 ∷ []) }
{
    let mut actions = Vec::new(alloc);
    actions
        .push(Action::Output { port, max_len: 0 })
        .map_err(AllocError::from)?;
    Ok(ActionList::from_vec(actions))
}

/// The match of a port, or of any.
fn matching(in_port: Option<PortNo>) -> Match
    ensures { result ≡ match_of (bytes_of (record any_fields { in_port = in_port })) }
{
    Match::new(&Fields {
        in_port,
        ..Fields::ANY
    })
}

/// The message of a change.
#[tactic(auto, unfolding(crate::specs::Turns::change_of, of_wire::specs::Spelling::message_size))]
fn change_of(alloc: Global, terms: Terms) -> Result<Message, AllocError>
    ensures value { IfOk result (λ message. message ≡ change_of terms) }
    ensures size { IfOk result (λ message. message_size message ≡ 80) }
{
    Ok(Message::FlowMod(FlowMod {
        matching: matching(terms.in_port),
        cookie: 0,
        command: terms.command,
        idle: terms.idle,
        hard: terms.hard,
        priority: terms.priority,
        buffer_id: flows::NO_BUFFER,
        out_port: ports::NONE,
        flags: flows::SEND_FLOW_REM,
        actions: output(alloc, terms.out)?,
    }))
}

/// The bytes of a message that takes 80.
fn bytes_of_change(message: &Message) -> [u8; 80]
    requires { message_size message.now ≡ 80 }
    ensures { result ≡ message_bytes 0 message.now }
{
    let mut bytes = [0; 80];
    encode_into(0, message, &mut bytes);
    bytes
}

/// The frame that asks for a change.
fn frame_of(alloc: Global, terms: Terms) -> Result<AppFrame, AllocError>
    ensures value { IfOk result (λ frame. frame ≡ frame_of terms) }
    ensures fits { IfOk result AppFits }
{
    let message = change_of(alloc, terms)?;
    let bytes = ByteList::from_slice(alloc, &bytes_of_change(&message))?;
    Ok(AppFrame::Message(terms.dpid, bytes))
}

/// The step that gives a frame.
fn step_of(alloc: Global, frame: &AppFrame) -> Result<ScriptStep, AllocError>
    requires { AppFits frame.now }
    ensures { IfOk result (λ step. step ≡ gives frame.now) }
{
    Ok(ScriptStep::Bytes(encode_app(alloc, frame)?))
}

/// Draws a change, as the step that asks for it.
fn draw_change(alloc: Global, draws: &mut Draws) -> Result<ScriptStep, AllocError>
    ensures value { IfOk result (λ step. step ≡ gives (frame_of (terms_drawn draws.old.state))) }
    ensures state { draws.new.state ≡ behind 8 draws.old.state }
{
    let terms = draw_terms(draws);
    step_of(alloc, &frame_of(alloc, terms)?)
}

/// The step that ends a turn without a checkpoint.
fn plain_end(alloc: Global) -> Result<ScriptStep, AllocError>
    ensures { IfOk result (λ step. step ≡ plain_end) }
{
    let stop = false;
    let checkpoint = None;
    step_of(alloc, &AppFrame::Done { stop, checkpoint })
}

/// Draws how a turn ends.
#[tactic(auto, unfolding(crate::specs::Turns::end_drawn))]
fn draw_end(alloc: Global, draws: &mut Draws) -> Result<ScriptStep, AllocError>
    ensures value { IfOk result (λ step. step ≡ end_drawn draws.old.state) }
    ensures state { draws.new.state ≡ next draws.old.state }
{
    if draws.draw(4) == 0 {
        Ok(ScriptStep::Closed)
    } else {
        plain_end(alloc)
    }
}

/// The turn that changes nothing.
pub(crate) fn plain_turn(alloc: Global) -> Result<StepList, AllocError>
    ensures { IfOk result (λ turn. turn ≡ plain_end ∷ []) }
{
    let mut turn = StepList::new(alloc);
    turn.push(&plain_end(alloc)?)?;
    Ok(turn)
}

/// Draws a turn.
#[tactic(auto, unfolding(crate::specs::Turns::turn_drawn))]
pub(crate) fn draw_turn(alloc: Global, draws: &mut Draws) -> Result<StepList, AllocError>
    ensures value { IfOk result (λ turn. turn ≡ turn_drawn draws.old.state) }
    ensures state { OnOk result (draws.new.state ≡ behind 17 draws.old.state) }
{
    let mut turn = StepList::new(alloc);
    turn.push(&draw_change(alloc, draws)?)?;
    turn.push(&draw_change(alloc, draws)?)?;
    turn.push(&draw_end(alloc, draws)?)?;
    Ok(turn)
}
