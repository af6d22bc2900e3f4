//! The host's own answers to messages of applications.

ghost use Rattle.std.specs.Prelude.{◌≡◌, None, Some, nat_lt, if◌then◌else◌, IfOk};
ghost use Rattle.of_action.specs.Spelling.{list_size};
ghost use Rattle.of_wire.specs.declared.message.Message.TheVariants as messages;
ghost use Rattle.flow_table.specs.Sorted.{AreRows};
ghost use Rattle.flow_table.specs.Errors.{bad_type, bad_len};
ghost use Rattle.flow_table.specs.Refusals.{or_else, most_action_bytes, stats_refusal};
ghost use Rattle.lego_model.specs.Answers.{rows_of_view, unknown_action, flow_mod_refused, packet_refused, not_yet, would_touch, wire_fault};
ghost use Rattle.net_txn.specs.Host.{IsHostAnswer, IsHostAnswerOf};

use crate::rows::would_touch;
use app_frames::Answer;
use flow_table::ViewRow;
use of_action::{Action, ActionKind, size};
use of_types::limits::MOST_ACTION_BYTES;
use of_types::{OfError, errors, flows, stats};
use of_wire::{FlowMod, Message, PacketOut, Stats, WireFault, decode};
use std::alloc::{AllocError, Global};

/// What the host makes of a message.
#[derive(Drop, Debug)]
pub(crate) enum HostAnswer {
    /// It answers itself.
    Answered(Answer),
    /// The packet is held until the turn completes, and answered Fine.
    Holds(PacketOut),
    /// The switch must answer the change.
    Asks(FlowMod),
    /// The switch must give the statistics.
    Queries(Stats),
}

/// Returns the first action that no switch here knows.
fn find_unknown(actions: &[Action]) -> Option<OfError>
    ensures { result ≡ unknown_action actions.now }
{
    for action in actions {
        match action {
            Action::Enqueue { .. } => return Some(errors::ACTION_BAD_TYPE),
            Action::Vendor(_) => return Some(errors::ACTION_BAD_VENDOR),
            _ => {}
        }
    }
    None
}

/// Tells what stands against the actions: one that no switch here knows, or too many bytes.
fn refuse_actions(m: &FlowMod) -> Option<OfError>
    ensures { result ≡ or_else (unknown_action m.now.actions) (if nat_lt most_action_bytes (list_size m.now.actions) then Some bad_len else None) }
{
    let unknown = find_unknown(m.actions.as_slice());
    if unknown.is_some() {
        unknown
    } else if size(&m.actions) > MOST_ACTION_BYTES {
        Some(errors::REQUEST_BAD_LEN)
    } else {
        None
    }
}

/// Tells what stands against a FLOW_MOD whatever the table holds.
#[tactic(auto, unfolding(lego_model::specs::Answers::flow_mod_refused, lego_model::specs::Answers::addition_refused))]
fn refuse_flow(m: &FlowMod) -> Option<OfError>
    ensures { result ≡ flow_mod_refused m.now }
{
    if flows::is_emergency(m.flags) {
        Some(errors::FLOW_EPERM)
    } else if m.command > flows::DELETE_STRICT {
        Some(errors::FLOW_BAD_COMMAND)
    } else if m.command == flows::DELETE || m.command == flows::DELETE_STRICT {
        None
    } else if m.buffer_id != flows::NO_BUFFER {
        Some(errors::REQUEST_BUFFER_UNKNOWN)
    } else {
        refuse_actions(m)
    }
}

/// Tells the same, and that entries which are there stay as they are.
fn refuse_change(m: &FlowMod, rows: &[ViewRow]) -> Option<OfError>
    requires { AreRows rows.now }
    ensures { result ≡ or_else (flow_mod_refused m.now) (not_yet (would_touch m.now (rows_of_view rows.now))) }
{
    let refusal = refuse_flow(m);
    if refusal.is_none() && would_touch(m, rows) {
        Some(errors::REQUEST_BAD_TYPE)
    } else {
        refusal
    }
}

/// Tells what stands against a request of statistics.
#[tactic(auto, unfolding(flow_table::specs::Refusals::stats_refusal))]
fn refuse_stats(m: &Stats) -> Option<OfError>
    ensures { result ≡ stats_refusal m.now }
{
    let wanted = match m.kind {
        stats::DESC | stats::TABLE => 0,
        stats::FLOW | stats::AGGREGATE => 44,
        stats::PORT => 8,
        _ => return Some(errors::REQUEST_BAD_STAT),
    };
    if m.body.len() == wanted {
        None
    } else {
        Some(errors::REQUEST_BAD_LEN)
    }
}

/// Tells what the host makes of a request of statistics.
#[tactic(auto, unfolding(lego_model::specs::Answers::host_refusal))]
fn answer_stats(m: Stats, rows: &[ViewRow]) -> HostAnswer
    ensures { IsHostAnswerOf (rows_of_view rows.now) (messages.StatsRequest m) result }
{
    match refuse_stats(&m) {
        Some(error) => HostAnswer::Answered(Answer::Error(error)),
        None => HostAnswer::Queries(m),
    }
}

/// Returns the error that answers bytes which are no message.
fn answer_fault(fault: &WireFault) -> OfError
    ensures { result ≡ wire_fault fault.now }
{
    match fault {
        WireFault::BadLength => errors::REQUEST_BAD_LEN,
        WireFault::BadAction { kind, .. } => match kind {
            ActionKind::BadType => errors::ACTION_BAD_TYPE,
            ActionKind::BadLen => errors::ACTION_BAD_LEN,
        },
        WireFault::BadVersion | WireFault::BadType | WireFault::NoMemory =>
            errors::REQUEST_BAD_TYPE,
    }
}

/// Tells what the host makes of a FLOW_MOD.
#[tactic(auto, unfolding(lego_model::specs::Answers::host_refusal))]
fn answer_change(m: FlowMod, rows: &[ViewRow]) -> HostAnswer
    requires { AreRows rows.now }
    ensures { IsHostAnswerOf (rows_of_view rows.now) (messages.FlowMod m) result }
{
    match refuse_change(&m, rows) {
        Some(error) => HostAnswer::Answered(Answer::Error(error)),
        None => HostAnswer::Asks(m),
    }
}

/// Tells what stands against a packet.
#[tactic(auto, unfolding(lego_model::specs::Answers::packet_refused))]
fn refuse_packet(m: &PacketOut) -> Option<OfError>
    ensures { result ≡ packet_refused m.now }
{
    if m.buffer_id != flows::NO_BUFFER {
        Some(errors::REQUEST_BUFFER_UNKNOWN)
    } else {
        find_unknown(m.actions.as_slice())
    }
}

/// Tells what the host makes of a packet.
#[tactic(auto, unfolding(lego_model::specs::Answers::host_refusal))]
fn answer_packet(m: PacketOut, rows: &[ViewRow]) -> HostAnswer
    ensures { IsHostAnswerOf (rows_of_view rows.now) (messages.PacketOut m) result }
{
    match refuse_packet(&m) {
        Some(error) => HostAnswer::Answered(Answer::Error(error)),
        None => HostAnswer::Holds(m),
    }
}

/// Tells what the host makes of a message that was read, for a switch with these rows.
#[tactic(auto, unfolding(lego_model::specs::Answers::host_refusal))]
fn answer_message(message: Message, rows: &[ViewRow]) -> HostAnswer
    requires { AreRows rows.now }
    ensures { IsHostAnswerOf (rows_of_view rows.now) message result }
{
    match message {
        Message::FlowMod(m) => answer_change(m, rows),
        Message::PacketOut(m) => answer_packet(m, rows),
        Message::StatsRequest(m) => answer_stats(m, rows),
        Message::BarrierRequest => HostAnswer::Answered(Answer::Fine),
        _ => HostAnswer::Answered(Answer::Error(errors::REQUEST_BAD_TYPE)),
    }
}

/// Tells what the host makes of bytes for a switch with these rows.
pub(crate) fn answer_bytes(
    alloc: Global,
    bytes: &[u8],
    rows: &[ViewRow],
) -> Result<HostAnswer, AllocError>
    requires { AreRows rows.now }
    ensures { IfOk result (IsHostAnswer (rows_of_view rows.now) bytes.now) }
{
    match decode(alloc, bytes) {
        Ok(envelope) => Ok(answer_message(envelope.message, rows)),
        Err(WireFault::NoMemory) => Err(AllocError),
        Err(fault) => Ok(HostAnswer::Answered(Answer::Error(answer_fault(&fault)))),
    }
}
