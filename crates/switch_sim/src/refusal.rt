//! Which messages a switch refuses, and by which error.

ghost use Rattle.std.specs.Prelude.{◌≡◌, false, true, Some, None, MatchOption};
ghost use Rattle.flow_table.specs.Switch.{port_at};
ghost use Rattle.flow_table.specs.Refusals.{is_output, action_refusal, actions_refusal, flow_actions_refusal, flow_refusal, packet_out_refusal, port_refusal, config_refusal, query_size, stats_refusal};

use crate::port::{Port, address};
use of_action::{Action, size};
use of_types::limits::MOST_ACTION_BYTES;
use of_types::{Dpid, OfError, PortNo, errors, flows, ports, stats};
use of_wire::{FlowMod, PacketOut, PortMod, Stats, SwitchConfig};

/// Tells whether an OUTPUT may go to a number: one that was a port since the switch joined (`had`), IN_PORT, FLOOD,
/// ALL, CONTROLLER, and TABLE where that is allowed.
#[tactic(auto, unfolding(flow_table::specs::Refusals::is_output))]
fn is_output(takes_table: bool, had: &[PortNo], port: PortNo) -> bool
    ensures { result ≡ is_output takes_table had.now port }
{
    had.contains(&port)
        || port == ports::IN_PORT
        || port == ports::FLOOD
        || port == ports::ALL
        || port == ports::CONTROLLER
        || (takes_table && port == ports::TABLE)
}

fn refuse_action(takes_table: bool, had: &[PortNo], action: &Action) -> Option<OfError>
    ensures { result ≡ action_refusal takes_table had.now action.now }
{
    match action {
        Action::Output { port, .. } => {
            if is_output(takes_table, had, *port) {
                None
            } else {
                Some(errors::ACTION_BAD_OUT_PORT)
            }
        }
        Action::Enqueue { .. } => Some(errors::ACTION_BAD_TYPE),
        Action::Vendor(_) => Some(errors::ACTION_BAD_VENDOR),
        _ => None,
    }
}

/// Returns the refusal of the first action that is refused.
#[tactic(auto, unfolding(flow_table::specs::Refusals::actions_refusal))]
fn refuse_actions(takes_table: bool, had: &[PortNo], actions: &[Action]) -> Option<OfError>
    ensures { result ≡ actions_refusal takes_table had.now actions.now }
{
    for action in actions {
        let refusal = refuse_action(takes_table, had, action);
        if refusal.is_some() {
            return refusal;
        }
    }
    None
}

#[tactic(auto, unfolding(flow_table::specs::Refusals::flow_actions_refusal))]
fn refuse_flow_actions(had: &[PortNo], m: &FlowMod) -> Option<OfError>
    ensures { result ≡ flow_actions_refusal had.now m.now }
{
    if m.buffer_id != flows::NO_BUFFER {
        Some(errors::REQUEST_BUFFER_UNKNOWN)
    } else if size(&m.actions) > MOST_ACTION_BYTES {
        Some(errors::REQUEST_BAD_LEN)
    } else {
        refuse_actions(false, had, m.actions.as_slice())
    }
}

/// Tells what stands against a FLOW_MOD beside the table: EMERG, the command, and for additions and modifications a
/// buffer, too many bytes of actions, or an action.
#[tactic(auto, unfolding(flow_table::specs::Refusals::flow_refusal))]
pub(crate) fn refuse_flow(had: &[PortNo], m: &FlowMod) -> Option<OfError>
    ensures { result ≡ flow_refusal had.now m.now }
{
    if flows::is_emergency(m.flags) {
        Some(errors::FLOW_EPERM)
    } else if m.command > flows::DELETE_STRICT {
        Some(errors::FLOW_BAD_COMMAND)
    } else if m.command == flows::DELETE || m.command == flows::DELETE_STRICT {
        None
    } else {
        refuse_flow_actions(had, m)
    }
}

/// Tells what stands against a PACKET_OUT: a buffer, since the switch has none, or an action.
#[tactic(auto, unfolding(flow_table::specs::Refusals::packet_out_refusal))]
pub(crate) fn refuse_packet_out(had: &[PortNo], m: &PacketOut) -> Option<OfError>
    ensures { result ≡ packet_out_refusal had.now m.now }
{
    if m.buffer_id != flows::NO_BUFFER {
        Some(errors::REQUEST_BUFFER_UNKNOWN)
    } else {
        refuse_actions(true, had, m.actions.as_slice())
    }
}

/// Finds the port of a number.
pub(crate) fn port_of(all: &[Port], number: PortNo) -> Option<&Port>
    ensures { MatchOption result (port_at number all.now ≡ None) (λ p. port_at number all.now ≡ Some p.now) }
{
    for port in all {
        if port.number() == number {
            return Some(port);
        }
    }
    None
}

/// Tells what stands against a PORT_MOD: a port that is not there, or another address than the port's.
pub(crate) fn refuse_port_mod(dpid: Dpid, all: &[Port], m: &PortMod) -> Option<OfError>
    ensures { result ≡ port_refusal dpid m.now.hw_addr (port_at m.now.port_no all.now) }
{
    match port_of(all, m.port_no) {
        None => Some(errors::PORT_BAD_PORT),
        Some(port) => {
            if m.hw_addr == address(dpid, port.number()) {
                None
            } else {
                Some(errors::PORT_BAD_HW_ADDR)
            }
        }
    }
}

/// Flags of a SET_CONFIG are refused, since fragments are not handled.
pub(crate) fn refuse_config(config: &SwitchConfig) -> Option<OfError>
    ensures { result ≡ config_refusal config.now }
{
    if config.flags == 0 {
        None
    } else {
        Some(errors::REQUEST_EPERM)
    }
}

/// Tells how many bytes the body of a request for statistics has.
fn query_size(kind: u16) -> usize
    ensures { result ≡ query_size kind }
{
    match kind {
        stats::FLOW | stats::AGGREGATE => 44,
        stats::PORT => 8,
        _ => 0,
    }
}

/// Statistics of another type than the five, or a body of another length.
#[tactic(auto, unfolding(flow_table::specs::Refusals::stats_refusal))]
pub(crate) fn refuse_stats(request: &Stats) -> Option<OfError>
    ensures { result ≡ stats_refusal request.now }
{
    if request.kind > stats::PORT {
        Some(errors::REQUEST_BAD_STAT)
    } else if request.body.len() == query_size(request.kind) {
        None
    } else {
        Some(errors::REQUEST_BAD_LEN)
    }
}
