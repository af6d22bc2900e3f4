//! Outputs of frames.

ghost use Rattle.std.specs.Prelude.{◌≡◌, ◌≤◌, ◌++◌, length, All, IfOk, OnOk};
ghost use Rattle.flow_table.specs.Frames.{ports_after_output, sent_by_output, sent_by_outputs};
ghost use Rattle.switch_sim.specs.Words.{HasAddress};
ghost use Rattle.switch_sim.specs.Readable.{AreReadable};
ghost use Rattle.switch_sim.specs.Words.{after_output_at, ports_after_outputs};

use crate::message_list::MessageList;
use crate::port::Port;
use crate::reply::packet_in;
use of_action::Action;
use of_types::{ByteList, PortNo, flows, ports};
use std::alloc::{AllocError, Global};

fn count_at(port: &mut Port, in_port: PortNo, to: PortNo, len: u64)
    ensures { port.new ≡ after_output_at in_port to len port.old }
{
    if port.is_output(in_port, to) {
        port.count_out(len);
    }
}

/// Counts a frame of `len` bytes, which came in by `in_port`, at the ports by which an output to a number goes out.
#[tactic(auto, unfolding(flow_table::specs::Frames::ports_after_output))]
pub(crate) fn count_output(ports: &mut [Port], in_port: PortNo, to: PortNo, len: u64)
    ensures { ports.new ≡ ports_after_output in_port to len ports.old }
{
    for port in ports.iter_mut() {
        count_at(port, in_port, to, len);
    }
}

/// Counts outputs, one after the other, of frames that came in by `in_port`.
pub(crate) fn count_outputs(all: &mut [Port], in_port: PortNo, outputs: &[(PortNo, ByteList)])
    ensures { all.new ≡ ports_after_outputs in_port outputs.now all.old }
{
    for (to, frame) in outputs {
        count_output(all, in_port, *to, frame.len() as u64);
    }
}

/// Appends what an output sends to the controller: a PACKET_IN, where it goes there.
#[tactic(auto, unfolding(flow_table::specs::Frames::sent_by_output))]
pub(crate) fn push_output(
    alloc: Global,
    messages: &mut Vec<ByteList>,
    in_port: PortNo,
    to: PortNo,
    frame: &ByteList,
) -> Result<(), AllocError>
    requires fits { length frame.now ≤ 65517 }
    requires before { AreReadable messages.old.items }
    ensures sent { OnOk result (messages.new.items ≡ messages.old.items ++ sent_by_output in_port (to, frame.now)) }
    ensures readable { OnOk result (AreReadable messages.new.items) }
{
    if to == ports::CONTROLLER {
        messages.push(packet_in(alloc, flows::ACTION, in_port, frame.as_slice())?)?;
    }
    Ok(())
}

/// Returns what outputs send to the controller.
#[tactic(auto, unfolding(flow_table::specs::Frames::sent_by_outputs))]
pub(crate) fn packet_ins(
    alloc: Global,
    in_port: PortNo,
    outputs: &[(PortNo, ByteList)],
) -> Result<MessageList, AllocError>
    requires { All (λ o. length o.1 ≤ 65517) outputs.now }
    ensures sent { IfOk result (λ list. list ≡ sent_by_outputs in_port outputs.now) }
    ensures readable { IfOk result AreReadable }
{
    let mut messages = Vec::new(alloc);
    for (to, frame) in outputs {
        push_output(alloc, &mut messages, in_port, *to, frame)?;
    }
    Ok(MessageList::from_vec(messages))
}

fn measure_address(address: &[u8; 6])
    ensures { length address.now ≡ 6 }
{
    let _len = address.len();
}

/// Finds that the addresses of an action have six bytes, as their type says.
fn measure_action(action: &Action)
    ensures { HasAddress action.now }
{
    match action {
        Action::SetDlSrc(address) => measure_address(address),
        Action::SetDlDst(address) => measure_address(address),
        Action::Output { .. }
        | Action::SetVlanVid(_)
        | Action::SetVlanPcp(_)
        | Action::StripVlan
        | Action::SetNwSrc(_)
        | Action::SetNwDst(_)
        | Action::SetNwTos(_)
        | Action::SetTpSrc(_)
        | Action::SetTpDst(_)
        | Action::Enqueue { .. }
        | Action::Vendor(_) => {}
    }
}

/// Finds that the addresses of actions have six bytes, as their type says.
pub(crate) fn measure(actions: &[Action])
    ensures { All HasAddress actions.now }
{
    for action in actions {
        measure_action(action);
    }
}
