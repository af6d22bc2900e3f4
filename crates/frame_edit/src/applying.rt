//! Actions done one after the other.

ghost use Rattle.std.specs.Prelude.{◌≡◌, ◌++◌, IfOk, OnOk};
ghost use Rattle.frame_edit.specs.Edits.{AreEdits, edited, output_of, outputs};

use crate::fields::{set_address, set_network_address, set_port, set_service};
use crate::outputs::OutList;
use crate::tag::{set_identifier, set_priority, strip};
use of_action::{Action, ActionList};
use of_types::{ByteList, PortNo};
use std::alloc::{AllocError, Global};

/// The bytes of a VLAN tag, for which a copy of a frame has room.
const TAG_LEN: usize = 4;

/// What actions make of a frame.
#[derive(Drop, Debug, Clone)]
pub struct Edited {
    /// The frames that are sent out, in order.
    pub frames: OutList,
}

fn edit(frame: &mut Vec<u8>, action: &Action) -> Result<(), AllocError>
    ensures { OnOk result (frame.new.items ≡ edited action.now frame.old.items) }
{
    match action {
        Action::SetVlanVid(vid) => set_identifier(frame, *vid)?,
        Action::SetVlanPcp(pcp) => set_priority(frame, *pcp)?,
        Action::StripVlan => strip(frame),
        Action::SetDlSrc(address) => set_address(frame.as_mut_slice(), 6, address),
        Action::SetDlDst(address) => set_address(frame.as_mut_slice(), 0, address),
        Action::SetNwSrc(address) => set_network_address(frame.as_mut_slice(), 12, *address),
        Action::SetNwDst(address) => set_network_address(frame.as_mut_slice(), 16, *address),
        Action::SetNwTos(tos) => set_service(frame.as_mut_slice(), *tos),
        Action::SetTpSrc(port) => set_port(frame.as_mut_slice(), 0, *port),
        Action::SetTpDst(port) => set_port(frame.as_mut_slice(), 2, *port),
        Action::Output { .. } | Action::Enqueue { .. } | Action::Vendor(_) => {}
    }
    Ok(())
}

fn send(
    alloc: Global,
    frames: &mut Vec<(PortNo, ByteList)>,
    action: &Action,
    frame: &[u8],
) -> Result<(), AllocError>
    ensures { OnOk result (frames.new.items ≡ frames.old.items ++ output_of action.now frame.now) }
{
    if let Action::Output { port, .. } = action {
        frames.push((*port, ByteList::from_slice(alloc, frame)?))?;
    }
    Ok(())
}

/// Does the actions in order, and gives for each OUTPUT its port, and the frame as edited so far (OpenFlow 1.0.0,
/// 3.3 Actions and 5.2.4 Flow Action Structures). Neither ENQUEUE nor VENDOR is among them.
///
/// An action whose field the frame does not have changes nothing. `AllocError` where there is no memory for the copies.
pub fn apply(alloc: Global, actions: &ActionList, frame: &[u8]) -> Result<Edited, AllocError>
    requires { AreEdits actions.now }
    ensures { IfOk result (λ edited. edited.frames ≡ outputs actions.now frame.now) }
{
    let mut current = Vec::with_capacity(alloc, frame.len() + TAG_LEN)?;
    current.extend_from_slice(frame)?;
    let mut frames = Vec::new(alloc);
    for action in actions.as_slice() {
        send(alloc, &mut frames, action, current.as_slice())?;
        edit(&mut current, action)?;
    }
    Ok(Edited {
        frames: OutList::from_vec(frames),
    })
}
