//! The messages of a learning switch, and the frames that they stand in.

ghost use Rattle.std.specs.Prelude.{◌≡◌, ◌==◌, ◌≤◌, ◌+◌, [], ◌∷◌, length, IfOk};
ghost use Rattle.of_wire.specs.Spelling.{message_size};
ghost use Rattle.of_match.specs.Fields.{bytes_of, any_fields};
ghost use Rattle.of_match.specs.Match.{match_of};
ghost use Rattle.machine_apps.specs.Learn.{output, flow_to, packet_to, told, sent_on};
ghost use Rattle.of_types.specs.Fields.{piece};

use crate::saying::told;
use app_frames::AppFrame;
use of_action::{Action, ActionList};
use of_match::{Fields, Match};
use of_types::{ByteList, Dpid, PortNo, flows, get_array, ports};
use of_wire::{FlowMod, Message, PacketIn, PacketOut};
use std::alloc::{AllocError, Global};

/// The priority of the flows.
const PRIORITY: u16 = 1_000;

/// The one action: out by the port.
fn output(alloc: Global, port: PortNo) -> Result<ActionList, AllocError>
    ensures { IfOk result (λ actions. actions ≡ output port) }
{
    let mut actions = Vec::new(alloc);
    actions
        .push(Action::Output { port, max_len: 0 })
        .map_err(AllocError::from)?;
    Ok(ActionList::from_vec(actions))
}

/// The match of the packets to the address.
fn match_to(address: [u8; 6]) -> Match
    ensures { result ≡ match_of (bytes_of (record any_fields { dl_dst = Some address })) }
{
    Match::new(&Fields {
        dl_dst: Some(address),
        ..Fields::ANY
    })
}

/// The flow to the address by the port.
#[tactic(auto, unfolding(crate::specs::Learn::flow_to, of_wire::specs::Spelling::message_size))]
pub(crate) fn flow_to(
    alloc: Global,
    idle: u16,
    address: [u8; 6],
    port: PortNo,
) -> Result<Message, AllocError>
    ensures value { IfOk result (λ message. message ≡ flow_to idle address port) }
    ensures size { IfOk result (λ message. message_size message ≡ 80) }
{
    Ok(Message::FlowMod(FlowMod {
        matching: match_to(address),
        cookie: 0,
        command: flows::ADD,
        idle,
        hard: 0,
        priority: PRIORITY,
        buffer_id: flows::NO_BUFFER,
        out_port: ports::NONE,
        flags: 0,
        actions: output(alloc, port)?,
    }))
}

/// The packet, out by the port.
#[tactic(auto, unfolding(crate::specs::Learn::packet_to, of_wire::specs::Spelling::message_size))]
pub(crate) fn packet_to(
    alloc: Global,
    packet: &PacketIn,
    port: PortNo,
) -> Result<Message, AllocError>
    ensures value { IfOk result (λ message. message ≡ packet_to packet.now port) }
    ensures size { IfOk result (λ message. message_size message ≡ 24 + length packet.now.payload) }
{
    Ok(Message::PacketOut(PacketOut {
        buffer_id: flows::NO_BUFFER,
        in_port: packet.in_port,
        actions: output(alloc, port)?,
        payload: ByteList::from_slice(alloc, packet.payload.as_slice())?,
    }))
}

/// The frame that sends the packet out by the port.
fn packet_frame(
    alloc: Global,
    dpid: Dpid,
    packet: &PacketIn,
    port: PortNo,
) -> Result<AppFrame, AllocError>
    requires { length packet.now.payload ≤ 65511 }
    ensures { IfOk result (λ frame. frame ≡ told dpid (packet_to packet.now port)) }
{
    let message = packet_to(alloc, packet, port)?;
    told(alloc, dpid, &message)
}

/// The frame that adds a flow to the address by the port.
pub fn flow_frame(
    alloc: Global,
    idle: u16,
    dpid: Dpid,
    address: [u8; 6],
    port: PortNo,
) -> Result<AppFrame, AllocError>
    ensures { IfOk result (λ frame. frame ≡ told dpid (flow_to idle address port)) }
{
    let message = flow_to(alloc, idle, address, port)?;
    told(alloc, dpid, &message)
}

fn one(alloc: Global, frame: AppFrame) -> Result<Vec<AppFrame>, AllocError>
    ensures { IfOk result (λ frames. frames.items ≡ frame ∷ []) }
{
    let mut frames = Vec::new(alloc);
    frames.push(frame)?;
    Ok(frames)
}

fn two(alloc: Global, first: AppFrame, second: AppFrame) -> Result<Vec<AppFrame>, AllocError>
    ensures { IfOk result (λ frames. frames.items ≡ first ∷ second ∷ []) }
{
    let mut frames = one(alloc, first)?;
    frames.push(second)?;
    Ok(frames)
}

/// The frames that send a packet out by all ports.
fn flood(alloc: Global, dpid: Dpid, packet: &PacketIn) -> Result<Vec<AppFrame>, AllocError>
    requires { length packet.now.payload ≤ 65511 }
    ensures { IfOk result (λ frames. frames.items ≡ told dpid (packet_to packet.now 0xfffb) ∷ []) }
{
    one(alloc, packet_frame(alloc, dpid, packet, ports::FLOOD)?)
}

/// The frames that add a flow to the destination of a packet by the port, and send the packet out there.
fn direct(
    alloc: Global,
    idle: u16,
    dpid: Dpid,
    packet: &PacketIn,
    port: PortNo,
) -> Result<Vec<AppFrame>, AllocError>
    requires least { 14 ≤ length packet.now.payload }
    requires most { length packet.now.payload ≤ 65511 }
    ensures { IfOk result (λ frames. frames.items
        ≡ told dpid (flow_to idle (piece 6 0 packet.now.payload) port) ∷ told dpid (packet_to packet.now port) ∷ []) }
{
    let address = get_array(packet.payload.as_slice(), 0);
    let flow = flow_frame(alloc, idle, dpid, address, port)?;
    let out = packet_frame(alloc, dpid, packet, port)?;
    two(alloc, flow, out)
}

/// The frames that send a packet on: by the port that is known, where that is another one than it came by; else by all.
pub(crate) fn send_on(
    alloc: Global,
    idle: u16,
    dpid: Dpid,
    packet: &PacketIn,
    known: Option<PortNo>,
) -> Result<Vec<AppFrame>, AllocError>
    requires least { 14 ≤ length packet.now.payload }
    requires most { length packet.now.payload ≤ 65511 }
    ensures { IfOk result (λ frames. frames.items ≡ sent_on idle dpid packet.now known) }
{
    match known {
        Some(port) => {
            if port == packet.in_port {
                flood(alloc, dpid, packet)
            } else {
                direct(alloc, idle, dpid, packet, port)
            }
        }
        None => flood(alloc, dpid, packet),
    }
}
