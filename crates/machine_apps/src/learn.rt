//! A learning switch: it learns by which port each address is reached.

ghost use Rattle.std.specs.Prelude.{◌≡◌, ◌≤◌, length, [], IsTrue, IfOk, OnOk, OnErr};
ghost use Rattle.machine_apps.specs.Learn.{station, port_at, with_row, is_taken, source, destination, packet_of, rows_after, rows_after_packet, frames_for_packet, sent_on};
ghost use Rattle.machine_apps.specs.Checkpoint.{checkpoint_of, restored, answers_to};

use crate::checkpoint::{MOST_ROWS, Rows, Station, checkpoint, restore};
use crate::messages::send_on;
use crate::saying::{host_frame, say_all};
use app_frames::{AppFrame, Event, EventKind, HostFrame};
use app_objects::{AppObject, Step};
use of_types::{ByteList, Dpid, PortNo, get_array, put_array, put_u64};
use of_wire::{Message, PacketIn, WireFault, decode};
use std::alloc::{AllocError, Global};
use std::collections::BTreeMap;
use std::marker::Model;

/// The bytes of an Ethernet header.
const HEADER_BYTES: usize = 14;

/// The most data that fits a PACKET_OUT with one output.
const MOST_DATA: usize = 65_511;

/// A learning switch. Contracts see what it has learned: the port of each station, in the order of the stations.
#[derive(Drop)]
pub struct Learn {
    alloc: Global,
    idle: u16,
    rows: Rows,
}

impl Model for Learn {
    ghost use Rattle.machine_apps.specs.Learn.{Learned};

    ghost Value = { Learned };

    ghost view = { λ s. record { idle = s.idle; rows = s.rows.entries } };
}

/// The station of the address at the switch.
fn station(dpid: Dpid, address: [u8; 6]) -> Station
    ensures { result ≡ station dpid address }
{
    let mut bytes = [0; 14];
    put_u64(&mut bytes, 0, dpid);
    put_array(&mut bytes, 8, &address);
    bytes
}

/// Whether the packet is looked at: it is there as a whole, with an Ethernet header, and fits a PACKET_OUT.
#[tactic(auto, unfolding(crate::specs::Learn::is_taken))]
fn is_taken(packet: &PacketIn) -> bool
    ensures value { result ≡ is_taken packet.now }
    ensures least { IsTrue result → 14 ≤ length packet.now.payload }
    ensures most { IsTrue result → length packet.now.payload ≤ 65511 }
{
    let size = packet.payload.len();
    packet.total_len as usize <= size && HEADER_BYTES <= size && size <= MOST_DATA
}

/// The packet of an event, where it has one.
fn packet_of(alloc: Global, event: &Event) -> Result<Option<PacketIn>, AllocError>
    ensures { IfOk result (λ packet. packet ≡ packet_of event.now) }
{
    if event.kind != EventKind::PacketIn {
        return Ok(None);
    }
    match decode(alloc, event.body.as_slice()) {
        Ok(envelope) => match envelope.message {
            Message::PacketIn(packet) => Ok(Some(packet)),
            _ => Ok(None),
        },
        Err(WireFault::NoMemory) => Err(AllocError),
        Err(_) => Ok(None),
    }
}

impl Learn {
    /// The first state: nothing was learned. Its flows go after `idle` seconds without a packet, or not where this is 0. Takes
    /// no memory.
    pub fn new(alloc: Global, idle: u16) -> Learn
        ensures { result ≡ record { idle = idle; rows = [] } }
    {
        Learn {
            alloc,
            idle,
            rows: BTreeMap::new(alloc),
        }
    }

    /// The state of a checkpoint; the first one, if it has not its form.
    pub fn restored(alloc: Global, idle: u16, checkpoint: &[u8]) -> Result<Learn, AllocError>
        ensures { IfOk result (λ learn. learn ≡ record { idle = idle; rows = restored checkpoint.now }) }
    {
        Ok(Learn {
            alloc,
            idle,
            rows: restore(alloc, checkpoint)?,
        })
    }

    /// All that was learned, in 16 bytes a station: the switch, the address and the port.
    pub fn checkpoint(&self) -> Result<ByteList, AllocError>
        ensures { IfOk result (λ bytes. bytes ≡ checkpoint_of self.now.rows) }
    {
        checkpoint(self.alloc, &self.rows)
    }

    /// Learns by which port the station is reached.
    #[tactic(auto, unfolding(crate::specs::Learn::with_row))]
    fn learn(&mut self, station: Station, port: PortNo) -> Result<(), AllocError>
        ensures ok { OnOk result (self.new ≡ record self.old { rows = with_row station port self.old.rows }) }
        ensures err { OnErr result (self.new ≡ self.old) }
    {
        if self.rows.len() < MOST_ROWS || self.rows.get(&station).is_some() {
            self.rows.insert(station, port).map_err(AllocError::from)?;
        }
        Ok(())
    }

    /// The port by which the station is reached, if that was learned.
    fn port_of(&self, station: Station) -> Option<PortNo>
        ensures { result ≡ port_at station self.now.rows }
    {
        self.rows.get(&station).copied()
    }

    /// Learns the source of a packet that is looked at, and sends the packet on.
    fn take(&mut self, dpid: Dpid, packet: &PacketIn) -> Result<Vec<AppFrame>, AllocError>
        requires least { 14 ≤ length packet.now.payload }
        requires most { length packet.now.payload ≤ 65511 }
        ensures frames { IfOk result (λ frames. frames.items
            ≡ sent_on self.old.idle dpid packet.now (port_at (destination dpid packet.now) (with_row (source dpid packet.now) packet.now.in_port self.old.rows))) }
        ensures idle { self.new.idle ≡ self.old.idle }
        ensures rows { OnOk result (self.new ≡ record self.old { rows = with_row (source dpid packet.now) packet.now.in_port self.old.rows }) }
    {
        let data = packet.payload.as_slice();
        let source = station(dpid, get_array(data, 6));
        let destination = station(dpid, get_array(data, 0));
        self.learn(source, packet.in_port)?;
        let known = self.port_of(destination);
        send_on(self.alloc, self.idle, dpid, packet, known)
    }

    /// Handles a packet: learns its source, and sends it on, if it is looked at.
    #[tactic(auto, unfolding(crate::specs::Learn::rows_after_packet, crate::specs::Learn::frames_for_packet))]
    fn handle(&mut self, dpid: Dpid, packet: &PacketIn) -> Result<Vec<AppFrame>, AllocError>
        ensures frames { IfOk result (λ frames. frames.items ≡ frames_for_packet self.old.idle dpid packet.now self.old.rows) }
        ensures idle { self.new.idle ≡ self.old.idle }
        ensures rows { OnOk result (self.new ≡ record self.old { rows = rows_after_packet dpid packet.now self.old.rows }) }
    {
        if is_taken(packet) {
            self.take(dpid, packet)
        } else {
            Ok(Vec::new(self.alloc))
        }
    }

    /// Handles an event: gives all frames for it, of which Done with a checkpoint is the last.
    ///
    /// Where memory runs out, what was learned may have changed.
    pub fn turn(&mut self, event: &Event) -> Result<Vec<AppFrame>, AllocError>
        ensures frames { IfOk result (λ frames. frames.items ≡ answers_to self.old.idle event.now self.old.rows) }
        ensures idle { self.new.idle ≡ self.old.idle }
        ensures learned { OnOk result (self.new ≡ record self.old { rows = rows_after event.now self.old.rows }) }
    {
        let mut frames = match packet_of(self.alloc, event)? {
            Some(packet) => self.handle(event.dpid, &packet)?,
            None => Vec::new(self.alloc),
        };
        let done = AppFrame::Done {
            stop: false,
            checkpoint: Some(self.checkpoint()?),
        };
        frames.push(done).map_err(AllocError::from)?;
        Ok(frames)
    }
}

impl AppObject for Learn {
    ghost use Rattle.machine_apps.specs.Checkpoint.{learn_gives, learn_would};

    ghost gives = { λ s frames. learn_gives s.idle s.rows frames };

    ghost would = { λ s checkpoint frames. learn_would s.idle checkpoint frames };

    fn restore(&mut self, checkpoint: &[u8]) -> Result<(), AllocError> {
        self.rows = restore(self.alloc, checkpoint)?;
        Ok(())
    }

    #[tactic(auto, unfolding(app_objects::specs::ByEvents::frame_in))]
    fn react(&mut self, frame: &[u8], out: &mut Vec<u8>) -> Result<Step, AllocError> {
        match host_frame(self.alloc, frame)? {
            Some(HostFrame::Event { event, .. }) => {
                let frames = self.turn(&event)?;
                say_all(self.alloc, &frames, out)
            }
            Some(_) => Ok(Step::Alive),
            None => Ok(Step::Died),
        }
    }
}
