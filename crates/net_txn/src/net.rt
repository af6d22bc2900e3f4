//! The network of the host.

ghost use Rattle.std.specs.Prelude.{◌≡◌, ◌≤◌, [], ◌∷◌, ◌++◌, length, drop, slice_get, IfOk, OnOk, OnErr};
ghost use Rattle.flow_table.specs.View.{plains};
ghost use Rattle.net_txn.specs.Net.{awaited_from};
ghost use Rattle.lego_model.specs.BarrierWaits.{next_xid};
ghost use Rattle.lego_model.specs.Packets.{nothing_held};
ghost use Rattle.of_wire.specs.declared.message.Message.TheVariants as messages;
ghost use Rattle.of_wire.specs.Grammar.{IsMessage};

use crate::logged::Logged;
use crate::port_table::PortTable;
use crate::queue::{EventQueue, MessageQueue};
use crate::room::Room;
use crate::view_table::ViewTable;
use flow_table::TableView;
use lego_model::{Awaited, Notices};
use of_types::limits::MOST_MESSAGE_BYTES;
use of_types::{ByteList, Dpid, Xid};
use of_wire::PacketOut;
use std::alloc::{AllocError, Global};
use std::marker::Model;

/// What the host keeps of its switches: their tables as the owner sees them, their ports, what undoes the changes of
/// the open transaction, the packets and notices that it holds back, and the messages that came while something else was
/// awaited.
#[derive(Drop, Debug)]
pub struct Net {
    pub(crate) alloc: Global,
    pub(crate) buf: Vec<u8>,
    pub(crate) views: ViewTable,
    /// The known ports of the joined switches, and those of the switches that were lost.
    pub(crate) ports: PortTable,
    pub(crate) log: Vec<Logged>,
    pub(crate) held: Vec<(Dpid, PacketOut)>,
    /// The events of the notices that it holds back.
    pub(crate) notices: EventQueue,
    pub(crate) xid: Xid,
    pub(crate) moment: u64,
    pub(crate) kept: MessageQueue,
    /// What comes while the reply behind a packet is awaited.
    pub(crate) came: MessageQueue,
    /// Room for the bytes of faults of undos.
    pub(crate) rooms: Vec<Room>,
}

impl Model for Net {
    ghost use Rattle.std.specs.Prelude.{◌≡◌, ◌≤◌, vec_len, All};
    ghost use Rattle.of_wire.specs.declared.message.Message.TheVariants as messages;
    ghost use Rattle.of_wire.specs.Grammar.{IsMessage};
    ghost use Rattle.net_txn.specs.Net.{NetState};

    ghost Value = { NetState };

    ghost view = { λ s. record {
      views = s.views;
      ports = s.ports.known;
      log = s.log.items;
      held = record { packets = s.held.items; notices = s.notices };
      xid = s.xid;
      moment = s.moment;
      kept = s.kept;
      room = vec_len s.rooms;
      left = s.ports.left;
    } };

    ghost invariant = { λ s. (vec_len s.buf ≡ 65535) × (1 ≤ s.xid) × All (λ h. IsMessage (messages.PacketOut h.1)) s.held.items };
}

/// Returns the transaction id behind one.
pub(crate) fn following(xid: Xid) -> Xid
    ensures next { result ≡ next_xid xid }
    ensures least { 1 ≤ result }
{
    if xid == Xid::MAX { 1 } else { xid + 1 }
}

/// Tells what is awaited where one message is sent with this id, and then a barrier.
pub(crate) fn await_from(dpid: Dpid, xid: Xid) -> Awaited
    ensures { result ≡ awaited_from dpid xid }
{
    Awaited {
        dpid,
        first: xid,
        barrier: following(xid),
        notices: Notices::Held,
    }
}

impl Net {
    /// Returns a network of no switch, at moment 0. It takes the room that undoes and releases need.
    pub fn new(alloc: Global) -> Result<Net, AllocError>
        ensures { IfOk result (λ n. n ≡ record { views = []; ports = []; log = []; held = nothing_held; xid = 1; moment = 0; kept = []; room = 2; left = [] }) }
    {
        Ok(Net {
            alloc,
            buf: vec![in alloc; 0; MOST_MESSAGE_BYTES]?,
            views: ViewTable::new(alloc),
            ports: PortTable::new(alloc),
            log: Vec::new(alloc),
            held: Vec::new(alloc),
            notices: EventQueue::new(alloc),
            xid: 1,
            moment: 0,
            kept: MessageQueue::new(alloc)?,
            came: MessageQueue::new(alloc)?,
            rooms: vec![in alloc; Room::new(alloc)?, Room::new(alloc)?]?,
        })
    }

    /// Returns the tables of the joined switches as the owner sees them, by switch ascending; takes no memory.
    pub fn views(&self) -> &[TableView]
        ensures { plains result.now ≡ self.now.views }
    {
        self.views.all()
    }

    /// Returns the moment, in seconds from the start; takes no memory.
    pub fn moment(&self) -> u64
        ensures { result ≡ self.now.moment }
    {
        self.moment
    }

    /// Sets the moment, in seconds from the start; takes no memory.
    pub fn set_moment(&mut self, moment: u64)
        ensures { self.new ≡ record self.old { moment = moment } }
    {
        self.moment = moment;
    }

    /// Takes out the oldest message that was kept while something else was awaited, with its switch. There is none
    /// exactly where none is kept.
    pub fn waiting(&mut self) -> Result<Option<(Dpid, ByteList)>, AllocError>
        ensures first { IfOk result (λ m. m ≡ slice_get self.old.kept 0) }
        ensures rest { OnOk result (self.new ≡ record self.old { kept = drop 1 self.old.kept }) }
        ensures err { OnErr result (self.new ≡ self.old) }
    {
        self.kept.take_first()
    }

    /// Tells how much is logged.
    pub(crate) fn logged(&self) -> usize
        ensures { result ≡ length self.now.log }
    {
        self.log.as_slice().len()
    }

    /// Holds a packet back, behind the others.
    pub(crate) fn hold(&mut self, dpid: Dpid, packet: PacketOut) -> Result<(), AllocError>
        requires { IsMessage (messages.PacketOut packet) }
        ensures ok { OnOk result (self.new ≡ record self.old { held = record self.old.held { packets = self.old.held.packets ++ (dpid, packet) ∷ [] } }) }
        ensures err { OnErr result (self.new ≡ self.old) }
    {
        self.held.push((dpid, packet))?;
        Ok(())
    }
}
