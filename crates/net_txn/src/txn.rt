//! A transaction over the network: changes that are kept together or not at all.

ghost use Rattle.std.specs.Prelude.{◌≡◌, ◌≤◌, [], ◌∷◌, ◌++◌, true, length, Ok, Err, IfErr, OnOk, OnErr, MatchResult};
ghost use Rattle.of_wire.specs.declared.message.Message.TheVariants as messages;
ghost use Rattle.of_wire.specs.Grammar.{IsMessage};
ghost use Rattle.flow_table.specs.View.{plains};
ghost use Rattle.net_txn.specs.Views.{is_viewed};
ghost use Rattle.net_txn.specs.Causes.{IsPlain};
ghost use Rattle.net_txn.specs.Releases.{Commits};
ghost use Rattle.net_txn.specs.Changes.{Changes};
ghost use Rattle.net_txn.specs.Undos.{Undoes};

use crate::net::Net;
use crate::queue::EventQueue;
use app_frames::Answer;
use flow_table::TableView;
use lego_model::TxnFault;
use of_types::Dpid;
use of_wire::PacketOut;
use outside::World;
use std::alloc::AllocError;

/// A transaction that is open: what was logged from `start` on undoes its changes.
pub struct Txn<'a> {
    net: &'a mut Net,
    start: usize,
}

impl<'a> Txn<'a> {
    /// Opens a transaction; takes no memory.
    pub fn begin(net: &'a mut Net) -> Txn<'a>
        ensures same_reference { result.net.ghost_name ≡ net.entry.ghost_name }
        ensures net { result.net.now ≡ net.old }
        ensures start { result.start ≡ length net.old.log }
    {
        let start = net.logged();
        Txn { net, start }
    }

    /// Returns the tables of the joined switches as the owner sees them; takes no memory.
    pub fn views(&self) -> &[TableView]
        ensures { plains result.now ≡ self.now.net.now.views }
    {
        self.net.views()
    }

    /// Returns the moment, in seconds from the start; takes no memory.
    pub fn moment(&self) -> u64
        ensures { result ≡ self.now.net.now.moment }
    {
        self.net.moment()
    }

    /// Answers one message of an application for a switch: by the host's own tests, else by the switch behind a
    /// barrier, or by `Unknown` where the switch is lost meanwhile.
    pub fn change<W: World>(
        &mut self,
        world: &mut W,
        dpid: Dpid,
        bytes: &[u8],
    ) -> Result<Answer, TxnFault>
        ensures same_reference { self.new.net.ghost_name ≡ self.old.net.ghost_name }
        ensures start { self.new.start ≡ self.old.start }
        ensures changes { Changes W.Tells dpid bytes.now (W.seen world.old) (W.seen world.new) self.old.net.now self.new.net.now result }

        // Where the world's switches can be parted with, one at fault is lost, and a fault is one of memory.
        ensures parted { W.CanPart → IfErr result IsPlain }
    {
        self.net.change(world, dpid, bytes)
    }

    /// Holds a packet back, behind the others, until the transaction closes.
    pub fn hold_packet(&mut self, dpid: Dpid, packet: PacketOut) -> Result<(), AllocError>
        requires joined { is_viewed dpid self.old.net.now.views ≡ true }
        requires message { IsMessage (messages.PacketOut packet) }
        ensures same_reference { self.new.net.ghost_name ≡ self.old.net.ghost_name }
        ensures start { self.new.start ≡ self.old.start }
        ensures ok { OnOk result (self.new.net.now ≡ record self.old.net.now { held = record self.old.net.now.held { packets = self.old.net.now.held.packets ++ (dpid, packet) ∷ [] } }) }
        ensures err { OnErr result (self.new.net.now ≡ self.old.net.now) }
    {
        self.net.hold(dpid, packet)
    }

    /// Closes the transaction: its changes stay, the notices that were held join the queue, and the packets that were held
    /// are released in order, each with a barrier behind it; what comes meanwhile joins the queue as events. Answers each
    /// packet's switch and how many bytes it has.
    pub fn commit<W: World>(
        self,
        world: &mut W,
        queue: &mut EventQueue,
    ) -> Result<Vec<(Dpid, u32)>, TxnFault>
        requires { 1 ≤ self.net.now.room }
        ensures commits { MatchResult result
            (λ sent. Commits W.Tells self.entry.start (W.seen world.old) (W.seen world.new) self.entry.net.now self.exit.0.now queue.old queue.new (Ok sent.items))
            (λ fault. Commits W.Tells self.entry.start (W.seen world.old) (W.seen world.new) self.entry.net.now self.exit.0.now queue.old queue.new (Err fault)) }

        // Where the world's switches can be parted with, one at fault is lost, and a fault is one of memory.
        ensures parted { W.CanPart → IfErr result IsPlain }
    {
        let Txn { net, start } = self;
        net.release_from(world, queue, start)
    }

    /// Closes the transaction: its changes are undone, switch by switch, ascending, and in key order, and leave the log
    /// and the views. It goes on past the fault or the loss of a switch with the others, and answers the first fault. It
    /// takes no memory of its own.
    pub fn abort<W: World>(self, world: &mut W) -> Result<(), TxnFault>
        requires { 1 ≤ self.net.now.room }
        ensures undoes { Undoes W.Tells self.entry.start (W.seen world.old) (W.seen world.new) self.entry.net.now self.exit.0.now result }

        // Where the world's switches can be parted with, one at fault is lost, and a fault is one of memory.
        ensures parted { W.CanPart → IfErr result IsPlain }
    {
        let Txn { net, start } = self;
        net.undo_from(world, start)
    }
}
