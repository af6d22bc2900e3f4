//! A switch that joins.

ghost use Rattle.std.specs.Prelude.{◌≡◌, ◌<◌, ◌^◌, ◌++◌, [], ◌∷◌, None, IfOk, IfErr, OnOk, OnErr};
ghost use Rattle.lego_model.specs.History.{lost_of};
ghost use Rattle.outside.specs.Seen.{Continues};
ghost use Rattle.outside.specs.InOrder.{MessagesSince};
ghost use Rattle.flow_table.specs.View.{plains};
ghost use Rattle.net_txn.specs.Parting.{IsPlainHalt};
ghost use Rattle.net_txn.specs.LinkSteps.{OnLinks, AsksWithoutStrays};
ghost use Rattle.lego_model.specs.BarrierWaits.{next_xid};
ghost use Rattle.net_txn.specs.OwnIds.{KeepsIds};
ghost use Rattle.net_txn.specs.Said.{Speaks};
ghost use Rattle.net_txn.specs.Causes.{IsCause, IsPlain};
ghost use Rattle.net_txn.specs.Waits.{IfFlooded};
ghost use Rattle.net_txn.specs.Views.{rows_at};
ghost use Rattle.net_txn.specs.Joining.{greeted_from, greeting, with_view, IsViewPlace, Joins, JoinsOrNot, DoesNotJoin};
ghost use Rattle.net_txn.specs.JoiningSteps.{JoinHalts, JoinSteps};

use crate::greeting::{configuring, emptying, greet};
use crate::halt::Halt;
use crate::net::{Net, following};
use crate::port_table::PortTable;
use crate::ports::KnownPorts;
use crate::view_table::ViewTable;
use flow_table::{TableView, ViewList};
use lego_model::{Awaited, Notices, TxnFault};
use of_types::{Dpid, Xid};
use of_wire::{FeaturesReply, PortList};
use outside::World;
use std::alloc::{AllocError, Global};

/// Tells what is awaited where two messages are sent from this id on, and then a barrier.
fn greeted(dpid: Dpid, xid: Xid) -> Awaited
    ensures { result ≡ greeted_from dpid xid }
{
    let barrier = following(following(xid));
    Awaited {
        dpid,
        first: barrier,
        barrier,
        notices: Notices::Dropped,
    }
}

/// Tells where the view of a switch goes.
fn position_for(views: &[TableView], dpid: Dpid) -> usize
    ensures { IsViewPlace dpid (plains views.now) result }
{
    for (i, view) in views.iter().enumerate() {
        if dpid <= view.dpid {
            return i;
        }
    }
    views.len()
}

/// Puts an empty view among the others.
pub(crate) fn put_view(
    alloc: Global,
    views: &mut Vec<TableView>,
    dpid: Dpid,
) -> Result<(), AllocError>
    ensures ok { OnOk result (plains views.new.items ≡ with_view dpid (plains views.old.items)) }
    ensures err { OnErr result (plains views.new.items ≡ plains views.old.items) }
{
    let at = position_for(views, dpid);
    let view = TableView {
        dpid,
        rows: ViewList::new(alloc),
    };
    views.insert(at, view)?;
    Ok(())
}

/// Returns the ports with which a switch joins.
fn known_ports(alloc: Global, dpid: Dpid, ports: &PortList) -> Result<KnownPorts, AllocError>
    ensures dpid { IfOk result (λ k. k.dpid ≡ dpid) }
    ensures ports { IfOk result (λ k. k.ports ≡ ports.now) }
{
    let copy = Vec::from_slice(alloc, ports.as_slice())?;
    Ok(KnownPorts {
        dpid,
        ports: PortList::from_vec(copy),
    })
}

/// Takes a switch in, with an empty view.
fn admit(
    alloc: Global,
    views: &mut ViewTable,
    ports: &mut PortTable,
    known: KnownPorts,
) -> Result<(), AllocError>
    ensures views { OnOk result (views.new ≡ with_view known.dpid views.old) }
    ensures ports { OnOk result (ports.new.known ≡ ports.old.known ++ known ∷ []) }
    ensures views_err { OnErr result (views.new ≡ views.old) }
    ensures ports_err { OnErr result (ports.new.known ≡ ports.old.known) }
    ensures left { ports.new.left ≡ ports.old.left }
{
    let dpid = known.dpid;
    let before = ports.known().len();
    ports.push(known)?;
    match views.put_view(alloc, dpid) {
        Ok(()) => Ok(()),
        Err(error) => {
            ports.truncate(before);
            Err(error)
        }
    }
}

impl Net {
    /// Empties the table of a switch and sets its configuration, behind a barrier, and takes it in.
    fn join<W: World>(
        &mut self,
        world: &mut W,
        dpid: Dpid,
        features: &FeaturesReply,
    ) -> Result<(), Halt>
        ensures joins { OnOk result (Joins W.Tells dpid features.now.ports (W.seen world.old) (W.seen world.new) self.old self.new) }
        ensures halts { IfErr result (JoinHalts W.Tells dpid (W.seen world.old) (W.seen world.new) self.old self.new) }
        ensures speaks { Speaks W.Tells dpid self.old.xid 3 (W.seen world.old) (W.seen world.new) }
        ensures stays { self.new ≡ record self.old { views = self.new.views; ports = self.new.ports; xid = next_xid (next_xid (next_xid self.old.xid)); kept = self.new.kept } }
        ensures xid { self.old.xid < 2 ^ 32 }
        ensures parted { W.CanPart → IfErr result IsPlainHalt }
    {
        let first = self.xid;
        let awaited = greeted(dpid, first);
        self.xid = following(awaited.barrier);
        let emptying = emptying(self.alloc, first)?;
        let known = known_ports(self.alloc, dpid, &features.ports)?;
        self.views.reserve()?;
        self.ports.reserve()?;
        greet(
            world,
            self.alloc,
            &mut self.buf,
            &mut self.kept,
            &awaited,
            emptying.as_slice(),
            configuring(following(first)).as_slice(),
        )?;
        admit(self.alloc, &mut self.views, &mut self.ports, known)?;
        Ok(())
    }

    /// Joins a switch with these features: its table is emptied and its configuration set, behind a barrier. Answers whether it
    /// is joined: it is not where it was lost meanwhile, and then it has no Leave event.
    pub fn joined<W: World>(
        &mut self,
        world: &mut W,
        dpid: Dpid,
        features: &FeaturesReply,
    ) -> Result<bool, TxnFault>
        requires { rows_at dpid self.old.views ≡ None }
        ensures joins { IfOk result (λ joined. JoinsOrNot W.Tells dpid features.now.ports joined (W.seen world.old) (W.seen world.new) self.old self.new) }
        ensures err { OnErr result (DoesNotJoin dpid self.old self.new) }
        ensures continues { Continues W.Tells (W.seen world.old) (W.seen world.new) }
        ensures links { OnLinks W.Tells (W.seen world.old) (W.seen world.new) }

        // Where the world tells in order and the switch is joined, each call of its link is in place, also one that fails.
        ensures no_strays { AsksWithoutStrays W.Tells dpid (W.seen world.old) (W.seen world.new) }

        // All bytes that came were messages.
        ensures read { OnOk result (W.Tells → MessagesSince (W.seen world.old) (W.seen world.new)) }
        ensures cause { IfErr result (IsCause W.Tells dpid (W.seen world.old) (W.seen world.new)) }
        ensures ids { KeepsIds W.Tells 3 (W.seen world.old) (W.seen world.new) self.old.xid self.new.xid result }
        ensures flooded { IfErr result (IfFlooded W.Tells (greeted_from dpid self.old.xid) (greeting dpid self.old.xid) (W.seen world.old) (W.seen world.new)) }
        ensures log { self.new.log ≡ self.old.log }
        ensures moment { self.new.moment ≡ self.old.moment }
        ensures room { self.new.room ≡ self.old.room }
        ensures held { self.new.held ≡ self.old.held }
        ensures left { self.new.left ≡ self.old.left }

        // A fault loses no switch.
        ensures losses { OnErr result (W.Tells → lost_of (W.seen world.new) ≡ lost_of (W.seen world.old)) }

        // Where the world keeps its word and nothing of the switch waited, the switch is empty, as its view is; a fault is
        // one of memory.
        ensures in_step { JoinSteps W.Tells dpid (W.seen world.old) (W.seen world.new) self.old self.new result }

        // Where its switches can be parted with, one at fault is lost, and a fault is one of memory.
        ensures parted { W.CanPart → IfErr result IsPlain }
    {
        match self.join(world, dpid, features) {
            Ok(()) => Ok(true),
            Err(Halt::Lost) => {
                self.kept.forget(dpid);
                Ok(false)
            }
            Err(Halt::Fault(fault)) => Err(fault),
        }
    }
}
