//! The undo of what was logged from a position on, once it was put in order.

ghost use Rattle.std.specs.Prelude.{◌≡◌, ◌+◌, ◌<◌, ◌≤◌, ℕ, true, not, List, [], ◌∷◌, length, take, drop, map, filter, Option, None, IsOk, IfErr};
ghost use Rattle.lego_model.specs.declared.fault.TxnFault.{TxnFault};
ghost use Rattle.outside.specs.Seen.{Seen};
ghost use Rattle.net_txn.specs.Causes.{IsPlain};
ghost use Rattle.net_txn.specs.Parting.{IsPlainFault};
ghost use Rattle.net_txn.specs.Ports.{PortLists};
ghost use Rattle.net_txn.specs.Undos.{was_lost, ended_by, without_keys, Further, UndoesLog, switches_of, HasPassedBarrier, IsRoomLeft, key_logged};
ghost use Rattle.net_txn.specs.NetUndos.{ports_in, NetFurther, StaysInUndo};
ghost use Rattle.net_txn.specs.Views.{is_viewed};

use crate::logged::Logged;
use crate::net::Net;
use crate::queue::MessageQueue;
use crate::reverting::{await_switch, behind, revert};
use crate::room::note;
use crate::undo_progress::progress_of;
use crate::view_table::ViewTable;
use lego_model::TxnFault;
use of_types::Dpid;
use outside::World;

/// Sends the inverse at a position, and notes the first fault.
fn revert_noted<W: World>(world: &mut W, net: &mut Net, at: usize, fault: &mut Option<TxnFault>)
    requires place { at < length net.old.log }
    requires room { fault.old ≡ None → 1 ≤ net.old.room }
    ensures undoing { (base : Seen W.Own) (first : List (ℕ × List ℕ)) (p : PortLists) (x : ℕ) →
        NetFurther W.Tells base (W.seen world.old) first p x net.old [] (drop (at + 1) net.old.log) fault.old
        → NetFurther W.Tells base (W.seen world.new) first p x net.new [] (drop at net.new.log) fault.new }
    ensures stays { StaysInUndo at net.old net.new }
    ensures room { IsRoomLeft fault.old fault.new net.old.room net.new.room }
    ensures parted { W.CanPart → IsPlainFault fault.old → IsPlainFault fault.new }
{
    let log = &mut net.log[at..];
    let dpid = log[0].dpid;
    let reverted = revert(
        world,
        net.alloc,
        &mut net.buf,
        &mut net.kept,
        net.views.all(),
        log,
        &mut net.xid,
    );
    if let Err(trouble) = reverted {
        note(
            net.alloc,
            &mut net.rooms,
            &mut net.ports,
            fault,
            dpid,
            trouble,
            &net.buf,
        );
    }
}

/// Sends the inverses of what was logged from a position on, from the end of the log on.
fn revert_all<W: World>(world: &mut W, net: &mut Net, from: usize, fault: &mut Option<TxnFault>)
    requires place { from ≤ length net.old.log }
    requires fault { fault.old ≡ None }
    requires room { 1 ≤ net.old.room }
    ensures undoing { NetFurther W.Tells (W.seen world.old) (W.seen world.new) net.old.kept (ports_in net.old) net.old.xid net.new [] (drop from net.new.log) fault.new }
    ensures stays { StaysInUndo from net.old net.new }
    ensures room { IsRoomLeft fault.old fault.new net.old.room net.new.room }
    ensures parted { W.CanPart → IsPlainFault fault.old → IsPlainFault fault.new }
{
    for at in (from..net.logged()).rev() {
        revert_noted(world, net, at, fault);
    }
}

/// Awaits the reply of a switch, and notes the first fault.
fn await_noted<W: World>(
    world: &mut W,
    net: &mut Net,
    from: usize,
    dpid: Dpid,
    fault: &mut Option<TxnFault>,
)
    requires place { from ≤ length net.old.log }
    requires room { fault.old ≡ None → 1 ≤ net.old.room }
    ensures undoing { (base : Seen W.Own) (first : List (ℕ × List ℕ)) (p : PortLists) (switches : List ℕ) (x : ℕ) →
        NetFurther W.Tells base (W.seen world.old) first p x net.old switches (drop from net.old.log) fault.old → is_viewed dpid net.old.views ≡ true
        → NetFurther W.Tells base (W.seen world.new) first p x net.new (dpid ∷ switches) (drop from net.new.log) fault.new }
    ensures barred { HasPassedBarrier dpid (drop from net.new.log) }
    ensures others { (c : ℕ) → HasPassedBarrier c (drop from net.old.log) → HasPassedBarrier c (drop from net.new.log) }
    ensures stays { StaysInUndo from net.old net.new }
    ensures room { IsRoomLeft fault.old fault.new net.old.room net.new.room }
    ensures parted { W.CanPart → IsPlainFault fault.old → IsPlainFault fault.new }
{
    let answered = await_switch(
        world,
        &mut net.buf,
        &mut net.kept,
        &mut net.log[from..],
        dpid,
        &mut net.xid,
    );
    if let Err(trouble) = answered {
        note(
            net.alloc,
            &mut net.rooms,
            &mut net.ports,
            fault,
            dpid,
            trouble,
            &net.buf,
        );
    }
}

/// Sends a barrier to each joined switch for which some inverse was reverted and which has not failed, ascending, and
/// waits for its reply.
fn await_all<W: World>(world: &mut W, net: &mut Net, from: usize, fault: &mut Option<TxnFault>)
    requires place { from ≤ length net.old.log }
    requires room { fault.old ≡ None → 1 ≤ net.old.room }
    ensures undoing { (base : Seen W.Own) (first : List (ℕ × List ℕ)) (p : PortLists) (x : ℕ) →
        NetFurther W.Tells base (W.seen world.old) first p x net.old [] (drop from net.old.log) fault.old
        → NetFurther W.Tells base (W.seen world.new) first p x net.new (switches_of net.old.views) (drop from net.new.log) fault.new }
    ensures barred { (c : ℕ) → is_viewed c net.old.views ≡ true → HasPassedBarrier c (drop from net.new.log) }
    ensures stays { StaysInUndo from net.old net.new }
    ensures room { IsRoomLeft fault.old fault.new net.old.room net.new.room }
    ensures parted { W.CanPart → IsPlainFault fault.old → IsPlainFault fault.new }
{
    for at in 0..net.views().len() {
        let dpid = net.views()[at].dpid;
        await_noted(world, net, from, dpid, fault);
    }
}

/// Takes the rows of logged keys out of the views; takes no memory.
fn take_keys(views: &mut ViewTable, log: &[Logged])
    ensures { views.new ≡ without_keys (map key_logged log.now) views.old }
{
    for entry in log {
        views.remove(entry.dpid, &entry.key);
    }
}

/// Sends the inverses of what was logged from a position on, from the end of the log on, and then sends a barrier to each
/// joined switch for which some was reverted and which has not failed, ascending, and waits for its reply.
fn undo<W: World>(world: &mut W, net: &mut Net, from: usize) -> Result<(), TxnFault>
    requires place { from ≤ length net.old.log }
    requires room { 1 ≤ net.old.room }
    ensures undoing { (fault : Option TxnFault) × (result ≡ ended_by fault)
        × Further W.Tells net.old.views (W.seen world.old) (W.seen world.new) net.old.kept net.new.kept (ports_in net.old) (ports_in net.new) net.old.xid net.new.xid (switches_of net.old.views) (drop from net.new.log) fault }
    ensures barred { (c : ℕ) → is_viewed c net.old.views ≡ true → HasPassedBarrier c (drop from net.new.log) }
    ensures stays { StaysInUndo from net.old net.new }
    ensures room { (net.old.room ≤ net.new.room + 1) × (IsOk result → net.new.room ≡ net.old.room) }
    ensures parted { W.CanPart → IfErr result IsPlain }
{
    let mut fault = None;
    revert_all(world, net, from, &mut fault);
    await_all(world, net, from, &mut fault);
    match fault {
        None => Ok(()),
        Some(fault) => Err(fault),
    }
}

/// Drops the views and the kept messages of the switches that were lost; takes no memory.
fn forget_lost(views: &mut ViewTable, kept: &mut MessageQueue, reverted: &[Logged])
    ensures views { views.new ≡ filter (λ v. not (was_lost reverted.now v.dpid)) views.old }
    ensures kept { kept.new ≡ filter (λ m. not (was_lost reverted.now m.0)) kept.old }
{
    for entry in reverted {
        if progress_of(reverted, entry.dpid).lost {
            views.forget(entry.dpid);
            kept.forget(entry.dpid);
        }
    }
}

/// Undoes what was logged from a position on, from the end of the log on, and forgets it; its keys leave the views, and so
/// do the switches that are lost.
pub(crate) fn undo_log<W: World>(world: &mut W, net: &mut Net, from: usize) -> Result<(), TxnFault>
    requires place { from ≤ length net.old.log }
    requires room { 1 ≤ net.old.room }
    ensures undoing { UndoesLog W.Tells net.old.views net.new.views (W.seen world.old) (W.seen world.new) net.old.kept net.new.kept (ports_in net.old) (ports_in net.new) net.old.xid net.new.xid (map key_logged (drop from net.old.log)) result }
    ensures log { net.new.log ≡ take from net.old.log }
    ensures held { net.new.held ≡ net.old.held }
    ensures moment { net.new.moment ≡ net.old.moment }
    ensures room { (net.old.room ≤ net.new.room + 1) × (IsOk result → net.new.room ≡ net.old.room) }
    ensures parted { W.CanPart → IfErr result IsPlain }
{
    let undone = undo(world, net, from);
    let reverted = behind(&net.log, from);
    take_keys(&mut net.views, reverted);
    forget_lost(&mut net.views, &mut net.kept, reverted);
    net.log.truncate(from);
    undone
}
