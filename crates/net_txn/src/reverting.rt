//! The inverses of a log, sent from its end on.

ghost use Rattle.std.specs.Prelude.{◌≡◌, ◌+◌, ◌^◌, ◌<◌, ◌≤◌, ℕ, true, false, List, [], ◌∷◌, length, drop, map, Option, IfErr, is_err, slice_index_or, slice_set};
ghost use Rattle.outside.specs.Seen.{Seen};
ghost use Rattle.flow_table.specs.View.{TableView as PlainView, plains};
ghost use Rattle.lego_model.specs.declared.fault.TxnFault.{TxnFault};
ghost use Rattle.outside.specs.Calls.{most_message};
ghost use Rattle.net_txn.specs.Parting.{IsPlainTrouble};
ghost use Rattle.net_txn.specs.declared.logged.Logged.{Logged};
ghost use Rattle.lego_model.specs.UndoFaults.{inverse_bytes};
ghost use Rattle.lego_model.specs.BarrierWaits.{next_xid};
ghost use Rattle.net_txn.specs.Ports.{PortLists};
ghost use Rattle.net_txn.specs.Undos.{HasPassedBarrier, Further, first_fault_of, fault_of, ports_of, loses_by, progress_of, inverses_in, with_progress, key_logged, PassesBarrier};
ghost use Rattle.net_txn.specs.Said.{SaysOne};
ghost use Rattle.net_txn.specs.Views.{is_viewed};

use crate::logged::{Logged, UndoProgress, inverse_of};
use crate::net::following;
use crate::queue::MessageQueue;
use crate::trouble::Trouble;
use crate::undo_progress::{position_of, progress_of};
use crate::undo_wait::pass_barrier;
use crate::views::is_viewed;
use crate::wait::send;
use flow_table::TableView;
use of_types::{Dpid, Xid};
use outside::World;
use std::alloc::Global;

/// How many inverses are sent to a switch before a barrier.
const MOST_BEHIND_BARRIER: u32 = 4_096;

/// Returns the log from a position on.
pub(crate) fn behind(log: &[Logged], from: usize) -> &[Logged]
    requires { from ≤ length log.now }
    ensures { result.now ≡ drop from log.now }
{
    &log[from..]
}

/// Notes how far an inverse came.
fn mark(log: &mut [Logged], at: usize, progress: UndoProgress)
    requires { at < length log.old }
    ensures marked { (e : Logged) → log.new ≡ slice_set log.old at (with_progress progress (slice_index_or log.old at e)) }
    ensures same { map key_logged log.new ≡ map key_logged log.old }
{
    log[at].progress = progress;
}

/// Tells whether a switch is lost by a call.
fn is_lost(called: &Result<(), Trouble>) -> bool
    ensures { result ≡ loses_by called.now }
{
    matches!(called, Err(Trouble::Link | Trouble::Parted))
}

/// Sends the inverse of the first of some entries.
fn send_first<W: World>(
    world: &mut W,
    alloc: Global,
    log: &mut [Logged],
    since: u32,
    xid: Xid,
) -> Result<(), Trouble>
    requires { 0 < length log.old }
    ensures says { (e : Logged) → let entry = slice_index_or log.old 0 e in
        SaysOne W.Tells entry.dpid (inverse_bytes xid entry.key) (W.seen world.old) (W.seen world.new) result }
    ensures marked { (e : Logged) → log.new ≡ slice_set log.old 0 (with_progress (record { xid = xid; since = since; failed = is_err result; lost = loses_by result }) (slice_index_or log.old 0 e)) }
    ensures same { map key_logged log.new ≡ map key_logged log.old }
    ensures priority { (e : Logged) → (slice_index_or log.old 0 e).key.priority < 2 ^ 16 }
    ensures plain { IfErr result IsPlainTrouble }
{
    let dpid = log[0].dpid;
    let _priority = log[0].key.priority;
    let inverse = inverse_of(alloc, &log[0].key, xid);
    let sent = send(world, dpid, &inverse);
    let progress = UndoProgress {
        xid,
        since,
        failed: sent.is_err(),
        lost: is_lost(&sent),
    };
    mark(log, 0, progress);
    sent
}

/// Sends a barrier to the switch of the inverse at a position, the newest of those that were reverted to it, and waits
/// for its reply.
fn await_at<W: World>(
    world: &mut W,
    buf: &mut [u8],
    kept: &mut MessageQueue,
    log: &mut [Logged],
    at: usize,
    xid: Xid,
) -> Result<(), Trouble>
    requires room { most_message ≤ length buf.old }
    requires place { at < length log.old }
    ensures passes { (e : Logged) → let d = (slice_index_or log.old at e).dpid in
        PassesBarrier W.Tells d xid (inverses_in d log.old) (W.seen world.old) (W.seen world.new) kept.old kept.new buf.new result }
    ensures marked { (e : Logged) → let entry = slice_index_or log.old at e in
        log.new ≡ slice_set log.old at (with_progress (record { xid = entry.progress.xid; since = 0; failed = is_err result; lost = loses_by result }) entry) }
    ensures same { map key_logged log.new ≡ map key_logged log.old }
    ensures len { length buf.new ≡ length buf.old }
    ensures parted { W.CanPart → IfErr result IsPlainTrouble }
{
    let dpid = log[at].dpid;
    let sent = log[at].progress.xid;
    let barred = pass_barrier(world, buf, kept, log, dpid, xid);
    let progress = UndoProgress {
        xid: sent,
        since: 0,
        failed: barred.is_err(),
        lost: is_lost(&barred),
    };
    mark(log, at, progress);
    barred
}

/// Takes the next transaction id.
fn take_xid(xid: &mut Xid) -> Xid
    ensures taken { result ≡ xid.old }
    ensures next { xid.new ≡ next_xid xid.old }
    ensures least { 1 ≤ xid.new }
{
    let taken = *xid;
    *xid = following(taken);
    taken
}

/// Counts one inverse more behind the last barrier.
fn one_more(since: u32) -> u32
    ensures { since < 4096 → result ≡ since + 1 }
{
    if since < MOST_BEHIND_BARRIER {
        since + 1
    } else {
        MOST_BEHIND_BARRIER
    }
}

/// Sends the inverse of the first of some entries, to a switch that is joined and has not failed.
fn revert_to<W: World>(
    world: &mut W,
    alloc: Global,
    buf: &mut [u8],
    kept: &mut MessageQueue,
    log: &mut [Logged],
    since: u32,
    xid: &mut Xid,
) -> Result<(), Trouble>
    requires room { most_message ≤ length buf.old }
    requires place { 0 < length log.old }
    ensures undoing { (base : Seen W.Own) (views : List PlainView) (x : ℕ) (first : List (ℕ × List ℕ)) (p q : PortLists) (fault : Option TxnFault) (e : Logged) →
        let d = (slice_index_or log.old 0 e).dpid in
        let reverted = drop 1 log.old in
        Further W.Tells views base (W.seen world.old) first kept.old p q x xid.old [] reverted fault → is_viewed d views ≡ true → (progress_of d reverted).failed ≡ false
        → ((progress_of d reverted).since < 4096 → since ≡ (progress_of d reverted).since + 1)
        → Further W.Tells views base (W.seen world.new) first kept.new p (ports_of d result buf.new q) x xid.new [] log.new (first_fault_of fault (fault_of d result buf.new)) }
    ensures same { map key_logged log.new ≡ map key_logged log.old }
    ensures least { 1 ≤ xid.new }
    ensures len { length buf.new ≡ length buf.old }
    ensures parted { W.CanPart → IfErr result IsPlainTrouble }
{
    let id = take_xid(xid);
    send_first(world, alloc, log, since, id)?;
    if since < MOST_BEHIND_BARRIER {
        return Ok(());
    }
    let id = take_xid(xid);
    await_at(world, buf, kept, log, 0, id)
}

/// Tells whether an inverse is sent to a switch: it was joined and has not failed.
fn reverts(progress: UndoProgress, views: &[TableView], dpid: Dpid) -> bool
    ensures yes { result ≡ true → (is_viewed dpid (plains views.now) ≡ true) × (progress.failed ≡ false) }
    ensures no { result ≡ false → is_viewed dpid (plains views.now) ≡ true → progress.failed ≡ true }
{
    !progress.failed && is_viewed(views, dpid)
}

/// Sends the inverse of the first of some entries, unless its switch has failed, was lost, or is not joined. Those behind
/// it were reverted.
pub(crate) fn revert<W: World>(
    world: &mut W,
    alloc: Global,
    buf: &mut [u8],
    kept: &mut MessageQueue,
    views: &[TableView],
    log: &mut [Logged],
    xid: &mut Xid,
) -> Result<(), Trouble>
    requires room { most_message ≤ length buf.old }
    requires place { 0 < length log.old }
    requires least { 1 ≤ xid.old }
    ensures undoing { (base : Seen W.Own) (x : ℕ) (first : List (ℕ × List ℕ)) (p q : PortLists) (fault : Option TxnFault) (e : Logged) →
        let d = (slice_index_or log.old 0 e).dpid in
        Further W.Tells (plains views.now) base (W.seen world.old) first kept.old p q x xid.old [] (drop 1 log.old) fault
        → Further W.Tells (plains views.now) base (W.seen world.new) first kept.new p (ports_of d result buf.new q) x xid.new [] log.new (first_fault_of fault (fault_of d result buf.new)) }
    ensures same { map key_logged log.new ≡ map key_logged log.old }
    ensures least { 1 ≤ xid.new }
    ensures len { length buf.new ≡ length buf.old }
    ensures parted { W.CanPart → IfErr result IsPlainTrouble }
{
    let dpid = log[0].dpid;
    let progress = progress_of(behind(log, 1), dpid);
    if reverts(progress, views, dpid) {
        revert_to(world, alloc, buf, kept, log, one_more(progress.since), xid)
    } else {
        let left_alone = UndoProgress {
            xid: 0,
            since: 0,
            failed: true,
            lost: progress.lost,
        };
        mark(log, 0, left_alone);
        Ok(())
    }
}

/// Sends a barrier to a switch for which some inverse was reverted, unless it has failed, and waits for its reply.
pub(crate) fn await_switch<W: World>(
    world: &mut W,
    buf: &mut [u8],
    kept: &mut MessageQueue,
    log: &mut [Logged],
    dpid: Dpid,
    xid: &mut Xid,
) -> Result<(), Trouble>
    requires room { most_message ≤ length buf.old }
    requires least { 1 ≤ xid.old }
    ensures undoing { (base : Seen W.Own) (views : List PlainView) (x : ℕ) (first : List (ℕ × List ℕ)) (p q : PortLists) (switches : List ℕ) (fault : Option TxnFault) →
        Further W.Tells views base (W.seen world.old) first kept.old p q x xid.old switches log.old fault → is_viewed dpid views ≡ true
        → Further W.Tells views base (W.seen world.new) first kept.new p (ports_of dpid result buf.new q) x xid.new (dpid ∷ switches) log.new (first_fault_of fault (fault_of dpid result buf.new)) }
    ensures barred { HasPassedBarrier dpid log.new }
    ensures others { (c : ℕ) → HasPassedBarrier c log.old → HasPassedBarrier c log.new }
    ensures same { map key_logged log.new ≡ map key_logged log.old }
    ensures least { 1 ≤ xid.new }
    ensures len { length buf.new ≡ length buf.old }
    ensures parted { W.CanPart → IfErr result IsPlainTrouble }
{
    let Some(at) = position_of(log, dpid) else {
        return Ok(());
    };
    if log[at].progress.failed {
        return Ok(());
    }
    let id = take_xid(xid);
    await_at(world, buf, kept, log, at, id)
}
