//! The calls of the network, each with a small answer. The world is any world, so that no proof looks into it.

ghost use Rattle.std.specs.Prelude.{◌≡◌, ◌≤◌, None, length, true, IsSome, IfOk, OnOk};
ghost use Rattle.net_txn.specs.Views.{rows_at};

use super::ended::{Ended, by_answer, by_event, by_fault, by_kept, by_rows};
use app_frames::Answer;
use net_txn::{EventQueue, Net, Txn, TxnFault};
use of_types::Dpid;
use of_wire::{FeaturesReply, Message, WireFault, decode};
use outside::{Item, NextFault, World};
use std::alloc::{AllocError, Global};

/// A buffer for the longest message.
pub fn buffer(alloc: Global) -> Result<Vec<u8>, AllocError>
    ensures { IfOk result (λ buf. length buf.items ≡ 65535) }
{
    vec![in alloc; 0u8; 65_535]
}

/// The features that a message tells.
fn by_features(message: Message) -> Result<FeaturesReply, Ended> {
    match message {
        Message::FeaturesReply(features) => Ok(features),
        other => {
            drop(other);
            Err(Ended::Otherwise)
        }
    }
}

/// The features that stand in the front of a buffer.
fn features_in(alloc: Global, buf: &[u8], len: usize) -> Result<FeaturesReply, Ended> {
    let Some(bytes) = buf.get(..len) else {
        return Err(Ended::Otherwise);
    };
    match decode(alloc, bytes) {
        Ok(envelope) => by_features(envelope.message),
        Err(WireFault::NoMemory) => Err(Ended::NoMemory),
        Err(_) => Err(Ended::Otherwise),
    }
}

/// The features of the switch that joins next.
fn next_features<W: World>(alloc: Global, world: &mut W) -> Result<FeaturesReply, Ended> {
    let mut buf = buffer(alloc)?;
    match world.next(&mut buf) {
        Ok(Item::Joined(_, len)) => features_in(alloc, &buf, len),
        Err(NextFault::Short) => Err(Ended::NoMemory),
        _ => Err(Ended::Otherwise),
    }
}

/// Passes over an item that comes next and has no bytes.
pub fn pass<W: World>(alloc: Global, world: &mut W, item: Item) -> Result<(), Ended> {
    let mut buf = buffer(alloc)?;
    if world.next(&mut buf) == Ok(item) {
        Ok(())
    } else {
        Err(Ended::Otherwise)
    }
}

/// Whether a switch is not joined, of two at most.
fn is_out(net: &Net, dpid: Dpid) -> bool
    ensures { result ≡ true → rows_at dpid net.now.views ≡ None }
{
    match net.views() {
        [] => true,
        [view] => view.dpid != dpid,
        _ => false,
    }
}

/// Whether a switch is joined, of two at most.
fn is_joined(net: &Net, dpid: Dpid) -> bool
    ensures { result ≡ true → IsSome (rows_at dpid net.now.views) }
{
    match net.views() {
        [view] => view.dpid == dpid,
        [first, second] => first.dpid == dpid || second.dpid == dpid,
        _ => false,
    }
}

/// Lets the switch join that comes next.
pub fn join<W: World>(alloc: Global, world: &mut W, net: &mut Net, dpid: Dpid) -> Result<(), Ended>
    ensures { net.new.room ≡ net.old.room }
{
    let features = next_features(alloc, world)?;
    if !is_out(net, dpid) {
        return Err(Ended::Otherwise);
    }
    match net.joined(world, dpid, &features) {
        Ok(true) => Ok(()),
        Ok(false) => Err(Ended::Lost),
        Err(fault) => Err(by_fault(&fault)),
    }
}

/// A network with switch 1, which joins next.
pub fn new_net<W: World>(alloc: Global, world: &mut W) -> Result<Net, Ended>
    ensures { IfOk result (λ net. 1 ≤ net.room) }
{
    let mut net = Net::new(alloc)?;
    join(alloc, world, &mut net, 1).and(Ok(net))
}

pub fn by_change(changed: Result<Answer, TxnFault>) -> Ended {
    match changed {
        Ok(answer) => by_answer(&answer),
        Err(fault) => by_fault(&fault),
    }
}

fn by_end(ended: Result<(), TxnFault>) -> Ended {
    match ended {
        Ok(()) => Ended::Fine,
        Err(fault) => by_fault(&fault),
    }
}

/// How a change went that is kept.
pub fn keep<W: World>(
    alloc: Global,
    world: &mut W,
    net: &mut Net,
    dpid: Dpid,
    bytes: &[u8],
) -> Result<Ended, Ended>
    requires { 1 ≤ net.old.room }
    ensures { OnOk result (net.new.room ≡ net.old.room) }
{
    let mut queue = EventQueue::new(alloc);
    let mut txn = Txn::begin(net);
    let changed = by_change(txn.change(world, dpid, bytes));
    match txn.commit(world, &mut queue) {
        Ok(_released) => Ok(changed),
        Err(fault) => Err(by_fault(&fault)),
    }
}

/// How a change went, and its undo.
pub fn undo<W: World>(world: &mut W, net: &mut Net, dpid: Dpid, bytes: &[u8]) -> (Ended, Ended)
    requires { 1 ≤ net.old.room }
{
    let mut txn = Txn::begin(net);
    let changed = by_change(txn.change(world, dpid, bytes));
    (changed, by_end(txn.abort(world)))
}

/// Whether a transaction sees this moment, and so many rows of one switch.
fn is_seen(txn: &Txn<'_>, moment: u64, rows: usize) -> bool {
    match txn.views() {
        [view] => txn.moment() == moment && view.rows.as_slice().len() == rows,
        _ => false,
    }
}

/// Whether a transaction that changes nothing sees this moment, and so many rows of one switch.
pub fn sees<W: World>(
    alloc: Global,
    world: &mut W,
    net: &mut Net,
    moment: u64,
    rows: usize,
) -> Result<bool, Ended>
    requires { 1 ≤ net.old.room }
    ensures { OnOk result (net.new.room ≡ net.old.room) }
{
    let mut queue = EventQueue::new(alloc);
    let txn = Txn::begin(net);
    let is_seen = is_seen(&txn, moment, rows);
    match txn.commit(world, &mut queue) {
        Ok(_released) => Ok(is_seen),
        Err(fault) => Err(by_fault(&fault)),
    }
}

/// The row of a switch.
pub fn ask<W: World>(world: &mut W, net: &mut Net, dpid: Dpid) -> Ended {
    if !is_joined(net, dpid) {
        return Ended::Unknown;
    }
    match net.rows(world, dpid) {
        Ok(Some(rows)) => by_rows(&rows),
        Ok(None) => Ended::Lost,
        Err(fault) => by_fault(&fault),
    }
}

/// What becomes of a message of switch 1; its event is expected with this body.
pub fn arrive<W: World>(world: &mut W, net: &mut Net, frame: &[u8], body: &[u8]) -> Ended {
    if !is_joined(net, 1) {
        return Ended::Unknown;
    }
    match net.arrived(world, 1, frame) {
        Ok(Some(event)) => by_event(&event, body),
        Ok(None) if is_joined(net, 1) => Ended::NoEvent,
        Ok(None) => Ended::Lost,
        Err(fault) => by_fault(&fault),
    }
}

/// What comes of a switch that leaves, taken out of a queue; its event is expected with this body.
pub fn leave(alloc: Global, net: &mut Net, body: &[u8]) -> Result<Ended, AllocError> {
    if !is_joined(net, 1) {
        return Ok(Ended::Unknown);
    }
    let mut queue = EventQueue::new(alloc);
    queue.push(net.left(1)?)?;
    match queue.take_first() {
        Some(event) if queue.is_empty() && queue.len() == 0 => Ok(by_event(&event, body)),
        _ => Ok(Ended::Otherwise),
    }
}

/// What comes first of a switch that was lost; its event is expected with this body.
pub fn take_lost(net: &mut Net, body: &[u8]) -> Ended {
    match net.lost() {
        Ok(Some(event)) => by_event(&event, body),
        Ok(None) => Ended::NoEvent,
        Err(_) => Ended::NoMemory,
    }
}

/// What was kept first while something else was awaited.
pub fn take_kept(net: &mut Net) -> Ended {
    match net.waiting() {
        Ok(kept) => by_kept(&kept),
        Err(_) => Ended::NoMemory,
    }
}
