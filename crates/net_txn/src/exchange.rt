//! A message, a barrier behind it, and what the switch answers.

ghost use Rattle.std.specs.Prelude.{◌≡◌, ◌≤◌, [], ◌∷◌, true, length, IsOk, IfOk, IfErr};
ghost use Rattle.of_wire.specs.Reading.{reading_of};
ghost use Rattle.outside.specs.Calls.{most_message};
ghost use Rattle.net_txn.specs.Parting.{IsPlainTrouble, IsPlainHalt};
ghost use Rattle.net_txn.specs.Causes.{halt_by};
ghost use Rattle.net_txn.specs.Undos.{is_of_link};
ghost use Rattle.net_txn.specs.Said.{barrier_of, IsHaltBy, SaysTo, Exchanges, Talks};
ghost use Rattle.net_txn.specs.declared.queue.Storage.TheVariants.{Growing};

use crate::halt::Halt;
use crate::logged::inverse_of;
use crate::queue::{MessageQueue, Storage};
use crate::response::Response;
use crate::room::front;
use crate::trouble::Trouble;
use crate::wait::{FLOOD, await_barrier, send};
use lego_model::{Awaited, TxnFault};
use of_types::{ByteList, Dpid};
use outside::World;
use std::alloc::{AllocError, Global};

/// Tells how calls end by a switch's trouble, with copies of its bytes.
fn halt_with(alloc: Global, dpid: Dpid, trouble: Trouble, buf: &[u8]) -> Result<Halt, AllocError>
    ensures halt { IfOk result (λ halt. halt ≡ halt_by dpid trouble buf.now) }
    ensures link { is_of_link trouble ≡ true → IsOk result }
{
    match trouble {
        Trouble::Link | Trouble::Parted => Ok(Halt::Lost),
        Trouble::Broke(len) => {
            let bytes = ByteList::from_slice(alloc, front(buf, len))?;
            Ok(Halt::Fault(TxnFault::SwitchBroke(dpid, bytes)))
        }
        Trouble::Refused(key, xid, len) => {
            let inverse = ByteList::from_slice(alloc, &inverse_of(alloc, &key, xid))?;
            let bytes = ByteList::from_slice(alloc, front(buf, len))?;
            Ok(Halt::Fault(TxnFault::Diverged(dpid, inverse, bytes)))
        }
        Trouble::Flooded => Ok(Halt::Fault(TxnFault::Flooded(dpid, FLOOD))),
        Trouble::Short | Trouble::Full => Ok(Halt::Fault(TxnFault::NoMemory)),
    }
}

/// Tells how calls end by a switch's trouble, or by want of memory where none is left for its bytes.
fn halt_of(alloc: Global, dpid: Dpid, trouble: Trouble, buf: &[u8]) -> Halt
    ensures { IsHaltBy dpid trouble buf.now result }
{
    match halt_with(alloc, dpid, trouble, buf) {
        Ok(halt) => halt,
        Err(_) => Halt::Fault(TxnFault::NoMemory),
    }
}

/// Sends one message to a switch.
pub(crate) fn say<W: World>(
    world: &mut W,
    alloc: Global,
    dpid: Dpid,
    frame: &[u8],
) -> Result<(), Halt>
    requires { IsOk (reading_of frame.now) }
    ensures { SaysTo W.Tells dpid frame.now (W.seen world.old) (W.seen world.new) result }
{
    match send(world, dpid, frame) {
        Ok(()) => Ok(()),
        Err(trouble) => Err(halt_of(alloc, dpid, trouble, &[])),
    }
}

/// Sends a message and a barrier, and waits for its reply; answers what came before it.
fn exchange<W: World>(
    world: &mut W,
    buf: &mut [u8],
    kept: &mut MessageQueue,
    awaited: &Awaited,
    frame: &[u8],
) -> Result<Response, Trouble>
    requires room { most_message ≤ length buf.old }
    requires read { IsOk (reading_of frame.now) }
    ensures exchanges { Exchanges W.Tells awaited.now (frame.now ∷ barrier_of awaited.now ∷ []) Growing [] (W.seen world.old) (W.seen world.new) kept.old kept.new buf.new result }
    ensures parted { W.CanPart → IfErr result IsPlainTrouble }
{
    send(world, awaited.dpid, frame)?;
    await_barrier(world, buf, kept, awaited, Storage::Growing, &[])
}

/// Sends a message and a barrier, and waits for its reply; answers what came before it.
pub(crate) fn ask<W: World>(
    world: &mut W,
    alloc: Global,
    buf: &mut [u8],
    kept: &mut MessageQueue,
    awaited: &Awaited,
    frame: &[u8],
) -> Result<Response, Halt>
    requires room { most_message ≤ length buf.old }
    requires read { IsOk (reading_of frame.now) }
    ensures talks { Talks W.Tells awaited.now (frame.now ∷ []) (W.seen world.old) (W.seen world.new) kept.old kept.new result }
    ensures parted { W.CanPart → IfErr result IsPlainHalt }
{
    match exchange(world, buf, kept, awaited, frame) {
        Ok(answer) => Ok(answer),
        Err(trouble) => Err(halt_of(alloc, awaited.dpid, trouble, buf)),
    }
}

/// Sends a barrier, and waits for its reply; answers what came before it.
pub(crate) fn pass<W: World>(
    world: &mut W,
    alloc: Global,
    buf: &mut [u8],
    kept: &mut MessageQueue,
    awaited: &Awaited,
) -> Result<Response, Halt>
    requires { most_message ≤ length buf.old }
    ensures talks { Talks W.Tells awaited.now [] (W.seen world.old) (W.seen world.new) kept.old kept.new result }
    ensures parted { W.CanPart → IfErr result IsPlainHalt }
{
    match await_barrier(world, buf, kept, awaited, Storage::Growing, &[]) {
        Ok(answer) => Ok(answer),
        Err(trouble) => Err(halt_of(alloc, awaited.dpid, trouble, buf)),
    }
}
