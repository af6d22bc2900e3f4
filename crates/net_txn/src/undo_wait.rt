//! The wait for the reply to a barrier in an undo, without memory.

ghost use Rattle.std.specs.Prelude.{◌≡◌, ◌≤◌, length, IfErr};
ghost use Rattle.outside.specs.Calls.{most_message};
ghost use Rattle.net_txn.specs.Parting.{IsPlainTrouble};
ghost use Rattle.net_txn.specs.Undos.{inverses_in, PassesBarrier};

use crate::logged::Logged;
use crate::queue::{MessageQueue, Storage};
use crate::trouble::Trouble;
use crate::wait::await_barrier;
use lego_model::{Awaited, Notices};
use of_types::{Dpid, Xid};
use outside::World;

/// Sends a barrier and waits for its reply. A message that refuses the inverse of one of these entries ends it.
pub(crate) fn pass_barrier<W: World>(
    world: &mut W,
    buf: &mut [u8],
    kept: &mut MessageQueue,
    reverted: &[Logged],
    dpid: Dpid,
    xid: Xid,
) -> Result<(), Trouble>
    requires { most_message ≤ length buf.old }
    ensures passes { PassesBarrier W.Tells dpid xid (inverses_in dpid reverted.now) (W.seen world.old) (W.seen world.new) kept.old kept.new buf.new result }
    ensures len { length buf.new ≡ length buf.old }
    ensures parted { W.CanPart → IfErr result IsPlainTrouble }
{
    let awaited = Awaited {
        dpid,
        first: xid,
        barrier: xid,
        notices: Notices::Dropped,
    };
    await_barrier(world, buf, kept, &awaited, Storage::Reserved, reverted)?;
    Ok(())
}
