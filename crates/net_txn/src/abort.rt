//! The end of a transaction whose changes do not stay.

ghost use Rattle.std.specs.Prelude.{◌≡◌, ◌≤◌, length, take, drop, IfErr};
ghost use Rattle.net_txn.specs.Causes.{IsPlain};
ghost use Rattle.net_txn.specs.Undos.{Undoes};

use crate::logged::Logged;
use crate::net::Net;
use crate::undo::undo_log;
use crate::undo_order::order_from;
use lego_model::TxnFault;
use outside::World;

/// Returns a position of the log, its end where it is past it.
fn within_log(log: &[Logged], start: usize) -> usize
    ensures within { result ≤ length log.now }
    ensures front { take result log.now ≡ take start log.now }
    ensures rest { drop result log.now ≡ drop start log.now }
{
    if start < log.len() { start } else { log.len() }
}

impl Net {
    /// Undoes what was logged from a position on, switch by switch, ascending, and in key order, and forgets it; what is
    /// held is dropped. It goes on past the fault or the loss of a switch with the others, and answers the first fault.
    /// It takes no memory of its own.
    pub(crate) fn undo_from<W: World>(
        &mut self,
        world: &mut W,
        start: usize,
    ) -> Result<(), TxnFault>
        requires { 1 ≤ self.old.room }
        ensures undoes { Undoes W.Tells start (W.seen world.old) (W.seen world.new) self.old self.new result }
        ensures parted { W.CanPart → IfErr result IsPlain }
    {
        self.held.clear();
        self.notices.clear();
        let from = within_log(&self.log, start);
        order_from(&mut self.log, from);
        undo_log(world, self, from)
    }
}
