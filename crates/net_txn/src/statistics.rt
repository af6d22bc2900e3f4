//! The statistics that applications ask for.

ghost use Rattle.std.specs.Prelude.{◌≤◌, length, IfErr};
ghost use Rattle.of_wire.specs.declared.message.Message.TheVariants as messages;
ghost use Rattle.of_wire.specs.Grammar.{IsMessage};
ghost use Rattle.outside.specs.Calls.{most_message};
ghost use Rattle.net_txn.specs.Parting.{IsPlainHalt};
ghost use Rattle.net_txn.specs.Causes.{IsPlain};
ghost use Rattle.net_txn.specs.Queries.{QueriesFrom, Queried};
ghost use Rattle.net_txn.specs.Asks.{IsAsked};

use crate::exchange::ask;
use crate::halt::Halt;
use crate::net::{Net, following};
use crate::queue::MessageQueue;
use crate::replies::{answer_replies, sort_out};
use crate::row_request::asked;
use crate::wait::part_or_fail;
use app_frames::Answer;
use lego_model::TxnFault;
use of_types::{Dpid, Xid};
use of_wire::{Message, Stats, encode};
use outside::World;
use std::alloc::Global;

/// Asks a switch for statistics, from this transaction id on, and gives what the application is answered.
fn ask_statistics<W: World>(
    world: &mut W,
    alloc: Global,
    buf: &mut [u8],
    kept: &mut MessageQueue,
    dpid: Dpid,
    xid: Xid,
    query: Stats,
) -> Result<Answer, Halt>
    requires room { most_message ≤ length buf.old }
    requires message { IsMessage (messages.StatsRequest query) }
    ensures queries { QueriesFrom W.Tells (record { dpid = dpid; xid = xid; query = query }) (W.seen world.old) (W.seen world.new) kept.old kept.new result }
    ensures parted { W.CanPart → IfErr result IsPlainHalt }
{
    let awaited = asked(dpid, xid);
    let kind = query.kind;
    let request = encode(alloc, xid, &Message::StatsRequest(query))?;
    let mut came = MessageQueue::new(alloc)?;
    ask(world, alloc, buf, &mut came, &awaited, request.as_slice())?;
    let replies = sort_out(alloc, came, kept, xid)?;
    match answer_replies(alloc, dpid, kind, request, awaited.barrier, replies) {
        Ok(answer) => Ok(answer),
        Err(fault) => Err(part_or_fail(world, dpid, fault)),
    }
}

impl Net {
    /// Asks a switch for the statistics that an application wants, behind a barrier; where the switch is lost meanwhile, it is
    /// answered by `Unknown`.
    pub(crate) fn query_or_lose<W: World>(
        &mut self,
        world: &mut W,
        dpid: Dpid,
        query: Stats,
    ) -> Result<Answer, TxnFault>
        requires { IsAsked query }
        ensures queried { Queried W.Tells (record { dpid = dpid; xid = self.old.xid; query = query }) (W.seen world.old) (W.seen world.new) self.old self.new result }
        ensures parted { W.CanPart → IfErr result IsPlain }
    {
        let xid = self.xid;
        self.xid = following(following(xid));
        match ask_statistics(
            world,
            self.alloc,
            &mut self.buf,
            &mut self.kept,
            dpid,
            xid,
            query,
        ) {
            Ok(answer) => Ok(answer),
            Err(Halt::Lost) => {
                self.lose(dpid);
                Ok(Answer::Unknown)
            }
            Err(Halt::Fault(fault)) => Err(fault),
        }
    }
}
