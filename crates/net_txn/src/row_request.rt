//! The rows of a switch.

ghost use Rattle.std.specs.Prelude.{◌≡◌, ◌≤◌, length, IfOk, IfErr, IsOk, IsSome};
ghost use Rattle.of_wire.specs.Reading.{reading_of};
ghost use Rattle.outside.specs.Calls.{most_message};
ghost use Rattle.net_txn.specs.Parting.{IsPlainHalt};
ghost use Rattle.net_txn.specs.Views.{rows_at};
ghost use Rattle.net_txn.specs.Causes.{IsPlain};
ghost use Rattle.net_txn.specs.Asks.{Asks};
ghost use Rattle.lego_model.specs.FlowQueries.{all_flows, flows_request, asked_from};
ghost use Rattle.net_txn.specs.AskSteps.{AsksFrom, AskSteps};

use crate::exchange::ask;
use crate::halt::Halt;
use crate::net::{Net, following};
use crate::queue::MessageQueue;
use crate::replies::{read_replies, sort_out};
use crate::wait::part_or_fail;
use lego_model::{Awaited, Notices, TxnFault};
use of_match::Match;
use of_stats::RowList;
use of_types::{ByteList, Dpid, Xid, ports, put_array, put_u8, put_u16, stats};
use of_wire::{Message, Stats, encode};
use outside::World;
use std::alloc::{AllocError, Global};

/// The number that means all tables.
pub(crate) const ALL_TABLES: u8 = 0xff;

/// Tells what is awaited where a request is sent with this id, and then a barrier.
pub(crate) fn asked(dpid: Dpid, xid: Xid) -> Awaited
    ensures { result ≡ asked_from dpid xid }
{
    let barrier = following(xid);
    Awaited {
        dpid,
        first: barrier,
        barrier,
        notices: Notices::Kept,
    }
}

/// Returns the body of a request of flows: of any match, in all tables, whatever their outputs.
#[tactic(auto, unfolding(lego_model::specs::FlowQueries::all_flows))]
fn all_flows() -> [u8; 44]
    ensures { result ≡ all_flows }
{
    let mut body = [0; 44];
    put_array(&mut body, 0, &Match::any().encode());
    put_u8(&mut body, 40, ALL_TABLES);
    put_array(&mut body, 41, &[0]);
    put_u16(&mut body, 42, ports::NONE);
    body
}

/// Returns the request of all flows.
#[tactic(auto, unfolding(of_wire::specs::Spelling::message_size))]
fn flows_request(alloc: Global, xid: Xid) -> Result<ByteList, AllocError>
    ensures bytes { IfOk result (λ b. b ≡ flows_request xid) }
    ensures read { IfOk result (λ b. IsOk (reading_of b)) }
{
    let body = ByteList::from_slice(alloc, &all_flows())?;
    let request = Stats {
        kind: stats::FLOW,
        flags: 0,
        body,
    };
    encode(alloc, xid, &Message::StatsRequest(request))
}

/// Asks a switch for the rows of all its flows, from this transaction id on.
fn request_rows<W: World>(
    world: &mut W,
    alloc: Global,
    buf: &mut [u8],
    kept: &mut MessageQueue,
    dpid: Dpid,
    xid: Xid,
) -> Result<RowList, Halt>
    requires { most_message ≤ length buf.old }
    ensures asks { AsksFrom W.Tells dpid xid (W.seen world.old) (W.seen world.new) kept.old kept.new result }
    ensures parted { W.CanPart → IfErr result IsPlainHalt }
{
    let awaited = asked(dpid, xid);
    let request = flows_request(alloc, xid)?;
    let mut came = MessageQueue::new(alloc)?;
    ask(world, alloc, buf, &mut came, &awaited, request.as_slice())?;
    let replies = sort_out(alloc, came, kept, xid)?;
    match read_replies(alloc, dpid, request, awaited.barrier, replies) {
        Ok(rows) => Ok(rows),
        Err(fault) => Err(part_or_fail(world, dpid, fault)),
    }
}

impl Net {
    /// Asks a switch for the rows of all its flows, behind a barrier. There are none where it was lost meanwhile. Where the
    /// world can part with switches, one whose answer is at fault is parted with, and is lost.
    ///
    /// `SwitchBroke` has the part that is at fault, or the last one where the whole spells no rows. `Diverged` has the
    /// request and the ERROR that answered it, or the reply to the barrier where nothing did.
    pub fn rows<W: World>(&mut self, world: &mut W, dpid: Dpid) -> Result<Option<RowList>, TxnFault>
        requires { IsSome (rows_at dpid self.old.views) }
        ensures asks { Asks W.Tells dpid (W.seen world.old) (W.seen world.new) self.old self.new result }

        // Where the world keeps its word and nothing of the switch waited, the rows are the switch's own, and all else stays; a
        // fault is one of memory, or its own rows have no spelling.
        ensures in_step { AskSteps W.Tells dpid (W.seen world.old) (W.seen world.new) self.old.kept self.new.kept result }

        // Where its switches can be parted with, a fault is one of memory.
        ensures parted { W.CanPart → IfErr result IsPlain }
    {
        let xid = self.xid;
        self.xid = following(following(xid));
        match request_rows(world, self.alloc, &mut self.buf, &mut self.kept, dpid, xid) {
            Ok(rows) => Ok(Some(rows)),
            Err(Halt::Lost) => {
                self.lose(dpid);
                Ok(None)
            }
            Err(Halt::Fault(fault)) => Err(fault),
        }
    }
}
