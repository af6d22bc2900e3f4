//! Notices of deletions that may be of an earlier entry than the one that the host knows.

ghost use Rattle.std.specs.Prelude.{◌≡◌, IsOk, IsSome, IfOk, IfErr};
ghost use Rattle.of_wire.specs.Reading.{reading_of};
ghost use Rattle.net_txn.specs.Asks.{IsAsked};
ghost use Rattle.net_txn.specs.Causes.{IsPlain};
ghost use Rattle.net_txn.specs.Views.{rows_at};
ghost use Rattle.net_txn.specs.Settling.{doubted_in, doubted, key_flows, key_query, has_row, shows_gone, ArrivesOrSettles, Settles};

use crate::message_event::removed_key;
use crate::net::Net;
use crate::row_request::ALL_TABLES;
use crate::rows::is_same;
use crate::view_table::ViewTable;
use app_frames::{Answer, Event};
use lego_model::TxnFault;
use of_match::Key;
use of_stats::{FlowRow, StatsFault, read_flow_rows};
use of_types::{ByteList, Dpid, flows, ports, put_array, put_u8, put_u16, stats};
use of_wire::{Message, Stats, WireFault, decode};
use outside::World;
use std::alloc::{AllocError, Global};

/// Returns the key of the entry that a message says was deleted, where a row of the switch has it.
fn doubted_in(views: &ViewTable, dpid: Dpid, message: &Message) -> Option<Key>
    ensures { result ≡ doubted_in dpid views.now message.now }
{
    let Message::FlowRemoved(flow) = message else {
        return None;
    };
    let key = removed_key(flow);
    if flow.reason == flows::DELETED && views.is_row(dpid, &key) {
        Some(key)
    } else {
        None
    }
}

/// Returns the body of a request of the flows that the match of a key subsumes, in all tables, whatever their outputs.
#[tactic(auto, unfolding(crate::specs::Settling::key_flows))]
fn key_flows(key: &Key) -> [u8; 44]
    ensures { result ≡ key_flows key.now }
{
    let mut body = [0; 44];
    put_array(&mut body, 0, &key.matching.encode());
    put_u8(&mut body, 40, ALL_TABLES);
    put_array(&mut body, 41, &[0]);
    put_u16(&mut body, 42, ports::NONE);
    body
}

/// Returns the request of these flows.
fn key_query(alloc: Global, key: &Key) -> Result<Stats, AllocError>
    ensures query { IfOk result (λ q. q ≡ key_query key.now) }
    ensures asked { IfOk result IsAsked }
{
    Ok(Stats {
        kind: stats::FLOW,
        flags: 0,
        body: ByteList::from_slice(alloc, &key_flows(key))?,
    })
}

/// Tells whether one of these rows has the key.
fn has_row(rows: &[FlowRow], key: &Key) -> bool
    ensures { result ≡ has_row key.now rows.now }
{
    rows.iter().any(|row| is_same(&row.key, key))
}

/// Tells whether an answer is rows none of which has the key.
fn shows_gone(alloc: Global, key: &Key, answer: &Answer) -> Result<bool, AllocError>
    ensures { IfOk result (λ gone. gone ≡ shows_gone key.now answer.now) }
{
    let Answer::Statistics(_, body) = answer else {
        return Ok(false);
    };
    match read_flow_rows(alloc, body.as_slice()) {
        Ok(rows) => Ok(!has_row(rows.as_slice(), key)),
        Err(StatsFault::Bad { .. }) => Ok(false),
        Err(StatsFault::NoMemory) => Err(AllocError),
    }
}

impl Net {
    /// Asks a switch for the rows of the key that a notice names, and takes the notice in where none of them has it.
    #[tactic(auto, using(crate::specs::laws::SettleLaws::still_joined, crate::specs::laws::SettleLaws::plain_arrival))]
    fn settle_doubt<W: World>(
        &mut self,
        world: &mut W,
        dpid: Dpid,
        frame: &[u8],
        key: &Key,
    ) -> Result<Option<Event>, TxnFault>
        requires { IsSome (rows_at dpid self.old.views) }
        ensures settles { Settles W.Tells dpid frame.now key.now (W.seen world.old) (W.seen world.new) self.old self.new result }
        ensures parted { W.CanPart → IsOk (reading_of frame.now) → IfErr result IsPlain }
    {
        let query = key_query(self.alloc, key)?;
        let answer = self.query_or_lose(world, dpid, query)?;
        if shows_gone(self.alloc, key, &answer)? {
            self.arrived(world, dpid, frame)
        } else {
            Ok(None)
        }
    }

    /// Takes in a message that came from a switch, as `arrived` does, but for a FLOW_REMOVED that says that an entry was
    /// deleted whose key a row has. It may come late, of an entry that stood before this one; so the switch is asked for the
    /// rows of the key, behind a barrier, and the notice is taken in only where none of them has it. Else it is dropped: it
    /// makes no event, and the row stays. An ERROR in place of the rows drops it too.
    ///
    /// Where the switch is lost meanwhile there is no event. A fault of the answer is told as that of an application's
    /// request of statistics.
    #[tactic(auto, using(crate::specs::laws::SettleLaws::short_settles))]
    pub fn settle<W: World>(
        &mut self,
        world: &mut W,
        dpid: Dpid,
        frame: &[u8],
    ) -> Result<Option<Event>, TxnFault>
        requires { IsSome (rows_at dpid self.old.views) }
        ensures settles { ArrivesOrSettles W.Tells dpid frame.now (doubted dpid self.old.views (reading_of frame.now)) (W.seen world.old) (W.seen world.new) self.old self.new result }

        // Where its switches can be parted with, a fault is one of memory, unless the bytes are no message.
        ensures parted { W.CanPart → IsOk (reading_of frame.now) → IfErr result IsPlain }
    {
        match decode(self.alloc, frame) {
            Ok(envelope) => match doubted_in(&self.views, dpid, &envelope.message) {
                None => self.take_or_lose(world, dpid, envelope.xid, &envelope.message),
                Some(key) => self.settle_doubt(world, dpid, frame, &key),
            },
            Err(WireFault::NoMemory) => Err(TxnFault::NoMemory),
            Err(_) => self.arrived(world, dpid, frame),
        }
    }
}
