//! What comes of a request of statistics: which messages answer it, and what rows they spell.

ghost use Rattle.std.specs.Prelude.{◌≡◌, ◌==◌, ℕ, ◌<◌, ◌≤◌, ◌++◌, [], length, take, slice_index_or, All, IfOk, IfErr, OnOk, OnErr, MatchResult};
ghost use Rattle.of_wire.specs.declared.message.Message.TheVariants.{BarrierReply};
ghost use Rattle.of_wire.specs.Spelling.{message_bytes};
ghost use Rattle.of_stats.specs.Parts.{part_at, IsWhole, joined};
ghost use Rattle.app_frames.specs.declared.frame.HostFrame.TheVariants as host;
ghost use Rattle.app_frames.specs.Frames.{HostFits};
ghost use Rattle.lego_model.specs.declared.fault.TxnFault.TheVariants.{SwitchBroke};
ghost use Rattle.net_txn.specs.Asks.{AreRowsOf, IsPartsFault, IsRepliesFault};
ghost use Rattle.net_txn.specs.Queries.{IsRowsTold, IsBodyTold, IsBodyOf, IsFaultOf};
ghost use Rattle.lego_model.specs.BarrierWaits.{refusal_of};
ghost use Rattle.lego_model.specs.FlowQueries.{is_about, part_in, refusal_in, parts_in, refusals_in, other_in, others_in, part_of, all_parts, IsAnswerTo};

use crate::heard::barrier_reply;
use crate::queue::MessageQueue;
use app_frames::Answer;
use lego_model::TxnFault;
use of_stats::{RowList, StatsFault, join_replies, read_flow_rows};
use of_types::{ByteList, Dpid, OfError, Xid, get_u8, get_u16, get_u32, kinds, stats};
use std::alloc::{AllocError, Global};

/// How many bytes the body of a sum has.
const SUM_BYTES: usize = 24;

/// How many bytes of statistics the frame of an answer has room for.
const MOST_BODY: usize = 0xffff_fffb;

/// The messages that answer a request: the parts of its reply, and the ERRORs.
#[derive(Drop, Debug)]
pub(crate) struct Replies {
    pub parts: Vec<ByteList>,
    pub refusals: Vec<ByteList>,
}

/// Tells whether a message has this transaction id and this type, one of those that have 12 bytes at least.
#[tactic(auto, unfolding(lego_model::specs::FlowQueries::is_about))]
fn is_about(xid: Xid, kind: u8, message: &[u8]) -> bool
    ensures { result ≡ is_about xid kind message.now }
{
    message.len() >= 12 && get_u32(message, 4) == xid && get_u8(message, 1) == kind
}

/// Puts a message to those that it is one of.
fn sort_one(
    replies: &mut Replies,
    kept: &mut MessageQueue,
    xid: Xid,
    dpid: Dpid,
    message: ByteList,
) -> Result<(), AllocError>
    ensures parts { OnOk result (replies.new.parts.items ≡ replies.old.parts.items ++ part_in xid (dpid, message)) }
    ensures refusals { OnOk result (replies.new.refusals.items ≡ replies.old.refusals.items ++ refusal_in xid (dpid, message)) }
    ensures kept { OnOk result (kept.new ≡ kept.old ++ other_in xid (dpid, message)) }
    ensures kept_err { OnErr result (kept.new ≡ kept.old) }
{
    let is_part = is_about(xid, kinds::STATS_REPLY, message.as_slice());
    let is_refusal = is_about(xid, kinds::ERROR, message.as_slice());
    if is_part {
        replies.parts.push(message)?;
    } else if is_refusal {
        replies.refusals.push(message)?;
    } else {
        kept.append(dpid, message)?;
    }
    Ok(())
}

/// Sorts the messages that came of a switch: those that do not answer the request of this id are kept.
pub(crate) fn sort_out(
    alloc: Global,
    came: MessageQueue,
    kept: &mut MessageQueue,
    xid: Xid,
) -> Result<Replies, AllocError>
    ensures parts { IfOk result (λ r. r.parts.items ≡ parts_in xid came) }
    ensures refusals { IfOk result (λ r. r.refusals.items ≡ refusals_in xid came) }
    ensures kept { OnOk result (kept.new ≡ kept.old ++ others_in xid came) }
    ensures kept_err { OnErr result ((n : ℕ) × (kept.new ≡ kept.old ++ others_in xid (take n came))) }
{
    let mut replies = Replies {
        parts: Vec::new(alloc),
        refusals: Vec::new(alloc),
    };
    let messages = came.into_messages()?;
    for (dpid, message) in messages {
        sort_one(&mut replies, kept, xid, dpid, message)?;
    }
    Ok(replies)
}

/// Tells what a STATS_REPLY says: type, flags, body.
#[tactic(auto, unfolding(lego_model::specs::FlowQueries::part_of))]
fn part_of(alloc: Global, message: &[u8]) -> Result<(u16, u16, ByteList), AllocError>
    requires { 12 ≤ length message.now }
    ensures { IfOk result (λ p. p ≡ part_of message.now) }
{
    let body = ByteList::from_slice(alloc, &message[12..])?;
    Ok((get_u16(message, 8), get_u16(message, 10), body))
}

fn all_parts(alloc: Global, messages: &[ByteList]) -> Result<Vec<(u16, u16, ByteList)>, AllocError>
    requires { All (λ b. 12 ≤ length b) messages.now }
    ensures { IfOk result (λ parts. parts.items ≡ all_parts messages.now) }
{
    let mut parts = Vec::new(alloc);
    for message in messages {
        parts.push(part_of(alloc, message.as_slice())?)?;
    }
    Ok(parts)
}

/// Tells whether the parts of a reply, one at least, are of a type.
fn is_of_kind(parts: &[(u16, u16, ByteList)], kind: u16) -> bool
    requires { 0 < length parts.now }
    ensures { result ≡ ((part_at 0 parts.now).0 == kind) }
{
    parts[0].0 == kind
}

/// Returns the fault of a switch whose message at a position is at fault.
fn broke(dpid: Dpid, mut messages: Vec<ByteList>, place: usize) -> TxnFault
    requires { place < length messages.items }
    ensures { result ≡ SwitchBroke dpid (slice_index_or messages.items place []) }
{
    TxnFault::SwitchBroke(dpid, messages.swap_remove(place))
}

/// Returns the rows that the parts of a reply spell.
fn read_parts(alloc: Global, dpid: Dpid, messages: Vec<ByteList>) -> Result<RowList, TxnFault>
    requires some { 0 < length messages.items }
    requires long { All (λ b. 12 ≤ length b) messages.items }
    ensures { MatchResult result (AreRowsOf messages.items) (IsPartsFault 1 dpid messages.items) }
{
    let parts = all_parts(alloc, &messages)?;
    let body = match join_replies(alloc, &parts) {
        Ok(body) => body,
        Err(StatsFault::Bad { place }) => return Err(broke(dpid, messages, place)),
        Err(StatsFault::NoMemory) => return Err(TxnFault::NoMemory),
    };
    if !is_of_kind(&parts, stats::FLOW) {
        return Err(broke(dpid, messages, 0));
    }
    match read_flow_rows(alloc, body.as_slice()) {
        Ok(rows) => Ok(rows),
        Err(StatsFault::Bad { .. }) => {
            let last = messages.len() - 1;
            Err(broke(dpid, messages, last))
        }
        Err(StatsFault::NoMemory) => Err(TxnFault::NoMemory),
    }
}

/// Returns the rows that the messages which answer a request spell. The first ERROR is a refusal, and so is the reply
/// to the barrier where nothing answered.
pub(crate) fn read_replies(
    alloc: Global,
    dpid: Dpid,
    request: ByteList,
    barrier: Xid,
    replies: Replies,
) -> Result<RowList, TxnFault>
    requires { All (λ b. 12 ≤ length b) replies.parts.items }
    ensures rows { IfOk result (AreRowsOf replies.parts.items) }
    ensures no_refusal { OnOk result (replies.refusals.items ≡ []) }
    ensures err { IfErr result (IsRepliesFault dpid request (message_bytes barrier BarrierReply) replies.parts.items replies.refusals.items) }
{
    let Replies {
        parts,
        mut refusals,
    } = replies;
    if !refusals.is_empty() {
        return Err(TxnFault::Diverged(dpid, request, refusals.swap_remove(0)));
    }
    if parts.is_empty() {
        let reply = ByteList::from_slice(alloc, &barrier_reply(barrier))?;
        return Err(TxnFault::Diverged(dpid, request, reply));
    }
    read_parts(alloc, dpid, parts)
}

/// Tells whether bytes spell rows of flows.
fn are_rows(alloc: Global, body: &[u8]) -> Result<bool, AllocError>
    ensures { IfOk result (λ are. IsRowsTold body.now are) }
{
    match read_flow_rows(alloc, body) {
        Ok(_) => Ok(true),
        Err(StatsFault::Bad { .. }) => Ok(false),
        Err(StatsFault::NoMemory) => Err(AllocError),
    }
}

/// Tells whether the body of a reply of a type is as such a one is: rows of flows, or a sum of 24 bytes.
fn is_good(alloc: Global, kind: u16, body: &[u8]) -> Result<bool, AllocError>
    ensures { IfOk result (λ good. IsBodyTold kind body.now good) }
{
    match kind {
        stats::FLOW => are_rows(alloc, body),
        stats::AGGREGATE => Ok(body.len() == SUM_BYTES),
        _ => Ok(true),
    }
}

/// Gives the body of a whole reply of a type, where it is as such a one is.
fn checked(
    alloc: Global,
    dpid: Dpid,
    kind: u16,
    messages: Vec<ByteList>,
    body: ByteList,
) -> Result<ByteList, TxnFault>
    requires some { 0 < length messages.items }
    requires whole { IsWhole (all_parts messages.items) }
    requires kind_is { (part_at 0 (all_parts messages.items)).0 ≡ kind }
    requires body { body ≡ joined (all_parts messages.items) }
    ensures { MatchResult result (IsBodyOf kind messages.items) (IsPartsFault kind dpid messages.items) }
{
    match is_good(alloc, kind, body.as_slice()) {
        Ok(true) => Ok(body),
        Ok(false) => {
            let last = messages.len() - 1;
            Err(broke(dpid, messages, last))
        }
        Err(_) => Err(TxnFault::NoMemory),
    }
}

/// Joins the parts of a reply of a type, one at least, to one body.
fn join_parts(
    alloc: Global,
    dpid: Dpid,
    kind: u16,
    messages: Vec<ByteList>,
) -> Result<ByteList, TxnFault>
    requires some { 0 < length messages.items }
    requires long { All (λ b. 12 ≤ length b) messages.items }
    ensures { MatchResult result (IsBodyOf kind messages.items) (IsPartsFault kind dpid messages.items) }
{
    let parts = all_parts(alloc, &messages)?;
    let body = match join_replies(alloc, &parts) {
        Ok(body) => body,
        Err(StatsFault::Bad { place }) => return Err(broke(dpid, messages, place)),
        Err(StatsFault::NoMemory) => return Err(TxnFault::NoMemory),
    };
    if !is_of_kind(&parts, kind) {
        return Err(broke(dpid, messages, 0));
    }
    checked(alloc, dpid, kind, messages, body)
}

/// Returns the error that the first ERROR among the messages that answer a request tells.
fn error_told(refusals: &[ByteList]) -> OfError
    requires some { 0 < length refusals.now }
    requires long { All (λ b. 12 ≤ length b) refusals.now }
    ensures { result ≡ (refusal_of (slice_index_or refusals.now 0 [])).error }
{
    let refusal = refusals[0].as_slice();
    OfError {
        kind: get_u16(refusal, 8),
        code: get_u16(refusal, 10),
    }
}

/// Returns what an application is answered that asked for statistics of a type, by the messages that came for it: the first
/// ERROR, or the bodies of all parts. The reply to the barrier is a fault where nothing answered.
pub(crate) fn answer_replies(
    alloc: Global,
    dpid: Dpid,
    kind: u16,
    request: ByteList,
    barrier: Xid,
    replies: Replies,
) -> Result<Answer, TxnFault>
    requires parts { All (λ b. 12 ≤ length b) replies.parts.items }
    requires refusals { All (λ b. 12 ≤ length b) replies.refusals.items }
    ensures answer { IfOk result (IsAnswerTo kind replies.refusals.items replies.parts.items) }
    ensures fits { IfOk result (λ answer. HostFits (host.Answer answer)) }
    ensures err { IfErr result (IsFaultOf kind dpid request (message_bytes barrier BarrierReply) replies.parts.items replies.refusals.items) }
{
    let Replies { parts, refusals } = replies;
    if !refusals.is_empty() {
        return Ok(Answer::Error(error_told(&refusals)));
    }
    if parts.is_empty() {
        let reply = ByteList::from_slice(alloc, &barrier_reply(barrier))?;
        return Err(TxnFault::Diverged(dpid, request, reply));
    }
    let body = join_parts(alloc, dpid, kind, parts)?;
    if body.len() > MOST_BODY {
        return Err(TxnFault::NoMemory);
    }
    Ok(Answer::Statistics(kind, body))
}
