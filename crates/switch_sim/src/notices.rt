//! FLOW_REMOVED messages, which are written after the table has changed, when nothing may fail any more.

ghost use Rattle.std.specs.Prelude.{◌≡◌, ℕ, ◌+◌, ◌≤◌, ◌<◌, ◌&&◌, [], length, map, filter, All, IfOk};
ghost use Rattle.std.specs.Vec.{vec_len, vec_capacity};
ghost use Rattle.of_wire.specs.Spelling.{message_bytes};
ghost use Rattle.flow_table.specs.Change.{asks_notice};
ghost use Rattle.flow_table.specs.Expiry.{is_due};
ghost use Rattle.flow_table.specs.Step.{flow_removed_bytes};
ghost use Rattle.switch_sim.specs.Words.{IsShort};
ghost use Rattle.switch_sim.specs.Readable.{IsReadable, AreReadable};
ghost use Rattle.switch_sim.specs.Sound.{IsEntryAt};
ghost use Rattle.switch_sim.specs.Words.{AreSpares};

use crate::message_list::MessageList;
use crate::reply::flow_removed;
use flow_table::{Entry, Notice};
use flow_timeouts::deadline;
use of_types::{ByteList, flows};
use of_wire::{FlowRemoved, Message, encode_into};
use std::alloc::{AllocError, Global};

/// The length of a FLOW_REMOVED.
const LEN: usize = 88;

/// Room for FLOW_REMOVED messages.
#[derive(Drop)]
pub(crate) struct NoticeRoom {
    buffers: Vec<ByteList>,
    messages: Vec<ByteList>,
}

fn buffer(alloc: Global) -> Result<ByteList, AllocError>
    ensures { IfOk result (λ b. length b ≡ 88) }
{
    Ok(ByteList::from_vec(vec![in alloc; 0; LEN]?))
}

fn buffers(alloc: Global, count: usize) -> Result<Vec<ByteList>, AllocError>
    ensures len { IfOk result (λ bs. vec_len bs ≡ count) }
    ensures each { IfOk result (λ bs. AreSpares bs.items) }
{
    let mut all = Vec::new(alloc);
    for _ in 0..count {
        all.push(buffer(alloc)?)?;
    }
    Ok(all)
}

/// Room for so many messages.
pub(crate) fn make_room(alloc: Global, count: usize) -> Result<NoticeRoom, AllocError>
    ensures len { IfOk result (λ s. vec_len s.buffers ≡ count) }
    ensures each { IfOk result (λ s. AreSpares s.buffers.items) }
    ensures none { IfOk result (λ s. s.messages.items ≡ []) }
    ensures room { IfOk result (λ s. vec_capacity s.messages ≡ count) }
{
    Ok(NoticeRoom {
        buffers: buffers(alloc, count)?,
        messages: Vec::with_capacity(alloc, count)?,
    })
}

fn take(buffers: &mut Vec<ByteList>) -> Vec<u8>
    requires some { 0 < vec_len buffers.old }
    requires each { AreSpares buffers.old.items }
    ensures buffer { length result.items ≡ 88 }
    ensures len { vec_len buffers.new + 1 ≡ vec_len buffers.old }
    ensures each { AreSpares buffers.new.items }
{
    buffers.pop().unwrap().into_vec()
}

#[tactic(auto, unfolding(of_wire::specs::Spelling::message_size))]
fn fill(buffer: Vec<u8>, flow: FlowRemoved) -> ByteList
    requires { length buffer.items ≡ 88 }
    ensures { result ≡ message_bytes 0 (Message.FlowRemoved flow) }
{
    let mut buffer = buffer;
    encode_into(0, &Message::FlowRemoved(flow), buffer.as_mut_slice());
    ByteList::from_vec(buffer)
}

/// Spells a FLOW_REMOVED over all of a buffer, which can be read.
fn spell_removed(buffer: Vec<u8>, flow: FlowRemoved) -> ByteList
    requires { length buffer.items ≡ 88 }
    ensures bytes { result ≡ message_bytes 0 (Message.FlowRemoved flow) }
    ensures readable { IsReadable result }
{
    fill(buffer, flow)
}

#[tactic(auto, unfolding(flow_table::specs::Step::flow_removed_bytes))]
fn write(buffer: Vec<u8>, notice: &Notice) -> ByteList
    requires len { length buffer.items ≡ 88 }
    requires short { IsShort notice.now }
    ensures bytes { result ≡ flow_removed_bytes notice.now }
    ensures readable { IsReadable result }
{
    spell_removed(buffer, flow_removed(notice))
}

/// Writes the FLOW_REMOVED messages of notices, for which there is room.
pub(crate) fn write_all(room: NoticeRoom, notices: &[Notice]) -> MessageList
    requires none { room.messages.items ≡ [] }
    requires len { length notices.now ≤ vec_len room.buffers }
    requires each { AreSpares room.buffers.items }
    requires room { length notices.now ≤ vec_capacity room.messages }
    requires short { All IsShort notices.now }
    ensures messages { result ≡ map flow_removed_bytes notices.now }
    ensures readable { AreReadable result }
{
    let NoticeRoom {
        mut buffers,
        mut messages,
    } = room;
    for notice in notices {
        let buffer = take(&mut buffers);
        messages.push_reserved(write(buffer, notice));
    }
    MessageList::from_vec(messages)
}

/// Tells whether an entry with these flags asks for a notice when it goes.
fn asks(flags: u16) -> bool
    ensures { result ≡ asks_notice flags }
{
    flows::sends_flow_removed(flags)
}

/// Tells whether an entry goes at a moment, not before those at which it was put in and used.
#[tactic(auto, unfolding(flow_table::specs::Expiry::is_due))]
fn is_due(entry: &Entry, now: u64) -> bool
    requires within { now < 4294967296 }
    requires installed { entry.now.installed ≤ now }
    requires used { entry.now.used ≤ now }
    ensures { result ≡ is_due now entry.now }
{
    match deadline(entry.installed, entry.used, entry.idle, entry.hard) {
        None => false,
        Some((moment, _)) => moment <= now,
    }
}

fn is_told_expiry(entry: &Entry, now: u64) -> bool
    requires within { now < 4294967296 }
    requires installed { entry.now.installed ≤ now }
    requires used { entry.now.used ≤ now }
    ensures { result ≡ (is_due now entry.now && asks_notice entry.now.flags) }
{
    is_due(entry, now) && asks(entry.flags)
}

/// Counts how many notices a moment gives.
pub(crate) fn count_due(entries: &[Entry], now: u64) -> usize
    requires within { now < 4294967296 }
    requires each { All (IsEntryAt now) entries.now }
    ensures { result ≡ length (filter (λ e. is_due now e && asks_notice e.flags) entries.now) }
{
    let mut count = 0;
    for entry in entries {
        count += usize::from(is_told_expiry(entry, now));
    }
    count
}
