//! A store of fixed size for messages that are kept where no memory may be taken.

ghost use Rattle.std.specs.Prelude.{◌≡◌, ◌==◌, ◌≤◌, ◌<◌, ◌+◌, vec_capacity, ◌&&◌, not, nat_lt, nat_le, [], ◌∷◌, ◌++◌, length, filter, IfOk, if◌then◌else◌};
ghost use Rattle.lego_model.specs.KeptMessages.{fits};
ghost use Rattle.net_txn.specs.MessageStore.{messages_in, sizes};

use of_types::{ByteList, Dpid};
use std::alloc::{AllocError, Global};
use std::collections::VecDeque;
use std::marker::Model;

/// How many bytes the messages have at most, together.
const MOST_BYTES: usize = 1_048_576;

/// How many messages there are at most.
const MOST_MESSAGES: usize = 16_384;

/// Messages, each with its switch, oldest first, in memory that was taken before. Contracts see a list.
#[derive(Drop, Debug)]
pub(crate) struct MessageStore {
    /// The bytes of all messages, one behind the other.
    bytes: Vec<u8>,
    /// The switch of each message, and how many bytes it has.
    entries: Vec<(Dpid, usize)>,
}

impl Model for MessageStore {
    ghost use Rattle.std.specs.Prelude.{◌≡◌, ◌≤◌, List, ℕ, length, vec_capacity};
    ghost use Rattle.net_txn.specs.MessageStore.{messages_in, sizes};

    ghost Value = { List (ℕ × List ℕ) };

    ghost view = { λ s. messages_in s.entries.items s.bytes.items };

    ghost invariant = { λ s. (sizes s.entries.items ≡ length s.bytes.items) × (1048576 ≤ vec_capacity s.bytes) × (16384 ≤ vec_capacity s.entries) };
}

/// Tells whether so many bytes more of one message more fit behind so many bytes of so many messages.
fn has_room(bytes: usize, messages: usize, more: usize) -> bool
    ensures { result ≡ (nat_lt messages 16384 && nat_le (bytes + more) 1048576) }
{
    messages < MOST_MESSAGES && bytes.saturating_add(more) <= MOST_BYTES
}

/// Puts a message behind others, where there is room for it.
#[tactic(auto, using(crate::proofs::MessageStoreSteps::messages_more, crate::proofs::MessageStoreSteps::sizes_more))]
fn put_last(bytes: &mut Vec<u8>, entries: &mut Vec<(Dpid, usize)>, dpid: Dpid, message: &[u8])
    requires room { length bytes.old.items + length message.now ≤ vec_capacity bytes.old }
    requires more { length entries.old.items < vec_capacity entries.old }
    requires sizes { sizes entries.old.items ≡ length bytes.old.items }
    ensures messages { messages_in entries.new.items bytes.new.items ≡ messages_in entries.old.items bytes.old.items ++ (dpid, message.now) ∷ [] }
    ensures sizes { sizes entries.new.items ≡ length bytes.new.items }
    ensures bytes { vec_capacity bytes.old ≤ vec_capacity bytes.new }
    ensures entries { vec_capacity entries.old ≤ vec_capacity entries.new }
{
    bytes.extend_from_slice(message).unwrap();
    entries.push((dpid, message.len())).unwrap();
}

/// Moves the bytes of the messages of other switches together.
fn close_gaps(bytes: &mut Vec<u8>, entries: &[(Dpid, usize)], dpid: Dpid)
    requires { sizes entries.now ≡ length bytes.old.items }
    ensures messages { messages_in (filter (λ e. not (e.0 == dpid)) entries.now) bytes.new.items ≡ filter (λ m. not (m.0 == dpid)) (messages_in entries.now bytes.old.items) }
    ensures sizes { sizes (filter (λ e. not (e.0 == dpid)) entries.now) ≡ length bytes.new.items }
    ensures capacity { vec_capacity bytes.old ≤ vec_capacity bytes.new }
{
    let mut at = 0;
    let mut to = 0;
    for (of, len) in entries {
        if *of != dpid {
            bytes.copy_within(at..at + *len, to);
            to += *len;
        }
        at += *len;
    }
    bytes.truncate(to);
}

fn forget_entries(entries: &mut Vec<(Dpid, usize)>, dpid: Dpid)
    ensures entries { entries.new.items ≡ filter (λ e. not (e.0 == dpid)) entries.old.items }
    ensures capacity { vec_capacity entries.old ≤ vec_capacity entries.new }
{
    entries.retain(|entry| entry.0 != dpid);
}

impl MessageStore {
    /// Returns a store with no messages, with room for 1,048,576 bytes of 16,384 messages.
    pub(crate) fn new(alloc: Global) -> Result<MessageStore, AllocError>
        ensures { IfOk result (λ p. p ≡ []) }
    {
        Ok(MessageStore {
            bytes: Vec::with_capacity(alloc, MOST_BYTES)?,
            entries: Vec::with_capacity(alloc, MOST_MESSAGES)?,
        })
    }

    /// Keeps a message where it fits, else drops it; takes no memory.
    #[tactic(auto, using(crate::proofs::MessageStoreSteps::fits_counted))]
    pub(crate) fn keep_or_drop(&mut self, dpid: Dpid, message: &[u8])
        ensures { self.new ≡ (if fits self.old message.now then self.old ++ (dpid, message.now) ∷ [] else self.old) }
    {
        let len = message.len();
        if has_room(self.bytes.len(), self.entries.len(), len) {
            put_last(&mut self.bytes, &mut self.entries, dpid, message);
        }
    }

    /// Returns copies of the messages.
    pub(crate) fn copies(&self, alloc: Global) -> Result<VecDeque<(Dpid, ByteList)>, AllocError>
        ensures { IfOk result (λ q. q.items ≡ self.now) }
    {
        copies_of(alloc, &self.bytes, &self.entries)
    }

    /// Drops the messages of a switch; takes no memory.
    pub(crate) fn forget(&mut self, dpid: Dpid)
        ensures { self.new ≡ filter (λ m. not (m.0 == dpid)) self.old }
    {
        close_gaps(&mut self.bytes, &self.entries, dpid);
        forget_entries(&mut self.entries, dpid);
    }

    /// Drops all messages; takes no memory.
    pub(crate) fn clear(&mut self)
        ensures { self.new ≡ [] }
    {
        self.bytes.clear();
        self.entries.clear();
    }
}

/// Returns copies of the messages that stand one behind the other in bytes.
#[tactic(auto, using(crate::proofs::MessageStoreSteps::within))]
fn copies_of(
    alloc: Global,
    bytes: &[u8],
    entries: &[(Dpid, usize)],
) -> Result<VecDeque<(Dpid, ByteList)>, AllocError>
    requires { sizes entries.now ≡ length bytes.now }
    ensures { IfOk result (λ q. q.items ≡ messages_in entries.now bytes.now) }
{
    let mut copies = VecDeque::new(alloc);
    let mut at = 0;
    for (dpid, len) in entries {
        let end = at + *len;
        let message = ByteList::from_slice(alloc, &bytes[at..end])?;
        copies.push_back((*dpid, message))?;
        at = end;
    }
    Ok(copies)
}
