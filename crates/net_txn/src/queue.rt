//! Events, and messages of switches, in the order in which they came.

ghost use Rattle.std.specs.Prelude.{◌≡◌, ◌==◌, ◌↔◌, not, filter, [], ◌∷◌, ◌++◌, drop, length, slice_get, IsTrue, IfOk, IfErr, OnOk, OnErr};
ghost use Rattle.net_txn.specs.MessageStore.{KeptWhereFit};
ghost use Rattle.net_txn.specs.declared.queue.Storage.TheVariants.{Growing};
ghost use Rattle.net_txn.specs.Said.{KeptAs};

use crate::message_store::MessageStore;
use crate::trouble::Trouble;
use app_frames::Event;
use of_types::{ByteList, Dpid};
use std::alloc::{AllocError, Global};
use std::collections::VecDeque;
use std::marker::Model;
use std::mem::replace;

/// Events that wait to be dispatched, first in first out. Contracts see a list.
#[derive(Drop, Debug)]
pub struct EventQueue {
    events: VecDeque<Event>,
}

impl Model for EventQueue {
    ghost use Rattle.std.specs.Prelude.{List};
    ghost use Rattle.app_frames.specs.declared.frame.Event.{Event};

    ghost Value = { List Event };

    ghost view = { λ s. s.events.items };
}

impl EventQueue {
    /// Returns no events; takes no memory.
    pub fn new(alloc: Global) -> EventQueue
        ensures { result ≡ [] }
    {
        EventQueue {
            events: VecDeque::new(alloc),
        }
    }

    /// Appends an event.
    pub fn push(&mut self, event: Event) -> Result<(), AllocError>
        ensures ok { OnOk result (self.new ≡ self.old ++ event ∷ []) }
        ensures err { OnErr result (self.new ≡ self.old) }
    {
        self.events.push_back(event)?;
        Ok(())
    }

    /// Appends all events of another queue, of which none is left. Where memory is wanting both stay.
    pub(crate) fn append(&mut self, other: &mut EventQueue) -> Result<(), AllocError>
        ensures ok { OnOk result (self.new ≡ self.old ++ other.old) }
        ensures emptied { OnOk result (other.new ≡ []) }
        ensures err { OnErr result (self.new ≡ self.old) }
        ensures left { OnErr result (other.new ≡ other.old) }
    {
        self.events.append(&mut other.events)?;
        Ok(())
    }

    /// Drops all events; takes no memory.
    pub(crate) fn clear(&mut self)
        ensures { self.new ≡ [] }
    {
        self.events.clear();
    }

    /// Tells how many events wait; takes no memory.
    pub fn len(&self) -> usize
        ensures { result ≡ length self.now }
    {
        self.events.len()
    }

    /// Tells whether no event waits.
    pub fn is_empty(&self) -> bool
        ensures { IsTrue result ↔ (self.now ≡ []) }
    {
        self.events.is_empty()
    }

    /// Takes the oldest event out; takes no memory.
    pub fn take_first(&mut self) -> Option<Event>
        ensures first { result ≡ slice_get self.old 0 }
        ensures rest { self.new ≡ drop 1 self.old }
    {
        self.events.pop_front()
    }
}

/// Where messages are kept that come while a reply is awaited.
#[derive(Clone, Copy, Debug, PartialEq, Eq)]
pub(crate) enum Storage {
    /// In memory that is taken as they come.
    Growing,
    /// In room that was taken before; one that does not fit is dropped.
    Reserved,
}

/// Messages that switches sent while something else was awaited, each with its switch, first in first out. The
/// newest may stand in a store of fixed size. Contracts see a list.
#[derive(Drop, Debug)]
pub struct MessageQueue {
    alloc: Global,
    messages: VecDeque<(Dpid, ByteList)>,
    /// What came behind those, while no memory could be taken.
    store: MessageStore,
}

impl Model for MessageQueue {
    ghost use Rattle.std.specs.Prelude.{List, ℕ, ◌++◌};

    ghost Value = { List (ℕ × List ℕ) };

    ghost view = { λ s. s.messages.items ++ s.store };
}

impl MessageQueue {
    /// Returns no messages. It takes the room for those that are kept without memory.
    pub fn new(alloc: Global) -> Result<MessageQueue, AllocError>
        ensures { IfOk result (λ q. q ≡ []) }
    {
        Ok(MessageQueue {
            alloc,
            messages: VecDeque::new(alloc),
            store: MessageStore::new(alloc)?,
        })
    }

    /// Tells where its memory comes from.
    pub(crate) fn allocator(&self) -> Global {
        self.alloc
    }

    /// Appends a copy of a message.
    pub fn push(&mut self, dpid: Dpid, message: &[u8]) -> Result<(), AllocError>
        ensures ok { OnOk result (self.new ≡ self.old ++ (dpid, message.now) ∷ []) }
        ensures err { OnErr result (self.new ≡ self.old) }
    {
        let bytes = ByteList::from_slice(self.alloc, message)?;
        gather(self.alloc, &mut self.messages, &mut self.store)?;
        self.messages.push_back((dpid, bytes))?;
        Ok(())
    }

    /// Appends a message.
    pub fn append(&mut self, dpid: Dpid, message: ByteList) -> Result<(), AllocError>
        ensures ok { OnOk result (self.new ≡ self.old ++ (dpid, message) ∷ []) }
        ensures err { OnErr result (self.new ≡ self.old) }
    {
        gather(self.alloc, &mut self.messages, &mut self.store)?;
        self.messages.push_back((dpid, message))?;
        Ok(())
    }

    /// Drops all messages; takes no memory.
    pub(crate) fn clear(&mut self)
        ensures { self.new ≡ [] }
    {
        self.messages.clear();
        self.store.clear();
    }

    /// Takes all messages out, oldest first.
    pub(crate) fn take_all(&mut self) -> Result<VecDeque<(Dpid, ByteList)>, AllocError>
        ensures { IfOk result (λ messages. messages.items ≡ self.old) }
    {
        gather(self.alloc, &mut self.messages, &mut self.store)?;
        Ok(replace(&mut self.messages, VecDeque::new(self.alloc)))
    }

    /// Returns the messages, oldest first.
    pub(crate) fn into_messages(self) -> Result<VecDeque<(Dpid, ByteList)>, AllocError>
        ensures { IfOk result (λ messages. messages.items ≡ self) }
    {
        let mut queue = self;
        gather(queue.alloc, &mut queue.messages, &mut queue.store)?;
        Ok(queue.messages)
    }

    /// Appends a copy of a message where there is room for it that was taken before, else drops it; takes no memory.
    /// There is room at least where it and all that is kept are at most 16,384 messages of 1,048,576 bytes together.
    pub(crate) fn keep_or_drop(&mut self, dpid: Dpid, message: &[u8])
        ensures { KeptWhereFit self.old ((dpid, message.now) ∷ []) self.new }
    {
        self.store.keep_or_drop(dpid, message);
    }

    /// Keeps a copy of a message. It fails only where memory is taken.
    pub(crate) fn keep(
        &mut self,
        storage: Storage,
        dpid: Dpid,
        message: &[u8],
    ) -> Result<(), Trouble>
        ensures ok { OnOk result (KeptAs storage self.old ((dpid, message.now) ∷ []) self.new) }
        ensures err { OnErr result ((storage ≡ Growing) × (self.new ≡ self.old)) }
        ensures full { IfErr result (λ t. t ≡ Trouble.Full) }
    {
        match storage {
            Storage::Growing => match self.push(dpid, message) {
                Ok(()) => Ok(()),
                Err(_) => Err(Trouble::Full),
            },
            Storage::Reserved => {
                self.keep_or_drop(dpid, message);
                Ok(())
            }
        }
    }

    /// Takes the oldest message out.
    pub fn take_first(&mut self) -> Result<Option<(Dpid, ByteList)>, AllocError>
        ensures first { IfOk result (λ m. m ≡ slice_get self.old 0) }
        ensures rest { OnOk result (self.new ≡ drop 1 self.old) }
        ensures err { OnErr result (self.new ≡ self.old) }
    {
        gather(self.alloc, &mut self.messages, &mut self.store)?;
        Ok(self.messages.pop_front())
    }

    /// Drops the messages of a switch; takes no memory.
    pub fn forget(&mut self, dpid: Dpid)
        ensures { self.new ≡ filter (λ m. not (m.0 == dpid)) self.old }
    {
        forget_of(&mut self.messages, dpid);
        self.store.forget(dpid);
    }
}

/// Moves the messages of a store behind others.
fn gather(
    alloc: Global,
    messages: &mut VecDeque<(Dpid, ByteList)>,
    store: &mut MessageStore,
) -> Result<(), AllocError>
    ensures ok { OnOk result (messages.new.items ≡ messages.old.items ++ store.old) }
    ensures emptied { OnOk result (store.new ≡ []) }
    ensures err { OnErr result (messages.new.items ≡ messages.old.items) }
    ensures left { OnErr result (store.new ≡ store.old) }
{
    let mut copies = store.copies(alloc)?;
    messages.append(&mut copies)?;
    store.clear();
    Ok(())
}

fn forget_of(messages: &mut VecDeque<(Dpid, ByteList)>, dpid: Dpid)
    ensures { messages.new.items ≡ filter (λ m. not (m.0 == dpid)) messages.old.items }
{
    messages.retain(|message| message.0 != dpid);
}
