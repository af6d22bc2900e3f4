//! The messages of a switch that wait.

ghost use Rattle.std.specs.Prelude.{◌≡◌, ◌+◌, ◌-◌, ◌<◌, ◌≤◌, ◌==◌, ◌++◌, ◌∷◌, [], length, take, IfNone, IfSome, OnOk};
ghost use Rattle.std.specs.VecDeque.{deque_len, deque_capacity};
ghost use Rattle.sim_world.specs.LinkWaits.{all_of, AreFilled};
ghost use Rattle.switch_sim.specs.Readable.{AreShort};

use of_types::ByteList;
use std::alloc::{AllocError, Global};
use std::collections::VecDeque;
use std::marker::Model;
use switch_sim::MessageList;

/// The messages of a switch that wait, oldest first, each of at most 65,535 bytes.
///
/// They are kept in the batches in which the switch sent them, so that a batch is added in constant time and, where
/// room was made for it, takes no memory. Contracts see the messages, and for how many batches more there is room.
#[derive(Drop, Debug)]
pub struct Waits {
    current: VecDeque<ByteList>,
    later: VecDeque<MessageList>,
}

impl Model for Waits {
    ghost use Rattle.std.specs.Prelude.{◌-◌};
    ghost use Rattle.std.specs.VecDeque.{deque_len, deque_capacity};
    ghost use Rattle.sim_world.specs.LinkWaits.{Waiting, all_of, AreWaits};

    ghost Value = { Waiting };

    ghost view = { λ s. record {
      messages = all_of s.current.items s.later.items;
      room = deque_capacity s.later - deque_len s.later;
    } };

    ghost invariant = { λ s. AreWaits s.current.items s.later.items };
}

/// Goes on to the next batch, where no message of the one at hand is left.
fn go_on(current: &mut VecDeque<ByteList>, later: &mut VecDeque<MessageList>)
    requires { AreFilled later.old.items }
    ensures same { all_of current.new.items later.new.items ≡ all_of current.old.items later.old.items }
    ensures filled { AreFilled later.new.items }
    ensures over { deque_len current.new ≡ 0 → deque_len later.new ≡ 0 }
{
    if current.is_empty() {
        if let Some(batch) = later.pop_front() {
            *current = VecDeque::from_vec(batch.into_vec());
        }
    }
}

/// Takes the oldest message out.
fn take_next(
    current: &mut VecDeque<ByteList>,
    later: &mut VecDeque<MessageList>,
) -> Option<ByteList>
    requires { AreFilled later.old.items }
    ensures some { IfSome result (λ message. all_of current.old.items later.old.items ≡ message ∷ all_of current.new.items later.new.items) }
    ensures none { IfNone result ((all_of current.old.items later.old.items ≡ []) × (all_of current.new.items later.new.items ≡ [])) }
    ensures filled { AreFilled later.new.items }
{
    go_on(current, later);
    current.pop_front()
}

/// Copies a message to the front of a buffer that is at least as long, and answers its length.
pub(crate) fn copy_to_front(message: &[u8], buf: &mut [u8]) -> usize
    requires { length message.now ≤ length buf.old }
    ensures count { result ≡ length message.now }
    ensures front { take result buf.new ≡ message.now }
{
    let count = message.len();
    buf[..count].copy_from_slice(message);
    count
}

impl Waits {
    /// Returns a list of no messages; takes no memory.
    pub fn new(alloc: Global) -> Waits
        ensures { result.messages ≡ [] }
    {
        Waits {
            current: VecDeque::new(alloc),
            later: VecDeque::new(alloc),
        }
    }

    /// Tells whether no message waits; takes no memory.
    pub fn is_empty(&self) -> bool
        ensures { result ≡ (length self.now.messages == 0) }
    {
        self.current.is_empty() && self.later.is_empty()
    }

    /// Makes room for one batch more. The messages stay.
    pub fn reserve_batch(&mut self) -> Result<(), AllocError>
        ensures messages { self.new.messages ≡ self.old.messages }
        ensures room { OnOk result (0 < self.new.room) }
    {
        self.later.reserve(1)
    }

    /// Adds a batch behind what waits; takes no memory. There is room for it.
    pub fn push_batch(&mut self, batch: MessageList)
        requires room { 0 < self.old.room }
        requires short { AreShort batch }
        ensures { self.new.messages ≡ self.old.messages ++ batch }
    {
        if !batch.is_empty() {
            self.later.push_back_reserved(batch);
        }
    }

    /// Takes the oldest message out; takes no memory.
    pub fn take(&mut self) -> Option<ByteList>
        ensures some { IfSome result (λ message. self.old.messages ≡ message ∷ self.new.messages) }
        ensures len { IfSome result (λ message. length message ≤ 65535) }
        ensures none { IfNone result ((self.old.messages ≡ []) × (self.new.messages ≡ [])) }
    {
        let message = take_next(&mut self.current, &mut self.later)?;
        Some(message)
    }

    /// Lets all messages go; takes no memory.
    pub fn clear(&mut self)
        ensures { self.new.messages ≡ [] }
    {
        self.current.clear();
        self.later.clear();
    }
}
