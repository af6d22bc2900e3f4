//! Packets of the controller that come back: PACKET_INs that a PACKET_OUT makes its switch say.

ghost use Rattle.std.specs.Prelude.{◌≡◌};
ghost use Rattle.std.specs.List.{list_any};
ghost use Rattle.live_world.specs.Returns.{comes_back as comes_back_by};

use of_action::Action;
use of_types::{kinds, ports};
use of_wire::{Message, decode};
use std::alloc::Global;
use std::collections::VecDeque;

/// Which of the messages that are put off came while the barrier behind a packet was awaited that may come back, and tell a packet.
#[derive(Drop)]
pub(crate) struct Returned {
    /// Whether that barrier is awaited.
    pub(crate) is_awaited: bool,
    /// How many messages were put off so far, and how many of them told.
    put_off: u64,
    told: u64,
    /// The numbers of these messages among those that were put off, from 0 on.
    numbers: VecDeque<u64>,
}

/// Tells whether an action may give a packet to the controller: where it goes there, or where no entry of the table takes it.
fn comes_back(action: &Action) -> bool
    ensures { result ≡ comes_back_by action.now }
{
    matches!(
        action,
        Action::Output {
            port: ports::CONTROLLER | ports::TABLE,
            ..
        }
    )
}

/// Tells whether one of these does.
fn any_comes_back(actions: &[Action]) -> bool
    ensures { result ≡ list_any comes_back_by actions.now }
{
    actions.iter().any(|action| comes_back(action))
}

/// Tells whether a message to a switch is a packet that may come back.
pub(crate) fn may_come_back(alloc: Global, frame: &[u8]) -> bool {
    match decode(alloc, frame) {
        Ok(envelope) => match &envelope.message {
            Message::PacketOut(packet) => any_comes_back(packet.actions.as_slice()),
            _ => false,
        },
        Err(_) => false,
    }
}

/// Tells whether a message is of this type.
fn is_of(frame: &[u8], kind: u8) -> bool {
    frame.get(1) == Some(&kind)
}

impl Returned {
    /// Nothing was put off yet; takes no memory.
    pub(crate) fn new(alloc: Global) -> Returned {
        Returned {
            is_awaited: false,
            put_off: 0,
            told: 0,
            numbers: VecDeque::new(alloc),
        }
    }

    /// A packet was sent that may come back.
    pub(crate) fn await_packet(&mut self) {
        self.is_awaited = true;
    }

    /// The switch answered this.
    pub(crate) fn answered(&mut self, reply: &[u8]) {
        self.is_awaited = self.is_awaited && !is_of(reply, kinds::BARRIER_REPLY);
    }

    /// This message was put off behind the others. Where memory is wanting, it is none of these.
    pub(crate) fn put_off(&mut self, message: &[u8]) {
        if self.is_awaited && is_of(message, kinds::PACKET_IN) {
            let _ = self.numbers.push_back(self.put_off);
        }
        self.put_off = self.put_off.wrapping_add(1);
    }

    /// The oldest message that was put off is told. Tells whether it is one of these.
    pub(crate) fn told(&mut self) -> bool {
        let is_one = self.numbers.front() == Some(&self.told);
        if is_one {
            self.numbers.pop_front();
        }
        self.told = self.told.wrapping_add(1);
        is_one
    }
}
