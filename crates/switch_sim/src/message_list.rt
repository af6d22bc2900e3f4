//! A list of whole messages.

ghost use Rattle.std.specs.Prelude.{◌≡◌, ◌↔◌, [], ◌∷◌, length, IsTrue, IfOk};
ghost use Rattle.std.specs.Slice.Iter.{iter_rest};
ghost use Rattle.switch_sim.specs.Readable.{IsReadable, AreReadable};

use of_types::ByteList;
use std::alloc::{AllocError, Global};
use std::cmp::{Eq, PartialEq};
use std::marker::Model;
use std::slice;

/// Messages as bytes, each with its header, in the order in which they are sent. Contracts see the list of lists of
/// their bytes.
#[derive(Drop, Debug, Clone)]
pub struct MessageList {
    messages: Vec<ByteList>,
}

impl Model for MessageList {
    ghost use Rattle.std.specs.Prelude.{List, ℕ};

    ghost Value = { List (List ℕ) };

    ghost view = { λ s. s.messages.items };
}

impl MessageList {
    /// Makes an empty list; takes no memory.
    pub fn new(alloc: Global) -> MessageList
        ensures { result ≡ [] }
    {
        MessageList {
            messages: Vec::new(alloc),
        }
    }

    /// Returns a list of one message.
    pub(crate) fn one(alloc: Global, message: ByteList) -> Result<MessageList, AllocError>
        ensures one { IfOk result (λ list. list ≡ message ∷ []) }
        ensures readable { IsReadable message → IfOk result AreReadable }
    {
        let mut messages = Vec::new(alloc);
        messages.push(message)?;
        Ok(MessageList { messages })
    }

    /// Makes a vector into the list of its messages; takes no memory.
    pub fn from_vec(messages: Vec<ByteList>) -> MessageList
        ensures { result ≡ messages.items }
    {
        MessageList { messages }
    }

    /// Gives the vector back; takes no memory.
    pub fn into_vec(self) -> Vec<ByteList>
        ensures { result.items ≡ self }
    {
        self.messages
    }

    /// Lends the messages as a slice.
    pub fn as_slice(&self) -> &[ByteList]
        ensures { result.now ≡ self.now }
    {
        self.messages.as_slice()
    }

    /// Goes over the messages, from the first to the last.
    pub fn iter(&self) -> slice::Iter<'_, ByteList>
        ensures { iter_rest result ≡ self.now }
    {
        self.messages.iter()
    }

    /// Counts the messages.
    pub fn len(&self) -> usize
        ensures { result ≡ length self.now }
    {
        self.messages.len()
    }

    /// Tells whether there are no messages.
    pub fn is_empty(&self) -> bool
        ensures { IsTrue result ↔ (self.now ≡ []) }
    {
        self.messages.is_empty()
    }
}

impl PartialEq for MessageList {
    ghost use Rattle.std.specs.Cmp.Lexicographic.{pointwise, lists_per};
    ghost use Rattle.of_types.specs.contracts.byte_list.ByteListPartialEq.TheImpl.Laws.{laws-law};

    ghost eq = { λ x y. pointwise ⟦<ByteList as PartialEq>⟧.eq x y };

    ghost laws = { lists_per laws-law };

    fn eq(&self, other: &MessageList) -> bool {
        self.messages == other.messages
    }
}

impl Eq for MessageList {
    ghost use Rattle.std.specs.Cmp.Lexicographic.{lists_equiv};
    ghost use Rattle.of_types.specs.contracts.byte_list.ByteListEq.TheImpl.Laws.{laws-law};

    ghost laws = { lists_equiv laws-law };
}
