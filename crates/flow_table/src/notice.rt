//! What a table tells of an entry that goes.

ghost use Rattle.std.specs.Prelude.{◌≡◌, ◌↔◌, [], length, IsTrue};
ghost use Rattle.std.specs.Slice.Iter.{iter_rest};

use crate::entry::Entry;
use std::alloc::Global;
use std::cmp::{Eq, PartialEq};
use std::marker::Model;
use std::slice;

/// An entry that went and asked for a notice (OpenFlow 1.0.0, 5.4.2 Flow Removed Message).
#[derive(Drop, Debug, Clone, PartialEq, Eq)]
pub struct Notice {
    /// The entry as it was.
    pub removed: Entry,
    /// IDLE_TIMEOUT 0, HARD_TIMEOUT 1 or DELETE 2.
    pub reason: u8,
    /// How many whole seconds it stood.
    pub duration: u64,
}

/// Notices in order. Contracts see the list of them.
#[derive(Drop, Debug, Clone)]
pub struct NoticeList {
    notices: Vec<Notice>,
}

impl Model for NoticeList {
    ghost use Rattle.std.specs.Prelude.{List};
    ghost use Rattle.flow_table.specs.declared.notice.Notice.{Notice};

    ghost Value = { List Notice };

    ghost view = { λ s. s.notices.items };
}

impl NoticeList {
    /// Makes an empty list; takes no memory.
    pub fn new(alloc: Global) -> NoticeList
        ensures { result ≡ [] }
    {
        NoticeList {
            notices: Vec::new(alloc),
        }
    }

    /// Makes a vector into the list of its notices; takes no memory.
    pub fn from_vec(notices: Vec<Notice>) -> NoticeList
        ensures { result ≡ notices.items }
    {
        NoticeList { notices }
    }

    /// Gives the vector back; takes no memory.
    pub fn into_vec(self) -> Vec<Notice>
        ensures { result.items ≡ self }
    {
        self.notices
    }

    /// Lends the notices as a slice.
    pub fn as_slice(&self) -> &[Notice]
        ensures { result.now ≡ self.now }
    {
        self.notices.as_slice()
    }

    /// Goes over the notices, from the first to the last.
    pub fn iter(&self) -> slice::Iter<'_, Notice>
        ensures { iter_rest result ≡ self.now }
    {
        self.notices.iter()
    }

    /// Counts the notices.
    pub fn len(&self) -> usize
        ensures { result ≡ length self.now }
    {
        self.notices.len()
    }

    /// Tells whether there are no notices.
    pub fn is_empty(&self) -> bool
        ensures { IsTrue result ↔ (self.now ≡ []) }
    {
        self.notices.is_empty()
    }
}

impl PartialEq for NoticeList {
    ghost use Rattle.std.specs.Cmp.Lexicographic.{pointwise, lists_per};

    ghost eq = { λ x y. pointwise ⟦<Notice as PartialEq>⟧.eq x y };

    ghost use Rattle.flow_table.specs.contracts.notice.NoticePartialEq.TheImpl.Laws.{laws-law};

    ghost laws = { lists_per laws-law };

    fn eq(&self, other: &NoticeList) -> bool {
        self.notices == other.notices
    }
}

impl Eq for NoticeList {
    ghost use Rattle.std.specs.Cmp.Lexicographic.{lists_equiv};
    ghost use Rattle.flow_table.specs.contracts.notice.NoticeEq.TheImpl.Laws.{laws-law};

    ghost laws = { lists_equiv laws-law };
}
