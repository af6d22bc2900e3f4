//! What an application's owner sees of a table.

ghost use Rattle.std.specs.Prelude.{◌≡◌, ◌↔◌, ◌+◌, ◌-◌, ◌<◌, ◌≤◌, [], length, set, vec_capacity, IsTrue, OnOk};
ghost use Rattle.std.specs.List.{insert, remove};
ghost use Rattle.std.specs.Slice.Iter.{iter_rest};
ghost use Rattle.flow_table.specs.ViewRows.{KeepsRoom};

use of_action::ActionList;
use of_match::Key;
use of_types::Dpid;
use std::alloc::{AllocError, Global};
use std::cmp::{Eq, PartialEq};
use std::marker::Model;
use std::slice;

/// A flow entry as it was asked for: without counters and moments. Timeouts are in seconds.
#[derive(Drop, Debug, Clone, PartialEq, Eq)]
pub struct ViewRow {
    /// The entry's priority and match.
    pub key: Key,
    /// What is done to a packet that hits the entry.
    pub actions: ActionList,
    /// The application's own mark.
    pub cookie: u64,
    /// Seconds without a hit after which the entry goes; 0: never.
    pub idle: u16,
    /// Seconds after which the entry goes; 0: never.
    pub hard: u16,
    /// The flags that the application gave.
    pub flags: u16,
}

/// Rows in key order, each key once. Contracts see the list of them, and how many rows more there is room for.
#[derive(Drop, Debug, Clone)]
pub struct ViewList {
    rows: Vec<ViewRow>,
}

/// The table of one switch as applications see it.
#[derive(Drop, Debug, Clone, PartialEq, Eq)]
pub struct TableView {
    /// The switch's number.
    pub dpid: Dpid,
    /// Its entries.
    pub rows: ViewList,
}

impl Model for ViewList {
    ghost use Rattle.std.specs.Prelude.{◌-◌, length, vec_capacity};
    ghost use Rattle.flow_table.specs.ViewRows.{ViewRows};

    ghost Value = { ViewRows };

    ghost view = { λ s. record { rows = s.rows.items; spare = vec_capacity s.rows - length s.rows.items } };
}

impl ViewList {
    /// Makes an empty list; takes no memory.
    pub fn new(alloc: Global) -> ViewList
        ensures { result.rows ≡ [] }
    {
        ViewList {
            rows: Vec::new(alloc),
        }
    }

    /// Makes a vector into the list of its rows; takes no memory.
    pub fn from_vec(rows: Vec<ViewRow>) -> ViewList
        ensures rows { result.rows ≡ rows.items }
        ensures room { length result.rows + result.spare ≡ vec_capacity rows }
    {
        ViewList { rows }
    }

    /// Gives the vector back; takes no memory.
    pub fn into_vec(self) -> Vec<ViewRow>
        ensures rows { result.items ≡ self.rows }
        ensures room { vec_capacity result ≡ length self.rows + self.spare }
    {
        self.rows
    }

    /// Lends the rows as a slice.
    pub fn as_slice(&self) -> &[ViewRow]
        ensures { result.now ≡ self.now.rows }
    {
        self.rows.as_slice()
    }

    /// Goes over the rows, from the first to the last.
    pub fn iter(&self) -> slice::Iter<'_, ViewRow>
        ensures { iter_rest result ≡ self.now.rows }
    {
        self.rows.iter()
    }

    /// Counts the rows.
    pub fn len(&self) -> usize
        ensures { result ≡ length self.now.rows }
    {
        self.rows.len()
    }

    /// Tells whether there are no rows.
    pub fn is_empty(&self) -> bool
        ensures { IsTrue result ↔ (self.now.rows ≡ []) }
    {
        self.rows.is_empty()
    }

    /// Makes room for so many rows more.
    pub fn reserve(&mut self, more: usize) -> Result<(), AllocError>
        ensures rows { self.new.rows ≡ self.old.rows }
        ensures reserved { OnOk result (more ≤ self.new.spare) }
        ensures room { KeepsRoom self.old self.new }
    {
        self.rows.reserve(more)
    }

    /// Puts a row before the one at a place, or behind the last one; takes no memory. It needs room, which
    /// [`ViewList::reserve`] makes.
    pub fn insert(&mut self, at: usize, row: ViewRow)
        requires at { at ≤ length self.old.rows }
        requires room { 1 ≤ self.old.spare }
        ensures rows { self.new.rows ≡ insert self.old.rows at row }
        ensures room { KeepsRoom self.old self.new }
    {
        self.rows.insert(at, row).unwrap();
    }

    /// Puts a row in place of the one at a place; takes no memory.
    pub fn replace(&mut self, at: usize, row: ViewRow)
        requires { at < length self.old.rows }
        ensures rows { self.new.rows ≡ set self.old.rows at row }
        ensures room { KeepsRoom self.old self.new }
    {
        self.rows[at] = row;
    }

    /// Takes the row at a place out; takes no memory.
    pub fn remove(&mut self, at: usize)
        requires { at < length self.old.rows }
        ensures rows { self.new.rows ≡ remove self.old.rows at }
        ensures room { KeepsRoom self.old self.new }
    {
        self.rows.remove(at);
    }
}

// By the rows alone.
impl PartialEq for ViewList {
    ghost use Rattle.std.specs.Ordering.{on};
    ghost use Rattle.std.specs.Cmp.{on_per};
    ghost use Rattle.std.specs.Cmp.Lexicographic.{pointwise, lists_per};

    ghost eq = { on (λ v. v.rows) (pointwise ⟦<ViewRow as PartialEq>⟧.eq) };

    ghost use Rattle.flow_table.specs.contracts.view.ViewRowPartialEq.TheImpl.Laws.{laws-law};

    ghost laws = { on_per (λ v. v.rows) (lists_per laws-law) };

    fn eq(&self, other: &ViewList) -> bool {
        self.rows == other.rows
    }
}

impl Eq for ViewList {
    ghost use Rattle.std.specs.Cmp.{on_equiv};
    ghost use Rattle.std.specs.Cmp.Lexicographic.{lists_equiv};
    ghost use Rattle.flow_table.specs.contracts.view.ViewRowEq.TheImpl.Laws.{laws-law};

    ghost laws = { on_equiv (λ v. v.rows) (lists_equiv laws-law) };
}
