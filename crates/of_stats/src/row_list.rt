//! A list of flow rows.

ghost use Rattle.std.specs.Prelude.{◌≡◌, ◌↔◌, [], length, IsTrue};
ghost use Rattle.std.specs.Slice.Iter.{iter_rest};

use crate::flow_row::FlowRow;
use std::alloc::Global;
use std::cmp::{Eq, PartialEq};
use std::marker::Model;
use std::slice;

/// Rows in the order of a reply. Contracts see the list of them.
#[derive(Drop, Debug, Clone)]
pub struct RowList {
    rows: Vec<FlowRow>,
}

impl Model for RowList {
    ghost use Rattle.std.specs.Prelude.{List};
    ghost use Rattle.of_stats.specs.declared.flow_row.FlowRow.{FlowRow};

    ghost Value = { List FlowRow };

    ghost view = { λ s. s.rows.items };
}

impl RowList {
    /// Makes an empty list; takes no memory.
    pub fn new(alloc: Global) -> RowList
        ensures { result ≡ [] }
    {
        RowList {
            rows: Vec::new(alloc),
        }
    }

    /// Makes a vector into the list of its rows; takes no memory.
    pub fn from_vec(rows: Vec<FlowRow>) -> RowList
        ensures { result ≡ rows.items }
    {
        RowList { rows }
    }

    /// Gives the vector back; takes no memory.
    pub fn into_vec(self) -> Vec<FlowRow>
        ensures { result.items ≡ self }
    {
        self.rows
    }

    /// Lends the rows as a slice.
    pub fn as_slice(&self) -> &[FlowRow]
        ensures { result.now ≡ self.now }
    {
        self.rows.as_slice()
    }

    /// Goes over the rows, from the first to the last.
    pub fn iter(&self) -> slice::Iter<'_, FlowRow>
        ensures { iter_rest result ≡ self.now }
    {
        self.rows.iter()
    }

    /// Counts the rows.
    pub fn len(&self) -> usize
        ensures { result ≡ length self.now }
    {
        self.rows.len()
    }

    /// Tells whether there are no rows.
    pub fn is_empty(&self) -> bool
        ensures { IsTrue result ↔ (self.now ≡ []) }
    {
        self.rows.is_empty()
    }
}

impl PartialEq for RowList {
    ghost use Rattle.std.specs.Cmp.Lexicographic.{pointwise, lists_per};
    ghost use Rattle.of_stats.specs.contracts.flow_row.FlowRowPartialEq.TheImpl.Laws.{laws-law};

    ghost eq = { λ x y. pointwise ⟦<FlowRow as PartialEq>⟧.eq x y };

    ghost laws = { lists_per laws-law };

    fn eq(&self, other: &RowList) -> bool {
        self.rows == other.rows
    }
}

impl Eq for RowList {
    ghost use Rattle.std.specs.Cmp.Lexicographic.{lists_equiv};
    ghost use Rattle.of_stats.specs.contracts.flow_row.FlowRowEq.TheImpl.Laws.{laws-law};

    ghost laws = { lists_equiv laws-law };
}
