//! Rows that may stand in key order.

ghost use Rattle.std.specs.Prelude.{◌≡◌, None, Some, MatchOption};
ghost use Rattle.of_match.specs.Key.{key_number};
ghost use Rattle.flow_table.specs.Sorted.{at_place};
ghost use Rattle.keyed_rows.specs.Keyed.{place};

use crate::keyed::Keyed;
use crate::search::{are_in_order, compare_keys, find};
use of_match::Key;
use std::cmp::Ordering;
use std::marker::Model;

/// Rows in which keys are looked up: by halves where they stand in key order, else one by one.
#[derive(Drop, Debug)]
pub struct Lookup<'a, T: Keyed> {
    rows: &'a [T],
    in_order: bool,
}

/// Finds the first row of a key, one by one.
fn first<'a, T: Keyed>(rows: &'a [T], key: &Key) -> Option<&'a T>
    ensures { MatchOption result (at_place (place T.key_of) (key_number key.now) rows.now ≡ None) (λ r. at_place (place T.key_of) (key_number key.now) rows.now ≡ Some r.now) }
{
    for row in rows {
        if compare_keys(row.key(), key) == Ordering::Equal {
            return Some(row);
        }
    }
    None
}

impl<'a, T: Keyed> Model for Lookup<'a, T> {
    ghost use Rattle.std.specs.Prelude.{◌≡◌, List, true};
    ghost use Rattle.flow_table.specs.Sorted.{Ascends};
    ghost use Rattle.keyed_rows.specs.Keyed.{place};

    ghost Value = { List T };

    ghost view = { λ s. s.rows.now };

    ghost invariant = { λ s. s.in_order ≡ true → Ascends (place T.key_of) 0 s.rows.now };
}

impl<'a, T: Keyed> Lookup<'a, T> {
    /// Takes rows, and looks whether they stand in key order; takes no memory.
    pub fn new(rows: &'a [T]) -> Lookup<'a, T>
        ensures { result ≡ rows.now }
    {
        Lookup {
            rows,
            in_order: are_in_order(rows),
        }
    }

    /// Finds the first row of a key; takes no memory.
    pub fn find(&self, key: &Key) -> Option<&'a T>
        ensures { MatchOption result (at_place (place T.key_of) (key_number key.now) self.now ≡ None) (λ r. at_place (place T.key_of) (key_number key.now) self.now ≡ Some r.now) }
    {
        if self.in_order {
            find(self.rows, key)
        } else {
            first(self.rows, key)
        }
    }
}
