//! A search by halves.

ghost use Rattle.std.specs.Prelude.{◌≡◌, ◌↔◌, None, Some, MatchOption, IsTrue};
ghost use Rattle.std.specs.Ordering.{nat_cmp};
ghost use Rattle.of_match.specs.Key.{key_number};
ghost use Rattle.flow_table.specs.Sorted.{Ascends, IsFoundAt, at_place};
ghost use Rattle.keyed_rows.specs.Keyed.{place};

use crate::keyed::Keyed;
use of_match::Key;
use std::cmp::Ordering;

/// Tells how a key stands to another one in key order.
pub fn compare_keys(a: &Key, b: &Key) -> Ordering
    ensures { result ≡ nat_cmp (key_number a.now) (key_number b.now) }
{
    let _first = a.priority;
    let _second = b.priority;
    a.cmp(b)
}

/// Tells where the row of a key stands, or where it would stand, by halves; takes no memory.
pub fn position<T: Keyed>(rows: &[T], key: &Key) -> Result<usize, usize>
    requires { Ascends (place T.key_of) 0 rows.now }
    ensures { IsFoundAt (place T.key_of) (key_number key.now) rows.now result }
{
    let mut low = 0;
    let mut high = rows.len();
    while low < high {
        let middle = low + (high - low) / 2;
        match compare_keys(rows[middle].key(), key) {
            Ordering::Less => low = middle + 1,
            Ordering::Equal => return Ok(middle),
            Ordering::Greater => high = middle,
        }
    }
    Err(low)
}

/// Finds the row of a key, by halves; takes no memory.
pub fn find<'a, T: Keyed>(rows: &'a [T], key: &Key) -> Option<&'a T>
    requires { Ascends (place T.key_of) 0 rows.now }
    ensures { MatchOption result (at_place (place T.key_of) (key_number key.now) rows.now ≡ None) (λ r. at_place (place T.key_of) (key_number key.now) rows.now ≡ Some r.now) }
{
    match position(rows, key) {
        Ok(at) => Some(&rows[at]),
        Err(_) => None,
    }
}

/// Tells whether rows stand in key order, each key once.
pub(crate) fn are_in_order<T: Keyed>(rows: &[T]) -> bool
    ensures { IsTrue result ↔ Ascends (place T.key_of) 0 rows.now }
{
    let last = rows.len().saturating_sub(1);
    let mut at = 0;
    while at < last {
        if compare_keys(rows[at].key(), rows[at + 1].key()) != Ordering::Less {
            return false;
        }
        at += 1;
    }
    true
}
