//! Upkeep of an index.

ghost use Rattle.std.specs.Prelude.{◌≡◌, ◌<◌, ◌≤◌, length, filter};
ghost use Rattle.std.specs.List.{insert, list_any};
ghost use Rattle.std.specs.Vec.{vec_len, vec_capacity};
ghost use Rattle.flow_table.specs.Table.{IsTable, has_key};
ghost use Rattle.flow_table.specs.Sorted.{Ascends, with_item, without_place};
ghost use Rattle.tuple_index.specs.Groups.{spot};

use crate::describing::has_entry;
use crate::grouping::place;
use flow_table::Entry;
use of_match::Key;

/// Puts a key before the one at a place, where there is room for one more.
fn insert_key(index: &mut Vec<Key>, at: usize, key: Key)
    requires at { at ≤ length index.old.items }
    requires room { vec_len index.old < vec_capacity index.old }
    ensures { index.new.items ≡ insert index.old.items at key }
{
    index.insert(at, key).unwrap();
}

/// Puts a key in its place, where there is room for one more.
pub(crate) fn put_key(index: &mut Vec<Key>, key: Key)
    requires in_order { Ascends spot 0 index.old.items }
    requires room { vec_len index.old < vec_capacity index.old }
    ensures { index.new.items ≡ with_item spot key index.old.items }
{
    match place(index, &key) {
        Ok(at) => index[at] = key,
        Err(at) => insert_key(index, at, key),
    }
}

/// Takes a key out.
pub(crate) fn drop_key(index: &mut Vec<Key>, key: &Key)
    requires { Ascends spot 0 index.old.items }
    ensures { index.new.items ≡ without_place spot (spot key.now) index.old.items }
{
    match place(index, key) {
        Ok(at) => drop(index.remove(at)),
        Err(_) => {}
    }
}

/// Takes out the keys that no entry has.
pub(crate) fn sweep(index: &mut Vec<Key>, entries: &[Entry])
    requires { IsTable entries.now }
    ensures { index.new.items ≡ filter (λ k. list_any (has_key k) entries.now) index.old.items }
{
    index.retain(|key| has_entry(entries, key));
}
