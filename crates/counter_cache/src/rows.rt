//! Rows of what was lost, in key order.

ghost use Rattle.std.specs.Prelude.{◌≡◌, ◌<◌, ◌≤◌, None, vec_capacity, length};
ghost use Rattle.std.specs.List.{insert};
ghost use Rattle.of_match.specs.Key.{key_number};
ghost use Rattle.flow_table.specs.Sorted.{AreLostRows, IsFoundAt, lost_place};
ghost use Rattle.flow_table.specs.Corrected.{lost_at};
ghost use Rattle.counter_cache.specs.Cache.{with_lost_row, without_lost};

use flow_table::Lost;
use of_match::Key;

/// Tells where the row of a key stands, or where it would stand.
fn position(rows: &[(Key, Lost)], key: &Key) -> Result<usize, usize>
    requires { AreLostRows rows.now }
    ensures { IsFoundAt lost_place (key_number key.now) rows.now result }
{
    keyed_rows::position(rows, key)
}

/// Finds what the entry of a key has lost.
pub(crate) fn find(rows: &[(Key, Lost)], key: &Key) -> Option<Lost>
    requires { AreLostRows rows.now }
    ensures { result ≡ lost_at key.now rows.now }
{
    match keyed_rows::find(rows, key) {
        Some(row) => Some(row.1),
        None => None,
    }
}

/// Puts a row before another one, where there is room for it.
fn insert_row(rows: &mut Vec<(Key, Lost)>, at: usize, row: (Key, Lost))
    requires at { at ≤ length rows.old.items }
    requires room { length rows.old.items < vec_capacity rows.old }
    ensures rows { rows.new.items ≡ insert rows.old.items at row }
    ensures capacity { vec_capacity rows.old ≤ vec_capacity rows.new }
    ensures fits { length rows.new.items ≤ vec_capacity rows.new }
{
    rows.insert(at, row).unwrap();
}

/// Puts a row in its place, in place of one with its key, where there is room for a new one.
pub(crate) fn put_row(rows: &mut Vec<(Key, Lost)>, key: Key, lost: Lost)
    requires in_order { AreLostRows rows.old.items }
    requires room { lost_at key rows.old.items ≡ None → length rows.old.items < vec_capacity rows.old }
    requires fits { length rows.old.items ≤ vec_capacity rows.old }
    ensures rows { rows.new.items ≡ with_lost_row (key, lost) rows.old.items }
    ensures capacity { vec_capacity rows.old ≤ vec_capacity rows.new }
    ensures fits { length rows.new.items ≤ vec_capacity rows.new }
{
    match position(rows, &key) {
        Ok(at) => rows[at] = (key, lost),
        Err(at) => insert_row(rows, at, (key, lost)),
    }
}

/// Takes the row of a key out, if there is one.
pub(crate) fn drop_row(rows: &mut Vec<(Key, Lost)>, key: &Key)
    requires in_order { AreLostRows rows.old.items }
    requires fits { length rows.old.items ≤ vec_capacity rows.old }
    ensures rows { rows.new.items ≡ without_lost key.now rows.old.items }
    ensures capacity { vec_capacity rows.new ≡ vec_capacity rows.old }
    ensures fits { length rows.new.items ≤ vec_capacity rows.new }
{
    match position(rows, key) {
        Ok(at) => {
            rows.remove(at);
        }
        Err(_) => {}
    }
}
