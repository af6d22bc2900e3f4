//! Rows in key order.

ghost use Rattle.std.specs.Prelude.{◌≡◌, ◌≤◌, None};
ghost use Rattle.of_match.specs.Key.{key_number};
ghost use Rattle.flow_table.specs.Sorted.{AreRows, IsFoundAt, row_place, with_row, without_key};
ghost use Rattle.flow_table.specs.Corrected.{row_at};
ghost use Rattle.flow_table.specs.ViewRows.{KeepsRoom};

use flow_table::{ViewList, ViewRow};
use of_match::Key;

/// Tells where the row of a key stands, or where it would stand.
fn position(rows: &ViewList, key: &Key) -> Result<usize, usize>
    requires { AreRows rows.now.rows }
    ensures { IsFoundAt row_place (key_number key.now) rows.now.rows result }
{
    keyed_rows::position(rows.as_slice(), key)
}

/// Puts a row in its place, in place of one with its key, where there is room for a new one.
pub(crate) fn put_row(rows: &mut ViewList, row: ViewRow)
    requires in_order { AreRows rows.old.rows }
    requires room { row_at row.key rows.old.rows ≡ None → 1 ≤ rows.old.spare }
    ensures rows { rows.new.rows ≡ with_row row rows.old.rows }
    ensures room { KeepsRoom rows.old rows.new }
{
    match position(rows, &row.key) {
        Ok(at) => rows.replace(at, row),
        Err(at) => rows.insert(at, row),
    }
}

/// Takes the row of a key out, if there is one.
pub(crate) fn drop_row(rows: &mut ViewList, key: &Key)
    requires in_order { AreRows rows.old.rows }
    ensures rows { rows.new.rows ≡ without_key key.now rows.old.rows }
    ensures room { KeepsRoom rows.old rows.new }
{
    match position(rows, key) {
        Ok(at) => rows.remove(at),
        Err(_) => {}
    }
}
