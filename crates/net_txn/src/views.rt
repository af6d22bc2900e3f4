//! The views of the joined switches.

ghost use Rattle.std.specs.Prelude.{◌≡◌, ◌==◌, None, Some, MatchOption, OnOk, OnErr};
ghost use Rattle.std.specs.List.{list_any};
ghost use Rattle.flow_table.specs.View.{plains};
ghost use Rattle.net_txn.specs.Views.{rows_at, is_viewed, is_row_at, with_rows, with_added, IsViewAt, AreInKeyOrder};
ghost use Rattle.flow_table.specs.Sorted.{without_key, with_row};

use crate::rows::{has_key, put_row, remove_row};
use flow_table::{TableView, ViewRow};
use of_match::Key;
use of_types::Dpid;
use std::alloc::AllocError;

/// Returns the view of a switch, while it is joined.
pub(crate) fn find(views: &[TableView], dpid: Dpid) -> Option<&TableView>
    ensures { MatchOption result (rows_at dpid (plains views.now) ≡ None) (λ v. rows_at dpid (plains views.now) ≡ Some v.now.rows.rows) }
{
    for view in views {
        if view.dpid == dpid {
            return Some(view);
        }
    }
    None
}

fn has_view(views: &[TableView], dpid: Dpid) -> bool
    ensures { result ≡ list_any (λ v. v.dpid == dpid) views.now }
{
    views.iter().any(|view| view.dpid == dpid)
}

/// Tells whether a switch has a view, so that it is joined.
pub(crate) fn is_viewed(views: &[TableView], dpid: Dpid) -> bool
    ensures { result ≡ is_viewed dpid (plains views.now) }
{
    has_view(views, dpid)
}

/// Tells whether a row of a switch has a key.
pub(crate) fn is_row(views: &[TableView], dpid: Dpid, key: &Key) -> bool
    requires { AreInKeyOrder (plains views.now) }
    ensures { result ≡ is_row_at dpid key.now (plains views.now) }
{
    match find(views, dpid) {
        None => false,
        Some(view) => has_key(key, view.rows.as_slice()),
    }
}

/// Tells where the view of a switch stands.
fn position(views: &[TableView], dpid: Dpid) -> Option<usize>
    ensures { MatchOption result (rows_at dpid (plains views.now) ≡ None) (IsViewAt dpid (plains views.now)) }
{
    for (i, view) in views.iter().enumerate() {
        if view.dpid == dpid {
            return Some(i);
        }
    }
    None
}

/// Makes room for one row more in the view of a switch.
pub(crate) fn make_room(views: &mut Vec<TableView>, dpid: Dpid) -> Result<(), AllocError>
    ensures { plains views.new.items ≡ plains views.old.items }
{
    match position(views, dpid) {
        None => Ok(()),
        Some(at) => views[at].rows.reserve(1),
    }
}

/// Puts a row in the view of a switch.
fn put_in(views: &mut Vec<TableView>, dpid: Dpid, row: ViewRow) -> Result<(), AllocError>
    requires { AreInKeyOrder (plains views.old.items) }
    ensures ok { OnOk result (plains views.new.items ≡ with_rows dpid (with_row row) (plains views.old.items)) }
    ensures err { OnErr result (plains views.new.items ≡ plains views.old.items) }
{
    match position(views, dpid) {
        None => Ok(()),
        Some(at) => put_row(&mut views[at].rows, row),
    }
}

/// Puts the row that a change adds, if it adds one, in the view of a switch.
pub(crate) fn put_added(
    views: &mut Vec<TableView>,
    dpid: Dpid,
    row: Option<ViewRow>,
) -> Result<(), AllocError>
    requires { AreInKeyOrder (plains views.old.items) }
    ensures ok { OnOk result (plains views.new.items ≡ with_rows dpid (with_added row) (plains views.old.items)) }
    ensures err { OnErr result (plains views.new.items ≡ plains views.old.items) }
{
    match row {
        None => Ok(()),
        Some(row) => put_in(views, dpid, row),
    }
}

/// Takes the row of a key out of the view of a switch.
pub(crate) fn remove_in(views: &mut Vec<TableView>, dpid: Dpid, key: &Key)
    requires { AreInKeyOrder (plains views.old.items) }
    ensures { plains views.new.items ≡ with_rows dpid (without_key key.now) (plains views.old.items) }
{
    match position(views, dpid) {
        None => {}
        Some(at) => remove_row(&mut views[at].rows, key),
    }
}
