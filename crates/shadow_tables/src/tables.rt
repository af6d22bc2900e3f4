//! Tables by their switches.

ghost use Rattle.std.specs.Prelude.{◌≡◌, ◌<◌, ◌≤◌, None, Some, IsSome, MatchOption, Ok, Err, OnOk, length, slice_index_or};
ghost use Rattle.flow_table.specs.declared.view.TableView.{TableView};
ghost use Rattle.flow_table.specs.Sorted.{IsFoundAt, at_place, with_row, without_key};
ghost use Rattle.flow_table.specs.Corrected.{row_at};
ghost use Rattle.shadow_tables.specs.InStep.{lent_place, AreLent, AreTables, ChangesRows};

use crate::rows::{drop_row, put_row};
use flow_table::{TableView, ViewRow};
use of_match::Key;
use of_types::Dpid;
use std::alloc::AllocError;

/// Tells where the table of a switch stands, or where it would stand, by halves.
pub(crate) fn position(views: &[TableView], dpid: Dpid) -> Result<usize, usize>
    requires { AreLent views.now }
    ensures { IsFoundAt lent_place dpid views.now result }
{
    let mut low = 0;
    let mut high = views.len();
    while low < high {
        let middle = low + (high - low) / 2;
        let here = views[middle].dpid;
        if here < dpid {
            low = middle + 1;
        } else if here == dpid {
            return Ok(middle);
        } else {
            high = middle;
        }
    }
    Err(low)
}

/// Tells where the table of a joined switch stands.
pub(crate) fn place(views: &[TableView], dpid: Dpid) -> usize
    requires in_order { AreLent views.now }
    requires joined { IsSome (at_place lent_place dpid views.now) }
    ensures { IsFoundAt lent_place dpid views.now (Ok result) }
{
    match position(views, dpid) {
        Ok(at) => at,
        Err(at) => at,
    }
}

/// Tells where the table of a switch goes that is not joined.
pub(crate) fn gap(views: &[TableView], dpid: Dpid) -> usize
    requires in_order { AreLent views.now }
    requires apart { at_place lent_place dpid views.now ≡ None }
    ensures { IsFoundAt lent_place dpid views.now (Err result) }
{
    match position(views, dpid) {
        Ok(at) => at,
        Err(at) => at,
    }
}

/// Finds the table of a switch.
pub(crate) fn find(views: &[TableView], dpid: Dpid) -> Option<&TableView>
    requires { AreLent views.now }
    ensures { MatchOption result (at_place lent_place dpid views.now ≡ None) (λ v. at_place lent_place dpid views.now ≡ Some v.now) }
{
    match position(views, dpid) {
        Ok(at) => Some(&views[at]),
        Err(_) => None,
    }
}

/// Makes room for so many rows more of the table at a place.
pub(crate) fn reserve_at(
    views: &mut Vec<TableView>,
    at: usize,
    more: usize,
) -> Result<(), AllocError>
    requires { at < length views.old.items }
    ensures same { ChangesRows at (λ rows. rows) views.old.items views.new.items }
    ensures reserved { OnOk result ((v : TableView) → more ≤ (slice_index_or views.new.items at v).rows.spare) }
{
    views[at].rows.reserve(more)
}

/// Puts a row in the table at a place, where there is room for one at a new key.
pub(crate) fn put_at(views: &mut Vec<TableView>, at: usize, row: ViewRow)
    requires within { at < length views.old.items }
    requires in_order { AreTables views.old.items }
    requires room { (v : TableView) → row_at row.key (slice_index_or views.old.items at v).rows.rows ≡ None → 1 ≤ (slice_index_or views.old.items at v).rows.spare }
    ensures { ChangesRows at (with_row row) views.old.items views.new.items }
{
    put_row(&mut views[at].rows, row);
}

/// Takes the row of a key out of the table at a place, if there is one.
pub(crate) fn remove_at(views: &mut Vec<TableView>, at: usize, key: &Key)
    requires within { at < length views.old.items }
    requires in_order { AreTables views.old.items }
    ensures { ChangesRows at (without_key key.now) views.old.items views.new.items }
{
    drop_row(&mut views[at].rows, key);
}
