//! Laws of views, each the contract of a function that does nothing.

ghost use Rattle.std.specs.Prelude.{◌≡◌, ◌==◌, ℕ, ◌≤◌, List, None, not, filter};
ghost use Rattle.flow_table.specs.declared.view.ViewRow.{ViewRow};
ghost use Rattle.flow_table.specs.View.{TableView};
ghost use Rattle.net_txn.specs.Views.{rows_at, with_rows, ViewsAscend};
ghost use Rattle.net_txn.specs.Joining.{with_view};

/// Views that ascend by switch go on to: where the rows of one change, where a switch joins that is not joined, and
/// where one leaves.
pub fn views_stay_in_order()
    ensures changed { (d least : ℕ) (change : List ViewRow → List ViewRow) (views : List TableView) → ViewsAscend least views
        → ViewsAscend least (with_rows d change views) }
    ensures joined { (d least : ℕ) (views : List TableView) → least ≤ d → rows_at d views ≡ None → ViewsAscend least views
        → ViewsAscend least (with_view d views) }
    ensures left { (d least : ℕ) (views : List TableView) → ViewsAscend least views
        → ViewsAscend least (filter (λ v. not (v.dpid == d)) views) }
{}
