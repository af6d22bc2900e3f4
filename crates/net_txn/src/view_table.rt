//! The views of the joined switches, each with its rows in key order.

ghost use Rattle.std.specs.Prelude.{◌≡◌, ◌==◌, not, [], filter, None, Some, MatchOption, IfSome, OnOk, OnErr};
ghost use Rattle.flow_table.specs.View.{plains};
ghost use Rattle.flow_table.specs.Sorted.{AreRows, without_key};
ghost use Rattle.net_txn.specs.Joining.{with_view};
ghost use Rattle.net_txn.specs.Views.{rows_at, is_viewed, is_row_at, with_rows, with_added};

use crate::joining::put_view;
use crate::leaving::forget_view;
use crate::views;
use flow_table::{TableView, ViewRow};
use of_match::Key;
use of_types::Dpid;
use std::alloc::{AllocError, Global};
use std::marker::Model;

/// The views of the joined switches, by switch ascending. The rows of each stand in key order, so that they are found by halves.
#[derive(Drop, Debug)]
pub(crate) struct ViewTable {
    views: Vec<TableView>,
}

impl Model for ViewTable {
    ghost use Rattle.std.specs.Prelude.{List};
    ghost use Rattle.flow_table.specs.View.{TableView, plains};
    ghost use Rattle.net_txn.specs.Views.{AreInKeyOrder};

    ghost Value = { List TableView };

    ghost view = { λ s. plains s.views.items };

    ghost invariant = { λ s. AreInKeyOrder (plains s.views.items) };
}

impl ViewTable {
    /// Returns the views of no switch; takes no memory.
    pub(crate) fn new(alloc: Global) -> ViewTable
        ensures { result ≡ [] }
    {
        ViewTable {
            views: Vec::new(alloc),
        }
    }

    /// Lends all views.
    pub(crate) fn all(&self) -> &[TableView]
        ensures { plains result.now ≡ self.now }
    {
        &self.views
    }

    /// Returns the view of a switch, while it is joined.
    pub(crate) fn find(&self, dpid: Dpid) -> Option<&TableView>
        ensures rows { MatchOption result (rows_at dpid self.now ≡ None) (λ v. rows_at dpid self.now ≡ Some v.now.rows.rows) }
        ensures order { IfSome result (λ v. AreRows v.now.rows.rows) }
    {
        views::find(&self.views, dpid)
    }

    /// Tells whether a switch has a view, so that it is joined.
    pub(crate) fn is_viewed(&self, dpid: Dpid) -> bool
        ensures { result ≡ is_viewed dpid self.now }
    {
        views::is_viewed(&self.views, dpid)
    }

    /// Tells whether a row of a switch has a key.
    pub(crate) fn is_row(&self, dpid: Dpid, key: &Key) -> bool
        ensures { result ≡ is_row_at dpid key.now self.now }
    {
        views::is_row(&self.views, dpid, key)
    }

    /// Makes room for one view more.
    pub(crate) fn reserve(&mut self) -> Result<(), AllocError>
        ensures { self.new ≡ self.old }
    {
        self.views.reserve(1)
    }

    /// Puts an empty view among the others.
    pub(crate) fn put_view(&mut self, alloc: Global, dpid: Dpid) -> Result<(), AllocError>
        ensures ok { OnOk result (self.new ≡ with_view dpid self.old) }
        ensures err { OnErr result (self.new ≡ self.old) }
    {
        put_view(alloc, &mut self.views, dpid)
    }

    /// Drops the view of a switch; takes no memory.
    pub(crate) fn forget(&mut self, dpid: Dpid)
        ensures { self.new ≡ filter (λ v. not (v.dpid == dpid)) self.old }
    {
        forget_view(&mut self.views, dpid);
    }

    /// Makes room for one row more in the view of a switch.
    pub(crate) fn make_room(&mut self, dpid: Dpid) -> Result<(), AllocError>
        ensures { self.new ≡ self.old }
    {
        views::make_room(&mut self.views, dpid)
    }

    /// Puts the row that a change adds, if it adds one, in the view of a switch.
    pub(crate) fn put_added(&mut self, dpid: Dpid, row: Option<ViewRow>) -> Result<(), AllocError>
        ensures ok { OnOk result (self.new ≡ with_rows dpid (with_added row) self.old) }
        ensures err { OnErr result (self.new ≡ self.old) }
    {
        views::put_added(&mut self.views, dpid, row)
    }

    /// Takes the row of a key out of the view of a switch; takes no memory.
    pub(crate) fn remove(&mut self, dpid: Dpid, key: &Key)
        ensures { self.new ≡ with_rows dpid (without_key key.now) self.old }
    {
        views::remove_in(&mut self.views, dpid, key);
    }
}
