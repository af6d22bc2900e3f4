//! The cache of one switch.

ghost use Rattle.std.specs.Prelude.{◌≡◌, ◌≤◌, [], map, filter, None, IfOk, OnOk};
ghost use Rattle.of_stats.specs.declared.sum.Sum.{Sum};
ghost use Rattle.flow_table.specs.Corrected.{lost_at};
ghost use Rattle.counter_cache.specs.Cache.{with_lost_row, without_lost, KeepsRoom};
ghost use Rattle.counter_cache.specs.Fixed.{fixed_row, fixed_sum, fixed_removed, is_met, RowsAreShown, SumIsShown, NoticeIsShown};

use crate::fixing::{fix_notice, fix_row_list};
use crate::rows::{drop_row, find, put_row};
use crate::sums::fix_sum_of;
use flow_table::{Lost, LostRows, TableView};
use of_match::{Key, Match};
use of_stats::{RowList, Sum};
use of_types::PortNo;
use of_wire::FlowRemoved;
use std::alloc::{AllocError, Global};
use std::marker::Model;

/// What the entries of a switch have lost, by their keys. Contracts see the rows in key order, and how many rows more there
/// is room for.
#[derive(Drop, Debug)]
pub struct Cache {
    alloc: Global,
    rows: Vec<(Key, Lost)>,
}

impl Model for Cache {
    ghost use Rattle.counter_cache.specs.Cache.{CacheState};
    ghost use Rattle.counter_cache.specs.Inside.{cache_view, IsCache};

    ghost Value = { CacheState };

    ghost view = { cache_view };

    ghost invariant = { IsCache };
}

impl Cache {
    /// Makes a cache without rows; takes no memory.
    pub fn new(alloc: Global) -> Result<Cache, AllocError>
        ensures { IfOk result (λ c. c.rows ≡ []) }
    {
        Ok(Cache {
            alloc,
            rows: Vec::new(alloc),
        })
    }

    /// Makes room for so many rows more.
    pub fn reserve(&mut self, rows: usize) -> Result<(), AllocError>
        ensures rows { self.new.rows ≡ self.old.rows }
        ensures reserved { OnOk result (rows ≤ self.new.spare) }
        ensures room { KeepsRoom self.old self.new }
    {
        self.rows.reserve(rows)
    }

    /// Puts a row in, in place of one with its key; takes no memory. A new key needs room, which [`Cache::reserve`] makes.
    pub fn put(&mut self, key: Key, lost: Lost)
        requires { lost_at key self.old.rows ≡ None → 1 ≤ self.old.spare }
        ensures rows { self.new.rows ≡ with_lost_row (key, lost) self.old.rows }
        ensures room { KeepsRoom self.old self.new }
    {
        put_row(&mut self.rows, key, lost);
    }

    /// Takes the row of a key out, if there is one; takes no memory.
    pub fn remove(&mut self, key: &Key)
        ensures rows { self.new.rows ≡ without_lost key.now self.old.rows }
        ensures room { KeepsRoom self.old self.new }
    {
        drop_row(&mut self.rows, key);
    }

    /// Adds what was lost to a switch's flow rows; takes no memory.
    pub fn fix_rows(&self, rows: &mut RowList)
        ensures exact { rows.new ≡ map (fixed_row self.now.rows) rows.old }

        // The rows of the switch's table become those of the table as it is shown.
        ensures shown { RowsAreShown self.now.rows rows.old rows.new }
    {
        fix_row_list(self.alloc, &self.rows, rows);
    }

    /// Adds to a sum over a switch's entries what those of its table's rows lost that the request meets: `m` subsumes
    /// their matches, and they have an OUTPUT to `out_port` unless that is NONE; takes no memory.
    pub fn fix_sum(&self, view: &TableView, m: &Match, out_port: PortNo, sum: &mut Sum)
        ensures exact { sum.new ≡ fixed_sum self.now.rows (filter (is_met m.now out_port) view.now.rows.rows) sum.old }

        // The sum over the switch's table becomes that over the table as it is shown.
        ensures shown { SumIsShown self.now.rows view.now.rows.rows m.now out_port sum.old sum.new }
    {
        fix_sum_of(&self.rows, view, m, out_port, sum);
    }

    /// Adds what was lost to the notice of an entry that is gone; takes no memory.
    pub fn fix_removed(&self, n: &mut FlowRemoved)
        ensures exact { n.new ≡ fixed_removed self.now.rows n.old }

        // The notice of an entry of the switch becomes that of the entry as it is shown.
        ensures shown { NoticeIsShown self.now.rows n.old n.new }
    {
        fix_notice(&self.rows, n);
    }
}

impl LostRows for Cache {
    ghost rows = { λ c. c.rows };

    /// Finds what the entry of a key has lost, by halves.
    fn get(&self, key: &Key) -> Option<Lost>
        ensures { result ≡ lost_at key.now self.now.rows }
    {
        find(&self.rows, key)
    }
}
