//! The judge that counts entries, and the one judge of the program.

ghost use Rattle.std.specs.Prelude.{◌≡◌, length, nat_le};
ghost use Rattle.std.specs.List.{list_all};
ghost use Rattle.flow_table.specs.View.{plain, plains};
ghost use Rattle.net_guard.specs.Judging.{is_allowed, is_within_quota};
ghost use Rattle.net_guard.specs.Refusing.{crowded_in, first_crowded, IsRefused};

use crate::guard::Guard;
use crate::refusal::Refusal;
use flow_table::{Judge, TableView};

/// The judge that lets tables stand each of which has at most so many entries.
#[derive(Clone, Copy, Debug, PartialEq, Eq)]
pub struct Quota {
    /// The most entries of a table.
    pub most: u32,
}

fn has_room(tables: &[TableView], most: u32) -> bool
    ensures { result ≡ list_all (λ t. nat_le (length t.rows.rows) most) tables.now }
{
    tables.iter().all(|table| table.rows.len() <= most as usize)
}

/// Says by how much a table is over a quota, if it is.
#[tactic(auto, unfolding(crate::specs::Refusing::crowded_in))]
fn crowded_in(table: &TableView, most: u32) -> Option<Refusal>
    ensures { result ≡ crowded_in most (plain table.now) }
{
    let count = table.rows.len();
    if count <= most as usize {
        return None;
    }
    Some(Refusal::Crowded {
        dpid: table.dpid,
        count,
        most,
    })
}

/// Says which table is the first over a quota.
fn first_crowded(tables: &[TableView], most: u32) -> Option<Refusal>
    ensures { result ≡ first_crowded most (plains tables.now) }
{
    for table in tables {
        if let Some(refusal) = crowded_in(table, most) {
            return Some(refusal);
        }
    }
    None
}

impl Judge for Quota {
    ghost use Rattle.net_guard.specs.Judging.{is_within_quota};

    ghost accepts = { λ quota tables. is_within_quota quota.most tables };

    fn allows(&self, tables: &[TableView]) -> bool
        ensures { result ≡ is_within_quota self.now.most (plains tables.now) }
    {
        has_room(tables, self.most)
    }
}

/// The judge that an operator chose, in one type, so that what asks a judge is compiled once.
#[derive(Drop, Debug)]
pub enum ChosenJudge {
    /// All tables may stand.
    All,
    /// Tables may stand each of which has at most so many entries.
    Quota(Quota),
    /// Tables may stand in which no packet comes back to a place where it was.
    Guard(Guard),
}

impl ChosenJudge {
    /// Says what these tables are refused for, if they are; takes no memory.
    pub fn refusal(&self, tables: &[TableView]) -> Option<Refusal>
        ensures { IsRefused self.now (plains tables.now) result }
    {
        match self {
            ChosenJudge::All => None,
            ChosenJudge::Quota(quota) => first_crowded(tables, quota.most),
            ChosenJudge::Guard(guard) => guard.refusal(tables),
        }
    }
}

impl Judge for ChosenJudge {
    ghost use Rattle.net_guard.specs.Judging.{is_allowed};

    ghost accepts = { is_allowed };

    fn allows(&self, tables: &[TableView]) -> bool
        ensures { result ≡ is_allowed self.now (plains tables.now) }
    {
        match self {
            ChosenJudge::All => true,
            ChosenJudge::Quota(quota) => quota.allows(tables),
            ChosenJudge::Guard(guard) => guard.allows(tables),
        }
    }
}
