//! The keys at the top of a policy text.

ghost use Rattle.std.specs.Prelude.{◌≡◌, map, option_map, IfOk};
ghost use Rattle.toml.specs.View.{view, array_view, table_view};
ghost use Rattle.crash_policy.specs.Faults.{Gives};
ghost use Rattle.crash_policy.specs.Keys as spec;

use crate::limits::MOST_APPS;
use crate::members::{count, member, needed, number_in, out_of_range};
use crate::policy_fault::PolicyFault;
use crate::policy_file::Judge;
use crate::words::judge_named;
use std::alloc::{AllocError, Global};
use toml::value::Array;
use toml::{Table, Value};

/// Checks that there are applications.
#[tactic(auto, unfolding(crate::specs::Keys::needed_apps))]
pub(crate) fn needed_apps(alloc: Global, table: &Table) -> Result<(), PolicyFault>
    ensures { Gives (λ u. u) result (spec.needed_apps (table_view table.now)) }
{
    needed(alloc, table, "app")
}

/// Returns the items, if each is a table.
fn tables_of(alloc: Global, items: &Array) -> Result<Option<Vec<&Table>>, AllocError>
    ensures { IfOk result
        (λ o. option_map (λ v. map (λ t. table_view t.now) v.items) o ≡ spec.tables_of (array_view items.now)) }
{
    let mut tables = Vec::with_capacity(alloc, items.len())?;
    for item in items {
        let Some(table) = item.as_table() else {
            return Ok(None);
        };
        tables.push(table)?;
    }
    Ok(Some(tables))
}

fn apps_in(alloc: Global, value: Option<&Value>) -> Result<Option<Vec<&Table>>, AllocError>
    ensures { IfOk result
        (λ o. option_map (λ v. map (λ t. table_view t.now) v.items) o ≡ spec.apps_in (option_map (λ v. view v.now) value.entry)) }
{
    match value {
        Some(Value::Array(items)) if 1 <= count(items) && count(items) <= MOST_APPS => {
            tables_of(alloc, items)
        }
        _ => Ok(None),
    }
}

/// Reads the tables of the applications.
#[tactic(auto, unfolding(crate::specs::Keys::apps_answer))]
pub(crate) fn app_tables(alloc: Global, table: &Table) -> Result<Vec<&Table>, PolicyFault>
    ensures { Gives (λ v. map (λ t. table_view t.now) v.items) result (spec.apps_answer (table_view table.now)) }
{
    match apps_in(alloc, member(table, "app"))? {
        Some(tables) => Ok(tables),
        None => Err(out_of_range(alloc, "app")),
    }
}

fn judge_in(value: &Value) -> Option<Judge>
    ensures { result ≡ spec.judge_in (view value.now) }
{
    judge_named(value.as_str()?)
}

/// Reads what is asked of the tables when a turn is done.
#[tactic(auto, unfolding(crate::specs::Keys::judge_answer))]
pub(crate) fn judge(alloc: Global, table: &Table) -> Result<Judge, PolicyFault>
    ensures { Gives (λ j. j) result (spec.judge_answer (table_view table.now)) }
{
    match member(table, "judge") {
        None => Ok(Judge::All),
        Some(value) => match judge_in(value) {
            Some(judge) => Ok(judge),
            None => Err(out_of_range(alloc, "judge")),
        },
    }
}

/// Reads the most entries of a table, where the judge counts them.
#[tactic(auto, unfolding(crate::specs::Keys::quota_answer))]
pub(crate) fn quota(alloc: Global, judge: Judge, table: &Table) -> Result<Option<u32>, PolicyFault>
    ensures { Gives (λ q. q) result (spec.quota_answer judge (table_view table.now)) }
{
    match (judge, member(table, "quota")) {
        (Judge::All | Judge::Guard, None) => Ok(None),
        (Judge::All | Judge::Guard, Some(_)) => Err(out_of_range(alloc, "quota")),
        (Judge::Quota, None) => Err(PolicyFault::Missing(String::from_str(alloc, "quota")?)),
        (Judge::Quota, Some(value)) => match number_in(0, u32::MAX, value) {
            Some(most) => Ok(Some(most)),
            None => Err(out_of_range(alloc, "quota")),
        },
    }
}
