//! Applications and whole policies out of what the text says.

ghost use Rattle.std.specs.Prelude.{◌≡◌, [], map, IfOk, OnOk};
ghost use Rattle.indexmap.specs.IndexMap.{values};
ghost use Rattle.toml.specs.View.{table_view};
ghost use Rattle.crash_policy.specs.Policies.{app_value, policy_value};
ghost use Rattle.crash_policy.specs.Faults.{Gives};
ghost use Rattle.crash_policy.specs.Order.{document_policy};
ghost use Rattle.crash_policy.specs.Steps as spec;
ghost use Rattle.crash_policy.specs.Named.{values_in, AreNamed};

use crate::app_keys::{
    budget, command, events, known_in_rules, name, needed_name, policy, rule_list,
};
use crate::guard_keys::guard;
use crate::members::known_keys;
use crate::policy_fault::PolicyFault;
use crate::policy_file::{AppRule, PolicyFile};
use crate::top_keys::{app_tables, judge, needed_apps, quota};
use crate::words::Level;
use indexmap::IndexMap;
use std::alloc::{AllocError, Global};
use toml::Table;

/// Checks the keys of an application.
#[tactic(auto, unfolding(crate::specs::Steps::app_keys))]
fn app_keys(alloc: Global, table: &Table) -> Result<(), PolicyFault>
    ensures { Gives (λ u. u) result (spec.app_keys (table_view table.now)) }
{
    known_keys(table, Level::App)?;
    known_in_rules(table)?;
    needed_name(alloc, table)
}

/// Reads the values of an application.
#[tactic(auto, unfolding(crate::specs::Steps::app_values))]
fn app_values(alloc: Global, table: &Table) -> Result<AppRule, PolicyFault>
    ensures { Gives app_value result (spec.app_values (table_view table.now)) }
{
    let budget = budget(alloc, table)?;
    let command = command(alloc, table)?;
    let events = events(alloc, table)?;
    let name = name(alloc, table)?;
    let policy = policy(alloc, table)?;
    let rules = rule_list(alloc, policy, table)?;
    Ok(AppRule {
        name,
        command,
        policy,
        rules,
        events,
        budget,
    })
}

/// Reads an application.
#[tactic(auto, unfolding(crate::specs::Steps::app_answer))]
fn app(alloc: Global, table: &Table) -> Result<AppRule, PolicyFault>
    ensures { Gives app_value result (spec.app_answer (table_view table.now)) }
{
    app_keys(alloc, table)?;
    app_values(alloc, table)
}

/// Checks the keys at the top.
#[tactic(auto, unfolding(crate::specs::Steps::top_keys))]
fn top_keys(alloc: Global, table: &Table) -> Result<(), PolicyFault>
    ensures { Gives (λ u. u) result (spec.top_keys (table_view table.now)) }
{
    known_keys(table, Level::Top)?;
    needed_apps(alloc, table)
}

/// Puts an application behind the others, unless an earlier one has its name.
fn add(apps: &mut IndexMap<String, AppRule>, app: AppRule) -> Result<(), PolicyFault>
    requires { AreNamed apps.old.entries }
    ensures answer { Gives (λ _. values_in apps.new.entries) result (spec.added (app_value app) (values_in apps.old.entries)) }
    ensures named { OnOk result (AreNamed apps.new.entries) }
{
    if apps.contains_key(app.name.as_str()) {
        return Err(PolicyFault::Double(app.name.clone()?));
    }
    apps.insert(app.name.clone()?, app)?;
    Ok(())
}

/// Returns the applications without the tables that they were read from.
fn in_order(alloc: Global, apps: IndexMap<String, AppRule>) -> Result<Vec<AppRule>, AllocError>
    ensures { IfOk result (λ v. v.items ≡ values apps) }
{
    apps.into_values().collect(alloc)
}

/// Reads the applications, one after the other.
#[tactic(auto, unfolding(crate::specs::Steps::apps_after))]
fn apps(alloc: Global, tables: &[&Table]) -> Result<Vec<AppRule>, PolicyFault>
    ensures { Gives (λ v. map app_value v.items) result
        (spec.apps_after [] (map (λ t. table_view t.now) tables.now)) }
{
    let mut apps = IndexMap::new(alloc);
    for table in tables {
        let app = app(alloc, table)?;
        add(&mut apps, app)?;
    }
    Ok(in_order(alloc, apps)?)
}

/// Reads the policy of a document, step by step.
#[tactic(auto, unfolding(crate::specs::Steps::document_answer))]
fn by_steps(alloc: Global, table: &Table) -> Result<PolicyFile, PolicyFault>
    ensures { Gives policy_value result (spec.document_answer (table_view table.now)) }
{
    top_keys(alloc, table)?;
    let tables = app_tables(alloc, table)?;
    let judge = judge(alloc, table)?;
    let quota = quota(alloc, judge, table)?;
    let guard = guard(alloc, judge, table)?;
    let apps = apps(alloc, &tables)?;
    Ok(PolicyFile { quota, guard, apps })
}

/// Reads the policy of a document: the first fault of the tests, or the value.
pub(crate) fn file(alloc: Global, table: &Table) -> Result<PolicyFile, PolicyFault>
    ensures { Gives policy_value result (document_policy (table_view table.now)) }
{
    by_steps(alloc, table)
}
