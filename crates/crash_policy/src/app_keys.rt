//! The keys of an application, each with its values and what holds where it is not there.

ghost use Rattle.std.specs.Prelude.{◌≡◌, ◌==◌, nat_le, map, option_map, option_copied, option_and_then, string_bytes, IfOk};
ghost use Rattle.std.specs.List.{list_all};
ghost use Rattle.toml.specs.Data.{as_str};
ghost use Rattle.toml.specs.View.{view, array_view, table_view};
ghost use Rattle.crash_policy.specs.Faults.{Gives};
ghost use Rattle.crash_policy.specs.Keys as spec;

use crate::limits::{DEFAULT_BUDGET, MOST_BUDGET, MOST_COMMAND_WORDS};
use crate::members::{count, known_keys, member, needed, number_in, out_of_range};
use crate::policy_fault::PolicyFault;
use crate::policy_file::Policy;
use crate::words::{Level, is_event_name, is_name, policy_named};
use std::alloc::{AllocError, Global};
use toml::value::Array;
use toml::{Table, Value};

/// Checks the keys inside `rules`.
#[tactic(auto, unfolding(crate::specs::Keys::rules_keys))]
pub(crate) fn known_in_rules(table: &Table) -> Result<(), PolicyFault>
    ensures { Gives (λ u. u) result (spec.rules_keys (table_view table.now)) }
{
    match member(table, "rules") {
        Some(Value::Table(inner)) => known_keys(inner, Level::Rules),
        _ => Ok(()),
    }
}

/// Checks that the application has a name.
#[tactic(auto, unfolding(crate::specs::Keys::needed_name))]
pub(crate) fn needed_name(alloc: Global, table: &Table) -> Result<(), PolicyFault>
    ensures { Gives (λ u. u) result (spec.needed_name (table_view table.now)) }
{
    needed(alloc, table, "name")
}

/// Reads the most frames of one turn.
#[tactic(auto, unfolding(crate::specs::Keys::budget_answer))]
pub(crate) fn budget(alloc: Global, table: &Table) -> Result<u32, PolicyFault>
    ensures { Gives (λ n. n) result (spec.budget_answer (table_view table.now)) }
{
    match member(table, "budget") {
        None => Ok(DEFAULT_BUDGET),
        Some(value) => match number_in(1, MOST_BUDGET, value) {
            Some(number) => Ok(number),
            None => Err(out_of_range(alloc, "budget")),
        },
    }
}

/// Returns the texts of the items, if each item is a text.
fn texts_of(alloc: Global, items: &Array) -> Result<Option<Vec<String>>, AllocError>
    ensures { IfOk result
        (λ o. option_map (λ v. map string_bytes v.items) o ≡ spec.texts_of (array_view items.now)) }
{
    let mut texts = Vec::with_capacity(alloc, items.len())?;
    for item in items {
        let Some(text) = item.as_str() else {
            return Ok(None);
        };
        texts.push(String::from_str(alloc, text)?)?;
    }
    Ok(Some(texts))
}

fn command_in(alloc: Global, value: &Value) -> Result<Option<Vec<String>>, AllocError>
    ensures { IfOk result
        (λ o. option_map (λ v. map string_bytes v.items) o ≡ spec.command_in (view value.now)) }
{
    match value.as_array() {
        Some(items) if 1 <= count(items) && count(items) <= MOST_COMMAND_WORDS => texts_of(
            alloc, items,
        ),
        _ => Ok(None),
    }
}

/// Reads the program and its words.
#[tactic(auto, unfolding(crate::specs::Keys::command_answer))]
pub(crate) fn command(alloc: Global, table: &Table) -> Result<Vec<String>, PolicyFault>
    ensures { Gives (λ v. map string_bytes v.items) result (spec.command_answer (table_view table.now)) }
{
    match member(table, "command") {
        None => Ok(Vec::new(alloc)),
        Some(value) => match command_in(alloc, value)? {
            Some(texts) => Ok(texts),
            None => Err(out_of_range(alloc, "command")),
        },
    }
}

fn is_text(text: &str, value: &Value) -> bool
    ensures { result ≡ spec.is_text text.now (view value.now) }
{
    match value {
        Value::String(found) => found.as_str() == text,
        _ => false,
    }
}

/// Counts how often the text stands among the items.
fn times(text: &str, items: &Array) -> usize
    ensures { result ≡ spec.times text.now (array_view items.now) }
{
    let mut found = 0;
    for item in items {
        if is_text(text, item) {
            found += 1;
        }
    }
    found
}

fn is_event_text(value: &Value) -> bool
    ensures { result ≡ spec.is_event_text (view value.now) }
{
    match value {
        Value::String(found) => is_event_name(found.as_str()),
        _ => false,
    }
}

/// Tells whether each item names a kind of event.
fn are_event_texts(items: &Array) -> bool
    ensures { result ≡ spec.are_event_texts (array_view items.now) }
{
    for item in items {
        if !is_event_text(item) {
            return false;
        }
    }
    true
}

/// Counts how often each kind of event is named.
#[tactic(auto, unfolding(crate::specs::Keys::counts_of))]
fn counts(items: &Array) -> [usize; 6]
    ensures { result ≡ spec.counts_of (array_view items.now) }
{
    [
        times("join", items),
        times("leave", items),
        times("packet_in", items),
        times("flow_removed", items),
        times("port_status", items),
        times("error", items),
    ]
}

/// Tells whether each kind of event is named at most once.
fn are_single(counts: &[usize]) -> bool
    ensures { result ≡ list_all (λ n. nat_le n 1) counts.now }
{
    counts.iter().all(|n| *n <= 1)
}

/// Tells which kinds of events are named once.
fn named_once(counts: [usize; 6]) -> [bool; 6]
    ensures { result ≡ map (λ n. n == 1) counts }
{
    let [join, leave, packet_in, flow_removed, port_status, error] = counts;
    [
        join == 1,
        leave == 1,
        packet_in == 1,
        flow_removed == 1,
        port_status == 1,
        error == 1,
    ]
}

fn events_in(value: &Value) -> Option<[bool; 6]>
    ensures { result ≡ spec.events_in (view value.now) }
{
    let items = value.as_array()?;
    let counts = counts(items);
    if are_event_texts(items) && are_single(&counts) {
        Some(named_once(counts))
    } else {
        None
    }
}

/// Reads which kinds of events the application is given.
#[tactic(auto, unfolding(crate::specs::Keys::events_answer))]
pub(crate) fn events(alloc: Global, table: &Table) -> Result<[bool; 6], PolicyFault>
    ensures { Gives (λ e. e) result (spec.events_answer (table_view table.now)) }
{
    match member(table, "events") {
        None => Ok([true; 6]),
        Some(value) => match events_in(value) {
            Some(events) => Ok(events),
            None => Err(out_of_range(alloc, "events")),
        },
    }
}

fn name_text(value: &Value) -> Option<&str>
    ensures { option_copied result ≡ option_and_then spec.name_text (as_str (view value.now)) }
{
    let text = value.as_str()?;
    if is_name(text) { Some(text) } else { None }
}

/// Reads the application's name.
#[tactic(auto, unfolding(crate::specs::Keys::name_answer))]
pub(crate) fn name(alloc: Global, table: &Table) -> Result<String, PolicyFault>
    ensures { Gives (λ s. string_bytes s) result (spec.name_answer (table_view table.now)) }
{
    match member(table, "name") {
        None => Err(out_of_range(alloc, "name")),
        Some(value) => match name_text(value) {
            Some(text) => Ok(String::from_str(alloc, text)?),
            None => Err(out_of_range(alloc, "name")),
        },
    }
}

fn policy_in(value: &Value) -> Option<Policy>
    ensures { result ≡ spec.policy_in (view value.now) }
{
    policy_named(value.as_str()?)
}

/// Reads what follows a failed turn, where the kind of the event has no policy of its own.
#[tactic(auto, unfolding(crate::specs::Keys::policy_answer))]
pub(crate) fn policy(alloc: Global, table: &Table) -> Result<Policy, PolicyFault>
    ensures { Gives (λ p. p) result (spec.policy_answer (table_view table.now)) }
{
    match member(table, "policy") {
        None => Ok(Policy::Absolute),
        Some(value) => match policy_in(value) {
            Some(policy) => Ok(policy),
            None => Err(out_of_range(alloc, "policy")),
        },
    }
}

/// Reads the policy of one kind of event.
fn rule_for(default: Policy, event: &str, table: &Table) -> Option<Policy>
    ensures { result ≡ spec.rule_for default event.now (table_view table.now) }
{
    match member(table, event) {
        None => Some(default),
        Some(value) => policy_in(value),
    }
}

#[tactic(auto, unfolding(crate::specs::Keys::rules_items))]
fn rules_items(default: Policy, table: &Table) -> Option<[Policy; 6]>
    ensures { result ≡ spec.rules_items default (table_view table.now) }
{
    Some([
        rule_for(default, "join", table)?,
        rule_for(default, "leave", table)?,
        rule_for(default, "packet_in", table)?,
        rule_for(default, "flow_removed", table)?,
        rule_for(default, "port_status", table)?,
        rule_for(default, "error", table)?,
    ])
}

fn rules_in(default: Policy, value: &Value) -> Option<[Policy; 6]>
    ensures { result ≡ spec.rules_in default (view value.now) }
{
    rules_items(default, value.as_table()?)
}

/// Reads the policy of each kind of event.
#[tactic(auto, unfolding(crate::specs::Keys::rules_answer))]
pub(crate) fn rule_list(
    alloc: Global,
    default: Policy,
    table: &Table,
) -> Result<[Policy; 6], PolicyFault>
    ensures { Gives (λ r. r) result (spec.rules_answer default (table_view table.now)) }
{
    match member(table, "rules") {
        None => Ok([default; 6]),
        Some(value) => match rules_in(default, value) {
            Some(list) => Ok(list),
            None => Err(out_of_range(alloc, "rules")),
        },
    }
}
