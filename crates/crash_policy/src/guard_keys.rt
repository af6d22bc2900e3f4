//! The keys of the judge against loops.

ghost use Rattle.std.specs.Prelude.{◌≡◌, option_map, IfOk};
ghost use Rattle.std.specs.List.{list_all};
ghost use Rattle.toml.specs.View.{view, array_view, table_view};
ghost use Rattle.crash_policy.specs.Faults.{Gives};
ghost use Rattle.crash_policy.specs.Policies.{guard_value};
ghost use Rattle.crash_policy.specs.Steps.{guard_answer};
ghost use Rattle.crash_policy.specs.GuardKeys as spec;

use crate::limits::MOST_LINKS;
use crate::link_text::link_in;
use crate::members::{count, member, out_of_range};
use crate::policy_fault::PolicyFault;
use crate::policy_file::Judge;
use guard_rule::{GuardField, GuardRule, Link};
use std::alloc::{AllocError, Global};
use toml::value::Array;
use toml::{Table, Value};

fn is_guard(judge: Judge) -> bool
    ensures { result ≡ spec.is_guard judge }
{
    match judge {
        Judge::Guard => true,
        Judge::All | Judge::Quota => false,
    }
}

#[tactic(auto, unfolding(crate::specs::GuardKeys::field_named))]
fn field_named(word: &str) -> Option<GuardField>
    ensures { result ≡ spec.field_named word.now }
{
    match word {
        "dl_dst" => Some(GuardField::DlDst),
        "nw_dst" => Some(GuardField::NwDst),
        _ => None,
    }
}

fn field_in(value: &Value) -> Option<GuardField>
    ensures { result ≡ spec.field_in (view value.now) }
{
    field_named(value.as_str()?)
}

/// Reads the field of packets by which rows send them to different places.
#[tactic(auto, unfolding(crate::specs::GuardKeys::field_answer))]
fn field(alloc: Global, judge: Judge, table: &Table) -> Result<Option<GuardField>, PolicyFault>
    ensures { Gives (λ f. f) result (spec.field_answer judge (table_view table.now)) }
{
    match (is_guard(judge), member(table, "field")) {
        (false, None) => Ok(None),
        (false, Some(_)) => Err(out_of_range(alloc, "field")),
        (true, None) => Err(PolicyFault::Missing(String::from_str(alloc, "field")?)),
        (true, Some(value)) => match field_in(value) {
            Some(field) => Ok(Some(field)),
            None => Err(out_of_range(alloc, "field")),
        },
    }
}

fn is_same_end(x: (u64, u16), y: (u64, u16)) -> bool
    ensures { result ≡ spec.is_same_end x y }
{
    x.0 == y.0 && x.1 == y.1
}

fn has_end(end: (u64, u16), link: Link) -> bool
    ensures { result ≡ spec.has_end end link }
{
    is_same_end(link.a, end) || is_same_end(link.b, end)
}

/// Counts the links that have the end.
fn times_end(end: (u64, u16), links: &[Link]) -> usize
    ensures { result ≡ spec.times_end end links.now }
{
    links.iter().filter(|link| has_end(end, **link)).count()
}

/// Tells whether the ends of a link differ, and no other link has one of them.
fn stands_apart(links: &[Link], link: Link) -> bool
    ensures { result ≡ spec.stands_apart links.now link }
{
    !is_same_end(link.a, link.b) && times_end(link.a, links) == 1 && times_end(link.b, links) == 1
}

fn all_apart(links: &[Link]) -> bool
    ensures { result ≡ list_all (spec.stands_apart links.now) links.now }
{
    links.iter().all(|link| stands_apart(links, *link))
}

fn item_link(value: &Value) -> Option<Link>
    ensures { result ≡ spec.item_link (view value.now) }
{
    link_in(value.as_str()?)
}

/// Returns the links of the items, if each item is one.
fn links_of(alloc: Global, items: &Array) -> Result<Option<Vec<Link>>, AllocError>
    ensures { IfOk result (λ o. option_map (λ v. v.items) o ≡ spec.links_of (array_view items.now)) }
{
    let mut links = Vec::with_capacity(alloc, items.len())?;
    for item in items {
        let Some(link) = item_link(item) else {
            return Ok(None);
        };
        links.push(link)?;
    }
    Ok(Some(links))
}

fn if_apart(links: Option<Vec<Link>>) -> Option<Vec<Link>>
    ensures { option_map (λ v. v.items) result ≡ spec.if_all_apart (option_map (λ v. v.items) links) }
{
    match links {
        Some(links) if all_apart(links.as_slice()) => Some(links),
        _ => None,
    }
}

fn links_in(alloc: Global, value: &Value) -> Result<Option<Vec<Link>>, AllocError>
    ensures { IfOk result (λ o. option_map (λ v. v.items) o ≡ spec.links_in (view value.now)) }
{
    match value.as_array() {
        Some(items) if 1 <= count(items) && count(items) <= MOST_LINKS => {
            Ok(if_apart(links_of(alloc, items)?))
        }
        _ => Ok(None),
    }
}

/// Reads the links.
#[tactic(auto, unfolding(crate::specs::GuardKeys::links_answer))]
fn links(alloc: Global, judge: Judge, table: &Table) -> Result<Option<Vec<Link>>, PolicyFault>
    ensures { Gives (λ o. option_map (λ v. v.items) o) result (spec.links_answer judge (table_view table.now)) }
{
    match (is_guard(judge), member(table, "links")) {
        (false, None) => Ok(None),
        (false, Some(_)) => Err(out_of_range(alloc, "links")),
        (true, None) => Err(PolicyFault::Missing(String::from_str(alloc, "links")?)),
        (true, Some(value)) => match links_in(alloc, value)? {
            Some(links) => Ok(Some(links)),
            None => Err(out_of_range(alloc, "links")),
        },
    }
}

fn rule_of(field: Option<GuardField>, links: Option<Vec<Link>>) -> Option<GuardRule>
    ensures { option_map guard_value result ≡ spec.guard_of field (option_map (λ v. v.items) links) }
{
    match (field, links) {
        (Some(field), Some(links)) => Some(GuardRule { field, links }),
        _ => None,
    }
}

/// Reads what the judge looks at that looks for loops, where it is chosen.
#[tactic(auto, unfolding(crate::specs::Steps::guard_answer))]
pub(crate) fn guard(
    alloc: Global,
    judge: Judge,
    table: &Table,
) -> Result<Option<GuardRule>, PolicyFault>
    ensures { Gives (λ o. option_map guard_value o) result (guard_answer judge (table_view table.now)) }
{
    let field = field(alloc, judge, table)?;
    let links = links(alloc, judge, table)?;
    Ok(rule_of(field, links))
}
