//! The keys of a table, and what is wrong with them.

ghost use Rattle.std.specs.Prelude.{◌≡◌, map, option_map, string_bytes, Err};
ghost use Rattle.std.specs.BTreeMap.{IsOrdered, keys};
ghost use Rattle.std.specs.String.{string_cmp};
ghost use Rattle.toml.specs.Data.{get_member};
ghost use Rattle.toml.specs.View.{view, array_view, table_view};
ghost use Rattle.crash_policy.specs.Faults.{Gives, Refuses, out_of_range as range_of};
ghost use Rattle.crash_policy.specs.Keys as spec;
ghost use Rattle.crash_policy.specs.Keys.{is_known};
ghost use Rattle.crash_policy.specs.Ascending.{first_unknown};

use crate::policy_fault::PolicyFault;
use crate::words::{Level, is_known, number_within};
use std::alloc::Global;
use toml::value::Array;
use toml::{Table, Value};

/// Finds the value of a key.
pub(crate) fn member<'a>(table: &'a Table, key: &str) -> Option<&'a Value>
    ensures { option_map (λ v. view v.now) result ≡ get_member key.now (table_view table.now) }
{
    table.get(key)
}

/// Makes the fault of a value that its key may not have.
pub(crate) fn out_of_range(alloc: Global, key: &str) -> PolicyFault
    ensures { Refuses {A = Unit {0}} result (Err (range_of key.now)) }
{
    match String::from_str(alloc, key) {
        Ok(key) => PolicyFault::Range(key),
        Err(_) => PolicyFault::NoMemory,
    }
}

/// Finds the first key that the place may not have.
fn first_unknown(table: &Table, place: Level) -> Option<&String>
    ensures first { option_map (λ k. string_bytes k.now) result
        ≡ first_unknown (is_known place) (map string_bytes (keys table.now)) }
    ensures ascending { IsOrdered string_cmp table.now }
{
    for key in table.keys() {
        if !is_known(place, key.as_str()) {
            return Some(key);
        }
    }
    None
}

/// Checks that each key is one that the place may have. The least other one is the fault.
pub(crate) fn known_keys(table: &Table, place: Level) -> Result<(), PolicyFault>
    ensures { Gives (λ u. u) result (spec.known_keys place (table_view table.now)) }
{
    match first_unknown(table, place) {
        None => Ok(()),
        Some(key) => Err(PolicyFault::UnknownKey(key.clone()?)),
    }
}

/// Checks that the key is there.
pub(crate) fn needed(alloc: Global, table: &Table, key: &str) -> Result<(), PolicyFault>
    ensures { Gives (λ u. u) result (spec.needed key.now (table_view table.now)) }
{
    match member(table, key) {
        Some(_) => Ok(()),
        None => Err(PolicyFault::Missing(String::from_str(alloc, key)?)),
    }
}

/// Returns the number of a value, where it lies within the limits.
pub(crate) fn number_in(low: u32, high: u32, value: &Value) -> Option<u32>
    ensures { result ≡ spec.number_in low high (view value.now) }
{
    number_within(low, high, value.as_integer()?)
}

/// Tells how many items there are.
pub(crate) fn count(items: &Array) -> usize
    ensures { result ≡ spec.count_of (array_view items.now) }
{
    items.len()
}
