//! The values of the guarded field that rows name.

ghost use Rattle.std.specs.Prelude.{◌≡◌, Option, Some, None, fold};
ghost use Rattle.flow_table.specs.View.{plains};
ghost use Rattle.net_guard.specs.Values.{lower, least_from, address_named, prefix_named, named_by, named_in_rows, named_in, numbers_in};

use crate::taking::address_number;
use flow_table::{TableView, ViewRow};
use guard_rule::GuardField;
use of_match::Fields;

/// The lower of a number found earlier and another one, if that is not below the bound.
fn lower(from: u64, best: Option<u64>, number: u64) -> Option<u64>
    ensures { result ≡ lower from best number }
{
    if number < from {
        return best;
    }
    match best {
        None => Some(number),
        Some(earlier) => Some(earlier.min(number)),
    }
}

fn least_of_address(from: u64, best: Option<u64>, field: Option<[u8; 6]>) -> Option<u64>
    ensures { result ≡ fold (lower from) best (address_named field) }
{
    match field {
        None => best,
        Some(address) => lower(from, best, address_number(address)),
    }
}

fn least_of_prefix(from: u64, best: Option<u64>, field: Option<(u32, u8)>) -> Option<u64>
    ensures { result ≡ fold (lower from) best (prefix_named field) }
{
    let Some((first, len)) = field else {
        return best;
    };
    let first = u64::from(first);
    let best = lower(from, best, first);
    let end = first + (1 << 32u32.saturating_sub(u32::from(len)));
    if end < 0x1_0000_0000 {
        lower(from, best, end)
    } else {
        best
    }
}

/// The least of the numbers from a bound on that fields name, and of one found earlier.
#[tactic(auto, unfolding(crate::specs::Values::named_by))]
fn least_of_fields(field: GuardField, from: u64, best: Option<u64>, f: &Fields) -> Option<u64>
    ensures { result ≡ fold (lower from) best (named_by field f.now) }
{
    match field {
        GuardField::DlDst => least_of_address(from, best, f.dl_dst),
        GuardField::NwDst => least_of_prefix(from, best, f.nw_dst),
    }
}

fn least_of_rows(field: GuardField, from: u64, best: Option<u64>, rows: &[ViewRow]) -> Option<u64>
    ensures { result ≡ fold (lower from) best (named_in_rows field rows.now) }
{
    let mut least = best;
    for row in rows {
        least = least_of_fields(field, from, least, &row.key.matching.fields());
    }
    least
}

fn least_of_tables(
    field: GuardField,
    from: u64,
    best: Option<u64>,
    tables: &[TableView],
) -> Option<u64>
    ensures { result ≡ fold (lower from) best (named_in field (plains tables.now)) }
{
    let mut least = best;
    for table in tables {
        least = least_of_rows(field, from, least, table.rows.as_slice());
    }
    least
}

/// Finds the least number from a bound on among the values; takes no memory.
#[tactic(auto, unfolding(crate::specs::Values::least_from))]
pub(crate) fn least_from(field: GuardField, from: u64, tables: &[TableView]) -> Option<u64>
    ensures { result ≡ least_from from None (numbers_in field (plains tables.now)) }
{
    let zero = match field {
        GuardField::DlDst => None,
        GuardField::NwDst => lower(from, None, 0),
    };
    least_of_tables(field, from, zero, tables)
}
