//! Where packets go that come in at a place.

ghost use Rattle.std.specs.Prelude.{◌≡◌, ◌==◌, ◌≤◌, ◌&&◌, ◌||◌, not, length};
ghost use Rattle.std.specs.List.{list_any};
ghost use Rattle.flow_table.specs.View.{plain, plains};
ghost use Rattle.net_guard.specs.Bits.{Marks};
ghost use Rattle.net_guard.specs.Links.{Guarded};
ghost use Rattle.net_guard.specs.Taking.{considered, is_whole, fields_of_row, may_take, surely_takes};
ghost use Rattle.net_guard.specs.Leading.{goes_by, goes_over, row_over, table_over, is_viewed, leads_over};

use crate::bits;
use crate::hop::Hop;
use crate::scope::Scope;
use crate::taking::{may_take, surely_takes};
use flow_table::{TableView, ViewRow};
use guard_rule::GuardField;
use of_action::Action;
use of_types::ports;

/// Tells whether an output goes out by a port, for a packet that came in at a port.
#[tactic(auto, unfolding(crate::specs::Leading::goes_by))]
fn goes_by(to: u16, at: u16, port: u16) -> bool
    ensures { result ≡ goes_by to at port }
{
    if to == ports::IN_PORT {
        port == at
    } else if port == at {
        false
    } else {
        to == ports::ALL || to == ports::FLOOD || to == port
    }
}

fn goes_over(place: (u64, u16), hop: Hop, action: &Action) -> bool
    ensures { result ≡ goes_over place hop action.now }
{
    match action {
        Action::Output { port, .. } => hop.from.0 == place.0 && goes_by(*port, place.1, hop.from.1),
        _ => false,
    }
}

/// The hops over which an action sends a packet that came in at a place.
fn by_action(hops: &[Hop], place: (u64, u16), action: &Action) -> u128
    requires { length hops.now ≤ 128 }
    ensures { Marks result hops.now (λ h. goes_over place h action.now) }
{
    let mut set = 0;
    for (i, hop) in hops.iter().enumerate() {
        set = bits::with_if(set, i, goes_over(place, *hop, action));
    }
    set
}

/// The hops over which a row does.
fn by_row(hops: &[Hop], place: (u64, u16), row: &ViewRow) -> u128
    requires { length hops.now ≤ 128 }
    ensures { Marks result hops.now (λ h. row_over place h row.now) }
{
    let mut set = 0;
    for action in row.actions.as_slice() {
        set = bits::either(set, by_action(hops, place, action));
    }
    set
}

/// The hops over which a row does, if it counts.
fn by_counted(hops: &[Hop], place: (u64, u16), counts: bool, row: &ViewRow) -> u128
    requires { length hops.now ≤ 128 }
    ensures { Marks result hops.now (λ h. counts && row_over place h row.now) }
{
    if counts { by_row(hops, place, row) } else { 0 }
}

/// Tells whether a row counts: a packet may take it, and no row before it is surely taken, or it has no wildcard.
fn counts(field: GuardField, scope: Scope, port: u16, covered: bool, row: &ViewRow) -> bool
    ensures { result ≡ (may_take field scope port (fields_of_row row.now) && (not covered || is_whole row.now)) }
{
    may_take(field, scope, port, &row.key.matching.fields())
        && (!covered || row.key.matching.is_exact())
}

/// Tells whether a row is surely taken, or one before it was.
fn covers(field: GuardField, scope: Scope, port: u16, covered: bool, row: &ViewRow) -> bool
    ensures { result ≡ (covered || surely_takes field scope port (fields_of_row row.now)) }
{
    covered || surely_takes(field, scope, port, &row.key.matching.fields())
}

/// The hops over which the considered rows do.
fn by_rows(
    field: GuardField,
    scope: Scope,
    hops: &[Hop],
    place: (u64, u16),
    rows: &[ViewRow],
) -> u128
    requires { length hops.now ≤ 128 }
    ensures { Marks result hops.now (λ h. list_any (row_over place h) (considered field scope place.1 rows.now)) }
{
    let mut set = 0;
    let mut covered = false;
    for row in rows {
        let counts = counts(field, scope, place.1, covered, row);
        set = bits::either(set, by_counted(hops, place, counts, row));
        covered = covers(field, scope, place.1, covered, row);
    }
    set
}

/// The hops over which a place leads by the rows of a table, wherever they arrive.
fn by_table(
    field: GuardField,
    scope: Scope,
    hops: &[Hop],
    place: (u64, u16),
    table: &TableView,
) -> u128
    requires { length hops.now ≤ 128 }
    ensures { Marks result hops.now (λ h. table_over (record { field = field; hops = hops.now }) scope place h (plain table.now)) }
{
    if table.dpid == place.0 {
        by_rows(field, scope, hops, place, table.rows.as_slice())
    } else {
        0
    }
}

/// The hops over which a place leads, wherever they arrive.
fn by_tables(
    field: GuardField,
    scope: Scope,
    hops: &[Hop],
    place: (u64, u16),
    tables: &[TableView],
) -> u128
    requires { length hops.now ≤ 128 }
    ensures { Marks result hops.now (λ h. list_any (table_over (record { field = field; hops = hops.now }) scope place h) (plains tables.now)) }
{
    let mut set = 0;
    for table in tables {
        set = bits::either(set, by_table(field, scope, hops, place, table));
    }
    set
}

fn has_table(tables: &[TableView], dpid: u64) -> bool
    ensures { result ≡ list_any (λ t. t.dpid == dpid) tables.now }
{
    tables.iter().any(|table| table.dpid == dpid)
}

/// Tells whether a switch has a table.
fn is_viewed(tables: &[TableView], dpid: u64) -> bool
    ensures { result ≡ is_viewed dpid (plains tables.now) }
{
    has_table(tables, dpid)
}

/// The hops that arrive at a switch which has a table.
pub(crate) fn viewed(hops: &[Hop], tables: &[TableView]) -> u128
    requires { length hops.now ≤ 128 }
    ensures { Marks result hops.now (λ h. is_viewed h.to.0 (plains tables.now)) }
{
    let mut set = 0;
    for (i, hop) in hops.iter().enumerate() {
        set = bits::with_if(set, i, is_viewed(tables, hop.to.0));
    }
    set
}

/// The hops over which a place leads to a switch that has a table.
#[tactic(auto, unfolding(crate::specs::Leading::leads_over))]
pub(crate) fn led_from(
    field: GuardField,
    scope: Scope,
    hops: &[Hop],
    viewed: u128,
    place: (u64, u16),
    tables: &[TableView],
) -> u128
    requires most { length hops.now ≤ 128 }
    requires viewed { Marks viewed hops.now (λ h. is_viewed h.to.0 (plains tables.now)) }
    ensures { Marks result hops.now (leads_over (record { field = field; hops = hops.now }) scope (plains tables.now) place) }
{
    bits::both(by_tables(field, scope, hops, place, tables), viewed)
}
