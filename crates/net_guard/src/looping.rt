//! Places that packets come back to.

ghost use Rattle.std.specs.Prelude.{◌≡◌, ◌≤◌, ◌<◌, ℕ, Option, Some, length, slice_index, if◌then◌else◌};
ghost use Rattle.flow_table.specs.View.{plains};
ghost use Rattle.net_guard.specs.Bits.{Marks, edge_of};
ghost use Rattle.net_guard.specs.Links.{place_at};
ghost use Rattle.net_guard.specs.Leading.{is_viewed, leads_over};
ghost use Rattle.net_guard.specs.Loops.{IsLeastOf, IsLeastLoop, earlier_of};

use crate::bits::has;
use crate::closing::close;
use crate::hop::Hop;
use crate::leading::led_from;
use crate::scope::Scope;
use flow_table::TableView;
use guard_rule::GuardField;

/// For each place, by its number, those that it leads to.
fn graph(
    field: GuardField,
    scope: Scope,
    hops: &[Hop],
    viewed: u128,
    tables: &[TableView],
) -> [u128; 128]
    requires most { length hops.now ≤ 128 }
    requires viewed { Marks viewed hops.now (λ h. is_viewed h.to.0 (plains tables.now)) }
    ensures whole { length result ≡ 128 }
    ensures each { (i : ℕ) → i < length hops.now
        → Marks (slice_index result i) hops.now (leads_over (record { field = field; hops = hops.now }) scope (plains tables.now) (place_at hops.now i)) }
{
    let mut graph = [0u128; 128];
    for (i, hop) in hops.iter().enumerate() {
        graph[i] = led_from(field, scope, hops, viewed, hop.to, tables);
    }
    graph
}

/// The lesser of a place found before and another one.
fn earlier(best: Option<(u64, u16)>, place: (u64, u16)) -> (u64, u16)
    ensures { result ≡ earlier_of best place }
{
    match best {
        Some(found) if found.0 < place.0 || (found.0 == place.0 && found.1 <= place.1) => found,
        _ => place,
    }
}

/// The least place found so far, with another one if that returns to itself.
fn with_place(best: Option<(u64, u16)>, returns: bool, place: (u64, u16)) -> Option<(u64, u16)>
    ensures { result ≡ (if returns then Some (earlier_of best place) else best) }
{
    if returns {
        Some(earlier(best, place))
    } else {
        best
    }
}

/// The least of the places that reach themselves.
fn least_place(graph: &[u128], hops: &[Hop]) -> Option<(u64, u16)>
    requires graph { length hops.now ≤ length graph.now }
    requires most { length graph.now ≤ 128 }
    ensures { IsLeastOf hops.now (λ i. edge_of graph.now i i) (length hops.now) result }
{
    let mut best = None;
    for (i, hop) in hops.iter().enumerate() {
        best = with_place(best, has(graph[i], i), hop.to);
    }
    best
}

/// The least of the places that lead to themselves in one or more steps; takes no memory.
pub(crate) fn least_on_loop(
    field: GuardField,
    scope: Scope,
    hops: &[Hop],
    viewed: u128,
    tables: &[TableView],
) -> Option<(u64, u16)>
    requires most { length hops.now ≤ 128 }
    requires viewed { Marks viewed hops.now (λ h. is_viewed h.to.0 (plains tables.now)) }
    ensures { IsLeastLoop (record { field = field; hops = hops.now }) scope (plains tables.now) result }
{
    let mut graph = graph(field, scope, hops, viewed, tables);
    close(&mut graph, hops.len());
    least_place(&graph, hops)
}
