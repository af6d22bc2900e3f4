//! Which places are reached from which in one or more steps.

ghost use Rattle.std.specs.Prelude.{◌≡◌, ◌<◌, ◌≤◌, ℕ, length, map, slice_index};
ghost use Rattle.net_guard.specs.Bits.{has, joined, edge_of};
ghost use Rattle.net_guard.specs.Walks.{reaches};

use crate::bits;

/// Goes on from each place by way of one place more.
fn widen(graph: &mut [u128], k: usize)
    requires number { k < length graph.old }
    requires most { length graph.old ≤ 128 }
    ensures { graph.new ≡ map (joined k (slice_index graph.old k)) graph.old }
{
    let behind = graph[k];
    for set in graph.iter_mut() {
        *set = bits::joined(*set, k, behind);
    }
}

/// Makes of the places that each place leads to those that it reaches in one or more steps, by way of the first `count`
/// places.
pub(crate) fn close(graph: &mut [u128], count: usize)
    requires count { count ≤ length graph.old }
    requires most { length graph.old ≤ 128 }
    ensures { (i j : ℕ) → i < length graph.old → edge_of graph.new i j ≡ reaches (edge_of graph.old) count i j }
{
    for k in 0..count {
        widen(graph, k);
    }
}
