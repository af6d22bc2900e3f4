//! Sums with what was lost.

ghost use Rattle.std.specs.Prelude.{◌≡◌, None, filter, if◌then◌else◌};
ghost use Rattle.std.specs.List.{list_any};
ghost use Rattle.flow_table.specs.Sorted.{AreLostRows};
ghost use Rattle.flow_table.specs.Change.{is_output_to, sends_to};
ghost use Rattle.flow_table.specs.Corrected.{lost_at};
ghost use Rattle.counter_cache.specs.Fixed.{is_met, fixed_sum};
ghost use Rattle.counter_cache.specs.Totals.{added, IsTotal};

use crate::rows::find;
use flow_table::{Lost, TableView, ViewRow};
use match_overlap::subsumes;
use of_action::{Action, ActionList};
use of_match::{Key, Match};
use of_stats::Sum;
use of_types::{PortNo, ports};

fn is_output(port: PortNo, action: &Action) -> bool
    ensures { result ≡ is_output_to port action.now }
{
    matches!(action, Action::Output { port: to, .. } if *to == port)
}

/// Tells whether some OUTPUT of the actions goes to a port.
fn has_output(port: PortNo, actions: &[Action]) -> bool
    ensures { result ≡ list_any (is_output_to port) actions.now }
{
    actions.iter().any(|action| is_output(port, action))
}

/// Tells whether a port is NONE, or some OUTPUT of the actions goes to it.
#[tactic(auto, unfolding(flow_table::specs::Change::sends_to))]
fn sends(out_port: PortNo, actions: &ActionList) -> bool
    ensures { result ≡ sends_to out_port actions.now }
{
    out_port == ports::NONE || has_output(out_port, actions.as_slice())
}

/// Tells whether a request meets a row.
#[tactic(auto, unfolding(crate::specs::Fixed::is_met))]
fn is_met(row: &ViewRow, m: &Match, out_port: PortNo) -> bool
    ensures { result ≡ is_met m.now out_port row.now }
{
    subsumes(m, &row.key.matching) && sends(out_port, &row.actions)
}

/// Finds what the entry of a row has lost, if a request meets the row.
fn find_met(lost: &[(Key, Lost)], row: &ViewRow, m: &Match, out_port: PortNo) -> Option<Lost>
    requires { AreLostRows lost.now }
    ensures { result ≡ (if is_met m.now out_port row.now then lost_at row.now.key lost.now else None) }
{
    if is_met(row, m, out_port) {
        find(lost, &row.key)
    } else {
        None
    }
}

/// So many packets and bytes, modulo 2^64.
#[derive(Drop)]
struct Total {
    packets: u64,
    bytes: u64,
}

/// Adds what an entry has lost.
fn add(total: &mut Total, lost: Option<Lost>)
    ensures { total.new ≡ added lost total.old }
{
    if let Some(lost) = lost {
        total.packets = total.packets.wrapping_add(lost.packets);
        total.bytes = total.bytes.wrapping_add(lost.bytes);
    }
}

/// What the entries of those rows lost that a request meets.
fn total_of(lost: &[(Key, Lost)], view: &[ViewRow], m: &Match, out_port: PortNo) -> Total
    requires { AreLostRows lost.now }
    ensures { IsTotal lost.now (filter (is_met m.now out_port) view.now) result }
{
    let mut total = Total {
        packets: 0,
        bytes: 0,
    };
    for row in view {
        add(&mut total, find_met(lost, row, m, out_port));
    }
    total
}

/// Adds to a sum what the entries of those rows of a table lost that a request meets.
#[tactic(auto, unfolding(crate::specs::Fixed::fixed_sum))]
pub(crate) fn fix_sum_of(
    lost: &[(Key, Lost)],
    view: &TableView,
    m: &Match,
    out_port: PortNo,
    sum: &mut Sum,
)
    requires { AreLostRows lost.now }
    ensures { sum.new ≡ fixed_sum lost.now (filter (is_met m.now out_port) view.now.rows.rows) sum.old }
{
    let total = total_of(lost, view.rows.as_slice(), m, out_port);
    sum.packets = sum.packets.wrapping_add(total.packets);
    sum.bytes = sum.bytes.wrapping_add(total.bytes);
}
