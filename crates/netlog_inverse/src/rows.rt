//! Which rows of a view a FLOW_MOD means, and the rows of keys.

ghost use Rattle.std.specs.Prelude.{◌≡◌, ◌==◌, MatchOption, IfSome, None, Some};
ghost use Rattle.std.specs.List.{list_any};
ghost use Rattle.of_match.specs.Key.{key_number};
ghost use Rattle.flow_table.specs.Change.{is_modify, key_in, is_output_to, describes, sends_to};
ghost use Rattle.flow_table.specs.Corrected.{row_at};
ghost use Rattle.netlog_inverse.specs.Plans.{AreShowable, IsShowable, means_row, adds_row, deletes_row, counts_at, stray};

use flow_table::ViewRow;
use keyed_rows::{Lookup, compare_keys};
use match_overlap::subsumes;
use of_action::{Action, ActionList};
use of_match::Key;
use of_stats::FlowRow;
use of_types::{PortNo, flows, ports};
use of_wire::FlowMod;
use std::cmp::Ordering;

/// Tells whether two keys are one.
pub(crate) fn is_same(a: &Key, b: &Key) -> bool
    ensures { result ≡ (key_number a.now == key_number b.now) }
{
    compare_keys(a, b) == Ordering::Equal
}

/// Returns the key that a FLOW_MOD names.
pub(crate) fn key_of(m: &FlowMod) -> Key
    ensures { result ≡ key_in m.now }
{
    Key {
        priority: m.priority,
        matching: m.matching,
    }
}

/// Tells whether a FLOW_MOD, strict or not, means a row.
#[tactic(auto, unfolding(flow_table::specs::Change::describes))]
pub(crate) fn is_described(m: &FlowMod, row: &ViewRow) -> bool
    ensures { result ≡ means_row m.now row.now }
{
    if m.command == flows::MODIFY_STRICT || m.command == flows::DELETE_STRICT {
        is_same(&row.key, &key_of(m))
    } else {
        subsumes(&m.matching, &row.key.matching)
    }
}

fn is_output(port: PortNo, action: &Action) -> bool
    ensures { result ≡ is_output_to port action.now }
{
    matches!(action, Action::Output { port: to, .. } if *to == port)
}

/// Tells whether some OUTPUT of the actions goes to a port.
fn has_output(port: PortNo, actions: &[Action]) -> bool
    ensures { result ≡ list_any (is_output_to port) actions.now }
{
    actions.iter().any(|action| is_output(port, action))
}

/// Tells whether a port is NONE, or some OUTPUT of the actions goes to it.
#[tactic(auto, unfolding(flow_table::specs::Change::sends_to))]
fn sends(out_port: PortNo, actions: &ActionList) -> bool
    ensures { result ≡ sends_to out_port actions.now }
{
    out_port == ports::NONE || has_output(out_port, actions.as_slice())
}

/// Tells whether a DELETE takes a row out.
pub(crate) fn is_deleted(m: &FlowMod, row: &ViewRow) -> bool
    ensures { result ≡ deletes_row m.now row.now }
{
    is_described(m, row) && sends(m.out_port, &row.actions)
}

/// Tells whether the command is one of the two of MODIFY.
pub(crate) fn is_modifying(m: &FlowMod) -> bool
    ensures { result ≡ is_modify m.now }
{
    m.command == flows::MODIFY || m.command == flows::MODIFY_STRICT
}

/// Tells whether a FLOW_MOD means some row.
fn is_met(m: &FlowMod, view: &[ViewRow]) -> bool
    ensures { result ≡ list_any (means_row m.now) view.now }
{
    view.iter().any(|row| is_described(m, row))
}

/// Tells whether a FLOW_MOD puts an entry in: an ADD, or a MODIFY that meets no row.
#[tactic(auto, unfolding(crate::specs::Plans::adds_row))]
pub(crate) fn is_adding(m: &FlowMod, view: &[ViewRow]) -> bool
    ensures { result ≡ adds_row m.now view.now }
{
    m.command == flows::ADD || is_modifying(m) && !is_met(m, view)
}

/// Returns the row of a key; each row of the view can be shown.
pub(crate) fn row_of<'a>(view: &Lookup<'a, ViewRow>, key: &Key) -> Option<&'a ViewRow>
    requires { AreShowable view.now }
    ensures row { MatchOption result (row_at key.now view.now ≡ None) (λ r. row_at key.now view.now ≡ Some r.now) }
    ensures showable { IfSome result (λ r. IsShowable r.now) }
{
    view.find(key)
}

/// Returns what a switch reports of a key.
pub(crate) fn counts_of<'a>(rows: &Lookup<'a, FlowRow>, key: &Key) -> Option<&'a FlowRow>
    ensures { MatchOption result (counts_at key.now rows.now ≡ None) (λ f. counts_at key.now rows.now ≡ Some f.now) }
{
    rows.find(key)
}

/// Returns the first of a switch's rows that has no row in the view.
pub(crate) fn find_stray<'a>(rows: &'a [FlowRow], view: &Lookup<'_, ViewRow>) -> Option<&'a FlowRow>
    ensures { MatchOption result (stray view.now rows.now ≡ None) (λ f. stray view.now rows.now ≡ Some f.now) }
{
    for row in rows {
        if view.find(&row.key).is_none() {
            return Some(row);
        }
    }
    None
}
