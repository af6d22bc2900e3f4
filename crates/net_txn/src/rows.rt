//! The rows of a view: which of them a FLOW_MOD means, and where one stands, or would stand.

ghost use Rattle.std.specs.Prelude.{◌≡◌, ◌==◌, ◌<◌, ◌&&◌, not, OnOk, OnErr};
ghost use Rattle.std.specs.List.{list_any};
ghost use Rattle.std.specs.Ordering.{nat_cmp};
ghost use Rattle.of_match.specs.Key.{key_number};
ghost use Rattle.match_overlap.specs.Relations.{is_overlapping};
ghost use Rattle.flow_table.specs.declared.view.ViewRow.{ViewRow};
ghost use Rattle.flow_table.specs.Change.{is_modify, key_in, is_output_to, describes, sends_to};
ghost use Rattle.lego_model.specs.Answers.{rows_of_view, would_clash, would_touch};
ghost use Rattle.flow_table.specs.Sorted.{AreRows, IsFoundAt, row_place, with_row, without_key};

use flow_table::{ViewList, ViewRow};
use match_overlap::{overlaps, subsumes};
use of_action::{Action, ActionList};
use of_match::Key;
use of_types::{PortNo, flows, ports};
use of_wire::FlowMod;
use std::alloc::AllocError;
use std::cmp::Ordering;

/// Tells how a key stands to another one in key order.
pub(crate) fn compare(a: &Key, b: &Key) -> Ordering
    ensures { result ≡ nat_cmp (key_number a.now) (key_number b.now) }
{
    let _first = a.priority;
    let _second = b.priority;
    a.cmp(b)
}

/// Tells whether two keys are one.
pub(crate) fn is_same(a: &Key, b: &Key) -> bool
    ensures { result ≡ (key_number a.now == key_number b.now) }
{
    compare(a, b) == Ordering::Equal
}

/// Returns the key that a FLOW_MOD names.
pub(crate) fn key_of(m: &FlowMod) -> Key
    ensures { result ≡ key_in m.now }
{
    Key {
        priority: m.priority,
        matching: m.matching,
    }
}

/// Tells whether a FLOW_MOD, strict or not, means a row.
#[tactic(auto, unfolding(flow_table::specs::Change::describes))]
fn is_described(m: &FlowMod, row: &ViewRow) -> bool
    ensures { result ≡ describes m.now row.now.key }
{
    if m.command == flows::MODIFY_STRICT || m.command == flows::DELETE_STRICT {
        is_same(&row.key, &key_of(m))
    } else {
        subsumes(&m.matching, &row.key.matching)
    }
}

fn is_output(port: PortNo, action: &Action) -> bool
    ensures { result ≡ is_output_to port action.now }
{
    matches!(action, Action::Output { port: to, .. } if *to == port)
}

/// Tells whether some OUTPUT of the actions goes to a port.
fn has_output(port: PortNo, actions: &[Action]) -> bool
    ensures { result ≡ list_any (is_output_to port) actions.now }
{
    actions.iter().any(|action| is_output(port, action))
}

/// Tells whether a port is NONE, or some OUTPUT of the actions goes to it.
#[tactic(auto, unfolding(flow_table::specs::Change::sends_to))]
fn sends(out_port: PortNo, actions: &ActionList) -> bool
    ensures { result ≡ sends_to out_port actions.now }
{
    out_port == ports::NONE || has_output(out_port, actions.as_slice())
}

/// Tells whether a DELETE means a row.
fn is_deleted(m: &FlowMod, row: &ViewRow) -> bool
    ensures { result ≡ (describes m.now row.now.key && sends_to m.now.out_port row.now.actions) }
{
    is_described(m, row) && sends(m.out_port, &row.actions)
}

/// Tells whether a row has the priority of a key, another match, and some packet in common with it.
fn is_overlap(key: &Key, row: &ViewRow) -> bool
    ensures { result ≡ (row.now.key.priority == key.now.priority && (not (key_number row.now.key == key_number key.now) && is_overlapping row.now.key.matching key.now.matching)) }
{
    row.key.priority == key.priority
        && !is_same(&row.key, key)
        && overlaps(&row.key.matching, &key.matching)
}

fn has_overlap(key: &Key, rows: &[ViewRow]) -> bool
    ensures { result ≡ list_any (λ r. r.key.priority == key.now.priority && (not (key_number r.key == key_number key.now) && is_overlapping r.key.matching key.now.matching)) rows.now }
{
    rows.iter().any(|row| is_overlap(key, row))
}

/// Tells whether a row has a key, by halves.
pub(crate) fn has_key(key: &Key, rows: &[ViewRow]) -> bool
    requires { AreRows rows.now }
    ensures { result ≡ list_any (λ r. key_number r.key == key_number key.now) rows.now }
{
    keyed_rows::find(rows, key).is_some()
}

fn has_described(m: &FlowMod, rows: &[ViewRow]) -> bool
    ensures { result ≡ list_any (λ r. describes m.now r.key) rows.now }
{
    rows.iter().any(|row| is_described(m, row))
}

fn has_deleted(m: &FlowMod, rows: &[ViewRow]) -> bool
    ensures { result ≡ list_any (λ r. describes m.now r.key && sends_to m.now.out_port r.actions) rows.now }
{
    rows.iter().any(|row| is_deleted(m, row))
}

/// Tells whether another row of the priority overlaps, and that was to be checked.
fn would_clash(m: &FlowMod, rows: &[ViewRow]) -> bool
    ensures { result ≡ would_clash m.now (rows_of_view rows.now) }
{
    flows::checks_overlap(m.flags) && has_overlap(&key_of(m), rows)
}

/// Tells whether an ADD would replace a row.
fn would_replace(m: &FlowMod, rows: &[ViewRow]) -> bool
    requires { AreRows rows.now }
    ensures { result ≡ (list_any (λ r. key_number r.key == key_number (key_in m.now)) rows.now && not (would_clash m.now (rows_of_view rows.now))) }
{
    has_key(&key_of(m), rows) && !would_clash(m, rows)
}

/// Tells whether the command is one of the two of MODIFY.
fn is_modifying(m: &FlowMod) -> bool
    ensures { result ≡ is_modify m.now }
{
    m.command == flows::MODIFY || m.command == flows::MODIFY_STRICT
}

/// Tells whether a FLOW_MOD would replace, change or remove a row.
pub(crate) fn would_touch(m: &FlowMod, rows: &[ViewRow]) -> bool
    requires { AreRows rows.now }
    ensures { result ≡ would_touch m.now (rows_of_view rows.now) }
{
    if m.command == flows::ADD {
        would_replace(m, rows)
    } else if is_modifying(m) {
        has_described(m, rows)
    } else {
        has_deleted(m, rows)
    }
}

/// Tells where the row of a key stands, or where it would stand, by halves.
fn position(rows: &ViewList, key: &Key) -> Result<usize, usize>
    requires { AreRows rows.now.rows }
    ensures { IsFoundAt row_place (key_number key.now) rows.now.rows result }
{
    keyed_rows::position(rows.as_slice(), key)
}

/// Puts a row in its place, in place of one with its key.
pub(crate) fn put_row(rows: &mut ViewList, row: ViewRow) -> Result<(), AllocError>
    requires { AreRows rows.old.rows }
    ensures ok { OnOk result (rows.new.rows ≡ with_row row rows.old.rows) }
    ensures err { OnErr result (rows.new.rows ≡ rows.old.rows) }
{
    rows.reserve(1)?;
    match position(rows, &row.key) {
        Ok(at) => rows.replace(at, row),
        Err(at) => rows.insert(at, row),
    }
    Ok(())
}

/// Takes the row of a key out, if there is one.
pub(crate) fn remove_row(rows: &mut ViewList, key: &Key)
    requires { AreRows rows.old.rows }
    ensures { rows.new.rows ≡ without_key key.now rows.old.rows }
{
    match position(rows, key) {
        Ok(at) => rows.remove(at),
        Err(_) => {}
    }
}
