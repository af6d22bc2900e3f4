//! Which entries of a table a FLOW_MOD means, and what stands against it.

ghost use Rattle.std.specs.Prelude.{◌≡◌, ◌==◌, ◌≤◌, IfNone};
ghost use Rattle.std.specs.List.{list_any};
ghost use Rattle.std.specs.Ordering.{nat_cmp};
ghost use Rattle.of_match.specs.Key.{key_number};
ghost use Rattle.flow_table.specs.Table.{IsTable, IsPlaceOf, place_of, has_key};
ghost use Rattle.tuple_index.specs.Groups.{IsIndexed};
ghost use Rattle.flow_table.specs.Change.{key_in, is_strict, is_modify, is_delete, is_output_to, describes, sends_to, deletes, adds, clashes, clashes_with, is_full, refusal, asks_notice};

use crate::grouping::key_order;
use crate::reaching::{clashes_some, subsumes_some};
use flow_table::Entry;
use match_overlap::subsumes;
use of_action::{Action, ActionList};
use of_match::Key;
use of_types::{OfError, PortNo, errors, flows, ports};
use of_wire::FlowMod;
use std::cmp::Ordering;

/// The key that a FLOW_MOD names.
pub(crate) fn key_of(m: &FlowMod) -> Key
    ensures { result ≡ key_in m.now }
{
    Key {
        priority: m.priority,
        matching: m.matching,
    }
}

/// How an entry stands to a key in key order.
fn entry_order(entry: &Entry, key: &Key) -> Ordering
    ensures { result ≡ nat_cmp (place_of entry.now) (key_number key.now) }
{
    key_order(&entry.key, key)
}

/// Where the entry of a key stands, or where it would stand.
pub(crate) fn position(entries: &[Entry], key: &Key) -> Result<usize, usize>
    requires { IsTable entries.now }
    ensures { IsPlaceOf (key_number key.now) entries.now result }
{
    let mut low = 0;
    let mut high = entries.len();
    while low < high {
        let middle = low + (high - low) / 2;
        match entry_order(&entries[middle], key) {
            Ordering::Less => low = middle + 1,
            Ordering::Equal => return Ok(middle),
            Ordering::Greater => high = middle,
        }
    }
    Err(low)
}

/// Whether there is an entry of a key.
pub(crate) fn has_entry(entries: &[Entry], key: &Key) -> bool
    requires { IsTable entries.now }
    ensures { result ≡ list_any (has_key key.now) entries.now }
{
    position(entries, key).is_ok()
}

/// Whether a FLOW_MOD names one key.
fn is_strict(m: &FlowMod) -> bool
    ensures { result ≡ is_strict m.now }
{
    m.command == flows::MODIFY_STRICT || m.command == flows::DELETE_STRICT
}

/// Whether a FLOW_MOD, strict or not, means an entry.
#[tactic(auto, unfolding(flow_table::specs::Change::describes))]
pub(crate) fn is_described(m: &FlowMod, entry: &Entry) -> bool
    ensures { result ≡ describes m.now entry.now.key }
{
    if is_strict(m) {
        entry.has_key(&key_of(m))
    } else {
        subsumes(&m.matching, &entry.key.matching)
    }
}

fn is_output(port: PortNo, action: &Action) -> bool
    ensures { result ≡ is_output_to port action.now }
{
    matches!(action, Action::Output { port: to, .. } if *to == port)
}

/// Whether some OUTPUT of the actions goes to a port.
fn has_output(port: PortNo, actions: &[Action]) -> bool
    ensures { result ≡ list_any (is_output_to port) actions.now }
{
    actions.iter().any(|action| is_output(port, action))
}

/// Whether `out_port` is NONE or some OUTPUT of the actions goes to it.
#[tactic(auto, unfolding(flow_table::specs::Change::sends_to))]
pub(crate) fn sends(out_port: PortNo, actions: &ActionList) -> bool
    ensures { result ≡ sends_to out_port actions.now }
{
    out_port == ports::NONE || has_output(out_port, actions.as_slice())
}

/// Whether a DELETE removes the entry.
pub(crate) fn is_deleted(m: &FlowMod, entry: &Entry) -> bool
    ensures { result ≡ deletes m.now entry.now }
{
    is_described(m, entry) && sends(m.out_port, &entry.actions)
}

/// Whether an entry with these flags asks for a notice when it goes.
pub(crate) fn asks(flags: u16) -> bool
    ensures { result ≡ asks_notice flags }
{
    flows::sends_flow_removed(flags)
}

/// Whether a FLOW_MOD means an entry: a strict one by a search for its key, another one by a look at the groups.
#[tactic(auto, unfolding(flow_table::specs::Change::describes))]
pub(crate) fn is_met(m: &FlowMod, entries: &[Entry], index: &[Key]) -> bool
    requires { IsIndexed index.now entries.now }
    ensures { result ≡ list_any (λ e. describes m.now e.key) entries.now }
{
    if is_strict(m) {
        has_entry(entries, &key_of(m))
    } else {
        subsumes_some(index, &m.matching)
    }
}

/// Whether the command is one of the two of MODIFY.
pub(crate) fn is_modifying(m: &FlowMod) -> bool
    ensures { result ≡ is_modify m.now }
{
    m.command == flows::MODIFY || m.command == flows::MODIFY_STRICT
}

/// Whether the command is one of the two of DELETE.
pub(crate) fn is_delete(m: &FlowMod) -> bool
    ensures { result ≡ is_delete m.now }
{
    m.command == flows::DELETE || m.command == flows::DELETE_STRICT
}

/// Whether the FLOW_MOD puts an entry in: an ADD, or a MODIFY that meets no entry.
#[tactic(auto, unfolding(flow_table::specs::Change::adds))]
pub(crate) fn is_adding(m: &FlowMod, entries: &[Entry], index: &[Key]) -> bool
    requires { IsIndexed index.now entries.now }
    ensures { result ≡ adds m.now entries.now }
{
    m.command == flows::ADD || is_modifying(m) && !is_met(m, entries, index)
}

/// Whether some entry overlaps one of a key, by a look at the groups.
fn has_overlap(entries: &[Entry], index: &[Key], key: &Key) -> bool
    requires { IsIndexed index.now entries.now }
    ensures { result ≡ list_any (clashes_with key.now) entries.now }
{
    clashes_some(index, key)
}

/// Whether another entry of the priority overlaps, and that was to be checked.
#[tactic(auto, unfolding(flow_table::specs::Change::clashes))]
fn is_clashing(m: &FlowMod, entries: &[Entry], index: &[Key]) -> bool
    requires { IsIndexed index.now entries.now }
    ensures { result ≡ clashes m.now entries.now }
{
    flows::checks_overlap(m.flags) && has_overlap(entries, index, &key_of(m))
}

/// Whether there is no room for a new key in a table of `cap` entries.
#[tactic(auto, unfolding(flow_table::specs::Change::is_full))]
fn lacks_room(m: &FlowMod, entries: &[Entry], cap: u32) -> bool
    requires { IsTable entries.now }
    ensures { result ≡ is_full cap m.now entries.now }
{
    !has_entry(entries, &key_of(m)) && u64::from(cap) <= entries.len() as u64
}

/// The first error that stands against a FLOW_MOD in a table of `cap` entries; `adding` says whether it puts
/// an entry in.
#[tactic(auto, unfolding(flow_table::specs::Change::refusal))]
pub(crate) fn find_refusal(
    m: &FlowMod,
    entries: &[Entry],
    index: &[Key],
    cap: u32,
    adding: bool,
) -> Option<OfError>
    requires indexed { IsIndexed index.now entries.now }
    requires adding { adding ≡ adds m.now entries.now }
    ensures value { result ≡ refusal cap m.now entries.now }
    ensures known { IfNone result (m.now.command ≤ 4) }
{
    if flows::DELETE_STRICT < m.command {
        Some(errors::FLOW_BAD_COMMAND)
    } else if !adding {
        None
    } else if is_clashing(m, entries, index) {
        Some(errors::FLOW_OVERLAP)
    } else if lacks_room(m, entries, cap) {
        Some(errors::FLOW_TABLES_FULL)
    } else {
        None
    }
}
