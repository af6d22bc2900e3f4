//! What is sent for the images since a mark, found message by message.

ghost use Rattle.std.specs.Prelude.{◌≡◌, ◌≤◌, length};
ghost use Rattle.flow_table.specs.Corrected.{row_at};
ghost use Rattle.netlog_inverse.specs.Actions.{same_action, same_actions};
ghost use Rattle.netlog_inverse.specs.Index.{IsIndex};
ghost use Rattle.netlog_inverse.specs.Next.{has_others, wants_put, message_of, IsNext, IsFoundFor};

use crate::image::{Image, Logged, PutBack};
use crate::index::{Spot, first_from, start};
use crate::log::key_of_put;
use flow_table::ViewRow;
use keyed_rows::Lookup;
use of_action::{Action, ActionList};
use of_match::Key;
use of_types::Dpid;

/// Which of the messages that put keys back: they are sent in this order.
#[derive(Clone, Copy, Debug, PartialEq, Eq)]
pub enum InverseKind {
    /// The DELETE_STRICT of a key at which nothing stood.
    Delete,
    /// The MODIFY_STRICT of an entry that has other actions.
    Modify,
    /// The ADD of an entry that went.
    Add,
}

/// An image of which a message is wanted: its position in the whole log, and its key.
#[derive(Clone, Copy, Debug, PartialEq, Eq)]
pub struct Wanted {
    /// How many images were logged before it.
    pub at: usize,
    /// The key that the message puts back.
    pub key: Key,
}

/// Tells whether two actions are one.
fn is_same_action(a: &Action, b: &Action) -> bool
    ensures { result ≡ same_action a.now b.now }
{
    match (a, b) {
        (
            Action::Output { port, max_len },
            Action::Output {
                port: other,
                max_len: most,
            },
        ) => port == other && max_len == most,
        (Action::SetVlanVid(vid), Action::SetVlanVid(other)) => vid == other,
        (Action::SetVlanPcp(pcp), Action::SetVlanPcp(other)) => pcp == other,
        (Action::StripVlan, Action::StripVlan) => true,
        (Action::SetDlSrc(address), Action::SetDlSrc(other)) => address == other,
        (Action::SetDlDst(address), Action::SetDlDst(other)) => address == other,
        (Action::SetNwSrc(address), Action::SetNwSrc(other)) => address == other,
        (Action::SetNwDst(address), Action::SetNwDst(other)) => address == other,
        (Action::SetNwTos(tos), Action::SetNwTos(other)) => tos == other,
        (Action::SetTpSrc(port), Action::SetTpSrc(other)) => port == other,
        (Action::SetTpDst(port), Action::SetTpDst(other)) => port == other,
        (
            Action::Enqueue { port, queue },
            Action::Enqueue {
                port: other,
                queue: more,
            },
        ) => port == other && queue == more,
        (Action::Vendor(body), Action::Vendor(other)) => body == other,
        _ => false,
    }
}

/// Tells whether two lists of actions are one.
#[tactic(auto, unfolding(crate::specs::Actions::same_actions))]
fn are_same_actions(a: &[Action], b: &[Action]) -> bool
    ensures { result ≡ same_actions a.now b.now }
{
    if a.len() != b.len() {
        return false;
    }
    for at in 0..a.len() {
        if !is_same_action(&a[at], &b[at]) {
            return false;
        }
    }
    true
}

/// Tells whether the entry of a key stands, with other actions.
fn has_others(rows: &Lookup<'_, ViewRow>, key: &Key, actions: &ActionList) -> bool
    ensures { result ≡ has_others actions.now (row_at key.now rows.now) }
{
    match rows.find(key) {
        None => false,
        Some(row) => !are_same_actions(actions.as_slice(), row.actions.as_slice()),
    }
}

/// Tells whether an image wants a message of a kind, by the row that stands at a key now.
fn is_wanted(kind: InverseKind, image: &Image, key: &Key, rows: &Lookup<'_, ViewRow>) -> bool
    ensures { result ≡ wants_put kind image.now.stands image.now.put (row_at key.now rows.now) }
{
    match &image.put {
        PutBack::Row { row: None, .. } => {
            matches!(kind, InverseKind::Delete) && rows.find(key).is_some()
        }
        PutBack::Row {
            row: Some(row),
            lost,
            ..
        } => {
            if image.stands {
                matches!(kind, InverseKind::Modify) && has_others(rows, key, &row.actions)
            } else {
                matches!(kind, InverseKind::Add) && lost.is_some()
            }
        }
        PutBack::Config { .. } => false,
        PutBack::Settings { .. } => false,
    }
}

/// Tells whether a message of a kind is wanted of a key, and for which image.
fn wanted_at(
    logged: &[Logged],
    index: &[Spot],
    mark: usize,
    dpid: Dpid,
    key: &Key,
    rows: &Lookup<'_, ViewRow>,
    kind: InverseKind,
) -> Option<Wanted>
    requires index { IsIndex logged.now index.now }
    requires mark { mark ≤ length logged.now }
    ensures { IsFoundFor (record { kind = kind; dpid = dpid; mark = mark; log = logged.now; rows = rows.now }) key.now result }
{
    let Some(at) = first_from(index, dpid, key, mark) else {
        return None;
    };
    let image = &logged[at].image;
    if !is_wanted(kind, image, key, rows) {
        return None;
    }
    match key_of_put(&image.put) {
        Some(key) => Some(Wanted { at, key }),
        None => None,
    }
}

/// Finds the first key behind another one, in key order, of which a message of a kind is wanted.
pub(crate) fn next_in(
    logged: &[Logged],
    index: &[Spot],
    mark: usize,
    dpid: Dpid,
    rows: &Lookup<'_, ViewRow>,
    kind: InverseKind,
    after: Option<Key>,
) -> Option<Wanted>
    requires index { IsIndex logged.now index.now }
    requires mark { mark ≤ length logged.now }
    ensures { IsNext (record { kind = kind; dpid = dpid; mark = mark; log = logged.now; rows = rows.now }) after result }
{
    let first = start(index, dpid, after);
    for place in first..index.len() {
        let spot = &index[place];
        if spot.dpid != dpid {
            return None;
        }
        if let Some(wanted) = wanted_at(logged, index, mark, dpid, &spot.key, rows, kind) {
            return Some(wanted);
        }
    }
    None
}

/// Lends the message of a kind of an image.
pub(crate) fn message_of(image: &Image, kind: InverseKind) -> &[u8]
    ensures { result.now ≡ message_of kind image.now }
{
    match kind {
        InverseKind::Delete => image.delete.as_slice(),
        InverseKind::Modify => image.modify.as_slice(),
        InverseKind::Add => image.add.as_slice(),
    }
}
