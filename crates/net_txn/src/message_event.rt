//! A message that comes of itself.

ghost use Rattle.std.specs.Prelude.{◌≡◌, ◌==◌, ◌&&◌, ◌++◌, IfOk, OnOk, OnErr, MatchOption, vec_len};
ghost use Rattle.std.specs.List.{list_any};
ghost use Rattle.of_types.specs.Fields.{number_bytes};
ghost use Rattle.of_match.specs.Key.{key_number};
ghost use Rattle.of_wire.specs.Grammar.{IsMessage};
ghost use Rattle.flow_table.specs.Change.{asks_notice};
ghost use Rattle.flow_table.specs.View.{plains};
ghost use Rattle.app_frames.specs.declared.frame.EventKind.TheVariants as kinds;
ghost use Rattle.net_txn.specs.Arriving.{is_told, known_after, IsKnownAt, IsNoKnown, event_from};
ghost use Rattle.flow_table.specs.RowKeys.{key_removed};

use crate::ports::{KnownPorts, change};
use crate::rows::is_same;
use crate::views::find;
use app_frames::{Event, EventKind};
use flow_table::{TableView, ViewRow};
use of_match::Key;
use of_types::{ByteList, Dpid, flows, put_u16};
use of_wire::{FlowRemoved, Message, PortStatus, encode};
use std::alloc::{AllocError, Global};

/// Returns the event that tells a message.
pub(crate) fn event_with(
    alloc: Global,
    kind: EventKind,
    dpid: Dpid,
    message: &Message,
) -> Result<Event, AllocError>
    requires { IsMessage message.now }
    ensures { IfOk result (λ e. e ≡ event_from kind dpid message.now) }
{
    let body = encode(alloc, 0, message)?;
    Ok(Event { kind, dpid, body })
}

/// Returns the key of a flow that was removed.
pub(crate) fn removed_key(flow: &FlowRemoved) -> Key
    ensures { result ≡ key_removed flow.now }
{
    Key {
        priority: flow.priority,
        matching: flow.matching,
    }
}

fn is_asking(key: &Key, row: &ViewRow) -> bool
    ensures { result ≡ (key_number row.now.key == key_number key.now && asks_notice row.now.flags) }
{
    is_same(&row.key, key) && flows::sends_flow_removed(row.flags)
}

fn has_asking(key: &Key, rows: &[ViewRow]) -> bool
    ensures { result ≡ list_any (λ r. key_number r.key == key_number key.now && asks_notice r.flags) rows.now }
{
    rows.iter().any(|row| is_asking(key, row))
}

/// Tells whether the owner of a flow that was removed is told.
pub(crate) fn tells(views: &[TableView], dpid: Dpid, flow: &FlowRemoved) -> bool
    ensures { result ≡ is_told dpid (plains views.now) flow.now }
{
    match find(views, dpid) {
        Some(view) => has_asking(&removed_key(flow), view.rows.as_slice()),
        None => false,
    }
}

/// Returns the event that tells an error: its kind and its code.
pub(crate) fn error_event(
    alloc: Global,
    dpid: Dpid,
    kind: u16,
    code: u16,
) -> Result<Event, AllocError>
    ensures { IfOk result (λ e. e ≡ record { kind = kinds.SwitchError; dpid = dpid; body = number_bytes 2 kind ++ number_bytes 2 code }) }
{
    let mut body = [0; 4];
    put_u16(&mut body, 0, kind);
    put_u16(&mut body, 2, code);
    Ok(Event {
        kind: EventKind::SwitchError,
        dpid,
        body: ByteList::from_slice(alloc, &body)?,
    })
}

/// Changes the known ports of a switch as a PORT_STATUS tells.
pub(crate) fn change_known(
    alloc: Global,
    all: &mut Vec<KnownPorts>,
    dpid: Dpid,
    status: &PortStatus,
) -> Result<(), AllocError>
    ensures ok { OnOk result (all.new.items ≡ known_after dpid status.now all.old.items) }
    ensures err { OnErr result (all.new.items ≡ all.old.items) }
    ensures len { vec_len all.new ≡ vec_len all.old }
{
    match position_known(all, dpid) {
        None => Ok(()),
        Some(at) => change(alloc, &mut all[at].ports, status),
    }
}

/// Tells where the known ports of a switch stand.
fn position_known(all: &[KnownPorts], dpid: Dpid) -> Option<usize>
    ensures { MatchOption result (IsNoKnown dpid all.now) (IsKnownAt dpid all.now) }
{
    for (i, known) in all.iter().enumerate() {
        if known.dpid == dpid {
            return Some(i);
        }
    }
    None
}
