//! Rows that change packets on their way to a link.

ghost use Rattle.std.specs.Prelude.{◌≡◌, not, position};
ghost use Rattle.std.specs.List.{list_any};
ghost use Rattle.std.specs.Option.{option_map};
ghost use Rattle.flow_table.specs.View.{plain, plains};
ghost use Rattle.net_guard.specs.Found.{is_output, reaches_hop, reaches_link, is_edit, edit_in, first_edit};

use crate::hop::Hop;
use flow_table::{TableView, ViewRow};
use of_action::Action;
use of_types::ports;

fn is_output(action: &Action) -> bool
    ensures { result ≡ is_output action.now }
{
    matches!(action, Action::Output { .. })
}

fn reaches_hop(dpid: u64, action: &Action, hop: Hop) -> bool
    ensures { result ≡ reaches_hop dpid action.now hop }
{
    match action {
        Action::Output { port, .. } => {
            let to = *port;
            hop.from.0 == dpid
                && (to == hop.from.1
                    || to == ports::IN_PORT
                    || to == ports::ALL
                    || to == ports::FLOOD)
        }
        _ => false,
    }
}

fn reaches_link(hops: &[Hop], dpid: u64, action: &Action) -> bool
    ensures { result ≡ reaches_link hops.now dpid action.now }
{
    hops.iter().any(|hop| reaches_hop(dpid, action, *hop))
}

fn changes(actions: &[Action]) -> bool
    ensures { result ≡ list_any (λ a. not (is_output a)) actions.now }
{
    actions.iter().any(|action| !is_output(action))
}

fn crosses(hops: &[Hop], dpid: u64, actions: &[Action]) -> bool
    ensures { result ≡ list_any (reaches_link hops.now dpid) actions.now }
{
    actions
        .iter()
        .any(|action| reaches_link(hops, dpid, action))
}

/// Tells whether a row changes packets and sends them over a link.
#[tactic(auto, unfolding(crate::specs::Found::is_edit))]
fn is_edit(hops: &[Hop], dpid: u64, row: &ViewRow) -> bool
    ensures { result ≡ is_edit hops.now dpid row.now }
{
    changes(row.actions.as_slice()) && crosses(hops, dpid, row.actions.as_slice())
}

fn edit_position(hops: &[Hop], dpid: u64, rows: &[ViewRow]) -> Option<usize>
    ensures { result ≡ position (is_edit hops.now dpid) rows.now }
{
    rows.iter().position(|row| is_edit(hops, dpid, row))
}

fn edit_in(hops: &[Hop], table: &TableView) -> Option<(u64, usize)>
    ensures { result ≡ edit_in hops.now (plain table.now) }
{
    match edit_position(hops, table.dpid, table.rows.as_slice()) {
        Some(at) => Some((table.dpid, at)),
        None => None,
    }
}

/// Finds the switch and the position of the first row that changes packets and sends them over a link; takes no memory.
pub(crate) fn first_edit(hops: &[Hop], tables: &[TableView]) -> Option<(u64, usize)>
    ensures { result ≡ first_edit hops.now (plains tables.now) }
{
    for table in tables {
        if let Some(edit) = edit_in(hops, table) {
            return Some(edit);
        }
    }
    None
}
