//! Which entries a description without a command selects.

ghost use Rattle.std.specs.Prelude.{◌≡◌, IfOk};
ghost use Rattle.flow_table.specs.Rows.{is_selected, positions};

use crate::describing::sends;
use flow_table::Entry;
use match_overlap::subsumes;
use of_match::Match;
use of_types::PortNo;
use std::alloc::{AllocError, Global};

/// Whether `m` subsumes the match of the entry, and the entry has an OUTPUT to `out_port` unless that is NONE.
#[tactic(auto, unfolding(flow_table::specs::Rows::is_selected))]
fn is_selected(entry: &Entry, m: &Match, out_port: PortNo) -> bool
    ensures { result ≡ is_selected m.now out_port entry.now }
{
    subsumes(m, &entry.key.matching) && sends(out_port, &entry.actions)
}

/// Where the selected entries stand; ascending.
#[tactic(auto, unfolding(flow_table::specs::Rows::positions))]
pub(crate) fn select(
    alloc: Global,
    entries: &[Entry],
    m: &Match,
    out_port: PortNo,
) -> Result<Vec<usize>, AllocError>
    ensures { IfOk result (λ places. places.items ≡ positions m.now out_port entries.now) }
{
    let mut places = Vec::new(alloc);
    for (i, entry) in entries.iter().enumerate() {
        if is_selected(entry, m, out_port) {
            places.push(i)?;
        }
    }
    Ok(places)
}
