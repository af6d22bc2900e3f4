//! What a judge refused tables for, in words.

use crate::actions::ActionWords;
use crate::values::{Ethernet, Ipv4, port};
use flow_table::{TableView, ViewRow};
use net_guard::{Found, GuardField, Refusal};
use of_match::text;
use std::alloc::Global;
use std::fmt;

/// What a judge refused tables for, in words.
#[derive(Clone, Copy)]
pub struct RefusalWords<'a> {
    /// Where the words of a match are made.
    pub alloc: Global,
    /// What it found.
    pub refusal: Refusal,
    /// The tables that it was asked about.
    pub tables: &'a [TableView],
}

impl fmt::Display for RefusalWords<'_> {
    fn fmt<W: fmt::Write>(&self, f: &mut fmt::Formatter<W>) -> fmt::Result {
        match self.refusal {
            Refusal::Crowded { dpid, count, most } => {
                write!(f, "switch {dpid} has {count} entries, quota {most}")
            }
            Refusal::Guarded { field, found } => match found {
                Found::Edit { dpid, position } => {
                    write!(f, "switch {dpid} changes packets on their way to a link:")?;
                    put_row(f, self.alloc, row_at(self.tables, dpid, position))
                }
                Found::Loop { value, dpid, port } => put_loop(f, field, value, dpid, port),
            },
        }
    }
}

/// The row at a place of a switch's table.
fn row_at(tables: &[TableView], dpid: u64, position: usize) -> Option<&ViewRow> {
    for table in tables {
        if table.dpid == dpid {
            return table.rows.as_slice().get(position);
        }
    }
    None
}

/// A row: its match, its priority and its actions, as a FLOW_MOD has them.
fn put_row<W: fmt::Write>(
    f: &mut fmt::Formatter<W>,
    alloc: Global,
    row: Option<&ViewRow>,
) -> fmt::Result {
    let Some(row) = row else {
        return Ok(());
    };
    let matching = text(alloc, &row.key.matching)?;
    let priority = row.key.priority;
    let actions = ActionWords(&row.actions);
    write!(f, " {matching} priority={priority} out: {actions}")
}

/// Packets that come back: where they do, and which.
fn put_loop<W: fmt::Write>(
    f: &mut fmt::Formatter<W>,
    field: GuardField,
    value: Option<u64>,
    dpid: u64,
    at: u16,
) -> fmt::Result {
    let at = port(at);
    write!(f, "packets may come back to switch {dpid} port {at}: ")?;
    match (field, value) {
        (GuardField::DlDst, Some(value)) => put_address(f, value),
        (GuardField::DlDst, None) => f.write_str("dl_dst of no entry"),
        (GuardField::NwDst, Some(value)) => put_network(f, value),
        (GuardField::NwDst, None) => f.write_str("nw_dst of no entry"),
    }
}

fn put_address<W: fmt::Write>(f: &mut fmt::Formatter<W>, value: u64) -> fmt::Result {
    let [_, _, a, b, c, d, e, g] = value.to_be_bytes();
    let address = Ethernet([a, b, c, d, e, g]);
    write!(f, "dl_dst={address}")
}

fn put_network<W: fmt::Write>(f: &mut fmt::Formatter<W>, value: u64) -> fmt::Result {
    let [_, _, _, _, a, b, c, d] = value.to_be_bytes();
    let address = Ipv4(u32::from_be_bytes([a, b, c, d]));
    write!(f, "nw_dst={address}")
}
