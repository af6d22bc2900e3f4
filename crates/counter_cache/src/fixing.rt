//! Rows and notices with what was lost.

ghost use Rattle.std.specs.Prelude.{◌≡◌, ◌+◌, ◌%◌, ◌^◌, map};
ghost use Rattle.flow_table.specs.Sorted.{AreLostRows};
ghost use Rattle.counter_cache.specs.Fixed.{row_with, removed_with, fixed_row, fixed_removed};

use crate::rows::find;
use flow_table::Lost;
use of_match::Key;
use of_stats::{FlowRow, RowList};
use of_wire::FlowRemoved;
use std::alloc::Global;
use std::mem::replace;

/// A duration with some seconds more, modulo 2^32.
fn lengthened(duration: u32, age: u64) -> u32
    ensures { result ≡ (duration + age) % 2 ^ 32 }
{
    ((u64::from(duration) + age % 4_294_967_296) % 4_294_967_296) as u32
}

/// Adds what an entry has lost to its row.
fn add_to_row(row: &mut FlowRow, lost: &Option<Lost>)
    ensures { row.new ≡ row_with lost.now row.old }
{
    if let Some(lost) = lost {
        row.duration_sec = lengthened(row.duration_sec, lost.age);
        row.hard = lost.hard;
        row.packets = row.packets.wrapping_add(lost.packets);
        row.bytes = row.bytes.wrapping_add(lost.bytes);
    }
}

/// Adds what was lost to one row.
#[tactic(auto, unfolding(crate::specs::Fixed::fixed_row))]
fn fix_row(lost: &[(Key, Lost)], row: &mut FlowRow)
    requires { AreLostRows lost.now }
    ensures { row.new ≡ fixed_row lost.now row.old }
{
    let found = find(lost, &row.key);
    add_to_row(row, &found);
}

/// Adds what was lost to rows.
fn fix_all(lost: &[(Key, Lost)], rows: &mut [FlowRow])
    requires { AreLostRows lost.now }
    ensures { rows.new ≡ map (fixed_row lost.now) rows.old }
{
    for row in rows.iter_mut() {
        fix_row(lost, row);
    }
}

/// Adds what was lost to a list of rows.
pub(crate) fn fix_row_list(alloc: Global, lost: &[(Key, Lost)], rows: &mut RowList)
    requires { AreLostRows lost.now }
    ensures { rows.new ≡ map (fixed_row lost.now) rows.old }
{
    let mut all = replace(rows, RowList::new(alloc)).into_vec();
    fix_all(lost, &mut all);
    *rows = RowList::from_vec(all);
}

/// Adds what an entry had lost to its notice.
fn add_to_notice(n: &mut FlowRemoved, lost: &Option<Lost>)
    ensures { n.new ≡ removed_with lost.now n.old }
{
    if let Some(lost) = lost {
        n.duration_sec = lengthened(n.duration_sec, lost.age);
        n.packet_count = n.packet_count.wrapping_add(lost.packets);
        n.byte_count = n.byte_count.wrapping_add(lost.bytes);
    }
}

/// Adds what was lost to a notice.
#[tactic(auto, unfolding(crate::specs::Fixed::fixed_removed))]
pub(crate) fn fix_notice(lost: &[(Key, Lost)], n: &mut FlowRemoved)
    requires { AreLostRows lost.now }
    ensures { n.new ≡ fixed_removed lost.now n.old }
{
    let key = Key {
        priority: n.priority,
        matching: n.matching,
    };
    let found = find(lost, &key);
    add_to_notice(n, &found);
}
