//! Statistics of a switch.

ghost use Rattle.std.specs.Prelude.{◌≡◌, ◌+◌, ◌-◌, ◌≤◌, ◌<◌, ◌^◌, ◌++◌, length, map, filter, codes, All, IfOk, OnOk};
ghost use Rattle.std.specs.List.{list_any};
ghost use Rattle.of_action.specs.Spelling.{list_bytes, list_size};
ghost use Rattle.of_stats.specs.Flows.{row_bytes};
ghost use Rattle.flow_table.specs.Change.{is_output_to, sends_to};
ghost use Rattle.flow_table.specs.Rows.{is_selected, selected};
ghost use Rattle.flow_table.specs.Switch.{padded};
ghost use Rattle.flow_table.specs.Statistics.{description_bytes, flow_row, sum_of, port_bytes, is_asked, part_bytes, parts_of};
ghost use Rattle.of_types.specs.Layout.{spelled};
ghost use Rattle.of_stats.specs.Layouts.{sum_fields, table_fields};
ghost use Rattle.of_stats.specs.Parts.{room};
ghost use Rattle.of_wire.specs.Spelling.{message_bytes};
ghost use Rattle.std.specs.Vec.{vec_len};
ghost use Rattle.switch_sim.specs.Readable.{IsReadable, AreReadable};
ghost use Rattle.switch_sim.specs.Words.{counted_in};

use crate::message_list::MessageList;
use crate::port::Port;
use crate::reply::spell;
use flow_table::Entry;
use match_overlap::subsumes;
use of_action::{Action, ActionList, copy_actions, encode_list, size};
use of_match::Match;
use of_stats::{
    FlowRow, Sum, TableRow, split_reply, write_flow_row, write_port_row, write_sum, write_table_row,
};
use of_types::{ByteList, PortNo, ports, put_bytes};
use of_wire::{Message, Stats};
use std::alloc::{AllocError, Global};

/// Appends a text and zero bytes up to a size.
fn put_text(alloc: Global, out: &mut Vec<u8>, size: usize, text: &[u8]) -> Result<(), AllocError>
    requires { length text.now ≤ size }
    ensures text { OnOk result (out.new.items ≡ out.old.items ++ padded size text.now) }
    ensures len { OnOk result (vec_len out.new ≡ vec_len out.old + size) }
{
    out.extend_from_slice(text)?;
    let zeros = vec![in alloc; 0u8; size - text.len()]?;
    out.extend_from_slice(zeros.as_slice())
}

/// Returns the body of a DESC reply: what the switch is.
#[tactic(auto, unfolding(flow_table::specs::Statistics::description_bytes))]
pub(crate) fn description(alloc: Global) -> Result<ByteList, AllocError>
    ensures texts { IfOk result (λ bytes. bytes ≡ description_bytes) }
    ensures len { IfOk result (λ bytes. length bytes ≡ 1056) }
{
    let mut out = Vec::new(alloc);
    put_text(alloc, &mut out, 256, b"lego")?;
    put_text(alloc, &mut out, 256, b"sim")?;
    put_text(alloc, &mut out, 256, b"1")?;
    put_text(alloc, &mut out, 32, b"0")?;
    put_text(alloc, &mut out, 256, b"sim")?;
    Ok(ByteList::from_vec(out))
}

fn is_output(port: PortNo, action: &Action) -> bool
    ensures { result ≡ is_output_to port action.now }
{
    matches!(action, Action::Output { port: to, .. } if *to == port)
}

/// Tells whether some OUTPUT of the actions goes to a port.
fn has_output(port: PortNo, actions: &[Action]) -> bool
    ensures { result ≡ list_any (is_output_to port) actions.now }
{
    actions.iter().any(|action| is_output(port, action))
}

/// Tells whether `out_port` is NONE or some OUTPUT of the actions goes to it.
#[tactic(auto, unfolding(flow_table::specs::Change::sends_to))]
fn sends(out_port: PortNo, actions: &ActionList) -> bool
    ensures { result ≡ sends_to out_port actions.now }
{
    out_port == ports::NONE || has_output(out_port, actions.as_slice())
}

/// Tells whether a request for flows selects an entry, as DELETE would.
#[tactic(auto, unfolding(flow_table::specs::Rows::is_selected))]
fn is_selected(m: &Match, out_port: PortNo, entry: &Entry) -> bool
    ensures { result ≡ is_selected m.now out_port entry.now }
{
    subsumes(m, &entry.key.matching) && sends(out_port, &entry.actions)
}

/// Returns the row of an entry, at a moment not before that at which it was put in.
fn flow_row(alloc: Global, entry: &Entry, moment: u64) -> Result<FlowRow, AllocError>
    requires installed { entry.now.installed ≤ moment }
    requires moment { moment < 2 ^ 32 }
    ensures { IfOk result (λ row. row ≡ flow_row moment entry.now) }
{
    Ok(FlowRow {
        key: entry.key,
        duration_sec: (moment - entry.installed) as u32,
        idle: entry.idle,
        hard: entry.hard,
        cookie: entry.cookie,
        packets: entry.packets,
        bytes: entry.bytes,
        actions: copy_actions(alloc, &entry.actions)?,
    })
}

/// Finds that the actions take as many bytes as their sizes say.
fn measure(alloc: Global, actions: &ActionList) -> Result<(), AllocError>
    requires { list_size actions.now ≤ 65432 }
    ensures { OnOk result (length (list_bytes actions.now) ≡ list_size actions.now) }
{
    let mut bytes = vec![in alloc; 0; size(actions)]?;
    encode_list(actions, &mut bytes);
    Ok(())
}

/// Returns the bytes of an entry's row.
fn flow_row_bytes(alloc: Global, entry: &Entry, moment: u64) -> Result<ByteList, AllocError>
    requires installed { entry.now.installed ≤ moment }
    requires moment { moment < 2 ^ 32 }
    requires actions { list_size entry.now.actions ≤ 65432 }
    ensures bytes { IfOk result (λ bytes. bytes ≡ row_bytes (flow_row moment entry.now)) }
    ensures len { IfOk result (λ bytes. length bytes ≤ room) }
{
    measure(alloc, &entry.actions)?;
    write_flow_row(alloc, &flow_row(alloc, entry, moment)?)
}

/// Returns the rows of the entries that a request for flows selects, in key order.
pub(crate) fn flow_rows(
    alloc: Global,
    entries: &[Entry],
    moment: u64,
    m: &Match,
    out_port: PortNo,
) -> Result<Vec<ByteList>, AllocError>
    requires installed { All (λ e. e.installed ≤ moment) entries.now }
    requires moment { moment < 2 ^ 32 }
    requires actions { All (λ e. list_size e.actions ≤ 65432) entries.now }
    ensures rows { IfOk result (λ rows. rows.items ≡ map (λ e. row_bytes (flow_row moment e)) (selected m.now out_port entries.now)) }
    ensures len { IfOk result (λ rows. All (λ row. length row ≤ room) rows.items) }
{
    let mut rows = Vec::new(alloc);
    for entry in entries {
        if is_selected(m, out_port, entry) {
            rows.push(flow_row_bytes(alloc, entry, moment)?)?;
        }
    }
    Ok(rows)
}

/// Computes the sum over the entries that a request for flows selects; counts are modulo 2^64.
#[tactic(auto, unfolding(flow_table::specs::Statistics::sum_of))]
pub(crate) fn sum(entries: &[Entry], m: &Match, out_port: PortNo) -> Sum
    requires { length entries.now < 2 ^ 32 }
    ensures { result ≡ sum_of (selected m.now out_port entries.now) }
{
    let mut sum = Sum {
        packets: 0,
        bytes: 0,
        flows: 0,
    };
    for entry in entries {
        sum = add(sum, is_selected(m, out_port, entry), entry);
    }
    sum
}

/// Adds one entry to a sum, where that counts.
fn add(sum: Sum, counts: bool, entry: &Entry) -> Sum
    requires { sum.flows + 1 < 2 ^ 32 }
    ensures { result ≡ counted_in counts sum entry.now }
{
    if !counts {
        return sum;
    }
    Sum {
        packets: sum.packets.wrapping_add(entry.packets),
        bytes: sum.bytes.wrapping_add(entry.bytes),
        flows: sum.flows + 1,
    }
}

/// Returns the rows of the ports that a request names: the one of the number, or all where it is NONE.
pub(crate) fn port_rows(
    alloc: Global,
    all: &[Port],
    number: PortNo,
) -> Result<Vec<ByteList>, AllocError>
    ensures rows { IfOk result (λ rows. rows.items ≡ map port_bytes (filter (is_asked number) all.now)) }
    ensures len { IfOk result (λ rows. All (λ row. length row ≤ room) rows.items) }
{
    let mut rows = Vec::new(alloc);
    for port in all {
        if is_asked(number, port) {
            rows.push(port_row_bytes(alloc, port)?)?;
        }
    }
    Ok(rows)
}

fn is_asked(number: PortNo, port: &Port) -> bool
    ensures { result ≡ is_asked number port.now }
{
    number == ports::NONE || port.number() == number
}

#[tactic(auto, unfolding(flow_table::specs::Statistics::port_bytes))]
fn port_row_bytes(alloc: Global, port: &Port) -> Result<ByteList, AllocError>
    ensures bytes { IfOk result (λ bytes. bytes ≡ port_bytes port.now) }
    ensures len { IfOk result (λ bytes. length bytes ≤ room) }
{
    ByteList::from_slice(alloc, &write_port_row(&port.row()))
}

/// Returns the body of an AGGREGATE reply.
pub(crate) fn sum_bytes(alloc: Global, sum: &Sum) -> Result<ByteList, AllocError>
    ensures bytes { IfOk result (λ bytes. bytes ≡ spelled (sum_fields sum.now)) }
    ensures len { IfOk result (λ bytes. length bytes ≡ 24) }
{
    ByteList::from_slice(alloc, &write_sum(sum))
}

/// Returns the bytes of the table's row.
pub(crate) fn table_bytes(alloc: Global, row: &TableRow) -> Result<ByteList, AllocError>
    ensures bytes { IfOk result (λ bytes. bytes ≡ spelled (table_fields row.now)) }
    ensures len { IfOk result (λ bytes. length bytes ≡ 64) }
{
    ByteList::from_slice(alloc, &write_table_row(row))
}

/// Returns the name of the table, padded with zero bytes.
pub(crate) fn table_name() -> [u8; 32]
    ensures { result ≡ padded 32 (codes "table0") }
{
    let mut out = [0; 32];
    put_bytes(&mut out, 0, b"table0");
    out
}

/// Encodes a part of a reply as a message.
fn encode_part(alloc: Global, xid: u32, part: &(u16, u16, ByteList)) -> Result<ByteList, AllocError>
    requires { length part.now.2 ≤ room }
    ensures bytes { IfOk result (λ bytes. bytes ≡ part_bytes xid part.now) }
    ensures readable { IfOk result IsReadable }
{
    let (kind, flags, body) = part;
    let stats = Stats {
        kind: *kind,
        flags: *flags,
        body: body.clone()?,
    };
    spell_stats(alloc, xid, stats)
}

#[tactic(auto, unfolding(of_wire::specs::Spelling::message_size))]
fn spell_stats(alloc: Global, xid: u32, stats: Stats) -> Result<ByteList, AllocError>
    requires { length stats.body ≤ room }
    ensures bytes { IfOk result (λ bytes. bytes ≡ message_bytes xid (Message.StatsReply stats)) }
    ensures readable { IfOk result IsReadable }
{
    spell(alloc, xid, &Message::StatsReply(stats))
}

/// Encodes the parts of a reply as messages.
fn encode_parts(
    alloc: Global,
    xid: u32,
    parts: &[(u16, u16, ByteList)],
) -> Result<MessageList, AllocError>
    requires { All (λ part. length part.2 ≤ room) parts.now }
    ensures parts { IfOk result (λ list. list ≡ map (part_bytes xid) parts.now) }
    ensures readable { IfOk result AreReadable }
{
    let mut messages = Vec::new(alloc);
    for part in parts {
        messages.push(encode_part(alloc, xid, part)?)?;
    }
    Ok(MessageList::from_vec(messages))
}

/// Returns the messages of a reply with these rows, in as few parts as they fill.
pub(crate) fn reply(
    alloc: Global,
    xid: u32,
    kind: u16,
    rows: &[ByteList],
) -> Result<MessageList, AllocError>
    requires { All (λ row. length row ≤ room) rows.now }
    ensures parts { IfOk result (λ list. list ≡ map (part_bytes xid) (parts_of kind rows.now)) }
    ensures readable { IfOk result AreReadable }
{
    let parts = split_reply(alloc, kind, rows)?;
    encode_parts(alloc, xid, &parts)
}
