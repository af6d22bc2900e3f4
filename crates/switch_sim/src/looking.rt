//! Frames that are looked up in the table.

ghost use Rattle.std.specs.Prelude.{◌≡◌, ◌==◌, ◌≤◌, ◌<◌, ◌^◌, Option, Some, length, slice_get, if◌then◌else◌, IfOk, OnOk, OnErr, IfSome};
ghost use Rattle.frame_edit.specs.Edits.{AreEdits, outputs};
ghost use Rattle.flow_table.specs.declared.entry.Entry.{Entry};
ghost use Rattle.flow_table.specs.Table.{IsTable, IsPositionOf};
ghost use Rattle.flow_table.specs.Hit.{hit_by};
ghost use Rattle.flow_table.specs.Switch.{port_at, with_port};
ghost use Rattle.flow_table.specs.Frames.{takes, after_frame_in, is_silent, hit_count, hit_outputs, entry_hit, after_counts, after_lookup, sent_by_miss, sent_by_lookup, sent_by_outputs, ports_after_output, after_frame, sent_by_frame};
ghost use Rattle.switch_sim.specs.Words.{reach};
ghost use Rattle.switch_sim.specs.Readable.{AreReadable};
ghost use Rattle.switch_sim.specs.Words.{ports_after_outputs};

use crate::message_list::MessageList;
use crate::output::{count_output, count_outputs, measure, packet_ins};
use crate::port::Port;
use crate::refusal::port_of;
use crate::reply::packet_in;
use crate::switch::SimSwitch;
use eth_key::key_of;
use flow_table::Entry;
use frame_edit::{OutList, apply};
use of_types::{ByteList, PortNo, flows};
use std::alloc::{AllocError, Global};
use tuple_index::TupleTable;

/// What a look at the table gives for a frame: where the entry stands that it hits, where it is put out, and what is sent to the
/// controller.
#[derive(Drop)]
pub(crate) struct Looked {
    pub(crate) place: Option<usize>,
    pub(crate) outputs: OutList,
    pub(crate) messages: MessageList,
}

/// Tells whether the port by which a frame came in keeps misses from the controller.
fn silences(all: &[Port], in_port: PortNo) -> bool
    ensures { result ≡ is_silent (port_at in_port all.now) }
{
    match port_of(all, in_port) {
        None => false,
        Some(port) => port.has_no_packet_in(),
    }
}

/// Tells whether a frame that arrives at a port is taken.
#[tactic(auto, unfolding(flow_table::specs::Frames::takes))]
fn takes(all: &[Port], in_port: PortNo) -> bool
    ensures { result ≡ takes (port_at in_port all.now) }
{
    match port_of(all, in_port) {
        None => false,
        Some(port) => port.takes(),
    }
}

fn count_arrival_at(port: &mut Port, number: PortNo, len: u64)
    ensures { port.new ≡ (if port.old.number == number then after_frame_in len port.old else port.old) }
{
    if port.number() == number {
        port.count_in(len);
    }
}

/// Counts a frame of `len` bytes that arrives at a port.
fn count_arrival(all: &mut [Port], number: PortNo, len: u64)
    ensures { all.new ≡ with_port number (after_frame_in len) all.old }
{
    for port in all.iter_mut() {
        count_arrival_at(port, number, len);
    }
}

/// Returns what a miss sends: a PACKET_IN, unless the port by which the frame came in keeps it back.
#[tactic(auto, unfolding(flow_table::specs::Frames::sent_by_miss))]
fn miss(
    alloc: Global,
    all: &[Port],
    in_port: PortNo,
    frame: &[u8],
) -> Result<MessageList, AllocError>
    requires { length frame.now ≤ 65517 }
    ensures sent { IfOk result (λ list. list ≡ sent_by_miss in_port frame.now all.now) }
    ensures readable { IfOk result AreReadable }
{
    if silences(all, in_port) {
        return Ok(MessageList::new(alloc));
    }
    MessageList::one(alloc, packet_in(alloc, flows::NO_MATCH, in_port, frame)?)
}

/// Does the actions of the entry that a frame hits, which stands at a place.
fn act(
    alloc: Global,
    entry: &Entry,
    place: usize,
    in_port: PortNo,
    frame: &[u8],
) -> Result<Looked, AllocError>
    requires edits { AreEdits entry.now.actions }
    requires fits { reach frame.now ≤ 65517 }
    ensures place { IfOk result (λ l. l.place ≡ Some place) }
    ensures outputs { IfOk result (λ l. l.outputs ≡ outputs entry.now.actions frame.now) }
    ensures sent { IfOk result (λ l. l.messages ≡ sent_by_outputs in_port (outputs entry.now.actions frame.now)) }
    ensures readable { IfOk result (λ l. AreReadable l.messages) }
{
    measure(entry.actions.as_slice());
    let outputs = apply(alloc, &entry.actions, frame)?.frames;
    let messages = packet_ins(alloc, in_port, outputs.as_slice())?;
    Ok(Looked {
        place: Some(place),
        outputs,
        messages,
    })
}

/// Counts a frame of `len` bytes at the entry that stands at a place; 1 where there is one.
fn count_found(table: &mut TupleTable, place: Option<usize>, len: u32, now: u64) -> u64
    requires { IfSome place (λ i. i < length table.old.entries) }
    ensures count { (o : Option Entry) → IsPositionOf o table.old.entries place → result ≡ hit_count o }
    ensures table { (o : Option Entry) → IsPositionOf o table.old.entries place → table.new ≡ record table.old { entries = hit_by o len now table.old.entries } }
    ensures in_order { IsTable table.old.entries }
{
    let _entries = table.entries().len();
    match place {
        None => 0,
        Some(i) => {
            table.count_at(i, len, now);
            1
        }
    }
}

impl SimSwitch {
    /// Finds where the entry stands that a frame hits which came in by a port.
    pub(crate) fn find(&self, in_port: PortNo, frame: &[u8]) -> Option<usize>
        ensures found { IsPositionOf (entry_hit in_port frame.now self.now) self.now.table.entries result }
        ensures within { IfSome result (λ i. i < length self.now.table.entries) }
    {
        self.table.lookup(&key_of(in_port, frame))
    }

    /// Lends the entry at a place.
    fn entry(&self, place: usize) -> &Entry
        requires { place < length self.now.table.entries }
        ensures entry { slice_get self.now.table.entries place ≡ Some result.now }
        ensures edits { AreEdits result.now.actions }
    {
        self.table.at(place)
    }

    /// Returns what a look at the table gives for a frame that came in by a port. Nothing is counted.
    #[tactic(auto, unfolding(flow_table::specs::Frames::sent_by_lookup))]
    pub(crate) fn look_up(&self, in_port: PortNo, frame: &[u8]) -> Result<Looked, AllocError>
        requires { reach frame.now ≤ 65517 }
        ensures found { IfOk result (λ l. IsPositionOf (entry_hit in_port frame.now self.now) self.now.table.entries l.place) }
        ensures within { IfOk result (λ l. IfSome l.place (λ i. i < length self.now.table.entries)) }
        ensures outputs { IfOk result (λ l. l.outputs ≡ hit_outputs (entry_hit in_port frame.now self.now) frame.now) }
        ensures sent { IfOk result (λ l. l.messages ≡ sent_by_lookup in_port frame.now self.now) }
        ensures readable { IfOk result (λ l. AreReadable l.messages) }
    {
        match self.find(in_port, frame) {
            None => Ok(Looked {
                place: None,
                outputs: OutList::new(self.alloc),
                messages: miss(self.alloc, &self.ports, in_port, frame)?,
            }),
            Some(place) => act(self.alloc, self.entry(place), place, in_port, frame),
        }
    }

    /// Counts a look at the table for a frame that came in by a port; the look found the entry at a place.
    #[tactic(auto, unfolding(flow_table::specs::Frames::after_counts, flow_table::specs::Hit::hit))]
    fn count_lookup(&mut self, in_port: PortNo, frame: &[u8], place: Option<usize>)
        requires len { length frame.now < 2 ^ 32 }
        requires found { IsPositionOf (entry_hit in_port frame.now self.old) self.old.table.entries place }
        requires within { IfSome place (λ i. i < length self.old.table.entries) }
        ensures { self.new ≡ after_counts in_port frame.now self.old }
    {
        let _in_port = in_port;
        let count = count_found(&mut self.table, place, frame.len() as u32, self.moment);
        self.lookups = self.lookups.wrapping_add(1);
        self.matched = self.matched.wrapping_add(count);
    }

    /// Counts outputs at their ports.
    pub(crate) fn put_out(&mut self, in_port: PortNo, outputs: &[(PortNo, ByteList)])
        ensures { self.new ≡ record self.old { ports = ports_after_outputs in_port outputs.now self.old.ports } }
    {
        count_outputs(&mut self.ports, in_port, outputs);
    }

    /// Counts one output at its ports.
    pub(crate) fn count_out(&mut self, in_port: PortNo, to: PortNo, len: u64)
        ensures { self.new ≡ record self.old { ports = ports_after_output in_port to len self.old.ports } }
    {
        count_output(&mut self.ports, in_port, to, len);
    }

    /// Counts a look at the table, which found the entry at a place, and the outputs that it gave.
    #[tactic(auto, unfolding(flow_table::specs::Frames::after_lookup))]
    pub(crate) fn finish_lookup(
        &mut self,
        in_port: PortNo,
        frame: &[u8],
        place: Option<usize>,
        outputs: &[(PortNo, ByteList)],
    )
        requires len { length frame.now < 2 ^ 32 }
        requires found { IsPositionOf (entry_hit in_port frame.now self.old) self.old.table.entries place }
        requires within { IfSome place (λ i. i < length self.old.table.entries) }
        requires outputs { outputs.now ≡ hit_outputs (entry_hit in_port frame.now self.old) frame.now }
        ensures { self.new ≡ after_lookup in_port frame.now self.old }
    {
        self.count_lookup(in_port, frame, place);
        self.put_out(in_port, outputs);
    }

    fn count_in(&mut self, in_port: PortNo, len: u64)
        ensures { self.new ≡ record self.old { ports = with_port in_port (after_frame_in len) self.old.ports } }
    {
        count_arrival(&mut self.ports, in_port, len);
    }

    /// Takes a frame that arrives at a port, or drops it.
    #[tactic(auto, unfolding(flow_table::specs::Frames::after_frame, flow_table::specs::Frames::sent_by_frame))]
    pub(crate) fn frame(&mut self, in_port: PortNo, frame: &[u8]) -> Result<MessageList, AllocError>
        requires { length frame.now ≤ 9216 }
        ensures sent { IfOk result (λ list. list ≡ sent_by_frame in_port frame.now self.old) }
        ensures readable { IfOk result AreReadable }
        ensures ok { OnOk result (self.new ≡ after_frame in_port frame.now self.old) }
        ensures err { OnErr result (self.new ≡ self.old) }
    {
        if !takes(&self.ports, in_port) {
            return Ok(MessageList::new(self.alloc));
        }
        let looked = self.look_up(in_port, frame)?;
        self.count_in(in_port, frame.len() as u64);
        self.finish_lookup(in_port, frame, looked.place, looked.outputs.as_slice());
        Ok(looked.messages)
    }
}
