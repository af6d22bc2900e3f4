//! What happens to a switch beside messages.

ghost use Rattle.std.specs.Prelude.{◌≡◌, ◌==◌, ◌≤◌, ◌<◌, ◌∷◌, [], true, false, length, if◌then◌else◌, All, IsOk, IfOk, OnOk, OnErr};
ghost use Rattle.std.specs.List.{insert};
ghost use Rattle.of_wire.specs.Reading.{reading_of};
ghost use Rattle.flow_table.specs.Hit.{with_counts};
ghost use Rattle.flow_table.specs.Switch.{PortState, port_at, with_number, insert_port};
ghost use Rattle.flow_table.specs.Step.{set_link, ports_after_link, sent_by_link, can_add, without_port, sent_by_deletion, port_status, after_port_change, sent_by_port_change, after_stimulus, sent_by_stimulus};
ghost use Rattle.switch_sim.specs.Possible.{IsPossible};
ghost use Rattle.switch_sim.specs.Readable.{AreReadable, AreShort, IsShortIfRaw};
ghost use Rattle.of_types.specs.RawBytes.{IsNotRaw};

use crate::message_list::MessageList;
use crate::port::Port;
use crate::refusal::port_of;
use crate::reply::port_status;
use crate::switch::SimSwitch;
use of_types::limits::MOST_PORTS;
use of_types::{ByteList, Dpid, PortChange, PortNo, Stimulus, ports};
use std::alloc::{AllocError, Global};

fn set_link_at(port: &mut Port, number: PortNo, up: bool)
    ensures { port.new ≡ (if port.old.number == number then set_link up port.old else port.old) }
{
    if port.number() == number {
        port.set_link(up);
    }
}

/// Sets the link of a port.
fn set_links(all: &mut [Port], number: PortNo, up: bool)
    ensures { all.new ≡ ports_after_link up number all.old }
{
    for port in all.iter_mut() {
        set_link_at(port, number, up);
    }
}

/// Returns what a change of a port sends: a PORT_STATUS with its description.
fn tell(alloc: Global, reason: u8, dpid: Dpid, port: &Port) -> Result<MessageList, AllocError>
    ensures sent { IfOk result (λ list. list ≡ port_status reason dpid port.now ∷ []) }
    ensures readable { IfOk result AreReadable }
{
    MessageList::one(alloc, port_status(alloc, reason, dpid, port)?)
}

/// Returns what a link sends that comes or goes: nothing, where it is so already.
fn tell_link(
    alloc: Global,
    dpid: Dpid,
    all: &[Port],
    number: PortNo,
    up: bool,
) -> Result<MessageList, AllocError>
    ensures sent { IfOk result (λ list. list ≡ sent_by_link up dpid (port_at number all.now)) }
    ensures readable { IfOk result AreReadable }
{
    match port_of(all, number) {
        None => Ok(MessageList::new(alloc)),
        Some(port) => {
            if port.has_link() == up {
                Ok(MessageList::new(alloc))
            } else {
                tell(alloc, ports::MODIFY, dpid, &port.with_link(up))
            }
        }
    }
}

/// Returns what a port sends that goes.
fn tell_deletion(
    alloc: Global,
    dpid: Dpid,
    all: &[Port],
    number: PortNo,
) -> Result<MessageList, AllocError>
    ensures sent { IfOk result (λ list. list ≡ sent_by_deletion dpid (port_at number all.now)) }
    ensures readable { IfOk result AreReadable }
{
    match port_of(all, number) {
        None => Ok(MessageList::new(alloc)),
        Some(port) => tell(alloc, ports::DELETE, dpid, port),
    }
}

/// Tells whether a port of the number can come: there is none, and room for one.
fn can_add(all: &[Port], number: PortNo) -> bool
    ensures value { result ≡ can_add number all.now }
    ensures room { result ≡ true → length all.now < 64 }
{
    port_of(all, number).is_none() && all.len() < MOST_PORTS
}

/// Returns the numbers that were ports, with one more.
fn with_number(alloc: Global, had: &[PortNo], number: PortNo) -> Result<Vec<PortNo>, AllocError>
    ensures { IfOk result (λ numbers. numbers.items ≡ with_number number had.now) }
{
    let mut numbers = Vec::from_slice(alloc, had)?;
    if !had.contains(&number) {
        numbers.push(number)?;
    }
    Ok(numbers)
}

/// Finds where a port of a number stands among others.
fn place_of(all: &[Port], number: PortNo) -> usize
    ensures within { result ≤ length all.now }
    ensures place { (p : PortState) → p.number ≡ number → insert_port p all.now ≡ insert all.now result p }
{
    for (place, port) in all.iter().enumerate() {
        if number < port.number() {
            return place;
        }
    }
    all.len()
}

/// Puts a port among others in the order of their numbers.
fn insert_port(all: &mut Vec<Port>, port: Port) -> Result<(), AllocError>
    ensures ok { OnOk result (all.new.items ≡ insert_port port all.old.items) }
    ensures err { OnErr result (all.new.items ≡ all.old.items) }
{
    let place = place_of(all, port.number());
    all.insert(place, port)?;
    Ok(())
}

/// Takes the port of a number out.
fn remove_port(all: &mut Vec<Port>, number: PortNo)
    ensures { all.new.items ≡ without_port number all.old.items }
{
    all.retain(|port| port.number() != number);
}

impl SimSwitch {
    /// Lets a link come or go.
    fn change_link(&mut self, number: PortNo, up: bool) -> Result<MessageList, AllocError>
        ensures sent { IfOk result (λ list. list ≡ sent_by_link up self.old.declared.dpid (port_at number self.old.ports)) }
        ensures readable { IfOk result AreReadable }
        ensures ok { OnOk result (self.new ≡ record self.old { ports = ports_after_link up number self.old.ports }) }
        ensures err { OnErr result (self.new ≡ self.old) }
    {
        let messages = tell_link(self.alloc, self.dpid, &self.ports, number, up)?;
        set_links(&mut self.ports, number, up);
        Ok(messages)
    }

    /// Lets a port come.
    #[tactic(auto, unfolding(flow_table::specs::Step::after_port_change, flow_table::specs::Step::sent_by_port_change))]
    fn add_port(&mut self, number: PortNo) -> Result<MessageList, AllocError>
        ensures sent { IfOk result (λ list. list ≡ sent_by_port_change number PortChange.Add self.old) }
        ensures readable { IfOk result AreReadable }
        ensures ok { OnOk result (self.new ≡ after_port_change number PortChange.Add self.old) }
        ensures err { OnErr result (self.new ≡ self.old) }
    {
        if !can_add(&self.ports, number) {
            return Ok(MessageList::new(self.alloc));
        }
        let port = Port::new(number);
        let messages = tell(self.alloc, ports::ADD, self.dpid, &port)?;
        let had = with_number(self.alloc, &self.had, number)?;
        insert_port(&mut self.ports, port)?;
        self.had = had;
        Ok(messages)
    }

    /// Lets a port go.
    fn delete_port(&mut self, number: PortNo) -> Result<MessageList, AllocError>
        ensures sent { IfOk result (λ list. list ≡ sent_by_deletion self.old.declared.dpid (port_at number self.old.ports)) }
        ensures readable { IfOk result AreReadable }
        ensures ok { OnOk result (self.new ≡ record self.old { ports = without_port number self.old.ports }) }
        ensures err { OnErr result (self.new ≡ self.old) }
    {
        let messages = tell_deletion(self.alloc, self.dpid, &self.ports, number)?;
        remove_port(&mut self.ports, number);
        Ok(messages)
    }

    /// Changes a port.
    #[tactic(auto, unfolding(flow_table::specs::Step::after_port_change, flow_table::specs::Step::sent_by_port_change))]
    fn change_port(&mut self, number: PortNo, change: PortChange) -> Result<MessageList, AllocError>
        ensures sent { IfOk result (λ list. list ≡ sent_by_port_change number change self.old) }
        ensures readable { IfOk result AreReadable }
        ensures ok { OnOk result (self.new ≡ after_port_change number change self.old) }
        ensures err { OnErr result (self.new ≡ self.old) }
    {
        match change {
            PortChange::Up => self.change_link(number, true),
            PortChange::Down => self.change_link(number, false),
            PortChange::Add => self.add_port(number),
            PortChange::Delete => self.delete_port(number),
        }
    }

    /// Flows of a priority count more.
    fn add_counts(&mut self, priority: u16, packets: u64, bytes: u64)
        ensures { self.new ≡ record self.old { table = record self.old.table { entries = with_counts priority packets bytes self.old.table.entries } } }
    {
        self.table.add_counts(priority, packets, bytes);
    }

    #[tactic(auto, unfolding(flow_table::specs::Step::after_stimulus, flow_table::specs::Step::sent_by_stimulus))]
    fn happen(&mut self, s: &Stimulus) -> Result<MessageList, AllocError>
        requires { IsPossible s.now self.old }
        ensures sent { IfOk result (λ list. list ≡ sent_by_stimulus s.now self.old) }
        ensures readable { IsNotRaw s.now → IfOk result AreReadable }
        ensures short { IsShortIfRaw s.now → IfOk result AreShort }
        ensures ok { OnOk result (self.new ≡ after_stimulus s.now self.old) }
        ensures err { OnErr result (self.new ≡ self.old) }
    {
        match s {
            Stimulus::Frame { port, bytes } => self.frame(*port, bytes.as_slice()),
            Stimulus::Advance(moment) => self.advance(*moment),
            Stimulus::Port { port, change } => self.change_port(*port, *change),
            Stimulus::Counts {
                priority,
                packets,
                bytes,
            } => {
                self.add_counts(*priority, *packets, *bytes);
                Ok(MessageList::new(self.alloc))
            }
            Stimulus::Raw(bytes) => self.send_raw(bytes),
        }
    }

    /// Takes what happens to the switch beside messages: a frame that arrives, time, a port that changes, flows that count,
    /// or bytes that it sends. Gives what it sends then. After want of memory the switch is as before.
    ///
    /// A moment is not before the last and at most 4,294,967,295 seconds; a frame has 14 to 9,216 bytes. What is sent can
    /// be read, but for bytes that the switch is told to send; at most 8,192 messages are sent where the table takes at
    /// most 4,096 entries.
    pub fn stimulus(&mut self, s: &Stimulus) -> Result<MessageList, AllocError>
        requires { IsPossible s.now self.old }
        ensures sent { IfOk result (λ list. list ≡ sent_by_stimulus s.now self.old) }
        ensures readable { IsNotRaw s.now → IfOk result (λ list. All (λ bytes. IsOk (reading_of bytes)) list) }
        ensures short { IsShortIfRaw s.now → IfOk result (λ list. All (λ bytes. length bytes ≤ 65535) list) }
        ensures few { self.old.declared.cap ≤ 4096 → IfOk result (λ list. length list ≤ 8192) }
        ensures ok { OnOk result (self.new ≡ after_stimulus s.now self.old) }
        ensures err { OnErr result (self.new ≡ self.old) }
        ensures serials { self.new.table.next ≡ self.old.table.next }
    {
        self.is_sound();
        self.happen(s)
    }

    fn send_raw(&self, bytes: &ByteList) -> Result<MessageList, AllocError>
        ensures { IfOk result (λ list. list ≡ bytes.now ∷ []) }
    {
        MessageList::one(
            self.alloc,
            ByteList::from_slice(self.alloc, bytes.as_slice())?,
        )
    }
}
