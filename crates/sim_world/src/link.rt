//! One switch of a simulated world, with its link.

ghost use Rattle.std.specs.Prelude.{◌≡◌, ◌+◌, ◌-◌, ◌^◌, ◌<◌, ◌≤◌, [], not, length, take, is_some, slice_get, IsOk, IfNone, IfOk, IfSome, OnOk, OnErr};
ghost use Rattle.std.specs.Option.{option_map};
ghost use Rattle.of_types.specs.declared.journal.Stimulus.TheVariants.{Advance};
ghost use Rattle.of_wire.specs.Reading.{reading_of};
ghost use Rattle.of_wire.specs.Spelling.{message_size};
ghost use Rattle.flow_table.specs.Step.{after_stimulus};
ghost use Rattle.flow_table.specs.Switch.{Declared};
ghost use Rattle.of_wire.specs.Handshake.{IsFeaturesOf};
ghost use Rattle.outside.specs.Conforming.{IsStimulus};
ghost use Rattle.outside.specs.State.{is_empty, is_failing, link_at_first, link_joined, link_left, link_stimulated, link_sent, link_got, link_told, link_lost, link_failed, stimulus_sends, switch_told, message_sends};
ghost use Rattle.switch_sim.specs.Readable.{AreShort};
ghost use Rattle.sim_world.specs.Links.{IsDeclaredAs, StandsBy, SerialsBelow, MayCall, IsReady, fails_at, features_at_join};

use crate::fail_numbers::FailNumbers;
use crate::waits::Waits;
use of_types::{ByteList, Dpid, PortNo, Stimulus};
use of_wire::{Envelope, decode};
use outside::Decl;
use std::alloc::{AllocError, Global};
use std::marker::Model;
use std::mem;
use switch_sim::{MessageList, SimSwitch};

/// A switch that is declared, with its link: the switch while it is joined, what it sent and was not taken yet, and which
/// calls of its link are to fail.
///
/// Contracts see a `Link`, with the room for more messages and what was made ready for a moment.
#[derive(Drop, Debug)]
pub struct SimLink {
    alloc: Global,
    dpid: Dpid,
    cap: u32,
    ports: Vec<PortNo>,
    switch: Option<SimSwitch>,
    waits: Waits,
    due: MessageList,
    fails: FailNumbers,
    calls: u64,
}

impl Model for SimLink {
    ghost use Rattle.std.specs.Prelude.{◌≤◌, length};
    ghost use Rattle.sim_world.specs.Links.{Held, IsDeclaredAs};

    ghost Value = { Held };

    ghost view = { λ s. record {
      link = record {
        declared = record { dpid = s.dpid; cap = s.cap; ports = s.ports.items };
        switch = s.switch;
        waits = s.waits.messages;
        fails = s.fails;
        calls = s.calls;
      };
      room = s.waits.room;
      due = s.due;
    } };

    ghost invariant = { λ s. (length s.ports.items ≤ 64)
        × IsDeclaredAs (record { dpid = s.dpid; cap = s.cap; ports = s.ports.items }) s.switch };
}

/// Reads a frame that spells a message.
fn read(alloc: Global, frame: &[u8]) -> Result<Envelope, AllocError>
    requires { IsOk (reading_of frame.now) }
    ensures read { IfOk result (λ e. reading_of frame.now ≡ Ok e) }
    ensures size { IfOk result (λ e. message_size e.message ≤ 65535) }
{
    match decode(alloc, frame) {
        Ok(envelope) => Ok(envelope),
        Err(_) => Err(AllocError),
    }
}

/// Sends a frame to the switch, where it is joined, and gives what that sends.
fn tell(
    alloc: Global,
    switch: &mut Option<SimSwitch>,
    frame: &[u8],
) -> Result<MessageList, AllocError>
    requires frame { IsOk (reading_of frame.now) }
    requires serials { SerialsBelow (2 ^ 64 - 1) switch.old }
    ensures sent { IfOk result (λ list. list ≡ message_sends (reading_of frame.now) switch.old) }
    ensures short { IfOk result AreShort }
    ensures ok { OnOk result (switch.new ≡ switch_told (reading_of frame.now) switch.old) }
    ensures err { OnErr result (switch.new ≡ switch.old) }
{
    let envelope = read(alloc, frame)?;
    match switch {
        None => Ok(MessageList::new(alloc)),
        Some(switch) => switch.message(envelope.xid, &envelope.message),
    }
}

/// Lets something happen to the switch, where it is joined, and gives what that sends.
fn happen(
    alloc: Global,
    switch: &mut Option<SimSwitch>,
    x: &Stimulus,
) -> Result<MessageList, AllocError>
    requires { IsStimulus x.now }
    ensures sent { IfOk result (λ list. list ≡ stimulus_sends x.now switch.old) }
    ensures short { IfOk result AreShort }
    ensures few { (d : Declared) → IsDeclaredAs d switch.old → d.cap ≤ 4096 → IfOk result (λ list. length list ≤ 8192) }
    ensures ok { OnOk result (switch.new ≡ option_map (after_stimulus x.now) switch.old) }
    ensures err { OnErr result (switch.new ≡ switch.old) }
{
    match switch {
        None => Ok(MessageList::new(alloc)),
        Some(switch) => switch.stimulus(x),
    }
}

/// Returns what the switch sends, where it is joined, when the moment moves on.
fn due_at(alloc: Global, switch: &Option<SimSwitch>, moment: u64) -> Result<MessageList, AllocError>
    requires after { StandsBy moment switch.now }
    requires within { moment ≤ 4294967295 }
    ensures sent { IfOk result (λ list. list ≡ stimulus_sends (Advance moment) switch.now) }
    ensures short { IfOk result AreShort }
    ensures few { (d : Declared) → IsDeclaredAs d switch.now → IfOk result (λ list. length list ≤ d.cap) }
{
    match switch {
        None => Ok(MessageList::new(alloc)),
        Some(switch) => switch.due(moment),
    }
}

/// Moves the switch on to a moment, where it is joined.
fn pass_to(switch: &mut Option<SimSwitch>, moment: u64)
    requires after { StandsBy moment switch.old }
    requires within { moment ≤ 4294967295 }
    ensures { switch.new ≡ option_map (after_stimulus (Advance moment)) switch.old }
{
    if let Some(switch) = switch {
        switch.pass(moment);
    }
}

impl SimLink {
    /// Makes a switch that is out: its number, how many entries its table takes, and its ports, at most 64. No call of
    /// its link is to fail.
    pub fn new(alloc: Global, dpid: Dpid, cap: u32, ports: &[PortNo]) -> Result<SimLink, AllocError>
        requires { length ports.now ≤ 64 }
        ensures { IfOk result (λ s. s.link ≡ link_at_first [] (record { dpid = dpid; cap = cap; ports = ports.now })) }
    {
        Ok(SimLink {
            alloc,
            dpid,
            cap,
            ports: Vec::from_slice(alloc, ports)?,
            switch: None,
            waits: Waits::new(alloc),
            due: MessageList::new(alloc),
            fails: FailNumbers::new(alloc),
            calls: 0,
        })
    }

    /// Tells the call of its link with this number, counted from 1, to fail.
    pub fn fail_at(&mut self, number: u64) -> Result<(), AllocError>
        ensures ok { OnOk result (self.new.link ≡ fails_at number self.old.link) }
        ensures err { OnErr result (self.new.link ≡ self.old.link) }
        ensures declared { self.new.link.declared ≡ self.old.link.declared }
    {
        self.fails.add(number)
    }

    /// Returns its number.
    pub fn dpid(&self) -> Dpid
        ensures { result ≡ self.now.link.declared.dpid }
    {
        self.dpid
    }

    /// Copies what it is declared to be.
    pub fn declared(&self, alloc: Global) -> Result<Decl, AllocError>
        ensures { IfOk result (λ d. d ≡ self.now.link.declared) }
    {
        Decl::new(alloc, self.dpid, self.cap, &self.ports)
    }

    /// Tells whether the switch is joined.
    pub fn is_joined(&self) -> bool
        ensures { result ≡ is_some self.now.link.switch }
    {
        self.switch.is_some()
    }

    /// Tells whether a message of the switch waits.
    pub fn has_waiting(&self) -> bool
        ensures { result ≡ not (is_empty self.now.link.waits) }
    {
        !self.waits.is_empty()
    }

    /// Tells whether the next call of its link is to fail. Fewer than 2^64 - 1 calls were made.
    pub fn is_failing(&self) -> bool
        requires { self.now.link.calls < 2 ^ 64 - 1 }
        ensures { result ≡ is_failing self.now.link }
    {
        self.fails.contains(self.calls + 1)
    }

    /// Lets the switch join at a moment, in seconds and at most 4,294,967,295, where it is out; gives its
    /// FEATURES_REPLY then. After want of memory it is as before.
    #[tactic(auto, unfolding(outside::specs::State::link_joined))]
    pub fn join(&mut self, moment: u64) -> Result<Option<ByteList>, AllocError>
        requires { moment ≤ 4294967295 }
        ensures told { IfOk result (λ features. features ≡ features_at_join moment self.old.link) }
        ensures own { IfOk result (λ features. IfSome features (IsFeaturesOf self.old.link.declared.dpid)) }
        ensures short { IfOk result (λ features. IfSome features (λ bytes. length bytes ≤ 65535)) }
        ensures ok { OnOk result (self.new.link ≡ link_joined moment self.old.link) }
        ensures err { OnErr result (self.new.link ≡ self.old.link) }
        ensures declared { self.new.link.declared ≡ self.old.link.declared }
    {
        if self.switch.is_some() {
            return Ok(None);
        }
        let switch = SimSwitch::joined(self.alloc, moment, self.dpid, self.cap, &self.ports)?;
        let features = switch.features()?;
        self.switch = Some(switch);
        Ok(Some(features))
    }

    /// Lets the switch leave, with all that it held; takes no memory.
    #[tactic(auto, unfolding(outside::specs::State::link_left))]
    pub fn leave(&mut self)
        ensures left { self.new.link ≡ link_left self.old.link }
        ensures declared { self.new.link.declared ≡ self.old.link.declared }
    {
        self.switch = None;
        self.waits.clear();
    }

    /// Lets something happen to the switch, where it is joined. After want of memory it is as before.
    #[tactic(auto, unfolding(outside::specs::State::link_stimulated))]
    pub fn stimulate(&mut self, x: &Stimulus) -> Result<(), AllocError>
        requires { IsStimulus x.now }
        ensures ok { OnOk result (self.new.link ≡ link_stimulated x.now self.old.link) }
        ensures few { self.old.link.declared.cap ≤ 4096 → OnOk result (length self.new.link.waits ≤ length self.old.link.waits + 8192) }
        ensures err { OnErr result (self.new.link ≡ self.old.link) }
        ensures declared { self.new.link.declared ≡ self.old.link.declared }
    {
        self.waits.reserve_batch()?;
        let sent = happen(self.alloc, &mut self.switch, x)?;
        self.waits.push_batch(sent);
        Ok(())
    }

    /// Makes ready for a moment, in seconds, not before the last and at most 4,294,967,295. The link stays.
    pub fn prepare(&mut self, moment: u64) -> Result<(), AllocError>
        requires after { StandsBy moment self.old.link.switch }
        requires within { moment ≤ 4294967295 }
        ensures same { self.new.link ≡ self.old.link }
        ensures ready { OnOk result (IsReady moment self.new) }
        ensures declared { self.new.link.declared ≡ self.old.link.declared }
    {
        self.waits.reserve_batch()?;
        self.due = due_at(self.alloc, &self.switch, moment)?;
        Ok(())
    }

    /// Moves the moment on to the one for which the link was made ready; takes no memory.
    #[tactic(auto, unfolding(outside::specs::State::link_stimulated))]
    pub fn pass(&mut self, moment: u64)
        requires after { StandsBy moment self.old.link.switch }
        requires within { moment ≤ 4294967295 }
        requires ready { IsReady moment self.old }
        ensures passed { self.new.link ≡ link_stimulated (Advance moment) self.old.link }
        ensures declared { self.new.link.declared ≡ self.old.link.declared }
    {
        let due = mem::replace(&mut self.due, MessageList::new(self.alloc));
        pass_to(&mut self.switch, moment);
        self.waits.push_batch(due);
    }

    /// Sends a frame that spells a message to the switch by a call of its link. After want of memory all is as before.
    #[tactic(auto, unfolding(outside::specs::State::link_sent))]
    pub fn send(&mut self, frame: &[u8]) -> Result<(), AllocError>
        requires frame { IsOk (reading_of frame.now) }
        requires may { MayCall self.old.link }
        ensures ok { OnOk result (self.new.link ≡ link_sent frame.now self.old.link) }
        ensures err { OnErr result (self.new.link ≡ self.old.link) }
        ensures declared { self.new.link.declared ≡ self.old.link.declared }
    {
        self.waits.reserve_batch()?;
        let sent = tell(self.alloc, &mut self.switch, frame)?;
        self.waits.push_batch(sent);
        self.calls += 1;
        Ok(())
    }

    /// Takes the oldest message that waits, by a call of its link; takes no memory. Where none waits, nothing is
    /// counted.
    #[tactic(auto, unfolding(outside::specs::State::link_got))]
    pub fn got(&mut self) -> Option<ByteList>
        requires { MayCall self.old.link }
        ensures message { IfSome result (λ message. slice_get self.old.link.waits 0 ≡ Some message) }
        ensures len { IfSome result (λ message. length message ≤ 65535) }
        ensures some { IfSome result (λ message. self.new.link ≡ link_got self.old.link) }
        ensures none { IfNone result ((self.old.link.waits ≡ []) × (self.new.link ≡ self.old.link)) }
        ensures declared { self.new.link.declared ≡ self.old.link.declared }
    {
        let message = self.waits.take()?;
        self.calls += 1;
        Some(message)
    }

    /// Takes the oldest message that waits as an item that is told; takes no memory.
    #[tactic(auto, unfolding(outside::specs::State::link_told))]
    pub fn told(&mut self) -> Option<ByteList>
        ensures message { IfSome result (λ message. slice_get self.old.link.waits 0 ≡ Some message) }
        ensures len { IfSome result (λ message. length message ≤ 65535) }
        ensures some { IfSome result (λ message. self.new.link ≡ link_told self.old.link) }
        ensures none { IfNone result ((self.old.link.waits ≡ []) × (self.new.link ≡ self.old.link)) }
        ensures declared { self.new.link.declared ≡ self.old.link.declared }
    {
        let message = self.waits.take()?;
        Some(message)
    }

    /// Notes that a call of its link failed while the switch was joined: it is lost, with all that it held. Takes no memory.
    #[tactic(auto, unfolding(outside::specs::State::link_lost))]
    pub fn lose(&mut self)
        requires { self.old.link.calls < 2 ^ 64 - 1 }
        ensures lost { self.new.link ≡ link_lost self.old.link }
        ensures declared { self.new.link.declared ≡ self.old.link.declared }
    {
        self.switch = None;
        self.waits.clear();
        self.calls += 1;
    }

    /// Notes that a call of its link failed while the switch was out; takes no memory.
    #[tactic(auto, unfolding(outside::specs::State::link_failed))]
    pub fn fail(&mut self)
        requires { self.old.link.calls < 2 ^ 64 - 1 }
        ensures failed { self.new.link ≡ link_failed self.old.link }
        ensures declared { self.new.link.declared ≡ self.old.link.declared }
    {
        self.calls += 1;
    }
}
