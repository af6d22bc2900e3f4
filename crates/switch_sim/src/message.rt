//! What messages make of a switch, and what it answers.

ghost use Rattle.std.specs.Prelude.{◌≡◌, ◌==◌, ◌+◌, ◌-◌, ◌≤◌, ◌<◌, ◌^◌, ◌∷◌, [], None, Some, map, length, if◌then◌else◌, All, IsOk, IfOk, OnOk, OnErr};
ghost use Rattle.of_wire.specs.Reading.{reading_of};
ghost use Rattle.of_wire.specs.Spelling.{message_size};
ghost use Rattle.flow_table.specs.Change.{refusal, changed, notices_of};
ghost use Rattle.flow_table.specs.Switch.{with_port};
ghost use Rattle.flow_table.specs.Refusals.{flow_refusal};
ghost use Rattle.flow_table.specs.Step.{flow_removed_bytes, with_config, error_bytes, sent_by_taken, after_message, sent_by_message};
ghost use Rattle.switch_sim.specs.Words.{early_refusal};
ghost use Rattle.switch_sim.specs.Readable.{AreReadable};
ghost use Rattle.switch_sim.specs.Words.{AnswersWith, IsQuestion};

use crate::message_list::MessageList;
use crate::port::Port;
use crate::refusal::{
    refuse_config, refuse_flow, refuse_packet_out, refuse_port_mod, refuse_stats,
};
use crate::reply::{barrier, config, echo, error, features};
use crate::switch::SimSwitch;
use crate::table::change;
use flow_table::ChangeFault;
use of_types::{OfError, Xid, errors};
use of_wire::{FlowMod, Message, PortMod, SwitchConfig};
use std::alloc::AllocError;

#[tactic(auto, unfolding(flow_table::specs::Step::with_config))]
fn modify_at(port: &mut Port, m: &PortMod)
    ensures { port.new ≡ (if port.old.number == m.now.port_no then with_config m.now port.old else port.old) }
{
    if port.number() == m.port_no {
        port.set_config(m.config, m.mask);
    }
}

/// Sets the bits of a PORT_MOD at its port.
fn modify_ports(ports: &mut [Port], m: &PortMod)
    ensures { ports.new ≡ with_port m.now.port_no (with_config m.now) ports.old }
{
    for port in ports.iter_mut() {
        modify_at(port, m);
    }
}

impl SimSwitch {
    /// Returns the refusal of a message as far as it does not look at the table's entries.
    #[tactic(auto, unfolding(flow_table::specs::Refusals::message_refusal))]
    fn early_refusal(&self, m: &Message) -> Option<OfError>
        ensures { result ≡ early_refusal self.now m.now }
    {
        match m {
            Message::FlowMod(flow) => refuse_flow(&self.had, flow),
            Message::PacketOut(packet) => refuse_packet_out(&self.had, packet),
            Message::PortMod(change) => refuse_port_mod(self.dpid, &self.ports, change),
            Message::SetConfig(config) => refuse_config(config),
            Message::StatsRequest(request) => refuse_stats(request),
            Message::Hello { .. }
            | Message::EchoRequest { .. }
            | Message::EchoReply { .. }
            | Message::FeaturesRequest
            | Message::GetConfigRequest
            | Message::BarrierRequest => None,
            Message::Vendor { .. } => Some(errors::REQUEST_BAD_VENDOR),
            Message::Error { .. }
            | Message::FeaturesReply(_)
            | Message::GetConfigReply(_)
            | Message::PacketIn(_)
            | Message::FlowRemoved(_)
            | Message::PortStatus(_)
            | Message::StatsReply(_)
            | Message::BarrierReply
            | Message::QueueGetConfigRequest { .. }
            | Message::QueueGetConfigReply { .. } => Some(errors::REQUEST_BAD_TYPE),
        }
    }

    /// Returns the ERROR that answers a message.
    fn refuse(&self, xid: Xid, m: &Message, refusal: OfError) -> Result<MessageList, AllocError>
        requires { message_size m.now ≤ 65535 }
        ensures sent { IfOk result (λ list. list ≡ error_bytes xid m.now refusal ∷ []) }
        ensures readable { IfOk result AreReadable }
    {
        MessageList::one(self.alloc, error(self.alloc, xid, m, refusal)?)
    }

    /// Changes the table as a FLOW_MOD says.
    fn change_table(&mut self, m: &FlowMod) -> Result<MessageList, ChangeFault>
        requires serials { self.old.table.next < 2 ^ 64 - 1 }
        requires free { flow_refusal self.old.had m.now ≡ None }
        ensures answer { AnswersWith result (refusal self.old.declared.cap m.now self.old.table.entries) (map flow_removed_bytes (notices_of self.old.moment m.now self.old.table.entries)) }
        ensures readable { IfOk result AreReadable }
        ensures ok { OnOk result (self.new ≡ record self.old { table = changed self.old.moment m.now self.old.table }) }
        ensures err { OnErr result (self.new ≡ self.old) }
    {
        change(self.alloc, &mut self.table, m, self.moment, self.cap)
    }

    /// FLOW_MOD (OpenFlow 1.0.0, 5.3.3 Modify State Messages): the table's refusals, or its change and its notices.
    fn flow_mod(&mut self, xid: Xid, m: &Message, flow: &FlowMod) -> Result<MessageList, AllocError>
        requires is { m.now ≡ Message.FlowMod flow.now }
        requires size { message_size m.now ≤ 65535 }
        requires serials { self.old.table.next < 2 ^ 64 - 1 }
        requires free { flow_refusal self.old.had flow.now ≡ None }
        ensures sent { IfOk result (λ list. list ≡ sent_by_message xid m.now self.old) }
        ensures readable { IfOk result AreReadable }
        ensures ok { OnOk result (self.new ≡ after_message m.now self.old) }
        ensures err { OnErr result (self.new ≡ self.old) }
    {
        match self.change_table(flow) {
            Ok(messages) => Ok(messages),
            Err(ChangeFault::Refused(refusal)) => self.refuse(xid, m, refusal),
            Err(ChangeFault::NoMemory) => Err(AllocError),
        }
    }

    /// PORT_MOD (OpenFlow 1.0.0, 5.3.3 Modify State Messages): the bits of its mask that the switch keeps.
    fn port_mod(&mut self, m: &PortMod)
        ensures { self.new ≡ record self.old { ports = with_port m.now.port_no (with_config m.now) self.old.ports } }
    {
        modify_ports(&mut self.ports, m);
    }

    /// SET_CONFIG (OpenFlow 1.0.0, 5.3.2 Switch Configuration).
    fn set_config(&mut self, config: SwitchConfig)
        ensures { self.new ≡ record self.old { config = config } }
    {
        self.config = config;
    }

    /// Returns the reply to a message that changes nothing: to a barrier, an echo, or a request for features or the
    /// configuration; none to a HELLO or an ECHO_REPLY.
    #[tactic(auto, unfolding(flow_table::specs::Step::sent_by_taken))]
    fn answer(&self, xid: Xid, m: &Message) -> Result<MessageList, AllocError>
        requires size { message_size m.now ≤ 65535 }
        requires question { IsQuestion m.now }
        ensures sent { IfOk result (λ list. list ≡ sent_by_taken xid m.now self.now) }
        ensures readable { IfOk result AreReadable }
    {
        let reply = match m {
            Message::BarrierRequest => barrier(self.alloc, xid)?,
            Message::EchoRequest { payload } => echo(self.alloc, xid, payload)?,
            Message::FeaturesRequest => features(self.alloc, xid, self.dpid, &self.ports)?,
            Message::GetConfigRequest => config(self.alloc, xid, self.config)?,
            _ => return Ok(MessageList::new(self.alloc)),
        };
        MessageList::one(self.alloc, reply)
    }

    /// Takes a message that is not refused before the table is looked at.
    fn take(&mut self, xid: Xid, m: &Message) -> Result<MessageList, AllocError>
        requires size { message_size m.now ≤ 65535 }
        requires serials { self.old.table.next < 2 ^ 64 - 1 }
        requires free { early_refusal self.old m.now ≡ None }
        ensures sent { IfOk result (λ list. list ≡ sent_by_message xid m.now self.old) }
        ensures readable { IfOk result AreReadable }
        ensures ok { OnOk result (self.new ≡ after_message m.now self.old) }
        ensures err { OnErr result (self.new ≡ self.old) }
    {
        match m {
            Message::FlowMod(flow) => self.flow_mod(xid, m, flow),
            Message::PacketOut(packet) => self.packet_out(packet),
            Message::PortMod(change) => {
                self.port_mod(change);
                Ok(MessageList::new(self.alloc))
            }
            Message::SetConfig(config) => {
                self.set_config(*config);
                Ok(MessageList::new(self.alloc))
            }
            Message::StatsRequest(request) => self.statistics(xid, request),
            _ => self.answer(xid, m),
        }
    }

    /// Refuses a message, or takes it.
    fn respond(&mut self, xid: Xid, m: &Message) -> Result<MessageList, AllocError>
        requires size { message_size m.now ≤ 65535 }
        requires serials { self.old.table.next < 2 ^ 64 - 1 }
        ensures sent { IfOk result (λ list. list ≡ sent_by_message xid m.now self.old) }
        ensures readable { IfOk result AreReadable }
        ensures ok { OnOk result (self.new ≡ after_message m.now self.old) }
        ensures err { OnErr result (self.new ≡ self.old) }
    {
        match self.early_refusal(m) {
            Some(refusal) => self.refuse(xid, m, refusal),
            None => self.take(xid, m),
        }
    }

    /// Takes a message, and gives what the switch sends then: its answer, or an ERROR where it refuses the message
    /// (OpenFlow 1.0.0, 5.3 to 5.5).
    ///
    /// After a refusal and want of memory the switch is as before. The message has at most 65,535 bytes, and fewer than
    /// 2^64 - 1 serials were given to entries; each message gives one at most. What is sent can be read.
    pub fn message(&mut self, xid: Xid, m: &Message) -> Result<MessageList, AllocError>
        requires size { message_size m.now ≤ 65535 }
        requires serials { self.old.table.next < 2 ^ 64 - 1 }
        ensures sent { IfOk result (λ list. list ≡ sent_by_message xid m.now self.old) }
        ensures readable { IfOk result (λ list. All (λ bytes. IsOk (reading_of bytes)) list) }
        ensures short { IfOk result (λ list. All (λ bytes. length bytes ≤ 65535) list) }
        ensures ok { OnOk result (self.new ≡ after_message m.now self.old) }
        ensures err { OnErr result (self.new ≡ self.old) }
        ensures serials { self.new.table.next ≤ self.old.table.next + 1 }
    {
        self.respond(xid, m)
    }
}
