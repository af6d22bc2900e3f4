//! PACKET_OUT: the messages that it sends are made first, and then its outputs are counted, when nothing may fail any
//! more.

ghost use Rattle.std.specs.Prelude.{◌≡◌, ◌≤◌, ◌<◌, ◌^◌, ◌++◌, None, map, length, All, IfOk, OnOk, OnErr};
ghost use Rattle.std.specs.List.{flat_map};
ghost use Rattle.of_wire.specs.Spelling.{message_size};
ghost use Rattle.flow_table.specs.Table.{IsTable};
ghost use Rattle.flow_table.specs.Refusals.{packet_out_refusal};
ghost use Rattle.flow_table.specs.Frames.{sent_by_packet_output, after_packet_output, after_packet_outputs, after_packet_out, sent_by_packet_out, sent_by_packet_outputs};
ghost use Rattle.switch_sim.specs.Words.{reach};
ghost use Rattle.switch_sim.specs.Readable.{AreReadable};
ghost use Rattle.switch_sim.specs.Plan.{IsPlanned, planned_output};

use crate::message_list::MessageList;
use crate::output::{measure, push_output};
use crate::switch::SimSwitch;
use frame_edit::{OutList, apply};
use of_types::{ByteList, PortNo, ports};
use of_wire::{Message, PacketOut};
use std::alloc::AllocError;

/// An output of a PACKET_OUT, and for one to TABLE the outputs of the entry that the frame hits.
#[derive(Drop)]
pub(crate) struct Planned {
    pub(crate) to: PortNo,
    pub(crate) frame: ByteList,
    pub(crate) hit: OutList,
}

/// The outputs of a PACKET_OUT, and what they send.
#[derive(Drop)]
struct Plan {
    steps: Vec<Planned>,
    messages: Vec<ByteList>,
}

fn append(all: &mut Vec<ByteList>, more: MessageList) -> Result<(), AllocError>
    requires before { AreReadable all.old.items }
    requires more { AreReadable more }
    ensures all { OnOk result (all.new.items ≡ all.old.items ++ more) }
    ensures readable { OnOk result (AreReadable all.new.items) }
{
    let mut more = more.into_vec();
    all.append(&mut more)
}

impl SimSwitch {
    fn is_in_order(&self)
        ensures { IsTable self.now.table.entries }
    {
        let _entries = self.table.entries().len();
    }

    /// Plans an output to TABLE.
    #[tactic(auto, unfolding(flow_table::specs::Frames::sent_by_packet_output))]
    fn plan_lookup(
        &self,
        messages: &mut Vec<ByteList>,
        in_port: PortNo,
        frame: &ByteList,
    ) -> Result<Planned, AllocError>
        requires fits { reach frame.now ≤ 65517 }
        requires before { AreReadable messages.old.items }
        ensures output { IfOk result (λ p. planned_output p ≡ (0xfff9, frame.now)) }
        ensures planned { IfOk result (IsPlanned in_port self.now) }
        ensures sent { OnOk result (messages.new.items ≡ messages.old.items ++ sent_by_packet_output in_port (0xfff9, frame.now) self.now) }
        ensures readable { OnOk result (AreReadable messages.new.items) }
    {
        let looked = self.look_up(in_port, frame.as_slice())?;
        append(messages, looked.messages)?;
        Ok(Planned {
            to: ports::TABLE,
            frame: ByteList::from_slice(self.alloc, frame.as_slice())?,
            hit: looked.outputs,
        })
    }

    /// Plans an output, and appends what it sends.
    #[tactic(auto, unfolding(flow_table::specs::Frames::sent_by_packet_output))]
    fn plan_output(
        &self,
        messages: &mut Vec<ByteList>,
        in_port: PortNo,
        to: PortNo,
        frame: &ByteList,
    ) -> Result<Planned, AllocError>
        requires fits { reach frame.now ≤ 65517 }
        requires before { AreReadable messages.old.items }
        ensures output { IfOk result (λ p. planned_output p ≡ (to, frame.now)) }
        ensures planned { IfOk result (IsPlanned in_port self.now) }
        ensures sent { OnOk result (messages.new.items ≡ messages.old.items ++ sent_by_packet_output in_port (to, frame.now) self.now) }
        ensures readable { OnOk result (AreReadable messages.new.items) }
    {
        if to == ports::TABLE {
            return self.plan_lookup(messages, in_port, frame);
        }
        push_output(self.alloc, messages, in_port, to, frame)?;
        Ok(Planned {
            to,
            frame: ByteList::from_slice(self.alloc, frame.as_slice())?,
            hit: OutList::new(self.alloc),
        })
    }

    /// Plans outputs, one after the other.
    fn plan(&self, in_port: PortNo, outputs: &[(PortNo, ByteList)]) -> Result<Plan, AllocError>
        requires { All (λ o. reach o.1 ≤ 65517) outputs.now }
        ensures outputs { IfOk result (λ p. map planned_output p.steps.items ≡ outputs.now) }
        ensures planned { IfOk result (λ p. All (IsPlanned in_port self.now) p.steps.items) }
        ensures sent { IfOk result (λ p. p.messages.items ≡ flat_map (λ o. sent_by_packet_output in_port o self.now) outputs.now) }
        ensures readable { IfOk result (λ p. AreReadable p.messages.items) }
    {
        let mut steps = Vec::new(self.alloc);
        let mut messages = Vec::new(self.alloc);
        for (to, frame) in outputs {
            steps.push(self.plan_output(&mut messages, in_port, *to, frame)?)?;
        }
        Ok(Plan { steps, messages })
    }

    /// Counts a planned output.
    #[tactic(auto, unfolding(flow_table::specs::Frames::after_packet_output))]
    fn perform(&mut self, in_port: PortNo, step: &Planned)
        requires len { length step.now.frame < 2 ^ 32 }
        requires planned { IsPlanned in_port self.old step.now }
        ensures { self.new ≡ after_packet_output in_port (planned_output step.now) self.old }
    {
        if step.to == ports::TABLE {
            let place = self.find(in_port, step.frame.as_slice());
            self.finish_lookup(in_port, step.frame.as_slice(), place, step.hit.as_slice());
        } else {
            self.count_out(in_port, step.to, step.frame.len() as u64);
        }
    }

    /// Counts planned outputs, one after the other.
    fn perform_all(&mut self, in_port: PortNo, steps: &[Planned])
        requires in_order { IsTable self.old.table.entries }
        requires len { All (λ p. length p.frame < 2 ^ 32) steps.now }
        requires planned { All (IsPlanned in_port self.old) steps.now }
        ensures { self.new ≡ after_packet_outputs in_port (map planned_output steps.now) self.old }
    {
        for step in steps {
            self.perform(in_port, step);
        }
    }

    /// Sends outputs, one after the other.
    fn release(
        &mut self,
        in_port: PortNo,
        outputs: &[(PortNo, ByteList)],
    ) -> Result<MessageList, AllocError>
        requires { All (λ o. reach o.1 ≤ 65517) outputs.now }
        ensures sent { IfOk result (λ list. list ≡ sent_by_packet_outputs in_port outputs.now self.old) }
        ensures readable { IfOk result AreReadable }
        ensures ok { OnOk result (self.new ≡ after_packet_outputs in_port outputs.now self.old) }
        ensures err { OnErr result (self.new ≡ self.old) }
    {
        self.is_in_order();
        let plan = self.plan(in_port, outputs)?;
        self.perform_all(in_port, &plan.steps);
        Ok(MessageList::from_vec(plan.messages))
    }

    /// PACKET_OUT (OpenFlow 1.0.0, 5.3.6 Send Packet Message): its actions are applied to its data.
    pub(crate) fn packet_out(&mut self, m: &PacketOut) -> Result<MessageList, AllocError>
        requires free { packet_out_refusal self.old.had m.now ≡ None }
        requires size { message_size (Message.PacketOut m.now) ≤ 65535 }
        ensures sent { IfOk result (λ list. list ≡ sent_by_packet_out m.now self.old) }
        ensures readable { IfOk result AreReadable }
        ensures ok { OnOk result (self.new ≡ after_packet_out m.now self.old) }
        ensures err { OnErr result (self.new ≡ self.old) }
    {
        measure(m.actions.as_slice());
        let outputs = apply(self.alloc, &m.actions, m.payload.as_slice())?.frames;
        self.release(m.in_port, outputs.as_slice())
    }
}
