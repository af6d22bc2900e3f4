//! What the host makes of a message that comes of itself.

ghost use Rattle.std.specs.Prelude.{◌≡◌, ◌++◌, ◌∷◌, [], IsOk, IsSome, IfOk, IfErr, OnOk, OnErr};
ghost use Rattle.of_types.specs.declared.journal.Act.TheVariants.{Sent};
ghost use Rattle.of_wire.specs.declared.message.Message.TheVariants as messages;
ghost use Rattle.of_wire.specs.Reading.{reading_of};
ghost use Rattle.of_wire.specs.Spelling.{message_bytes};
ghost use Rattle.of_wire.specs.Grammar.{IsMessage};
ghost use Rattle.flow_table.specs.View.{plains};
ghost use Rattle.outside.specs.declared.step.WorldStep.TheVariants.{Acted};
ghost use Rattle.net_txn.specs.Losing.{SaysHalt};
ghost use Rattle.net_txn.specs.Views.{rows_at};
ghost use Rattle.net_txn.specs.Said.{Speaks};
ghost use Rattle.net_txn.specs.Arriving.{event_of, net_after, Becomes, ArrivalHalts, TakesIn, Arrives};

use crate::exchange::say;
use crate::halt::Halt;
use crate::message_event::{error_event, event_with, removed_key, tells};
use crate::net::Net;
use app_frames::{Event, EventKind};
use flow_table::TableView;
use lego_model::TxnFault;
use of_types::{ByteList, Dpid, Xid};
use of_wire::{FlowRemoved, Message, WireFault, decode, encode};
use outside::World;
use std::alloc::{AllocError, Global};

/// Returns the reply to an ECHO_REQUEST.
fn echo_bytes(alloc: Global, xid: Xid, payload: &ByteList) -> Result<ByteList, AllocError>
    requires { IsMessage (messages.EchoRequest payload.now) }
    ensures bytes { IfOk result (λ b. b ≡ message_bytes xid (messages.EchoReply payload.now)) }
    ensures read { IfOk result (λ b. IsOk (reading_of b)) }
{
    let payload = ByteList::from_slice(alloc, payload.as_slice())?;
    encode(alloc, xid, &Message::EchoReply { payload })
}

/// Answers an ECHO_REQUEST.
fn answer_echo<W: World>(
    world: &mut W,
    alloc: Global,
    dpid: Dpid,
    xid: Xid,
    payload: &ByteList,
) -> Result<(), Halt>
    requires { IsMessage (messages.EchoRequest payload.now) }
    ensures speaks { Speaks W.Tells dpid 0 0 (W.seen world.old) (W.seen world.new) }
    ensures halts { IfErr result (SaysHalt W.Tells dpid (W.seen world.old) (W.seen world.new)) }
    ensures told { W.Tells → OnOk result ((W.seen world.new).history
        ≡ (W.seen world.old).history ++ Acted (Sent dpid (message_bytes xid (messages.EchoReply payload.now))) ∷ []) }
{
    let reply = echo_bytes(alloc, xid, payload)?;
    say(world, alloc, dpid, reply.as_slice())
}

/// Returns the event of a flow that was removed, where its owner is told.
pub(crate) fn removed_event(
    alloc: Global,
    views: &[TableView],
    dpid: Dpid,
    flow: &FlowRemoved,
    message: &Message,
) -> Result<Option<Event>, AllocError>
    requires message { IsMessage message.now }
    requires same { message.now ≡ messages.FlowRemoved flow.now }
    ensures { IfOk result (λ e. e ≡ event_of dpid (plains views.now) message.now) }
{
    if tells(views, dpid, flow) {
        Ok(Some(event_with(alloc, EventKind::FlowRemoved, dpid, message)?))
    } else {
        Ok(None)
    }
}

impl Net {
    /// Takes in the news that a message tells, and gives its event, where it is one.
    pub(crate) fn take_news(
        &mut self,
        dpid: Dpid,
        message: &Message,
    ) -> Result<Option<Event>, AllocError>
        requires { IsMessage message.now }
        ensures event { IfOk result (λ e. e ≡ event_of dpid self.old.views message.now) }
        ensures ok { OnOk result (self.new ≡ net_after dpid message.now self.old) }
        ensures err { OnErr result (self.new ≡ self.old) }
    {
        match message {
            Message::PacketIn(_) => Ok(Some(event_with(
                self.alloc,
                EventKind::PacketIn,
                dpid,
                message,
            )?)),
            Message::Error { kind, code, .. } => Ok(Some(error_event(
                self.alloc, dpid, *kind, *code,
            )?)),
            Message::FlowRemoved(flow) => {
                let event = removed_event(self.alloc, self.views.all(), dpid, flow, message)?;
                self.views.remove(dpid, &removed_key(flow));
                Ok(event)
            }
            Message::PortStatus(status) => {
                let event = event_with(self.alloc, EventKind::PortStatus, dpid, message)?;
                self.ports.change(self.alloc, dpid, status)?;
                Ok(Some(event))
            }
            _ => Ok(None),
        }
    }

    /// Takes in a message that was read, and gives its event, where it is one.
    fn take_in<W: World>(
        &mut self,
        world: &mut W,
        dpid: Dpid,
        xid: Xid,
        message: &Message,
    ) -> Result<Option<Event>, Halt>
        requires { IsMessage message.now }
        ensures ok { IfOk result (Becomes W.Tells dpid xid message.now (W.seen world.old) (W.seen world.new) self.old self.new) }
        ensures err { OnErr result (self.new ≡ self.old) }
        ensures speaks { Speaks W.Tells dpid 0 0 (W.seen world.old) (W.seen world.new) }
        ensures halts { IfErr result (ArrivalHalts W.Tells dpid message.now (W.seen world.old) (W.seen world.new)) }
    {
        match message {
            Message::EchoRequest { payload } => {
                answer_echo(world, self.alloc, dpid, xid, payload)?;
                Ok(None)
            }
            _ => Ok(self.take_news(dpid, message)?),
        }
    }

    /// Takes in a message that was read, and gives its event, where it is one; the switch is lost where its link fails.
    pub(crate) fn take_or_lose<W: World>(
        &mut self,
        world: &mut W,
        dpid: Dpid,
        xid: Xid,
        message: &Message,
    ) -> Result<Option<Event>, TxnFault>
        requires { IsMessage message.now }
        ensures { TakesIn W.Tells dpid xid message.now (W.seen world.old) (W.seen world.new) self.old self.new result }
    {
        match self.take_in(world, dpid, xid, message) {
            Ok(event) => Ok(event),
            Err(Halt::Lost) => {
                self.lose(dpid);
                Ok(None)
            }
            Err(Halt::Fault(fault)) => Err(fault),
        }
    }

    /// Takes in a message that came from a switch; gives its event, where it is one. There is none where the switch is lost
    /// meanwhile. `SwitchBroke` exactly where it is no message.
    pub fn arrived<W: World>(
        &mut self,
        world: &mut W,
        dpid: Dpid,
        frame: &[u8],
    ) -> Result<Option<Event>, TxnFault>
        requires { IsSome (rows_at dpid self.old.views) }
        ensures { Arrives W.Tells dpid frame.now (W.seen world.old) (W.seen world.new) self.old self.new result }
    {
        match decode(self.alloc, frame) {
            Ok(envelope) => { self.take_or_lose(world, dpid, envelope.xid, &envelope.message) }
            Err(WireFault::NoMemory) => Err(TxnFault::NoMemory),
            Err(_) => {
                let bytes = ByteList::from_slice(self.alloc, frame)?;
                Err(TxnFault::SwitchBroke(dpid, bytes))
            }
        }
    }
}
