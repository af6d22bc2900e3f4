//! The release of the packets that a transaction holds.

ghost use Rattle.std.specs.Prelude.{◌≡◌, ◌+◌, ◌<◌, ◌≤◌, [], ◌++◌, All, length, vec_capacity, Ok, Err, IsOk, IfOk, IfErr, OnOk, OnErr, MatchResult};
ghost use Rattle.of_wire.specs.declared.message.Message.TheVariants as messages;
ghost use Rattle.of_wire.specs.Reading.{reading_of};
ghost use Rattle.of_wire.specs.Spelling.{message_bytes};
ghost use Rattle.of_wire.specs.Grammar.{IsMessage};
ghost use Rattle.outside.specs.Calls.{most_message};
ghost use Rattle.net_txn.specs.Parting.{IsPlainHalt};
ghost use Rattle.net_txn.specs.Causes.{IsPlain};
ghost use Rattle.net_txn.specs.Releases.{takes_read, takes_all, Commits};
ghost use Rattle.lego_model.specs.FlowQueries.{asked_from};
ghost use Rattle.net_txn.specs.ReleaseSteps.{StaysSo, PacketSent, PacketUnsent, BarrierPassed, BarrierStops, TakesUntilReply, ReleasesPacket, ReleasesNoted, ReleasedFront, StopsBehind};

use crate::exchange::{pass, say};
use crate::halt::Halt;
use crate::net::{Net, following};
use crate::queue::{EventQueue, MessageQueue};
use lego_model::{Awaited, Notices, TxnFault};
use of_types::{ByteList, Dpid, Xid};
use of_wire::{Message, PacketOut, WireFault, decode, encode};
use outside::World;
use std::alloc::{AllocError, Global};
use std::collections::VecDeque;
use std::mem::replace;

/// Tells what is awaited behind a packet with this id: the reply to its barrier alone.
fn await_packet(dpid: Dpid, xid: Xid) -> Awaited
    ensures { result ≡ asked_from dpid xid }
{
    let barrier = following(xid);
    Awaited {
        dpid,
        first: barrier,
        barrier,
        notices: Notices::Kept,
    }
}

/// Returns the bytes of a packet.
fn packet_frame(alloc: Global, xid: Xid, packet: PacketOut) -> Result<ByteList, AllocError>
    requires { IsMessage (messages.PacketOut packet) }
    ensures bytes { IfOk result (λ b. b ≡ message_bytes xid (messages.PacketOut packet)) }
    ensures read { IfOk result (λ b. IsOk (reading_of b)) }
{
    encode(alloc, xid, &Message::PacketOut(packet))
}

/// Sends a packet.
fn send_packet<W: World>(
    world: &mut W,
    alloc: Global,
    dpid: Dpid,
    xid: Xid,
    packet: PacketOut,
) -> Result<(), Halt>
    requires { IsMessage (messages.PacketOut packet) }
    ensures { MatchResult result (λ _. PacketSent W.Tells dpid xid packet (W.seen world.old) (W.seen world.new)) (PacketUnsent W.Tells dpid (W.seen world.old) (W.seen world.new)) }
{
    let frame = packet_frame(alloc, xid, packet)?;
    say(world, alloc, dpid, frame.as_slice())
}

/// Sends the barrier behind a packet, and waits for its reply; gives what came before it.
fn await_behind<W: World>(
    world: &mut W,
    alloc: Global,
    buf: &mut [u8],
    came: &mut MessageQueue,
    awaited: &Awaited,
) -> Result<VecDeque<(Dpid, ByteList)>, Halt>
    requires { most_message ≤ length buf.old }
    ensures awaits { MatchResult result (λ came. BarrierPassed W.Tells awaited.now (W.seen world.old) (W.seen world.new) came.items)
        (BarrierStops W.Tells awaited.now (W.seen world.old) (W.seen world.new)) }
    ensures parted { W.CanPart → IfErr result IsPlainHalt }
{
    came.clear();
    pass(world, alloc, buf, came, awaited)?;
    Ok(came.take_all()?)
}

/// Takes in one message that came during a release.
fn take_one(
    net: &mut Net,
    queue: &mut EventQueue,
    dpid: Dpid,
    bytes: &[u8],
) -> Result<(), AllocError>
    ensures ok { OnOk result ((net.new, queue.new) ≡ takes_read dpid (reading_of bytes.now) (net.old, queue.old)) }
    ensures stays { StaysSo [] net.old net.new }
{
    let envelope = match decode(net.alloc, bytes) {
        Ok(envelope) => envelope,
        Err(WireFault::NoMemory) => return Err(AllocError),
        Err(_) => return Ok(()),
    };
    if let Some(event) = net.take_news(dpid, &envelope.message)? {
        queue.push(event)?;
    }
    Ok(())
}

/// Takes in what came during a release, in order.
fn take_all(
    net: &mut Net,
    queue: &mut EventQueue,
    came: VecDeque<(Dpid, ByteList)>,
) -> Result<(), AllocError>
    ensures ok { OnOk result ((net.new, queue.new) ≡ takes_all came.items (net.old, queue.old)) }
    ensures stays { StaysSo [] net.old net.new }
{
    for (dpid, bytes) in came {
        take_one(net, queue, dpid, bytes.as_slice())?;
    }
    Ok(())
}

/// Releases one packet, and notes it where it was sent, in room that is there.
#[tactic(auto, unfolding(of_wire::specs::Spelling::message_size))]
fn release_one<W: World>(
    net: &mut Net,
    world: &mut W,
    queue: &mut EventQueue,
    sent: &mut Vec<(Dpid, u32)>,
    dpid: Dpid,
    packet: PacketOut,
) -> Result<(), TxnFault>
    requires message { IsMessage (messages.PacketOut packet) }
    requires room { length sent.old.items < vec_capacity sent.old }
    ensures released { ReleasesNoted W.Tells (dpid, packet) (W.seen world.old) (W.seen world.new) net.old net.new queue.old queue.new sent.old.items sent.new.items result }
    ensures capacity { vec_capacity sent.old ≤ vec_capacity sent.new }
    ensures len { length sent.new.items ≤ length sent.old.items + 1 }
    ensures parted { W.CanPart → IfErr result IsPlain }
{
    let size = packet.payload.len() as u32;
    if net.release_packet(world, queue, dpid, packet)? {
        sent.push((dpid, size)).unwrap();
    }
    Ok(())
}

/// Releases packets, in order; gives each that was sent, in room that is there.
fn release_all<W: World>(
    net: &mut Net,
    world: &mut W,
    queue: &mut EventQueue,
    held: Vec<(Dpid, PacketOut)>,
    room: Vec<(Dpid, u32)>,
) -> Result<Vec<(Dpid, u32)>, TxnFault>
    requires messages { All (λ h. IsMessage (messages.PacketOut h.1)) held.items }
    requires none { room.items ≡ [] }
    requires room { length held.items ≤ vec_capacity room }
    ensures released { MatchResult result
        (λ sent. ReleasedFront W.Tells held.items (W.seen world.old) (W.seen world.new) net.old net.new queue.old queue.new sent.items)
        (StopsBehind W.Tells held.items (W.seen world.old) (W.seen world.new) net.old net.new queue.old) }
    ensures parted { W.CanPart → IfErr result IsPlain }
{
    let mut sent = room;
    for (dpid, packet) in held {
        release_one(net, world, queue, &mut sent, dpid, packet)?;
    }
    Ok(sent)
}

/// Appends notices to the events that wait, and gives room for the answer of a release. Where memory is wanting both stay.
fn take_room(
    alloc: Global,
    queue: &mut EventQueue,
    notices: &mut EventQueue,
    packets: usize,
) -> Result<Vec<(Dpid, u32)>, AllocError>
    ensures none { IfOk result (λ room. room.items ≡ []) }
    ensures room { IfOk result (λ room. packets ≤ vec_capacity room) }
    ensures queue { OnOk result (queue.new ≡ queue.old ++ notices.old) }
    ensures emptied { OnOk result (notices.new ≡ []) }
    ensures err { OnErr result (queue.new ≡ queue.old) }
    ensures left { OnErr result (notices.new ≡ notices.old) }
{
    let room = Vec::with_capacity(alloc, packets)?;
    queue.append(notices)?;
    Ok(room)
}

impl Net {
    /// Waits for the reply to the barrier behind a packet, and takes in what comes before it; the switch is lost where its
    /// link fails.
    fn take_until_reply<W: World>(
        &mut self,
        world: &mut W,
        queue: &mut EventQueue,
        awaited: &Awaited,
    ) -> Result<(), TxnFault>
        ensures takes { TakesUntilReply W.Tells awaited.now (W.seen world.old) (W.seen world.new) self.old self.new queue.old queue.new result }
        ensures parted { W.CanPart → IfErr result IsPlain }
    {
        match await_behind(world, self.alloc, &mut self.buf, &mut self.came, awaited) {
            Ok(came) => Ok(take_all(self, queue, came)?),
            Err(Halt::Lost) => {
                self.lose(awaited.dpid);
                Ok(())
            }
            Err(Halt::Fault(fault)) => Err(fault),
        }
    }

    /// Releases one packet, where its switch has a view; tells whether it was sent. The switch is lost where its link
    /// fails.
    fn release_packet<W: World>(
        &mut self,
        world: &mut W,
        queue: &mut EventQueue,
        dpid: Dpid,
        packet: PacketOut,
    ) -> Result<bool, TxnFault>
        requires { IsMessage (messages.PacketOut packet) }
        ensures releases { ReleasesPacket W.Tells (dpid, packet) (W.seen world.old) (W.seen world.new) self.old self.new queue.old queue.new result }
        ensures parted { W.CanPart → IfErr result IsPlain }
    {
        if !self.views.is_viewed(dpid) {
            return Ok(false);
        }
        let xid = self.xid;
        self.xid = following(following(xid));
        match send_packet(world, self.alloc, dpid, xid, packet) {
            Ok(()) => {
                self.take_until_reply(world, queue, &await_packet(dpid, xid))?;
                Ok(true)
            }
            Err(Halt::Lost) => {
                self.lose(dpid);
                Ok(false)
            }
            Err(Halt::Fault(fault)) => Err(fault),
        }
    }

    /// Forgets what was logged from a position on, appends the notices that are held to the queue, and releases the packets
    /// that are held, in order, each with a barrier behind it; what comes meanwhile joins the queue as events. The room for
    /// its answer and for the notices is taken first: where there is none, what was logged is undone.
    pub(crate) fn release_from<W: World>(
        &mut self,
        world: &mut W,
        queue: &mut EventQueue,
        start: usize,
    ) -> Result<Vec<(Dpid, u32)>, TxnFault>
        requires { 1 ≤ self.old.room }
        ensures commits { MatchResult result
            (λ sent. Commits W.Tells start (W.seen world.old) (W.seen world.new) self.old self.new queue.old queue.new (Ok sent.items))
            (λ fault. Commits W.Tells start (W.seen world.old) (W.seen world.new) self.old self.new queue.old queue.new (Err fault)) }
        ensures parted { W.CanPart → IfErr result IsPlain }
    {
        let Ok(room) = take_room(self.alloc, queue, &mut self.notices, self.held.len()) else {
            let _undone = self.undo_from(world, start);
            return Err(TxnFault::NoMemory);
        };
        self.log.truncate(start);
        let held = replace(&mut self.held, Vec::new(self.alloc));
        let sent = release_all(self, world, queue, held, room)?;
        Ok(sent)
    }
}
