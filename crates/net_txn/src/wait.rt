//! Messages to a switch, and the wait for the reply to a barrier, without memory but for messages that are kept.

ghost use Rattle.std.specs.Prelude.{◌≡◌, ◌^◌, ◌<◌, ◌≤◌, ◌↔◌, [], ◌∷◌, true, false, length, take, IsTrue, IsOk, IfOk, IfErr, MatchResult};
ghost use Rattle.of_types.specs.Fields.{number_at, IsBytes};
ghost use Rattle.of_wire.specs.Reading.{reading_of};
ghost use Rattle.outside.specs.Calls.{most_message};
ghost use Rattle.lego_model.specs.BarrierWaits.{echo_reply};
ghost use Rattle.lego_model.specs.declared.wait.Notices.TheVariants.{Held};
ghost use Rattle.net_txn.specs.Parting.{IsPlainTrouble, IsPlainHalt};
ghost use Rattle.net_txn.specs.Causes.{link_trouble};
ghost use Rattle.net_txn.specs.Undos.{inverses_in};
ghost use Rattle.net_txn.specs.declared.halt.Halt.TheVariants.{Lost, Fault};
ghost use Rattle.net_txn.specs.declared.queue.Storage.TheVariants.{Growing};
ghost use Rattle.net_txn.specs.Said.{SaysOne, HearsOne, Treats, TreatsNot, PartsBehind, HearsNext, HearsNoMore, PartsOrNot, GivesUp, is_of_switch, PartsOrFails, barrier_of, Exchanges};

use crate::halt::Halt;
use crate::heard::{barrier_request, classify};
use crate::logged::Logged;
use crate::queue::{MessageQueue, Storage};
use crate::response::Response;
use crate::trouble::Trouble;
use crate::undo_progress::key_refused;
use lego_model::{Awaited, Heard, TxnFault};
use of_types::{Dpid, get_u32, kinds, put_u8};
use of_wire::check;
use outside::{LinkFault, World};

/// How many messages without the reply to a barrier are too many.
pub(crate) const FLOOD: u32 = 65_536;

/// Tells why a call of a link failed.
fn trouble_of(fault: LinkFault) -> Trouble
    ensures { result ≡ link_trouble fault }
{
    match fault {
        LinkFault::Failed => Trouble::Link,
        LinkFault::Short => Trouble::Short,
    }
}

/// Sends one message to a switch.
pub(crate) fn send<W: World>(world: &mut W, dpid: Dpid, frame: &[u8]) -> Result<(), Trouble>
    requires { IsOk (reading_of frame.now) }
    ensures { SaysOne W.Tells dpid frame.now (W.seen world.old) (W.seen world.new) result }
{
    match world.send(dpid, frame) {
        Ok(()) => Ok(()),
        Err(fault) => Err(trouble_of(fault)),
    }
}

/// Takes one message of a switch into the front of the buffer, and answers how many bytes it has.
fn receive<W: World>(world: &mut W, dpid: Dpid, buf: &mut [u8]) -> Result<usize, Trouble>
    requires { most_message ≤ length buf.old }
    ensures bytes { IsBytes buf.new }
    ensures within { IfOk result (λ n. n ≤ length buf.new) }
    ensures read { IfOk result (λ n. IsOk (reading_of (take n buf.new))) }
    ensures hears { HearsOne W.Tells dpid (W.seen world.old) (W.seen world.new) buf.new result }
    ensures len { length buf.new ≡ length buf.old }
    ensures parted { W.CanPart → IfErr result IsPlainTrouble }
{
    let len = match world.recv(dpid, buf) {
        Ok(len) => len,
        Err(fault) => return Err(trouble_of(fault)),
    };
    match check(&buf[..len]) {
        Ok(()) => Ok(len),
        Err(_) => Err(Trouble::Broke(len)),
    }
}

/// Makes an ECHO_REQUEST its reply.
#[tactic(auto, using(crate::specs::laws::SizeLaws::sizes))]
fn make_reply(message: &mut [u8])
    requires bytes { IsBytes message.old }
    requires read { IsOk (reading_of message.old) }
    requires kind { number_at 1 1 message.old ≡ 2 }
    ensures reply { message.new ≡ echo_reply message.old }
    ensures read { IsOk (reading_of message.new) }
{
    put_u8(message, 1, kinds::ECHO_REPLY);
}

/// Does with a message what it is to the wait, and answers whether it ends it.
fn treat<W: World>(
    world: &mut W,
    message: &mut [u8],
    kept: &mut MessageQueue,
    answer: &mut Response,
    awaited: &Awaited,
    storage: Storage,
) -> Result<bool, Trouble>
    requires bytes { IsBytes message.old }
    requires read { IsOk (reading_of message.old) }
    requires growing { awaited.now.notices ≡ Held → storage ≡ Growing }
    ensures { MatchResult result (Treats W.Tells awaited.now storage message.old (W.seen world.old) (W.seen world.new) kept.old kept.new answer.old answer.new)
        (TreatsNot W.Tells awaited.now storage message.old (W.seen world.old) (W.seen world.new) kept.old kept.new) }
{
    match classify(message, awaited) {
        Heard::Reply => Ok(true),
        Heard::Refused(refusal) => {
            answer.note(refusal);
            Ok(false)
        }
        Heard::Notice => {
            answer.hold(awaited.notices, message)?;
            Ok(false)
        }
        Heard::Echo => {
            make_reply(message);
            send(world, awaited.dpid, message)?;
            Ok(false)
        }
        Heard::Other => {
            kept.keep(storage, awaited.dpid, message)?;
            Ok(false)
        }
    }
}

/// Does with a message that refuses an inverse what it is to the wait, and then parts with its switch. Answers why the wait
/// ends.
fn part_behind<W: World>(
    world: &mut W,
    message: &mut [u8],
    kept: &mut MessageQueue,
    answer: &mut Response,
    awaited: &Awaited,
    storage: Storage,
) -> Trouble
    requires bytes { IsBytes message.old }
    requires read { IsOk (reading_of message.old) }
    requires growing { awaited.now.notices ≡ Held → storage ≡ Growing }
    requires can { W.CanPart }
    ensures { PartsBehind W.Tells awaited.now storage message.old (W.seen world.old) (W.seen world.new) kept.old kept.new result }
{
    match treat(world, message, kept, answer, awaited, storage) {
        Ok(_) => {
            world.part(awaited.dpid);
            Trouble::Parted
        }
        Err(trouble) => trouble,
    }
}

/// Gets one message and does with it what it is to the wait; answers whether it ends it. One that refuses an inverse fails
/// it, and where the world can part with a switch, it does.
fn hear<W: World>(
    world: &mut W,
    buf: &mut [u8],
    kept: &mut MessageQueue,
    answer: &mut Response,
    awaited: &Awaited,
    storage: Storage,
    reverted: &[Logged],
) -> Result<bool, Trouble>
    requires room { most_message ≤ length buf.old }
    requires growing { awaited.now.notices ≡ Held → storage ≡ Growing }
    ensures hears { MatchResult result (HearsNext W.Tells awaited.now storage (inverses_in awaited.now.dpid reverted.now) (W.seen world.old) (W.seen world.new) kept.old kept.new answer.old answer.new)
        (HearsNoMore W.Tells awaited.now storage (inverses_in awaited.now.dpid reverted.now) (W.seen world.old) (W.seen world.new) kept.old kept.new buf.new) }
    ensures len { length buf.new ≡ length buf.old }
    ensures parted { W.CanPart → IfErr result IsPlainTrouble }
{
    let len = receive(world, awaited.dpid, buf)?;
    if let Some(key) = key_refused(&buf[..len], reverted, awaited.dpid) {
        if world.can_part() {
            return Err(part_behind(world, &mut buf[..len], kept, answer, awaited, storage));
        }
        return Err(Trouble::Refused(key, get_u32(&buf[..len], 4), len));
    }
    treat(world, &mut buf[..len], kept, answer, awaited, storage)
}

/// Parts with a switch where the world can, and tells whether it did.
fn part_with<W: World>(world: &mut W, dpid: Dpid) -> bool
    ensures parts { PartsOrNot W.Tells dpid (W.seen world.old) (W.seen world.new) result }
    ensures can { IsTrue result ↔ W.CanPart }
{
    if world.can_part() {
        world.part(dpid);
        return true;
    }
    false
}

/// Parts with a switch that sent too many messages, where the world can; answers why the wait ends.
fn give_up<W: World>(world: &mut W, dpid: Dpid) -> Trouble
    ensures gives_up { GivesUp W.Tells dpid (W.seen world.old) (W.seen world.new) result }
    ensures parted { W.CanPart → IsPlainTrouble result }
{
    if part_with(world, dpid) {
        return Trouble::Parted;
    }
    Trouble::Flooded
}

/// Tells whether a switch is at fault: for all but want of memory.
fn is_of_switch(fault: &TxnFault) -> bool
    ensures { result ≡ is_of_switch fault.now }
{
    !matches!(fault, TxnFault::NoMemory)
}

/// Tells how calls end by a fault, where the switch was parted with for it or not.
fn ended(fault: TxnFault, is_parted: bool) -> Halt
    ensures parted { is_parted ≡ true → result ≡ Lost }
    ensures fails { is_parted ≡ false → result ≡ Fault fault }
{
    if is_parted {
        return Halt::Lost;
    }
    Halt::Fault(fault)
}

/// Parts with a switch that is at fault, where the world can; tells how the calls end. Want of memory is no fault of it.
pub(crate) fn part_or_fail<W: World>(world: &mut W, dpid: Dpid, fault: TxnFault) -> Halt
    ensures parts_or_fails { PartsOrFails W.Tells dpid fault (W.seen world.old) (W.seen world.new) result }
    ensures parted { W.CanPart → IsPlainHalt result }
{
    if !is_of_switch(&fault) {
        return Halt::Fault(fault);
    }
    let is_parted = part_with(world, dpid);
    ended(fault, is_parted)
}

/// Waits for the reply to the barrier, and answers what came before it.
fn wait<W: World>(
    world: &mut W,
    buf: &mut [u8],
    kept: &mut MessageQueue,
    awaited: &Awaited,
    storage: Storage,
    reverted: &[Logged],
) -> Result<Response, Trouble>
    requires room { most_message ≤ length buf.old }
    requires is_xid { awaited.now.barrier < 2 ^ 32 }
    requires growing { awaited.now.notices ≡ Held → storage ≡ Growing }
    ensures exchanges { Exchanges W.Tells awaited.now [] storage (inverses_in awaited.now.dpid reverted.now) (W.seen world.old) (W.seen world.new) kept.old kept.new buf.new result }
    ensures len { length buf.new ≡ length buf.old }
    ensures parted { W.CanPart → IfErr result IsPlainTrouble }
{
    let mut answer = Response::new(kept.allocator());
    for _heard in 0..FLOOD {
        if hear(world, buf, kept, &mut answer, awaited, storage, reverted)? {
            return Ok(answer);
        }
    }
    Err(give_up(world, awaited.dpid))
}

/// Sends the barrier and waits for its reply; answers what came before it. A message that refuses the inverse of one of
/// these entries ends it. Where the world can part with a switch, it is parted with then, and after 65,536 messages without
/// the reply.
pub(crate) fn await_barrier<W: World>(
    world: &mut W,
    buf: &mut [u8],
    kept: &mut MessageQueue,
    awaited: &Awaited,
    storage: Storage,
    reverted: &[Logged],
) -> Result<Response, Trouble>
    requires room { most_message ≤ length buf.old }
    requires growing { awaited.now.notices ≡ Held → storage ≡ Growing }
    ensures exchanges { Exchanges W.Tells awaited.now (barrier_of awaited.now ∷ []) storage (inverses_in awaited.now.dpid reverted.now) (W.seen world.old) (W.seen world.new) kept.old kept.new buf.new result }
    ensures len { length buf.new ≡ length buf.old }
    ensures parted { W.CanPart → IfErr result IsPlainTrouble }
{
    send(world, awaited.dpid, &barrier_request(awaited.barrier))?;
    wait(world, buf, kept, awaited, storage, reverted)
}
