//! What a switch is sent when it joins.

ghost use Rattle.std.specs.Prelude.{◌≡◌, ◌≤◌, [], ◌∷◌, length, IsOk, IfOk, IfErr};
ghost use Rattle.of_wire.specs.declared.message.Message.TheVariants as messages;
ghost use Rattle.of_wire.specs.Reading.{reading_of};
ghost use Rattle.of_wire.specs.Spelling.{message_bytes};
ghost use Rattle.flow_table.specs.Switch.{first_config};
ghost use Rattle.outside.specs.Calls.{most_message};
ghost use Rattle.net_txn.specs.Parting.{IsPlainHalt};
ghost use Rattle.net_txn.specs.Joining.{delete_all};
ghost use Rattle.net_txn.specs.Said.{Talks};

use crate::exchange::{ask, say};
use crate::halt::Halt;
use crate::queue::MessageQueue;
use crate::response::Response;
use lego_model::Awaited;
use of_action::ActionList;
use of_match::Match;
use of_types::{ByteList, Xid, flows, ports};
use of_wire::{FlowMod, Message, SwitchConfig, encode, encode_into};
use outside::World;
use std::alloc::{AllocError, Global};

/// Returns DELETE of any match, whatever the outputs.
fn deletion_of_all(alloc: Global) -> FlowMod
    ensures { result ≡ delete_all }
{
    FlowMod {
        matching: Match::any(),
        cookie: 0,
        command: flows::DELETE,
        idle: 0,
        hard: 0,
        priority: 0,
        buffer_id: flows::NO_BUFFER,
        out_port: ports::NONE,
        flags: 0,
        actions: ActionList::new(alloc),
    }
}

/// Returns the message that empties a table.
#[tactic(auto, unfolding(of_wire::specs::Spelling::message_size))]
pub(crate) fn emptying(alloc: Global, xid: Xid) -> Result<ByteList, AllocError>
    ensures bytes { IfOk result (λ b. b ≡ message_bytes xid (messages.FlowMod delete_all)) }
    ensures read { IfOk result (λ b. IsOk (reading_of b)) }
{
    encode(alloc, xid, &Message::FlowMod(deletion_of_all(alloc)))
}

/// Returns the message that sets the first configuration: no flags, and 128 bytes of a packet that is missed.
#[tactic(auto, unfolding(of_wire::specs::Spelling::message_size))]
pub(crate) fn configuring(xid: Xid) -> [u8; 12]
    ensures bytes { result ≡ message_bytes xid (messages.SetConfig first_config) }
    ensures read { IsOk (reading_of result) }
{
    let config = SwitchConfig {
        flags: 0,
        miss_send_len: 128,
    };
    let mut bytes = [0; 12];
    encode_into(xid, &Message::SetConfig(config), &mut bytes);
    bytes
}

/// Sends two messages and a barrier, and waits for its reply.
pub(crate) fn greet<W: World>(
    world: &mut W,
    alloc: Global,
    buf: &mut [u8],
    kept: &mut MessageQueue,
    awaited: &Awaited,
    first: &[u8],
    second: &[u8],
) -> Result<Response, Halt>
    requires room { most_message ≤ length buf.old }
    requires first { IsOk (reading_of first.now) }
    requires second { IsOk (reading_of second.now) }
    ensures talks { Talks W.Tells awaited.now (first.now ∷ second.now ∷ []) (W.seen world.old) (W.seen world.new) kept.old kept.new result }
    ensures parted { W.CanPart → IfErr result IsPlainHalt }
{
    say(world, alloc, awaited.dpid, first)?;
    ask(world, alloc, buf, kept, awaited, second)
}
