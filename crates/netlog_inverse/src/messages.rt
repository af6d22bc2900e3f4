//! The messages that put a key back, encoded.

ghost use Rattle.std.specs.Prelude.{◌≡◌, ◌≤◌, IfOk};
ghost use Rattle.of_wire.specs.Spelling.{message_size};
ghost use Rattle.of_wire.specs.declared.message.Message.TheVariants as messages;
ghost use Rattle.netlog_inverse.specs.Plans.{IsShowable};
ghost use Rattle.netlog_inverse.specs.Messages.{removal, standing_again, spelled_mod};

use flow_table::ViewRow;
use of_action::{ActionList, copy_actions};
use of_match::Key;
use of_types::{ByteList, flows, ports};
use of_wire::{FlowMod, Message, encode};
use std::alloc::{AllocError, Global};

/// Encodes a FLOW_MOD, with the transaction id 0.
#[tactic(auto, unfolding(crate::specs::Messages::spelled_mod))]
fn encoded(alloc: Global, m: FlowMod) -> Result<ByteList, AllocError>
    requires { message_size (messages.FlowMod m) ≤ 65535 }
    ensures { IfOk result (λ bytes. bytes ≡ spelled_mod m) }
{
    encode(alloc, 0, &Message::FlowMod(m))
}

/// Returns the DELETE_STRICT of a key, whatever its outputs.
fn removal_of(alloc: Global, key: &Key) -> FlowMod
    ensures { result ≡ removal key.now }
{
    FlowMod {
        matching: key.matching,
        cookie: 0,
        command: flows::DELETE_STRICT,
        idle: 0,
        hard: 0,
        priority: key.priority,
        buffer_id: flows::NO_BUFFER,
        out_port: ports::NONE,
        flags: 0,
        actions: ActionList::new(alloc),
    }
}

/// Encodes the DELETE_STRICT of a key.
#[tactic(auto, unfolding(of_wire::specs::Spelling::message_size))]
pub(crate) fn delete(alloc: Global, key: &Key) -> Result<ByteList, AllocError>
    ensures { IfOk result (λ bytes. bytes ≡ spelled_mod (removal key.now)) }
{
    encoded(alloc, removal_of(alloc, key))
}

/// Returns the FLOW_MOD of a command that names a row's key and has its values, with this hard timeout.
fn again(alloc: Global, command: u16, hard: u16, row: &ViewRow) -> Result<FlowMod, AllocError>
    ensures { IfOk result (λ m. m ≡ standing_again command hard row.now) }
{
    Ok(FlowMod {
        matching: row.key.matching,
        cookie: row.cookie,
        command,
        idle: row.idle,
        hard,
        priority: row.key.priority,
        buffer_id: flows::NO_BUFFER,
        out_port: ports::NONE,
        flags: flows::SEND_FLOW_REM,
        actions: copy_actions(alloc, &row.actions)?,
    })
}

/// Encodes that FLOW_MOD.
#[tactic(auto, unfolding(of_wire::specs::Spelling::message_size))]
fn encoded_again(
    alloc: Global,
    command: u16,
    hard: u16,
    row: &ViewRow,
) -> Result<ByteList, AllocError>
    requires { IsShowable row.now }
    ensures { IfOk result (λ bytes. bytes ≡ spelled_mod (standing_again command hard row.now)) }
{
    encoded(alloc, again(alloc, command, hard, row)?)
}

/// Encodes the MODIFY_STRICT of a row, with its actions and its cookie.
pub(crate) fn modify(alloc: Global, row: &ViewRow) -> Result<ByteList, AllocError>
    requires { IsShowable row.now }
    ensures { IfOk result (λ bytes. bytes ≡ spelled_mod (standing_again 2 row.now.hard row.now)) }
{
    encoded_again(alloc, flows::MODIFY_STRICT, row.hard, row)
}

/// Encodes the ADD of a row, with this hard timeout.
pub(crate) fn add(alloc: Global, row: &ViewRow, hard: u16) -> Result<ByteList, AllocError>
    requires { IsShowable row.now }
    ensures { IfOk result (λ bytes. bytes ≡ spelled_mod (standing_again 0 hard row.now)) }
{
    encoded_again(alloc, flows::ADD, hard, row)
}
