//! What undoes a change.

ghost use Rattle.std.specs.Prelude.{◌≡◌, IsOk};
ghost use Rattle.of_wire.specs.Reading.{reading_of};
ghost use Rattle.net_txn.specs.Net.{logged_at};
ghost use Rattle.lego_model.specs.UndoFaults.{delete_strict, inverse_bytes};

use of_action::ActionList;
use of_match::Key;
use of_types::{Dpid, Xid, flows, ports};
use of_wire::{FlowMod, Message, encode_into};
use std::alloc::Global;

/// How many bytes an inverse has.
pub(crate) const INVERSE: usize = 72;

/// How far the inverse of an entry came in an undo.
#[derive(Clone, Copy, Debug, PartialEq, Eq)]
pub struct UndoProgress {
    /// The transaction id with which it was sent, else 0.
    pub xid: Xid,
    /// How many inverses were sent to its switch up to this one since the last barrier.
    pub since: u32,
    /// Whether its switch has failed or is lost.
    pub failed: bool,
    /// Whether its switch is lost.
    pub lost: bool,
}

/// The addition of an entry, which is undone by the DELETE_STRICT of its key.
#[derive(Drop, Debug)]
pub struct Logged {
    pub dpid: Dpid,
    /// The key of the entry.
    pub key: Key,
    /// Room for what an undo keeps of it.
    pub progress: UndoProgress,
}

/// Returns the FLOW_MOD that removes the entry of a key, whatever its outputs.
fn deletion(alloc: Global, key: &Key) -> FlowMod
    ensures { result ≡ delete_strict key.now }
{
    FlowMod {
        matching: key.matching,
        cookie: 0,
        command: flows::DELETE_STRICT,
        idle: 0,
        hard: 0,
        priority: key.priority,
        buffer_id: flows::NO_BUFFER,
        out_port: ports::NONE,
        flags: 0,
        actions: ActionList::new(alloc),
    }
}

/// Returns the message that undoes the addition of the entry of a key; takes no memory.
#[tactic(auto, unfolding(of_wire::specs::Spelling::message_size, lego_model::specs::UndoFaults::inverse_bytes))]
pub(crate) fn inverse_of(alloc: Global, key: &Key, xid: Xid) -> [u8; 72]
    ensures bytes { result ≡ inverse_bytes xid key.now }
    ensures read { IsOk (reading_of result) }
{
    let _priority = key.priority;
    let mut bytes = [0; INVERSE];
    encode_into(xid, &Message::FlowMod(deletion(alloc, key)), &mut bytes);
    bytes
}

/// Tells what undoes the addition of the entry of a key; takes no memory.
pub(crate) fn undoing(dpid: Dpid, key: &Key) -> Logged
    ensures { result ≡ logged_at dpid key.now }
{
    Logged {
        dpid,
        key: *key,
        progress: UndoProgress {
            xid: 0,
            since: 0,
            failed: false,
            lost: false,
        },
    }
}
