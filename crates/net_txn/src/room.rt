//! Room for the bytes of the faults of undos, and the faults that take it along.

ghost use Rattle.std.specs.Prelude.{◌≡◌, ◌+◌, ◌≤◌, ℕ, List, length, take, vec_len, None};
ghost use Rattle.net_txn.specs.Undos.{halt_by, fault_by, ports_by, first_fault_of, IsRoomLeft};

use crate::logged::{INVERSE, inverse_of};
use crate::port_table::PortTable;
use crate::trouble::Trouble;
use crate::wait::FLOOD;
use lego_model::TxnFault;
use of_types::limits::MOST_MESSAGE_BYTES;
use of_types::{ByteList, Dpid};
use std::alloc::{AllocError, Global};
use std::marker::Model;

/// Room for the bytes of one fault.
#[derive(Drop, Debug)]
pub(crate) struct Room {
    sent: Vec<u8>,
    got: Vec<u8>,
}

impl Model for Room {
    ghost use Rattle.std.specs.Prelude.{◌≡◌, ℕ, vec_len};

    ghost Value = { ℕ };

    ghost view = { λ s. vec_len s.got };

    ghost invariant = { λ s. (vec_len s.sent ≡ 72) × (vec_len s.got ≡ 65535) };
}

impl Room {
    /// Returns room for the bytes of one fault.
    pub(crate) fn new(alloc: Global) -> Result<Room, AllocError> {
        Ok(Room {
            sent: vec![in alloc; 0; INVERSE]?,
            got: vec![in alloc; 0; MOST_MESSAGE_BYTES]?,
        })
    }

    /// Returns a copy of bytes that were got.
    fn keep_got(self, bytes: &[u8]) -> ByteList
        requires { length bytes.now ≤ 65535 }
        ensures { result ≡ bytes.now }
    {
        filled(self.got, bytes)
    }

    /// Returns the fault of a switch that refused an inverse.
    fn diverged(self, dpid: Dpid, inverse: &[u8; 72], got: &[u8]) -> TxnFault
        requires { length got.now ≤ 65535 }
        ensures { result ≡ TxnFault.Diverged dpid inverse.now got.now }
    {
        TxnFault::Diverged(dpid, filled(self.sent, inverse), filled(self.got, got))
    }
}

/// Returns a copy of bytes, in room that is there.
fn filled(room: Vec<u8>, bytes: &[u8]) -> ByteList
    requires { length bytes.now ≤ vec_len room }
    ensures { result ≡ bytes.now }
{
    let mut room = room;
    room.truncate(bytes.len());
    room.copy_from_slice(bytes);
    ByteList::from_vec(room)
}

/// Returns the front of a buffer.
pub(crate) fn front(buf: &[u8], len: usize) -> &[u8]
    ensures { result.now ≡ take len buf.now }
{
    if len < buf.len() { &buf[..len] } else { buf }
}

/// Takes one room.
fn take_room(rooms: &mut Vec<Room>) -> Room
    requires { 1 ≤ vec_len rooms.old }
    ensures { vec_len rooms.old ≡ vec_len rooms.new + 1 }
{
    let last = rooms.len() - 1;
    rooms.swap_remove(last)
}

/// Returns the fault that a switch's trouble is; there is none where its link failed.
fn fault_by(
    alloc: Global,
    rooms: &mut Vec<Room>,
    dpid: Dpid,
    trouble: Trouble,
    buf: &[u8],
) -> Option<TxnFault>
    requires room { 1 ≤ vec_len rooms.old }
    requires len { length buf.now ≤ 65535 }
    ensures fault { result ≡ fault_by (halt_by dpid trouble buf.now) }
    ensures left { vec_len rooms.old ≤ vec_len rooms.new + 1 }
    ensures none { result ≡ None → vec_len rooms.new ≡ vec_len rooms.old }
{
    match trouble {
        Trouble::Link | Trouble::Parted => None,
        Trouble::Broke(len) => {
            let bytes = take_room(rooms).keep_got(front(buf, len));
            Some(TxnFault::SwitchBroke(dpid, bytes))
        }
        Trouble::Refused(key, xid, len) => {
            let inverse = inverse_of(alloc, &key, xid);
            Some(take_room(rooms).diverged(dpid, &inverse, front(buf, len)))
        }
        Trouble::Flooded => Some(TxnFault::Flooded(dpid, FLOOD)),
        Trouble::Short | Trouble::Full => Some(TxnFault::NoMemory),
    }
}

/// Lets a switch go whose link failed.
fn lose_by(ports: &mut PortTable, dpid: Dpid, trouble: Trouble)
    ensures { (buf : List ℕ) → ports.new ≡ ports_by dpid (halt_by dpid trouble buf) ports.old }
{
    match trouble {
        Trouble::Link | Trouble::Parted => ports.lose(dpid),
        Trouble::Broke(_)
        | Trouble::Refused(_, _, _)
        | Trouble::Flooded
        | Trouble::Short
        | Trouble::Full => {}
    }
}

/// Notes the trouble of a switch: one whose link failed is lost, else its fault stays where it is the first one.
pub(crate) fn note(
    alloc: Global,
    rooms: &mut Vec<Room>,
    ports: &mut PortTable,
    fault: &mut Option<TxnFault>,
    dpid: Dpid,
    trouble: Trouble,
    buf: &[u8],
)
    requires room { fault.old ≡ None → 1 ≤ vec_len rooms.old }
    requires len { length buf.now ≤ 65535 }
    ensures ports { ports.new ≡ ports_by dpid (halt_by dpid trouble buf.now) ports.old }
    ensures fault { fault.new ≡ first_fault_of fault.old (fault_by (halt_by dpid trouble buf.now)) }
    ensures room { IsRoomLeft fault.old fault.new (vec_len rooms.old) (vec_len rooms.new) }
{
    lose_by(ports, dpid, trouble);
    if fault.is_none() {
        *fault = fault_by(alloc, rooms, dpid, trouble, buf);
    }
}
