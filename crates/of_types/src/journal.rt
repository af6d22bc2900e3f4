//! What happens to switches and what passes between the engine and the outside, as plain data.

use crate::byte_list::ByteList;
use crate::{Dpid, PortNo};

/// What happens to a port.
#[derive(Clone, Copy, Debug, PartialEq, Eq)]
pub enum PortChange {
    /// The link comes.
    Up,
    /// The link goes.
    Down,
    /// The port comes.
    Add,
    /// The port goes.
    Delete,
}

/// What happens to a switch.
#[derive(Drop, Debug, Clone, PartialEq, Eq)]
pub enum Stimulus {
    /// A frame arrives at a port: its bytes from the Ethernet header on.
    Frame {
        port: PortNo,
        bytes: ByteList,
    },
    /// The moment, in seconds from the start, moves on to this one.
    Advance(u64),
    /// A port changes.
    Port {
        port: PortNo,
        change: PortChange,
    },
    /// Each flow of the priority counts so many packets and bytes more, modulo 2^64.
    Counts {
        priority: u16,
        packets: u64,
        bytes: u64,
    },
    /// The switch sends these bytes, whatever they are.
    Raw(ByteList),
}

/// What happens to the world, with the switch to which it happens.
#[derive(Drop, Debug, Clone, PartialEq, Eq)]
pub enum WorldStim {
    /// The switch joins.
    Join(Dpid),
    /// The switch leaves.
    Leave(Dpid),
    /// The moment of all joined switches is this one, in seconds from the start.
    At(u64),
    /// Something happens to the switch.
    Of(Dpid, Stimulus),
}

/// What an application gave.
#[derive(Drop, Debug, Clone, PartialEq, Eq)]
pub enum TookWhat {
    /// Bytes.
    Bytes(ByteList),
    /// It has closed its end.
    Closed,
    /// Nothing in time.
    Silent,
}

/// One act of the journal. A `u32` is the application's index, a `Dpid` the switch's number.
#[derive(Drop, Debug, Clone, PartialEq, Eq)]
pub enum Act {
    /// A stimulus begins.
    Stim(WorldStim),
    /// The application was started, and whether it stands.
    Started(u32, bool),
    /// The application was given the bytes.
    Gave(u32, ByteList),
    /// The application was gone before it was given the bytes.
    Gone(u32, ByteList),
    /// The application gave.
    Took(u32, TookWhat),
    /// The application was ended.
    Ended(u32),
    /// The bytes were sent to the switch.
    Sent(Dpid, ByteList),
    /// The bytes came from the switch.
    Got(Dpid, ByteList),
    /// The link of the switch failed, and the switch is lost.
    Lost(Dpid),
}
