//! What a live world notes of itself, beside its acts.

use of_types::{Dpid, get_u8, kinds};
use std::fmt;
use std::fmt::{Display, Formatter};
use std::net::SocketAddr;

/// Why a connection is over, or was refused.
#[derive(Clone, Copy, Debug, PartialEq, Eq)]
pub enum Closing {
    /// The other side closed it, or it failed.
    Left,
    /// It speaks this version of OpenFlow.
    OtherVersion(u8),
    /// What it says is no OpenFlow.
    Garbage,
    /// It did not say in time who it is, or whether it is there.
    Late,
    /// A switch with this number is there.
    Taken(Dpid),
    /// As many switches as are served are there.
    TooMany(Dpid),
}

impl Closing {
    /// Why a message is refused that cannot be read.
    pub(crate) fn of_refused(frame: &[u8]) -> Closing {
        if frame.is_empty() || get_u8(frame, 0) == kinds::VERSION {
            Closing::Garbage
        } else {
            Closing::OtherVersion(get_u8(frame, 0))
        }
    }
}

impl Display for Closing {
    fn fmt<W: fmt::Write>(&self, f: &mut Formatter<W>) -> fmt::Result {
        match self {
            Closing::Left => f.write_str("it was closed by the other side"),
            Closing::OtherVersion(version) => write!(f, "OpenFlow version {version}"),
            Closing::Garbage => f.write_str("garbage"),
            Closing::Late => f.write_str("late"),
            Closing::Taken(dpid) => write!(f, "number {dpid} is taken"),
            Closing::TooMany(dpid) => write!(f, "switch {dpid} is one too many"),
        }
    }
}

/// What is noted.
#[derive(Clone, Copy, Debug, PartialEq, Eq)]
pub enum Note {
    /// It listens at this address.
    Listening(SocketAddr),
    /// A connection from there was closed before its switch joined.
    Closed(SocketAddr, Closing),
}

impl Display for Note {
    fn fmt<W: fmt::Write>(&self, f: &mut Formatter<W>) -> fmt::Result {
        match self {
            Note::Listening(address) => write!(f, "listening at {address}"),
            Note::Closed(peer, why) => write!(f, "connection from {peer} closed: {why}"),
        }
    }
}
