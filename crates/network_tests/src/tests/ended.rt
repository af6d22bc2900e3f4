//! How calls end, in a small form.

use app_frames::{Answer, Event, EventKind};
use net_txn::TxnFault;
use of_stats::RowList;
use of_types::{ByteList, Dpid};
use std::alloc::AllocError;

/// How a call ended.
#[derive(Clone, Copy, PartialEq, Eq)]
pub enum Ended {
    /// It was not made, since an earlier one failed.
    NotMade,
    /// It did what it is to do.
    Fine,
    /// The switch has no row.
    NoRow,
    /// The switch has this row alone.
    Row { priority: u16, cookie: u64 },
    /// No event came of a message.
    NoEvent,
    /// An event of this kind came, with the body that was expected.
    Event(EventKind),
    /// A FLOW_REMOVED of this reason was kept.
    Removed(u8),
    /// No message is kept.
    NoneKept,
    /// An error of this kind and code answered.
    Error(u16, u16),
    /// The switch is not known.
    Unknown,
    /// The link of the switch failed, and the switch is lost.
    Lost,
    /// The switch sent bytes that are no message.
    SwitchBroke(u64),
    /// Memory was wanting.
    NoMemory,
    /// So many packets were released, of so many bytes together.
    Released { packets: usize, bytes: u32 },
    /// Anything else.
    Otherwise,
}

impl From<AllocError> for Ended {
    fn from(_error: AllocError) -> Ended {
        Ended::NoMemory
    }
}

pub fn by_fault(fault: &TxnFault) -> Ended {
    match fault {
        TxnFault::SwitchBroke(dpid, _) => Ended::SwitchBroke(*dpid),
        TxnFault::Diverged(..) | TxnFault::Flooded(..) => Ended::Otherwise,
        TxnFault::NoMemory => Ended::NoMemory,
    }
}

pub fn by_answer(answer: &Answer) -> Ended {
    match answer {
        Answer::Fine => Ended::Fine,
        Answer::Error(error) => Ended::Error(error.kind, error.code),
        Answer::Statistics(..) => Ended::Otherwise,
        Answer::Unknown => Ended::Unknown,
    }
}

pub fn by_rows(rows: &RowList) -> Ended {
    match rows.as_slice() {
        [] => Ended::NoRow,
        [row] => Ended::Row {
            priority: row.key.priority,
            cookie: row.cookie,
        },
        _ => Ended::Otherwise,
    }
}

/// At most two packets of switch 1.
pub fn by_release(released: &[(Dpid, u32)]) -> Ended {
    match released {
        [] => Ended::Released {
            packets: 0,
            bytes: 0,
        },
        [(dpid, len)] if *dpid == 1 => Ended::Released {
            packets: 1,
            bytes: *len,
        },
        [(one, first), (other, second)] if *one == 1 && *other == 1 => Ended::Released {
            packets: 2,
            bytes: first.saturating_add(*second),
        },
        _ => Ended::Otherwise,
    }
}

/// An event of switch 1 with this body.
pub fn by_event(event: &Event, body: &[u8]) -> Ended {
    if event.dpid == 1 && event.body.as_slice() == body {
        Ended::Event(event.kind)
    } else {
        Ended::Otherwise
    }
}

/// A FLOW_REMOVED of switch 1; its type stands at 1 and its reason at 58 (OpenFlow 1.0.0, 5.4.2).
pub fn by_kept(kept: &Option<(Dpid, ByteList)>) -> Ended {
    let Some((dpid, bytes)) = kept else {
        return Ended::NoneKept;
    };
    let bytes = bytes.as_slice();
    if *dpid == 1 && bytes.len() == 88 && bytes[1] == 11 {
        Ended::Removed(bytes[58])
    } else {
        Ended::Otherwise
    }
}
