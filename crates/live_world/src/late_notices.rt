//! Notices that an entry was deleted, told behind the deletion: the entry may stand again.

use crate::clock::Clock;
use crate::event_loop::EventLoop;
use crate::hearing::OWN_XID;
use of_match::Key;
use of_stats::{FlowRow, read_flow_rows};
use of_types::{
    ByteList, Dpid, flows, get_u8, get_u16, get_u32, kinds, ports, put_array, put_u8, put_u16,
    stats,
};
use of_wire::{Message, Stats, decode, encode};
use outside::LinkFault;
use std::alloc::{AllocError, Global};

/// How many bytes a message has at most.
const MOST_MESSAGE: usize = 65_535;

/// How many parts an answer has at most.
const MOST_PARTS: u32 = 65_536;

/// The number that means all tables.
const ALL_TABLES: u8 = 0xff;

/// What a message is to a question for the rows of a key.
#[derive(Clone, Copy, Debug, PartialEq, Eq)]
enum Part {
    /// A part of the answer, which has the key.
    Found,
    /// A part without it, behind which more come.
    More,
    /// The last part, without it.
    Last,
    /// No answer that can be read.
    Fault,
}

/// The key of the entry that a message says was deleted, if it says so.
fn key_deleted(alloc: Global, frame: &[u8]) -> Option<Key> {
    if frame.len() < 2 || get_u8(frame, 1) != kinds::FLOW_REMOVED {
        return None;
    }
    match decode(alloc, frame) {
        Ok(envelope) => match envelope.message {
            Message::FlowRemoved(flow) if flow.reason == flows::DELETED => Some(Key {
                priority: flow.priority,
                matching: flow.matching,
            }),
            _ => None,
        },
        Err(_) => None,
    }
}

/// The question for the rows of a match (OpenFlow 1.0.0, 5.3.5 Read State Messages).
#[tactic(auto, unfolding(of_wire::specs::Spelling::message_size))]
fn question(alloc: Global, key: &Key) -> Result<ByteList, AllocError> {
    let mut body = [0; 44];
    put_array(&mut body, 0, &key.matching.encode());
    put_u8(&mut body, 40, ALL_TABLES);
    put_u16(&mut body, 42, ports::NONE);
    let request = Stats {
        kind: stats::FLOW,
        flags: 0,
        body: ByteList::from_slice(alloc, &body)?,
    };
    encode(alloc, OWN_XID, &Message::StatsRequest(request))
}

/// Whether one of these rows has the key.
fn has_key(rows: &[FlowRow], key: &Key) -> bool {
    rows.iter().any(|row| row.key == *key)
}

/// What a message is to the question for the rows of this key.
fn part_of(alloc: Global, frame: &[u8], key: &Key) -> Part {
    if frame.len() < 12
        || get_u8(frame, 1) != kinds::STATS_REPLY
        || get_u32(frame, 4) != OWN_XID
        || get_u16(frame, 8) != stats::FLOW
    {
        return Part::Fault;
    }
    match read_flow_rows(alloc, &frame[12..]) {
        Ok(rows) if has_key(rows.as_slice(), key) => Part::Found,
        Ok(_) if get_u16(frame, 10) & 1 == 1 => Part::More,
        Ok(_) => Part::Last,
        Err(_) => Part::Fault,
    }
}

impl EventLoop {
    /// Tells whether a message of the switch is a notice that an entry was deleted whose key stands in the switch: it was deleted before, and
    /// added again. The switch is asked for the rows of that key. `Failed` where it does not answer that: its connection is closed then.
    pub(crate) fn is_late_notice<C: Clock>(
        &mut self,
        clock: &mut C,
        dpid: Dpid,
        frame: &[u8],
    ) -> Result<bool, LinkFault> {
        let alloc = self.alloc;
        let Some(key) = key_deleted(alloc, frame) else {
            return Ok(false);
        };
        let request = question(alloc, &key).map_err(|_| LinkFault::Short)?;
        let mut answer = vec![in alloc; 0u8; MOST_MESSAGE].map_err(|_| LinkFault::Short)?;
        self.send(clock, dpid, request.as_slice())?;
        let mut stands = false;
        for _ in 0..MOST_PARTS {
            let size = self.recv(clock, dpid, &mut answer)?;
            match part_of(alloc, &answer[..size], &key) {
                Part::Found => stands = true,
                Part::More => {}
                Part::Last => return Ok(stands),
                Part::Fault => break,
            }
            if get_u16(&answer, 10) & 1 == 0 {
                return Ok(stands);
            }
        }
        self.part(dpid);
        Err(LinkFault::Failed)
    }
}
