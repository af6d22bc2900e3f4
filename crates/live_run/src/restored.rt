//! A trial of the live world by itself: an application that is a child program, restored at a checkpoint, answers an event byte for
//! byte.

use crate::talk::{APP, Awaited, give, take_until};
use crate::talk_trouble::TalkTrouble;
use app_frames::{Event, EventKind, HostFrame};
use hex::ToHex;
use lego_io::MemSink;
use live_stage::{SteadyClock, own_words};
use live_world::{Clock, LiveWorld};
use of_types::{ByteList, flows};
use of_wire::{Message, PacketIn, encode};
use outside::World;
use std::alloc::{AllocError, Global};
use std::net::Net;
use std::process::{Processes, SystemProcess};
use std::rt::{Clock as TimeSource, Env};

/// How many bytes of what the world notes are taken.
const ROOM: usize = 4_096;

/// One row: at switch 1, 02:00:00:00:00:01 is reached by port 1.
const CHECKPOINT: [u8; 16] = [0, 0, 0, 0, 0, 0, 0, 1, 2, 0, 0, 0, 0, 1, 0, 1];

/// A frame from 02:00:00:00:00:02 to 02:00:00:00:00:01.
const FRAME: [u8; 14] = [2, 0, 0, 0, 0, 1, 2, 0, 0, 0, 0, 2, 0x88, 0xb5];

/// Restore with the checkpoint.
fn restore(alloc: Global) -> Result<HostFrame, AllocError> {
    Ok(HostFrame::Restore(ByteList::from_slice(alloc, &CHECKPOINT)?))
}

/// The frame came to switch 1 by port 2.
#[tactic(auto, unfolding(of_wire::specs::Spelling::message_size))]
fn arrival(alloc: Global) -> Result<HostFrame, AllocError> {
    let packet = Message::PacketIn(PacketIn {
        buffer_id: flows::NO_BUFFER,
        total_len: FRAME.len() as u16,
        in_port: 2,
        reason: flows::NO_MATCH,
        payload: ByteList::from_slice(alloc, &FRAME)?,
    });
    Ok(HostFrame::Event {
        number: 1,
        moment: 0,
        event: Event {
            kind: EventKind::PacketIn,
            dpid: 1,
            body: encode(alloc, 0, &packet)?,
        },
    })
}

/// Starts the child `learn`, restores it, gives it the event, and answers what it gave.
fn learn<W: World, C: Clock>(
    alloc: Global,
    world: &mut W,
    clock: &mut C,
) -> Result<Vec<u8>, TalkTrouble> {
    world
        .start(APP, &own_words(alloc, "learn")?)
        .map_err(|_| TalkTrouble::NotStarted)?;
    give(alloc, world, &restore(alloc)?)?;
    take_until(alloc, world, clock, Awaited::Ready)?;
    give(alloc, world, &arrival(alloc)?)?;
    take_until(alloc, world, clock, Awaited::Done)
}

/// Does so in a world of its own, in which the child is ended. The world ends here, and nowhere else: each place at which it could
/// end is proved by itself.
fn learnt_in<W: World + Drop, C: Clock + Drop>(
    alloc: Global,
    mut world: W,
    mut clock: C,
) -> Result<Vec<u8>, TalkTrouble> {
    let taken = learn(alloc, &mut world, &mut clock);
    world.end(APP);
    taken
}

/// Starts the child `learn`, restores it, gives it the event, ends it, and answers in hex what it gave.
pub(crate) fn show_restored<
    R: Net + Processes<Started = SystemProcess> + Env + TimeSource + AllocGlobal + Clone + Drop,
>(rt: &R) -> Result<String, TalkTrouble> {
    let alloc = rt.alloc();
    let clock = SteadyClock::new(rt.clone()?).map_err(|_| TalkTrouble::NoClock)?;
    let other = SteadyClock::new(rt.clone()?).map_err(|_| TalkTrouble::NoClock)?;
    let errors = MemSink::new(alloc, ROOM, &[])?;
    let world = LiveWorld::new(rt.clone()?, alloc, other, errors)?;
    let taken = learnt_in(alloc, world, clock)?;
    Ok(hex::encode(alloc, &taken)?)
}
