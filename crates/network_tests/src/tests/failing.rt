//! Ten calls of any world. Each has a function of its own that says nothing, so that no proof goes through all of them.

use super::calls::buffer;
use of_types::Dpid;
use of_wire::check;
use outside::{Item, Taken, World};
use std::alloc::{AllocError, Global};

/// A frame that tells event 1, at moment 0, that nothing more is said of.
static EVENT: [u8; 22] = [
    0, 0, 0, 18, 2, 0, 0, 0, 0, 0, 0, 0, 1, 0, 0, 0, 0, 0, 0, 0, 0, 2,
];

/// BARRIER_REQUEST (OpenFlow 1.0.0, 5.3.7 Barrier Message).
static BARRIER: [u8; 8] = [1, 18, 0, 8, 0, 0, 0, 7];

/// What comes next, if the call does not fail.
fn next<W: World>(alloc: Global, world: &mut W) -> Result<Option<Item>, AllocError> {
    let mut buf = buffer(alloc)?;
    Ok(world.next(&mut buf).ok())
}

/// What was taken of the application, if the call does not fail.
fn take<W: World>(alloc: Global, world: &mut W) -> Result<Option<Taken>, AllocError> {
    let mut buf = buffer(alloc)?;
    Ok(world.take(0, &mut buf).ok())
}

/// Whether a barrier was sent to a switch.
fn sends<W: World>(world: &mut W, dpid: Dpid) -> bool {
    check(&BARRIER).is_ok() && world.send(dpid, &BARRIER).is_ok()
}

/// How long the message is that came of a switch, if the call does not fail.
fn receive<W: World>(
    alloc: Global,
    world: &mut W,
    dpid: Dpid,
) -> Result<Option<usize>, AllocError> {
    let mut buf = buffer(alloc)?;
    Ok(world.recv(dpid, &mut buf).ok())
}

/// Whether the application was started, said Ready, was given an event, and is done.
fn runs<W: World>(alloc: Global, world: &mut W) -> Result<[bool; 4], AllocError> {
    let started = world.start(0, &[]).is_ok();
    let ready = take(alloc, world)? == Some(Taken::Some(5));
    let given = world.give(0, &EVENT).is_ok();
    let done = take(alloc, world)? == Some(Taken::Some(7));
    Ok([started, ready, given, done])
}

/// Which of ten calls answered what they do where no call fails.
fn answers<W: World>(alloc: Global, world: &mut W) -> Result<[bool; 10], AllocError> {
    let opened = world.open(6653).is_ok();
    let joined = matches!(next(alloc, world)?, Some(Item::Joined(1, _)));
    let [started, ready, given, done] = runs(alloc, world)?;
    let sent = sends(world, 1);
    let replied = receive(alloc, world, 1)? == Some(8);
    let idle = next(alloc, world)? == Some(Item::Idle);
    let over = next(alloc, world)? == Some(Item::Moment(5));
    Ok([
        opened, joined, started, ready, given, done, sent, replied, idle, over,
    ])
}

/// The same in a world that ends with them.
pub fn answers_in<W: World + Drop>(alloc: Global, mut world: W) -> Result<[bool; 10], AllocError> {
    answers(alloc, &mut world)
}
