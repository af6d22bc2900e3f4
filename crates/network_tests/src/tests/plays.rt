//! Calls one after the other, in any world.

ghost use Rattle.std.specs.Prelude.{◌≡◌, ◌≤◌, OnOk};

use super::calls::{arrive, ask, keep, leave, new_net, pass, sees, take_kept, take_lost, undo};
use super::ended::Ended;
use super::ended::Ended::NotMade;
use super::messages::{ADD, PORT_DOWN, PORTS, PORTS_AT_JOIN, body_of, changed};
use super::releases::release_two;
use net_txn::Net;
use outside::{Item, World};
use std::alloc::Global;

/// What is done behind the join of switch 1. How its calls end comes in their order; behind them stands `NotMade`.
#[derive(Clone, Copy)]
pub enum Play {
    /// A change that is kept, and a request of rows.
    Keep,
    /// A change, its undo, and a request of rows.
    Undo,
    /// Two packets, the end of their transaction, and the two events that wait then.
    Release,
    /// A message that comes of itself.
    Arrive(&'static [u8]),
    /// A switch leaves behind a PORT_STATUS; then a request of rows.
    Leave,
    /// A change, its undo, and twice the event of a switch that was lost.
    Lose,
    /// A change whose entry times out, another one, and twice what is kept.
    Wait,
}

/// Makes a change that is kept, and asks for rows.
fn keep_one<W: World>(alloc: Global, world: &mut W, net: &mut Net) -> [Ended; 5]
    requires { 1 ≤ net.old.room }
{
    match keep(alloc, world, net, 1, &ADD) {
        Ok(changed) => [changed, Ended::Fine, ask(world, net, 1), NotMade, NotMade],
        Err(ended) => [NotMade, ended, ask(world, net, 1), NotMade, NotMade],
    }
}

/// Makes a change, undoes it, and asks for rows.
fn undo_one<W: World>(world: &mut W, net: &mut Net) -> [Ended; 5]
    requires { 1 ≤ net.old.room }
{
    let (changed, undone) = undo(world, net, 1, &ADD);
    [changed, undone, ask(world, net, 1), NotMade, NotMade]
}

/// Lets a switch leave of which a port went down, and asks for its rows.
fn depart<W: World>(alloc: Global, world: &mut W, net: &mut Net) -> [Ended; 5] {
    let frame = &PORT_DOWN;
    arrive(world, net, frame, frame);
    match leave(alloc, net, &PORTS) {
        Ok(left) => [left, ask(world, net, 1), NotMade, NotMade, NotMade],
        Err(_) => [Ended::NoMemory, NotMade, NotMade, NotMade, NotMade],
    }
}

/// Makes a change, undoes it, and takes the events of switches that were lost.
fn lose<W: World>(world: &mut W, net: &mut Net) -> [Ended; 5]
    requires { 1 ≤ net.old.room }
{
    let (changed, undone) = undo(world, net, 1, &ADD);
    let first = take_lost(net, &PORTS_AT_JOIN);
    [
        changed,
        undone,
        first,
        take_lost(net, &PORTS_AT_JOIN),
        NotMade,
    ]
}

/// Goes on to moment 5, at which one row is seen.
fn go_on<W: World>(alloc: Global, world: &mut W, net: &mut Net) -> Result<(), Ended>
    requires { 1 ≤ net.old.room }
    ensures { OnOk result (net.new.room ≡ net.old.room) }
{
    pass(alloc, world, Item::Idle)?;
    pass(alloc, world, Item::Moment(5))?;
    net.set_moment(5);
    if net.moment() == 5 && sees(alloc, world, net, 5, 1)? {
        Ok(())
    } else {
        Err(Ended::Otherwise)
    }
}

/// Adds an entry that times out after a second, and goes on to where it has.
fn add_short<W: World>(alloc: Global, world: &mut W, net: &mut Net) -> Result<Ended, Ended>
    requires { 1 ≤ net.old.room }
    ensures { OnOk result (net.new.room ≡ net.old.room) }
{
    let added = keep(alloc, world, net, 1, &changed(61, 1))?;
    go_on(alloc, world, net)?;
    Ok(added)
}

/// Makes a change while the notice of an entry that has timed out waits, and takes what is kept.
fn wait<W: World>(alloc: Global, world: &mut W, net: &mut Net) -> [Ended; 5]
    requires { 1 ≤ net.old.room }
{
    let first = match add_short(alloc, world, net) {
        Ok(first) => first,
        Err(ended) => return [ended, NotMade, NotMade, NotMade, NotMade],
    };
    let second = match keep(alloc, world, net, 1, &changed(63, 8)) {
        Ok(ended) | Err(ended) => ended,
    };
    [first, second, take_kept(net), take_kept(net), NotMade]
}

/// Does it in a network with switch 1.
fn play_in<W: World>(alloc: Global, world: &mut W, net: &mut Net, what: Play) -> [Ended; 5]
    requires { 1 ≤ net.old.room }
{
    match what {
        Play::Keep => keep_one(alloc, world, net),
        Play::Undo => undo_one(world, net),
        Play::Release => release_two(alloc, world, net),
        Play::Arrive(frame) => {
            let arrived = arrive(world, net, frame, body_of(frame));
            [arrived, NotMade, NotMade, NotMade, NotMade]
        }
        Play::Leave => depart(alloc, world, net),
        Play::Lose => lose(world, net),
        Play::Wait => wait(alloc, world, net),
    }
}

/// Lets switch 1 join, and does it then; the world ends with it.
pub fn played<W: World + Drop>(alloc: Global, mut world: W, what: Play) -> [Ended; 5] {
    match new_net(alloc, &mut world) {
        Ok(mut net) => {
            let ends = play_in(alloc, &mut world, &mut net, what);
            drop(net);
            ends
        }
        Err(ended) => [ended, NotMade, NotMade, NotMade, NotMade],
    }
}
