//! A world with the switches of one world and the applications of another.

ghost use Rattle.std.specs.Prelude.{◌≡◌, ◌<◌, ◌≤◌, length, IfOk};
ghost use Rattle.outside.specs.Calls.{IsTakenIn};
ghost use Rattle.linked_world.specs.Linked.{seen_of, IsTakeable};

use linked_world::Linked;
use of_types::{ByteList, Dpid, TookWhat};
use outside::{GiveFault, Item, LinkFault, NextFault, OpenFault, Short, StartFault, Taken, World};
use std::alloc::{AllocError, Global};

/// A world whose switches are those of one world, and whose applications are those of another, of which nothing else is used.
///
/// An application that takes no more bytes is not found gone by `give`: that would come now here, now there. It is found closed, or
/// silent, by `take`, behind all that it gave. So what is told of an application depends on its bytes alone.
#[derive(Drop)]
pub(crate) struct Rehearsal<L: World, A> {
    alloc: Global,
    linked: Linked<L>,
    children: A,
}

impl<L: World, A> Rehearsal<L, A> {
    /// Takes the switches of the first world and the applications of the second; none was started.
    pub(crate) fn new(alloc: Global, links: L, children: A) -> Rehearsal<L, A> {
        Rehearsal {
            alloc,
            linked: Linked::new(alloc, links),
            children,
        }
    }
}

/// What was taken, with the bytes that stand in the front of the buffer.
fn what_of(alloc: Global, taken: Taken, buf: &[u8]) -> Result<TookWhat, AllocError>
    requires { IsTakenIn taken buf.now }
    ensures { IfOk result (λ what. IsTakeable what (length buf.now)) }
{
    match taken {
        Taken::Some(count) => Ok(TookWhat::Bytes(ByteList::from_slice(alloc, &buf[..count])?)),
        Taken::Closed => Ok(TookWhat::Closed),
        Taken::Silent => Ok(TookWhat::Silent),
    }
}

/// Takes what an application gives into the front of the buffer.
fn take_from<A: World>(
    alloc: Global,
    children: &mut A,
    app: u32,
    buf: &mut [u8],
) -> Result<TookWhat, AllocError>
    requires { 0 < length buf.old }
    ensures what { IfOk result (λ what. IsTakeable what (length buf.new)) }
    ensures len { length buf.new ≡ length buf.old }
{
    match children.take(app, buf) {
        Ok(taken) => what_of(alloc, taken, buf),
        Err(Short) => Err(AllocError),
    }
}

impl<L: World + Drop, A: World + Drop> World for Rehearsal<L, A> {
    ghost Tells = { L.Tells };

    ghost Own = { L.Own };

    // Its switches cannot be parted with, also where those of the other world can.
    ghost CanPart = { ⊥ };

    ghost seen = { λ r. seen_of L.seen r.linked };

    fn open(&mut self, port: u16) -> Result<(), OpenFault> {
        self.linked.open(port)
    }

    fn next(&mut self, buf: &mut [u8]) -> Result<Item, NextFault> {
        self.linked.next(buf)
    }

    fn start(&mut self, app: u32, words: &[String]) -> Result<(), StartFault> {
        let is_started = self.children.start(app, words).is_ok();
        let answer = self.linked.start(app, is_started);
        if is_started && answer.is_err() {
            self.children.end(app);
        }
        answer
    }

    fn give(&mut self, app: u32, bytes: &[u8]) -> Result<(), GiveFault> {
        self.linked.give(app, bytes, true)?;
        let _ = self.children.give(app, bytes);
        Ok(())
    }

    fn take(&mut self, app: u32, buf: &mut [u8]) -> Result<Taken, Short> {
        match take_from(self.alloc, &mut self.children, app, buf) {
            Ok(what) => Ok(self.linked.take(app, what, buf)),
            Err(_) => Err(self.linked.take_short(app)),
        }
    }

    fn end(&mut self, app: u32) {
        self.linked.end(app);
        self.children.end(app);
    }

    fn send(&mut self, dpid: Dpid, frame: &[u8]) -> Result<(), LinkFault> {
        self.linked.send(dpid, frame)
    }

    fn recv(&mut self, dpid: Dpid, buf: &mut [u8]) -> Result<usize, LinkFault> {
        self.linked.recv(dpid, buf)
    }

    fn can_part(&self) -> bool {
        false
    }

    fn part(&mut self, _dpid: Dpid) {}
}
