//! A world that is lent.

ghost use Rattle.std.specs.Prelude.{◌<◌};

use crate::faults::{GiveFault, LinkFault, NextFault, OpenFault, Short, StartFault};
use crate::item::{Item, Taken};
use crate::told::{Decl, Told};
use crate::world::World;
use of_types::{Dpid, WorldStim};
use std::alloc::{AllocError, Global};

impl<W: World> World for &mut W {
    ghost Tells = { W.Tells };

    ghost Own = { W.Own };

    ghost CanPart = { W.CanPart };

    ghost seen = { λ world. W.seen world.now };

    fn open(&mut self, port: u16) -> Result<(), OpenFault> {
        (**self).open(port)
    }

    fn next(&mut self, buf: &mut [u8]) -> Result<Item, NextFault> {
        (**self).next(buf)
    }

    fn start(&mut self, app: u32, words: &[String]) -> Result<(), StartFault> {
        (**self).start(app, words)
    }

    fn give(&mut self, app: u32, bytes: &[u8]) -> Result<(), GiveFault> {
        (**self).give(app, bytes)
    }

    fn take(&mut self, app: u32, buf: &mut [u8]) -> Result<Taken, Short> {
        (**self).take(app, buf)
    }

    fn end(&mut self, app: u32) {
        (**self).end(app);
    }

    fn send(&mut self, dpid: Dpid, frame: &[u8]) -> Result<(), LinkFault> {
        (**self).send(dpid, frame)
    }

    fn recv(&mut self, dpid: Dpid, buf: &mut [u8]) -> Result<usize, LinkFault> {
        (**self).recv(dpid, buf)
    }

    fn can_part(&self) -> bool {
        (**self).can_part()
    }

    fn part(&mut self, dpid: Dpid) {
        (**self).part(dpid);
    }
}

impl<W: Told> Told for &mut W {
    fn stimulus(&self, alloc: Global, number: usize) -> Result<Option<WorldStim>, AllocError> {
        (**self).stimulus(alloc, number)
    }

    fn declared(&self, alloc: Global) -> Result<Vec<Decl>, AllocError> {
        (**self).declared(alloc)
    }
}
