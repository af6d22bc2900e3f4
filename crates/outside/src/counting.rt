//! A world that counts its calls.

ghost use Rattle.std.specs.Prelude.{◌≡◌, ◌<◌};
ghost use Rattle.lego_io.specs.Count.{raised};

use crate::faults::{GiveFault, LinkFault, NextFault, OpenFault, Short, StartFault};
use crate::item::{Item, Taken};
use crate::world::World;
use of_types::Dpid;

/// A world that passes each call on to another one, and counts them.
#[derive(Drop, Debug)]
pub struct Counting<W> {
    world: W,
    calls: u64,
}

impl<W: World + Drop> Counting<W> {
    /// Returns this world, with no call counted.
    pub fn new(world: W) -> Counting<W>
        ensures world { result.world ≡ world }
        ensures calls { result.calls ≡ 0 }
    {
        Counting { world, calls: 0 }
    }

    /// Tells how many calls were passed on; the number stays at its type's last value.
    pub fn calls(&self) -> u64
        ensures { result ≡ self.now.calls }
    {
        self.calls
    }

    /// Counts one call more.
    fn count(&mut self)
        ensures world { self.new.world ≡ self.old.world }
        ensures calls { self.new.calls ≡ raised self.old.calls }
    {
        self.calls = self.calls.saturating_add(1);
    }
}

impl<W: World + Drop> World for Counting<W> {
    ghost Tells = { W.Tells };

    ghost Own = { W.Own };

    ghost CanPart = { W.CanPart };

    ghost seen = { λ s. W.seen s.world };

    fn open(&mut self, port: u16) -> Result<(), OpenFault> {
        self.count();
        self.world.open(port)
    }

    fn next(&mut self, buf: &mut [u8]) -> Result<Item, NextFault> {
        self.count();
        self.world.next(buf)
    }

    fn start(&mut self, app: u32, words: &[String]) -> Result<(), StartFault> {
        self.count();
        self.world.start(app, words)
    }

    fn give(&mut self, app: u32, bytes: &[u8]) -> Result<(), GiveFault> {
        self.count();
        self.world.give(app, bytes)
    }

    fn take(&mut self, app: u32, buf: &mut [u8]) -> Result<Taken, Short> {
        self.count();
        self.world.take(app, buf)
    }

    fn end(&mut self, app: u32) {
        self.count();
        self.world.end(app);
    }

    fn send(&mut self, dpid: Dpid, frame: &[u8]) -> Result<(), LinkFault> {
        self.count();
        self.world.send(dpid, frame)
    }

    fn recv(&mut self, dpid: Dpid, buf: &mut [u8]) -> Result<usize, LinkFault> {
        self.count();
        self.world.recv(dpid, buf)
    }

    fn can_part(&self) -> bool {
        self.world.can_part()
    }

    fn part(&mut self, dpid: Dpid) {
        self.count();
        self.world.part(dpid);
    }
}
