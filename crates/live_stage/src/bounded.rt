//! A live world that ends by itself.

ghost use Rattle.std.specs.Prelude.{◌≡◌, ◌<◌};

use lego_io::Sink;
use live_world::{Clock, LiveWorld};
use of_types::{Dpid, kinds};
use outside::{GiveFault, Item, LinkFault, NextFault, OpenFault, Short, StartFault, Taken, World};
use std::net::Net;
use std::process::{Processes, SystemProcess};
use std::rt::Env;

/// When a world ends.
#[derive(Clone, Copy, Debug, PartialEq, Eq)]
pub struct Bounds {
    /// After so many packets.
    pub packets: u32,
    /// Or after so many seconds.
    pub seconds: u64,
}

/// A live world that is over where nothing waits and a given number of packets came from its switches, or after a given number of seconds.
#[derive(Drop)]
pub struct Bounded<R, C, K> {
    world: LiveWorld<R, C, K>,
    clock: C,
    bounds: Bounds,
    packets: u32,
    rests: bool,
}

impl<
    R: Net + Processes<Started = SystemProcess> + Env + AllocGlobal + Drop,
    C: Clock + Drop,
    K: Sink + Drop,
> Bounded<R, C, K> {
    /// Bounds the world; the clock tells the seconds.
    pub fn new(world: LiveWorld<R, C, K>, clock: C, bounds: Bounds) -> Bounded<R, C, K> {
        Bounded {
            world,
            clock,
            bounds,
            packets: 0,
            rests: false,
        }
    }

    /// How many packets came from switches.
    pub fn packets(&self) -> u32 {
        self.packets
    }

    fn is_over(&mut self) -> bool
        ensures { self.new.world ≡ self.old.world }
    {
        self.rests
            && (self.packets >= self.bounds.packets || self.clock.seconds() >= self.bounds.seconds)
    }

    /// Counts the message, if it is a PACKET_IN.
    fn count(&mut self, message: &[u8])
        ensures { self.new.world ≡ self.old.world }
    {
        if message.get(1) == Some(&kinds::PACKET_IN) {
            self.packets = self.packets.saturating_add(1);
        }
    }
}

impl<
    R: Net + Processes<Started = SystemProcess> + Env + AllocGlobal + Drop,
    C: Clock + Drop,
    K: Sink + Drop,
> World for Bounded<R, C, K> {
    ghost Tells = { ⊥ };

    ghost Own = { Unit {0} };

    ghost CanPart = { Unit {0} };

    ghost seen = { λ s. ⟦<LiveWorld<R, C, K> as World>⟧.seen s.world };

    fn open(&mut self, port: u16) -> Result<(), OpenFault> {
        self.world.open(port)
    }

    fn next(&mut self, buf: &mut [u8]) -> Result<Item, NextFault> {
        if self.is_over() {
            return Ok(Item::End);
        }
        let came = self.world.next(buf);
        self.rests = came == Ok(Item::Idle);
        if let Ok(Item::From(_, size)) = came {
            self.count(&buf[..size]);
        }
        came
    }

    fn start(&mut self, app: u32, words: &[String]) -> Result<(), StartFault> {
        self.world.start(app, words)
    }

    fn give(&mut self, app: u32, bytes: &[u8]) -> Result<(), GiveFault> {
        self.world.give(app, bytes)
    }

    fn take(&mut self, app: u32, buf: &mut [u8]) -> Result<Taken, Short> {
        self.world.take(app, buf)
    }

    fn end(&mut self, app: u32) {
        self.world.end(app);
    }

    fn send(&mut self, dpid: Dpid, frame: &[u8]) -> Result<(), LinkFault> {
        self.world.send(dpid, frame)
    }

    fn recv(&mut self, dpid: Dpid, buf: &mut [u8]) -> Result<usize, LinkFault> {
        let received = self.world.recv(dpid, buf);
        if let Ok(size) = received {
            self.count(&buf[..size]);
        }
        received
    }

    fn can_part(&self) -> bool {
        self.world.can_part()
    }

    fn part(&mut self, dpid: Dpid) {
        self.world.part(dpid);
    }
}
