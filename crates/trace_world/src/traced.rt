//! A world whose acts are told in words.

ghost use Rattle.std.specs.Prelude.{◌≡◌, ◌<◌};
ghost use Rattle.std.specs.Borrow.{Lends, sem};

use crate::aside::Aside;
use crate::scribe::Scribe;
use lego_io::Sink;
use of_types::{Dpid, WorldStim};
use outside::{
    Decl, GiveFault, Item, LinkFault, NextFault, OpenFault, Short, StartFault, Taken, Told, World,
};
use std::alloc::{AllocError, Global};
use std::marker::Model;

/// A world that passes each call on to another one, and then writes what happened to a sink, as lines in plain words, or is
/// silent. Contracts see it as the world within.
///
/// A line that memory is short for, or that the sink does not take, is left out; the answer of the call stays.
#[derive(Drop)]
pub struct Traced<W, K> {
    world: W,
    scribe: Scribe<K>,
    is_silent: bool,
}

impl<W, K> Model for Traced<W, K> {
    ghost Value = { W };

    ghost view = { λ s. s.world };
}

impl<W: World + Drop, K: Sink + Drop> Traced<W, K> {
    ghost use Rattle.trace_world.specs.contracts.traced.Traced.{the_row};

    /// Returns this world, whose acts are told from now on. Where memory is short, it has no place for what is told between them.
    pub fn new(alloc: Global, world: W, sink: K) -> Traced<W, K>
        ensures { result ≡ world }
    {
        Traced {
            world,
            scribe: Scribe::new(alloc, sink, Aside::new(alloc)),
            is_silent: false,
        }
    }

    /// Returns this world, and never writes to the sink. Takes no memory.
    pub fn silent(alloc: Global, world: W, sink: K) -> Traced<W, K>
        ensures { result ≡ world }
    {
        Traced {
            world,
            scribe: Scribe::new(alloc, sink, None),
            is_silent: true,
        }
    }

    /// Lends the world within.
    pub fn world(&self) -> &W
        ensures { result.now ≡ self.now }
    {
        &self.world
    }

    /// Lends the world within. What is done on it is not told.
    pub fn world_mut(&mut self) -> &mut W
        ensures value { result.now ≡ self.old }
        ensures* writes_back { sem 𝓛 (Lends (the_row W.row K.row) W.row self.entry result (λ w. w)) }
    {
        &mut self.world
    }

    /// Hands out the place where another part of the program leaves what is told before the next act; none where this world is silent.
    pub fn aside(&self) -> Option<Aside> {
        self.scribe.aside()
    }

    /// Gives back the world and the sink. Takes no memory.
    pub fn into_parts(self) -> (W, K)
        ensures { result.0 ≡ self }
    {
        (self.world, self.scribe.into_sink())
    }
}

impl<W: World + Drop, K: Sink + Drop> World for Traced<W, K> {
    ghost Tells = { W.Tells };

    ghost Own = { W.Own };

    ghost CanPart = { W.CanPart };

    ghost seen = { W.seen };

    fn open(&mut self, port: u16) -> Result<(), OpenFault> {
        let answer = self.world.open(port);
        if !self.is_silent {
            self.scribe.opened(port, answer);
        }
        answer
    }

    fn next(&mut self, buf: &mut [u8]) -> Result<Item, NextFault> {
        let answer = self.world.next(buf);
        if !self.is_silent {
            self.scribe.came(answer, buf);
        }
        answer
    }

    fn start(&mut self, app: u32, words: &[String]) -> Result<(), StartFault> {
        let answer = self.world.start(app, words);
        if !self.is_silent {
            self.scribe.started(app, answer);
        }
        answer
    }

    fn give(&mut self, app: u32, bytes: &[u8]) -> Result<(), GiveFault> {
        let answer = self.world.give(app, bytes);
        if !self.is_silent {
            self.scribe.gave(app, bytes, answer);
        }
        answer
    }

    fn take(&mut self, app: u32, buf: &mut [u8]) -> Result<Taken, Short> {
        let answer = self.world.take(app, buf);
        if !self.is_silent {
            self.scribe.took(app, answer, buf);
        }
        answer
    }

    fn end(&mut self, app: u32) {
        self.world.end(app);
        if !self.is_silent {
            self.scribe.ended(app);
        }
    }

    fn send(&mut self, dpid: Dpid, frame: &[u8]) -> Result<(), LinkFault> {
        let answer = self.world.send(dpid, frame);
        if !self.is_silent {
            self.scribe.sent(dpid, frame, answer);
        }
        answer
    }

    fn recv(&mut self, dpid: Dpid, buf: &mut [u8]) -> Result<usize, LinkFault> {
        let answer = self.world.recv(dpid, buf);
        if !self.is_silent {
            self.scribe.received(dpid, answer, buf);
        }
        answer
    }

    fn can_part(&self) -> bool {
        self.world.can_part()
    }

    fn part(&mut self, dpid: Dpid) {
        self.world.part(dpid);
        if !self.is_silent {
            self.scribe.parted(dpid);
        }
    }
}

impl<W: Told + Drop, K: Sink + Drop> Told for Traced<W, K> {
    fn stimulus(&self, alloc: Global, number: usize) -> Result<Option<WorldStim>, AllocError> {
        self.world.stimulus(alloc, number)
    }

    fn declared(&self, alloc: Global) -> Result<Vec<Decl>, AllocError> {
        self.world.declared(alloc)
    }
}
