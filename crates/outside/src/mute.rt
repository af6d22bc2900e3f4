//! A world in which nothing happens.

ghost use Rattle.std.specs.Prelude.{◌≡◌};
ghost use Rattle.lego_io.specs.Count.{Rose, NeverFell};
ghost use Rattle.outside.specs.Calls.{Opens, Nexts, Starts, Gives, Takes, Sends, Receives};
ghost use Rattle.outside.specs.Mute.{mute_seen};

use crate::faults::{GiveFault, LinkFault, NextFault, OpenFault, Short, StartFault};
use crate::item::{Item, Taken};
use crate::world::World;
use of_types::Dpid;

/// A world in which nothing happens: it tells nothing, each call that can fail does, and an application gives
/// nothing.
#[derive(Drop, Debug)]
pub struct Mute {
    faults: u64,
}

impl Mute {
    /// Returns a world in which nothing happened yet.
    pub fn new() -> Mute
        ensures { result.faults ≡ 0 }
    {
        Mute { faults: 0 }
    }

    /// Counts one fault more.
    fn raise(&mut self)
        ensures rose { Rose self.old.faults self.new.faults }
        ensures never_fell { NeverFell self.old.faults self.new.faults }
    {
        self.faults = self.faults.saturating_add(1);
    }
}

impl World for Mute {
    ghost Tells = { ⊥ };

    ghost Own = { Unit {0} };

    ghost CanPart = { ⊥ };

    ghost seen = { λ s. mute_seen s.faults };

    fn open(&mut self, _port: u16) -> Result<(), OpenFault>
        ensures seen { Opens ⊥ (mute_seen self.old.faults) (mute_seen self.new.faults) result }
        ensures fails { result ≡ Err OpenFault.Shut }
    {
        self.raise();
        Err(OpenFault::Shut)
    }

    fn next(&mut self, _buf: &mut [u8]) -> Result<Item, NextFault>
        ensures seen { Nexts ⊥ (mute_seen self.old.faults) (mute_seen self.new.faults) result _buf.new }
        ensures fails { result ≡ Err NextFault.Failed }
    {
        self.raise();
        Err(NextFault::Failed)
    }

    fn start(&mut self, _app: u32, _words: &[String]) -> Result<(), StartFault>
        ensures seen { Starts ⊥ _app (mute_seen self.old.faults) (mute_seen self.new.faults) result }
        ensures fails { result ≡ Err StartFault.NotStarted }
    {
        self.raise();
        Err(StartFault::NotStarted)
    }

    fn give(&mut self, _app: u32, _bytes: &[u8]) -> Result<(), GiveFault>
        ensures seen { Gives ⊥ _app _bytes.now (mute_seen self.old.faults) (mute_seen self.new.faults) result }
        ensures fails { result ≡ Err GiveFault.Gone }
    {
        self.raise();
        Err(GiveFault::Gone)
    }

    fn take(&mut self, _app: u32, _buf: &mut [u8]) -> Result<Taken, Short>
        ensures seen { Takes ⊥ _app (mute_seen self.old.faults) (mute_seen self.new.faults) result _buf.new }
        ensures fails { result ≡ Ok Taken.Silent }
    {
        self.raise();
        Ok(Taken::Silent)
    }

    fn end(&mut self, _app: u32) {}

    fn send(&mut self, _dpid: Dpid, _frame: &[u8]) -> Result<(), LinkFault>
        ensures seen { Sends ⊥ _dpid _frame.now (mute_seen self.old.faults) (mute_seen self.new.faults) result }
        ensures fails { result ≡ Err LinkFault.Failed }
    {
        self.raise();
        Err(LinkFault::Failed)
    }

    fn recv(&mut self, _dpid: Dpid, _buf: &mut [u8]) -> Result<usize, LinkFault>
        ensures seen { Receives ⊥ _dpid (mute_seen self.old.faults) (mute_seen self.new.faults) result _buf.new }
        ensures fails { result ≡ Err LinkFault.Failed }
    {
        self.raise();
        Err(LinkFault::Failed)
    }

    fn can_part(&self) -> bool {
        false
    }

    fn part(&mut self, _dpid: Dpid) {}
}
