//! How often each fault came.

ghost use Rattle.std.specs.Prelude.{◌≡◌, ℕ};
ghost use Rattle.lego_io.specs.Count.{Rose, NeverFell};
ghost use Rattle.live_world.specs.Faults.{link_faults_of, shorts_of};

use of_types::Dpid;
use std::alloc::Global;
use std::collections::BTreeMap;

/// The most switches whose faults are counted for each by itself.
const MOST_ROWS: usize = 4_096;

/// One more, but for a count that stands at its type's last value.
fn bump(count: u64) -> u64
    ensures rose { Rose count result }
    ensures never_fell { NeverFell count result }
{
    count.saturating_add(1)
}

/// How often each fault came of one switch.
#[derive(Clone, Copy, Debug)]
pub struct SwitchFaults {
    pub(crate) links: u64,
    pub(crate) shorts: u64,
}

/// How often each fault came. Each count stays at its type's last value.
///
/// Those of switches are counted for each switch that joined, up to 4,096 of them; all other switches share one count.
#[derive(Drop)]
pub struct FaultCounts {
    pub(crate) shuts: u64,
    pub(crate) next_faults: u64,
    pub(crate) starts_failed: u64,
    pub(crate) closings: u64,
    pub(crate) silences: u64,
    pub(crate) shorts: u64,
    pub(crate) known: BTreeMap<Dpid, SwitchFaults>,
    pub(crate) unknown: SwitchFaults,
}

impl FaultCounts {
    /// Returns counts of 0, and knows no switch.
    pub(crate) fn new(alloc: Global) -> FaultCounts {
        FaultCounts {
            shuts: 0,
            next_faults: 0,
            starts_failed: 0,
            closings: 0,
            silences: 0,
            shorts: 0,
            known: BTreeMap::new(alloc),
            unknown: SwitchFaults {
                links: 0,
                shorts: 0,
            },
        }
    }

    /// Counts one `open` more that answered `Shut`.
    pub(crate) fn raise_shuts(&mut self)
        ensures rose { Rose self.old.shuts self.new.shuts }
        ensures never_fell { NeverFell self.old.shuts self.new.shuts }
        ensures rest { self.new ≡ record self.old { shuts = self.new.shuts } }
    {
        self.shuts = bump(self.shuts);
    }

    /// Counts one `next` more that failed.
    pub(crate) fn raise_next_faults(&mut self)
        ensures rose { Rose self.old.next_faults self.new.next_faults }
        ensures never_fell { NeverFell self.old.next_faults self.new.next_faults }
        ensures rest { self.new ≡ record self.old { next_faults = self.new.next_faults } }
    {
        self.next_faults = bump(self.next_faults);
    }

    /// Counts one application more that was not started.
    pub(crate) fn raise_starts_failed(&mut self)
        ensures rose { Rose self.old.starts_failed self.new.starts_failed }
        ensures never_fell { NeverFell self.old.starts_failed self.new.starts_failed }
        ensures rest { self.new ≡ record self.old { starts_failed = self.new.starts_failed } }
    {
        self.starts_failed = bump(self.starts_failed);
    }

    /// Counts one call more that found an application closed.
    pub(crate) fn raise_closings(&mut self)
        ensures rose { Rose self.old.closings self.new.closings }
        ensures never_fell { NeverFell self.old.closings self.new.closings }
        ensures rest { self.new ≡ record self.old { closings = self.new.closings } }
    {
        self.closings = bump(self.closings);
    }

    /// Counts one call more to which an application was silent.
    pub(crate) fn raise_silences(&mut self)
        ensures rose { Rose self.old.silences self.new.silences }
        ensures never_fell { NeverFell self.old.silences self.new.silences }
        ensures rest { self.new ≡ record self.old { silences = self.new.silences } }
    {
        self.silences = bump(self.silences);
    }

    /// Counts one call more that found no memory.
    pub(crate) fn raise_shorts(&mut self)
        ensures rose { Rose self.old.shorts self.new.shorts }
        ensures never_fell { NeverFell self.old.shorts self.new.shorts }
        ensures rest { self.new ≡ record self.old { shorts = self.new.shorts } }
    {
        self.shorts = bump(self.shorts);
    }

    /// Counts the faults of the switch by itself from now on, where there is room. No count changes.
    pub(crate) fn know(&mut self, dpid: Dpid)
        ensures links { (d : ℕ) → link_faults_of self.new d ≡ link_faults_of self.old d }
        ensures shorts_of { (d : ℕ) → shorts_of self.new d ≡ shorts_of self.old d }
        ensures rest { self.new ≡ record self.old { known = self.new.known } }
    {
        if self.known.len() < MOST_ROWS && self.known.get(&dpid).is_none() {
            let _ = self.known.insert(dpid, self.unknown);
        }
    }

    /// Counts one failure more of the switch's link.
    pub(crate) fn raise_link(&mut self, dpid: Dpid)
        ensures rose { Rose (link_faults_of self.old dpid) (link_faults_of self.new dpid) }
        ensures links { (d : ℕ) → NeverFell (link_faults_of self.old d) (link_faults_of self.new d) }
        ensures shorts_of { (d : ℕ) → shorts_of self.new d ≡ shorts_of self.old d }
        ensures rest { self.new ≡ record self.old { known = self.new.known; unknown = self.new.unknown } }
    {
        match self.known.get_mut(&dpid) {
            Some(faults) => faults.links = bump(faults.links),
            None => self.unknown.links = bump(self.unknown.links),
        }
    }

    /// Counts one call more for the switch that found no memory.
    pub(crate) fn raise_shorts_of(&mut self, dpid: Dpid)
        ensures rose { Rose self.old.shorts self.new.shorts }
        ensures never_fell { NeverFell self.old.shorts self.new.shorts }
        ensures rose_of { Rose (shorts_of self.old dpid) (shorts_of self.new dpid) }
        ensures shorts_of { (d : ℕ) → NeverFell (shorts_of self.old d) (shorts_of self.new d) }
        ensures links { (d : ℕ) → link_faults_of self.new d ≡ link_faults_of self.old d }
        ensures rest { self.new ≡ record self.old { shorts = self.new.shorts; known = self.new.known; unknown = self.new.unknown } }
    {
        self.raise_shorts();
        match self.known.get_mut(&dpid) {
            Some(faults) => faults.shorts = bump(faults.shorts),
            None => self.unknown.shorts = bump(self.unknown.shorts),
        }
    }
}
