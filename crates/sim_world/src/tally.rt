//! How often each fault came.

ghost use Rattle.std.specs.Prelude.{◌≡◌, ◌==◌, ◌-◌, [], ◌∷◌, ◌++◌, take, length, OnOk, OnErr, if◌then◌else◌};
ghost use Rattle.lego_io.specs.Count.{raised};
ghost use Rattle.sim_world.specs.Tally.{counts_at, one_fault, one_short, tally_stray, tally_short, tally_short_of, tally_fault_of, no_counts, none_of};

use of_types::Dpid;
use std::alloc::{AllocError, Global};
use std::marker::Model;

/// Counts one more, up to the last value.
fn raised(count: u64) -> u64
    ensures { result ≡ raised count }
{
    count.saturating_add(1)
}

/// How often the link of a switch failed, and how often a call of it wanted memory.
#[derive(Drop, Debug)]
struct LinkTally {
    dpid: Dpid,
    faults: u64,
    shorts: u64,
}

impl Model for LinkTally {
    ghost use Rattle.sim_world.specs.Tally.{LinkCounts};

    ghost Value = { LinkCounts };

    ghost view = { λ l. record { dpid = l.dpid; faults = l.faults; shorts = l.shorts } };
}

/// The counts of a world.
#[derive(Debug, Drop)]
pub(crate) struct Tally {
    shuts: u64,
    next_faults: u64,
    starts_failed: u64,
    closings: u64,
    silences: u64,
    shorts: u64,
    strays: u64,
    links: Vec<LinkTally>,
}

impl Model for Tally {
    ghost use Rattle.sim_world.specs.Tally.{TallyState};

    ghost Value = { TallyState };

    ghost view = { λ t. record {
      shuts = t.shuts;
      next_faults = t.next_faults;
      starts_failed = t.starts_failed;
      closings = t.closings;
      silences = t.silences;
      shorts = t.shorts;
      strays = t.strays;
      links = t.links.items;
    } };
}

impl LinkTally {
    /// Counts one fault more, if it is the switch.
    fn raise_fault(&mut self, dpid: Dpid)
        ensures { self.new ≡ (if self.old.dpid == dpid then one_fault self.old else self.old) }
    {
        if self.dpid == dpid {
            self.faults = raised(self.faults);
        }
    }

    /// Counts one more want of memory, if it is the switch.
    fn raise_short(&mut self, dpid: Dpid)
        ensures { self.new ≡ (if self.old.dpid == dpid then one_short self.old else self.old) }
    {
        if self.dpid == dpid {
            self.shorts = raised(self.shorts);
        }
    }
}

fn raise_faults(links: &mut [LinkTally], dpid: Dpid)
    ensures { links.new ≡ counts_at dpid one_fault links.old }
{
    for link in links.iter_mut() {
        link.raise_fault(dpid);
    }
}

fn raise_shorts(links: &mut [LinkTally], dpid: Dpid)
    ensures { links.new ≡ counts_at dpid one_short links.old }
{
    for link in links.iter_mut() {
        link.raise_short(dpid);
    }
}

impl Tally {
    /// Returns a count of nothing, for no switch; takes no memory.
    pub(crate) fn new(alloc: Global) -> Tally
        ensures { result ≡ no_counts }
    {
        Tally {
            shuts: 0,
            next_faults: 0,
            starts_failed: 0,
            closings: 0,
            silences: 0,
            shorts: 0,
            strays: 0,
            links: Vec::new(alloc),
        }
    }

    /// Adds one switch.
    pub(crate) fn add(&mut self, dpid: Dpid) -> Result<(), AllocError>
        ensures ok { OnOk result (self.new ≡ record self.old { links = self.old.links ++ none_of dpid ∷ [] }) }
        ensures err { OnErr result (self.new ≡ self.old) }
    {
        self.links.push(LinkTally {
            dpid,
            faults: 0,
            shorts: 0,
        })?;
        Ok(())
    }

    /// Without the switch that was added last; takes no memory.
    pub(crate) fn remove_last(&mut self)
        ensures { self.new ≡ record self.old { links = take (length self.old.links - 1) self.old.links } }
    {
        let _ = self.links.pop();
    }

    /// Counts that the world stayed shut.
    pub(crate) fn raise_shuts(&mut self)
        ensures { self.new ≡ record self.old { shuts = raised self.old.shuts } }
    {
        self.shuts = raised(self.shuts);
    }

    /// Counts that `next` failed.
    pub(crate) fn raise_next_faults(&mut self)
        ensures { self.new ≡ record self.old { next_faults = raised self.old.next_faults } }
    {
        self.next_faults = raised(self.next_faults);
    }

    /// Counts that a start failed.
    pub(crate) fn raise_starts_failed(&mut self)
        ensures { self.new ≡ record self.old { starts_failed = raised self.old.starts_failed } }
    {
        self.starts_failed = raised(self.starts_failed);
    }

    /// Counts that an application had closed, or was gone.
    pub(crate) fn raise_closings(&mut self)
        ensures { self.new ≡ record self.old { closings = raised self.old.closings } }
    {
        self.closings = raised(self.closings);
    }

    /// Counts that an application was silent.
    pub(crate) fn raise_silences(&mut self)
        ensures { self.new ≡ record self.old { silences = raised self.old.silences } }
    {
        self.silences = raised(self.silences);
    }

    /// Counts that a call wanted memory.
    pub(crate) fn raise_shorts(&mut self)
        ensures { self.new ≡ tally_short self.old }
    {
        self.shorts = raised(self.shorts);
    }

    /// Counts that a call of a link wanted memory.
    pub(crate) fn raise_shorts_of(&mut self, dpid: Dpid)
        ensures { self.new ≡ tally_short_of dpid self.old }
    {
        raise_shorts(&mut self.links, dpid);
        self.shorts = raised(self.shorts);
    }

    /// Counts that a call of a link failed.
    pub(crate) fn raise_faults_of(&mut self, dpid: Dpid)
        ensures { self.new ≡ tally_fault_of dpid self.old }
    {
        raise_faults(&mut self.links, dpid);
    }

    /// Counts a call that was out of place, if it was.
    pub(crate) fn raise_strays(&mut self, stray: bool)
        ensures { self.new ≡ tally_stray stray self.old }
    {
        if stray {
            self.strays = raised(self.strays);
        }
    }
}
