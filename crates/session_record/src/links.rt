//! The calls on links.

ghost use Rattle.std.specs.Prelude.{◌≡◌, ◌==◌, ◌⊎◌, [], ℕ, true, false, IfOk, OnOk, if◌then◌else◌};
ghost use Rattle.lego_io.specs.Count.{raised};

use of_types::Dpid;
use std::alloc::{AllocError, Global};
use std::collections::BTreeMap;

/// How many calls there were on the link of each switch, and at which of them it was lost. Once memory was refused it counts none.
#[derive(Drop)]
pub struct LinkCalls {
    pub(crate) counts: BTreeMap<Dpid, u64>,
    pub(crate) losses: Vec<(Dpid, u64)>,
    pub(crate) is_short: bool,
}

impl LinkCalls {
    ghost use Rattle.session_record.specs.Links.{calls_of, loss_at, NotesCall};

    /// Returns counts of no calls; takes no memory.
    pub(crate) fn new(alloc: Global) -> LinkCalls
        ensures none { (d : ℕ) → calls_of result d ≡ 0 }
        ensures losses { result.losses.items ≡ [] }
    {
        LinkCalls {
            counts: BTreeMap::new(alloc),
            losses: Vec::new(alloc),
            is_short: false,
        }
    }

    /// Returns counts that count nothing; takes no memory.
    pub(crate) fn silent(alloc: Global) -> LinkCalls {
        LinkCalls {
            counts: BTreeMap::new(alloc),
            losses: Vec::new(alloc),
            is_short: true,
        }
    }

    /// Counts one call more, and answers its number.
    fn count(&mut self, dpid: Dpid) -> Result<u64, AllocError>
        ensures number { IfOk result (λ n. n ≡ raised (calls_of self.old dpid)) }
        ensures counts { OnOk result ((d : ℕ) → calls_of self.new d ≡ (if d == dpid then raised (calls_of self.old dpid) else calls_of self.old d)) }
        ensures losses { self.new.losses ≡ self.old.losses }
        ensures same_flag { self.new.is_short ≡ self.old.is_short }
    {
        let before = match self.counts.get(&dpid) {
            Some(count) => *count,
            None => 0,
        };
        let number = before.saturating_add(1);
        self.counts.insert(dpid, number)?;
        Ok(number)
    }

    fn try_note(&mut self, dpid: Dpid, is_lost: bool) -> Result<(), AllocError>
        ensures noted { OnOk result (NotesCall dpid is_lost self.old self.new) }
        ensures same_flag { self.new.is_short ≡ self.old.is_short }
    {
        let number = self.count(dpid)?;
        if is_lost {
            self.losses.push((dpid, number))?;
        }
        Ok(())
    }

    /// Counts one call more on the link of the switch, which was lost by it or not.
    pub(crate) fn note(&mut self, dpid: Dpid, is_lost: bool)
        ensures { (self.new.is_short ≡ true) ⊎ NotesCall dpid is_lost self.old self.new }
    {
        if !self.is_short {
            self.is_short = self.try_note(dpid, is_lost).is_err();
        }
    }

    /// Lends the losses, each with the number of the call at which it came, unless memory was refused.
    pub(crate) fn losses(&self) -> Result<&[(Dpid, u64)], AllocError>
        ensures losses { IfOk result (λ all. all.now ≡ self.now.losses.items) }
        ensures whole { OnOk result (self.now.is_short ≡ false) }
    {
        if self.is_short {
            return Err(AllocError);
        }
        Ok(&self.losses)
    }
}
