//! How often calls of applications failed.

ghost use Rattle.std.specs.Prelude.{◌≡◌, if◌then◌else◌};
ghost use Rattle.lego_io.specs.Count.{raised};
ghost use Rattle.linked_world.specs.Linked.{AreAppCounts, stray_count, short_count};

use std::marker::Model;

/// The counts of calls of applications; each stays at its type's last value.
#[derive(Drop, Debug)]
pub(crate) struct CallCounts {
    starts_failed: u64,
    closings: u64,
    silences: u64,
    shorts: u64,
    strays: u64,
}

impl Model for CallCounts {
    ghost use Rattle.linked_world.specs.Linked.{AppCounts};

    ghost Value = { AppCounts };

    ghost view = { λ c. record {
      starts_failed = c.starts_failed;
      closings = c.closings;
      silences = c.silences;
      shorts = c.shorts;
      strays = c.strays;
    } };
}

impl CallCounts {
    /// Nothing failed yet.
    pub(crate) fn new() -> CallCounts
        ensures fit { AreAppCounts result }
    {
        CallCounts {
            starts_failed: 0,
            closings: 0,
            silences: 0,
            shorts: 0,
            strays: 0,
        }
    }

    /// Counts a start that failed.
    pub(crate) fn raise_starts_failed(&mut self)
        ensures { self.new ≡ record self.old { starts_failed = raised self.old.starts_failed } }
    {
        self.starts_failed = self.starts_failed.saturating_add(1);
    }

    /// Counts that an application was found gone.
    pub(crate) fn raise_closings(&mut self)
        ensures { self.new ≡ record self.old { closings = raised self.old.closings } }
    {
        self.closings = self.closings.saturating_add(1);
    }

    /// Counts that an application gave nothing.
    pub(crate) fn raise_silences(&mut self)
        ensures { self.new ≡ record self.old { silences = raised self.old.silences } }
    {
        self.silences = self.silences.saturating_add(1);
    }

    /// Counts want of memory.
    pub(crate) fn raise_shorts(&mut self)
        ensures { self.new ≡ short_count self.old }
    {
        self.shorts = self.shorts.saturating_add(1);
    }

    /// Counts a call, if it is out of place.
    pub(crate) fn raise_strays(&mut self, stray: bool)
        ensures { self.new ≡ stray_count stray self.old }
    {
        if stray {
            self.strays = self.strays.saturating_add(1);
        }
    }
}
