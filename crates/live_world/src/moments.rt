//! Moments: whole seconds since a world was opened.

ghost use Rattle.std.specs.Prelude.{◌≡◌};
ghost use Rattle.live_world.specs.Moments.{moment_at, changed};

use flow_timeouts::LAST_MOMENT;

/// The moments of a world. They never go back.
#[derive(Clone, Copy, Debug, PartialEq, Eq)]
pub struct Moments {
    /// When the world was opened, by its clock.
    pub(crate) began: u64,
    /// The latest moment.
    pub(crate) latest: u64,
}

impl Moments {
    /// Begins at the moment 0.
    pub(crate) fn new(now: u64) -> Moments
        ensures { result ≡ record { began = now; latest = 0 } }
    {
        Moments {
            began: now,
            latest: 0,
        }
    }

    /// The clock shows this. Tells the moment, if it has changed.
    pub(crate) fn change(&mut self, now: u64) -> Option<u64>
        ensures latest { self.new ≡ record self.old { latest = moment_at now self.old } }
        ensures tells { result ≡ changed self.old.latest self.new.latest }
    {
        let moment = now.saturating_sub(self.began).min(LAST_MOMENT);
        if moment <= self.latest {
            return None;
        }
        self.latest = moment;
        Some(moment)
    }
}
