//! When a wait is over.

ghost use Rattle.std.specs.Prelude.{◌≡◌, ◌-◌, min, nat_le};
ghost use Rattle.live_world.specs.Deadlines.{moment_after};

/// How long one call waits for the other side, in milliseconds: for a message to go out, and for a byte of an application.
pub(crate) const CALL_MILLISECONDS: u64 = 5_000;

/// The moment at which a wait is over, whatever comes meanwhile, in milliseconds of the clock.
#[derive(Clone, Copy, Debug, PartialEq, Eq)]
pub struct Deadline {
    pub(crate) at: u64,
}

impl Deadline {
    /// So many milliseconds from now.
    pub(crate) fn after(now: u64, milliseconds: u64) -> Deadline
        ensures { result ≡ record { at = moment_after now milliseconds } }
    {
        Deadline {
            at: now.saturating_add(milliseconds),
        }
    }

    /// The earlier one.
    pub(crate) fn earlier(self, other: Deadline) -> Deadline
        ensures { result ≡ record { at = min self.at other.at } }
    {
        Deadline {
            at: self.at.min(other.at),
        }
    }

    /// How many milliseconds are left.
    pub(crate) fn left(self, now: u64) -> u64
        ensures { result ≡ self.at - now }
    {
        self.at.saturating_sub(now)
    }

    /// Tells whether it is over.
    pub(crate) fn is_over(self, now: u64) -> bool
        ensures { result ≡ nat_le self.at now }
    {
        self.at <= now
    }
}
