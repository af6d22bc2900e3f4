//! The clock of a live world.

use std::time::Duration;

/// How many whole milliseconds a duration has, as far as a clock counts.
pub fn milliseconds_of(duration: Duration) -> u64 {
    duration
        .as_secs()
        .saturating_mul(1_000)
        .saturating_add(u64::from(duration.subsec_millis()))
}

/// Tells the time.
pub trait Clock {
    /// Tells how many milliseconds have passed since some moment that stays the same. A live world goes on where the
    /// clock stands still or goes back, but it waits longer then.
    fn milliseconds(&mut self) -> u64;

    /// Tells how many whole seconds have passed since that moment.
    fn seconds(&mut self) -> u64 {
        self.milliseconds() / 1_000
    }
}
