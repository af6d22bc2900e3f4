//! The clock of the system, as live worlds want it.

use live_world::{Clock, milliseconds_of};
use std::io;
use std::time::Instant;

/// Counts milliseconds since it was made, by the system's clock that never goes back. Where that cannot be read, no time
/// passes.
#[derive(Drop)]
pub struct SteadyClock<R> {
    rt: R,
    start: Instant,
    latest: u64,
}

impl<R: std::rt::Clock + Drop> SteadyClock<R> {
    /// Makes a clock that begins now.
    pub fn new(rt: R) -> io::Result<SteadyClock<R>> {
        let start = Instant::now(&rt)?;
        Ok(SteadyClock {
            rt,
            start,
            latest: 0,
        })
    }
}

impl<R: std::rt::Clock + Drop> Clock for SteadyClock<R> {
    fn milliseconds(&mut self) -> u64 {
        if let Ok(passed) = self.start.elapsed(&self.rt) {
            self.latest = milliseconds_of(passed);
        }
        self.latest
    }
}
