//! When applications were started.

ghost use Rattle.std.specs.Prelude.{◌≡◌};
ghost use Rattle.live_world.specs.Starts.{start_moment};

use crate::deadline::Deadline;
use std::alloc::{AllocError, Global};
use std::collections::BTreeMap;

/// How many milliseconds two starts of one application are apart at least.
const APART_MILLISECONDS: u64 = 500;

/// When an application may be started, that was started last at this moment.
pub(crate) fn start_moment(last: Option<u64>, now: u64) -> Deadline
    ensures { result ≡ record { at = start_moment last now } }
{
    match last {
        None => Deadline { at: now },
        Some(moment) => Deadline::after(moment, APART_MILLISECONDS),
    }
}

/// When each application was last started, or its start was attempted.
#[derive(Drop)]
pub(crate) struct StartTimes {
    last: BTreeMap<u32, u64>,
}

impl StartTimes {
    /// None was started yet.
    pub(crate) fn new(alloc: Global) -> StartTimes {
        StartTimes {
            last: BTreeMap::new(alloc),
        }
    }

    /// When the application may be started.
    pub(crate) fn earliest(&self, app: u32, now: u64) -> Deadline {
        start_moment(self.last.get(&app).copied(), now)
    }

    /// A start is attempted now.
    pub(crate) fn note(&mut self, app: u32, now: u64) -> Result<(), AllocError> {
        self.last.insert(app, now)?;
        Ok(())
    }
}
