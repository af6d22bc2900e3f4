//! A run so far: what the engine keeps, and its applications.

ghost use Rattle.std.specs.Prelude.{◌≡◌, ◌<◌, ◌^◌, List, length, IfOk};
ghost use Rattle.checkpoint_store.specs.Slots.{Slot};
ghost use Rattle.event_dispatch.specs.NewRun.{IsNewRun};
ghost use Rattle.event_dispatch.specs.Runs.{AreFresh};
ghost use Rattle.run_laws.specs.Facts.{is_taking};
ghost use Rattle.event_dispatch.specs.Shows.{application_of};

use crate::engine_core::Core;
use app_frames::Event;
use app_visor::AppState;
use crash_policy::{AppRule, listens};
use std::alloc::{AllocError, Global};

/// An application with what it has done.
#[derive(Drop, Debug)]
pub(crate) struct Managed<'a> {
    /// What the policy says of it.
    pub(crate) rule: &'a AppRule,
    pub(crate) state: AppState,
    /// How many turns completed.
    pub(crate) done: u64,
    /// How many turns failed.
    pub(crate) failed: u64,
}

impl Managed<'_> {
    /// Tells whether it has a turn at an event: it is alive, and is given events of that kind.
    pub(crate) fn takes(&self, event: &Event) -> bool
        ensures { (slots : List Slot) → result ≡ is_taking event.now (application_of slots self.now) }
    {
        self.state.alive && listens(self.rule, event.kind)
    }
}

/// A run so far.
#[derive(Drop, Debug)]
pub(crate) struct Run<'a> {
    pub(crate) core: Core,
    /// In the order of the policy. The index of an application is its place.
    pub(crate) apps: Vec<Managed<'a>>,
}

/// Makes the applications, of which nothing has happened.
fn fresh<'a>(alloc: Global, rules: &'a [AppRule]) -> Result<Vec<Managed<'a>>, AllocError>
    requires { length rules.now < 2 ^ 32 }
    ensures { IfOk result (λ apps. AreFresh 0 rules.now apps.items) }
{
    let mut apps = Vec::new(alloc);
    for at in 0..rules.len() {
        apps.push(Managed {
            rule: &rules[at],
            state: AppState::new(alloc, at as u32),
            done: 0,
            failed: 0,
        })?;
    }
    Ok(apps)
}

/// Counts applications. More than four bytes can number are more than memory could hold.
fn number_of(rules: &[AppRule]) -> Result<u32, AllocError>
    ensures { IfOk result (λ number. number ≡ length rules.now) }
{
    match u32::try_from(rules.len()) {
        Ok(number) => Ok(number),
        Err(_) => Err(AllocError),
    }
}

impl<'a> Run<'a> {
    /// Makes a run of applications of which nothing has happened.
    pub(crate) fn new(alloc: Global, rules: &'a [AppRule]) -> Result<Run<'a>, AllocError>
        ensures done { IfOk result (IsNewRun rules.now) }
    {
        let number = number_of(rules)?;
        Ok(Run {
            core: Core::new(alloc, number)?,
            apps: fresh(alloc, rules)?,
        })
    }
}
