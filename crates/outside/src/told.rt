//! What it takes to do a run again.

ghost use Rattle.std.specs.Prelude.{◌≡◌, IfOk, slice_get};
ghost use Rattle.outside.specs.Seen.{Shown, journal};
ghost use Rattle.outside.specs.Stimuli.{stimuli};

use crate::world::World;
use of_types::{Dpid, PortNo, WorldStim};
use std::alloc::{AllocError, Global};
use std::marker::Model;

/// A switch as a session declares it. Contracts see it as `Declared`.
#[derive(Drop, Debug)]
pub struct Decl {
    /// Its number.
    pub dpid: Dpid,
    /// How many flow entries its table takes.
    pub cap: u32,
    /// Its ports, ascending.
    pub ports: Vec<PortNo>,
}

impl Model for Decl {
    ghost use Rattle.flow_table.specs.Switch.{Declared};

    ghost Value = { Declared };

    ghost view = { λ d. record { dpid = d.dpid; cap = d.cap; ports = d.ports.items } };
}

impl Decl {
    /// Declares a switch with a copy of these ports.
    pub fn new(alloc: Global, dpid: Dpid, cap: u32, ports: &[PortNo]) -> Result<Decl, AllocError>
        ensures { IfOk result (λ d. d ≡ record { dpid = dpid; cap = cap; ports = ports.now }) }
    {
        Ok(Decl {
            dpid,
            cap,
            ports: Vec::from_slice(alloc, ports)?,
        })
    }
}

/// A world that hands out what it takes to do a run again: what happened to it, and its switches.
///
/// Each is a copy on demand, since a world may keep its stimuli packed. Of a world that does not show what it is, nothing is promised.
pub trait Told: World {
    /// Copies the stimulus of this number, counted from 0, of those that were begun so far, if there were as many.
    fn stimulus(&self, alloc: Global, number: usize) -> Result<Option<WorldStim>, AllocError>
        ensures { Shown Self.Tells (Self.seen self.now) → IfOk result (λ x. x ≡ slice_get (stimuli (journal (Self.seen self.now).history)) number) };

    /// Copies the switches that the world was given, in order.
    fn declared(&self, alloc: Global) -> Result<Vec<Decl>, AllocError>
        ensures { Shown Self.Tells (Self.seen self.now) → IfOk result (λ all. all.items ≡ (Self.seen self.now).given.declared) };
}
