//! The known ports of switches, and those of the switches that were lost.

ghost use Rattle.std.specs.Prelude.{◌≡◌, ◌==◌, ◌+◌, ◌<◌, ◌≤◌, not, [], ◌∷◌, ◌++◌, filter, take, drop, vec_len, vec_capacity, OnOk, OnErr};
ghost use Rattle.net_txn.specs.Arriving.{known_after};
ghost use Rattle.net_txn.specs.Ports.{lost_ports};

use crate::message_event::change_known;
use crate::ports::KnownPorts;
use of_types::Dpid;
use of_wire::PortStatus;
use std::alloc::{AllocError, Global};
use std::marker::Model;

/// The known ports of the joined switches, and those of the switches that were lost and whose leaving was not told yet.
/// A switch can be lost without memory. Contracts see both lists.
#[derive(Drop, Debug)]
pub(crate) struct PortTable {
    known: Vec<KnownPorts>,
    /// In the order of the losses.
    left: Vec<KnownPorts>,
}

impl Model for PortTable {
    ghost use Rattle.std.specs.Prelude.{◌≤◌, ◌+◌, vec_len, vec_capacity};
    ghost use Rattle.net_txn.specs.Ports.{PortLists};

    ghost Value = { PortLists };

    ghost view = { λ s. record { known = s.known.items; left = s.left.items } };

    ghost invariant = { λ s. vec_len s.left + vec_len s.known ≤ vec_capacity s.left };
}

impl PortTable {
    /// Returns the ports of no switch; takes no memory.
    pub(crate) fn new(alloc: Global) -> PortTable
        ensures { result ≡ record { known = []; left = [] } }
    {
        PortTable {
            known: Vec::new(alloc),
            left: Vec::new(alloc),
        }
    }

    /// Returns the known ports of the joined switches; takes no memory.
    pub(crate) fn known(&self) -> &[KnownPorts]
        ensures { result.now ≡ self.now.known }
    {
        &self.known
    }

    /// Returns the known ports of the switches that were lost; takes no memory.
    pub(crate) fn left(&self) -> &[KnownPorts]
        ensures { result.now ≡ self.now.left }
    {
        &self.left
    }

    /// Makes room for one switch more.
    pub(crate) fn reserve(&mut self) -> Result<(), AllocError>
        ensures { self.new ≡ self.old }
    {
        self.left.reserve(self.known.len() + 1)?;
        self.known.reserve(1)
    }

    /// Appends the known ports of a switch, and takes room for its loss.
    pub(crate) fn push(&mut self, known: KnownPorts) -> Result<(), AllocError>
        ensures ok { OnOk result (self.new ≡ record self.old { known = self.old.known ++ known ∷ [] }) }
        ensures err { OnErr result (self.new ≡ self.old) }
    {
        self.left.reserve(self.known.len() + 1)?;
        self.known.push(known)?;
        Ok(())
    }

    /// Keeps the known ports of the first switches alone; takes no memory.
    pub(crate) fn truncate(&mut self, len: usize)
        ensures { self.new ≡ record self.old { known = take len self.old.known } }
    {
        self.known.truncate(len);
    }

    /// Changes the known ports of a switch as a PORT_STATUS tells.
    pub(crate) fn change(
        &mut self,
        alloc: Global,
        dpid: Dpid,
        status: &PortStatus,
    ) -> Result<(), AllocError>
        ensures ok { OnOk result (self.new ≡ record self.old { known = known_after dpid status.now self.old.known }) }
        ensures err { OnErr result (self.new ≡ self.old) }
    {
        change_known(alloc, &mut self.known, dpid, status)
    }

    /// Drops the known ports of a switch; takes no memory.
    pub(crate) fn forget(&mut self, dpid: Dpid)
        ensures { self.new ≡ record self.old { known = filter (λ k. not (k.dpid == dpid)) self.old.known } }
    {
        forget_known(&mut self.known, dpid);
    }

    /// Moves the known ports of a switch that is lost behind those of the others that were; takes no memory.
    pub(crate) fn lose(&mut self, dpid: Dpid)
        ensures { self.new ≡ lost_ports dpid self.old }
    {
        move_known(&mut self.known, &mut self.left, dpid);
    }

    /// Drops the known ports of the first switch that was lost; takes no memory.
    pub(crate) fn drop_left(&mut self)
        ensures { self.new ≡ record self.old { left = drop 1 self.old.left } }
    {
        if !self.left.is_empty() {
            self.left.remove(0);
        }
    }
}

fn forget_known(known: &mut Vec<KnownPorts>, dpid: Dpid)
    ensures known { known.new.items ≡ filter (λ k. not (k.dpid == dpid)) known.old.items }
    ensures len { vec_len known.new ≤ vec_len known.old }
{
    known.retain(|k| k.dpid != dpid);
}

/// Moves the known ports at a place, where they are of a switch, or passes over them. Answers the next place.
fn move_at(known: &mut Vec<KnownPorts>, left: &mut Vec<KnownPorts>, at: usize, dpid: Dpid) -> usize
    requires place { at < vec_len known.old }
    requires room { vec_len left.old + vec_len known.old ≤ vec_capacity left.old }
    ensures known { take result known.new.items ++ filter (λ k. not (k.dpid == dpid)) (drop result known.new.items) ≡ take at known.old.items ++ filter (λ k. not (k.dpid == dpid)) (drop at known.old.items) }
    ensures left { left.new.items ++ filter (λ k. k.dpid == dpid) (drop result known.new.items) ≡ left.old.items ++ filter (λ k. k.dpid == dpid) (drop at known.old.items) }
    ensures nearer { result + vec_len known.old ≡ at + 1 + vec_len known.new }
    ensures room { vec_len left.new + vec_len known.new ≤ vec_capacity left.new }
{
    if known[at].dpid == dpid {
        left.push(known.remove(at)).unwrap();
        at
    } else {
        at + 1
    }
}

fn move_known(known: &mut Vec<KnownPorts>, left: &mut Vec<KnownPorts>, dpid: Dpid)
    requires room { vec_len left.old + vec_len known.old ≤ vec_capacity left.old }
    ensures known { known.new.items ≡ filter (λ k. not (k.dpid == dpid)) known.old.items }
    ensures left { left.new.items ≡ left.old.items ++ filter (λ k. k.dpid == dpid) known.old.items }
    ensures room { vec_len left.new + vec_len known.new ≤ vec_capacity left.new }
{
    let count = known.len();
    let mut at = 0;
    for _done in 0..count {
        at = move_at(known, left, at, dpid);
    }
}
