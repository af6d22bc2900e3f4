//! The judge against forwarding loops.

ghost use Rattle.std.specs.Prelude.{◌≡◌, ◌≤◌, ◌↔◌, length, IfOk, IsTrue, None, vec_len};
ghost use Rattle.flow_table.specs.View.{plains};
ghost use Rattle.net_guard.specs.Bits.{Marks};
ghost use Rattle.net_guard.specs.Links.{guarded_by};
ghost use Rattle.net_guard.specs.Leading.{is_viewed};
ghost use Rattle.net_guard.specs.Carrying.{ComesBackNowhere};
ghost use Rattle.net_guard.specs.Refusing.{IsRefusedBy};
ghost use Rattle.net_guard.specs.Found.{IsFoundFor, IsLoopFound, IsFirstFound, IsFree, is_free};

use crate::edits::first_edit;
use crate::found::Found;
use crate::hop::{Hop, hops_of};
use crate::leading::viewed;
use crate::looping::least_on_loop;
use crate::refusal::Refusal;
use crate::scope::Scope;
use crate::values::least_from;
use flow_table::{Judge, TableView};
use guard_rule::{GuardField, GuardRule};
use std::alloc::{AllocError, Global};
use std::marker::Model;

/// The judge that lets tables stand in which no packet comes back to a place where it was.
#[derive(Drop, Debug)]
pub struct Guard {
    field: GuardField,
    hops: Vec<Hop>,
}

impl Model for Guard {
    ghost use Rattle.std.specs.Prelude.{◌≤◌, length};
    ghost use Rattle.net_guard.specs.Links.{Guarded};

    ghost Value = { Guarded };

    ghost view = { λ s. record { field = s.field; hops = s.hops.items } };

    ghost invariant = { λ s. length s.hops.items ≤ 128 };
}

/// What is found of the packets with one value, if some place leads to itself.
fn found_for(
    field: GuardField,
    value: Option<u64>,
    hops: &[Hop],
    viewed: u128,
    tables: &[TableView],
) -> Option<Found>
    requires most { length hops.now ≤ 128 }
    requires viewed { Marks viewed hops.now (λ h. is_viewed h.to.0 (plains tables.now)) }
    ensures { IsFoundFor (record { field = field; hops = hops.now }) (plains tables.now) value result }
{
    match least_on_loop(field, Scope::Value(value), hops, viewed, tables) {
        Some((dpid, port)) => Some(Found::Loop { value, dpid, port }),
        None => None,
    }
}

/// What is found of the packets with each value, the least value first.
fn first_loop(field: GuardField, hops: &[Hop], viewed: u128, tables: &[TableView]) -> Option<Found>
    requires most { length hops.now ≤ 128 }
    requires viewed { Marks viewed hops.now (λ h. is_viewed h.to.0 (plains tables.now)) }
    ensures { IsLoopFound (record { field = field; hops = hops.now }) (plains tables.now) result }
{
    let mut from = 0;
    'numbers: while let Some(number) = least_from(field, from, tables) {
        if let Some(found) = found_for(field, Some(number), hops, viewed, tables) {
            return Some(found);
        }
        from = number + 1;
    }
    match field {
        GuardField::DlDst => found_for(field, None, hops, viewed, tables),
        GuardField::NwDst => None,
    }
}

/// What is found in tables without edits. Where the places do not lead in a circle by all rows, whatever their fields
/// are, they do for no value.
fn loop_in(field: GuardField, hops: &[Hop], tables: &[TableView]) -> Option<Found>
    requires { length hops.now ≤ 128 }
    ensures { IsLoopFound (record { field = field; hops = hops.now }) (plains tables.now) result }
{
    let viewed = viewed(hops, tables);
    match least_on_loop(field, Scope::Every, hops, viewed, tables) {
        None => None,
        Some(_) => first_loop(field, hops, viewed, tables),
    }
}

impl Guard {
    /// Makes the guard of a rule with at most 64 links. `AllocError` where there is no memory for them.
    pub fn new(alloc: Global, rule: &GuardRule) -> Result<Guard, AllocError>
        requires { vec_len rule.now.links ≤ 64 }
        ensures { IfOk result (λ guard. guard ≡ guarded_by rule.now) }
    {
        Ok(Guard {
            field: rule.field,
            hops: hops_of(alloc, rule.links.as_slice())?,
        })
    }

    /// Says what stands first against the tables of switches, which ascend by the switches' numbers; takes no memory.
    pub fn first_found(&self, tables: &[TableView]) -> Option<Found>
        ensures { IsFirstFound self.now (plains tables.now) result }
    {
        match first_edit(self.hops.as_slice(), tables) {
            Some((dpid, position)) => Some(Found::Edit { dpid, position }),
            None => loop_in(self.field, self.hops.as_slice(), tables),
        }
    }

    /// Says what these tables are refused for, if they are; takes no memory.
    pub fn refusal(&self, tables: &[TableView]) -> Option<Refusal>
        ensures { IsRefusedBy self.now (plains tables.now) result }
    {
        match self.first_found(tables) {
            Some(found) => Some(Refusal::Guarded {
                field: self.field,
                found,
            }),
            None => None,
        }
    }
}

impl Judge for Guard {
    ghost use Rattle.net_guard.specs.Found.{is_free};

    ghost accepts = { is_free };

    fn allows(&self, tables: &[TableView]) -> bool
        ensures value { result ≡ is_free self.now (plains tables.now) }
        ensures free { IsTrue result ↔ IsFree self.now (plains tables.now) }
        ensures comes_back { IsTrue result → ComesBackNowhere self.now (plains tables.now) }
    {
        self.first_found(tables).is_none()
    }
}
