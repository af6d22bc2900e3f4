//! Calls that are told to fail.

ghost use Rattle.std.specs.Prelude.{◌≡◌, [], ◌∷◌, ◌++◌, OnOk, OnErr};
ghost use Rattle.std.specs.List.{list_any};
ghost use Rattle.sim_world.specs.Told.{is_kind, is_of_world, tells, is_told};

use outside::{CallKind, FailCall};
use std::alloc::{AllocError, Global};
use std::marker::Model;

/// Calls that are told to fail, but for those of links. Contracts see them as a list, in the order given.
#[derive(Drop, Debug)]
pub struct Told {
    fails: Vec<FailCall>,
}

impl Model for Told {
    ghost use Rattle.std.specs.Prelude.{List};
    ghost use Rattle.outside.specs.declared.call.FailCall.{FailCall};

    ghost Value = { List FailCall };

    ghost view = { λ s. s.fails.items };
}

impl Told {
    /// Returns a list of no call; takes no memory.
    pub fn new(alloc: Global) -> Told
        ensures { result ≡ [] }
    {
        Told {
            fails: Vec::new(alloc),
        }
    }

    /// Adds one call. Want of memory changes nothing.
    pub fn add(&mut self, fail: FailCall) -> Result<(), AllocError>
        ensures ok { OnOk result (self.new ≡ self.old ++ fail ∷ []) }
        ensures err { OnErr result (self.new ≡ self.old) }
    {
        self.fails.push(fail)?;
        Ok(())
    }

    /// Tells whether the call of this kind and number, counted from 1, is told to fail; `of` is the application's index
    /// or the switch's number, and says nothing for `Open`, `Next` and `Short`. Takes no memory.
    #[tactic(auto, unfolding(crate::specs::Told::is_told))]
    pub fn is_told(&self, kind: CallKind, of: u64, number: u64) -> bool
        ensures { result ≡ is_told kind of number self.now }
    {
        any_tells(&self.fails, kind, of, number)
    }
}

fn is_kind(one: CallKind, other: CallKind) -> bool
    ensures { result ≡ is_kind one other }
{
    one == other
}

fn is_of_world(kind: CallKind) -> bool
    ensures { result ≡ is_of_world kind }
{
    matches!(kind, CallKind::Open | CallKind::Next | CallKind::Short)
}

fn tells(fail: &FailCall, kind: CallKind, of: u64, number: u64) -> bool
    ensures { result ≡ tells kind of number fail.now }
{
    is_kind(fail.kind, kind) && (is_of_world(kind) || fail.of == of) && fail.number == number
}

fn any_tells(fails: &[FailCall], kind: CallKind, of: u64, number: u64) -> bool
    ensures { result ≡ list_any (tells kind of number) fails.now }
{
    fails.iter().any(|fail| tells(fail, kind, of, number))
}
