//! The numbers of the calls that are to fail.

ghost use Rattle.std.specs.Prelude.{◌≡◌, ◌++◌, ◌∷◌, [], OnOk, OnErr};
ghost use Rattle.of_types.specs.Membership.{is_among};

use std::alloc::{AllocError, Global};
use std::collections::BTreeSet;
use std::marker::Model;

/// The numbers of the calls that are to fail. Contracts see the list in the order in which they were added; whether a
/// number is among them is asked of a set.
#[derive(Drop, Debug)]
pub struct FailNumbers {
    numbers: Vec<u64>,
    set: BTreeSet<u64>,
}

impl Model for FailNumbers {
    ghost use Rattle.std.specs.Prelude.{◌≡◌, ℕ, List};
    ghost use Rattle.std.specs.Ordering.{nat_cmp};
    ghost use Rattle.std.specs.BTreeSet.{contains};
    ghost use Rattle.of_types.specs.Membership.{is_among};

    ghost Value = { List ℕ };

    ghost view = { λ s. s.numbers.items };

    ghost invariant = { λ s. (n : ℕ) → contains nat_cmp s.set n ≡ is_among n s.numbers.items };
}

impl FailNumbers {
    /// Returns a list of no numbers; takes no memory.
    pub fn new(alloc: Global) -> FailNumbers
        ensures { result ≡ [] }
    {
        FailNumbers {
            numbers: Vec::new(alloc),
            set: BTreeSet::new(alloc),
        }
    }

    /// Adds a number behind the others. After want of memory they are as before.
    pub fn add(&mut self, number: u64) -> Result<(), AllocError>
        ensures ok { OnOk result (self.new ≡ self.old ++ number ∷ []) }
        ensures err { OnErr result (self.new ≡ self.old) }
    {
        self.numbers.reserve(1)?;
        self.set.insert(number)?;
        self.numbers.push_reserved(number);
        Ok(())
    }

    /// Tells whether the number is among them; takes no memory.
    pub fn contains(&self, number: u64) -> bool
        ensures { result ≡ is_among number self.now }
    {
        self.set.contains(&number)
    }
}
