//! The key of a flow entry, and the order of keys.
ghost use Rattle.std.proofs.Common.{rules};
ghost use Rattle.std.specs.Cmp.{partial_order_from_own_ties};
ghost use Rattle.std.specs.Cmp.Rules.{comparing};
ghost use Rattle.std.specs.Ordering.{as_partial_cmp};

use crate::flow_match::Match;
use std::cmp::Ordering;

/// The key of a flow entry: its priority and its match.
///
/// Keys are ordered by priority descending, then by the 40 bytes of the match ascending.
#[derive(Clone, Copy, Debug, PartialEq, Eq, Hash)]
pub struct Key {
    /// The priority, 0 to 65,535; a greater one comes first.
    pub priority: u16,
    /// The match.
    pub matching: Match,
}

impl Ord for Key {
    ghost use Rattle.of_match.specs.Key.{key_cmp};

    ghost cmp = { key_cmp };

    ghost total = { Prim.search (comparing, rules) };

    ghost matches_partial_cmp = { Prim.search (comparing, rules) };

    ghost matches_eq = { Prim.search (comparing, rules) };

    fn cmp(&self, other: &Key) -> Ordering {
        other
            .priority
            .cmp(&self.priority)
            .then(self.matching.cmp(&other.matching))
    }
}

impl PartialOrd for Key {
    ghost use Rattle.of_match.specs.Key.{key_cmp};

    ghost partial_cmp = { as_partial_cmp key_cmp };

    ghost laws = { partial_order_from_own_ties (Prim.search (comparing, rules)) (Prim.search (comparing, rules)) };

    fn partial_cmp(&self, other: &Key) -> Option<Ordering> {
        Some(self.cmp(other))
    }
}
