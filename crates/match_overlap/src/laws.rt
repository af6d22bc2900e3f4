//! The algebra of the relations, each law the contract of a function that does nothing.

ghost use Rattle.std.specs.Prelude.{◌≡◌};
ghost use Rattle.of_match.specs.declared.flow_match.Match.{Match};
ghost use Rattle.match_overlap.specs.Relations.{Subsumes, Overlaps, IsMeet};

/// That one match subsumes another is a partial order on matches.
pub fn subsumes_is_an_order()
    ensures reflexive { (a : Match) → Subsumes a a }
    ensures transitive { (a b c : Match) → Subsumes a b → Subsumes b c → Subsumes a c }
    ensures antisymmetric { (a b : Match) → Subsumes a b → Subsumes b a → a ≡ b }
{}

/// That two matches overlap is symmetric, holds of a match and what it subsumes, and stays as one grows.
pub fn overlap_is_symmetric()
    ensures symmetric { (a b : Match) → Overlaps a b → Overlaps b a }
    ensures subsumed { (a b : Match) → Subsumes a b → Overlaps a b }
    ensures wider { (a b c : Match) → Subsumes a b → Overlaps b c → Overlaps a c }
{}

/// A meet is the one greatest lower bound of two matches.
pub fn meet_is_greatest_lower_bound()
    ensures lower_left { (a b m : Match) → IsMeet a b m → Subsumes a m }
    ensures lower_right { (a b m : Match) → IsMeet a b m → Subsumes b m }
    ensures greatest { (a b m d : Match) → IsMeet a b m → Subsumes a d → Subsumes b d → Subsumes m d }
    ensures one { (a b m n : Match) → IsMeet a b m → IsMeet a b n → m ≡ n }
{}
