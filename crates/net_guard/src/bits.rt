//! Sets of at most 128 places, as the bits of a number.

ghost use Rattle.std.specs.Prelude.{◌≡◌, ◌==◌, ◌||◌, ◌&&◌, ◌<◌, ℕ, bit_or};
ghost use Rattle.net_guard.specs.Bits.{has, joined};

/// Tells whether a place is in the set.
#[tactic(auto, unfolding(crate::specs::Bits::has))]
pub(crate) fn has(set: u128, i: usize) -> bool
    requires { i < 128 }
    ensures { result ≡ has set i }
{
    (set >> i) & 1 == 1
}

fn with(set: u128, i: usize) -> u128
    requires { i < 128 }
    ensures { (k : ℕ) → has result k ≡ (k == i || has set k) }
{
    set | 1 << i
}

/// The set with one place more, if that passes.
pub(crate) fn with_if(set: u128, i: usize, passes: bool) -> u128
    requires { i < 128 }
    ensures { (k : ℕ) → has result k ≡ ((k == i && passes) || has set k) }
{
    if passes { with(set, i) } else { set }
}

/// The places of both sets.
pub(crate) fn either(a: u128, b: u128) -> u128
    ensures { (k : ℕ) → has result k ≡ (has a k || has b k) }
{
    a | b
}

/// The places that are in both sets.
pub(crate) fn both(a: u128, b: u128) -> u128
    ensures { (k : ℕ) → has result k ≡ (has a k && has b k) }
{
    a & b
}

/// The set with those that follow a place, where it has the place.
#[tactic(auto, unfolding(crate::specs::Bits::joined))]
pub(crate) fn joined(set: u128, k: usize, behind: u128) -> u128
    requires { k < 128 }
    ensures { result ≡ joined k behind set }
{
    if has(set, k) { set | behind } else { set }
}
