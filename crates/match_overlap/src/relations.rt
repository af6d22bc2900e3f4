//! The relations of matches.

ghost use Rattle.std.specs.Prelude.{◌≡◌, ◌↔◌, IsTrue, IsSome, IfSome};
ghost use Rattle.match_overlap.specs.Relations.{Subsumes, Overlaps, IsMeet, is_subsuming, is_overlapping, meet_of};

use crate::fieldwise::subsumes_fields;
use crate::overlapping::{meet_fields, overlaps_fields};
use of_match::Match;

/// Tells whether `a` covers each packet that `b` covers.
#[tactic(auto, unfolding(crate::specs::Relations::is_subsuming))]
pub fn subsumes(a: &Match, b: &Match) -> bool
    ensures subsumes { IsTrue result ↔ Subsumes a.now b.now }
    ensures value { result ≡ is_subsuming a.now b.now }
{
    subsumes_fields(a.fields(), b.fields())
}

/// Tells whether some packet is covered by both (OpenFlow 1.0.0, 4.6, the check for overlapping entries).
#[tactic(auto, unfolding(crate::specs::Relations::is_overlapping))]
pub fn overlaps(a: &Match, b: &Match) -> bool
    ensures overlaps { IsTrue result ↔ Overlaps a.now b.now }
    ensures value { result ≡ is_overlapping a.now b.now }
{
    overlaps_fields(a.fields(), b.fields())
}

#[tactic(auto, unfolding(crate::specs::Relations::meet_of))]
fn meeting(a: &Match, b: &Match) -> Option<Match>
    ensures { result ≡ meet_of a.now b.now }
{
    if overlaps(a, b) {
        Some(Match::new(&meet_fields(a.fields(), b.fields())))
    } else {
        None
    }
}

/// Finds the match of the packets that both cover; `None` exactly where no packet is.
pub fn meet(a: &Match, b: &Match) -> Option<Match>
    ensures some { IsSome result ↔ Overlaps a.now b.now }
    ensures covers { IfSome result (IsMeet a.now b.now) }
    ensures value { result ≡ meet_of a.now b.now }
{
    meeting(a, b)
}
