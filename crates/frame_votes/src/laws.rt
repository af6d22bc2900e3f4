//! What follows of votes.

ghost use Rattle.std.specs.Prelude.{◌≡◌, ℕ, List, Some};
ghost use Rattle.frame_votes.specs.Votes.{Polled, voted, after_vote};
ghost use Rattle.frame_votes.specs.laws.VoteLaws.{TwoHave, Lives, AllFollow, Voted};

/// Over a life: where each copy that is in gave what was voted so far, and then what is held of it, a frame that is voted was given whole behind
/// that by two copies, each from the beginning of its life; and it is so behind the vote.
pub fn two_gave_it()
    ensures { (so_far frame : List ℕ) (lives : Lives) (p : Polled) → AllFollow so_far lives p → voted p ≡ Some frame → Voted so_far frame lives (after_vote p) }
{}

/// A frame that two copies have whole at their fronts is voted, whatever the third gave, if anything.
pub fn two_are_followed()
    ensures { (frame : List ℕ) (p : Polled) → TwoHave frame p → voted p ≡ Some frame }
{}
