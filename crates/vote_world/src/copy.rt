//! One copy of an application.

ghost use Rattle.std.specs.Prelude.{◌≡◌, ◌⊎◌, Ok};
ghost use Rattle.frame_votes.specs.Votes.{out, with_copy};
ghost use Rattle.linked_world.specs.Linked.{seen_of};
ghost use Rattle.linked_world.specs.Still.{Still, Tried};
ghost use Rattle.linked_world.specs.laws.ThereLaws.{was_started};
ghost use Rattle.vote_world.specs.Voting.{copy_number, entered};
ghost use Rattle.vote_world.specs.Lives.{Rests, Begins};

use frame_votes::{Ballot, Place};
use linked_world::Linked;
use outside::{Short, World};

/// The number of a copy in the other world.
pub(crate) fn copy_number(first: u32, place: Place) -> u32
    ensures { result ≡ copy_number first place }
{
    match place {
        Place::First => first,
        Place::Second => first.saturating_add(1),
        Place::Third => first.saturating_add(2),
    }
}

/// Starts a copy, if there is room for it.
#[tactic(auto, using(linked_world::specs::laws::StillLaws::still_none, crate::specs::laws::LifeLaws::begins_none))]
fn start<W: World>(linked: &mut Linked<W>, copy: u32, words: &[String]) -> Result<bool, Short>
    ensures seen { Tried W.Tells result (seen_of W.seen linked.old) (seen_of W.seen linked.new) }
    ensures begins { Begins W.Tells W.seen copy result linked.old linked.new }
{
    if linked.has_place(copy) {
        linked.start_there(copy, words)
    } else {
        Ok(false)
    }
}

/// The copy is in, if it was started.
fn enter(ballot: &mut Ballot, place: Place, started: bool)
    ensures { ballot.new ≡ with_copy place (entered started) ballot.old }
{
    if started {
        ballot.begin(place);
    } else {
        ballot.end(place);
    }
}

/// Starts a copy, and tells whether it was started; it is in then.
pub(crate) fn start_copy<W: World>(
    linked: &mut Linked<W>,
    first: u32,
    ballot: &mut Ballot,
    place: Place,
    words: &[String],
) -> Result<bool, Short>
    ensures seen { Tried W.Tells result (seen_of W.seen linked.old) (seen_of W.seen linked.new) }
    ensures begins { Begins W.Tells W.seen (copy_number first place) result linked.old linked.new }
    ensures ballot { ballot.new ≡ with_copy place (entered (was_started result)) ballot.old }
{
    let started = start(linked, copy_number(first, place), words);
    enter(ballot, place, matches!(started, Ok(true)));
    started
}

/// Ends a copy, if it is in.
#[tactic(auto, using(linked_world::specs::laws::StillLaws::still_none, crate::specs::laws::LifeLaws::rests_none))]
fn end_if<W: World>(linked: &mut Linked<W>, copy: u32, is_in: bool)
    ensures seen { Still W.Tells (seen_of W.seen linked.old) (seen_of W.seen linked.new) }
    ensures rests { Rests W.Tells W.seen linked.old linked.new }
{
    if is_in {
        linked.end_there(copy);
    }
}

/// Ends a copy, if it is in; it is out then.
pub(crate) fn end_copy<W: World>(
    linked: &mut Linked<W>,
    first: u32,
    ballot: &mut Ballot,
    place: Place,
)
    ensures seen { Still W.Tells (seen_of W.seen linked.old) (seen_of W.seen linked.new) }
    ensures rests { Rests W.Tells W.seen linked.old linked.new }
    ensures ballot { ballot.new ≡ with_copy place out ballot.old }
{
    end_if(linked, copy_number(first, place), ballot.is_in(place));
    ballot.end(place);
}

/// Gives bytes to a copy, if it runs, and tells whether it was given them.
#[tactic(auto, using(linked_world::specs::laws::StillLaws::still_none, crate::specs::laws::LifeLaws::rests_none))]
fn give<W: World>(linked: &mut Linked<W>, copy: u32, bytes: &[u8]) -> Result<bool, Short>
    ensures seen { Tried W.Tells result (seen_of W.seen linked.old) (seen_of W.seen linked.new) }
    ensures rests { Rests W.Tells W.seen linked.old linked.new }
{
    if linked.runs_there(copy) {
        linked.give_there(copy, bytes)
    } else {
        Ok(false)
    }
}

/// Gives bytes to a copy, if it is in; one that is gone is out.
#[tactic(auto, using(linked_world::specs::laws::StillLaws::still_none, linked_world::specs::laws::StillLaws::still_twice, crate::specs::laws::LifeLaws::rests_none, crate::specs::laws::LifeLaws::rests_twice))]
pub(crate) fn give_copy<W: World>(
    linked: &mut Linked<W>,
    first: u32,
    ballot: &mut Ballot,
    place: Place,
    bytes: &[u8],
) -> Result<(), Short>
    ensures seen { Tried W.Tells result (seen_of W.seen linked.old) (seen_of W.seen linked.new) }
    ensures rests { Rests W.Tells W.seen linked.old linked.new }
    ensures ballot { (ballot.new ≡ ballot.old) ⊎ (ballot.new ≡ with_copy place out ballot.old) }
{
    if !ballot.is_in(place) {
        return Ok(());
    }
    match give(linked, copy_number(first, place), bytes) {
        Ok(true) => Ok(()),
        Ok(false) => {
            end_copy(linked, first, ballot, place);
            Ok(())
        }
        Err(short) => Err(short),
    }
}
