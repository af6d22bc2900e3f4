//! What copies give, and the vote.

ghost use Rattle.std.specs.Prelude.{◌≡◌, ◌<◌, ◌≤◌, ◌++◌, ℕ, List, [], length, true, false, IfOk, OnOk, OnErr, IfSome};
ghost use Rattle.frame_votes.specs.Votes.{voted, after_vote};
ghost use Rattle.linked_world.specs.Linked.{seen_of};
ghost use Rattle.linked_world.specs.Still.{Still, Tried};
ghost use Rattle.vote_world.specs.Voting.{copy_number, HearsAt, Heard, VotesTo};
ghost use Rattle.vote_world.specs.Lives.{lives_of, Backed, VotesBehind, Rests, Touches, GoesOn, piece_in, Keeps, Goes, found_in};

use crate::copy::{copy_number, end_copy};
use frame_votes::{Ballot, Place};
use linked_world::Linked;
use of_types::{ByteList, TookWhat};
use outside::{Short, Taken, World};
use std::alloc::Global;

/// Takes a piece from a copy into the front of the buffer, if it gives one.
#[tactic(auto, using(linked_world::specs::laws::StillLaws::still_none))]
fn piece<W: World>(
    linked: &mut Linked<W>,
    copy: u32,
    buf: &mut [u8],
) -> Result<Option<usize>, Short>
    requires { 0 < length buf.old }
    ensures seen { Tried W.Tells result (seen_of W.seen linked.old) (seen_of W.seen linked.new) }
    ensures within { IfOk result (λ found. IfSome found (λ n. n ≤ length buf.new)) }
    ensures goes { GoesOn W.Tells W.seen copy (piece_in result buf.new) linked.old linked.new }
{
    if !linked.runs_there(copy) {
        return Ok(None);
    }
    match linked.take_there(copy, buf) {
        Ok(Taken::Some(n)) => Ok(Some(n)),
        Ok(Taken::Closed) => Ok(None),
        Ok(Taken::Silent) => Ok(None),
        Err(short) => Err(short),
    }
}

/// Takes a piece from a copy, if it gives one. Want of memory for the piece ends it.
#[tactic(auto, using(linked_world::specs::laws::StillLaws::still_none, linked_world::specs::laws::StillLaws::tried_behind))]
pub(crate) fn piece_of<W: World>(
    alloc: Global,
    linked: &mut Linked<W>,
    copy: u32,
    buf: &mut [u8],
) -> Result<TookWhat, Short>
    requires { 0 < length buf.old }
    ensures seen { Tried W.Tells result (seen_of W.seen linked.old) (seen_of W.seen linked.new) }
    ensures touches { Touches W.Tells W.seen copy linked.old linked.new }
{
    if !linked.runs_there(copy) {
        return Ok(TookWhat::Closed);
    }
    match linked.take_there(copy, buf) {
        Ok(Taken::Some(n)) => bytes_of(alloc, linked, copy, &buf[..n]),
        Ok(Taken::Closed) => Ok(TookWhat::Closed),
        Ok(Taken::Silent) => Ok(TookWhat::Silent),
        Err(short) => Err(short),
    }
}

/// A piece that was taken from a copy. Want of memory for it ends the copy.
#[tactic(auto, using(linked_world::specs::laws::StillLaws::still_none, linked_world::specs::laws::StillLaws::still_shorted))]
fn bytes_of<W: World>(
    alloc: Global,
    linked: &mut Linked<W>,
    copy: u32,
    bytes: &[u8],
) -> Result<TookWhat, Short>
    ensures seen { Tried W.Tells result (seen_of W.seen linked.old) (seen_of W.seen linked.new) }
    ensures rests { Rests W.Tells W.seen linked.old linked.new }
{
    match ByteList::from_slice(alloc, bytes) {
        Ok(bytes) => Ok(TookWhat::Bytes(bytes)),
        Err(_) => {
            linked.end_there(copy);
            Err(linked.want_memory())
        }
    }
}

/// Holds a piece that a copy gave; want of memory puts it out.
#[tactic(auto, using(linked_world::specs::laws::StillLaws::still_none, linked_world::specs::laws::StillLaws::still_shorted))]
fn keep<W: World>(
    linked: &mut Linked<W>,
    first: u32,
    ballot: &mut Ballot,
    place: Place,
    bytes: &[u8],
) -> Result<bool, Short>
    ensures seen { Tried W.Tells result (seen_of W.seen linked.old) (seen_of W.seen linked.new) }
    ensures rests { Rests W.Tells W.seen linked.old linked.new }
    ensures keeps { Keeps place bytes.now ballot.old ballot.new }
    ensures heard { OnOk result (HearsAt place ballot.old ballot.new) }
{
    match ballot.hold(place, bytes) {
        Ok(()) => Ok(true),
        Err(_) => {
            end_copy(linked, first, ballot, place);
            Err(linked.want_memory())
        }
    }
}

/// Hears a piece of a copy, and tells whether there was one.
#[tactic(auto, using(linked_world::specs::laws::StillLaws::tried_behind, crate::specs::laws::VotingLaws::hears_none))]
fn hear<W: World>(
    linked: &mut Linked<W>,
    first: u32,
    ballot: &mut Ballot,
    place: Place,
    buf: &mut [u8],
) -> Result<bool, Short>
    requires { 0 < length buf.old }
    ensures seen { Tried W.Tells result (seen_of W.seen linked.old) (seen_of W.seen linked.new) }
    ensures heard { OnOk result (HearsAt place ballot.old ballot.new) }
    ensures goes { Goes W.Tells W.seen first [] ballot.old ballot.new linked.old linked.new }
{
    match piece(linked, copy_number(first, place), buf) {
        Ok(Some(n)) => keep(linked, first, ballot, place, &buf[..n]),
        Ok(None) => Ok(false),
        Err(short) => Err(short),
    }
}

/// Tells whether more is awaited of a copy.
#[tactic(auto, using(linked_world::specs::laws::StillLaws::still_none))]
fn awaits<W: World>(linked: &mut Linked<W>, ballot: &Ballot, place: Place) -> Result<bool, Short>
    ensures seen { Tried W.Tells result (seen_of W.seen linked.old) (seen_of W.seen linked.new) }
    ensures rests { Rests W.Tells W.seen linked.old linked.new }
{
    match ballot.awaits(place) {
        Ok(awaited) => Ok(awaited),
        Err(_) => Err(linked.want_memory()),
    }
}

/// Hears a piece of a copy, if more is awaited of it, and tells whether there was one.
#[tactic(auto, using(linked_world::specs::laws::StillLaws::tried_behind, crate::specs::laws::VotingLaws::hears_none))]
fn hear_more<W: World>(
    linked: &mut Linked<W>,
    first: u32,
    ballot: &mut Ballot,
    place: Place,
    buf: &mut [u8],
) -> Result<bool, Short>
    requires { 0 < length buf.old }
    ensures seen { Tried W.Tells result (seen_of W.seen linked.old) (seen_of W.seen linked.new) }
    ensures heard { OnOk result (HearsAt place ballot.old ballot.new) }
    ensures goes { Goes W.Tells W.seen first [] ballot.old ballot.new linked.old linked.new }
{
    match awaits(linked, ballot, place) {
        Ok(true) => hear(linked, first, ballot, place, buf),
        Ok(false) => Ok(false),
        Err(short) => Err(short),
    }
}

/// Hears a copy until its next frame is whole or refused, or it gives nothing more.
fn poll<W: World>(
    linked: &mut Linked<W>,
    first: u32,
    ballot: &mut Ballot,
    place: Place,
    buf: &mut [u8],
) -> Result<(), Short>
    requires { 0 < length buf.old }
    ensures seen { Tried W.Tells result (seen_of W.seen linked.old) (seen_of W.seen linked.new) }
    ensures heard { OnOk result (HearsAt place ballot.old ballot.new) }
    ensures goes { Goes W.Tells W.seen first [] ballot.old ballot.new linked.old linked.new }
{
    for _piece in 0..u64::MAX {
        match hear_more(linked, first, ballot, place, buf) {
            Ok(true) => {}
            Ok(false) => return Ok(()),
            Err(short) => return Err(short),
        }
    }
    Ok(())
}

/// Hears the second copy and the third.
#[tactic(auto, using(linked_world::specs::laws::StillLaws::tried_behind, crate::specs::laws::VotingLaws::second_third, crate::specs::laws::VotingLaws::first_kept))]
fn poll_two<W: World>(
    linked: &mut Linked<W>,
    first: u32,
    ballot: &mut Ballot,
    buf: &mut [u8],
) -> Result<(), Short>
    requires { 0 < length buf.old }
    ensures seen { Tried W.Tells result (seen_of W.seen linked.old) (seen_of W.seen linked.new) }
    ensures first { OnOk result (ballot.new.first ≡ ballot.old.first) }
    ensures heard { OnOk result (Heard ballot.old ballot.new) }
    ensures goes { Goes W.Tells W.seen first [] ballot.old ballot.new linked.old linked.new }
{
    match poll(linked, first, ballot, Place::Second, buf) {
        Ok(()) => poll(linked, first, ballot, Place::Third, buf),
        Err(short) => Err(short),
    }
}

/// Hears all copies.
#[tactic(auto, using(linked_world::specs::laws::StillLaws::tried_behind, crate::specs::laws::VotingLaws::all_three))]
fn poll_all<W: World>(
    linked: &mut Linked<W>,
    first: u32,
    ballot: &mut Ballot,
    buf: &mut [u8],
) -> Result<(), Short>
    requires { 0 < length buf.old }
    ensures seen { Tried W.Tells result (seen_of W.seen linked.old) (seen_of W.seen linked.new) }
    ensures heard { OnOk result (Heard ballot.old ballot.new) }
    ensures goes { Goes W.Tells W.seen first [] ballot.old ballot.new linked.old linked.new }
{
    match poll(linked, first, ballot, Place::First, buf) {
        Ok(()) => poll_two(linked, first, ballot, buf),
        Err(short) => Err(short),
    }
}

/// Ends a copy that is out.
#[tactic(auto, using(linked_world::specs::laws::StillLaws::still_none))]
fn end_unless_in<W: World>(linked: &mut Linked<W>, first: u32, ballot: &Ballot, place: Place)
    ensures seen { Still W.Tells (seen_of W.seen linked.old) (seen_of W.seen linked.new) }
    ensures rests { Rests W.Tells W.seen linked.old linked.new }
{
    if !ballot.is_in(place) {
        linked.end_there(copy_number(first, place));
    }
}

/// Ends the copies that are out.
fn end_unless_all_in<W: World>(linked: &mut Linked<W>, first: u32, ballot: &Ballot)
    ensures seen { Still W.Tells (seen_of W.seen linked.old) (seen_of W.seen linked.new) }
    ensures rests { Rests W.Tells W.seen linked.old linked.new }
{
    end_unless_in(linked, first, ballot, Place::First);
    end_unless_in(linked, first, ballot, Place::Second);
    end_unless_in(linked, first, ballot, Place::Third);
}

/// Votes; a copy that did not give the frame that two gave is ended.
fn vote<W: World>(
    linked: &mut Linked<W>,
    first: u32,
    ballot: &mut Ballot,
) -> Result<Option<ByteList>, Short>
    ensures seen { Tried W.Tells result (seen_of W.seen linked.old) (seen_of W.seen linked.new) }
    ensures frame { IfOk result (λ frame. frame ≡ voted ballot.old) }
    ensures ballot { OnOk result (ballot.new ≡ after_vote ballot.old) }
    ensures err { OnErr result (ballot.new ≡ ballot.old) }
    ensures rests { Rests W.Tells W.seen linked.old linked.new }
{
    match ballot.vote() {
        Ok(frame) => {
            end_unless_all_in(linked, first, ballot);
            Ok(frame)
        }
        Err(_) => Err(linked.want_memory()),
    }
}

/// Hears all copies, and votes.
#[tactic(auto, using(linked_world::specs::laws::StillLaws::tried_behind, crate::specs::laws::VotingLaws::votes_to))]
pub(crate) fn next_vote<W: World>(
    linked: &mut Linked<W>,
    first: u32,
    ballot: &mut Ballot,
    buf: &mut [u8],
) -> Result<Option<ByteList>, Short>
    requires { 0 < length buf.old }
    ensures seen { Tried W.Tells result (seen_of W.seen linked.old) (seen_of W.seen linked.new) }
    ensures voted { IfOk result (λ frame. VotesTo ballot.old ballot.new frame) }
    ensures goes { Goes W.Tells W.seen first (found_in result) ballot.old ballot.new linked.old linked.new }
    ensures tied { IfOk result (λ found. W.Tells → (so_far : List ℕ) → Backed first so_far ballot.old (W.seen linked.old.links).history → VotesBehind so_far (lives_of first (W.seen linked.new.links).history) ballot.old ballot.new found) }
{
    match poll_all(linked, first, ballot, buf) {
        Ok(()) => vote(linked, first, ballot),
        Err(short) => Err(short),
    }
}
