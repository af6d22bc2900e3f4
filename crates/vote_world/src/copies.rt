//! An application that has copies in another world.

ghost use Rattle.std.specs.Prelude.{◌≡◌, ◌≢◌, ◌<◌, ◌≤◌, ◌+◌, ◌-◌, ◌^◌, ◌⊎◌, ℕ, List, [], length, drop, true, false, IfOk, OnOk, OnErr};
ghost use Rattle.std.specs.Option.{unwrap_or};
ghost use Rattle.linked_world.specs.Linked.{seen_of, IsTakeable};
ghost use Rattle.linked_world.specs.Still.{Still, Tried};
ghost use Rattle.frame_votes.specs.declared.ballot.Place.TheVariants.{First};
ghost use Rattle.frame_votes.specs.laws.VoteLaws.{Follows, AllFollow};
ghost use Rattle.vote_world.specs.Lives.{life_in, lives_of, Rests, AllStay, Leaves, AppGoes, AppBegins, IsPolled, bytes_in, what_in};
ghost use Rattle.vote_world.specs.World.{Answers};
ghost use Rattle.vote_world.specs.Voting.{copy_number, none_in, two_in, is_enough, IsNothing, Votes, Refilled, Passes, Took};

use crate::copy::{end_copy, give_copy, start_copy};
use crate::polling::{next_vote, piece_of};
use frame_votes::{Ballot, Place};
use linked_world::Linked;
use of_types::{ByteList, TookWhat};
use outside::{Short, World};
use std::alloc::{AllocError, Global};
use std::marker::Model;

/// An application: the number of its first copy in the other world, whether it has three copies or one, what the copies gave
/// and was not voted yet, and the last frame that was voted, with how much of it was taken. Contracts see it as data.
#[derive(Drop)]
pub struct Copies {
    first: u32,
    three: bool,
    ballot: Ballot,
    voted: ByteList,
    taken: usize,
}

impl Model for Copies {
    ghost use Rattle.std.specs.Prelude.{drop};
    ghost use Rattle.vote_world.specs.Voting.{Voting};

    ghost Value = { Voting };

    ghost view = { λ c. record {
      first = c.first;
      three = c.three;
      ballot = c.ballot;
      left = drop c.taken c.voted;
    } };
}

/// Tells whether two of three copies are in.
fn are_two_in(ballot: &Ballot) -> bool
    ensures { result ≡ two_in ballot.now }
{
    let first = ballot.is_in(Place::First);
    let second = ballot.is_in(Place::Second);
    let third = ballot.is_in(Place::Third);
    (first && (second || third)) || (second && third)
}

/// Starts the second copy and the third.
#[tactic(auto, using(linked_world::specs::laws::StillLaws::tried_behind))]
fn start_two<W: World>(
    linked: &mut Linked<W>,
    first: u32,
    ballot: &mut Ballot,
    words: &[String],
) -> Result<bool, Short>
    ensures seen { Tried W.Tells result (seen_of W.seen linked.old) (seen_of W.seen linked.new) }
    ensures fresh { OnOk result (W.Tells → first + 2 ≤ 2 ^ 32 - 1 → Follows [] (life_in (copy_number first First) (W.seen linked.old.links).history) ballot.old.first → AllFollow [] (lives_of first (W.seen linked.new.links).history) ballot.new) }
    ensures leaves { Leaves W.Tells W.seen true first linked.old linked.new }
{
    match start_copy(linked, first, ballot, Place::Second, words) {
        Ok(_) => start_copy(linked, first, ballot, Place::Third, words),
        Err(short) => Err(short),
    }
}

/// Starts the first copy, and the others where there are three.
#[tactic(auto, using(linked_world::specs::laws::StillLaws::tried_behind))]
fn start_all<W: World>(
    linked: &mut Linked<W>,
    first: u32,
    three: bool,
    ballot: &mut Ballot,
    words: &[String],
) -> Result<bool, Short>
    ensures seen { Tried W.Tells result (seen_of W.seen linked.old) (seen_of W.seen linked.new) }
    ensures fresh { three ≡ true → OnOk result (W.Tells → first + 2 ≤ 2 ^ 32 - 1 → AllFollow [] (lives_of first (W.seen linked.new.links).history) ballot.new) }
    ensures leaves { Leaves W.Tells W.seen three first linked.old linked.new }
{
    let started = start_copy(linked, first, ballot, Place::First, words);
    if !three {
        return started;
    }
    match started {
        Ok(_) => start_two(linked, first, ballot, words),
        Err(short) => Err(short),
    }
}

/// Gives bytes to the second copy and the third.
#[tactic(auto, using(linked_world::specs::laws::StillLaws::tried_behind))]
fn give_two<W: World>(
    linked: &mut Linked<W>,
    first: u32,
    ballot: &mut Ballot,
    bytes: &[u8],
) -> Result<(), Short>
    ensures seen { Tried W.Tells result (seen_of W.seen linked.old) (seen_of W.seen linked.new) }
    ensures rests { Rests W.Tells W.seen linked.old linked.new }
    ensures stay { AllStay ballot.old ballot.new }
{
    match give_copy(linked, first, ballot, Place::Second, bytes) {
        Ok(()) => give_copy(linked, first, ballot, Place::Third, bytes),
        Err(short) => Err(short),
    }
}

/// Gives bytes to each copy that is in.
#[tactic(auto, using(linked_world::specs::laws::StillLaws::tried_behind))]
fn give_all<W: World>(
    linked: &mut Linked<W>,
    first: u32,
    ballot: &mut Ballot,
    bytes: &[u8],
) -> Result<(), Short>
    ensures seen { Tried W.Tells result (seen_of W.seen linked.old) (seen_of W.seen linked.new) }
    ensures rests { Rests W.Tells W.seen linked.old linked.new }
    ensures stay { AllStay ballot.old ballot.new }
{
    match give_copy(linked, first, ballot, Place::First, bytes) {
        Ok(()) => give_two(linked, first, ballot, bytes),
        Err(short) => Err(short),
    }
}

/// Ends the copies that are in.
fn end_all<W: World>(linked: &mut Linked<W>, first: u32, ballot: &mut Ballot)
    ensures seen { Still W.Tells (seen_of W.seen linked.old) (seen_of W.seen linked.new) }
    ensures rests { Rests W.Tells W.seen linked.old linked.new }
    ensures ballot { ballot.new ≡ none_in }
{
    end_copy(linked, first, ballot, Place::First);
    end_copy(linked, first, ballot, Place::Second);
    end_copy(linked, first, ballot, Place::Third);
}

/// What stands in bytes from a place on.
fn rest_of(bytes: &[u8], from: usize) -> &[u8]
    ensures { result.now ≡ drop from bytes.now }
{
    &bytes[from.min(bytes.len())..]
}

/// The place that stands so far behind a place in bytes.
#[tactic(auto, using(crate::specs::laws::VotingLaws::left_on))]
fn place_behind(bytes: &[u8], from: usize, len: usize) -> usize
    requires { len ≤ length (drop from bytes.now) }
    ensures { drop result bytes.now ≡ drop len (drop from bytes.now) }
{
    let _size = bytes.len();
    from.saturating_add(len)
}

impl Copies {
    /// An application whose first copy has this number, and of which none was started.
    pub(crate) fn new(alloc: Global, first: u32, three: bool) -> Copies
        ensures { result ≡ record { first = first; three = three; ballot = none_in; left = [] } }
    {
        Copies {
            first,
            three,
            ballot: Ballot::new(alloc),
            voted: ByteList::new(alloc),
            taken: 0,
        }
    }

    /// Tells whether enough copies are in: two of three, or the one.
    pub(crate) fn is_enough(&self) -> bool
        ensures { result ≡ is_enough self.now }
    {
        if self.three {
            are_two_in(&self.ballot)
        } else {
            self.ballot.is_in(Place::First)
        }
    }

    /// Nothing is left to be taken.
    fn clear(&mut self)
        ensures { self.new ≡ record self.old { left = [] } }
    {
        self.taken = self.voted.len();
    }

    /// Ends the copies that are in; nothing is left to be taken.
    #[tactic(auto, using(crate::specs::laws::AppLaws::ends_app))]
    pub(crate) fn end<W: World>(&mut self, linked: &mut Linked<W>)
        ensures seen { Still W.Tells (seen_of W.seen linked.old) (seen_of W.seen linked.new) }
        ensures rests { Rests W.Tells W.seen linked.old linked.new }
        ensures goes { AppGoes W.Tells W.seen [] self.old self.new linked.old linked.new }
        ensures ended { self.new ≡ record self.old { ballot = none_in; left = [] } }
    {
        end_all(linked, self.first, &mut self.ballot);
        self.clear();
    }

    /// Ends the copies unless enough are in, and tells whether they are.
    #[tactic(auto, using(linked_world::specs::laws::StillLaws::still_none))]
    fn end_unless_enough<W: World>(&mut self, linked: &mut Linked<W>) -> bool
        ensures seen { Still W.Tells (seen_of W.seen linked.old) (seen_of W.seen linked.new) }
        ensures rests { Rests W.Tells W.seen linked.old linked.new }
        ensures ended { (self.new ≡ self.old) ⊎ (self.new ≡ record self.old { ballot = none_in; left = [] }) }
        ensures enough { result ≡ is_enough self.new }
    {
        let enough = self.is_enough();
        if !enough {
            self.end(linked);
        }
        enough
    }

    /// Starts the copies, and tells whether enough were started; else those that were are ended.
    #[tactic(auto, using(linked_world::specs::laws::StillLaws::still_twice, linked_world::specs::laws::StillLaws::shorted_still))]
    pub(crate) fn begin<W: World>(
        &mut self,
        linked: &mut Linked<W>,
        words: &[String],
    ) -> Result<bool, Short>
        ensures seen { Tried W.Tells result (seen_of W.seen linked.old) (seen_of W.seen linked.new) }
        ensures begins { AppBegins W.Tells W.seen self.old self.new linked.old linked.new }
        ensures answers { Answers result self.new }
    {
        self.clear();
        match start_all(linked, self.first, self.three, &mut self.ballot, words) {
            Ok(_) => Ok(self.end_unless_enough(linked)),
            Err(short) => {
                self.end(linked);
                Err(short)
            }
        }
    }

    /// Gives bytes to the copies that are in, and tells whether enough are in then. Want of memory ends them.
    #[tactic(auto, using(linked_world::specs::laws::StillLaws::shorted_still))]
    pub(crate) fn give<W: World>(
        &mut self,
        linked: &mut Linked<W>,
        bytes: &[u8],
    ) -> Result<bool, Short>
        ensures seen { Tried W.Tells result (seen_of W.seen linked.old) (seen_of W.seen linked.new) }
        ensures goes { AppGoes W.Tells W.seen [] self.old self.new linked.old linked.new }
        ensures stay { AllStay self.old.ballot self.new.ballot }
        ensures answers { Answers result self.new }
    {
        match give_all(linked, self.first, &mut self.ballot, bytes) {
            Ok(()) => Ok(self.is_enough()),
            Err(short) => {
                self.end(linked);
                Err(short)
            }
        }
    }

    /// There is this to be taken.
    fn hold(&mut self, alloc: Global, frame: Option<ByteList>)
        ensures { self.new ≡ record self.old { left = unwrap_or frame [] } }
    {
        self.voted = frame.unwrap_or(ByteList::new(alloc));
        self.taken = 0;
    }

    /// Takes a piece from the one copy; what is answered where there is none.
    fn refill_one<W: World>(
        &mut self,
        alloc: Global,
        linked: &mut Linked<W>,
        buf: &mut [u8],
    ) -> Result<TookWhat, Short>
        requires { 0 < length buf.old }
        ensures seen { Tried W.Tells result (seen_of W.seen linked.old) (seen_of W.seen linked.new) }
        ensures leaves { Leaves W.Tells W.seen false self.old.first linked.old linked.new }
        ensures first { self.new.first ≡ self.old.first }
        ensures three { self.new.three ≡ self.old.three }
        ensures ballot { self.new.ballot ≡ self.old.ballot }
        ensures nothing { IfOk result (λ what. IsNothing what) }
    {
        match piece_of(alloc, linked, self.first, buf) {
            Ok(TookWhat::Bytes(bytes)) => {
                self.hold(alloc, Some(bytes));
                Ok(TookWhat::Closed)
            }
            Ok(TookWhat::Closed) => Ok(TookWhat::Closed),
            Ok(TookWhat::Silent) => Ok(TookWhat::Silent),
            Err(short) => Err(short),
        }
    }

    /// Lets the three copies vote. Where they vote no frame, the end is closed.
    #[tactic(auto, using(crate::specs::laws::VotingLaws::votes_by))]
    fn refill_three<W: World>(
        &mut self,
        alloc: Global,
        linked: &mut Linked<W>,
        buf: &mut [u8],
    ) -> Result<(), Short>
        requires { 0 < length buf.old }
        ensures seen { Tried W.Tells result (seen_of W.seen linked.old) (seen_of W.seen linked.new) }
        ensures three { self.new.three ≡ self.old.three }
        ensures goes { self.old.three ≡ true → self.old.left ≡ [] → AppGoes W.Tells W.seen [] self.old self.new linked.old linked.new }
        ensures polls { self.old.left ≡ [] → OnOk result (IsPolled W.Tells W.seen [] self.old self.new linked.old linked.new) }
        ensures votes { OnOk result (Votes self.old self.new) }
    {
        match next_vote(linked, self.first, &mut self.ballot, buf) {
            Ok(frame) => {
                self.hold(alloc, frame);
                Ok(())
            }
            Err(short) => Err(short),
        }
    }

    /// Lends what is left to be taken.
    fn left(&self) -> &[u8]
        ensures { result.now ≡ self.now.left }
    {
        rest_of(self.voted.as_slice(), self.taken)
    }

    /// Tells whether something is left to be taken.
    fn has_left(&self) -> bool
        ensures some { result ≡ true → self.now.left ≢ [] }
        ensures none { result ≡ false → self.now.left ≡ [] }
    {
        !self.left().is_empty()
    }

    /// Lets the copies give more, if nothing is left to be taken; what is answered where there is nothing.
    #[tactic(auto, using(linked_world::specs::laws::StillLaws::still_none, crate::specs::laws::VotingLaws::refilled_none, crate::specs::laws::VotingLaws::refilled_one, crate::specs::laws::VotingLaws::refilled_three))]
    fn refill<W: World>(
        &mut self,
        alloc: Global,
        linked: &mut Linked<W>,
        buf: &mut [u8],
    ) -> Result<TookWhat, Short>
        requires { 0 < length buf.old }
        ensures seen { Tried W.Tells result (seen_of W.seen linked.old) (seen_of W.seen linked.new) }
        ensures goes { AppGoes W.Tells W.seen [] self.old self.new linked.old linked.new }
        ensures polls { OnOk result (IsPolled W.Tells W.seen [] self.old self.new linked.old linked.new) }
        ensures refilled { OnOk result (Refilled self.old self.new) }
        ensures nothing { IfOk result (λ what. IsNothing what) }
        ensures three { self.old.three ≡ true → IfOk result (λ what. what ≡ TookWhat.Closed) }
    {
        if self.has_left() {
            return Ok(TookWhat::Closed);
        }
        if !self.three {
            return self.refill_one(alloc, linked, buf);
        }
        match self.refill_three(alloc, linked, buf) {
            Ok(()) => Ok(TookWhat::Closed),
            Err(short) => Err(short),
        }
    }

    /// So much of what is left is taken.
    fn pass(&mut self, len: usize)
        requires { len ≤ length self.old.left }
        ensures { self.new ≡ record self.old { left = drop len self.old.left } }
    {
        self.taken = place_behind(self.voted.as_slice(), self.taken, len);
    }

    /// Takes the front of what is left, into so much room; where nothing is left, this is answered.
    #[tactic(auto, using(crate::specs::laws::VotingLaws::cut_at))]
    fn next(
        &mut self,
        alloc: Global,
        room: usize,
        nothing: TookWhat,
    ) -> Result<TookWhat, AllocError>
        requires room { 0 < room }
        requires nothing { IsNothing nothing }
        ensures passes { IfOk result (λ what. Passes self.old self.new what) }
        ensures err { OnErr result (self.new ≡ self.old) }
        ensures takeable { IfOk result (λ what. IsTakeable what room) }
        ensures three { nothing ≡ TookWhat.Closed → IfOk result (λ what. what ≢ TookWhat.Silent) }
    {
        if !self.has_left() {
            return Ok(nothing);
        }
        let left = self.left();
        let len = left.len().min(room);
        let bytes = ByteList::from_slice(alloc, &left[..len])?;
        self.pass(len);
        Ok(TookWhat::Bytes(bytes))
    }

    /// Takes the front of what is left, or counts want of memory.
    #[tactic(auto, using(linked_world::specs::laws::StillLaws::still_none))]
    fn next_of<W: World>(
        &mut self,
        alloc: Global,
        linked: &mut Linked<W>,
        room: usize,
        nothing: TookWhat,
    ) -> Result<TookWhat, Short>
        requires room { 0 < room }
        requires nothing { IsNothing nothing }
        ensures seen { Tried W.Tells result (seen_of W.seen linked.old) (seen_of W.seen linked.new) }
        ensures rests { Rests W.Tells W.seen linked.old linked.new }
        ensures err { OnErr result (self.new ≡ self.old) }
        ensures passes { IfOk result (λ what. Passes self.old self.new what) }
        ensures takeable { IfOk result (λ what. IsTakeable what room) }
        ensures three { nothing ≡ TookWhat.Closed → IfOk result (λ what. what ≢ TookWhat.Silent) }
    {
        match self.next(alloc, room, nothing) {
            Ok(what) => Ok(what),
            Err(_) => Err(linked.want_memory()),
        }
    }

    /// Takes what is left of the last vote, or of the next one, into so much room as the buffer has.
    #[tactic(auto, using(linked_world::specs::laws::StillLaws::tried_behind, crate::specs::laws::VotingLaws::took_by))]
    pub(crate) fn take<W: World>(
        &mut self,
        alloc: Global,
        linked: &mut Linked<W>,
        buf: &mut [u8],
    ) -> Result<TookWhat, Short>
        requires { 0 < length buf.old }
        ensures seen { Tried W.Tells result (seen_of W.seen linked.old) (seen_of W.seen linked.new) }
        ensures goes { AppGoes W.Tells W.seen (what_in result) self.old self.new linked.old linked.new }
        ensures polls { IfOk result (λ what. IsPolled W.Tells W.seen (bytes_in what) self.old self.new linked.old linked.new) }
        ensures took { IfOk result (λ what. Took self.old self.new what) }
        ensures takeable { IfOk result (λ what. IsTakeable what (length buf.new)) }
    {
        match self.refill(alloc, linked, buf) {
            Ok(nothing) => self.next_of(alloc, linked, buf.len(), nothing),
            Err(short) => Err(short),
        }
    }
}
