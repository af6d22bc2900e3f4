//! The vote of three copies.

ghost use Rattle.std.specs.Prelude.{◌≡◌, ◌++◌, [], IfOk, OnOk, OnErr, true, false, Option};
ghost use Rattle.frame_votes.specs.Votes.{awaits, agreed, of_two, voted, after_vote, out, copy_at, with_copy};

use crate::given::Given;
use of_types::ByteList;
use std::alloc::{AllocError, Global};
use std::marker::Model;

/// Which of the three copies.
#[derive(Clone, Copy, Debug, PartialEq, Eq)]
pub enum Place {
    First,
    Second,
    Third,
}

/// What three copies of an application gave in a life and was not voted yet. Contracts see it copy by copy.
#[derive(Drop)]
pub struct Ballot {
    alloc: Global,
    first: Given,
    second: Given,
    third: Given,
}

impl Model for Ballot {
    ghost use Rattle.frame_votes.specs.Votes.{Polled};

    ghost Value = { Polled };

    ghost view = { λ b. record { first = b.first; second = b.second; third = b.third } };
}

/// The frame of both, if they are the same.
fn agreed(
    alloc: Global,
    one: &Option<ByteList>,
    other: &Option<ByteList>,
) -> Result<Option<ByteList>, AllocError>
    ensures { IfOk result (λ frame. frame ≡ agreed one.now other.now) }
{
    match (one, other) {
        (Some(one), Some(other)) => {
            if one == other {
                Ok(Some(ByteList::from_slice(alloc, one.as_slice())?))
            } else {
                Ok(None)
            }
        }
        _ => Ok(None),
    }
}

/// The frame that two of three have.
fn of_two(
    alloc: Global,
    one: &Option<ByteList>,
    two: &Option<ByteList>,
    three: &Option<ByteList>,
) -> Result<Option<ByteList>, AllocError>
    ensures { IfOk result (λ frame. frame ≡ of_two one.now two.now three.now) }
{
    if let Some(frame) = agreed(alloc, one, two)? {
        return Ok(Some(frame));
    }
    if let Some(frame) = agreed(alloc, one, three)? {
        return Ok(Some(frame));
    }
    agreed(alloc, two, three)
}

impl Ballot {
    /// Three copies that are out.
    pub fn new(alloc: Global) -> Ballot
        ensures { result ≡ record { first = out; second = out; third = out } }
    {
        Ballot {
            alloc,
            first: Given::new(alloc),
            second: Given::new(alloc),
            third: Given::new(alloc),
        }
    }

    /// Tells whether the copy is in.
    pub fn is_in(&self, place: Place) -> bool
        ensures { result ≡ (copy_at place self.now).is_in }
    {
        match place {
            Place::First => self.first.is_in(),
            Place::Second => self.second.is_in(),
            Place::Third => self.third.is_in(),
        }
    }

    /// Tells whether the copy is in and more of its next frame may come: that is neither whole nor refused so far.
    pub fn awaits(&self, place: Place) -> Result<bool, AllocError>
        ensures { IfOk result (λ awaited. awaited ≡ awaits (copy_at place self.now)) }
    {
        match place {
            Place::First => self.first.awaits(self.alloc),
            Place::Second => self.second.awaits(self.alloc),
            Place::Third => self.third.awaits(self.alloc),
        }
    }

    /// Begins a life of the copy: it is in, and gave nothing yet.
    pub fn begin(&mut self, place: Place)
        ensures { self.new ≡ with_copy place (record { is_in = true; held = [] }) self.old }
    {
        match place {
            Place::First => self.first.begin(),
            Place::Second => self.second.begin(),
            Place::Third => self.third.begin(),
        }
    }

    /// Ends the life of the copy: it is out.
    pub fn end(&mut self, place: Place)
        ensures { self.new ≡ with_copy place out self.old }
    {
        match place {
            Place::First => self.first.end(),
            Place::Second => self.second.end(),
            Place::Third => self.third.end(),
        }
    }

    /// Holds bytes that the copy gave. Want of memory changes nothing.
    pub fn hold(&mut self, place: Place, bytes: &[u8]) -> Result<(), AllocError>
        ensures ok { OnOk result (self.new ≡ with_copy place (record { is_in = (copy_at place self.old).is_in; held = (copy_at place self.old).held ++ bytes.now }) self.old) }
        ensures err { OnErr result (self.new ≡ self.old) }
    {
        match place {
            Place::First => self.first.hold(bytes),
            Place::Second => self.second.hold(bytes),
            Place::Third => self.third.hold(bytes),
        }
    }

    /// Takes the frame that two copies gave whole, and puts each copy out that did not give it; where no two gave the same, all. Want of
    /// memory changes nothing.
    pub fn vote(&mut self) -> Result<Option<ByteList>, AllocError>
        ensures frame { IfOk result (λ frame. frame ≡ voted self.old) }
        ensures copies { OnOk result (self.new ≡ after_vote self.old) }
        ensures err { OnErr result (self.new ≡ self.old) }
    {
        let alloc = self.alloc;
        let first = self.first.front(alloc)?;
        let second = self.second.front(alloc)?;
        let third = self.third.front(alloc)?;
        let frame = of_two(alloc, &first, &second, &third)?;
        let first = agreed(alloc, &frame, &first)?;
        let second = agreed(alloc, &frame, &second)?;
        let third = agreed(alloc, &frame, &third)?;
        self.first.settle(&first);
        self.second.settle(&second);
        self.third.settle(&third);
        Ok(frame)
    }
}
