//! The life of an application that is an object.

ghost use Rattle.std.specs.Prelude.{◌≡◌, ◌≢◌, ◌<◌, ◌∷◌, ◌++◌, [], Option, None, Some, IfOk, is_some, drop, length, true, false};
ghost use Rattle.lego_io.specs.Count.{raised};
ghost use Rattle.linked_world.specs.Linked.{IsTakeable};
ghost use Rattle.boxed_world.specs.Lives.{is_restore, Begins, Goes, Fed, next_given, next_taken, held_after, object_after, is_death, dies_at};
ghost use Rattle.app_objects.specs.Machine.{Reacts, Restored, SameWould};

use app_objects::{AppObject, Step};
use bytes::BytesMut;
use of_types::{ByteList, TookWhat, get_u8};
use std::alloc::{AllocError, Global};

/// The kind of the frame Restore.
const RESTORE: u8 = 1;

/// The bytes of a frame before its body: the length and the kind.
const HEAD_BYTES: usize = 5;

/// The frame Ready.
const READY: [u8; 5] = [0, 0, 0, 1, 6];

/// A take from an application that finds its end closed: the one of this number, counted from 1 over the whole run.
#[derive(Clone, Copy, Debug, PartialEq, Eq)]
pub struct Death {
    pub app: u32,
    pub number: u64,
}

/// An application: the objects for its next starts, the last of them first; the one that lives; what it gave and was not
/// taken yet; and how often was taken from it.
#[derive(Drop)]
pub struct Life {
    pub(crate) spares: Vec<Box<dyn AppObject>>,
    pub(crate) object: Option<Box<dyn AppObject>>,
    pub(crate) held: BytesMut,
    pub(crate) takes: u64,
}

/// Whether the frame is a Restore.
#[tactic(auto, unfolding(crate::specs::Lives::is_restore))]
fn is_restore(frame: &[u8]) -> bool
    ensures { result ≡ is_restore frame.now }
{
    HEAD_BYTES <= frame.len() && get_u8(frame, 4) == RESTORE
}

/// Gives a frame to an object; `out` is empty, and is what it gives for it. Tells whether it lives on.
fn react(
    object: &mut Box<dyn AppObject>,
    frame: &[u8],
    out: &mut Vec<u8>,
) -> Result<Step, AllocError>
    ensures same { SameWould (would object.old) (would object.new) }
    ensures reacts { IfOk result (λ step. Reacts frame.now step (gives object.old) (gives object.new) out.old.items out.new.items) }
{
    object.react(frame, out)
}

/// Restores an object to a checkpoint. Tells whether it lives on.
fn restore(object: &mut Box<dyn AppObject>, checkpoint: &[u8]) -> bool
    ensures same { SameWould (would object.old) (would object.new) }
    ensures restored { result ≡ true → Restored checkpoint.now (would object.old) (gives object.new) }
{
    object.restore(checkpoint).is_ok()
}

/// The checkpoint of a Restore.
#[tactic(auto, unfolding(crate::specs::Lives::is_restore))]
fn checkpoint_in(frame: &[u8]) -> &[u8]
    requires { is_restore frame.now ≡ true }
    ensures { result.now ≡ drop 5 frame.now }
{
    &frame[HEAD_BYTES..]
}

/// Restores an object, which answers Ready at the end of `out`. Tells whether it lives on.
fn resume(object: &mut Box<dyn AppObject>, frame: &[u8], out: &mut Vec<u8>) -> bool
    requires { is_restore frame.now ≡ true }
    ensures { result ≡ true → Goes (λ o. gives o) (λ o. would o) frame.now object.old object.new out.old.items out.new.items }
{
    restore(object, checkpoint_in(frame)) && out.extend_from_slice(&READY).is_ok()
}

/// Gives a frame of the host to an object, which puts what it gives for it at the end of `out`. Tells whether it lives
/// on.
fn goes(object: &mut Box<dyn AppObject>, frame: &[u8], out: &mut Vec<u8>) -> bool
    ensures { result ≡ true → Goes (λ o. gives o) (λ o. would o) frame.now object.old object.new out.old.items out.new.items }
{
    if is_restore(frame) {
        resume(object, frame, out)
    } else {
        matches!(react(object, frame, out), Ok(Step::Alive))
    }
}

impl Life {
    /// An application that was not started; its starts take these objects, the last of them first.
    pub fn new(alloc: Global, spares: Vec<Box<dyn AppObject>>) -> Result<Life, AllocError>
        ensures spares { IfOk result (λ life. life.spares ≡ spares) }
        ensures object { IfOk result (λ life. life.object ≡ None) }
    {
        Ok(Life {
            spares,
            object: None,
            held: BytesMut::new(alloc),
            takes: 0,
        })
    }

    /// Tells whether the application lives.
    pub fn is_alive(&self) -> bool
        ensures { result ≡ is_some self.now.object }
    {
        self.object.is_some()
    }

    /// Tells how often was taken from it.
    pub(crate) fn takes(&self) -> u64
        ensures { result ≡ self.now.takes }
    {
        self.takes
    }

    /// Tells whether a spare is left.
    pub fn has_spare(&self) -> bool
        ensures some { result ≡ true → self.now.spares.items ≢ [] }
        ensures none { result ≡ false → self.now.spares.items ≡ [] }
    {
        !self.spares.is_empty()
    }

    /// Takes this object as the application.
    fn take_up(&mut self, next: Box<dyn AppObject>)
        ensures spares { self.new.spares ≡ self.old.spares }
        ensures object { self.new.object ≡ Some next }
        ensures held { self.new.held.items ≡ [] }
        ensures takes { self.new.takes ≡ self.old.takes }
    {
        self.object = Some(next);
        self.held.clear();
    }

    /// Takes the next spare as the application.
    pub(crate) fn begin(&mut self)
        requires { self.old.spares.items ≢ [] }
        ensures begins { Begins self.old.spares.items self.new.spares.items self.new.object self.new.held.items }
        ensures takes { self.new.takes ≡ self.old.takes }
    {
        let Some(next) = self.spares.pop() else {
            return;
        };
        self.take_up(next);
    }

    /// Gives a frame of the host to the object, if it lives. Where it dies, or memory runs out, it gives nothing for it.
    pub(crate) fn feed(&mut self, alloc: Global, frame: &[u8])
        ensures fed { Fed (λ o. gives o) (λ o. would o) frame.now self.old.object self.new.object self.old.held.items self.new.held.items }
        ensures spares { self.new.spares ≡ self.old.spares }
        ensures takes { self.new.takes ≡ self.old.takes }
    {
        let mut out = Vec::new(alloc);
        let lives = match &mut self.object {
            None => false,
            Some(object) => goes(object, frame, &mut out),
        };
        if !lives || self.held.extend_from_slice(&out).is_err() {
            self.object = None;
        }
    }

    /// Tells what the next take gives into so much room; a death finds the end closed.
    pub(crate) fn next(
        &self,
        alloc: Global,
        death: bool,
        room: usize,
    ) -> Result<TookWhat, AllocError>
        requires { 0 < room }
        ensures what { IfOk result (λ what. what ≡ next_taken death (is_some self.now.object) room self.now.held.items) }
        ensures takeable { IfOk result (λ what. IsTakeable what room) }
    {
        if death {
            return Ok(TookWhat::Closed);
        }
        let held = self.held.as_slice();
        if held.is_empty() {
            return Ok(if self.is_alive() {
                TookWhat::Silent
            } else {
                TookWhat::Closed
            });
        }
        let len = held.len().min(room);
        Ok(TookWhat::Bytes(ByteList::from_slice(alloc, &held[..len])?))
    }

    /// Goes on behind a take into so much room; a death ends the life.
    pub(crate) fn took(&mut self, death: bool, room: usize)
        ensures object { self.new.object ≡ object_after death self.old.object }
        ensures held { self.new.held.items ≡ held_after death room self.old.held.items }
        ensures spares { self.new.spares ≡ self.old.spares }
        ensures takes { self.new.takes ≡ raised self.old.takes }
    {
        self.takes = self.takes.saturating_add(1);
        if death {
            self.end();
        } else {
            self.held.advance(self.held.len().min(room));
        }
    }

    /// Ends the life.
    pub(crate) fn end(&mut self)
        ensures spares { self.new.spares ≡ self.old.spares }
        ensures object { self.new.object ≡ None }
        ensures held { self.new.held.items ≡ [] }
        ensures takes { self.new.takes ≡ self.old.takes }
    {
        self.object = None;
        self.held.clear();
    }
}
