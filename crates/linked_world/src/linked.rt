//! A world whose switches are those of another world.

ghost use Rattle.std.specs.Prelude.{◌≡◌, ◌<◌, ◌≤◌, ◌&&◌, [], ◌∷◌, ◌++◌, ℕ, List, true, false, not, length, Some, Ok, Err, IsOk, IfOk, IsErrOf, slice_get};
ghost use Rattle.of_types.specs.Membership.{is_among};
ghost use Rattle.of_wire.specs.Reading.{reading_of};
ghost use Rattle.outside.specs.declared.step.WorldStep.TheVariants.{TookInto};
ghost use Rattle.outside.specs.InOrder.{InOrder, BringMessages};
ghost use Rattle.outside.specs.Conforming.{Conforming};
ghost use Rattle.outside.specs.Calls.{most_message, Opens, Nexts, Starts, Gives, Takes, Ends, Sends, Receives, take_steps};
ghost use Rattle.outside.specs.State.{state, is_running};
ghost use Rattle.linked_world.specs.Still.{Still, Shorted, Tried, give_answer};
ghost use Rattle.linked_world.specs.laws.ThereLaws.{Restarts};
ghost use Rattle.linked_world.specs.Linked.{seen_of, running_after, running_without, IsTakeable, in_place};

use crate::counts::CallCounts;
use crate::parts::{Parts, none_inside};
use http_server::Log;
use of_types::{Dpid, TookWhat};
use outside::{GiveFault, Item, LinkFault, NextFault, OpenFault, Short, StartFault, Taken, World};
use std::alloc::{AllocError, Global};
use std::marker::Model;

/// A world whose switches are those of another world, and whose applications are the caller's own. Contracts see it as
/// data (`Linkage`), and what is seen of it by `seen_of`.
#[derive(Drop)]
pub struct Linked<W: World> {
    parts: Parts<W>,
}

impl<W: World> Model for Linked<W> {
    ghost use Rattle.linked_world.specs.Linked.{Linkage, IsLinkage};

    ghost Value = { Linkage W };

    ghost view = { λ l. l.parts };

    ghost invariant = { λ l. IsLinkage W.Tells W.seen l.parts };
}

impl<W: World> Linked<W> {
    /// Takes the switches of this world; no application was started. Takes no memory.
    pub fn new(alloc: Global, links: W) -> Linked<W>
        ensures links { result.links ≡ links }
        ensures notes { result.notes ≡ [] }
        ensures running { result.running ≡ [] }
    {
        Linked {
            parts: Parts {
                alloc,
                links,
                notes: Log::new(),
                running: Vec::new(alloc),
                counts: CallCounts::new(),
                inside: Vec::new(alloc),
            },
        }
    }

    /// Takes the switches of this world, and room for so many of its applications; no application was started.
    pub fn with_inside(alloc: Global, links: W, number: u32) -> Result<Linked<W>, AllocError>
    where
        W: Drop,
        ensures links { IfOk result (λ l. l.links ≡ links) }
        ensures notes { IfOk result (λ l. l.notes ≡ []) }
        ensures running { IfOk result (λ l. l.running ≡ []) }
    {
        let inside = none_inside(alloc, number)?;
        Ok(Linked {
            parts: Parts {
                alloc,
                links,
                notes: Log::new(),
                running: Vec::new(alloc),
                counts: CallCounts::new(),
                inside,
            },
        })
    }

    /// Lends the other world.
    pub fn links(&self) -> &W
        ensures { result.now ≡ self.now.links }
    {
        &self.parts.links
    }

    /// Finds that the world keeps its word as the other one does: with switches that tell in order it tells in order, and
    /// where all that they sent is messages, it keeps its word.
    pub fn keeps_word(&self)
        ensures order { W.Tells → InOrder (W.seen self.now.links) → InOrder (seen_of W.seen self.now) }
        ensures word { W.Tells → InOrder (W.seen self.now.links) → BringMessages (W.seen self.now.links).history → Conforming (seen_of W.seen self.now) }
    {
        let _parts = &self.parts;
    }

    /// Opens the other world.
    pub fn open(&mut self, port: u16) -> Result<(), OpenFault>
        ensures seen { Opens W.Tells (seen_of W.seen self.old) (seen_of W.seen self.new) result }
        ensures call { Opens W.Tells (W.seen self.old.links) (W.seen self.new.links) result }
        ensures running { self.new.running ≡ self.old.running }
    {
        self.parts.open(port)
    }

    /// Tells what comes next in the other world.
    pub fn next(&mut self, buf: &mut [u8]) -> Result<Item, NextFault>
        requires { most_message ≤ length buf.old }
        ensures seen { Nexts W.Tells (seen_of W.seen self.old) (seen_of W.seen self.new) result buf.new }
        ensures call { Nexts W.Tells (W.seen self.old.links) (W.seen self.new.links) result buf.new }
        ensures running { self.new.running ≡ self.old.running }
    {
        self.parts.next(buf)
    }

    /// Sends one message to a switch of the other world.
    pub fn send(&mut self, dpid: Dpid, frame: &[u8]) -> Result<(), LinkFault>
        requires { IsOk (reading_of frame.now) }
        ensures seen { Sends W.Tells dpid frame.now (seen_of W.seen self.old) (seen_of W.seen self.new) result }
        ensures call { Sends W.Tells dpid frame.now (W.seen self.old.links) (W.seen self.new.links) result }
        ensures running { self.new.running ≡ self.old.running }
    {
        self.parts.send(dpid, frame)
    }

    /// Takes one message from a switch of the other world.
    pub fn recv(&mut self, dpid: Dpid, buf: &mut [u8]) -> Result<usize, LinkFault>
        requires { most_message ≤ length buf.old }
        ensures seen { Receives W.Tells dpid (seen_of W.seen self.old) (seen_of W.seen self.new) result buf.new }
        ensures call { Receives W.Tells dpid (W.seen self.old.links) (W.seen self.new.links) result buf.new }
        ensures running { self.new.running ≡ self.old.running }
    {
        self.parts.recv(dpid, buf)
    }

    /// Tells whether the application was started and not ended.
    pub fn runs(&self, app: u32) -> bool
        ensures list { result ≡ is_among app self.now.running }
        ensures seen { W.Tells → is_running app (state (seen_of W.seen self.now)) ≡ result }
    {
        self.parts.runs(app)
    }

    /// Counts want of memory in a call of an application.
    pub fn want_memory(&mut self) -> Short
        ensures seen { Shorted W.Tells (seen_of W.seen self.old) (seen_of W.seen self.new) }
        ensures links { self.new.links ≡ self.old.links }
        ensures running { self.new.running ≡ self.old.running }
    {
        self.parts.want_memory(false);
        Short
    }

    /// Tells whether an application of the other world was started from here and not ended.
    pub fn runs_there(&self, app: u32) -> bool
        ensures { result ≡ true → slice_get self.now.inside app ≡ Some true }
    {
        self.parts.runs_there(app)
    }

    /// Tells whether an application of the other world may be started from here.
    pub fn has_place(&self, app: u32) -> bool
        ensures { result ≡ true → app < length self.now.inside }
    {
        self.parts.has_place(app)
    }

    /// Starts an application of the other world, and tells whether it was started; one that runs is ended before. Nothing is
    /// seen of it here.
    pub fn start_there(&mut self, app: u32, words: &[String]) -> Result<bool, Short>
        requires { app < length self.old.inside }
        ensures seen { Tried W.Tells result (seen_of W.seen self.old) (seen_of W.seen self.new) }
        ensures call { Restarts W.Tells app (W.seen self.old.links) (W.seen self.new.links) result }
        ensures running { self.new.running ≡ self.old.running }
    {
        self.parts.start_there(app, words)
    }

    /// Gives bytes to an application of the other world, and tells whether it was given them. Nothing is seen of it here.
    pub fn give_there(&mut self, app: u32, bytes: &[u8]) -> Result<bool, Short>
        requires { slice_get self.old.inside app ≡ Some true }
        ensures seen { Tried W.Tells result (seen_of W.seen self.old) (seen_of W.seen self.new) }
        ensures call { Gives W.Tells app bytes.now (W.seen self.old.links) (W.seen self.new.links) (give_answer result) }
        ensures running { self.new.running ≡ self.old.running }
    {
        self.parts.give_there(app, bytes)
    }

    /// Takes bytes from an application of the other world into the front of the buffer. Nothing is seen of it here.
    pub fn take_there(&mut self, app: u32, buf: &mut [u8]) -> Result<Taken, Short>
        requires runs { slice_get self.old.inside app ≡ Some true }
        requires room { 0 < length buf.old }
        ensures seen { Tried W.Tells result (seen_of W.seen self.old) (seen_of W.seen self.new) }
        ensures call { Takes W.Tells app (W.seen self.old.links) (W.seen self.new.links) result buf.new }
        ensures running { self.new.running ≡ self.old.running }
    {
        self.parts.take_there(app, buf)
    }

    /// Ends an application of the other world, if it runs. Nothing is seen of it here.
    pub fn end_there(&mut self, app: u32)
        ensures seen { Still W.Tells (seen_of W.seen self.old) (seen_of W.seen self.new) }
        ensures call { Ends W.Tells app (W.seen self.old.links) (W.seen self.new.links) }
        ensures running { self.new.running ≡ self.old.running }
    {
        self.parts.end_there(app);
    }

    /// Starts an application, if it is ready and does not run.
    pub fn start(&mut self, app: u32, ready: bool) -> Result<(), StartFault>
        ensures seen { Starts W.Tells app (seen_of W.seen self.old) (seen_of W.seen self.new) result }
        ensures running { self.new.running ≡ running_after app result self.old.running }
        ensures links { self.new.links ≡ self.old.links }
        ensures ok { IsOk result → (ready && not (is_among app self.old.running)) ≡ true }
        ensures refused { IsErrOf result StartFault.NotStarted → (ready && not (is_among app self.old.running)) ≡ false }
    {
        self.parts.start(app, ready)
    }

    /// Notes that an application is given bytes, if it runs and takes them.
    pub fn give(&mut self, app: u32, bytes: &[u8], takes: bool) -> Result<(), GiveFault>
        ensures seen { Gives W.Tells app bytes.now (seen_of W.seen self.old) (seen_of W.seen self.new) result }
        ensures running { self.new.running ≡ self.old.running }
        ensures links { self.new.links ≡ self.old.links }
        ensures ok { IsOk result → (takes && is_among app self.old.running) ≡ true }
        ensures gone { IsErrOf result GiveFault.Gone → (takes && is_among app self.old.running) ≡ false }
    {
        self.parts.give(app, bytes, takes)
    }

    /// Notes that this was taken from an application, and puts the bytes into the front of the buffer. An application that
    /// does not run has closed its end.
    pub fn take(&mut self, app: u32, what: TookWhat, buf: &mut [u8]) -> Taken
        requires { IsTakeable what (length buf.old) }
        ensures seen { Takes W.Tells app (seen_of W.seen self.old) (seen_of W.seen self.new) (Ok result) buf.new }
        ensures running { self.new.running ≡ self.old.running }
        ensures links { self.new.links ≡ self.old.links }
        ensures what { take_steps app (Ok result) buf.new ≡ TookInto app (in_place (is_among app self.old.running) what) (length buf.new) ∷ [] }
    {
        self.parts.take(app, what, buf)
    }

    /// Counts that a take wants memory.
    pub fn take_short(&mut self, app: u32) -> Short
        ensures seen { (buf : List ℕ) → Takes W.Tells app (seen_of W.seen self.old) (seen_of W.seen self.new) (Err result) buf }
        ensures running { self.new.running ≡ self.old.running }
        ensures links { self.new.links ≡ self.old.links }
    {
        self.parts.take_short(app)
    }

    /// Ends an application, if it runs.
    pub fn end(&mut self, app: u32)
        ensures seen { Ends W.Tells app (seen_of W.seen self.old) (seen_of W.seen self.new) }
        ensures running { self.new.running ≡ running_without app self.old.running }
        ensures links { self.new.links ≡ self.old.links }
    {
        self.parts.end(app);
    }
}
