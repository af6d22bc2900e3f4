//! A world that is recorded.

ghost use Rattle.std.specs.Prelude.{◌≡◌, ◌<◌, ◌≤◌, [], length, false, Some, None, IfOk, OnOk, IsOk, map, string_bytes};
ghost use Rattle.of_wire.specs.Reading.{reading_of};
ghost use Rattle.lego_model.specs.Journal.{is_event as event_is};
ghost use Rattle.outside.specs.Parting.{GivesMessage};
ghost use Rattle.outside.specs.Calls.{most_message, Starts, Gives, Takes, Sends, Receives, PartsWith};
ghost use Rattle.session_record.specs.Deeds.{Notes};
ghost use Rattle.session_record.specs.Calls.{start_deeds, give_deeds, take_deeds, NotesLink, NotesParting};
ghost use Rattle.session_record.specs.Texts.{IsText};
ghost use Rattle.outside.specs.Seen.{Shown};
ghost use Rattle.session_record.specs.Remarks.{AreRemarks};

use crate::deed::DeedKind;
use crate::links::LinkCalls;
use crate::log::Log;
use crate::pieces::front;
use crate::remarks::{Messages, remarks_of};
use crate::whole_text::whole_text;
use of_types::{ByteList, Dpid, WorldStim};
use outside::{
    Decl, GiveFault, Item, LinkFault, NextFault, OpenFault, Short, StartFault, Taken, Told, World,
};
use std::alloc::{AllocError, Global};

/// A world that passes each call on to another one, and keeps what it takes to do the run again. Where its own memory for that is
/// refused, it keeps no more, and passes each call on all the same.
#[derive(Drop)]
pub struct Recorder<W> {
    world: W,
    alloc: Global,
    log: Log,
    links: LinkCalls,
    messages: Messages,
}

/// Tells whether a frame to an application is an Event.
fn is_event(frame: &[u8]) -> bool
    ensures { result ≡ event_is frame.now }
{
    frame.len() > 4 && frame[4] == 2
}

/// Keeps that the application was to start.
#[tactic(auto, unfolding(crate::specs::Calls::start_deeds), using(crate::specs::laws::NoteLaws::notes_twice, crate::specs::laws::NoteLaws::notes_nothing))]
fn note_start(log: &mut Log, app: u32, answer: Result<(), StartFault>)
    ensures { Notes (start_deeds app answer) log.old log.new }
{
    match answer {
        Ok(()) => log.note(app, DeedKind::Started, &[]),
        Err(StartFault::NotStarted) => {
            log.note(app, DeedKind::Started, &[]);
            log.note(app, DeedKind::Refused, &[]);
        }
        Err(StartFault::Short) => {}
    }
}

/// Keeps that the application was to be given a frame.
#[tactic(auto, unfolding(crate::specs::Calls::give_deeds), using(crate::specs::laws::NoteLaws::notes_twice, crate::specs::laws::NoteLaws::notes_nothing))]
fn note_give(log: &mut Log, app: u32, frame: &[u8], answer: Result<(), GiveFault>)
    ensures { Notes (give_deeds app frame.now answer) log.old log.new }
{
    match (is_event(frame), answer) {
        (true, Ok(())) => log.note(app, DeedKind::Event, &[]),
        (false, Ok(())) => log.note(app, DeedKind::Given, &[]),
        (true, Err(GiveFault::Gone)) => {
            log.note(app, DeedKind::Event, &[]);
            log.note(app, DeedKind::Unasked, &[]);
        }
        (false, Err(GiveFault::Gone)) => log.note(app, DeedKind::Gone, &[]),
        (_, Err(GiveFault::Short)) => {}
    }
}

/// Keeps what was taken from the application.
#[tactic(auto, unfolding(crate::specs::Calls::take_deeds), using(crate::specs::laws::NoteLaws::notes_nothing))]
fn note_take(log: &mut Log, app: u32, answer: Result<Taken, Short>, buf: &[u8])
    ensures { Notes (take_deeds app answer buf.now) log.old log.new }
{
    match answer {
        Ok(Taken::Some(count)) => log.note(app, DeedKind::Piece, front(buf, count)),
        Ok(Taken::Closed) => log.note(app, DeedKind::Closed, &[]),
        Ok(Taken::Silent) => log.note(app, DeedKind::Silent, &[]),
        Err(Short) => {}
    }
}

/// Keeps that there was a call on the link of the switch.
#[tactic(auto, unfolding(crate::specs::Calls::NotesLink))]
fn note_link<T>(links: &mut LinkCalls, dpid: Dpid, answer: &Result<T, LinkFault>)
    ensures { NotesLink dpid answer.now links.old links.new }
{
    match answer {
        Ok(_) => links.note(dpid, false),
        Err(LinkFault::Failed) => links.note(dpid, true),
        Err(LinkFault::Short) => {}
    }
}

/// Spells the session of what was kept, over the switches and stimuli of a world.
fn text_of<W: Told>(
    alloc: Global,
    world: &W,
    names: &[String],
    log: &Log,
    losses: &[(Dpid, u64)],
) -> Result<ByteList, AllocError>
    ensures { IfOk result (IsText (Shown W.Tells (W.seen world.now)) (W.seen world.now) (map (λ s. string_bytes s) names.now) log.now losses.now) }
{
    let found = log.deeds()?;
    let text = whole_text(alloc, world, names, found.0, found.1, losses)?;
    Ok(text)
}

impl<W: World + Drop> Recorder<W> {
    /// Records this world from now on.
    pub fn new(alloc: Global, world: W) -> Result<Recorder<W>, AllocError>
        ensures world { IfOk result (λ r. r.world ≡ world) }
        ensures nothing { IfOk result (λ r. (r.log ≡ Some []) × (r.links.losses.items ≡ [])) }
    {
        Ok(Recorder {
            world,
            alloc,
            log: Log::new(alloc),
            links: LinkCalls::new(alloc),
            messages: Messages::new(true),
        })
    }

    /// Passes each call on to this world, and keeps nothing, so that there is never a text. Takes no memory.
    pub fn silent(alloc: Global, world: W) -> Recorder<W>
        ensures world { result.world ≡ world }
        ensures nothing { result.log ≡ None }
    {
        Recorder {
            world,
            alloc,
            log: Log::silent(alloc),
            links: LinkCalls::silent(alloc),
            messages: Messages::new(false),
        }
    }

    /// Lends the world within.
    pub fn world(&self) -> &W
        ensures { result.now ≡ self.now.world }
    {
        &self.world
    }
}

impl<W: Told + Drop> Recorder<W> {
    /// Spells the run so far as a session that does it again. The application with index i has the name at position i. `AllocError`
    /// also once memory was refused while the run was recorded.
    pub fn text(&self, names: &[String]) -> Result<ByteList, AllocError>
        ensures spelled { IfOk result (IsText (Shown W.Tells (W.seen self.now.world)) (W.seen self.now.world) (map (λ s. string_bytes s) names.now) self.now.log self.now.links.losses.items) }
        ensures whole { OnOk result (self.now.links.is_short ≡ false) }
    {
        let losses = self.links.losses()?;
        text_of(self.alloc, &self.world, names, &self.log, losses)
    }

    /// Comments on a text of this run, line by line: on each kind of thing that no line of a session can say, such as a FLOW_REMOVED of
    /// a real switch, and on each limit of a session that is broken; with the count of these.
    pub fn remarks(&self, text: &[u8]) -> Result<String, AllocError>
        ensures { IfOk result (λ remarks. AreRemarks (string_bytes remarks)) }
    {
        remarks_of(self.alloc, &self.world, self.messages, text)
    }
}

impl<W: World + Drop> World for Recorder<W> {
    ghost Tells = { W.Tells };

    ghost CanPart = { W.CanPart };

    ghost Own = { W.Own };

    ghost seen = { λ s. W.seen s.world };

    fn open(&mut self, port: u16) -> Result<(), OpenFault> {
        self.world.open(port)
    }

    fn next(&mut self, buf: &mut [u8]) -> Result<Item, NextFault> {
        let answer = self.world.next(buf);
        self.messages.note(answer, buf);
        answer
    }

    fn start(&mut self, app: u32, words: &[String]) -> Result<(), StartFault>
        ensures seen { Starts W.Tells app (W.seen self.old.world) (W.seen self.new.world) result }
        ensures noted { Notes (start_deeds app result) self.old.log self.new.log }
        ensures rest { self.new.links ≡ self.old.links }
    {
        let answer = self.world.start(app, words);
        note_start(&mut self.log, app, answer);
        answer
    }

    fn give(&mut self, app: u32, bytes: &[u8]) -> Result<(), GiveFault>
        ensures seen { Gives W.Tells app bytes.now (W.seen self.old.world) (W.seen self.new.world) result }
        ensures noted { Notes (give_deeds app bytes.now result) self.old.log self.new.log }
        ensures rest { self.new.links ≡ self.old.links }
    {
        let answer = self.world.give(app, bytes);
        note_give(&mut self.log, app, bytes, answer);
        answer
    }

    fn take(&mut self, app: u32, buf: &mut [u8]) -> Result<Taken, Short>
        requires { 0 < length buf.old }
        ensures seen { Takes W.Tells app (W.seen self.old.world) (W.seen self.new.world) result buf.new }
        ensures noted { Notes (take_deeds app result buf.new) self.old.log self.new.log }
        ensures rest { self.new.links ≡ self.old.links }
    {
        let answer = self.world.take(app, buf);
        note_take(&mut self.log, app, answer, buf);
        answer
    }

    fn end(&mut self, app: u32) {
        self.world.end(app);
    }

    fn send(&mut self, dpid: Dpid, frame: &[u8]) -> Result<(), LinkFault>
        requires { IsOk (reading_of frame.now) }
        ensures seen { Sends W.Tells dpid frame.now (W.seen self.old.world) (W.seen self.new.world) result }
        ensures noted { NotesLink dpid result self.old.links self.new.links }
        ensures rest { self.new.log ≡ self.old.log }
    {
        let answer = self.world.send(dpid, frame);
        note_link(&mut self.links, dpid, &answer);
        answer
    }

    fn recv(&mut self, dpid: Dpid, buf: &mut [u8]) -> Result<usize, LinkFault>
        requires { most_message ≤ length buf.old }
        ensures seen { Receives W.Tells dpid (W.seen self.old.world) (W.seen self.new.world) result buf.new }
        ensures message { W.CanPart → GivesMessage result buf.new }
        ensures noted { NotesLink dpid result self.old.links self.new.links }
        ensures rest { self.new.log ≡ self.old.log }
    {
        let answer = self.world.recv(dpid, buf);
        note_link(&mut self.links, dpid, &answer);
        answer
    }

    fn can_part(&self) -> bool {
        self.world.can_part()
    }

    fn part(&mut self, dpid: Dpid)
        ensures seen { W.CanPart → PartsWith W.Tells dpid (W.seen self.old.world) (W.seen self.new.world) }
        ensures noted { NotesParting dpid self.old.links self.new.links }
        ensures rest { self.new.log ≡ self.old.log }
    {
        self.world.part(dpid);
        self.links.note(dpid, true);
    }
}

impl<W: Told + Drop> Told for Recorder<W> {
    fn stimulus(&self, alloc: Global, number: usize) -> Result<Option<WorldStim>, AllocError> {
        self.world.stimulus(alloc, number)
    }

    fn declared(&self, alloc: Global) -> Result<Vec<Decl>, AllocError> {
        self.world.declared(alloc)
    }
}
