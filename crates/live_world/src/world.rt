//! The world of real switches and real applications.

ghost use Rattle.std.specs.Prelude.{◌≡◌};
ghost use Rattle.live_world.specs.Live.{live_seen};

use crate::apps::Surroundings;
use crate::clock::Clock;
use crate::counts::FaultCounts;
use crate::event_loop::EventLoop;
use crate::kept_stimuli::KeptStimuli;
use crate::returned::may_come_back;
use lego_io::{Sink, write_all};
use of_types::{Dpid, WorldStim};
use outside::{
    Decl, GiveFault, Item, LinkFault, NextFault, OpenFault, Short, StartFault, Taken, Told, World,
};
use std::alloc::{AllocError, Global};
use std::env::{Env, VarError};
use std::io::ErrorKind;
use std::net::{Ipv4Addr, Net};
use std::process::{Processes, SystemProcess};
use std::{env, io};

/// The switches that connect over TCP, and applications that are child programs. It tells nothing: what comes from
/// outside is not known to any contract.
///
/// All sources are heard by one loop, whatever a call awaits: what came is read, an ECHO_REQUEST is answered at once, and what is overdue
/// ends. `recv` gives messages that answer a request; what a switch says by itself is put off, in order, for `next`, which tells it
/// fairly between switches. What is put off of one switch has at most 16 MiB: of another connection no more is read then, the switch that
/// is awaited is lost.
///
/// `open` listens at 127.0.0.1, or at the address of `listen_at`, and fails a second time. Before it `next` fails.
///
/// Where `send` or `recv` fails for a switch that has joined, it is lost: its connection is closed, `next` does not tell that
/// it left, and each further call for it fails. It may connect again, and joins then like any other. A switch has 5 seconds from a
/// request to its answer, whatever else comes.
///
/// `start` takes the words as a program and its arguments; the child has the variables PATH and HOME of this process, one socket as
/// standard input and output, no other descriptor, and the standard error of this process. `end`, and to drop the world, kills
/// children and waits for them; what children of theirs do is up to them. A start has 5 seconds, a turn 10 from the frame Event on, and
/// each next byte 5. Two starts of one application are half a second apart at least.
#[derive(Drop)]
pub struct LiveWorld<R, C, K> {
    rt: R,
    alloc: Global,
    clock: C,
    errors: K,
    is_noting: bool,
    address: Ipv4Addr,
    stop_port: Option<u16>,
    /// Whether the last item was `Idle`.
    rests: bool,
    surroundings: Surroundings,
    sources: Option<EventLoop>,
    counts: FaultCounts,
    kept: KeptStimuli,
}

/// A variable of this process, where it is there and is text.
fn variable<R: Env + AllocGlobal>(rt: &R, name: &str) -> Result<Option<String>, AllocError> {
    match env::var(rt, name) {
        Ok(value) => Ok(Some(value)),
        Err(VarError::OutOfMemory) => Err(AllocError),
        Err(_) => Ok(None),
    }
}

/// Why a port cannot be opened, in words.
fn reason_of(kind: ErrorKind) -> &'static str {
    match kind {
        ErrorKind::AddrInUse => "the port is taken",
        ErrorKind::AddrNotAvailable => "the address is none of this machine",
        ErrorKind::PermissionDenied => "there is no permission",
        _ => "it cannot be opened",
    }
}

impl<
    R: Net + Processes<Started = SystemProcess> + Env + AllocGlobal + Drop,
    C: Clock + Drop,
    K: Sink + Drop,
> LiveWorld<R, C, K> {
    /// Makes a world that opens nothing yet. It is to listen at 127.0.0.1, and its applications are to have the
    /// variables PATH and HOME of this process. Why an application cannot be started, or a port not be opened, is written
    /// to `errors`, as a line.
    /// `AllocError` where there is no memory for these.
    pub fn new(
        rt: R,
        alloc: Global,
        clock: C,
        errors: K,
    ) -> Result<LiveWorld<R, C, K>, AllocError> {
        let surroundings = Surroundings {
            path: variable(&rt, "PATH")?,
            home: variable(&rt, "HOME")?,
        };
        Ok(LiveWorld {
            rt,
            alloc,
            clock,
            errors,
            is_noting: false,
            address: Ipv4Addr::LOCALHOST,
            stop_port: None,
            rests: false,
            surroundings,
            sources: None,
            counts: FaultCounts::new(alloc),
            kept: KeptStimuli::new(alloc),
        })
    }

    /// Has `open` listen at this address from now on.
    pub fn listen_at(&mut self, address: Ipv4Addr) {
        self.address = address;
    }

    /// Has a connection to this port of 127.0.0.1 end the run behind the batch at hand: `next` answers `End` then. To be called before
    /// `open`, which fails where the port is taken.
    pub fn stop_at(&mut self, port: u16) {
        self.stop_port = Some(port);
    }

    /// Notes from now on, as lines to `errors`, at what address it listens, and each connection that is closed before its switch
    /// joined, with the reason; to be called before `open`.
    pub fn note_connections(&mut self) {
        self.is_noting = true;
    }

    /// Keeps from now on what happens, so that the run can be done again; to be called before `open`. Each switch that
    /// joins is declared as it first joined, with room for 4,096 flow entries and the physical ports of its
    /// FEATURES_REPLY. Stimuli are what `next` tells: that a switch joins or leaves, the moments, a PORT_STATUS of a
    /// physical port, and the bytes of a HELLO, ERROR, VENDOR or PACKET_IN. What `recv` gives is none, nor is a PACKET_IN that came
    /// between a PACKET_OUT to CONTROLLER or TABLE and the next barrier's reply.
    ///
    /// A world that was not asked to keeps nothing, since else it would grow by each packet. Where memory is refused it
    /// keeps no more, and `stimulus` and `declared` answer `AllocError` from then on; else it goes on as before.
    pub fn keep_stimuli(&mut self) {
        self.kept.ask();
    }

    /// Tells whether the item that was told last is a packet of the controller that came back.
    fn has_returned(&self) -> bool {
        match &self.sources {
            Some(sources) => sources.has_returned,
            None => false,
        }
    }

    /// Where stimuli are kept, has none be made of a packet that was sent now and comes back: the simulated switch of a replay says it too.
    fn await_packet(&mut self, dpid: Dpid, frame: &[u8])
        ensures { self.new.counts ≡ self.old.counts }
    {
        if self.kept.is_asked() && may_come_back(self.alloc, frame) {
            if let Some(sources) = &mut self.sources {
                sources.await_packet(dpid);
            }
        }
    }

    /// Writes what was noted.
    fn write_notes(&mut self)
        ensures { self.new.counts ≡ self.old.counts }
    {
        let Some(sources) = &mut self.sources else {
            return;
        };
        for _ in 0..sources.notes.len() {
            if let Some(note) = sources.notes.pop_front() {
                if let Ok(line) = format!(in self.alloc; "{note}\n") {
                    let _ = write_all(&mut self.errors, line.as_bytes());
                }
            }
        }
    }

    /// Writes why the application cannot be started.
    fn write_refusal(&mut self, app: u32, words: &[String], error: &io::Error)
        ensures { self.new.counts ≡ self.old.counts }
    {
        let program = match words.first() {
            Some(word) => word.as_str(),
            None => "",
        };
        if let Ok(line) = format!(in self.alloc;
            "app {app} cannot be started: {program}: {error}\n"
        ) {
            let _ = write_all(&mut self.errors, line.as_bytes());
        }
    }

    /// Makes the loop, where there is none yet.
    fn make_sources(&mut self) -> io::Result<()>
        ensures { self.new.counts ≡ self.old.counts }
    {
        if self.sources.is_none() {
            self.sources = Some(EventLoop::new(&self.rt, self.alloc, self.is_noting)?);
        }
        Ok(())
    }

    fn try_open(&mut self, port: u16) -> Result<(), OpenFault>
        ensures { self.new.counts ≡ self.old.counts }
    {
        let address = self.address;
        if let Some(stop_port) = self.stop_port {
            let opened = self.listen_for_stop(stop_port);
            self.judge_opening(Ipv4Addr::LOCALHOST, stop_port, opened)?;
        }
        let opened = self.listen(port);
        self.judge_opening(address, port, opened)
    }

    fn listen_for_stop(&mut self, port: u16) -> io::Result<()>
        ensures { self.new.counts ≡ self.old.counts }
    {
        self.make_sources()?;
        match &mut self.sources {
            Some(sources) if !sources.listens() => sources.listen_for_stop(&self.rt, port),
            _ => Err(io::Error::from(ErrorKind::AddrInUse)),
        }
    }

    fn listen(&mut self, port: u16) -> io::Result<()>
        ensures { self.new.counts ≡ self.old.counts }
    {
        self.make_sources()?;
        let now = self.clock.seconds();
        match &mut self.sources {
            Some(sources) if !sources.listens() => {
                sources.listen(&self.rt, self.address, port, now)
            }
            _ => Err(io::Error::from(ErrorKind::AddrInUse)),
        }
    }

    /// Writes why a port cannot be opened, and tells which fault that is.
    fn judge_opening(
        &mut self,
        address: Ipv4Addr,
        port: u16,
        opened: io::Result<()>,
    ) -> Result<(), OpenFault>
        ensures { self.new.counts ≡ self.old.counts }
    {
        let Err(error) = opened else {
            return Ok(());
        };
        if error.kind() == ErrorKind::OutOfMemory {
            return Err(OpenFault::Short);
        }
        let reason = reason_of(error.kind());
        if let Ok(line) = format!(in self.alloc; "cannot listen at {address}:{port}: {reason}\n") {
            let _ = write_all(&mut self.errors, line.as_bytes());
        }
        Err(OpenFault::Shut)
    }

    fn try_start(&mut self, app: u32, words: &[String]) -> Result<(), StartFault>
        ensures { self.new.counts ≡ self.old.counts }
    {
        match self.start_child(app, words) {
            Ok(()) => Ok(()),
            Err(error) if error.kind() == ErrorKind::OutOfMemory => Err(StartFault::Short),
            Err(error) => {
                self.write_refusal(app, words, &error);
                Err(StartFault::NotStarted)
            }
        }
    }

    fn start_child(&mut self, app: u32, words: &[String]) -> io::Result<()>
        ensures { self.new.counts ≡ self.old.counts }
    {
        self.make_sources()?;
        match &mut self.sources {
            Some(sources) => {
                sources.start(&self.rt, &mut self.clock, app, words, &self.surroundings)
            }
            None => Err(io::Error::from(ErrorKind::NotFound)),
        }
    }
}

impl<
    R: Net + Processes<Started = SystemProcess> + Env + AllocGlobal + Drop,
    C: Clock + Drop,
    K: Sink + Drop,
> World for LiveWorld<R, C, K> {
    ghost Tells = { ⊥ };

    ghost Own = { Unit {0} };

    ghost CanPart = { Unit {0} };

    ghost seen = { λ s. live_seen s.counts };

    fn open(&mut self, port: u16) -> Result<(), OpenFault> {
        let opened = self.try_open(port);
        match opened {
            Ok(()) => {}
            Err(OpenFault::Shut) => self.counts.raise_shuts(),
            Err(OpenFault::Short) => self.counts.raise_shorts(),
        }
        self.write_notes();
        opened
    }

    fn next(&mut self, buf: &mut [u8]) -> Result<Item, NextFault> {
        let came = match &mut self.sources {
            Some(sources) if sources.is_stopped && self.rests => Ok(Item::End),
            Some(sources) if sources.listens() => sources.next(&mut self.clock, buf),
            _ => Err(NextFault::Failed),
        };
        self.rests = came == Ok(Item::Idle);
        if let (Ok(item), false) = (came, self.has_returned()) {
            self.kept.note(item, buf);
        }
        match came {
            Ok(Item::Joined(dpid, _)) => self.counts.know(dpid),
            Ok(_) => {}
            Err(NextFault::Failed) => self.counts.raise_next_faults(),
            Err(NextFault::Short) => self.counts.raise_shorts(),
        }
        self.write_notes();
        came
    }

    fn start(&mut self, app: u32, words: &[String]) -> Result<(), StartFault> {
        let started = self.try_start(app, words);
        match started {
            Ok(()) => {}
            Err(StartFault::NotStarted) => self.counts.raise_starts_failed(),
            Err(StartFault::Short) => self.counts.raise_shorts(),
        }
        started
    }

    fn give(&mut self, app: u32, bytes: &[u8]) -> Result<(), GiveFault> {
        let is_given = match &mut self.sources {
            Some(sources) => sources.give(&mut self.clock, app, bytes),
            None => false,
        };
        if is_given {
            return Ok(());
        }
        self.counts.raise_closings();
        Err(GiveFault::Gone)
    }

    fn take(&mut self, app: u32, buf: &mut [u8]) -> Result<Taken, Short> {
        let taken = match &mut self.sources {
            Some(sources) => sources.take(&mut self.clock, app, buf),
            None => Taken::Closed,
        };
        match taken {
            Taken::Some(_) => {}
            Taken::Closed => self.counts.raise_closings(),
            Taken::Silent => self.counts.raise_silences(),
        }
        Ok(taken)
    }

    fn end(&mut self, app: u32) {
        if let Some(sources) = &mut self.sources {
            sources.end_app(app);
        }
    }

    fn send(&mut self, dpid: Dpid, frame: &[u8]) -> Result<(), LinkFault> {
        let sent = match &mut self.sources {
            Some(sources) => sources.send(&mut self.clock, dpid, frame),
            None => Err(LinkFault::Failed),
        };
        match sent {
            Ok(()) => self.await_packet(dpid, frame),
            Err(LinkFault::Failed) => self.counts.raise_link(dpid),
            Err(LinkFault::Short) => self.counts.raise_shorts_of(dpid),
        }
        sent
    }

    fn recv(&mut self, dpid: Dpid, buf: &mut [u8]) -> Result<usize, LinkFault> {
        let received = match &mut self.sources {
            Some(sources) => sources.recv(&mut self.clock, dpid, buf),
            None => Err(LinkFault::Failed),
        };
        match received {
            Ok(_) => {}
            Err(LinkFault::Failed) => self.counts.raise_link(dpid),
            Err(LinkFault::Short) => self.counts.raise_shorts_of(dpid),
        }
        received
    }

    fn can_part(&self) -> bool {
        true
    }

    fn part(&mut self, dpid: Dpid) {
        if let Some(sources) = &mut self.sources {
            sources.part(dpid);
        }
        self.counts.raise_link(dpid);
    }
}

impl<
    R: Net + Processes<Started = SystemProcess> + Env + AllocGlobal + Drop,
    C: Clock + Drop,
    K: Sink + Drop,
> Told for LiveWorld<R, C, K> {
    fn stimulus(&self, alloc: Global, number: usize) -> Result<Option<WorldStim>, AllocError> {
        self.kept.stimulus(alloc, number)
    }

    fn declared(&self, alloc: Global) -> Result<Vec<Decl>, AllocError> {
        self.kept.declared(alloc)
    }
}
