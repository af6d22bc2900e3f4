//! The one loop that hears all sources, whatever is awaited.

use crate::apps::{App, FIRST_APP};
use crate::clock::Clock;
use crate::connection::Connection;
use crate::deadline::Deadline;
use crate::life::Stage;
use crate::moments::Moments;
use crate::notes::{Closing, Note};
use crate::places::{count_of, vacant_place};
use crate::readiness::Readiness;
use crate::start_times::StartTimes;
use mio::net::{TcpListener, TcpStream};
use mio::{Events, Interest, Poll, Token};
use of_types::Dpid;
use std::alloc::{AllocError, Global};
use std::collections::VecDeque;
use std::io;
use std::io::ErrorKind;
use std::net::{Ipv4Addr, Net, SocketAddr};
use std::time::Duration;

/// The most switches, and the most connections that have not said who they are.
pub(crate) const MOST_OF_A_STAGE: usize = 64;

/// The most connections. Their tokens are their places.
pub(crate) const MOST_CONNECTIONS: usize = 128;

/// The listener's token.
const LISTENER: usize = MOST_CONNECTIONS;

/// The token of the listener at which a connection asks for the end.
const STOPPER: usize = MOST_CONNECTIONS + 1;

/// How many events one look at the sources gives at most.
const EVENTS: usize = 256;

/// How long one look lasts at most, so that what is overdue is closed, in milliseconds.
const MOST_LOOK: u64 = 250;

/// How many looks of a wait may find nothing, so that a wait ends also where the clock stands still.
const MOST_EMPTY_LOOKS: u32 = 64;

/// How many connections are taken in a row.
const MOST_ACCEPTED: u32 = 16;

/// How many notes are kept at most until they are written.
const MOST_NOTES: usize = 256;

/// What a call awaits.
#[derive(Clone, Copy, Debug, PartialEq, Eq)]
pub(crate) enum Until {
    /// That something came on the connection at this place, or that it is over.
    Heard(usize),
    /// That what is to be sent on the connection at this place went out, or that it is over.
    Sent(usize),
    /// That the application at this place may have given bytes.
    Given(usize),
    /// That the application at this place may take bytes.
    Taking(usize),
    /// Nothing but the moment.
    Moment,
}

/// The system does not tell any more what is ready.
#[derive(Clone, Copy, Debug, PartialEq, Eq)]
pub(crate) struct Deaf;

/// All sources: the listener, the connections and the applications.
#[derive(Drop)]
pub(crate) struct EventLoop {
    pub(crate) alloc: Global,
    poll: Poll,
    events: Events,
    listener: Option<TcpListener>,
    stopper: Option<TcpListener>,
    /// Whether the end was asked for.
    pub(crate) is_stopped: bool,
    /// Whether connections may wait at the listener.
    is_called: bool,
    /// A place for each connection, as many as there were at once so far.
    pub(crate) connections: Vec<Option<Connection>>,
    pub(crate) apps: Vec<App>,
    pub(crate) start_times: StartTimes,
    /// The place whose turn it is to be told.
    pub(crate) turn: usize,
    pub(crate) moments: Moments,
    /// How many items and messages passed over came since the last `Idle`.
    pub(crate) batch: u32,
    /// Whether an item or a message was given since the last `Idle`. Then more may wait with the caller, so `next` does not rest.
    pub(crate) has_told: bool,
    /// Whether the item that was told last is a packet of the controller that came back.
    pub(crate) has_returned: bool,
    /// How many calls of `next` there were.
    pub(crate) calls: u64,
    /// What was noted, where that is asked for.
    pub(crate) notes: VecDeque<Note>,
    pub(crate) is_noting: bool,
}

impl EventLoop {
    /// Hears nothing yet. The errors are those of the system and of memory.
    pub(crate) fn new<R: Net>(rt: &R, alloc: Global, is_noting: bool) -> io::Result<EventLoop> {
        Ok(EventLoop {
            alloc,
            poll: Poll::new(rt)?,
            events: Events::with_capacity(alloc, EVENTS)?,
            listener: None,
            stopper: None,
            is_stopped: false,
            is_called: false,
            connections: Vec::new(alloc),
            apps: Vec::new(alloc),
            start_times: StartTimes::new(alloc),
            turn: 0,
            moments: Moments::new(0),
            batch: 0,
            has_told: false,
            has_returned: false,
            calls: 0,
            notes: VecDeque::new(alloc),
            is_noting,
        })
    }

    /// Tells whether it listens.
    pub(crate) fn listens(&self) -> bool {
        self.listener.is_some()
    }

    /// Listens at this address and port from now on. Moments count from now.
    pub(crate) fn listen<R: Net>(
        &mut self,
        rt: &R,
        address: Ipv4Addr,
        port: u16,
        seconds: u64,
    ) -> io::Result<()> {
        let at = SocketAddr::from((address, port));
        let mut listener = TcpListener::bind(rt, at)?;
        self.poll
            .registry()
            .register(&mut listener, Token(LISTENER), Interest::READABLE)?;
        self.note(Note::Listening(at));
        self.listener = Some(listener);
        self.is_called = true;
        self.moments = Moments::new(seconds);
        Ok(())
    }

    /// Has a connection to this port of 127.0.0.1 ask for the end from now on.
    pub(crate) fn listen_for_stop<R: Net>(&mut self, rt: &R, port: u16) -> io::Result<()> {
        let at = SocketAddr::from((Ipv4Addr::LOCALHOST, port));
        let mut stopper = TcpListener::bind(rt, at)?;
        self.poll
            .registry()
            .register(&mut stopper, Token(STOPPER), Interest::READABLE)?;
        self.stopper = Some(stopper);
        Ok(())
    }

    /// Notes this, where that is asked for and there is room.
    pub(crate) fn note(&mut self, note: Note) {
        if self.is_noting && self.notes.len() < MOST_NOTES {
            let _ = self.notes.push_back(note);
        }
    }

    /// Has the application be heard from now on.
    pub(crate) fn register(&self, app: &mut App) -> io::Result<()> {
        let token = Token(app.token());
        self.poll.registry().register(
            &mut app.stream,
            token,
            Interest::READABLE | Interest::WRITABLE,
        )
    }

    /// Hears all sources until what is awaited may be there, or the deadline is over, and not at all where it is there. Tells whether
    /// it may be there.
    pub(crate) fn hear_until<C: Clock>(
        &mut self,
        clock: &mut C,
        until: Until,
        deadline: Deadline,
    ) -> Result<bool, Deaf> {
        let mut empty_looks = 0;
        for _ in 0..u64::MAX {
            let now = clock.milliseconds();
            self.serve(now);
            if self.is_there(until) {
                return Ok(true);
            }
            if deadline.is_over(now) || empty_looks >= MOST_EMPTY_LOOKS {
                break;
            }
            if !self.look(deadline.left(now))? {
                empty_looks += 1;
            }
        }
        Ok(false)
    }

    /// Tells whether what is awaited may be there.
    fn is_there(&self, until: Until) -> bool {
        match until {
            Until::Heard(place) => match self.connections.get(place) {
                Some(Some(connection)) => {
                    connection.is_fresh || connection.ended.is_some() || connection.is_full()
                }
                _ => true,
            },
            Until::Sent(place) => match self.connections.get(place) {
                Some(Some(connection)) => {
                    connection.outbound.is_empty() || connection.ended.is_some()
                }
                _ => true,
            },
            Until::Given(place) => match self.apps.get(place) {
                Some(app) => app.ready.is_readable,
                None => true,
            },
            Until::Taking(place) => match self.apps.get(place) {
                Some(app) => app.ready.is_writable,
                None => true,
            },
            Until::Moment => false,
        }
    }

    /// Waits until something comes, for so many milliseconds at most, and not where more is there to be read. Tells whether something
    /// came.
    pub(crate) fn look(&mut self, milliseconds: u64) -> Result<bool, Deaf> {
        let wait = if self.has_more() {
            0
        } else {
            milliseconds.min(MOST_LOOK)
        };
        let polled = self
            .poll
            .poll(&mut self.events, Some(Duration::from_millis(wait)));
        if polled.is_err() {
            return Err(Deaf);
        }
        for event in &self.events {
            let token = event.token().0;
            if token == LISTENER {
                self.is_called = true;
            } else if token == STOPPER {
                self.is_stopped = true;
            } else if let Some(ready) = ready_of(&mut self.connections, &mut self.apps, token) {
                ready.note(event);
            }
        }
        Ok(!self.events.is_empty())
    }

    /// Tells whether more is there to be read of switches.
    pub(crate) fn has_more(&self) -> bool {
        self.connections.iter().any(|place| match place {
            Some(connection) => connection.can_read(),
            None => false,
        })
    }

    /// Takes connections that wait at the listener, and serves all: what is to be sent is written, what waits is read, ECHO_REQUESTs
    /// are answered, and what is overdue ends. A connection that ends before its switch joined is closed.
    pub(crate) fn serve(&mut self, now: u64) {
        self.accept(now);
        for place in 0..self.connections.len() {
            if let Some(why) = self.serve_at(place, now) {
                self.refuse(place, why);
            }
        }
    }

    /// Serves the connection at this place. Tells why it is to be closed, if it is.
    fn serve_at(&mut self, place: usize, now: u64) -> Option<Closing> {
        match self.connections.get_mut(place) {
            Some(Some(connection)) => {
                connection.serve(self.alloc, now);
                if connection.joined().is_some() {
                    None
                } else {
                    connection.ended
                }
            }
            _ => None,
        }
    }

    /// Takes connections that wait at the listener.
    fn accept(&mut self, now: u64) {
        for _ in 0..MOST_ACCEPTED {
            if !self.is_called || count_of(&self.connections, false) >= MOST_OF_A_STAGE {
                return;
            }
            let Some(place) = vacant_place(&mut self.connections, MOST_CONNECTIONS) else {
                return;
            };
            let accepted = match &self.listener {
                Some(listener) => listener.accept(),
                None => return,
            };
            match accepted {
                Ok((stream, peer)) => {
                    if let Some(vacant) = self.connections.get_mut(place) {
                        *vacant = welcome(&self.poll, self.alloc, place, stream, peer, now);
                    }
                }
                Err(error) if error.kind() == ErrorKind::Interrupted => {}
                Err(_) => self.is_called = false,
            }
        }
    }

    /// Closes a connection whose switch has not joined, and notes why.
    pub(crate) fn refuse(&mut self, place: usize, why: Closing) {
        if let Some(Some(connection)) = self.connections.get(place) {
            let peer = connection.peer;
            self.note(Note::Closed(peer, why));
        }
        self.close(place);
    }

    /// Closes the connection, and tells which switch it was, if it had joined. A connection may be that switch again.
    pub(crate) fn close(&mut self, place: usize) -> Option<Dpid> {
        // A descriptor is free again.
        self.is_called = true;
        match self.connections.get_mut(place)?.take()?.life.stage {
            Stage::Joined(dpid) => Some(dpid),
            Stage::Greeting | Stage::Named(_) => None,
        }
    }
}

/// What the source with this token is ready for.
fn ready_of<'a>(
    connections: &'a mut [Option<Connection>],
    apps: &'a mut [App],
    token: usize,
) -> Option<&'a mut Readiness> {
    if token < FIRST_APP {
        return match connections.get_mut(token) {
            Some(Some(connection)) => Some(&mut connection.ready),
            _ => None,
        };
    }
    for app in apps.iter_mut() {
        if app.token() == token {
            return Some(&mut app.ready);
        }
    }
    None
}

/// Registers a new connection, and greets it by a HELLO and a FEATURES_REQUEST; `None` where that goes wrong, or memory is wanting.
fn welcome(
    poll: &Poll,
    alloc: Global,
    place: usize,
    stream: TcpStream,
    peer: SocketAddr,
    now: u64,
) -> Option<Connection> {
    // Without this, small messages may wait for each other; a connection does without it.
    let _ = stream.set_nodelay(true);
    let mut connection = Connection::new(alloc, stream, peer, now).ok()?;
    let token = Token(place);
    poll.registry()
        .register(
            &mut connection.stream,
            token,
            Interest::READABLE | Interest::WRITABLE,
        )
        .ok()?;
    connection.greet_first(alloc).ok()?;
    Some(connection)
}
