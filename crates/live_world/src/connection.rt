//! One connection of a switch.

ghost use Rattle.std.specs.Prelude.{◌≡◌, ℕ, ◌≤◌, ◌++◌, true, false, List, length, take, IfOk, IfSome};
ghost use Rattle.of_stream.specs.Frames.{IsFrame};
ghost use Rattle.outside.specs.Calls.{most_message, IsMessageIn};
ghost use Rattle.live_world.specs.Connection.{IsHeardIn, IsAnswerIn};

use crate::backlog::{Backlog, MOST_BYTES};
use crate::deadline::{CALL_MILLISECONDS, Deadline};
use crate::hearing::{Greeting, Hearing, hear_greeting, hear_joined};
use crate::inbound::{Inbound, Next, ReadEnd};
use crate::life::{Due, Life, Stage};
use crate::notes::Closing;
use crate::outbound::{Outbound, WriteEnd};
use crate::own_messages;
use crate::readiness::Readiness;
use crate::returned::Returned;
use mio::net::TcpStream;
use of_types::{Dpid, get_u16};
use std::alloc::{AllocError, Global};
use std::net::SocketAddr;

/// How many pieces are read in a row.
const MOST_PIECES: u32 = 16;

/// How many messages of a connection that has not said who it is are looked at in a row.
const MOST_GREETINGS: u32 = 256;

/// How many bytes wait at most to be sent until a call waits for that.
const MOST_UNSENT: usize = 65_536;

/// What came of one step on a connection.
#[derive(Clone, Copy, Debug, PartialEq, Eq)]
pub enum Heard {
    /// A message of the switch for the controller, of so many bytes.
    Told(Dpid, usize),
    /// The connection is this switch, by a FEATURES_REPLY of so many bytes.
    Features(Dpid, usize),
    /// A message was passed over.
    Passed,
    /// Nothing waits.
    Nothing,
    /// The connection is over.
    Over,
}

/// What a look for the answer to a request came to.
#[derive(Clone, Copy, Debug, PartialEq, Eq)]
pub enum Answer {
    /// A message that answers a request, of so many bytes.
    Reply(usize),
    /// None came yet.
    Nothing,
    /// None comes: the connection is over, or the switch says more than is kept.
    Over,
}

/// A connection of a switch.
#[derive(Drop)]
pub(crate) struct Connection {
    pub(crate) stream: TcpStream,
    pub(crate) peer: SocketAddr,
    pub(crate) ready: Readiness,
    pub(crate) inbound: Inbound,
    pub(crate) outbound: Outbound,
    /// What came before `inbound`, and was put off until `next` tells it.
    pub(crate) backlog: Backlog,
    /// Which of these messages tell a packet of the controller that came back.
    pub(crate) returned: Returned,
    /// Whether the message that was told last is one of these.
    pub(crate) has_returned: bool,
    pub(crate) life: Life,
    /// Whether bytes came that were not looked at yet.
    pub(crate) is_fresh: bool,
    /// Why nothing comes any more, and nothing can be sent.
    pub(crate) ended: Option<Closing>,
    /// Whether something was sent since an answer was last looked for.
    pub(crate) is_asking: bool,
    /// Until when the answer to the last request is awaited.
    pub(crate) deadline: Deadline,
    /// How many bytes of answers were given since the call of `next` of this number.
    pub(crate) given: (u64, usize),
}

/// Copies a message into the front of the buffer, and tells its length.
fn hand_out(frame: &[u8], buf: &mut [u8]) -> usize
    requires frame { IsFrame frame.now }
    requires room { most_message ≤ length buf.old }
    ensures copied { take result buf.new ≡ frame.now }
    ensures message { IsMessageIn ⊥ result buf.new }
    ensures len { length buf.new ≡ length buf.old }
{
    let size = get_u16(frame, 2) as usize;
    buf[..size].copy_from_slice(frame);
    size
}

impl Connection {
    /// Begins with a connection that comes now, over which nothing was said.
    pub(crate) fn new(
        alloc: Global,
        stream: TcpStream,
        peer: SocketAddr,
        now: u64,
    ) -> Result<Connection, AllocError> {
        Ok(Connection {
            stream,
            peer,
            ready: Readiness::new(),
            inbound: Inbound::new(alloc)?,
            outbound: Outbound::new(alloc),
            backlog: Backlog::new(alloc)?,
            returned: Returned::new(alloc),
            has_returned: false,
            life: Life::new(now),
            is_fresh: false,
            ended: None,
            is_asking: false,
            deadline: Deadline::after(now, CALL_MILLISECONDS),
            given: (0, 0),
        })
    }

    /// Tells how many bytes of it are kept.
    fn kept(&self) -> usize {
        self.backlog.len().saturating_add(self.inbound.len())
    }

    /// Tells whether more may be read now.
    pub(crate) fn can_read(&self) -> bool {
        self.ready.is_readable
            && self.ended.is_none()
            && !self.inbound.is_held
            && self.kept() < MOST_BYTES
    }

    /// Tells whether as much is kept of it as may be.
    pub(crate) fn is_full(&self) -> bool {
        self.kept() >= MOST_BYTES
    }

    /// Has it be sent what each connection is sent first.
    pub(crate) fn greet_first(&mut self, alloc: Global) -> Result<(), AllocError> {
        own_messages::greet(alloc, &mut self.outbound)?;
        self.write_out();
        Ok(())
    }

    /// Tells whether `next` may find something here.
    pub(crate) fn has_news(&self) -> bool {
        match self.life.stage {
            Stage::Greeting => false,
            Stage::Named(_) => true,
            Stage::Joined(_) => { self.is_fresh || self.ended.is_some() || self.backlog.len() > 0 }
        }
    }

    /// Tells which switch joined by this connection.
    pub(crate) fn joined(&self) -> Option<Dpid> {
        match self.life.stage {
            Stage::Joined(dpid) => Some(dpid),
            Stage::Greeting | Stage::Named(_) => None,
        }
    }

    fn end(&mut self, why: Closing) {
        if self.ended.is_none() {
            self.ended = Some(why);
        }
    }

    /// Writes what is to be sent, reads what waits, answers ECHO_REQUESTs, and looks what is due.
    pub(crate) fn serve(&mut self, alloc: Global, now: u64) {
        self.write_out();
        self.read_in(now);
        if self.inbound.is_held && self.inbound.answer(&mut self.outbound).is_ok() {
            self.is_fresh = true;
        }
        if self.life.stage == Stage::Greeting && self.is_fresh {
            // Where memory is wanting, it is looked at again later.
            let _ = self.greet(alloc);
        }
        self.end_if_due(alloc, now);
        self.write_out();
    }

    /// Writes what is to be sent, as far as it is taken at once.
    pub(crate) fn write_out(&mut self) {
        if self.outbound.is_empty() || !self.ready.is_writable || self.ended.is_some() {
            return;
        }
        match self.outbound.write_to(&mut &self.stream) {
            WriteEnd::All => {}
            WriteEnd::Full => self.ready.is_writable = false,
            WriteEnd::Failed => self.end(Closing::Left),
        }
    }

    /// Reads what waits, and answers the ECHO_REQUESTs in it.
    fn read_in(&mut self, now: u64) {
        for _ in 0..MOST_PIECES {
            if !self.can_read() || !self.read_piece(now) {
                return;
            }
        }
    }

    /// Reads once. Tells whether what came was taken in.
    fn read_piece(&mut self, now: u64) -> bool {
        match self.inbound.read_from(&mut &self.stream) {
            ReadEnd::More => self.hear_bytes(now),
            ReadEnd::Some => {
                self.ready.came_short();
                self.hear_bytes(now)
            }
            ReadEnd::Nothing => {
                self.ready.is_readable = false;
                false
            }
            ReadEnd::Over => {
                self.end(Closing::Left);
                false
            }
        }
    }

    fn hear_bytes(&mut self, now: u64) -> bool {
        self.life.hear(now);
        self.is_fresh = true;
        self.inbound.answer(&mut self.outbound).is_ok()
    }

    /// Asks a silent switch whether it is there, and ends what is overdue.
    fn end_if_due(&mut self, alloc: Global, now: u64) {
        if self.can_read() && self.life.stage != Stage::Greeting {
            return;
        }
        match self.life.due(now) {
            Due::Nothing => {}
            Due::Ask => {
                self.life.ask(now);
                if own_messages::ask(alloc, &mut self.outbound).is_err() {
                    self.end(Closing::Late);
                }
            }
            Due::Close => self.end(Closing::Late),
        }
    }

    /// Cuts the next message off, once the ECHO_REQUESTs up to it are answered.
    fn cut(&mut self) -> Result<Next, AllocError> {
        self.inbound.answer(&mut self.outbound)?;
        if self.inbound.is_held_back() {
            return Ok(Next::Partial);
        }
        self.inbound.cut()
    }

    /// Looks at what a connection says that has not said who it is.
    fn greet(&mut self, alloc: Global) -> Result<(), AllocError> {
        for _ in 0..MOST_GREETINGS {
            match self.cut()? {
                Next::Whole => {}
                Next::Partial => {
                    self.is_fresh = false;
                    return Ok(());
                }
                Next::Broken => {
                    self.end(Closing::Garbage);
                    return Ok(());
                }
            }
            if !self.hear_one_greeting(alloc)? {
                return Ok(());
            }
        }
        Ok(())
    }

    /// Looks at the message that was cut off. Tells whether the connection has still to say who it is.
    fn hear_one_greeting(&mut self, alloc: Global) -> Result<bool, AllocError> {
        let Some(frame) = self.inbound.frame() else {
            return Ok(false);
        };
        match hear_greeting(alloc, frame)? {
            Greeting::Features(dpid) => {
                self.life.stage = Stage::Named(dpid);
                Ok(false)
            }
            Greeting::Passed => {
                self.inbound.pass();
                Ok(true)
            }
            Greeting::Refused => {
                let why = Closing::of_refused(frame);
                self.end(why);
                Ok(false)
            }
        }
    }

    /// Takes one step: the next message, first of those that were put off. Where memory runs out nothing is lost.
    pub(crate) fn step(&mut self, alloc: Global, buf: &mut [u8]) -> Result<Heard, AllocError>
        requires { most_message ≤ length buf.old }
        ensures heard { IfOk result (λ heard. IsHeardIn heard buf.new) }
        ensures len { length buf.new ≡ length buf.old }
    {
        self.has_returned = false;
        match self.tell_oldest(buf)? {
            Some(heard) => Ok(heard),
            None => self.listen(alloc, buf),
        }
    }

    /// Hands out the oldest message that was put off.
    fn tell_oldest(&mut self, buf: &mut [u8]) -> Result<Option<Heard>, AllocError>
        requires { most_message ≤ length buf.old }
        ensures heard { IfOk result (λ oldest. IfSome oldest (λ heard. IsHeardIn heard buf.new)) }
        ensures len { length buf.new ≡ length buf.old }
    {
        let Stage::Joined(dpid) = self.life.stage else {
            return Ok(None);
        };
        let Some(frame) = self.backlog.take()? else {
            return Ok(None);
        };
        self.has_returned = self.returned.told();
        match hear_joined(frame.as_slice()) {
            Hearing::Refused => Ok(Some(Heard::Over)),
            _ => Ok(Some(Heard::Told(dpid, hand_out(frame.as_slice(), buf)))),
        }
    }

    /// Takes the next message that came. Where memory runs out nothing is lost.
    fn listen(&mut self, alloc: Global, buf: &mut [u8]) -> Result<Heard, AllocError>
        requires { most_message ≤ length buf.old }
        ensures heard { IfOk result (λ heard. IsHeardIn heard buf.new) }
        ensures len { length buf.new ≡ length buf.old }
    {
        match self.cut()? {
            Next::Whole => self.hear(alloc, buf),
            Next::Broken => Ok(Heard::Over),
            Next::Partial if self.ended.is_some() => Ok(Heard::Over),
            Next::Partial => {
                self.is_fresh = false;
                Ok(Heard::Nothing)
            }
        }
    }

    /// Takes the message that was cut off.
    fn hear(&mut self, alloc: Global, buf: &mut [u8]) -> Result<Heard, AllocError>
        requires { most_message ≤ length buf.old }
        ensures heard { IfOk result (λ heard. IsHeardIn heard buf.new) }
        ensures len { length buf.new ≡ length buf.old }
    {
        let Some(frame) = self.inbound.frame() else {
            return Ok(Heard::Nothing);
        };
        let heard = match self.life.stage {
            Stage::Greeting => Heard::Nothing,
            Stage::Named(_) => match hear_greeting(alloc, frame)? {
                Greeting::Features(dpid) => Heard::Features(dpid, hand_out(frame, buf)),
                Greeting::Passed | Greeting::Refused => Heard::Over,
            },
            Stage::Joined(dpid) => match hear_joined(frame) {
                Hearing::Told | Hearing::Reply => Heard::Told(dpid, hand_out(frame, buf)),
                Hearing::Passed => Heard::Passed,
                Hearing::Refused => Heard::Over,
            },
        };
        self.inbound.pass();
        Ok(heard)
    }

    /// Puts a message behind what is to be sent; its answer is awaited for 5 seconds, from the first message since an answer
    /// was last looked for. Tells whether a call is to wait until they are.
    pub(crate) fn send(&mut self, message: &[u8], now: u64) -> Result<bool, AllocError> {
        if !self.is_asking {
            self.deadline = Deadline::after(now, CALL_MILLISECONDS);
            self.is_asking = true;
        }
        self.outbound.put(message)?;
        Ok(!self.outbound.has_room(MOST_UNSENT))
    }

    /// Looks for the next message that answers a request, and puts off what the switch says by itself. What is put off, and was given
    /// since the last call of `next`, is not more than is kept. Where memory runs out nothing is lost.
    pub(crate) fn answer(&mut self, call: u64, buf: &mut [u8]) -> Result<Answer, AllocError>
        requires { most_message ≤ length buf.old }
        ensures answer { IfOk result (λ answer. IsAnswerIn answer buf.new) }
        ensures len { length buf.new ≡ length buf.old }
    {
        self.is_asking = false;
        if self.given.0 != call {
            self.given = (call, 0);
        }
        for _ in 0..u64::MAX {
            let found = match self.cut()? {
                Next::Whole => self.sort(buf),
                Next::Broken => Some(Answer::Over),
                Next::Partial if self.ended.is_some() || !self.has_room() => Some(Answer::Over),
                Next::Partial => {
                    self.is_fresh = false;
                    Some(Answer::Nothing)
                }
            };
            if let Some(answer) = found {
                return Ok(answer);
            }
        }
        Ok(Answer::Over)
    }

    /// Tells whether more may come while an answer is awaited.
    fn has_room(&self) -> bool {
        self.kept().saturating_add(self.given.1) < MOST_BYTES
    }

    /// Gives the message that was cut off, if it answers a request; else puts it off, or passes it over.
    fn sort(&mut self, buf: &mut [u8]) -> Option<Answer>
        requires { most_message ≤ length buf.old }
        ensures answer { IfSome result (λ answer. IsAnswerIn answer buf.new) }
        ensures len { length buf.new ≡ length buf.old }
    {
        let frame = self.inbound.frame()?;
        let is_kept = match hear_joined(frame) {
            Hearing::Passed => true,
            Hearing::Told => {
                self.returned.put_off(frame);
                self.backlog.keep(frame)
            }
            Hearing::Refused => false,
            Hearing::Reply => {
                let size = hand_out(frame, buf);
                self.returned.answered(frame);
                self.given.1 = self.given.1.saturating_add(size);
                self.inbound.pass();
                return Some(if self.has_room() {
                    Answer::Reply(size)
                } else {
                    Answer::Over
                });
            }
        };
        self.inbound.pass();
        if is_kept { None } else { Some(Answer::Over) }
    }
}
