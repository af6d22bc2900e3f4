//! What comes next.

ghost use Rattle.std.specs.Prelude.{◌≡◌, ℕ, ◌≤◌, List, length, IfOk};
ghost use Rattle.outside.specs.Calls.{most_message, IsItemIn};
ghost use Rattle.outside.specs.Parting.{IsItemReadIn};
ghost use Rattle.live_world.specs.declared.connection.Heard.TheVariants as heard;
ghost use Rattle.live_world.specs.Connection.{IsHeardIn};
ghost use Rattle.live_world.specs.Telling.{IsStepIn};

use crate::clock::Clock;
use crate::connection::Heard;
use crate::event_loop::{Deaf, EventLoop, MOST_OF_A_STAGE};
use crate::life::Stage;
use crate::notes::Closing;
use crate::places::{any_news, count_of, has_ended, has_news, place_of};
use of_types::Dpid;
use outside::{Item, LinkFault, NextFault};

/// The most items and messages passed over until `Idle` is told.
const MOST_A_BATCH: u32 = 256;

/// The most steps of one call.
const MOST_STEPS: u32 = 8_192;

/// How long a call waits where nothing waits, in milliseconds.
const REST_MILLISECONDS: u64 = 100;

/// What came of one step over all connections.
#[derive(Clone, Copy, Debug, PartialEq, Eq)]
pub enum TellingStep {
    /// This is to be told.
    Tell(Item),
    /// A message was passed over, or a connection that had not joined is over.
    Passed,
    /// A connection had nothing more, and there may be others.
    More,
    /// Nothing waits.
    Nothing,
}

impl EventLoop {
    /// Tells what comes next.
    pub(crate) fn next<C: Clock>(
        &mut self,
        clock: &mut C,
        buf: &mut [u8],
    ) -> Result<Item, NextFault>
        requires { most_message ≤ length buf.old }
        ensures { IfOk result (λ item. IsItemIn ⊥ item buf.new × IsItemReadIn buf.new item) }
    {
        self.calls = self.calls.wrapping_add(1);
        self.has_returned = false;
        self.write_out();
        let now = clock.seconds();
        let item = match self.moments.change(now) {
            Some(moment) => Item::Moment(moment),
            None => self.come(clock, buf)?,
        };
        if item == Item::Idle {
            self.batch = 0;
            self.has_told = false;
        } else {
            self.batch = self.batch.saturating_add(1);
            self.has_told = true;
        }
        Ok(item)
    }

    /// Tells what comes next but for moments.
    fn come<C: Clock>(&mut self, clock: &mut C, buf: &mut [u8]) -> Result<Item, NextFault>
        requires { most_message ≤ length buf.old }
        ensures { IfOk result (λ item. IsItemIn ⊥ item buf.new × IsItemReadIn buf.new item) }
    {
        let begins = self.batch == 0;
        // Where nothing waits, the look below is the first one.
        if begins && any_news(&self.connections) {
            self.hear(clock, 0)?;
        }
        let mut may_rest = !self.has_told;
        for _ in 0..MOST_STEPS {
            if self.batch >= MOST_A_BATCH {
                break;
            }
            match self.step(buf)? {
                TellingStep::Tell(item) => match self.is_late(clock, item, buf) {
                    Ok(true) => self.batch = self.batch.saturating_add(1),
                    Ok(false) => return Ok(item),
                    Err(dpid) => return Ok(Item::Left(dpid)),
                },
                TellingStep::Passed => self.batch = self.batch.saturating_add(1),
                TellingStep::More => {}
                // What comes meanwhile is heard when the next batch begins.
                TellingStep::Nothing if !begins => break,
                TellingStep::Nothing => {
                    let wait = if may_rest { REST_MILLISECONDS } else { 0 };
                    may_rest = false;
                    if !self.hear(clock, wait)? {
                        break;
                    }
                }
            }
        }
        Ok(Item::Idle)
    }

    /// Tells whether an item is a notice that an entry was deleted which stands: it is passed over. `Err` where the switch does not answer
    /// the question for that: it has left then. Where memory is wanting, the notice is told.
    fn is_late<C: Clock>(&mut self, clock: &mut C, item: Item, buf: &[u8]) -> Result<bool, Dpid> {
        let Item::From(dpid, size) = item else {
            return Ok(false);
        };
        let Some(frame) = buf.get(..size) else {
            return Ok(false);
        };
        match self.is_late_notice(clock, dpid, frame) {
            Ok(is_late) => Ok(is_late),
            Err(LinkFault::Short) => Ok(false),
            Err(LinkFault::Failed) => Err(dpid),
        }
    }

    /// Looks what comes within so many milliseconds, and serves all. Tells whether something came.
    fn hear<C: Clock>(&mut self, clock: &mut C, milliseconds: u64) -> Result<bool, NextFault> {
        let had_more = self.has_more();
        let has_come = self
            .look(milliseconds)
            .map_err(|_: Deaf| NextFault::Failed)?;
        let now = clock.milliseconds();
        self.serve(now);
        Ok(has_come || had_more)
    }

    /// Takes one step on the next connection that has news.
    fn step(&mut self, buf: &mut [u8]) -> Result<TellingStep, NextFault>
        requires { most_message ≤ length buf.old }
        ensures step { IfOk result (λ step. IsStepIn step buf.new) }
        ensures len { length buf.new ≡ length buf.old }
    {
        let Some(place) = self.next_place() else {
            return Ok(TellingStep::Nothing);
        };
        let heard = match self.connections.get_mut(place) {
            Some(Some(connection)) => {
                let heard = connection.step(self.alloc, buf);
                self.has_returned = connection.has_returned;
                heard
            }
            _ => return Ok(TellingStep::Nothing),
        };
        match heard.map_err(|_| NextFault::Short)? {
            Heard::Told(dpid, size) => Ok(TellingStep::Tell(Item::From(dpid, size))),
            Heard::Features(dpid, size) => Ok(self.join(place, dpid, size)),
            Heard::Passed => Ok(TellingStep::Passed),
            Heard::Nothing => Ok(TellingStep::More),
            Heard::Over => Ok(self.end(place)),
        }
    }

    /// The place of the next connection that has news; its turn is over then. One that says that it is a switch whose earlier
    /// connection has ended is behind that one.
    fn next_place(&mut self) -> Option<usize> {
        let count = self.connections.len();
        for step in 0..count {
            let place = (self.turn % count).saturating_add(step) % count;
            if has_news(&self.connections, place) {
                self.turn = place.saturating_add(1);
                return Some(self.before(place));
            }
        }
        None
    }

    /// The place of the ended connection of the switch that this one says to be, or else this place.
    fn before(&self, place: usize) -> usize {
        let Some(Some(connection)) = self.connections.get(place) else {
            return place;
        };
        let Stage::Named(dpid) = connection.life.stage else {
            return place;
        };
        match place_of(&self.connections, dpid) {
            Some(earlier) if has_ended(&self.connections, earlier) => earlier,
            _ => place,
        }
    }

    /// The connection is this switch, unless that one has joined or there are too many.
    fn join(&mut self, place: usize, dpid: Dpid, size: usize) -> TellingStep
        ensures { (buf : List ℕ) → IsHeardIn (heard.Features dpid size) buf → IsStepIn result buf }
    {
        if place_of(&self.connections, dpid).is_some() {
            self.refuse(place, Closing::Taken(dpid));
            return TellingStep::Passed;
        }
        if count_of(&self.connections, true) >= MOST_OF_A_STAGE {
            self.refuse(place, Closing::TooMany(dpid));
            return TellingStep::Passed;
        }
        if let Some(Some(connection)) = self.connections.get_mut(place) {
            connection.life.stage = Stage::Joined(dpid);
        }
        TellingStep::Tell(Item::Joined(dpid, size))
    }

    /// Closes the connection. A switch that had joined has left.
    fn end(&mut self, place: usize) -> TellingStep
        ensures { (buf : List ℕ) → IsStepIn result buf }
    {
        match self.close(place) {
            Some(dpid) => TellingStep::Tell(Item::Left(dpid)),
            None => TellingStep::Passed,
        }
    }
}
