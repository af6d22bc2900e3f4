//! What is given to applications, and what they give.

ghost use Rattle.std.specs.Prelude.{◌≡◌, ◌<◌, ◌≤◌, length, IfSome};
ghost use Rattle.outside.specs.Calls.{IsTakenIn};
ghost use Rattle.live_world.specs.Intakes.{IsIntakeIn};

use crate::apps::{App, Intake, Surroundings, app_place};
use crate::clock::Clock;
use crate::deadline::{CALL_MILLISECONDS, Deadline};
use crate::event_loop::{EventLoop, Until};
use crate::turn_time::{take_end, turn_end};
use outside::Taken;
use std::io;
use std::io::ErrorKind;
use std::net::Net;
use std::process::{Processes, SystemProcess};

impl EventLoop {
    /// Starts the application, half a second behind its last start at the earliest.
    pub(crate) fn start<R: Net + Processes<Started = SystemProcess>, C: Clock>(
        &mut self,
        rt: &R,
        clock: &mut C,
        app: u32,
        words: &[String],
        surroundings: &Surroundings,
    ) -> io::Result<()> {
        if app_place(&self.apps, app).is_some() {
            return Err(io::Error::from(ErrorKind::AlreadyExists));
        }
        // Room first, so that no child is started in vain.
        self.apps.reserve(1)?;
        let earliest = self.start_times.earliest(app, clock.milliseconds());
        let _ = self.hear_until(clock, Until::Moment, earliest);
        let now = clock.milliseconds();
        self.start_times.note(app, now)?;
        let mut started = App::start(rt, self.alloc, app, words, surroundings, now)?;
        self.register(&mut started)?;
        self.apps.push(started)?;
        Ok(())
    }

    /// Gives all bytes to the application, within 5 seconds, and within its turn. Tells whether it took them.
    pub(crate) fn give<C: Clock>(&mut self, clock: &mut C, app: u32, bytes: &[u8]) -> bool {
        self.write_out();
        let Some(place) = app_place(&self.apps, app) else {
            return false;
        };
        let now = clock.milliseconds();
        let deadline = self.begin_give(place, bytes, now);
        let mut rest = bytes;
        for _ in 0..u64::MAX {
            if rest.is_empty() {
                return true;
            }
            match self.give_some(place, rest) {
                Some(count) => rest = &rest[count..],
                None => return false,
            }
            if rest.is_empty() {
                return true;
            }
            if self.hear_until(clock, Until::Taking(place), deadline) != Ok(true) {
                return false;
            }
        }
        false
    }

    /// The application is given these bytes. Tells until when it has to take them.
    fn begin_give(&mut self, place: usize, bytes: &[u8], now: u64) -> Deadline {
        let call = Deadline::after(now, CALL_MILLISECONDS);
        match self.apps.get_mut(place) {
            Some(running) => {
                running.until = turn_end(running.until, bytes, now);
                call.earlier(running.until)
            }
            None => call,
        }
    }

    /// Gives a front of the bytes to the application at this place, if it takes any.
    fn give_some(&mut self, place: usize, bytes: &[u8]) -> Option<usize>
        ensures { IfSome result (λ count. count ≤ length bytes.now) }
    {
        self.apps.get_mut(place)?.give(bytes)
    }

    /// Takes what the application gives, within 5 seconds, and within its turn.
    pub(crate) fn take<C: Clock>(&mut self, clock: &mut C, app: u32, buf: &mut [u8]) -> Taken
        requires { 0 < length buf.old }
        ensures { IsTakenIn result buf.new }
    {
        self.write_out();
        let Some(place) = app_place(&self.apps, app) else {
            return Taken::Closed;
        };
        let now = clock.milliseconds();
        let deadline = self.end_of_take(place, now);
        if deadline.is_over(now) {
            return Taken::Silent;
        }
        for _ in 0..u64::MAX {
            if let Intake::Told(taken) = self.take_some(place, buf) {
                return taken;
            }
            match self.hear_until(clock, Until::Given(place), deadline) {
                Ok(true) => {}
                Ok(false) => break,
                Err(_) => return Taken::Closed,
            }
        }
        Taken::Silent
    }

    /// Until when the application at this place has to give a byte.
    fn end_of_take(&self, place: usize, now: u64) -> Deadline {
        match self.apps.get(place) {
            Some(running) => take_end(running.until, now),
            None => Deadline { at: now },
        }
    }

    /// Takes what the application at this place has given, if something may wait.
    fn take_some(&mut self, place: usize, buf: &mut [u8]) -> Intake
        requires { 0 < length buf.old }
        ensures taken { IsIntakeIn result buf.new }
        ensures len { length buf.new ≡ length buf.old }
    {
        match self.apps.get_mut(place) {
            Some(running) if running.ready.is_readable => running.take(buf),
            Some(_) => Intake::Nothing,
            None => Intake::Told(Taken::Closed),
        }
    }

    /// Ends the application, if it was started.
    pub(crate) fn end_app(&mut self, app: u32) {
        self.write_out();
        if let Some(place) = app_place(&self.apps, app) {
            if place < self.apps.len() {
                drop(self.apps.remove(place));
            }
        }
    }
}
