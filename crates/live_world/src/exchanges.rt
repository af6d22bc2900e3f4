//! What is said to switches, and what they answer.

ghost use Rattle.std.specs.Prelude.{◌≡◌, ◌≤◌, length, IfOk};
ghost use Rattle.outside.specs.Calls.{most_message, IsMessageIn};
ghost use Rattle.outside.specs.Parting.{IsReadIn};
ghost use Rattle.live_world.specs.Connection.{IsAnswerIn};

use crate::clock::Clock;
use crate::connection::Answer;
use crate::deadline::Deadline;
use crate::event_loop::{EventLoop, Until};
use crate::places::{deadline_at, has_ended, place_of};
use of_types::{Dpid, kinds};
use outside::LinkFault;

/// Tells whether a message is a BARRIER_REPLY, of which its caller keeps nothing to be told later.
fn is_barrier_reply(message: &[u8]) -> bool {
    message.get(1) == Some(&kinds::BARRIER_REPLY)
}

impl EventLoop {
    /// Takes the message to be sent to the switch over. It goes out at the next call that depends on it, or now where much waits, within
    /// 5 seconds. Where that fails the switch is lost: its connection is closed, with all that came on it, and no `Left` is told for it.
    pub(crate) fn send<C: Clock>(
        &mut self,
        clock: &mut C,
        dpid: Dpid,
        frame: &[u8],
    ) -> Result<(), LinkFault> {
        let Some(place) = place_of(&self.connections, dpid) else {
            return Err(LinkFault::Failed);
        };
        if has_ended(&self.connections, place) {
            return self.lose(place);
        }
        let now = clock.milliseconds();
        let must_wait = match self.connections.get_mut(place) {
            Some(Some(connection)) => connection.send(frame, now).map_err(|_| LinkFault::Short)?,
            _ => false,
        };
        if must_wait && !self.is_sent(clock, place) {
            return self.lose(place);
        }
        Ok(())
    }

    /// A packet that may come back was sent to the switch: what it tells until its next barrier's reply may be that packet.
    pub(crate) fn await_packet(&mut self, dpid: Dpid) {
        if let Some(place) = place_of(&self.connections, dpid) {
            if let Some(Some(connection)) = self.connections.get_mut(place) {
                connection.returned.await_packet();
            }
        }
    }

    /// Waits until what is to be sent went out. Tells whether it did.
    fn is_sent<C: Clock>(&mut self, clock: &mut C, place: usize) -> bool {
        let Some(deadline) = deadline_at(&self.connections, place) else {
            return false;
        };
        let is_there = self.hear_until(clock, Until::Sent(place), deadline);
        is_there == Ok(true) && !has_ended(&self.connections, place)
    }

    /// Closes the connection of a switch that is lost.
    fn lose(&mut self, place: usize) -> Result<(), LinkFault> {
        self.close(place);
        Err(LinkFault::Failed)
    }

    /// Ends the link of the switch, if it has joined: it is lost.
    pub(crate) fn part(&mut self, dpid: Dpid) {
        if let Some(place) = place_of(&self.connections, dpid) {
            self.close(place);
        }
    }

    /// Writes what is to be sent to switches, as far as it is taken at once.
    pub(crate) fn write_out(&mut self) {
        for place in 0..self.connections.len() {
            if let Some(Some(connection)) = self.connections.get_mut(place) {
                connection.write_out();
            }
        }
    }

    /// Takes the next message of the switch that answers a request, within 5 seconds of that. Where that fails the switch is lost, as
    /// where `send` fails. Where memory runs out nothing is lost.
    pub(crate) fn recv<C: Clock>(
        &mut self,
        clock: &mut C,
        dpid: Dpid,
        buf: &mut [u8],
    ) -> Result<usize, LinkFault>
        requires { most_message ≤ length buf.old }
        ensures { IfOk result (λ n. IsMessageIn ⊥ n buf.new × IsReadIn buf.new n) }
    {
        let Some(place) = place_of(&self.connections, dpid) else {
            return Err(LinkFault::Failed);
        };
        let Some(deadline) = deadline_at(&self.connections, place) else {
            return Err(LinkFault::Failed);
        };
        let received = self.receive(clock, place, deadline, buf);
        match received {
            Ok(_) => self.has_told = self.has_told || !is_barrier_reply(buf),
            Err(LinkFault::Failed) => {
                self.close(place);
            }
            Err(LinkFault::Short) => {}
        }
        received
    }

    /// Takes the next message of the connection at this place that answers a request.
    fn receive<C: Clock>(
        &mut self,
        clock: &mut C,
        place: usize,
        deadline: Deadline,
        buf: &mut [u8],
    ) -> Result<usize, LinkFault>
        requires { most_message ≤ length buf.old }
        ensures { IfOk result (λ n. IsMessageIn ⊥ n buf.new × IsReadIn buf.new n) }
    {
        let mut is_over = false;
        for _ in 0..u64::MAX {
            match self.answer_at(place, buf)? {
                Answer::Reply(size) => return Ok(size),
                Answer::Over => break,
                Answer::Nothing if is_over => break,
                Answer::Nothing => {}
            }
            // What had come by then is still looked at, once.
            is_over = deadline.is_over(clock.milliseconds());
            if self.hear_until(clock, Until::Heard(place), deadline) != Ok(true) {
                break;
            }
        }
        Err(LinkFault::Failed)
    }

    /// Looks for an answer on the connection at this place.
    fn answer_at(&mut self, place: usize, buf: &mut [u8]) -> Result<Answer, LinkFault>
        requires { most_message ≤ length buf.old }
        ensures answer { IfOk result (λ answer. IsAnswerIn answer buf.new) }
        ensures len { length buf.new ≡ length buf.old }
    {
        match self.connections.get_mut(place) {
            Some(Some(connection)) => {
                connection
                    .answer(self.calls, buf)
                    .map_err(|_| LinkFault::Short)
            }
            _ => Ok(Answer::Over),
        }
    }
}
