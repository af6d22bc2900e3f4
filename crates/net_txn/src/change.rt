//! One change of a flow table.

ghost use Rattle.std.specs.Prelude.{◌≡◌, IfErr, OnOk, OnErr, MatchResult};
ghost use Rattle.of_wire.specs.declared.message.Message.TheVariants as messages;
ghost use Rattle.of_wire.specs.Grammar.{IsMessage};
ghost use Rattle.net_txn.specs.Parting.{IsPlainHalt};
ghost use Rattle.net_txn.specs.Said.{Speaks};
ghost use Rattle.net_txn.specs.Causes.{IsHaltCause, IsPlain};
ghost use Rattle.net_txn.specs.Answering.{Asked, IfGivenUp};
ghost use Rattle.net_txn.specs.Making.{StaysBut, Halts, forgets, log_halted, Makes};
ghost use Rattle.net_txn.specs.Changes.{Changes};
ghost use Rattle.net_txn.specs.Net.{logged_by, with_logged};

use crate::exchange::ask;
use crate::halt::Halt;
use crate::host::{HostAnswer, answer_bytes};
use crate::logged::Logged;
use crate::net::{Net, await_from, following};
use crate::notices::take_effect;
use crate::prepared::{Prepared, prepare};
use crate::rows::key_of;
use app_frames::Answer;
use lego_model::TxnFault;
use of_types::Dpid;
use of_wire::FlowMod;
use outside::World;
use std::alloc::AllocError;

/// Logs what undoes a change, where there is something to undo.
fn push_logged(log: &mut Vec<Logged>, entry: Option<Logged>) -> Result<(), AllocError>
    ensures ok { OnOk result (log.new.items ≡ with_logged entry log.old.items) }
    ensures err { OnErr result (log.new.items ≡ log.old.items) }
{
    if let Some(entry) = entry {
        log.push(entry)?;
    }
    Ok(())
}

/// Tells whether what undoes a change is forgotten: where its switch was lost, and where a fault came and a row has its
/// key already.
fn is_forgotten(known: bool, made: &Result<Answer, Halt>) -> bool
    ensures { result ≡ forgets known made.now }
{
    match made {
        Ok(_) => false,
        Err(Halt::Lost) => true,
        Err(Halt::Fault(_)) => known,
    }
}

impl Net {
    /// Sends a change that the switch must answer, and takes its answer. Where it halts since it may have been sent, what
    /// undoes it stays logged.
    fn make<W: World>(&mut self, world: &mut W, dpid: Dpid, flow: FlowMod) -> Result<Answer, Halt>
        requires { IsMessage (messages.FlowMod flow) }
        ensures result { MatchResult result (Asked W.Tells dpid flow (W.seen world.old) (W.seen world.new) self.old self.new)
            (Halts W.Tells dpid flow (with_logged (logged_by dpid flow) self.old.log) (W.seen world.old) (W.seen world.new) self.old self.new) }
        ensures speaks { Speaks W.Tells dpid self.old.xid 2 (W.seen world.old) (W.seen world.new) }
        ensures cause { IfErr result (IsHaltCause W.Tells dpid (W.seen world.old) (W.seen world.new)) }
        ensures flooded { IfErr result (IfGivenUp W.Tells dpid flow (W.seen world.old) (W.seen world.new) self.old) }
        ensures stays { StaysBut self.old self.new }
        ensures parted { W.CanPart → IfErr result IsPlainHalt }
    {
        let awaited = await_from(dpid, self.xid);
        self.xid = following(awaited.barrier);
        let Prepared { frame, row, logged } = prepare(self.alloc, dpid, awaited.first, flow)?;
        self.views.make_room(dpid)?;
        let before = self.log.len();
        push_logged(&mut self.log, logged)?;
        let answer = ask(
            world,
            self.alloc,
            &mut self.buf,
            &mut self.kept,
            &awaited,
            frame.as_slice(),
        )?;
        match answer.refusal {
            None => {
                take_effect(
                    self.alloc,
                    &mut self.views,
                    &mut self.notices,
                    dpid,
                    row,
                    &answer.notices,
                )?;
                Ok(Answer::Fine)
            }
            Some(refusal) => {
                self.log.truncate(before);
                Ok(Answer::Error(refusal.error))
            }
        }
    }

    /// Makes a change that the switch must answer. Where a fault comes, what undoes it stays logged, unless a row has its
    /// key already: such a change the switch refuses, and its inverse would remove what was there before. Where the switch
    /// is lost, nothing of it stays logged.
    fn make_or_forget<W: World>(
        &mut self,
        world: &mut W,
        dpid: Dpid,
        flow: FlowMod,
    ) -> Result<Answer, Halt>
        requires { IsMessage (messages.FlowMod flow) }
        ensures result { MatchResult result (Asked W.Tells dpid flow (W.seen world.old) (W.seen world.new) self.old self.new)
            (λ halt. Halts W.Tells dpid flow (log_halted dpid flow self.old halt) (W.seen world.old) (W.seen world.new) self.old self.new halt) }
        ensures speaks { Speaks W.Tells dpid self.old.xid 2 (W.seen world.old) (W.seen world.new) }
        ensures cause { IfErr result (IsHaltCause W.Tells dpid (W.seen world.old) (W.seen world.new)) }
        ensures flooded { IfErr result (IfGivenUp W.Tells dpid flow (W.seen world.old) (W.seen world.new) self.old) }
        ensures stays { StaysBut self.old self.new }
        ensures parted { W.CanPart → IfErr result IsPlainHalt }
    {
        let known = self.views.is_row(dpid, &key_of(&flow));
        let before = self.log.len();
        let made = self.make(world, dpid, flow);
        if is_forgotten(known, &made) {
            self.log.truncate(before);
        }
        made
    }

    /// Makes a change that the switch must answer; where the switch is lost meanwhile, it is answered by `Unknown`.
    fn make_or_lose<W: World>(
        &mut self,
        world: &mut W,
        dpid: Dpid,
        flow: FlowMod,
    ) -> Result<Answer, TxnFault>
        requires { IsMessage (messages.FlowMod flow) }
        ensures makes { Makes W.Tells dpid flow (W.seen world.old) (W.seen world.new) self.old self.new result }
        ensures parted { W.CanPart → IfErr result IsPlain }
    {
        match self.make_or_forget(world, dpid, flow) {
            Ok(answer) => Ok(answer),
            Err(Halt::Fault(fault)) => Err(fault),
            Err(Halt::Lost) => {
                self.lose(dpid);
                Ok(Answer::Unknown)
            }
        }
    }

    /// Answers one message of an application for a switch: by the host's own tests, else by the switch behind a
    /// barrier, a change by its answer and a request by its statistics, or by `Unknown` where the switch is lost meanwhile.
    pub(crate) fn change<W: World>(
        &mut self,
        world: &mut W,
        dpid: Dpid,
        bytes: &[u8],
    ) -> Result<Answer, TxnFault>
        ensures changes { Changes W.Tells dpid bytes.now (W.seen world.old) (W.seen world.new) self.old self.new result }
        ensures parted { W.CanPart → IfErr result IsPlain }
    {
        let Some(view) = self.views.find(dpid) else {
            return Ok(Answer::Unknown);
        };
        match answer_bytes(self.alloc, bytes, view.rows.as_slice())? {
            HostAnswer::Answered(answer) => Ok(answer),
            HostAnswer::Holds(packet) => {
                self.hold(dpid, packet)?;
                Ok(Answer::Fine)
            }
            HostAnswer::Asks(flow) => self.make_or_lose(world, dpid, flow),
            HostAnswer::Queries(query) => self.query_or_lose(world, dpid, query),
        }
    }
}
