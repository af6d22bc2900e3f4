//! What a simulated world is given before anything happens.

ghost use Rattle.std.specs.Prelude.{◌≡◌, ◌<◌, ◌≤◌, [], ◌∷◌, ◌++◌, false, length, IfOk, OnOk, OnErr};
ghost use Rattle.outside.specs.Seen.{is_declared};
ghost use Rattle.outside.specs.State.{is_link_call, fails_of, link_at_first};
ghost use Rattle.sim_world.specs.World.{given_of};
ghost use Rattle.sim_world.specs.Building.{nothing_given, with_switch, with_stimulus, with_fail, with_start, with_reply, with_replies, with_stimuli, IsNew, Gets};
ghost use Rattle.sim_world.specs.laws.BuildingLaws.{switch_more, stimulus_more, link_fail_more, other_fail_more};

use crate::history::History;
use crate::link::SimLink;
use crate::links::Links;
use crate::lives::Lives;
use crate::parts::Parts;
use crate::tally::Tally;
use crate::told::Told;
use app_frames::{Script, StartScript};
use of_types::{Dpid, PortNo, WorldStim};
use outside::{CallKind, FailCall};
use session_lists::{ReplyList, StepList, StimulusList};
use std::alloc::{AllocError, Global};
use std::collections::VecDeque;

fn is_link_call(kind: CallKind) -> bool
    ensures { result ≡ is_link_call kind }
{
    matches!(kind, CallKind::Link)
}

/// Lets a call fail, where it is one of the link.
fn fail_call(link: &mut SimLink, fail: &FailCall) -> Result<(), AllocError>
    ensures ok { OnOk result (link.new.link ≡ record link.old.link {
      fails = link.old.link.fails ++ fails_of link.old.link.declared.dpid (fail.now ∷ []);
    }) }
{
    if is_link_call(fail.kind) && fail.of == link.dpid() {
        link.fail_at(fail.number)
    } else {
        Ok(())
    }
}

/// Makes a switch that is out, of whose link those of the calls are to fail that are its own.
fn new_link(
    alloc: Global,
    fails: &[FailCall],
    dpid: Dpid,
    cap: u32,
    ports: &[PortNo],
) -> Result<SimLink, AllocError>
    requires { length ports.now ≤ 64 }
    ensures { IfOk result (λ s. s.link ≡ link_at_first fails.now (record { dpid = dpid; cap = cap; ports = ports.now })) }
{
    let mut link = SimLink::new(alloc, dpid, cap, ports)?;
    for fail in fails {
        fail_call(&mut link, fail)?;
    }
    Ok(link)
}

impl Parts {
    /// Makes a world with no switch and no script, in which nothing happened.
    pub(crate) fn new(alloc: Global) -> Result<Parts, AllocError>
        ensures new { IfOk result IsNew }
        ensures given { IfOk result (λ w. given_of w ≡ nothing_given) }
    {
        Ok(Parts {
            alloc,
            lives: Lives::new(alloc)?,
            stimuli: StimulusList::new(alloc),
            fails: Vec::new(alloc),
            told: Told::new(alloc),
            history: History::new(),
            tally: Tally::new(alloc),
            opened: false,
            running: Vec::new(alloc),
            moment: 0,
            begun_stimuli: 0,
            links: Links::new(alloc),
            due: VecDeque::new(alloc),
            begun: false,
            nexts: 0,
            calls: 0,
        })
    }

    /// Puts a switch among the others, and its counts.
    fn put_switch(&mut self, link: SimLink) -> Result<(), AllocError>
        requires first { link.link ≡ link_at_first self.old.fails link.link.declared }
        requires number { 1 ≤ link.link.declared.dpid }
        requires cap { link.link.declared.cap ≤ 4096 }
        requires absent { is_declared link.link.declared.dpid (given_of self.old).declared ≡ false }
        requires few { length (given_of self.old).declared < 64 }
        ensures ok { OnOk result (self.new ≡ switch_more link.link.declared self.old) }
        ensures err { OnErr result (self.new ≡ self.old) }
    {
        self.tally.add(link.dpid())?;
        let put = self.links.insert(link);
        if put.is_err() {
            self.tally.remove_last();
        }
        put
    }

    /// Declares a switch: its number, from 1 on and not declared yet, how many entries its table takes, at most 4,096, and
    /// its ports, at most 64. Fewer than 64 are declared. After want of memory the world is as before.
    pub(crate) fn add_switch(
        &mut self,
        dpid: Dpid,
        cap: u32,
        ports: &[PortNo],
    ) -> Result<(), AllocError>
        requires new { IsNew self.old }
        requires number { 1 ≤ dpid }
        requires absent { is_declared dpid (given_of self.old).declared ≡ false }
        requires cap { cap ≤ 4096 }
        requires ports { length ports.now ≤ 64 }
        requires few { length (given_of self.old).declared < 64 }
        ensures ok { OnOk result (Gets (with_switch (record { dpid = dpid; cap = cap; ports = ports.now })) self.old self.new) }
        ensures err { OnErr result (self.new ≡ self.old) }
    {
        let link = new_link(self.alloc, &self.fails, dpid, cap, ports)?;
        self.put_switch(link)
    }

    /// Puts a stimulus behind the others, of which none is begun.
    fn put_stimulus(&mut self, x: WorldStim) -> Result<(), AllocError>
        ensures ok { OnOk result (self.new ≡ stimulus_more x self.old) }
        ensures err { OnErr result (self.new ≡ self.old) }
    {
        self.stimuli.push(&x)?;
        self.begun_stimuli = 0;
        Ok(())
    }

    /// Adds one stimulus. After want of memory the world is as before.
    pub(crate) fn add_stimulus(&mut self, x: WorldStim) -> Result<(), AllocError>
        requires new { IsNew self.old }
        ensures ok { OnOk result (Gets (with_stimulus x) self.old self.new) }
        ensures err { OnErr result (self.new ≡ self.old) }
    {
        self.put_stimulus(x)
    }

    /// Adds all stimuli at once, where none was given.
    pub(crate) fn add_stimuli(&mut self, stimuli: StimulusList)
        requires new { IsNew self.old }
        requires none { (given_of self.old).stimuli ≡ [] }
        ensures { Gets (with_stimuli stimuli) self.old self.new }
    {
        self.stimuli = stimuli;
        self.begun_stimuli = 0;
    }

    /// Adds all that applications give in their turns, where nothing of it was given.
    pub(crate) fn add_replies(&mut self, replies: ReplyList)
        requires new { IsNew self.old }
        requires none { (given_of self.old).own.replies ≡ [] }
        ensures { Gets (with_replies replies) self.old self.new }
    {
        self.lives.add_replies(replies);
    }

    /// Adds what an application gives in its next turn. After want of memory the world is as before.
    pub(crate) fn add_reply(&mut self, app: u32, reply: Script) -> Result<(), AllocError>
        requires new { IsNew self.old }
        ensures ok { OnOk result (Gets (with_reply app reply) self.old self.new) }
        ensures err { OnErr result (self.new ≡ self.old) }
    {
        self.lives
            .add_reply(app, &StepList::from_script(self.alloc, &reply)?)
    }

    /// Adds how the next start of an application ends. After want of memory the world is as before.
    pub(crate) fn add_start(&mut self, app: u32, start: StartScript) -> Result<(), AllocError>
        requires new { IsNew self.old }
        ensures ok { OnOk result (Gets (with_start app start) self.old self.new) }
        ensures err { OnErr result (self.new ≡ self.old) }
    {
        self.lives.add_start(app, start)
    }

    /// Notes a call of a link that is to fail, and tells the link, where it is declared.
    fn put_link_fail(&mut self, fail: FailCall) -> Result<(), AllocError>
        ensures ok { OnOk result (self.new ≡ link_fail_more fail self.old) }
        ensures err { OnErr result (self.new ≡ self.old) }
    {
        self.fails.reserve(1)?;
        self.links.fail_at(fail.of, fail.number)?;
        self.fails.push_reserved(fail);
        Ok(())
    }

    /// Notes another call that is to fail.
    fn put_other_fail(&mut self, fail: FailCall) -> Result<(), AllocError>
        ensures ok { OnOk result (self.new ≡ other_fail_more fail self.old) }
        ensures err { OnErr result (self.new ≡ self.old) }
    {
        self.fails.reserve(1)?;
        self.told.add(fail)?;
        self.fails.push_reserved(fail);
        Ok(())
    }

    /// Tells the call of a kind with this number, counted from 1, to fail; `of` is the switch's number or the
    /// application's index. After want of memory the world is as before.
    pub(crate) fn fail_call(
        &mut self,
        kind: CallKind,
        of: u64,
        number: u64,
    ) -> Result<(), AllocError>
        requires new { IsNew self.old }
        ensures ok { OnOk result (Gets (with_fail (record { kind = kind; of = of; number = number })) self.old self.new) }
        ensures err { OnErr result (self.new ≡ self.old) }
    {
        self.links.are_in_order();
        let fail = FailCall { kind, of, number };
        if is_link_call(kind) {
            self.put_link_fail(fail)
        } else {
            self.put_other_fail(fail)
        }
    }
}
