//! What a simulated world is given before anything happens, one thing at a time.

ghost use Rattle.std.specs.Prelude.{◌≡◌, ◌<◌, ◌≤◌, [], false, length, IfOk, OnOk, OnErr};
ghost use Rattle.outside.specs.Conforming.{ArePortsFrom, IsWorldStim};
ghost use Rattle.outside.specs.Seen.{is_declared};
ghost use Rattle.sim_world.specs.World.{given_of, seen_of, CanCome};
ghost use Rattle.sim_world.specs.Building.{nothing_given, last_moment_of, with_switch, with_stimulus, with_fail, with_start, with_reply, with_replies, with_stimuli, IsNew, Gets, Begins};

use crate::parts::Parts;
use crate::world::SimWorld;
use app_frames::{Script, StartScript};
use of_types::{Dpid, PortNo, WorldStim};
use outside::CallKind;
use session_lists::{ReplyList, StimulusList};
use std::alloc::{AllocError, Global};

impl SimWorld {
    /// Makes a world with no switch and no script, in which nothing happened.
    pub fn new(alloc: Global) -> Result<SimWorld, AllocError>
        ensures new { IfOk result IsNew }
        ensures given { IfOk result (λ w. given_of w ≡ nothing_given) }
        ensures seen { IfOk result (λ w. Begins nothing_given (seen_of w)) }
    {
        Ok(SimWorld {
            parts: Parts::new(alloc)?,
        })
    }

    /// Declares a switch: its number, from 1 on and not declared yet, how many entries its table takes, at most 4,096, and
    /// its ports, at most 64, strictly ascending from 1 to 65,280. Fewer than 64 are declared. After want of memory the world
    /// is as before.
    pub fn add_switch(&mut self, dpid: Dpid, cap: u32, ports: &[PortNo]) -> Result<(), AllocError>
        requires new { IsNew self.old }
        requires number { 1 ≤ dpid }
        requires absent { is_declared dpid (given_of self.old).declared ≡ false }
        requires cap { cap ≤ 4096 }
        requires ports { length ports.now ≤ 64 }
        requires ports_is { ArePortsFrom 1 ports.now }
        requires few { length (given_of self.old).declared < 64 }
        ensures ok { OnOk result (Gets (with_switch (record { dpid = dpid; cap = cap; ports = ports.now })) self.old self.new) }
        ensures seen { OnOk result (Begins (with_switch (record { dpid = dpid; cap = cap; ports = ports.now }) (seen_of self.old).given) (seen_of self.new)) }
        ensures err { OnErr result (self.new ≡ self.old) }
    {
        self.parts.add_switch(dpid, cap, ports)
    }

    /// Adds one stimulus, of a declared switch and within its limits; its moment is not before the last one. After want
    /// of memory the world is as before.
    pub fn add_stimulus(&mut self, x: WorldStim) -> Result<(), AllocError>
        requires new { IsNew self.old }
        requires stimulus { IsWorldStim (given_of self.old).declared (last_moment_of (given_of self.old).stimuli) x }
        ensures ok { OnOk result (Gets (with_stimulus x) self.old self.new) }
        ensures seen { OnOk result (Begins (with_stimulus x (seen_of self.old).given) (seen_of self.new)) }
        ensures err { OnErr result (self.new ≡ self.old) }
    {
        self.parts.add_stimulus(x)
    }

    /// Adds what an application gives in its next turn. After want of memory the world is as before.
    pub fn add_reply(&mut self, app: u32, reply: Script) -> Result<(), AllocError>
        requires new { IsNew self.old }
        ensures ok { OnOk result (Gets (with_reply app reply) self.old self.new) }
        ensures seen { OnOk result (Begins (with_reply app reply (seen_of self.old).given) (seen_of self.new)) }
        ensures err { OnErr result (self.new ≡ self.old) }
    {
        self.parts.add_reply(app, reply)
    }

    /// Adds all stimuli at once, where none was given: each of a declared switch and within its limits, with moments
    /// that do not go back. Takes no memory.
    pub fn add_stimuli(&mut self, stimuli: StimulusList)
        requires new { IsNew self.old }
        requires none { (given_of self.old).stimuli ≡ [] }
        requires may { CanCome (given_of self.old).declared 0 stimuli }
        ensures gets { Gets (with_stimuli stimuli) self.old self.new }
    {
        self.parts.add_stimuli(stimuli);
    }

    /// Adds all that applications give in their turns at once, where nothing of it was given. Takes no memory.
    pub fn add_replies(&mut self, replies: ReplyList)
        requires new { IsNew self.old }
        requires none { (given_of self.old).own.replies ≡ [] }
        ensures gets { Gets (with_replies replies) self.old self.new }
    {
        self.parts.add_replies(replies);
    }

    /// Adds how the next start of an application ends. After want of memory the world is as before.
    pub fn add_start(&mut self, app: u32, start: StartScript) -> Result<(), AllocError>
        requires new { IsNew self.old }
        ensures ok { OnOk result (Gets (with_start app start) self.old self.new) }
        ensures seen { OnOk result (Begins (with_start app start (seen_of self.old).given) (seen_of self.new)) }
        ensures err { OnErr result (self.new ≡ self.old) }
    {
        self.parts.add_start(app, start)
    }

    /// Tells the call of a kind with this number, counted from 1, to fail; `of` is the switch's number or the
    /// application's index. After want of memory the world is as before.
    pub fn fail_call(&mut self, kind: CallKind, of: u64, number: u64) -> Result<(), AllocError>
        requires new { IsNew self.old }
        ensures ok { OnOk result (Gets (with_fail (record { kind = kind; of = of; number = number })) self.old self.new) }
        ensures seen { OnOk result (Begins (with_fail (record { kind = kind; of = of; number = number }) (seen_of self.old).given) (seen_of self.new)) }
        ensures err { OnErr result (self.new ≡ self.old) }
    {
        self.parts.fail_call(kind, of, number)
    }
}
