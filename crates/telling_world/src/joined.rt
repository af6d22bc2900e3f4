//! The switches that are joined.

ghost use Rattle.std.specs.Prelude.{◌≡◌, [], ◌==◌, not, filter, IfOk, OnOk, OnErr, IsErr, true, false};
ghost use Rattle.of_types.specs.Membership.{is_among};
ghost use Rattle.telling_world.specs.Story.{Lists};

use of_types::Dpid;
use std::alloc::{AllocError, Global};
use std::marker::Model;

/// The numbers of the switches that are joined. Contracts see them as a list.
#[derive(Drop)]
pub(crate) struct Joined {
    dpids: Vec<Dpid>,
}

impl Model for Joined {
    ghost use Rattle.std.specs.Prelude.{List, ℕ};

    ghost Value = { List ℕ };

    ghost view = { λ j. j.dpids.items };
}

/// Takes a number out of a list of them.
fn take_out(dpids: &mut Vec<Dpid>, dpid: Dpid)
    ensures { dpids.new.items ≡ filter (λ m. not (m == dpid)) dpids.old.items }
{
    dpids.retain(|joined| *joined != dpid);
}

impl Joined {
    /// None is joined. Takes no memory.
    pub(crate) fn new(alloc: Global) -> Joined
        ensures { result ≡ [] }
    {
        Joined {
            dpids: Vec::new(alloc),
        }
    }

    /// Tells whether a switch is joined.
    pub(crate) fn holds(&self, dpid: Dpid) -> bool
        ensures { result ≡ is_among dpid self.now }
    {
        self.dpids.iter().any(|joined| *joined == dpid)
    }

    /// Puts a switch in, unless it is there. Where memory is refused, all is as before.
    #[tactic(auto, using(crate::specs::laws::JoinedLaws::among_more, crate::specs::laws::JoinedLaws::among_there))]
    pub(crate) fn insert(&mut self, dpid: Dpid) -> Result<(), AllocError>
        ensures lists { OnOk result (Lists dpid true self.old self.new) }
        ensures refused { OnErr result (self.new ≡ self.old) }
    {
        if !self.holds(dpid) {
            self.dpids.push(dpid)?;
        }
        Ok(())
    }

    /// Takes a switch out. Takes no memory.
    #[tactic(auto, using(crate::specs::laws::JoinedLaws::among_without))]
    pub(crate) fn remove(&mut self, dpid: Dpid)
        ensures { Lists dpid false self.old self.new }
    {
        take_out(&mut self.dpids, dpid);
    }
}
