//! The links of a network, each way of each link by itself.

ghost use Rattle.std.specs.Prelude.{◌≡◌, ◌∷◌, [], ◌++◌, OnOk, IfOk};
ghost use Rattle.net_guard.specs.Links.{hops_of};

use guard_rule::Link;
use std::alloc::{AllocError, Global};

/// One way of a link: packets that leave a switch by the port `from` come in at the port `to`.
#[derive(Clone, Copy, Debug, PartialEq, Eq)]
pub struct Hop {
    /// The switch and the port that packets leave by.
    pub from: (u64, u16),
    /// The switch and the port that they come in at.
    pub to: (u64, u16),
}

/// Lists both ways of each link, in the order of the links.
pub(crate) fn hops_of(alloc: Global, links: &[Link]) -> Result<Vec<Hop>, AllocError>
    ensures { IfOk result (λ hops. hops.items ≡ hops_of links.now) }
{
    let mut hops = Vec::new(alloc);
    for link in links {
        hops.push(Hop {
            from: link.a,
            to: link.b,
        })?;
        hops.push(Hop {
            from: link.b,
            to: link.a,
        })?;
    }
    Ok(hops)
}
