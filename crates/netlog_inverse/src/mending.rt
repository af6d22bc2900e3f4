//! Images that are set right when the entry that stands for them goes.

ghost use Rattle.std.specs.Prelude.{◌≡◌, ◌<◌, length, map, vec_capacity};
ghost use Rattle.netlog_inverse.specs.Index.{IsIndex};
ghost use Rattle.netlog_inverse.specs.Log.{changed_at};
ghost use Rattle.netlog_inverse.specs.Mending.{is_standing, set_standing, set_right};

use crate::image::{Logged, PutBack};
use crate::index::{Spot, first_from};
use crate::log::mend_one;
use crate::planning::hard_left;
use flow_table::Lost;
use of_match::Key;
use of_types::Dpid;
use std::alloc::Global;

/// Tells whether the entry at the key of an image stands for it.
fn is_standing(logged: &Logged) -> bool
    ensures { result ≡ is_standing logged.now.image }
{
    logged.image.stands && matches!(logged.image.put, PutBack::Row { row: Some(_), .. })
}

/// Sets an image right for which an entry stood that went.
#[tactic(auto, unfolding(crate::specs::Mending::set_standing))]
fn mend_standing(alloc: Global, logged: &mut Logged, lost: Lost)
    ensures { logged.new ≡ set_standing lost logged.old }
{
    if is_standing(logged) {
        let hard = hard_left(lost.hard, lost.age);
        mend_one(alloc, logged, Some(lost), hard, false);
    }
}

fn mend_standing_at(alloc: Global, logged: &mut [Logged], at: usize, lost: Lost)
    requires { at < length logged.old }
    ensures { logged.new ≡ changed_at at (set_standing lost) logged.old }
{
    mend_standing(alloc, &mut logged[at], lost);
}

fn mend_standing_in(alloc: Global, logged: &mut Vec<Logged>, at: usize, lost: Lost)
    requires { at < length logged.old.items }
    ensures items { logged.new.items ≡ changed_at at (set_standing lost) logged.old.items }
    ensures room { vec_capacity logged.new ≡ vec_capacity logged.old }
{
    mend_standing_at(alloc, logged, at, lost);
}

/// Sets all images of a key right for which its entry stood that went.
pub(crate) fn mend_images(
    alloc: Global,
    logged: &mut Vec<Logged>,
    index: &[Spot],
    dpid: Dpid,
    key: &Key,
    lost: Lost,
)
    requires index { IsIndex logged.old.items index.now }
    ensures items { logged.new.items ≡ map (set_right dpid key.now lost) logged.old.items }
    ensures room { vec_capacity logged.new ≡ vec_capacity logged.old }
{
    let mut from = 0;
    while let Some(at) = first_from(index, dpid, key, from) {
        mend_standing_in(alloc, logged, at, lost);
        from = at + 1;
    }
}
