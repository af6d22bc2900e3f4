//! What is drawn to happen in a round.

ghost use Rattle.std.specs.Prelude.{◌≡◌, ◌+◌, ◌^◌, ◌<◌, ◌≤◌, IfOk, OnOk};
ghost use Rattle.outside.specs.State.{moment_after};
ghost use Rattle.session_gen.specs.Draws.{next, behind};
ghost use Rattle.session_gen.specs.Rounds.{frame_drawn, moment_drawn, change_drawn, port_drawn, happening_drawn, behind_happening};

use crate::draws::Draws;
use of_types::{ByteList, PortChange, Stimulus, WorldStim};
use std::alloc::{AllocError, Global};

/// An Ethernet header alone: from 02:00:00:00:00:01 to all stations.
const BROADCAST: [u8; 14] = [
    0xff, 0xff, 0xff, 0xff, 0xff, 0xff, 0x02, 0, 0, 0, 0, 0x01, 0x88, 0xb5,
];

/// Draws at which port of which switch the frame arrives.
fn draw_frame(alloc: Global, draws: &mut Draws) -> Result<WorldStim, AllocError>
    ensures value { IfOk result (λ x. x ≡ frame_drawn draws.old.state) }
    ensures state { OnOk result (draws.new.state ≡ behind 2 draws.old.state) }
{
    let dpid = 1 + u64::from(draws.draw(2));
    let port = 1 + draws.draw(4);
    let bytes = ByteList::from_slice(alloc, &BROADCAST)?;
    Ok(WorldStim::Of(dpid, Stimulus::Frame { port, bytes }))
}

/// Draws whether a link goes or comes.
fn draw_change(draws: &mut Draws) -> PortChange
    ensures value { result ≡ change_drawn draws.old.state }
    ensures state { draws.new.state ≡ next draws.old.state }
{
    if draws.draw(2) == 0 {
        PortChange::Down
    } else {
        PortChange::Up
    }
}

/// Draws which link goes or comes.
fn draw_port(draws: &mut Draws) -> WorldStim
    ensures value { result ≡ port_drawn draws.old.state }
    ensures state { draws.new.state ≡ behind 3 draws.old.state }
{
    let dpid = 1 + u64::from(draws.draw(2));
    let port = 1 + draws.draw(4);
    let change = draw_change(draws);
    WorldStim::Of(dpid, Stimulus::Port { port, change })
}

/// Draws how much time passes, and moves the moment on.
fn draw_moment(draws: &mut Draws, moment: &mut u64) -> WorldStim
    requires { moment.old < 2 ^ 63 }
    ensures value { result ≡ moment_drawn moment.old draws.old.state }
    ensures moment { moment.new ≡ moment_after result moment.old }
    ensures soon { moment.new ≤ moment.old + 4 }
    ensures state { draws.new.state ≡ next draws.old.state }
{
    *moment += u64::from(draws.draw(5));
    WorldStim::At(*moment)
}

/// Draws what happens, behind a moment.
#[tactic(auto, unfolding(crate::specs::Rounds::happening_drawn, crate::specs::Rounds::behind_happening))]
pub(crate) fn draw_happening(
    alloc: Global,
    draws: &mut Draws,
    moment: &mut u64,
) -> Result<WorldStim, AllocError>
    requires { moment.old < 2 ^ 63 }
    ensures value { IfOk result (λ x. x ≡ happening_drawn moment.old draws.old.state) }
    ensures moment { IfOk result (λ x. moment.new ≡ moment_after x moment.old) }
    ensures soon { moment.new ≤ moment.old + 4 }
    ensures state { OnOk result (draws.new.state ≡ behind_happening draws.old.state) }
{
    match draws.draw(4) {
        1 => Ok(draw_moment(draws, moment)),
        2 => Ok(draw_port(draws)),
        _ => draw_frame(alloc, draws),
    }
}
