//! The session that is drawn.

ghost use Rattle.std.specs.Prelude.{◌≡◌, ◌+◌, ◌*◌, ◌∷◌, [], ◌++◌, ◌≤◌, ◌^◌, ◌<◌, map, IfOk, OnOk};
ghost use Rattle.of_types.specs.declared.journal.WorldStim.TheVariants as world;
ghost use Rattle.session_gen.specs.Turns.{plain_end};
ghost use Rattle.session_gen.specs.Rounds.{turns_drawn, happenings_drawn};
ghost use Rattle.session_gen.specs.Sessions.{switch_numbered, replies_drawn, stimuli_drawn, IsDrawn};

use crate::draws::Draws;
use crate::rounds::draw_happening;
use crate::turns::{draw_turn, plain_turn};
use lego_model::Session;
use of_types::{Dpid, PortNo, WorldStim};
use session_lists::{ReplyList, StimulusList};
use std::alloc::{AllocError, Global};

/// The index of the one application.
const APP: u32 = 0;

/// How many entries each switch has room for.
const ROOM: u32 = 64;

/// The ports of each switch.
const PORTS: [PortNo; 4] = [1, 2, 3, 4];

/// What is drawn: the turns of the application, and what happens.
#[derive(Drop, Debug)]
struct Script {
    replies: ReplyList,
    stimuli: StimulusList,
}

/// Two turns that change nothing, and two switches that join.
fn beginning(alloc: Global) -> Result<Script, AllocError>
    ensures replies { IfOk result (λ s. s.replies ≡ (0, plain_end ∷ []) ∷ (0, plain_end ∷ []) ∷ []) }
    ensures stimuli { IfOk result (λ s. s.stimuli ≡ world.Join 1 ∷ world.Join 2 ∷ []) }
{
    let turn = plain_turn(alloc)?;
    let mut replies = ReplyList::new(alloc);
    replies.push(APP, &turn)?;
    replies.push(APP, &turn)?;
    let mut stimuli = StimulusList::new(alloc);
    stimuli.push(&WorldStim::Join(1))?;
    stimuli.push(&WorldStim::Join(2))?;
    Ok(Script { replies, stimuli })
}

/// Draws the rounds, and puts them behind what there is.
fn draw_rounds(
    alloc: Global,
    draws: &mut Draws,
    count: u32,
    script: &mut Script,
) -> Result<(), AllocError>
    ensures replies { OnOk result (script.new.replies ≡ script.old.replies ++ map (λ turn. (0, turn)) (turns_drawn count draws.old.state)) }
    ensures stimuli { OnOk result (script.new.stimuli ≡ script.old.stimuli ++ happenings_drawn count 0 draws.old.state) }
{
    let mut moment = 0;
    for _ in 0..count {
        let turn = draw_turn(alloc, draws)?;
        script.replies.push(APP, &turn)?;
        let happening = draw_happening(alloc, draws, &mut moment)?;
        script.stimuli.push(&happening)?;
    }
    Ok(())
}

/// Draws the turns and what happens.
fn draw_script(alloc: Global, start: u64, count: u32) -> Result<Script, AllocError>
    ensures replies { IfOk result (λ s. s.replies ≡ replies_drawn count start) }
    ensures stimuli { IfOk result (λ s. s.stimuli ≡ stimuli_drawn count start) }
{
    let mut script = beginning(alloc)?;
    let mut draws = Draws { state: start };
    draw_rounds(alloc, &mut draws, count, &mut script)?;
    Ok(script)
}

/// Declares a switch.
fn switch(alloc: Global, dpid: Dpid) -> Result<(Dpid, u32, Vec<PortNo>), AllocError>
    ensures { IfOk result (λ d. (d.0, d.1, d.2.items) ≡ switch_numbered dpid) }
{
    Ok((dpid, ROOM, PORTS.to_vec(alloc)?))
}

/// Declares both switches.
fn switches(alloc: Global) -> Result<Vec<(Dpid, u32, Vec<PortNo>)>, AllocError>
    ensures { IfOk result (λ all. map (λ d. (d.0, d.1, d.2.items)) all.items ≡ switch_numbered 1 ∷ switch_numbered 2 ∷ []) }
{
    let mut all = Vec::new(alloc);
    all.push(switch(alloc, 1)?)?;
    all.push(switch(alloc, 2)?)?;
    Ok(all)
}

/// Draws the session of a start: two switches join, and `count` rounds follow, in each of which the application has a turn
/// to give and something happens. A start and a count give the same session each time. `AllocError` where memory runs out.
pub fn draw_session(alloc: Global, start: u64, count: u32) -> Result<Session, AllocError>
    ensures { IfOk result (IsDrawn start count) }
{
    let switches = switches(alloc)?;
    let script = draw_script(alloc, start, count)?;
    Ok(Session {
        switches,
        starts: Vec::new(alloc),
        replies: script.replies,
        faults: Vec::new(alloc),
        stimuli: script.stimuli,
    })
}
