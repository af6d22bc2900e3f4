//! A session text, and a session that is drawn, given to a simulated world.

ghost use Rattle.std.specs.Prelude.{◌≡◌, ◌^◌, ◌<◌, ◌≤◌, map, string_bytes, OnOk};
ghost use Rattle.lego_model.specs.SessionFacts.{IsSession};
ghost use Rattle.lego_model.specs.SessionText.{session_text};
ghost use Rattle.sim_world.specs.World.{given_of, seen_of};
ghost use Rattle.sim_world.specs.Building.{nothing_given, IsNew, Begins};
ghost use Rattle.session_gen.specs.Sessions.{session_drawn};
ghost use Rattle.session_text.specs.SessionView.{view_session, view_declared};
ghost use Rattle.session_text.specs.Loading.{given_by, with_switches, with_faults, with_starts, Loads};
ghost use Rattle.session_text.specs.laws.LoadingLaws.{MayDeclare};

use crate::text_fault::SessionError;
use crate::whole_text::parse_session;
use app_frames::StartScript;
use lego_model::Session;
use of_types::Dpid;
use outside::CallKind;
use session_gen::draw_session;
use sim_world::SimWorld;
use std::alloc::{AllocError, Global};

/// Declares switches, in this order.
fn give_switches(sim: &mut SimWorld, switches: &[(Dpid, u32, Vec<u16>)]) -> Result<(), AllocError>
    requires new { IsNew sim.old }
    requires may { MayDeclare (given_of sim.old).declared (map view_declared switches.now) }
    ensures new { IsNew sim.new }
    ensures given { OnOk result (given_of sim.new ≡ with_switches (map view_declared switches.now) (given_of sim.old)) }
{
    for (dpid, capacity, ports) in switches {
        sim.add_switch(*dpid, *capacity, ports)?;
    }
    Ok(())
}

/// Lets link calls fail, in this order.
fn give_faults(sim: &mut SimWorld, faults: &[(Dpid, u64)]) -> Result<(), AllocError>
    requires { IsNew sim.old }
    ensures new { IsNew sim.new }
    ensures given { OnOk result (given_of sim.new ≡ with_faults faults.now (given_of sim.old)) }
{
    for (dpid, number) in faults {
        sim.fail_call(CallKind::Link, *dpid, *number)?;
    }
    Ok(())
}

/// Says how starts end, in this order.
fn give_starts(sim: &mut SimWorld, starts: &[(u32, StartScript)]) -> Result<(), AllocError>
    requires { IsNew sim.old }
    ensures new { IsNew sim.new }
    ensures given { OnOk result (given_of sim.new ≡ with_starts starts.now (given_of sim.old)) }
{
    for (app, start) in starts {
        sim.add_start(*app, *start)?;
    }
    Ok(())
}

/// Gives a session to a world that was given nothing.
fn give_session(sim: &mut SimWorld, session: Session) -> Result<(), AllocError>
    requires new { IsNew sim.old }
    requires nothing { given_of sim.old ≡ nothing_given }
    requires session { IsSession (view_session session) }
    ensures new { IsNew sim.new }
    ensures seen { OnOk result (Begins (given_by (view_session session)) (seen_of sim.new)) }
{
    give_switches(sim, &session.switches)?;
    give_faults(sim, &session.faults)?;
    give_starts(sim, &session.starts)?;
    sim.add_replies(session.replies);
    sim.add_stimuli(session.stimuli);
    Ok(())
}

/// Reads a session text into a simulated world that was given nothing.
///
/// The lines are counted from `first_line`, the number that the text's first line has in the whole input. An
/// application is named in the text as in `names`, and in the world by its place among them. A text that is no
/// session leaves the world as it was; want of memory may leave it with a part of the session.
pub fn read_session(
    alloc: Global,
    text: &[u8],
    first_line: u64,
    names: &[String],
    sim: &mut SimWorld,
) -> Result<(), SessionError>
    requires first { first_line < 2 ^ 63 }
    requires new { IsNew sim.old }
    requires nothing { given_of sim.old ≡ nothing_given }
    // Nothing has happened in the world yet.
    ensures new { IsNew sim.new }
    // It was given the session, or the text has this first fault, unless memory runs out.
    ensures exact { Loads result sim.old sim.new (session_text (map (λ s. string_bytes s) names.now) first_line text.now) }
{
    let session = parse_session(alloc, text, first_line, names)?;
    give_session(sim, session)?;
    Ok(())
}

/// Gives a simulated world that was given nothing the session that a start and a count draw, with at most 100,000 rounds.
///
/// Want of memory may leave the world with a part of the session.
pub fn generate(alloc: Global, start: u64, count: u32, sim: &mut SimWorld) -> Result<(), AllocError>
    requires rounds { count ≤ 100000 }
    requires new { IsNew sim.old }
    requires nothing { given_of sim.old ≡ nothing_given }
    // Nothing has happened in the world yet.
    ensures new { IsNew sim.new }
    // It was given the session, unless memory runs out.
    ensures exact { OnOk result (Begins (given_by (session_drawn start count)) (seen_of sim.new)) }
{
    let session = draw_session(alloc, start, count)?;
    give_session(sim, session)
}
