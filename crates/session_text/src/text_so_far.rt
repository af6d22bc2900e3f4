//! What has been read of a session text.

ghost use Rattle.std.specs.Prelude.{◌≡◌, ◌==◌, Ok, nat_le, length, map};
ghost use Rattle.std.specs.List.{list_any};
ghost use Rattle.lego_model.specs.SessionWords.{a_number as a_number_in, last_number};
ghost use Rattle.lego_model.specs.SessionLines.{most_stimuli, no_session, is_declared as is_declared_in, a_switch as a_switch_in, a_new_switch as a_new_switch_in, with_switch as with_switch_in, with_start as with_start_in, with_reply as with_reply_in, with_fault as with_fault_in, with_stimulus as with_stimulus_in};
ghost use Rattle.session_text.specs.TextGives.{Gives};
ghost use Rattle.session_text.specs.SessionView.{view_so_far, view_declared};

use crate::text_fault::LineFault;
use crate::text_words::a_number;
use app_frames::StartScript;
use lego_model::{Session, SessionKind};
use of_types::{Dpid, WorldStim};
use session_lists::{ReplyList, StepList, StimulusList};
use std::alloc::Global;

/// How many switches a session has at most.
const MOST_SWITCHES: usize = 64;

/// How many stimuli a session has at most.
const MOST_STIMULI: usize = 1_000_000;

/// The session that has been read so far.
#[derive(Drop, Debug)]
pub struct SoFar {
    pub session: Session,
    /// The last moment that it named, in seconds, or 0.
    pub moment: u64,
}

/// Returns what has been read before the first line: nothing.
pub fn nothing(alloc: Global) -> SoFar
    ensures { view_so_far result ≡ record { session = no_session; moment = 0 } }
{
    SoFar {
        session: Session {
            switches: Vec::new(alloc),
            starts: Vec::new(alloc),
            replies: ReplyList::new(alloc),
            faults: Vec::new(alloc),
            stimuli: StimulusList::new(alloc),
        },
        moment: 0,
    }
}

/// Tells whether a switch has this number.
fn is_among(switches: &[(Dpid, u32, Vec<u16>)], dpid: Dpid) -> bool
    ensures { result ≡ list_any (λ d. d.0 == dpid) (map view_declared switches.now) }
{
    for switch in switches {
        if switch.0 == dpid {
            return true;
        }
    }
    false
}

/// Tells whether the switch is declared above.
fn is_declared(so_far: &SoFar, dpid: Dpid) -> bool
    ensures { result ≡ is_declared_in (view_so_far so_far.now) dpid }
{
    is_among(&so_far.session.switches, dpid)
}

/// Reads a word that is a switch's number, declared or not.
fn a_dpid(word: &[u8]) -> Result<Dpid, LineFault>
    ensures { Gives (λ n. n) result (a_number_in 1 last_number word.now) }
{
    a_number(word, 1, u64::MAX)
}

/// Reads the number of a switch that is declared above.
#[tactic(auto, unfolding(lego_model::specs::SessionLines::a_switch))]
pub fn a_switch(so_far: &SoFar, word: &[u8]) -> Result<Dpid, LineFault>
    ensures { Gives (λ n. n) result (a_switch_in (view_so_far so_far.now) word.now) }
{
    let dpid = a_dpid(word)?;
    if !is_declared(so_far, dpid) {
        return Err(LineFault::Kind(SessionKind::Switch));
    }
    Ok(dpid)
}

/// Reads the number of a switch that is not yet declared.
#[tactic(auto, unfolding(lego_model::specs::SessionLines::a_new_switch))]
pub fn a_new_switch(so_far: &SoFar, word: &[u8]) -> Result<Dpid, LineFault>
    ensures { Gives (λ n. n) result (a_new_switch_in (view_so_far so_far.now) word.now) }
{
    let dpid = a_dpid(word)?;
    if is_declared(so_far, dpid) {
        return Err(LineFault::Kind(SessionKind::Switch));
    }
    Ok(dpid)
}

/// Tells whether no more switches may be declared.
pub fn has_most_switches(so_far: &SoFar) -> bool
    ensures { result ≡ nat_le 64 (length (view_so_far so_far.now).session.switches) }
{
    so_far.session.switches.len() >= MOST_SWITCHES
}

/// Tells whether no more stimuli may follow.
pub fn has_most_stimuli(so_far: &SoFar) -> bool
    ensures { result ≡ nat_le most_stimuli (length (view_so_far so_far.now).session.stimuli) }
{
    so_far.session.stimuli.len() >= MOST_STIMULI
}

/// With one more declared switch.
pub fn with_switch(
    mut so_far: SoFar,
    dpid: Dpid,
    capacity: u32,
    ports: Vec<u16>,
) -> Result<SoFar, LineFault>
    ensures { Gives view_so_far result (Ok (with_switch_in (view_so_far so_far) (dpid, capacity, ports.items))) }
{
    so_far.session.switches.push((dpid, capacity, ports))?;
    Ok(so_far)
}

/// With one more start.
pub fn with_start(mut so_far: SoFar, app: u32, start: StartScript) -> Result<SoFar, LineFault>
    ensures { Gives view_so_far result (Ok (with_start_in (view_so_far so_far) (app, start))) }
{
    so_far.session.starts.push((app, start))?;
    Ok(so_far)
}

/// With one more turn.
pub fn with_reply(mut so_far: SoFar, app: u32, script: StepList) -> Result<SoFar, LineFault>
    ensures { Gives view_so_far result (Ok (with_reply_in (view_so_far so_far) (app, script))) }
{
    so_far.session.replies.push(app, &script)?;
    Ok(so_far)
}

/// With one more call that fails.
pub fn with_fault(mut so_far: SoFar, dpid: Dpid, count: u64) -> Result<SoFar, LineFault>
    ensures { Gives view_so_far result (Ok (with_fault_in (view_so_far so_far) (dpid, count))) }
{
    so_far.session.faults.push((dpid, count))?;
    Ok(so_far)
}

/// With one more stimulus.
pub fn with_stimulus(mut so_far: SoFar, stimulus: WorldStim) -> Result<SoFar, LineFault>
    ensures { Gives view_so_far result (Ok (with_stimulus_in (view_so_far so_far) stimulus)) }
{
    so_far.session.stimuli.push(&stimulus)?;
    Ok(so_far)
}
