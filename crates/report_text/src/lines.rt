//! What happened, a line for each fact.

ghost use Rattle.std.specs.Prelude.{◌≡◌, IfOk};
ghost use Rattle.lego_model.specs.RunReport as report;

use crate::words::{alive_word, cause_words, kept_word, kind_word, tried_word};
use app_frames::{EventKind, Tried};
use lego_model::TurnWord;
use of_types::{ByteList, Dpid};
use std::alloc::{AllocError, Global};

/// Writes `start APP WORD`: how an attempt to start the application ended.
#[tactic(auto, unfolding(lego_model::specs::RunReport::start_line, lego_model::specs::RunReport::line_of))]
pub fn start_line(alloc: Global, app: &str, tried: &Tried) -> Result<ByteList, AllocError>
    ensures { IfOk result (λ line. line ≡ report.start_line app.now tried.now) }
{
    let word = tried_word(*tried);
    let line = format!(in alloc; "start {app} {word}\n")?;
    Ok(ByteList::from_vec(line.into_bytes()))
}

/// Writes `gone APP`: the application is gone.
#[tactic(auto, unfolding(lego_model::specs::RunReport::gone_line, lego_model::specs::RunReport::line_of))]
pub fn gone_line(alloc: Global, app: &str) -> Result<ByteList, AllocError>
    ensures { IfOk result (λ line. line ≡ report.gone_line app.now) }
{
    let line = format!(in alloc; "gone {app}\n")?;
    Ok(ByteList::from_vec(line.into_bytes()))
}

/// Writes `event N KIND DPID`: the event with this number is dispatched.
#[tactic(auto, unfolding(lego_model::specs::RunReport::event_line, lego_model::specs::RunReport::line_of))]
pub fn event_line(
    alloc: Global,
    number: u64,
    kind: EventKind,
    dpid: Dpid,
) -> Result<ByteList, AllocError>
    ensures { IfOk result (λ line. line ≡ report.event_line number kind dpid) }
{
    let word = kind_word(kind);
    let line = format!(in alloc; "event {number} {word} {dpid}\n")?;
    Ok(ByteList::from_vec(line.into_bytes()))
}

/// Writes `turn APP done`, `turn APP stop` or `turn APP failed CAUSE`: how the turn of the application ended.
#[tactic(auto, unfolding(lego_model::specs::RunReport::turn_line, lego_model::specs::RunReport::line_of))]
pub fn turn_line(alloc: Global, app: &str, word: &TurnWord) -> Result<ByteList, AllocError>
    ensures { IfOk result (λ line. line ≡ report.turn_line app.now word.now) }
{
    let line = match word {
        TurnWord::Done => format!(in alloc; "turn {app} done\n")?,
        TurnWord::Stop => format!(in alloc; "turn {app} stop\n")?,
        TurnWord::Failed(cause) => {
            let words = cause_words(*cause);
            format!(in alloc; "turn {app} failed {words}\n")?
        }
    };
    Ok(ByteList::from_vec(line.into_bytes()))
}

/// Writes `instead APP KIND DPID done`, `instead APP KIND DPID stop` or `instead APP KIND DPID failed CAUSE`: how the turn of the
/// application ended at an event that it was given in place of another.
#[tactic(auto, unfolding(lego_model::specs::RunReport::instead_line, lego_model::specs::RunReport::line_of))]
pub fn instead_line(
    alloc: Global,
    app: &str,
    kind: EventKind,
    dpid: Dpid,
    word: &TurnWord,
) -> Result<ByteList, AllocError>
    ensures { IfOk result (λ line. line ≡ report.instead_line app.now kind dpid word.now) }
{
    let event = kind_word(kind);
    let line = match word {
        TurnWord::Done => format!(in alloc; "instead {app} {event} {dpid} done\n")?,
        TurnWord::Stop => format!(in alloc; "instead {app} {event} {dpid} stop\n")?,
        TurnWord::Failed(cause) => {
            let words = cause_words(*cause);
            format!(in alloc; "instead {app} {event} {dpid} failed {words}\n")?
        }
    };
    Ok(ByteList::from_vec(line.into_bytes()))
}

/// Writes `group APP kept` or `group APP undone`: what becomes of the turns at the events that the application was given in place
/// of one.
#[tactic(auto, unfolding(lego_model::specs::RunReport::group_line, lego_model::specs::RunReport::line_of))]
pub fn group_line(alloc: Global, app: &str, kept: bool) -> Result<ByteList, AllocError>
    ensures { IfOk result (λ line. line ≡ report.group_line app.now kept) }
{
    let word = kept_word(kept);
    let line = format!(in alloc; "group {app} {word}\n")?;
    Ok(ByteList::from_vec(line.into_bytes()))
}

/// Writes `out DPID LEN`: a packet of so many bytes was released to the switch.
#[tactic(auto, unfolding(lego_model::specs::RunReport::out_line, lego_model::specs::RunReport::line_of))]
pub fn out_line(alloc: Global, dpid: Dpid, len: u32) -> Result<ByteList, AllocError>
    ensures { IfOk result (λ line. line ≡ report.out_line dpid len) }
{
    let line = format!(in alloc; "out {dpid} {len}\n")?;
    Ok(ByteList::from_vec(line.into_bytes()))
}

/// Writes `lost DPID`: the switch was lost.
#[tactic(auto, unfolding(lego_model::specs::RunReport::lost_line, lego_model::specs::RunReport::line_of))]
pub fn lost_line(alloc: Global, dpid: Dpid) -> Result<ByteList, AllocError>
    ensures { IfOk result (λ line. line ≡ report.lost_line dpid) }
{
    let line = format!(in alloc; "lost {dpid}\n")?;
    Ok(ByteList::from_vec(line.into_bytes()))
}

/// Writes `switch DPID flows N`: how many entries a joined switch has at the end.
#[tactic(auto, unfolding(lego_model::specs::RunReport::switch_line, lego_model::specs::RunReport::line_of))]
pub fn switch_line(alloc: Global, dpid: Dpid, flows: u64) -> Result<ByteList, AllocError>
    ensures { IfOk result (λ line. line ≡ report.switch_line dpid flows) }
{
    let line = format!(in alloc; "switch {dpid} flows {flows}\n")?;
    Ok(ByteList::from_vec(line.into_bytes()))
}

/// Writes `app NAME alive done D failed F`, or `dead` for one that is gone: how many turns completed and failed.
#[tactic(auto, unfolding(lego_model::specs::RunReport::app_line, lego_model::specs::RunReport::line_of))]
pub fn app_line(
    alloc: Global,
    app: &str,
    alive: bool,
    done: u64,
    failed: u64,
) -> Result<ByteList, AllocError>
    ensures { IfOk result (λ line. line ≡ report.app_line app.now alive done failed) }
{
    let word = alive_word(alive);
    let line = format!(in alloc; "app {app} {word} done {done} failed {failed}\n")?;
    Ok(ByteList::from_vec(line.into_bytes()))
}

/// Writes `end MOMENT events E`: the last moment, in seconds from the start, and how many events were dispatched.
#[tactic(auto, unfolding(lego_model::specs::RunReport::end_line, lego_model::specs::RunReport::line_of))]
pub fn end_line(alloc: Global, moment: u64, events: u64) -> Result<ByteList, AllocError>
    ensures { IfOk result (λ line. line ≡ report.end_line moment events) }
{
    let line = format!(in alloc; "end {moment} events {events}\n")?;
    Ok(ByteList::from_vec(line.into_bytes()))
}
