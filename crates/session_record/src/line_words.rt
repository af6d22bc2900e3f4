//! The words of lines.

ghost use Rattle.std.specs.Prelude.{◌≡◌, ◌++◌, ◌∷◌, length, IfOk, OnOk, string_bytes};
ghost use Rattle.std.specs.Fmt.{decimal};
ghost use Rattle.lego_model.specs.RunReport.{tried_word as tried_word_of, start_line};
ghost use Rattle.session_record.specs.Lines as lines;

use app_frames::Tried;
use of_types::{Dpid, PortChange, PortNo};
use outside::Decl;
use std::alloc::{AllocError, Global};

/// The word of how a start ended.
pub(crate) fn tried_word(tried: Tried) -> &'static str
    ensures { result.now ≡ tried_word_of tried }
{
    match tried {
        Tried::Ready => "ready",
        Tried::Refused => "refused",
        Tried::Closed => "closed",
        Tried::Silent => "silent",
        Tried::Garbled => "garbled",
    }
}

/// The word of what happened to a port.
pub(crate) fn change_word(change: PortChange) -> &'static str
    ensures { result.now ≡ lines.change_word change }
{
    match change {
        PortChange::Up => "up",
        PortChange::Down => "down",
        PortChange::Add => "add",
        PortChange::Delete => "delete",
    }
}

/// Appends each number behind a comma.
#[tactic(auto, using(crate::specs::laws::PushLaws::pushed))]
fn push_behind(out: &mut String, ports: &[PortNo]) -> Result<(), AllocError>
    ensures { OnOk result (string_bytes out.new ≡ string_bytes out.old ++ lines.ports_behind ports.now) }
{
    for port in ports {
        write!(out, ",{port}")?;
    }
    Ok(())
}

/// Appends numbers with commas between them, or a dash for none.
#[tactic(auto, unfolding(crate::specs::Lines::ports_text))]
fn push_ports(out: &mut String, ports: &[PortNo]) -> Result<(), AllocError>
    ensures { OnOk result (string_bytes out.new ≡ string_bytes out.old ++ lines.ports_text ports.now) }
{
    match ports {
        [] => out.push_str("-"),
        [first, more @ ..] => {
            write!(out, "{first}")?;
            push_behind(out, more)
        }
    }
}

/// Appends the line of a switch.
#[tactic(auto, unfolding(crate::specs::Lines::switch_text, lego_model::specs::RunReport::line_of))]
pub(crate) fn push_switch(out: &mut String, switch: &Decl) -> Result<(), AllocError>
    ensures { OnOk result (string_bytes out.new ≡ string_bytes out.old ++ lines.switch_text switch.now) }
{
    let (dpid, cap) = (switch.dpid, switch.cap);
    write!(out, "switch {dpid} {cap} ")?;
    push_ports(out, &switch.ports)?;
    out.push_str("\n")
}

/// Appends the line of a start.
#[tactic(auto, unfolding(lego_model::specs::RunReport::start_line, lego_model::specs::RunReport::line_of))]
pub(crate) fn push_start(out: &mut String, app: &str, tried: Tried) -> Result<(), AllocError>
    ensures { OnOk result (string_bytes out.new ≡ string_bytes out.old ++ start_line app.now tried) }
{
    let word = tried_word(tried);
    write!(out, "start {app} {word}\n")
}

/// Appends the line of a loss.
#[tactic(auto, unfolding(crate::specs::Lines::fault_text, lego_model::specs::RunReport::line_of))]
pub(crate) fn push_fault(out: &mut String, dpid: Dpid, call: u64) -> Result<(), AllocError>
    ensures { OnOk result (string_bytes out.new ≡ string_bytes out.old ++ lines.fault_text dpid call) }
{
    write!(out, "fault link {dpid} {call}\n")
}
