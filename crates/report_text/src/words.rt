//! The words of the lines.

ghost use Rattle.std.specs.Prelude.{◌≡◌};
ghost use Rattle.lego_model.specs.RunReport as report;

use app_frames::{Cause, EventKind, FrameFault, Tried};

/// Tells how an attempt to start an application ended.
pub(crate) fn tried_word(tried: Tried) -> &'static str
    ensures { result.now ≡ report.tried_word tried }
{
    match tried {
        Tried::Ready => "ready",
        Tried::Refused => "refused",
        Tried::Closed => "closed",
        Tried::Silent => "silent",
        Tried::Garbled => "garbled",
    }
}

/// Tells why a turn failed.
pub(crate) fn cause_words(cause: Cause) -> &'static str
    ensures { result.now ≡ report.cause_words cause }
{
    match cause {
        Cause::Closed => "closed",
        Cause::Silent => "silent",
        Cause::Garbled(FrameFault::TooLong) => "garbled long",
        Cause::Garbled(FrameFault::BadKind) => "garbled kind",
        Cause::Garbled(FrameFault::BadBody) => "garbled body",
        Cause::Budget => "budget",
        Cause::Depth => "depth",
        Cause::Unbalanced => "unbalanced",
        Cause::Judged => "judged",
    }
}

/// Tells what kind of event it is.
pub(crate) fn kind_word(kind: EventKind) -> &'static str
    ensures { result.now ≡ report.kind_word kind }
{
    match kind {
        EventKind::Join => "join",
        EventKind::Leave => "leave",
        EventKind::PacketIn => "packet_in",
        EventKind::FlowRemoved => "flow_removed",
        EventKind::PortStatus => "port_status",
        EventKind::SwitchError => "error",
    }
}

/// Tells whether the turns of a group are kept.
pub(crate) fn kept_word(kept: bool) -> &'static str
    ensures { result.now ≡ report.kept_word kept }
{
    if kept { "kept" } else { "undone" }
}

/// Tells whether an application is still there.
pub(crate) fn alive_word(alive: bool) -> &'static str
    ensures { result.now ≡ report.alive_word alive }
{
    if alive { "alive" } else { "dead" }
}
