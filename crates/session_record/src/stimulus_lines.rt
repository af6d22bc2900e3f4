//! The lines of what happened.

ghost use Rattle.std.specs.Prelude.{◌≡◌, ◌++◌, OnOk, string_bytes};
ghost use Rattle.session_record.specs.Lines.{happened_text, stimulus_text};

use crate::line_words::change_word;
use of_types::{Dpid, Stimulus, WorldStim};
use std::alloc::{AllocError, Global};

/// Appends the line of what happened to a switch.
#[tactic(auto, unfolding(crate::specs::Lines::happened_text, lego_model::specs::RunReport::line_of))]
fn push_happened(
    alloc: Global,
    out: &mut String,
    dpid: Dpid,
    what: &Stimulus,
) -> Result<(), AllocError>
    ensures { OnOk result (string_bytes out.new ≡ string_bytes out.old ++ happened_text dpid what.now) }
{
    match what {
        Stimulus::Frame { port, bytes } => {
            let digits = hex::encode(alloc, bytes.as_slice())?;
            write!(out, "frame {dpid} {port} {digits}\n")
        }
        Stimulus::Advance(_) => Ok(()),
        Stimulus::Port { port, change } => {
            let word = change_word(*change);
            write!(out, "port {dpid} {port} {word}\n")
        }
        Stimulus::Counts {
            priority,
            packets,
            bytes,
        } => write!(out, "count {dpid} {priority} {packets} {bytes}\n"),
        Stimulus::Raw(bytes) => {
            let digits = hex::encode(alloc, bytes.as_slice())?;
            write!(out, "raw {dpid} {digits}\n")
        }
    }
}

/// Appends the line of a stimulus.
#[tactic(auto, unfolding(crate::specs::Lines::stimulus_text, lego_model::specs::RunReport::line_of))]
pub(crate) fn push_stimulus(
    alloc: Global,
    out: &mut String,
    stimulus: &WorldStim,
) -> Result<(), AllocError>
    ensures { OnOk result (string_bytes out.new ≡ string_bytes out.old ++ stimulus_text stimulus.now) }
{
    match stimulus {
        WorldStim::Join(dpid) => write!(out, "join {dpid}\n"),
        WorldStim::Leave(dpid) => write!(out, "leave {dpid}\n"),
        WorldStim::At(moment) => write!(out, "at {moment}\n"),
        WorldStim::Of(dpid, what) => push_happened(alloc, out, *dpid, what),
    }
}
