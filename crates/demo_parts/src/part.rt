//! The parts of applications.

use app_frames::{AppFrame, Event, HostFrame, encode_app};
use machine_apps::{Clean, Learn, flow_frame};
use of_types::Dpid;
use std::alloc::{AllocError, Global};

/// The frame of a length of 1 and the kind 9, which does not exist.
const GARBAGE: [u8; 5] = [0, 0, 0, 1, 9];

/// The address to which the torn turn makes a flow.
const ADDRESS: [u8; 6] = [2, 0, 0, 0, 0, 9];

/// After how many seconds without a packet a flow goes.
const IDLE_SECONDS: u16 = 60;

/// An application.
#[derive(Drop)]
pub enum Part {
    /// A learning switch.
    Learn(Learn),
    /// It deletes the flows to a port that went down.
    Clean(Clean),
    /// It does nothing, and ends at its second event.
    Close { has_begun: bool },
    /// It does nothing, and gives bytes that are no frame at its second event.
    Garble { has_begun: bool },
    /// It does nothing at its first event. At its second one it adds a flow, and ends once that is answered.
    Tear { has_begun: bool },
}

/// What an application does next.
#[derive(Clone, Copy, Debug, PartialEq, Eq)]
pub enum Step {
    /// It goes on.
    GoesOn,
    /// It ends.
    Ends,
}

/// Writes the frame at the end of `out`, if it can be written.
fn say(alloc: Global, frame: &AppFrame, out: &mut Vec<u8>) -> Result<(), AllocError> {
    if frame.fits() {
        out.extend_from_slice(encode_app(alloc, frame)?.as_slice())?;
    }
    Ok(())
}

/// Writes all frames.
fn say_all(alloc: Global, frames: &[AppFrame], out: &mut Vec<u8>) -> Result<(), AllocError> {
    for frame in frames {
        say(alloc, frame, out)?;
    }
    Ok(())
}

/// Says Done without a checkpoint.
fn say_done(alloc: Global, out: &mut Vec<u8>) -> Result<(), AllocError> {
    let frame = AppFrame::Done {
        stop: false,
        checkpoint: None,
    };
    say(alloc, &frame, out)
}

/// Adds a flow to the switch.
fn say_flow(alloc: Global, dpid: Dpid, out: &mut Vec<u8>) -> Result<(), AllocError> {
    say(
        alloc,
        &flow_frame(alloc, IDLE_SECONDS, dpid, ADDRESS, 1)?,
        out,
    )
}

/// Does nothing at the first event. Tells whether it was the first.
fn pass_first(alloc: Global, has_begun: &mut bool, out: &mut Vec<u8>) -> Result<bool, AllocError> {
    if *has_begun {
        return Ok(false);
    }
    *has_begun = true;
    say_done(alloc, out)?;
    Ok(true)
}

impl Part {
    /// The part of this word, in its first state: `learn`, `clean`, `close` or `garble`.
    pub fn named(alloc: Global, word: &str) -> Option<Part> {
        match word {
            "learn" => Some(Part::Learn(Learn::new(alloc, IDLE_SECONDS))),
            "clean" => Some(Part::Clean(Clean::new(alloc))),
            "close" => Some(Part::Close { has_begun: false }),
            "garble" => Some(Part::Garble { has_begun: false }),
            _ => None,
        }
    }

    /// Answers one frame of the host, at the end of `out`.
    pub fn react(
        &mut self,
        alloc: Global,
        frame: &HostFrame,
        out: &mut Vec<u8>,
    ) -> Result<Step, AllocError> {
        match frame {
            HostFrame::Restore(checkpoint) => {
                if let Part::Learn(learn) = self {
                    *learn = Learn::restored(alloc, IDLE_SECONDS, checkpoint.as_slice())?;
                }
                say(alloc, &AppFrame::Ready, out)?;
                Ok(Step::GoesOn)
            }
            HostFrame::Event { event, .. } => self.handle(alloc, event, out),
            HostFrame::Answer(_) => match self {
                Part::Tear { .. } => Ok(Step::Ends),
                _ => Ok(Step::GoesOn),
            },
        }
    }

    /// Handles an event.
    fn handle(
        &mut self,
        alloc: Global,
        event: &Event,
        out: &mut Vec<u8>,
    ) -> Result<Step, AllocError> {
        match self {
            Part::Learn(learn) => say_all(alloc, &learn.turn(event)?, out)?,
            Part::Clean(clean) => say_all(alloc, &clean.turn(event)?, out)?,
            Part::Close { has_begun } => {
                if !pass_first(alloc, has_begun, out)? {
                    return Ok(Step::Ends);
                }
            }
            Part::Garble { has_begun } => {
                if !pass_first(alloc, has_begun, out)? {
                    out.extend_from_slice(&GARBAGE)?;
                }
            }
            Part::Tear { has_begun } => {
                if !pass_first(alloc, has_begun, out)? {
                    say_flow(alloc, event.dpid, out)?;
                }
            }
        }
        Ok(Step::GoesOn)
    }
}
