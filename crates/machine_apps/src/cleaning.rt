//! An application that deletes the flows to a port that went down.

ghost use Rattle.std.specs.Prelude.{◌≡◌, IfOk};
ghost use Rattle.of_wire.specs.Spelling.{message_size};
ghost use Rattle.machine_apps.specs.Down.{is_down};
ghost use Rattle.machine_apps.specs.Clean.{deletion_to, status_of, deletions_by, clean_answers};

use crate::saying::{done_keeping_nothing, host_frame, say_all, told};
use app_frames::{AppFrame, Event, EventKind, HostFrame};
use app_objects::{AppObject, Step};
use of_action::ActionList;
use of_match::Match;
use of_types::{Dpid, PortNo, flows, ports};
use of_wire::{FlowMod, Message, PortStatus, WireFault, decode};
use std::alloc::{AllocError, Global};

/// Whether the port went, or has no link.
fn is_down(status: &PortStatus) -> bool
    ensures { result ≡ is_down status.now }
{
    status.reason == ports::DELETE
        || status.reason == ports::MODIFY && status.port.state & ports::LINK_DOWN != 0
}

/// Deletes all flows to the port.
#[tactic(auto, unfolding(of_wire::specs::Spelling::message_size, crate::specs::Clean::deletion_to))]
fn deletion_to(alloc: Global, port: PortNo) -> Message
    ensures value { result ≡ deletion_to port }
    ensures size { message_size result ≡ 72 }
{
    Message::FlowMod(FlowMod {
        matching: Match::any(),
        cookie: 0,
        command: flows::DELETE,
        idle: 0,
        hard: 0,
        priority: 0,
        buffer_id: flows::NO_BUFFER,
        out_port: port,
        flags: 0,
        actions: ActionList::new(alloc),
    })
}

/// What the event tells of a port, where it does.
fn status_of(alloc: Global, event: &Event) -> Result<Option<PortStatus>, AllocError>
    ensures { IfOk result (λ status. status ≡ status_of event.now) }
{
    if event.kind != EventKind::PortStatus {
        return Ok(None);
    }
    match decode(alloc, event.body.as_slice()) {
        Ok(envelope) => match envelope.message {
            Message::PortStatus(status) => Ok(Some(status)),
            _ => Ok(None),
        },
        Err(WireFault::NoMemory) => Err(AllocError),
        Err(_) => Ok(None),
    }
}

/// The frames before Done: one that deletes all flows to a port that went down.
fn deletions(
    alloc: Global,
    dpid: Dpid,
    status: Option<PortStatus>,
) -> Result<Vec<AppFrame>, AllocError>
    ensures { IfOk result (λ frames. frames.items ≡ deletions_by dpid status) }
{
    let mut frames = Vec::new(alloc);
    if let Some(status) = status
        && is_down(&status)
    {
        let message = deletion_to(alloc, status.port.port_no);
        frames
            .push(told(alloc, dpid, &message)?)
            .map_err(AllocError::from)?;
    }
    Ok(frames)
}

/// An application that deletes the flows to a port that went down. It keeps nothing.
#[derive(Drop)]
pub struct Clean {
    alloc: Global,
}

impl Clean {
    /// Takes no memory.
    pub fn new(alloc: Global) -> Clean {
        Clean { alloc }
    }

    /// Handles an event: gives all frames for it, of which Done with an empty checkpoint is the last.
    pub fn turn(&self, event: &Event) -> Result<Vec<AppFrame>, AllocError>
        ensures { IfOk result (λ frames. frames.items ≡ clean_answers event.now tt) }
    {
        let status = status_of(self.alloc, event)?;
        let mut frames = deletions(self.alloc, event.dpid, status)?;
        frames
            .push(done_keeping_nothing(self.alloc))
            .map_err(AllocError::from)?;
        Ok(frames)
    }
}

impl AppObject for Clean {
    ghost use Rattle.machine_apps.specs.Clean.{clean_gives};

    ghost gives = { λ s frames. clean_gives frames };

    ghost would = { λ s checkpoint frames. clean_gives frames };

    fn restore(&mut self, _checkpoint: &[u8]) -> Result<(), AllocError> {
        Ok(())
    }

    #[tactic(auto, unfolding(app_objects::specs::ByEvents::frame_in))]
    fn react(&mut self, frame: &[u8], out: &mut Vec<u8>) -> Result<Step, AllocError> {
        match host_frame(self.alloc, frame)? {
            Some(HostFrame::Event { event, .. }) => {
                let frames = self.turn(&event)?;
                say_all(self.alloc, &frames, out)
            }
            Some(_) => Ok(Step::Alive),
            None => Ok(Step::Died),
        }
    }
}
