//! An application that makes each switch that joins drop some packets.

ghost use Rattle.std.specs.Prelude.{◌≡◌, ◌≤◌, length, IfOk};
ghost use Rattle.of_wire.specs.Spelling.{message_size};
ghost use Rattle.machine_apps.specs.Block.{drop_of, drops, drops_at, block_answers};

use crate::saying::{done_keeping_nothing, host_frame, say_all, told};
use app_frames::{AppFrame, Event, EventKind, HostFrame};
use app_objects::{AppObject, Step};
use of_action::ActionList;
use of_match::Match;
use of_types::{Dpid, flows, ports};
use of_wire::{FlowMod, Message};
use std::alloc::{AllocError, Global};
use std::marker::Model;

/// The priority of the flows.
const PRIORITY: u16 = 65_000;

/// The flow that drops the packets of the match.
#[tactic(auto, unfolding(of_wire::specs::Spelling::message_size, crate::specs::Block::drop_of))]
fn drop_of(alloc: Global, matching: Match) -> Message
    ensures value { result ≡ drop_of matching }
    ensures size { message_size result ≡ 72 }
{
    Message::FlowMod(FlowMod {
        matching,
        cookie: 0,
        command: flows::ADD,
        idle: 0,
        hard: 0,
        priority: PRIORITY,
        buffer_id: flows::NO_BUFFER,
        out_port: ports::NONE,
        flags: 0,
        actions: ActionList::new(alloc),
    })
}

/// The frames that add a flow for each match.
fn drops(alloc: Global, dpid: Dpid, rows: &[Match]) -> Result<Vec<AppFrame>, AllocError>
    ensures { IfOk result (λ frames. frames.items ≡ drops dpid rows.now) }
{
    let mut frames = Vec::new(alloc);
    for matching in rows {
        let message = drop_of(alloc, *matching);
        frames
            .push(told(alloc, dpid, &message)?)
            .map_err(AllocError::from)?;
    }
    Ok(frames)
}

/// An application that makes each switch that joins drop the packets of some matches. It keeps nothing. Contracts see the
/// matches.
#[derive(Drop)]
pub struct Block {
    alloc: Global,
    rows: Vec<Match>,
}

impl Model for Block {
    ghost use Rattle.std.specs.Prelude.{List};
    ghost use Rattle.of_match.specs.declared.flow_match.Match.{Match};

    ghost Value = { List Match };

    ghost view = { λ b. b.rows.items };
}

impl Block {
    /// Drops the packets of these matches, so many that a turn has at most 1,000 frames.
    pub fn new(alloc: Global, rows: &[Match]) -> Result<Block, AllocError>
        requires { length rows.now ≤ 999 }
        ensures { IfOk result (λ block. block ≡ rows.now) }
    {
        let mut own = Vec::new(alloc);
        own.extend_from_slice(rows)?;
        Ok(Block { alloc, rows: own })
    }

    /// The frames before Done.
    fn drops_at(&self, event: &Event) -> Result<Vec<AppFrame>, AllocError>
        ensures { IfOk result (λ frames. frames.items ≡ drops_at event.now.kind event.now.dpid self.now) }
    {
        if event.kind == EventKind::Join {
            drops(self.alloc, event.dpid, &self.rows)
        } else {
            Ok(Vec::new(self.alloc))
        }
    }

    /// Handles an event: gives all frames for it, of which Done with an empty checkpoint is the last.
    pub fn turn(&self, event: &Event) -> Result<Vec<AppFrame>, AllocError>
        ensures { IfOk result (λ frames. frames.items ≡ block_answers self.now event.now tt) }
    {
        let mut frames = self.drops_at(event)?;
        frames
            .push(done_keeping_nothing(self.alloc))
            .map_err(AllocError::from)?;
        Ok(frames)
    }
}

impl AppObject for Block {
    ghost use Rattle.machine_apps.specs.Block.{block_gives};

    ghost gives = { λ s frames. block_gives s frames };

    ghost would = { λ s checkpoint frames. block_gives s frames };

    fn restore(&mut self, _checkpoint: &[u8]) -> Result<(), AllocError> {
        Ok(())
    }

    #[tactic(auto, unfolding(app_objects::specs::ByEvents::frame_in))]
    fn react(&mut self, frame: &[u8], out: &mut Vec<u8>) -> Result<Step, AllocError> {
        match host_frame(self.alloc, frame)? {
            Some(HostFrame::Event { event, .. }) => {
                let frames = self.turn(&event)?;
                say_all(self.alloc, &frames, out)
            }
            Some(_) => Ok(Step::Alive),
            None => Ok(Step::Died),
        }
    }
}
