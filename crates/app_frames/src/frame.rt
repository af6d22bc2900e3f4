//! Frames of both directions.

ghost use Rattle.std.specs.Prelude.{◌↔◌, IsTrue};
ghost use Rattle.app_frames.specs.Frames.{AppFits, HostFits};

use of_types::limits::MOST_MESSAGE_BYTES;
use of_types::{ByteList, Dpid, OfError};

/// What an application tells the host.
#[derive(Drop, Debug, Clone, PartialEq, Eq)]
pub enum AppFrame {
    /// A message of OpenFlow 1.0, of 8 to 65,535 bytes, for the switch of that datapath id.
    Message(Dpid, ByteList),
    /// Marks the state of the switches as it is now; at most 7 marks are open.
    Save,
    /// Forgets the newest mark.
    Keep,
    /// Goes back to the newest mark, and forgets it.
    Undo,
    /// The event is done. With `stop` no further application is given it; a checkpoint, of at most
    /// 1,048,576 bytes, takes the place of the one that is kept.
    Done {
        stop: bool,
        checkpoint: Option<ByteList>,
    },
    /// The application has started from its checkpoint.
    Ready,
}

/// What the host tells an application.
#[derive(Drop, Debug, Clone, PartialEq, Eq)]
pub enum HostFrame {
    /// Start from this checkpoint, which is empty at the first start.
    Restore(ByteList),
    /// An event; `moment` is in seconds from the start.
    Event {
        number: u64,
        moment: u64,
        event: Event,
    },
    /// The answer to one message, save, keep or undo.
    Answer(Answer),
}

/// The answer to one frame of an application.
#[derive(Drop, Debug, Clone, PartialEq, Eq)]
pub enum Answer {
    /// It was done.
    Fine,
    /// It was refused by the host or by the switch.
    Error(OfError),
    /// The type of statistics (OpenFlow 1.0.0, 5.3.5 Read State Messages) and the bodies of all parts
    /// of the reply, one after the other.
    Statistics(u16, ByteList),
    /// The switch is not joined.
    Unknown,
}

/// What happened at a switch.
#[derive(Drop, Debug, Clone, PartialEq, Eq)]
pub struct Event {
    /// What kind of thing happened.
    pub kind: EventKind,
    /// The switch's datapath id.
    pub dpid: Dpid,
    /// A message with xid 0, the ports of a switch that left, or an error's kind and code.
    pub body: ByteList,
}

/// What kind of thing happened.
#[derive(Clone, Copy, Debug, PartialEq, Eq)]
pub enum EventKind {
    /// The switch joined; the body is its FEATURES_REPLY.
    Join = 1,
    /// The switch left; the body has its ports.
    Leave,
    /// A PACKET_IN came.
    PacketIn,
    /// A FLOW_REMOVED came.
    FlowRemoved,
    /// A PORT_STATUS came.
    PortStatus,
    /// An ERROR came that answers nothing that is awaited.
    SwitchError,
}

/// How many bytes a checkpoint has at most: 1 MiB, our own choice.
pub const MOST_CHECKPOINT_BYTES: usize = 1_048_576;

/// How many bytes a frame of the host can have behind its length: as many as four bytes say.
const ROOM: usize = 0xffff_ffff;

impl AppFrame {
    /// Tells whether the frame can be written: a message has 8 to 65,535 bytes, a checkpoint at most 1,048,576.
    pub fn fits(&self) -> bool
        ensures { IsTrue result ↔ AppFits self.now }
    {
        match self {
            AppFrame::Message(_, bytes) => (8..=MOST_MESSAGE_BYTES).contains(&bytes.len()),
            AppFrame::Done {
                checkpoint: Some(checkpoint),
                ..
            } => checkpoint.len() <= MOST_CHECKPOINT_BYTES,
            _ => true,
        }
    }
}

impl HostFrame {
    /// Tells whether the frame can be written: four bytes can say its length.
    pub fn fits(&self) -> bool
        ensures { IsTrue result ↔ HostFits self.now }
    {
        match self {
            HostFrame::Restore(checkpoint) => checkpoint.len() <= ROOM - 1,
            HostFrame::Event { event, .. } => event.body.len() <= ROOM - 26,
            HostFrame::Answer(Answer::Statistics(_, body)) => body.len() <= ROOM - 4,
            HostFrame::Answer(_) => true,
        }
    }
}
