//! Frames of applications and of the host in words.

use crate::errors::ErrorWords;
use crate::messages::MessageWords;
use crate::names::statistics;
use app_frames::{Answer, AppFrame, Event, EventKind, HostFrame};
use of_types::{ByteList, OfError, get_u16};
use std::alloc::Global;
use std::fmt;

/// What an application tells the host, in words.
#[derive(Clone, Copy)]
pub struct AppWords<'a> {
    /// Where a message in the frame is read to.
    pub alloc: Global,
    /// The frame.
    pub frame: &'a AppFrame,
}

impl fmt::Display for AppWords<'_> {
    fn fmt<W: fmt::Write>(&self, f: &mut fmt::Formatter<W>) -> fmt::Result {
        match self.frame {
            AppFrame::Message(dpid, bytes) => {
                let message = MessageWords {
                    alloc: self.alloc,
                    bytes: bytes.as_slice(),
                };
                write!(f, "MESSAGE switch {dpid} {message}")
            }
            AppFrame::Save => f.write_str("SAVE"),
            AppFrame::Keep => f.write_str("KEEP"),
            AppFrame::Undo => f.write_str("UNDO"),
            AppFrame::Done { stop, checkpoint } => put_done(f, *stop, checkpoint.as_ref()),
            AppFrame::Ready => f.write_str("READY"),
        }
    }
}

fn put_done<W: fmt::Write>(
    f: &mut fmt::Formatter<W>,
    stop: bool,
    checkpoint: Option<&ByteList>,
) -> fmt::Result {
    f.write_str(if stop { "DONE stop" } else { "DONE" })?;
    match checkpoint {
        Some(bytes) => {
            let count = bytes.len();
            write!(f, " checkpoint bytes={count}")
        }
        None => Ok(()),
    }
}

/// What the host tells an application, in words.
#[derive(Clone, Copy)]
pub struct HostWords<'a> {
    /// Where a message in the frame is read to.
    pub alloc: Global,
    /// The frame.
    pub frame: &'a HostFrame,
}

impl fmt::Display for HostWords<'_> {
    fn fmt<W: fmt::Write>(&self, f: &mut fmt::Formatter<W>) -> fmt::Result {
        match self.frame {
            HostFrame::Restore(checkpoint) => {
                let count = checkpoint.len();
                write!(f, "RESTORE bytes={count}")
            }
            HostFrame::Event { number, event, .. } => put_event(f, self.alloc, *number, event),
            HostFrame::Answer(answer) => put_answer(f, answer),
        }
    }
}

fn event_word(kind: EventKind) -> &'static str {
    match kind {
        EventKind::Join => "join",
        EventKind::Leave => "leave",
        EventKind::PacketIn => "packet_in",
        EventKind::FlowRemoved => "flow_removed",
        EventKind::PortStatus => "port_status",
        EventKind::SwitchError => "error",
    }
}

/// An event by its number, its kind and its switch, and then the message that it tells.
fn put_event<W: fmt::Write>(
    f: &mut fmt::Formatter<W>,
    alloc: Global,
    number: u64,
    event: &Event,
) -> fmt::Result {
    let word = event_word(event.kind);
    let dpid = event.dpid;
    write!(f, "EVENT {number} {word} switch {dpid}")?;
    match event.kind {
        EventKind::Join | EventKind::Leave => Ok(()),
        EventKind::SwitchError => put_event_error(f, event.body.as_slice()),
        EventKind::PacketIn | EventKind::FlowRemoved | EventKind::PortStatus => {
            let message = MessageWords {
                alloc,
                bytes: event.body.as_slice(),
            };
            write!(f, " {message}")
        }
    }
}

/// The kind and the code of an error, two bytes each.
fn put_event_error<W: fmt::Write>(f: &mut fmt::Formatter<W>, body: &[u8]) -> fmt::Result {
    if body.len() != 4 {
        return Ok(());
    }
    let error = ErrorWords(OfError {
        kind: get_u16(body, 0),
        code: get_u16(body, 2),
    });
    write!(f, " {error}")
}

fn put_answer<W: fmt::Write>(f: &mut fmt::Formatter<W>, answer: &Answer) -> fmt::Result {
    match answer {
        Answer::Fine => f.write_str("ANSWER fine"),
        Answer::Error(error) => {
            let error = ErrorWords(*error);
            write!(f, "ANSWER error {error}")
        }
        Answer::Statistics(kind, body) => {
            let kind = statistics(*kind);
            let count = body.len();
            write!(f, "ANSWER statistics {kind} bytes={count}")
        }
        Answer::Unknown => f.write_str("ANSWER unknown switch"),
    }
}
