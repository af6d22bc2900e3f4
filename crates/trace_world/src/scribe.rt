//! The lines of what happened.

use crate::aside::Aside;
use app_frames::{
    AppFrame, AppFrameError, FrameFault, HostFrame, MOST_CHECKPOINT_BYTES, decode_app, decode_host,
};
use bytes::BytesMut;
use lego_io::{Sink, write_all};
use of_types::Dpid;
use outside::{GiveFault, Item, LinkFault, NextFault, OpenFault, Short, StartFault, Taken};
use std::alloc::{AllocError, Global};
use std::collections::{BTreeMap, BTreeSet};
use trace_words::{AppWords, HostWords, MessageWords};

/// How many bytes are kept of an application whose frame is yet to come: the longest frame and a piece of 65,536 bytes
/// fit. Our own choice.
const MOST_UNREAD: usize = MOST_CHECKPOINT_BYTES + 2 * 65_536;

/// Writes a line for each act to a sink. A line that memory is short for, or that the sink does not take, is left out.
#[derive(Drop)]
pub(crate) struct Scribe<K> {
    alloc: Global,
    sink: K,
    /// The applications that run, each with the bytes that are not told yet; `None` where bytes are told as counts.
    lives: BTreeMap<u32, Option<BytesMut>>,
    /// The switches that are joined, as far as there is memory for them.
    joined: BTreeSet<Dpid>,
    /// What another part of the program leaves here is told before the next act.
    aside: Option<Aside>,
}

/// The front of a buffer: so many bytes, or all where it has fewer.
fn front(buf: &[u8], count: usize) -> &[u8] {
    &buf[..count.min(buf.len())]
}

impl<K: Sink + Drop> Scribe<K> {
    /// Returns a writer of lines that has heard nothing yet.
    pub(crate) fn new(alloc: Global, sink: K, aside: Option<Aside>) -> Scribe<K> {
        Scribe {
            alloc,
            sink,
            lives: BTreeMap::new(alloc),
            joined: BTreeSet::new(alloc),
            aside,
        }
    }

    /// Hands out the place of what is told before the next act, if there is one.
    pub(crate) fn aside(&self) -> Option<Aside> {
        match &self.aside {
            Some(aside) => aside.again(),
            None => None,
        }
    }

    /// Takes what was left to be told before this act.
    fn take_aside(&self) -> Option<String> {
        match &self.aside {
            Some(aside) => aside.take(),
            None => None,
        }
    }

    /// Gives the sink back.
    pub(crate) fn into_sink(self) -> K {
        self.sink
    }

    /// Writes the line, where there is memory for it, behind what was left aside.
    fn write(&mut self, line: Result<String, AllocError>) {
        if let Some(earlier) = self.take_aside() {
            let _ = write_all(&mut self.sink, earlier.as_bytes());
        }
        if let Ok(line) = line {
            let _ = write_all(&mut self.sink, line.as_bytes());
        }
    }

    /// `open` answered.
    pub(crate) fn opened(&mut self, port: u16, answer: Result<(), OpenFault>) {
        let line = match answer {
            Ok(()) => format!(in self.alloc; "world opened, port {port}\n"),
            Err(OpenFault::Shut) => format!(in self.alloc; "world stays shut, port {port}\n"),
            Err(OpenFault::Short) => format!(in self.alloc; "world out of memory\n"),
        };
        self.write(line);
    }

    /// `next` answered.
    pub(crate) fn came(&mut self, answer: Result<Item, NextFault>, buf: &[u8]) {
        let line = match answer {
            Ok(Item::From(dpid, count)) => return self.told(dpid, front(buf, count)),
            Ok(Item::Joined(dpid, _)) => {
                let _ = self.joined.insert(dpid);
                format!(in self.alloc; "switch {dpid} joined\n")
            }
            Ok(Item::Left(dpid)) => {
                self.joined.remove(&dpid);
                format!(in self.alloc; "switch {dpid} left\n")
            }
            Ok(Item::Moment(moment)) => format!(in self.alloc; "moment {moment}\n"),
            Ok(Item::Idle) => return,
            Ok(Item::End) => format!(in self.alloc; "world ended\n"),
            Err(NextFault::Failed) => format!(in self.alloc; "world failed\n"),
            Err(NextFault::Short) => format!(in self.alloc; "world out of memory\n"),
        };
        self.write(line);
    }

    /// These bytes came from the switch.
    fn told(&mut self, dpid: Dpid, bytes: &[u8]) {
        let message = MessageWords {
            alloc: self.alloc,
            bytes,
        };
        self.write(format!(in self.alloc; "switch {dpid} -> {message}\n"));
    }

    /// A call on the link to the switch failed. So a switch that was joined is lost, unless only memory was short.
    fn link_failed(&mut self, dpid: Dpid, fault: LinkFault) {
        let what = match fault {
            LinkFault::Short => "out of memory",
            LinkFault::Failed if self.joined.remove(&dpid) => "lost",
            LinkFault::Failed => "link failed",
        };
        self.write(format!(in self.alloc; "switch {dpid} {what}\n"));
    }

    /// `send` answered.
    pub(crate) fn sent(&mut self, dpid: Dpid, frame: &[u8], answer: Result<(), LinkFault>) {
        match answer {
            Ok(()) => {
                let message = MessageWords {
                    alloc: self.alloc,
                    bytes: frame,
                };
                self.write(format!(in self.alloc; "switch {dpid} <- {message}\n"));
            }
            Err(fault) => self.link_failed(dpid, fault),
        }
    }

    /// `recv` answered.
    pub(crate) fn received(&mut self, dpid: Dpid, answer: Result<usize, LinkFault>, buf: &[u8]) {
        match answer {
            Ok(count) => self.told(dpid, front(buf, count)),
            Err(fault) => self.link_failed(dpid, fault),
        }
    }

    /// The switch was parted with, since it broke the rules of its link by what stands in the lines before.
    pub(crate) fn parted(&mut self, dpid: Dpid) {
        self.write(format!(in self.alloc; "switch {dpid} parted with\n"));
    }

    /// `start` answered. Where it began a life, its bytes are read as frames.
    pub(crate) fn started(&mut self, app: u32, answer: Result<(), StartFault>) {
        let what = match answer {
            Ok(()) => {
                let _ = self.lives.insert(app, Some(BytesMut::new(self.alloc)));
                "started"
            }
            Err(StartFault::NotStarted) => "not started",
            Err(StartFault::Short) => "out of memory",
        };
        self.write(format!(in self.alloc; "app {app} {what}\n"));
    }

    /// `end` came back. Of an application that does not run there is nothing to tell.
    pub(crate) fn ended(&mut self, app: u32) {
        if self.lives.remove(&app).is_some() {
            self.write(format!(in self.alloc; "app {app} ended\n"));
        }
    }

    /// `give` answered.
    pub(crate) fn gave(&mut self, app: u32, bytes: &[u8], answer: Result<(), GiveFault>) {
        match answer {
            Ok(()) => self.gave_frames(app, bytes),
            Err(GiveFault::Gone) => self.write(format!(in self.alloc; "app {app} gone\n")),
            Err(GiveFault::Short) => self.write(format!(in self.alloc;
                "app {app} out of memory\n"
            )),
        }
    }

    /// The application was given the frames that these bytes spell. The host gives whole frames.
    fn gave_frames(&mut self, app: u32, bytes: &[u8]) {
        let mut rest = bytes;
        // No more frames than bytes: a frame has five at least.
        for _ in 0..bytes.len() {
            match decode_host(self.alloc, rest) {
                Ok(Some((frame, size))) => {
                    self.gave_frame(app, &frame);
                    rest = &rest[size..];
                }
                Ok(None) if rest.is_empty() => return,
                Err(AppFrameError::NoMemory) => return,
                Ok(None) | Err(AppFrameError::Refused(_)) => return self.gave_no_frame(app, rest),
            }
        }
    }

    /// The application was given this frame.
    fn gave_frame(&mut self, app: u32, frame: &HostFrame) {
        let words = HostWords {
            alloc: self.alloc,
            frame,
        };
        self.write(format!(in self.alloc; "app {app} <- {words}\n"));
    }

    /// The application was given bytes that begin with no frame.
    fn gave_no_frame(&mut self, app: u32, bytes: &[u8]) {
        let count = bytes.len();
        self.write(format!(in self.alloc; "app {app} <- {count} bytes that are no frame\n"));
    }

    /// `take` answered.
    pub(crate) fn took(&mut self, app: u32, answer: Result<Taken, Short>, buf: &[u8]) {
        let what = match answer {
            Ok(Taken::Some(count)) => return self.heard(app, front(buf, count)),
            Ok(Taken::Closed) => "closed",
            Ok(Taken::Silent) => "silent",
            Err(Short) => "out of memory",
        };
        self.write(format!(in self.alloc; "app {app} {what}\n"));
    }

    /// Takes the bytes of the application that are not told yet, unless its bytes are told as counts.
    fn take_unread(&mut self, app: u32) -> Option<BytesMut> {
        match self.lives.get_mut(&app) {
            Some(life) => life.take(),
            None => None,
        }
    }

    /// Puts back the bytes of the application that are not told yet.
    fn keep_unread(&mut self, app: u32, unread: BytesMut) {
        if let Some(life) = self.lives.get_mut(&app) {
            *life = Some(unread);
        }
    }

    /// The application gave this piece. Once bytes of a life are refused or too many, the rest of it is told as counts.
    fn heard(&mut self, app: u32, piece: &[u8]) {
        let count = piece.len();
        let Some(mut unread) = self.take_unread(app) else {
            return self.write(format!(in self.alloc; "app {app} -> {count} bytes\n"));
        };
        if unread.len().saturating_add(count) > MOST_UNREAD
            || unread.extend_from_slice(piece).is_err()
        {
            return self.write(format!(in self.alloc;
                "app {app} -> {count} bytes more than are kept\n"
            ));
        }
        if self.told_frames(app, &mut unread) {
            self.keep_unread(app, unread);
        }
    }

    /// Tells the whole frames at the front and takes them away. Answers whether the rest may become frames.
    fn told_frames(&mut self, app: u32, unread: &mut BytesMut) -> bool {
        // No more frames than bytes: a frame has five at least.
        for _ in 0..unread.len() {
            match decode_app(self.alloc, unread.as_slice()) {
                Ok(Some((frame, size))) => {
                    unread.advance(size);
                    self.told_frame(app, &frame);
                }
                Ok(None) | Err(AppFrameError::NoMemory) => return true,
                Err(AppFrameError::Refused(fault)) => {
                    self.told_no_frame(app, unread.len(), fault);
                    return false;
                }
            }
        }
        true
    }

    /// The application gave this frame.
    fn told_frame(&mut self, app: u32, frame: &AppFrame) {
        let words = AppWords {
            alloc: self.alloc,
            frame,
        };
        self.write(format!(in self.alloc; "app {app} -> {words}\n"));
    }

    /// The application gave bytes that begin with no frame.
    fn told_no_frame(&mut self, app: u32, count: usize, fault: FrameFault) {
        self.write(format!(in self.alloc;
            "app {app} -> {count} bytes that are no frame: {fault:?}\n"
        ));
    }
}
