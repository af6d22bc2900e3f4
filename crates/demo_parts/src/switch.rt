//! Plays a switch over a connection.

ghost use Rattle.std.specs.Prelude.{◌≤◌, length};

use of_stream::{CutFault, Cutter};
use of_types::limits::MOST_MESSAGE_BYTES;
use of_types::{ByteList, PortNo, Stimulus};
use of_wire::{Message, WireFault, decode, size};
use std::alloc::{AllocError, Global};
use std::io;
use std::io::{ErrorKind, Read, Write};
use std::net::{Ipv4Addr, Net, SocketAddr};
use switch_sim::{MessageList, SimSwitch};

/// How often a refused connect is repeated.
const MOST_TRIES: u32 = 1_000_000;

/// How many bytes are read at once.
const PIECE_BYTES: usize = 4_096;

/// How many entries the switch takes.
const CAPACITY: u32 = 64;

/// How many messages the switch takes.
const MOST_MESSAGES: u64 = 1_000_000_000;

/// The status where the connection ends.
const WELL: u8 = 0;

/// The status where there is no connection, or something comes that is no message.
const FAILED: u8 = 1;

/// An ARP request from 02:00:00:00:00:01 to all.
const ARP_REQUEST: [u8; 42] = [
    0xff, 0xff, 0xff, 0xff, 0xff, 0xff, 2, 0, 0, 0, 0, 1, 8, 6, 0, 1, 8, 0, 6, 4, 0, 1, 2, 0, 0, 0,
    0, 1, 10, 0, 0, 1, 0, 0, 0, 0, 0, 0, 10, 0, 0, 2,
];

/// A frame from 02:00:00:00:00:02 to 02:00:00:00:00:01.
const REPLY: [u8; 14] = [2, 0, 0, 0, 0, 1, 2, 0, 0, 0, 0, 2, 0x88, 0xb5];

/// When two frames arrive at the switch: a request at port 1, after the reply to its first barrier, and an answer to that
/// at port 2.
#[derive(Clone, Copy, Debug, PartialEq, Eq)]
pub enum Arrival {
    /// The answer arrives after the reply to the second barrier.
    Apart,
    /// The answer arrives right behind the request.
    Together,
}

/// A switch, and what it has had.
#[derive(Drop)]
struct Playing {
    switch: SimSwitch,
    arrival: Arrival,
    barriers: u64,
    /// How many messages came; at most so many serials were given to entries.
    messages: u64,
    ghost serials: { switch.table.next ≤ messages },
}

impl Playing {
    /// Makes switch 1 with the ports 1 and 2.
    fn new(alloc: Global, arrival: Arrival) -> Result<Playing, AllocError> {
        Ok(Playing {
            switch: SimSwitch::new(alloc, 1, CAPACITY, &[1, 2])?,
            arrival,
            barriers: 0,
            messages: 0,
        })
    }

    /// Takes a message, and gives what the switch answers; `None` where the bytes are no message, or one too many.
    fn hear(&mut self, alloc: Global, frame: &[u8]) -> Result<Option<MessageList>, AllocError> {
        let envelope = match decode(alloc, frame) {
            Ok(envelope) => envelope,
            Err(WireFault::NoMemory) => return Err(AllocError),
            Err(_) => return Ok(None),
        };
        if size(&envelope.message) > MOST_MESSAGE_BYTES || self.messages >= MOST_MESSAGES {
            return Ok(None);
        }
        self.messages += 1;
        if envelope.message == Message::BarrierRequest {
            self.barriers = self.barriers.saturating_add(1);
        }
        Ok(Some(self.switch.message(envelope.xid, &envelope.message)?))
    }

    /// Gives what the switch sends where a frame arrives at the port.
    fn arrive(
        &mut self,
        alloc: Global,
        port: PortNo,
        frame: &[u8],
    ) -> Result<MessageList, AllocError>
        requires least { 14 ≤ length frame.now }
        requires most { length frame.now ≤ 9216 }
    {
        self.switch.stimulus(&Stimulus::Frame {
            port,
            bytes: ByteList::from_slice(alloc, frame)?,
        })
    }
}

/// Connects to the controller. A refused connect is repeated.
pub(crate) fn connect<R: Net>(rt: &R, port: u16) -> io::Result<R::Stream> {
    let address = SocketAddr::from((Ipv4Addr::LOCALHOST, port));
    for _ in 0..MOST_TRIES {
        match rt.connect(address) {
            Err(error) if error.kind() == ErrorKind::ConnectionRefused => {}
            connected => return connected,
        }
    }
    Err(io::Error::from(ErrorKind::ConnectionRefused))
}

fn send_all<W: Write>(stream: &mut W, messages: &MessageList) -> io::Result<()> {
    for message in messages.iter() {
        stream.write_all(message.as_slice())?;
    }
    Ok(())
}

/// Lets the frames arrive that come after so many barriers, and sends what the switch makes of them.
fn arrivals<W: Write>(alloc: Global, playing: &mut Playing, stream: &mut W) -> io::Result<()> {
    let has_request = playing.barriers == 1;
    let has_reply = match playing.arrival {
        Arrival::Apart => playing.barriers == 2,
        Arrival::Together => playing.barriers == 1,
    };
    if has_request {
        send_all(stream, &playing.arrive(alloc, 1, &ARP_REQUEST)?)?;
    }
    if has_reply {
        send_all(stream, &playing.arrive(alloc, 2, &REPLY)?)?;
    }
    Ok(())
}

/// Answers a message. Tells whether the switch goes on.
fn answer<W: Write>(
    alloc: Global,
    playing: &mut Playing,
    stream: &mut W,
    frame: &[u8],
) -> io::Result<bool> {
    let barriers = playing.barriers;
    let Some(messages) = playing.hear(alloc, frame)? else {
        return Ok(false);
    };
    send_all(stream, &messages)?;
    if playing.barriers != barriers {
        arrivals(alloc, playing, stream)?;
    }
    Ok(true)
}

/// Answers all whole messages that have come. Tells whether the switch goes on.
fn answer_all<W: Write>(
    alloc: Global,
    playing: &mut Playing,
    cutter: &mut Cutter,
    stream: &mut W,
) -> io::Result<bool> {
    for _ in 0..u64::MAX {
        match cutter.next() {
            Ok(Some(frame)) => {
                if !answer(alloc, playing, stream, frame.as_slice())? {
                    return Ok(false);
                }
            }
            Ok(None) => return Ok(true),
            Err(CutFault::BadLength) => return Ok(false),
            Err(CutFault::NoMemory) => return Err(io::Error::from(AllocError)),
        }
    }
    Ok(false)
}

/// Plays switch 1 over a connection, until that ends, and answers the status.
pub(crate) fn play_over<S: Read + Write>(
    alloc: Global,
    stream: &mut S,
    arrival: Arrival,
) -> io::Result<u8> {
    let mut playing = Playing::new(alloc, arrival)?;
    let mut cutter = Cutter::new(alloc)?;
    let mut piece = [0u8; PIECE_BYTES];
    for _ in 0..u64::MAX {
        match stream.read(&mut piece) {
            Ok(0) => return Ok(WELL),
            Ok(count) => cutter.feed(&piece[..count])?,
            Err(error) if error.kind() == ErrorKind::Interrupted => {}
            Err(_) => return Ok(WELL),
        }
        if !answer_all(alloc, &mut playing, &mut cutter, stream)? {
            return Ok(FAILED);
        }
    }
    Ok(WELL)
}
