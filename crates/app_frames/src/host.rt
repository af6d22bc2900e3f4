//! What the host tells.

ghost use Rattle.std.specs.Prelude.{◌≡◌, ℕ, ◌+◌, ◌<◌, ◌↔◌, List, [], ◌++◌, length, Ok, Some, None, IfOk, IfSome};
ghost use Rattle.of_types.specs.Fields.{number_bytes};
ghost use Rattle.app_frames.specs.declared.kind.HostKind.TheVariants as kinds_of;
ghost use Rattle.app_frames.specs.Kinds.{number_of_host, number_of_event};
ghost use Rattle.app_frames.specs.declared.frame.HostFrame.{HostFrame};
ghost use Rattle.app_frames.specs.Reading.{Gives};
ghost use Rattle.app_frames.specs.Bodies.{GivesBody, bare, event_of, answer_with, answer_of, host_body};
ghost use Rattle.app_frames.specs.Spelling.{framed, host_bytes};
ghost use Rattle.app_frames.specs.Frames.{host_reading, IsHostPartial, HostFits, IsHostFrame, IsHostAtFront};

use crate::fault::{AppFrameError, BAD_BODY};
use crate::frame::{Answer, Event, EventKind, HostFrame};
use crate::front::{HEAD, frame_around, host_front};
use crate::kind::HostKind;
use of_types::{ByteList, OfError, get_u8, get_u16, get_u64, put_u8, put_u16, put_u64};
use std::alloc::{AllocError, Global};

/// The bytes of an event's numbers, kind and datapath id.
const EVENT: usize = 25;

/// An event's number, moment, kind and datapath id, and its own body.
#[tactic(auto, unfolding(crate::specs::Bodies::event_of))]
fn event(alloc: Global, body: &[u8]) -> Result<HostFrame, AppFrameError>
    ensures { GivesBody result (event_of body.now) }
{
    if body.len() < EVENT {
        return Err(BAD_BODY);
    }
    let Some(kind) = EventKind::from_number(get_u8(body, 16)) else {
        return Err(BAD_BODY);
    };
    let event = Event {
        kind,
        dpid: get_u64(body, 17),
        body: ByteList::from_slice(alloc, &body[EVENT..])?,
    };
    Ok(HostFrame::Event {
        number: get_u64(body, 0),
        moment: get_u64(body, 8),
        event,
    })
}

/// An answer whose code says all.
fn alone(answer: Answer, rest: &[u8]) -> Result<Answer, AppFrameError>
    ensures { GivesBody result (bare answer rest.now) }
{
    if rest.is_empty() {
        Ok(answer)
    } else {
        Err(BAD_BODY)
    }
}

/// The answer of a code and what stands behind it.
#[tactic(auto, unfolding(crate::specs::Bodies::answer_with))]
fn answer_by(alloc: Global, code: u8, rest: &[u8]) -> Result<Answer, AppFrameError>
    ensures { GivesBody result (answer_with code rest.now) }
{
    match code {
        0 => alone(Answer::Fine, rest),
        1 if rest.len() == 4 => Ok(Answer::Error(OfError {
            kind: get_u16(rest, 0),
            code: get_u16(rest, 2),
        })),
        2 if rest.len() >= 2 => {
            let body = ByteList::from_slice(alloc, &rest[2..])?;
            Ok(Answer::Statistics(get_u16(rest, 0), body))
        }
        3 => alone(Answer::Unknown, rest),
        _ => Err(BAD_BODY),
    }
}

#[tactic(auto, unfolding(crate::specs::Bodies::answer_of))]
fn answer(alloc: Global, body: &[u8]) -> Result<HostFrame, AppFrameError>
    ensures { GivesBody result (answer_of body.now) }
{
    if body.is_empty() {
        return Err(BAD_BODY);
    }
    Ok(HostFrame::Answer(answer_by(alloc, get_u8(body, 0), &body[1..])?))
}

/// The frame of a kind and a body.
#[tactic(auto, unfolding(crate::specs::Bodies::host_body))]
fn frame(alloc: Global, kind: HostKind, body: &[u8]) -> Result<HostFrame, AppFrameError>
    ensures { GivesBody result (host_body kind body.now) }
{
    match kind {
        HostKind::Restore => Ok(HostFrame::Restore(ByteList::from_slice(alloc, body)?)),
        HostKind::Event => event(alloc, body),
        HostKind::Answer => answer(alloc, body),
    }
}

/// The frame at the front, and how many bytes it takes.
#[tactic(auto, unfolding(crate::specs::Frames::host_reading, crate::specs::Reading::frame_of))]
fn front_frame(alloc: Global, bytes: &[u8]) -> Result<Option<(HostFrame, usize)>, AppFrameError>
    ensures { Gives result (host_reading bytes.now) }
{
    let Some((kind, size)) = host_front(bytes)? else {
        return Ok(None);
    };
    let frame = frame(alloc, kind, &bytes[HEAD..size])?;
    Ok(Some((frame, size)))
}

/// Reads the frame at the front of the bytes that the host has given so far, and how many bytes it takes.
///
/// `None` while it is yet to come. Bytes are refused by the first of these tests: a length of 0, or a
/// kind other than 1 to 3; a body that the kind does not have.
pub fn decode_host(alloc: Global, bytes: &[u8]) -> Result<Option<(HostFrame, usize)>, AppFrameError>
    // The frame, that it is yet to come, or the first fault. Memory runs out only where the frame is whole.
    ensures exact { Gives result (host_reading bytes.now) }
    // `None` exactly where the frame is yet to come.
    ensures none { (result ≡ Ok None) ↔ IsHostPartial bytes.now }
    // What is read is in the grammar, and the bytes spell it.
    ensures found { IfOk result (λ next. IfSome next (λ found. IsHostAtFront found.0 found.1 bytes.now)) }
    // What is in the grammar and spelled is read, unless memory runs out.
    ensures only { (frame : HostFrame) (more : List ℕ) → IsHostFrame frame → bytes.now ≡ host_bytes frame ++ more
        → Gives result (Ok (Some (frame, length (host_bytes frame)))) }
{
    front_frame(alloc, bytes)
}

/// What stands before an event's own body.
fn event_head(number: u64, moment: u64, kind: EventKind, dpid: u64) -> [u8; 25]
    ensures { result ≡ number_bytes 8 number ++ (number_bytes 8 moment ++ (number_bytes 1 (number_of_event kind)
        ++ number_bytes 8 dpid)) }
{
    let mut head = [0; EVENT];
    put_u64(&mut head, 0, number);
    put_u64(&mut head, 8, moment);
    put_u8(&mut head, 16, kind.number());
    put_u64(&mut head, 17, dpid);
    head
}

#[tactic(auto, unfolding(crate::specs::Spelling::host_body_bytes, crate::specs::Spelling::host_bytes))]
fn put_event(alloc: Global, number: u64, moment: u64, event: &Event) -> Result<ByteList, AllocError>
    requires { HostFits (HostFrame.Event number moment event.now) }
    ensures { IfOk result (λ list. list ≡ host_bytes (HostFrame.Event number moment event.now)) }
{
    let fields = event_head(number, moment, event.kind, event.dpid);
    frame_around(
        alloc,
        HostKind::Event.number(),
        &fields,
        event.body.as_slice(),
    )
}

/// An answer that is its code.
fn put_code(alloc: Global, code: u8) -> Result<ByteList, AllocError>
    ensures { IfOk result (λ list. list ≡ framed (number_of_host kinds_of.Answer) (number_bytes 1 code ++ [])) }
{
    let mut fields = [0; 1];
    put_u8(&mut fields, 0, code);
    frame_around(alloc, HostKind::Answer.number(), &fields, &[])
}

#[tactic(auto, unfolding(crate::specs::Spelling::host_body_bytes, crate::specs::Spelling::host_bytes))]
fn put_error(alloc: Global, error: OfError) -> Result<ByteList, AllocError>
    ensures { IfOk result (λ list. list ≡ host_bytes (HostFrame.Answer (Answer.Error error))) }
{
    let mut fields = [0; 5];
    put_u8(&mut fields, 0, 1);
    put_u16(&mut fields, 1, error.kind);
    put_u16(&mut fields, 3, error.code);
    frame_around(alloc, HostKind::Answer.number(), &fields, &[])
}

#[tactic(auto, unfolding(crate::specs::Spelling::host_body_bytes, crate::specs::Spelling::host_bytes))]
fn put_statistics(alloc: Global, kind: u16, body: &ByteList) -> Result<ByteList, AllocError>
    requires { HostFits (HostFrame.Answer (Answer.Statistics kind body.now)) }
    ensures { IfOk result (λ list. list ≡ host_bytes (HostFrame.Answer (Answer.Statistics kind body.now))) }
{
    let mut fields = [0; 3];
    put_u8(&mut fields, 0, 2);
    put_u16(&mut fields, 1, kind);
    frame_around(alloc, HostKind::Answer.number(), &fields, body.as_slice())
}

#[tactic(auto, unfolding(crate::specs::Spelling::host_body_bytes, crate::specs::Spelling::host_bytes))]
fn put_answer(alloc: Global, answer: &Answer) -> Result<ByteList, AllocError>
    requires { HostFits (HostFrame.Answer answer.now) }
    ensures { IfOk result (λ list. list ≡ host_bytes (HostFrame.Answer answer.now)) }
{
    match answer {
        Answer::Fine => put_code(alloc, 0),
        Answer::Error(error) => put_error(alloc, *error),
        Answer::Statistics(kind, body) => put_statistics(alloc, *kind, body),
        Answer::Unknown => put_code(alloc, 3),
    }
}

/// Writes the frame. The length of kind and body is to fit four bytes. `AllocError` where there is no memory for it.
#[tactic(auto, unfolding(crate::specs::Spelling::host_body_bytes, crate::specs::Spelling::host_bytes))]
pub fn encode_host(alloc: Global, frame: &HostFrame) -> Result<ByteList, AllocError>
    requires { HostFits frame.now }
    ensures { IfOk result (λ bytes. bytes ≡ host_bytes frame.now) }
{
    match frame {
        HostFrame::Restore(checkpoint) => {
            frame_around(
                alloc,
                HostKind::Restore.number(),
                &[],
                checkpoint.as_slice(),
            )
        }
        HostFrame::Event {
            number,
            moment,
            event,
        } => put_event(alloc, *number, *moment, event),
        HostFrame::Answer(answer) => put_answer(alloc, answer),
    }
}
