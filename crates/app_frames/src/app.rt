//! What applications tell.

ghost use Rattle.std.specs.Prelude.{◌≡◌, ℕ, ◌≤◌, ◌↔◌, List, [], ◌++◌, length, Ok, Some, None, IfOk, IfSome};
ghost use Rattle.app_frames.specs.declared.kind.AppKind.TheVariants as kinds_of;
ghost use Rattle.of_types.specs.Fields.{number_bytes};
ghost use Rattle.app_frames.specs.Kinds.{number_of_app};
ghost use Rattle.app_frames.specs.declared.frame.AppFrame.{AppFrame};
ghost use Rattle.app_frames.specs.Reading.{Gives};
ghost use Rattle.app_frames.specs.Bodies.{GivesBody, message_of, bare, flag_of, checkpoint_of, done_of, app_body};
ghost use Rattle.app_frames.specs.Spelling.{framed, bit, app_bytes};
ghost use Rattle.app_frames.specs.Frames.{app_reading, IsAppPartial, AppFits, IsAppFrame, IsAppAtFront};

use crate::fault::{AppFrameError, BAD_BODY};
use crate::frame::AppFrame;
use crate::front::{HEAD, app_front, frame_around};
use crate::kind::AppKind;
use of_types::{ByteList, get_u8, get_u64, put_u8, put_u64};
use std::alloc::{AllocError, Global};

/// A message of 8 to 65,535 bytes behind the switch's datapath id.
#[tactic(auto, unfolding(crate::specs::Bodies::message_of))]
fn message(alloc: Global, body: &[u8]) -> Result<AppFrame, AppFrameError>
    ensures { GivesBody result (message_of body.now) }
{
    if body.len() < 16 || body.len() > 65_543 {
        return Err(BAD_BODY);
    }
    let bytes = ByteList::from_slice(alloc, &body[8..])?;
    Ok(AppFrame::Message(get_u64(body, 0), bytes))
}

/// A frame whose kind says all.
fn alone(frame: AppFrame, body: &[u8]) -> Result<AppFrame, AppFrameError>
    ensures { GivesBody result (bare frame body.now) }
{
    if body.is_empty() {
        Ok(frame)
    } else {
        Err(BAD_BODY)
    }
}

/// A byte that is 0 or 1.
#[tactic(auto, unfolding(crate::specs::Bodies::flag_of))]
fn flag(byte: u8) -> Option<bool>
    ensures { result ≡ flag_of byte }
{
    match byte {
        0 => Some(false),
        1 => Some(true),
        _ => None,
    }
}

/// A checkpoint, where there is to be one.
#[tactic(auto, unfolding(crate::specs::Bodies::checkpoint_of))]
fn checkpoint_in(alloc: Global, has: bool, rest: &[u8]) -> Result<Option<ByteList>, AppFrameError>
    ensures { GivesBody result (checkpoint_of has rest.now) }
{
    if has {
        Ok(Some(ByteList::from_slice(alloc, rest)?))
    } else if rest.is_empty() {
        Ok(None)
    } else {
        Err(BAD_BODY)
    }
}

/// The two flags and the checkpoint of an event that is done.
#[tactic(auto, unfolding(crate::specs::Bodies::done_of))]
fn done(alloc: Global, body: &[u8]) -> Result<AppFrame, AppFrameError>
    ensures { GivesBody result (done_of body.now) }
{
    if body.len() < 2 {
        return Err(BAD_BODY);
    }
    let Some(stop) = flag(get_u8(body, 0)) else {
        return Err(BAD_BODY);
    };
    let Some(has) = flag(get_u8(body, 1)) else {
        return Err(BAD_BODY);
    };
    let checkpoint = checkpoint_in(alloc, has, &body[2..])?;
    Ok(AppFrame::Done { stop, checkpoint })
}

/// The frame of a kind and a body.
#[tactic(auto, unfolding(crate::specs::Bodies::app_body))]
fn frame(alloc: Global, kind: AppKind, body: &[u8]) -> Result<AppFrame, AppFrameError>
    ensures { GivesBody result (app_body kind body.now) }
{
    match kind {
        AppKind::Message => message(alloc, body),
        AppKind::Save => alone(AppFrame::Save, body),
        AppKind::Keep => alone(AppFrame::Keep, body),
        AppKind::Undo => alone(AppFrame::Undo, body),
        AppKind::Done => done(alloc, body),
        AppKind::Ready => alone(AppFrame::Ready, body),
    }
}

/// The frame at the front, and how many bytes it takes.
#[tactic(auto, unfolding(crate::specs::Frames::app_reading, crate::specs::Reading::frame_of))]
fn front_frame(alloc: Global, bytes: &[u8]) -> Result<Option<(AppFrame, usize)>, AppFrameError>
    ensures { Gives result (app_reading bytes.now) }
{
    let Some((kind, size)) = app_front(bytes)? else {
        return Ok(None);
    };
    let frame = frame(alloc, kind, &bytes[HEAD..size])?;
    Ok(Some((frame, size)))
}

/// Reads the frame at the front of the bytes that an application has given so far, and how many bytes it takes.
///
/// `None` while it is yet to come. Bytes are refused by the first of these tests: a length above
/// 1,048,579; a length of 0, or a kind other than 1 to 6; a body that the kind does not have.
pub fn decode_app(alloc: Global, bytes: &[u8]) -> Result<Option<(AppFrame, usize)>, AppFrameError>
    // The frame, that it is yet to come, or the first fault. Memory runs out only where the frame is whole.
    ensures exact { Gives result (app_reading bytes.now) }
    // `None` exactly where the frame is yet to come.
    ensures none { (result ≡ Ok None) ↔ IsAppPartial bytes.now }
    // What is read is in the grammar, and the bytes spell it.
    ensures found { IfOk result (λ next. IfSome next (λ found. IsAppAtFront found.0 found.1 bytes.now)) }
    // What is in the grammar and spelled is read, unless memory runs out.
    ensures only { (frame : AppFrame) (more : List ℕ) → IsAppFrame frame → bytes.now ≡ app_bytes frame ++ more
        → Gives result (Ok (Some (frame, length (app_bytes frame)))) }
{
    front_frame(alloc, bytes)
}

#[tactic(auto, unfolding(crate::specs::Spelling::app_body_bytes, crate::specs::Spelling::app_bytes))]
fn put_message(alloc: Global, dpid: u64, bytes: &ByteList) -> Result<ByteList, AllocError>
    requires { length bytes.now ≤ 65535 }
    ensures { IfOk result (λ list. list ≡ app_bytes (AppFrame.Message dpid bytes.now)) }
{
    let mut fields = [0; 8];
    put_u64(&mut fields, 0, dpid);
    frame_around(alloc, AppKind::Message.number(), &fields, bytes.as_slice())
}

/// The two flags of a Done.
fn flags(stop: bool, has: bool) -> [u8; 2]
    ensures { result ≡ number_bytes 1 (bit stop) ++ number_bytes 1 (bit has) }
{
    let mut flags = [0; 2];
    put_u8(&mut flags, 0, u8::from(stop));
    put_u8(&mut flags, 1, u8::from(has));
    flags
}

#[tactic(auto, unfolding(crate::specs::Spelling::app_body_bytes, crate::specs::Spelling::app_bytes))]
fn put_done(
    alloc: Global,
    stop: bool,
    checkpoint: &Option<ByteList>,
) -> Result<ByteList, AllocError>
    requires { AppFits (AppFrame.Done stop checkpoint.now) }
    ensures { IfOk result (λ list. list ≡ app_bytes (AppFrame.Done stop checkpoint.now)) }
{
    let kind = AppKind::Done.number();
    match checkpoint {
        Some(checkpoint) => { frame_around(alloc, kind, &flags(stop, true), checkpoint.as_slice()) }
        None => frame_around(alloc, kind, &flags(stop, false), &[]),
    }
}

fn put_alone(alloc: Global, kind: AppKind) -> Result<ByteList, AllocError>
    ensures { IfOk result (λ list. list ≡ framed (number_of_app kind) []) }
{
    frame_around(alloc, kind.number(), &[], &[])
}

/// Writes the frame. A message has 8 to 65,535 bytes, a checkpoint at most 1,048,576. `AllocError` where there is no
/// memory for it.
#[tactic(auto, unfolding(crate::specs::Spelling::app_body_bytes, crate::specs::Spelling::app_bytes))]
pub fn encode_app(alloc: Global, frame: &AppFrame) -> Result<ByteList, AllocError>
    requires { AppFits frame.now }
    ensures { IfOk result (λ bytes. bytes ≡ app_bytes frame.now) }
{
    match frame {
        AppFrame::Message(dpid, bytes) => put_message(alloc, *dpid, bytes),
        AppFrame::Save => put_alone(alloc, AppKind::Save),
        AppFrame::Keep => put_alone(alloc, AppKind::Keep),
        AppFrame::Undo => put_alone(alloc, AppKind::Undo),
        AppFrame::Done { stop, checkpoint } => put_done(alloc, *stop, checkpoint),
        AppFrame::Ready => put_alone(alloc, AppKind::Ready),
    }
}
