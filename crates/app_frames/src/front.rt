//! A frame's front: its length and kind; and the frame around a body.

ghost use Rattle.std.specs.Prelude.{◌≡◌, ◌+◌, ◌^◌, ◌<◌, ◌≤◌, ◌++◌, length, IfOk, IfSome};
ghost use Rattle.of_types.specs.Fields.{number_bytes};
ghost use Rattle.app_frames.specs.Kinds.{app_kind_of, host_kind_of};
ghost use Rattle.app_frames.specs.Reading.{is_above, length_of, kind_at, whole_at, front_of};
ghost use Rattle.app_frames.specs.Frames.{longest};
ghost use Rattle.app_frames.specs.Spelling.{framed};

use crate::fault::FrameFault;
use crate::kind::{AppKind, HostKind};
use of_types::{ByteList, get_u8, get_u32, put_u8, put_u32};
use std::alloc::{AllocError, Global};

/// The bytes of the length and the kind.
pub(crate) const HEAD: usize = 5;

/// The greatest length of an application's frame: kind, two flags, and a checkpoint of 1,048,576 bytes.
const LONGEST: usize = 1_048_579;

/// The length is above the greatest, where there is one.
fn is_too_long(most: Option<usize>, said: usize) -> bool
    ensures { result ≡ is_above most said }
{
    match most {
        Some(most) => said > most,
        None => false,
    }
}

/// The length of kind and body, which the first four bytes say.
#[tactic(auto, unfolding(crate::specs::Reading::length_of))]
fn said_length(most: Option<usize>, bytes: &[u8]) -> Result<Option<usize>, FrameFault>
    ensures exact { result ≡ length_of most bytes.now }
    ensures fits { IfOk result (λ said. IfSome said (λ said. (0 < said) × (said < 2 ^ 32))) }
{
    if bytes.len() < 4 {
        return Ok(None);
    }
    let said = get_u32(bytes, 0) as usize;
    if is_too_long(most, said) {
        Err(FrameFault::TooLong)
    } else if said == 0 {
        Err(FrameFault::BadKind)
    } else {
        Ok(Some(said))
    }
}

/// The size, once so many bytes have come.
#[tactic(auto, unfolding(crate::specs::Reading::whole_at))]
fn whole(size: usize, bytes: &[u8]) -> Option<usize>
    ensures exact { Ok result ≡ whole_at size bytes.now }
    ensures within { IfSome result (λ n. (n ≡ size) × (n ≤ length bytes.now)) }
{
    if bytes.len() < size { None } else { Some(size) }
}

/// The kind of an application's frame.
#[tactic(auto, unfolding(crate::specs::Reading::kind_at))]
fn app_kind(bytes: &[u8]) -> Result<Option<AppKind>, FrameFault>
    ensures { result ≡ kind_at app_kind_of bytes.now }
{
    if bytes.len() < HEAD {
        return Ok(None);
    }
    match AppKind::from_number(get_u8(bytes, 4)) {
        Some(kind) => Ok(Some(kind)),
        None => Err(FrameFault::BadKind),
    }
}

/// The kind of a frame from the host.
#[tactic(auto, unfolding(crate::specs::Reading::kind_at))]
fn host_kind(bytes: &[u8]) -> Result<Option<HostKind>, FrameFault>
    ensures { result ≡ kind_at host_kind_of bytes.now }
{
    if bytes.len() < HEAD {
        return Ok(None);
    }
    match HostKind::from_number(get_u8(bytes, 4)) {
        Some(kind) => Ok(Some(kind)),
        None => Err(FrameFault::BadKind),
    }
}

/// The kind of the application's frame at the front, and how many bytes it takes, once all have come.
#[tactic(auto, unfolding(crate::specs::Reading::front_of))]
pub(crate) fn app_front(bytes: &[u8]) -> Result<Option<(AppKind, usize)>, FrameFault>
    ensures exact { result ≡ front_of (Some longest) app_kind_of bytes.now }
    ensures within { IfOk result (λ front. IfSome front (λ front. (5 ≤ front.1) × (front.1 ≤ length bytes.now))) }
{
    let Some(said) = said_length(Some(LONGEST), bytes)? else {
        return Ok(None);
    };
    let Some(kind) = app_kind(bytes)? else {
        return Ok(None);
    };
    let Some(size) = whole(4 + said, bytes) else {
        return Ok(None);
    };
    Ok(Some((kind, size)))
}

/// The kind of the host's frame at the front, and how many bytes it takes, once all have come.
#[tactic(auto, unfolding(crate::specs::Reading::front_of))]
pub(crate) fn host_front(bytes: &[u8]) -> Result<Option<(HostKind, usize)>, FrameFault>
    ensures exact { result ≡ front_of None host_kind_of bytes.now }
    ensures within { IfOk result (λ front. IfSome front (λ front. (5 ≤ front.1) × (front.1 ≤ length bytes.now))) }
{
    let Some(said) = said_length(None, bytes)? else {
        return Ok(None);
    };
    let Some(kind) = host_kind(bytes)? else {
        return Ok(None);
    };
    let Some(size) = whole(4 + said, bytes) else {
        return Ok(None);
    };
    Ok(Some((kind, size)))
}

/// The length and the kind in front of a body of so many bytes.
fn head(kind: u8, body_len: usize) -> [u8; 5]
    requires { 1 + body_len < 2 ^ 32 }
    ensures { result ≡ number_bytes 4 (1 + body_len) ++ number_bytes 1 kind }
{
    let mut head = [0; HEAD];
    put_u32(&mut head, 0, (1 + body_len) as u32);
    put_u8(&mut head, 4, kind);
    head
}

/// The frame of a kind and a body, which comes in two parts.
#[tactic(auto, unfolding(crate::specs::Spelling::framed))]
pub(crate) fn frame_around(
    alloc: Global,
    kind: u8,
    fields: &[u8],
    tail: &[u8],
) -> Result<ByteList, AllocError>
    requires { 1 + (length fields.now + length tail.now) < 2 ^ 32 }
    ensures { IfOk result (λ bytes. bytes ≡ framed kind (fields.now ++ tail.now)) }
{
    let body_len = fields.len() + tail.len();
    let mut bytes = Vec::with_capacity(alloc, HEAD + body_len)?;
    bytes.extend_from_slice(&head(kind, body_len))?;
    bytes.extend_from_slice(fields)?;
    bytes.extend_from_slice(tail)?;
    Ok(ByteList::from_vec(bytes))
}
