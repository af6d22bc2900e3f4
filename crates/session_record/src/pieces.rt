//! Pieces of bytes.

ghost use Rattle.std.specs.Prelude.{◌≡◌, ◌≤◌, ◌-◌, ◌++◌, List, length, take, drop, map, IfOk, OnOk};
ghost use Rattle.std.specs.List.{slice_split};
ghost use Rattle.session_record.specs.Deeds as told;
ghost use Rattle.session_record.specs.Deeds.{deeds_in};
ghost use Rattle.session_record.specs.Recording.{frame_size, behind_frame, bytes_of};

use crate::log::Kept;
use of_types::get_u32;
use std::alloc::{AllocError, Global};

/// Lends the first bytes of a piece, as many as there are.
pub(crate) fn front(bytes: &[u8], most: usize) -> &[u8]
    ensures { result.now ≡ take most bytes.now }
{
    if most < bytes.len() {
        &bytes[..most]
    } else {
        bytes
    }
}

/// Lends what stands behind the first bytes of a piece.
pub(crate) fn behind(bytes: &[u8], count: usize) -> &[u8]
    ensures { result.now ≡ drop count bytes.now }
{
    if count < bytes.len() {
        &bytes[count..]
    } else {
        &[]
    }
}

/// Lends the bytes of a deed.
pub(crate) fn piece_of<'a>(kept: &Kept, bytes: &'a [u8]) -> &'a [u8]
    ensures { result.now ≡ take (kept.now.end - kept.now.start) (drop kept.now.start bytes.now) }
{
    let most = kept.end.saturating_sub(kept.start);
    front(behind(bytes, kept.start as usize), most as usize)
}

/// Tells how many bytes the frame at the front has; all, where they are fewer than it says.
fn frame_size(bytes: &[u8]) -> usize
    ensures exact { result ≡ frame_size bytes.now }
    ensures within { result ≤ length bytes.now }
{
    if bytes.len() < 4 {
        return bytes.len();
    }
    let size = 4 + u64::from(get_u32(bytes, 0));
    (size as usize).min(bytes.len())
}

/// Tells where the frame behind a place ends.
pub(crate) fn behind_frame(bytes: &[u8], at: usize) -> usize
    requires { at ≤ length bytes.now }
    ensures exact { result ≡ behind_frame bytes.now at }
    ensures within { result ≤ length bytes.now }
{
    at + frame_size(behind(bytes, at))
}

/// Appends the bytes of these deeds.
pub(crate) fn push_bytes(all: &mut Vec<u8>, deeds: &[Kept], bytes: &[u8]) -> Result<(), AllocError>
    ensures { OnOk result (all.new.items ≡ all.old.items ++ bytes_of (deeds_in bytes.now deeds.now)) }
{
    for kept in deeds {
        all.extend_from_slice(piece_of(kept, bytes))?;
    }
    Ok(())
}

/// Cuts the deeds of an application at each attempt to start.
pub(crate) fn attempts_in(alloc: Global, deeds: &[Kept]) -> Result<Vec<&[Kept]>, AllocError>
    ensures { IfOk result (λ all. map (λ s. s.now) all.items ≡ slice_split (λ k. told.is_started k.kind) deeds.now) }
{
    deeds.split(|kept| kept.kind.is_started()).collect(alloc)
}

/// Cuts the deeds of an attempt at each Event.
pub(crate) fn parts_in(alloc: Global, deeds: &[Kept]) -> Result<Vec<&[Kept]>, AllocError>
    ensures { IfOk result (λ all. map (λ s. s.now) all.items ≡ slice_split (λ k. told.is_event k.kind) deeds.now) }
{
    deeds.split(|kept| kept.kind.is_event()).collect(alloc)
}
