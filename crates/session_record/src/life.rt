//! The lives of applications: how a start ended, and how much of what was given then was played.

ghost use Rattle.std.specs.Prelude.{◌≡◌, ◌==◌, ◌≤◌, ◌-◌, ◌+◌, ◌++◌, [], length, map, drop, IfOk, OnOk};
ghost use Rattle.std.specs.List.{list_any, flat_map};
ghost use Rattle.lego_model.specs.Journal as journal;
ghost use Rattle.lego_model.specs.Turns.{first_frame as first_frame_of, next_of};
ghost use Rattle.session_record.specs.Deeds as told;
ghost use Rattle.session_record.specs.Deeds.{deeds_in};
ghost use Rattle.session_record.specs.Ends.{end_in};
ghost use Rattle.session_record.specs.Recording as recorded;

use crate::deed::Ending;
use crate::log::Kept;
use crate::pieces::{behind, behind_frame, push_bytes};
use app_frames::{AppFrame, AppFrameError, Tried, decode_app};
use of_types::ByteList;
use std::alloc::{AllocError, Global};

/// Tells how the bytes of these deeds end.
pub(crate) fn ending_of(deeds: &[Kept], _bytes: &[u8]) -> Ending
    ensures { end_in result ≡ told.end_from journal.Untold (deeds_in _bytes.now deeds.now) }
{
    let mut ending = Ending::Untold;
    for kept in deeds {
        ending = kept.kind.ending(ending);
    }
    ending
}

/// Tells how a start ended that is seen by its bytes alone, and copies what stands behind the frame Ready.
#[tactic(auto, unfolding(lego_model::specs::Turns::next_of))]
fn first_frame(alloc: Global, bytes: &[u8], ending: Ending) -> Result<(Tried, ByteList), AllocError>
    ensures { IfOk result (λ found. (found.0, found.1) ≡ first_frame_of (end_in ending) (next_of bytes.now [])) }
{
    let tried = match decode_app(alloc, bytes) {
        Ok(Some((AppFrame::Ready, size))) => {
            return Ok((
                Tried::Ready,
                ByteList::from_slice(alloc, behind(bytes, size))?,
            ));
        }
        Ok(Some(_)) | Err(AppFrameError::Refused(_)) => Tried::Garbled,
        Err(AppFrameError::NoMemory) => return Err(AllocError),
        Ok(None) => match ending {
            Ending::Closes => Tried::Closed,
            Ending::Stalls => Tried::Silent,
            Ending::Untold => Tried::Ready,
        },
    };
    Ok((tried, ByteList::new(alloc)))
}

fn any_refused(deeds: &[Kept]) -> bool
    ensures { result ≡ list_any (λ k. told.is_refused k.kind) deeds.now }
{
    deeds.iter().any(|kept| kept.kind.is_refused())
}

fn any_lost(deeds: &[Kept]) -> bool
    ensures { result ≡ list_any (λ k. told.is_lost k.kind) deeds.now }
{
    deeds.iter().any(|kept| kept.kind.is_lost())
}

fn any_unasked(deeds: &[Kept]) -> bool
    ensures { result ≡ list_any (λ k. told.is_unasked k.kind) deeds.now }
{
    deeds.iter().any(|kept| kept.kind.is_unasked())
}

/// Tells whether an attempt did not stand.
fn is_refused(deeds: &[Kept], _bytes: &[u8]) -> bool
    ensures { result ≡ list_any (λ d. told.is_refused d.kind) (deeds_in _bytes.now deeds.now) }
{
    any_refused(deeds)
}

/// Tells whether a frame could not be given.
fn is_lost(deeds: &[Kept], _bytes: &[u8]) -> bool
    ensures { result ≡ list_any (λ d. told.is_lost d.kind) (deeds_in _bytes.now deeds.now) }
{
    any_lost(deeds)
}

/// Tells whether an Event could not be given.
fn is_unasked(deeds: &[Kept], _bytes: &[u8]) -> bool
    ensures { result ≡ list_any (λ d. told.is_unasked d.kind) (deeds_in _bytes.now deeds.now) }
{
    any_unasked(deeds)
}

/// Tells how a start ended, and copies the bytes behind the frame Ready.
#[tactic(auto, unfolding(crate::specs::Recording::start_told))]
pub(crate) fn start_told(
    alloc: Global,
    deeds: &[Kept],
    bytes: &[u8],
) -> Result<(Tried, ByteList), AllocError>
    ensures { IfOk result (λ found. (found.0, found.1) ≡ recorded.start_told (deeds_in bytes.now deeds.now)) }
{
    if is_refused(deeds, bytes) {
        return Ok((Tried::Refused, ByteList::new(alloc)));
    }
    if is_lost(deeds, bytes) {
        return Ok((Tried::Closed, ByteList::new(alloc)));
    }
    let mut all = Vec::new(alloc);
    push_bytes(&mut all, deeds, bytes)?;
    first_frame(alloc, &all, ending_of(deeds, bytes))
}

/// Tells where the frames end that stand behind a place, one for each Answer that was given.
#[tactic(auto, unfolding(crate::specs::Recording::behind_answered))]
fn behind_answered(life: &[u8], mut at: usize, deeds: &[Kept], _bytes: &[u8]) -> usize
    requires { at ≤ length life.now }
    ensures exact { result ≡ recorded.behind_answered life.now at (deeds_in _bytes.now deeds.now) }
    ensures within { result ≤ length life.now }
{
    for kept in deeds {
        if kept.kind.is_given() {
            at = behind_frame(life, at);
        }
    }
    at
}

/// Tells where the frames of a turn end.
#[tactic(auto, unfolding(crate::specs::Recording::behind_turn))]
fn behind_turn(life: &[u8], at: usize, deeds: &[Kept], bytes: &[u8]) -> usize
    requires { at ≤ length life.now }
    ensures exact { result ≡ recorded.behind_turn life.now at (deeds_in bytes.now deeds.now) }
    ensures within { result ≤ length life.now }
{
    if is_unasked(deeds, bytes) {
        return at;
    }
    behind_answered(life, behind_frame(life, at), deeds, bytes)
}

/// Tells where the frames of these turns end.
fn behind_turns(life: &[u8], turns: &[&[Kept]], bytes: &[u8]) -> usize
    ensures { result ≡ recorded.behind_turns life.now 0 (map (λ s. deeds_in bytes.now s.now) turns.now) }
{
    let mut at = 0;
    for turn in turns {
        at = behind_turn(life, at, turn, bytes);
    }
    at
}

/// Puts the bytes of a life together, from behind the frame Ready on.
fn life_bytes(
    alloc: Global,
    rest: &[u8],
    turns: &[&[Kept]],
    bytes: &[u8],
) -> Result<Vec<u8>, AllocError>
    ensures { IfOk result (λ all. all.items ≡ recorded.life_bytes rest.now (map (λ s. deeds_in bytes.now s.now) turns.now)) }
{
    let mut all = Vec::from_slice(alloc, rest)?;
    for turn in turns {
        push_bytes(&mut all, turn, bytes)?;
    }
    Ok(all)
}

/// Tells whether a frame could not be given in one of these turns.
fn is_cut(turns: &[&[Kept]], bytes: &[u8]) -> bool
    ensures { result ≡ list_any (λ turn. list_any (λ d. told.is_lost d.kind) turn) (map (λ s. deeds_in bytes.now s.now) turns.now) }
{
    for turn in turns {
        if is_lost(turn, bytes) {
            return true;
        }
    }
    false
}

/// Tells how many of a life's bytes were played; more than it has, where all of its frames could be given.
#[tactic(auto, unfolding(crate::specs::Recording::played_size))]
pub(crate) fn played_size(
    alloc: Global,
    rest: &[u8],
    turns: &[&[Kept]],
    bytes: &[u8],
) -> Result<usize, AllocError>
    ensures { IfOk result (λ size. size ≡ recorded.played_size rest.now (map (λ s. deeds_in bytes.now s.now) turns.now)) }
{
    if !is_cut(turns, bytes) {
        return Ok(usize::MAX);
    }
    let life = life_bytes(alloc, rest, turns, bytes)?;
    Ok(behind_turns(&life, turns, bytes))
}
