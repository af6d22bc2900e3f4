//! The whole text of a session, line by line.

ghost use Rattle.std.specs.Prelude.{◌≡◌, ◌+◌, ◌^◌, ◌<◌, ◌≤◌, ◌∷◌, [], List, ℕ, IfOk, IfErr, IfSome, IfNone, length, map, string_bytes};
ghost use Rattle.std.specs.List.{list_all};
ghost use Rattle.lego_model.specs.Words.{words_of as words_in};
ghost use Rattle.lego_io.specs.Lines.{most_line};
ghost use Rattle.lego_model.specs.SessionLines.{line_of as line_in};
ghost use Rattle.lego_model.specs.SessionText.{at_first as at_first_in, is_skipped as is_skipped_in, is_printable, is_opening as is_opening_in, going_on, plain_line as plain_line_in, next_line as next_line_in, in_line, lines_from, session_text};
ghost use Rattle.lego_model.specs.SessionFacts.{IsSession, IsOf};
ghost use Rattle.session_text.specs.TextGives.{Gives, TextGives};
ghost use Rattle.session_text.specs.SessionView.{view_session, view_so_far, view_progress};
ghost use Rattle.session_text.specs.declared.text_fault.SessionError.TheVariants.{Bad};
ghost use Rattle.lego_model.specs.declared.session.SessionKind.TheVariants.{Long};

use crate::text_fault::{LineFault, SessionError};
use crate::text_lines::line_of;
use crate::text_so_far::{SoFar, nothing};
use crate::words::{is, words_of};
use lego_io::Lines;
use lego_model::{Session, SessionFault, SessionKind};
use std::alloc::Global;

/// What has been read, and whether the line `session 1` was.
#[derive(Drop, Debug)]
pub struct Progress {
    pub opened: bool,
    pub so_far: SoFar,
}

/// Returns what has been read before the first line: nothing.
fn at_first(alloc: Global) -> Progress
    ensures { view_progress result ≡ at_first_in }
{
    Progress {
        opened: false,
        so_far: nothing(alloc),
    }
}

/// Tells whether a line is passed over: it is empty or a comment.
fn is_skipped(line: &[u8]) -> bool
    ensures { result ≡ is_skipped_in line.now }
{
    matches!(line, [] | [b'#', ..])
}

/// Tells whether a line has printable ASCII characters alone, the space among them.
fn is_text(line: &[u8]) -> bool
    ensures { result ≡ list_all is_printable line.now }
{
    line.iter().all(|byte| 0x20 <= *byte && *byte <= 0x7e)
}

/// Tells whether a line is the first one of a session.
fn is_opening(line: &[u8]) -> bool
    ensures { result ≡ is_opening_in line.now }
{
    is(line, b"session 1")
}

/// Reads one more line, behind the first.
fn later_line(
    alloc: Global,
    names: &[String],
    so_far: SoFar,
    line: &[u8],
) -> Result<Progress, LineFault>
    ensures { Gives view_progress result (going_on (line_in (map (λ s. string_bytes s) names.now) (view_so_far so_far) (words_in line.now))) }
{
    let words = words_of(alloc, line)?;
    let so_far = line_of(alloc, names, so_far, &words)?;
    Ok(Progress {
        opened: true,
        so_far,
    })
}

/// Reads one more line of printable characters.
#[tactic(auto, unfolding(lego_model::specs::SessionText::plain_line))]
fn plain_line(
    alloc: Global,
    names: &[String],
    progress: Progress,
    line: &[u8],
) -> Result<Progress, LineFault>
    ensures { Gives view_progress result (plain_line_in (map (λ s. string_bytes s) names.now) (view_progress progress) line.now) }
{
    let opened = progress.opened;
    if opened == is_opening(line) {
        return Err(LineFault::Kind(SessionKind::Order));
    }
    let so_far = progress.so_far;
    if opened {
        later_line(alloc, names, so_far, line)
    } else {
        Ok(Progress {
            opened: true,
            so_far,
        })
    }
}

/// Reads one more line that is not too long.
#[tactic(auto, unfolding(lego_model::specs::SessionText::next_line))]
fn short_line(
    alloc: Global,
    names: &[String],
    progress: Progress,
    line: &[u8],
) -> Result<Progress, LineFault>
    requires { length line.now ≤ most_line }
    ensures { Gives view_progress result (next_line_in (map (λ s. string_bytes s) names.now) (view_progress progress) line.now) }
{
    if is_skipped(line) {
        return Ok(progress);
    }
    if !is_text(line) {
        return Err(LineFault::Kind(SessionKind::Text));
    }
    plain_line(alloc, names, progress, line)
}

/// Reads the same, with the line's number in its fault.
fn numbered_line(
    alloc: Global,
    names: &[String],
    number: u64,
    progress: Progress,
    line: &[u8],
) -> Result<Progress, SessionError>
    requires { length line.now ≤ most_line }
    ensures { TextGives view_progress result (in_line number (next_line_in (map (λ s. string_bytes s) names.now) (view_progress progress) line.now)) }
{
    match short_line(alloc, names, progress, line) {
        Ok(progress) => Ok(progress),
        Err(LineFault::Kind(kind)) => Err(SessionError::Bad(SessionFault { line: number, kind })),
        Err(LineFault::NoMemory) => Err(SessionError::NoMemory),
    }
}

/// Returns the next line, which has this number; one that is too long is a fault.
fn next_line<'a>(lines: &mut Lines<'a>, number: u64) -> Result<Option<&'a [u8]>, SessionError>
    ensures none { IfOk result (λ next. IfNone next (lines.old ≡ [])) }
    ensures some { IfOk result (λ next. IfSome next (λ line. (lines.old ≡ line.now ∷ lines.new) × (length line.now ≤ most_line))) }
    ensures long { IfErr result (λ e. (e ≡ Bad (record { line = number; kind = Long })) × ((line : List ℕ) × (lines.old ≡ line ∷ lines.new) × (most_line < length line))) }
{
    match lines.next() {
        Ok(next) => Ok(next),
        Err(_) => Err(SessionError::Bad(SessionFault {
            line: number,
            kind: SessionKind::Long,
        })),
    }
}

/// Reads all lines, the first of which has this number.
fn all_lines(
    alloc: Global,
    names: &[String],
    first: u64,
    lines: &mut Lines<'_>,
) -> Result<Progress, SessionError>
    requires { first + length lines.old < 2 ^ 64 }
    ensures { TextGives view_progress result (lines_from (map (λ s. string_bytes s) names.now) first at_first_in lines.old) }
{
    let mut progress = at_first(alloc);
    let mut number = first;
    while let Some(line) = next_line(lines, number)? {
        progress = numbered_line(alloc, names, number, progress, line)?;
        number += 1;
    }
    Ok(progress)
}

/// Reads the session that a text spells, or its first fault.
#[tactic(auto, using(crate::proofs::LineCount::length_of_lines), unfolding(lego_model::specs::SessionText::session_text))]
fn read_text(
    alloc: Global,
    names: &[String],
    first: u64,
    text: &[u8],
) -> Result<Session, SessionError>
    requires { first < 2 ^ 63 }
    ensures { TextGives view_session result (session_text (map (λ s. string_bytes s) names.now) first text.now) }
{
    let progress = all_lines(alloc, names, first, &mut Lines::new(text))?;
    Ok(progress.so_far.session)
}

/// Reads the session that a text spells, or its first fault.
///
/// The lines are counted from `first_line`, the number that the text's first line has in the whole input. An
/// application is named in the text as in `names`, and in the session by its place among them.
pub fn parse_session(
    alloc: Global,
    text: &[u8],
    first_line: u64,
    names: &[String],
) -> Result<Session, SessionError>
    requires { first_line < 2 ^ 63 }
    // The session or the first fault, unless memory runs out.
    ensures exact { TextGives view_session result (session_text (map (λ s. string_bytes s) names.now) first_line text.now) }
    // The session keeps the limits, and each stimulus is for a declared switch.
    ensures sound { IfOk result (λ session. IsSession (view_session session)) }
    // Each application of the session is one of the names.
    ensures named { IfOk result (λ session. IsOf (length names.now) (view_session session)) }
{
    read_text(alloc, names, first_line, text)
}
