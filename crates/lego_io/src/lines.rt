//! The lines of a text.

ghost use Rattle.std.specs.Prelude.{◌≡◌, ℕ, ◌<◌, ◌≤◌, List, [], ◌∷◌, ◌==◌, length, position, MatchOption, IfOk, OnErr};
ghost use Rattle.lego_io.specs.Lines.{lines_of, most_line, without_cr};

use std::marker::Model;
use thiserror::Error;

/// How many bytes a line may have, 4 MiB, without its end and the CR before it.
pub const MOST_LINE: usize = 4_194_304;

/// The line has more than `MOST_LINE` bytes.
#[derive(Clone, Copy, Debug, PartialEq, Eq, Error)]
#[error("the line is too long")]
pub struct LineTooLong;

/// The lines of a text from its front on. A line ends at LF, or at the text's end where bytes remain,
/// and one CR before its end is dropped.
#[derive(Debug, Drop)]
pub struct Lines<'a> {
    rest: &'a [u8],
}

impl<'a> Model for Lines<'a> {
    ghost use Rattle.std.specs.Prelude.{ℕ, List};
    ghost use Rattle.lego_io.specs.Lines.{lines_of};

    ghost Value = { List (List ℕ) };

    ghost view = { λ s. lines_of s.rest.now };
}

impl<'a> Lines<'a> {
    /// Begins at the front of `text`.
    pub fn new(text: &'a [u8]) -> Lines<'a>
        ensures { result ≡ lines_of text.now }
    {
        Lines { rest: text }
    }

    /// Takes the next line, or answers `None` at the text's end. A line above the limit is passed over.
    pub fn next(&mut self) -> Result<Option<&'a [u8]>, LineTooLong>
        ensures line { IfOk result (λ next. MatchOption next ((self.old ≡ []) × (self.new ≡ []))
            (λ line. (self.old ≡ line.now ∷ self.new) × (length line.now ≤ most_line))) }
        ensures too_long { OnErr result ((line : List ℕ) × (self.old ≡ line ∷ self.new) × (most_line < length line)) }
    {
        if self.rest.is_empty() {
            return Ok(None);
        }
        let (line, rest) = first_line(self.rest);
        self.rest = rest;
        if line.len() > MOST_LINE {
            return Err(LineTooLong);
        }
        Ok(Some(line))
    }
}

/// Cuts a text into its first line and what follows that.
fn first_line(text: &[u8]) -> (&[u8], &[u8])
    requires { 0 < length text.now }
    ensures { lines_of text.now ≡ result.0.now ∷ lines_of result.1.now }
{
    match find_lf(text) {
        Some(end) => (drop_cr(&text[..end]), &text[end + 1..]),
        None => (drop_cr(text), &[]),
    }
}

/// Finds where the first LF of a text stands.
fn find_lf(text: &[u8]) -> Option<usize>
    ensures { result ≡ position (λ byte. byte == 10) text.now }
{
    text.iter().position(|byte| *byte == b'\n')
}

/// Lends the line without one CR at its end.
#[tactic(auto, unfolding(crate::specs::Lines::without_cr))]
fn drop_cr(line: &[u8]) -> &[u8]
    ensures { result.now ≡ without_cr line.now }
{
    match line {
        [front @ .., last] if *last == b'\r' => front,
        _ => line,
    }
}
