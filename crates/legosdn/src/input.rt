//! An input, cut into its policy and its session.

ghost use Rattle.std.specs.Prelude.{◌≡◌, ◌==◌, ◌⊎◌, ◌++◌, ◌+◌, ◌<◌, ◌≤◌, ◌^◌, ◌∷◌, [], ℕ, List, None, Some, Err, length, position, IfSome, IfOk, IfErr, OnOk};
ghost use Rattle.lego_io.specs.Count.{NeverFell};
ghost use Rattle.lego_io.specs.Source.{ended};
ghost use Rattle.lego_io.specs.Lines.{cut_at_lf, lines_of};
ghost use Rattle.legosdn.specs.declared.stop.InputRefusal.TheVariants.{Separator};
ghost use Rattle.legosdn.specs.Input.{most_input, is_separator as is_separator_in, policy_text, behind_separator, session_behind, session_of};
ghost use Rattle.legosdn.specs.Headline.{IsReadCause, IsNoSession, IsNoPolicy};

use crate::stop::{InputRefusal, Stop};
use lego_io::{Lines, Source, read_all};
use std::alloc::Global;

/// How many bytes an input has at most (64 MiB).
pub const MOST_INPUT: usize = 67_108_864;

/// An input, cut at its first line `---`.
#[derive(Clone, Copy, Debug, PartialEq, Eq)]
pub struct Parts<'a> {
    /// The bytes before that line.
    pub policy: &'a [u8],
    /// The bytes behind it.
    pub session: &'a [u8],
    /// The number of the session's first line, where the lines of the whole input are counted from 1.
    pub first_line: u64,
}

/// Reads all bytes of the source, which are not too many.
pub fn read_input<S: Source>(alloc: Global, source: &mut S) -> Result<Vec<u8>, Stop>
    ensures all { IfOk result (λ input. IfSome (S.remaining source.old) (λ left. input.items ≡ left)) }
    ensures end { OnOk result (S.remaining source.new ≡ ended (S.remaining source.old)) }
    ensures at_most { IfOk result (λ input. length input.items ≤ most_input) }
    ensures why { IfErr result (IsReadCause (IsNoSession session_of) (S.remaining source.old) (S.faults source.old) (S.faults source.new)) }
    ensures why_no_policy { IfErr result (IsReadCause IsNoPolicy (S.remaining source.old) (S.faults source.old) (S.faults source.new)) }
    ensures never_fell { NeverFell (S.faults source.old) (S.faults source.new) }
{
    Ok(read_all(alloc, source, MOST_INPUT)?)
}

/// Tells whether a line is the separator.
#[tactic(auto, unfolding(lego_model::specs::Words::is_word))]
fn is_separator(line: &[u8]) -> bool
    ensures { result ≡ is_separator_in line.now }
{
    line == b"---".as_slice()
}

/// Tells whether the first line of a text is the separator. A line that is too long is not.
#[tactic(auto, using(crate::proofs::Cutting::long_is_none))]
fn is_separated(text: &[u8]) -> bool
    ensures { (line : List ℕ) → (lines : List (List ℕ)) → lines_of text.now ≡ line ∷ lines → result ≡ is_separator_in line }
{
    match Lines::new(text).next() {
        Ok(Some(line)) => is_separator(line),
        Ok(None) | Err(_) => false,
    }
}

/// Finds where the first LF of a text stands.
fn find_lf(text: &[u8]) -> Option<usize>
    ensures { result ≡ position (λ byte. byte == 10) text.now }
{
    text.iter().position(|byte| *byte == b'\n')
}

/// Gives what stands behind the first line of a text.
fn behind_line(text: &[u8]) -> &[u8]
    requires { 0 < length text.now }
    ensures shorter { length result.now < length text.now }
    ensures behind { (result.now ≡ []) ⊎ ((line : List ℕ) × (text.now ≡ line ++ 10 ∷ result.now) × (cut_at_lf text.now ≡ line ∷ cut_at_lf result.now)) }
    ensures lines { (line : List ℕ) × (lines_of text.now ≡ line ∷ lines_of result.now) }
{
    match find_lf(text) {
        Some(end) => &text[end + 1..],
        None => &[],
    }
}

/// Cuts an input into its parts.
pub fn cut(input: &[u8]) -> Result<Parts<'_>, InputRefusal>
    requires { length input.now ≤ most_input }
    ensures found { IfOk result (λ parts. behind_separator 1 (lines_of input.now) ≡ Some (parts.first_line, lines_of parts.session.now)) }
    ensures policy { IfOk result (λ parts. parts.policy.now ≡ policy_text input.now) }
    ensures first { IfOk result (λ parts. parts.first_line < 2 ^ 63) }
    ensures none { IfErr result (λ refusal. (refusal ≡ Separator) × (behind_separator 1 (lines_of input.now) ≡ None)) }
    ensures session { session_of input.now ≡ session_behind (policy_text input.now) (behind_separator 1 (lines_of input.now)) }
{
    let mut rest = input;
    let mut number = 1;
    while !rest.is_empty() {
        let behind = behind_line(rest);
        if is_separated(rest) {
            return Ok(Parts {
                policy: &input[..input.len() - rest.len()],
                session: behind,
                first_line: number + 1,
            });
        }
        rest = behind;
        number += 1;
    }
    Err(InputRefusal::Separator)
}
