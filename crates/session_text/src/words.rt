//! The words of a line, and what they spell.

ghost use Rattle.std.specs.Prelude.{◌≡◌, ◌==◌, ◌≤◌, ◌^◌, IfOk, MatchOption, map, true};
ghost use Rattle.std.specs.Char.{is_ascii_digit};
ghost use Rattle.std.specs.List.{list_all, slice_split};
ghost use Rattle.of_types.specs.Numerals.{is_numeral as is_numeral_in, leads_with_zero as zero_leads};
ghost use Rattle.lego_model.specs.Words.{words_of as words_in, is_word, value_after};

use std::alloc::{AllocError, Global};

/// Cuts a text into its pieces between the bytes `separator`.
pub fn split(alloc: Global, text: &[u8], separator: u8) -> Result<Vec<&[u8]>, AllocError>
    ensures { IfOk result (λ v. map (λ p. p.now) v.items ≡ slice_split (λ b. b == separator) text.now) }
{
    text.split(|byte| *byte == separator).collect(alloc)
}

/// Cuts a line into its words, which stand between single spaces.
#[tactic(auto, unfolding(lego_model::specs::Words::words_of))]
pub fn words_of(alloc: Global, line: &[u8]) -> Result<Vec<&[u8]>, AllocError>
    ensures { IfOk result (λ v. map (λ w. w.now) v.items ≡ words_in line.now) }
{
    split(alloc, line, b' ')
}

/// Tells whether a word is this text.
#[tactic(auto, unfolding(lego_model::specs::Words::is_word))]
pub fn is(word: &[u8], text: &[u8]) -> bool
    ensures { result ≡ is_word text.now word.now }
{
    word == text
}

/// Tells whether each byte is a digit.
fn all_digits(word: &[u8]) -> bool
    ensures { result ≡ list_all is_ascii_digit word.now }
{
    word.iter().all(|byte| byte.is_ascii_digit())
}

/// Tells whether a word of two digits or more begins with `0`.
fn leads_with_zero(word: &[u8]) -> bool
    ensures { result ≡ zero_leads word.now }
{
    match word {
        [first, _, ..] => *first == b'0',
        _ => false,
    }
}

/// Tells whether a word is a decimal number, without a leading zero but for `0` itself.
#[tactic(auto, unfolding(of_types::specs::Numerals::is_numeral))]
pub fn is_numeral(word: &[u8]) -> bool
    ensures value { result ≡ is_numeral_in word.now }
    ensures digits { result ≡ true → list_all is_ascii_digit word.now ≡ true }
{
    !word.is_empty() && !leads_with_zero(word) && all_digits(word)
}

/// Returns the number that digits spell, or `None` where it does not fit 64 bits.
pub fn value_of(digits: &[u8]) -> Option<u64>
    requires { list_all is_ascii_digit digits.now ≡ true }
    ensures { MatchOption result (2 ^ 64 ≤ value_after 0 digits.now) (λ value. value ≡ value_after 0 digits.now) }
{
    let mut value: u64 = 0;
    for digit in digits {
        value = value
            .checked_mul(10)?
            .checked_add(u64::from(*digit - b'0'))?;
    }
    Some(value)
}
