//! Decimal numbers.

ghost use Rattle.std.specs.Prelude.{◌≡◌, ◌≤◌, ◌^◌, IfSome, MatchOption, true};
ghost use Rattle.std.specs.Char.{is_ascii_digit};
ghost use Rattle.std.specs.List.{list_all};
ghost use Rattle.std.specs.Str.Parse.{digits_value};
ghost use Rattle.of_types.specs.Numerals.{leads_with_zero, is_numeral};
ghost use Rattle.command_words.specs.Numbers.{number};

/// Tells whether a word of two bytes or more begins with `0`.
fn leads_with_zero(word: &[u8]) -> bool
    ensures { result ≡ leads_with_zero word.now }
{
    match word {
        [first, _, ..] => *first == b'0',
        _ => false,
    }
}

/// Tells whether each byte is a digit.
fn all_digits(word: &[u8]) -> bool
    ensures { result ≡ list_all is_ascii_digit word.now }
{
    word.iter().all(|byte| byte.is_ascii_digit())
}

/// Tells whether a word is a decimal number, without a leading zero but for `0` itself.
#[tactic(auto, unfolding(of_types::specs::Numerals::is_numeral))]
fn is_numeral(word: &[u8]) -> bool
    ensures { result ≡ is_numeral word.now }
{
    !word.is_empty() && !leads_with_zero(word) && all_digits(word)
}

/// Reads the number that a numeral spells, or `None` where it does not fit 64 bits.
fn value_of(word: &str) -> Option<u64>
    requires { is_numeral word.now ≡ true }
    ensures { MatchOption result (2 ^ 64 ≤ digits_value 10 word.now) (λ value. value ≡ digits_value 10 word.now) }
{
    word.parse::<u64>().ok()
}

/// Reads the number from `least` to `most` that a word spells.
#[tactic(auto, unfolding(crate::specs::Numbers::number))]
pub(crate) fn number(word: &str, least: u64, most: u64) -> Option<u64>
    ensures value { result ≡ number least most word.now }
    ensures within { IfSome result (λ n. (least ≤ n) × (n ≤ most)) }
{
    if !is_numeral(word.as_bytes()) {
        return None;
    }
    match value_of(word) {
        Some(value) if least <= value && value <= most => Some(value),
        _ => None,
    }
}
