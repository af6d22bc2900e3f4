//! Links as texts: `D:P-D:P`, the number of a switch and of a port, and those of another end.

ghost use Rattle.std.specs.Prelude.{◌≡◌, option_map};
ghost use Rattle.std.specs.Char.{is_ascii_digit};
ghost use Rattle.std.specs.List.{list_all};
ghost use Rattle.of_types.specs.Numerals.{is_numeral as is_numeral_in, leads_with_zero as zero_leads};
ghost use Rattle.crash_policy.specs.LinkText as spec;

use crate::limits::MOST_PORT;
use guard_rule::Link;

fn leads_with_zero(word: &[u8]) -> bool
    ensures { result ≡ zero_leads word.now }
{
    match word {
        [first, _, ..] => *first == b'0',
        _ => false,
    }
}

fn all_digits(word: &[u8]) -> bool
    ensures { result ≡ list_all is_ascii_digit word.now }
{
    word.iter().all(|byte| byte.is_ascii_digit())
}

#[tactic(auto, unfolding(of_types::specs::Numerals::is_numeral))]
fn is_numeral(word: &[u8]) -> bool
    ensures { result ≡ is_numeral_in word.now }
{
    !word.is_empty() && !leads_with_zero(word) && all_digits(word)
}

/// Reads a decimal number of 64 bits.
fn number_in(text: &str) -> Option<u64>
    ensures { result ≡ spec.number_in text.now }
{
    if is_numeral(text.as_bytes()) {
        text.parse::<u64>().ok()
    } else {
        None
    }
}

fn port_of(number: u64) -> Option<u16>
    ensures { result ≡ spec.port_of number }
{
    match u16::try_from(number) {
        Ok(port) if 1 <= port && port <= MOST_PORT => Some(port),
        _ => None,
    }
}

fn round_colon(text: &str) -> Option<(&str, &str)>
    ensures { option_map (λ parts. (parts.0.now, parts.1.now)) result ≡ spec.cut_at 58 text.now }
{
    text.split_once(':')
}

fn round_dash(text: &str) -> Option<(&str, &str)>
    ensures { option_map (λ parts. (parts.0.now, parts.1.now)) result ≡ spec.cut_at 45 text.now }
{
    text.split_once('-')
}

/// Reads an end: a switch and a port.
#[tactic(auto, unfolding(crate::specs::LinkText::end_in))]
fn end_in(text: &str) -> Option<(u64, u16)>
    ensures { result ≡ spec.end_in text.now }
{
    let (dpid, port) = round_colon(text)?;
    let dpid = number_in(dpid)?;
    let port = port_of(number_in(port)?)?;
    Some((dpid, port))
}

/// Reads a link: its two ends.
#[tactic(auto, unfolding(crate::specs::LinkText::link_in))]
pub(crate) fn link_in(text: &str) -> Option<Link>
    ensures { result ≡ spec.link_in text.now }
{
    let (first, second) = round_dash(text)?;
    let a = end_in(first)?;
    let b = end_in(second)?;
    Some(Link { a, b })
}
