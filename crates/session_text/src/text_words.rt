//! The words of a session text, each with its first fault.

ghost use Rattle.std.specs.Prelude.{◌≡◌, ◌==◌, ◌≤◌, ◌%◌, ◌&&◌, not, IfOk, MatchOption, map, true, false, length, string_bytes};
ghost use Rattle.std.specs.List.{list_all};
ghost use Rattle.of_types.specs.Numerals.{is_numeral as is_numeral_in};
ghost use Rattle.lego_model.specs.SessionWords.{a_number as a_number_in, is_sized, some_bytes as some_bytes_in, ascends as ascends_in, listed_ports as listed_ports_in, some_ports as some_ports_in, an_app as an_app_in, before, behind};
ghost use Rattle.of_types.specs.Membership.{is_among};
ghost use Rattle.session_text.specs.TextGives.{Gives, numbers as numbers_in, ordered, ports_read};

use crate::text_fault::LineFault;
use crate::words::{is, is_numeral, split, value_of};
use lego_model::SessionKind;
use of_types::limits::MOST_PORTS;
use of_types::ports;
use std::alloc::Global;

/// Reads the number that a word spells, from `least` to `most`. A number has any length; what is beyond is out of
/// range, and what is no number is told first.
#[tactic(auto, unfolding(lego_model::specs::SessionWords::a_number))]
pub fn a_number(word: &[u8], least: u64, most: u64) -> Result<u64, LineFault>
    ensures value { Gives (λ n. n) result (a_number_in least most word.now) }
    ensures within { IfOk result (λ n. (least ≤ n) × (n ≤ most)) }
{
    if !is_numeral(word) {
        return Err(LineFault::Kind(SessionKind::Number));
    }
    match value_of(word) {
        Some(value) if least <= value && value <= most => Ok(value),
        _ => Err(LineFault::Kind(SessionKind::Range)),
    }
}

/// Tells whether the number of digits is even, and so half of it, the number of bytes, is known and not one from
/// `least` to `most`.
fn has_wrong_size(word: &[u8], least: usize, most: usize) -> bool
    ensures { result ≡ (length word.now % 2 == 0 && not (is_sized least most (length word.now))) }
{
    let size = word.len() / 2;
    word.len() % 2 == 0 && (size < least || most < size)
}

/// Reads the bytes that hexadecimal digits of either case spell, from `least` to `most` of them and at least one.
/// Where the number of digits is even, the number of bytes is tested first.
#[tactic(auto, using(crate::proofs::Sizes::sized), unfolding(lego_model::specs::SessionWords::some_bytes))]
pub fn some_bytes(
    alloc: Global,
    word: &[u8],
    least: usize,
    most: usize,
) -> Result<Vec<u8>, LineFault>
    ensures value { Gives (λ v. v.items) result (some_bytes_in least most word.now) }
    ensures within { IfOk result (λ v. (least ≤ length v.items) × (length v.items ≤ most)) }
{
    if has_wrong_size(word, least, most) {
        return Err(LineFault::Kind(SessionKind::Range));
    }
    if word.is_empty() {
        return Err(LineFault::Kind(SessionKind::Hex));
    }
    match hex::decode(alloc, word) {
        Ok(bytes) => Ok(bytes),
        Err(hex::FromHexError::OutOfMemory) => Err(LineFault::NoMemory),
        Err(_) => Err(LineFault::Kind(SessionKind::Hex)),
    }
}

/// Tells whether each word is a decimal number.
fn are_numerals(words: &[&[u8]]) -> bool
    ensures { result ≡ list_all is_numeral_in (map (λ w. w.now) words.now) }
{
    for word in words {
        if !is_numeral(word) {
            return false;
        }
    }
    true
}

/// Port numbers, each a word of its own.
fn port_numbers(alloc: Global, words: &[&[u8]]) -> Result<Vec<u16>, LineFault>
    ensures { Gives (λ v. v.items) result (numbers_in 1 65280 (map (λ w. w.now) words.now)) }
{
    let mut ports = Vec::new(alloc);
    for word in words {
        ports.push(a_number(word, 1, u64::from(ports::MAX))? as u16)?;
    }
    Ok(ports)
}

/// Tells whether each number is below the next.
fn ascends(ports: &[u16]) -> bool
    ensures { result ≡ ascends_in ports.now }
{
    for at in 1..ports.len() {
        if ports[at] <= ports[at - 1] {
            return false;
        }
    }
    true
}

/// Returns the ports, if they ascend and are at most 64.
fn in_order(ports: Vec<u16>) -> Result<Vec<u16>, LineFault>
    ensures { Gives (λ v. v.items) result (ordered ports.items) }
{
    if ascends(&ports) && ports.len() <= MOST_PORTS {
        Ok(ports)
    } else {
        Err(LineFault::Kind(SessionKind::Range))
    }
}

/// Reads the ports that the pieces of a word list, each a number.
fn ports_listed(alloc: Global, pieces: &[&[u8]]) -> Result<Vec<u16>, LineFault>
    ensures { Gives (λ v. v.items) result (ports_read (map (λ w. w.now) pieces.now)) }
{
    in_order(port_numbers(alloc, pieces)?)
}

/// Reads the ports that the pieces of a word list.
#[tactic(auto, using(crate::proofs::Ports::ports_of_numerals), unfolding(lego_model::specs::SessionWords::listed_ports))]
fn listed_ports(alloc: Global, pieces: &[&[u8]]) -> Result<Vec<u16>, LineFault>
    ensures { Gives (λ v. v.items) result (listed_ports_in (map (λ w. w.now) pieces.now)) }
{
    if are_numerals(pieces) {
        ports_listed(alloc, pieces)
    } else {
        Err(LineFault::Kind(SessionKind::Number))
    }
}

/// Reads the ports that a word lists: `-`, or at most 64 ascending numbers from 1 to 65,280 joined by `,`.
#[tactic(auto, unfolding(lego_model::specs::SessionWords::some_ports))]
pub fn some_ports(alloc: Global, word: &[u8]) -> Result<Vec<u16>, LineFault>
    ensures { Gives (λ v. v.items) result (some_ports_in word.now) }
{
    if is(word, b"-") {
        return Ok(Vec::new(alloc));
    }
    let pieces = split(alloc, word, b',')?;
    listed_ports(alloc, &pieces)
}

/// Finds the place of an application among the names. A place that does not fit 32 bits is want of memory.
#[tactic(auto, unfolding(lego_model::specs::SessionWords::an_app))]
pub fn an_app(names: &[String], word: &[u8]) -> Result<u32, LineFault>
    ensures { Gives (λ n. n) result (an_app_in (map (λ s. string_bytes s) names.now) word.now) }
{
    for (place, name) in names.iter().enumerate() {
        if is(word, name.as_bytes()) {
            return u32::try_from(place).map_err(|_| LineFault::NoMemory);
        }
    }
    Err(LineFault::Kind(SessionKind::App))
}

/// Returns what stands before and behind the first such byte.
pub fn cut_at(word: &[u8], mark: u8) -> Option<(&[u8], &[u8])>
    ensures { MatchOption result (is_among mark word.now ≡ false)
        (λ parts. (is_among mark word.now ≡ true) × (parts.0.now ≡ before mark word.now) × (parts.1.now ≡ behind mark word.now)) }
{
    for at in 0..word.len() {
        if word[at] == mark {
            return Some((&word[..at], &word[at + 1..]));
        }
    }
    None
}
