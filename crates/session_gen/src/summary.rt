//! The line that sums up the report of a session that is drawn.

ghost use Rattle.std.specs.Prelude.{◌≡◌, ◌==◌, ◌++◌, map, IfOk, OnOk, string_bytes};
ghost use Rattle.std.specs.List.{slice_split};
ghost use Rattle.lego_model.specs.Words.{words_of, is_word};
ghost use Rattle.session_gen.specs.Summary.{word_at, number_in, packets_in, with_words, sums_of, head_text, turns_text, flows_text, summary_line};

use std::alloc::{AllocError, Global};

/// What the lines of a report add up to, modulo 2^64.
#[derive(Clone, Copy, Debug, PartialEq, Eq)]
pub struct Sums {
    /// How many events were dispatched.
    pub events: u64,
    /// How many turns completed.
    pub done: u64,
    /// How many turns failed.
    pub failed: u64,
    /// How many entries stand at the end.
    pub flows: u64,
    /// How many packets hit them.
    pub packets: u64,
}

/// Of no line.
const NOTHING: Sums = Sums {
    events: 0,
    done: 0,
    failed: 0,
    flows: 0,
    packets: 0,
};

/// Cuts a text into its pieces between the bytes `separator`.
fn split(alloc: Global, text: &[u8], separator: u8) -> Result<Vec<&[u8]>, AllocError>
    ensures { IfOk result (λ pieces. map (λ p. p.now) pieces.items ≡ slice_split (λ b. b == separator) text.now) }
{
    text.split(|byte| *byte == separator).collect(alloc)
}

/// Cuts a line into its words, which stand between single spaces.
#[tactic(auto, unfolding(lego_model::specs::Words::words_of))]
fn words_of(alloc: Global, line: &[u8]) -> Result<Vec<&[u8]>, AllocError>
    ensures { IfOk result (λ words. map (λ w. w.now) words.items ≡ words_of line.now) }
{
    split(alloc, line, b' ')
}

/// Gives the word at a place, and no byte where there is none.
fn word_at<'a>(words: &[&'a [u8]], place: usize) -> &'a [u8]
    ensures { result.now ≡ word_at place (map (λ w. w.now) words.now) }
{
    match words.get(place) {
        Some(word) => word,
        None => &[],
    }
}

/// Tells whether the first word is this text.
#[tactic(auto, unfolding(lego_model::specs::Words::is_word))]
fn begins_with(words: &[&[u8]], text: &[u8]) -> bool
    ensures { result ≡ is_word text.now (word_at 0 (map (λ w. w.now) words.now)) }
{
    word_at(words, 0) == text
}

/// Gives the number that a word spells, modulo 2^64.
#[tactic(auto, unfolding(crate::specs::Summary::number_in))]
fn number_in(word: &[u8]) -> u64
    ensures { result ≡ number_in word.now }
{
    let mut value: u64 = 0;
    for digit in word {
        value = value
            .wrapping_mul(10)
            .wrapping_add(u64::from(digit.saturating_sub(b'0')));
    }
    value
}

/// Gives the number of a word that follows `packets=`.
#[tactic(auto, unfolding(crate::specs::Summary::packets_in))]
fn packets_in(words: &[&[u8]]) -> u64
    ensures { result ≡ packets_in (map (λ w. w.now) words.now) }
{
    match word_at(words, 7).get(8..) {
        Some(digits) => number_in(digits),
        None => number_in(&[]),
    }
}

impl Sums {
    /// Adds what the words of a line say.
    #[tactic(auto, unfolding(crate::specs::Summary::with_words))]
    fn add(&mut self, words: &[&[u8]])
        ensures { self.new ≡ with_words (map (λ w. w.now) words.now) self.old }
    {
        if begins_with(words, b"flow") {
            self.flows = self.flows.wrapping_add(1);
            self.packets = self.packets.wrapping_add(packets_in(words));
        } else if begins_with(words, b"app") {
            self.done = self.done.wrapping_add(number_in(word_at(words, 4)));
            self.failed = self.failed.wrapping_add(number_in(word_at(words, 6)));
        } else if begins_with(words, b"end") {
            self.events = number_in(word_at(words, 3));
        }
    }
}

/// Adds up the lines of a report.
#[tactic(auto, unfolding(crate::specs::Summary::sums_of))]
fn sums_of(alloc: Global, report: &[u8]) -> Result<Sums, AllocError>
    ensures { IfOk result (λ sums. sums ≡ sums_of report.now) }
{
    let mut sums = NOTHING;
    for line in &split(alloc, report, b'\n')? {
        sums.add(&words_of(alloc, line)?);
    }
    Ok(sums)
}

/// Appends `gen START COUNT events E`.
#[tactic(auto, unfolding(crate::specs::Summary::head_text))]
fn push_head(line: &mut String, start: u64, count: u32, sums: &Sums) -> Result<(), AllocError>
    ensures { OnOk result (string_bytes line.new ≡ string_bytes line.old ++ head_text start count sums.now) }
{
    let events = sums.events;
    write!(line, "gen {start} {count} events {events}")
}

/// Appends ` done D failed F`.
#[tactic(auto, unfolding(crate::specs::Summary::turns_text))]
fn push_turns(line: &mut String, sums: &Sums) -> Result<(), AllocError>
    ensures { OnOk result (string_bytes line.new ≡ string_bytes line.old ++ turns_text sums.now) }
{
    let (done, failed) = (sums.done, sums.failed);
    write!(line, " done {done} failed {failed}")
}

/// Appends ` flows N packets P`.
#[tactic(auto, unfolding(crate::specs::Summary::flows_text))]
fn push_flows(line: &mut String, sums: &Sums) -> Result<(), AllocError>
    ensures { OnOk result (string_bytes line.new ≡ string_bytes line.old ++ flows_text sums.now) }
{
    let (flows, packets) = (sums.flows, sums.packets);
    write!(line, " flows {flows} packets {packets}")
}

/// Makes the line that sums up a report.
#[tactic(auto, unfolding(crate::specs::Summary::summary_line, lego_model::specs::RunReport::line_of))]
pub fn summary_line(
    alloc: Global,
    start: u64,
    count: u32,
    report: &[u8],
) -> Result<String, AllocError>
    ensures { IfOk result (λ line. string_bytes line ≡ summary_line start count report.now) }
{
    let sums = sums_of(alloc, report)?;
    let mut line = String::new(alloc);
    push_head(&mut line, start, count, &sums)?;
    push_turns(&mut line, &sums)?;
    push_flows(&mut line, &sums)?;
    line.push_str("\n")?;
    Ok(line)
}
