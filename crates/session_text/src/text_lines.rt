//! The lines of a session text, each as what it adds to what has been read, or its first fault: `Word` for
//! the line as a whole, then each word from left to right, last the order of moments.

ghost use Rattle.std.specs.Prelude.{◌≡◌, ◌||◌, ◌==◌, not, Ok, [], length, map, string_bytes};
ghost use Rattle.of_wire.specs.Reading.{reading_of};
ghost use Rattle.of_wire.specs.Spelling.{kind_of};
ghost use Rattle.outside.specs.Conforming.{is_unasked, may_be_raw};
ghost use Rattle.lego_model.specs.SessionSteps.{are_steps as are_steps_in};
ghost use Rattle.lego_model.specs.SessionLines as lines;
ghost use Rattle.session_text.specs.TextGives.{Gives};
ghost use Rattle.session_text.specs.SessionView.{view_so_far};

use crate::text_fault::LineFault;
use crate::text_so_far::{
    SoFar, a_new_switch, a_switch, has_most_stimuli, has_most_switches, with_fault, with_reply,
    with_start, with_stimulus, with_switch,
};
use crate::text_steps::{are_steps, steps_of};
use crate::text_words::{a_number, an_app, some_bytes, some_ports};
use crate::words::is;
use app_frames::StartScript;
use flow_timeouts::LAST_MOMENT;
use lego_model::SessionKind;
use of_types::limits::{LEAST_FRAME_BYTES, MOST_ENTRIES, MOST_FRAME_BYTES, MOST_MESSAGE_BYTES};
use of_types::{ByteList, PortChange, Stimulus, WorldStim, ports};
use of_wire::{Message, WireFault, decode};
use std::alloc::Global;

/// The fault of an unknown word.
const UNKNOWN: LineFault = LineFault::Kind(SessionKind::Word);

/// The fault of one item too many.
const TOO_MANY: LineFault = LineFault::Kind(SessionKind::Range);

/// Reads `switch DPID CAP PORTS`.
#[tactic(auto, unfolding(lego_model::specs::SessionLines::switch_line))]
fn switch_line(
    alloc: Global,
    so_far: SoFar,
    dpid: &[u8],
    capacity: &[u8],
    ports: &[u8],
) -> Result<SoFar, LineFault>
    ensures { Gives view_so_far result (lines.switch_line (view_so_far so_far) dpid.now capacity.now ports.now) }
{
    if has_most_switches(&so_far) {
        return Err(TOO_MANY);
    }
    let dpid = a_new_switch(&so_far, dpid)?;
    let capacity = a_number(capacity, 1, u64::from(MOST_ENTRIES))? as u32;
    let ports = some_ports(alloc, ports)?;
    with_switch(so_far, dpid, capacity, ports)
}

/// Reads how a start ends, by its word.
#[tactic(auto, unfolding(lego_model::specs::SessionLines::start_word))]
fn start_word(word: &[u8]) -> Option<StartScript>
    ensures { result ≡ lines.start_word word.now }
{
    if is(word, b"ready") {
        Some(StartScript::Ready)
    } else if is(word, b"refused") {
        Some(StartScript::Refused)
    } else if is(word, b"closed") {
        Some(StartScript::Closed)
    } else if is(word, b"silent") {
        Some(StartScript::Silent)
    } else if is(word, b"garbled") {
        Some(StartScript::Garbled)
    } else {
        None
    }
}

/// Reads `start APP WORD`.
#[tactic(auto, unfolding(lego_model::specs::SessionLines::start_line))]
fn start_line(names: &[String], so_far: SoFar, app: &[u8], word: &[u8]) -> Result<SoFar, LineFault>
    ensures { Gives view_so_far result (lines.start_line (map (λ s. string_bytes s) names.now) (view_so_far so_far) app.now word.now) }
{
    let Some(ending) = start_word(word) else {
        return Err(UNKNOWN);
    };
    let app = an_app(names, app)?;
    with_start(so_far, app, ending)
}

/// Tells whether there are no steps, or they are not a turn's.
fn are_no_turn(steps: &[&[u8]]) -> bool
    ensures { result ≡ (length (map (λ w. w.now) steps.now) == 0 || not (are_steps_in (map (λ w. w.now) steps.now))) }
{
    steps.is_empty() || !are_steps(steps)
}

/// Reads `reply APP STEP ..`.
#[tactic(auto, unfolding(lego_model::specs::SessionLines::reply_line))]
fn reply_line(
    alloc: Global,
    names: &[String],
    so_far: SoFar,
    app: &[u8],
    steps: &[&[u8]],
) -> Result<SoFar, LineFault>
    ensures { Gives view_so_far result (lines.reply_line (map (λ s. string_bytes s) names.now) (view_so_far so_far) app.now (map (λ w. w.now) steps.now)) }
{
    if are_no_turn(steps) {
        return Err(UNKNOWN);
    }
    let app = an_app(names, app)?;
    let script = steps_of(alloc, steps)?;
    with_reply(so_far, app, script)
}

/// Reads `fault link DPID N`.
#[tactic(auto, unfolding(lego_model::specs::SessionLines::fault_line))]
fn fault_line(so_far: SoFar, link: &[u8], dpid: &[u8], count: &[u8]) -> Result<SoFar, LineFault>
    ensures { Gives view_so_far result (lines.fault_line (view_so_far so_far) link.now dpid.now count.now) }
{
    if !is(link, b"link") {
        return Err(UNKNOWN);
    }
    let dpid = a_switch(&so_far, dpid)?;
    let count = a_number(count, 1, u64::MAX)?;
    with_fault(so_far, dpid, count)
}

/// Reads `join DPID`.
#[tactic(auto, unfolding(lego_model::specs::SessionLines::join_line))]
fn join_line(so_far: SoFar, dpid: &[u8]) -> Result<SoFar, LineFault>
    ensures { Gives view_so_far result (lines.join_line (view_so_far so_far) dpid.now) }
{
    if has_most_stimuli(&so_far) {
        return Err(TOO_MANY);
    }
    let dpid = a_switch(&so_far, dpid)?;
    with_stimulus(so_far, WorldStim::Join(dpid))
}

/// Reads `leave DPID`.
#[tactic(auto, unfolding(lego_model::specs::SessionLines::leave_line))]
fn leave_line(so_far: SoFar, dpid: &[u8]) -> Result<SoFar, LineFault>
    ensures { Gives view_so_far result (lines.leave_line (view_so_far so_far) dpid.now) }
{
    if has_most_stimuli(&so_far) {
        return Err(TOO_MANY);
    }
    let dpid = a_switch(&so_far, dpid)?;
    with_stimulus(so_far, WorldStim::Leave(dpid))
}

/// With the moment, which is now the last one.
fn with_moment(so_far: SoFar, moment: u64) -> Result<SoFar, LineFault>
    ensures { Gives view_so_far result (Ok (record (lines.with_stimulus (view_so_far so_far) (WorldStim.At moment)) { moment = moment })) }
{
    let so_far = with_stimulus(so_far, WorldStim::At(moment))?;
    Ok(SoFar { moment, ..so_far })
}

/// Reads `at MOMENT`.
#[tactic(auto, unfolding(lego_model::specs::SessionLines::at_line))]
fn at_line(so_far: SoFar, moment: &[u8]) -> Result<SoFar, LineFault>
    ensures { Gives view_so_far result (lines.at_line (view_so_far so_far) moment.now) }
{
    if has_most_stimuli(&so_far) {
        return Err(TOO_MANY);
    }
    let moment = a_number(moment, 0, LAST_MOMENT)?;
    if moment < so_far.moment {
        return Err(LineFault::Kind(SessionKind::Order));
    }
    with_moment(so_far, moment)
}

/// Reads `frame DPID PORT HEX`.
#[tactic(auto, unfolding(lego_model::specs::SessionLines::frame_line))]
fn frame_line(
    alloc: Global,
    so_far: SoFar,
    dpid: &[u8],
    port: &[u8],
    hex: &[u8],
) -> Result<SoFar, LineFault>
    ensures { Gives view_so_far result (lines.frame_line (view_so_far so_far) dpid.now port.now hex.now) }
{
    if has_most_stimuli(&so_far) {
        return Err(TOO_MANY);
    }
    let dpid = a_switch(&so_far, dpid)?;
    let port = a_number(port, 0, u64::from(u16::MAX))? as u16;
    let bytes = ByteList::from_vec(some_bytes(alloc, hex, LEAST_FRAME_BYTES, MOST_FRAME_BYTES)?);
    with_stimulus(so_far, WorldStim::Of(dpid, Stimulus::Frame { port, bytes }))
}

/// Reads what happens to a port, by its word.
#[tactic(auto, unfolding(lego_model::specs::SessionLines::change_word))]
fn change_word(word: &[u8]) -> Option<PortChange>
    ensures { result ≡ lines.change_word word.now }
{
    if is(word, b"up") {
        Some(PortChange::Up)
    } else if is(word, b"down") {
        Some(PortChange::Down)
    } else if is(word, b"add") {
        Some(PortChange::Add)
    } else if is(word, b"delete") {
        Some(PortChange::Delete)
    } else {
        None
    }
}

/// Reads `port DPID PORT up`, or `down`, `add`, `delete`.
#[tactic(auto, unfolding(lego_model::specs::SessionLines::port_line))]
fn port_line(so_far: SoFar, dpid: &[u8], port: &[u8], word: &[u8]) -> Result<SoFar, LineFault>
    ensures { Gives view_so_far result (lines.port_line (view_so_far so_far) dpid.now port.now word.now) }
{
    let Some(change) = change_word(word) else {
        return Err(UNKNOWN);
    };
    if has_most_stimuli(&so_far) {
        return Err(TOO_MANY);
    }
    let dpid = a_switch(&so_far, dpid)?;
    let port = a_number(port, 1, u64::from(ports::MAX))? as u16;
    with_stimulus(so_far, WorldStim::Of(dpid, Stimulus::Port { port, change }))
}

/// Reads `count DPID PRIORITY PACKETS BYTES`.
#[tactic(auto, unfolding(lego_model::specs::SessionLines::count_line))]
fn count_line(
    so_far: SoFar,
    dpid: &[u8],
    priority: &[u8],
    packets: &[u8],
    bytes: &[u8],
) -> Result<SoFar, LineFault>
    ensures { Gives view_so_far result (lines.count_line (view_so_far so_far) dpid.now priority.now packets.now bytes.now) }
{
    if has_most_stimuli(&so_far) {
        return Err(TOO_MANY);
    }
    let dpid = a_switch(&so_far, dpid)?;
    let priority = a_number(priority, 0, u64::from(u16::MAX))? as u16;
    let packets = a_number(packets, 0, u64::MAX)?;
    let bytes = a_number(bytes, 0, u64::MAX)?;
    let counts = Stimulus::Counts {
        priority,
        packets,
        bytes,
    };
    with_stimulus(so_far, WorldStim::Of(dpid, counts))
}

/// Tells whether a switch may send a message unasked.
fn is_unasked(message: &Message) -> bool
    ensures { result ≡ is_unasked (kind_of message.now) }
{
    matches!(
        message,
        Message::Hello { .. }
            | Message::Error { .. }
            | Message::EchoRequest { .. }
            | Message::Vendor { .. }
            | Message::PacketIn(_)
    )
}

/// Tells whether bytes are no message, or one that a switch may send unasked.
fn may_be_raw(alloc: Global, bytes: &[u8]) -> Result<bool, LineFault>
    ensures { Gives (λ b. b) result (Ok (may_be_raw (reading_of bytes.now))) }
{
    match decode(alloc, bytes) {
        Ok(envelope) => Ok(is_unasked(&envelope.message)),
        Err(WireFault::NoMemory) => Err(LineFault::NoMemory),
        Err(_) => Ok(true),
    }
}

/// Reads `raw DPID HEX`.
#[tactic(auto, unfolding(lego_model::specs::SessionLines::raw_line))]
fn raw_line(alloc: Global, so_far: SoFar, dpid: &[u8], hex: &[u8]) -> Result<SoFar, LineFault>
    ensures { Gives view_so_far result (lines.raw_line (view_so_far so_far) dpid.now hex.now) }
{
    if has_most_stimuli(&so_far) {
        return Err(TOO_MANY);
    }
    let dpid = a_switch(&so_far, dpid)?;
    let bytes = some_bytes(alloc, hex, 0, MOST_MESSAGE_BYTES)?;
    if !may_be_raw(alloc, &bytes)? {
        return Err(LineFault::Kind(SessionKind::Raw));
    }
    let bytes = ByteList::from_vec(bytes);
    with_stimulus(so_far, WorldStim::Of(dpid, Stimulus::Raw(bytes)))
}

/// Reads a line of two words.
fn line_of_two(so_far: SoFar, first: &[u8], second: &[u8]) -> Result<SoFar, LineFault>
    ensures { Gives view_so_far result (lines.line_of_two (view_so_far so_far) first.now second.now) }
{
    if is(first, b"join") {
        join_line(so_far, second)
    } else if is(first, b"leave") {
        leave_line(so_far, second)
    } else if is(first, b"at") {
        at_line(so_far, second)
    } else {
        Err(UNKNOWN)
    }
}

/// Reads a line of three words.
fn line_of_three(
    alloc: Global,
    names: &[String],
    so_far: SoFar,
    first: &[u8],
    second: &[u8],
    third: &[u8],
) -> Result<SoFar, LineFault>
    ensures { Gives view_so_far result (lines.line_of_three (map (λ s. string_bytes s) names.now) (view_so_far so_far) first.now second.now third.now) }
{
    if is(first, b"start") {
        start_line(names, so_far, second, third)
    } else if is(first, b"raw") {
        raw_line(alloc, so_far, second, third)
    } else {
        Err(UNKNOWN)
    }
}

/// Reads a line of four words.
fn line_of_four(
    alloc: Global,
    so_far: SoFar,
    first: &[u8],
    second: &[u8],
    third: &[u8],
    fourth: &[u8],
) -> Result<SoFar, LineFault>
    ensures { Gives view_so_far result (lines.line_of_four (view_so_far so_far) first.now second.now third.now fourth.now) }
{
    if is(first, b"switch") {
        switch_line(alloc, so_far, second, third, fourth)
    } else if is(first, b"fault") {
        fault_line(so_far, second, third, fourth)
    } else if is(first, b"frame") {
        frame_line(alloc, so_far, second, third, fourth)
    } else if is(first, b"port") {
        port_line(so_far, second, third, fourth)
    } else {
        Err(UNKNOWN)
    }
}

/// Reads a line of five words.
fn line_of_five(
    so_far: SoFar,
    first: &[u8],
    second: &[u8],
    third: &[u8],
    fourth: &[u8],
    fifth: &[u8],
) -> Result<SoFar, LineFault>
    ensures { Gives view_so_far result (lines.line_of_five (view_so_far so_far) first.now second.now third.now fourth.now fifth.now) }
{
    if is(first, b"count") {
        count_line(so_far, second, third, fourth, fifth)
    } else {
        Err(UNKNOWN)
    }
}

/// Reads a line with a fixed number of words.
#[tactic(auto, unfolding(lego_model::specs::SessionLines::fixed_line))]
fn fixed_line(
    alloc: Global,
    names: &[String],
    so_far: SoFar,
    words: &[&[u8]],
) -> Result<SoFar, LineFault>
    ensures { Gives view_so_far result (lines.fixed_line (map (λ s. string_bytes s) names.now) (view_so_far so_far) (map (λ w. w.now) words.now)) }
{
    match words {
        [first, second] => line_of_two(so_far, first, second),
        [first, second, third] => line_of_three(alloc, names, so_far, first, second, third),
        [first, second, third, fourth] => {
            line_of_four(alloc, so_far, first, second, third, fourth)
        }
        [first, second, third, fourth, fifth] => {
            line_of_five(so_far, first, second, third, fourth, fifth)
        }
        [] | [_] => Err(UNKNOWN),
        [_, _, _, _, _, _, ..] => Err(UNKNOWN),
    }
}

/// Tells whether a line is a reply's, by its first word.
fn is_reply(words: &[&[u8]]) -> bool
    ensures { result ≡ lines.is_reply (map (λ w. w.now) words.now) }
{
    match words {
        [first, ..] => is(first, b"reply"),
        [] => false,
    }
}

/// Reads a line with a turn's steps.
fn reply_words(
    alloc: Global,
    names: &[String],
    so_far: SoFar,
    words: &[&[u8]],
) -> Result<SoFar, LineFault>
    ensures { Gives view_so_far result (lines.reply_words (map (λ s. string_bytes s) names.now) (view_so_far so_far) (map (λ w. w.now) words.now)) }
{
    match words {
        [_, app, steps @ ..] => reply_line(alloc, names, so_far, app, steps),
        _ => Err(UNKNOWN),
    }
}

/// Reads one more line, by its words.
#[tactic(auto, unfolding(lego_model::specs::SessionLines::line_of))]
pub fn line_of(
    alloc: Global,
    names: &[String],
    so_far: SoFar,
    words: &[&[u8]],
) -> Result<SoFar, LineFault>
    ensures { Gives view_so_far result (lines.line_of (map (λ s. string_bytes s) names.now) (view_so_far so_far) (map (λ w. w.now) words.now)) }
{
    if is_reply(words) {
        reply_words(alloc, names, so_far, words)
    } else {
        fixed_line(alloc, names, so_far, words)
    }
}
