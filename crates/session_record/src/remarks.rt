//! What no line of a session can say of a run, each with its count.

ghost use Rattle.std.specs.Prelude.{◌≡◌, ◌++◌, IfOk, OnOk, string_bytes};
ghost use Rattle.session_record.specs.Remarks.{remark, with_messages, with_switches, with_sizes, remarks_text, AreRemarks};

use of_types::{Dpid, PortChange, PortNo, Stimulus, WorldStim};
use outside::{Item, NextFault, Told};
use std::alloc::{AllocError, Global};
use std::collections::BTreeMap;

/// The types of the messages that are counted (OpenFlow 1.0.0, 5.1).
const FLOW_REMOVED: u8 = 11;

const PORT_STATUS: u8 = 12;

/// The limits of a session, and of its lines and of a whole input in bytes.
const MOST_SWITCHES: u64 = 64;

const MOST_PORTS: usize = 64;

const MOST_STIMULI: u64 = 1_000_000;

const MOST_LINE: usize = 4_194_304;

const MOST_INPUT: u64 = 67_108_864;

/// How many of these messages the switches sent of themselves. It counts none where nothing is recorded.
#[derive(Clone, Copy, Debug)]
pub(crate) struct Messages {
    pub(crate) is_counting: bool,
    pub(crate) flow_removed: u64,
    pub(crate) port_status: u64,
}

/// How many stimuli there are, how many of them are of ports, and how many of these change nothing.
#[derive(Clone, Copy, Debug)]
struct Counts {
    stimuli: u64,
    of_ports: u64,
    without_effect: u64,
}

/// How much there is of each kind of thing that no line of a session says, or that is too much for a session.
#[derive(Clone, Copy, Debug)]
pub(crate) struct Unsaid {
    /// FLOW_REMOVED of switches.
    flow_removed: u64,
    /// PORT_STATUS of switches.
    port_status: u64,
    /// Switches, if there are more than a session has.
    switches: u64,
    /// Switches with the number 0.
    unnumbered: u64,
    /// Switches with more ports than one of a session has.
    large: u64,
    /// Stimuli, if there are more than a session has.
    stimuli: u64,
    /// Lines that are longer than one of a session is.
    long_lines: u64,
    /// The bytes of the session, if they are more than an input has.
    bytes: u64,
}

impl Messages {
    /// Nothing was sent yet.
    pub(crate) fn new(is_counting: bool) -> Messages {
        Messages {
            is_counting,
            flow_removed: 0,
            port_status: 0,
        }
    }

    /// Counts what came next, where it is one of these messages.
    pub(crate) fn note(&mut self, answer: Result<Item, NextFault>, buf: &[u8]) {
        if !self.is_counting || !matches!(answer, Ok(Item::From(_, _))) {
            return;
        }
        match buf.get(1).copied() {
            Some(FLOW_REMOVED) => self.flow_removed = self.flow_removed.saturating_add(1),
            Some(PORT_STATUS) => self.port_status = self.port_status.saturating_add(1),
            _ => {}
        }
    }
}

/// Whether the link of the port is up behind this change; another change says nothing of it.
fn link_behind(change: PortChange) -> Option<bool> {
    match change {
        PortChange::Up => Some(true),
        PortChange::Down => Some(false),
        PortChange::Add | PortChange::Delete => None,
    }
}

impl Counts {
    /// Counts a change of a port, and keeps whether its link is up. At first each link is.
    fn note_port(
        &mut self,
        down: &mut BTreeMap<(Dpid, PortNo), bool>,
        port: (Dpid, PortNo),
        change: PortChange,
    ) -> Result<(), AllocError> {
        self.of_ports = self.of_ports.saturating_add(1);
        let is_up = link_behind(change);
        let was_up = !down.get(&port).copied().unwrap_or(false);
        if is_up == Some(was_up) {
            self.without_effect = self.without_effect.saturating_add(1);
        }
        down.insert(port, is_up == Some(false))?;
        Ok(())
    }

    /// Counts a stimulus.
    fn note(
        &mut self,
        down: &mut BTreeMap<(Dpid, PortNo), bool>,
        stimulus: &WorldStim,
    ) -> Result<(), AllocError> {
        self.stimuli = self.stimuli.saturating_add(1);
        match stimulus {
            WorldStim::Of(dpid, Stimulus::Port { port, change }) => {
                self.note_port(down, (*dpid, *port), *change)
            }
            _ => Ok(()),
        }
    }
}

/// Counts the stimuli of a world.
fn counts_of<W: Told>(alloc: Global, world: &W) -> Result<Counts, AllocError> {
    let mut counts = Counts {
        stimuli: 0,
        of_ports: 0,
        without_effect: 0,
    };
    let mut down = BTreeMap::new(alloc);
    for number in 0..usize::MAX {
        match world.stimulus(alloc, number)? {
            Some(stimulus) => counts.note(&mut down, &stimulus)?,
            None => break,
        }
    }
    Ok(counts)
}

/// Appends the comment that there are so many of these, where there are any.
#[tactic(auto, unfolding(crate::specs::Remarks::remark, lego_model::specs::RunReport::line_of))]
fn push_count(out: &mut String, what: &str, count: u64) -> Result<(), AllocError>
    ensures { OnOk result (string_bytes out.new ≡ string_bytes out.old ++ remark what.now count) }
{
    if count == 0 {
        return Ok(());
    }
    write!(out, "# {what}: {count}\n")
}

/// Appends the comments on what switches sent.
fn push_messages(out: &mut String, unsaid: Unsaid) -> Result<(), AllocError>
    ensures { OnOk result (string_bytes out.new ≡ with_messages (string_bytes out.old) unsaid) }
{
    push_count(
        out,
        "FLOW_REMOVED of switches, which no line says",
        unsaid.flow_removed,
    )?;
    push_count(
        out,
        "PORT_STATUS of switches, which no line says",
        unsaid.port_status,
    )?;
    Ok(())
}

/// Appends the comments on the switches.
fn push_switches(out: &mut String, unsaid: Unsaid) -> Result<(), AllocError>
    ensures { OnOk result (string_bytes out.new ≡ with_switches (string_bytes out.old) unsaid) }
{
    push_count(
        out,
        "switches, of which a session has at most 64",
        unsaid.switches,
    )?;
    push_count(
        out,
        "switches with the number 0, which no session has",
        unsaid.unnumbered,
    )?;
    push_count(
        out,
        "switches with more than 64 ports, which no session has",
        unsaid.large,
    )?;
    Ok(())
}

/// Appends the comments on what is too much for a session.
fn push_sizes(out: &mut String, unsaid: Unsaid) -> Result<(), AllocError>
    ensures { OnOk result (string_bytes out.new ≡ with_sizes (string_bytes out.old) unsaid) }
{
    push_count(
        out,
        "stimuli, of which a session has at most 1,000,000",
        unsaid.stimuli,
    )?;
    push_count(
        out,
        "lines above 4,194,304 bytes, which no session has",
        unsaid.long_lines,
    )?;
    push_count(
        out,
        "bytes, of which an input has at most 67,108,864",
        unsaid.bytes,
    )?;
    Ok(())
}

/// Spells the comments.
fn text_of(alloc: Global, unsaid: Unsaid) -> Result<String, AllocError>
    ensures { IfOk result (λ text. string_bytes text ≡ remarks_text unsaid) }
{
    let mut out = String::new(alloc);
    push_messages(&mut out, unsaid)?;
    push_switches(&mut out, unsaid)?;
    push_sizes(&mut out, unsaid)?;
    Ok(out)
}

/// Gives the count where it is more than so many, else 0.
fn above(count: u64, most: u64) -> u64 {
    if count > most { count } else { 0 }
}

/// Counts what no line says of a recording of a world whose switches sent these messages.
fn unsaid_in<W: Told>(
    alloc: Global,
    world: &W,
    messages: Messages,
    text: &[u8],
) -> Result<Unsaid, AllocError> {
    let counts = counts_of(alloc, world)?;
    let switches = world.declared(alloc)?;
    let unnumbered = switches.iter().filter(|switch| switch.dpid == 0).count();
    let large = switches
        .iter()
        .filter(|switch| switch.ports.len() > MOST_PORTS)
        .count();
    let long_lines = text
        .split(|byte| *byte == b'\n')
        .filter(|line| line.len() > MOST_LINE)
        .count();
    Ok(Unsaid {
        flow_removed: messages.flow_removed,
        port_status: messages
            .port_status
            .saturating_sub(counts.of_ports)
            .saturating_add(counts.without_effect),
        switches: above(switches.len() as u64, MOST_SWITCHES),
        unnumbered: unnumbered as u64,
        large: large as u64,
        stimuli: above(counts.stimuli, MOST_STIMULI),
        long_lines: long_lines as u64,
        bytes: above(text.len() as u64, MOST_INPUT),
    })
}

/// The comments on a recording of a world whose switches sent these messages: a line for each kind of thing that no line of a session
/// can say, with its count.
pub(crate) fn remarks_of<W: Told>(
    alloc: Global,
    world: &W,
    messages: Messages,
    text: &[u8],
) -> Result<String, AllocError>
    ensures { IfOk result (λ remarks. AreRemarks (string_bytes remarks)) }
{
    let unsaid = unsaid_in(alloc, world, messages, text)?;
    Ok(text_of(alloc, unsaid)?)
}
