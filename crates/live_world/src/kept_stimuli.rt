//! What a live world keeps so that its run can be done again.

ghost use Rattle.std.specs.Prelude.{◌≡◌, IfOk};
ghost use Rattle.outside.specs.Calls.{IsItemIn};
ghost use Rattle.outside.specs.Conforming.{is_unasked};
ghost use Rattle.live_world.specs.Keeping.{change_of, port_kept, message_kept, kept_of};

use of_types::{ByteList, Dpid, PortChange, PortDesc, PortNo, Stimulus, WorldStim, ports};
use of_wire::{Message, MessageKind, PortStatus, WireFault, decode};
use outside::{Decl, Item};
use session_lists::StimulusList;
use std::alloc::{AllocError, Global};

/// How many flow entries a switch is declared to take.
const CAPACITY: u32 = 4_096;

/// The stimuli that came, packed, and the switches that joined. It keeps none until it is asked to, and no more once
/// memory was refused.
#[derive(Drop)]
pub struct KeptStimuli {
    alloc: Global,
    is_asked: bool,
    is_short: bool,
    stimuli: StimulusList,
    /// Each switch once, as it first joined.
    switches: Vec<Decl>,
}

/// Tells whether a switch says messages of this type of its own.
fn is_unasked(kind: MessageKind) -> bool
    ensures { result ≡ is_unasked kind }
{
    matches!(
        kind,
        MessageKind::Hello
            | MessageKind::Error
            | MessageKind::EchoRequest
            | MessageKind::Vendor
            | MessageKind::PacketIn
    )
}

/// Tells what happened to a port, by the reason of a PORT_STATUS and the port's state.
fn change_of(reason: u8, state: u32) -> Option<PortChange>
    ensures { result ≡ change_of reason state }
{
    match reason {
        ports::ADD => Some(PortChange::Add),
        ports::DELETE => Some(PortChange::Delete),
        ports::MODIFY if state & ports::LINK_DOWN == 0 => Some(PortChange::Up),
        ports::MODIFY => Some(PortChange::Down),
        _ => None,
    }
}

/// The stimulus that a PORT_STATUS is kept as.
fn port_kept(status: &PortStatus) -> Option<Stimulus>
    ensures { result ≡ port_kept status.now }
{
    let port = status.port.port_no;
    if port < 1 || port > ports::MAX {
        return None;
    }
    let change = change_of(status.reason, status.port.state)?;
    Some(Stimulus::Port { port, change })
}

/// The stimulus that a message of these bytes is kept as.
fn message_kept(
    alloc: Global,
    message: &Message,
    bytes: &[u8],
) -> Result<Option<Stimulus>, AllocError>
    ensures { IfOk result (λ kept. kept ≡ message_kept bytes.now message.now) }
{
    if let Message::PortStatus(status) = message {
        return Ok(port_kept(status));
    }
    if !is_unasked(message.kind()) {
        return Ok(None);
    }
    Ok(Some(Stimulus::Raw(ByteList::from_slice(alloc, bytes)?)))
}

/// The stimulus that these bytes of a switch are kept as.
fn kept_of(alloc: Global, bytes: &[u8]) -> Result<Option<Stimulus>, AllocError>
    ensures { IfOk result (λ kept. kept ≡ kept_of bytes.now) }
{
    match decode(alloc, bytes) {
        Ok(envelope) => message_kept(alloc, &envelope.message, bytes),
        Err(WireFault::NoMemory) => Err(AllocError),
        Err(_) => Ok(None),
    }
}

/// Puts a physical port among others, which ascend.
fn put_port(all: &mut Vec<PortNo>, port: PortNo) -> Result<(), AllocError> {
    if port < 1 || port > ports::MAX {
        return Ok(());
    }
    if let Err(place) = all.binary_search(&port) {
        all.insert(place, port)?;
    }
    Ok(())
}

/// The numbers of the physical ones among these ports, ascending.
fn physical_ports(alloc: Global, ports: &[PortDesc]) -> Result<Vec<PortNo>, AllocError> {
    let mut all = Vec::new(alloc);
    for port in ports {
        put_port(&mut all, port.port_no)?;
    }
    Ok(all)
}

/// The physical ports that a FEATURES_REPLY tells, ascending.
fn ports_in(alloc: Global, features: &[u8]) -> Result<Vec<PortNo>, AllocError> {
    match decode(alloc, features) {
        Ok(envelope) => match &envelope.message {
            Message::FeaturesReply(features) => physical_ports(alloc, features.ports.as_slice()),
            _ => Ok(Vec::new(alloc)),
        },
        Err(WireFault::NoMemory) => Err(AllocError),
        Err(_) => Ok(Vec::new(alloc)),
    }
}

impl KeptStimuli {
    /// Keeps nothing yet; takes no memory.
    pub(crate) fn new(alloc: Global) -> KeptStimuli {
        KeptStimuli {
            alloc,
            is_asked: false,
            is_short: false,
            stimuli: StimulusList::new(alloc),
            switches: Vec::new(alloc),
        }
    }

    /// Asks to keep from now on.
    pub(crate) fn ask(&mut self) {
        self.is_asked = true;
    }

    /// Tells whether it was asked to keep.
    pub(crate) fn is_asked(&self) -> bool {
        self.is_asked
    }

    /// Keeps what the item tells, whose bytes stand in the front of the buffer. Where memory is refused it keeps no more.
    pub(crate) fn note(&mut self, item: Item, buf: &[u8])
        requires { IsItemIn ⊥ item buf.now }
    {
        if self.is_asked && !self.is_short {
            self.is_short = self.keep(item, buf).is_err();
        }
    }

    fn keep(&mut self, item: Item, buf: &[u8]) -> Result<(), AllocError>
        requires { IsItemIn ⊥ item buf.now }
    {
        match item {
            Item::Joined(dpid, size) => {
                self.declare(dpid, &buf[..size])?;
                self.stimuli.push(&WorldStim::Join(dpid))
            }
            Item::Left(dpid) => self.stimuli.push(&WorldStim::Leave(dpid)),
            Item::Moment(moment) => self.stimuli.push(&WorldStim::At(moment)),
            Item::From(dpid, size) => match kept_of(self.alloc, &buf[..size])? {
                Some(x) => self.stimuli.push(&WorldStim::Of(dpid, x)),
                None => Ok(()),
            },
            Item::Idle | Item::End => Ok(()),
        }
    }

    /// Declares the switch by its FEATURES_REPLY, where it has not joined before.
    fn declare(&mut self, dpid: Dpid, features: &[u8]) -> Result<(), AllocError> {
        if self.switches.iter().any(|switch| switch.dpid == dpid) {
            return Ok(());
        }
        let all = ports_in(self.alloc, features)?;
        self.switches
            .push(Decl::new(self.alloc, dpid, CAPACITY, &all)?)?;
        Ok(())
    }

    fn check(&self) -> Result<(), AllocError> {
        if self.is_short {
            Err(AllocError)
        } else {
            Ok(())
        }
    }

    /// Copies the stimulus of a number, counted from 0, if there is one. `AllocError` also once memory was refused.
    pub(crate) fn stimulus(
        &self,
        alloc: Global,
        number: usize,
    ) -> Result<Option<WorldStim>, AllocError> {
        self.check()?;
        self.stimuli.get(alloc, number)
    }

    /// Copies the switches. `AllocError` also once memory was refused.
    pub(crate) fn declared(&self, alloc: Global) -> Result<Vec<Decl>, AllocError> {
        self.check()?;
        let mut all = Vec::with_capacity(alloc, self.switches.len())?;
        for switch in &self.switches {
            all.push(Decl::new(alloc, switch.dpid, switch.cap, &switch.ports)?)?;
        }
        Ok(all)
    }
}
