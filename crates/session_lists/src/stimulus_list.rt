//! Stimuli, packed.

ghost use Rattle.std.specs.Prelude.{◌≡◌, ◌≤◌, [], ◌∷◌, ◌++◌, length, drop, IfOk, OnOk, OnErr, slice_get};
ghost use Rattle.of_types.specs.declared.journal.WorldStim.TheVariants as world;
ghost use Rattle.session_lists.specs.Stimuli.{size_of, stimulus_in};

use crate::heads::{head_of_number, head_of_port, head_of_second, head_of_two};
use crate::kinds::StimulusKind;
use crate::records::Records;
use of_types::{ByteList, Dpid, Stimulus, WorldStim, get_u16, get_u32, get_u64};
use std::alloc::{AllocError, Global};
use std::marker::Model;

/// Stimuli, packed: each takes some seven bytes beside its numbers and bytes. Contracts see a list.
#[derive(Drop, Debug)]
pub struct StimulusList {
    records: Records<StimulusKind>,
}

impl Model for StimulusList {
    ghost use Rattle.std.specs.Prelude.{List};
    ghost use Rattle.of_types.specs.declared.journal.WorldStim.{WorldStim};
    ghost use Rattle.session_lists.specs.Stimuli.{stimuli_in, AreWhole};

    ghost Value = { List WorldStim };

    ghost view = { λ s. stimuli_in s.records };

    ghost invariant = { λ s. AreWhole s.records };
}

/// Copies the bytes from a place on.
fn bytes_from(alloc: Global, bytes: &[u8], at: usize) -> Result<ByteList, AllocError>
    requires { at ≤ length bytes.now }
    ensures { IfOk result (λ list. list ≡ drop at bytes.now) }
{
    ByteList::from_slice(alloc, &bytes[at..])
}

/// Reads the stimulus that a record spells.
#[tactic(auto, unfolding(crate::specs::Stimuli::stimulus_in))]
fn read(alloc: Global, kind: StimulusKind, bytes: &[u8]) -> Result<WorldStim, AllocError>
    requires { size_of kind ≤ length bytes.now }
    ensures { IfOk result (λ x. x ≡ stimulus_in kind bytes.now) }
{
    let happened = match kind {
        StimulusKind::Join => return Ok(WorldStim::Join(get_u64(bytes, 0))),
        StimulusKind::Leave => return Ok(WorldStim::Leave(get_u64(bytes, 0))),
        StimulusKind::At => return Ok(WorldStim::At(u64::from(get_u32(bytes, 0)))),
        StimulusKind::LateAt => return Ok(WorldStim::At(get_u64(bytes, 0))),
        StimulusKind::Frame => Stimulus::Frame {
            port: get_u16(bytes, 8),
            bytes: bytes_from(alloc, bytes, 10)?,
        },
        StimulusKind::Advance => Stimulus::Advance(get_u64(bytes, 8)),
        StimulusKind::Port(change) => Stimulus::Port {
            port: get_u16(bytes, 8),
            change,
        },
        StimulusKind::Counts => Stimulus::Counts {
            priority: get_u16(bytes, 8),
            packets: get_u64(bytes, 10),
            bytes: get_u64(bytes, 18),
        },
        StimulusKind::Raw => Stimulus::Raw(bytes_from(alloc, bytes, 8)?),
    };
    Ok(WorldStim::Of(get_u64(bytes, 0), happened))
}

impl StimulusList {
    /// Returns a list of no stimuli; takes no memory.
    pub fn new(alloc: Global) -> StimulusList
        ensures { result ≡ [] }
    {
        StimulusList {
            records: Records::new(alloc),
        }
    }

    /// Tells how many stimuli there are.
    pub fn len(&self) -> usize
        ensures { result ≡ length self.now }
    {
        self.records.len()
    }

    /// Adds the stimulus that a record of two pieces spells, behind the others.
    #[tactic(auto, using(crate::specs::laws::StimulusLaws::stimuli_more, crate::specs::laws::StimulusLaws::whole_more))]
    fn put(&mut self, kind: StimulusKind, head: &[u8], tail: &[u8]) -> Result<(), AllocError>
        requires { size_of kind ≤ length (head.now ++ tail.now) }
        ensures ok { OnOk result (self.new ≡ self.old ++ stimulus_in kind (head.now ++ tail.now) ∷ []) }
        ensures err { OnErr result (self.new ≡ self.old) }
    {
        self.records.push(kind, head, tail)
    }

    /// Adds a moment, in 32 bits where they hold it.
    fn put_moment(&mut self, moment: u64) -> Result<(), AllocError>
        ensures ok { OnOk result (self.new ≡ self.old ++ world.At moment ∷ []) }
        ensures err { OnErr result (self.new ≡ self.old) }
    {
        if moment <= 0xffff_ffff {
            self.put(StimulusKind::At, &head_of_second(moment as u32), &[])
        } else {
            self.put(StimulusKind::LateAt, &head_of_number(moment), &[])
        }
    }

    /// Adds something that happens to a switch.
    fn put_of(&mut self, dpid: Dpid, x: &Stimulus) -> Result<(), AllocError>
        ensures ok { OnOk result (self.new ≡ self.old ++ world.Of dpid x.now ∷ []) }
        ensures err { OnErr result (self.new ≡ self.old) }
    {
        match x {
            Stimulus::Frame { port, bytes } => {
                let head = head_of_port(dpid, *port);
                self.put(StimulusKind::Frame, &head, bytes.as_slice())
            }
            Stimulus::Advance(moment) => {
                self.put(StimulusKind::Advance, &head_of_two(dpid, *moment), &[])
            }
            Stimulus::Port { port, change } => {
                let kind = StimulusKind::Port(*change);
                self.put(kind, &head_of_port(dpid, *port), &[])
            }
            Stimulus::Counts {
                priority,
                packets,
                bytes,
            } => {
                let head = head_of_port(dpid, *priority);
                let counts = head_of_two(*packets, *bytes);
                self.put(StimulusKind::Counts, &head, &counts)
            }
            Stimulus::Raw(bytes) => {
                let head = head_of_number(dpid);
                self.put(StimulusKind::Raw, &head, bytes.as_slice())
            }
        }
    }

    /// Adds one stimulus. Want of memory changes nothing.
    pub fn push(&mut self, x: &WorldStim) -> Result<(), AllocError>
        ensures ok { OnOk result (self.new ≡ self.old ++ x.now ∷ []) }
        ensures err { OnErr result (self.new ≡ self.old) }
    {
        match x {
            WorldStim::Join(dpid) => self.put(StimulusKind::Join, &head_of_number(*dpid), &[]),
            WorldStim::Leave(dpid) => self.put(StimulusKind::Leave, &head_of_number(*dpid), &[]),
            WorldStim::At(moment) => self.put_moment(*moment),
            WorldStim::Of(dpid, x) => self.put_of(*dpid, x),
        }
    }

    /// Copies the stimulus of a number, counted from 0, if there is one.
    pub fn get(&self, alloc: Global, number: usize) -> Result<Option<WorldStim>, AllocError>
        ensures { IfOk result (λ next. next ≡ slice_get self.now number) }
    {
        if number >= self.records.len() {
            return Ok(None);
        }
        let (kind, bytes) = self.records.get(number);
        Ok(Some(read(alloc, kind, bytes)?))
    }
}
