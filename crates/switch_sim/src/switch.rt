//! The simulated switch.

ghost use Rattle.std.specs.Prelude.{◌≡◌, ◌≤◌, length, map, Ok, IfOk};
ghost use Rattle.of_wire.specs.Grammar.{enveloped};
ghost use Rattle.of_wire.specs.Reading.{reading_of};
ghost use Rattle.flow_table.specs.Switch.{joined_at, new_port, features_of, features_reply};
ghost use Rattle.tuple_index.specs.Groups.{group_count};
ghost use Rattle.switch_sim.specs.Readable.{IsReadable};
ghost use Rattle.of_wire.specs.Handshake.{IsFeaturesOf};

use crate::port::Port;
use crate::reply::features;
use of_types::{ByteList, Dpid, PortNo};
use of_wire::{Message, SwitchConfig};
use std::alloc::{AllocError, Global};
use std::marker::Model;
use tuple_index::TupleTable;

/// A switch of OpenFlow 1.0.0 that has joined, with an empty table. Contracts see its state (`SwitchState`), and what it
/// sends as a function of that.
#[derive(Debug, Drop)]
pub struct SimSwitch {
    pub(crate) alloc: Global,
    pub(crate) dpid: Dpid,
    pub(crate) cap: u32,
    pub(crate) declared: Vec<PortNo>,
    pub(crate) moment: u64,
    pub(crate) table: TupleTable,
    pub(crate) ports: Vec<Port>,
    pub(crate) had: Vec<PortNo>,
    pub(crate) config: SwitchConfig,
    pub(crate) lookups: u64,
    pub(crate) matched: u64,
}

impl Model for SimSwitch {
    ghost use Rattle.flow_table.specs.Switch.{SwitchState};
    ghost use Rattle.switch_sim.specs.Sound.{IsSound};

    ghost Value = { SwitchState };

    ghost view = { λ s. record {
      declared = record { dpid = s.dpid; cap = s.cap; ports = s.declared.items };
      moment = s.moment;
      table = s.table;
      ports = s.ports.items;
      had = s.had.items;
      config = s.config;
      lookups = s.lookups;
      matched = s.matched;
    } };

    ghost invariant = { λ s. IsSound s.cap s.moment s.table.entries s.ports.items };
}

fn new_ports(alloc: Global, numbers: &[PortNo]) -> Result<Vec<Port>, AllocError>
    ensures { IfOk result (λ ports. ports.items ≡ map new_port numbers.now) }
{
    let mut ports = Vec::new(alloc);
    for number in numbers {
        ports.push(Port::new(*number))?;
    }
    Ok(ports)
}

fn copy_numbers(alloc: Global, numbers: &[PortNo]) -> Result<Vec<PortNo>, AllocError>
    ensures { IfOk result (λ copy. copy.items ≡ numbers.now) }
{
    Vec::from_slice(alloc, numbers)
}

impl SimSwitch {
    /// Makes a switch that has just joined at moment 0: with an empty table that takes `cap` entries, and its ports, at most
    /// 64, with a link each.
    pub fn new(
        alloc: Global,
        dpid: Dpid,
        cap: u32,
        ports: &[PortNo],
    ) -> Result<SimSwitch, AllocError>
        requires { length ports.now ≤ 64 }
        ensures { IfOk result (λ s. s ≡ joined_at 0 (record { dpid = dpid; cap = cap; ports = ports.now })) }
    {
        SimSwitch::joined(alloc, 0, dpid, cap, ports)
    }

    /// Makes a switch that has just joined at a moment, in seconds and at most 4,294,967,295: with an empty table that takes
    /// `cap` entries, and its ports, at most 64, with a link each.
    pub fn joined(
        alloc: Global,
        moment: u64,
        dpid: Dpid,
        cap: u32,
        ports: &[PortNo],
    ) -> Result<SimSwitch, AllocError>
        requires within { moment ≤ 4294967295 }
        requires few { length ports.now ≤ 64 }
        ensures { IfOk result (λ s. s ≡ joined_at moment (record { dpid = dpid; cap = cap; ports = ports.now })) }
    {
        Ok(SimSwitch {
            alloc,
            dpid,
            cap,
            declared: copy_numbers(alloc, ports)?,
            moment,
            table: TupleTable::new(alloc)?,
            ports: new_ports(alloc, ports)?,
            had: copy_numbers(alloc, ports)?,
            config: SwitchConfig {
                flags: 0,
                miss_send_len: 128,
            },
            lookups: 0,
            matched: 0,
        })
    }

    fn features_message(&self) -> Result<ByteList, AllocError>
        ensures bytes { IfOk result (λ bytes. bytes ≡ features_reply 0 self.now) }
        ensures read { IfOk result (λ bytes. reading_of bytes ≡ Ok (enveloped 0 (Message.FeaturesReply (features_of self.now)))) }
        ensures readable { IfOk result IsReadable }
    {
        features(self.alloc, 0, self.dpid, &self.ports)
    }

    /// Writes the FEATURES_REPLY of the switch with the `xid` 0 (OpenFlow 1.0.0, 5.3.1 Handshake), as it answers a
    /// FEATURES_REQUEST.
    pub fn features(&self) -> Result<ByteList, AllocError>
        ensures bytes { IfOk result (λ bytes. bytes ≡ features_reply 0 self.now) }
        ensures read { IfOk result (λ bytes. reading_of bytes ≡ Ok (enveloped 0 (Message.FeaturesReply (features_of self.now)))) }
        ensures own { IfOk result (IsFeaturesOf self.now.declared.dpid) }
        ensures short { IfOk result (λ bytes. length bytes ≤ 65535) }
    {
        self.features_message()
    }

    /// Tells the number with which it was made; takes no memory.
    pub fn dpid(&self) -> Dpid
        ensures { result ≡ self.now.declared.dpid }
    {
        self.dpid
    }

    /// Tells how many entries its table takes; takes no memory.
    pub fn cap(&self) -> u32
        ensures { result ≡ self.now.declared.cap }
    {
        self.cap
    }

    /// Counts the groups of entries with equal wildcards in its table; takes no memory.
    pub fn groups(&self) -> usize
        ensures { result ≡ group_count self.now.table.entries }
    {
        self.table.groups()
    }

    /// Lends the ports with which it was made; takes no memory.
    pub fn declared(&self) -> &[PortNo]
        ensures { result.now ≡ self.now.declared.ports }
    {
        &self.declared
    }
}
