//! Known ports by their numbers.

ghost use Rattle.std.specs.Prelude.{◌≡◌, ◌≢◌, ◌<◌, [], true, false, OnOk, OnErr, length, set, slice_index_or};
ghost use Rattle.of_types.specs.declared.port_desc.PortDesc.{PortDesc};
ghost use Rattle.flow_table.specs.Sorted.{with_item, without_place, port_number, IsPortPlace};
ghost use Rattle.shadow_tables.specs.Known.{ports_after, with_config, configured};

use of_types::{PortDesc, PortNo};
use of_wire::PortList;
use std::alloc::AllocError;
use std::marker::Model;

/// The reason of a PORT_STATUS of a port that is gone.
const DELETE: u8 = 1;

/// The known ports of a switch. Contracts see the list of them.
#[derive(Drop, Debug)]
pub(crate) struct PortTable {
    ports: Vec<PortDesc>,
}

impl Model for PortTable {
    ghost use Rattle.std.specs.Prelude.{List};
    ghost use Rattle.of_types.specs.declared.port_desc.PortDesc.{PortDesc};

    ghost Value = { List PortDesc };

    ghost view = { λ s. s.ports.items };
}

/// Tells before which port one of a number goes.
fn position_of(ports: &[PortDesc], number: PortNo) -> usize
    ensures { IsPortPlace number ports.now result }
{
    for (i, port) in ports.iter().enumerate() {
        if number <= port.port_no {
            return i;
        }
    }
    ports.len()
}

/// Tells whether the port of a number stands there.
fn stands_at(ports: &[PortDesc], at: usize, number: PortNo) -> bool
    ensures within { result ≡ true → at < length ports.now }
    ensures same { (p : PortDesc) → result ≡ true → (slice_index_or ports.now at p).port_no ≡ number }
    ensures other { (p : PortDesc) → result ≡ false → at < length ports.now → (slice_index_or ports.now at p).port_no ≢ number }
{
    at < ports.len() && ports[at].port_no == number
}

/// Puts a port in its place, in place of one with its number.
fn put_port(ports: &mut Vec<PortDesc>, port: PortDesc) -> Result<(), AllocError>
    ensures ok { OnOk result (ports.new.items ≡ with_item port_number port ports.old.items) }
    ensures err { OnErr result (ports.new.items ≡ ports.old.items) }
{
    let at = position_of(ports, port.port_no);
    if stands_at(ports, at, port.port_no) {
        ports[at] = port;
        Ok(())
    } else {
        ports.insert(at, port)?;
        Ok(())
    }
}

/// Takes the ports of a number out.
fn remove_port(ports: &mut Vec<PortDesc>, number: PortNo)
    ensures { ports.new.items ≡ without_place port_number number ports.old.items }
{
    ports.retain(|port| port.port_no != number);
}

/// Changes the ports as a PORT_STATUS tells.
fn tell(ports: &mut Vec<PortDesc>, reason: u8, port: &PortDesc) -> Result<(), AllocError>
    ensures ok { OnOk result (ports.new.items ≡ ports_after reason port.now ports.old.items) }
    ensures err { OnErr result (ports.new.items ≡ ports.old.items) }
{
    if reason == DELETE {
        remove_port(ports, port.port_no);
        Ok(())
    } else {
        put_port(ports, *port)
    }
}

/// Sets the config of a port, if it has the number.
fn configure_port(port: &mut PortDesc, number: PortNo, config: u32)
    ensures { port.new ≡ configured number config port.old }
{
    if port.port_no == number {
        port.config = config;
    }
}

/// Sets the config of the port of a number.
fn configure(ports: &mut [PortDesc], number: PortNo, config: u32)
    ensures { ports.new ≡ with_config number config ports.old }
{
    for port in ports.iter_mut() {
        configure_port(port, number, config);
    }
}

impl PortTable {
    /// Makes a vector into the table of its ports; takes no memory.
    pub(crate) fn from_vec(ports: Vec<PortDesc>) -> PortTable
        ensures { result ≡ ports.items }
    {
        PortTable { ports }
    }

    /// Lends the ports as a slice.
    pub(crate) fn as_slice(&self) -> &[PortDesc]
        ensures { result.now ≡ self.now }
    {
        &self.ports
    }

    /// Gives the ports back; takes no memory.
    pub(crate) fn into_list(self) -> PortList
        ensures { result ≡ self }
    {
        PortList::from_vec(self.ports)
    }

    /// Changes the ports as a PORT_STATUS tells.
    fn tell(&mut self, reason: u8, port: &PortDesc) -> Result<(), AllocError>
        ensures ok { OnOk result (self.new ≡ ports_after reason port.now self.old) }
        ensures err { OnErr result (self.new ≡ self.old) }
    {
        tell(&mut self.ports, reason, port)
    }

    /// Sets the config of the port of a number; takes no memory.
    fn configure(&mut self, number: PortNo, config: u32)
        ensures { self.new ≡ with_config number config self.old }
    {
        configure(&mut self.ports, number, config);
    }
}

/// Changes the ports at a place as a PORT_STATUS tells.
pub(crate) fn tell_at(
    all: &mut Vec<PortTable>,
    at: usize,
    reason: u8,
    port: &PortDesc,
) -> Result<(), AllocError>
    requires { at < length all.old.items }
    ensures ok { OnOk result (all.new.items ≡ set all.old.items at (ports_after reason port.now (slice_index_or all.old.items at []))) }
    ensures err { OnErr result (all.new.items ≡ all.old.items) }
{
    all[at].tell(reason, port)
}

/// Sets the config of the port of a number among those at a place; takes no memory.
pub(crate) fn configure_at(all: &mut Vec<PortTable>, at: usize, number: PortNo, config: u32)
    requires { at < length all.old.items }
    ensures { all.new.items ≡ set all.old.items at (with_config number config (slice_index_or all.old.items at [])) }
{
    all[at].configure(number, config);
}
