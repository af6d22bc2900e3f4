//! The known ports of switches.

ghost use Rattle.std.specs.Prelude.{◌≡◌, ◌≢◌, ◌==◌, ◌<◌, true, false, not, filter, length, slice_index_or, OnOk, OnErr};
ghost use Rattle.of_types.specs.declared.port_desc.PortDesc.{PortDesc};
ghost use Rattle.flow_table.specs.Sorted.{IsPortPlace};
ghost use Rattle.net_txn.specs.Arriving.{with_port, ports_after};

use of_types::{Dpid, PortDesc, PortNo};
use of_wire::{PortList, PortStatus};
use std::alloc::{AllocError, Global};
use std::mem::replace;

/// The reason of a PORT_STATUS of a port that is gone.
const DELETE: u8 = 1;

/// The ports of a joined switch as they stand.
#[derive(Drop, Debug)]
pub struct KnownPorts {
    pub dpid: Dpid,
    pub ports: PortList,
}

/// Tells where the port of a number stands, or would stand.
fn position_of(ports: &[PortDesc], number: PortNo) -> usize
    ensures { IsPortPlace number ports.now result }
{
    for (i, port) in ports.iter().enumerate() {
        if number <= port.port_no {
            return i;
        }
    }
    ports.len()
}

/// Tells whether the port of a number stands there.
fn stands_at(ports: &[PortDesc], at: usize, number: PortNo) -> bool
    ensures within { result ≡ true → at < length ports.now }
    ensures same { (p : PortDesc) → result ≡ true → number ≡ (slice_index_or ports.now at p).port_no }
    ensures other { (p : PortDesc) → result ≡ false → at < length ports.now → number ≢ (slice_index_or ports.now at p).port_no }
{
    at < ports.len() && number == ports[at].port_no
}

/// Puts a port in its place, in place of one with its number.
fn put_port(ports: &mut Vec<PortDesc>, port: PortDesc) -> Result<(), AllocError>
    ensures ok { OnOk result (ports.new.items ≡ with_port port ports.old.items) }
    ensures err { OnErr result (ports.new.items ≡ ports.old.items) }
{
    let at = position_of(ports, port.port_no);
    if stands_at(ports, at, port.port_no) {
        ports[at] = port;
        Ok(())
    } else {
        ports.insert(at, port)?;
        Ok(())
    }
}

fn remove_port(ports: &mut Vec<PortDesc>, number: PortNo)
    ensures { ports.new.items ≡ filter (λ p. not (p.port_no == number)) ports.old.items }
{
    ports.retain(|port| port.port_no != number);
}

fn change_ports(ports: &mut Vec<PortDesc>, status: &PortStatus) -> Result<(), AllocError>
    ensures ok { OnOk result (ports.new.items ≡ ports_after status.now ports.old.items) }
    ensures err { OnErr result (ports.new.items ≡ ports.old.items) }
{
    if status.reason == DELETE {
        remove_port(ports, status.port.port_no);
        Ok(())
    } else {
        put_port(ports, status.port)
    }
}

/// Changes the ports as a PORT_STATUS tells.
pub(crate) fn change(
    alloc: Global,
    ports: &mut PortList,
    status: &PortStatus,
) -> Result<(), AllocError>
    ensures ok { OnOk result (ports.new ≡ ports_after status.now ports.old) }
    ensures err { OnErr result (ports.new ≡ ports.old) }
{
    let mut all = replace(ports, PortList::new(alloc)).into_vec();
    let done = change_ports(&mut all, status);
    *ports = PortList::from_vec(all);
    done
}
