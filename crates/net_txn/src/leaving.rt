//! A switch that leaves.

ghost use Rattle.std.specs.Prelude.{◌≡◌, ◌==◌, ◌++◌, not, filter, length, drop, slice_get, IsSome, IfOk, OnOk, OnErr};
ghost use Rattle.std.specs.Option.{option_map};
ghost use Rattle.app_frames.specs.declared.frame.EventKind.TheVariants.{Leave};
ghost use Rattle.flow_table.specs.View.{plains};
ghost use Rattle.net_txn.specs.Losing.{lost_net};
ghost use Rattle.net_txn.specs.Views.{rows_at};
ghost use Rattle.net_txn.specs.Leaving.{ports_at, port_text, ports_text, without, left_event};

use crate::net::Net;
use crate::ports::KnownPorts;
use app_frames::{Event, EventKind};
use flow_table::TableView;
use of_types::{ByteList, Dpid, PortDesc};
use of_wire::{Message, PortStatus, encode_into};
use std::alloc::{AllocError, Global};

/// Returns a PORT_STATUS of a port, which ends by its 48 bytes.
#[tactic(auto, unfolding(of_wire::specs::Spelling::message_size))]
fn described(port: &PortDesc) -> [u8; 64]
    ensures length { length result ≡ 64 }
    ensures text { drop 16 result ≡ port_text port.now }
{
    let status = PortStatus {
        reason: 0,
        port: *port,
    };
    let mut bytes = [0; 64];
    encode_into(0, &Message::PortStatus(status), &mut bytes);
    bytes
}

/// Appends the 48 bytes of a port.
fn push_port(bytes: &mut Vec<u8>, port: &PortDesc) -> Result<(), AllocError>
    ensures { OnOk result (bytes.new.items ≡ bytes.old.items ++ port_text port.now) }
{
    let status = described(port);
    bytes.extend_from_slice(&status[16..])?;
    Ok(())
}

/// Returns the bytes of ports.
#[tactic(auto, unfolding(crate::specs::Leaving::ports_text))]
fn text_of(alloc: Global, ports: &[PortDesc]) -> Result<ByteList, AllocError>
    ensures { IfOk result (λ b. b ≡ ports_text ports.now) }
{
    let mut bytes = Vec::new(alloc);
    for port in ports {
        push_port(&mut bytes, port)?;
    }
    Ok(ByteList::from_vec(bytes))
}

/// Returns the bytes of the known ports of a switch.
fn known_text(alloc: Global, all: &[KnownPorts], dpid: Dpid) -> Result<ByteList, AllocError>
    ensures { IfOk result (λ b. b ≡ ports_text (ports_at dpid all.now)) }
{
    for known in all {
        if known.dpid == dpid {
            return text_of(alloc, known.ports.as_slice());
        }
    }
    text_of(alloc, &[])
}

pub(crate) fn forget_view(views: &mut Vec<TableView>, dpid: Dpid)
    ensures { plains views.new.items ≡ filter (λ v. not (v.dpid == dpid)) (plains views.old.items) }
{
    views.retain(|view| view.dpid != dpid);
}

/// Returns the Leave event of a switch with its known ports.
fn leave_event(alloc: Global, known: &KnownPorts) -> Result<Event, AllocError>
    ensures { IfOk result (λ e. e ≡ left_event known.now) }
{
    Ok(Event {
        kind: EventKind::Leave,
        dpid: known.dpid,
        body: text_of(alloc, known.ports.as_slice())?,
    })
}

/// Returns the Leave event of the first of switches, where there is one.
fn first_event(alloc: Global, left: &[KnownPorts]) -> Result<Option<Event>, AllocError>
    ensures { IfOk result (λ e. e ≡ option_map left_event (slice_get left.now 0)) }
{
    match left.first() {
        None => Ok(None),
        Some(known) => Ok(Some(leave_event(alloc, known)?)),
    }
}

impl Net {
    /// Lets a switch leave: its view, known ports and kept messages go. Gives its Leave event.
    pub fn left(&mut self, dpid: Dpid) -> Result<Event, AllocError>
        requires { IsSome (rows_at dpid self.old.views) }
        ensures event { IfOk result (λ e. e ≡ record { kind = Leave; dpid = dpid; body = ports_text (ports_at dpid self.old.ports) }) }
        ensures ok { OnOk result (self.new ≡ without dpid self.old) }
        ensures err { OnErr result (self.new ≡ self.old) }
    {
        let body = known_text(self.alloc, self.ports.known(), dpid)?;
        self.kept.forget(dpid);
        self.views.forget(dpid);
        self.ports.forget(dpid);
        Ok(Event {
            kind: EventKind::Leave,
            dpid,
            body,
        })
    }

    /// Lets a switch go whose link failed: what was kept of it goes, and its known ports stand ready for its Leave event.
    /// Takes no memory.
    pub(crate) fn lose(&mut self, dpid: Dpid)
        ensures { self.new ≡ lost_net dpid self.old }
    {
        self.kept.forget(dpid);
        self.views.forget(dpid);
        self.ports.lose(dpid);
    }

    /// Takes out the Leave event of the first switch that was lost and whose leaving was not told yet. There is none exactly
    /// where there is no such switch.
    pub fn lost(&mut self) -> Result<Option<Event>, AllocError>
        ensures first { IfOk result (λ e. e ≡ option_map left_event (slice_get self.old.left 0)) }
        ensures rest { OnOk result (self.new ≡ record self.old { left = drop 1 self.old.left }) }
        ensures err { OnErr result (self.new ≡ self.old) }
    {
        let event = first_event(self.alloc, self.ports.left())?;
        self.ports.drop_left();
        Ok(event)
    }
}
