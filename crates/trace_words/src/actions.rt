//! Actions in words.

use crate::values::{Ethernet, Ipv4, port};
use of_action::{Action, ActionList};
use of_types::ports;
use std::fmt;

/// Actions in their order, joined by a comma and a space; `-` for none.
#[derive(Clone, Copy)]
pub(crate) struct ActionWords<'a>(pub(crate) &'a ActionList);

impl fmt::Display for ActionWords<'_> {
    fn fmt<W: fmt::Write>(&self, f: &mut fmt::Formatter<W>) -> fmt::Result {
        if self.0.is_empty() {
            return f.write_str("-");
        }
        for (place, action) in self.0.as_slice().iter().enumerate() {
            if place > 0 {
                f.write_str(", ")?;
            }
            put_action(f, action)?;
        }
        Ok(())
    }
}

/// An action by its name in the standard and its values (OpenFlow 1.0.0, 5.2.4 Flow Action Structures).
fn put_action<W: fmt::Write>(f: &mut fmt::Formatter<W>, action: &Action) -> fmt::Result {
    match action {
        Action::Output { port: to, max_len } => put_output(f, *to, *max_len),
        Action::SetVlanVid(vid) => write!(f, "SET_VLAN_VID {vid}"),
        Action::SetVlanPcp(pcp) => write!(f, "SET_VLAN_PCP {pcp}"),
        Action::StripVlan => f.write_str("STRIP_VLAN"),
        Action::SetDlSrc(address) => put_address(f, "SET_DL_SRC", *address),
        Action::SetDlDst(address) => put_address(f, "SET_DL_DST", *address),
        Action::SetNwSrc(address) => put_network(f, "SET_NW_SRC", *address),
        Action::SetNwDst(address) => put_network(f, "SET_NW_DST", *address),
        Action::SetNwTos(tos) => write!(f, "SET_NW_TOS {tos}"),
        Action::SetTpSrc(number) => write!(f, "SET_TP_SRC {number}"),
        Action::SetTpDst(number) => write!(f, "SET_TP_DST {number}"),
        Action::Enqueue { port: to, queue } => put_enqueue(f, *to, *queue),
        Action::Vendor(body) => put_vendor(f, body.as_slice().len()),
    }
}

/// To the controller with how many bytes of the packet at most.
fn put_output<W: fmt::Write>(f: &mut fmt::Formatter<W>, to: u16, max_len: u16) -> fmt::Result {
    let to_port = port(to);
    write!(f, "OUTPUT {to_port}")?;
    if to == ports::CONTROLLER {
        write!(f, " max_len={max_len}")?;
    }
    Ok(())
}

fn put_address<W: fmt::Write>(
    f: &mut fmt::Formatter<W>,
    name: &str,
    address: [u8; 6],
) -> fmt::Result {
    let address = Ethernet(address);
    write!(f, "{name} {address}")
}

fn put_network<W: fmt::Write>(f: &mut fmt::Formatter<W>, name: &str, address: u32) -> fmt::Result {
    let address = Ipv4(address);
    write!(f, "{name} {address}")
}

fn put_enqueue<W: fmt::Write>(f: &mut fmt::Formatter<W>, to: u16, queue: u32) -> fmt::Result {
    let to = port(to);
    write!(f, "ENQUEUE {to} queue={queue}")
}

fn put_vendor<W: fmt::Write>(f: &mut fmt::Formatter<W>, count: usize) -> fmt::Result {
    write!(f, "VENDOR bytes={count}")
}
