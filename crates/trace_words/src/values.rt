//! Numbers in words.

use of_types::ports;
use std::fmt;

/// A number of the standard, by its name where it has one.
#[derive(Clone, Copy)]
pub(crate) struct Named {
    pub(crate) name: Option<&'static str>,
    pub(crate) number: u64,
}

impl fmt::Display for Named {
    fn fmt<W: fmt::Write>(&self, f: &mut fmt::Formatter<W>) -> fmt::Result {
        match self.name {
            Some(name) => f.write_str(name),
            None => write!(f, "{}", self.number),
        }
    }
}

/// The name of a port that is no physical one (OpenFlow 1.0.0, 5.2.1 Port Structures).
fn port_name(port: u16) -> Option<&'static str> {
    Some(match port {
        ports::IN_PORT => "IN_PORT",
        ports::TABLE => "TABLE",
        ports::NORMAL => "NORMAL",
        ports::FLOOD => "FLOOD",
        ports::ALL => "ALL",
        ports::CONTROLLER => "CONTROLLER",
        ports::LOCAL => "LOCAL",
        ports::NONE => "NONE",
        _ => return None,
    })
}

/// A port, by its name where it has one.
pub(crate) fn port(port: u16) -> Named {
    Named {
        name: port_name(port),
        number: u64::from(port),
    }
}

/// An Ethernet address, as six pairs of digits.
#[derive(Clone, Copy)]
pub(crate) struct Ethernet(pub(crate) [u8; 6]);

impl fmt::Display for Ethernet {
    fn fmt<W: fmt::Write>(&self, f: &mut fmt::Formatter<W>) -> fmt::Result {
        let [a, b, c, d, e, g] = self.0;
        write!(f, "{a:02x}:{b:02x}:{c:02x}:{d:02x}:{e:02x}:{g:02x}")
    }
}

/// An IPv4 address, as four numbers.
#[derive(Clone, Copy)]
pub(crate) struct Ipv4(pub(crate) u32);

impl fmt::Display for Ipv4 {
    fn fmt<W: fmt::Write>(&self, f: &mut fmt::Formatter<W>) -> fmt::Result {
        let [a, b, c, d] = self.0.to_be_bytes();
        write!(f, "{a}.{b}.{c}.{d}")
    }
}

/// Bits by their names, the lowest first, joined by `|`; those without a name as one number; `-` for none.
#[derive(Clone, Copy)]
pub(crate) struct Bits {
    pub(crate) bits: u32,
    /// The name of each bit, the lowest first.
    pub(crate) names: &'static [&'static str],
}

impl fmt::Display for Bits {
    fn fmt<W: fmt::Write>(&self, f: &mut fmt::Formatter<W>) -> fmt::Result {
        if self.bits == 0 {
            return f.write_str("-");
        }
        let mut left = self.bits;
        for (place, name) in self.names.iter().take(32).enumerate() {
            let bit = 1u32 << place;
            if left & bit != 0 {
                left &= !bit;
                f.write_str(name)?;
                f.write_str(if left == 0 { "" } else { "|" })?;
            }
        }
        if left == 0 {
            Ok(())
        } else {
            write!(f, "{left:#x}")
        }
    }
}
