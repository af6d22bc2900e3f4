//! A port of a switch.

ghost use Rattle.std.specs.Prelude.{◌≡◌, ◌==◌, ◌++◌, ◌≤◌, length, codes, bit_and, IfOk};
ghost use Rattle.std.specs.String.{string_bytes};
ghost use Rattle.std.specs.Fmt.{decimal};
ghost use Rattle.of_types.specs.Layout.{AreFields};
ghost use Rattle.of_wire.specs.Spelling.{port_fields};
ghost use Rattle.flow_table.specs.Switch.{has_bit, has_no_packet_in, new_port, hw_addr, port_name, port_desc, padded};
ghost use Rattle.flow_table.specs.Frames.{goes_out_by, after_frame_out, after_frame_in, takes};
ghost use Rattle.flow_table.specs.Statistics.{port_row};
ghost use Rattle.flow_table.specs.Step.{kept_bits, with_bits, set_link};

use of_stats::PortRow;
use of_types::{Dpid, PortDesc, PortNo, ports, put_bytes, put_u16};
use std::alloc::{AllocError, Global};
use std::marker::Model;

/// A port: its link, its config, and what it counts, modulo 2^64 (OpenFlow 1.0.0, 5.2.1 Port Structures).
#[derive(Drop, Debug, Clone)]
pub(crate) struct Port {
    number: PortNo,
    link: bool,
    config: u32,
    rx_packets: u64,
    rx_bytes: u64,
    tx_packets: u64,
    tx_bytes: u64,
    tx_dropped: u64,
}

impl Model for Port {
    ghost use Rattle.flow_table.specs.Switch.{PortState};

    ghost Value = { PortState };

    ghost view = { λ p. record {
      number = p.number;
      link = p.link;
      config = p.config;
      rx_packets = p.rx_packets;
      rx_bytes = p.rx_bytes;
      tx_packets = p.tx_packets;
      tx_bytes = p.tx_bytes;
      tx_dropped = p.tx_dropped;
    } };
}

/// Tells whether a config has a bit.
#[tactic(auto, unfolding(flow_table::specs::Switch::has_bit))]
fn has(config: u32, bit: u32) -> bool
    ensures { result ≡ has_bit bit config }
{
    config & bit != 0
}

/// The bits of a config that a PORT_MOD can set.
const KEPT_BITS: u32 = 0x75;

/// Returns a config whose bits in the mask are those of another one.
#[tactic(auto, unfolding(flow_table::specs::Step::with_bits))]
fn with_bits(mask: u32, wanted: u32, config: u32) -> u32
    ensures { result ≡ with_bits mask wanted config }
{
    (config & (u32::MAX - mask)) | (wanted & mask)
}

impl Port {
    /// Makes a port with a link, without config, that counted nothing.
    pub(crate) fn new(number: PortNo) -> Port
        ensures { result ≡ new_port number }
    {
        Port {
            number,
            link: true,
            config: 0,
            rx_packets: 0,
            rx_bytes: 0,
            tx_packets: 0,
            tx_bytes: 0,
            tx_dropped: 0,
        }
    }

    pub(crate) fn number(&self) -> PortNo
        ensures { result ≡ self.now.number }
    {
        self.number
    }

    /// Tells whether misses of frames that came in by the port are kept from the controller.
    pub(crate) fn has_no_packet_in(&self) -> bool
        ensures { result ≡ has_no_packet_in self.now }
    {
        has(self.config, ports::NO_PACKET_IN)
    }

    pub(crate) fn has_link(&self) -> bool
        ensures { result ≡ self.now.link }
    {
        self.link
    }

    pub(crate) fn set_link(&mut self, up: bool)
        ensures { self.new ≡ set_link up self.old }
    {
        self.link = up;
    }

    /// Returns a copy with its link up or down.
    pub(crate) fn with_link(&self, up: bool) -> Port
        ensures { result ≡ set_link up self.now }
    {
        Port {
            number: self.number,
            link: up,
            config: self.config,
            rx_packets: self.rx_packets,
            rx_bytes: self.rx_bytes,
            tx_packets: self.tx_packets,
            tx_bytes: self.tx_bytes,
            tx_dropped: self.tx_dropped,
        }
    }

    /// Tells whether a frame that arrives is taken: the port has a link, is not down, and has no NO_RECV.
    #[tactic(auto, unfolding(flow_table::specs::Frames::takes))]
    pub(crate) fn takes(&self) -> bool
        ensures { result ≡ takes (Some self.now) }
    {
        self.link && !has(self.config, ports::PORT_DOWN) && !has(self.config, ports::NO_RECV)
    }

    /// Sets the bits of a mask to those wanted, as far as the switch keeps them: PORT_DOWN, NO_RECV, NO_FLOOD, NO_FWD
    /// and NO_PACKET_IN.
    pub(crate) fn set_config(&mut self, wanted: u32, mask: u32)
        ensures { self.new ≡ record self.old { config = with_bits (bit_and mask kept_bits) wanted self.old.config } }
    {
        self.config = with_bits(mask & KEPT_BITS, wanted, self.config);
    }

    /// Counts a frame of `len` bytes that arrives.
    pub(crate) fn count_in(&mut self, len: u64)
        ensures { self.new ≡ after_frame_in len self.old }
    {
        self.rx_packets = self.rx_packets.wrapping_add(1);
        self.rx_bytes = self.rx_bytes.wrapping_add(len);
    }

    /// Tells whether an output to a number, of a frame that came in by `in_port`, goes out by this port.
    #[tactic(auto, unfolding(flow_table::specs::Frames::goes_out_by))]
    pub(crate) fn is_output(&self, in_port: PortNo, to: PortNo) -> bool
        ensures { result ≡ goes_out_by in_port to self.now }
    {
        if to == ports::IN_PORT {
            self.number == in_port
        } else if self.number == in_port {
            false
        } else if to == ports::ALL {
            true
        } else if to == ports::FLOOD {
            !has(self.config, ports::NO_FLOOD)
        } else {
            self.number == to
        }
    }

    /// Counts a frame of `len` bytes that is put out: as sent, or as dropped.
    #[tactic(auto, unfolding(flow_table::specs::Frames::after_frame_out))]
    pub(crate) fn count_out(&mut self, len: u64)
        ensures { self.new ≡ after_frame_out len self.old }
    {
        if self.link && !has(self.config, ports::PORT_DOWN) && !has(self.config, ports::NO_FWD) {
            self.tx_packets = self.tx_packets.wrapping_add(1);
            self.tx_bytes = self.tx_bytes.wrapping_add(len);
        } else {
            self.tx_dropped = self.tx_dropped.wrapping_add(1);
        }
    }

    /// Returns the port's row of statistics (OpenFlow 1.0.0, 5.3.5 Read State Messages); what this switch does not
    /// count is 0.
    pub(crate) fn row(&self) -> PortRow
        ensures { result ≡ port_row self.now }
    {
        PortRow {
            port_no: self.number,
            rx_packets: self.rx_packets,
            tx_packets: self.tx_packets,
            rx_bytes: self.rx_bytes,
            tx_bytes: self.tx_bytes,
            rx_dropped: 0,
            tx_dropped: self.tx_dropped,
            rx_errors: 0,
            tx_errors: 0,
            rx_frame_err: 0,
            rx_over_err: 0,
            rx_crc_err: 0,
            collisions: 0,
        }
    }

    /// Returns the port as its switch describes it; the fields fit the wire.
    pub(crate) fn describe(&self, alloc: Global, dpid: Dpid) -> Result<PortDesc, AllocError>
        ensures desc { IfOk result (λ desc. desc ≡ port_desc dpid self.now) }
        ensures fields { IfOk result (λ desc. AreFields (port_fields desc)) }
    {
        let desc = self.description(alloc, dpid)?;
        measure(desc);
        Ok(desc)
    }

    fn description(&self, alloc: Global, dpid: Dpid) -> Result<PortDesc, AllocError>
        ensures { IfOk result (λ desc. desc ≡ port_desc dpid self.now) }
    {
        Ok(PortDesc {
            port_no: self.number,
            hw_addr: address(dpid, self.number),
            name: name(alloc, self.number)?,
            config: self.config,
            state: if self.link { 0 } else { ports::LINK_DOWN },
            curr: 0,
            advertised: 0,
            supported: 0,
            peer: 0,
        })
    }
}

/// Finds that the fields of a description fit the wire, as their types say.
fn measure(desc: PortDesc)
    ensures { AreFields (port_fields desc) }
{
    let _address = desc.hw_addr.len();
    let _name = desc.name.len();
}

/// Returns the address of a port: 02 and 00, the low 16 bits of the switch's number, and the port's.
#[tactic(auto, unfolding(flow_table::specs::Switch::hw_addr))]
pub(crate) fn address(dpid: Dpid, number: PortNo) -> [u8; 6]
    ensures { result ≡ hw_addr dpid number }
{
    let mut out = [2, 0, 0, 0, 0, 0];
    put_u16(&mut out, 2, (dpid % 0x1_0000) as u16);
    put_u16(&mut out, 4, number);
    out
}

/// Returns a text of at most 16 bytes, padded with zero bytes.
fn padded_name(text: &[u8]) -> [u8; 16]
    requires { length text.now ≤ 16 }
    ensures { result ≡ padded 16 text.now }
{
    let mut out = [0; 16];
    put_bytes(&mut out, 0, text);
    out
}

/// Returns the text of a port's name: `p` and its number.
fn name_text(alloc: Global, number: PortNo) -> Result<String, AllocError>
    ensures { IfOk result (λ text. string_bytes text ≡ codes "p" ++ decimal number) }
{
    format!(in alloc; "p{number}")
}

/// Returns the name of a port: `p` and its number, padded with zero bytes.
#[tactic(auto, unfolding(flow_table::specs::Switch::port_name))]
fn name(alloc: Global, number: PortNo) -> Result<[u8; 16], AllocError>
    ensures { IfOk result (λ name. name ≡ port_name number) }
{
    let text = name_text(alloc, number)?;
    Ok(padded_name(text.as_bytes()))
}
