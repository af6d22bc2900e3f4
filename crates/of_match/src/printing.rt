//! The text of a match.

ghost use Rattle.std.specs.Prelude.{◌≡◌, ◌++◌, OnOk, IfOk, codes};
ghost use Rattle.std.specs.String.{string_bytes};
ghost use Rattle.std.specs.Fmt.{decimal};
ghost use Rattle.of_match.specs.Match.{fields_in};
ghost use Rattle.of_match.specs.Text.{hex_pair, front_text, back_text, ethernet_text, type_text, dotted, network_text, named, link_fields, frame_fields, network_fields, transport_fields, or_any, match_text, with_comma, with_fields};

use crate::fields::Fields;
use crate::flow_match::Match;
use std::alloc::{AllocError, Global};

fn put_comma(out: &mut String) -> Result<(), AllocError>
    ensures { OnOk result (string_bytes out.new ≡ with_comma (string_bytes out.old)) }
{
    if out.is_empty() {
        Ok(())
    } else {
        out.push_str(",")
    }
}

fn begin(out: &mut String, name: &str) -> Result<(), AllocError>
    ensures { OnOk result (string_bytes out.new ≡ with_comma (string_bytes out.old) ++ name.now ++ codes "=") }
{
    put_comma(out)?;
    out.push_str(name)?;
    out.push_str("=")
}

fn put_half(out: &mut String, name: &str, value: Option<u16>) -> Result<(), AllocError>
    ensures { OnOk result (string_bytes out.new ≡ with_fields (string_bytes out.old) (named name.now decimal value)) }
{
    match value {
        None => Ok(()),
        Some(value) => {
            begin(out, name)?;
            write!(out, "{value}")
        }
    }
}

fn put_byte(out: &mut String, name: &str, value: Option<u8>) -> Result<(), AllocError>
    ensures { OnOk result (string_bytes out.new ≡ with_fields (string_bytes out.old) (named name.now decimal value)) }
{
    match value {
        None => Ok(()),
        Some(value) => {
            begin(out, name)?;
            write!(out, "{value}")
        }
    }
}

#[tactic(auto, using(std::proofs::lemmas::Fmt::hex_byte))]
fn put_pair(out: &mut String, byte: u8) -> Result<(), AllocError>
    ensures { OnOk result (string_bytes out.new ≡ string_bytes out.old ++ hex_pair byte) }
{
    write!(out, "{byte:02x}")
}

#[tactic(auto, unfolding(crate::specs::Text::type_text))]
fn put_frame_type(out: &mut String, value: u16) -> Result<(), AllocError>
    ensures { OnOk result (string_bytes out.new ≡ string_bytes out.old ++ type_text value) }
{
    out.push_str("0x")?;
    let [high, low] = value.to_be_bytes();
    put_pair(out, high)?;
    put_pair(out, low)
}

fn put_type(out: &mut String, name: &str, value: Option<u16>) -> Result<(), AllocError>
    ensures { OnOk result (string_bytes out.new ≡ with_fields (string_bytes out.old) (named name.now type_text value)) }
{
    match value {
        None => Ok(()),
        Some(value) => {
            begin(out, name)?;
            put_frame_type(out, value)
        }
    }
}

fn put_pair_colon(out: &mut String, byte: u8) -> Result<(), AllocError>
    ensures { OnOk result (string_bytes out.new ≡ string_bytes out.old ++ hex_pair byte ++ codes ":") }
{
    put_pair(out, byte)?;
    out.push_str(":")
}

#[tactic(auto, unfolding(crate::specs::Text::front_text))]
fn put_front(out: &mut String, a: [u8; 6]) -> Result<(), AllocError>
    ensures { OnOk result (string_bytes out.new ≡ string_bytes out.old ++ front_text a) }
{
    put_pair_colon(out, a[0])?;
    put_pair_colon(out, a[1])?;
    put_pair_colon(out, a[2])
}

#[tactic(auto, unfolding(crate::specs::Text::back_text))]
fn put_back(out: &mut String, a: [u8; 6]) -> Result<(), AllocError>
    ensures { OnOk result (string_bytes out.new ≡ string_bytes out.old ++ back_text a) }
{
    put_pair_colon(out, a[3])?;
    put_pair_colon(out, a[4])?;
    put_pair(out, a[5])
}

#[tactic(auto, unfolding(crate::specs::Text::ethernet_text))]
fn put_ethernet(out: &mut String, a: [u8; 6]) -> Result<(), AllocError>
    ensures { OnOk result (string_bytes out.new ≡ string_bytes out.old ++ ethernet_text a) }
{
    put_front(out, a)?;
    put_back(out, a)
}

fn put_address(out: &mut String, name: &str, value: Option<[u8; 6]>) -> Result<(), AllocError>
    ensures { OnOk result (string_bytes out.new ≡ with_fields (string_bytes out.old) (named name.now ethernet_text value)) }
{
    match value {
        None => Ok(()),
        Some(value) => {
            begin(out, name)?;
            put_ethernet(out, value)
        }
    }
}

#[tactic(auto, unfolding(crate::specs::Text::dotted))]
fn put_dotted(out: &mut String, address: u32) -> Result<(), AllocError>
    ensures { OnOk result (string_bytes out.new ≡ string_bytes out.old ++ dotted address) }
{
    let [a, b, c, d] = address.to_be_bytes();
    write!(out, "{a}.{b}.{c}.{d}")
}

#[tactic(auto, unfolding(crate::specs::Text::network_text))]
fn put_prefix(out: &mut String, network: (u32, u8)) -> Result<(), AllocError>
    ensures { OnOk result (string_bytes out.new ≡ string_bytes out.old ++ network_text network) }
{
    let (address, len) = network;
    put_dotted(out, address)?;
    if len < 32 {
        write!(out, "/{len}")
    } else {
        Ok(())
    }
}

fn put_network(out: &mut String, name: &str, value: Option<(u32, u8)>) -> Result<(), AllocError>
    ensures { OnOk result (string_bytes out.new ≡ with_fields (string_bytes out.old) (named name.now network_text value)) }
{
    match value {
        None => Ok(()),
        Some(value) => {
            begin(out, name)?;
            put_prefix(out, value)
        }
    }
}

#[tactic(auto, unfolding(crate::specs::Text::link_fields))]
fn put_link(out: &mut String, f: Fields) -> Result<(), AllocError>
    ensures { OnOk result (string_bytes out.new ≡ with_fields (string_bytes out.old) (link_fields f)) }
{
    put_half(out, "in_port", f.in_port)?;
    put_address(out, "dl_src", f.dl_src)?;
    put_address(out, "dl_dst", f.dl_dst)
}

#[tactic(auto, unfolding(crate::specs::Text::frame_fields))]
fn put_frame(out: &mut String, f: Fields) -> Result<(), AllocError>
    ensures { OnOk result (string_bytes out.new ≡ with_fields (string_bytes out.old) (frame_fields f)) }
{
    put_half(out, "dl_vlan", f.dl_vlan)?;
    put_byte(out, "dl_vlan_pcp", f.dl_vlan_pcp)?;
    put_type(out, "dl_type", f.dl_type)
}

#[tactic(auto, unfolding(crate::specs::Text::network_fields))]
fn put_networks(out: &mut String, f: Fields) -> Result<(), AllocError>
    ensures { OnOk result (string_bytes out.new ≡ with_fields (string_bytes out.old) (network_fields f)) }
{
    put_byte(out, "nw_tos", f.nw_tos)?;
    put_byte(out, "nw_proto", f.nw_proto)?;
    put_network(out, "nw_src", f.nw_src)?;
    put_network(out, "nw_dst", f.nw_dst)
}

#[tactic(auto, unfolding(crate::specs::Text::transport_fields))]
fn put_transport(out: &mut String, f: Fields) -> Result<(), AllocError>
    ensures { OnOk result (string_bytes out.new ≡ with_fields (string_bytes out.old) (transport_fields f)) }
{
    put_half(out, "tp_src", f.tp_src)?;
    put_half(out, "tp_dst", f.tp_dst)
}

fn put_any(out: &mut String) -> Result<(), AllocError>
    ensures { OnOk result (string_bytes out.new ≡ or_any (string_bytes out.old)) }
{
    if out.is_empty() {
        out.push_str("any")
    } else {
        Ok(())
    }
}

/// Writes a match as text: `any`, or its fields that are not any, as `in_port=1,nw_src=10.0.0.0/24`. `AllocError`
/// where there is no memory for it.
pub fn text(alloc: Global, m: &Match) -> Result<String, AllocError>
    ensures { IfOk result (λ s. string_bytes s ≡ match_text (fields_in m.now)) }
{
    let f = m.fields();
    let mut out = String::new(alloc);
    put_link(&mut out, f)?;
    put_frame(&mut out, f)?;
    put_networks(&mut out, f)?;
    put_transport(&mut out, f)?;
    put_any(&mut out)?;
    Ok(out)
}
