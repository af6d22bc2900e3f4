//! The fields of a match read from 40 bytes, and written as the 40 bytes of the normal form.

ghost use Rattle.std.specs.Prelude.{IfSome, ◌≡◌, ◌==◌, ◌+◌, ◌*◌, ◌/◌, ◌%◌, ◌^◌, ◌<◌, ◌≤◌, if◌then◌else◌};
ghost use Rattle.of_match.specs.Fields.{byte_in, half_in, word_in, address_in, address, field, prefix, fields_of, ignored_bits, kept, wildcards_of, bytes_of, IsAddress, IsWithin};

use crate::fields::Fields;

/// The bits of the wildcards, each by its number (OpenFlow 1.0.0, 5.2.3, `ofp_flow_wildcards`).
const IN_PORT: u32 = 0;

const DL_VLAN: u32 = 1;

const DL_SRC: u32 = 2;

const DL_DST: u32 = 3;

const DL_TYPE: u32 = 4;

const NW_PROTO: u32 = 5;

const TP_SRC: u32 = 6;

const TP_DST: u32 = 7;

const DL_VLAN_PCP: u32 = 20;

const NW_TOS: u32 = 21;

/// The first of the six bits that count the ignored bits of an address.
const NW_SRC: u32 = 8;

const NW_DST: u32 = 14;

fn half_at(bytes: &[u8; 40], at: usize) -> u16
    requires { at < 39 }
    ensures { result ≡ half_in bytes.now at }
{
    u16::from_be_bytes([bytes[at], bytes[at + 1]])
}

fn word_at(bytes: &[u8; 40], at: usize) -> u32
    requires { at < 37 }
    ensures { result ≡ word_in bytes.now at }
{
    u32::from_be_bytes([bytes[at], bytes[at + 1], bytes[at + 2], bytes[at + 3]])
}

fn address_at(bytes: &[u8; 40], at: usize) -> [u8; 6]
    requires { at < 35 }
    ensures { result ≡ address_in bytes.now at }
{
    [
        bytes[at],
        bytes[at + 1],
        bytes[at + 2],
        bytes[at + 3],
        bytes[at + 4],
        bytes[at + 5],
    ]
}

fn is_any(wildcards: u32, bit: u32) -> bool
    requires { bit < 32 }
    ensures { result ≡ (wildcards / 2 ^ bit % 2 == 1) }
{
    (wildcards >> bit) & 1 == 1
}

fn byte_field(bytes: &[u8; 40], wildcards: u32, bit: u32, at: usize) -> Option<u8>
    requires bit { bit < 32 }
    requires within { at < 40 }
    ensures { result ≡ field wildcards bit (byte_in bytes.now at) }
{
    if is_any(wildcards, bit) {
        None
    } else {
        Some(bytes[at])
    }
}

fn half_field(bytes: &[u8; 40], wildcards: u32, bit: u32, at: usize) -> Option<u16>
    requires bit { bit < 32 }
    requires within { at < 39 }
    ensures { result ≡ field wildcards bit (half_in bytes.now at) }
{
    if is_any(wildcards, bit) {
        None
    } else {
        Some(half_at(bytes, at))
    }
}

fn address_field(bytes: &[u8; 40], wildcards: u32, bit: u32, at: usize) -> Option<[u8; 6]>
    requires bit { bit < 32 }
    requires within { at < 35 }
    ensures { result ≡ field wildcards bit (address_in bytes.now at) }
{
    if is_any(wildcards, bit) {
        None
    } else {
        Some(address_at(bytes, at))
    }
}

fn prefix_field(bytes: &[u8; 40], wildcards: u32, first_bit: u32, at: usize) -> Option<(u32, u8)>
    requires bit { first_bit < 32 }
    requires within { at < 37 }
    ensures { result ≡ prefix (wildcards / 2 ^ first_bit % 64) (word_in bytes.now at) }
{
    let ignored = (wildcards >> first_bit) & 0x3f;
    if ignored >= 32 {
        return None;
    }
    let address = word_at(bytes, at) >> ignored << ignored;
    Some((address, (32 - ignored) as u8))
}

#[tactic(auto, unfolding(crate::specs::Fields::fields_of))]
pub(crate) fn read_fields(bytes: &[u8; 40]) -> Fields
    ensures { result ≡ fields_of bytes.now }
{
    let wildcards = word_at(bytes, 0);
    Fields {
        in_port: half_field(bytes, wildcards, IN_PORT, 4),
        dl_src: address_field(bytes, wildcards, DL_SRC, 6),
        dl_dst: address_field(bytes, wildcards, DL_DST, 12),
        dl_vlan: half_field(bytes, wildcards, DL_VLAN, 18),
        dl_vlan_pcp: byte_field(bytes, wildcards, DL_VLAN_PCP, 20),
        dl_type: half_field(bytes, wildcards, DL_TYPE, 22),
        nw_tos: byte_field(bytes, wildcards, NW_TOS, 24),
        nw_proto: byte_field(bytes, wildcards, NW_PROTO, 25),
        nw_src: prefix_field(bytes, wildcards, NW_SRC, 28),
        nw_dst: prefix_field(bytes, wildcards, NW_DST, 32),
        tp_src: half_field(bytes, wildcards, TP_SRC, 36),
        tp_dst: half_field(bytes, wildcards, TP_DST, 38),
    }
}

fn any_bit(is_value: bool, bit: u32) -> u32
    requires { bit < 22 }
    ensures value { result ≡ 2 ^ bit * (if is_value then 0 else 1) }
    ensures small { result < 2 ^ 22 }
{
    if is_value { 0 } else { 1 << bit }
}

fn ignored(network: Option<(u32, u8)>) -> u32
    ensures value { result ≡ ignored_bits network }
    ensures small { result ≤ 32 }
{
    match network {
        None => 32,
        Some((_, len)) => 32u32.saturating_sub(u32::from(len)),
    }
}

fn address_or_zero(ethernet: Option<[u8; 6]>) -> [u8; 6]
    ensures value { result ≡ address ethernet }
    ensures within { IfSome ethernet IsAddress }
{
    match ethernet {
        None => [0; 6],
        Some(a) => [a[0], a[1], a[2], a[3], a[4], a[5]],
    }
}

fn kept_address(network: Option<(u32, u8)>) -> u32
    ensures value { result ≡ kept network }
    ensures within { IfSome network (λ p. p.0 < 2 ^ 32) }
{
    match network {
        None => 0,
        Some((_, 0)) => 0,
        Some((address, len)) => {
            let ignored = 32u32.saturating_sub(u32::from(len));
            address >> ignored << ignored
        }
    }
}

pub(crate) fn wildcards(f: Fields) -> u32
    ensures { result ≡ wildcards_of f }
{
    any_bit(f.in_port.is_some(), IN_PORT)
        + any_bit(f.dl_vlan.is_some(), DL_VLAN)
        + any_bit(f.dl_src.is_some(), DL_SRC)
        + any_bit(f.dl_dst.is_some(), DL_DST)
        + any_bit(f.dl_type.is_some(), DL_TYPE)
        + any_bit(f.nw_proto.is_some(), NW_PROTO)
        + any_bit(f.tp_src.is_some(), TP_SRC)
        + any_bit(f.tp_dst.is_some(), TP_DST)
        + (ignored(f.nw_src) << NW_SRC)
        + (ignored(f.nw_dst) << NW_DST)
        + any_bit(f.dl_vlan_pcp.is_some(), DL_VLAN_PCP)
        + any_bit(f.nw_tos.is_some(), NW_TOS)
}

#[tactic(auto, unfolding(crate::specs::Fields::bytes_of))]
pub(crate) fn write_fields(f: Fields) -> [u8; 40]
    ensures value { result ≡ bytes_of f }
    ensures within { IsWithin f }
{
    let [a, b, c, d] = wildcards(f).to_be_bytes();
    let in_port = f.in_port.unwrap_or(0).to_be_bytes();
    let dl_src = address_or_zero(f.dl_src);
    let dl_dst = address_or_zero(f.dl_dst);
    let dl_vlan = f.dl_vlan.unwrap_or(0).to_be_bytes();
    let pcp = f.dl_vlan_pcp.unwrap_or(0);
    let dl_type = f.dl_type.unwrap_or(0).to_be_bytes();
    let tos = f.nw_tos.unwrap_or(0);
    let proto = f.nw_proto.unwrap_or(0);
    let [e, g, h, i] = kept_address(f.nw_src).to_be_bytes();
    let [j, k, l, m] = kept_address(f.nw_dst).to_be_bytes();
    let tp_src = f.tp_src.unwrap_or(0).to_be_bytes();
    let tp_dst = f.tp_dst.unwrap_or(0).to_be_bytes();
    [
        a, b, c, d, in_port[0], in_port[1], dl_src[0], dl_src[1], dl_src[2], dl_src[3], dl_src[4],
        dl_src[5], dl_dst[0], dl_dst[1], dl_dst[2], dl_dst[3], dl_dst[4], dl_dst[5], dl_vlan[0],
        dl_vlan[1], pcp, 0, dl_type[0], dl_type[1], tos, proto, 0, 0, e, g, h, i, j, k, l, m,
        tp_src[0], tp_src[1], tp_dst[0], tp_dst[1],
    ]
}
