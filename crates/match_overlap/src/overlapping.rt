//! Whether two matches have a packet in common, and the fields of what both cover.

ghost use Rattle.std.specs.Prelude.{◌≡◌, ◌==◌};
ghost use Rattle.std.specs.Str.{bytes_eq};
ghost use Rattle.match_overlap.specs.Fieldwise.{value_overlaps, prefix_overlaps, prefix_meet, link_overlaps, frame_overlaps, network_overlaps, fields_overlap, fields_meet};

use crate::fieldwise::bits;
use of_match::Fields;

fn byte_overlaps(first: Option<u8>, second: Option<u8>) -> bool
    ensures { result ≡ value_overlaps ◌==◌ first second }
{
    match (first, second) {
        (Some(x), Some(y)) => x == y,
        _ => true,
    }
}

fn half_overlaps(first: Option<u16>, second: Option<u16>) -> bool
    ensures { result ≡ value_overlaps ◌==◌ first second }
{
    match (first, second) {
        (Some(x), Some(y)) => x == y,
        _ => true,
    }
}

fn address_overlaps(first: Option<[u8; 6]>, second: Option<[u8; 6]>) -> bool
    ensures { result ≡ value_overlaps bytes_eq first second }
{
    match (first, second) {
        (Some(x), Some(y)) => x == y,
        _ => true,
    }
}

fn network_prefix_overlaps(first: Option<(u32, u8)>, second: Option<(u32, u8)>) -> bool
    ensures { result ≡ prefix_overlaps first second }
{
    match (first, second) {
        (Some((x, m)), Some((y, n))) => bits(m.min(n), x) == bits(m.min(n), y),
        _ => true,
    }
}

fn link_test(f: Fields, g: Fields) -> bool
    ensures { result ≡ link_overlaps f g }
{
    half_overlaps(f.in_port, g.in_port)
        && address_overlaps(f.dl_src, g.dl_src)
        && address_overlaps(f.dl_dst, g.dl_dst)
        && half_overlaps(f.dl_vlan, g.dl_vlan)
}

fn frame_test(f: Fields, g: Fields) -> bool
    ensures { result ≡ frame_overlaps f g }
{
    byte_overlaps(f.dl_vlan_pcp, g.dl_vlan_pcp)
        && half_overlaps(f.dl_type, g.dl_type)
        && byte_overlaps(f.nw_tos, g.nw_tos)
        && byte_overlaps(f.nw_proto, g.nw_proto)
}

fn network_test(f: Fields, g: Fields) -> bool
    ensures { result ≡ network_overlaps f g }
{
    network_prefix_overlaps(f.nw_src, g.nw_src)
        && network_prefix_overlaps(f.nw_dst, g.nw_dst)
        && half_overlaps(f.tp_src, g.tp_src)
        && half_overlaps(f.tp_dst, g.tp_dst)
}

#[tactic(auto, unfolding(crate::specs::Fieldwise::fields_overlap))]
pub(crate) fn overlaps_fields(f: Fields, g: Fields) -> bool
    ensures { result ≡ fields_overlap f g }
{
    link_test(f, g) && frame_test(f, g) && network_test(f, g)
}

fn longer(first: Option<(u32, u8)>, second: Option<(u32, u8)>) -> Option<(u32, u8)>
    ensures { result ≡ prefix_meet first second }
{
    match (first, second) {
        (None, network) | (network, None) => network,
        (Some((x, m)), Some((y, n))) => { if n <= m { Some((x, m)) } else { Some((y, n)) } }
    }
}

#[tactic(auto, unfolding(crate::specs::Fieldwise::fields_meet))]
pub(crate) fn meet_fields(f: Fields, g: Fields) -> Fields
    ensures { result ≡ fields_meet f g }
{
    Fields {
        in_port: f.in_port.or(g.in_port),
        dl_src: f.dl_src.or(g.dl_src),
        dl_dst: f.dl_dst.or(g.dl_dst),
        dl_vlan: f.dl_vlan.or(g.dl_vlan),
        dl_vlan_pcp: f.dl_vlan_pcp.or(g.dl_vlan_pcp),
        dl_type: f.dl_type.or(g.dl_type),
        nw_tos: f.nw_tos.or(g.nw_tos),
        nw_proto: f.nw_proto.or(g.nw_proto),
        nw_src: longer(f.nw_src, g.nw_src),
        nw_dst: longer(f.nw_dst, g.nw_dst),
        tp_src: f.tp_src.or(g.tp_src),
        tp_dst: f.tp_dst.or(g.tp_dst),
    }
}
