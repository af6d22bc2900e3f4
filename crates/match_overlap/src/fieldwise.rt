//! The relations of matches, field by field.

ghost use Rattle.std.specs.Prelude.{◌≡◌, ◌==◌};
ghost use Rattle.std.specs.Str.{bytes_eq};
ghost use Rattle.match_overlap.specs.Fieldwise.{value_subsumes, first_bits, prefix_subsumes, link_subsumes, frame_subsumes, network_subsumes, fields_subsume};

use of_match::Fields;

fn byte_subsumes(first: Option<u8>, second: Option<u8>) -> bool
    ensures { result ≡ value_subsumes ◌==◌ first second }
{
    match (first, second) {
        (None, _) => true,
        (Some(_), None) => false,
        (Some(x), Some(y)) => x == y,
    }
}

fn half_subsumes(first: Option<u16>, second: Option<u16>) -> bool
    ensures { result ≡ value_subsumes ◌==◌ first second }
{
    match (first, second) {
        (None, _) => true,
        (Some(_), None) => false,
        (Some(x), Some(y)) => x == y,
    }
}

fn address_subsumes(first: Option<[u8; 6]>, second: Option<[u8; 6]>) -> bool
    ensures { result ≡ value_subsumes bytes_eq first second }
{
    match (first, second) {
        (None, _) => true,
        (Some(_), None) => false,
        (Some(x), Some(y)) => x == y,
    }
}

pub(crate) fn bits(len: u8, address: u32) -> u32
    ensures { result ≡ first_bits len address }
{
    if len == 0 {
        return 0;
    }
    address >> 32u32.saturating_sub(u32::from(len))
}

fn network_prefix_subsumes(first: Option<(u32, u8)>, second: Option<(u32, u8)>) -> bool
    ensures { result ≡ prefix_subsumes first second }
{
    match (first, second) {
        (None, _) => true,
        (Some(_), None) => false,
        (Some((x, short)), Some((y, long))) => short <= long && bits(short, x) == bits(short, y),
    }
}

fn link_test(f: Fields, g: Fields) -> bool
    ensures { result ≡ link_subsumes f g }
{
    half_subsumes(f.in_port, g.in_port)
        && address_subsumes(f.dl_src, g.dl_src)
        && address_subsumes(f.dl_dst, g.dl_dst)
        && half_subsumes(f.dl_vlan, g.dl_vlan)
}

fn frame_test(f: Fields, g: Fields) -> bool
    ensures { result ≡ frame_subsumes f g }
{
    byte_subsumes(f.dl_vlan_pcp, g.dl_vlan_pcp)
        && half_subsumes(f.dl_type, g.dl_type)
        && byte_subsumes(f.nw_tos, g.nw_tos)
        && byte_subsumes(f.nw_proto, g.nw_proto)
}

fn network_test(f: Fields, g: Fields) -> bool
    ensures { result ≡ network_subsumes f g }
{
    network_prefix_subsumes(f.nw_src, g.nw_src)
        && network_prefix_subsumes(f.nw_dst, g.nw_dst)
        && half_subsumes(f.tp_src, g.tp_src)
        && half_subsumes(f.tp_dst, g.tp_dst)
}

#[tactic(auto, unfolding(crate::specs::Fieldwise::fields_subsume))]
pub(crate) fn subsumes_fields(f: Fields, g: Fields) -> bool
    ensures { result ≡ fields_subsume f g }
{
    link_test(f, g) && frame_test(f, g) && network_test(f, g)
}
