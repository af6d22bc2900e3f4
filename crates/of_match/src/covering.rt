//! Which packets a match covers.

ghost use Rattle.std.specs.Prelude.{◌≡◌, ◌↔◌, IsTrue};
ghost use Rattle.of_match.specs.Covers.{Agrees, AgreesOnPrefix, Covers, LinkCovers, FrameCovers, NetworkCovers, FieldsCover, is_covering};

use crate::fields::Fields;
use crate::flow_match::Match;
use crate::packet_key::PacketKey;

fn byte_agrees(field: Option<u8>, value: u8) -> bool
    ensures { IsTrue result ↔ Agrees field value }
{
    match field {
        None => true,
        Some(wanted) => value == wanted,
    }
}

fn half_agrees(field: Option<u16>, value: u16) -> bool
    ensures { IsTrue result ↔ Agrees field value }
{
    match field {
        None => true,
        Some(wanted) => value == wanted,
    }
}

fn address_agrees(field: Option<[u8; 6]>, value: [u8; 6]) -> bool
    ensures { IsTrue result ↔ Agrees field value }
{
    match field {
        None => true,
        Some(wanted) => value == wanted,
    }
}

fn prefix_agrees(field: Option<(u32, u8)>, address: u32) -> bool
    ensures { IsTrue result ↔ AgreesOnPrefix field address }
{
    match field {
        None | Some((_, 0)) => true,
        Some((wanted, len)) => {
            let ignored = 32u32.saturating_sub(u32::from(len));
            address >> ignored == wanted >> ignored
        }
    }
}

fn link_covers(f: Fields, k: PacketKey) -> bool
    ensures { IsTrue result ↔ LinkCovers f k }
{
    half_agrees(f.in_port, k.in_port)
        && address_agrees(f.dl_src, k.dl_src)
        && address_agrees(f.dl_dst, k.dl_dst)
        && half_agrees(f.dl_vlan, k.dl_vlan)
}

fn frame_covers(f: Fields, k: PacketKey) -> bool
    ensures { IsTrue result ↔ FrameCovers f k }
{
    byte_agrees(f.dl_vlan_pcp, k.dl_vlan_pcp)
        && half_agrees(f.dl_type, k.dl_type)
        && byte_agrees(f.nw_tos, k.nw_tos)
        && byte_agrees(f.nw_proto, k.nw_proto)
}

fn network_covers(f: Fields, k: PacketKey) -> bool
    ensures { IsTrue result ↔ NetworkCovers f k }
{
    prefix_agrees(f.nw_src, k.nw_src)
        && prefix_agrees(f.nw_dst, k.nw_dst)
        && half_agrees(f.tp_src, k.tp_src)
        && half_agrees(f.tp_dst, k.tp_dst)
}

fn fields_cover(f: Fields, k: PacketKey) -> bool
    ensures { IsTrue result ↔ FieldsCover f k }
{
    link_covers(f, k) && frame_covers(f, k) && network_covers(f, k)
}

/// Tells whether the match covers a packet with these fields: each field that is not any agrees (OpenFlow 1.0.0,
/// 3.4 Matching).
pub fn covers(m: &Match, k: &PacketKey) -> bool
    ensures covers { IsTrue result ↔ Covers m.now k.now }
    ensures value { result ≡ is_covering m.now k.now }
{
    fields_cover(m.fields(), *k)
}
