//! The key of a frame.

ghost use Rattle.std.specs.Prelude.{◌≡◌};
ghost use Rattle.of_match.specs.PacketKey.{IsPacketKey};
ghost use Rattle.eth_key.specs.PacketFields.{key_of, key_without_header};

use crate::ethernet::{payload_of, priority_of, vlan_of};
use crate::network::network_in;
use of_match::PacketKey;
use of_types::{PortNo, get_array};

/// Reads the fields of a frame that came in by a port, against which matches are held (OpenFlow 1.0.0, 3.4
/// Matching). A field of a layer that the frame does not have is 0, but for `dl_vlan`, which is 0xffff.
#[tactic(auto, unfolding(crate::specs::PacketFields::key_from, crate::specs::PacketFields::key_without_header))]
pub fn key_of(port: PortNo, frame: &[u8]) -> PacketKey
    ensures value { result ≡ key_of port frame.now }
    ensures within { IsPacketKey result }
{
    let Some(payload) = payload_of(frame) else {
        return key_without_header(port);
    };
    let network = network_in(frame, payload);
    PacketKey {
        in_port: port,
        dl_src: get_array::<6>(frame, 6),
        dl_dst: get_array::<6>(frame, 0),
        dl_vlan: vlan_of(frame),
        dl_vlan_pcp: priority_of(frame),
        dl_type: payload.dl_type,
        nw_tos: network.nw_tos,
        nw_proto: network.nw_proto,
        nw_src: network.nw_src,
        nw_dst: network.nw_dst,
        tp_src: network.ports.tp_src,
        tp_dst: network.ports.tp_dst,
    }
}

#[tactic(auto, unfolding(crate::specs::PacketFields::key_without_header))]
fn key_without_header(port: PortNo) -> PacketKey
    ensures { result ≡ key_without_header port }
{
    PacketKey {
        in_port: port,
        dl_src: [0; 6],
        dl_dst: [0; 6],
        dl_vlan: 0xffff,
        dl_vlan_pcp: 0,
        dl_type: 0,
        nw_tos: 0,
        nw_proto: 0,
        nw_src: 0,
        nw_dst: 0,
        tp_src: 0,
        tp_dst: 0,
    }
}
