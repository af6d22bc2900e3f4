//! The Ethernet header, its VLAN tag, and what is behind.

ghost use Rattle.std.specs.Prelude.{◌≡◌, ◌+◌, ◌≤◌, length, IfSome, IsTrue};
ghost use Rattle.eth_key.specs.Ethernet.{is_tagged, is_snap, vlan_of, priority_of, payload_behind, payload_of};

use of_types::{get_u16, get_u32};

/// The bytes of an Ethernet header: both addresses and the type (IEEE 802.3, 3.1.1).
pub const ETHERNET_LEN: usize = 14;

/// The bytes of the addresses, a VLAN tag and the type.
const TAGGED_LEN: usize = 18;

/// The offset of the type in a frame without a tag.
const TYPE_OFFSET: usize = 12;

/// The type of a VLAN tag (IEEE 802.1Q, 9.4).
const VLAN_TAG: u16 = 0x8100;

/// The least number that is a type and no length (IEEE 802.3, 3.2.6).
const MIN_TYPE: u16 = 0x0600;

/// The type of a frame that has none (OpenFlow 1.0.0, 3.4 Matching).
const NO_TYPE: u16 = 0x05ff;

/// What a frame has behind its Ethernet header and tag.
#[derive(Clone, Copy, Debug, PartialEq, Eq)]
pub struct Payload {
    /// Its type; 0x05ff where the frame has a length and no SNAP header (OpenFlow 1.0.0, 3.4).
    pub dl_type: u16,
    /// The offset of its first byte in the frame.
    pub start: usize,
}

/// Tells whether the frame has a VLAN tag: the type 0x8100 at byte 12, and six more bytes (IEEE 802.1Q, 9).
#[tactic(auto, unfolding(crate::specs::Ethernet::is_tagged))]
pub fn is_tagged(frame: &[u8]) -> bool
    ensures value { result ≡ is_tagged frame.now }
    ensures within { IsTrue result → 18 ≤ length frame.now }
{
    frame.len() >= TAGGED_LEN && get_u16(frame, TYPE_OFFSET) == VLAN_TAG
}

#[tactic(auto, unfolding(crate::specs::Ethernet::vlan_of))]
pub(crate) fn vlan_of(frame: &[u8]) -> u16
    requires { 14 ≤ length frame.now }
    ensures { result ≡ vlan_of frame.now }
{
    if is_tagged(frame) {
        get_u16(frame, 14) & 0x0fff
    } else {
        0xffff
    }
}

#[tactic(auto, unfolding(crate::specs::Ethernet::priority_of))]
pub(crate) fn priority_of(frame: &[u8]) -> u8
    requires { 14 ≤ length frame.now }
    ensures { result ≡ priority_of frame.now }
{
    if is_tagged(frame) {
        (get_u16(frame, 14) >> 13) as u8
    } else {
        0
    }
}

#[tactic(auto, unfolding(crate::specs::Ethernet::is_snap))]
fn is_snap(frame: &[u8], at: usize) -> bool
    requires { at ≤ length frame.now }
    ensures value { result ≡ is_snap at frame.now }
    ensures within { IsTrue result → at + 8 ≤ length frame.now }
{
    frame.len() - at >= 8 && get_u16(frame, at) == 0xaaaa && get_u32(frame, at + 2) == 0x0300_0000
}

#[tactic(auto, unfolding(crate::specs::Ethernet::payload_behind))]
fn payload_behind(frame: &[u8], at: usize) -> Payload
    requires { at + 2 ≤ length frame.now }
    ensures value { result ≡ payload_behind at frame.now }
    ensures within { result.start ≤ length frame.now }
{
    let dl_type = get_u16(frame, at);
    if dl_type >= MIN_TYPE {
        return Payload {
            dl_type,
            start: at + 2,
        };
    }
    if is_snap(frame, at + 2) {
        return Payload {
            dl_type: get_u16(frame, at + 8),
            start: at + 10,
        };
    }
    Payload {
        dl_type: NO_TYPE,
        start: at + 2,
    }
}

/// Finds what the frame has behind its Ethernet header; `None` where it is shorter than the 14 bytes of one.
///
/// The type of an IEEE 802.3 frame, which has a length in its place, stands in a SNAP header (RFC 1042).
pub fn payload_of(frame: &[u8]) -> Option<Payload>
    ensures value { result ≡ payload_of frame.now }
    ensures within { IfSome result (λ payload. payload.start ≤ length frame.now) }
{
    if frame.len() < ETHERNET_LEN {
        return None;
    }
    let at = if is_tagged(frame) {
        TYPE_OFFSET + 4
    } else {
        TYPE_OFFSET
    };
    Some(payload_behind(frame, at))
}
