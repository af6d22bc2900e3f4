//! Addresses, the type of service and ports written, with the checksums over them.

ghost use Rattle.std.specs.Prelude.{◌≡◌, ◌+◌, ◌≤◌, length};
ghost use Rattle.eth_key.specs.Ipv4.{IsWithin};
ghost use Rattle.frame_edit.specs.Edits.{rewritten, with_address, with_network_address, with_port, with_service};

use crate::datagram::renew_checksums;
use eth_key::{ETHERNET_LEN, Ipv4Header, has_ports, ipv4_header};
use of_types::{get_u8, get_u16, get_u32, put_bytes, put_u8, put_u16, put_u32};

#[tactic(auto, unfolding(crate::specs::Edits::with_address))]
pub(crate) fn set_address(frame: &mut [u8], at: usize, address: &[u8; 6])
    requires { at ≤ 6 }
    ensures { frame.new ≡ with_address at address.now frame.old }
{
    if frame.len() >= ETHERNET_LEN {
        put_bytes(frame, at, address);
    }
}

#[tactic(auto, unfolding(crate::specs::Edits::rewritten))]
fn rewrite_u8(frame: &mut [u8], header: &Ipv4Header, at: usize, value: u8)
    requires within { IsWithin header.now frame.old }
    requires place { at + 1 ≤ length frame.old }
    ensures { frame.new ≡ rewritten header.now 1 at value frame.old }
{
    if get_u8(frame, at) != value {
        put_u8(frame, at, value);
        renew_checksums(frame, header);
    }
}

#[tactic(auto, unfolding(crate::specs::Edits::rewritten))]
fn rewrite_u16(frame: &mut [u8], header: &Ipv4Header, at: usize, value: u16)
    requires within { IsWithin header.now frame.old }
    requires place { at + 2 ≤ length frame.old }
    ensures { frame.new ≡ rewritten header.now 2 at value frame.old }
{
    if get_u16(frame, at) != value {
        put_u16(frame, at, value);
        renew_checksums(frame, header);
    }
}

#[tactic(auto, unfolding(crate::specs::Edits::rewritten))]
fn rewrite_u32(frame: &mut [u8], header: &Ipv4Header, at: usize, value: u32)
    requires within { IsWithin header.now frame.old }
    requires place { at + 4 ≤ length frame.old }
    ensures { frame.new ≡ rewritten header.now 4 at value frame.old }
{
    if get_u32(frame, at) != value {
        put_u32(frame, at, value);
        renew_checksums(frame, header);
    }
}

#[tactic(auto, unfolding(crate::specs::Edits::with_network_address))]
pub(crate) fn set_network_address(frame: &mut [u8], offset: usize, address: u32)
    requires { offset ≤ 16 }
    ensures { frame.new ≡ with_network_address offset address frame.old }
{
    if let Some(header) = ipv4_header(frame) {
        rewrite_u32(frame, &header, header.start + offset, address);
    }
}

#[tactic(auto, unfolding(crate::specs::Edits::with_service))]
pub(crate) fn set_service(frame: &mut [u8], tos: u8)
    ensures { frame.new ≡ with_service tos frame.old }
{
    if let Some(header) = ipv4_header(frame) {
        let at = header.start + 1;
        let low_bits = get_u8(frame, at) & 0x03;
        rewrite_u8(frame, &header, at, (tos >> 2 << 2) | low_bits);
    }
}

#[tactic(auto, unfolding(crate::specs::Edits::with_port))]
pub(crate) fn set_port(frame: &mut [u8], offset: usize, port: u16)
    requires { offset ≤ 2 }
    ensures { frame.new ≡ with_port offset port frame.old }
{
    if let Some(header) = ipv4_header(frame) {
        if has_ports(frame, &header) {
            rewrite_u16(frame, &header, header.end + offset, port);
        }
    }
}
