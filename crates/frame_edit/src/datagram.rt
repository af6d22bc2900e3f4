//! The checksums of a datagram in a frame, computed anew where the frame has them.

ghost use Rattle.std.specs.Prelude.{◌≡◌, ◌+◌, ◌-◌, ◌^◌, ◌<◌, ◌≤◌, length, IsTrue};
ghost use Rattle.eth_key.specs.Ipv4.{IsWithin};
ghost use Rattle.frame_edit.specs.Datagram.{cleared, has_field, pseudo_header, segment_checksum, datagram_end, with_header_checksum, with_tcp_checksum, with_udp_checksum, with_segment_checksum, with_checksums};

use crate::checksum::{checksum, word_sum};
use eth_key::{Ipv4Header, TCP, UDP, is_fragment, protocol};
use of_types::{get_u16, get_u32, put_u16};

/// The offset of the checksum in an IPv4 header (RFC 791, 3.1).
const HEADER_CHECKSUM: usize = 10;

/// The offset of the checksum in a TCP header (RFC 793, 3.1).
const TCP_CHECKSUM: usize = 16;

/// The offset of the checksum in a UDP header (RFC 768).
const UDP_CHECKSUM: usize = 6;

#[tactic(auto, using(crate::specs::laws::FieldLaws::with_field_again), unfolding(crate::specs::Datagram::with_header_checksum, crate::specs::Datagram::header_checksum))]
fn renew_header_checksum(frame: &mut [u8], header: &Ipv4Header)
    requires { IsWithin header.now frame.old }
    ensures { frame.new ≡ with_header_checksum header.now frame.old }
{
    let at = header.start + HEADER_CHECKSUM;
    put_u16(frame, at, 0);
    let value = checksum(word_sum(&frame[header.start..header.end]));
    put_u16(frame, at, value);
}

fn datagram_end(frame: &[u8], header: &Ipv4Header) -> usize
    requires { IsWithin header.now frame.now }
    ensures value { result ≡ datagram_end header.now frame.now }
    ensures near { result < header.now.start + 2 ^ 16 }
{
    header.start + get_u16(frame, header.start + 2) as usize
}

#[tactic(auto, unfolding(crate::specs::Datagram::has_field))]
fn has_field(frame: &[u8], header: &Ipv4Header, at: usize) -> bool
    requires within { IsWithin header.now frame.now }
    requires near { at ≤ header.now.end + 16 }
    ensures value { result ≡ has_field header.now at frame.now }
    ensures within { IsTrue result → at + 2 ≤ length frame.now }
{
    let end = datagram_end(frame, header);
    end <= frame.len() && !is_fragment(frame, header) && at + 2 <= end
}

#[tactic(auto, unfolding(of_types::specs::Fields::number_bytes, crate::specs::Datagram::pseudo_header))]
fn pseudo_header(frame: &[u8], header: &Ipv4Header, len: u16) -> [u8; 12]
    requires within { IsWithin header.now frame.now }
    requires len { len ≡ datagram_end header.now frame.now - header.now.end }
    ensures { result ≡ pseudo_header header.now frame.now }
{
    let [a, b, c, d] = get_u32(frame, header.start + 12).to_be_bytes();
    let [e, f, g, h] = get_u32(frame, header.start + 16).to_be_bytes();
    let [high, low] = len.to_be_bytes();
    [
        a,
        b,
        c,
        d,
        e,
        f,
        g,
        h,
        0,
        protocol(frame, header),
        high,
        low,
    ]
}

/// Clears the field at `at`, and gives the checksum that is to stand there.
#[tactic(auto, using(crate::specs::laws::DatagramLaws::end_of_cleared, crate::specs::laws::ChecksumLaws::word_sum_of_joined), unfolding(crate::specs::Datagram::has_field, crate::specs::Datagram::segment_checksum))]
fn clear_and_sum(frame: &mut [u8], header: &Ipv4Header, at: usize) -> u16
    requires within { IsWithin header.now frame.old }
    requires field { IsTrue (has_field header.now at frame.old) }
    requires behind { header.now.end ≤ at }
    ensures value { result ≡ segment_checksum header.now at frame.old }
    ensures cleared { frame.new ≡ cleared at frame.old }
{
    let end = datagram_end(frame, header);
    put_u16(frame, at, 0);
    let pseudo = pseudo_header(frame, header, (end - header.end) as u16);
    checksum(word_sum(&pseudo) + word_sum(&frame[header.end..end]))
}

#[tactic(auto, using(crate::specs::laws::FieldLaws::with_field_again), unfolding(crate::specs::Datagram::with_tcp_checksum))]
fn renew_tcp_checksum(frame: &mut [u8], header: &Ipv4Header)
    requires { IsWithin header.now frame.old }
    ensures { frame.new ≡ with_tcp_checksum header.now frame.old }
{
    let at = header.end + TCP_CHECKSUM;
    if has_field(frame, header, at) {
        let value = clear_and_sum(frame, header, at);
        put_u16(frame, at, value);
    }
}

#[tactic(auto, using(crate::specs::laws::FieldLaws::with_field_again), unfolding(crate::specs::Datagram::with_udp_checksum))]
fn renew_udp_checksum(frame: &mut [u8], header: &Ipv4Header)
    requires { IsWithin header.now frame.old }
    ensures { frame.new ≡ with_udp_checksum header.now frame.old }
{
    let at = header.end + UDP_CHECKSUM;
    if has_field(frame, header, at) && get_u16(frame, at) != 0 {
        let value = clear_and_sum(frame, header, at);
        put_u16(frame, at, if value == 0 { 0xffff } else { value });
    }
}

#[tactic(auto, unfolding(crate::specs::Datagram::with_segment_checksum))]
fn renew_segment_checksum(frame: &mut [u8], header: &Ipv4Header)
    requires { IsWithin header.now frame.old }
    ensures { frame.new ≡ with_segment_checksum header.now frame.old }
{
    match protocol(frame, header) {
        TCP => renew_tcp_checksum(frame, header),
        UDP => renew_udp_checksum(frame, header),
        _ => {}
    }
}

/// Computes anew the header's checksum, and then that of TCP or UDP behind it.
pub(crate) fn renew_checksums(frame: &mut [u8], header: &Ipv4Header)
    requires { IsWithin header.now frame.old }
    ensures { frame.new ≡ with_checksums header.now frame.old }
{
    renew_header_checksum(frame, header);
    renew_segment_checksum(frame, header);
}
