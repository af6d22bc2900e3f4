//! The Internet checksum (RFC 1071).

ghost use Rattle.std.specs.Prelude.{◌≡◌, ◌*◌, ◌≤◌, length};
ghost use Rattle.frame_edit.specs.Checksum.{word_sum, checksum};

/// The sum of the 16 bit words of at most 65,535 bytes; an odd byte at the end counts with a zero byte
/// behind it.
#[tactic(auto, unfolding(crate::specs::Checksum::word_sum))]
pub(crate) fn word_sum(bytes: &[u8]) -> u32
    requires { length bytes.now ≤ 65535 }
    ensures value { result ≡ word_sum bytes.now }
    ensures small { result ≤ 65535 * 32768 }
{
    let mut sum: u32 = 0;
    let mut rest = bytes;
    while let [high, low, after @ ..] = rest {
        sum += u32::from(u16::from_be_bytes([*high, *low]));
        rest = after;
    }
    if let [high] = rest {
        sum += u32::from(*high) * 256;
    }
    sum
}

/// The checksum of words whose sum is given: the one's complement of their one's complement sum.
#[tactic(auto, unfolding(crate::specs::Checksum::checksum))]
pub(crate) fn checksum(sum: u32) -> u16
    ensures { result ≡ checksum sum }
{
    if sum == 0 {
        return 0xffff;
    }
    (0xfffe - (sum - 1) % 0xffff) as u16
}
