//! Numbers at offsets in bytes, the highest byte first (OpenFlow 1.0.0, 5).

ghost use Rattle.std.specs.Prelude.{◌≡◌, ℕ, ◌+◌, ◌^◌, ◌<◌, ◌≤◌, List, ◌++◌, length, take};
ghost use Rattle.of_types.specs.Fields.{number_at, number_bytes, piece, with_field, IsBytes};
ghost use Rattle.of_types.specs.Layout.{Field, spelled, AreFields, IsLaidOut};

use byteorder::{BigEndian, ByteOrder};

/// Reads the byte at offset `at`, which lies within the bytes.
pub fn get_u8(bytes: &[u8], at: usize) -> u8
    requires { at < length bytes.now }
    ensures { result ≡ number_at 1 at bytes.now }
{
    bytes[at]
}

/// Reads the 16 bit number at offset `at`; its 2 bytes lie within the bytes.
#[tactic(auto, unfolding(crate::specs::Fields::number_at))]
pub fn get_u16(bytes: &[u8], at: usize) -> u16
    requires { at + 2 ≤ length bytes.now }
    ensures { result ≡ number_at 2 at bytes.now }
{
    BigEndian::read_u16(&bytes[at..])
}

/// Reads the 32 bit number at offset `at`; its 4 bytes lie within the bytes.
#[tactic(auto, unfolding(crate::specs::Fields::number_at))]
pub fn get_u32(bytes: &[u8], at: usize) -> u32
    requires { at + 4 ≤ length bytes.now }
    ensures { result ≡ number_at 4 at bytes.now }
{
    BigEndian::read_u32(&bytes[at..])
}

/// Reads the 64 bit number at offset `at`; its 8 bytes lie within the bytes.
#[tactic(auto, unfolding(crate::specs::Fields::number_at))]
pub fn get_u64(bytes: &[u8], at: usize) -> u64
    requires { at + 8 ≤ length bytes.now }
    ensures { result ≡ number_at 8 at bytes.now }
{
    BigEndian::read_u64(&bytes[at..])
}

/// Copies the `N` bytes from offset `at` on; they lie within the bytes.
pub fn get_array<const N: usize>(bytes: &[u8], at: usize) -> [u8; N]
    requires { at + N ≤ length bytes.now }
    ensures { result ≡ piece N at bytes.now }
{
    *bytes[at..].first_chunk::<N>().unwrap()
}

/// Writes the byte at offset `at`, and nothing else; it lies within the bytes.
pub fn put_u8(bytes: &mut [u8], at: usize, value: u8)
    requires { at < length bytes.old }
    ensures field { bytes.new ≡ with_field at (number_bytes 1 value) bytes.old }
    ensures front { take (at + 1) bytes.new ≡ take at bytes.old ++ number_bytes 1 value }
{
    bytes[at] = value;
}

/// Writes the 16 bit number at offset `at`, and nothing else; its 2 bytes lie within the bytes.
pub fn put_u16(bytes: &mut [u8], at: usize, value: u16)
    requires { at + 2 ≤ length bytes.old }
    ensures field { bytes.new ≡ with_field at (number_bytes 2 value) bytes.old }
    ensures front { take (at + 2) bytes.new ≡ take at bytes.old ++ number_bytes 2 value }
{
    BigEndian::write_u16(&mut bytes[at..], value);
}

/// Writes the 32 bit number at offset `at`, and nothing else; its 4 bytes lie within the bytes.
pub fn put_u32(bytes: &mut [u8], at: usize, value: u32)
    requires { at + 4 ≤ length bytes.old }
    ensures field { bytes.new ≡ with_field at (number_bytes 4 value) bytes.old }
    ensures front { take (at + 4) bytes.new ≡ take at bytes.old ++ number_bytes 4 value }
{
    BigEndian::write_u32(&mut bytes[at..], value);
}

/// Writes the 64 bit number at offset `at`, and nothing else; its 8 bytes lie within the bytes.
pub fn put_u64(bytes: &mut [u8], at: usize, value: u64)
    requires { at + 8 ≤ length bytes.old }
    ensures field { bytes.new ≡ with_field at (number_bytes 8 value) bytes.old }
    ensures front { take (at + 8) bytes.new ≡ take at bytes.old ++ number_bytes 8 value }
{
    BigEndian::write_u64(&mut bytes[at..], value);
}

/// Writes the field's bytes from offset `at` on, and nothing else; they lie within the bytes.
pub fn put_bytes(bytes: &mut [u8], at: usize, field: &[u8])
    requires { at + length field.now ≤ length bytes.old }
    ensures field { bytes.new ≡ with_field at field.now bytes.old }
    ensures front { take (at + length field.now) bytes.new ≡ take at bytes.old ++ field.now }
{
    bytes[at..at + field.len()].copy_from_slice(field);
}

/// Writes the `N` bytes from offset `at` on, and nothing else; they lie within the bytes.
pub fn put_array<const N: usize>(bytes: &mut [u8], at: usize, field: &[u8; N])
    requires { at + N ≤ length bytes.old }
    ensures field { bytes.new ≡ with_field at field.now bytes.old }
    ensures front { take (at + N) bytes.new ≡ take at bytes.old ++ field.now }
{
    put_bytes(bytes, at, field);
}

/// States the laws of numbers at offsets: what is put is got again, and what is got is what stands there.
pub fn laws_of_fields()
    ensures put_is_got { (n at x : ℕ) (bytes : List ℕ) → at + n ≤ length bytes → x < 256 ^ n
        → number_at n at (with_field at (number_bytes n x) bytes) ≡ x }
    ensures got_is_there { (n at : ℕ) (bytes : List ℕ) → IsBytes bytes → at + n ≤ length bytes
        → number_bytes n (number_at n at bytes) ≡ piece n at bytes }
{}

/// States the law of layouts: what is spelled is laid out so, whatever stands before and behind it.
pub fn law_of_layouts()
    ensures { (at : ℕ) (fields : List Field) (front rest : List ℕ) → length front ≡ at → AreFields fields
        → IsLaidOut at fields rest (front ++ (spelled fields ++ rest)) }
{}
