ghost use Rattle.std.specs.Prelude.{◌≡◌, ℕ, ◌+◌, ◌<◌, ◌≤◌, ◌↔◌, slice_index, take, drop, IsTrue};
ghost use Rattle.byteorder.specs.Endian.{big_number};
ghost use Rattle.rec_types.specs.Padded.{IsZeroFrom, AreBytes};

use crate::widths::RECORD_WIDTH;
use byteorder::{BigEndian, ByteOrder, LittleEndian};

/// The bytes as one number, the first byte the highest: two keys are compared by one comparison of
/// numbers.
pub(crate) fn number_of(bytes: &[u8; 16]) -> u128
    ensures value { result ≡ big_number 16 bytes.now }
    ensures bytes { AreBytes bytes.now }
{
    BigEndian::read_u128(bytes)
}

/// The first eight bytes as one number, the first byte the highest.
pub(crate) fn front_of(bytes: &[u8; 16]) -> u64
    ensures value { result ≡ big_number 8 bytes.now }
    ensures bytes { AreBytes bytes.now }
{
    BigEndian::read_u64(bytes)
}

/// Whether the bytes are zero from place `len` on.
pub(crate) fn is_zero_from(bytes: &[u8; 16], len: u8) -> bool
    ensures { IsTrue result ↔ IsZeroFrom len bytes.now }
{
    if len >= 16 {
        return true;
    }
    LittleEndian::read_u128(bytes) >> (8 * len as u32) == 0
}

/// Whether the bytes are zero from place `len` on. Behind a short record all widths but one are constants.
pub(crate) fn is_zero_behind(bytes: &[u8; RECORD_WIDTH], len: u8) -> bool
    ensures { IsTrue result ↔ IsZeroFrom len bytes.now }
{
    if len > 16 {
        return is_zero_past(bytes, len);
    }
    is_zero_from(&sixteen(bytes, 0), len) && is_zero_past(bytes, 16)
}

/// The same. Sixteen bytes are looked at at a time, and the last sixteen begin within those before them.
#[inline(always)]
fn is_zero_past(bytes: &[u8; RECORD_WIDTH], len: u8) -> bool
    ensures { IsTrue result ↔ IsZeroFrom len bytes.now }
{
    for i in 0..6 {
        let at = 16 * i;
        if !is_zero_from(&sixteen(bytes, at as usize), len.saturating_sub(at)) {
            return false;
        }
    }
    is_zero_from(&sixteen(bytes, 84), len.saturating_sub(84))
}

/// A copy of the sixteen bytes from a place on.
fn sixteen(bytes: &[u8; RECORD_WIDTH], at: usize) -> [u8; 16]
    requires { at ≤ 84 }
    ensures { result ≡ take 16 (drop at bytes.now) }
{
    let mut copy = [0; 16];
    copy.copy_from_slice(&bytes[at..at + 16]);
    copy
}
