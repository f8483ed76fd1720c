ghost use Rattle.std.specs.Prelude.{◌≡◌, ◌+◌, ◌≤◌, length};
ghost use Rattle.btree_node.specs.Reading.{part, number_at};

use byteorder::{BigEndian, ByteOrder};

/// Some of the bytes.
#[tactic(auto, unfolding(crate::specs::Reading::part))]
pub fn part_of(bytes: &[u8], at: usize, len: usize) -> &[u8]
    requires { at + len ≤ length bytes.now }
    ensures value { result.now ≡ part at len bytes.now }
    ensures len { length result.now ≡ len }
{
    &bytes[at..at + len]
}

/// The number in two of the bytes.
#[tactic(auto, unfolding(crate::specs::Reading::number_at))]
pub fn u16_of(bytes: &[u8], at: usize) -> u16
    requires { at + 2 ≤ length bytes.now }
    ensures { result ≡ number_at 2 at bytes.now }
{
    BigEndian::read_u16(part_of(bytes, at, 2))
}

/// The number in four of the bytes.
#[tactic(auto, unfolding(crate::specs::Reading::number_at))]
pub fn u32_of(bytes: &[u8], at: usize) -> u32
    requires { at + 4 ≤ length bytes.now }
    ensures { result ≡ number_at 4 at bytes.now }
{
    BigEndian::read_u32(part_of(bytes, at, 4))
}
