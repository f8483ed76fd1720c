ghost use Rattle.std.specs.Prelude.{◌≡◌, ◌<◌, ◌≤◌, ◌↔◌, length, take, Result, Ok, Err, IfSome, IsSome};
ghost use Rattle.byteorder.specs.Endian.{big_number};
ghost use Rattle.rec_types.specs.Key.{key_of};
ghost use Rattle.rec_types.specs.Padded.{IsZeroFrom, AreBytes};
ghost use Rattle.rec_types.specs.Widths.{key_width};

use crate::number::{front_of, is_zero_from, number_of};
use crate::widths::KEY_WIDTH;
use std::cmp::Ordering;
use std::hash::{Hash, Hasher};
use std::marker::Model;
use thiserror::Error;

/// Why bytes are no key.
#[derive(Clone, Copy, Debug, PartialEq, Eq, Error)]
pub enum KeyFault {
    #[error("a key has at least one byte")]
    Empty,
    #[error("a key has at most 16 bytes")]
    TooLong,
}

/// A key of 1 to 16 bytes, ordered by its bytes, a proper prefix first. Contracts see its bytes.
#[derive(Clone, Copy, Debug)]
pub struct Key {
    bytes: [u8; KEY_WIDTH],
    // Four bytes, so that a copy of a key falls on words.
    len: u32,
}

impl Model for Key {
    ghost use Rattle.std.specs.Prelude.{List, ℕ};
    ghost use Rattle.std.specs.Coded.{coded_list, coded_ℕ};

    ghost Value = { List ℕ };

    ghost coded = { coded_list coded_ℕ };

    ghost use Rattle.rec_types.specs.KeyBytes.{key_bytes_of, IsKey, key_fields_of, key_fields_of_bytes};

    ghost view = { key_bytes_of };

    ghost invariant = { IsKey };

    ghost inverse = { key_fields_of };

    ghost inverse_ok = { key_fields_of_bytes };
}

impl Key {
    /// The key of these bytes. Faults: Empty, TooLong.
    pub fn new(bytes: &[u8]) -> Result<Key, KeyFault>
        ensures { result ≡ key_of bytes.now }
    {
        if bytes.is_empty() {
            return Err(KeyFault::Empty);
        }
        if bytes.len() > KEY_WIDTH {
            return Err(KeyFault::TooLong);
        }
        let mut padded = [0; KEY_WIDTH];
        padded[..bytes.len()].copy_from_slice(bytes);
        Ok(Key {
            bytes: padded,
            len: bytes.len() as u32,
        })
    }

    /// The key in the first `len` bytes of a field of the greatest length. None where no key has that
    /// length, or a byte behind it isn't zero.
    pub fn in_field(field: &[u8; KEY_WIDTH], len: u8) -> Option<Key>
        ensures value { IfSome result (λ bytes. bytes ≡ take len field.now) }
        ensures some { IsSome result ↔ ((0 < len) × (len ≤ key_width) × IsZeroFrom len field.now) }
    {
        if len == 0 || len as usize > KEY_WIDTH || !is_zero_from(field, len) {
            return None;
        }
        Some(Key {
            bytes: *field,
            len: len as u32,
        })
    }

    /// The first eight bytes as one number, with zeros behind a shorter key.
    pub(crate) fn front(&self) -> u64
        ensures value { result ≡ big_number 8 self.now }
        ensures bytes { AreBytes self.now }
    {
        front_of(&self.bytes)
    }

    /// The bytes of the key.
    pub fn bytes(&self) -> &[u8]
        ensures value { result.now ≡ self.now }
        ensures some { 0 < length self.now }
        ensures most { length self.now ≤ key_width }
    {
        &self.bytes[..self.len as usize]
    }
}

impl Default for Key {
    ghost use Rattle.std.specs.Prelude.{◌≡◌, [], ◌∷◌};

    ghost is_default = { λ key. key ≡ 0 ∷ [] };

    /// The key of one zero byte.
    fn default() -> Key {
        Key {
            bytes: [0; KEY_WIDTH],
            len: 1,
        }
    }
}

impl PartialEq for Key {
    ghost use Rattle.std.specs.Prelude.{◌==◌};
    ghost use Rattle.std.specs.Cmp.Lexicographic.{pointwise};
    ghost use Rattle.std.specs.Cmp.Rules.{comparing};
    ghost use Rattle.std.proofs.Common.{rules};

    ghost eq = { pointwise ◌==◌ };

    ghost laws = { Prim.search (comparing, rules) };

    fn eq(&self, other: &Key) -> bool {
        self.cmp(other).is_eq()
    }
}

impl Eq for Key {
    ghost use Rattle.std.specs.Cmp.Rules.{comparing};
    ghost use Rattle.std.proofs.Common.{rules};

    ghost laws = { Prim.search (comparing, rules) };
}

impl Ord for Key {
    ghost use Rattle.std.specs.Ordering.{nat_cmp};
    ghost use Rattle.std.specs.Cmp.Lexicographic.{slice_cmp};
    ghost use Rattle.std.specs.Cmp.Rules.{comparing};
    ghost use Rattle.std.proofs.Common.{rules};

    ghost cmp = { slice_cmp nat_cmp };

    ghost total = { Prim.search (comparing, rules) };

    ghost matches_partial_cmp = { Prim.search (comparing, rules) };

    ghost matches_eq = { Prim.search (comparing, rules) };

    fn cmp(&self, other: &Key) -> Ordering {
        number_of(&self.bytes)
            .cmp(&number_of(&other.bytes))
            .then(self.len.cmp(&other.len))
    }
}

impl PartialOrd for Key {
    ghost use Rattle.std.specs.Ordering.{nat_cmp, as_partial_cmp};
    ghost use Rattle.std.specs.Cmp.{partial_order_from_own_ties};
    ghost use Rattle.std.specs.Cmp.Lexicographic.{slice_cmp};
    ghost use Rattle.std.specs.Cmp.Rules.{comparing};
    ghost use Rattle.std.proofs.Common.{rules};

    ghost partial_cmp = { as_partial_cmp (slice_cmp nat_cmp) };

    ghost laws = { partial_order_from_own_ties
        (Prim.search (comparing, rules)) (Prim.search (comparing, rules)) };

    fn partial_cmp(&self, other: &Key) -> Option<Ordering> {
        Some(self.cmp(other))
    }
}

impl Hash for Key {
    ghost use Rattle.std.specs.Prelude.{[], ◌∷◌};
    ghost use Rattle.rec_types.specs.Padded.{padded};
    ghost use Rattle.rec_types.specs.Widths.{key_width};
    ghost use Rattle.std.specs.Cmp.Rules.{hashing};
    ghost use Rattle.std.proofs.Common.{rules};

    ghost hash_input = { λ k. padded key_width k ∷ [] };

    ghost respects_eq = { Prim.search (hashing, rules) };

    fn hash<H: Hasher>(&self, state: &mut H) {
        state.write(&self.bytes);
    }
}
