ghost use Rattle.std.specs.Prelude.{◌≡◌, ◌≤◌, ◌↔◌, length, take, nat_le, IfSome, IsSome, IsTrue};
ghost use Rattle.rec_types.specs.Padded.{IsZeroFrom};
ghost use Rattle.rec_types.specs.Record.{record_of};
ghost use Rattle.rec_types.specs.Widths.{widest_record, short_width};

use crate::number::is_zero_behind;
use crate::widths::{RECORD_WIDTH, SHORT_WIDTH};
use std::marker::Model;
use thiserror::Error;

/// Why bytes are no record.
#[derive(Clone, Copy, Debug, PartialEq, Eq, Error)]
pub enum RecordFault {
    #[error("a record has at most 100 bytes")]
    TooLong,
}

/// A record of 0 to 100 bytes. Contracts see its bytes.
#[derive(Clone, Copy, Debug)]
pub struct Record {
    bytes: [u8; RECORD_WIDTH],
    // Four bytes, so that a copy of a record falls on words.
    len: u32,
}

impl Model for Record {
    ghost use Rattle.std.specs.Prelude.{List, ℕ};
    ghost use Rattle.std.specs.Coded.{coded_list, coded_ℕ};

    ghost Value = { List ℕ };

    ghost coded = { coded_list coded_ℕ };

    ghost use Rattle.rec_types.specs.RecordBytes.{record_bytes_of, IsRecord, record_fields_of, record_fields_of_bytes};

    ghost view = { record_bytes_of };

    ghost invariant = { IsRecord };

    ghost inverse = { record_fields_of };

    ghost inverse_ok = { record_fields_of_bytes };
}

impl Record {
    /// The record of these bytes. Fault: TooLong.
    pub fn new(bytes: &[u8]) -> Result<Record, RecordFault>
        ensures { result ≡ record_of bytes.now }
    {
        if bytes.len() > RECORD_WIDTH {
            return Err(RecordFault::TooLong);
        }
        let mut padded = [0; RECORD_WIDTH];
        padded[..bytes.len()].copy_from_slice(bytes);
        Ok(Record {
            bytes: padded,
            len: bytes.len() as u32,
        })
    }

    /// The record in the first `len` bytes of a field of the greatest length. None where no record has
    /// that length, or a byte behind it isn't zero.
    pub fn in_field(field: &[u8; RECORD_WIDTH], len: u8) -> Option<Record>
        ensures value { IfSome result (λ bytes. bytes ≡ take len field.now) }
        ensures some { IsSome result ↔ ((len ≤ widest_record) × IsZeroFrom len field.now) }
    {
        if len as usize > RECORD_WIDTH || !is_zero_behind(field, len) {
            return None;
        }
        Some(Record {
            bytes: *field,
            len: len as u32,
        })
    }

    /// Whether a field of the greatest length has a record of that length in it: whether `in_field` finds
    /// one. None is made.
    pub fn is_in_field(field: &[u8; RECORD_WIDTH], len: u8) -> bool
        ensures { IsTrue result ↔ ((len ≤ widest_record) × IsZeroFrom len field.now) }
    {
        len as usize <= RECORD_WIDTH && is_zero_behind(field, len)
    }

    /// Whether the record fits in a short one.
    pub(crate) fn is_short(&self) -> bool
        ensures { result ≡ nat_le (length self.now) short_width }
    {
        self.len as usize <= SHORT_WIDTH
    }

    /// The bytes of the record.
    pub fn bytes(&self) -> &[u8]
        ensures value { result.now ≡ self.now }
        ensures most { length self.now ≤ widest_record }
    {
        &self.bytes[..self.len as usize]
    }
}

impl Default for Record {
    ghost use Rattle.std.specs.Prelude.{◌≡◌, []};

    ghost is_default = { λ bytes. bytes ≡ [] };

    /// The empty record.
    fn default() -> Record {
        Record {
            bytes: [0; RECORD_WIDTH],
            len: 0,
        }
    }
}

impl PartialEq for Record {
    ghost use Rattle.std.specs.Prelude.{◌==◌};
    ghost use Rattle.std.specs.Cmp.Lexicographic.{pointwise};
    ghost use Rattle.std.specs.Cmp.Rules.{comparing};
    ghost use Rattle.std.proofs.Common.{rules};

    ghost eq = { pointwise ◌==◌ };

    ghost laws = { Prim.search (comparing, rules) };

    fn eq(&self, other: &Record) -> bool {
        self.bytes() == other.bytes()
    }
}

impl Eq for Record {
    ghost use Rattle.std.specs.Cmp.Rules.{comparing};
    ghost use Rattle.std.proofs.Common.{rules};

    ghost laws = { Prim.search (comparing, rules) };
}

/// A record of at most 32 bytes, in little room. Contracts see its bytes.
#[derive(Clone, Copy, Debug)]
pub(crate) struct ShortRecord {
    bytes: [u8; SHORT_WIDTH],
    len: u32,
}

impl Model for ShortRecord {
    ghost use Rattle.std.specs.Prelude.{List, ℕ};
    ghost use Rattle.std.specs.Coded.{coded_list, coded_ℕ};

    ghost Value = { List ℕ };

    ghost coded = { coded_list coded_ℕ };

    ghost use Rattle.rec_types.specs.ShortBytes.{short_bytes_of, IsShortRecord, short_fields_of, short_fields_of_bytes};

    ghost view = { short_bytes_of };

    ghost invariant = { IsShortRecord };

    ghost inverse = { short_fields_of };

    ghost inverse_ok = { short_fields_of_bytes };
}

impl ShortRecord {
    /// The record in little room.
    pub(crate) fn of(record: &Record) -> ShortRecord
        requires { length «record».now ≤ short_width }
        ensures { result ≡ «record».now }
    {
        let mut bytes = [0; SHORT_WIDTH];
        bytes.copy_from_slice(&record.bytes[..SHORT_WIDTH]);
        ShortRecord {
            bytes,
            len: record.len,
        }
    }

    /// The bytes of the record.
    pub(crate) fn bytes(&self) -> &[u8]
        ensures value { result.now ≡ self.now }
        ensures most { length self.now ≤ short_width }
    {
        &self.bytes[..self.len as usize]
    }

    /// The record in full.
    pub(crate) fn record(&self) -> Record
        ensures { result ≡ self.now }
    {
        let mut bytes = [0; RECORD_WIDTH];
        bytes[..SHORT_WIDTH].copy_from_slice(&self.bytes);
        Record {
            bytes,
            len: self.len,
        }
    }
}
