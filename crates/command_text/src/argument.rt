ghost use Rattle.std.specs.Prelude.{◌≡◌, ◌-◌, ◌≤◌, true, false, MatchOption, length, IfSome, ◌↔◌};
ghost use Rattle.std.specs.List.{list_any};
ghost use Rattle.std.specs.Option.{IsSome};
ghost use Rattle.percent_encoding.specs.Percent.{percent_decode};
ghost use Rattle.command_text.specs.Grammar.{is_digit, number_of, number_at, tx_from_word, key_from_word, record_from_word, read_as};
ghost use Rattle.command_text.specs.Words.{is_percent, key_from, record_from, record_after};

use crate::LineFault;
use arrayvec::ArrayVec;
use percent_encoding::percent_decode;
use rec_types::{KEY_WIDTH, Key, RECORD_WIDTH, Record, TxId};

// The digit that a byte stands for.
fn digit_of(byte: u8) -> Option<u8>
    ensures { MatchOption result (is_digit byte ≡ false)
        (λ d. (is_digit byte ≡ true) × (d ≡ byte - 48) × (d ≤ 9)) }
{
    if byte < b'0' || byte > b'9' {
        return None;
    }
    Some(byte - b'0')
}

// The number that decimal digits stand for, where it has 32 bits.
fn number_of(word: &[u8]) -> Option<u32>
    ensures { result ≡ number_of word.now }
{
    if word.is_empty() {
        return None;
    }
    let mut number = 0u64;
    for byte in word {
        let Some(digit) = digit_of(*byte) else {
            return None;
        };
        number = number * 10 + u64::from(digit);
        if number > u64::from(u32::MAX) {
            return None;
        }
    }
    Some(number as u32)
}

/// The number that a word stands for. Fault: BadNumber.
pub fn number_at(word: &[u8]) -> Result<u32, LineFault>
    ensures { result ≡ number_at word.now }
{
    number_of(word).ok_or(LineFault::BadNumber)
}

/// The transaction whose number a word stands for. Fault: BadNumber.
pub fn tx_at(word: &[u8]) -> Result<TxId, LineFault>
    ensures { result ≡ tx_from_word word.now }
{
    Ok(TxId(number_at(word)?))
}

// The bytes that a word stands for, where there are at most N.
fn decoded<const N: usize>(word: &[u8]) -> Option<ArrayVec<u8, N>>
    ensures some { IsSome result ↔ (length (percent_decode word.now) ≤ N) }
    ensures bytes { IfSome result (λ bytes. bytes.items ≡ percent_decode word.now) }
{
    let mut bytes = ArrayVec::new();
    for byte in percent_decode(word) {
        bytes.try_push(byte).ok()?;
    }
    Some(bytes)
}

/// Whether a word may have an escape. It looks at all bytes, and so at many at a time.
pub fn has_percent(word: &[u8]) -> bool
    ensures { result ≡ list_any is_percent word.now }
{
    let mut found = false;
    for byte in word {
        found = found | (*byte == b'%');
    }
    found
}

// The key of these bytes. Fault: KeyTooLong.
fn key_of_bytes(bytes: &[u8]) -> Result<Key, LineFault>
    ensures { result ≡ key_from bytes.now }
{
    Key::new(bytes).map_err(|_| LineFault::KeyTooLong)
}

// The record of these bytes. Fault: RecordTooLong.
fn record_of_bytes(bytes: &[u8]) -> Result<Record, LineFault>
    ensures { result ≡ record_from bytes.now }
{
    Record::new(bytes).map_err(|_| LineFault::RecordTooLong)
}

/// The key that a word stands for. Fault: KeyTooLong.
pub fn key_at(word: &[u8]) -> Result<Key, LineFault>
    ensures { result ≡ key_from_word word.now }
{
    // A word without `%` stands for itself, and is copied once.
    if !has_percent(word) {
        return key_of_bytes(word);
    }
    let bytes = decoded::<KEY_WIDTH>(word).ok_or(LineFault::KeyTooLong)?;
    key_of_bytes(&bytes)
}

/// The record whose bytes stand escaped. Fault: RecordTooLong.
pub fn escaped_record(escaped: &[u8]) -> Result<Record, LineFault>
    ensures { result ≡ record_from (percent_decode escaped.now) }
{
    let bytes = decoded::<RECORD_WIDTH>(escaped).ok_or(LineFault::RecordTooLong)?;
    record_of_bytes(&bytes)
}

/// What comes after the mark with which the word of a record begins. Fault: NoRecordMark.
pub fn after_mark(word: &[u8]) -> Result<&[u8], LineFault>
    ensures { record_from_word word.now ≡ record_after (read_as (λ escaped. escaped.now) result) }
{
    word.strip_prefix(b"=").ok_or(LineFault::NoRecordMark)
}
