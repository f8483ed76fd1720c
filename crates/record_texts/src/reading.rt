use csv::{ByteRecord, ReaderBuilder};
use memchr::memchr;
use rec_types::{Key, KeyFault, Memory, Record};
use std::alloc::{AllocError, AllocFailed, Global};
use thiserror::Error;

/// What separates a key from its record.
#[derive(Clone, Copy, Debug, PartialEq, Eq)]
pub enum Separator {
    Tab,
    Comma,
}

/// Why a line says no record.
#[derive(Clone, Copy, Debug, PartialEq, Eq, Error)]
pub enum Cause {
    #[error("FieldCount")]
    FieldCount,
    #[error("BadEscape")]
    BadEscape,
    #[error("KeyEmpty")]
    KeyEmpty,
    #[error("KeyTooLong")]
    KeyTooLong,
    #[error("RecordTooLong")]
    RecordTooLong,
}

/// Why a text says no records: the first line that says none, from 1; or there was no memory.
#[derive(Clone, Copy, Debug, PartialEq, Eq, Error)]
pub enum TextFault {
    #[error("{0} in line {1}")]
    Line(Cause, u64),
    #[error("Memory 0")]
    Memory,
}

impl From<AllocError> for TextFault {
    ghost use Rattle.std.specs.Prelude.{◌≡◌};
    ghost use Rattle.record_texts.specs.declared.reading.TextFault.TheVariants.{Memory};

    ghost from_gives = { λ _ fault. fault ≡ Memory };

    fn from(_: AllocError) -> TextFault {
        TextFault::Memory
    }
}

impl<T: Drop> From<AllocFailed<T>> for TextFault {
    ghost use Rattle.std.specs.Prelude.{◌≡◌};
    ghost use Rattle.record_texts.specs.declared.reading.TextFault.TheVariants.{Memory};

    ghost from_gives = { λ _ fault. fault ≡ Memory };

    fn from(_: AllocFailed<T>) -> TextFault {
        TextFault::Memory
    }
}

/// Records in the order of their lines, and the numbers of these, from 1.
#[derive(Debug, Drop)]
pub struct Loaded {
    pub records: Vec<(Key, Record)>,
    pub lines: Vec<u64>,
}

impl Loaded {
    fn new(alloc: Global) -> Loaded {
        Loaded {
            records: Vec::new(alloc),
            lines: Vec::new(alloc),
        }
    }

    // Adds what a line says.
    fn push(&mut self, line: u64, said: Result<(Key, Record), Cause>) -> Result<(), TextFault> {
        match said {
            Ok(entry) => {
                self.records.push(entry)?;
                Ok(self.lines.push(line)?)
            }
            Err(cause) => Err(TextFault::Line(cause, line)),
        }
    }
}

// The key and the record of two fields.
fn entry_of(key: &[u8], value: &[u8]) -> Result<(Key, Record), Cause> {
    let key = match Key::new(key) {
        Ok(key) => key,
        Err(KeyFault::Empty) => return Err(Cause::KeyEmpty),
        Err(KeyFault::TooLong) => return Err(Cause::KeyTooLong),
    };
    match Record::new(value) {
        Ok(value) => Ok((key, value)),
        Err(_) => Err(Cause::RecordTooLong),
    }
}

// The byte that a letter behind a backslash stands for.
fn escaped_byte(letter: u8) -> Option<u8> {
    match letter {
        b't' => Some(b'\t'),
        b'n' => Some(b'\n'),
        b'r' => Some(b'\r'),
        b'\\' => Some(b'\\'),
        _ => None,
    }
}

// What a field between tabs says, into an empty buffer. None where a backslash stands for nothing.
fn unescape(field: &[u8], plain: &mut Vec<u8>) -> Result<Option<()>, AllocError> {
    let mut escaped = false;
    for byte in field {
        if escaped {
            let Some(byte) = escaped_byte(*byte) else {
                return Ok(None);
            };
            plain.push(byte)?;
            escaped = false;
        } else if *byte == b'\\' {
            escaped = true;
        } else {
            plain.push(*byte)?;
        }
    }
    Ok(if escaped { None } else { Some(()) })
}

// A line, without its LF and a CR before that, and the text behind it.
fn cut_line(text: &[u8]) -> (&[u8], &[u8]) {
    let (line, rest) = match memchr(b'\n', text) {
        Some(at) => (&text[..at], &text[at + 1..]),
        None => (text, &text[text.len()..]),
    };
    match line.strip_suffix(b"\r") {
        Some(line) => (line, rest),
        None => (line, rest),
    }
}

// What a line with a tab between its fields says; `plain` is any buffer.
fn tsv_entry(line: &[u8], plain: &mut Vec<u8>) -> Result<Result<(Key, Record), Cause>, AllocError> {
    let Some(at) = memchr(b'\t', line) else {
        return Ok(Err(Cause::FieldCount));
    };
    let (key, value) = (&line[..at], &line[at + 1..]);
    if memchr(b'\t', value).is_some() {
        return Ok(Err(Cause::FieldCount));
    }
    plain.clear();
    if unescape(key, plain)?.is_none() {
        return Ok(Err(Cause::BadEscape));
    }
    let width = plain.len();
    if unescape(value, plain)?.is_none() {
        return Ok(Err(Cause::BadEscape));
    }
    let (key, value) = match (plain.get(..width), plain.get(width..)) {
        (Some(key), Some(value)) => (key, value),
        _ => return Ok(Err(Cause::FieldCount)),
    };
    Ok(entry_of(key, value))
}

// The records of lines with tabs.
fn read_tsv(alloc: Global, text: &[u8]) -> Result<Loaded, TextFault> {
    let mut loaded = Loaded::new(alloc);
    let mut plain = Vec::new(alloc);
    let mut rest = text;
    for number in 1..u64::MAX {
        if rest.is_empty() {
            break;
        }
        let (line, more) = cut_line(rest);
        if !line.is_empty() {
            loaded.push(number, tsv_entry(line, &mut plain)?)?;
        }
        rest = more;
    }
    Ok(loaded)
}

// What a row says.
fn csv_entry(row: &ByteRecord) -> Result<(Key, Record), Cause> {
    match (row.get(0), row.get(1), row.get(2)) {
        (Some(key), Some(value), None) => entry_of(key, value),
        _ => Err(Cause::FieldCount),
    }
}

// The records of rows with commas. A text in memory never fails to be read.
fn read_csv(alloc: Global, text: &[u8]) -> Result<Loaded, TextFault> {
    let mut loaded = Loaded::new(alloc);
    let mut row = ByteRecord::new(alloc);
    let mut reader = ReaderBuilder::new()
        .has_headers(false)
        .flexible(true)
        .from_reader(alloc, text);
    for _ in 0..u64::MAX {
        match reader.read_byte_record(&mut row) {
            Ok(true) => {}
            Ok(false) => return Ok(loaded),
            Err(_) => return Err(TextFault::Memory),
        }
        let line = row.position().map_or(0, |position| position.line());
        loaded.push(line, csv_entry(&row))?;
    }
    Ok(loaded)
}

/// The records that a text says whose fields are separated so, in the order of its lines; empty lines say none. Between
/// tabs a field has `\t`, `\n`, `\r` and `\\` for a tab, LF, CR and backslash; between commas it may stand in quotation
/// marks. Faults: Line, with the first line that says no record; Memory.
pub fn read_records(alloc: Global, separator: Separator, text: &[u8]) -> Result<Loaded, TextFault> {
    match separator {
        Separator::Tab => read_tsv(alloc, text),
        Separator::Comma => read_csv(alloc, text),
    }
}
