use crate::expect_text;
use rec_types::{
    FlakyTable, Key, KeyFault, LimitFault, Limits, Record, RecordFault, SortedTable, Table,
    TableFault,
};
use std::alloc::Global;
use std::process::Abort;

fn greatest() -> Result<Limits, LimitFault> {
    Limits::new(1_000_000, 4_000_000, 1_000_000)
}

#[test]
fn limits_are_refused_in_their_order(rt: HostRuntime) {
    for (records, log_records, begins, fault) in [
        (0, 2, 1, LimitFault::Records),
        (0, 1, 0, LimitFault::Records),
        (1_000_001, 2, 1, LimitFault::Records),
        (1, 1, 0, LimitFault::Log),
        (1, 4_000_001, 1, LimitFault::Log),
        (1, 2, 0, LimitFault::Begins),
        (1, 2, 1_000_001, LimitFault::Begins),
    ] {
        match Limits::new(records, log_records, begins) {
            Ok(_) => assert!(rt; false, "accepted {records} {log_records} {begins}"),
            Err(found) => assert_eq!(rt; found, fault),
        }
    }
    assert!(rt; greatest().is_ok());
    assert!(rt; Limits::new(1, 2, 1).is_ok());
}

/// How long the key of these bytes is.
fn key_length(bytes: &[u8]) -> Result<usize, KeyFault> {
    Ok(Key::new(bytes)?.bytes().len())
}

#[test]
fn keys_have_their_lengths(rt: HostRuntime) {
    for (bytes, wanted) in [
        (b"".as_slice(), Err(KeyFault::Empty)),
        (b"abcdefghijklmnop", Ok(16)),
        (b"abcdefghijklmnopq", Err(KeyFault::TooLong)),
    ] {
        assert_eq!(rt; key_length(bytes), wanted);
    }
    assert_eq!(rt; Key::default().bytes(), b"\0".as_slice());
}

/// How long the record of these bytes is.
fn record_length(bytes: &[u8]) -> Result<usize, RecordFault> {
    Ok(Record::new(bytes)?.bytes().len())
}

#[test]
fn records_have_their_lengths(rt: HostRuntime) {
    for (bytes, wanted) in [
        (b"".as_slice(), Ok(0)),
        (b"abcdefghijklmnopqrstuvwxyz0123456", Ok(33)),
        (&[b'z'; 100], Ok(100)),
        (&[b'z'; 101], Err(RecordFault::TooLong)),
    ] {
        assert_eq!(rt; record_length(bytes), wanted);
    }
    assert_eq!(rt; Record::default().bytes().len(), 0);
}

#[test]
fn keys_are_in_the_order_of_their_bytes(rt: HostRuntime) {
    let short = Key::new(b"ab").expect(&rt, "no key");
    let long = Key::new(b"ab\0").expect(&rt, "no key");
    let other = Key::new(b"b").expect(&rt, "no key");
    assert!(rt; short < long && long < other);
    assert!(rt; short == Key::new(b"ab").expect(&rt, "no key") && short != long);
}

/// Sets, once more where memory was refused.
fn set(table: &mut impl Table, key: Key, to: Option<Record>) -> Result<Option<Record>, TableFault> {
    match table.set(key, to.as_ref().copied()) {
        Err(TableFault::Memory) => table.set(key, to),
        answer => answer,
    }
}

/// The records, once more where memory was refused.
fn entries(table: &mut impl Table) -> Result<Vec<(Key, Record)>, TableFault> {
    match table.entries() {
        Err(TableFault::Memory) => table.entries(),
        answer => answer,
    }
}

/// A call of a table, whose keys and records are of one byte; no record takes one out.
#[derive(Clone, Copy)]
enum Call {
    Set(u8, Option<u8>),
    Get(u8),
    Entries,
    Counts,
}

fn record_of(rt: &impl Abort, byte: Option<u8>) -> Option<Record> {
    match byte {
        Some(byte) => Some(Record::new(&[byte]).expect(rt, "no record")),
        None => None,
    }
}

fn push_bytes(rt: &impl Abort, text: &mut String, bytes: &[u8]) {
    for byte in bytes {
        text.push(char::from(*byte)).expect(rt, "no memory");
    }
}

/// Appends a record, that there is none, or why there is no answer.
fn push_answer(rt: &impl Abort, text: &mut String, answer: Result<Option<Record>, TableFault>) {
    match answer {
        Ok(Some(record)) => push_bytes(rt, text, record.bytes()),
        Ok(None) => text.push_str("none").expect(rt, "no memory"),
        Err(fault) => write!(text, "{fault:?}").expect(rt, "no memory"),
    }
}

/// Appends each key with its record.
fn push_entries(rt: &impl Abort, text: &mut String, entries: &[(Key, Record)]) {
    for (key, record) in entries {
        push_bytes(rt, text, key.bytes());
        text.push('=').expect(rt, "no memory");
        push_bytes(rt, text, record.bytes());
        text.push(';').expect(rt, "no memory");
    }
}

/// Makes a call, and appends its answer; `Counts` tells the number of records and the limit.
fn push_call(rt: &impl Abort, text: &mut String, table: &mut impl Table, call: Call) {
    match call {
        Call::Set(key, to) => push_answer(
            rt,
            text,
            set(
                table,
                Key::new(&[key]).expect(rt, "no key"),
                record_of(rt, to),
            ),
        ),
        Call::Get(key) => push_answer(rt, text, table.get(&Key::new(&[key]).expect(rt, "no key"))),
        Call::Entries => push_entries(rt, text, &entries(table).expect(rt, "no answer")),
        Call::Counts => write!(text, "{} of {}", table.count(), table.limit()).expect(
            rt,
            "no memory",
        ),
    }
}

/// What the calls answer, each behind a space.
fn answers(rt: &impl Abort, alloc: Global, table: &mut impl Table, calls: &[Call]) -> String {
    let mut text = String::new(alloc);
    for call in calls {
        text.push(' ').expect(rt, "no memory");
        push_call(rt, &mut text, table, *call);
    }
    text
}

const SORTED_CALLS: [Call; 10] = [
    Call::Set(b'b', Some(b'x')),
    Call::Set(b'a', Some(b'y')),
    Call::Set(b'b', Some(b'y')),
    Call::Set(b'c', Some(b'x')),
    Call::Set(b'c', None),
    Call::Get(b'b'),
    Call::Get(b'c'),
    Call::Entries,
    Call::Set(b'a', None),
    Call::Counts,
];

#[test]
fn a_sorted_table_keeps_key_order(rt: HostRuntime) {
    let mut table = SortedTable::new(rt.alloc(), Limits::new(2, 2, 1).expect(&rt, "no limits"));
    let text = answers(&rt, rt.alloc(), &mut table, &SORTED_CALLS);
    expect_text(
        &rt,
        text.as_str(),
        " none none x NoRoom none y none a=y;b=y; y 1 of 2",
    );
}

const FLAKY_CALLS: [Call; 9] = [
    Call::Set(b'a', None),
    Call::Set(b'a', Some(b'y')),
    Call::Get(b'a'),
    Call::Set(b'a', Some(b'y')),
    Call::Set(b'b', None),
    Call::Set(b'b', Some(b'y')),
    Call::Entries,
    Call::Set(b'b', None),
    Call::Counts,
];

/// A table with x at the keys a and b, and room for seven more.
fn two_records(rt: &impl Abort, alloc: Global) -> SortedTable {
    let mut table = SortedTable::new(alloc, Limits::new(9, 2, 1).expect(rt, "no limits"));
    for key in b"ab" {
        set(
            &mut table,
            Key::new(&[*key]).expect(rt, "no key"),
            record_of(rt, Some(b'x')),
        )
        .expect(rt, "no answer");
    }
    table
}

fn flaky(rt: &impl Abort, alloc: Global) -> FlakyTable<SortedTable> {
    let numbers = [2, 4, 5];
    let failing = match Vec::from_slice(alloc, &numbers) {
        Ok(failing) => failing,
        Err(_) => Vec::from_slice(alloc, &numbers).expect(rt, "no memory"),
    };
    FlakyTable::new(two_records(rt, alloc), failing)
}

// A refused growth would use a number up, so the table below has its memory before.
#[test]
fn a_flaky_table_fails_at_its_numbers(rt: HostRuntime) {
    let mut table = flaky(&rt, rt.alloc());
    let text = answers(&rt, rt.alloc(), &mut table, &FLAKY_CALLS);
    expect_text(
        &rt,
        text.as_str(),
        " x Device none none Device Device a=y;b=x; x 1 of 9",
    );
}
