mod answers;
mod long_scripts;
mod lying;
mod rows;
mod sessions;
mod strange_stores;
mod table_files;

ghost use Rattle.std.specs.Prelude.{◌<◌, ◌≤◌};
ghost use Rattle.recfile.specs.Streams.{IsBlankFor};

use crate::expect_named;
use btree_delete::TreeTable;
use page_store::{MemStore, Store};
use rec_types::{FlakyTable, LimitFault, Limits, SortedTable, Table};
use recfile::{Feed, Manner, RunFault, ScriptFault, StreamCalls, run_feed, run_script};
use record_file::{RecordFile, Unlogged};
use std::alloc::Global;
use std::io;
use std::io::{Read, Write};
use std::marker::Brand;
use std::process::Abort;
use std::sync::ledger::{Blank, Ledger};

/// A reader that gives one byte at a time.
#[derive(Drop)]
struct Bytewise<'a> {
    left: &'a [u8],
}

impl<'a> Read for Bytewise<'a> {
    fn read(&mut self, bytes: &mut [u8]) -> io::Result<usize> {
        match self.left.split_first() {
            Some((first, rest)) if !bytes.is_empty() => {
                bytes[0] = *first;
                self.left = rest;
                Ok(1)
            }
            _ => Ok(0),
        }
    }
}

/// A script over an empty file: the limits of records, log records and transactions, the calls of `set` at which
/// the device fails, the replies, and how many commands there are.
#[derive(Clone, Copy)]
struct Row<'a> {
    name: &'a str,
    limits: (u32, u32, u32),
    failing: &'a [u64],
    script: &'a str,
    replies: &'a str,
    commands: u32,
}

/// The greatest limits.
fn greatest() -> Result<Limits, LimitFault> {
    Limits::new(1_000_000, 4_000_000, 1_000_000)
}

/// An empty table in a tree of this order, over pages in memory.
fn tree(rt: &impl Abort, alloc: Global, k: u16, limits: Limits) -> TreeTable<MemStore> {
    let store = MemStore::new(Vec::new(alloc), 0);
    match TreeTable::create(alloc, store, k, limits) {
        Ok(table) => table,
        Err(_) => panic!(rt; "the table isn't made"),
    }
}

/// A file over the table, whose device fails at these calls of `set`.
fn flaky_file<T: Table>(
    rt: &impl Abort,
    alloc: Global,
    table: T,
    limits: Limits,
    failing: &[u64],
) -> RecordFile<FlakyTable<T>> {
    let table = FlakyTable::new(
        table,
        Vec::from_slice(alloc, failing).expect(rt, "no memory"),
    );
    assert!(rt; table.limit() == limits.records());
    RecordFile::new(alloc, table, limits)
}

/// Runs the script that a reader has, on that count.
fn run_counted<L: Ledger, T: Table, R: Read, W: Write>(
    alloc: Global,
    reader: &mut R,
    writer: &mut W,
    file: &mut RecordFile<T>,
    blank: Blank,
) -> Result<u32, ScriptFault>
    requires { IsBlankFor blank.name blank.parts L.name L.parts }
{
    let mut calls = StreamCalls::<L>::new(blank);
    run_script(alloc, reader, writer, file, &mut Unlogged, &mut calls)
}

/// Runs the script that a reader has.
fn run_all<T: Table, R: Read, W: Write>(
    alloc: Global,
    reader: &mut R,
    writer: &mut W,
    file: &mut RecordFile<T>,
) -> Result<u32, ScriptFault> {
    run_counted::<Brand, T, R, W>(alloc, reader, writer, file, Blank::new(1))
}

/// Runs the script: its replies, and how it ended.
fn run<T: Table>(
    rt: &impl Abort,
    alloc: Global,
    file: &mut RecordFile<T>,
    script: &str,
) -> (String, Result<u32, ScriptFault>) {
    let mut reader = script.as_bytes();
    let mut out = Vec::new(alloc);
    let end = run_all(alloc, &mut reader, &mut out, file);
    (String::from_utf8(out).expect(rt, "no text"), end)
}

/// Expects the replies, each with its end, and this many commands.
fn expect_replies<T: Table>(
    rt: &impl Abort,
    alloc: Global,
    file: &mut RecordFile<T>,
    row: &Row<'_>,
) {
    let (text, end) = run(rt, alloc, file, row.script);
    expect_named(rt, row.name, text.as_str(), row.replies);
    assert_eq!(rt; (row.name, end), (row.name, Ok(row.commands)));
}

/// Does so over a new file in the table.
fn expect_over<T: Table>(rt: &impl Abort, alloc: Global, table: T, row: &Row<'_>) {
    let (records, log_records, begins) = row.limits;
    let limits = Limits::new(records, log_records, begins).expect(rt, "no limits");
    let mut file = flaky_file(rt, alloc, table, limits, row.failing);
    expect_replies(rt, alloc, &mut file, row)
}

/// Runs the lines that a reader has as a shell does, on that count.
fn feed_counted<L: Ledger, T: Table, R: Read, W: Write>(
    alloc: Global,
    reader: &mut R,
    writer: &mut W,
    file: &mut RecordFile<T>,
    blank: Blank,
) -> Result<u32, RunFault>
    requires { IsBlankFor blank.name blank.parts L.name L.parts }
{
    let manner = Manner {
        strict: false,
        feed: Feed::Lines,
    };
    let mut calls = StreamCalls::<L>::new(blank);
    run_feed(
        alloc,
        manner,
        reader,
        writer,
        file,
        &mut Unlogged,
        &mut calls,
    )
}

/// Expects the row's replies of a shell whose lines the reader has, over a new file in the table.
fn expect_shell<T: Table, R: Read>(
    rt: &impl Abort,
    alloc: Global,
    table: T,
    reader: &mut R,
    row: &Row<'_>,
) {
    let (records, log_records, begins) = row.limits;
    let limits = Limits::new(records, log_records, begins).expect(rt, "no limits");
    let mut file = flaky_file(rt, alloc, table, limits, row.failing);
    let mut out = Vec::new(alloc);
    let end = feed_counted::<Brand, FlakyTable<T>, R, Vec<u8>>(
        alloc,
        reader,
        &mut out,
        &mut file,
        Blank::new(1),
    );
    let text = String::from_utf8(out).expect(rt, "no text");
    expect_named(rt, row.name, text.as_str(), row.replies);
    assert_eq!(rt; (row.name, end), (row.name, Ok(row.commands)));
}

/// Does so with all lines in one piece, and byte by byte.
fn expect_shells(rt: &impl Abort, alloc: Global, limits: Limits, row: &Row<'_>) {
    let mut whole = row.script.as_bytes();
    let table = SortedTable::new(alloc, limits);
    expect_shell(rt, alloc, table, &mut whole, row);
    let mut bytewise = Bytewise {
        left: row.script.as_bytes(),
    };
    let table = SortedTable::new(alloc, limits);
    expect_shell(rt, alloc, table, &mut bytewise, row);
}

/// Expects it over a sorted table, and over trees of the orders 1, 2 and 16; and of shells.
fn expect_row(rt: &impl Abort, alloc: Global, row: &Row<'_>) {
    let (records, log_records, begins) = row.limits;
    let limits = Limits::new(records, log_records, begins).expect(rt, "no limits");
    expect_over(rt, alloc, SortedTable::new(alloc, limits), row);
    expect_shells(rt, alloc, limits, row);
    for k in [1, 2, 16] {
        expect_over(rt, alloc, tree(rt, alloc, k, limits), row);
    }
}

/// Adds to a script or to its replies.
fn add(rt: &impl Abort, text: &mut String, more: &str) {
    text.push_str(more).expect(rt, "no memory");
}

/// A page that begins with these bytes.
fn page_with(bytes: &[u8; 25]) -> [u8; 4096] {
    let mut page = [0; 4096];
    page[..25].copy_from_slice(bytes);
    page
}

/// A page of order 1 with one key and its record.
fn page_of(kind: u8, key: u8, record: u8) -> [u8; 4096] {
    let mut page = [0; 4096];
    page[0] = kind;
    page[3] = 1;
    page[8] = 1;
    page[9] = key;
    page[25] = 1;
    page[26] = record;
    page
}

/// Where the number of the second son ends in a page of order 1, in a file of that version.
fn second_son(version: u8) -> usize
    ensures some { 4 ≤ result }
    ensures most { result < 4096 }
{
    if version == 1 { 115 } else { 251 }
}

/// The file of order 1 with the records x, y and z at the keys a, b and c, of that version.
fn three_records(version: u8) -> [[u8; 4096]; 4] {
    let mut header = page_with(
        b"BMKRFILE\x00\x00\x00\x01\x00\x00\x00\x04\x00\x00\x00\x03\x00\x00\x00\x03\x01",
    );
    header[9] = version;
    let mut root = page_of(2, b'b', b'y');
    let second = second_son(version);
    root[second - 4] = 1;
    root[second] = 2;
    [header, page_of(1, b'a', b'x'), page_of(1, b'c', b'z'), root]
}

/// A store with these pages, and a tail.
fn store_of(rt: &impl Abort, alloc: Global, pages: &[[u8; 4096]], tail: u16) -> MemStore {
    assert!(rt; tail <= 4095);
    let mut stored = Vec::new(alloc);
    if stored.reserve(pages.len()).is_err() {
        stored.reserve(pages.len()).expect(rt, "no memory");
    }
    for page in pages {
        stored.push(*page).expect(rt, "no memory");
    }
    MemStore::new(stored, tail)
}

/// Opens the store's file, of at most nine records.
fn open<S: Store>(rt: &impl Abort, alloc: Global, store: S) -> TreeTable<S> {
    match TreeTable::open_from(alloc, store, Limits::new(9, 2, 1).expect(rt, "no limits")) {
        Ok(table) => table,
        Err(stop) => panic!(rt; "{}", stop.fault),
    }
}
