use super::{open, page_with, second_son, store_of, three_records};
use btree_delete::{CloseStop, CreateFault, OpenFault, TreeTable};
use page_store::{FlakyStore, MemStore, Store, WriteFault};
use rec_types::Limits;
use std::alloc::Global;
use std::process::Abort;

/// How the file of three records of a version is changed: how many pages are left of it, with which tail,
/// and which byte of which page becomes what; and how many records there may be.
#[derive(Clone, Copy)]
struct Change {
    version: u8,
    pages: usize,
    tail: u16,
    page: usize,
    byte: usize,
    value: u8,
    records: u32,
}

/// Nothing is changed: the first byte of the file stays what it is.
const NOTHING: Change = Change {
    version: 2,
    pages: 4,
    tail: 0,
    page: 0,
    byte: 0,
    value: 0x42,
    records: 9,
};

/// Why the changed file isn't opened.
fn fault_of(rt: &impl Abort, alloc: Global, change: &Change) -> Option<OpenFault> {
    let mut pages = three_records(change.version);
    assert!(rt; change.pages <= 4 && change.page < 4 && change.byte < 4096);
    pages[change.page][change.byte] = change.value;
    let store = store_of(rt, alloc, &pages[..change.pages], change.tail);
    let limits = Limits::new(change.records, 2, 1).expect(rt, "no limits");
    match TreeTable::open_from(alloc, store, limits) {
        Ok(_) => None,
        Err(stop) => Some(stop.fault),
    }
}

/// Expects that of the changed file, at the second time where memory was refused at the first.
fn check_fault(rt: &impl Abort, alloc: Global, change: &Change, fault: Option<OpenFault>) {
    let mut told = fault_of(rt, alloc, change);
    if told == Some(OpenFault::Memory) {
        told = fault_of(rt, alloc, change);
    }
    let place = (
        change.version,
        change.pages,
        change.tail,
        change.page,
        change.byte,
    );
    assert_eq!(rt; (place, told), (place, fault));
}

/// The file is cut to so many pages and a tail.
fn cut(pages: usize, tail: u16) -> Change {
    Change {
        pages,
        tail,
        ..NOTHING
    }
}

/// One byte of a page becomes another.
fn byte(page: usize, byte: usize, value: u8) -> Change {
    Change {
        page,
        byte,
        value,
        ..NOTHING
    }
}

/// At most so many records.
fn records(records: u32) -> Change {
    Change { records, ..NOTHING }
}

/// Changes the file of three records of a version in one way after the other.
fn check_faults(rt: &impl Abort, alloc: Global, version: u8) {
    let son = second_son(version);
    check_fault(rt, alloc, &Change { version, ..NOTHING }, None);
    for (change, fault) in [
        (cut(0, 0), OpenFault::BadLength),
        (cut(0, 4095), OpenFault::BadLength),
        (cut(3, 4095), OpenFault::BadLength),
        (cut(3, 0), OpenFault::BadHeader),
        (byte(0, 0, 0), OpenFault::BadMagic),
        (byte(0, 9, 9), OpenFault::BadVersion(9)),
        (byte(0, 9, 3), OpenFault::BadVersion(3)),
        (byte(0, 11, 0), OpenFault::BadOrder),
        (byte(0, 11, 17), OpenFault::BadOrder),
        (byte(0, 24, 2), OpenFault::NotClean),
        (byte(0, 24, 3), OpenFault::BadHeader),
        (byte(0, 19, 4), OpenFault::BadHeader),
        (byte(0, 23, 4), OpenFault::WrongCount),
        (byte(1, 9, b'd'), OpenFault::Damaged(1)),
        (byte(1, 3, 0), OpenFault::Damaged(1)),
        (byte(2, 2000, 1), OpenFault::Damaged(2)),
        (byte(3, son, 3), OpenFault::Damaged(3)),
        (byte(3, son, 4), OpenFault::Damaged(3)),
        (records(2), OpenFault::TooManyRecords),
    ] {
        check_fault(rt, alloc, &Change { version, ..change }, Some(fault));
    }
}

#[test]
fn files_that_are_not_opened(rt: HostRuntime) {
    check_faults(&rt, rt.alloc(), 1);
    check_faults(&rt, rt.alloc(), 2)
}

/// Expects the header of a version before the pages of the other to be refused.
fn check_mixed(rt: &impl Abort, alloc: Global, version: u8, other: u8) {
    let change = Change {
        version,
        ..byte(0, 9, other)
    };
    check_fault(rt, alloc, &change, Some(OpenFault::Damaged(3)))
}

#[test]
fn a_header_of_another_version(rt: HostRuntime) {
    check_mixed(&rt, rt.alloc(), 1, 2);
    check_mixed(&rt, rt.alloc(), 2, 1)
}

/// Looks that two copies of the changed file are refused alike, and as is expected.
fn check_twice(rt: &impl Abort, alloc: Global, change: &Change, fault: Option<OpenFault>) {
    let one = fault_of(rt, alloc, change);
    let other = fault_of(rt, alloc, change);
    let place = (
        change.version,
        change.pages,
        change.tail,
        change.page,
        change.byte,
    );
    assert_eq!(rt; (place, one), (place, fault));
    assert_eq!(rt; (place, other), (place, fault));
}

/// Why the header of a version isn't read once this byte of it is turned into its complement.
fn fault_of_header(version: u8, byte: usize) -> OpenFault {
    match byte {
        0..8 => OpenFault::BadMagic,
        8 => OpenFault::BadVersion(0xff00 + u16::from(version)),
        9 => OpenFault::BadVersion(u16::from(!version)),
        10 | 11 => OpenFault::BadOrder,
        20..24 => OpenFault::WrongCount,
        _ => OpenFault::BadHeader,
    }
}

/// Why the file isn't opened once this byte is turned into its complement. A record may be any byte, and the last key
/// any greater one; the key in the root is then above the key on its right.
fn fault_of_byte(version: u8, page: usize, byte: usize) -> Option<OpenFault> {
    match (page, byte) {
        (0, _) => Some(fault_of_header(version, byte)),
        (_, 26) | (2, 9) => None,
        (1, _) => Some(OpenFault::Damaged(1)),
        (2, _) | (3, 9) => Some(OpenFault::Damaged(2)),
        _ => Some(OpenFault::Damaged(3)),
    }
}

/// Turns each of the first bytes of a page into its complement.
fn check_complements(rt: &impl Abort, alloc: Global, version: u8, page: usize, bytes: usize) {
    let pages = three_records(version);
    assert!(rt; page < 4 && bytes <= 4096);
    for place in 0..bytes {
        let change = Change {
            version,
            ..byte(page, place, !pages[page][place])
        };
        check_twice(rt, alloc, &change, fault_of_byte(version, page, place));
    }
}

#[test]
fn each_byte_of_the_header_and_the_root_is_turned(rt: HostRuntime) {
    check_complements(&rt, rt.alloc(), 2, 0, 4096);
    check_complements(&rt, rt.alloc(), 2, 3, 4096)
}

#[test]
fn each_byte_of_the_leaves_is_turned(rt: HostRuntime) {
    check_complements(&rt, rt.alloc(), 2, 1, 4096);
    check_complements(&rt, rt.alloc(), 2, 2, 4096)
}

#[test]
fn each_byte_of_an_old_header_and_root_is_turned(rt: HostRuntime) {
    check_complements(&rt, rt.alloc(), 1, 0, 4096);
    check_complements(&rt, rt.alloc(), 1, 3, 4096)
}

#[test]
fn each_byte_of_old_leaves_is_turned(rt: HostRuntime) {
    check_complements(&rt, rt.alloc(), 1, 1, 4096);
    check_complements(&rt, rt.alloc(), 1, 2, 4096)
}

/// Cuts the file of a version within a page, and before it.
fn check_cuts(rt: &impl Abort, alloc: Global, version: u8, pages: usize, most: u16) {
    for tail in 0..most {
        let fault = if tail == 0 && pages > 0 {
            OpenFault::BadHeader
        } else {
            OpenFault::BadLength
        };
        let change = Change {
            version,
            ..cut(pages, tail)
        };
        check_twice(rt, alloc, &change, Some(fault));
    }
}

#[test]
fn a_file_is_cut_to_each_length(rt: HostRuntime) {
    for pages in 0..4 {
        check_cuts(&rt, rt.alloc(), 1, pages, 4096);
        check_cuts(&rt, rt.alloc(), 2, pages, 4096);
    }
}

/// What a table says of its tree: order, height, pages used, pages, free pages.
fn numbers_of<S: Store>(table: &TreeTable<S>) -> (u16, u32, u32, u32, u32) {
    (
        table.order(),
        table.height(),
        table.pages_used(),
        table.page_count(),
        table.free_count(),
    )
}

/// Opens a file and closes it: its pages then.
fn closed(rt: &impl Abort, alloc: Global, pages: &[[u8; 4096]]) -> MemStore {
    match open(rt, alloc, store_of(rt, alloc, pages, 0)).close() {
        Ok(store) => store,
        Err(stop) => panic!(rt; "{}", stop.fault),
    }
}

#[test]
fn a_file_is_opened_and_closed(rt: HostRuntime) {
    for version in [1, 2] {
        let pages = three_records(version);
        let table = open(&rt, rt.alloc(), store_of(&rt, rt.alloc(), &pages, 0));
        assert_eq!(rt; numbers_of(&table), (1, 2, 3, 4, 0));
        let store = closed(&rt, rt.alloc(), &pages);
        assert!(rt; store.pages() == three_records(2).as_slice());
    }
}

/// The page of a file of order 2 without records, of a version.
fn empty_file(version: u8) -> [u8; 4096] {
    let mut page = page_with(
        b"BMKRFILE\x00\x00\x00\x02\x00\x00\x00\x01\x00\x00\x00\x00\x00\x00\x00\x00\x01",
    );
    page[9] = version;
    page
}

#[test]
fn an_empty_file_is_opened_and_closed(rt: HostRuntime) {
    for version in [1, 2] {
        let store = closed(&rt, rt.alloc(), &[empty_file(version)]);
        assert!(rt; store.pages() == [empty_file(2)].as_slice());
    }
}

/// A store with these pages that fails at the read and at the change of these numbers.
fn failing_at(
    rt: &impl Abort,
    alloc: Global,
    pages: &[[u8; 4096]],
    read: u64,
    change: u64,
) -> FlakyStore<MemStore> {
    let [mut reads, mut changes] = [Vec::new(alloc), Vec::new(alloc)];
    if reads.push(read).is_err() {
        reads.push(read).expect(rt, "no memory");
    }
    if changes.push(change).is_err() {
        changes.push(change).expect(rt, "no memory");
    }
    FlakyStore::new(store_of(rt, alloc, pages, 0), reads, changes)
}

/// Why a file isn't opened where the read of a number fails.
fn fault_of_read(rt: &impl Abort, alloc: Global, version: u8, read: u64) -> Option<OpenFault> {
    let store = failing_at(rt, alloc, &three_records(version), read, 0);
    let limits = Limits::new(9, 2, 1).expect(rt, "no limits");
    match TreeTable::open_from(alloc, store, limits) {
        Ok(_) => None,
        Err(stop) => Some(stop.fault),
    }
}

// Page 0 and the three pages of the tree are read, each once.
#[test]
fn each_read_of_an_opening_fails(rt: HostRuntime) {
    for version in [1, 2] {
        for read in 1..5u64 {
            let fault = fault_of_read(&rt, rt.alloc(), version, read);
            assert_eq!(rt;
                (version, read, fault),
                (version, read, Some(OpenFault::Device))
            );
        }
        assert_eq!(rt; fault_of_read(&rt, rt.alloc(), version, 5), None);
    }
}

#[test]
fn a_table_is_made_and_closed(rt: HostRuntime) {
    let store = store_of(&rt, rt.alloc(), &[], 0);
    let limits = Limits::new(9, 2, 1).expect(&rt, "no limits");
    let Ok(table) = TreeTable::create(rt.alloc(), store, 2, limits) else {
        panic!(rt; "no answer");
    };
    assert_eq!(rt; numbers_of(&table), (2, 0, 0, 1, 0));
    let Ok(store) = table.close() else {
        panic!(rt; "no answer");
    };
    assert!(rt; store.pages() == [empty_file(2)].as_slice());
    assert_eq!(rt; numbers_of(&open(&rt, rt.alloc(), store)), (2, 0, 0, 1, 0));
}

/// Looks that no table of the order is made in a store with so many pages and that tail.
fn check_create(
    rt: &impl Abort,
    alloc: Global,
    order: u16,
    pages: usize,
    tail: u16,
    fault: CreateFault,
) {
    assert!(rt; pages <= 4);
    let store = store_of(rt, alloc, &three_records(2)[..pages], tail);
    match TreeTable::create(
        alloc,
        store,
        order,
        Limits::new(9, 2, 1).expect(rt, "no limits"),
    ) {
        Ok(_) => panic!(rt; "a table was made"),
        Err(stop) => {
            assert!(rt; stop.fault == fault);
            assert_eq!(rt; stop.store.pages().len(), pages);
        }
    }
}

#[test]
fn no_table_is_made(rt: HostRuntime) {
    check_create(&rt, rt.alloc(), 0, 0, 0, CreateFault::BadOrder);
    check_create(&rt, rt.alloc(), 17, 1, 0, CreateFault::BadOrder);
    check_create(&rt, rt.alloc(), 16, 1, 0, CreateFault::NotEmpty);
    check_create(&rt, rt.alloc(), 1, 0, 1, CreateFault::NotEmpty)
}

/// Page n of a store.
fn page_in<S: Store>(rt: &impl Abort, store: &mut S, n: u32) -> [u8; 4096] {
    let mut page = empty_file(0);
    match store.shape() {
        Ok(shape) if u64::from(n) < shape.pages => match store.read(n, &mut page) {
            Ok(()) => page,
            Err(_) => panic!(rt; "page {n} isn't read"),
        },
        _ => panic!(rt; "there is no page {n}"),
    }
}

/// Looks that a table that was not closed is closed by a second call, and leaves these pages.
fn check_second_close<S: Store>(rt: &impl Abort, stop: CloseStop<S>, pages: &[[u8; 4096]]) {
    assert!(rt; stop.fault == WriteFault::Device && pages.len() <= 4);
    match stop.table.close() {
        Ok(mut store) => {
            for n in 0..pages.len() {
                assert!(rt; page_in(rt, &mut store, n as u32) == pages[n]);
            }
        }
        Err(stop) => panic!(rt; "{}", stop.fault),
    }
}

/// Does so with a table at which the first close fails.
fn check_close<S: Store>(rt: &impl Abort, table: TreeTable<S>, pages: &[[u8; 4096]]) {
    match table.close() {
        Ok(_) => panic!(rt; "a call that failed was not told"),
        Err(stop) => check_second_close(rt, stop, pages),
    }
}

/// A new table of order 2 in a store without pages.
fn made<S: Store>(rt: &impl Abort, alloc: Global, store: S) -> TreeTable<S> {
    let limits = Limits::new(9, 2, 1).expect(rt, "no limits");
    match TreeTable::create(alloc, store, 2, limits) {
        Ok(table) => table,
        Err(stop) => panic!(rt; "{}", stop.fault),
    }
}

#[test]
fn a_table_is_closed_again(rt: HostRuntime) {
    for change in 1..7u64 {
        let store = failing_at(&rt, rt.alloc(), &[], 0, change);
        check_close(&rt, made(&rt, rt.alloc(), store), &[empty_file(2)]);
    }
}

// The file of the first version is changed by nine calls, of which each fails in turn.
#[test]
fn a_file_of_the_first_version_is_closed_again(rt: HostRuntime) {
    for change in 1..10u64 {
        let store = failing_at(&rt, rt.alloc(), &three_records(1), 0, change);
        check_close(&rt, open(&rt, rt.alloc(), store), &three_records(2));
    }
}
