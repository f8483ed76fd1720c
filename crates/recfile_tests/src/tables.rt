use crate::expect_text;
use btree_delete::{CloseStop, OpenFault, TreeTable};
use btree_node::decode;
use page_store::{FlakyStore, MemStore, Store, WriteFault};
use rec_types::{Key, Limits, Record, SortedTable, Table, TableFault};
use std::alloc::Global;
use std::process::Abort;

/// A store without pages.
fn no_pages(alloc: Global) -> MemStore {
    MemStore::new(Vec::new(alloc), 0)
}

/// A new table of the order in the store, for so many records.
fn make<S: Store>(
    rt: &impl Abort,
    alloc: Global,
    store: S,
    order: u16,
    records: u32,
) -> TreeTable<S> {
    match TreeTable::create(
        alloc,
        store,
        order,
        Limits::new(records, 2, 1).expect(rt, "no limits"),
    ) {
        Ok(table) => table,
        Err(stop) => panic!(rt; "{}", stop.fault),
    }
}

/// Opens the store's file, of at most so many records, once more where memory was refused.
fn open<S: Store>(rt: &impl Abort, alloc: Global, store: S, records: u32) -> TreeTable<S> {
    let limits = Limits::new(records, 2, 1).expect(rt, "no limits");
    match TreeTable::open_from(alloc, store, limits) {
        Ok(table) => table,
        Err(stop) if stop.fault == OpenFault::Memory => {
            match TreeTable::open_from(alloc, stop.store, limits) {
                Ok(table) => table,
                Err(stop) => panic!(rt; "{}", stop.fault),
            }
        }
        Err(stop) => panic!(rt; "{}", stop.fault),
    }
}

/// Closes a table, whose store does not fail.
fn close<S: Store>(rt: &impl Abort, table: TreeTable<S>) -> S {
    match table.close() {
        Ok(store) => store,
        Err(CloseStop { table, .. }) => match table.close() {
            Ok(store) => store,
            Err(stop) => panic!(rt; "{}", stop.fault),
        },
    }
}

/// Sets, once more where memory was refused.
fn set<T: Table>(
    table: &mut T,
    key: Key,
    to: Option<Record>,
) -> Result<Option<Record>, TableFault> {
    match table.set(key, to.as_ref().copied()) {
        Err(TableFault::Memory) => table.set(key, to),
        answer => answer,
    }
}

/// Puts a record that is the key at each small letter, and takes each great letter's small one out.
fn run<T: Table>(rt: &impl Abort, table: &mut T, steps: &[u8]) {
    for step in steps {
        let letter = step.to_ascii_lowercase();
        let record = Record::new(&[letter]).expect(rt, "no record");
        let taken = step.is_ascii_uppercase();
        let to = if taken { None } else { Some(record) };
        let before = set(table, Key::new(&[letter]).expect(rt, "no key"), to).expect(
            rt,
            "no answer",
        );
        assert!(rt; before.is_some() == taken);
    }
}

/// Appends the number of the son at this place, where there is one.
fn push_son(rt: &impl Abort, text: &mut String, sons: &[u32], place: usize) {
    if let Some(son) = sons.get(place) {
        write!(text, "{son}").expect(rt, "no memory");
    }
}

/// What a page spells: its keys, with the numbers of the sons around each in an inner one. A page that
/// spells nothing is empty.
fn push_page(rt: &impl Abort, text: &mut String, page: &[u8; 4096], order: u16) {
    assert!(rt; 1 <= order && order <= 16);
    let Ok(node) = decode(page, order) else {
        return;
    };
    push_son(rt, text, node.sons.as_slice(), 0);
    for (i, (key, record)) in node.elements.as_slice().iter().enumerate() {
        assert!(rt; key.bytes() == record.bytes());
        text.push(key.bytes()[0] as char).expect(rt, "no memory");
        push_son(rt, text, node.sons.as_slice(), i + 1);
    }
}

/// Looks at the pages of a file: its root and its count, and what each page but the header spells.
fn expect_pages(
    rt: &impl Abort,
    alloc: Global,
    stored: &[[u8; 4096]],
    order: u16,
    root: u8,
    count: u8,
    pages: &str,
) {
    assert!(rt; !stored.is_empty());
    assert!(rt; stored[0][19] == root && stored[0][23] == count);
    let mut text = String::new(alloc);
    for page in &stored[1..] {
        push_page(rt, &mut text, page, order);
        text.push(' ').expect(rt, "no memory");
    }
    expect_text(rt, text.as_str(), pages);
}

/// Does so with the file of a new table after these steps.
fn check_steps(
    rt: &impl Abort,
    alloc: Global,
    order: u16,
    steps: &[u8],
    root: u8,
    count: u8,
    pages: &str,
) {
    let mut table = make(rt, alloc, no_pages(alloc), order, 26);
    run(rt, &mut table, steps);
    let store = close(rt, table);
    expect_pages(rt, alloc, store.pages(), order, root, count, pages);
    open(rt, alloc, store, 26);
}

#[test]
fn pages_are_split_levelled_and_catenated(rt: HostRuntime) {
    for (order, steps, root, count, pages) in [
        (1, b"ab".as_slice(), 1, 2, "ab "),
        (1, b"abc".as_slice(), 3, 3, "a c 1b2 "),
        (1, b"abcCBA".as_slice(), 0, 0, "   "),
        (2, b"abcdefg".as_slice(), 3, 7, "ab defg 1c2 "),
        (2, b"abcdefgA".as_slice(), 3, 6, "bc efg 1d2 "),
        (2, b"abcdefgAC".as_slice(), 3, 5, "bd fg 1e2 "),
        (2, b"abcdefgACB".as_slice(), 1, 4, "defg   "),
        (2, b"abcdefgACBbcaGFEDCBA".as_slice(), 0, 0, "   "),
        (2, b"abcde".as_slice(), 3, 5, "ab de 1c2 "),
        (2, b"abcdeC".as_slice(), 1, 4, "abde   "),
    ] {
        check_steps(&rt, rt.alloc(), order, steps, root, count, pages);
    }
}

/// A key and its record, of two bytes.
fn numbered(rt: &impl Abort, n: u16) -> (Key, Record) {
    let bytes = n.to_be_bytes();
    (
        Key::new(&bytes).expect(rt, "no key"),
        Record::new(&bytes).expect(rt, "no record"),
    )
}

/// Puts 200 records, in an order of their own.
fn put_all<T: Table>(rt: &impl Abort, table: &mut T) {
    for n in 0..200u16 {
        let (key, record) = numbered(rt, n * 7 % 200);
        set(table, key, Some(record)).expect(rt, "no answer");
    }
}

/// Takes a hundred of them out, in steps of a width from a step on, and looks at what is left.
fn take_half<T: Table>(rt: &impl Abort, table: &mut T, from: u16, step: u16) {
    assert!(rt; from <= 100 && step < 200);
    for n in from..from + 100 {
        let (key, record) = numbered(rt, n * step % 200);
        let taken = set(table, key, None).expect(rt, "no answer");
        assert!(rt; taken == Some(record));
    }
    let left = table.entries().expect(rt, "no entries");
    assert!(rt; left.len() == 100 - from as usize && table.count() == 100 - u32::from(from));
    let left = left.as_slice();
    for i in 1..left.len() {
        assert!(rt; left[i - 1].0 < left[i].0 && left[i].0.bytes() == left[i].1.bytes());
    }
}

/// Does so with pages in memory, and then with pages in the store.
fn take_all(rt: &impl Abort, alloc: Global, order: u16, step: u16) {
    let mut table = make(rt, alloc, no_pages(alloc), order, 200);
    put_all(rt, &mut table);
    take_half(rt, &mut table, 0, step);
    let mut table = open(rt, alloc, close(rt, table), 200);
    take_half(rt, &mut table, 100, step);
    open(rt, alloc, close(rt, table), 200);
}

// In ascending, in descending and in a shuffled order.
#[test]
fn all_keys_go_from_a_table(rt: HostRuntime) {
    for (order, step) in [
        (1, 1),
        (1, 199),
        (1, 77),
        (2, 1),
        (2, 199),
        (2, 77),
        (3, 77),
        (16, 77),
    ] {
        take_all(&rt, rt.alloc(), order, step);
    }
}

/// A page of order 1 with one key and its record, and these sons.
fn page_of(kind: u8, key: u8, record: u8, left: u8, right: u8) -> [u8; 4096] {
    let mut page = [0; 4096];
    page[0] = kind;
    page[3] = 1;
    page[8] = 1;
    page[9] = key;
    page[25] = 1;
    page[26] = record;
    page[247] = left;
    page[251] = right;
    page
}

/// The header page of the file of order 1 with the records x, y and z at the keys a, b and c.
fn header_of_three() -> [u8; 4096] {
    let mut page = [0; 4096];
    page[..25].copy_from_slice(
        b"BMKRFILE\x00\x02\x00\x01\x00\x00\x00\x04\x00\x00\x00\x03\x00\x00\x00\x03\x01",
    );
    page
}

/// Its pages.
fn pages_of_three() -> [[u8; 4096]; 4] {
    [
        header_of_three(),
        page_of(1, b'a', b'x', 0, 0),
        page_of(1, b'c', b'z', 0, 0),
        page_of(2, b'b', b'y', 1, 2),
    ]
}

/// Puts its records.
fn set_three<T: Table>(rt: &impl Abort, table: &mut T) {
    for (key, record) in [(b"a", b"x"), (b"b", b"y"), (b"c", b"z")] {
        set(
            table,
            Key::new(key).expect(rt, "no key"),
            Some(Record::new(record).expect(rt, "no record")),
        )
        .expect(rt, "no answer");
    }
}

/// Looks that the table has z at the key c, and no room for another key.
fn check_full<T: Table>(rt: &impl Abort, table: &mut T) {
    assert!(rt;
        table
            .get(&Key::new(b"c").expect(rt, "no key"))
            .expect(rt, "no answer")
            == Some(Record::new(b"z").expect(rt, "no record"))
    );
    let answer = set(
        table,
        Key::new(b"d").expect(rt, "no key"),
        Some(Record::new(b"w").expect(rt, "no record")),
    );
    assert!(rt; answer == Err(TableFault::NoRoom));
}

#[test]
fn the_file_of_three_records(rt: HostRuntime) {
    let mut table = make(&rt, rt.alloc(), no_pages(rt.alloc()), 1, 3);
    set_three(&rt, &mut table);
    let store = close(&rt, table);
    assert!(rt; store.pages() == pages_of_three().as_slice());
    let mut table = open(&rt, rt.alloc(), store, 3);
    check_full(&rt, &mut table);
    assert!(rt; close(&rt, table).pages() == pages_of_three().as_slice());
}

/// Looks that a table of one record that was not closed has it still, and that a second close leaves a file that has it.
fn check_second_close<S: Store>(rt: &impl Abort, alloc: Global, stop: CloseStop<S>) {
    assert!(rt; stop.fault == WriteFault::Device && stop.table.count() == 1);
    let mut table = open(rt, alloc, close(rt, stop.table), 9);
    assert!(rt;
        table
            .get(&Key::new(b"a").expect(rt, "no key"))
            .expect(rt, "no answer")
            == Some(Record::new(b"a").expect(rt, "no record"))
    );
}

/// Does so with a new table in the store, at which the first close fails.
fn check_close<S: Store>(rt: &impl Abort, alloc: Global, store: S) {
    let mut table = make(rt, alloc, store, 1, 9);
    run(rt, &mut table, b"a");
    match table.close() {
        Ok(_) => panic!(rt; "a call that failed was not told"),
        Err(stop) => check_second_close(rt, alloc, stop),
    }
}

/// A store without pages that fails at the call of this number.
fn failing_at(rt: &impl Abort, alloc: Global, call: u64) -> FlakyStore<MemStore> {
    let mut writes = Vec::new(alloc);
    if writes.push(call).is_err() {
        writes.push(call).expect(rt, "no memory");
    }
    FlakyStore::new(no_pages(alloc), Vec::new(alloc), writes)
}

#[test]
fn a_table_with_a_record_is_closed_again(rt: HostRuntime) {
    for call in 1..8u64 {
        check_close(&rt, rt.alloc(), failing_at(&rt, rt.alloc(), call));
    }
}

/// The key number i of a shuffle of 41.
fn key_of(i: u32, factor: u32) -> [u8; 1] {
    [33 + (u64::from(i) * u64::from(factor) % 41) as u8]
}

/// One change in the table and in another.
fn set_both<T: Table, U: Table>(
    rt: &impl Abort,
    table: &mut T,
    other: &mut U,
    key: &[u8],
    to: Option<Record>,
) {
    let before = set(
        table,
        Key::new(key).expect(rt, "no key"),
        to.as_ref().copied(),
    )
    .expect(rt, "no answer");
    let expected = set(other, Key::new(key).expect(rt, "no key"), to).expect(rt, "no answer");
    assert!(rt; before == expected);
}

/// Looks that the table has the records of another.
fn check_same<T: Table, U: Table>(rt: &impl Abort, table: &mut T, other: &mut U) {
    assert!(rt; table.count() == other.count());
    assert!(rt; table.entries().expect(rt, "no answer") == other.entries().expect(rt, "no answer"));
}

/// One change in the table and in a sorted one. The table's file is opened again after it, which looks
/// at every page, and then has the records of the sorted one.
fn change_both<S: Store>(
    rt: &impl Abort,
    alloc: Global,
    table: TreeTable<S>,
    sorted: &mut SortedTable,
    key: &[u8],
    to: Option<Record>,
) -> TreeTable<S> {
    let mut table = table;
    set_both(rt, &mut table, sorted, key, to);
    let mut table = open(rt, alloc, close(rt, table), 41);
    check_same(rt, &mut table, sorted);
    table
}

/// All keys are put in one shuffled order and taken out in another.
fn check_shuffled(rt: &impl Abort, alloc: Global, order: u16) {
    let mut table = make(rt, alloc, no_pages(alloc), order, 41);
    let mut sorted = SortedTable::new(alloc, Limits::new(41, 2, 1).expect(rt, "no limits"));
    for i in 0..41u32 {
        let key = key_of(i, 16);
        table = change_both(
            rt,
            alloc,
            table,
            &mut sorted,
            &key,
            Some(Record::new(&key).expect(rt, "no record")),
        );
    }
    for i in 0..41u32 {
        table = change_both(rt, alloc, table, &mut sorted, &key_of(i, 26), None);
    }
    assert!(rt; table.count() == 0 && table.height() == 0);
}

#[test]
fn all_keys_go_in_and_out(rt: HostRuntime) {
    for order in [1, 2, 3, 16] {
        check_shuffled(&rt, rt.alloc(), order);
    }
}
