use super::{open, page_with, run, store_of, three_records};
use crate::expect_text;
use page_store::{MemStore, Shape, Store, StoreFault, StoreState};
use rec_types::{Limits, Table};
use record_file::RecordFile;
use std::alloc::Global;
use std::process::Abort;

/// A store that isn't steady: at one read it gives a page of its own, whatever was asked for.
#[derive(Drop)]
struct StrangeStore<S: Store> {
    inner: S,
    /// Which read that is, counted from 1.
    at: u32,
    page: [u8; 4096],
    reads: u32,
}

impl<S: Store> StoreState for StrangeStore<S> {
    ghost use Rattle.std.specs.Prelude.{false};

    ghost pages = { λ s. S.pages s.inner };

    ghost tail = { λ s. S.tail s.inner };

    ghost steady = { λ _. false };

    ghost opening = { λ s. S.opening s.inner };

    ghost reads = { λ s. S.reads s.inner };

    ghost shapes = { λ s. S.shapes s.inner };

    ghost writes = { λ s. S.writes s.inner };

    ghost failures = { λ s. S.failures s.inner };

    ghost journal = { λ s. S.journal s.inner };

    ghost guard = { λ s. S.guard s.inner };
}

impl<S: Store> Store for StrangeStore<S> {
    fn shape(&mut self) -> Result<Shape, StoreFault> {
        self.inner.shape()
    }

    fn read(&mut self, n: u32, to: &mut [u8; 4096]) -> Result<(), StoreFault> {
        let answer = self.inner.read(n, to);
        self.reads = self.reads.saturating_add(1);
        if self.reads == self.at {
            to.copy_from_slice(&self.page);
        }
        answer
    }

    fn write(&mut self, n: u32, page: &[u8; 4096]) -> Result<(), StoreFault> {
        self.inner.write(n, page)
    }

    fn set_pages(&mut self, n: u32) -> Result<(), StoreFault> {
        self.inner.set_pages(n)
    }

    fn sync(&mut self) -> Result<(), StoreFault> {
        self.inner.sync()
    }
}

/// A look-up, a change, a list and a deletion, each of which reads a leaf, and what takes them back. The list and the deletion
/// read the root too.
const SCRIPT: &str = "begin\nget 1 c\nput 1 a =w\nlist\ndel 1 c\nabort 1\nlist\n";

/// What the script answers over the table.
fn answers<T: Table>(rt: &impl Abort, alloc: Global, table: T) -> String {
    let limits = Limits::new(9, 99, 9).expect(rt, "no limits");
    assert!(rt; table.limit() == limits.records());
    let mut file = RecordFile::new(alloc, table, limits);
    run(rt, alloc, &mut file, SCRIPT).0
}

/// The same over three records in a store that gives the page at that read; opening makes the first four.
fn strange(rt: &impl Abort, alloc: Global, at: u32, page: &[u8; 4096]) -> String {
    let store: MemStore = store_of(rt, alloc, &three_records(2), 0);
    let table = open(
        rt,
        alloc,
        StrangeStore {
            inner: store,
            at,
            page: *page,
            reads: 0,
        },
    );
    answers(rt, alloc, table)
}

/// The replies of every read of the script at which the store gives the page, each read by a line.
fn all_strange(rt: &impl Abort, alloc: Global, page: &[u8; 4096]) -> String {
    let mut text = String::new(alloc);
    for at in 5..=11 {
        let replies = strange(rt, alloc, at, page);
        for line in replies.lines() {
            text.push_str(line).expect(rt, "no memory");
            text.push_str(";").expect(rt, "no memory");
        }
        text.push_str("\n").expect(rt, "no memory");
    }
    text
}

/// What is answered where a read gives zeros.
const OTHER_BYTES: &str = "\
ok 1;no Damaged 2;ok =x;- a =w @1;- b =y;- c =z;ok 3;ok =z;ok 2;- a =x;- b =y;- c =z;ok 3;\n\
ok 1;ok =z;no Damaged 1;- a =x;- b =y;- c =z;ok 3;ok =z;ok 1;- a =x;- b =y;- c =z;ok 3;\n\
ok 1;ok =z;ok =x;no Damaged 3;ok =z;ok 2;- a =x;- b =y;- c =z;ok 3;\n\
ok 1;ok =z;ok =x;no Damaged 2;ok =z;ok 2;- a =x;- b =y;- c =z;ok 3;\n\
ok 1;ok =z;ok =x;- a =w @1;- b =y;- c =z;ok 3;no Damaged 2;ok 1;- a =x;- b =y;- c =z;ok 3;\n\
ok 1;ok =z;ok =x;- a =w @1;- b =y;- c =z;ok 3;no Damaged 3;ok 1;- a =x;- b =y;- c =z;ok 3;\n\
ok 1;ok =z;ok =x;- a =w @1;- b =y;- c =z;ok 3;no Damaged 2;ok 1;- a =x;- b =y;- c =z;ok 3;\n";

#[test]
fn other_bytes_at_each_read(rt: HostRuntime) {
    let text = all_strange(&rt, rt.alloc(), &page_with(&[0; 25]));
    expect_text(&rt, text.as_str(), OTHER_BYTES);
}

/// Where it gives the first leaf in the place of another page.
const ANOTHER_PAGE: &str = "\
ok 1;no Damaged 2;ok =x;- a =w @1;- b =y;- c =z;ok 3;ok =z;ok 2;- a =x;- b =y;- c =z;ok 3;\n\
ok 1;ok =z;ok =x;- a =w @1;- b =y;- c =z;ok 3;ok =z;ok 2;- a =x;- b =y;- c =z;ok 3;\n\
ok 1;ok =z;ok =x;no Damaged 3;ok =z;ok 2;- a =x;- b =y;- c =z;ok 3;\n\
ok 1;ok =z;ok =x;no Damaged 2;ok =z;ok 2;- a =x;- b =y;- c =z;ok 3;\n\
ok 1;ok =z;ok =x;- a =w @1;- b =y;- c =z;ok 3;no Damaged 2;ok 1;- a =x;- b =y;- c =z;ok 3;\n\
ok 1;ok =z;ok =x;- a =w @1;- b =y;- c =z;ok 3;no Damaged 3;ok 1;- a =x;- b =y;- c =z;ok 3;\n\
ok 1;ok =z;ok =x;- a =w @1;- b =y;- c =z;ok 3;no Damaged 2;ok 1;- a =x;- b =y;- c =z;ok 3;\n";

#[test]
fn another_page_at_each_read(rt: HostRuntime) {
    let text = all_strange(&rt, rt.alloc(), &three_records(2)[1]);
    expect_text(&rt, text.as_str(), ANOTHER_PAGE);
}

/// Where it gives old bytes of the second leaf: a look, a list and a deletion that read it believe them.
const OLD_BYTES: &str = "\
ok 1;ok =q;ok =x;- a =w @1;- b =y;- c =z;ok 3;ok =z;ok 2;- a =x;- b =y;- c =z;ok 3;\n\
ok 1;ok =z;no Damaged 1;- a =x;- b =y;- c =z;ok 3;ok =z;ok 1;- a =x;- b =y;- c =z;ok 3;\n\
ok 1;ok =z;ok =x;no Damaged 3;ok =z;ok 2;- a =x;- b =y;- c =z;ok 3;\n\
ok 1;ok =z;ok =x;- a =w @1;- b =y;- c =q;ok 3;ok =z;ok 2;- a =x;- b =y;- c =z;ok 3;\n\
ok 1;ok =z;ok =x;- a =w @1;- b =y;- c =z;ok 3;ok =z;ok 2;- a =x;- b =y;- c =z;ok 3;\n\
ok 1;ok =z;ok =x;- a =w @1;- b =y;- c =z;ok 3;no Damaged 3;ok 1;- a =x;- b =y;- c =z;ok 3;\n\
ok 1;ok =z;ok =x;- a =w @1;- b =y;- c =z;ok 3;ok =q;ok 2;- a =x;- b =y;- c =q;ok 3;\n";

#[test]
fn old_bytes_at_each_read(rt: HostRuntime) {
    let mut old = three_records(2)[2];
    old[26] = b'q';
    let text = all_strange(&rt, rt.alloc(), &old);
    expect_text(&rt, text.as_str(), OLD_BYTES);
}
