ghost use Rattle.std.specs.Prelude.{◌≡◌, true};
ghost use Rattle.page_store.specs.CanStage.{CanStage};
ghost use Rattle.rec_types.specs.Table.{counted};

use file_system::HostSystem;
use page_store::{
    FetchFault, FileStore, FlakyStore, MemStore, PageEdit, Pages, Shape, Store, StoreFault,
    StoreState, WriteFault,
};
use rec_types::Memory;
use std::alloc::{AllocError, Global};
use std::collections::BTreeSet;
use std::path::PathBuf;
use std::process::Abort;
use std::{env, fs, io, process};
use thiserror::Error;

/// Why a row has no text: memory was refused, or a file.
#[derive(Debug, Drop, Error)]
pub(crate) enum Stop {
    #[error("out of memory")]
    Alloc(#[from(alloc)] AllocError),
    #[error("out of memory")]
    Memory(#[from] Memory),
    #[error("{0}")]
    Store(#[from] StoreFault),
    #[error("{0}")]
    File(#[from] io::Error),
}

fn filled(with: u8) -> [u8; 4096] {
    [with; 4096]
}

/// Counts one more, up to the greatest number.
fn count_up(n: &mut u64)
    ensures { n.new ≡ counted n.old true }
{
    if *n < u64::MAX {
        *n += 1;
    }
}

/// A store in memory of which one call answers Memory, where it is one of `set_pages`. The changing
/// calls are numbered from 1.
#[derive(Drop)]
struct ScarceStore {
    inner: MemStore,
    refused: u64,
    writes: u64,
}

impl StoreState for ScarceStore {
    ghost use Rattle.std.specs.Prelude.{None, true};
    ghost use Rattle.page_store.specs.Opening.{untold};
    ghost use Rattle.page_store.specs.Guards.{Unguarded};

    ghost pages = { λ s. s.inner.pages };

    ghost tail = { λ s. s.inner.tail };

    ghost steady = { λ _. true };

    ghost opening = { λ _. untold };

    ghost reads = { λ s. s.inner.reads };

    ghost shapes = { λ s. s.inner.shapes };

    ghost writes = { λ s. s.writes };

    ghost failures = { λ _. 0 };

    ghost journal = { λ _. None };

    ghost guard = { λ _. Unguarded };
}

impl Store for ScarceStore {
    fn shape(&mut self) -> Result<Shape, StoreFault> {
        self.inner.shape()
    }

    fn read(&mut self, n: u32, to: &mut [u8; 4096]) -> Result<(), StoreFault> {
        self.inner.read(n, to)
    }

    fn write(&mut self, n: u32, from: &[u8; 4096]) -> Result<(), StoreFault> {
        count_up(&mut self.writes);
        self.inner.write(n, from)
    }

    fn set_pages(&mut self, n: u32) -> Result<(), StoreFault> {
        count_up(&mut self.writes);
        if self.writes == self.refused {
            return Err(StoreFault::Memory);
        }
        self.inner.set_pages(n)
    }

    fn sync(&mut self) -> Result<(), StoreFault> {
        count_up(&mut self.writes);
        self.inner.sync()
    }
}

/// A call of a store, with the page and the byte that fills it.
#[derive(Clone, Copy)]
enum Call {
    Shape,
    Read(u32),
    Write(u32, u8),
    SetPages(u32),
    Sync,
}

fn word(answer: Result<(), StoreFault>) -> &'static str {
    match answer {
        Ok(()) => " ok",
        Err(StoreFault::Failed) => " failed",
        Err(StoreFault::Memory) => " memory",
    }
}

/// The byte that fills a page, or that there is none.
fn push_page(text: &mut String, page: &[u8; 4096]) -> Result<(), Stop> {
    if *page != filled(page[0]) {
        return Ok(text.push_str(" mixed")?);
    }
    Ok(write!(text, " {}", page[0])?)
}

/// Reads a page that is there into a page of 99s.
fn read_into<S: Store>(store: &mut S, n: u32, text: &mut String) -> Result<(), Stop> {
    let mut page = filled(99);
    match store.shape() {
        Ok(shape) if u64::from(n) < shape.pages => match store.read(n, &mut page) {
            Ok(()) => push_page(text, &page),
            Err(_) if page == filled(99) => Ok(text.push_str(" failed")?),
            Err(_) => Ok(text.push_str(" failed and changed")?),
        },
        _ => Ok(text.push_str(" none")?),
    }
}

fn write_there<S: Store>(store: &mut S, n: u32, with: u8) -> &'static str {
    match store.shape() {
        Ok(shape) if u64::from(n) < shape.pages => word(store.write(n, &filled(with))),
        _ => " none",
    }
}

fn lengthen<S: Store>(store: &mut S, n: u32) -> &'static str {
    match store.shape() {
        Ok(shape) if shape.pages <= u64::from(n) => word(store.set_pages(n)),
        _ => " shorter",
    }
}

fn push_shape<S: Store>(store: &mut S, text: &mut String) -> Result<(), Stop> {
    match store.shape() {
        Ok(shape) => Ok(write!(text, " {}+{}", shape.pages, shape.tail)?),
        Err(_) => Ok(text.push_str(" failed")?),
    }
}

/// Makes the calls, and writes their answers.
fn call_store<S: Store>(store: &mut S, calls: &[Call], text: &mut String) -> Result<(), Stop> {
    for call in calls {
        match *call {
            Call::Shape => push_shape(store, text)?,
            Call::Read(n) => read_into(store, n, text)?,
            Call::Write(n, with) => text.push_str(write_there(store, n, with))?,
            Call::SetPages(n) => text.push_str(lengthen(store, n))?,
            Call::Sync => text.push_str(word(store.sync()))?,
        }
    }
    Ok(())
}

/// A store of pages that are filled with these bytes, and which of its calls fail.
#[derive(Clone, Copy)]
struct Stored<'a> {
    pages: &'a [u8],
    tail: u16,
    failing_reads: &'a [u64],
    failing_writes: &'a [u64],
    refused: u64,
}

fn numbers(alloc: Global, list: &[u64]) -> Result<Vec<u64>, Stop> {
    let mut numbers = Vec::new(alloc);
    numbers.extend_from_slice(list)?;
    Ok(numbers)
}

fn opened(alloc: Global, stored: Stored) -> Result<FlakyStore<ScarceStore>, Stop> {
    let mut pages = Vec::new(alloc);
    for with in stored.pages {
        pages.push(filled(*with))?;
    }
    let store = ScarceStore {
        inner: MemStore::new(pages, stored.tail % 4096),
        refused: stored.refused,
        writes: 0,
    };
    let reads = numbers(alloc, stored.failing_reads)?;
    let writes = numbers(alloc, stored.failing_writes)?;
    Ok(FlakyStore::new(store, reads, writes))
}

/// The answers of these calls.
fn store_text(alloc: Global, stored: Stored, calls: &[Call]) -> Result<String, Stop> {
    let mut text = String::new(alloc);
    let mut store = opened(alloc, stored)?;
    call_store(&mut store, calls, &mut text)?;
    Ok(text)
}

/// Calls of a store, and their answers.
#[derive(Clone, Copy)]
struct StoreRow {
    stored: Stored<'static>,
    calls: &'static [Call],
    wanted: &'static str,
}

/// Whether this is the text.
fn is_text(found: &Result<String, Stop>, wanted: &str) -> bool {
    matches!(found, Ok(text) if text.as_str() == wanted)
}

/// Whether the calls give this text, at the second time where memory was refused at the first.
fn expect_store(rt: &impl Abort, alloc: Global, row: &StoreRow) {
    if is_text(&store_text(alloc, row.stored, row.calls), row.wanted) {
        return;
    }
    let again = store_text(alloc, row.stored, row.calls);
    assert!(rt; is_text(&again, row.wanted), "{}", row.wanted);
}

const TWO_PAGES: Stored<'static> = Stored {
    pages: &[1, 2],
    tail: 17,
    failing_reads: &[],
    failing_writes: &[],
    refused: 0,
};

const GOOD_CALLS: StoreRow = StoreRow {
    stored: TWO_PAGES,
    calls: &[
        Call::Shape,
        Call::Read(1),
        Call::Read(2),
        Call::SetPages(4),
        Call::Shape,
        Call::Read(3),
        Call::Write(3, 7),
        Call::Write(0, 5),
        Call::Sync,
        Call::Read(0),
        Call::Read(1),
        Call::Read(2),
        Call::Read(3),
    ],
    wanted: " 2+17 2 none ok 4+0 0 ok ok ok 5 2 0 7",
};

const FAILING_READS: StoreRow = StoreRow {
    stored: Stored {
        failing_reads: &[3, 1],
        ..TWO_PAGES
    },
    calls: &[
        Call::Write(0, 6),
        Call::Sync,
        Call::Read(0),
        Call::Read(1),
        Call::Read(0),
        Call::Shape,
        Call::Read(0),
    ],
    wanted: " ok ok failed 2 failed 2+17 6",
};

const FAILING_WRITES: StoreRow = StoreRow {
    stored: Stored {
        failing_writes: &[1, 4, 6],
        ..TWO_PAGES
    },
    calls: &[
        Call::SetPages(3),
        Call::Shape,
        Call::SetPages(3),
        Call::Write(1, 5),
        Call::Write(1, 6),
        Call::Read(1),
        Call::Sync,
        Call::Sync,
        Call::Write(1, 8),
        Call::Read(1),
        Call::Shape,
    ],
    wanted: " failed 2+17 ok ok failed 5 ok failed ok 8 3+0",
};

const REFUSED_MEMORY: StoreRow = StoreRow {
    stored: Stored {
        refused: 1,
        ..TWO_PAGES
    },
    calls: &[
        Call::SetPages(3),
        Call::Shape,
        Call::Read(1),
        Call::SetPages(3),
        Call::Shape,
    ],
    wanted: " memory 2+17 2 ok 3+0",
};

#[test]
fn calls_of_stores(rt: HostRuntime) {
    for row in [GOOD_CALLS, FAILING_READS, FAILING_WRITES, REFUSED_MEMORY] {
        expect_store(&rt, rt.alloc(), &row);
    }
}

/// A call of `Pages`, with the page and the byte that fills it.
#[derive(Clone, Copy)]
enum Step {
    Add(u8),
    Put(u32, u8),
    Free(u32),
    Nothing,
    Get(u32),
    Counts,
    WriteBack(u8, u8),
}

/// Puts an edit in place. Where memory was refused it looks that nothing changed.
fn staged<S: Store>(rt: &impl Abort, pages: &mut Pages<S>, edit: PageEdit) -> Result<(), Stop>
    requires { CanStage pages.old.pages edit.writes.items edit.taken edit.freed.items }
{
    let before = (pages.page_count(), pages.free_count(), pages.changed());
    let answer = pages.stage(edit);
    if answer.is_err() {
        assert_eq!(rt;
            (pages.page_count(), pages.free_count(), pages.changed()),
            before
        );
    }
    Ok(answer?)
}

/// Takes a page number and writes that page.
fn add_page<S: Store>(
    rt: &impl Abort,
    alloc: Global,
    pages: &mut Pages<S>,
    with: u8,
) -> Result<(), Stop> {
    assert!(rt; pages.page_count() < 1000);
    let n = pages.candidate(0);
    let mut writes = Vec::new(alloc);
    writes.push((n, filled(with)))?;
    let edit = PageEdit {
        writes,
        taken: 1,
        freed: Vec::new(alloc),
    };
    staged(rt, pages, edit)
}

/// Frees a page that is in use.
fn free_page<S: Store>(
    rt: &impl Abort,
    alloc: Global,
    pages: &mut Pages<S>,
    n: u32,
) -> Result<(), Stop> {
    assert!(rt; pages.page_count() < 1000);
    assert!(rt; pages.fetch(n, &mut filled(0)).is_ok());
    let mut freed = Vec::new(alloc);
    freed.push(n)?;
    let edit = PageEdit {
        writes: Vec::new(alloc),
        taken: 0,
        freed,
    };
    staged(rt, pages, edit)
}

/// Writes a page that is in use.
pub(crate) fn write_page<S: Store>(
    rt: &impl Abort,
    alloc: Global,
    pages: &mut Pages<S>,
    n: u32,
    with: u8,
) -> Result<(), Stop> {
    assert!(rt; pages.page_count() < 1000);
    assert!(rt; pages.fetch(n, &mut filled(0)).is_ok());
    let mut writes = Vec::new(alloc);
    writes.push((n, filled(with)))?;
    let edit = PageEdit {
        writes,
        taken: 0,
        freed: Vec::new(alloc),
    };
    staged(rt, pages, edit)
}

/// Stages an edit that writes and frees nothing.
fn stage_nothing<S: Store>(
    rt: &impl Abort,
    alloc: Global,
    pages: &mut Pages<S>,
) -> Result<(), Stop> {
    assert!(rt; pages.page_count() < 1000);
    let edit = PageEdit {
        writes: Vec::new(alloc),
        taken: 0,
        freed: Vec::new(alloc),
    };
    staged(rt, pages, edit)
}

/// Fetches into a page of 99s.
fn push_fetched<S: Store>(pages: &mut Pages<S>, n: u32, text: &mut String) -> Result<(), Stop> {
    let mut page = filled(99);
    match pages.fetch(n, &mut page) {
        Ok(()) => push_page(text, &page),
        Err(FetchFault::Device) => Ok(text.push_str(" device")?),
        Err(FetchFault::OutOfRange) if page == filled(99) => Ok(text.push_str(" out")?),
        Err(FetchFault::OutOfRange) => Ok(text.push_str(" out and changed")?),
    }
}

/// The page count, the free numbers, the first two candidates, and whether an edit was staged.
fn push_counts<S: Store>(pages: &Pages<S>, text: &mut String) -> Result<(), Stop> {
    let (count, free) = (pages.page_count(), pages.free_count());
    let (first, second) = (pages.candidate(0), pages.candidate(1));
    let changed = pages.changed();
    Ok(write!(text, " {count}-{free}:{first},{second}:{changed}")?)
}

fn written<S: Store>(pages: &mut Pages<S>, writing: u8, clean: u8) -> &'static str {
    match pages.write_back(&filled(writing), &filled(clean)) {
        Ok(()) => " written",
        Err(WriteFault::Device) => " device",
        Err(WriteFault::Memory) => " memory",
    }
}

/// Makes one step, and writes its answer.
fn push_step<S: Store>(
    rt: &impl Abort,
    alloc: Global,
    pages: &mut Pages<S>,
    step: Step,
    text: &mut String,
) -> Result<(), Stop> {
    match step {
        Step::Add(with) => add_page(rt, alloc, pages, with),
        Step::Put(n, with) => write_page(rt, alloc, pages, n, with),
        Step::Free(n) => free_page(rt, alloc, pages, n),
        Step::Nothing => stage_nothing(rt, alloc, pages),
        Step::Get(n) => push_fetched(pages, n, text),
        Step::Counts => push_counts(pages, text),
        Step::WriteBack(writing, clean) => Ok(text.push_str(written(pages, writing, clean))?),
    }
}

/// The pages of a store, all in use or the last one free.
pub(crate) fn pages_of<S: Store>(
    rt: &impl Abort,
    alloc: Global,
    mut store: S,
    last_free: bool,
) -> Result<Pages<S>, Stop> {
    let mut free = BTreeSet::new(alloc);
    let shape = store.shape()?;
    assert!(rt; 0 < shape.pages && shape.pages < 1000);
    let len = shape.pages as u32;
    if last_free {
        free.insert(len)?;
        return Ok(Pages::new(alloc, store, len + 1, free));
    }
    Ok(Pages::new(alloc, store, len, free))
}

/// Steps over a store, with all its pages in use or one more that is free; their answers, and what the store has in
/// the end.
#[derive(Clone, Copy)]
struct PagesRow<'a> {
    stored: Stored<'a>,
    last_free: bool,
    steps: &'a [Step],
    wanted: &'a str,
}

/// Makes the steps over the pages of a store, and writes their answers and what the store has in the end.
fn push_row<S: Store>(
    rt: &impl Abort,
    alloc: Global,
    store: S,
    row: &PagesRow<'_>,
    text: &mut String,
) -> Result<(), Stop> {
    let mut pages = pages_of(rt, alloc, store, row.last_free)?;
    for step in row.steps {
        push_step(rt, alloc, &mut pages, *step, text)?;
    }
    text.push_str(";")?;
    call_store(&mut pages.into_store(), &FOUR_PAGES, text)
}

fn pages_text(rt: &impl Abort, alloc: Global, row: &PagesRow<'_>) -> Result<String, Stop> {
    let mut text = String::new(alloc);
    push_row(rt, alloc, opened(alloc, row.stored)?, row, &mut text)?;
    Ok(text)
}

const FOUR_PAGES: [Call; 5] = [
    Call::Shape,
    Call::Read(0),
    Call::Read(1),
    Call::Read(2),
    Call::Read(3),
];

/// Whether the steps give this text, at the second time where memory was refused at the first.
fn expect_pages(rt: &impl Abort, alloc: Global, row: &PagesRow<'_>) {
    if is_text(&pages_text(rt, alloc, row), row.wanted) {
        return;
    }
    let again = pages_text(rt, alloc, row);
    assert!(rt; is_text(&again, row.wanted), "{}", row.wanted);
}

const ONE_PAGE: Stored<'static> = Stored {
    pages: &[9],
    tail: 3,
    failing_reads: &[],
    failing_writes: &[],
    refused: 0,
};

const TAKEN_AND_FREED: PagesRow<'static> = PagesRow {
    stored: ONE_PAGE,
    last_free: false,
    steps: &[
        Step::Counts,
        Step::Add(5),
        Step::Counts,
        Step::Get(1),
        Step::Get(2),
        Step::Get(0),
        Step::Free(1),
        Step::Counts,
        Step::Get(1),
    ],
    wanted: " 1-0:1,2:false 2-0:2,3:true 5 out out 2-1:1,2:true out; 1+3 9 none none none",
};

const NOTHING_STAGED: PagesRow<'static> = PagesRow {
    stored: ONE_PAGE,
    last_free: false,
    steps: &[Step::Nothing, Step::Counts],
    wanted: " 1-0:1,2:true; 1+3 9 none none none",
};

const STAGED_OVER_STORED: PagesRow<'static> = PagesRow {
    stored: Stored {
        pages: &[1, 2],
        failing_reads: &[3],
        ..ONE_PAGE
    },
    last_free: true,
    steps: &[
        Step::Get(1),
        Step::Get(2),
        Step::Get(1),
        Step::Get(1),
        Step::Get(1),
        Step::Put(1, 6),
        Step::Add(7),
        Step::Add(8),
        Step::Get(1),
        Step::Get(2),
        Step::Get(3),
        Step::Counts,
    ],
    wanted: " 2 out 2 device 2 6 7 8 4-0:4,5:true; 2+3 1 2 none none",
};

const WRITTEN_TWICE: PagesRow<'static> = PagesRow {
    stored: ONE_PAGE,
    last_free: false,
    steps: &[
        Step::Add(5),
        Step::Add(6),
        Step::Add(7),
        Step::Free(2),
        Step::WriteBack(100, 200),
        Step::Counts,
        Step::Put(3, 8),
        Step::Get(1),
        Step::WriteBack(101, 201),
        Step::Get(3),
    ],
    wanted: " written 4-1:2,4:false 5 written 8; 4+0 201 5 0 8",
};

const WRITTEN_ONCE_MORE: PagesRow<'static> = PagesRow {
    stored: Stored {
        refused: 1,
        ..ONE_PAGE
    },
    last_free: false,
    steps: &[
        Step::Add(5),
        Step::WriteBack(100, 200),
        Step::Counts,
        Step::Get(1),
        Step::WriteBack(101, 201),
        Step::Counts,
    ],
    wanted: " memory 2-0:2,3:true 5 written 2-0:2,3:false; 2+0 201 5 none none",
};

#[test]
fn steps_over_pages(rt: HostRuntime) {
    for row in [
        TAKEN_AND_FREED,
        NOTHING_STAGED,
        STAGED_OVER_STORED,
        WRITTEN_TWICE,
        WRITTEN_ONCE_MORE,
    ] {
        expect_pages(&rt, rt.alloc(), &row);
    }
}

const WRITES_ONCE: [Step; 5] = [
    Step::Add(5),
    Step::Add(6),
    Step::Add(7),
    Step::Free(2),
    Step::WriteBack(100, 200),
];

const WRITES_TWICE: [Step; 14] = [
    Step::Add(5),
    Step::Add(6),
    Step::Add(7),
    Step::Free(2),
    Step::WriteBack(100, 200),
    Step::Counts,
    Step::Get(1),
    Step::Get(2),
    Step::Get(3),
    Step::WriteBack(101, 201),
    Step::Counts,
    Step::Get(1),
    Step::Get(2),
    Step::Get(3),
];

/// Expects the text of these steps over one page, where the changing call of this number fails.
fn expect_failing<'a>(
    rt: &impl Abort,
    alloc: Global,
    failing: u64,
    steps: &'a [Step],
    wanted: &'a str,
) {
    let row = PagesRow {
        stored: Stored {
            failing_writes: &[failing],
            ..ONE_PAGE
        },
        last_free: false,
        steps,
        wanted,
    };
    expect_pages(rt, alloc, &row);
}

#[test]
fn a_writing_back_stops_where_a_call_fails(rt: HostRuntime) {
    for (failing, wanted) in [
        (1, " device; 1+3 9 none none none"),
        (2, " device; 4+0 9 0 0 0"),
        (3, " device; 4+0 100 0 0 0"),
        (4, " device; 4+0 100 0 0 0"),
        (5, " device; 4+0 100 5 0 0"),
        (6, " device; 4+0 100 5 0 7"),
        (7, " device; 4+0 100 5 0 7"),
        (8, " device; 4+0 200 5 0 7"),
        (9, " written; 4+0 200 5 0 7"),
    ] {
        expect_failing(&rt, rt.alloc(), failing, &WRITES_ONCE, wanted);
    }
    let wanted = " device 4-1:2,4:true 5 out 7 written 4-1:2,4:false 5 out 7; 4+0 201 5 0 7";
    for failing in 1..9 {
        expect_failing(&rt, rt.alloc(), failing, &WRITES_TWICE, wanted);
    }
}

/// A path of this test's own for files.
fn path_of(rt: &HostRuntime, name: &str) -> Result<PathBuf, Stop> {
    let name = format!(in rt.alloc(); "page_store_{}_{name}", process::id(rt.process()))?;
    Ok(env::temp_dir(rt)?.join(rt.alloc(), name.as_str())?)
}

/// The answers of these calls of the store in a file, which is then removed. A new file is asked for
/// twice, and one that isn't there is opened.
fn new_file_text(rt: &HostRuntime, name: &str, calls: &[Call]) -> Result<String, Stop> {
    let mut text = String::new(rt.alloc());
    if matches!(
        FileStore::open_path(&HostSystem::new(rt), name),
        Err(StoreFault::Failed)
    ) {
        text.push_str(" missing")?;
    }
    let mut store = FileStore::create_new(&HostSystem::new(rt), name)?;
    call_store(&mut store, calls, &mut text)?;
    drop(store);
    if matches!(
        FileStore::create_new(&HostSystem::new(rt), name),
        Err(StoreFault::Failed)
    ) {
        text.push_str(" there")?;
    }
    let mut store = FileStore::open_path(&HostSystem::new(rt), name)?;
    call_store(
        &mut store,
        &[Call::Shape, Call::Read(0), Call::Read(1)],
        &mut text,
    )?;
    Ok(text)
}

#[test]
fn a_file_of_two_pages(rt: HostRuntime) {
    let path = path_of(&rt, "two")
        .or_else(|_| path_of(&rt, "two"))
        .expect(&rt, "no memory");
    let name = path.as_path().to_str().expect(&rt, "no text");
    let calls = [
        Call::SetPages(2),
        Call::Write(0, 4),
        Call::Write(1, 5),
        Call::Sync,
        Call::Read(1),
    ];
    let wanted = " missing ok ok ok ok 5 there 2+0 4 5";
    let first = new_file_text(&rt, name, &calls);
    let _ = fs::remove_file(&rt, name);
    if is_text(&first, wanted) {
        return;
    }
    let again = new_file_text(&rt, name, &calls);
    let _ = fs::remove_file(&rt, name);
    assert!(rt; is_text(&again, wanted));
}

/// A file of one page and a tail: the answers of these calls, and what the file has then.
fn tail_text(rt: &HostRuntime, name: &str) -> Result<String, Stop> {
    let mut text = String::new(rt.alloc());
    fs::write(rt, name, [7; 5000].as_slice())?;
    let mut store = FileStore::open_path(&HostSystem::new(rt), name)?;
    call_store(
        &mut store,
        &[Call::Shape, Call::Write(0, 8), Call::Sync],
        &mut text,
    )?;
    drop(store);
    let bytes = fs::read(rt, name)?;
    let mut wanted = [7; 5000];
    wanted[..4096].copy_from_slice(&filled(8));
    if bytes.as_slice() == wanted.as_slice() {
        text.push_str(" kept")?;
    }
    let mut store = FileStore::open_path(&HostSystem::new(rt), name)?;
    call_store(
        &mut store,
        &[Call::SetPages(2), Call::Shape, Call::Read(1)],
        &mut text,
    )?;
    Ok(text)
}

#[test]
fn a_file_with_a_tail(rt: HostRuntime) {
    let path = path_of(&rt, "tail")
        .or_else(|_| path_of(&rt, "tail"))
        .expect(&rt, "no memory");
    let name = path.as_path().to_str().expect(&rt, "no text");
    let wanted = " 1+904 ok ok kept ok 2+0 0";
    let first = tail_text(&rt, name);
    if !is_text(&first, wanted) {
        let again = tail_text(&rt, name);
        assert!(rt; is_text(&again, wanted));
    }
    let _ = fs::remove_file(&rt, name);
}
