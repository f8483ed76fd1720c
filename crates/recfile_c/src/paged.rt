// Files in pages that are handed in, from C.
ghost use Rattle.std.specs.Prelude.{◌≡◌, None, pos};
ghost use Rattle.rec_types.specs.Limits.{limits_of};
ghost use Rattle.recfile_c.specs.Opening.{IsOpened};
ghost use Rattle.recfile_c.specs.Outcomes.{just, memory};
ghost use Rattle.recfile_c.specs.Paged.{paged_file, OnImage, AddsPage, OpensFrom, CreatesOf, BecomesOpen, OpensImage, CreatesImage, TakesImage};
ghost use Rattle.recfile_c.specs.Answers.{IsStatusOf};

use crate::file_table::FileTable;
use crate::handle::RecFile;
use crate::held::{Held, Session};
use crate::journal::JournalStore;
use crate::outcome::{BAD_LENGTH, MEMORY, NOT_CLOSED, OK, Outcome};
use btree_delete::TreeTable;
use rec_types::{Limits, PAGE_WIDTH};
use record_file::RecordFile;
use std::alloc::Global;

// A session over a table in pages, in which nothing was begun.
fn session_over(alloc: Global, table: TreeTable<JournalStore>, limits: Limits) -> Held
    requires { table.limit ≡ limits.records }
    ensures { IsOpened (paged_file table limits) result }
{
    Held::Open(Session {
        file: RecordFile::new(alloc, FileTable::Paged(table), limits),
        entries: Vec::new(alloc),
        keys: Vec::new(alloc),
    })
}

// Opens a file of these pages. Faults: those of limits in their order, and then those of a file that is not opened.
fn open_pages(
    alloc: Global,
    pages: Vec<[u8; PAGE_WIDTH]>,
    records: u32,
    log_records: u32,
    begins: u32,
) -> Result<Held, Outcome>
    ensures { OpensFrom pages.items (limits_of records log_records begins) result }
{
    let limits = Limits::new(records, log_records, begins).map_err(Outcome::from)?;
    match TreeTable::open_from(alloc, JournalStore::new(alloc, pages), limits) {
        Ok(table) => Ok(session_over(alloc, table, limits)),
        Err(stop) => {
            // What this says is that no read failed.
            let _failures = stop.store.failures();
            Err(Outcome::from(stop.fault))
        }
    }
}

// Makes a file of an order. Faults: those of limits in their order, and BAD_ORDER.
fn create_pages(
    alloc: Global,
    order: u16,
    records: u32,
    log_records: u32,
    begins: u32,
) -> Result<Held, Outcome>
    ensures { CreatesOf order (limits_of records log_records begins) result }
{
    let limits = Limits::new(records, log_records, begins).map_err(Outcome::from)?;
    let store = JournalStore::new(alloc, Vec::new(alloc));
    match TreeTable::create(alloc, store, order, limits) {
        Ok(table) => Ok(session_over(alloc, table, limits)),
        Err(stop) => {
            let _failures = stop.store.failures();
            Err(Outcome::from(stop.fault))
        }
    }
}

// Takes out what lies behind a handle, or a file with no page; None, where that finds no memory.
fn take_image(alloc: Global, file: &mut RecFile) -> Option<Box<Held, Global>>
    ensures taken { TakesImage file.old.slot.value result }
    ensures after { file.new.slot.value ≡ None }
{
    match file.take(alloc) {
        Some(held) => Some(held),
        None => Box::new(alloc, Held::Image(Vec::new(alloc))).ok(),
    }
}

// Adds a page to those of a file that is to be opened. Faults: NOT_CLOSED, MEMORY.
fn add_page(held: &mut Held, page: &[u8; PAGE_WIDTH]) -> i32
    ensures { AddsPage page.now result held.old held.new }
{
    match held {
        Held::Image(pages) => match pages.push(*page) {
            Ok(()) => OK,
            Err(_) => MEMORY,
        },
        Held::Open(_) | Held::Unclosed(_) | Held::Closed(_) => NOT_CLOSED,
    }
}

/// Hands in the next page of a file that is to be opened, to a closed handle. Statuses: OK, NOT_CLOSED, MEMORY.
#[unsafe(no_mangle)]
pub extern "C" fn recfile_page(alloc: Global, file: &mut RecFile, page: &[u8; PAGE_WIDTH]) -> i32
    ensures { OnImage (result ≡ pos memory) file.old.slot.value file.new.slot.value
        (AddsPage page.now result) }
{
    let Some(mut held) = take_image(alloc, file) else {
        return MEMORY;
    };
    let status = add_page(&mut held, page);
    file.give(held);
    status
}

// Opens a file of these pages; where it is not opened, none is left.
fn opened_image(
    alloc: Global,
    pages: Vec<[u8; PAGE_WIDTH]>,
    records: u32,
    log_records: u32,
    begins: u32,
) -> (Held, Outcome)
    ensures { BecomesOpen (OpensFrom pages.items (limits_of records log_records begins)) result.1
        result.0 }
{
    match open_pages(alloc, pages, records, log_records, begins) {
        Ok(opened) => (opened, Outcome::just(OK)),
        Err(told) => (Held::Image(Vec::new(alloc)), told),
    }
}

// Opens a file of the pages that were handed in.
fn open_image(
    alloc: Global,
    held: &mut Held,
    records: u32,
    log_records: u32,
    begins: u32,
) -> Outcome
    ensures { OpensImage (limits_of records log_records begins) result held.old held.new }
{
    let (left, told) = match std::mem::replace(held, Held::Image(Vec::new(alloc))) {
        Held::Image(pages) => opened_image(alloc, pages, records, log_records, begins),
        Held::Open(session) => (Held::Open(session), Outcome::just(NOT_CLOSED)),
        Held::Unclosed(table) => (Held::Unclosed(table), Outcome::just(NOT_CLOSED)),
        Held::Closed(store) => (Held::Closed(store), Outcome::just(NOT_CLOSED)),
    };
    *held = left;
    told
}

/// Opens the file whose pages were handed in, every page in order; where it is not opened, the handle has none left.
/// Statuses: OK, NOT_CLOSED, BAD_RECORDS, BAD_LOG, BAD_BEGINS, then the first check that fails: BAD_LENGTH, BAD_MAGIC,
/// BAD_VERSION, BAD_ORDER, NOT_CLEAN, BAD_HEADER, DAMAGED, WRONG_COUNT, TOO_MANY_RECORDS; and MEMORY where it is met.
#[unsafe(no_mangle)]
pub extern "C" fn recfile_open(
    alloc: Global,
    file: &mut RecFile,
    records: u32,
    log_records: u32,
    begins: u32,
    detail: &mut Outcome,
) -> i32
    ensures step { OnImage (detail.new ≡ just memory) file.old.slot.value file.new.slot.value
        (OpensImage (limits_of records log_records begins) detail.new) }
    ensures status { IsStatusOf result detail.new }
{
    let Some(mut held) = take_image(alloc, file) else {
        *detail = Outcome::just(MEMORY);
        return MEMORY;
    };
    *detail = open_image(alloc, &mut held, records, log_records, begins);
    file.give(held);
    detail.status
}

// Makes a file of an order, where no page was handed in.
fn create_image(
    alloc: Global,
    held: &mut Held,
    order: u16,
    records: u32,
    log_records: u32,
    begins: u32,
) -> Outcome
    ensures { CreatesImage order (limits_of records log_records begins) result held.old held.new }
{
    match held {
        Held::Image(pages) => {
            if !pages.is_empty() {
                return Outcome::just(BAD_LENGTH);
            }
        }
        Held::Open(_) | Held::Unclosed(_) | Held::Closed(_) => return Outcome::just(NOT_CLOSED),
    }
    match create_pages(alloc, order, records, log_records, begins) {
        Ok(opened) => {
            *held = opened;
            Outcome::just(OK)
        }
        Err(told) => told,
    }
}

/// Makes a file of an order from 1 to 16, where no page was handed in. Statuses: OK, NOT_CLOSED, BAD_LENGTH where a page
/// was handed in, BAD_RECORDS, BAD_LOG, BAD_BEGINS, BAD_ORDER, MEMORY.
#[unsafe(no_mangle)]
pub extern "C" fn recfile_create(
    alloc: Global,
    file: &mut RecFile,
    order: u16,
    records: u32,
    log_records: u32,
    begins: u32,
    detail: &mut Outcome,
) -> i32
    ensures step { OnImage (detail.new ≡ just memory) file.old.slot.value file.new.slot.value
        (CreatesImage order (limits_of records log_records begins) detail.new) }
    ensures status { IsStatusOf result detail.new }
{
    let Some(mut held) = take_image(alloc, file) else {
        *detail = Outcome::just(MEMORY);
        return MEMORY;
    };
    *detail = create_image(alloc, &mut held, order, records, log_records, begins);
    file.give(held);
    detail.status
}
