// Closing a file, and what is then to be done to it, from C.
ghost use Rattle.std.specs.Prelude.{◌≡◌, ◌≢◌, ◌⊎◌, pos};
ghost use Rattle.std.specs.FinMap as maps;
ghost use Rattle.recfile_c.specs.Shown.{no_step};
ghost use Rattle.recfile_c.specs.Outcomes.{just, closed, still_open_by};
ghost use Rattle.recfile_c.specs.Paged.{OnHeld, Closes, ClosesKind, ClosesTable, CountsSteps, StepAt};
ghost use Rattle.recfile_c.specs.declared.held.Held.TheVariants.{Open};
ghost use Rattle.recfile_c.specs.Answers.{IsStatusOf};

use crate::file_table::FileTable;
use crate::handle::RecFile;
use crate::held::{Held, Session};
use crate::journal::JournalStore;
use crate::outcome::{CLOSED, MEMORY, NO_SUCH_ENTRY, NOT_CLOSED, OK, Outcome};
use crate::shown::StepShown;
use btree_delete::TreeTable;
use rec_types::PAGE_WIDTH;
use record_file::StillOpen;
use std::alloc::Global;

// Closes a table in pages. Fault: MEMORY, and the table is kept.
fn close_table(table: TreeTable<JournalStore>) -> (Held, Outcome)
    ensures { ClosesTable result.1 table result.0 }
{
    match table.close() {
        Ok(store) => (Held::Closed(store), Outcome::just(OK)),
        Err(stop) => (Held::Unclosed(stop.table), Outcome::just(MEMORY)),
    }
}

// Closes a table of either kind.
fn close_kind(alloc: Global, table: FileTable) -> (Held, Outcome)
    ensures { ClosesKind result.1 table result.0 }
{
    match table {
        FileTable::Memory(_) => {
            let nothing = JournalStore::new(alloc, Vec::new(alloc));
            (Held::Closed(nothing), Outcome::just(OK))
        }
        FileTable::Paged(table) => close_table(table),
    }
}

// Closes an open file.
fn close_session(alloc: Global, session: Session) -> (Held, Outcome)
    ensures { ((maps.len session.file.file.txs ≡ 0)
        × ClosesKind result.1 session.file.table result.0)
        ⊎ ((maps.len session.file.file.txs ≢ 0)
        × (result.1 ≡ still_open_by (maps.len session.file.file.txs)) × (result.0 ≡ Open session)) }
{
    let Session {
        file,
        entries,
        keys,
    } = session;
    match file.into_table() {
        Ok(table) => close_kind(alloc, table),
        Err(StillOpen { file, count }) => {
            let session = Session {
                file,
                entries,
                keys,
            };
            (Held::Open(session), Outcome::still_open(count))
        }
    }
}

// Closes what lies behind a handle. Faults: CLOSED, STILL_OPEN, MEMORY.
fn close(alloc: Global, held: &mut Held) -> Outcome
    ensures { Closes result held.old held.new }
{
    let (left, told) = match std::mem::replace(held, Held::Image(Vec::new(alloc))) {
        Held::Open(session) => close_session(alloc, session),
        Held::Unclosed(table) => close_table(table),
        Held::Image(pages) => (Held::Image(pages), Outcome::just(CLOSED)),
        Held::Closed(store) => (Held::Closed(store), Outcome::just(CLOSED)),
    };
    *held = left;
    told
}

/// Closes a file of which every transaction has ended; the steps are then to be carried out. Statuses: OK, CLOSED,
/// STILL_OPEN with the number of open transactions in `left`, MEMORY, after which the file can only be closed again.
#[unsafe(no_mangle)]
pub extern "C" fn recfile_close(alloc: Global, file: &mut RecFile, detail: &mut Outcome) -> i32
    ensures step { OnHeld (detail.new ≡ just closed) file.old.slot.value file.new.slot.value
        (Closes detail.new) }
    ensures status { IsStatusOf result detail.new }
{
    let Some(mut held) = file.take(alloc) else {
        *detail = Outcome::just(CLOSED);
        return CLOSED;
    };
    *detail = close(alloc, &mut held);
    file.give(held);
    detail.status
}

// How many steps are to be carried out.
fn step_count(held: &mut Held, n: &mut u64) -> i32
    ensures { CountsSteps result n.new held.old held.new }
{
    *n = 0;
    match held {
        Held::Closed(store) => {
            *n = store.steps().len() as u64;
            OK
        }
        Held::Image(_) | Held::Open(_) | Held::Unclosed(_) => NOT_CLOSED,
    }
}

/// How many steps a closed file leaves to be carried out. Statuses: OK, CLOSED, NOT_CLOSED.
#[unsafe(no_mangle)]
pub extern "C" fn recfile_step_count(alloc: Global, file: &mut RecFile, n: &mut u64) -> i32
    ensures { OnHeld ((result ≡ pos closed) × (n.new ≡ 0)) file.old.slot.value file.new.slot.value
        (CountsSteps result n.new) }
{
    let Some(mut held) = file.take(alloc) else {
        *n = 0;
        return CLOSED;
    };
    let status = step_count(&mut held, n);
    file.give(held);
    status
}

// A step, and the page that it writes.
fn step(held: &mut Held, i: u64, told: &mut StepShown, page: &mut [u8; PAGE_WIDTH]) -> i32
    ensures { StepAt i result told.new page.old page.new held.old held.new }
{
    *told = StepShown::default();
    match held {
        Held::Closed(store) => match store.steps().get(i as usize) {
            Some(step) => {
                *told = StepShown::of(step, page);
                OK
            }
            None => NO_SUCH_ENTRY,
        },
        Held::Image(_) | Held::Open(_) | Held::Unclosed(_) => NOT_CLOSED,
    }
}

/// A step, from 0, and the page that it writes. Statuses: OK, CLOSED, NOT_CLOSED, NO_SUCH_ENTRY.
#[unsafe(no_mangle)]
pub extern "C" fn recfile_step(
    alloc: Global,
    file: &mut RecFile,
    i: u64,
    told: &mut StepShown,
    page: &mut [u8; PAGE_WIDTH],
) -> i32
    ensures { OnHeld ((result ≡ pos closed) × (told.new ≡ no_step) × (page.new ≡ page.old))
        file.old.slot.value file.new.slot.value
        (StepAt i result told.new page.old page.new) }
{
    let Some(mut held) = file.take(alloc) else {
        *told = StepShown::default();
        return CLOSED;
    };
    let status = step(&mut held, i, told, page);
    file.give(held);
    status
}
