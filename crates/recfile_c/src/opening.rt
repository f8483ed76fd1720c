// A file in memory, from C.
ghost use Rattle.rec_types.specs.Limits.{limits_of};
ghost use Rattle.recfile_c.specs.Opening.{IsOpened, MakesBox, MakesMemory, OpensHandle, memory_file, unboxed};

use crate::file_table::FileTable;
use crate::handle::RecFile;
use crate::held::{Held, Session};
use crate::outcome::{MEMORY, NOT_CLOSED, OK, Outcome};
use rec_types::{Limits, SortedTable};
use record_file::RecordFile;
use std::alloc::Global;

// A session over an empty file in memory.
fn memory_session(alloc: Global, limits: Limits) -> Held
    ensures { IsOpened (memory_file limits) result }
{
    let table = FileTable::Memory(SortedTable::new(alloc, limits));
    Held::Open(Session {
        file: RecordFile::new(alloc, table, limits),
        entries: Vec::new(alloc),
        keys: Vec::new(alloc),
    })
}

// On the heap. Fault: MEMORY.
fn boxed(alloc: Global, held: Held) -> Result<Box<Held, Global>, i32>
    ensures { MakesBox held result }
{
    Box::new(alloc, held).map_err(|_| MEMORY)
}

// An empty file in memory. Faults: those of limits in their order, MEMORY.
fn memory(
    alloc: Global,
    records: u32,
    log_records: u32,
    begins: u32,
) -> Result<Box<Held, Global>, i32>
    ensures { MakesMemory (limits_of records log_records begins) (unboxed result) }
{
    let limits = Limits::new(records, log_records, begins)
        .map_err(Outcome::from)
        .map_err(|outcome| outcome.status)?;
    boxed(alloc, memory_session(alloc, limits))
}

/// Opens a closed handle on an empty file in memory. Statuses: OK, NOT_CLOSED, BAD_RECORDS, BAD_LOG, BAD_BEGINS,
/// MEMORY.
#[unsafe(no_mangle)]
pub extern "C" fn recfile_memory(
    alloc: Global,
    file: &mut RecFile,
    records: u32,
    log_records: u32,
    begins: u32,
) -> i32
    ensures { OpensHandle (MakesMemory (limits_of records log_records begins)) result
        file.old.slot.value file.new.slot.value }
{
    if let Some(held) = file.take(alloc) {
        file.give(held);
        return NOT_CLOSED;
    }
    match memory(alloc, records, log_records, begins) {
        Ok(held) => {
            file.give(held);
            OK
        }
        Err(status) => status,
    }
}
