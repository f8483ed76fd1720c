ghost use Rattle.std.specs.Prelude.{◌≡◌, ◌∷◌, [], None, IfOk, MatchOption};
ghost use Rattle.std.specs.FinMap as maps;
ghost use Rattle.page_journal.specs.Files.{Files, recovered};
ghost use Rattle.recfile.specs.DurableSession.{EndsDurably};
ghost use Rattle.recfile.specs.Kept.{ClosesSafely};
ghost use Rattle.file_session.specs.Closing.{HasRecords, IsOutsideDisk};
ghost use Rattle.file_session.specs.LogOver.{head_line};
ghost use Rattle.recfile.specs.WholeSession.{EndsFile, opened_file};

use crate::durable::run_durable;
use crate::kept_file::{DiskEnd, run_kept};
use crate::manner::Manner;
use crate::page_file::create_in;
use crate::streams::{CountedRead, CountedWrite, StreamCalls};
use file_session::FileFault;
use page_journal::{DiskState, MemDisk};
use page_store::MemStore;
use rec_types::Limits;
use std::alloc::Global;
use std::io::Write;
use std::sync::ledger::Ledger;

// A disk in memory with a new file of an order, of which a crash may leave what it may of any disk. Faults: those of
// `create_in`; Memory.
fn new_disk(alloc: Global, order: u16, limits: Limits) -> Result<MemDisk, FileFault>
    ensures new { IfOk result (λ disk. disk ≡ record {
      first = disk.first;
      calls = [];
      failures = 0;
    }) }
    ensures alone { IfOk result (λ disk. disk.first.commits.log ≡ None) }
    ensures records { IfOk result (λ disk. HasRecords order maps.empty (recovered disk.first)) }
{
    let store = MemStore::new(Vec::new(alloc), 0);
    let (store, made) = create_in(alloc, store, order, limits);
    made?;
    match MemDisk::new(alloc, store.pages(), 0) {
        Ok(disk) => Ok(disk),
        Err(_) => Err(FileFault::Memory),
    }
}

/// A session over a new file of an order on a disk in memory: what `run_kept` says of a closed file on a steady disk holds of
/// it. Faults: those of `create_in`; Memory.
pub fn run_on_new_disk<L: Ledger, R: CountedRead<L>, W: CountedWrite<L>, E: Write>(
    alloc: Global,
    order: u16,
    limits: Limits,
    manner: Manner,
    reader: &mut R,
    out: &mut W,
    err: &mut E,
    calls: &mut StreamCalls<L>,
) -> Result<DiskEnd<MemDisk>, FileFault>
    ensures { IfOk result (λ end. (first : Files) × HasRecords order maps.empty (recovered first)
        × MatchOption end.unopened (EndsFile manner
        (R.left reader.old) (R.left reader.new) (W.held out.old) (W.held out.new) calls.old calls.new
        (opened_file maps.empty limits 0)
        (ClosesSafely ⟦<MemDisk as DiskState>⟧ (recovered first) end.disk end.unclosed order)
        end.unclosed end.status)
        (IsOutsideDisk first)) }
{
    let disk = new_disk(alloc, order, limits)?;
    Ok(run_kept(alloc, disk, limits, manner, reader, out, err, calls))
}

/// A session whose commits are kept before they are answered, over such a file: what `run_durable` says holds of it. Faults:
/// those of `create_in`; Memory.
pub fn run_durably_on_new_disk<L: Ledger, R: CountedRead<L>, W: CountedWrite<L>, E: Write>(
    alloc: Global,
    order: u16,
    limits: Limits,
    manner: Manner,
    reader: &mut R,
    out: &mut W,
    err: &mut E,
    calls: &mut StreamCalls<L>,
) -> Result<DiskEnd<MemDisk>, FileFault>
    ensures { IfOk result (λ end. (first : Files) × HasRecords order maps.empty (recovered first)
        × MatchOption end.unopened (EndsDurably ⟦<MemDisk as DiskState>⟧ manner
        (R.left reader.old) (R.left reader.new) (W.held out.old) (W.held out.new) calls.old calls.new
        order maps.empty limits 0 ((head_line (recovered first) ∷ []) ∷ [])
        end.unclosed end.status end.flushed end.disk)
        (IsOutsideDisk first)) }
{
    let disk = new_disk(alloc, order, limits)?;
    Ok(run_durable(alloc, disk, limits, manner, reader, out, err, calls))
}
