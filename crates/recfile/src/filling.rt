ghost use Rattle.std.specs.Prelude.{◌≡◌, ◌≤◌, ℕ, List, length, true, false, is_some, IsTrue, IfOk, IfErr, IfSome, OnOk};
ghost use Rattle.std.specs.Result.{is_err};
ghost use Rattle.rec_types.specs.Table.{counted};
ghost use Rattle.page_store.specs.Guards.{Unsealed};
ghost use Rattle.page_journal.specs.Files.{Belongs, recovered};
ghost use Rattle.page_journal.specs.Crash.{IsAtRest};
ghost use Rattle.btree_node.specs.Layout.{IsOrder};
ghost use Rattle.btree_node.specs.Lists.{Ascends};
ghost use Rattle.btree_insert.specs.Sizes.{greatest_size};
ghost use Rattle.btree_load.specs.Trees.{IsFilled};
ghost use Rattle.file_session.specs.Opened.{IsOutsideFile};
ghost use Rattle.file_session.specs.FileFaults.{file_by_device, is_device_answer};
ghost use Rattle.recfile.specs.Filling.{FillsDisk, IsBlankFile, loaded};
ghost use Rattle.recfile.specs.Statuses.{exit_status_of};
ghost use Rattle.recfile.specs.Kept.{ClosesSafely};
ghost use Rattle.file_session.specs.Closing.{CountsClosing, IsKeptWith, LeavesAs, LeavesEither, LeavesOld, opening_file, is_sealed, refused_calls};

use crate::kept_file::DiskEnd;
use crate::statuses::exit_status;
use crate::tell::tell_fault_of;
use btree_delete::TreeTable;
use btree_load::fill;
use file_session::{FileFault, told};
use page_journal::{Disk, KeptStore, SealState};
use page_store::{SealStore, Shape, Store};
use rec_types::{Key, Limits, Record};
use std::alloc::Global;
use std::io::Write;

// Keeps page 0 aside, and fills the store. Faults: Device, Memory.
fn seal_and_fill<S: SealStore>(
    alloc: Global,
    store: &mut S,
    order: u16,
    records: &[(Key, Record)],
) -> Result<(), FileFault>
    requires order { IsOrder order }
    requires records { Ascends records.now × (length records.now ≤ greatest_size) }
    requires short { length (S.pages store.old) ≤ 1 }
    ensures filled { IsTrue (S.steady store.old)
        → OnOk result (IsFilled order (S.pages store.new) (S.tail store.new) records.now) }
    ensures fault { IfErr result IsOutsideFile }
    ensures steady { S.steady store.new ≡ S.steady store.old }
    ensures opening { S.opening store.new ≡ S.opening store.old }
    ensures device { S.failures store.new ≡ counted (S.failures store.old) (is_device_answer result) }
    ensures guard { S.guard store.old ≡ Unsealed 0 → S.tail store.old ≡ 0
        → (refused_calls (S.guard store.new) ≡ 0) × OnOk result (is_sealed (S.guard store.new) ≡ true) }
{
    store.seal(&[0])?;
    fill(alloc, store, order, records)?;
    Ok(())
}

// Fills the file of a table that has no records, and page 0 alone: page 0 is kept aside, then it is filled, then page 0 is
// given up. Where that fails the old file is put back.
fn fill_table<D: Disk + Drop>(
    alloc: Global,
    table: TreeTable<KeptStore<D>>,
    records: &[(Key, Record)],
) -> (D, Result<(), FileFault>)
    requires records { Ascends records.now × (length records.now ≤ greatest_size) }
    requires short { length table.pages.stored ≤ 1 }
    ensures any_moment { IsTrue table.pages.steady
        → LeavesEither D.DiskState (opening_file table.pages.opening) table.tree.order (loaded records.now)
        result.0 }
    ensures closed { IsTrue table.pages.steady
        → OnOk result.1 (IsKeptWith D.DiskState table.tree.order (loaded records.now) result.0) }
    ensures fault { IfErr result.1 IsOutsideFile }
    ensures device { table.pages.guard ≡ Unsealed 0 → table.pages.tail ≡ 0
        → CountsClosing table.pages.failures (is_err result.1) (is_device_answer result.1)
        (D.failures result.0) }
{
    let order = table.order();
    let mut store = table.abandon();
    if let Err(fault) = seal_and_fill(alloc, &mut store, order, records) {
        let (disk, _put_back) = store.take_back();
        return (disk, Err(fault));
    }
    let (disk, done) = store.finish();
    (disk, told(done))
}

// The same, as the end of a session. A fault has its line.
fn end_filled<D: Disk + Drop, E: Write>(
    alloc: Global,
    table: TreeTable<KeptStore<D>>,
    records: &[(Key, Record)],
    err: &mut E,
) -> DiskEnd<D>
    requires records { Ascends records.now × (length records.now ≤ greatest_size) }
    requires short { length table.pages.stored ≤ 1 }
    ensures closed { IsTrue table.pages.steady → ClosesSafely D.DiskState (opening_file table.pages.opening)
        result.disk result.unclosed table.tree.order (loaded records.now) }
    ensures fault { IfSome result.unclosed IsOutsideFile }
    ensures device { table.pages.guard ≡ Unsealed 0 → table.pages.tail ≡ 0
        → CountsClosing table.pages.failures (is_some result.unclosed) (file_by_device result.unclosed)
        (D.failures result.disk) }
    ensures status { result.status ≡ exit_status_of false (is_some result.unclosed) false }
{
    let (disk, done) = fill_table(alloc, table, records);
    tell_fault_of(err, &done);
    DiskEnd {
        status: exit_status(false, done.is_err(), false),
        disk,
        flushed: false,
        unopened: None,
        unclosed: done.err(),
    }
}

// The table of a file that has page 0 alone, or the disk where it has none.
fn blank_table<D: Disk + Drop>(
    alloc: Global,
    store: KeptStore<D>,
    limits: Limits,
) -> Result<TreeTable<KeptStore<D>>, D>
    requires unused { (store.state ≡ SealState.Unsealed) × (store.refusals ≡ 0) }
    ensures blank { IsTrue (D.steady store.disk)
        → IfOk result (λ table. IsBlankFile table.tree.order (D.seen store.disk).main) }
    ensures short { IfOk result (λ table. length table.pages.stored ≤ 1) }
    ensures store { IfOk result (λ table. (table.pages.steady ≡ D.steady store.disk)
        × (opening_file table.pages.opening ≡ recovered (D.began store.disk))
        × (table.pages.failures ≡ D.failures store.disk)) }
    ensures unused { IfOk result (λ table. (table.pages.guard ≡ Unsealed 0) × (table.pages.tail ≡ 0)) }
    ensures left { IsTrue (D.steady store.disk)
        → IfErr result (LeavesOld D.DiskState (recovered (D.began store.disk))) }
{
    let mut store = store;
    match store.shape() {
        Ok(Shape { pages: 1, .. }) => {}
        _ => return Err(disk_of(store)),
    }
    match TreeTable::open_from(alloc, store, limits) {
        Ok(table) => Ok(table),
        Err(stop) => Err(disk_of(stop.store)),
    }
}

// The disk of a store whose file isn't changed.
fn disk_of<D: Disk + Drop>(store: KeptStore<D>) -> D
    ensures { IsTrue (D.steady store.disk)
        → LeavesOld D.DiskState (recovered (D.began store.disk)) result }
{
    let (disk, _put_back) = store.take_back();
    disk
}

/// Fills the page file on a disk that was just opened with records whose keys ascend, where it has none and page 0 alone.
/// It takes as long as writing the pages, and in memory, beside the records, as much as those that stand above the lowest
/// level. A crash at any moment of it leaves the file that there was when the disk was opened, or the one that has them
/// all. The status is that of `exit_status`; a fault has a line on `err`, and the old file is put back. The disk comes
/// back as it was where the file can't be opened, or isn't such a one.
pub fn fill_blank<D: Disk + Drop, E: Write>(
    alloc: Global,
    disk: D,
    limits: Limits,
    records: &[(Key, Record)],
    err: &mut E,
) -> Result<DiskEnd<D>, D>
    requires rest { IsAtRest D.DiskState disk }
    requires began { D.seen disk ≡ D.began disk }
    requires moment { D.moment disk ≡ 0 }
    requires records { Ascends records.now × (length records.now ≤ greatest_size) }
    ensures filled { IfOk result
        (λ end. FillsDisk D.DiskState records.now disk end.unclosed end.disk end.status) }
    ensures untouched { IsTrue (D.steady disk)
        → IfErr result (LeavesAs D.DiskState (D.began disk)) }
{
    let store = match KeptStore::open(alloc, disk) {
        Ok(store) => store,
        Err((disk, _fault)) => return Err(disk),
    };
    let table = blank_table(alloc, store, limits)?;
    Ok(end_filled(alloc, table, records, err))
}
