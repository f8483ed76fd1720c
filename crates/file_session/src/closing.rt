ghost use Rattle.std.specs.Prelude.{◌≡◌, ◌≤◌, Bool, true, false, IsTrue, IfErr, OnOk};
ghost use Rattle.std.specs.Result.{is_err};
ghost use Rattle.rec_types.specs.Table.{counted};
ghost use Rattle.page_store.specs.Guards.{Unsealed};
ghost use Rattle.btree_delete.specs.TableView.{table_contents};
ghost use Rattle.page_journal.specs.Files.{Files};
ghost use Rattle.file_session.specs.Beside.{FindsEach, HoldsWhole, LeavesEitherBeside, LeavesOpening};
ghost use Rattle.file_session.specs.Closing.{CountsClosing, IsKeptWith, LeavesEither, LeavesOld, is_sealed, opening_file, refused_calls};
ghost use Rattle.file_session.specs.FileFaults.{answer_of_store, is_device_answer};
ghost use Rattle.file_session.specs.Opened.{IsOutsideFile};

use crate::file_fault::FileFault;
use btree_delete::TreeTable;
use page_journal::{Disk, KeptStore};
use page_store::StoreFault;

/// The disk of a table that isn't closed, with the old file put back. Where that fails the side file stays, and the next
/// opening puts it back.
pub fn give_back<D: Disk + Drop>(table: TreeTable<KeptStore<D>>) -> D
    ensures old { IsTrue table.pages.steady → LeavesOld D.DiskState (opening_file table.pages.opening) result }
    ensures commits { IsTrue table.pages.steady → (c : Files) → D.left_since result 0 c
        → LeavesOpening table.pages.opening c }
    ensures lasts { IsTrue table.pages.steady → (c : Files) → D.may_leave result c
        → FindsEach table.pages.opening.logged table.pages.opening.log table.pages.opening.commits
        table.pages.opening.doubt c }
    ensures steady { D.steady result ≡ table.pages.steady }
    ensures device { refused_calls table.pages.guard ≡ 0 → (again : Bool)
        × (D.failures result ≡ counted table.pages.failures again)
        × (is_sealed table.pages.guard ≡ false → again ≡ false) }
{
    let (disk, _put_back) = table.abandon().take_back();
    disk
}

/// The answer of a closing, by that of its store.
pub fn told(done: Result<(), StoreFault>) -> Result<(), FileFault>
    ensures { result ≡ answer_of_store done }
{
    match done {
        Ok(()) => Ok(()),
        Err(fault) => Err(FileFault::from(fault)),
    }
}

/// Closes the file of a table: the pages that it writes over are kept aside, then it writes, then they are given up. At
/// `Ok` of a changed table three calls of any disk have succeeded by then. Faults: Device, Memory; the old file is put back.
pub fn close_table<D: Disk + Drop>(table: TreeTable<KeptStore<D>>) -> (D, Result<(), FileFault>)
    ensures any_moment { IsTrue table.pages.steady
        → LeavesEither D.DiskState (opening_file table.pages.opening) table.tree.order (table_contents table)
        result.0 }
    ensures commits { IsTrue table.pages.steady → (c : Files) → D.left_since result.0 0 c
        → LeavesEitherBeside table.pages.opening table.tree.order (table_contents table) c }
    ensures whole { IsTrue table.pages.steady → OnOk result.1 (HoldsWhole D.DiskState
        table.pages.opening table.tree.order (table_contents table) result.0) }
    ensures lasts { IsTrue table.pages.steady → (c : Files) → D.may_leave result.0 c
        → FindsEach table.pages.opening.logged table.pages.opening.log table.pages.opening.commits
        table.pages.opening.doubt c }
    ensures closed { IsTrue table.pages.steady
        → OnOk result.1 (IsKeptWith D.DiskState table.tree.order (table_contents table) result.0) }
    ensures fault { IfErr result.1 IsOutsideFile }
    ensures steady { D.steady result.0 ≡ table.pages.steady }
    ensures device { table.pages.guard ≡ Unsealed 0 → table.pages.tail ≡ 0
        → CountsClosing table.pages.failures (is_err result.1) (is_device_answer result.1)
        (D.failures result.0) }
    ensures called { table.pages.guard ≡ Unsealed 0 → table.pages.tail ≡ 0
        → table.pages.changed ≡ true → OnOk result.1 (3 ≤ D.moment result.0) }
{
    let mut table = table;
    if let Err(fault) = table.seal() {
        return (give_back(table), Err(FileFault::from(fault)));
    }
    match table.close() {
        Ok(store) => {
            let (disk, done) = store.finish();
            (disk, told(done))
        }
        Err(stop) => (give_back(stop.table), Err(FileFault::from(stop.fault))),
    }
}
