ghost use Rattle.std.specs.Prelude.{◌≡◌, ◌++◌, ℕ, [], List, Err, reverse, IsTrue, IfErr, OnOk};
ghost use Rattle.rec_types.specs.Contents.{Contents};
ghost use Rattle.btree_delete.specs.TableView.{table_contents};
ghost use Rattle.page_journal.specs.CallDisks.{EachFrontLeaves, handed_out};
ghost use Rattle.page_journal.specs.Files.{Files};
ghost use Rattle.page_journal.specs.History.{MayLeave};
ghost use Rattle.page_journal.specs.declared.disk_call.DiskCall.{DiskCall as OneCall};
ghost use Rattle.file_session.specs.Beside.{IsSettlingFault, LeavesEitherBeside, LeavesEnded, LeavesFiles, LosesNone};
ghost use Rattle.file_session.specs.CallsOut.{LastsAlone, LastsWith, StandsWithLog};
ghost use Rattle.file_session.specs.LogOver.{Finds};
ghost use Rattle.file_session.specs.Opened.{IsOutsideFile};
ghost use Rattle.file_session.specs.Settling.{FindsAny, IsUnsettled};

use crate::closing::close_table;
use crate::file_fault::FileFault;
use crate::settling::{close_beside, settle};
use btree_delete::TreeTable;
use page_journal::{CallDisk, DiskCall, KeptStore};
use std::alloc::Global;

/// How a call ended over a disk that records its calls, and those that weren't handed out yet, the oldest first. What is said
/// of a front of them is said of all calls since the disk was opened, those that were handed out before too.
#[derive(Drop)]
pub struct CallsOut {
    pub disk: CallDisk,
    pub calls: Vec<DiskCall>,
    pub done: Result<(), FileFault>,
}

// The disk, whose calls are handed out, and how the call that made them ended.
fn out_of(disk: CallDisk, done: Result<(), FileFault>) -> CallsOut
    ensures told { result.disk ≡ handed_out disk }
    ensures calls { reverse result.calls.items ≡ disk.calls }
    ensures done { result.done ≡ done }
{
    let mut disk = disk;
    let calls = disk.hand_out();
    CallsOut { disk, calls, done }
}

/// Puts a page file right as `settle` does, over a disk that records its calls and was just opened, and hands them out.
/// Whoever carries them out in their order, and stops at the first that fails: after each of them, done whole, in part or
/// not, a crash leaves files in which an opening finds the records that it found before, or that stand for what they stood
/// for. Once all are carried out, at `Ok` the file has the records by itself, whatever happens. Faults as of `settle`.
pub fn settle_calls(alloc: Global, disk: CallDisk) -> CallsOut
    requires { (disk.calls ≡ []) × (disk.past ≡ []) }
    ensures all { result.disk.calls ≡ [] }
    ensures newest { (before : List OneCall)
        × (result.disk.past ≡ reverse result.calls.items ++ before) }
    ensures fronts { (order : ℕ) → (records : Contents) → Finds order records disk.first
        → EachFrontLeaves result.disk.first result.disk.past 0 (Finds order records) }
    ensures lasts { (order : ℕ) → (records : Contents) → Finds order records disk.first
        → OnOk result.done (LastsAlone order records result.disk) }
    ensures found { FindsAny disk.first → IfErr result.done IsSettlingFault }
    ensures unfound { (FindsAny disk.first → ⊥)
        → EachFrontLeaves result.disk.first result.disk.past 0 (StandsWithLog disk.first) }
    ensures bad_commits { result.done ≡ Err FileFault.BadCommits
        → EachFrontLeaves result.disk.first result.disk.past 0 (LeavesFiles disk.first) }
    ensures fault { IfErr result.done (IsUnsettled disk.first) }
{
    let (disk, done) = settle(alloc, disk);
    out_of(disk, done)
}

/// Closes the file of a table over a disk that records its calls, and hands out those that weren't yet. Whoever carries
/// them out in their order, and stops at the first that fails: after each of them, done whole, in part or not, a crash
/// leaves files in which an opening finds the old records or the new ones. Once all are carried out, at `Ok` it finds
/// the new ones, whatever happens. Faults: Device, Memory.
pub fn close_calls(table: TreeTable<KeptStore<CallDisk>>) -> CallsOut
    ensures all { result.disk.calls ≡ [] }
    ensures newest { (before : List OneCall)
        × (result.disk.past ≡ reverse result.calls.items ++ before) }
    ensures fronts { IsTrue table.pages.steady → EachFrontLeaves result.disk.first result.disk.past 0
        (LeavesEitherBeside table.pages.opening table.tree.order (table_contents table)) }
    ensures lasts { IsTrue table.pages.steady → OnOk result.done
        (LastsWith table.tree.order (table_contents table) result.disk) }
    ensures fault { IfErr result.done IsOutsideFile }
{
    let (disk, done) = close_table(table);
    out_of(disk, done)
}

/// The same of a table beside which a log of commits stands, which is taken away then. At each moment a crash leaves some of
/// the commits, from the first on, or the closed file; once all calls are carried out, whatever the answer is, no commit is
/// lost.
pub fn close_beside_calls(table: TreeTable<KeptStore<CallDisk>>) -> CallsOut
    ensures all { result.disk.calls ≡ [] }
    ensures newest { (before : List OneCall)
        × (result.disk.past ≡ reverse result.calls.items ++ before) }
    ensures fronts { IsTrue table.pages.steady → EachFrontLeaves result.disk.first result.disk.past 0
        (LeavesEnded table.pages.opening table.tree.order (table_contents table)) }
    ensures none_lost { IsTrue table.pages.steady → (c : Files)
        → MayLeave result.disk.first result.disk.past c
        → LosesNone table.pages.opening table.tree.order (table_contents table) c }
    ensures lasts { IsTrue table.pages.steady → OnOk result.done
        (LastsAlone table.tree.order (table_contents table) result.disk) }
    ensures fault { IfErr result.done IsOutsideFile }
{
    let (disk, done) = close_beside(table);
    out_of(disk, done)
}
