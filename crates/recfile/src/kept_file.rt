ghost use Rattle.std.specs.Prelude.{◌≡◌, ◌≤◌, ℕ, true, false, is_some, IsTrue, IfSome, MatchOption, None, Some};
ghost use Rattle.rec_types.specs.Contents.{Contents};
ghost use Rattle.std.specs.Result.{is_err};
ghost use Rattle.rec_types.specs.Table.{counted};
ghost use Rattle.page_store.specs.Guards.{Unsealed};
ghost use Rattle.btree_insert.specs.declared.tree.Tree.{Tree as TreeValue};
ghost use Rattle.btree_delete.specs.TableView.{IsClosed, table_contents};
ghost use Rattle.page_journal.specs.Files.{Belongs, recovered};
ghost use Rattle.page_journal.specs.Crash.{IsAtRest};
ghost use Rattle.file_session.specs.Opened.{CanBeOpened, IsFirstOrOutside, IsOutsideFile};
ghost use Rattle.file_session.specs.FileFaults.{file_by_device, is_file_device};
ghost use Rattle.file_session.specs.Closing.{CountsClosing, opening_file, LeavesAs, LeavesOld, IsOutsideDisk, IsUnopened};
ghost use Rattle.recfile.specs.Kept.{RunsOn, ClosesSafely};
ghost use Rattle.recfile.specs.Statuses.{exit_status_of};
ghost use Rattle.recfile.specs.WholeSession.{EndsFile, IsUncounted, RunsAny, opened_file};

use crate::manner::Manner;
use crate::session::run_session;
use crate::statuses::exit_status;
use crate::streams::{CountedRead, CountedWrite, StreamCalls};
use crate::tell::{tell, tell_fault_of};
use btree_delete::TreeTable;
use file_session::{FileFault, close_table, give_back};
use page_journal::{Disk, KeptStore, SealState};
use rec_types::Limits;
use record_file::{RecordFile, Unlogged};
use std::alloc::Global;
use std::io::Write;
use std::sync::ledger::Ledger;

/// How a session over a page file on a disk ended: its status, the disk, whether its lines ended at a flush and the file
/// was closed, why the file wasn't opened, and why it wasn't closed.
#[derive(Drop)]
pub struct DiskEnd<D: Disk + Drop> {
    pub status: u8,
    pub disk: D,
    pub flushed: bool,
    pub unopened: Option<FileFault>,
    pub unclosed: Option<FileFault>,
}

// Closes the file of a table, and answers the end of the session. A fault has its line.
fn close_kept<D: Disk + Drop, E: Write>(
    table: TreeTable<KeptStore<D>>,
    script_fault: bool,
    err: &mut E,
) -> DiskEnd<D>
    ensures opened { result.unopened ≡ None }
    ensures closed { IsTrue table.pages.steady → ClosesSafely D.DiskState (opening_file table.pages.opening)
        result.disk result.unclosed table.tree.order (table_contents table) }
    ensures fault { IfSome result.unclosed IsOutsideFile }
    ensures device { table.pages.guard ≡ Unsealed 0 → table.pages.tail ≡ 0
        → CountsClosing table.pages.failures (is_some result.unclosed) (file_by_device result.unclosed)
        (D.failures result.disk) }
    ensures status { result.status ≡ exit_status_of false (is_some result.unclosed) script_fault }
{
    let (disk, done) = close_table(table);
    tell_fault_of(err, &done);
    DiskEnd {
        status: exit_status(false, done.is_err(), script_fault),
        disk,
        flushed: false,
        unopened: None,
        unclosed: done.err(),
    }
}

// Runs a session over the table of a page file, and closes the file.
fn run_table<L: Ledger, D: Disk + Drop, R: CountedRead<L>, W: CountedWrite<L>, E: Write>(
    alloc: Global,
    table: TreeTable<KeptStore<D>>,
    limits: Limits,
    manner: Manner,
    reader: &mut R,
    out: &mut W,
    err: &mut E,
    calls: &mut StreamCalls<L>,
) -> DiskEnd<D>
    requires limit { table.limit ≡ limits.records }
    ensures opened { result.unopened ≡ None }
    ensures ran { RunsAny manner limits (R.left reader.old) (R.left reader.new)
        (W.held out.old) (W.held out.new) calls.old calls.new result.unclosed result.status }
    ensures counted { table.pages.guard ≡ Unsealed 0 → table.pages.tail ≡ 0
        → RunsOn D.DiskState manner limits (R.left reader.old) (R.left reader.new)
        (W.held out.old) (W.held out.new) calls.old calls.new result.unclosed result.status result.disk }
    ensures session { IsTrue table.pages.steady → IsUncounted table
        → EndsFile manner (R.left reader.old) (R.left reader.new)
        (W.held out.old) (W.held out.new) calls.old calls.new
        (opened_file (table_contents table) limits table.pages.failures)
        (ClosesSafely D.DiskState (opening_file table.pages.opening) result.disk result.unclosed
        table.tree.order)
        result.unclosed result.status }
    ensures stopped { IsTrue table.pages.steady → IsUncounted table
        → result.status ≡ 4 → LeavesOld D.DiskState (opening_file table.pages.opening) result.disk }
{
    let mut file = RecordFile::new(alloc, table, limits);
    let end = run_session(
        alloc,
        manner,
        &mut file,
        &mut Unlogged,
        reader,
        out,
        err,
        calls,
    );
    let script_fault = end.script.is_err();
    let table = file.abandon();
    match end.ended {
        Ok(_) => close_kept(table, script_fault, err),
        Err(_) => DiskEnd {
            status: exit_status(true, false, script_fault),
            disk: give_back(table),
            flushed: false,
            unopened: None,
            unclosed: None,
        },
    }
}

// The end of a session whose file isn't opened. The fault has its line.
pub(crate) fn unopened<D: Disk + Drop, E: Write>(
    disk: D,
    fault: FileFault,
    err: &mut E,
) -> DiskEnd<D>
    ensures { result ≡ record {
      status = 1;
      disk = disk;
      flushed = false;
      unopened = Some fault;
      unclosed = None;
    } }
{
    tell(err, &fault);
    DiskEnd {
        status: exit_status(false, true, false),
        disk,
        flushed: false,
        unopened: Some(fault),
        unclosed: None,
    }
}

// Opens the page file of a store that stands for the file that there was when the disk was opened, and runs a session.
fn run_stored<L: Ledger, D: Disk + Drop, R: CountedRead<L>, W: CountedWrite<L>, E: Write>(
    alloc: Global,
    store: KeptStore<D>,
    limits: Limits,
    manner: Manner,
    reader: &mut R,
    out: &mut W,
    err: &mut E,
    calls: &mut StreamCalls<L>,
) -> DiskEnd<D>
    requires file { IsTrue (D.steady store.disk)
        → (D.seen store.disk).main ≡ recovered (D.began store.disk) }
    requires unused { (store.state ≡ SealState.Unsealed) × (store.refusals ≡ 0) }
    ensures unread { IfSome result.unopened (λ _. (result.status ≡ 1) × (result.unclosed ≡ None)
        × (reader.new ≡ reader.old) × (out.new ≡ out.old) × (calls.new ≡ calls.old)) }
    ensures ran { result.unopened ≡ None → RunsOn D.DiskState manner limits
        (R.left reader.old) (R.left reader.new) (W.held out.old) (W.held out.new) calls.old calls.new
        result.unclosed result.status result.disk }
    ensures device { IfSome result.unopened (λ fault. D.failures result.disk
        ≡ counted (D.failures store.disk) (is_file_device fault)) }
    ensures closed { IsTrue (D.steady store.disk) → result.unopened ≡ None
        → CanBeOpened (recovered (D.began store.disk)).pages (recovered (D.began store.disk)).tail limits.records }
    ensures first { IsTrue (D.steady store.disk) → IfSome result.unopened
        (IsFirstOrOutside (recovered (D.began store.disk)).pages (recovered (D.began store.disk)).tail limits.records) }
    ensures untouched { IsTrue (D.steady store.disk) → IfSome result.unopened
        (λ _. LeavesOld D.DiskState (recovered (D.began store.disk)) result.disk) }
    ensures stopped { IsTrue (D.steady store.disk) → result.status ≡ 4
        → LeavesOld D.DiskState (recovered (D.began store.disk)) result.disk }
    ensures session { IsTrue (D.steady store.disk) → (tree : TreeValue) → (contents : Contents)
        → (version : ℕ) → IsClosed version (recovered (D.began store.disk)).pages (recovered (D.began store.disk)).tail
        tree contents → tree.count ≤ limits.records
        → MatchOption result.unopened (EndsFile manner (R.left reader.old)
        (R.left reader.new) (W.held out.old) (W.held out.new) calls.old calls.new
        (opened_file contents limits (D.failures store.disk))
        (ClosesSafely D.DiskState (recovered (D.began store.disk)) result.disk result.unclosed tree.order)
        result.unclosed result.status)
        IsOutsideFile }
{
    match TreeTable::open_from(alloc, store, limits) {
        Ok(table) => run_table(alloc, table, limits, manner, reader, out, err, calls),
        Err(stop) => {
            let (disk, _put_back) = stop.store.take_back();
            unopened(disk, FileFault::from(stop.fault), err)
        }
    }
}

/// Runs a session over the page file on a disk that was just opened, and closes the file so that no crash loses it: where
/// a closing was stopped, the old pages are put back first. The status
/// is that of `exit_status`; a fault of the file has a line on `err` when it is met. The disk comes back.
///
/// A crash at any moment of it leaves files that stand for the file that there was when the disk was opened or for the
/// file that the session closes, whole. Old pages are put back over the file that they were kept of, and over no other.
/// Where the file can't be opened no script is read. Where a call of the closing
/// fails, and where a transaction can't be ended, the old file is put back at once.
pub fn run_kept<L: Ledger, D: Disk + Drop, R: CountedRead<L>, W: CountedWrite<L>, E: Write>(
    alloc: Global,
    disk: D,
    limits: Limits,
    manner: Manner,
    reader: &mut R,
    out: &mut W,
    err: &mut E,
    calls: &mut StreamCalls<L>,
) -> DiskEnd<D>
    requires rest { IsAtRest D.DiskState disk }
    requires began { D.seen disk ≡ D.began disk }
    requires moment { D.moment disk ≡ 0 }
    ensures unread { IfSome result.unopened (λ _. (result.status ≡ 1) × (result.unclosed ≡ None)
        × (reader.new ≡ reader.old) × (out.new ≡ out.old) × (calls.new ≡ calls.old)) }
    ensures ran { result.unopened ≡ None → RunsOn D.DiskState manner limits
        (R.left reader.old) (R.left reader.new) (W.held out.old) (W.held out.new) calls.old calls.new
        result.unclosed result.status result.disk }
    ensures device { IfSome result.unopened (λ fault. D.failures result.disk
        ≡ counted (D.failures disk) (is_file_device fault)) }
    ensures own { IsTrue (D.steady disk) → result.unopened ≡ None → Belongs (D.began disk) }
    ensures closed { IsTrue (D.steady disk) → result.unopened ≡ None
        → CanBeOpened (recovered (D.began disk)).pages (recovered (D.began disk)).tail limits.records }
    ensures first { IsTrue (D.steady disk)
        → IfSome result.unopened (IsUnopened (D.began disk) limits.records) }
    ensures untouched { IsTrue (D.steady disk) → IfSome result.unopened
        (λ _. LeavesAs D.DiskState (D.began disk) result.disk) }
    ensures stopped { IsTrue (D.steady disk) → result.status ≡ 4
        → LeavesOld D.DiskState (recovered (D.began disk)) result.disk }
    ensures session { IsTrue (D.steady disk) → (tree : TreeValue) → (contents : Contents)
        → (version : ℕ) → IsClosed version (recovered (D.began disk)).pages (recovered (D.began disk)).tail
        tree contents → tree.count ≤ limits.records
        → MatchOption result.unopened (EndsFile manner (R.left reader.old)
        (R.left reader.new) (W.held out.old) (W.held out.new) calls.old calls.new
        (opened_file contents limits (D.failures disk))
        (ClosesSafely D.DiskState (recovered (D.began disk)) result.disk result.unclosed tree.order)
        result.unclosed result.status)
        (IsOutsideDisk (D.began disk)) }
{
    match KeptStore::open(alloc, disk) {
        Ok(store) => run_stored(alloc, store, limits, manner, reader, out, err, calls),
        Err((disk, fault)) => unopened(disk, FileFault::from(fault), err),
    }
}
