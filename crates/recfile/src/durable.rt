ghost use Rattle.std.specs.Result.{is_err};
ghost use Rattle.std.specs.Prelude.{◌≡◌, ◌&&◌, not, ◌∷◌, [], ℕ, None, true, false, is_some, IsTrue, IfSome, MatchOption};
ghost use Rattle.rec_types.specs.Contents.{Contents};
ghost use Rattle.btree_delete.specs.TableView.{table_contents};
ghost use Rattle.page_journal.specs.Files.{Files, recovered};
ghost use Rattle.file_session.specs.Beside.{IsSettledWith, LeavesEnded, LosesNone};
ghost use Rattle.file_session.specs.Opened.{CanBeOpened, IsFirstOrOutside, IsOutsideFile};
ghost use Rattle.recfile.specs.DurableSession.{EndsDurably, RunsLogged};
ghost use Rattle.file_session.specs.Beginning.{IsBegunBeside, LeavesUnread, StandForClosed, StandsUnbegun};
ghost use Rattle.file_session.specs.FileFaults.{is_file_device};
ghost use Rattle.file_session.specs.Closing.{CountsClosing, IsOutsideDisk, IsUnopened, LeavesOld, opening_file};
ghost use Rattle.file_session.specs.LogOver.{HoldsWithin, head_line};
ghost use Rattle.file_session.specs.Settling.{IsJustSettled};
ghost use Rattle.recfile.specs.Statuses.{exit_status_of};
ghost use Rattle.recfile.specs.WholeSession.{IsUncounted, is_flush};

use crate::commit_keeper::CommitKeeper;
use crate::kept_file::{DiskEnd, unopened};
use crate::manner::Manner;
use crate::script::RunFault;
use crate::session::{is_flush, run_session};
use crate::statuses::exit_status;
use crate::streams::{CountedRead, CountedWrite, StreamCalls};
use crate::tell::tell_fault_of;
use btree_delete::TreeTable;
use file_session::{FileFault, LogKeeper, begin_beside, close_beside, end_unread, give_back};
use page_journal::{Disk, KeptStore, SealState};
use page_store::StoreState;
use rec_types::{Limits, Table};
use record_file::RecordFile;
use std::alloc::Global;
use std::io::Write;
use std::sync::ledger::Ledger;

impl<D: Disk + Drop> CommitKeeper<TreeTable<KeptStore<D>>> for LogKeeper {
    ghost tells = { λ keeper old new es answer answered keeps. answered };
}

// Closes the file of a table, takes the log beside it away, and answers the end of the session. A fault has its line.
fn close_logged<D: Disk + Drop, E: Write>(
    table: TreeTable<KeptStore<D>>,
    script: &Result<u32, RunFault>,
    err: &mut E,
) -> DiskEnd<D>
    ensures end { result ≡ record result {
      status = exit_status_of false (is_some result.unclosed) (is_err script.now);
      unopened = None;
      flushed = not (is_some result.unclosed) && is_flush script.now;
    } }
    ensures any_moment { IsTrue table.pages.steady → (c : Files) → D.left_since result.disk 0 c
        → LeavesEnded table.pages.opening table.tree.order (table_contents table) c }
    ensures lasts { IsTrue table.pages.steady → (c : Files) → D.may_leave result.disk c
        → LosesNone table.pages.opening table.tree.order (table_contents table) c }
    ensures closed { IsTrue table.pages.steady → result.unclosed ≡ None
        → IsSettledWith D.DiskState table.tree.order (table_contents table) result.disk }
    ensures fault { IfSome result.unclosed IsOutsideFile }
    ensures steady { D.steady result.disk ≡ table.pages.steady }
{
    let (disk, done) = close_beside(table);
    tell_fault_of(err, &done);
    DiskEnd {
        status: exit_status(false, done.is_err(), script.is_err()),
        disk,
        flushed: done.is_ok() && is_flush(script),
        unopened: None,
        unclosed: done.err(),
    }
}

// Runs a session over the table of a page file, beside which its commits are kept, and closes the file.
fn run_logged<L: Ledger, D: Disk + Drop, R: CountedRead<L>, W: CountedWrite<L>, E: Write>(
    alloc: Global,
    table: TreeTable<KeptStore<D>>,
    limits: Limits,
    manner: Manner,
    reader: &mut R,
    out: &mut W,
    err: &mut E,
    calls: &mut StreamCalls<L>,
) -> DiskEnd<D>
    requires limit { table.limit ≡ limits.records }
    ensures opened { result.unopened ≡ None }
    ensures ran { RunsLogged manner limits (R.left reader.old) (R.left reader.new)
        (W.held out.old) (W.held out.new) calls.old calls.new result.unclosed result.status
        result.flushed }
    ensures session { IsTrue table.pages.steady → IsUncounted table
        → IsBegunBeside table.pages.opening
        → HoldsWithin limits.records table.tree.order (table_contents table)
        (opening_file table.pages.opening)
        → EndsDurably D.DiskState manner (R.left reader.old) (R.left reader.new)
        (W.held out.old) (W.held out.new) calls.old calls.new
        table.tree.order (table_contents table) limits table.pages.failures
        ((head_line (opening_file table.pages.opening) ∷ []) ∷ []) result.unclosed result.status result.flushed
        result.disk }
    ensures stopped { IsTrue table.pages.steady → result.status ≡ 4
        → LeavesOld D.DiskState (opening_file table.pages.opening) result.disk }
    ensures steady { D.steady result.disk ≡ table.pages.steady }
{
    // No more than a file may have.
    let _most = limits.records();
    let mut file = RecordFile::new(alloc, table, limits);
    let mut keeper = LogKeeper::new(alloc);
    let end = run_session(
        alloc,
        manner,
        &mut file,
        &mut keeper,
        reader,
        out,
        err,
        calls,
    );
    let table = file.abandon();
    // No more than the limits say.
    let _count = table.count();
    match end.ended {
        Ok(_) => close_logged(table, &end.script, err),
        Err(_) => DiskEnd {
            status: exit_status(true, false, end.script.is_err()),
            disk: give_back(table),
            flushed: false,
            unopened: None,
            unclosed: None,
        },
    }
}

// Opens the page file of a store, beside which a log was begun, and runs a session.
fn run_begun<L: Ledger, D: Disk + Drop, R: CountedRead<L>, W: CountedWrite<L>, E: Write>(
    alloc: Global,
    store: KeptStore<D>,
    limits: Limits,
    manner: Manner,
    reader: &mut R,
    out: &mut W,
    err: &mut E,
    calls: &mut StreamCalls<L>,
) -> DiskEnd<D>
    requires begun { IsTrue (D.steady store.disk)
        → ((D.seen store.disk).main ≡ opening_file (⟦<KeptStore<D> as StoreState>⟧.opening store))
        × IsBegunBeside (⟦<KeptStore<D> as StoreState>⟧.opening store) }
    requires unrefused { store.refusals ≡ 0 }
    ensures unread { IfSome result.unopened (λ _. (result.status ≡ 1) × (result.unclosed ≡ None)
        × (reader.new ≡ reader.old) × (out.new ≡ out.old) × (calls.new ≡ calls.old)
        × (result.flushed ≡ false)) }
    ensures ran { result.unopened ≡ None → RunsLogged manner limits
        (R.left reader.old) (R.left reader.new) (W.held out.old) (W.held out.new) calls.old calls.new
        result.unclosed result.status result.flushed }
    ensures closed { IsTrue (D.steady store.disk) → result.unopened ≡ None
        → CanBeOpened (D.seen store.disk).main.pages (D.seen store.disk).main.tail limits.records }
    ensures device { store.state ≡ SealState.Unsealed → IfSome result.unopened
        (λ fault. CountsClosing (D.failures store.disk) true (is_file_device fault) (D.failures result.disk)) }
    ensures untouched { IsTrue (D.steady store.disk) → IfSome result.unopened
        (λ fault. IsFirstOrOutside (D.seen store.disk).main.pages (D.seen store.disk).main.tail limits.records fault
        × ((c : Files) → D.left_since result.disk 0 c
        → LeavesUnread (⟦<KeptStore<D> as StoreState>⟧.opening store) c)) }
    ensures stopped { IsTrue (D.steady store.disk) → result.status ≡ 4
        → LeavesOld D.DiskState (D.seen store.disk).main result.disk }
    ensures session { IsTrue (D.steady store.disk) → (order : ℕ) → (contents : Contents)
        → HoldsWithin limits.records order contents (D.seen store.disk).main
        → MatchOption result.unopened (EndsDurably D.DiskState manner (R.left reader.old)
        (R.left reader.new) (W.held out.old) (W.held out.new) calls.old calls.new
        order contents limits (D.failures store.disk)
        ((head_line (D.seen store.disk).main ∷ []) ∷ []) result.unclosed result.status result.flushed
        result.disk)
        IsOutsideFile }
    ensures steady { D.steady result.disk ≡ D.steady store.disk }
{
    match TreeTable::open_from(alloc, store, limits) {
        Ok(table) => run_logged(alloc, table, limits, manner, reader, out, err, calls),
        Err(stop) => unopened(end_unread(stop.store), FileFault::from(stop.fault), err),
    }
}

/// Runs a session over the page file on a disk that was just opened, beside which stands no log of commits, as `run_kept` does;
/// but a log is begun, and each commit is kept in it before it is answered. At the end the file is closed, and the log is taken
/// away. The status is that of `exit_status`; a fault of the file has a line on `err` when it is met. The disk comes back.
/// Where the lines ended at a flush and the file was closed, it says so.
///
/// A crash at any moment of it leaves files in which an opening finds what some of the commits make, from the first on, in
/// their order, or all and the one in doubt. At its end it leaves what all make, with that one or without, each that was
/// answered among them, whatever failed; and while the session lasts its store is one of which `KeptStore::is_in_doubt` says
/// the same. Where the file can't be opened no script is read, and a crash leaves the file that there was, with no log or with
/// an empty one. Where a transaction can't be ended, a crash leaves that file, with the log.
pub fn run_durable<L: Ledger, D: Disk + Drop, R: CountedRead<L>, W: CountedWrite<L>, E: Write>(
    alloc: Global,
    disk: D,
    limits: Limits,
    manner: Manner,
    reader: &mut R,
    out: &mut W,
    err: &mut E,
    calls: &mut StreamCalls<L>,
) -> DiskEnd<D>
    requires { IsJustSettled D.DiskState disk }
    ensures unread { IfSome result.unopened (λ _. (result.status ≡ 1) × (result.unclosed ≡ None)
        × (reader.new ≡ reader.old) × (out.new ≡ out.old) × (calls.new ≡ calls.old)
        × (result.flushed ≡ false)) }
    ensures ran { result.unopened ≡ None → RunsLogged manner limits
        (R.left reader.old) (R.left reader.new) (W.held out.old) (W.held out.new) calls.old calls.new
        result.unclosed result.status result.flushed }
    ensures device { IfSome result.unopened (λ fault. CountsClosing (D.failures disk) true
        (is_file_device fault) (D.failures result.disk)) }
    ensures opens { IsTrue (D.steady disk) → result.unopened ≡ None
        → StandForClosed limits.records (D.began disk) }
    ensures first { IsTrue (D.steady disk)
        → IfSome result.unopened (IsUnopened (D.began disk) limits.records) }
    ensures untouched { IsTrue (D.steady disk) → IfSome result.unopened
        (λ _. (c : Files) → D.left_since result.disk 0 c → StandsUnbegun (D.began disk) c) }
    ensures stopped { IsTrue (D.steady disk) → result.status ≡ 4
        → LeavesOld D.DiskState (recovered (D.began disk)) result.disk }
    ensures session { IsTrue (D.steady disk) → (order : ℕ) → (contents : Contents)
        → HoldsWithin limits.records order contents (recovered (D.began disk))
        → MatchOption result.unopened (EndsDurably D.DiskState manner (R.left reader.old)
        (R.left reader.new) (W.held out.old) (W.held out.new) calls.old calls.new
        order contents limits (D.failures disk)
        ((head_line (recovered (D.began disk)) ∷ []) ∷ []) result.unclosed result.status result.flushed
        result.disk)
        (IsOutsideDisk (D.began disk)) }
    ensures steady { result.unopened ≡ None → D.steady result.disk ≡ D.steady disk }
{
    let store = match KeptStore::open(alloc, disk) {
        Ok(store) => store,
        Err((disk, fault)) => return unopened(disk, FileFault::from(fault), err),
    };
    match begin_beside(alloc, store) {
        Ok(store) => run_begun(alloc, store, limits, manner, reader, out, err, calls),
        Err((disk, fault)) => unopened(disk, fault, err),
    }
}
