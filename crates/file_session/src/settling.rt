ghost use Rattle.std.specs.Prelude.{◌≡◌, ◌≢◌, ℕ, List, None, Err, Ok, IsTrue, IfErr, IfOk, OnOk};
ghost use Rattle.std.specs.Option.{option_to_list};
ghost use Rattle.std.specs.Result.{is_err};
ghost use Rattle.rec_types.specs.Contents.{Contents};
ghost use Rattle.rec_types.specs.Table.{counted, is_device};
ghost use Rattle.commit_paper.specs.Text.{AreUnits, log_text};
ghost use Rattle.command_text.specs.Script.{commands_of};
ghost use Rattle.btree_delete.specs.TableView.{table_contents};
ghost use Rattle.page_store.specs.Guards.{Unsealed};
ghost use Rattle.page_journal.specs.Crash.{IsAtRest, IsSettled, LeavesOnly, LeavesPages};
ghost use Rattle.page_journal.specs.Files.{Belongs, Files, recovered};
ghost use Rattle.page_journal.specs.Logging.{HasLog, HasLogOf, HasNoLog, IsTextOf};
ghost use Rattle.page_journal.specs.Steps.{StaysSteady};
ghost use Rattle.file_session.specs.Beside.{IsSettledWith, IsSettlingFault, IsTableOutside, IsUnput, LeavesEnded, LeavesFiles, LeavesOpening, LosesNone, StaysTable};
ghost use Rattle.file_session.specs.Opened.{IsOutsideFile};
ghost use Rattle.file_session.specs.FileFaults.{is_device_answer};
ghost use Rattle.file_session.specs.Closing.{CountsClosing};
ghost use Rattle.file_session.specs.LogOver.{Finds, IsLogOver, SayOver, keys_said, values_at};
ghost use Rattle.file_session.specs.Settling.{FindsAny, IsUnsettledOver, PutsRight};
ghost use Rattle.file_session.specs.Overlaid.{line_entries, writes_said};

use crate::closing::{close_table, give_back, told};
use crate::file_fault::FileFault;
use crate::limits::greatest_limits;
use crate::lines::next_line;
use crate::log_head::{HEAD, head_of};
use crate::overlaying::overlay_text;
use btree_delete::TreeTable;
use command_text::{Command, LineFault, read_line};
use page_journal::{Disk, KeptStore, SealState, end_log};
use page_store::StoreState;
use rec_types::{Key, Record, Table, TableFault};
use std::alloc::Global;

// The key that a line of a log writes.
fn key_said(said: &Result<Option<Command>, LineFault>) -> Option<Key>
    ensures { keys_said (line_entries said.now) ≡ option_to_list result }
{
    match said {
        Ok(Some(Command::Put(_, key, _))) => Some(*key),
        Ok(Some(Command::Del(_, key))) => Some(*key),
        _ => None,
    }
}

// What stands at the keys that the lines of a log write, one after another. Faults: Device, Damaged, Memory.
fn values_of<T: Table>(
    alloc: Global,
    table: &mut T,
    text: &[u8],
) -> Result<Vec<Option<Record>>, TableFault>
    ensures values { IsTrue (T.sound table.old) → IfOk result (λ values. values.items
        ≡ values_at (T.contents table.old) (writes_said (commands_of text.now))) }
    ensures fault { IsTrue (T.sound table.old) → IfErr result IsTableOutside }
    ensures same { T.contents table.new ≡ T.contents table.old }
    ensures sound { T.sound table.new ≡ T.sound table.old }
    ensures origin { T.origin table.new ≡ T.origin table.old }
    ensures failures { T.device_failures table.new
        ≡ counted (T.device_failures table.old) (is_device result) }
{
    let mut values = Vec::new(alloc);
    let mut rest = text;
    while !rest.is_empty() {
        let (line, after) = next_line(rest);
        rest = after;
        if let Some(key) = key_said(&read_line(line)) {
            let found = table.get(&key)?;
            values.push(found).map_err(|_| TableFault::Memory)?;
        }
    }
    Ok(values)
}

// Puts commits of a log that isn't known to be that of the file over the records of a table, where they change none.
fn put_unchanged<T: Table>(alloc: Global, table: &mut T, text: &[u8]) -> Result<(), FileFault>
    ensures over { IsTrue (T.sound table.old) → OnOk result (SayOver (T.contents table.old)
        (commands_of text.now) (T.contents table.new)
        × (T.contents table.new ≡ T.contents table.old)) }
    ensures fault { IsTrue (T.sound table.old) → IfErr result (IsUnput
        (SayOver (T.contents table.old) (commands_of text.now) (T.contents table.old))) }
    ensures stays { StaysTable T.TableState table.old result table.new }
{
    let before = values_of(alloc, table, text)?;
    overlay_text(table, text)?;
    let after = values_of(alloc, table, text)?;
    if before == after {
        Ok(())
    } else {
        Err(FileFault::BadCommits)
    }
}

// Puts what a log of commits says over the records of a table. Faults: BadCommits, where it begins with no line of this
// version, a line behind it is none of a log, or it is that of another file and changes records; those of a table.
fn put_over<T: Table>(
    alloc: Global,
    table: &mut T,
    text: &[u8],
    head: &[u8],
) -> Result<(), FileFault>
    ensures over { IsTrue (T.sound table.old) → (units : List (List (List ℕ))) → AreUnits units
        → text.now ≡ log_text units → OnOk result
        (IsLogOver head.now (T.contents table.old) (T.contents table.new) units) }
    ensures fault { IsTrue (T.sound table.old) → (units : List (List (List ℕ))) → AreUnits units
        → text.now ≡ log_text units → IfErr result (IsUnput ((records : Contents)
        × IsLogOver head.now (T.contents table.old) records units)) }
    ensures stays { StaysTable T.TableState table.old result table.new }
{
    if text.is_empty() {
        return Err(FileFault::BadCommits);
    }
    let (line, rest) = next_line(text);
    if !line.starts_with(HEAD) {
        return Err(FileFault::BadCommits);
    }
    if line == head {
        overlay_text(table, rest)?;
        return Ok(());
    }
    put_unchanged(alloc, table, rest)
}

// The disk of a store that wasn't written over, and the fault.
fn let_go<D: Disk + Drop>(store: KeptStore<D>, fault: FileFault) -> (D, Result<(), FileFault>)
    ensures old { IsTrue (D.steady store.disk) → (c : Files) → D.left_since result.0 0 c
        → LeavesOpening (⟦<KeptStore<D> as StoreState>⟧.opening store) c }
    ensures fault { result.1 ≡ Err fault }
    ensures steady { D.steady result.0 ≡ D.steady store.disk }
    ensures same { store.state ≢ SealState.Sealed → result.0 ≡ store.disk }
{
    let (disk, _nothing) = store.take_back();
    (disk, Err(fault))
}

// The disk of a store beside which no log stands.
fn keep_alone<D: Disk + Drop>(store: KeptStore<D>) -> (D, Result<(), FileFault>)
    requires unused { (store.state ≡ SealState.Unsealed) × (store.log ≡ None) }
    requires none { IsTrue (D.steady store.disk) → (D.began store.disk).commits.log ≡ None }
    ensures settled { IsTrue (D.steady store.disk)
        → IsSettled D.DiskState (D.seen store.disk).main result.0 }
    ensures log { IsTrue (D.steady store.disk) → HasNoLog D.DiskState result.0 }
    ensures old { IsTrue (D.steady store.disk) → (c : Files) → D.left_since result.0 0 c
        → LeavesFiles (D.began store.disk) c }
    ensures same { result.0 ≡ store.disk }
    ensures fault { result.1 ≡ Ok tt }
{
    let (disk, done) = store.finish();
    (disk, told(done))
}

/// Takes the log of commits away. Fault: Device.
pub fn end_beside<D: Disk + Drop>(disk: D) -> (D, Result<(), FileFault>)
    ensures steady { StaysSteady D.DiskState disk result.0 }
    ensures pages { LeavesPages D.DiskState disk result.0 }
    ensures gone { OnOk result.1 (HasNoLog D.DiskState result.0) }
    ensures any_moment { LeavesOnly D.DiskState (HasLogOf D.DiskState disk) disk result.0 }
    ensures failures { D.failures result.0
        ≡ counted (D.failures disk) (is_device_answer result.1) }
    ensures fault { IfErr result.1 IsOutsideFile }
{
    let mut disk = disk;
    let done = end_log(&mut disk);
    (disk, told(done))
}

/// Closes the file of a table, and takes the log of commits away that stands beside it. Faults: Device, Memory; the log stays,
/// or it and the closed file say the same.
pub fn close_beside<D: Disk + Drop>(table: TreeTable<KeptStore<D>>) -> (D, Result<(), FileFault>)
    ensures any_moment { IsTrue table.pages.steady → (c : Files) → D.left_since result.0 0 c
        → LeavesEnded table.pages.opening table.tree.order (table_contents table) c }
    ensures lasts { IsTrue table.pages.steady → (c : Files) → D.may_leave result.0 c
        → LosesNone table.pages.opening table.tree.order (table_contents table) c }
    ensures settled { IsTrue table.pages.steady → OnOk result.1
        (IsSettledWith D.DiskState table.tree.order (table_contents table) result.0) }
    ensures fault { IfErr result.1 IsOutsideFile }
    ensures failures { table.pages.guard ≡ Unsealed 0 → table.pages.tail ≡ 0
        → CountsClosing table.pages.failures (is_err result.1) (is_device_answer result.1)
        (D.failures result.0) }
    ensures steady { D.steady result.0 ≡ table.pages.steady }
{
    let (disk, done) = close_table(table);
    match done {
        Ok(()) => end_beside(disk),
        Err(fault) => (disk, Err(fault)),
    }
}

// Puts what a log of commits says over the table of its file, closes the file and takes the log away.
fn settle_table<D: Disk + Drop>(
    alloc: Global,
    table: TreeTable<KeptStore<D>>,
    text: &[u8],
    head: &[u8],
) -> (D, Result<(), FileFault>)
    ensures over { IsTrue table.pages.steady → (units : List (List (List ℕ))) → AreUnits units
        → text.now ≡ log_text units → OnOk result.1 ((records : Contents)
        × IsLogOver head.now (table_contents table) records units
        × IsSettledWith D.DiskState table.tree.order records result.0) }
    ensures any_moment { IsTrue table.pages.steady → (units : List (List (List ℕ))) → AreUnits units
        → text.now ≡ log_text units → (records : Contents)
        → IsLogOver head.now (table_contents table) records units → (c : Files)
        → D.left_since result.0 0 c
        → LeavesEnded table.pages.opening table.tree.order records c }
    ensures fault { IsTrue table.pages.steady → (units : List (List (List ℕ))) → AreUnits units
        → text.now ≡ log_text units → IfErr result.1 (IsUnput ((records : Contents)
        × IsLogOver head.now (table_contents table) records units)) }
    ensures unput { IsTrue table.pages.steady → (units : List (List (List ℕ))) → AreUnits units
        → text.now ≡ log_text units → ((records : Contents)
        → IsLogOver head.now (table_contents table) records units → ⊥) → (c : Files)
        → D.left_since result.0 0 c → LeavesOpening table.pages.opening c }
    ensures failures { table.pages.guard ≡ Unsealed 0 → table.pages.tail ≡ 0
        → CountsClosing table.pages.failures (is_err result.1) (is_device_answer result.1)
        (D.failures result.0) }
    ensures steady { D.steady result.0 ≡ table.pages.steady }
{
    let mut table = table;
    if let Err(fault) = put_over(alloc, &mut table, text, head) {
        return (give_back(table), Err(fault));
    }
    close_beside(table)
}

// Puts what the log of commits beside the file of a store says over it, closes it and takes the log away.
fn settle_file<D: Disk + Drop>(
    alloc: Global,
    store: KeptStore<D>,
    text: &[u8],
) -> (D, Result<(), FileFault>)
    requires file { IsTrue (D.steady store.disk)
        → Belongs (D.began store.disk) × ((D.seen store.disk).main ≡ recovered (D.began store.disk)) }
    requires unused { (store.state ≡ SealState.Unsealed) × (store.refusals ≡ 0) × (store.log ≡ None) }
    requires text { IsTrue (D.steady store.disk) → HasLog (IsTextOf text.now) (D.began store.disk) }
    ensures over { IsTrue (D.steady store.disk) → OnOk result.1 ((order : ℕ) × (records : Contents)
        × Finds order records (D.began store.disk)
        × IsSettledWith D.DiskState order records result.0) }
    ensures kept { IsTrue (D.steady store.disk) → (order : ℕ) → (records : Contents)
        → Finds order records (D.began store.disk) → (c : Files) → D.left_since result.0 0 c
        → Finds order records c }
    ensures fault { IsTrue (D.steady store.disk)
        → IfErr result.1 (λ fault. IsUnsettledOver (D.began store.disk) fault
        × (FindsAny (D.began store.disk) → IsSettlingFault fault)) }
    ensures unfound { IsTrue (D.steady store.disk) → (FindsAny (D.began store.disk) → ⊥)
        → (c : Files) → D.left_since result.0 0 c → LeavesFiles (D.began store.disk) c }
    ensures failures { CountsClosing (D.failures store.disk) (is_err result.1)
        (is_device_answer result.1) (D.failures result.0) }
    ensures steady { D.steady result.0 ≡ D.steady store.disk }
{
    let mut store = store;
    let head = match head_of(alloc, &mut store) {
        Ok(head) => head,
        Err(fault) => return let_go(store, fault),
    };
    match TreeTable::open_from(alloc, store, greatest_limits()) {
        Ok(table) => settle_table(alloc, table, text, &head),
        Err(stop) => let_go(stop.store, FileFault::from(stop.fault)),
    }
}

/// Puts a page file on a disk that was just opened right, as a stop left it: old pages are put back where a side file has
/// them; then what a log of commits beside it says is put over its records, the file is closed, and the log is taken away. A
/// crash at any moment of it leaves files in which an opening finds the records that it found before; where it found none, they
/// stand for what they stood for. Without a side file and a log nothing is changed.
///
/// Faults: Device, where the disk failed; Memory; BadJournal, where the side file is of another file. Where a log stands beside
/// the file, the first check of it that fails, too; of a closed file BadCommits, where the log is none of this version, or is
/// that of another file and would change records: the files stand for what they stood for then; and TooManyRecords, where more
/// than a million records would be there.
pub fn settle<D: Disk + Drop>(alloc: Global, disk: D) -> (D, Result<(), FileFault>)
    requires rest { IsAtRest D.DiskState disk }
    requires began { D.seen disk ≡ D.began disk }
    requires moment { D.moment disk ≡ 0 }
    ensures { PutsRight D.DiskState disk result.1 result.0 }
{
    let mut store = match KeptStore::open(alloc, disk) {
        Ok(store) => store,
        Err((disk, fault)) => return (disk, Err(FileFault::from(fault))),
    };
    match store.found_commits() {
        Ok(None) => keep_alone(store),
        Ok(Some(text)) => settle_file(alloc, store, &text),
        Err(fault) => let_go(store, FileFault::from(fault)),
    }
}
