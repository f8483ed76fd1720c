ghost use Rattle.std.specs.Prelude.{◌≡◌, ◌≤◌, ℕ, true, false, length, IsTrue, IfOk, IfErr, OnOk, MatchResult};
ghost use Rattle.std.specs.FinMap as maps;
ghost use Rattle.std.specs.String.{string_bytes};
ghost use Rattle.std.specs.Io.KnownBytes.{Appends};
ghost use Rattle.rec_types.specs.Contents.{Contents};
ghost use Rattle.rec_types.specs.Table.{counted};
ghost use Rattle.page_store.specs.FreeNumbers.{free_numbers};
ghost use Rattle.page_store.specs.StoreCalls.{StaysStore};
ghost use Rattle.btree_node.specs.Layout.{second_version};
ghost use Rattle.btree_insert.specs.declared.tree.Tree.{Tree as TreeValue};
ghost use Rattle.btree_delete.specs.Created.{IsOrder};
ghost use Rattle.btree_delete.specs.TableView.{IsClosed, table_contents};
ghost use Rattle.file_session.specs.Opened.{CanBeOpened};
ghost use Rattle.recfile.specs.Dumped.{DumpStops, IsDumpFault, IsSilent, is_device_dump};
ghost use Rattle.recfile.specs.FileFaults.{IsMakingFault, IsRefusal};
ghost use Rattle.file_session.specs.FileFaults.{is_device_answer};
ghost use Rattle.recfile.specs.StoreWrites.{MakesIn, wants_shape};
ghost use Rattle.recfile.specs.Tasks.{IsTreeLine, Writes};
ghost use Rattle.recfile.specs.TreeLine.{counts_in, counts_line};

use crate::dump::DumpFault;
use crate::script::write_text;
use btree_delete::TreeTable;
use file_session::FileFault;
use page_store::Store;
use rec_types::{Limits, Table};
use std::alloc::{AllocError, Global};
use std::io::Write;

/// Makes a page file with an empty tree of the order, in an empty store, which comes back. Faults: BadOrder, Device,
/// NotEmpty, Memory; nothing is written at BadOrder and at NotEmpty.
pub fn create_in<S: Store>(
    alloc: Global,
    store: S,
    order: u16,
    limits: Limits,
) -> (S, Result<(), FileFault>)
    ensures made { IsTrue (S.steady store) → OnOk result.1 ((tree : TreeValue)
        × (tree.order ≡ order)
        × IsClosed second_version (S.pages result.0) (S.tail result.0) tree maps.empty) }
    ensures order { OnOk result.1 (IsOrder order) }
    ensures fault { IfErr result.1 (IsMakingFault (S.pages store) (S.tail store) order) }
    ensures refused { IfErr result.1
        (λ fault. IsRefusal fault → StaysStore S.StoreState store result.0) }
    ensures written { MakesIn S.StoreState store order result.1 result.0 }
    ensures asked { S.shapes result.0 ≡ counted (S.shapes store) (wants_shape result.1) }
    ensures device { S.failures result.0
        ≡ counted (S.failures store) (is_device_answer result.1) }
    ensures steady { S.steady result.0 ≡ S.steady store }
{
    let table = match TreeTable::create(alloc, store, order, limits) {
        Ok(table) => table,
        Err(stop) => return (stop.store, Err(FileFault::from(stop.fault))),
    };
    match table.close() {
        Ok(store) => (store, Ok(())),
        Err(stop) => (stop.table.abandon(), Err(FileFault::from(stop.fault))),
    }
}

// What a check tells of a tree: its order, its height and its records, and the pages of its file, with page 0, and how
// many of them are free.
#[derive(Clone, Copy)]
struct TreeCounts {
    order: u16,
    height: u32,
    records: u32,
    pages: u32,
    free: u32,
}

fn counts_of<S: Store>(table: &TreeTable<S>) -> TreeCounts
    ensures tree { (result.order ≡ table.now.tree.order)
        × (result.height ≡ table.now.tree.height) }
    ensures records { IsTrue table.now.pages.steady
        → result.records ≡ maps.len (table_contents table.now) }
    ensures pages { result.pages ≡ length table.now.pages.pages }
    ensures free { result.free ≡ length (free_numbers table.now.pages.pages) }
{
    TreeCounts {
        order: table.order(),
        height: table.height(),
        records: table.count(),
        pages: table.page_count(),
        free: table.free_count(),
    }
}

// The line of these counts. Fault: out of memory.
fn line_of(alloc: Global, counts: &TreeCounts) -> Result<String, AllocError>
    ensures { IfOk result (λ line. string_bytes line ≡ counts_line counts.now) }
{
    let TreeCounts {
        order,
        height,
        records,
        pages,
        free,
    } = counts;
    let mut line = String::new(alloc);
    write!(
        line,
        "order {order} height {height} records {records} pages {pages} free {free}\n"
    )?;
    Ok(line)
}

// Writes the line of these counts. Faults: Memory; Write, where a front of the line is written.
fn tell_counts<W: Write>(alloc: Global, counts: &TreeCounts, out: &mut W) -> Result<(), DumpFault>
    ensures told { OnOk result
        (Appends (W.contents out.old) (W.contents out.new) (counts_line counts.now)) }
    ensures stops { IfErr result
        (DumpStops (W.contents out.old) (W.contents out.new) (counts_line counts.now)) }
    ensures silent { IfErr result (IsSilent (W.contents out.old) (W.contents out.new)) }
    ensures device { is_device_dump result ≡ false }
{
    let line = line_of(alloc, counts).map_err(|_| DumpFault::File(FileFault::Memory))?;
    write_text(out, line.as_bytes()).map_err(|_| DumpFault::Write)
}

/// Opens a page file, and tells of its tree in one line: its order, its height, its records, its pages with page 0,
/// and how many of them are free. It writes nothing to the store, which comes back. Faults: those of opening; Memory;
/// Write, where a front of the line is written.
pub fn check_in<S: Store, W: Write>(
    alloc: Global,
    store: S,
    limits: Limits,
    out: &mut W,
) -> (S, Result<(), DumpFault>)
    ensures closed { IsTrue (S.steady store)
        → OnOk result.1 (CanBeOpened (S.pages store) (S.tail store) limits.records) }
    ensures first { IsTrue (S.steady store) → IfErr result.1
        (IsDumpFault (S.pages store) (S.tail store) limits.records) }
    ensures silent { IfErr result.1 (IsSilent (W.contents out.old) (W.contents out.new)) }
    ensures told { IsTrue (S.steady store) → (tree : TreeValue) → (contents : Contents)
        → (version : ℕ) → IsClosed version (S.pages store) (S.tail store) tree contents
        → tree.count ≤ limits.records
        → MatchResult result.1
        (λ _. Appends (W.contents out.old) (W.contents out.new)
        (counts_line (counts_in tree contents (length (S.pages store)))))
        (DumpStops (W.contents out.old) (W.contents out.new)
        (counts_line (counts_in tree contents (length (S.pages store))))) }
    ensures written { Writes IsTreeLine (W.contents out.old) (W.contents out.new) result.1 }
    ensures stays { StaysStore S.StoreState store result.0 }
    ensures asked { S.shapes result.0 ≡ counted (S.shapes store) true }
    ensures device { S.failures result.0
        ≡ counted (S.failures store) (is_device_dump result.1) }
{
    let table = match TreeTable::open_from(alloc, store, limits) {
        Ok(table) => table,
        Err(stop) => return (
            stop.store,
            Err(DumpFault::from(FileFault::from(stop.fault))),
        ),
    };
    let told = tell_counts(alloc, &counts_of(&table), out);
    (table.abandon(), told)
}
