ghost use Rattle.std.specs.Prelude.{◌≡◌, ◌≤◌, ℕ, None, true, false, IsTrue, IfErr, OnOk, MatchResult};
ghost use Rattle.std.specs.FinMap as maps;
ghost use Rattle.rec_types.specs.Contents.{Contents};
ghost use Rattle.rec_types.specs.Table.{counted};
ghost use Rattle.page_store.specs.PagesView.{with_reads};
ghost use Rattle.page_store.specs.StoreCalls.{StaysStore};
ghost use Rattle.btree_insert.specs.declared.tree.Tree.{Tree as TreeValue};
ghost use Rattle.btree_delete.specs.TableView.{IsClosed, table_contents};
ghost use Rattle.command_text.specs.Dump.{dump_text};
ghost use Rattle.file_session.specs.Opened.{CanBeOpened};
ghost use Rattle.recfile.specs.Dumped.{IsDumpFault, IsSilent, IsSilentInside, Dumps, DumpStops, ReadingStops, is_device_dump, text_in};
ghost use Rattle.recfile.specs.Tasks.{IsDump, IsSaved, Writes, WritesListed};

use crate::dump_text::DumpText;
use crate::script::write_text;
use btree_delete::TreeTable;
use btree_node::Header;
use command_text::write_dump;
use file_session::FileFault;
use page_rescue::{RescueFault, rescue_pages};
use page_store::Store;
use rec_types::{Key, Limits, Memory, Record, Table};
use record_texts::Form;
use std::alloc::{AllocError, Global};
use std::io::Write;
use thiserror::Error;

/// Why the text that tells of a file wasn't written: a fault of the file, or it couldn't be written whole.
#[derive(Clone, Copy, Debug, PartialEq, Eq, Error)]
pub enum DumpFault {
    #[error("{0}")]
    File(FileFault),
    #[error("WriteFault")]
    Write,
}

impl From<FileFault> for DumpFault {
    ghost use Rattle.std.specs.Prelude.{◌≡◌};
    ghost use Rattle.recfile.specs.declared.dump.DumpFault.TheVariants.{File};

    ghost from_gives = { λ fault named. named ≡ File fault };

    fn from(fault: FileFault) -> DumpFault {
        DumpFault::File(fault)
    }
}

impl From<AllocError> for DumpFault {
    ghost use Rattle.std.specs.Prelude.{◌≡◌};
    ghost use Rattle.recfile.specs.declared.dump.DumpFault.TheVariants.{File};
    ghost use Rattle.file_session.specs.declared.file_fault.FileFault.TheVariants.{Memory};

    ghost from_gives = { λ _ named. named ≡ File Memory };

    fn from(_: AllocError) -> DumpFault {
        DumpFault::File(FileFault::Memory)
    }
}

impl From<Memory> for DumpFault {
    ghost use Rattle.std.specs.Prelude.{◌≡◌};
    ghost use Rattle.recfile.specs.declared.dump.DumpFault.TheVariants.{File};
    ghost use Rattle.file_session.specs.declared.file_fault.FileFault.TheVariants.{Memory};

    ghost from_gives = { λ _ named. named ≡ File Memory };

    fn from(_: Memory) -> DumpFault {
        DumpFault::File(FileFault::Memory)
    }
}

impl From<RescueFault> for DumpFault {
    ghost use Rattle.recfile.specs.Dumped.{IsFileFault};

    ghost from_gives = { λ _ named. IsFileFault named };

    fn from(fault: RescueFault) -> DumpFault {
        DumpFault::File(match fault {
            RescueFault::Device => FileFault::Device,
            RescueFault::BadLength => FileFault::BadLength,
            RescueFault::TooManyRecords => FileFault::TooManyRecords,
            RescueFault::Memory => FileFault::Memory,
        })
    }
}

// Writes the records of a table in a form, or as a script, while it lists them. Faults: Device, Damaged, Memory and Write; a
// front of the text is written then.
fn dump_table<S: Store, W: Write>(
    alloc: Global,
    table: &mut TreeTable<S>,
    form: Option<Form>,
    out: &mut W,
) -> Result<(), DumpFault>
    ensures dumped { IsTrue table.old.pages.steady → MatchResult result
        (λ _. Dumps form (W.contents out.old) (W.contents out.new)
        (maps.entries (table_contents table.old)))
        (ReadingStops (W.contents out.old) (W.contents out.new)
        (text_in form (maps.entries (table_contents table.old)))) }
    ensures written { WritesListed (IsDump form) (W.contents out.old) (W.contents out.new) result }
    ensures pages { table.new.pages ≡ with_reads table.old.pages table.new.pages }
    ensures device { table.new.pages.failures
        ≡ counted table.old.pages.failures (is_device_dump result) }
{
    let mut text = DumpText::begin(alloc, form)?;
    match table.tell(&mut text, out) {
        Ok(taken) => match taken {
            Ok(()) => text.end(out),
            Err(fault) => Err(fault),
        },
        Err(fault) => Err(DumpFault::File(FileFault::from(fault))),
    }
}

// Writes records as a script. Faults: Memory, Write.
fn write_script<W: Write>(
    alloc: Global,
    records: &[(Key, Record)],
    out: &mut W,
) -> Result<(), DumpFault>
    ensures dumped { OnOk result
        (Dumps None (W.contents out.old) (W.contents out.new) records.now) }
    ensures stops { IfErr result
        (DumpStops (W.contents out.old) (W.contents out.new) (dump_text records.now)) }
    ensures silent { IfErr result (IsSilent (W.contents out.old) (W.contents out.new)) }
{
    let text = write_dump(alloc, records)?;
    write_text(out, &text).map_err(|_| DumpFault::Write)
}

/// Writes the records of the whole pages of a store as a script, as `rescue_pages` saves them; `header` is what page 0
/// says, and `reached` tells to which pages the tree leads. The store is only read. Faults: Device, BadLength,
/// TooManyRecords and Memory, as of `rescue_pages`; Write, where a front of the text is written.
pub fn rescue_in<S: Store, W: Write>(
    alloc: Global,
    store: &mut S,
    header: Option<Header>,
    reached: &[bool],
    out: &mut W,
) -> Result<(), DumpFault>
    ensures saved { IsTrue (S.steady store.old)
        → Writes (IsSaved (S.pages store.old)) (W.contents out.old) (W.contents out.new) result }
    ensures written { Writes (IsDump None) (W.contents out.old) (W.contents out.new) result }
    ensures stays { StaysStore S.StoreState store.old store.new }
{
    let rescued = rescue_pages(alloc, store, header, reached)?;
    write_script(alloc, &rescued.records, out)
}

/// Opens a page file, and writes its records in key order while it reads them: in a form, or as a script that puts them in one
/// transaction. It writes nothing to the store, which comes back, and holds no more than a piece of the text. Faults: those of
/// opening, where nothing is written; Device, Memory and Write, where a front of the text may be written, and a script has no
/// commit.
pub fn dump_in<S: Store, W: Write>(
    alloc: Global,
    store: S,
    limits: Limits,
    form: Option<Form>,
    out: &mut W,
) -> (S, Result<(), DumpFault>)
    ensures closed { IsTrue (S.steady store)
        → OnOk result.1 (CanBeOpened (S.pages store) (S.tail store) limits.records) }
    ensures first { IsTrue (S.steady store) → IfErr result.1
        (IsDumpFault (S.pages store) (S.tail store) limits.records) }
    ensures silent { IsTrue (S.steady store)
        → IfErr result.1 (IsSilentInside (W.contents out.old) (W.contents out.new)) }
    ensures dumped { IsTrue (S.steady store) → (tree : TreeValue) → (contents : Contents)
        → (version : ℕ) → IsClosed version (S.pages store) (S.tail store) tree contents
        → tree.count ≤ limits.records
        → MatchResult result.1
        (λ _. Dumps form (W.contents out.old) (W.contents out.new) (maps.entries contents))
        (ReadingStops (W.contents out.old) (W.contents out.new)
        (text_in form (maps.entries contents))) }
    ensures written { WritesListed (IsDump form) (W.contents out.old) (W.contents out.new) result.1 }
    ensures stays { StaysStore S.StoreState store result.0 }
    ensures asked { S.shapes result.0 ≡ counted (S.shapes store) true }
    ensures device { S.failures result.0
        ≡ counted (S.failures store) (is_device_dump result.1) }
{
    let mut table = match TreeTable::open_from(alloc, store, limits) {
        Ok(table) => table,
        Err(stop) => return (
            stop.store,
            Err(DumpFault::File(FileFault::from(stop.fault))),
        ),
    };
    let dumped = dump_table(alloc, &mut table, form, out);
    (table.abandon(), dumped)
}
