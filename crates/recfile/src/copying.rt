ghost use Rattle.std.specs.Prelude.{ℕ, IsTrue, IsOk, IfOk, IfErr, OnOk};
ghost use Rattle.page_store.specs.StoreCalls.{StaysStore};
ghost use Rattle.file_session.specs.Opened.{CanBeOpened, IsFirstOrOutside};
ghost use Rattle.recfile.specs.FilesAt.{IsCopyOf, IsCopyingFault, IsOfCopying};

use crate::page_files::PageFiles;
use btree_delete::TreeTable;
use file_session::FileFault;
use page_copy::{CopyFault, copy_pages};
use page_store::Store;
use rec_types::Limits;
use std::alloc::Global;

/// Why no copy of a page file was made: a fault of the file, or of the copy.
#[derive(Clone, Copy, Debug, PartialEq, Eq)]
pub enum CopyingFault {
    OfFile(FileFault),
    OfCopy(FileFault),
}

impl CopyingFault {
    // The name of the fault.
    fn name(self) -> FileFault {
        match self {
            CopyingFault::OfFile(fault) | CopyingFault::OfCopy(fault) => fault,
        }
    }
}

impl From<FileFault> for CopyingFault {
    ghost use Rattle.std.specs.Prelude.{◌≡◌};
    ghost use Rattle.recfile.specs.declared.copying.CopyingFault.TheVariants.{OfFile};

    ghost from_gives = { λ fault named. named ≡ OfFile fault };

    fn from(fault: FileFault) -> CopyingFault {
        CopyingFault::OfFile(fault)
    }
}

impl From<CopyFault> for CopyingFault {
    ghost use Rattle.std.specs.Prelude.{◌≡◌};
    ghost use Rattle.recfile.specs.FileFaults.{fault_of_copying};

    ghost from_gives = { λ fault named. named ≡ fault_of_copying fault };

    fn from(fault: CopyFault) -> CopyingFault {
        match fault {
            CopyFault::Source => CopyingFault::OfFile(FileFault::Device),
            CopyFault::Length => CopyingFault::OfFile(FileFault::BadLength),
            CopyFault::Copy(fault) => CopyingFault::OfCopy(FileFault::from(fault)),
        }
    }
}

/// A store that is a page file, which was checked whole; nothing is written to it. Faults: those of opening.
pub fn open_whole<S: Store>(alloc: Global, store: S, limits: Limits) -> Result<S, FileFault>
    ensures closed { IsTrue (S.steady store)
        → OnOk result (CanBeOpened (S.pages store) (S.tail store) limits.records) }
    ensures first { IsTrue (S.steady store) → IfErr result
        (IsFirstOrOutside (S.pages store) (S.tail store) limits.records) }
    ensures stays { IfOk result (λ same. StaysStore S.StoreState store same) }
{
    match TreeTable::open_from(alloc, store, limits) {
        Ok(table) => Ok(table.abandon()),
        Err(stop) => Err(FileFault::from(stop.fault)),
    }
}

// Ends the making of a copy at a path: it stays where the pages were copied, and else it is taken away. Faults: that of the
// copying, as of the file or of the copy; those of the copy.
fn settle_copy<P: PageFiles>(
    files: &P,
    alloc: Global,
    to: &str,
    copy: &P::Pages,
    copied: Result<(), CopyFault>,
) -> Result<(), CopyingFault>
    ensures copied { OnOk result (IsOk copied) }
    ensures fault { IfErr result (IsOfCopying copied) }
{
    let Err(fault) = copied else {
        return match files.settle(alloc, to, copy, Ok(())) {
            Ok(()) => Ok(()),
            Err(fault) => Err(CopyingFault::OfCopy(fault)),
        };
    };
    let fault = CopyingFault::from(fault);
    match files.settle(alloc, to, copy, Err(fault.name())) {
        Err(left) if left != fault.name() => Err(CopyingFault::OfCopy(left)),
        _ => Err(fault),
    }
}

/// Makes a copy of a page file at a path where there is none: its pages one by one, which the device keeps, and then its
/// name. Nothing is written to the file. Faults: those of making a file, of the copy; Device, of either. No file stays at
/// the path then, but where the device doesn't take it away.
pub fn copy_into<P: PageFiles>(
    files: &P,
    alloc: Global,
    source: &mut P::Pages,
    to: &str,
) -> Result<(), CopyingFault>
    ensures copied { OnOk result ((copy : P.Pages) × (IsTrue (P.Pages.steady source.old)
        → IsTrue (P.Pages.steady copy) → IsCopyOf P.Pages.StoreState source.old copy)) }
    ensures fault { (limit : ℕ) → CanBeOpened (P.Pages.pages source.old) (P.Pages.tail source.old) limit
        → IfErr result (IsCopyingFault (P.Pages.pages source.old) (P.Pages.tail source.old) limit) }
    ensures stays { StaysStore P.Pages.StoreState source.old source.new }
{
    let mut copy = match files.create(alloc, to) {
        Ok(copy) => copy,
        Err(fault) => return Err(CopyingFault::OfCopy(fault)),
    };
    let copied = copy_pages(source, &mut copy);
    settle_copy(files, alloc, to, &copy, copied)
}
