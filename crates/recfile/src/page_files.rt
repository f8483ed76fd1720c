ghost use Rattle.std.specs.Prelude.{◌≡◌, ◌⊎◌, ℕ, List, None, IsTrue, IfOk, IsErr};
ghost use Rattle.btree_delete.specs.Created.{IsEmpty};
ghost use Rattle.page_journal.specs.Crash.{IsAtRest};
ghost use Rattle.page_journal.specs.Files.{Files};
ghost use Rattle.recfile.specs.FilesAt.{IsCleanAt, IsFoundAt};

use crate::dump::DumpFault;
use crate::telling::Telling;
use file_session::FileFault;
use page_journal::Disk;
use page_looks::{Reach, Wanted};
use page_store::Store;
use std::alloc::Global;
use std::io::Write;

/// Where page files are found by their paths. A program hands in the one over the files that it has; so what is said of
/// its tasks is said of every kind of file.
pub trait PageFiles {
    /// A page file that is opened to be written, with the side file and the log of commits beside it.
    type Device: Disk + Drop;
    /// A page file that is opened to be read, or that is new.
    type Pages: Store;

    /// Whether these are the files at a path: the page file, and the side file and the log of commits beside it.
    ghost at: { Self → List ℕ → Files → Type 0 };

    /// Opens the page file at the path to write it, as no other opening may meanwhile. Where something that is no file has the
    /// name of a log of commits it is BadCommits, and where a side file doesn't belong to the file BadJournal; neither changes
    /// anything. Faults: Device, as where there is no file; BadCommits; BadJournal; Memory.
    fn open(&self, alloc: Global, path: &str) -> Result<Self::Device, FileFault>
        ensures found { IfOk result (λ disk. IsTrue (Self.Device.steady disk)
            → Self.at self.now path.now (Self.Device.began disk)) }
        ensures rest { IfOk result (IsAtRest Self.Device.DiskState) }
        ensures began { IfOk result (λ disk. Self.Device.seen disk ≡ Self.Device.began disk) }
        ensures moment { IfOk result (λ disk. Self.Device.moment disk ≡ 0) }
        ensures failures { IfOk result (λ disk. Self.Device.failures disk ≡ 0) };

    /// Opens the page file at the path to read it. Where a side file or a log of commits stands beside it a session was
    /// stopped, and it isn't clean: putting the old pages back, or the commits in, would write. Faults: Device, as where there
    /// is no file; NotClean; Memory.
    fn open_clean(&self, alloc: Global, path: &str) -> Result<Self::Pages, FileFault>
        ensures found { IfOk result (λ store. IsTrue (Self.Pages.steady store)
            → IsCleanAt (Self.at self.now path.now) (Self.Pages.pages store) (Self.Pages.tail store)) };

    /// Opens the file at the path to read it, whatever it is, and tells which of its pages its tree leads to, with what is
    /// wrong with the others on `err`. Faults: Device, as where there is no file; Memory.
    fn open_damaged<E: Write>(
        &self,
        alloc: Global,
        path: &str,
        err: &mut E,
    ) -> Result<(Self::Pages, Reach), FileFault>
        ensures found { IfOk result (λ opened. IsTrue (Self.Pages.steady opened.0)
            → IsFoundAt (Self.at self.now path.now) (Self.Pages.pages opened.0) (Self.Pages.tail opened.0)) };

    /// Makes a page file without pages at the path, where there is none. A side file or a log of commits of that name is of
    /// another file, and stays. Faults: Device, as where there is a file; BadJournal; BadCommits; Memory. No file is made then.
    fn create(&self, alloc: Global, path: &str) -> Result<Self::Pages, FileFault>
        ensures empty { IfOk result
            (λ store. IsEmpty (Self.Pages.pages store) (Self.Pages.tail store)) };

    /// Ends the making of a file at a path: where its pages were written, the device keeps its name, and else the file is
    /// taken away. Faults: that of the writing; else Device, Memory, and no file stays.
    fn settle(
        &self,
        alloc: Global,
        path: &str,
        store: &Self::Pages,
        made: Result<(), FileFault>,
    ) -> Result<(), FileFault>
        ensures { IsErr result ⊎ (result ≡ made) };

    /// Tells of the file at the path, whatever it is, and answers whether a check of it finds no fault; what keeps a tree
    /// from being drawn stands on `err`. It only reads the file. Faults: Memory; Write, where the text can't be written whole.
    fn tell<W: Write, E: Write>(
        &self,
        alloc: Global,
        telling: Telling,
        path: &str,
        out: &mut W,
        err: &mut E,
    ) -> Result<bool, DumpFault>;

    /// Tells on `err` why the file at the path isn't made, read or written, as far as it can be told behind a fault of the
    /// device. It leaves the file as it is.
    fn tell_why<E: Write>(&self, alloc: Global, wanted: Wanted, path: &str, err: &mut E);
}
