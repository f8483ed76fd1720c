ghost use Rattle.std.specs.Prelude.{◌≡◌};

use crate::dump::DumpFault;
use crate::page_files::PageFiles;
use crate::telling::Telling;
use file_session::FileFault;
use file_system::{HostFile, HostSystem, Lock};
use page_journal::{FileDisk, has_side_file_or_log, keep_made, make_file, take_away};
use page_looks::{Reach, Wanted, explain_file, reach_file, show_file, tell_why};
use page_store::FileStore;
use std::alloc::Global;
use std::fs::OpenFile;
use std::io;
use std::io::Write;
use std::os::unix::fs::FileExt;
use std::rt::Files;

/// The page files of a file system.
#[derive(Clone, Copy)]
pub struct SystemFiles<'a, H> {
    rt: &'a H,
}

impl<'a, H> SystemFiles<'a, H> {
    /// Those that the program's runtime reaches.
    pub fn new(rt: &'a H) -> SystemFiles<'a, H> {
        SystemFiles { rt }
    }
}

// Why a text about a file isn't whole.
fn text_fault(error: io::Error) -> DumpFault {
    match error.kind() {
        io::ErrorKind::OutOfMemory => DumpFault::File(FileFault::Memory),
        _ => DumpFault::Write,
    }
}

impl<'a, F: OpenFile + FileExt + Lock + Drop, H: Files<File = F>> PageFiles for SystemFiles<'a, H> {
    type Device = FileDisk<HostSystem<'a, H>, HostFile<F>>;

    type Pages = FileStore<HostFile<F>>;

    // Which files a system finds at a path no clause can say.
    ghost at = { λ _ _ _. Unit {0} };

    fn open(
        &self,
        alloc: Global,
        path: &str,
    ) -> Result<FileDisk<HostSystem<'a, H>, HostFile<F>>, FileFault> {
        Ok(FileDisk::open(HostSystem::new(self.rt), alloc, path)?)
    }

    fn open_clean(&self, alloc: Global, path: &str) -> Result<FileStore<HostFile<F>>, FileFault> {
        let system = HostSystem::new(self.rt);
        let store = FileStore::open_to_read(&system, path)?;
        if has_side_file_or_log(&system, alloc, path)? {
            return Err(FileFault::NotClean);
        }
        Ok(store)
    }

    fn open_damaged<E: Write>(
        &self,
        alloc: Global,
        path: &str,
        err: &mut E,
    ) -> Result<(FileStore<HostFile<F>>, Reach), FileFault> {
        let store = FileStore::open_to_read(&HostSystem::new(self.rt), path)?;
        match reach_file(self.rt, alloc, path, err) {
            Ok(reach) => Ok((store, reach)),
            Err(_) => Err(FileFault::Memory),
        }
    }

    fn create(&self, alloc: Global, path: &str) -> Result<FileStore<HostFile<F>>, FileFault> {
        Ok(make_file(&HostSystem::new(self.rt), alloc, path)?)
    }

    fn settle(
        &self,
        alloc: Global,
        path: &str,
        store: &FileStore<HostFile<F>>,
        made: Result<(), FileFault>,
    ) -> Result<(), FileFault> {
        let system = HostSystem::new(self.rt);
        let kept = match made {
            Ok(()) => keep_made(&system, alloc, path),
            Err(fault) => {
                take_away(&system, path, store)?;
                return Err(fault);
            }
        };
        if let Err(fault) = kept {
            take_away(&system, path, store)?;
            return Err(FileFault::from(fault));
        }
        Ok(())
    }

    fn tell<W: Write, E: Write>(
        &self,
        alloc: Global,
        telling: Telling,
        path: &str,
        out: &mut W,
        err: &mut E,
    ) -> Result<bool, DumpFault> {
        let told = match telling {
            Telling::Explanation => explain_file(self.rt, alloc, path, out),
            Telling::Tree(drawing) => show_file(self.rt, alloc, path, drawing, out, err),
        };
        told.map_err(text_fault)
    }

    fn tell_why<E: Write>(&self, alloc: Global, wanted: Wanted, path: &str, err: &mut E) {
        let _ = tell_why(self.rt, alloc, wanted, path, err);
    }
}
