ghost use Rattle.std.specs.Prelude.{◌≡◌, ◌*◌, ◌<◌, ◌↔◌, [], IfOk, IsOk};
ghost use Rattle.rec_types.specs.Table.{counted};
ghost use Rattle.rec_types.specs.Widths.{page_width};
ghost use Rattle.page_store.specs.OpenedFile.{OpensStore};
ghost use Rattle.page_store.specs.StoreFaults.{is_failed, OnlyFails};

use crate::count::count_up;
use crate::store::Store;
use crate::store_fault::{Shape, StoreFault};
use crate::store_state::StoreState;
use file_system::{System, SystemFile};
use rec_types::PAGE_WIDTH;
use std::io;
use std::marker::Model;
use std::os::unix::fs::FileExt;

/// Who may read and write a new file, before the process takes away what it takes from each.
const NEW_MODE: u32 = 0o666;

/// The bytes of a page, counted as a file's are.
const PAGE_BYTES: u64 = PAGE_WIDTH as u64;

/// A store in a file. The file's length is taken once, at opening, and kept; only `set_pages` changes
/// it. Contracts see pages and whether the store is steady, of which they tell no more than `Store`
/// does: no clause says that a file gives back what it took, and none that it doesn't.
#[derive(Drop)]
pub struct FileStore<F> {
    file: F,
    pages: u64,
    tail: u16,
    reads: u64,
    shapes: u64,
    writes: u64,
    failures: u64,
}

impl<F> Model for FileStore<F> {
    ghost use Rattle.std.specs.Prelude.{◌<◌};
    ghost use Rattle.rec_types.specs.Widths.{page_width};
    ghost use Rattle.page_store.specs.OpenedFile.{OpenedFile};
    ghost use Rattle.page_store.specs.FileValues.{gives_back, pages_in_file};

    ghost Value = { OpenedFile };

    // The pages and `steady` are values that meet the clauses over any file: no clause tells which.
    ghost view = { λ s. record {
      pages = pages_in_file s.pages;
      tail = s.tail;
      steady = gives_back;
      reads = s.reads;
      shapes = s.shapes;
      writes = s.writes;
      failures = s.failures;
    } };

    ghost invariant = { λ s. s.tail < page_width };
}

impl<F: SystemFile + Drop> FileStore<F> {
    /// Opens the file of that path to read and write it, and takes the lock that no other opening shares. Fault: Failed,
    /// as where there is no file or another opening has a lock.
    pub fn open_path<R: System<File = F>>(rt: &R, path: &str) -> Result<FileStore<F>, StoreFault>
        ensures { OpensStore result }
    {
        let file = rt.open_update(path)?;
        file.try_lock()?;
        FileStore::over(file)
    }

    /// Opens the file of that path to read it, and takes the lock that other readers share; writes to the store fail.
    /// Fault: Failed, as where there is no file or a writer has a lock.
    pub fn open_to_read<R: System<File = F>>(rt: &R, path: &str) -> Result<FileStore<F>, StoreFault>
        ensures { OpensStore result }
    {
        let file = rt.open_read(path)?;
        file.try_lock_shared()?;
        FileStore::over(file)
    }

    /// Makes a new file at that path, of no pages, and takes the lock that no other opening shares. Fault: Failed, as
    /// where there is a file; none was made then.
    pub fn create_new<R: System<File = F>>(rt: &R, path: &str) -> Result<FileStore<F>, StoreFault>
        ensures created { IfOk result (λ store. store ≡ record {
          pages = [];
          tail = 0;
          steady = store.steady;
          reads = 0;
          shapes = 0;
          writes = 0;
          failures = 0;
        }) }
        ensures fault { OnlyFails result }
    {
        let file = rt.make_new(path, NEW_MODE)?;
        if file.try_lock().is_err() {
            rt.remove(path)?;
            return Err(StoreFault::Failed);
        }
        Ok(FileStore {
            file,
            pages: 0,
            tail: 0,
            reads: 0,
            shapes: 0,
            writes: 0,
            failures: 0,
        })
    }

    /// Whether the path leads to this file.
    pub fn is_at<R: System<File = F>>(&self, rt: &R, path: &str) -> bool {
        match (rt.facts_of(path), self.file.facts()) {
            (Ok(found), Ok(opened)) => found.is_same_file(&opened),
            _ => false,
        }
    }

    // A store over a file that was opened. Fault: Failed.
    fn over(file: F) -> Result<FileStore<F>, StoreFault>
        ensures { OpensStore result }
    {
        let len = file.facts()?.len;
        Ok(FileStore {
            file,
            pages: len / PAGE_BYTES,
            tail: (len % PAGE_BYTES) as u16,
            reads: 0,
            shapes: 0,
            writes: 0,
            failures: 0,
        })
    }
}

/// Where page n begins in the file.
fn page_start(n: u32) -> u64
    ensures { result ≡ n * page_width }
{
    u64::from(n) * PAGE_BYTES
}

/// The answer for the caller, with a failure counted.
fn noted(failures: &mut u64, answer: io::Result<()>) -> Result<(), StoreFault>
    ensures failures { failures.new ≡ counted failures.old (is_failed result) }
    ensures told { IsOk result ↔ IsOk answer }
    ensures fault { OnlyFails result }
{
    if answer.is_err() {
        count_up(failures);
        return Err(StoreFault::Failed);
    }
    Ok(())
}

impl<F: SystemFile + Drop> StoreState for FileStore<F> {
    ghost use Rattle.std.specs.Prelude.{None};
    ghost use Rattle.page_store.specs.Opening.{untold};
    ghost use Rattle.page_store.specs.Guards.{Unguarded};

    ghost pages = { λ s. s.pages };

    ghost tail = { λ s. s.tail };

    ghost steady = { λ s. s.steady };

    ghost opening = { λ _. untold };

    ghost reads = { λ s. s.reads };

    ghost shapes = { λ s. s.shapes };

    ghost writes = { λ s. s.writes };

    ghost failures = { λ s. s.failures };

    ghost journal = { λ _. None };

    ghost guard = { λ _. Unguarded };
}

impl<F: SystemFile + Drop> Store for FileStore<F> {
    fn shape(&mut self) -> Result<Shape, StoreFault> {
        count_up(&mut self.shapes);
        Ok(Shape {
            pages: self.pages,
            tail: self.tail,
        })
    }

    fn read(&mut self, n: u32, to: &mut [u8; PAGE_WIDTH]) -> Result<(), StoreFault> {
        count_up(&mut self.reads);
        let answer = self.file.read_exact_at(to, page_start(n));
        noted(&mut self.failures, answer)
    }

    fn write(&mut self, n: u32, from: &[u8; PAGE_WIDTH]) -> Result<(), StoreFault> {
        count_up(&mut self.writes);
        let answer = self.file.write_all_at(from, page_start(n));
        noted(&mut self.failures, answer)
    }

    /// Cuts the tail off first, so that the pages added are zero.
    fn set_pages(&mut self, n: u32) -> Result<(), StoreFault> {
        count_up(&mut self.writes);
        if self.tail > 0 {
            let answer = self.file.set_len(self.pages * PAGE_BYTES);
            noted(&mut self.failures, answer)?;
            self.tail = 0;
        }
        let answer = self.file.set_len(page_start(n));
        noted(&mut self.failures, answer)?;
        self.pages = u64::from(n);
        Ok(())
    }

    fn sync(&mut self) -> Result<(), StoreFault> {
        count_up(&mut self.writes);
        let answer = self.file.sync_all();
        noted(&mut self.failures, answer)
    }
}
