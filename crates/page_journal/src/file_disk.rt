ghost use Rattle.std.specs.Prelude.{◌≡◌, ◌⊎◌, ◌*◌, ◌^◌, ◌<◌, ◌≤◌, ◌==◌, [], ◌∷◌, length, false, true, IsTrue, IfOk, IfErr, OnErr};
ghost use Rattle.rec_types.specs.Table.{counted};
ghost use Rattle.rec_types.specs.Widths.{page_width};
ghost use Rattle.page_store.specs.StoreFaults.{is_failed, OnlyFails};
ghost use Rattle.page_journal.specs.Crash.{IsAtRest};
ghost use Rattle.page_journal.specs.FileEvents.{Opened, Grow, Cut, CutTail, all_noted, call_by_numbers, keeps_length, with_noted};
ghost use Rattle.page_journal.specs.FileDisks.{Notes, Refuses};

use crate::beside::Beside;
use crate::call_record::Record;
use crate::disk::Disk;
use crate::disk_state::DiskState;
use crate::log_beside::LogBeside;
use crate::making::is_free;
use crate::noted::{noted_call, told_call};
use crate::opening_fault::OpeningFault;
use crate::recovering::look_beside;
use crate::side_files::SideFiles;
use crate::side_names::SideNames;
use crate::side_shape::SideShape;
use file_system::{FileFacts, System, SystemFile};
use page_store::{Shape, StoreFault};
use rec_types::PAGE_WIDTH;
use std::alloc::Global;
use std::io;
use std::marker::Model;
use std::os::unix::fs::FileExt;

/// The bytes of a page, counted as a file's are.
const PAGE_BYTES: u64 = PAGE_WIDTH as u64;

// The kinds of what is noted.
const OPENED: u64 = 0;

const BEGUN_AGAIN: u64 = 1;

const WRITTEN: u64 = 2;

const GROWN: u64 = 3;

const CUT: u64 = 4;

const SYNCED: u64 = 5;

const STARTED: u64 = 6;

const KEPT: u64 = 7;

const FRESH_SYNCED: u64 = 8;

const NAMED: u64 = 9;

const REMOVED: u64 = 10;

const NAMES_SYNCED: u64 = 11;

const LOG_STARTED: u64 = 12;

const FRESH_LOG_SYNCED: u64 = 13;

const LOG_NAMED: u64 = 14;

const LOG_REMOVED: u64 = 15;

const LOG_LENGTHENED: u64 = 16;

const LOG_WRITTEN: u64 = 17;

const LOG_SYNCED: u64 = 18;

const TAIL_CUT: u64 = 19;

/// A page file on a file system, with its side file and its log of commits beside it: for a file FILE these are
/// `FILE-journal` and `FILE-commits`, with `-new` behind that while they are made. The file is locked against other openings. Its length is taken once, at opening,
/// and kept. Each method makes the call of the system that it stands for; contracts tell no more of what is read and of
/// what a crash leaves than `Disk` does.
///
/// What other programs left unsynced is kept by the device before the first call that changes anything, or at opening
/// where a side file or a log is there. The moments of a crash are counted from then on: one before it leaves what it would have
/// left without this opening, which has changed nothing.
#[derive(Drop)]
pub struct FileDisk<H, F> {
    file: F,
    beside: SideFiles<H, F>,
    /// Whether the device was asked to keep what was there at opening.
    settled: bool,
    pages: u64,
    tail: u16,
    calls: Record,
    failures: u64,
}

impl<H, F> Model for FileDisk<H, F> {
    ghost use Rattle.std.specs.Prelude.{◌≡◌, ◌<◌, length};
    ghost use Rattle.rec_types.specs.Widths.{page_width};
    ghost use Rattle.page_journal.specs.FileEvents.{FileHistory, history, seen_by};

    ghost Value = { FileHistory };

    ghost view = { λ d. history d.calls.events d.failures };

    ghost invariant = { λ d. (d.tail < page_width)
        × (d.pages ≡ length (seen_by d.calls.events).main.pages)
        × (d.tail ≡ (seen_by d.calls.events).main.tail) };
}

// What is noted of whether a call failed.
fn flag_of(answer: &Result<(), StoreFault>) -> u64
    requires { OnlyFails answer.now }
    ensures { (result == 1) ≡ is_failed answer.now }
{
    match answer {
        Ok(()) => 0,
        Err(_) => 1,
    }
}

// The record of a file that was just opened.
fn just_opened(pages: u64, tail: u16) -> Record
    ensures { result.events ≡ Opened pages tail ∷ [] }
{
    let mut calls = Record::new();
    calls.note(&[OPENED, pages, tail as u64, 0], &[]);
    calls
}

/// Where page n begins in the file.
fn page_start(n: u32) -> u64
    ensures { result ≡ n * page_width }
{
    u64::from(n) * PAGE_BYTES
}

impl<H: System<File = F> + Drop, F: SystemFile + Drop> FileDisk<H, F> {
    /// Opens the file of that path to read and write it, and takes the lock that no other opening shares. What a stop
    /// left beside it is looked at: a side file or a log of commits that was being made is removed, and a side file that has the
    /// name stays, for `KeptStore::open`; the device then keeps all that is read. To make a file beside it, which a closing
    /// will need, was tried. Faults: Device, as where there is no file, it or its folder may not be written, it has a second
    /// name, or another opening has a lock; BadCommits, where something else has the name of a log of commits, or of one that is
    /// being made; BadJournal, where what has a side file's name is none of this file. Nothing has changed at these two.
    /// Memory.
    pub fn open(rt: H, alloc: Global, path: &str) -> Result<FileDisk<H, F>, OpeningFault>
        ensures rest { IfOk result (λ d. IsAtRest ⟦<FileDisk<H, F> as DiskState>⟧ d) }
        ensures began { IfOk result (λ d.
            ⟦<FileDisk<H, F> as DiskState>⟧.seen d ≡ ⟦<FileDisk<H, F> as DiskState>⟧.began d) }
        ensures moment { IfOk result (λ d. length d.calls ≡ 0) }
        ensures failures { IfOk result (λ d. d.failures ≡ 0) }
    {
        let names = SideNames::of(&rt, alloc, path)?;
        let file = rt.open_update(names.main.as_str())?;
        file.try_lock()?;
        let opened = file.facts()?;
        let pages = opened.len / PAGE_BYTES;
        let tail = (opened.len % PAGE_BYTES) as u16;
        let beside = SideFiles::open(rt, names, opened, pages)?;
        let mut disk = FileDisk {
            file,
            beside,
            settled: false,
            pages,
            tail,
            calls: just_opened(pages, tail),
            failures: 0,
        };
        if disk.beside.is_some() {
            disk.settle()?;
        }
        Ok(disk)
    }

    // A file that was opened to be read, with what stands beside it.
    fn looked_at(file: F, opened: &FileFacts, beside: SideFiles<H, F>) -> FileDisk<H, F> {
        let pages = opened.len / PAGE_BYTES;
        let tail = (opened.len % PAGE_BYTES) as u16;
        FileDisk {
            file,
            beside,
            settled: false,
            pages,
            tail,
            calls: just_opened(pages, tail),
            failures: 0,
        }
    }

    /// What stands beside the file of that path under the name of its side file. Nothing is changed. Faults: Device, as
    /// where there is no file, a writer has a lock, or what stands beside it can't be read; Memory.
    pub fn beside(rt: H, alloc: Global, path: &str) -> Result<Beside, OpeningFault> {
        let names = SideNames::of(&rt, alloc, path)?;
        let (file, opened) = open_shared(&rt, names.main.as_str())?;
        let beside = match SideFiles::look(rt, names, opened, opened.len / PAGE_BYTES) {
            Ok(beside) => beside,
            Err(OpeningFault::BadJournal) => return Ok(Beside::Stray),
            Err(fault) => return Err(fault),
        };
        match look_beside(&mut FileDisk::looked_at(file, &opened, beside)) {
            Ok(found) => Ok(found),
            Err(_) => Err(OpeningFault::Device),
        }
    }

    /// The log of commits beside the file of that path, where something has its name. Nothing is changed. Faults: Device, as
    /// of `beside`; BadCommits, where it is no regular file; Memory.
    pub fn log_beside(rt: H, alloc: Global, path: &str) -> Result<Option<LogBeside>, OpeningFault> {
        let names = SideNames::of(&rt, alloc, path)?;
        let (file, opened) = open_shared(&rt, names.main.as_str())?;
        let beside = SideFiles::look_at_log(rt, names, opened)?;
        match LogBeside::of(alloc, &mut FileDisk::looked_at(file, &opened, beside)) {
            Ok(found) => Ok(found),
            Err(StoreFault::Failed) => Err(OpeningFault::Device),
            Err(StoreFault::Memory) => Err(OpeningFault::Memory),
        }
    }

    // Has the device keep what was there at opening, where it wasn't asked to yet.
    fn settle(&mut self) -> io::Result<()>
        ensures { self.new ≡ self.old }
    {
        if self.settled {
            return Ok(());
        }
        self.file.sync_all()?;
        self.beside.settle()?;
        self.settled = true;
        Ok(())
    }

    // The same before a call that changes something. Fault: Failed.
    fn begin_change(&mut self) -> Result<(), StoreFault>
        ensures counts { self.new ≡ record self.old {
          failures = counted self.old.failures (is_failed result);
        } }
        ensures fault { OnlyFails result }
    {
        let answer = self.settle();
        noted_call(&mut self.failures, answer)
    }

    // Notes a call that was made and leaves the length of the file, and counts its failure.
    fn made(
        &mut self,
        answer: io::Result<()>,
        kind: u64,
        a: u64,
        b: u64,
        bytes: &[u8],
    ) -> Result<(), StoreFault>
        requires call { 2 ≤ kind }
        requires length { keeps_length (call_by_numbers kind a b bytes.now) ≡ true }
        ensures notes { Notes (call_by_numbers kind a b bytes.now) self.old result self.new }
        ensures fault { OnlyFails result }
    {
        let answer = noted_call(&mut self.failures, answer);
        let failed = flag_of(&answer);
        self.calls.note(&[kind, a, b, failed], bytes);
        answer
    }

    // The same without a count.
    fn appended(
        &mut self,
        answer: io::Result<()>,
        kind: u64,
        a: u64,
        b: u64,
        bytes: &[u8],
    ) -> Result<(), StoreFault>
        requires call { 2 ≤ kind }
        requires length { keeps_length (call_by_numbers kind a b bytes.now) ≡ true }
        ensures notes { self.new ≡ with_noted self.old (is_failed result) (call_by_numbers kind a b bytes.now) }
        ensures fault { OnlyFails result }
    {
        let answer = told_call(answer);
        let failed = flag_of(&answer);
        self.calls.note(&[kind, a, b, failed], bytes);
        answer
    }

    // Makes the file n pages long, which is no fewer than it has, with no tail. Fault: Failed; it is as long as it was then.
    fn lengthen(&mut self, n: u64) -> Result<(), StoreFault>
        requires few { n < 2 ^ 52 }
        requires more { length (all_noted self.old.first self.old.calls).main.pages ≤ n }
        ensures notes { Notes (Grow n) self.old result self.new ⊎ Refuses self.old result self.new }
        ensures fault { OnlyFails result }
    {
        self.begin_change()?;
        let answer = self.file.set_len(n * PAGE_BYTES);
        let answer = noted_call(&mut self.failures, answer);
        let failed = flag_of(&answer);
        self.calls.note(&[GROWN, n, 0, failed], &[]);
        answer?;
        self.pages = n;
        self.tail = 0;
        Ok(())
    }

    // Makes it n pages long, which is no more than it has, with no tail. Fault: Failed; it is as long as it was then.
    fn shorten(&mut self, n: u64) -> Result<(), StoreFault>
        requires few { n < 2 ^ 52 }
        requires less { n ≤ length (all_noted self.old.first self.old.calls).main.pages }
        ensures notes { Notes (Cut n) self.old result self.new ⊎ Refuses self.old result self.new }
        ensures fault { OnlyFails result }
    {
        self.begin_change()?;
        let answer = self.file.set_len(n * PAGE_BYTES);
        let answer = noted_call(&mut self.failures, answer);
        let failed = flag_of(&answer);
        self.calls.note(&[CUT, n, 0, failed], &[]);
        answer?;
        self.pages = n;
        self.tail = 0;
        Ok(())
    }

    // Cuts the tail off, where there is one. Fault: Failed.
    fn cut_tail(&mut self) -> Result<(), StoreFault>
        requires { length (all_noted self.old.first self.old.calls).main.pages < 2 ^ 52 }
        ensures notes { Notes CutTail self.old result self.new ⊎ (Refuses self.old result self.new ⊎ ((is_failed result ≡ false) × (self.new ≡ self.old))) }
        ensures fault { OnlyFails result }
    {
        if self.tail == 0 {
            return Ok(());
        }
        self.begin_change()?;
        let answer = self.file.set_len(self.pages * PAGE_BYTES);
        let answer = noted_call(&mut self.failures, answer);
        let failed = flag_of(&answer);
        self.calls.note(&[TAIL_CUT, 0, 0, failed], &[]);
        answer?;
        self.tail = 0;
        Ok(())
    }
}

// Opens a file to read it, which no writer has open meanwhile. Fault: Device.
fn open_shared<H: System>(rt: &H, name: &str) -> Result<(H::File, FileFacts), OpeningFault> {
    let file = rt.open_read(name)?;
    file.try_lock_shared()?;
    let opened = file.facts()?;
    Ok((file, opened))
}

/// The name of the side file that an opening looks for beside the file of that path, without links. Faults: Device, as where
/// there is no file; Memory.
pub fn side_name<H: System>(rt: &H, alloc: Global, path: &str) -> Result<String, OpeningFault> {
    let SideNames { side, .. } = SideNames::of(rt, alloc, path)?;
    Ok(side)
}

/// The same of the log of commits.
pub fn log_name<H: System>(rt: &H, alloc: Global, path: &str) -> Result<String, OpeningFault> {
    let SideNames { log, .. } = SideNames::of(rt, alloc, path)?;
    Ok(log)
}

/// Whether a side file or a log of commits stands beside the file of that path, by the names that an opening looks for.
/// Faults: Device, as where there is no file; Memory.
pub fn has_side_file_or_log<H: System>(
    rt: &H,
    alloc: Global,
    path: &str,
) -> Result<bool, OpeningFault> {
    let names = SideNames::of(rt, alloc, path)?;
    if !is_free(rt, names.side.as_str())? {
        return Ok(true);
    }
    Ok(!is_free(rt, names.log.as_str())?)
}

impl<H: System<File = F> + Drop, F: SystemFile + Drop> DiskState for FileDisk<H, F> {
    ghost use Rattle.std.specs.Prelude.{length};
    ghost use Rattle.page_store.specs.FileValues.{gives_back};
    ghost use Rattle.page_journal.specs.FileEvents.{all_noted, NotedMayLeave, NotedLeftSince};

    ghost began = { λ d. d.first };

    ghost steady = { λ _. gives_back };

    ghost seen = { λ d. all_noted d.first d.calls };

    ghost may_leave = { λ d c. NotedMayLeave d.first d.calls c };

    ghost moment = { λ d. length d.calls };

    ghost left_since = { λ d t c. NotedLeftSince d.first d.calls t c };

    ghost failures = { λ d. d.failures };
}

impl<H: System<File = F> + Drop, F: SystemFile + Drop> Disk for FileDisk<H, F> {
    ghost use Rattle.page_journal.specs.FileEvents.{noted_left_now, only_noted_left_now};

    ghost only_now = { λ d c left. only_noted_left_now d.first d.calls c left };

    ghost counts_now = { λ d t c fits left. noted_left_now d.first d.calls t c left };

    fn shape(&mut self) -> Result<Shape, StoreFault> {
        Ok(Shape {
            pages: self.pages,
            tail: self.tail,
        })
    }

    fn read(&mut self, n: u32, to: &mut [u8; PAGE_WIDTH]) -> Result<(), StoreFault> {
        let answer = self.file.read_exact_at(to, page_start(n));
        noted_call(&mut self.failures, answer)
    }

    fn write(&mut self, n: u32, from: &[u8; PAGE_WIDTH]) -> Result<(), StoreFault> {
        self.begin_change()?;
        let answer = self.file.write_all_at(from, page_start(n));
        self.made(answer, WRITTEN, n as u64, 0, from)
    }

    /// Cuts the tail off first, so that the pages added are zero.
    fn grow(&mut self, n: u32) -> Result<(), StoreFault> {
        self.cut_tail()?;
        self.lengthen(n as u64)
    }

    fn cut(&mut self, n: u32) -> Result<(), StoreFault> {
        self.shorten(n as u64)
    }

    fn sync(&mut self) -> Result<(), StoreFault> {
        let answer = self.file.sync_all();
        self.made(answer, SYNCED, 0, 0, &[])
    }

    fn start(&mut self, long: u32, rest: u64) -> Result<(), StoreFault> {
        self.begin_change()?;
        let answer = self.beside.start(long, rest);
        self.made(answer, STARTED, long as u64, rest, &[])
    }

    fn keep(&mut self, n: u32, page: &[u8; PAGE_WIDTH]) -> Result<(), StoreFault> {
        let answer = self.beside.keep(n, page);
        self.made(answer, KEPT, n as u64, 0, page)
    }

    fn sync_fresh(&mut self) -> Result<(), StoreFault> {
        let answer = self.beside.finish();
        self.made(answer, FRESH_SYNCED, 0, 0, &[])
    }

    fn name(&mut self) -> Result<(), StoreFault> {
        let answer = self.beside.name();
        self.made(answer, NAMED, 0, 0, &[])
    }

    fn remove(&mut self) -> Result<(), StoreFault> {
        let answer = self.beside.remove();
        self.made(answer, REMOVED, 0, 0, &[])
    }

    fn sync_names(&mut self) -> Result<(), StoreFault> {
        let answer = self.beside.sync_names();
        self.made(answer, NAMES_SYNCED, 0, 0, &[])
    }

    fn start_log(&mut self, head: &[u8], room: usize) -> Result<(), StoreFault> {
        self.begin_change()?;
        let answer = self.beside.start_log(head, room);
        self.made(answer, LOG_STARTED, room as u64, 0, head)
    }

    fn sync_fresh_log(&mut self) -> Result<(), StoreFault> {
        let answer = self.beside.finish_log();
        self.made(answer, FRESH_LOG_SYNCED, 0, 0, &[])
    }

    fn name_log(&mut self) -> Result<(), StoreFault> {
        let answer = self.beside.name_log();
        self.made(answer, LOG_NAMED, 0, 0, &[])
    }

    fn remove_log(&mut self) -> Result<(), StoreFault> {
        let answer = self.beside.remove_log();
        self.made(answer, LOG_REMOVED, 0, 0, &[])
    }

    fn lengthen_log(&mut self, at: usize, n: usize) -> Result<(), StoreFault> {
        let answer = self.beside.logs().lengthen(at, n);
        self.appended(answer, LOG_LENGTHENED, at as u64, n as u64, &[])
    }

    fn write_log(&mut self, at: usize, bytes: &[u8]) -> Result<(), StoreFault> {
        let answer = self.beside.logs().write(at, bytes);
        self.appended(answer, LOG_WRITTEN, at as u64, 0, bytes)
    }

    fn sync_log(&mut self) -> Result<(), StoreFault> {
        let answer = self.beside.sync_log();
        self.appended(answer, LOG_SYNCED, 0, 0, &[])
    }

    fn log_length(&mut self) -> Result<Option<u64>, StoreFault> {
        let answer = self.beside.logs().length();
        noted_call(&mut self.failures, answer)
    }

    fn read_log(&mut self, at: usize, to: &mut [u8]) -> Result<(), StoreFault> {
        let answer = self.beside.logs().read(at, to);
        noted_call(&mut self.failures, answer)
    }

    fn begin_again(&mut self) -> Result<(), StoreFault> {
        self.calls.note(&[BEGUN_AGAIN, 0, 0, 0], &[]);
        Ok(())
    }

    fn side(&mut self) -> Result<Option<SideShape>, StoreFault> {
        Ok(self.beside.shape())
    }

    fn kept(&mut self, i: u32, to: &mut [u8; PAGE_WIDTH]) -> Result<u32, StoreFault> {
        let answer = self.beside.read(i, to);
        noted_call(&mut self.failures, answer)
    }
}
