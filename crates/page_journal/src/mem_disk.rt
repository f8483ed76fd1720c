ghost use Rattle.std.specs.Prelude.{◌≡◌, ◌<◌, ◌≤◌, [], Some, None, Err, length, take, reverse, All, IsTrue, IsSome, IfSome, OnOk, OnErr, IfOk};
ghost use Rattle.rec_types.specs.Table.{counted};
ghost use Rattle.rec_types.specs.Widths.{page_width};
ghost use Rattle.page_journal.specs.Files.{no_commits};
ghost use Rattle.page_journal.specs.Steps.{nothing_kept};
ghost use Rattle.page_journal.specs.History.{MayLeave, StaysOnErr, all_done, with_call, failed_more};
ghost use Rattle.page_journal.specs.Fates.{first_calls};
ghost use Rattle.page_journal.specs.declared.fate.Fate.{Fate};
ghost use Rattle.page_journal.specs.declared.disk_call.DiskCall.{DiskCall};
ghost use Rattle.page_store.specs.StoreFaults.{OnlyFails};

use crate::commit_call::CommitCall;
use crate::disk::Disk;
use crate::disk_call::DiskCall;
use crate::disk_state::DiskState;
use crate::fate::Fate;
use crate::mem_commits::{MemCommits, zeros_behind};
use crate::mem_files::{MemFiles, OldPages, copy_of_pages};
use crate::side_shape::SideShape;
use page_store::{Shape, StoreFault};
use rec_types::{Memory, PAGE_WIDTH};
use std::alloc::Global;
use std::marker::Model;

/// A disk in memory, which keeps what its files were at first and each changing call since then. A crash leaves any
/// of the calls that weren't synced done, not done or torn. It is always steady; its calls fail where there is no
/// memory, and at nothing else but a side file that isn't there.
#[derive(Drop)]
pub struct MemDisk {
    first: MemFiles,
    calls: Vec<DiskCall>,
    seen: MemFiles,
    failures: u64,
}

impl Model for MemDisk {
    ghost use Rattle.std.specs.Prelude.{◌≡◌, reverse};
    ghost use Rattle.page_journal.specs.History.{History, all_done};

    ghost Value = { History };

    ghost view = { λ d. record {
      first = d.first;
      calls = reverse d.calls.items;
      failures = d.failures;
    } };

    ghost invariant = { λ d. d.seen ≡ all_done d.first (reverse d.calls.items) };
}

impl MemDisk {
    /// A disk whose file has these pages and a tail of that many bytes, at most 4,095, with no side file. Fault:
    /// Memory.
    pub fn new(alloc: Global, pages: &[[u8; PAGE_WIDTH]], tail: u16) -> Result<MemDisk, Memory>
        requires { tail < page_width }
        ensures { IfOk result (λ d. d ≡ record {
          first = record {
            main = record { pages = pages.now; tail = tail };
            fresh = nothing_kept 0;
            side = None;
            commits = no_commits;
          };
          calls = [];
          failures = 0;
        }) }
    {
        Ok(MemDisk {
            first: mem_files(alloc, pages, tail)?,
            calls: Vec::new(alloc),
            seen: mem_files(alloc, pages, tail)?,
            failures: 0,
        })
    }

    /// The pages of the file, as reads see them.
    pub fn pages(&self) -> &[[u8; PAGE_WIDTH]]
        ensures { result.now ≡ (all_done self.now.first self.now.calls).main.pages }
    {
        self.seen.pages.as_slice()
    }

    /// The changing calls since the beginning, the oldest first.
    pub fn calls(&self) -> &[DiskCall]
        ensures { reverse result.now ≡ self.now.calls }
    {
        self.calls.as_slice()
    }

    /// The disk after a crash and a restart, which came after as many of the calls as there are fates, and where each of
    /// these calls had its fate, unless it was synced. None where the device kept the names and the fates would have
    /// it lose one. Fault: Memory.
    pub fn crash(&self, fates: &[Fate]) -> Result<Option<MemDisk>, Memory>
        requires { length fates.now ≤ length self.now.calls }
        ensures left { IfOk result (λ found. IfSome found (λ d. (d.calls ≡ []) × (d.failures ≡ 0)
            × MayLeave self.now.first (first_calls (length fates.now) self.now.calls) d.first)) }
        ensures whole { All (λ fate. fate ≡ Fate.Done) fates.now → IfOk result (λ found.
            IsSome found × IfSome found (λ d. d.first
            ≡ all_done self.now.first (first_calls (length fates.now) self.now.calls))) }
    {
        let mut left = self.first.copy()?;
        let mut seen = self.first.copy()?;
        if !suffer_all(&self.calls, fates, &mut left, &mut seen)? {
            return Ok(None);
        }
        restarted(left)
    }

    // Carries a call out and keeps it. Fault: Failed, where there is no memory; nothing has changed then.
    fn note(&mut self, call: DiskCall) -> Result<(), StoreFault>
        ensures ok { OnOk result (self.new ≡ with_call self.old call) }
        ensures err { OnErr result (self.new ≡ failed_more self.old) }
        ensures fault { OnlyFails result }
    {
        if self.take(call).is_err() {
            return Err(self.fail());
        }
        Ok(())
    }

    // The same of a call that appends to the log of commits, whose failure isn't counted.
    fn note_append(&mut self, call: DiskCall) -> Result<(), StoreFault>
        ensures ok { OnOk result (self.new ≡ with_call self.old call) }
        ensures err { StaysOnErr result self.old self.new }
        ensures fault { OnlyFails result }
    {
        if self.take(call).is_err() {
            return Err(StoreFault::Failed);
        }
        Ok(())
    }

    // Carries a call out and keeps it. Fault: Memory; nothing has changed then.
    fn take(&mut self, call: DiskCall) -> Result<(), Memory>
        ensures ok { OnOk result (self.new ≡ with_call self.old call) }
        ensures err { OnErr result (self.new ≡ self.old) }
    {
        self.calls.reserve(1)?;
        self.seen.carry_out(&call)?;
        self.calls.push(call)?;
        Ok(())
    }

    // Counts a failure, and answers the fault.
    fn fail(&mut self) -> StoreFault
        ensures fault { result ≡ StoreFault.Failed }
        ensures counted { self.new ≡ failed_more self.old }
    {
        self.failures = self.failures.saturating_add(1);
        StoreFault::Failed
    }
}

impl DiskState for MemDisk {
    ghost use Rattle.std.specs.Prelude.{true, length};
    ghost use Rattle.page_journal.specs.History.{all_done, MayLeave, LeftSince};

    ghost began = { λ d. d.first };

    ghost steady = { λ _. true };

    ghost seen = { λ d. all_done d.first d.calls };

    ghost may_leave = { λ d c. MayLeave d.first d.calls c };

    ghost moment = { λ d. length d.calls };

    ghost left_since = { λ d t c. LeftSince d.first d.calls t c };

    ghost failures = { λ d. d.failures };
}

impl Disk for MemDisk {
    ghost use Rattle.page_journal.specs.History.{left_now, only_left_now};

    ghost only_now = { λ d c left. only_left_now d.first d.calls c left };

    ghost counts_now = { λ d t c fits left. left_now d.first d.calls t c left };

    fn shape(&mut self) -> Result<Shape, StoreFault> {
        Ok(Shape {
            pages: self.seen.pages.len() as u64,
            tail: self.seen.tail,
        })
    }

    fn read(&mut self, n: u32, to: &mut [u8; PAGE_WIDTH]) -> Result<(), StoreFault> {
        *to = self.seen.pages[n as usize];
        Ok(())
    }

    fn write(&mut self, n: u32, from: &[u8; PAGE_WIDTH]) -> Result<(), StoreFault> {
        self.note(DiskCall::Write(n, *from))
    }

    fn grow(&mut self, n: u32) -> Result<(), StoreFault> {
        self.note(DiskCall::Grow(n))
    }

    fn cut(&mut self, n: u32) -> Result<(), StoreFault> {
        self.note(DiskCall::Cut(n))
    }

    fn sync(&mut self) -> Result<(), StoreFault> {
        self.note(DiskCall::Sync)
    }

    fn start(&mut self, long: u32, rest: u64) -> Result<(), StoreFault> {
        self.note(DiskCall::Start(long, rest))
    }

    fn keep(&mut self, n: u32, page: &[u8; PAGE_WIDTH]) -> Result<(), StoreFault> {
        self.note(DiskCall::Keep(n, *page))
    }

    fn sync_fresh(&mut self) -> Result<(), StoreFault> {
        self.note(DiskCall::SyncFresh)
    }

    fn name(&mut self) -> Result<(), StoreFault> {
        self.note(DiskCall::Name)
    }

    fn remove(&mut self) -> Result<(), StoreFault> {
        self.note(DiskCall::Remove)
    }

    fn sync_names(&mut self) -> Result<(), StoreFault> {
        self.note(DiskCall::SyncNames)
    }

    fn start_log(&mut self, head: &[u8], room: usize) -> Result<(), StoreFault> {
        match zeros_behind(self.seen.alloc, head, room) {
            Ok(bytes) => self.note(DiskCall::Commits(CommitCall::Start(bytes))),
            Err(Memory) => Err(self.fail()),
        }
    }

    fn sync_fresh_log(&mut self) -> Result<(), StoreFault> {
        self.note(DiskCall::Commits(CommitCall::SyncFresh))
    }

    fn name_log(&mut self) -> Result<(), StoreFault> {
        self.note(DiskCall::Commits(CommitCall::Name))
    }

    fn remove_log(&mut self) -> Result<(), StoreFault> {
        self.note(DiskCall::Commits(CommitCall::Remove))
    }

    fn lengthen_log(&mut self, at: usize, n: usize) -> Result<(), StoreFault> {
        self.note_append(DiskCall::Commits(CommitCall::Lengthen(at, n)))
    }

    fn write_log(&mut self, at: usize, bytes: &[u8]) -> Result<(), StoreFault> {
        match zeros_behind(self.seen.alloc, bytes, 0) {
            Ok(bytes) => self.note_append(DiskCall::Commits(CommitCall::Write(at, bytes))),
            Err(Memory) => Err(StoreFault::Failed),
        }
    }

    fn sync_log(&mut self) -> Result<(), StoreFault> {
        self.note_append(DiskCall::Commits(CommitCall::Sync))
    }

    fn log_length(&mut self) -> Result<Option<u64>, StoreFault> {
        match &self.seen.commits.log {
            Some(log) => Ok(Some(log.bytes.len() as u64)),
            None => Ok(None),
        }
    }

    fn read_log(&mut self, at: usize, to: &mut [u8]) -> Result<(), StoreFault> {
        match &self.seen.commits.log {
            Some(log) if at <= log.bytes.len() && to.len() <= log.bytes.len() - at => {
                to.copy_from_slice(&log.bytes[at..at + to.len()]);
                Ok(())
            }
            _ => Err(self.fail()),
        }
    }

    fn begin_again(&mut self) -> Result<(), StoreFault> {
        match self.seen.copy() {
            Ok(first) => {
                self.first = first;
                self.calls = Vec::new(self.seen.alloc);
                Ok(())
            }
            Err(Memory) => Err(self.fail()),
        }
    }

    fn side(&mut self) -> Result<Option<SideShape>, StoreFault> {
        let Some(kept) = &self.seen.side else {
            return Ok(None);
        };
        let (long, rest) = (kept.long, kept.rest);
        let Ok(count) = u32::try_from(kept.pages.len()) else {
            return Err(self.fail());
        };
        Ok(Some(SideShape {
            long,
            kept: count,
            rest,
        }))
    }

    fn kept(&mut self, i: u32, to: &mut [u8; PAGE_WIDTH]) -> Result<u32, StoreFault> {
        match &self.seen.side {
            Some(kept) if (i as usize) < kept.pages.len() => {
                let (n, page) = kept.pages[i as usize];
                *to = page;
                Ok(n)
            }
            _ => Err(self.fail()),
        }
    }
}

// Makes of files what a crash leaves behind as many of these calls as there are fates, and of the same files what reads
// see then. Answers whether there is such a crash. Fault: Memory.
fn suffer_all(
    calls: &[DiskCall],
    fates: &[Fate],
    left: &mut MemFiles,
    seen: &mut MemFiles,
) -> Result<bool, Memory>
    requires fits { length fates.now ≤ length calls.now }
    requires same { left.old ≡ seen.old }
    ensures left { IfOk result (λ there. IsTrue there
        → MayLeave seen.old (reverse (take (length fates.now) calls.now)) left.new) }
    ensures whole { All (λ fate. fate ≡ Fate.Done) fates.now → IfOk result (λ there. IsTrue there
        × (left.new ≡ all_done seen.old (reverse (take (length fates.now) calls.now)))) }
{
    for i in 0..fates.len() {
        let call = &calls[i];
        seen.carry_out(call)?;
        if !left.names_agree(call, seen) {
            return Ok(false);
        }
        left.suffer(call, fates[i], seen)?;
    }
    Ok(true)
}

// A disk that has these files.
fn restarted(files: MemFiles) -> Result<Option<MemDisk>, Memory>
    ensures { IfOk result (λ found. found
        ≡ Some (record { first = files; calls = []; failures = 0 })) }
{
    let seen = files.copy()?;
    let alloc = files.alloc;
    Ok(Some(MemDisk {
        first: files,
        calls: Vec::new(alloc),
        seen,
        failures: 0,
    }))
}

// Files with these pages and that tail, and no side file. Fault: Memory.
fn mem_files(alloc: Global, pages: &[[u8; PAGE_WIDTH]], tail: u16) -> Result<MemFiles, Memory>
    requires { tail < page_width }
    ensures { IfOk result (λ f. f ≡ record {
      main = record { pages = pages.now; tail = tail };
      fresh = nothing_kept 0;
      side = None;
      commits = no_commits;
    }) }
{
    Ok(MemFiles {
        pages: copy_of_pages(alloc, pages)?,
        tail,
        fresh: OldPages::new(alloc, 0),
        side: None,
        commits: MemCommits::new(alloc),
        alloc,
    })
}
