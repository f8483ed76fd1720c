ghost use Rattle.std.specs.Prelude.{◌≡◌, ◌⊎◌, ◌<◌, ◌++◌, [], reverse, option_map, IsSome, IfOk, IfErr, OnOk, OnErr};
ghost use Rattle.rec_types.specs.Widths.{page_width};
ghost use Rattle.page_journal.specs.Steps.{nothing_kept};
ghost use Rattle.page_journal.specs.SideBytes.{read_side};
ghost use Rattle.page_journal.specs.History.{StaysOnErr, all_done};
ghost use Rattle.page_journal.specs.CallDisks.{handed_out, recorded_failure, recorded_more, recorded_over};
ghost use Rattle.page_store.specs.StoreFaults.{OnlyFails};
ghost use Rattle.page_store.specs.declared.store_fault.StoreFault.{StoreFault};

use crate::commit_call::CommitCall;
use crate::disk::Disk;
use crate::disk_call::DiskCall;
use crate::disk_state::DiskState;
use crate::mem_commits::{MemCommits, zeros_behind};
use crate::mem_files::{MemFiles, OldPages};
use crate::opening_fault::OpeningFault;
use crate::past::{CallList, Past};
use crate::side_reading::side_of;
use crate::side_shape::SideShape;
use page_store::{Shape, StoreFault};
use rec_types::{Memory, PAGE_WIDTH};
use std::alloc::Global;
use std::marker::Model;
use std::mem;
use std::snapshot::Snapshot;

/// A disk in memory that records its changing calls, for a caller that carries them out on a device, in their order. It
/// keeps the files as reads see them; what they were at first, and which calls were handed out, only contracts know. It
/// is always steady; its calls fail where there is no memory, and at nothing else but a side file that isn't there.
#[derive(Drop)]
pub struct CallDisk {
    first: Snapshot<MemFiles>,
    list: CallList,
    seen: MemFiles,
    failures: u64,
}

impl Model for CallDisk {
    ghost use Rattle.std.specs.Prelude.{◌≡◌, ◌++◌, reverse};
    ghost use Rattle.page_journal.specs.History.{all_done};
    ghost use Rattle.page_journal.specs.CallDisks.{Recorded};

    ghost Value = { Recorded };

    ghost use Rattle.page_journal.specs.PastCalls.{past_of};

    ghost view = { λ d. record {
      first = d.first.value;
      past = past_of d.list.before;
      calls = reverse d.list.calls.items;
      failures = d.failures;
    } };

    ghost invariant = { λ d. d.seen
        ≡ all_done d.first.value (reverse d.list.calls.items ++ past_of d.list.before) };
}

impl CallDisk {
    /// A disk whose file has these pages and a tail of that many bytes, at most 4,095; beside it stands the side file of
    /// these bytes, or none, and the log of commits of these, or none. The pages and the log are moved in. Faults:
    /// BadJournal, where the one are no side file's; Memory.
    pub fn open(
        alloc: Global,
        pages: Vec<[u8; PAGE_WIDTH]>,
        tail: u16,
        side: Option<&[u8]>,
        log: Option<Vec<u8>>,
    ) -> Result<CallDisk, OpeningFault>
        requires { tail < page_width }
        ensures opened { IfOk result (λ d. d ≡ recorded_over (record {
          main = record { pages = pages.items; tail = tail };
          fresh = nothing_kept 0;
          side = option_map (λ bytes. read_side bytes.now) side.entry;
          commits = record { fresh = []; log = option_map (λ bytes. bytes.items) log };
        })) }
        ensures fault { IfErr result (λ fault. IsSome side.entry
            × ((fault ≡ OpeningFault.BadJournal) ⊎ (fault ≡ OpeningFault.Memory))) }
    {
        let commits = MemCommits::over(alloc, log);
        match side {
            Some(bytes) => {
                let kept = side_of(alloc, bytes)?;
                Ok(CallDisk::over(MemFiles {
                    pages,
                    tail,
                    fresh: OldPages::new(alloc, 0),
                    side: Some(kept),
                    commits,
                    alloc,
                }))
            }
            None => Ok(CallDisk::over(MemFiles {
                pages,
                tail,
                fresh: OldPages::new(alloc, 0),
                side: None,
                commits,
                alloc,
            })),
        }
    }

    // A disk that has these files.
    fn over(files: MemFiles) -> CallDisk
        ensures { result ≡ recorded_over files }
    {
        let alloc = files.alloc;
        CallDisk {
            first: Snapshot::of(&files),
            list: CallList {
                before: None,
                calls: Vec::new(alloc),
            },
            seen: files,
            failures: 0,
        }
    }

    /// The pages of the file, as reads see them.
    pub fn pages(&self) -> &[[u8; PAGE_WIDTH]]
        ensures { result.now ≡ (all_done self.now.first (self.now.calls ++ self.now.past)).main.pages }
    {
        self.seen.pages.as_slice()
    }

    /// The changing calls that weren't handed out yet, the oldest first.
    pub fn calls(&self) -> &[DiskCall]
        ensures { reverse result.now ≡ self.now.calls }
    {
        self.list.calls.as_slice()
    }

    /// Hands the changing calls out that weren't yet, the oldest first. Their bytes aren't kept any longer.
    pub fn hand_out(&mut self) -> Vec<DiskCall>
        ensures calls { reverse result.items ≡ self.old.calls }
        ensures told { self.new ≡ handed_out self.old }
    {
        let past = Past::of(&self.list);
        let alloc = self.seen.alloc;
        let CallList { before: _, calls } = mem::replace(
            &mut self.list,
            CallList {
                before: Some(past),
                calls: Vec::new(alloc),
            },
        );
        calls
    }

    // Counts from now on as a disk that was just opened over these files.
    fn restart(&mut self)
        ensures { self.new ≡ record {
          first = all_done self.old.first (self.old.calls ++ self.old.past);
          past = [];
          calls = [];
          failures = self.old.failures;
        } }
    {
        let alloc = self.seen.alloc;
        self.first = Snapshot::of(&self.seen);
        self.list = CallList {
            before: None,
            calls: Vec::new(alloc),
        };
    }

    // Carries a call out and keeps it. Fault: Failed, where there is no memory; nothing has changed then.
    fn note(&mut self, call: DiskCall) -> Result<(), StoreFault>
        ensures ok { OnOk result (self.new ≡ recorded_more self.old call) }
        ensures err { OnErr result (self.new ≡ recorded_failure self.old) }
        ensures fault { OnlyFails result }
    {
        if self.take(call).is_err() {
            return Err(self.fail());
        }
        Ok(())
    }

    // The same of a call that appends to the log of commits, whose failure isn't counted.
    fn note_append(&mut self, call: DiskCall) -> Result<(), StoreFault>
        ensures ok { OnOk result (self.new ≡ recorded_more self.old call) }
        ensures err { StaysOnErr result self.old self.new }
        ensures fault { OnlyFails result }
    {
        if self.take(call).is_err() {
            return Err(StoreFault::Failed);
        }
        Ok(())
    }

    // Carries a call out and keeps it. Fault: Memory; nothing has changed then.
    fn take(&mut self, call: DiskCall) -> Result<(), Memory>
        ensures ok { OnOk result (self.new ≡ recorded_more self.old call) }
        ensures err { StaysOnErr result self.old self.new }
    {
        self.list.calls.reserve(1)?;
        self.seen.carry_out(&call)?;
        self.list.calls.push(call)?;
        Ok(())
    }

    // Counts a failure, and answers the fault.
    fn fail(&mut self) -> StoreFault
        ensures fault { result ≡ StoreFault.Failed }
        ensures counted { self.new ≡ recorded_failure self.old }
    {
        self.failures = self.failures.saturating_add(1);
        StoreFault::Failed
    }
}

impl DiskState for CallDisk {
    ghost use Rattle.std.specs.Prelude.{◌++◌, true, length};
    ghost use Rattle.page_journal.specs.History.{all_done, MayLeave, LeftSince};

    ghost began = { λ d. d.first };

    ghost steady = { λ _. true };

    ghost seen = { λ d. all_done d.first (d.calls ++ d.past) };

    ghost may_leave = { λ d c. MayLeave d.first (d.calls ++ d.past) c };

    ghost moment = { λ d. length (d.calls ++ d.past) };

    ghost left_since = { λ d t c. LeftSince d.first (d.calls ++ d.past) t c };

    ghost failures = { λ d. d.failures };
}

impl Disk for CallDisk {
    ghost use Rattle.std.specs.Prelude.{◌++◌};
    ghost use Rattle.page_journal.specs.History.{left_now, only_left_now};

    ghost only_now = { λ d c left. only_left_now d.first (d.calls ++ d.past) c left };

    ghost counts_now = { λ d t c fits left. left_now d.first (d.calls ++ d.past) t c left };

    fn shape(&mut self) -> Result<Shape, StoreFault> {
        Ok(Shape {
            pages: self.seen.pages.len() as u64,
            tail: self.seen.tail,
        })
    }

    fn read(&mut self, n: u32, to: &mut [u8; PAGE_WIDTH]) -> Result<(), StoreFault> {
        *to = self.seen.pages[n as usize];
        Ok(())
    }

    fn write(&mut self, n: u32, from: &[u8; PAGE_WIDTH]) -> Result<(), StoreFault> {
        self.note(DiskCall::Write(n, *from))
    }

    fn grow(&mut self, n: u32) -> Result<(), StoreFault> {
        self.note(DiskCall::Grow(n))
    }

    fn cut(&mut self, n: u32) -> Result<(), StoreFault> {
        self.note(DiskCall::Cut(n))
    }

    fn sync(&mut self) -> Result<(), StoreFault> {
        self.note(DiskCall::Sync)
    }

    fn start(&mut self, long: u32, rest: u64) -> Result<(), StoreFault> {
        self.note(DiskCall::Start(long, rest))
    }

    fn keep(&mut self, n: u32, page: &[u8; PAGE_WIDTH]) -> Result<(), StoreFault> {
        self.note(DiskCall::Keep(n, *page))
    }

    fn sync_fresh(&mut self) -> Result<(), StoreFault> {
        self.note(DiskCall::SyncFresh)
    }

    fn name(&mut self) -> Result<(), StoreFault> {
        self.note(DiskCall::Name)
    }

    fn remove(&mut self) -> Result<(), StoreFault> {
        self.note(DiskCall::Remove)
    }

    fn sync_names(&mut self) -> Result<(), StoreFault> {
        self.note(DiskCall::SyncNames)
    }

    fn start_log(&mut self, head: &[u8], room: usize) -> Result<(), StoreFault> {
        match zeros_behind(self.seen.alloc, head, room) {
            Ok(bytes) => self.note(DiskCall::Commits(CommitCall::Start(bytes))),
            Err(Memory) => Err(self.fail()),
        }
    }

    fn sync_fresh_log(&mut self) -> Result<(), StoreFault> {
        self.note(DiskCall::Commits(CommitCall::SyncFresh))
    }

    fn name_log(&mut self) -> Result<(), StoreFault> {
        self.note(DiskCall::Commits(CommitCall::Name))
    }

    fn remove_log(&mut self) -> Result<(), StoreFault> {
        self.note(DiskCall::Commits(CommitCall::Remove))
    }

    fn lengthen_log(&mut self, at: usize, n: usize) -> Result<(), StoreFault> {
        self.note_append(DiskCall::Commits(CommitCall::Lengthen(at, n)))
    }

    fn write_log(&mut self, at: usize, bytes: &[u8]) -> Result<(), StoreFault> {
        match zeros_behind(self.seen.alloc, bytes, 0) {
            Ok(bytes) => self.note_append(DiskCall::Commits(CommitCall::Write(at, bytes))),
            Err(Memory) => Err(StoreFault::Failed),
        }
    }

    fn sync_log(&mut self) -> Result<(), StoreFault> {
        self.note_append(DiskCall::Commits(CommitCall::Sync))
    }

    fn log_length(&mut self) -> Result<Option<u64>, StoreFault> {
        match &self.seen.commits.log {
            Some(log) => Ok(Some(log.bytes.len() as u64)),
            None => Ok(None),
        }
    }

    fn read_log(&mut self, at: usize, to: &mut [u8]) -> Result<(), StoreFault> {
        match &self.seen.commits.log {
            Some(log) if at <= log.bytes.len() && to.len() <= log.bytes.len() - at => {
                to.copy_from_slice(&log.bytes[at..at + to.len()]);
                Ok(())
            }
            _ => Err(self.fail()),
        }
    }

    fn begin_again(&mut self) -> Result<(), StoreFault> {
        self.restart();
        Ok(())
    }

    fn side(&mut self) -> Result<Option<SideShape>, StoreFault> {
        let Some(kept) = &self.seen.side else {
            return Ok(None);
        };
        let (long, rest) = (kept.long, kept.rest);
        let Ok(count) = u32::try_from(kept.pages.len()) else {
            return Err(self.fail());
        };
        Ok(Some(SideShape {
            long,
            kept: count,
            rest,
        }))
    }

    fn kept(&mut self, i: u32, to: &mut [u8; PAGE_WIDTH]) -> Result<u32, StoreFault> {
        match &self.seen.side {
            Some(kept) if (i as usize) < kept.pages.len() => {
                let (n, page) = kept.pages[i as usize];
                *to = page;
                Ok(n)
            }
            _ => Err(self.fail()),
        }
    }
}
