ghost use Rattle.std.specs.Prelude.{◌≡◌, ◌≢◌, ◌↔◌, ◌<◌, ◌≤◌, ◌-◌, ◌==◌, ◌++◌, ◌∷◌, ◌^◌, ℕ, List, [], true, false, Some, None, Ok, Err, length, IsTrue, IsOk, IsSome, IfOk, IfErr, MatchOption, OnOk, OnErr, slice_set};
ghost use Rattle.std.specs.List.{list_any};
ghost use Rattle.rec_types.specs.Table.{counted};
ghost use Rattle.page_store.specs.Blank.{blanks};
ghost use Rattle.page_store.specs.FreeNumbers.{greatest_page_count};
ghost use Rattle.page_store.specs.Growth.{GrowsTo};
ghost use Rattle.page_store.specs.Guards.{SealsGuard};
ghost use Rattle.page_store.specs.StoreCalls.{SealsStore, ChangesStore};
ghost use Rattle.page_store.specs.StoreFaults.{is_failed};
ghost use Rattle.page_store.specs.declared.step.Step.{Step};
ghost use Rattle.commit_paper.specs.Text.{IsUnit, unit_text};
ghost use Rattle.page_store.specs.Commits.{CommitsStore, IsCommit};
ghost use Rattle.page_journal.specs.Files.{Files, Belongs, recovered};
ghost use Rattle.page_journal.specs.Logging.{HasLog, IsTextOf, SaysNoneOr};
ghost use Rattle.page_journal.specs.LoggedStores.{BeganAlone, FindsAll, FindsNow, LeavesWithCommits, MayFind, commits_in};
ghost use Rattle.page_journal.specs.Steps.{CallSyncs, StaysBegun, StaysSteady};
ghost use Rattle.page_journal.specs.Crash.{IsSettled, IsAtRest, LeavesOnly, StandsAs, FilesStandFor, StandsForEither};
ghost use Rattle.page_journal.specs.Recovery.{IsForeign, RecoveryLeaves, is_device_fault};
ghost use Rattle.page_journal.specs.KeptStores.{IsFinished, KeepsFile, failures_with, guard_of, KeptStored, CanBeSealed, is_writable, may_write_in};

mod calls_out;
mod file_sum;

use crate::disk::Disk;
use crate::log_place::LogPlace;
use crate::logging::{append, begin_log, read_back};
use crate::noted::count_up;
use crate::recovering::{commit, recover};
use crate::recovery_fault::RecoveryFault;
use crate::seal_state::SealState;
use crate::sealing::seal;
use page_store::{AppendFault, CommitStore, SealStore, Shape, Store, StoreFault, StoreState};
use rec_types::{Memory, PAGE_WIDTH};
use std::alloc::Global;
use std::marker::Model;

/// The most pages that a file has whose old pages are kept.
pub(crate) const MOST_PAGES: u64 = 1_000_001;

// How many zeros a log of commits begins with.
const FIRST_ROOM: usize = 65536;

/// A store over a disk. It refuses to write over a page that wasn't kept aside, so that a crash at any moment leaves the
/// file that there was when the disk was opened, whatever its callers do, until `finish` gives that up. Contracts see
/// the disk, which pages were kept, how many reads, calls of `shape` and changing calls there were, and how many calls
/// were refused; a refused call is a failure of the store, and none of the disk.
#[derive(Drop)]
pub struct KeptStore<D: Disk + Drop> {
    disk: D,
    kept: Vec<bool>,
    state: SealState,
    alloc: Global,
    reads: u64,
    shapes: u64,
    writes: u64,
    refusals: u64,
    /// The place in the log of commits, where one was begun.
    log: Option<LogPlace>,
    /// The text of the commit that is in doubt, or nothing.
    doubt: Vec<u8>,
}

impl<D: Disk + Drop> Model for KeptStore<D> {
    ghost use Rattle.std.specs.Prelude.{IsTrue};
    ghost use Rattle.page_journal.specs.KeptStores.{KeptStored, IsGuarded, coded_kept_stored, old_file_of};

    ghost Value = { KeptStored D };

    ghost coded = { coded_kept_stored D.code };

    ghost view = { λ s. record {
      disk = s.disk;
      kept = s.kept.items;
      state = s.state;
      reads = s.reads;
      shapes = s.shapes;
      writes = s.writes;
      refusals = s.refusals;
      log = s.log;
      doubt = s.doubt.items;
    } };

    ghost use Rattle.page_journal.specs.LoggedStores.{BeganAlone, DoubtStops, FitsIn, KnowsCommits};

    ghost invariant = { λ s. FitsIn s.log × KnowsCommits D.DiskState s.log s.doubt.items s.disk
        × DoubtStops s.state s.doubt.items × (IsTrue (D.steady s.disk)
        → IsGuarded D.DiskState (old_file_of D.DiskState s.disk) s.state s.kept.items s.disk
        × BeganAlone D.DiskState s.log s.disk) };
}

// Whether page n was kept or is past the old end.
fn is_open(kept: &[bool], n: u32) -> bool
    ensures { result ≡ is_writable kept.now n }
{
    let at = n as usize;
    at >= kept.len() || kept[at]
}

// Of each page of a file that is so many pages long whether its number is one of these. Fault: Memory.
fn flags_of(alloc: Global, long: u32, numbers: &[u32]) -> Result<Vec<bool>, Memory>
    ensures long { IfOk result (λ flags. length flags.items ≡ long) }
    ensures flags { IfOk result (λ flags. (n : ℕ) → n < long
        → is_writable flags.items n ≡ list_any (λ m. n == m) numbers.now) }
{
    let mut flags = vec![in alloc; false; long as usize]?;
    for n in numbers {
        if *n < long {
            flags[*n as usize] = true;
        }
    }
    Ok(flags)
}

impl<D: Disk + Drop> KeptStore<D> {
    /// A store over a disk that stands for the file that there was when it was opened, with no side file. It takes no
    /// memory.
    pub fn new(alloc: Global, disk: D) -> KeptStore<D>
        requires settled { IsTrue (D.steady disk)
            → IsSettled D.DiskState (recovered (D.began disk)) disk }
        requires time { IsTrue (D.steady disk) → (c : Files) → D.left_since disk 0 c
            → FilesStandFor (recovered (D.began disk)) c }
        requires log { (D.seen disk).commits.log ≡ (D.began disk).commits.log }
        requires log_time { (c : Files) → D.left_since disk 0 c
            → c.commits.log ≡ (D.began disk).commits.log }
        ensures { result ≡ record {
          disk = disk;
          kept = [];
          state = SealState.Unsealed;
          reads = 0;
          shapes = 0;
          writes = 0;
          refusals = 0;
          log = None;
          doubt = [];
        } }
    {
        KeptStore {
            disk,
            kept: Vec::new(alloc),
            state: SealState::Unsealed,
            alloc,
            reads: 0,
            shapes: 0,
            writes: 0,
            refusals: 0,
            log: None,
            doubt: Vec::new(alloc),
        }
    }

    /// A store over a disk that was just opened, after a restart: finds the file that its files stand for, and puts old
    /// pages back where a side file has them. Until `finish` a crash at any moment leaves files that stand for that
    /// file, also during this call. Faults: Device, where a call of the disk failed; BadJournal. The disk comes back.
    pub fn open(alloc: Global, disk: D) -> Result<KeptStore<D>, (D, RecoveryFault)>
        requires rest { IsAtRest D.DiskState disk }
        requires began { D.seen disk ≡ D.began disk }
        requires moment { D.moment disk ≡ 0 }
        ensures opened { IfOk result (λ s. s ≡ record {
          disk = s.disk;
          kept = [];
          state = SealState.Unsealed;
          reads = 0;
          shapes = 0;
          writes = 0;
          refusals = 0;
          log = None;
          doubt = [];
        }) }
        ensures steady { IfOk result (λ s. D.steady s.disk ≡ D.steady disk) }
        ensures began { IfOk result (λ s. D.began s.disk ≡ D.began disk) }
        ensures failures { IfOk result (λ s. D.failures s.disk ≡ D.failures disk) }
        ensures file { IsTrue (D.steady disk) → IfOk result (λ s. Belongs (D.began disk)
            × ((D.seen s.disk).main ≡ recovered (D.began disk))) }
        ensures stopped { IsTrue (D.steady disk) → IfErr result (λ stop. (c : Files)
            → D.left_since stop.0 0 c → StandsAs (D.began disk) c) }
        ensures log { IfErr result (λ stop. (c : Files)
            → D.left_since stop.0 0 c → c.commits.log ≡ (D.began disk).commits.log) }
        ensures bad_journal { IsTrue (D.steady disk) → IfErr result (λ stop.
            stop.1 ≡ RecoveryFault.BadJournal → IsForeign (D.began disk)) }
        ensures device { IfErr result (λ stop. D.failures stop.0
            ≡ counted (D.failures disk) (is_device_fault stop.1)) }
    {
        let mut disk = disk;
        match recover(&mut disk) {
            Ok(()) => Ok(KeptStore::new(alloc, disk)),
            Err(fault) => Err((disk, fault)),
        }
    }

    /// The store, with a log of commits begun beside it that says this unit. Until `finish` a crash leaves the file as it is, and
    /// beside it no log, or one that says this and the commits that were kept. Fault: Failed; the disk comes back, and a
    /// crash leaves the file as it is, with no log or with this one.
    pub fn begin_commits(self, head: &[u8]) -> Result<KeptStore<D>, (D, StoreFault)>
        requires none { IsTrue (D.steady self.disk) → (D.began self.disk).commits.log ≡ None }
        requires unused { (self.log ≡ None) × (self.state ≡ SealState.Unsealed) }
        requires short { length head.now ≤ 2 ^ 40 }
        requires head { IsCommit head.now }
        ensures begun { IfOk result (λ s. s ≡ record self { disk = s.disk; log = s.log }) }
        ensures keeps { IfOk result (λ s. KeepsFile D.DiskState self.disk s.disk) }
        ensures failures { IfOk result (λ s. D.failures s.disk ≡ D.failures self.disk) }
        ensures says { (D.began self.disk).commits.log ≡ None → (unit : List (List ℕ))
            → IsUnit unit → head.now ≡ unit_text unit
            → IfOk result (λ s. commits_in s.log (D.seen s.disk) ≡ unit ∷ []) }
        ensures logs { IfOk result (λ s. IsSome s.log) }
        ensures stopped { IsTrue (D.steady self.disk) → IfErr result (λ stop. (c : Files)
            → D.left_since stop.0 0 c → FilesStandFor (recovered (D.began self.disk)) c) }
        ensures unbegun { (D.began self.disk).commits.log ≡ None → (unit : List (List ℕ))
            → IsUnit unit → head.now ≡ unit_text unit → IfErr result (λ stop. (c : Files) → D.left_since stop.0 0 c
            → SaysNoneOr (unit ∷ []) c) }
        ensures device { IfErr result (λ stop. (D.failures stop.0
            ≡ counted (D.failures self.disk) true) × (stop.1 ≡ StoreFault.Failed)) }
    {
        let KeptStore {
            mut disk,
            kept,
            state,
            alloc,
            reads,
            shapes,
            writes,
            refusals,
            doubt,
            ..
        } = self;
        match begin_log(&mut disk, head, FIRST_ROOM) {
            Ok(place) => Ok(KeptStore {
                disk,
                kept,
                state,
                alloc,
                reads,
                shapes,
                writes,
                refusals,
                log: Some(place),
                doubt,
            }),
            Err(_) => Err((disk, StoreFault::Failed)),
        }
    }

    /// The text of the finished units of the log of commits that stood beside the file when the disk was opened, where one did.
    /// It changes nothing. Faults: Failed, Memory.
    pub fn found_commits(&mut self) -> Result<Option<Vec<u8>>, StoreFault>
        requires unlogged { self.old.log ≡ None }
        ensures text { IsTrue (D.steady self.old.disk) → IfOk result
            (λ found. MatchOption found ((D.began self.old.disk).commits.log ≡ None)
            (λ text. HasLog (IsTextOf text.items) (D.began self.old.disk))) }
        ensures rest { self.new ≡ record self.old { disk = self.new.disk } }
        ensures seen { D.seen self.new.disk ≡ D.seen self.old.disk }
        ensures opened { StaysSteady D.DiskState self.old.disk self.new.disk
            × StaysBegun D.DiskState self.old.disk self.new.disk }
        ensures failures { D.failures self.new.disk
            ≡ counted (D.failures self.old.disk) (is_failed result) }
    {
        read_back(self.alloc, &mut self.disk)
    }

    /// Whether a commit is in doubt. At each moment a crash leaves every commit that was kept, and perhaps the one in doubt.
    pub fn is_in_doubt(&self) -> bool
        ensures value { IsTrue result ↔ (0 < length self.now.doubt) }
        ensures alone { IsTrue (D.steady self.now.disk)
            → BeganAlone D.DiskState self.now.log self.now.disk }
        ensures now { BeganAlone D.DiskState self.now.log self.now.disk → (c : Files)
            → D.may_leave self.now.disk c → FindsNow self.now.log (D.began self.now.disk)
            (commits_in self.now.log (D.seen self.now.disk)) self.now.doubt c }
    {
        !self.doubt.is_empty()
    }

    // Whether page n may be written over.
    fn may_write(&self, n: u32) -> bool
        ensures { result ≡ may_write_in self.now.state self.now.kept n }
    {
        match self.state {
            SealState::Sealed => is_open(&self.kept, n),
            SealState::Unsealed | SealState::Stopped => false,
        }
    }

    // Keeps the pages of these numbers aside, where none were. Faults: Failed, Memory.
    fn keep_aside(&mut self, numbers: &[u32]) -> Result<(), StoreFault>
        ensures keeps { KeepsFile D.DiskState self.old.disk self.new.disk }
        ensures commits { (D.seen self.new.disk).commits ≡ (D.seen self.old.disk).commits }
        ensures sealed { OnOk result ((self.new.state ≡ SealState.Sealed) × ((n : ℕ)
            → n < length (D.seen self.old.disk).main.pages
            → is_writable self.new.kept n ≡ list_any (λ m. n == m) numbers.now)) }
        ensures again { self.old.state ≢ SealState.Unsealed → (result ≡ Err StoreFault.Failed)
            × (self.new ≡ record self.old { refusals = counted self.old.refusals true }) }
        ensures guard { CanBeSealed (D.seen self.old.disk).main → SealsGuard
            (λ n. list_any (λ m. n == m) numbers.now) (length (D.seen self.old.disk).main.pages)
            (guard_of self.old.state self.old.kept self.old.refusals) result
            (guard_of self.new.state self.new.kept self.new.refusals) }
        ensures failures { failures_with (D.failures self.new.disk) self.new.refusals
            ≡ counted (failures_with (D.failures self.old.disk) self.old.refusals)
            (is_failed result) }
        ensures passes { self.old.state ≡ SealState.Unsealed
            → CanBeSealed (D.seen self.old.disk).main → D.failures self.new.disk
            ≡ counted (D.failures self.old.disk) (is_failed result) }
        ensures refused { OnOk result (CanBeSealed (D.seen self.old.disk).main) }
        ensures rest { self.new ≡ record self.old {
          disk = self.new.disk;
          kept = self.new.kept;
          state = self.new.state;
          refusals = self.new.refusals;
        } }
    {
        let SealState::Unsealed = self.state else {
            count_up(&mut self.refusals);
            return Err(StoreFault::Failed);
        };
        let shape = self.disk.shape()?;
        if shape.tail > 0 || shape.pages > MOST_PAGES {
            count_up(&mut self.refusals);
            return Err(StoreFault::Failed);
        }
        let long = shape.pages as u32;
        let Ok(kept) = flags_of(self.alloc, long, numbers) else {
            return Err(StoreFault::Memory);
        };
        self.state = SealState::Stopped;
        seal(&mut self.disk, &kept)?;
        self.kept = kept;
        self.state = SealState::Sealed;
        Ok(())
    }

    /// The disk, and how it ended: where pages were kept aside, the file is synced and the old pages are given up by three
    /// calls, so that at Ok the file is the new one whatever happens. A crash at any moment since the disk was opened leaves
    /// the old file or the new one. Fault: Failed, where a call of the disk failed now or when pages were to be kept;
    /// the file is the old one or the new one then.
    pub fn finish(self) -> (D, Result<(), StoreFault>)
        ensures settled { IsTrue (D.steady self.disk) → OnOk result.1
            (IsSettled D.DiskState (D.seen self.disk).main result.0) }
        ensures any_moment { IsTrue (D.steady self.disk) → (c : Files) → D.left_since result.0 0 c
            → StandsForEither (recovered (D.began self.disk)) (D.seen self.disk).main c }
        ensures keeps { KeepsFile D.DiskState self.disk result.0 }
        ensures finished { IsFinished D.DiskState self.state self.disk result.1 result.0 }
        ensures commits { IsTrue (D.steady self.disk) → (c : Files) → D.left_since result.0 0 c
            → LeavesWithCommits self.log (D.began self.disk)
            (commits_in self.log (D.seen self.disk)) self.doubt (recovered (D.began self.disk))
            (D.seen self.disk).main c }
        ensures alone { IsTrue (D.steady self.disk) → BeganAlone D.DiskState self.log self.disk }
        ensures all { BeganAlone D.DiskState self.log self.disk → OnOk result.1 ((c : Files)
            → D.may_leave result.0 c → FindsAll self.log (D.began self.disk)
            (commits_in self.log (D.seen self.disk)) c) }
        ensures now { BeganAlone D.DiskState self.log self.disk → (c : Files) → D.may_leave result.0 c
            → FindsNow self.log (D.began self.disk) (commits_in self.log (D.seen self.disk))
            self.doubt c }
    {
        let KeptStore {
            mut disk,
            state,
            ..
        } = self;
        let done = match state {
            SealState::Unsealed => Ok(()),
            SealState::Sealed => commit(&mut disk),
            SealState::Stopped => Err(StoreFault::Failed),
        };
        (disk, done)
    }

    /// The disk, with the file put back that there was when it was opened, as after calls that failed. A crash at any
    /// moment since the disk was opened leaves files that stand for that file. Where nothing is kept aside the disk isn't
    /// called. Faults: Device, where a call of the disk failed; an opening finds the file then. BadJournal, where a disk
    /// that isn't steady doesn't give back what was kept; nothing has changed then.
    pub fn take_back(self) -> (D, Result<(), RecoveryFault>)
        ensures old { IsTrue (D.steady self.disk)
            → OnOk result.1 ((D.seen result.0).main ≡ recovered (D.began self.disk)) }
        ensures any_moment { IsTrue (D.steady self.disk) → (c : Files) → D.left_since result.0 0 c
            → FilesStandFor (recovered (D.began self.disk)) c }
        ensures alone { IsTrue (D.steady self.disk) → BeganAlone D.DiskState self.log self.disk }
        ensures commits { BeganAlone D.DiskState self.log self.disk → (c : Files) → D.left_since result.0 0 c
            → MayFind self.log (D.began self.disk) (commits_in self.log (D.seen self.disk))
            self.doubt c }
        ensures now { BeganAlone D.DiskState self.log self.disk → (c : Files) → D.may_leave result.0 c
            → FindsNow self.log (D.began self.disk) (commits_in self.log (D.seen self.disk))
            self.doubt c }
        ensures fault { IsTrue (D.steady self.disk) → result.1 ≢ Err RecoveryFault.BadJournal }
        ensures unsealed { self.state ≢ SealState.Sealed
            → (result.0 ≡ self.disk) × (result.1 ≡ Ok tt) }
        ensures bad_journal { result.1 ≡ Err RecoveryFault.BadJournal
            → D.seen result.0 ≡ D.seen self.disk }
        ensures leaves { RecoveryLeaves D.DiskState self.disk result.1 result.0 }
    {
        let KeptStore {
            mut disk,
            state,
            ..
        } = self;
        let done = match state {
            SealState::Sealed => recover(&mut disk),
            _ => Ok(()),
        };
        (disk, done)
    }
}

impl<D: Disk + Drop> StoreState for KeptStore<D> {
    ghost use Rattle.std.specs.Prelude.{None};
    ghost use Rattle.page_journal.specs.Files.{recovered};
    ghost use Rattle.page_journal.specs.KeptStores.{failures_with, guard_of, opened_over};
    ghost use Rattle.page_journal.specs.LoggedStores.{commits_in};

    ghost pages = { λ s. (D.seen s.disk).main.pages };

    ghost tail = { λ s. (D.seen s.disk).main.tail };

    ghost steady = { λ s. D.steady s.disk };

    ghost opening = { λ s. opened_over (D.began s.disk) s.log
        (commits_in s.log (D.seen s.disk)) s.doubt };

    ghost reads = { λ s. s.reads };

    ghost shapes = { λ s. s.shapes };

    ghost writes = { λ s. s.writes };

    ghost failures = { λ s. failures_with (D.failures s.disk) s.refusals };

    ghost journal = { λ _. None };

    ghost guard = { λ s. guard_of s.state s.kept s.refusals };
}

// A method's clauses stand in place of its trait's, so these are written again before those that tell
// of the calls that are refused.
impl<D: Disk + Drop> Store for KeptStore<D> {
    fn shape(&mut self) -> Result<Shape, StoreFault> {
        self.shapes = self.shapes.saturating_add(1);
        self.disk.shape()
    }

    fn read(&mut self, n: u32, to: &mut [u8; PAGE_WIDTH]) -> Result<(), StoreFault> {
        self.reads = self.reads.saturating_add(1);
        self.disk.read(n, to)
    }

    /// Writes page n, which is there. Fault: Failed, where page n mustn't be written over, and nothing has changed then,
    /// and where the disk failed; the page then has any bytes, and the other pages are unchanged.
    fn write(&mut self, n: u32, from: &[u8; PAGE_WIDTH]) -> Result<(), StoreFault>
        requires { n < length (D.seen self.old.disk).main.pages }
        ensures page { IsTrue (D.steady self.old.disk) → OnOk result
            ((D.seen self.new.disk).main.pages
            ≡ slice_set (D.seen self.old.disk).main.pages n from.now) }
        ensures other_pages { (page : List ℕ) × ((D.seen self.new.disk).main.pages
            ≡ slice_set (D.seen self.old.disk).main.pages n page) }
        ensures same_tail { (D.seen self.new.disk).main.tail ≡ (D.seen self.old.disk).main.tail }
        ensures changes { ChangesStore ⟦<KeptStore<D> as StoreState>⟧ (Step.Write n from.now)
            self.old result self.new }
        ensures refused { may_write_in self.old.state self.old.kept n ≡ false
            → (result ≡ Err StoreFault.Failed) × (self.new.disk ≡ self.old.disk) }
        ensures passes { may_write_in self.old.state self.old.kept n ≡ true
            → D.failures self.new.disk ≡ counted (D.failures self.old.disk) (is_failed result) }
        ensures stays { (self.new.state ≡ self.old.state) × (self.new.kept ≡ self.old.kept) }
    {
        self.writes = self.writes.saturating_add(1);
        if !self.may_write(n) {
            count_up(&mut self.refusals);
            return Err(StoreFault::Failed);
        }
        self.disk.write(n, from)
    }

    /// Makes the store n pages long, which is no fewer than it has. New pages are zero, and the tail is gone. Fault:
    /// Failed, where no page may be written over, and nothing has changed then, and where the disk failed; the old
    /// pages are then unchanged, and there are at most n.
    fn set_pages(&mut self, n: u32) -> Result<(), StoreFault>
        requires { length (D.seen self.old.disk).main.pages ≤ n }
        ensures pages { OnOk result ((D.seen self.new.disk).main.pages
            ≡ (D.seen self.old.disk).main.pages
            ++ blanks (n - length (D.seen self.old.disk).main.pages)) }
        ensures tail { OnOk result ((D.seen self.new.disk).main.tail ≡ 0) }
        ensures old_pages { OnErr result (GrowsTo n (D.seen self.old.disk).main.pages
            (D.seen self.new.disk).main.pages) }
        ensures changes { ChangesStore ⟦<KeptStore<D> as StoreState>⟧ (Step.SetPages n)
            self.old result self.new }
        ensures refused { self.old.state ≢ SealState.Sealed
            → (result ≡ Err StoreFault.Failed) × (self.new.disk ≡ self.old.disk) }
        ensures passes { self.old.state ≡ SealState.Sealed
            → D.failures self.new.disk ≡ counted (D.failures self.old.disk) (is_failed result) }
        ensures stays { (self.new.state ≡ self.old.state) × (self.new.kept ≡ self.old.kept) }
    {
        self.writes = self.writes.saturating_add(1);
        let SealState::Sealed = self.state else {
            count_up(&mut self.refusals);
            return Err(StoreFault::Failed);
        };
        self.disk.grow(n)
    }

    /// Has the device keep what was written, where no old pages were kept aside; where they were, what is written counts
    /// for nothing until `finish` has the device keep it, and the disk isn't called. Fault: Failed, where the disk
    /// failed; no page has changed then.
    fn sync(&mut self) -> Result<(), StoreFault>
        ensures same_pages { (D.seen self.new.disk).main.pages ≡ (D.seen self.old.disk).main.pages }
        ensures same_tail { (D.seen self.new.disk).main.tail ≡ (D.seen self.old.disk).main.tail }
        ensures changes { ChangesStore ⟦<KeptStore<D> as StoreState>⟧ Step.Sync
            self.old result self.new }
        ensures sealed { self.old.state ≡ SealState.Sealed
            → IsOk result × (self.new.disk ≡ self.old.disk) }
        ensures passes { self.old.state ≢ SealState.Sealed
            → CallSyncs D.DiskState (λ f. f.main) self.old.disk result self.new.disk }
        ensures stays { (self.new.state ≡ self.old.state) × (self.new.kept ≡ self.old.kept) }
    {
        self.writes = self.writes.saturating_add(1);
        if let SealState::Sealed = self.state {
            return Ok(());
        }
        self.disk.sync()
    }
}

impl<D: Disk + Drop> SealStore for KeptStore<D> {
    /// Keeps the pages of these numbers aside, once. Faults: Failed, where pages were kept or a sealing failed before,
    /// the store has a tail or more than 1,000,001 pages, or the disk failed; Memory.
    fn seal(&mut self, numbers: &[u32]) -> Result<(), StoreFault>
        ensures leaves { SealsStore ⟦<KeptStore<D> as StoreState>⟧
            self.old result self.new }
        ensures guard { (D.seen self.old.disk).main.tail ≡ 0
            → length (D.seen self.old.disk).main.pages ≤ greatest_page_count → SealsGuard
            (λ n. list_any (λ m. n == m) numbers.now) (length (D.seen self.old.disk).main.pages)
            (guard_of self.old.state self.old.kept self.old.refusals) result
            (guard_of self.new.state self.new.kept self.new.refusals) }
        ensures sealed { OnOk result ((self.new.state ≡ SealState.Sealed) × ((n : ℕ)
            → n < length (D.seen self.old.disk).main.pages
            → is_writable self.new.kept n ≡ list_any (λ m. n == m) numbers.now)) }
        ensures again { self.old.state ≢ SealState.Unsealed
            → (result ≡ Err StoreFault.Failed) × (self.new.disk ≡ self.old.disk) }
        ensures passes { self.old.state ≡ SealState.Unsealed
            → CanBeSealed (D.seen self.old.disk).main → D.failures self.new.disk
            ≡ counted (D.failures self.old.disk) (is_failed result) }
        ensures refused { OnOk result (CanBeSealed (D.seen self.old.disk).main) }
    {
        self.reads = self.reads.saturating_add(1);
        self.keep_aside(numbers)
    }
}

impl<D: Disk + Drop> CommitStore for KeptStore<D> {
    /// Keeps a commit, whose text this is. At `Ok` a crash at any later moment leaves it kept; until then it leaves every
    /// commit that was kept, and perhaps this one. It changes no page, and counts as no call of the store. Faults: Room, as
    /// where no log was begun; Doubt, as where pages were kept aside or an earlier commit is in doubt, after which no page
    /// may be written over.
    fn keep_commit(&mut self, text: Vec<u8>) -> Result<(), AppendFault>
        requires { IsCommit text.items }
        ensures commits { CommitsStore ⟦<KeptStore<D> as StoreState>⟧ text.items self.old result self.new }
        ensures alone { IsTrue (D.steady self.old.disk)
            → BeganAlone D.DiskState self.old.log self.old.disk }
        ensures any_moment { BeganAlone D.DiskState self.old.log self.old.disk
            → self.old.state ≡ SealState.Unsealed → LeavesOnly D.DiskState
            (FindsNow self.old.log (D.began self.old.disk)
            (commits_in self.old.log (D.seen self.old.disk)) text.items)
            self.old.disk self.new.disk }
    {
        let Some(mut place) = self.log else {
            return Err(AppendFault::Room);
        };
        let SealState::Unsealed = self.state else {
            return Err(AppendFault::Doubt);
        };
        match append(&mut self.disk, &mut place, &text) {
            Ok(()) => {
                self.log = Some(place);
                Ok(())
            }
            Err(AppendFault::Room) => {
                self.log = Some(place);
                Err(AppendFault::Room)
            }
            Err(AppendFault::Doubt) => {
                self.log = Some(place);
                self.doubt = text;
                self.state = SealState::Stopped;
                Err(AppendFault::Doubt)
            }
        }
    }
}
