ghost use Rattle.std.specs.Prelude.{◌≡◌, ℕ, ◌-◌, ◌<◌, ◌≤◌, ◌++◌, List, length, IsTrue, true, false, Some, Err, IfOk, OnOk, OnErr, slice_get, slice_set};
ghost use Rattle.rec_types.specs.Table.{counted};
ghost use Rattle.rec_types.specs.Widths.{page_width};
ghost use Rattle.page_store.specs.Blank.{blanks};
ghost use Rattle.page_store.specs.Growth.{GrowsTo};
ghost use Rattle.page_store.specs.StoreCalls.{LeavesStore, ChangesStore};
ghost use Rattle.page_store.specs.declared.step.Step.{Step};
ghost use Rattle.page_store.specs.StoreFaults.{is_failed};
ghost use Rattle.page_store.specs.FlakyStored.{read_fails, write_fails, PassesWrite, with_read, with_write, reads_of, writes_of, store_failures_of};

use crate::store::Store;
use crate::store_fault::{Shape, StoreFault};
use crate::store_state::StoreState;
use rec_types::PAGE_WIDTH;
use std::marker::Model;

/// A store that fails at chosen calls. Everything else it hands on to the store below it. The reads are
/// numbered from 1, and so are the calls of `write`, `set_pages` and `sync` together, those that fail
/// too; a number stays at its greatest value. It is steady where the store below it is.
#[derive(Drop)]
pub struct FlakyStore<S: Store> {
    inner: S,
    failing_reads: Vec<u64>,
    failing_writes: Vec<u64>,
    reads: u64,
    writes: u64,
    failed_reads: u64,
    failed_writes: u64,
}

impl<S: Store> Model for FlakyStore<S> {
    ghost use Rattle.page_store.specs.FlakyStored.{FlakyStored, coded_flaky_stored};

    ghost Value = { FlakyStored S };

    ghost coded = { coded_flaky_stored S.code };

    ghost view = { λ s. record {
      inner = s.inner;
      failing_reads = s.failing_reads.items;
      failing_writes = s.failing_writes.items;
      reads = s.reads;
      writes = s.writes;
      failed_reads = s.failed_reads;
      failed_writes = s.failed_writes;
    } };
}

impl<S: Store> FlakyStore<S> {
    /// This store, of which the reads with the numbers of the first list fail, and of the calls of
    /// `write`, `set_pages` and `sync` those with the numbers of the second. It takes no memory.
    pub fn new(inner: S, reads: Vec<u64>, writes: Vec<u64>) -> FlakyStore<S>
        ensures { result ≡ record {
          inner = inner;
          failing_reads = reads.items;
          failing_writes = writes.items;
          reads = 0;
          writes = 0;
          failed_reads = 0;
          failed_writes = 0;
        } }
    {
        FlakyStore {
            inner,
            failing_reads: reads,
            failing_writes: writes,
            reads: 0,
            writes: 0,
            failed_reads: 0,
            failed_writes: 0,
        }
    }

    // Counts one more read, and answers whether it fails.
    fn read_fails_now(&mut self) -> bool
        ensures value { result ≡ read_fails self.old }
        ensures after { self.new ≡ with_read self.old result }
    {
        self.reads = self.reads.saturating_add(1);
        let fails = self.failing_reads.contains(&self.reads);
        if fails {
            self.failed_reads = self.failed_reads.saturating_add(1);
        }
        fails
    }

    // Counts one more call of `write`, `set_pages` or `sync`, and answers whether it fails.
    fn write_fails_now(&mut self) -> bool
        ensures value { result ≡ write_fails self.old }
        ensures after { self.new ≡ with_write self.old result }
    {
        self.writes = self.writes.saturating_add(1);
        let fails = self.failing_writes.contains(&self.writes);
        if fails {
            self.failed_writes = self.failed_writes.saturating_add(1);
        }
        fails
    }
}

impl<S: Store> StoreState for FlakyStore<S> {
    ghost pages = { λ s. S.pages s.inner };

    ghost tail = { λ s. S.tail s.inner };

    ghost steady = { λ s. S.steady s.inner };

    ghost opening = { λ s. S.opening s.inner };

    ghost reads = { λ s. reads_of S.reads s };

    ghost shapes = { λ s. S.shapes s.inner };

    ghost writes = { λ s. writes_of S.writes s };

    ghost failures = { λ s. store_failures_of S.failures s };

    ghost journal = { λ s. S.journal s.inner };

    ghost guard = { λ s. S.guard s.inner };
}

// A method's clauses stand in place of its trait's, so these are written again before those that tell
// of the calls that fail.
impl<S: Store> Store for FlakyStore<S> {
    /// The length, which the store below answers. Fault: Failed, where it fails.
    fn shape(&mut self) -> Result<Shape, StoreFault>
        ensures pages { IfOk result (λ shape. shape.pages ≡ length (S.pages self.old.inner)) }
        ensures tail { IfOk result (λ shape. shape.tail ≡ S.tail self.old.inner) }
        ensures short_tail { OnOk result (S.tail self.old.inner < page_width) }
        ensures leaves { LeavesStore ⟦<FlakyStore<S> as StoreState>⟧ false
            self.old result self.new }
        ensures passes { S.failures self.new.inner
            ≡ counted (S.failures self.old.inner) (is_failed result) }
        ensures reads_below { S.reads self.new.inner ≡ S.reads self.old.inner }
        ensures shapes_below { S.shapes self.new.inner ≡ counted (S.shapes self.old.inner) true }
        ensures writes_below { S.writes self.new.inner ≡ S.writes self.old.inner }
        ensures rest { self.new ≡ record self.old { inner = self.new.inner } }
    {
        self.inner.shape()
    }

    /// Reads page n, which is there. Fault: Failed, at the chosen reads, where nothing is read, and
    /// where the store below fails.
    fn read(&mut self, n: u32, to: &mut [u8; PAGE_WIDTH]) -> Result<(), StoreFault>
        requires { n < length (S.pages self.old.inner) }
        ensures page { IsTrue (S.steady self.old.inner)
            → OnOk result (slice_get (S.pages self.old.inner) n ≡ Some to.new) }
        ensures leaves { LeavesStore ⟦<FlakyStore<S> as StoreState>⟧ true
            self.old result self.new }
        ensures fails { IsTrue (read_fails self.old) → (result ≡ Err StoreFault.Failed)
            × (self.new.inner ≡ self.old.inner) × (to.new ≡ to.old) }
        ensures passes { read_fails self.old ≡ false → S.failures self.new.inner
            ≡ counted (S.failures self.old.inner) (is_failed result) }
        ensures reads_below { read_fails self.old ≡ false
            → S.reads self.new.inner ≡ counted (S.reads self.old.inner) true }
        ensures shapes_below { S.shapes self.new.inner ≡ S.shapes self.old.inner }
        ensures writes_below { S.writes self.new.inner ≡ S.writes self.old.inner }
        ensures rest { self.new
            ≡ record (with_read self.old (read_fails self.old)) { inner = self.new.inner } }
    {
        if self.read_fails_now() {
            return Err(StoreFault::Failed);
        }
        self.inner.read(n, to)
    }

    /// Writes page n, which is there. Fault: Failed, at the chosen calls, which change nothing, and
    /// where the store below fails; the page then has any bytes, and the other pages are unchanged.
    fn write(&mut self, n: u32, from: &[u8; PAGE_WIDTH]) -> Result<(), StoreFault>
        requires { n < length (S.pages self.old.inner) }
        ensures page { IsTrue (S.steady self.old.inner)
            → OnOk result (S.pages self.new.inner ≡ slice_set (S.pages self.old.inner) n from.now) }
        ensures other_pages { (page : List ℕ)
            × (S.pages self.new.inner ≡ slice_set (S.pages self.old.inner) n page) }
        ensures same_tail { S.tail self.new.inner ≡ S.tail self.old.inner }
        ensures changes { ChangesStore ⟦<FlakyStore<S> as StoreState>⟧ (Step.Write n from.now)
            self.old result self.new }
        ensures passes { PassesWrite S.StoreState self.old result self.new }
    {
        if self.write_fails_now() {
            return Err(StoreFault::Failed);
        }
        self.inner.write(n, from)
    }

    /// Makes the store n pages long, which is no fewer than it has. New pages are zero, and the tail
    /// is gone. Faults: Failed, at the chosen calls, which change nothing, and those of the store
    /// below; the old pages are then unchanged, and there are at most n.
    fn set_pages(&mut self, n: u32) -> Result<(), StoreFault>
        requires { length (S.pages self.old.inner) ≤ n }
        ensures pages { OnOk result (S.pages self.new.inner
            ≡ S.pages self.old.inner ++ blanks (n - length (S.pages self.old.inner))) }
        ensures tail { OnOk result (S.tail self.new.inner ≡ 0) }
        ensures old_pages { OnErr result
            (GrowsTo n (S.pages self.old.inner) (S.pages self.new.inner)) }
        ensures changes { ChangesStore ⟦<FlakyStore<S> as StoreState>⟧ (Step.SetPages n)
            self.old result self.new }
        ensures passes { PassesWrite S.StoreState self.old result self.new }
    {
        if self.write_fails_now() {
            return Err(StoreFault::Failed);
        }
        self.inner.set_pages(n)
    }

    /// Has the device keep what was written. Fault: Failed, at the chosen calls and where the store
    /// below fails; no page has changed then.
    fn sync(&mut self) -> Result<(), StoreFault>
        ensures same_pages { S.pages self.new.inner ≡ S.pages self.old.inner }
        ensures same_tail { S.tail self.new.inner ≡ S.tail self.old.inner }
        ensures changes { ChangesStore ⟦<FlakyStore<S> as StoreState>⟧ Step.Sync
            self.old result self.new }
        ensures passes { PassesWrite S.StoreState self.old result self.new }
    {
        if self.write_fails_now() {
            return Err(StoreFault::Failed);
        }
        self.inner.sync()
    }
}
