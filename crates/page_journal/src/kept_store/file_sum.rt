ghost use Rattle.std.specs.Prelude.{◌≡◌, ◌≢◌, ◌≤◌, ℕ, Err, length, IsTrue, IfOk};
ghost use Rattle.rec_types.specs.Table.{counted};
ghost use Rattle.page_store.specs.FreeNumbers.{greatest_page_count};
ghost use Rattle.page_store.specs.StoreFaults.{is_failed};
ghost use Rattle.page_journal.specs.KeptStores.{failures_with};
ghost use Rattle.page_journal.specs.Steps.{CountsFault, Stays};
ghost use Rattle.page_journal.specs.Sums.{sum_of_all};

use crate::disk::Disk;
use crate::kept_store::{KeptStore, MOST_PAGES};
use crate::noted::count_up;
use crate::recovering::sum_pages;
use crate::side_tally::SUM_START;
use page_store::StoreFault;

impl<D: Disk + Drop> KeptStore<D> {
    /// The sum over all pages of the file, which tells it from others of as many pages. Each page counts as read. Fault:
    /// Failed, where the disk failed, or the file has more than 1,000,001 pages.
    pub fn sum(&mut self) -> Result<u64, StoreFault>
        ensures stays { Stays D.DiskState self.old.disk self.new.disk }
        ensures rest { self.new ≡ record self.old {
          disk = self.new.disk;
          reads = self.new.reads;
          refusals = self.new.refusals;
        } }
        ensures sum { IsTrue (D.steady self.old.disk) → IfOk result
            (λ sum. sum ≡ sum_of_all (D.seen self.old.disk).main.pages) }
        ensures failures { failures_with (D.failures self.new.disk) self.new.refusals
            ≡ counted (failures_with (D.failures self.old.disk) self.old.refusals)
            (is_failed result) }
        ensures no_memory { result ≢ Err StoreFault.Memory }
        ensures passes { length (D.seen self.old.disk).main.pages ≤ greatest_page_count
            → CountsFault D.DiskState self.old.disk result self.new.disk
            × (self.new.refusals ≡ self.old.refusals) }
    {
        let pages = self.disk.shape()?.pages;
        if pages > MOST_PAGES {
            count_up(&mut self.refusals);
            return Err(StoreFault::Failed);
        }
        self.reads = self.reads.saturating_add(pages);
        sum_pages(&mut self.disk, SUM_START, 0, pages as u32)
    }
}
