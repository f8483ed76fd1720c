ghost use Rattle.std.specs.Prelude.{◌≡◌, ◌≤◌, ◌==◌, length};
ghost use Rattle.std.specs.List.{list_any};
ghost use Rattle.page_store.specs.FreeNumbers.{greatest_page_count};
ghost use Rattle.page_store.specs.Guards.{Ascend, SealsGuard};
ghost use Rattle.page_store.specs.StoreCalls.{SealsStore};

use crate::store::Store;
use crate::store_fault::StoreFault;

/// A store that keeps old pages aside, so that what is written over them can be undone.
pub trait SealStore: Store {
    /// Keeps the pages of these numbers aside, which ascend; numbers past the store's end are passed over. From then on
    /// these pages may be written over, and pages may be added, and no other page may be written over. It changes no
    /// page, and is counted as a read. Faults: Failed, as where the store has a tail or more than 1,000,001 pages,
    /// Memory; nothing may be written over then.
    fn seal(&mut self, numbers: &[u32]) -> Result<(), StoreFault>
        requires { Ascend 0 numbers.now }
        ensures leaves { SealsStore Self.StoreState self.old result self.new }
        ensures guard { Self.tail self.old ≡ 0 → length (Self.pages self.old) ≤ greatest_page_count
            → SealsGuard (λ n. list_any (λ m. n == m) numbers.now) (length (Self.pages self.old))
            (Self.guard self.old) result (Self.guard self.new) };
}
