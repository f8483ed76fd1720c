ghost use Rattle.std.specs.Prelude.{◌≡◌, ◌==◌, ◌||◌, ℕ, false, length, IsOk, IsTrue, OnOk};
ghost use Rattle.rec_types.specs.Table.{counted};
ghost use Rattle.page_store.specs.Guards.{AllowsAll, SealsGuard, Unsealed};
ghost use Rattle.page_store.specs.PagesView.{is_in_memory};
ghost use Rattle.page_store.specs.WriteFaults.{write_by_device};
ghost use Rattle.btree_delete.specs.Closing.{closing};

use super::TreeTable;
use page_store::{SealStore, WriteFault};

impl<S: SealStore> TreeTable<S> {
    /// Has the store keep aside exactly the pages that closing would write over, which it allows only then. Where nothing
    /// was changed, the store isn't called. No record changes, and no page. Faults: Device, Memory; the store may then not
    /// be written over any more, and closing answers Device.
    pub fn seal(&mut self) -> Result<(), WriteFault>
        ensures same { self.new ≡ record self.old {
          pages = record self.old.pages {
            reads = self.new.pages.reads;
            failures = self.new.pages.failures;
            guard = self.new.pages.guard;
          };
        } }
        ensures asked { OnOk result (self.new.pages.reads
            ≡ counted self.old.pages.reads self.old.pages.changed) }
        ensures device { self.new.pages.failures
            ≡ counted self.old.pages.failures (write_by_device result) }
        ensures idle { self.old.pages.changed ≡ false
            → IsOk result × (self.new.pages.guard ≡ self.old.pages.guard) }
        ensures guard { IsTrue self.old.pages.changed → self.old.pages.tail ≡ 0 → SealsGuard
            (λ n. n == 0 || is_in_memory self.old.pages n) (length self.old.pages.stored)
            self.old.pages.guard result self.new.pages.guard }
        ensures allowed { (refusals : ℕ) → self.old.pages.guard ≡ Unsealed refusals
            → self.old.pages.tail ≡ 0
            → OnOk result (AllowsAll self.new.pages.guard (closing self.new)) }
    {
        if !self.pages.changed() {
            return Ok(());
        }
        self.pages.seal()
    }
}
