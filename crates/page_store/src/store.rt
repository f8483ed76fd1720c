ghost use Rattle.std.specs.Prelude.{◌≡◌, ℕ, ◌-◌, ◌<◌, ◌≤◌, List, true, false, ◌++◌, length, IsTrue, IfOk, OnOk, OnErr, slice_get, slice_set};
ghost use Rattle.rec_types.specs.Widths.{page_width};
ghost use Rattle.page_store.specs.Blank.{blanks};
ghost use Rattle.page_store.specs.Growth.{GrowsTo};
ghost use Rattle.page_store.specs.StoreCalls.{LeavesStore, ChangesStore};
ghost use Rattle.page_store.specs.declared.step.Step.{Step};

use crate::store_fault::{Shape, StoreFault};
use crate::store_state::StoreState;
use rec_types::PAGE_WIDTH;

/// A file of pages of 4,096 bytes. Its meaning is a list of pages and a tail of 0 to 4,095 further
/// bytes, a fact `steady`, which no call changes, and four counts, which stay at the greatest 64-bit
/// number: of its reads, of its calls of `shape` and of its changing calls (`write`, `set_pages` and
/// `sync`), failed ones too, and of its failures. A store may keep a journal, which is the pages that it was made of and its
/// changing calls since then that succeeded, in their order.
///
/// Where `steady` holds, a read that succeeds gives the page of the list, and a write that succeeds
/// replaces it.
pub trait Store: StoreState + Drop {
    /// The length. Only `set_pages` changes it. Fault: Failed.
    fn shape(&mut self) -> Result<Shape, StoreFault>
        ensures pages { IfOk result (λ shape. shape.pages ≡ length (Self.pages self.old)) }
        ensures tail { IfOk result (λ shape. shape.tail ≡ Self.tail self.old) }
        ensures short_tail { OnOk result (Self.tail self.old < page_width) }
        ensures leaves { LeavesStore Self.StoreState false self.old result self.new };

    /// Reads page n, which is there. Fault: Failed; no page has changed then.
    fn read(&mut self, n: u32, to: &mut [u8; PAGE_WIDTH]) -> Result<(), StoreFault>
        requires { n < length (Self.pages self.old) }
        ensures page { IsTrue (Self.steady self.old)
            → OnOk result (slice_get (Self.pages self.old) n ≡ Some to.new) }
        ensures leaves { LeavesStore Self.StoreState true self.old result self.new };

    /// Writes page n, which is there. Fault: Failed; the page then has any bytes, and the other pages
    /// are unchanged.
    fn write(&mut self, n: u32, from: &[u8; PAGE_WIDTH]) -> Result<(), StoreFault>
        requires { n < length (Self.pages self.old) }
        ensures page { IsTrue (Self.steady self.old)
            → OnOk result (Self.pages self.new ≡ slice_set (Self.pages self.old) n from.now) }
        ensures other_pages { (page : List ℕ)
            × (Self.pages self.new ≡ slice_set (Self.pages self.old) n page) }
        ensures same_tail { Self.tail self.new ≡ Self.tail self.old }
        ensures changes { ChangesStore Self.StoreState (Step.Write n from.now)
            self.old result self.new };

    /// Makes the store n pages long, which is no fewer than it has. New pages are zero, and the tail
    /// is gone. Faults: Failed, Memory; the old pages are then unchanged, and there are at most n.
    fn set_pages(&mut self, n: u32) -> Result<(), StoreFault>
        requires { length (Self.pages self.old) ≤ n }
        ensures pages { OnOk result
            (Self.pages self.new ≡ Self.pages self.old
            ++ blanks (n - length (Self.pages self.old))) }
        ensures tail { OnOk result (Self.tail self.new ≡ 0) }
        ensures old_pages { OnErr result (GrowsTo n (Self.pages self.old) (Self.pages self.new)) }
        ensures changes { ChangesStore Self.StoreState (Step.SetPages n) self.old result self.new };

    /// Has the device keep what was written. Fault: Failed; no page has changed then.
    fn sync(&mut self) -> Result<(), StoreFault>
        ensures same_pages { Self.pages self.new ≡ Self.pages self.old }
        ensures same_tail { Self.tail self.new ≡ Self.tail self.old }
        ensures changes { ChangesStore Self.StoreState Step.Sync self.old result self.new };
}
