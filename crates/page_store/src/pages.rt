ghost use Rattle.std.specs.Prelude.{◌≡◌, ℕ, ◌≢◌, ◌+◌, ◌-◌, ◌<◌, ◌≤◌, ◌++◌, ◌↔◌, ◌==◌, ◌||◌, ◌&&◌, if◌then◌else◌, [], false, true, not, length, Some, None, Err, is_some, IsTrue, IsSome, IfSome, OnSome, IsOk, OnOk, OnErr, slice_get};
ghost use Rattle.std.specs.Ordering.{nat_cmp};
ghost use Rattle.std.specs.BTreeSet.{contains};
ghost use Rattle.rec_types.specs.Table.{counted};
ghost use Rattle.page_store.specs.PageMap.{at, after, is_written, is_freed};
ghost use Rattle.page_store.specs.ChangedPage.{MayChangeAt, ChangesPage};
ghost use Rattle.page_store.specs.PagesView.{CountsRead, OnlyReads, is_in_memory, with_writes};
ghost use Rattle.page_store.specs.StoreUnder.{IsStoreOf};
ghost use Rattle.page_store.specs.FreeNumbers.{free_numbers, candidate, count_after, greatest_page_count};
ghost use Rattle.page_store.specs.CanStage.{CanStage};
ghost use Rattle.page_store.specs.FetchFaults.{is_fetch_device};
ghost use Rattle.page_store.specs.WritingBack.{KeepsOthers, Stopped};
ghost use Rattle.page_store.specs.WrittenBack.{CarriesOut, GrowsAlone, IsWrittenBack, KeepsPages, calls_back, steps_back};
ghost use Rattle.btree_node.specs.Spelling.{IsSpelt};

mod commits;
mod sealing;

use crate::free_numbers::{add_all, nth_number};
use crate::kept_pages::KeptPages;
use crate::page_edit::{FetchFault, PageEdit, WriteFault};
use crate::slot::{
    Slot, boxed, change_one, changed_page, drop_pages, is_in_use, make_slots, slots_needed,
    write_pages,
};
use crate::store::Store;
use crate::write_back::write_out;
use btree_node::PageChange;
use rec_types::{Memory, PAGE_WIDTH};
use std::alloc::Global;
use std::collections::BTreeSet;
use std::marker::Model;

/// A store with changed pages in memory, a page count and the free page numbers. Contracts see each
/// page's newest bytes, None for page 0 and for free numbers, whether an edit was staged, which pages
/// in use are in memory, and what the store is.
#[derive(Drop)]
pub struct Pages<S: Store> {
    store: S,
    changed: Vec<Slot>,
    /// Pages of the store that were read.
    kept: KeptPages,
    free: BTreeSet<u32>,
    count: u32,
    edited: bool,
    alloc: Global,
}

impl<S: Store> Model for Pages<S> {
    ghost use Rattle.page_store.specs.PagesView.{PagesView};

    ghost Value = { PagesView };

    ghost use Rattle.page_store.specs.Overlaid.{pages_of, slots_of, ArePages};
    ghost use Rattle.page_store.specs.WritingBack.{in_memory_of};

    ghost view = { λ p. record {
      pages = pages_of (S.pages p.store) (slots_of p.changed.items) p.free.keys p.count;
      changed = p.edited;
      in_memory = in_memory_of (slots_of p.changed.items) p.free.keys p.count;
      stored = S.pages p.store;
      tail = S.tail p.store;
      steady = S.steady p.store;
      opening = S.opening p.store;
      reads = S.reads p.store;
      shapes = S.shapes p.store;
      writes = S.writes p.store;
      failures = S.failures p.store;
      journal = S.journal p.store;
      guard = S.guard p.store;
    } };

    ghost use Rattle.std.specs.Prelude.{IsTrue};
    ghost use Rattle.page_store.specs.KeptPages.{AreOf};

    ghost invariant = { λ p.
        ArePages (S.pages p.store) (slots_of p.changed.items) p.free.keys p.count p.edited
        × (IsTrue (S.steady p.store) → AreOf (S.pages p.store) p.kept.slots) };
}

impl<S: Store> Pages<S> {
    /// The pages of a store, of which there are `count`. The condition is that `count` is 1 to
    /// 1,000,001, the store has at most so many pages, each free number is from 1 to `count - 1`, and
    /// each page from 1 on that the store lacks is free.
    pub fn new(alloc: Global, store: S, count: u32, free: BTreeSet<u32>) -> Pages<S>
        requires some { 1 ≤ count }
        requires most { count ≤ greatest_page_count }
        requires store_fits { length (S.pages store) ≤ count }
        requires free_fits { (n : ℕ) → IsTrue (contains nat_cmp free n) → (1 ≤ n) × (n < count) }
        requires lacking_free { (n : ℕ) → length (S.pages store) ≤ n → 1 ≤ n → n < count
            → IsTrue (contains nat_cmp free n) }
        ensures count { length result.pages ≡ count }
        ensures pages { (n : ℕ) → n < count → at result.pages n
            ≡ (if n == 0 || contains nat_cmp free n then None else slice_get (S.pages store) n) }
        ensures in_memory { (n : ℕ) → is_in_memory result n ≡ false }
        ensures store { result ≡ record {
          pages = result.pages;
          changed = false;
          in_memory = result.in_memory;
          stored = S.pages store;
          tail = S.tail store;
          steady = S.steady store;
          opening = S.opening store;
          reads = S.reads store;
          shapes = S.shapes store;
          writes = S.writes store;
          failures = S.failures store;
          journal = S.journal store;
          guard = S.guard store;
        } }
    {
        Pages {
            store,
            changed: Vec::new(alloc),
            kept: KeptPages::new(alloc),
            free,
            count,
            edited: false,
            alloc,
        }
    }

    /// The pages of the store, without what was changed, with those free numbers; those that are kept stay so. The condition is
    /// that of `new`.
    pub fn with_free(self, free: BTreeSet<u32>) -> Pages<S>
        requires free_fits { (n : ℕ) → IsTrue (contains nat_cmp free n)
            → (1 ≤ n) × (n < length self.pages) }
        requires lacking_free { (n : ℕ) → length self.stored ≤ n → 1 ≤ n → n < length self.pages
            → IsTrue (contains nat_cmp free n) }
        ensures header { at self.pages 0 ≡ None }
        ensures count { length result.pages ≡ length self.pages }
        ensures pages { (n : ℕ) → n < length self.pages → at result.pages n
            ≡ (if n == 0 || contains nat_cmp free n then None else slice_get self.stored n) }
        ensures in_memory { (n : ℕ) → is_in_memory result n ≡ false }
        ensures store { result ≡ record self {
          pages = result.pages;
          changed = false;
          in_memory = result.in_memory;
        } }
    {
        let Pages {
            store,
            kept,
            count,
            alloc,
            ..
        } = self;
        Pages {
            store,
            changed: Vec::new(alloc),
            kept,
            free,
            count,
            edited: false,
            alloc,
        }
    }

    /// Reads page n's newest bytes: a changed page from memory, where the store isn't called, any other
    /// by one read of the store, each time. Faults: Device where the store failed, OutOfRange where page
    /// n is not in use; `to` is as it was then. No page changes.
    pub fn fetch(&mut self, n: u32, to: &mut [u8; PAGE_WIDTH]) -> Result<(), FetchFault>
        ensures page { IsTrue self.old.steady → OnOk result (at self.old.pages n ≡ Some to.new) }
        ensures out_of_range { (result ≡ Err FetchFault.OutOfRange) ↔ (at self.old.pages n ≡ None) }
        ensures device { self.new.failures ≡ counted self.old.failures (is_fetch_device result) }
        ensures unchanged { OnlyReads self.old self.new }
        ensures nothing { at self.old.pages n ≡ None
            → (self.new ≡ self.old) × (to.new ≡ to.old) }
        ensures from_memory { is_in_memory self.old n ≡ true
            → (self.new ≡ self.old) × IsOk result × (at self.old.pages n ≡ Some to.new) }
        ensures some { OnOk result (0 < n) }
        ensures reads { CountsRead n self.old self.new }
    {
        if !is_in_use(self.count, &self.free, n) {
            return Err(FetchFault::OutOfRange);
        }
        if let Some(page) = changed_page(&self.changed, n) {
            *to = *page;
            return Ok(());
        }
        self.store.read(n, to).map_err(|_| FetchFault::Device)
    }

    /// Page n's newest bytes where they lie in memory, without a copy. None where the page isn't in use
    /// or has to be read from the store.
    pub fn in_memory(&self, n: u32) -> Option<&[u8; PAGE_WIDTH]>
        ensures page { IfSome result (λ page. at self.now.pages n ≡ Some page.now) }
        ensures number { OnSome result (0 < n) }
        ensures some { is_some result ≡ is_in_memory self.now n }
    {
        if !is_in_use(self.count, &self.free, n) {
            return None;
        }
        changed_page(&self.changed, n)
    }

    /// Keeps page n, which was read and spells a node of that order, so that `recall` has it until pages are written back.
    /// Fault: Memory. No page changes.
    pub fn keep(&mut self, order: u16, n: u32, page: &[u8; PAGE_WIDTH]) -> Result<(), Memory>
        requires in_use { IsSome (at self.old.pages n) }
        requires spelt { IsSpelt order page.now }
        requires unchanged { is_in_memory self.old n ≡ false }
        requires page { IsTrue self.old.steady → at self.old.pages n ≡ Some page.now }
        ensures { self.new ≡ self.old }
    {
        self.kept.put(self.alloc, order, self.count, n, page)
    }

    /// Page n's newest bytes, where they are the store's and were kept: the store isn't called. None where the page isn't in
    /// use or was changed.
    pub fn recall(&self, order: u16, n: u32) -> Option<&[u8; PAGE_WIDTH]>
        ensures page { IsTrue self.now.steady
            → IfSome result (λ page. at self.now.pages n ≡ Some page.now) }
        ensures spelt { IfSome result (λ page. IsSpelt order page.now) }
        ensures in_use { OnSome result (IsSome (at self.now.pages n)) }
        ensures number { OnSome result (0 < n) }
    {
        if !is_in_use(self.count, &self.free, n) {
            return None;
        }
        match changed_page(&self.changed, n) {
            Some(_) => None,
            None => self.kept.get(order, n),
        }
    }

    /// Puts all of an edit in place, in memory: takes the first candidates, writes the pages and frees
    /// the numbers. The condition is that what is written is in use or taken, each taken number is
    /// written, what is freed is in use and not written, and a page count that grows is at most 1,000,001.
    /// Fault: Memory; nothing has changed then. An edit that writes and frees nothing takes none.
    pub fn stage(&mut self, edit: PageEdit) -> Result<(), Memory>
        requires { CanStage self.old.pages edit.writes.items edit.taken edit.freed.items }
        ensures pages { OnOk result ((n : ℕ) → at self.new.pages n
            ≡ after (at self.old.pages) edit.writes.items edit.freed.items n) }
        ensures count { OnOk result
            (length self.new.pages ≡ count_after self.old.pages edit.taken) }
        ensures changed { OnOk result (self.new.changed ≡ true) }
        ensures in_memory { OnOk result ((n : ℕ) → is_in_memory self.new n
            ≡ ((is_written edit.writes.items n || is_in_memory self.old n)
            && not (is_freed edit.freed.items n))) }
        ensures store { self.new ≡ record self.old {
          pages = self.new.pages;
          changed = self.new.changed;
          in_memory = self.new.in_memory;
        } }
        ensures err { OnErr result (self.new ≡ self.old) }
        ensures empty { edit.writes.items ≡ [] → edit.freed.items ≡ [] → IsOk result }
    {
        let count = self.count + edit.taken.saturating_sub(self.free_count());
        let new = boxed(self.alloc, &self.changed, &edit.writes)?;
        make_slots(&mut self.changed, slots_needed(&edit.writes, count))?;
        add_all(&mut self.free, &edit.freed)?;
        write_pages(&mut self.changed, &mut self.free, new, &edit.writes);
        drop_pages(&mut self.changed, &edit.freed);
        self.count = count;
        self.edited = true;
        Ok(())
    }

    /// Changes page n, which is in memory and spells a node of that order, where it lies: its bytes aren't copied, and no
    /// memory is asked for. The condition is that of `change_page`.
    pub fn change(&mut self, order: u16, n: u32, change: &PageChange)
        requires in_memory { is_in_memory self.old n ≡ true }
        requires page { MayChangeAt order n change.now self.old.pages }
        ensures pages { ChangesPage order n change.now self.old.pages self.new.pages }
        ensures count { length self.new.pages ≡ length self.old.pages }
        ensures in_memory { (q : ℕ) → is_in_memory self.new q ≡ is_in_memory self.old q }
        ensures changed { self.new.changed ≡ true }
        ensures store { self.new ≡ record self.old {
          pages = self.new.pages;
          changed = self.new.changed;
          in_memory = self.new.in_memory;
        } }
    {
        change_one(&mut self.changed, order, n, change);
    }

    /// The number of pages, page 0 included.
    pub fn page_count(&self) -> u32
        ensures value { result ≡ length self.now.pages }
        ensures some { 1 ≤ result }
        ensures most { result ≤ greatest_page_count }
        ensures header { at self.now.pages 0 ≡ None }
    {
        self.count
    }

    /// How many page numbers are free.
    pub fn free_count(&self) -> u32
        ensures { result ≡ length (free_numbers self.now.pages) }
    {
        self.free.len() as u32
    }

    /// The page number that an edit takes as its i-th, from 0, with i at most 1,000: the free numbers
    /// in ascending order, and then the page count and the numbers above it.
    pub fn candidate(&self, i: u32) -> u32
        requires { i ≤ 1000 }
        ensures value { result ≡ candidate self.now.pages i }
        ensures some { 0 < result }
    {
        nth_number(&self.free, self.count, i)
    }

    /// Whether an edit was staged since `new` or the last writing back. Where none was, no page is in
    /// memory, and each page in use that is not in memory is the store's.
    pub fn changed(&self) -> bool
        ensures value { result ≡ self.now.changed }
        ensures idle { self.now.changed ≡ false → (n : ℕ) → is_in_memory self.now n ≡ false }
        ensures in_use { (n : ℕ) → is_in_memory self.now n ≡ true → IsSome (at self.now.pages n) }
        ensures stored { (n : ℕ) → IsSome (at self.now.pages n) → is_in_memory self.now n ≡ false
            → slice_get self.now.stored n ≡ at self.now.pages n }
        ensures fits { length self.now.stored ≤ length self.now.pages }
    {
        self.edited
    }

    /// Writes the changed pages back, so that the store has each page in use: makes the store as long
    /// as the page count, writes `writing` as page 0, then each changed page in use in ascending
    /// order, then `clean` as page 0, and has the device keep it after each of the three: six calls and
    /// one for each changed page. It stops at the first call that fails, and takes no memory of its own. Faults: Device where the store
    /// failed, Memory where it was not made longer. No page here, number or answer of `changed` is
    /// different then, so that the call can be made again; in a steady store no page but page 0 has
    /// changed, or page 0 is `writing`, or each page in use is there.
    pub fn write_back(
        &mut self,
        writing: &[u8; PAGE_WIDTH],
        clean: &[u8; PAGE_WIDTH],
    ) -> Result<(), WriteFault>
        ensures written { OnOk result (IsWrittenBack clean.now self.old self.new) }
        ensures keeps { KeepsPages self.old self.new }
        ensures rest { self.new ≡ record (with_writes self.old self.new) {
          pages = self.new.pages;
          changed = self.new.changed;
          in_memory = self.new.in_memory;
        } }
        ensures err { OnErr result (self.new ≡ with_writes self.old self.new) }
        ensures others { KeepsOthers (at self.old.pages) (length self.old.pages)
            self.old.stored self.new.stored }
        ensures stopped { IsTrue self.old.steady → OnErr result
            (Stopped (at self.old.pages) writing.now self.old.stored self.new.stored) }
        ensures memory { result ≡ Err WriteFault.Memory → GrowsAlone self.old self.new }
        ensures calls { CarriesOut (calls_back self.old)
            (steps_back self.old writing.now clean.now) self.old result self.new }
    {
        self.kept = KeptPages::new(self.alloc);
        let written = write_out(
            &mut self.store,
            &self.changed,
            &self.free,
            self.count,
            writing,
            clean,
        );
        if let Err(fault) = written {
            return Err(WriteFault::from(fault));
        }
        self.changed.clear();
        self.edited = false;
        Ok(())
    }

    /// The store, with its pages as they are: what was staged since the last writing back is not in
    /// it.
    pub fn into_store(self) -> S
        ensures { IsStoreOf S.StoreState self result }
    {
        let Pages { store, .. } = self;
        store
    }
}
