ghost use Rattle.std.specs.Prelude.{◌≡◌, ◌⊎◌, ℕ, ◌<◌, [], List, Some, IfSome};
ghost use Rattle.page_store.specs.PageMap.{at};
ghost use Rattle.btree_node.specs.Spelling.{IsSpelt};

use crate::slot::{Slot, changed_page, make_slots};
use rec_types::{Memory, PAGE_WIDTH};
use std::alloc::Global;
use std::marker::Model;

/// Pages in memory as they were read, each of which spells a node of one order.
#[derive(Drop)]
pub(crate) struct KeptPages {
    order: u16,
    slots: Vec<Slot>,
}

impl Model for KeptPages {
    ghost use Rattle.page_store.specs.KeptPages.{KeptPages, SlotsAreSpelt};
    ghost use Rattle.page_store.specs.Overlaid.{slots_of};

    ghost Value = { KeptPages };

    ghost view = { λ k. record { order = k.order; slots = slots_of k.slots.items } };

    ghost invariant = { λ k. SlotsAreSpelt k.order (slots_of k.slots.items) };
}

impl KeptPages {
    /// No pages.
    pub(crate) fn new(alloc: Global) -> KeptPages
        ensures { result.slots ≡ [] }
    {
        KeptPages {
            order: 0,
            slots: Vec::new(alloc),
        }
    }

    // Drops the pages that spell nodes of another order.
    fn drop_others(&mut self, alloc: Global, order: u16)
        ensures order { self.new.order ≡ order }
        ensures fewer { (q : ℕ) (kept : List ℕ) → at self.new.slots q ≡ Some kept
            → at self.old.slots q ≡ Some kept }
    {
        if self.order != order {
            self.slots = Vec::new(alloc);
            self.order = order;
        }
    }

    /// Keeps a page of so many, which spells a node of that order. Pages of another order are dropped. Fault: Memory.
    pub(crate) fn put(
        &mut self,
        alloc: Global,
        order: u16,
        count: u32,
        n: u32,
        page: &[u8; PAGE_WIDTH],
    ) -> Result<(), Memory>
        requires number { n < count }
        requires spelt { IsSpelt order page.now }
        ensures { (q : ℕ) (kept : List ℕ) → at self.new.slots q ≡ Some kept
            → (at self.old.slots q ≡ Some kept) ⊎ ((q ≡ n) × (kept ≡ page.now)) }
    {
        self.drop_others(alloc, order);
        let kept = Box::new(alloc, *page)?;
        make_slots(&mut self.slots, count)?;
        self.slots[n as usize] = Some(kept);
        Ok(())
    }

    /// The page of that number, where it is kept and spells a node of that order.
    pub(crate) fn get(&self, order: u16, n: u32) -> Option<&[u8; PAGE_WIDTH]>
        ensures there { IfSome result (λ page. at self.now.slots n ≡ Some page.now) }
        ensures spelt { IfSome result (λ page. IsSpelt order page.now) }
    {
        if self.order != order {
            return None;
        }
        changed_page(&self.slots, n)
    }
}
