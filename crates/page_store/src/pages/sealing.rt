ghost use Rattle.std.specs.Prelude.{◌≡◌, ℕ, ◌==◌, ◌||◌, ◌≤◌, true, is_some, length, IfOk, OnOk};
ghost use Rattle.std.specs.List.{list_any};
ghost use Rattle.rec_types.specs.Table.{counted};
ghost use Rattle.page_store.specs.Guards.{Ascend, SealsGuard};
ghost use Rattle.page_store.specs.Overlaid.{slots_of};
ghost use Rattle.page_store.specs.PagesView.{is_in_memory};
ghost use Rattle.page_store.specs.WriteFaults.{write_by_device};
ghost use Rattle.page_store.specs.WritingBack.{to_write};

use super::Pages;
use crate::page_edit::WriteFault;
use crate::seal_store::SealStore;
use crate::slot::Slot;
use crate::write_back::page_to_write;
use rec_types::Memory;
use std::alloc::Global;
use std::collections::BTreeSet;

// The numbers of the pages that a writing back writes, in ascending order: page 0 and each changed page in use. Fault:
// Memory.
fn numbers_written(
    alloc: Global,
    changed: &[Slot],
    free: &BTreeSet<u32>,
    count: u32,
) -> Result<Vec<u32>, Memory>
    requires { 1 ≤ count }
    ensures which { IfOk result (λ numbers. (n : ℕ) → list_any (λ m. n == m) numbers.items
        ≡ (n == 0 || is_some (to_write (slots_of changed.now) free.now.keys count n))) }
    ensures ascend { IfOk result (λ numbers. Ascend 0 numbers.items) }
{
    let mut numbers = Vec::new(alloc);
    numbers.push(0)?;
    for n in 1..count {
        if page_to_write(changed, free, count, n).is_some() {
            numbers.push(n)?;
        }
    }
    Ok(numbers)
}

impl<S: SealStore> Pages<S> {
    /// Has the store keep aside the pages that a writing back would write over, which it allows only then: page 0 and
    /// each changed page in use, and no other. They are told in ascending order, each once. No page changes, here or in
    /// the store. Faults: Device, where the store failed, as where it has a tail, Memory; the store may then not be
    /// written over any more.
    pub fn seal(&mut self) -> Result<(), WriteFault>
        ensures same { self.new ≡ record self.old {
          reads = self.new.reads;
          failures = self.new.failures;
          guard = self.new.guard;
        } }
        ensures asked { OnOk result (self.new.reads ≡ counted self.old.reads true) }
        ensures device { self.new.failures ≡ counted self.old.failures (write_by_device result) }
        ensures guard { self.old.tail ≡ 0
            → SealsGuard (λ n. n == 0 || is_in_memory self.old n) (length self.old.stored)
            self.old.guard result self.new.guard }
    {
        let Ok(numbers) = numbers_written(self.alloc, &self.changed, &self.free, self.count) else {
            return Err(WriteFault::Memory);
        };
        match self.store.seal(&numbers) {
            Ok(()) => Ok(()),
            Err(fault) => Err(WriteFault::from(fault)),
        }
    }
}
