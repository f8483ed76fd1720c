ghost use Rattle.std.specs.Prelude.{◌≡◌, ◌≢◌, ℕ, ◌-◌, ◌<◌, ◌≤◌, ◌+◌, ◌==◌, [], ◌∷◌, ◌++◌, length, None, Err, is_some, IsTrue, OnOk, OnErr, slice_get};
ghost use Rattle.std.specs.Option.{option_copied};
ghost use Rattle.page_store.specs.Blank.{blanks};
ghost use Rattle.page_store.specs.Calls.{how_many};
ghost use Rattle.page_store.specs.Journal.{writes_below, writing_back};
ghost use Rattle.page_store.specs.declared.step.Step.{Step};
ghost use Rattle.page_store.specs.StoreFaults.{AsksNoMemory};
ghost use Rattle.page_store.specs.Overlaid.{slots_of};
ghost use Rattle.page_store.specs.WritingBack.{to_write, AreStored, SameBut, KeepsOthers, Stopped};
ghost use Rattle.page_store.specs.Carrying.{Carries, IsLong, OnlyGrows};

use crate::slot::{Slot, changed_page, is_in_use};
use crate::store::Store;
use crate::store_fault::StoreFault;
use rec_types::PAGE_WIDTH;
use std::collections::BTreeSet;

/// The changed page of that number, where the page is in use.
pub(crate) fn page_to_write<'a>(
    changed: &'a [Slot],
    free: &BTreeSet<u32>,
    count: u32,
    n: u32,
) -> Option<&'a [u8; PAGE_WIDTH]>
    ensures { option_copied result ≡ to_write (slots_of changed.now) free.now.keys count n }
{
    match changed_page(changed, n) {
        Some(page) if is_in_use(count, free, n) => Some(page),
        _ => None,
    }
}

/// Writes page 0, which is there, and has the device keep it. Fault: Failed; page 0 then has any bytes.
fn put_header<S: Store>(store: &mut S, page: &[u8; PAGE_WIDTH]) -> Result<(), StoreFault>
    requires { 0 < length (S.pages store.old) }
    ensures page { IsTrue (S.steady store.old)
        → OnOk result (slice_get (S.pages store.new) 0 ≡ Some page.now) }
    ensures others { SameBut (λ n. n == 0) (S.pages store.old) (S.pages store.new) }
    ensures no_memory { AsksNoMemory result }
    ensures tail { S.tail store.new ≡ S.tail store.old }
    ensures carries { Carries S.StoreState 2 (Step.Write 0 page.now ∷ Step.Sync ∷ []) store.old result
        store.new }
{
    store.write(0, page)?;
    store.sync()
}

/// Writes each changed page in use, in ascending order. Fault: Failed; some of them are written then,
/// and one of them has any bytes.
fn put_changed<S: Store>(
    store: &mut S,
    changed: &[Slot],
    free: &BTreeSet<u32>,
    count: u32,
) -> Result<(), StoreFault>
    requires some { 1 ≤ count }
    requires long { length (S.pages store.old) ≡ count }
    ensures pages { IsTrue (S.steady store.old) → OnOk result
        (AreStored (to_write (slots_of changed.now) free.now.keys count) (S.pages store.new)) }
    ensures others { SameBut
        (λ n. is_some (to_write (slots_of changed.now) free.now.keys count n))
        (S.pages store.old) (S.pages store.new) }
    ensures no_memory { AsksNoMemory result }
    ensures tail { S.tail store.new ≡ S.tail store.old }
    ensures carries { Carries S.StoreState (how_many
        (λ n. is_some (to_write (slots_of changed.now) free.now.keys count n)) count)
        (writes_below (to_write (slots_of changed.now) free.now.keys count) count)
        store.old result store.new }
{
    for n in 1..count {
        if let Some(page) = page_to_write(changed, free, count, n) {
            store.write(n, page)?;
        }
    }
    Ok(())
}

/// Writes the changed pages in use between two writes of page 0, and stops at the first call that
/// fails. Faults: Failed, and Memory where the store was not made longer.
pub(crate) fn write_out<S: Store>(
    store: &mut S,
    changed: &[Slot],
    free: &BTreeSet<u32>,
    count: u32,
    writing: &[u8; PAGE_WIDTH],
    clean: &[u8; PAGE_WIDTH],
) -> Result<(), StoreFault>
    requires some { 1 ≤ count }
    requires fits { length (S.pages store.old) ≤ count }
    ensures long { OnOk result (IsLong S.StoreState count store.new) }
    ensures header { IsTrue (S.steady store.old)
        → OnOk result (slice_get (S.pages store.new) 0 ≡ Some clean.now) }
    ensures pages { IsTrue (S.steady store.old) → OnOk result
        (AreStored (to_write (slots_of changed.now) free.now.keys count) (S.pages store.new)) }
    ensures unwritten { OnOk result ((n : ℕ) → n ≢ 0
        → to_write (slots_of changed.now) free.now.keys count n ≡ None
        → slice_get (S.pages store.new) n
        ≡ slice_get (S.pages store.old ++ blanks (count - length (S.pages store.old))) n) }
    ensures others { KeepsOthers (to_write (slots_of changed.now) free.now.keys count) count
        (S.pages store.old) (S.pages store.new) }
    ensures stopped { IsTrue (S.steady store.old) → OnErr result
        (Stopped (to_write (slots_of changed.now) free.now.keys count) writing.now
        (S.pages store.old) (S.pages store.new)) }
    ensures memory { result ≡ Err StoreFault.Memory
        → OnlyGrows S.StoreState count store.old store.new }
    ensures carries { Carries S.StoreState (6 + how_many
        (λ n. is_some (to_write (slots_of changed.now) free.now.keys count n)) count)
        (writing_back (to_write (slots_of changed.now) free.now.keys count) count
        writing.now clean.now) store.old result store.new }
{
    store.set_pages(count)?;
    put_header(store, writing)?;
    put_changed(store, changed, free, count)?;
    store.sync()?;
    put_header(store, clean)
}
