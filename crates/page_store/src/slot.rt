ghost use Rattle.std.specs.Prelude.{◌≡◌, ◌≢◌, ℕ, ◌<◌, ◌≤◌, ◌↔◌, ◌&&◌, ◌==◌, if◌then◌else◌, [], false, not, length, IsTrue, IsSome, IsOk, IfOk, OnOk, All, Some, slice_set};
ghost use Rattle.std.specs.Option.{option_copied};
ghost use Rattle.std.specs.BTreeSet.{contains};
ghost use Rattle.std.specs.Ordering.{nat_cmp};
ghost use Rattle.page_store.specs.PageMap.{at, is_freed, is_written};
ghost use Rattle.page_store.specs.Overlaid.{slots_of};
ghost use Rattle.page_store.specs.ChangedPage.{MayChangeAt, ChangesSlot};
ghost use Rattle.page_store.specs.Slots.{bytes_in, put_slots, AreTheNew};

use btree_node::{PageChange, change_page};
use rec_types::{Memory, PAGE_WIDTH};
use std::alloc::Global;
use std::collections::BTreeSet;

/// A page in memory, where it was changed.
pub(crate) type Slot = Option<Box<[u8; PAGE_WIDTH]>>;

/// Whether page n is in use: not page 0, below the count and not free.
pub(crate) fn is_in_use(count: u32, free: &BTreeSet<u32>, n: u32) -> bool
    ensures { IsTrue result ↔ ((n ≢ 0) × (n < count) × (contains nat_cmp free.now n ≡ false)) }
{
    n != 0 && n < count && !free.contains(&n)
}

/// The changed page of that number.
pub(crate) fn changed_page(changed: &[Slot], n: u32) -> Option<&[u8; PAGE_WIDTH]>
    ensures { option_copied result ≡ at (slots_of changed.now) n }
{
    let at = n as usize;
    if at >= changed.len() {
        return None;
    }
    changed[at].as_deref()
}

/// Memory of its own for each page to write that isn't in memory. Fault: Memory.
pub(crate) fn boxed(
    alloc: Global,
    changed: &[Slot],
    writes: &[(u32, [u8; PAGE_WIDTH])],
) -> Result<Vec<(u32, Box<[u8; PAGE_WIDTH]>)>, Memory>
    ensures pages { IfOk result
        (λ pages. AreTheNew (slots_of changed.now) writes.now (bytes_in pages.items)) }
    ensures empty { writes.now ≡ [] → IsOk result }
{
    let mut pages = Vec::new(alloc);
    for (n, page) in writes {
        if changed_page(changed, *n).is_some() {
            continue;
        }
        pages.push((*n, Box::new(alloc, *page)?))?;
    }
    Ok(pages)
}

/// How many slots the pages to write need: none where there are none.
pub(crate) fn slots_needed(writes: &[(u32, [u8; PAGE_WIDTH])], count: u32) -> u32
    ensures { result ≡ (if length writes.now == 0 then 0 else count) }
{
    if writes.is_empty() { 0 } else { count }
}

/// Makes slots for the pages below the count. Fault: Memory. No page changes.
pub(crate) fn make_slots(changed: &mut Vec<Slot>, count: u32) -> Result<(), Memory>
    ensures same { (n : ℕ) → at (slots_of changed.new.items) n ≡ at (slots_of changed.old.items) n }
    ensures long { OnOk result (count ≤ length changed.new.items) }
    ensures none { count ≡ 0 → IsOk result }
{
    let len = changed.len();
    let more = (count as usize).saturating_sub(len);
    changed.reserve(more)?;
    for _ in 0..more {
        changed.push(None)?;
    }
    Ok(())
}

/// Writes each page into its slot, and takes its number out of the free ones. The new pages are those
/// that had no memory; any other is written over.
pub(crate) fn write_pages(
    changed: &mut Vec<Slot>,
    free: &mut BTreeSet<u32>,
    new: Vec<(u32, Box<[u8; PAGE_WIDTH]>)>,
    writes: &[(u32, [u8; PAGE_WIDTH])],
)
    requires fits { All (λ w. w.0 < length changed.old.items) writes.now }
    requires new { AreTheNew (slots_of changed.old.items) writes.now (bytes_in new.items) }
    ensures slots { (n : ℕ) → at (slots_of changed.new.items) n
        ≡ at (put_slots (slots_of changed.old.items) writes.now) n }
    ensures free { (q : ℕ) → contains nat_cmp free.new q
        ≡ (contains nat_cmp free.old q && not (is_written writes.now q)) }
{
    put_pages(changed, new);
    write_over(changed, free, writes);
}

/// Puts each page into its slot.
fn put_pages(changed: &mut Vec<Slot>, pages: Vec<(u32, Box<[u8; PAGE_WIDTH]>)>)
    requires { All (λ w. w.0 < length changed.old.items) (bytes_in pages.items) }
    ensures { slots_of changed.new.items
        ≡ put_slots (slots_of changed.old.items) (bytes_in pages.items) }
{
    for (n, page) in pages {
        changed[n as usize] = Some(page);
    }
}

/// Writes over the pages, which are in memory, and takes their numbers out of the free ones.
fn write_over(changed: &mut Vec<Slot>, free: &mut BTreeSet<u32>, writes: &[(u32, [u8; PAGE_WIDTH])])
    requires { All (λ w. IsSome (at (slots_of changed.old.items) w.0)) writes.now }
    ensures slots { slots_of changed.new.items
        ≡ put_slots (slots_of changed.old.items) writes.now }
    ensures free { (q : ℕ) → contains nat_cmp free.new q
        ≡ (contains nat_cmp free.old q && not (is_written writes.now q)) }
{
    for (n, page) in writes {
        free.remove(n);
        write_one_over(changed, *n, page);
    }
}

/// Writes over the page of that number, which is in memory.
fn write_one_over(changed: &mut Vec<Slot>, n: u32, page: &[u8; PAGE_WIDTH])
    requires { IsSome (at (slots_of changed.old.items) n) }
    ensures { slots_of changed.new.items
        ≡ slice_set (slots_of changed.old.items) n (Some page.now) }
{
    match &mut changed[n as usize] {
        Some(slot) => **slot = *page,
        None => {}
    }
}

/// Changes the page of that number, which is in memory, where it lies.
pub(crate) fn change_one(changed: &mut Vec<Slot>, order: u16, n: u32, change: &PageChange)
    requires there { IsSome (at (slots_of changed.old.items) n) }
    requires page { MayChangeAt order n change.now (slots_of changed.old.items) }
    ensures { ChangesSlot order n change.now (slots_of changed.old.items)
        (slots_of changed.new.items) }
{
    match &mut changed[n as usize] {
        Some(slot) => change_page(&mut **slot, order, change),
        None => {}
    }
}

/// Drops the changed page of that number.
pub(crate) fn drop_page(changed: &mut Vec<Slot>, n: u32)
    ensures { (q : ℕ) → q ≢ n
        → at (slots_of changed.new.items) q ≡ at (slots_of changed.old.items) q }
{
    let at = n as usize;
    if at >= changed.len() {
        return;
    }
    changed[at] = None;
}

/// Drops the changed pages of these numbers.
pub(crate) fn drop_pages(changed: &mut Vec<Slot>, numbers: &[u32])
    ensures { (q : ℕ) → is_freed numbers.now q ≡ false
        → at (slots_of changed.new.items) q ≡ at (slots_of changed.old.items) q }
{
    for n in numbers {
        drop_page(changed, *n);
    }
}
