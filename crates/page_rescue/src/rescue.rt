ghost use Rattle.std.specs.Prelude.{◌≡◌, ◌<◌, ◌≤◌, length, IsTrue, IfOk, OnOk};
ghost use Rattle.page_store.specs.StoreCalls.{StaysStore};
ghost use Rattle.page_looks.specs.Spelt.{IsKind};
ghost use Rattle.page_rescue.specs.Rescue.{GrowsBy, HasPage, HasPageAt, HasPagesBelow, IsInPage, IsInPages, Saves, SavesBelow};

use crate::taking::take_all;
use btree_node::{Header, Node};
use page_looks::{Kind, is_whole, kind_of};
use page_store::Store;
use rec_types::{
    Key, Limits, MOST_BEGINS, MOST_LOG_RECORDS, MOST_RECORDS, PAGE_WIDTH, Record, SortedTable,
    Table, TableFault,
};
use std::alloc::Global;
use thiserror::Error;

/// Why nothing is saved of pages.
#[derive(Clone, Copy, Debug, PartialEq, Eq, Error)]
pub enum RescueFault {
    #[error("Device")]
    Device,
    #[error("BadLength")]
    BadLength,
    #[error("TooManyRecords")]
    TooManyRecords,
    #[error("Memory")]
    Memory,
}

// A table in memory never answers Device or Damaged.
impl From<TableFault> for RescueFault {
    fn from(fault: TableFault) -> RescueFault {
        match fault {
            TableFault::NoRoom => RescueFault::TooManyRecords,
            _ => RescueFault::Memory,
        }
    }
}

/// What is saved: the records in key order, and whether each page could be read.
#[derive(Debug, Drop)]
pub struct Rescued {
    pub records: Vec<(Key, Record)>,
    pub complete: bool,
}

// Takes the records of a page, where it is whole.
fn take_page(
    table: &mut SortedTable,
    page: &[u8; PAGE_WIDTH],
    kind: Kind,
) -> Result<(), RescueFault>
    requires { IsKind kind }
    ensures grows { OnOk result
        (GrowsBy (IsInPage page.now) table.old.contents table.new.contents) }
    ensures has { OnOk result (HasPage table.new.contents page.now) }
{
    let mut node = Node::blank();
    match is_whole(page, kind, &mut node) {
        true => take_all(table, node.elements.as_slice()),
        false => Ok(()),
    }
}

// Reads a page and takes its records, where it is whole; whether it was read.
fn take_at<S: Store>(
    store: &mut S,
    n: u32,
    table: &mut SortedTable,
    kind: Kind,
) -> Result<bool, RescueFault>
    requires within { n < length (S.pages store.old) }
    requires kind { IsKind kind }
    ensures stays { StaysStore S.StoreState store.old store.new }
    ensures grows { IsTrue (S.steady store.old) → OnOk result
        (GrowsBy (IsInPages (S.pages store.old)) table.old.contents table.new.contents) }
    ensures has { IsTrue (S.steady store.old) → IfOk result (λ was_read. IsTrue was_read
        → HasPageAt n table.new.contents (S.pages store.old)) }
{
    let mut page = [0; PAGE_WIDTH];
    match store.read(n, &mut page) {
        Ok(()) => {
            take_page(table, &page, kind)?;
            Ok(true)
        }
        Err(_) => Ok(false),
    }
}

// Takes the records of a page that was reached, where it is whole.
fn take_if_reached<S: Store>(
    store: &mut S,
    n: u32,
    table: &mut SortedTable,
    kind: Kind,
    reached: &[bool],
) -> Result<(), RescueFault>
    requires within { n < length (S.pages store.old) }
    requires kind { IsKind kind }
    ensures stays { StaysStore S.StoreState store.old store.new }
    ensures grows { IsTrue (S.steady store.old) → OnOk result
        (GrowsBy (IsInPages (S.pages store.old)) table.old.contents table.new.contents) }
{
    match reached.get(n as usize) {
        Some(true) => {
            take_at(store, n, table, kind)?;
            Ok(())
        }
        _ => Ok(()),
    }
}

// Takes the records of the whole pages among the first ones that were reached.
fn take_reached<S: Store>(
    store: &mut S,
    count: u32,
    table: &mut SortedTable,
    kind: Kind,
    reached: &[bool],
) -> Result<(), RescueFault>
    requires within { count ≤ length (S.pages store.old) }
    requires kind { IsKind kind }
    ensures stays { StaysStore S.StoreState store.old store.new }
    ensures grows { IsTrue (S.steady store.old) → OnOk result
        (GrowsBy (IsInPages (S.pages store.old)) table.old.contents table.new.contents) }
{
    for n in 0..count {
        take_if_reached(store, n, table, kind, reached)?;
    }
    Ok(())
}

// Takes the records of the whole pages among the first ones, and answers whether each could be read.
fn take_whole<S: Store>(
    store: &mut S,
    count: u32,
    table: &mut SortedTable,
    kind: Kind,
) -> Result<bool, RescueFault>
    requires within { count ≤ length (S.pages store.old) }
    requires kind { IsKind kind }
    ensures stays { StaysStore S.StoreState store.old store.new }
    ensures grows { IsTrue (S.steady store.old) → OnOk result
        (GrowsBy (IsInPages (S.pages store.old)) table.old.contents table.new.contents) }
    ensures has { IsTrue (S.steady store.old) → IfOk result (λ complete. IsTrue complete
        → HasPagesBelow count table.new.contents (S.pages store.old)) }
{
    let mut complete = true;
    for n in 0..count {
        let was_read = take_at(store, n, table, kind)?;
        complete = complete & was_read;
    }
    Ok(complete)
}

// How many pages the store has. Faults: Device; BadLength, where they are more than have numbers.
fn count_of<S: Store>(store: &mut S) -> Result<u32, RescueFault>
    ensures stays { StaysStore S.StoreState store.old store.new }
    ensures value { IfOk result (λ count. count ≡ length (S.pages store.old)) }
{
    match store.shape() {
        Ok(shape) => u32::try_from(shape.pages).map_err(|_| RescueFault::BadLength),
        Err(_) => Err(RescueFault::Device),
    }
}

// The records of the whole pages among the first ones, those of the pages that were reached before the others.
fn take_both<S: Store>(
    alloc: Global,
    store: &mut S,
    count: u32,
    kind: Kind,
    reached: &[bool],
) -> Result<Rescued, RescueFault>
    requires within { count ≤ length (S.pages store.old) }
    requires kind { IsKind kind }
    ensures stays { StaysStore S.StoreState store.old store.new }
    ensures saved { IsTrue (S.steady store.old)
        → IfOk result (SavesBelow count (S.pages store.old)) }
{
    let mut table = SortedTable::new(alloc, greatest_limits());
    take_reached(store, count, &mut table, kind, reached)?;
    let complete = take_whole(store, count, &mut table, kind)?;
    let records = table.entries()?;
    Ok(Rescued { records, complete })
}

/// The records of the pages of a store that are whole, whatever the others are: a page is whole if it spells a node in a
/// file of any version and order. Of two records at one key the one in a page that was reached is taken, else that in the
/// page of the lower number. `header` is what page 0 says, where it says anything. The store is only read. Faults: Device,
/// where the length isn't told; BadLength, where it has more pages than numbers; TooManyRecords, where there are more than
/// a file may have; Memory.
pub fn rescue_pages<S: Store>(
    alloc: Global,
    store: &mut S,
    header: Option<Header>,
    reached: &[bool],
) -> Result<Rescued, RescueFault>
    ensures stays { StaysStore S.StoreState store.old store.new }
    ensures saved { IsTrue (S.steady store.old) → IfOk result (Saves (S.pages store.old)) }
{
    let count = count_of(store)?;
    take_both(alloc, store, count, kind_of(header), reached)
}

// The greatest limits that a file may have.
fn greatest_limits() -> Limits {
    let Ok(limits) = Limits::new(MOST_RECORDS, MOST_LOG_RECORDS, MOST_BEGINS) else {
        unreachable!();
    };
    limits
}
