ghost use Rattle.std.specs.Prelude.{◌≡◌, ◌+◌, ◌<◌, ◌≤◌, ℕ, List, length, sum, slice_set, if◌then◌else◌, IsTrue, IfOk, OnOk};
ghost use Rattle.btree_node.specs.HeaderSpelling.{header_spelling, clean_state, writing_state};
ghost use Rattle.btree_node.specs.Layout.{IsOrder, second_version};
ghost use Rattle.btree_node.specs.Lists.{Ascends};
ghost use Rattle.btree_insert.specs.Sizes.{greatest_size};
ghost use Rattle.btree_load.specs.Filling.{FillsStore, KeepsLength, written_pages};
ghost use Rattle.btree_load.specs.Trees.{AreLevels, HasLevels, HasRoot, IsFilled};

use crate::rows::write_row;
use btree_node::{Header, NodeKind, SECOND_VERSION, write_header};
use page_store::{Store, WriteFault};
use rec_types::{Key, Record};
use std::alloc::Global;

/// How many pages a file of so many records has, page 0 included.
fn page_total(k: u16, records: usize) -> u32
    requires order { IsOrder k }
    requires few { records ≤ greatest_size }
    ensures levels { (levels : List ℕ) × AreLevels k records levels × (result ≡ 1 + sum levels) }
    ensures most { result ≤ 1 + records }
{
    let width = 2 * k as usize + 1;
    let mut pages = 1;
    let mut left = records;
    while left > 0 {
        left /= width;
        pages += left as u32 + 1;
    }
    pages
}

/// Writes the pages of a tree behind those that were written, level by level from the lowest, and answers its root, 0 where there
/// are no records. Faults: Device, Memory.
fn write_tree<S: Store>(
    alloc: Global,
    store: &mut S,
    count: &mut u32,
    k: u16,
    records: &[(Key, Record)],
) -> Result<u32, WriteFault>
    requires order { IsOrder k }
    requires ascends { Ascends records.now }
    requires room { HasLevels S.StoreState k count.old (length records.now) store.old }
    ensures tree { IsTrue (S.steady store.old) → IfOk result
        (λ root. HasRoot k (written_pages S.StoreState count.new store.new) root records.now) }
    ensures all { OnOk result (count.new ≡ length (S.pages store.new)) }
    ensures long { KeepsLength S.StoreState store.old store.new }
    ensures fills { FillsStore S.StoreState store.old result store.new }
{
    if records.is_empty() {
        return Ok(0);
    }
    let mut row = write_row(alloc, store, count, k, NodeKind::Leaf, records, &[])?;
    while !row.between.is_empty() {
        row = write_row(
            alloc,
            store,
            count,
            k,
            NodeKind::Inner,
            &row.between,
            &row.sons,
        )?;
    }
    Ok(row.sons[0])
}

/// Writes page 0, which is there, with a header. Fault: Device; page 0 then has any bytes.
fn put_header<S: Store>(store: &mut S, header: &Header, clean: bool) -> Result<(), WriteFault>
    requires order { IsOrder header.now.order }
    requires version { header.now.version ≡ second_version }
    requires there { 0 < length (S.pages store.old) }
    ensures page { IsTrue (S.steady store.old) → OnOk result (S.pages store.new ≡ slice_set
        (S.pages store.old) 0 (header_spelling header.now (if clean then clean_state else writing_state))) }
    ensures long { KeepsLength S.StoreState store.old store.new }
    ensures fills { FillsStore S.StoreState store.old result store.new }
{
    store.write(0, &write_header(header, clean))?;
    store.sync()?;
    Ok(())
}

/// Makes a closed file of the second version of a store that has page 0 at most: a tree of an order from 1 to 16 with
/// these records, in as few pages as have room for them. The condition is that the keys ascend and that there are at most
/// 1,000,000 records. It makes the store as long as the file, writes page 0, which opening refuses until the end, then each
/// page of the tree once, from the lowest level on, then page 0 again, and has the device keep it after each of the
/// last three. Beside the records it takes the memory of those that stand above the lowest level. Faults: Device where the
/// store failed, Memory; the store may then have any pages.
pub fn fill<S: Store>(
    alloc: Global,
    store: &mut S,
    k: u16,
    records: &[(Key, Record)],
) -> Result<(), WriteFault>
    requires order { IsOrder k }
    requires ascends { Ascends records.now }
    requires few { length records.now ≤ greatest_size }
    requires short { length (S.pages store.old) ≤ 1 }
    ensures filled { IsTrue (S.steady store.old)
        → OnOk result (IsFilled k (S.pages store.new) (S.tail store.new) records.now) }
    ensures levels { OnOk result ((levels : List ℕ) × AreLevels k (length records.now) levels
        × (length (S.pages store.new) ≡ 1 + sum levels)) }
    ensures fills { FillsStore S.StoreState store.old result store.new }
{
    let mut header = Header {
        version: SECOND_VERSION,
        order: k,
        pages: page_total(k, records.len()),
        root: 0,
        count: records.len() as u32,
    };
    store.set_pages(header.pages)?;
    put_header(store, &header, false)?;
    header.root = write_tree(alloc, store, &mut 1, k, records)?;
    store.sync()?;
    put_header(store, &header, true)
}
