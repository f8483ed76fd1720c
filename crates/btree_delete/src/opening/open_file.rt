ghost use Rattle.std.specs.Prelude.{◌≡◌, ◌≢◌, ◌⊎◌, ℕ, ◌<◌, ◌≤◌, ◌==◌, List, length, true, None, IsTrue, Ok, Err, IfOk, IfErr, OnOk, OnErr, IsOk, MatchResult};
ghost use Rattle.std.specs.BTreeSet.{contains};
ghost use Rattle.std.specs.Ordering.{nat_cmp};
ghost use Rattle.rec_types.specs.Table.{counted};
ghost use Rattle.page_store.specs.PageMap.{at, is_freed};
ghost use Rattle.page_store.specs.StoreUnder.{IsStoreOf, LiesOver, OnlyAsks};
ghost use Rattle.btree_node.specs.Lists.{Element};
ghost use Rattle.btree_node.specs.declared.header.Header.{Header as HeaderValue};
ghost use Rattle.btree_node.specs.Layout.{first_version, layout_of, IsOrder};
ghost use Rattle.btree_insert.specs.Sizes.{greatest_height, greatest_size};
ghost use Rattle.btree_insert.specs.Spelt.{AreSpeltIn};
ghost use Rattle.btree_insert.specs.declared.tree.Tree.{Tree as TreeValue};
ghost use Rattle.btree_delete.specs.CleanFile.{HasLength, Begins, HasTree, IsCleanFile, IsFirst, FailsTree, Opens, IsOutside, is_open_device, is_open_device_fault, tree_fault};
ghost use Rattle.btree_delete.specs.Survey.{stored_page, AreFresh, Measured, LeavesFile, Surveys};
ghost use Rattle.btree_delete.specs.Opening.{CanFree, Frees};

use crate::opening::measure::measure_tree;
use crate::opening::open_fault::{OpenFault, check_header, check_length};
use btree_insert::{Tree, TreeFault};
use btree_node::{FIRST_VERSION, Header};
use page_store::{PageEdit, Pages, Store};
use rec_types::{Limits, Memory};
use std::alloc::Global;
use std::collections::BTreeSet;

/// A file that was not opened: the store with its pages as they were, and why.
#[derive(Drop)]
pub struct OpenStop<S: Store> {
    /// The store.
    pub store: S,
    /// Why the file was not opened.
    pub fault: OpenFault,
}

/// The fault of a file whose tree has a fault.
fn tree_fault(fault: TreeFault) -> OpenFault
    ensures { result ≡ tree_fault fault }
{
    match fault {
        TreeFault::Device => OpenFault::Device,
        TreeFault::Damaged(page) => OpenFault::Damaged(page),
        TreeFault::Memory => OpenFault::Memory,
    }
}

/// The tree of a file with that header, of at most `limit` records, and the free page numbers. The pages
/// of the first version are in memory as they are written then. Faults: Device, Memory; then in this order
/// Damaged, WrongCount, TooManyRecords.
fn measure_file<S: Store>(
    alloc: Global,
    pages: &mut Pages<S>,
    header: &Header,
    limit: u32,
) -> Result<(Tree, BTreeSet<u32>), OpenFault>
    requires order { IsOrder header.now.order }
    requires fresh { AreFresh pages.old }
    ensures found { IsTrue pages.old.steady → IfOk result
        (λ r. Measured (layout_of header.now.version) header.now.order pages.old.pages
        header.now.root r.0 (contains nat_cmp r.1) pages.old.reads pages.new.reads) }
    ensures count { IfOk result (λ r. (r.0.count ≡ header.now.count) × (header.now.count ≤ limit)) }
    ensures exact { IsTrue pages.old.steady → (tree : TreeValue) (es : List Element) (us : List ℕ)
        → HasTree (at pages.old.pages) header.now tree es us
        → tree.count ≡ header.now.count → header.now.count ≤ limit
        → MatchResult result (λ r. r.0 ≡ tree) IsOutside }
    ensures fault { IsTrue pages.old.steady → IfErr result
        (FailsTree (at pages.old.pages) header.now limit) }
    ensures left { IfOk result (λ r. LeavesFile (layout_of header.now.version) header.now.order pages.old pages.new
        (contains nat_cmp r.1)) }
    ensures small { IfOk result (λ r. (r.0.order ≡ header.now.order)
        × (r.0.height ≤ greatest_height) × (r.0.used ≤ greatest_size)) }
    ensures surveys { Surveys header.now.version (is_open_device result) pages.old pages.new }
{
    let (tree, free) = measure_tree(
        alloc,
        pages,
        header.version,
        header.order,
        header.root,
    ).map_err(tree_fault)?;
    if tree.count != header.count {
        return Err(OpenFault::WrongCount);
    }
    if tree.count > limit {
        return Err(OpenFault::TooManyRecords);
    }
    Ok((tree, free))
}

/// The header of a file. Faults: Device, and those of the length and of the header in their order.
fn check_file<S: Store>(store: &mut S) -> Result<Header, OpenFault>
    ensures found { IsTrue (S.steady store.old)
        → IfOk result (λ h. Begins (S.pages store.old) (S.tail store.old) h) }
    ensures long { IfOk result (λ h. (h.pages ≡ length (S.pages store.old))
        × HasLength (S.pages store.old) (S.tail store.old)) }
    ensures order { IfOk result (λ h. IsOrder h.order) }
    ensures only { IsTrue (S.steady store.old) → (h : HeaderValue)
        → Begins (S.pages store.old) (S.tail store.old) h
        → (result ≡ Ok h) ⊎ (result ≡ Err OpenFault.Device) }
    ensures fault { IsTrue (S.steady store.old) → (limit : ℕ) → IfErr result
        (IsFirst (S.pages store.old) (S.tail store.old) limit) }
    ensures no_memory { IfErr result (λ fault. fault ≢ OpenFault.Memory) }
    ensures asks { OnlyAsks S.StoreState true (is_open_device result) store.old store.new }
    ensures reads { IsOk result → S.reads store.new ≡ counted (S.reads store.old) true }
{
    let pages = check_length(store)?;
    check_header(store, pages)
}

/// The numbers below `count` that are free, as a list. Fault: Memory.
fn listed(alloc: Global, free: &BTreeSet<u32>, count: u32) -> Result<Vec<u32>, Memory>
    requires { (n : ℕ) → IsTrue (contains nat_cmp free.now n) → (1 ≤ n) × (n < count) }
    ensures some { IfOk result (λ list. (n : ℕ) → is_freed list.items n ≡ true
        → contains nat_cmp free.now n ≡ true) }
    ensures all { IfOk result (λ list. (n : ℕ) → contains nat_cmp free.now n ≡ true
        → is_freed list.items n ≡ true) }
{
    let mut list = Vec::new(alloc);
    for n in 1..count {
        if free.contains(&n) {
            list.push(n)?;
        }
    }
    Ok(list)
}

/// Frees those numbers, by an edit that writes no page: the pages count as changed then, also where none
/// is free. Fault: Memory; the pages are as they were then.
fn free_old<S: Store>(
    alloc: Global,
    pages: &mut Pages<S>,
    free: &BTreeSet<u32>,
) -> Result<(), Memory>
    requires { CanFree pages.old (contains nat_cmp free.now) }
    ensures freed { OnOk result (Frees pages.old pages.new (contains nat_cmp free.now)) }
    ensures changed { OnOk result (pages.new.changed ≡ true) }
    ensures err { OnErr result (pages.new ≡ pages.old) }
    ensures header { at pages.old.pages 0 ≡ None }
{
    let count = pages.page_count();
    let edit = PageEdit {
        writes: Vec::new(alloc),
        taken: 0,
        freed: listed(alloc, free, count)?,
    };
    pages.stage(edit)
}

/// The pages of a file that was measured, without those that are free. Those of a file of the first
/// version count as changed, and no others. Fault: Memory; the store comes back as it was.
fn without_free<S: Store>(
    alloc: Global,
    pages: Pages<S>,
    version: u16,
    free: BTreeSet<u32>,
) -> Result<Pages<S>, OpenStop<S>>
    requires can { CanFree pages (contains nat_cmp free) }
    requires same { version ≢ first_version → (n : ℕ) → at pages.pages n ≡ stored_page pages n }
    ensures freed { IfOk result (λ new. Frees pages new (contains nat_cmp free)) }
    ensures changed { IfOk result (λ new. new.changed ≡ (version == first_version)) }
    ensures header { at pages.pages 0 ≡ None }
    ensures memory { IfErr result (λ stop. stop.fault ≡ OpenFault.Memory) }
    ensures stays { IfErr result (λ stop. IsStoreOf S.StoreState pages stop.store) }
{
    let mut pages = pages;
    if version != FIRST_VERSION {
        return Ok(pages.with_free(free));
    }
    match free_old(alloc, &mut pages, &free) {
        Ok(()) => Ok(pages),
        Err(Memory) => {
            let fault = OpenFault::Memory;
            let store = pages.into_store();
            Err(OpenStop { store, fault })
        }
    }
}

/// Opens a file that was closed: its pages, and its tree of at most as many records as the limits say. No
/// page of a file of the second version is changed; those of the first are all in memory as they are
/// written. It reads page 0 and each page of the tree once. The store comes back with a fault, its pages
/// as they were: Device and Memory where they are met, and else the first check that fails, in the order
/// of the faults.
pub(crate) fn open_file<S: Store>(
    alloc: Global,
    store: S,
    limits: Limits,
) -> Result<(Pages<S>, Tree), OpenStop<S>>
    ensures found { IsTrue (S.steady store) → IfOk result
        (λ r. Opens (S.pages store) (S.tail store) limits.records (S.reads store) r.0 r.1) }
    ensures exact { IsTrue (S.steady store)
        → (h : HeaderValue) (tree : TreeValue) (es : List Element)
        → (us : List ℕ) → IsCleanFile (S.pages store) (S.tail store) h tree es us
        → h.count ≤ limits.records
        → MatchResult result (λ r. r.1 ≡ tree) (λ stop. IsOutside stop.fault) }
    ensures fault { IsTrue (S.steady store) → IfErr result
        (λ stop. IsFirst (S.pages store) (S.tail store) limits.records stop.fault) }
    ensures small { IfOk result (λ r. IsOrder r.1.order × (r.1.height ≤ greatest_height)
        × (r.1.used ≤ greatest_size) × (r.1.count ≤ limits.records)) }
    ensures spelt { IfOk result (λ r. AreSpeltIn r.1.order r.0) }
    ensures over { IfOk result (λ r. LiesOver S.StoreState store r.0) }
    ensures no_tail { IfOk result (λ r. r.0.tail ≡ 0) }
    ensures back { IfErr result (λ stop. OnlyAsks S.StoreState true (is_open_device_fault stop.fault)
        store stop.store) }
{
    let mut store = store;
    let header = match check_file(&mut store) {
        Ok(header) => header,
        Err(fault) => return Err(OpenStop { store, fault }),
    };
    let mut pages = Pages::new(alloc, store, header.pages, BTreeSet::new(alloc));
    match measure_file(alloc, &mut pages, &header, limits.records()) {
        Ok((tree, free)) => Ok((without_free(alloc, pages, header.version, free)?, tree)),
        Err(fault) => {
            let store = pages.into_store();
            Err(OpenStop { store, fault })
        }
    }
}
