ghost use Rattle.std.specs.Prelude.{◌≡◌, ◌≢◌, ◌+◌, ◌*◌, ◌^◌, ◌<◌, ◌≤◌, ◌⊎◌, ℕ, true, false, List, Some, None, length, IsTrue, IfErr, OnOk, MatchResult, IsSome, slice_index_or, slice_set};
ghost use Rattle.rec_types.specs.Table.{counted};
ghost use Rattle.page_store.specs.PageMap.{at};
ghost use Rattle.page_store.specs.PagesView.{is_in_memory};
ghost use Rattle.btree_node.specs.Lists.{Element};
ghost use Rattle.btree_node.specs.Spelling.{CanStandIn, spelling, spelling_in, IsNodePage, IsSpelt};
ghost use Rattle.btree_node.specs.declared.node.Node.{Node};
ghost use Rattle.btree_node.specs.Layout.{first_layout, first_version, layout_of, most_keys, IsSmallOrder};
ghost use Rattle.btree_insert.specs.Bounds.{AreWithin, Between};
ghost use Rattle.btree_insert.specs.Faults.{is_tree_device};
ghost use Rattle.btree_insert.specs.PageTrees.{SpellsIn, Spells};
ghost use Rattle.btree_insert.specs.Growth.{IsNotOfPages};
ghost use Rattle.btree_insert.specs.Spelt.{AreSpeltIn};
ghost use Rattle.btree_delete.specs.Survey.{SeenSoFar, unreached, AreKept, stored_page, seen_past, below_page, below_sons, Sound, Surveyed, allowed, StandsWithin, Surveys, node_in, Respells, WasRead, sons_from, elements_from};
ghost use Rattle.btree_insert.specs.Edits.{ReadsOnce};

use btree_insert::{Bounds, TreeFault, is_page_within};
use btree_node::{
    FIRST_VERSION, NodeKind, count_in, decode_old, encode, is_node_page, key_in, kind_in, son_in,
};
use page_store::{FetchFault, PageEdit, Pages, Store};
use rec_types::PAGE_WIDTH;
use std::alloc::Global;
use std::marker::Model;

/// What a walk has seen: which pages it reached, where the first leaf stood, how many keys there are.
#[derive(Drop)]
pub(crate) struct Survey {
    reached: Vec<bool>,
    leaf: Option<u32>,
    keys: u32,
}

impl Model for Survey {
    ghost use Rattle.btree_delete.specs.Survey.{SeenSoFar};

    ghost Value = { SeenSoFar };

    ghost view = { λ s. record { reached = s.reached.items; leaf = s.leaf; keys = s.keys } };
}

impl Survey {
    /// Nothing was met yet but the pages that are marked.
    pub(crate) fn new(reached: Vec<bool>) -> Survey
        ensures { result ≡ record { reached = reached.items; leaf = None; keys = 0 } }
    {
        Survey {
            reached,
            leaf: None,
            keys: 0,
        }
    }

    /// Whether page n is there and was not reached before. It is reached then.
    fn reach(&mut self, n: u32) -> bool
        ensures visited { result ≡ false → slice_index_or self.old.reached n true ≡ true }
        ensures unvisited { result ≡ true → slice_index_or self.old.reached n true ≡ false }
        ensures fewer { result ≡ true
            → unreached self.new.reached + 1 ≡ unreached self.old.reached }
        ensures reached { result ≡ true
            → self.new ≡ record self.old { reached = slice_set self.old.reached n true } }
        ensures long { length self.new.reached ≡ length self.old.reached }
    {
        let at = n as usize;
        if at >= self.reached.len() || self.reached[at] {
            return false;
        }
        self.reached[at] = true;
        true
    }

    /// Whether a leaf may stand at that level: the first one may, and the others stand where it does.
    /// Its keys are counted then.
    fn add_leaf(&mut self, level: u32, keys: u32) -> bool
        requires room { self.old.keys + keys < 2 ^ 32 }
        ensures fits { result ≡ true
            → (self.old.leaf ≡ None) ⊎ (self.old.leaf ≡ Some level) }
        ensures uneven { result ≡ false
            → ((self.old.leaf ≡ None) ⊎ (self.old.leaf ≡ Some level)) → ⊥ }
        ensures long { length self.new.reached ≡ length self.old.reached }
        ensures added { result ≡ true → self.new
            ≡ record {
              reached = self.old.reached;
              leaf = Some level;
              keys = self.old.keys + keys;
            } }
    {
        if let Some(first) = self.leaf
            && first != level
        {
            return false;
        }
        self.leaf = Some(level);
        self.keys += keys;
        true
    }

    /// Counts a key between two sons.
    fn add_key(&mut self)
        requires room { self.old.keys + 1 < 2 ^ 32 }
        ensures { self.new ≡ record self.old { keys = self.old.keys + 1 } }
    {
        self.keys += 1;
    }

    /// How many keys were met.
    pub(crate) fn keys(&self) -> u32
        ensures { result ≡ self.now.keys }
    {
        self.keys
    }

    /// How many levels more than those above the leaves a tree may have.
    pub(crate) fn leaf(&self) -> Option<u32>
        ensures { result ≡ self.now.leaf }
    {
        self.leaf
    }

    /// Of each page whether it was reached.
    pub(crate) fn into_reached(self) -> Vec<bool>
        ensures { result.items ≡ self.reached }
    {
        let Survey { reached, .. } = self;
        reached
    }
}

/// What the levels above say of a page and of those below it.
#[derive(Clone, Copy)]
pub(crate) struct Above {
    /// The page in which its number stands.
    pub from: u32,
    /// How many levels there may be below it.
    pub left: u32,
    /// The bounds of its keys.
    pub bounds: Bounds,
}

/// Reads page n, whose node has at least so many keys, all within the bounds, and makes its bytes those
/// that spell the node as it is written. Faults: Device, and Damaged(n) where the page is not in use or
/// spells no such node; the bytes may then be any. No page changes.
fn read_page<S: Store>(
    pages: &mut Pages<S>,
    version: u16,
    order: u16,
    least: u16,
    n: u32,
    bounds: &Bounds,
    page: &mut [u8; PAGE_WIDTH],
) -> Result<(), TreeFault>
    requires order { IsSmallOrder order }
    requires unread { is_in_memory pages.old n ≡ false }
    ensures exact { IsTrue pages.old.steady → (m : Node)
        → SpellsIn (layout_of version) order (at pages.old.pages) n m → least ≤ length m.elements.items
        → AreWithin bounds.now m.elements.items
        → MatchResult result (λ _. node_in order page.new ≡ m) (λ fault. fault ≡ TreeFault.Device) }
    ensures stands { OnOk result
        (StandsWithin (layout_of version) order least bounds.now (node_in order page.new)) }
    ensures written { OnOk result (page.new ≡ spelling (node_in order page.new) order) }
    ensures spells { IsTrue pages.old.steady → OnOk result
        (SpellsIn (layout_of version) order (at pages.old.pages) n (node_in order page.new)) }
    ensures in_use { OnOk result (IsSome (at pages.old.pages n)) }
    ensures reading { ReadsOnce pages.old result pages.new }
{
    match pages.fetch(n, page) {
        Ok(()) => {}
        Err(FetchFault::Device) => return Err(TreeFault::Device),
        Err(FetchFault::OutOfRange) => return Err(TreeFault::Damaged(n)),
    }
    if !respell(version, order, page) {
        return Err(TreeFault::Damaged(n));
    }
    if count_in(page) < least as usize || !is_page_within(page, order, bounds) {
        return Err(TreeFault::Damaged(n));
    }
    Ok(())
}

/// Whether the page of a file of that version spells a node. Its bytes are then those that spell the node
/// as it is written.
fn respell(version: u16, order: u16, page: &mut [u8; PAGE_WIDTH]) -> bool
    requires { IsSmallOrder order }
    ensures spelt { IsTrue result → Respells (layout_of version) order page.old page.new }
    ensures only { (m : Node) → CanStandIn (layout_of version) m order
        → page.old ≡ spelling_in (layout_of version) m order → IsTrue result }
{
    if version == FIRST_VERSION {
        respell_old(order, page)
    } else {
        is_node_page(page, order)
    }
}

/// The same in a file of the first version. It is never inlined, so that no room for a node is made where
/// there is none to make.
#[cold]
#[inline(never)]
fn respell_old(order: u16, page: &mut [u8; PAGE_WIDTH]) -> bool
    requires { IsSmallOrder order }
    ensures spelt { IsTrue result → Respells first_layout order page.old page.new }
    ensures only { (m : Node) → CanStandIn first_layout m order
        → page.old ≡ spelling_in first_layout m order → IsTrue result }
{
    match decode_old(page, order) {
        Ok(node) => {
            *page = encode(&node, order);
            true
        }
        Err(_) => false,
    }
}

/// Has page n kept, where it is an inner one: there are few of them, and each search goes through some. Fault: Memory. No page
/// changes.
fn keep_inner<S: Store>(
    pages: &mut Pages<S>,
    order: u16,
    n: u32,
    page: &[u8; PAGE_WIDTH],
) -> Result<(), TreeFault>
    requires spelt { IsSpelt order page.now }
    requires in_use { IsSome (at pages.old.pages n) }
    requires page { IsTrue pages.old.steady → at pages.old.pages n ≡ Some page.now }
    requires unread { is_in_memory pages.old n ≡ false }
    ensures same { pages.new ≡ pages.old }
    ensures memory { IfErr result (λ fault. fault ≡ TreeFault.Memory) }
{
    if kind_in(page) == NodeKind::Leaf {
        return Ok(());
    }
    pages.keep(order, n, page)?;
    Ok(())
}

/// Puts the bytes of page n in memory, where they were read in another spelling; else an inner page is kept. Fault: Memory; no
/// page changes then.
fn keep_page<S: Store>(
    alloc: Global,
    pages: &mut Pages<S>,
    version: u16,
    order: u16,
    n: u32,
    page: &[u8; PAGE_WIDTH],
) -> Result<(), TreeFault>
    requires { WasRead version order pages.old n page.now }
    ensures others { OnOk result ((q : ℕ) → q ≢ n
        → (at pages.new.pages q ≡ at pages.old.pages q)
        × (is_in_memory pages.new q ≡ is_in_memory pages.old q)) }
    ensures here { at pages.old.pages n
        ≡ Some (spelling_in (layout_of version) (node_in order page.now) order)
        → OnOk result (Spells order (at pages.new.pages) n (node_in order page.now)) }
    ensures count { OnOk result (length pages.new.pages ≡ length pages.old.pages) }
    ensures spelt { AreSpeltIn order pages.old → OnOk result (AreSpeltIn order pages.new) }
    ensures memory { IfErr result (λ fault. fault ≡ TreeFault.Memory) }
    ensures stays { pages.new ≡ record pages.old {
      pages = pages.new.pages;
      changed = pages.new.changed;
      in_memory = pages.new.in_memory;
    } }
    ensures idle { version ≢ first_version → pages.new ≡ pages.old }
{
    if version != FIRST_VERSION {
        return keep_inner(pages, order, n, page);
    }
    let mut edit = PageEdit {
        writes: Vec::new(alloc),
        taken: 0,
        freed: Vec::new(alloc),
    };
    match edit.writes.push((n, *page)) {
        Ok(()) => {}
        Err(_) => return Err(TreeFault::Memory),
    }
    pages.stage(edit)?;
    Ok(())
}

/// Goes through the tree below page n, a page of at least so many keys, and keeps each of its pages.
/// Faults: Device and Memory where they are met, and Damaged with the first page that is not as it should
/// be, or with the page above where page n was reached before or isn't there.
#[cycle(surveying)]
pub(crate) fn survey_page<S: Store>(
    alloc: Global,
    pages: &mut Pages<S>,
    survey: &mut Survey,
    version: u16,
    order: u16,
    least: u16,
    n: u32,
    above: &Above,
) -> Result<(), TreeFault>
    requires order { IsSmallOrder order }
    requires kept { AreKept (layout_of version) order pages.old survey.old.reached }
    requires room { survey.old.keys + most_keys * unreached survey.old.reached < 2 ^ 32 }
    ensures found { IsTrue pages.old.steady → OnOk result
        (Surveyed (below_page (layout_of version) order (stored_page pages.old) least n)
        (allowed above.now.left above.now.bounds) survey.old survey.new
        pages.old.reads pages.new.reads) }
    ensures exact { IsTrue pages.old.steady → (h level : ℕ) (es : List Element) (us : List ℕ)
        → Sound (below_page (layout_of version) order (stored_page pages.old) least n)
        (allowed above.now.left above.now.bounds) survey.old h level es us
        → MatchResult result (λ _. survey.new ≡ seen_past level es us survey.old)
        IsNotOfPages }
    ensures kept { OnOk result
        (AreKept (layout_of version) order pages.new survey.new.reached) }
    ensures room { OnOk result (survey.new.keys + most_keys * unreached survey.new.reached
        ≤ survey.old.keys + most_keys * unreached survey.old.reached) }
    ensures long { length survey.new.reached ≡ length survey.old.reached }
    ensures surveys { Surveys version (is_tree_device result) pages.old pages.new }
{
    if !survey.reach(n) {
        return Err(TreeFault::Damaged(above.from));
    }
    let mut page = [0; PAGE_WIDTH];
    read_page(pages, version, order, least, n, &above.bounds, &mut page)?;
    keep_page(alloc, pages, version, order, n, &page)?;
    match kind_in(&page) {
        NodeKind::Leaf => {
            if survey.add_leaf(above.left, count_in(&page) as u32) {
                Ok(())
            } else {
                Err(TreeFault::Damaged(n))
            }
        }
        NodeKind::Inner => {
            if above.left == 0 {
                return Err(TreeFault::Damaged(n));
            }
            let below = Above {
                from: n,
                left: above.left - 1,
                bounds: above.bounds,
            };
            survey_sons(alloc, pages, survey, version, order, &page, 0, &below)
        }
    }
}

/// Goes through the trees below the sons of a page from son i on, with the keys between them. Faults: as in
/// `survey_page`.
#[cycle(surveying)]
fn survey_sons<S: Store>(
    alloc: Global,
    pages: &mut Pages<S>,
    survey: &mut Survey,
    version: u16,
    order: u16,
    page: &[u8; PAGE_WIDTH],
    i: usize,
    above: &Above,
) -> Result<(), TreeFault>
    requires kept { AreKept (layout_of version) order pages.old survey.old.reached }
    requires page { IsNodePage order page.now }
    requires sons { length (sons_from order page.now i)
        ≡ length (elements_from order page.now i) + 1 }
    requires room { survey.old.keys + length (elements_from order page.now i)
        + most_keys * unreached survey.old.reached < 2 ^ 32 }
    ensures found { IsTrue pages.old.steady → Between above.now.bounds (elements_from order page.now i)
        → OnOk result (Surveyed (below_sons (layout_of version) order (stored_page pages.old)
        (sons_from order page.now i) (elements_from order page.now i))
        (allowed above.now.left above.now.bounds) survey.old survey.new
        pages.old.reads pages.new.reads) }
    ensures exact { IsTrue pages.old.steady → (h level : ℕ) (es : List Element) (us : List ℕ)
        → Sound (below_sons (layout_of version) order (stored_page pages.old)
        (sons_from order page.now i) (elements_from order page.now i))
        (allowed above.now.left above.now.bounds) survey.old h level es us
        → MatchResult result (λ _. survey.new ≡ seen_past level es us survey.old)
        IsNotOfPages }
    ensures kept { OnOk result
        (AreKept (layout_of version) order pages.new survey.new.reached) }
    ensures room { OnOk result (survey.new.keys + most_keys * unreached survey.new.reached
        ≤ survey.old.keys + length (elements_from order page.now i)
        + most_keys * unreached survey.old.reached) }
    ensures long { length survey.new.reached ≡ length survey.old.reached }
    ensures surveys { Surveys version (is_tree_device result) pages.old pages.new }
{
    let son = son_in(page, order, i);
    if i == count_in(page) {
        return survey_page(alloc, pages, survey, version, order, order, son, above);
    }
    let middle = key_in(page, order, i);
    let before = Above {
        from: above.from,
        left: above.left,
        bounds: Bounds {
            low: above.bounds.low,
            high: Some(middle),
        },
    };
    survey_page(alloc, pages, survey, version, order, order, son, &before)?;
    survey.add_key();
    let behind = Above {
        from: above.from,
        left: above.left,
        bounds: Bounds {
            low: Some(middle),
            high: above.bounds.high,
        },
    };
    survey_sons(alloc, pages, survey, version, order, page, i + 1, &behind)
}
