ghost use Rattle.std.specs.Prelude.{◌≡◌, ◌+◌, ◌*◌, ◌<◌, ◌≤◌, ◌∷◌, ◌++◌, [], ℕ, List, ◌==◌, false, length, IsTrue, IsSome, IfOk, OnOk, MatchResult};
ghost use Rattle.std.specs.List.{insert, list_any};
ghost use Rattle.page_store.specs.FreeNumbers.{candidate};
ghost use Rattle.page_store.specs.PageMap.{at};
ghost use Rattle.btree_node.specs.Lists.{Element, Each};
ghost use Rattle.btree_node.specs.Spelling.{spelling, CanStand, IsElement, IsSpelt};
ghost use Rattle.btree_node.specs.Written.{with_elements};
ghost use Rattle.btree_insert.specs.Bounds.{AreWithin, Between};
ghost use Rattle.btree_insert.specs.declared.bounds.Bounds.{Bounds};
ghost use Rattle.btree_insert.specs.Growth.{IsNotOfPages, MayBeOverfull, WritesFit, TakesNumbers, SplitGoesUp, WritesOrSplits, Grew, replaced, CanInsert, GrowsWithin, MayGain, MayGainSon, with_son};
ghost use Rattle.btree_insert.specs.PageTrees.{Spells, TreeAt, Apart, tree_below};
ghost use Rattle.btree_insert.specs.Reached.{Leads};
ghost use Rattle.btree_node.specs.Layout.{IsOrder, IsSmallOrder};
ghost use Rattle.btree_insert.specs.Steps.{IsKnown};
ghost use Rattle.btree_insert.specs.PagesGrown.{edited};
ghost use Rattle.btree_insert.specs.Edits.{CanSettle, IsInUse, Reads, OnlyWrites, WritesAndTakes, HasEditRoom};

use crate::insert_in_one::{write_inserted, write_replaced, write_with_son};
use crate::split_leaf::write_halves;
use crate::step::{Spot, Step, take_step};
use crate::tree::{PATH_ROOM, TreeFault};
use arrayvec::ArrayVec;
use btree_node::{Node, count_in, decode_into, encode, split};
use page_store::{PageEdit, Pages, Store};
use rec_types::{Key, Memory, PAGE_WIDTH, Record};

/// What an insertion below a page came to.
#[derive(Drop)]
pub(crate) enum Grown {
    /// The key was there, with this record.
    Replaced(Record),
    /// The key is new, and the page had room for what came up.
    Fits,
    /// The page was split: this element goes to the father, with the number of the right page.
    Split((Key, Record), u32),
}

/// Adds a node to the edit as page n. The conditions are an order of at most 16 and a node that fits a
/// page. Fault: Memory.
pub fn write_node(edit: &mut PageEdit, order: u16, n: u32, node: &Node) -> Result<(), Memory>
    requires order { IsSmallOrder order }
    requires stands { CanStand node.now order }
    ensures writes { OnOk result (edit.new.writes.items
        ≡ edit.old.writes.items ++ (n, spelling node.now order) ∷ []) }
    ensures edit { OnlyWrites order edit.old result edit.new }
{
    edit.writes
        .push((n, encode(node, order)))
        .map_err(|_| Memory)
}

/// Writes a node that may have one key too many, as page n, or as page n and a new page.
fn settle<S: Store>(
    pages: &Pages<S>,
    edit: &mut PageEdit,
    order: u16,
    n: u32,
    node: Node,
) -> Result<Grown, Memory>
    requires order { IsOrder order }
    requires may_be_overfull { MayBeOverfull order node }
    requires taken { edit.old.taken ≤ 100 }
    requires in_use { IsSome (at pages.now.pages n) }
    requires fits { WritesFit pages.now.pages edit.old.writes.items edit.old.taken }
    ensures settles { IfOk result
        (WritesOrSplits order (candidate pages.now.pages edit.old.taken) edit.old edit.new n node) }
    ensures edit { WritesAndTakes order pages.now.pages edit.old result edit.new }
    ensures takes { IfOk result (TakesNumbers 1 edit.old.taken edit.new.taken) }
    ensures goes_up { (bounds : Bounds) → AreWithin bounds node.elements.items
        → IfOk result (SplitGoesUp bounds) }
{
    if node.elements.len() <= 2 * order as usize {
        write_node(edit, order, n, &node)?;
        return Ok(Grown::Fits);
    }
    let (left, middle, right) = split(node, order);
    let number = pages.candidate(edit.taken);
    write_node(edit, order, n, &left)?;
    write_node(edit, order, number, &right)?;
    edit.taken += 1;
    Ok(Grown::Split(middle, number))
}

/// Whether page n was visited before.
pub fn was_visited(visited: &[u32], n: u32) -> bool
    ensures { result ≡ list_any (λ m. m == n) visited.now }
{
    visited.contains(&n)
}

/// The bytes of page n after a step from there: where it lies in memory if it was searched there, else
/// those that were read.
fn bytes_at<'a, S: Store>(
    pages: &'a Pages<S>,
    n: u32,
    in_place: bool,
    read: &'a [u8; PAGE_WIDTH],
) -> &'a [u8; PAGE_WIDTH]
    ensures { (k : ℕ) (m : Node) → IsKnown k pages.now n in_place read.now m
        → result.now ≡ spelling m k }
{
    if in_place {
        if let Some(page) = pages.in_memory(n) {
            return page;
        }
    }
    read
}

/// Puts an element at its place in page n, a leaf, and splits the page where it is full: in both cases its bytes
/// are changed, and it becomes no node.
fn put_in_leaf<S: Store>(
    pages: &Pages<S>,
    edit: &mut PageEdit,
    order: u16,
    n: u32,
    page: &[u8; PAGE_WIDTH],
    i: usize,
    element: (Key, Record),
) -> Result<Grown, Memory>
    requires order { IsOrder order }
    requires page { IsSpelt order page.now }
    requires element { IsElement element }
    requires leaf { (m : Node) → CanStand m order → page.now ≡ spelling m order
        → MayGain m i element }
    requires room { CanSettle pages.now.pages edit.old n }
    ensures settles { (m : Node) → CanStand m order → page.now ≡ spelling m order
        → IfOk result (WritesOrSplits order (candidate pages.now.pages edit.old.taken) edit.old
        edit.new n (with_elements m (insert m.elements.items i element))) }
    ensures edit { WritesAndTakes order pages.now.pages edit.old result edit.new }
    ensures takes { IfOk result (TakesNumbers 1 edit.old.taken edit.new.taken) }
    ensures goes_up { (m : Node) → CanStand m order → page.now ≡ spelling m order
        → (bounds : Bounds) → AreWithin bounds (insert m.elements.items i element)
        → IfOk result (SplitGoesUp bounds) }
{
    if count_in(page) < 2 * order as usize {
        write_inserted(edit, order, n, page, i, element)?;
        return Ok(Grown::Fits);
    }
    let number = pages.candidate(edit.taken);
    let middle = write_halves(edit, order, n, number, page, i, element)?;
    edit.taken += 1;
    Ok(Grown::Split(middle, number))
}

/// Puts into page n what a split of its son i left, and splits the page where it is full: only then it
/// becomes a node.
fn put_in_father<S: Store>(
    pages: &Pages<S>,
    edit: &mut PageEdit,
    order: u16,
    n: u32,
    page: &[u8; PAGE_WIDTH],
    i: usize,
    middle: (Key, Record),
    right: u32,
) -> Result<Grown, Memory>
    requires order { IsOrder order }
    requires page { IsSpelt order page.now }
    requires element { IsElement middle }
    requires father { (m : Node) → CanStand m order → page.now ≡ spelling m order
        → MayGainSon m i middle right }
    requires room { CanSettle pages.now.pages edit.old n }
    ensures settles { (m : Node) → CanStand m order → page.now ≡ spelling m order
        → IfOk result (WritesOrSplits order (candidate pages.now.pages edit.old.taken) edit.old
        edit.new n (with_son m i middle right)) }
    ensures edit { WritesAndTakes order pages.now.pages edit.old result edit.new }
    ensures takes { IfOk result (TakesNumbers 1 edit.old.taken edit.new.taken) }
    ensures goes_up { (m : Node) → CanStand m order → page.now ≡ spelling m order
        → (bounds : Bounds) → AreWithin bounds (insert m.elements.items i middle)
        → IfOk result (SplitGoesUp bounds) }
{
    if count_in(page) < 2 * order as usize {
        write_with_son(edit, order, n, page, i, middle, right)?;
        return Ok(Grown::Fits);
    }
    let mut node = Node::blank();
    let _ = decode_into(page, order, &mut node);
    node.elements.insert(i, middle);
    node.sons.insert(i + 1, right);
    settle(pages, edit, order, n, node)
}

/// Puts the record at the key in the tree below the page at a spot, and collects the pages to write.
/// `visited` gains the pages that were visited. Where `in_place`, a page in memory is searched where it
/// lies. Only an inner page that is split becomes a node. Faults: Device, Memory, and Damaged
/// as in `take_step` and where a page is visited twice.
pub(crate) fn insert_below<S: Store>(
    pages: &mut Pages<S>,
    edit: &mut PageEdit,
    visited: &mut ArrayVec<u32, PATH_ROOM>,
    order: u16,
    spot: &Spot,
    element: (Key, Record),
    in_place: bool,
) -> Result<Grown, TreeFault>
    requires can { CanInsert order spot.now in_place pages.old element }
    requires room { HasEditRoom pages.old.pages edit.old visited.old.items spot.now.level }
    ensures grew { IsTrue pages.old.steady → edit.old.writes.items ≡ []
        → (least : ℕ) (es : List Element) (us : List ℕ)
        → TreeAt order (at pages.old.pages) least spot.now.level spot.now.page es us
        → Between spot.now.bounds es → Apart us
        → Each (λ u. list_any (λ m. m == u) visited.old.items ≡ false) us
        → MatchResult result
        (Grew (tree_below order least spot.now.level spot.now.page)
        (edited pages.old.pages edit.old.taken edit.new) es us element.0 element.1)
        IsNotOfPages }
    ensures led { IsTrue pages.old.steady → IfOk result (λ grown. Leads
        (Spells order (at pages.old.pages)) element.0 spot.now.level spot.now.page spot.now.bounds
        (replaced grown)) }
    ensures edit { WritesAndTakes order pages.old.pages edit.old result edit.new }
    ensures grows { IfOk result (GrowsWithin spot.now edit.old.taken edit.new.taken) }
    ensures visited { OnOk result (0 < length visited.new.items) }
    ensures in_use { OnOk result (IsInUse pages.old.pages spot.now.page) }
    ensures reading { Reads spot.now.level pages.old result pages.new }
{
    let n = spot.page;
    if was_visited(visited.as_slice(), n) {
        return Err(TreeFault::Damaged(n));
    }
    visited.push(n);
    let mut read = [0; PAGE_WIDTH];
    match take_step(pages, order, spot, &element.0, in_place, &mut read)? {
        Step::Found(i, old) => {
            let page = bytes_at(pages, n, in_place, &read);
            write_replaced(edit, order, n, page, i, element)?;
            Ok(Grown::Replaced(old))
        }
        Step::Ends(i) => {
            let page = bytes_at(pages, n, in_place, &read);
            Ok(put_in_leaf(pages, edit, order, n, page, i, element)?)
        }
        Step::Goes(i, page, bounds) => {
            let below = Spot {
                page,
                level: spot.level - 1,
                bounds,
            };
            match insert_below(pages, edit, visited, order, &below, element, in_place)? {
                Grown::Split(middle, right) => {
                    let father = bytes_at(pages, n, in_place, &read);
                    Ok(put_in_father(pages, edit, order, n, father, i, middle, right)?)
                }
                done => Ok(done),
            }
        }
    }
}
