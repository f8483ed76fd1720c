ghost use Rattle.std.specs.Prelude.{◌≡◌, ◌≤◌, ◌<◌, ◌⊎◌, ℕ, IsTrue, IsOk, IfOk, OnOk, IfErr, MatchResult, true};
ghost use Rattle.page_store.specs.PageMap.{at};
ghost use Rattle.btree_node.specs.Layout.{IsOrder};
ghost use Rattle.btree_node.specs.Lists.{Element};
ghost use Rattle.btree_node.specs.Reading.{count_at};
ghost use Rattle.btree_node.specs.Spelling.{spelling, CanStand, IsNodePage};
ghost use Rattle.btree_node.specs.declared.node.Node.{Node};
ghost use Rattle.rec_types.specs.Ordered.{is_left, IsGap, at_gap, behind_gap, before_gap};
ghost use Rattle.btree_insert.specs.Nearest.{KeepsBeside, Passes, OfNode, FindsLeaf, FindsNearest};
ghost use Rattle.btree_insert.specs.PageTrees.{Spells};
ghost use Rattle.btree_insert.specs.Edits.{Reads, Looks};
ghost use Rattle.btree_insert.specs.Sizes.{greatest_height};
ghost use Rattle.btree_insert.specs.Spelt.{AreSpeltIn};
ghost use Rattle.btree_insert.specs.Steps.{BelongsAt, CanSearch, HasSonAt};

use crate::reading::{kind_of_level, lies_at, read_bytes};
use crate::step::{Spot, bounds_in, is_page_within, root_spot};
use crate::tree::{Tree, TreeFault};
use btree_node::{count_in, key_in, kind_in, place_in, record_in, son_in};
use page_store::{Pages, Store};
use rec_types::{Gap, Key, PAGE_WIDTH, Record, Side};

/// The element nearest to a gap on a side of it. It reads one page per level at most, and searches each where it lies. The
/// conditions and the faults are those of `look_up`. No page changes.
pub fn nearest<S: Store>(
    pages: &mut Pages<S>,
    tree: &Tree,
    side: Side,
    from: &Gap,
) -> Result<Option<(Key, Record)>, TreeFault>
    requires order { IsOrder tree.now.order }
    requires height { tree.now.height ≤ greatest_height }
    requires spelt { AreSpeltIn tree.now.order pages.old }
    ensures { FindsNearest tree.now side from.now pages.old result pages.new }
{
    let mut found = None;
    if tree.height == 0 {
        return Ok(found);
    }
    let leaf = leaf_below(pages, tree.order, &root_spot(tree), side, from, &mut found)?;
    keep_at(pages, tree.order, &leaf, side, from, &mut found)?;
    Ok(found)
}

/// The leaf that the gap lies in, of the tree below the page at a spot. The last element beside the gap on the way down to it
/// takes the place of what was passed above it, where there is one. Pages in memory, changed or kept, are searched where they
/// lie, down to the first one that isn't there.
pub(crate) fn leaf_below<S: Store>(
    pages: &mut Pages<S>,
    order: u16,
    spot: &Spot,
    side: Side,
    from: &Gap,
    found: &mut Option<(Key, Record)>,
) -> Result<Spot, TreeFault>
    requires search { CanSearch order spot.now true pages.old }
    ensures { FindsLeaf order spot.now side from.now found.old pages.old result found.new pages.new }
{
    if spot.level == 1 {
        return Ok(*spot);
    }
    let Some(lies) = lies_at(pages, order, spot.page) else {
        return read_leaf(pages, order, spot, side, from, found);
    };
    let below = pass_in_page(lies, order, spot, side, from, found)?;
    leaf_below(pages, order, &below, side, from, found)
}

/// The same, with bytes into which pages are read.
fn read_leaf<S: Store>(
    pages: &mut Pages<S>,
    order: u16,
    spot: &Spot,
    side: Side,
    from: &Gap,
    found: &mut Option<(Key, Record)>,
) -> Result<Spot, TreeFault>
    requires search { CanSearch order spot.now true pages.old }
    ensures { FindsLeaf order spot.now side from.now found.old pages.old result found.new pages.new }
{
    let mut bytes = [0; PAGE_WIDTH];
    leaf_by_bytes(pages, order, spot, side, from, found, &mut bytes)
}

/// The same, where each page on the way that isn't in memory is read into the bytes.
fn leaf_by_bytes<S: Store>(
    pages: &mut Pages<S>,
    order: u16,
    spot: &Spot,
    side: Side,
    from: &Gap,
    found: &mut Option<(Key, Record)>,
    bytes: &mut [u8; PAGE_WIDTH],
) -> Result<Spot, TreeFault>
    requires search { CanSearch order spot.now true pages.old }
    ensures { FindsLeaf order spot.now side from.now found.old pages.old result found.new pages.new }
{
    if spot.level == 1 {
        return Ok(*spot);
    }
    let below = take_pass(pages, order, spot, side, from, found, bytes)?;
    leaf_by_bytes(pages, order, &below, side, from, found, bytes)
}

/// Passes the page of an inner node at a spot, in memory where it lies, else by the bytes.
fn take_pass<S: Store>(
    pages: &mut Pages<S>,
    order: u16,
    spot: &Spot,
    side: Side,
    from: &Gap,
    found: &mut Option<(Key, Record)>,
    bytes: &mut [u8; PAGE_WIDTH],
) -> Result<Spot, TreeFault>
    requires search { CanSearch order spot.now true pages.old }
    requires inner { 1 < spot.now.level }
    ensures exact { IsTrue pages.old.steady → (m : Node)
        → Spells order (at pages.old.pages) spot.now.page m → BelongsAt spot.now m
        → MatchResult result (Passes side from.now spot.now m found.old found.new)
        (λ fault. fault ≡ TreeFault.Device) }
    ensures passed { IfOk result (λ below. OfNode order pages.old spot.now
        (λ m. Passes side from.now spot.now m found.old found.new below)) }
    ensures fault { IfErr result
        (λ fault. (fault ≡ TreeFault.Device) ⊎ (fault ≡ TreeFault.Damaged spot.now.page)) }
    ensures reading { Reads 1 pages.old result pages.new }
{
    if let Some(page) = pages.in_memory(spot.page) {
        return pass_in_page(page, order, spot, side, from, found);
    }
    read_bytes(pages, order, spot.page, bytes)?;
    pass_in_page(bytes, order, spot, side, from, found)
}

/// Goes past a page that spells an inner node: to the son that the gap lies below, with the element beside the gap kept as
/// found where there is one. Fault: Damaged with the page where the node does not belong at the spot.
fn pass_in_page(
    page: &[u8; PAGE_WIDTH],
    order: u16,
    spot: &Spot,
    side: Side,
    from: &Gap,
    found: &mut Option<(Key, Record)>,
) -> Result<Spot, TreeFault>
    requires page { IsNodePage order page.now }
    requires inner { 1 < spot.now.level }
    ensures passes { (m : Node) → CanStand m order → page.now ≡ spelling m order
        → IfOk result (λ below. BelongsAt spot.now m
        × Passes side from.now spot.now m found.old found.new below) }
    ensures exact { (m : Node) → CanStand m order → page.now ≡ spelling m order
        → BelongsAt spot.now m → IsOk result }
    ensures fault { IfErr result (λ fault. fault ≡ TreeFault.Damaged spot.now.page) }
{
    check_in_page(page, order, spot)?;
    let gap = gap_in(page, order, from);
    keep_beside(page, order, side, gap, found);
    Ok(Spot {
        page: son_in(page, order, gap),
        level: spot.level - 1,
        bounds: bounds_in(page, order, &spot.bounds, gap),
    })
}

/// Whether the node that a page spells belongs at a spot. Fault: Damaged with the page where it doesn't.
pub(crate) fn check_in_page(
    page: &[u8; PAGE_WIDTH],
    order: u16,
    spot: &Spot,
) -> Result<(), TreeFault>
    requires page { IsNodePage order page.now }
    requires level { 0 < spot.now.level }
    ensures belongs { (m : Node) → CanStand m order → page.now ≡ spelling m order
        → OnOk result (BelongsAt spot.now m) }
    ensures exact { (m : Node) → CanStand m order → page.now ≡ spelling m order
        → BelongsAt spot.now m → IsOk result }
    ensures fault { IfErr result (λ fault. fault ≡ TreeFault.Damaged spot.now.page) }
{
    if kind_in(page) != kind_of_level(spot.level) || !is_page_within(page, order, &spot.bounds) {
        return Err(TreeFault::Damaged(spot.page));
    }
    Ok(())
}

/// Keeps the element beside the gap in the page at a spot as found, where there is one. Faults: Device; Damaged with the page
/// where it isn't in use, or spells no node that belongs at the spot.
fn keep_at<S: Store>(
    pages: &mut Pages<S>,
    order: u16,
    spot: &Spot,
    side: Side,
    from: &Gap,
    found: &mut Option<(Key, Record)>,
) -> Result<(), TreeFault>
    requires search { CanSearch order spot.now true pages.old }
    ensures exact { IsTrue pages.old.steady → (m : Node)
        → Spells order (at pages.old.pages) spot.now.page m → BelongsAt spot.now m
        → MatchResult result (λ _. KeepsBeside side from.now m found.old found.new)
        (λ fault. fault ≡ TreeFault.Device) }
    ensures kept { OnOk result (OfNode order pages.old spot.now
        (λ m. KeepsBeside side from.now m found.old found.new)) }
    ensures reading { Looks 1 pages.old result pages.new }
{
    if let Some(page) = lies_at(pages, order, spot.page) {
        return keep_in_page(page, order, spot, side, from, found);
    }
    let mut bytes = [0; PAGE_WIDTH];
    read_bytes(pages, order, spot.page, &mut bytes)?;
    keep_in_page(&bytes, order, spot, side, from, found)
}

/// The same in a page that spells a node. Fault: Damaged with the page where the node does not belong at the spot.
fn keep_in_page(
    page: &[u8; PAGE_WIDTH],
    order: u16,
    spot: &Spot,
    side: Side,
    from: &Gap,
    found: &mut Option<(Key, Record)>,
) -> Result<(), TreeFault>
    requires page { IsNodePage order page.now }
    requires level { 0 < spot.now.level }
    ensures keeps { (m : Node) → CanStand m order → page.now ≡ spelling m order
        → OnOk result (BelongsAt spot.now m × KeepsBeside side from.now m found.old found.new) }
    ensures exact { (m : Node) → CanStand m order → page.now ≡ spelling m order
        → BelongsAt spot.now m → IsOk result }
    ensures fault { IfErr result (λ fault. fault ≡ TreeFault.Damaged spot.now.page) }
{
    check_in_page(page, order, spot)?;
    let gap = gap_in(page, order, from);
    keep_beside(page, order, side, gap, found);
    Ok(())
}

/// How many keys of the node that the page spells lie left of the gap.
pub(crate) fn gap_in(page: &[u8; PAGE_WIDTH], order: u16, from: &Gap) -> usize
    requires { IsNodePage order page.now }
    ensures within { result ≤ count_at page.now }
    ensures gap { (m : Node) → CanStand m order → page.now ≡ spelling m order
        → IsGap (is_left from.now) m.elements.items result }
{
    match from {
        Gap::Start => 0,
        Gap::Before(key) => match place_in(page, order, key) {
            Ok(at) => at,
            Err(at) => at,
        },
        Gap::Behind(key) => match place_in(page, order, key) {
            Ok(at) => at + 1,
            Err(at) => at,
        },
        Gap::End => count_in(page),
    }
}

/// Keeps the element beside the gap, on a side of it, as found, where the node has one there.
fn keep_beside(
    page: &[u8; PAGE_WIDTH],
    order: u16,
    side: Side,
    gap: usize,
    found: &mut Option<(Key, Record)>,
)
    requires { HasSonAt order page.now gap }
    ensures { (m : Node) → CanStand m order → page.now ≡ spelling m order
        → found.new ≡ at_gap side m.elements.items gap found.old }
{
    match side {
        Side::After => keep_behind(page, order, gap, found),
        Side::Before => keep_before(page, order, gap, found),
    }
}

fn keep_behind(page: &[u8; PAGE_WIDTH], order: u16, gap: usize, found: &mut Option<(Key, Record)>)
    requires { HasSonAt order page.now gap }
    ensures { (m : Node) → CanStand m order → page.now ≡ spelling m order
        → found.new ≡ behind_gap m.elements.items gap found.old }
{
    if gap == count_in(page) {
        return;
    }
    *found = Some((key_in(page, order, gap), record_in(page, order, gap)));
}

fn keep_before(page: &[u8; PAGE_WIDTH], order: u16, gap: usize, found: &mut Option<(Key, Record)>)
    requires { HasSonAt order page.now gap }
    ensures { (m : Node) → CanStand m order → page.now ≡ spelling m order
        → found.new ≡ before_gap m.elements.items gap found.old }
{
    if gap == 0 {
        return;
    }
    *found = Some((
        key_in(page, order, gap - 1),
        record_in(page, order, gap - 1),
    ));
}
