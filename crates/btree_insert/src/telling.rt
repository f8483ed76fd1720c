ghost use Rattle.std.specs.Prelude.{◌≡◌, ◌<◌, ◌+◌, ◌*◌, ℕ, List, [], ◌++◌, drop, take, reverse, true, IsTrue, IsOk, IfOk, OnOk, IfErr, MatchResult};
ghost use Rattle.page_store.specs.PageMap.{at};
ghost use Rattle.btree_node.specs.Layout.{IsOrder};
ghost use Rattle.btree_node.specs.Lists.{Element};
ghost use Rattle.btree_node.specs.Spelling.{spelling, CanStand, IsNodePage};
ghost use Rattle.btree_node.specs.declared.node.Node.{Node};
ghost use Rattle.rec_types.specs.Ordered.{is_left, listed_one, in_turn, from_gap};
ghost use Rattle.rec_types.specs.Told.{Takes, TellsSome};
ghost use Rattle.btree_insert.specs.Nearest.{IsLast, TakesTo, TakesFirst, TellsTo, TellsOrDevice};
ghost use Rattle.btree_insert.specs.PageTrees.{Spells, Holds};
ghost use Rattle.btree_insert.specs.Edits.{Looks};
ghost use Rattle.btree_insert.specs.Sizes.{IsTree};
ghost use Rattle.btree_insert.specs.Spelt.{AreSpeltIn};
ghost use Rattle.btree_insert.specs.Steps.{BelongsAt, CanSearch, HasSonAt};

use crate::beside::{check_in_page, gap_in, leaf_below};
use crate::reading::{lies_at, read_bytes};
use crate::step::{Spot, root_spot};
use crate::tree::{Tree, TreeFault};
use btree_node::{count_in, key_in, record_in};
use page_store::{Pages, Store};
use rec_types::{Gap, Key, PAGE_WIDTH, Record, RecordSink, Side};

/// Tells a sink the elements on a side of a gap, the nearest first. It goes down the tree once for each leaf that it comes to,
/// and reads one page a level at most; each is told where it lies. The conditions are those of `walk`, and that each page in
/// memory spells a node of the order. Inside, the fault at which the sink stopped. Faults: Device; Damaged as `look_up` answers
/// it, and with the root where it comes to more leaves than there are elements; the sink was told those before then. No page
/// changes.
pub fn tell_beside<O, S: Store, K: RecordSink<O>>(
    pages: &mut Pages<S>,
    tree: &Tree,
    side: Side,
    from: &Gap,
    sink: &mut K,
    out: &mut O,
) -> Result<Result<(), K::Fault>, TreeFault>
    requires tree { IsTree tree.now }
    requires spelt { AreSpeltIn tree.now.order pages.old }
    ensures told { IsTrue pages.old.steady → (es : List Element) (us : List ℕ)
        → Holds (at pages.old.pages) tree.now es us
        → TellsOrDevice (λ es. K.told sink.old out.old es sink.new out.new)
        (λ es fault. K.stops sink.old out.old es fault sink.new out.new)
        (in_turn side (is_left from.now) es []) result }
    ensures some { TellsSome (λ es. K.told sink.old out.old es sink.new out.new)
        (λ es fault. K.stops sink.old out.old es fault sink.new out.new) result }
    ensures reading { Looks (tree.now.height * (tree.now.count + 1)) pages.old result pages.new }
{
    let mut gap = *from;
    let mut left = tree.count + 1;
    while left > 0 {
        left -= 1;
        match tell_leaf(pages, tree, side, &gap, sink, out)? {
            Ok(Some(last)) => gap = side.past(last),
            Ok(None) => return Ok(Ok(())),
            Err(fault) => return Ok(Err(fault)),
        }
    }
    Err(TreeFault::Damaged(tree.root))
}

/// Tells a sink the first of the elements on a side of a gap: those in the leaf that the gap lies in, and the nearest one that
/// the way down to it passed. Inside, the key of the last one told, or none where there is no element on that side; or the
/// fault at which the sink stopped. Faults: Device, and Damaged as `look_up` answers it; the sink was told nothing then. No
/// page changes.
fn tell_leaf<O, S: Store, K: RecordSink<O>>(
    pages: &mut Pages<S>,
    tree: &Tree,
    side: Side,
    from: &Gap,
    sink: &mut K,
    out: &mut O,
) -> Result<Result<Option<Key>, K::Fault>, TreeFault>
    requires tree { IsTree tree.now }
    requires spelt { AreSpeltIn tree.now.order pages.old }
    ensures told { IsTrue pages.old.steady → (es : List Element) (us : List ℕ)
        → Holds (at pages.old.pages) tree.now es us
        → MatchResult result (TakesFirst (λ es. K.told sink.old out.old es sink.new out.new)
        (λ es fault. K.stops sink.old out.old es fault sink.new out.new)
        (in_turn side (is_left from.now) es [])) (λ fault. fault ≡ TreeFault.Device) }
    ensures some { TellsTo (λ es. K.told sink.old out.old es sink.new out.new)
        (λ es fault. K.stops sink.old out.old es fault sink.new out.new) result }
    ensures reading { Looks tree.now.height pages.old result pages.new }
{
    if tree.height == 0 {
        return Ok(Ok(None));
    }
    let mut passed = None;
    let leaf = leaf_below(pages, tree.order, &root_spot(tree), side, from, &mut passed)?;
    tell_at(pages, tree.order, &leaf, side, from, &passed, sink, out)
}

/// Tells a sink the elements on a side of a gap in the page at a spot, the nearest first, and behind them the one that was
/// passed. Faults: Device; Damaged with the page where it isn't in use, or spells no node that belongs at the spot; the sink
/// was told nothing then.
fn tell_at<O, S: Store, K: RecordSink<O>>(
    pages: &mut Pages<S>,
    order: u16,
    spot: &Spot,
    side: Side,
    from: &Gap,
    passed: &Option<(Key, Record)>,
    sink: &mut K,
    out: &mut O,
) -> Result<Result<Option<Key>, K::Fault>, TreeFault>
    requires search { CanSearch order spot.now true pages.old }
    ensures exact { IsTrue pages.old.steady → (m : Node)
        → Spells order (at pages.old.pages) spot.now.page m → BelongsAt spot.now m
        → MatchResult result (TakesTo (λ es. K.told sink.old out.old es sink.new out.new)
        (λ es fault. K.stops sink.old out.old es fault sink.new out.new)
        (in_turn side (is_left from.now) m.elements.items (listed_one passed.now)))
        (λ fault. fault ≡ TreeFault.Device) }
    ensures some { TellsTo (λ es. K.told sink.old out.old es sink.new out.new)
        (λ es fault. K.stops sink.old out.old es fault sink.new out.new) result }
    ensures reading { Looks 1 pages.old result pages.new }
{
    if let Some(page) = lies_at(pages, order, spot.page) {
        return tell_in_page(page, order, spot, side, from, passed, sink, out);
    }
    let mut bytes = [0; PAGE_WIDTH];
    read_bytes(pages, order, spot.page, &mut bytes)?;
    tell_in_page(&bytes, order, spot, side, from, passed, sink, out)
}

/// The same of a page that spells a node. Fault: Damaged with the page where the node does not belong at the spot.
fn tell_in_page<O, K: RecordSink<O>>(
    page: &[u8; PAGE_WIDTH],
    order: u16,
    spot: &Spot,
    side: Side,
    from: &Gap,
    passed: &Option<(Key, Record)>,
    sink: &mut K,
    out: &mut O,
) -> Result<Result<Option<Key>, K::Fault>, TreeFault>
    requires page { IsNodePage order page.now }
    requires level { 0 < spot.now.level }
    ensures told { (m : Node) → CanStand m order → page.now ≡ spelling m order
        → IfOk result (TakesTo (λ es. K.told sink.old out.old es sink.new out.new)
        (λ es fault. K.stops sink.old out.old es fault sink.new out.new)
        (in_turn side (is_left from.now) m.elements.items (listed_one passed.now))) }
    ensures exact { (m : Node) → CanStand m order → page.now ≡ spelling m order
        → BelongsAt spot.now m → IsOk result }
    ensures some { TellsTo (λ es. K.told sink.old out.old es sink.new out.new)
        (λ es fault. K.stops sink.old out.old es fault sink.new out.new) result }
    ensures fault { IfErr result (λ fault. fault ≡ TreeFault.Damaged spot.now.page) }
{
    check_in_page(page, order, spot)?;
    let gap = gap_in(page, order, from);
    Ok(tell_from(page, order, side, gap, passed, sink, out))
}

/// Tells a sink the elements of the node that the page spells, on a side of a gap that so many lie left of, and behind them the
/// one that was passed. The answer is the key of the last one told. Fault: the sink's.
fn tell_from<O, K: RecordSink<O>>(
    page: &[u8; PAGE_WIDTH],
    order: u16,
    side: Side,
    gap: usize,
    passed: &Option<(Key, Record)>,
    sink: &mut K,
    out: &mut O,
) -> Result<Option<Key>, K::Fault>
    requires { HasSonAt order page.now gap }
    ensures { (m : Node) → CanStand m order → page.now ≡ spelling m order → TakesTo
        (λ es. K.told sink.old out.old es sink.new out.new)
        (λ es fault. K.stops sink.old out.old es fault sink.new out.new)
        (from_gap side m.elements.items gap ++ listed_one passed.now) result }
{
    tell_side(page, order, side, gap, sink, out)?;
    match passed {
        Some((key, record)) => {
            sink.take(out, key, record.bytes())?;
            Ok(Some(*key))
        }
        None => Ok(last_from(page, order, side, gap)),
    }
}

/// Tells a sink the elements of the node that the page spells, on a side of a gap that so many lie left of. Fault: the sink's.
fn tell_side<O, K: RecordSink<O>>(
    page: &[u8; PAGE_WIDTH],
    order: u16,
    side: Side,
    gap: usize,
    sink: &mut K,
    out: &mut O,
) -> Result<(), K::Fault>
    requires { HasSonAt order page.now gap }
    ensures { (m : Node) → CanStand m order → page.now ≡ spelling m order → Takes
        (λ es. K.told sink.old out.old es sink.new out.new)
        (λ es fault. K.stops sink.old out.old es fault sink.new out.new)
        (from_gap side m.elements.items gap) result }
{
    match side {
        Side::After => tell_behind(page, order, gap, sink, out),
        Side::Before => tell_before(page, order, gap, sink, out),
    }
}

/// Tells a sink the elements from number `gap` on of the node that the page spells. Fault: the sink's.
fn tell_behind<O, K: RecordSink<O>>(
    page: &[u8; PAGE_WIDTH],
    order: u16,
    gap: usize,
    sink: &mut K,
    out: &mut O,
) -> Result<(), K::Fault>
    requires { HasSonAt order page.now gap }
    ensures { (m : Node) → CanStand m order → page.now ≡ spelling m order → Takes
        (λ es. K.told sink.old out.old es sink.new out.new)
        (λ es fault. K.stops sink.old out.old es fault sink.new out.new)
        (drop gap m.elements.items) result }
{
    let count = count_in(page);
    let mut at = gap;
    while at < count {
        let key = key_in(page, order, at);
        sink.take(out, &key, record_in(page, order, at).bytes())?;
        at += 1;
    }
    Ok(())
}

/// Tells a sink the first `gap` elements of the node that the page spells, the last of them first. Fault: the sink's.
fn tell_before<O, K: RecordSink<O>>(
    page: &[u8; PAGE_WIDTH],
    order: u16,
    gap: usize,
    sink: &mut K,
    out: &mut O,
) -> Result<(), K::Fault>
    requires { HasSonAt order page.now gap }
    ensures { (m : Node) → CanStand m order → page.now ≡ spelling m order → Takes
        (λ es. K.told sink.old out.old es sink.new out.new)
        (λ es fault. K.stops sink.old out.old es fault sink.new out.new)
        (reverse (take gap m.elements.items)) result }
{
    let mut at = gap;
    while at > 0 {
        at -= 1;
        let key = key_in(page, order, at);
        sink.take(out, &key, record_in(page, order, at).bytes())?;
    }
    Ok(())
}

/// The key of the last element on a side of a gap that so many lie left of, in the node that the page spells.
fn last_from(page: &[u8; PAGE_WIDTH], order: u16, side: Side, gap: usize) -> Option<Key>
    requires { HasSonAt order page.now gap }
    ensures { (m : Node) → CanStand m order → page.now ≡ spelling m order
        → IsLast (from_gap side m.elements.items gap) result }
{
    match side {
        Side::After => last_behind(page, order, gap),
        Side::Before => first_before(page, order, gap),
    }
}

fn last_behind(page: &[u8; PAGE_WIDTH], order: u16, gap: usize) -> Option<Key>
    requires { HasSonAt order page.now gap }
    ensures { (m : Node) → CanStand m order → page.now ≡ spelling m order
        → IsLast (drop gap m.elements.items) result }
{
    let count = count_in(page);
    if gap == count {
        return None;
    }
    Some(key_in(page, order, count - 1))
}

fn first_before(page: &[u8; PAGE_WIDTH], order: u16, gap: usize) -> Option<Key>
    requires { HasSonAt order page.now gap }
    ensures { (m : Node) → CanStand m order → page.now ≡ spelling m order
        → IsLast (reverse (take gap m.elements.items)) result }
{
    if gap == 0 {
        return None;
    }
    Some(key_in(page, order, 0))
}
