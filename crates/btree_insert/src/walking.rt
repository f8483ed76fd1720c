ghost use Rattle.std.specs.Prelude.{◌≡◌, ◌+◌, ◌<◌, ◌≤◌, ◌++◌, ℕ, List, Err, IsTrue, IfOk, OnOk, MatchResult, length, ◌-◌};
ghost use Rattle.page_store.specs.PageMap.{at};
ghost use Rattle.btree_node.specs.Lists.{Element};
ghost use Rattle.btree_insert.specs.Bounds.{Between};
ghost use Rattle.btree_insert.specs.Growth.{IsNotOfPages};
ghost use Rattle.btree_insert.specs.PageTrees.{Spells, Fan, TreeOf, TreeAt, Holds};
ghost use Rattle.btree_insert.specs.Reached.{Adds, Walks};
ghost use Rattle.btree_node.specs.Layout.{IsSmallOrder};
ghost use Rattle.btree_insert.specs.Sizes.{IsTree};
ghost use Rattle.btree_insert.specs.Edits.{Reads, Looks};
ghost use Rattle.rec_types.specs.Told.{Takes, TellsAll, TellsSome};

use crate::bounds::{Bounds, UNBOUNDED};
use crate::reading::{kind_of_level, read_into};
use crate::tree::{Tree, TreeFault};
use btree_node::Node;
use page_store::{Pages, Store};
use rec_types::{Key, Memory, Record, RecordSink};
use std::alloc::Global;

/// A sink that keeps the elements.
#[derive(Drop)]
struct ElementList {
    elements: Vec<(Key, Record)>,
}

impl RecordSink<()> for ElementList {
    ghost use Rattle.std.specs.Prelude.{◌≡◌, ◌++◌};
    ghost use Rattle.std.proofs.Common.{rules};
    ghost use Rattle.std.proofs.lemmas.Grind.{common_steps};

    type Fault = Memory;

    ghost told = { λ old _ es new _. new.elements.items ≡ old.elements.items ++ es };

    ghost stops = { λ _ _ _ _ _ _. Unit {0} };

    fn take(&mut self, _out: &mut (), key: &Key, bytes: &[u8]) -> Result<(), Memory> {
        let record = Record::new(bytes).unwrap();
        self.elements.push((*key, record)).map_err(|_| Memory)
    }

    ghost told_none = { Prim.search (rules, common_steps) };

    ghost told_on = { Prim.search (rules, common_steps) };

    ghost stops_on = { λ _ _ _ _ _ _ _ _ _ _ _. tt };

    ghost stops_before = { λ _ _ _ _ _ _ _ _. tt };
}

/// All keys with their records, in order. It reads each page of the tree once. The conditions are an
/// order from 1 to 16, a height of at most 19, and a `count` and a `used` of at most 1,000,000. Faults:
/// Device; Damaged as `find` answers it, and with the page that it is at where it meets more than
/// `used` pages; Memory. No page changes.
pub fn walk<S: Store>(
    alloc: Global,
    pages: &mut Pages<S>,
    tree: &Tree,
) -> Result<Vec<(Key, Record)>, TreeFault>
    requires tree { IsTree tree.now }
    ensures walked { IsTrue pages.old.steady → (es : List Element) (us : List ℕ)
        → Holds (at pages.old.pages) tree.now es us
        → MatchResult result (λ elements. elements.items ≡ es) IsNotOfPages }
    ensures there { IsTrue pages.old.steady → IfOk result
        (λ elements. Walks (Spells tree.now.order (at pages.old.pages)) tree.now elements.items) }
    ensures reading { Reads tree.now.used pages.old result pages.new }
{
    let mut list = ElementList {
        elements: Vec::new(alloc),
    };
    tell(pages, tree, &mut list, &mut ())??;
    Ok(list.elements)
}

/// Tells a sink all keys with their records, in order, on the conditions of `walk`; it reads each page of the tree once, and holds
/// only those on a way down. Inside, the fault at which the sink stopped. Faults: Device; Damaged as `walk` answers it; the
/// sink was told those before the page then. No page changes.
pub fn tell<O, S: Store, K: RecordSink<O>>(
    pages: &mut Pages<S>,
    tree: &Tree,
    sink: &mut K,
    out: &mut O,
) -> Result<Result<(), K::Fault>, TreeFault>
    requires tree { IsTree tree.now }
    ensures told { IsTrue pages.old.steady → (es : List Element) (us : List ℕ)
        → Holds (at pages.old.pages) tree.now es us
        → TellsAll TreeFault.Device (λ xs. K.told sink.old out.old xs sink.new out.new)
        (λ xs fault. K.stops sink.old out.old xs fault sink.new out.new) es result }
    ensures there { IsTrue pages.old.steady → IfOk result (λ taken. OnOk taken
        ((es : List Element) × Walks (Spells tree.now.order (at pages.old.pages)) tree.now es
        × K.told sink.old out.old es sink.new out.new)) }
    ensures some { TellsSome (λ xs. K.told sink.old out.old xs sink.new out.new)
        (λ xs fault. K.stops sink.old out.old xs fault sink.new out.new) result }
    ensures reading { Looks tree.now.used pages.old result pages.new }
{
    if tree.height == 0 {
        return Ok(Ok(()));
    }
    let above = Above {
        height: tree.height,
        bounds: UNBOUNDED,
    };
    let mut left = tree.used;
    tell_below(pages, sink, out, &mut left, tree.order, tree.root, &above)
}

/// What the levels above say of a tree below them.
#[derive(Clone, Copy)]
struct Above {
    /// Its height.
    height: u32,
    /// The bounds of its keys.
    bounds: Bounds,
}

// Tells a sink elements. Fault: the sink's.
fn tell_elements<O, K: RecordSink<O>>(
    sink: &mut K,
    out: &mut O,
    elements: &[(Key, Record)],
) -> Result<(), K::Fault>
    ensures { Takes (λ xs. K.told sink.old out.old xs sink.new out.new)
        (λ xs fault. K.stops sink.old out.old xs fault sink.new out.new) elements.now result }
{
    for (key, record) in elements {
        sink.take(out, key, record.bytes())?;
    }
    Ok(())
}

/// Tells the elements of the tree below page n, which may have `left` pages.
#[cycle(walking)]
fn tell_below<O, S: Store, K: RecordSink<O>>(
    pages: &mut Pages<S>,
    sink: &mut K,
    out: &mut O,
    left: &mut u32,
    order: u16,
    n: u32,
    above: &Above,
) -> Result<Result<(), K::Fault>, TreeFault>
    requires order { IsSmallOrder order }
    requires height { 0 < above.now.height }
    ensures told { IsTrue pages.old.steady → (least : ℕ) (es : List Element) (us : List ℕ)
        → TreeAt order (at pages.old.pages) least above.now.height n es us
        → Between above.now.bounds es
        → length us ≤ left.old
        → TellsAll TreeFault.Device (λ xs. K.told sink.old out.old xs sink.new out.new)
        (λ xs fault. K.stops sink.old out.old xs fault sink.new out.new) es result
        × IfOk result (λ taken. OnOk taken (left.new + length us ≡ left.old)) }
    ensures adds { IsTrue pages.old.steady → IfOk result (λ taken. OnOk taken
        (Adds (TreeOf (Spells order (at pages.old.pages)) 1 1 above.now.height n) above.now.bounds
        (λ xs. K.told sink.old out.old xs sink.new out.new) left.old left.new)) }
    ensures some { TellsSome (λ xs. K.told sink.old out.old xs sink.new out.new)
        (λ xs fault. K.stops sink.old out.old xs fault sink.new out.new) result }
    ensures spent { left.old ≡ 0 → result ≡ Err (TreeFault.Damaged n) }
    ensures fewer { left.new ≤ left.old }
    ensures reading { Looks (left.old - left.new) pages.old result pages.new }
{
    if *left == 0 {
        return Err(TreeFault::Damaged(n));
    }
    *left -= 1;
    let mut node = Node::blank();
    read_into(
        pages,
        order,
        kind_of_level(above.height),
        n,
        &above.bounds,
        &mut node,
    )?;
    let elements = node.elements.as_slice();
    if above.height == 1 {
        return Ok(tell_elements(sink, out, elements));
    }
    let below = Above {
        height: above.height - 1,
        bounds: above.bounds,
    };
    tell_sons(
        pages,
        sink,
        out,
        left,
        order,
        node.sons.as_slice(),
        elements,
        &below,
    )
}

/// Tells the elements below the sons, and the elements between them.
#[cycle(walking)]
fn tell_sons<O, S: Store, K: RecordSink<O>>(
    pages: &mut Pages<S>,
    sink: &mut K,
    out: &mut O,
    left: &mut u32,
    order: u16,
    sons: &[u32],
    elements: &[(Key, Record)],
    above: &Above,
) -> Result<Result<(), K::Fault>, TreeFault>
    requires order { IsSmallOrder order }
    requires height { 0 < above.now.height }
    requires sons { length sons.now ≡ length elements.now + 1 }
    ensures told { IsTrue pages.old.steady → (es : List Element) (us : List ℕ)
        → Fan (TreeAt order (at pages.old.pages) order above.now.height) sons.now elements.now es us
        → Between above.now.bounds es
        → length us ≤ left.old
        → TellsAll TreeFault.Device (λ xs. K.told sink.old out.old xs sink.new out.new)
        (λ xs fault. K.stops sink.old out.old xs fault sink.new out.new) es result
        × IfOk result (λ taken. OnOk taken (left.new + length us ≡ left.old)) }
    ensures adds { IsTrue pages.old.steady → Between above.now.bounds elements.now
        → IfOk result (λ taken. OnOk taken (Adds (Fan (TreeOf (Spells order (at pages.old.pages)) 1 1 above.now.height)
        sons.now elements.now) above.now.bounds
        (λ xs. K.told sink.old out.old xs sink.new out.new) left.old left.new)) }
    ensures some { TellsSome (λ xs. K.told sink.old out.old xs sink.new out.new)
        (λ xs fault. K.stops sink.old out.old xs fault sink.new out.new) result }
    ensures fewer { left.new ≤ left.old }
    ensures reading { Looks (left.old - left.new) pages.old result pages.new }
{
    if elements.is_empty() {
        return tell_below(pages, sink, out, left, order, sons[0], above);
    }
    let middle = elements[0];
    let before = Above {
        height: above.height,
        bounds: Bounds {
            low: above.bounds.low,
            high: Some(middle.0),
        },
    };
    if let Err(fault) = tell_below(pages, sink, out, left, order, sons[0], &before)? {
        return Ok(Err(fault));
    }
    if let Err(fault) = tell_elements(sink, out, &elements[..1]) {
        return Ok(Err(fault));
    }
    let behind = Above {
        height: above.height,
        bounds: Bounds {
            low: Some(middle.0),
            high: above.bounds.high,
        },
    };
    tell_sons(
        pages,
        sink,
        out,
        left,
        order,
        &sons[1..],
        &elements[1..],
        &behind,
    )
}
