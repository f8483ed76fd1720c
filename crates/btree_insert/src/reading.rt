ghost use Rattle.std.specs.Prelude.{◌≡◌, ◌<◌, ◌⊎◌, Some, None, true, IsTrue, IfSome, IfErr, OnOk, IsOk, MatchResult};
ghost use Rattle.page_store.specs.PageMap.{at};
ghost use Rattle.page_store.specs.PagesView.{is_in_memory};
ghost use Rattle.btree_node.specs.Spelling.{spelling, CanStand, IsSpelt};
ghost use Rattle.btree_node.specs.declared.node.Node.{Node};
ghost use Rattle.btree_insert.specs.Bounds.{AreWithin};
ghost use Rattle.btree_insert.specs.PageTrees.{Spells, kind_of_level};
ghost use Rattle.btree_node.specs.Layout.{IsSmallOrder};
ghost use Rattle.btree_insert.specs.Edits.{IsInUse, Reads};
ghost use Rattle.btree_insert.specs.Spelt.{AreSpeltIn};

use crate::bounds::{Bounds, are_within};
use crate::tree::TreeFault;
use btree_node::{Node, NodeKind, decode_into, is_node_page};
use page_store::{FetchFault, Pages, Store};
use rec_types::PAGE_WIDTH;

/// Fills the node with that of page n, which is of a kind and has its keys within the bounds: nothing as
/// large as a node is made or moved, and a page in memory is read where it lies. The condition is an
/// order of at most 16. Faults: Device, and Damaged(n) where the page is not in use or spells no such
/// node; the node may then be any. No page changes.
pub fn read_into<S: Store>(
    pages: &mut Pages<S>,
    order: u16,
    kind: NodeKind,
    n: u32,
    bounds: &Bounds,
    node: &mut Node,
) -> Result<(), TreeFault>
    requires { IsSmallOrder order }
    ensures exact { IsTrue pages.old.steady → (m : Node)
        → Spells order (at pages.old.pages) n m → m.kind ≡ kind
        → AreWithin bounds.now m.elements.items
        → MatchResult result (λ _. node.new ≡ m) (λ fault. fault ≡ TreeFault.Device) }
    ensures stands { OnOk result (CanStand node.new order × (node.new.kind ≡ kind)) }
    ensures spells { IsTrue pages.old.steady
        → OnOk result (Spells order (at pages.old.pages) n node.new) }
    ensures fault { IfErr result
        (λ fault. (fault ≡ TreeFault.Device) ⊎ (fault ≡ TreeFault.Damaged n)) }
    ensures in_use { OnOk result (IsInUse pages.old.pages n) }
    ensures within { OnOk result (AreWithin bounds.now node.new.elements.items) }
    ensures reading { Reads 1 pages.old result pages.new }
{
    if let Some(page) = pages.in_memory(n) {
        return take_into(page, order, kind, n, bounds, node);
    }
    let mut page = [0; PAGE_WIDTH];
    fetch_page(pages, n, &mut page)?;
    take_into(&page, order, kind, n, bounds, node)
}

/// Reads page n. Faults: Device, and Damaged(n) where the page is not in use.
fn fetch_page<S: Store>(
    pages: &mut Pages<S>,
    n: u32,
    page: &mut [u8; PAGE_WIDTH],
) -> Result<(), TreeFault>
    ensures page { IsTrue pages.old.steady
        → OnOk result (at pages.old.pages n ≡ Some page.new) }
    ensures fault { IfErr result (λ fault. (fault ≡ TreeFault.Device)
        ⊎ ((fault ≡ TreeFault.Damaged n) × (at pages.old.pages n ≡ None))) }
    ensures in_use { OnOk result (IsInUse pages.old.pages n) }
    ensures reading { Reads 1 pages.old result pages.new }
{
    match pages.fetch(n, page) {
        Ok(()) => Ok(()),
        Err(FetchFault::Device) => Err(TreeFault::Device),
        Err(FetchFault::OutOfRange) => Err(TreeFault::Damaged(n)),
    }
}

/// The bytes of page n where they lie in memory, changed or kept.
pub fn lies_at<S: Store>(pages: &Pages<S>, order: u16, n: u32) -> Option<&[u8; PAGE_WIDTH]>
    requires { AreSpeltIn order pages.now }
    ensures page { IsTrue pages.now.steady
        → IfSome result (λ page. at pages.now.pages n ≡ Some page.now) }
    ensures in_memory { is_in_memory pages.now n ≡ true
        → IfSome result (λ page. at pages.now.pages n ≡ Some page.now) }
    ensures spelt { IfSome result (λ page. IsSpelt order page.now) }
{
    match pages.in_memory(n) {
        Some(page) => Some(page),
        None => pages.recall(order, n),
    }
}

/// Reads page n, which spells a node of the order: no node is made; one that is kept is copied. The condition is an order of
/// at most 16. Faults: Device, and Damaged(n) where the page is not in use or spells no node; the bytes may then
/// be any. No page changes.
pub(crate) fn read_bytes<S: Store>(
    pages: &mut Pages<S>,
    order: u16,
    n: u32,
    page: &mut [u8; PAGE_WIDTH],
) -> Result<(), TreeFault>
    requires { IsSmallOrder order }
    ensures exact { IsTrue pages.old.steady → (m : Node)
        → Spells order (at pages.old.pages) n m
        → MatchResult result (λ _. page.new ≡ spelling m order)
        (λ fault. fault ≡ TreeFault.Device) }
    ensures spelt { OnOk result (IsSpelt order page.new) }
    ensures page { IsTrue pages.old.steady
        → OnOk result (at pages.old.pages n ≡ Some page.new) }
    ensures fault { IfErr result
        (λ fault. (fault ≡ TreeFault.Device) ⊎ (fault ≡ TreeFault.Damaged n)) }
    ensures in_use { OnOk result (IsInUse pages.old.pages n) }
    ensures reading { Reads 1 pages.old result pages.new }
{
    if let Some(kept) = pages.recall(order, n) {
        *page = *kept;
        return Ok(());
    }
    fetch_page(pages, n, page)?;
    if is_node_page(page, order) {
        Ok(())
    } else {
        Err(TreeFault::Damaged(n))
    }
}

/// Fills the node with what the bytes of page n spell. Fault: Damaged(n).
fn take_into(
    page: &[u8; PAGE_WIDTH],
    order: u16,
    kind: NodeKind,
    n: u32,
    bounds: &Bounds,
    node: &mut Node,
) -> Result<(), TreeFault>
    requires { IsSmallOrder order }
    ensures exact { (m : Node) → CanStand m order → page.now ≡ spelling m order
        → m.kind ≡ kind → AreWithin bounds.now m.elements.items → IsOk result × (node.new ≡ m) }
    ensures stands { OnOk result (CanStand node.new order × (node.new.kind ≡ kind)) }
    ensures spells { OnOk result (page.now ≡ spelling node.new order) }
    ensures fault { IfErr result (λ fault. fault ≡ TreeFault.Damaged n) }
    ensures within { OnOk result (AreWithin bounds.now node.new.elements.items) }
{
    decode_into(page, order, node).map_err(|_| TreeFault::Damaged(n))?;
    if node.kind != kind || !are_within(bounds, node.elements.as_slice()) {
        return Err(TreeFault::Damaged(n));
    }
    Ok(())
}

/// Which kind of page stands at a level, where level 1 is the lowest.
pub fn kind_of_level(level: u32) -> NodeKind
    ensures { result ≡ kind_of_level level }
{
    if level == 1 {
        NodeKind::Leaf
    } else {
        NodeKind::Inner
    }
}
