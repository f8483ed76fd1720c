ghost use Rattle.std.specs.Prelude.{◌≡◌, ◌<◌, ◌⊎◌, false, length, IsTrue, IsSome, IfErr, OnOk, MatchResult};
ghost use Rattle.page_store.specs.PageMap.{at};
ghost use Rattle.btree_node.specs.declared.node.Node.{Node};
ghost use Rattle.btree_insert.specs.Bounds.{AreWithin};
ghost use Rattle.btree_insert.specs.PageTrees.{Spells, kind_of_level};
ghost use Rattle.btree_delete.specs.Shrinking.{MayBeUnderfull};
ghost use Rattle.btree_delete.specs.Tidy.{is_visited, most_visited, Visited};
ghost use Rattle.btree_node.specs.Layout.{IsSmallOrder};
ghost use Rattle.btree_insert.specs.Edits.{Reads};

use crate::deletion::subtree::Subtree;
use arrayvec::ArrayVec;
use btree_insert::{GREATEST_HEIGHT, TreeFault, kind_of_level, read_into, was_visited};
use btree_node::Node;
use page_store::{Pages, Store};

/// The most pages that a deletion visits: one a level, and below the root a brother of each.
pub(crate) const MOST_VISITED: usize = 2 * GREATEST_HEIGHT as usize - 1;

/// Fills the node with that at the head of a tree, with its keys within the bounds. `visited` gains the
/// page. Faults: Device, and Damaged with the page where it was visited before, is not in use or spells no
/// such node; the node may then be any.
pub(crate) fn visit<S: Store>(
    pages: &mut Pages<S>,
    visited: &mut ArrayVec<u32, MOST_VISITED>,
    tree: &Subtree,
    node: &mut Node,
) -> Result<(), TreeFault>
    requires order { IsSmallOrder tree.now.order }
    requires room { length visited.old.items < most_visited }
    ensures exact { IsTrue pages.old.steady → (m : Node)
        → Spells tree.now.order (at pages.old.pages) tree.now.page m
        → m.kind ≡ kind_of_level tree.now.height
        → AreWithin tree.now.bounds m.elements.items
        → is_visited visited.old.items tree.now.page ≡ false
        → MatchResult result (λ _. node.new ≡ m) (λ fault. fault ≡ TreeFault.Device) }
    ensures fault { IfErr result
        (λ fault. (fault ≡ TreeFault.Device) ⊎ (fault ≡ TreeFault.Damaged tree.now.page)) }
    ensures some { OnOk result (0 < length node.new.elements.items) }
    ensures spells { IsTrue pages.old.steady
        → OnOk result (Spells tree.now.order (at pages.old.pages) tree.now.page node.new) }
    ensures stands { OnOk result
        (MayBeUnderfull tree.now.order tree.now.height tree.now.bounds node.new) }
    ensures visited { OnOk result (Visited visited.old.items visited.new.items tree.now.page) }
    ensures in_use { OnOk result (IsSome (at pages.old.pages tree.now.page)) }
    ensures reading { Reads 1 pages.old result pages.new }
{
    if was_visited(visited.as_slice(), tree.page) {
        return Err(TreeFault::Damaged(tree.page));
    }
    visited.push(tree.page);
    let kind = kind_of_level(tree.height);
    read_into(pages, tree.order, kind, tree.page, &tree.bounds, node)
}
