ghost use Rattle.std.specs.Prelude.{◌≡◌, ◌+◌, ◌-◌, ◌*◌, ◌<◌, ◌≤◌, ◌∷◌, ◌++◌, [], suc, ℕ, false, length, IsTrue, OnOk, MatchResult, slice_set};
ghost use Rattle.page_store.specs.PageMap.{at};
ghost use Rattle.btree_node.specs.declared.node.Node.{Node};
ghost use Rattle.btree_node.specs.Joined.{AreBrothers};
ghost use Rattle.btree_node.specs.Lists.{Each};
ghost use Rattle.btree_node.specs.Spelling.{IsElement};
ghost use Rattle.btree_insert.specs.Bounds.{AreWithin, son_bounds};
ghost use Rattle.btree_insert.specs.Growth.{IsNotOfPages};
ghost use Rattle.btree_insert.specs.PageTrees.{Spells, kind_of_level};
ghost use Rattle.btree_delete.specs.Treatment.{element_at, son_number, both, Treats, brothers};
ghost use Rattle.btree_delete.specs.Shrinking.{MayBeUnderfull, CanTreat, TreatsSon};
ghost use Rattle.btree_delete.specs.Tidy.{is_visited, so_far, visits};
ghost use Rattle.btree_node.specs.Layout.{IsOrder};
ghost use Rattle.btree_insert.specs.Edits.{Reads};
ghost use Rattle.btree_delete.specs.Edits.{TakesNone};

use crate::deletion::subtree::{Subtree, tree_of_son};
use crate::deletion::visit::{MOST_VISITED, visit};
use arrayvec::ArrayVec;
use btree_insert::{TreeFault, write_node};
use btree_node::{Node, catenate, distribute};
use page_store::{PageEdit, Pages, Store};
use rec_types::{Key, Memory, Record};

/// Adds a page to those that the edit frees. Fault: Memory.
pub(crate) fn free_page(edit: &mut PageEdit, n: u32) -> Result<(), Memory>
    ensures freed { OnOk result (edit.new.freed.items ≡ edit.old.freed.items ++ n ∷ []) }
    ensures writes { edit.new.writes ≡ edit.old.writes }
    ensures taken { edit.new.taken ≡ edit.old.taken }
{
    edit.freed.push(n).map_err(|_| Memory)
}

/// Puts an element in the place of element i.
pub(crate) fn set_element(node: &mut Node, i: usize, element: (Key, Record))
    requires { i < length node.old.elements.items }
    ensures kind { node.new.kind ≡ node.old.kind }
    ensures elements { node.new.elements.items ≡ slice_set node.old.elements.items i element }
    ensures sons { node.new.sons ≡ node.old.sons }
{
    node.elements.as_mut_slice()[i] = element;
}

/// Treats sons i and i + 1 of a father, of which one is underfull: with fewer than `2k` keys they become
/// one page, else their keys are distributed. Fault: Memory.
fn treat_pair(
    edit: &mut PageEdit,
    order: u16,
    father: &mut Node,
    i: usize,
    left: Node,
    right: Node,
) -> Result<(), Memory>
    requires order { IsOrder order }
    requires place { i < length father.old.elements.items }
    requires sons { length father.old.sons.items ≡ length father.old.elements.items + 1 }
    requires brothers { AreBrothers left (element_at father.old i) right }
    requires fit { Each (IsElement) (both father.old i left right).elements.items }
    requires left_most { length left.elements.items ≤ 2 * order }
    requires right_most { length right.elements.items ≤ 2 * order }
    ensures treats { OnOk result (Treats order father.old father.new (brothers i left right)
        (so_far edit.old) (so_far edit.new)) }
    ensures edit { TakesNone order edit.old result edit.new }
{
    let middle = father.elements[i];
    let number = father.sons[i];
    let next = father.sons[i + 1];
    if left.elements.len() + right.elements.len() < 2 * order as usize {
        let node = catenate(left, middle, right, order);
        father.elements.remove(i);
        father.sons.remove(i + 1);
        write_node(edit, order, number, &node)?;
        return free_page(edit, next);
    }
    let (left, up, right) = distribute(left, middle, right, order);
    set_element(father, i, up);
    write_node(edit, order, number, &left)?;
    write_node(edit, order, next, &right)?;
    Ok(())
}

/// Treats son i of a father at the head of a tree, which is underfull, with an adjacent brother: the right
/// one where there is one, else the left one. Faults: Device, Damaged with the brother as `visit`
/// answers it, Memory.
pub(crate) fn treat_underflow<S: Store>(
    pages: &mut Pages<S>,
    edit: &mut PageEdit,
    visited: &mut ArrayVec<u32, MOST_VISITED>,
    tree: &Subtree,
    father: &mut Node,
    i: usize,
    son: Node,
) -> Result<(), TreeFault>
    requires { CanTreat pages.old.pages visited.old.items (so_far edit.old) tree.now father.old i son }
    ensures right { IsTrue pages.old.steady → i < length father.old.elements.items
        → (brother : Node)
        → Spells tree.now.order (at pages.old.pages) (son_number father.old (suc i)) brother
        → brother.kind ≡ kind_of_level (tree.now.height - 1)
        → AreWithin (son_bounds father.old.elements.items (suc i) tree.now.bounds)
        brother.elements.items
        → is_visited visited.old.items (son_number father.old (suc i)) ≡ false
        → MatchResult result
        (λ _. (visited.new.items ≡ visited.old.items ++ son_number father.old (suc i) ∷ [])
        × Treats tree.now.order father.old father.new (brothers i son brother)
        (so_far edit.old) (so_far edit.new))
        IsNotOfPages }
    ensures left { IsTrue pages.old.steady → (j : ℕ) → i ≡ suc j
        → i ≡ length father.old.elements.items → (brother : Node)
        → Spells tree.now.order (at pages.old.pages) (son_number father.old j) brother
        → brother.kind ≡ kind_of_level (tree.now.height - 1)
        → AreWithin (son_bounds father.old.elements.items j tree.now.bounds) brother.elements.items
        → is_visited visited.old.items (son_number father.old j) ≡ false
        → MatchResult result
        (λ _. (visited.new.items ≡ visited.old.items ++ son_number father.old j ∷ [])
        × Treats tree.now.order father.old father.new (brothers j brother son)
        (so_far edit.old) (so_far edit.new))
        IsNotOfPages }
    ensures father { OnOk result
        (MayBeUnderfull tree.now.order tree.now.height tree.now.bounds father.new) }
    ensures treated { OnOk result
        (TreatsSon pages.old.pages (visits visited.old.items visited.new.items)
        (so_far edit.old) (so_far edit.new) (son_number father.old i)) }
    ensures edit { TakesNone tree.now.order edit.old result edit.new }
    ensures reading { Reads 1 pages.old result pages.new }
{
    let mut brother = Node::blank();
    if i < father.elements.len() {
        let next = tree_of_son(tree, father, i + 1);
        visit(pages, visited, &next, &mut brother)?;
        return Ok(treat_pair(edit, tree.order, father, i, son, brother)?);
    }
    let before = i - 1;
    let previous = tree_of_son(tree, father, before);
    visit(pages, visited, &previous, &mut brother)?;
    Ok(treat_pair(edit, tree.order, father, before, brother, son)?)
}
