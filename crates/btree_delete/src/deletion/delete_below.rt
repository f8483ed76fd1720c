ghost use Rattle.std.specs.Prelude.{◌≡◌, ◌+◌, ◌-◌, ◌*◌, ◌<◌, ◌≤◌, ◌∷◌, ◌++◌, ℕ, suc, List, [], Some, None, false, length, IsTrue, IfOk, OnOk, MatchResult};
ghost use Rattle.page_store.specs.PageMap.{at};
ghost use Rattle.btree_node.specs.Lists.{Element, Each, Ascends, IsAt, IsPlace};
ghost use Rattle.btree_insert.specs.Bounds.{AreWithin, Between, son_bounds};
ghost use Rattle.btree_insert.specs.declared.bounds.Bounds.{Bounds};
ghost use Rattle.btree_insert.specs.Contents.{lookup_in};
ghost use Rattle.btree_insert.specs.Growth.{IsNotOfPages};
ghost use Rattle.btree_insert.specs.PageTrees.{TreeAt, Apart, Body, Spells, kind_of_level};
ghost use Rattle.btree_insert.specs.Reached.{Leads};
ghost use Rattle.btree_delete.specs.Deleted.{MayStop};
ghost use Rattle.btree_delete.specs.Subtrees.{behind_element, head_of};
ghost use Rattle.btree_delete.specs.Shrinking.{MayBeUnderfull, WritesOrHandsUp, UnderfullGoesUp, MayGoUp, TreatsAndSettles, RemovesBelow, gone, record_gone, removal, removal_if, sought, CanTreat, SettlesFather, HasElement, IsReached, IsSubtree, TakesHere, VisitsBelow};
ghost use Rattle.btree_delete.specs.Tidy.{is_visited, visits, so_far, IsAwaited};
ghost use Rattle.btree_delete.specs.Treatment.{element_at, son_number, brothers};
ghost use Rattle.btree_delete.specs.PagesLeft.{with_edit};
ghost use Rattle.btree_node.specs.Layout.{IsOrder};
ghost use Rattle.btree_insert.specs.Edits.{Reads, OnlyWrites};
ghost use Rattle.btree_delete.specs.Edits.{TakesNone, TouchesNone};

use crate::deletion::subtree::{Subtree, tree_left, tree_of_son};
use crate::deletion::underflow::{set_element, treat_underflow};
use crate::deletion::visit::{MOST_VISITED, visit};
use arrayvec::ArrayVec;
use btree_insert::{TreeFault, write_node};
use btree_node::{Node, place_of};
use page_store::{PageEdit, Pages, Store};
use rec_types::{Key, Memory, Record};

/// What the removal of an element below a page came to: the element, and whether the page's node is short. An
/// underfull node has fewer keys than a page may and is not written: its page is treated, freed, or the root.
#[derive(Drop)]
pub(crate) enum Shrunk {
    Whole((Key, Record)),
    Underfull((Key, Record)),
}

/// Writes a node as page n, but for an underfull one, which goes up.
fn settle(
    edit: &mut PageEdit,
    order: u16,
    n: u32,
    removed: (Key, Record),
    node: &Node,
) -> Result<Shrunk, Memory>
    requires order { IsOrder order }
    requires may_be_underfull { (height : ℕ) × (bounds : Bounds)
        × MayBeUnderfull order height bounds node.now }
    ensures settles { IfOk result (λ g. WritesOrHandsUp order
        edit.old.writes.items edit.new.writes.items n removed node.now (removal node.now g)) }
    ensures edit { OnlyWrites order edit.old result edit.new }
{
    if node.elements.len() < order as usize {
        return Ok(Shrunk::Underfull(removed));
    }
    write_node(edit, order, n, node)?;
    Ok(Shrunk::Whole(removed))
}

/// Treats son i of the father at the head of a tree, and writes the father unless it is underfull then. The
/// element that went is `removed`. Faults as in `treat_underflow`.
fn treat_and_settle<S: Store>(
    pages: &mut Pages<S>,
    edit: &mut PageEdit,
    visited: &mut ArrayVec<u32, MOST_VISITED>,
    tree: &Subtree,
    father: &mut Node,
    i: usize,
    removed: (Key, Record),
    son: Node,
) -> Result<Shrunk, TreeFault>
    requires can { CanTreat pages.old.pages visited.old.items (so_far edit.old) tree.now father.old i
        son }
    requires other { tree.now.page ≡ son_number father.old i → ⊥ }
    requires awaited { IsAwaited visited.old.items (so_far edit.old) tree.now.page }
    ensures right { IsTrue pages.old.steady → i < length father.old.elements.items
        → (brother : Node)
        → Spells tree.now.order (at pages.old.pages) (son_number father.old (suc i)) brother
        → brother.kind ≡ kind_of_level (tree.now.height - 1)
        → AreWithin (son_bounds father.old.elements.items (suc i) tree.now.bounds)
        brother.elements.items
        → is_visited visited.old.items (son_number father.old (suc i)) ≡ false
        → MatchResult result
        (λ g. (visited.new.items ≡ visited.old.items ++ son_number father.old (suc i) ∷ [])
        × TreatsAndSettles tree.now father.old (brothers i son brother) removed
        (so_far edit.old) (so_far edit.new) (removal father.new g))
        IsNotOfPages }
    ensures left { IsTrue pages.old.steady → (j : ℕ) → i ≡ suc j
        → i ≡ length father.old.elements.items → (brother : Node)
        → Spells tree.now.order (at pages.old.pages) (son_number father.old j) brother
        → brother.kind ≡ kind_of_level (tree.now.height - 1)
        → AreWithin (son_bounds father.old.elements.items j tree.now.bounds) brother.elements.items
        → is_visited visited.old.items (son_number father.old j) ≡ false
        → MatchResult result
        (λ g. (visited.new.items ≡ visited.old.items ++ son_number father.old j ∷ [])
        × TreatsAndSettles tree.now father.old (brothers j brother son) removed
        (so_far edit.old) (so_far edit.new) (removal father.new g))
        IsNotOfPages }
    ensures gone { IfOk result (λ g. gone (removal father.new g) ≡ removed) }
    ensures up { IfOk result (λ g. UnderfullGoesUp tree.now.order tree.now.height tree.now.bounds
        tree.now.page edit.new.writes.items edit.new.freed.items (removal father.new g)) }
    ensures settled { OnOk result
        (SettlesFather pages.old.pages (visits visited.old.items visited.new.items)
        (so_far edit.old) (so_far edit.new) (son_number father.old i) tree.now.page) }
    ensures edit { TakesNone tree.now.order edit.old result edit.new }
    ensures reading { Reads 1 pages.old result pages.new }
{
    treat_underflow(pages, edit, visited, tree, father, i, son)?;
    Ok(settle(edit, tree.order, tree.page, removed, father)?)
}

/// Where the element to take stands in the node at the head of a tree of a height, or else the son
/// that it is below. With no key it is the first element of the tree.
fn place_to_take(node: &Node, height: u32, key: &Option<Key>) -> Result<usize, usize>
    requires { 0 < length node.now.elements.items }
    ensures within { MatchResult result (λ i. i < length node.now.elements.items)
        (λ i. i ≤ length node.now.elements.items) }
    ensures found { (given : List ℕ) → key.now ≡ Some given → Ascends node.now.elements.items
        → MatchResult result (IsAt node.now.elements.items given)
        (IsPlace node.now.elements.items given) }
    ensures first { key.now ≡ None → MatchResult result (λ i. (i ≡ 0) × (height ≡ 1))
        (λ i. (i ≡ 0) × (height ≡ 1 → ⊥)) }
{
    match key {
        Some(key) => place_of(node, key),
        None if height == 1 => Ok(0),
        None => Err(0),
    }
}

/// Takes element i out of the node at the head of a tree. In an inner node the next greater element
/// takes its place. The node is then the page's where it is underfull. Faults as in `delete_below`.
#[cycle(shrinking)]
fn delete_here<S: Store>(
    pages: &mut Pages<S>,
    edit: &mut PageEdit,
    visited: &mut ArrayVec<u32, MOST_VISITED>,
    tree: &Subtree,
    node: &mut Node,
    i: usize,
) -> Result<Shrunk, TreeFault>
    requires element { HasElement tree.now node.old i }
    requires reached { IsReached visited.old.items tree.now }
    requires untouched { TouchesNone edit.old }
    ensures removes { IsTrue pages.old.steady
        → (least : ℕ) (es : List Element) (us below : List ℕ) → least ≤ tree.now.order
        → Spells tree.now.order (at pages.old.pages) tree.now.page node.old
        → least ≤ length node.old.elements.items
        → Body (TreeAt tree.now.order (at pages.old.pages) tree.now.order (tree.now.height - 1))
        (tree.now.height - 1) node.old es below
        → us ≡ tree.now.page ∷ below → Between tree.now.bounds es → Apart us
        → Each (λ u. is_visited visited.old.items u ≡ false) below
        → MatchResult result
        (λ g. RemovesBelow (head_of tree.now least) (with_edit (at pages.old.pages) edit.new) es us
        (visits visited.old.items visited.new.items) (element_at node.old i).0
        (Some (removal node.new g)))
        IsNotOfPages }
    ensures gone { IfOk result (λ g. gone (removal node.new g) ≡ element_at node.old i) }
    ensures up { IfOk result (λ g. UnderfullGoesUp tree.now.order tree.now.height tree.now.bounds
        tree.now.page edit.new.writes.items edit.new.freed.items (removal node.new g)) }
    ensures first { tree.now.height ≡ 1 → i ≡ 0
        → IfOk result (λ g. UnderfullGoesUp tree.now.order tree.now.height
        (behind_element (element_at node.old i) tree.now.bounds) tree.now.page
        edit.new.writes.items edit.new.freed.items (removal node.new g)) }
    ensures taken { OnOk result
        (TakesHere pages.old.pages (visits visited.old.items visited.new.items)
        (so_far edit.new) tree.now) }
    ensures edit { TakesNone tree.now.order edit.old result edit.new }
    ensures reading { Reads (2 * tree.now.height - 2) pages.old result pages.new }
{
    let removed = node.elements[i];
    if tree.height == 1 {
        node.elements.remove(i);
        return Ok(settle(edit, tree.order, tree.page, removed, node)?);
    }
    let behind = tree_of_son(tree, node, i + 1);
    let mut son = Node::blank();
    match delete_below(pages, edit, visited, &behind, &None, &mut son)?.unwrap() {
        Shrunk::Whole(next) => {
            set_element(node, i, next);
            Ok(settle(edit, tree.order, tree.page, removed, node)?)
        }
        Shrunk::Underfull(next) => {
            set_element(node, i, next);
            let shrunk = treat_and_settle(pages, edit, visited, tree, node, i + 1, removed, son)?;
            Ok(shrunk)
        }
    }
}

/// Takes the key out of a tree, where it is there; with no key given, the first element. It collects
/// the pages to write and to free. `visited` gains the pages that were read. The node is then that of the tree's
/// head where it is underfull, and else may be any. Faults: Device; Memory, where the key is there; and Damaged as
/// `visit` answers it.
#[cycle(shrinking)]
pub(crate) fn delete_below<S: Store>(
    pages: &mut Pages<S>,
    edit: &mut PageEdit,
    visited: &mut ArrayVec<u32, MOST_VISITED>,
    tree: &Subtree,
    key: &Option<Key>,
    node: &mut Node,
) -> Result<Option<Shrunk>, TreeFault>
    requires tree { IsSubtree tree.now }
    requires levels { length visited.old.items + 2 * tree.now.height ≤ 38 }
    requires untouched { TouchesNone edit.old }
    ensures removes { IsTrue pages.old.steady → (least : ℕ) (es : List Element) (us : List ℕ)
        → least ≤ tree.now.order
        → TreeAt tree.now.order (at pages.old.pages) least tree.now.height tree.now.page es us
        → Between tree.now.bounds es → Apart us
        → Each (λ u. is_visited visited.old.items u ≡ false) us
        → MatchResult result
        (λ g. RemovesBelow (head_of tree.now least) (with_edit (at pages.old.pages) edit.new) es us
        (visits visited.old.items visited.new.items) (sought key.now es) (removal_if node.new g))
        (MayStop (lookup_in (sought key.now es) es)) }
    ensures led { IsTrue pages.old.steady → (given : List ℕ) → key.now ≡ Some given
        → IfOk result (λ g. Leads (Spells tree.now.order (at pages.old.pages)) given
        tree.now.height tree.now.page tree.now.bounds (record_gone (removal_if node.new g))) }
    ensures up { IfOk result
        (λ g. MayGoUp tree.now key.now (so_far edit.new) (removal_if node.new g)) }
    ensures absent { IfOk result (λ g. g ≡ None → edit.new ≡ edit.old) }
    ensures visits { OnOk result
        (VisitsBelow pages.old.pages (visits visited.old.items visited.new.items)
        (so_far edit.new) tree.now) }
    ensures edit { TakesNone tree.now.order edit.old result edit.new }
    ensures reading { Reads (2 * tree.now.height - 1) pages.old result pages.new }
{
    visit(pages, visited, tree, node)?;
    match place_to_take(node, tree.height, key) {
        Ok(i) => {
            let shrunk = delete_here(pages, edit, visited, tree, node, i)?;
            Ok(Some(shrunk))
        }
        Err(i) => {
            if tree.height == 1 {
                return Ok(None);
            }
            let below = tree_of_son(tree, node, i);
            let mut son = Node::blank();
            match delete_below(pages, edit, visited, &below, key, &mut son)? {
                Some(Shrunk::Underfull(removed)) => {
                    let left = tree_left(tree, key, &removed);
                    let shrunk = treat_and_settle(
                        pages, edit, visited, &left, node, i, removed, son,
                    )?;
                    Ok(Some(shrunk))
                }
                Some(Shrunk::Whole(removed)) => Ok(Some(Shrunk::Whole(removed))),
                None => Ok(None),
            }
        }
    }
}
