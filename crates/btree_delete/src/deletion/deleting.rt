ghost use Rattle.std.specs.Prelude.{◌≡◌, ◌-◌, ◌<◌, ◌≤◌, ◌⊎◌, ℕ, List, Option, Some, None, true, false, IsTrue, IsSome, IfOk, IfSome, IfErr, OnOk, MatchResult, length};
ghost use Rattle.page_store.specs.PageMap.{PageMap, at, after};
ghost use Rattle.btree_node.specs.Lists.{Element};
ghost use Rattle.btree_insert.specs.Bounds.{unbounded};
ghost use Rattle.btree_insert.specs.Faults.{is_tree_device};
ghost use Rattle.btree_insert.specs.Growth.{IsNotOfPages};
ghost use Rattle.btree_insert.specs.PageTrees.{Holds, Spells};
ghost use Rattle.btree_insert.specs.Reached.{LeadsFrom};
ghost use Rattle.btree_insert.specs.Spelt.{AreSpeltIn};
ghost use Rattle.btree_insert.specs.Contents.{lookup_in, set_in};
ghost use Rattle.page_store.specs.CanStage.{CanStage};
ghost use Rattle.page_store.specs.PagesView.{OnlyStages};
ghost use Rattle.btree_delete.specs.Deleted.{Deleted, Deletes, IsNoLarger};
ghost use Rattle.btree_delete.specs.Treatment.{son_number};
ghost use Rattle.btree_delete.specs.Shrinking.{MayBeUnderfull, UnderfullGoesUp, LeavesTree, ShrinksRoot, gone, removal};
ghost use Rattle.btree_insert.specs.declared.bounds.Bounds.{Bounds};
ghost use Rattle.btree_delete.specs.Tidy.{is_visited, IsTidy};
ghost use Rattle.btree_delete.specs.Subtrees.{head_page};
ghost use Rattle.btree_delete.specs.PagesLeft.{with_edit};
ghost use Rattle.btree_node.specs.Layout.{IsOrder};
ghost use Rattle.btree_insert.specs.Sizes.{IsTree};
ghost use Rattle.btree_delete.specs.Edits.{TakesNone};

use crate::deletion::delete_below::{Shrunk, delete_below};
use crate::deletion::delete_in_one::find_in_one;
use crate::deletion::subtree::Subtree;
use crate::deletion::underflow::free_page;
use arrayvec::ArrayVec;
use btree_insert::{Tree, TreeFault, UNBOUNDED, root_spot, write_node};
use btree_node::{Node, PageChange};
use page_store::{PageEdit, Pages, Store};
use rec_types::{Key, Memory, Record};
use std::alloc::Global;

/// Son 0 of a node, 0 where it is a leaf.
fn first_son(node: &Node) -> u32
    ensures { result ≡ son_number node.now 0 }
{
    if node.sons.is_empty() {
        0
    } else {
        node.sons[0]
    }
}

/// The tree with one key less, and with so many pages less. Fault: Damaged with the page, where the
/// tree says that it has no key, or fewer pages.
fn fewer(tree: &Tree, page: u32, freed: usize) -> Result<Tree, TreeFault>
    ensures value { IfOk result (λ next. next
        ≡ record tree.now { count = tree.now.count - 1; used = tree.now.used - freed }) }
    ensures enough { OnOk result ((1 ≤ tree.now.count) × (freed ≤ tree.now.used)) }
    ensures fault { IfErr result (λ fault. (fault ≡ TreeFault.Damaged page)
        × ((tree.now.count ≡ 0) ⊎ (tree.now.used < freed))) }
{
    if tree.count == 0 || (tree.used as usize) < freed {
        return Err(TreeFault::Damaged(page));
    }
    Ok(Tree {
        count: tree.count - 1,
        used: tree.used - freed as u32,
        ..*tree
    })
}

/// Writes the underfull node of the root. A root without a key is freed: its one son is the root, or the
/// tree is empty.
fn shrink_root(edit: &mut PageEdit, tree: &Tree, node: &Node) -> Result<Tree, Memory>
    requires order { IsOrder tree.now.order }
    requires height { 0 < tree.now.height }
    requires may_be_underfull { (height : ℕ) × (bounds : Bounds)
        × MayBeUnderfull tree.now.order height bounds node.now }
    ensures shrinks { IfOk result (λ next. ShrinksRoot tree.now next node.now
        edit.old.writes.items edit.new.writes.items edit.old.freed.items edit.new.freed.items) }
    ensures edit { TakesNone tree.now.order edit.old result edit.new }
{
    if node.elements.is_empty() {
        free_page(edit, tree.root)?;
        return Ok(Tree {
            root: first_son(node),
            height: tree.height - 1,
            ..*tree
        });
    }
    write_node(edit, tree.order, tree.root, node)?;
    Ok(*tree)
}

/// The tree and what stood at the key, after an element was taken out below the root, whose node is given where it is
/// underfull. Faults: Memory; Damaged with the root where the tree says that it has no key, or fewer pages than are
/// freed.
fn shrink_tree(
    edit: &mut PageEdit,
    tree: &Tree,
    shrunk: Shrunk,
    node: &Node,
) -> Result<(Tree, Option<Record>), TreeFault>
    requires order { IsOrder tree.now.order }
    requires height { 0 < tree.now.height }
    requires up { UnderfullGoesUp tree.now.order tree.now.height unbounded tree.now.root
        edit.old.writes.items edit.old.freed.items (removal node.now shrunk) }
    requires none_taken { edit.old.taken ≡ 0 }
    ensures deleted { (pages : PageMap) (es : List Element) (us key : List ℕ)
        → Holds pages tree.now es us → lookup_in key es ≡ Some (gone (removal node.now shrunk)).1
        → LeavesTree (head_page tree.now.order 1 (tree.now.height - 1) tree.now.root)
        (with_edit pages edit.old) us (set_in key None es) (removal node.now shrunk)
        → MatchResult result
        (λ r. Deleted pages (after pages edit.new.writes.items edit.new.freed.items)
        tree.now es us key r)
        IsNotOfPages }
    ensures fits { (pages : List (Option (List ℕ))) (visited : List ℕ)
        → IsSome (at pages tree.now.root) → is_visited visited tree.now.root ≡ true
        → IsTidy pages visited edit.old.writes.items edit.old.freed.items
        → OnOk result (CanStage pages edit.new.writes.items edit.new.taken edit.new.freed.items) }
    ensures edit { TakesNone tree.now.order edit.old result edit.new }
    ensures answer { IfOk result (λ r. r.1 ≡ Some (gone (removal node.now shrunk)).1) }
    ensures smaller { IfOk result (λ r. IsNoLarger tree.now r.0) }
    ensures no_device { is_tree_device result ≡ false }
{
    match shrunk {
        Shrunk::Whole(removed) => {
            let next = fewer(tree, tree.root, edit.freed.len())?;
            Ok((next, Some(removed.1)))
        }
        Shrunk::Underfull(removed) => {
            let shrunk = shrink_root(edit, tree, node)?;
            let next = fewer(&shrunk, tree.root, edit.freed.len())?;
            Ok((next, Some(removed.1)))
        }
    }
}

/// Takes the key out, and answers the new tree and the record that stood there; an absent key answers
/// `None`, and nothing changes. The conditions are an order from 1 to 16, a height of at most 19, and
/// a `count` and a `used` of at most 1,000,000. It reads each page of the path to the key once, and
/// one brother at most of each page below the root. Faults: Device; Damaged with the page that is not
/// in use, spells no node of the order, is of a kind that does not fit its level, has a key that is not
/// strictly between the bounds from all levels above, or is visited twice; Damaged with the root where
/// `count` or `used` would pass 0; Memory, where the key is there. After a fault no page has changed.
pub fn delete<S: Store>(
    alloc: Global,
    pages: &mut Pages<S>,
    tree: &Tree,
    key: &Key,
) -> Result<(Tree, Option<Record>), TreeFault>
    requires tree { IsTree tree.now }
    ensures { Deletes tree.now key.now pages.old result pages.new }
{
    if tree.height == 0 {
        return Ok((*tree, None));
    }
    let mut edit = PageEdit {
        writes: Vec::new(alloc),
        taken: 0,
        freed: Vec::new(alloc),
    };
    let whole = Subtree {
        order: tree.order,
        height: tree.height,
        page: tree.root,
        bounds: UNBOUNDED,
    };
    let mut visited = ArrayVec::new();
    let mut node = Node::blank();
    let shrunk = delete_below(
        pages,
        &mut edit,
        &mut visited,
        &whole,
        &Some(*key),
        &mut node,
    )?;
    let Some(shrunk) = shrunk else {
        return Ok((*tree, None));
    };
    let shrunk = shrink_tree(&mut edit, tree, shrunk, &node)?;
    pages.stage(edit)?;
    Ok(shrunk)
}

/// Takes the key out of a tree where that changes one page alone and all pages on the way are in memory: the page is
/// changed where it lies, and no memory is asked for. None where it is not so, or where the tree says that it has no
/// key; no page has changed then.
fn delete_where_it_lies<S: Store>(
    pages: &mut Pages<S>,
    tree: &Tree,
    key: &Key,
) -> Option<(Tree, Option<Record>)>
    requires tree { IsTree tree.now }
    requires spelt { AreSpeltIn tree.now.order pages.old }
    ensures deleted { IsTrue pages.old.steady → (es : List Element) (us : List ℕ)
        → Holds (at pages.old.pages) tree.now es us → IfSome result
        (λ r. Deleted (at pages.old.pages) (at pages.new.pages) tree.now es us key.now r) }
    ensures led { IsTrue pages.old.steady → IfSome result
        (λ r. LeadsFrom (Spells tree.now.order (at pages.old.pages)) key.now
        tree.now.height tree.now.root r.1) }
    ensures smaller { IfSome result (λ r. IsNoLarger tree.now r.0 × IsSome r.1) }
    ensures spelt { AreSpeltIn tree.now.order pages.new }
    ensures changed { IsSome result → pages.new.changed ≡ true }
    ensures page_count { length pages.new.pages ≡ length pages.old.pages }
    ensures store { OnlyStages pages.old pages.new
        × (pages.new.failures ≡ pages.old.failures) × (pages.new.reads ≡ pages.old.reads) }
    ensures none { result ≡ None → pages.new ≡ pages.old }
{
    if tree.height == 0 {
        return None;
    }
    let Ok(next) = fewer(tree, tree.root, 0) else {
        return None;
    };
    let Some(taken) = find_in_one(pages, tree.order, &root_spot(tree), key) else {
        return None;
    };
    if pages.in_memory(taken.page).is_none() {
        return None;
    }
    pages.change(tree.order, taken.page, &PageChange::Remove(taken.place));
    Some((next, Some(taken.old)))
}

/// The same as `delete`, where each page in memory is known to spell a node of the order: where the key stands in a
/// leaf with a key to spare, that leaf is changed where it lies.
pub fn delete_in_place<S: Store>(
    alloc: Global,
    pages: &mut Pages<S>,
    tree: &Tree,
    key: &Key,
) -> Result<(Tree, Option<Record>), TreeFault>
    requires tree { IsTree tree.now }
    requires spelt { AreSpeltIn tree.now.order pages.old }
    ensures { Deletes tree.now key.now pages.old result pages.new }
{
    if let Some(done) = delete_where_it_lies(pages, tree, key) {
        return Ok(done);
    }
    delete(alloc, pages, tree, key)
}
