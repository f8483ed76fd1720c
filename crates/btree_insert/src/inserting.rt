ghost use Rattle.std.specs.Prelude.{◌≡◌, ◌+◌, ◌-◌, ◌<◌, ◌≤◌, ◌↔◌, ◌∷◌, ◌++◌, [], ℕ, List, None, true, false, IsTrue, IsSome, IfOk, IfSome, OnOk, length};
ghost use Rattle.page_store.specs.FreeNumbers.{candidate, count_after};
ghost use Rattle.page_store.specs.PageMap.{at};
ghost use Rattle.page_store.specs.PagesView.{OnlyStages};
ghost use Rattle.btree_node.specs.Lists.{Element};
ghost use Rattle.btree_node.specs.Spelling.{spelling, CanStand, IsElement};
ghost use Rattle.btree_insert.specs.Bounds.{unbounded};
ghost use Rattle.btree_insert.specs.Growth.{WritesFit, TakesNumbers, SplitGoesUp, Grew, replaced};
ghost use Rattle.btree_insert.specs.Inserted.{leaf_of, root_of, Inserted, GrowsTree, Inserts, IsSmall};
ghost use Rattle.btree_insert.specs.PageTrees.{Spells, Holds, tree_below};
ghost use Rattle.btree_insert.specs.Reached.{LeadsFrom};
ghost use Rattle.btree_insert.specs.Spelt.{AreSpeltIn, IsSpeltTree, IsTreeIn};
ghost use Rattle.btree_node.specs.Layout.{IsSmallOrder};
ghost use Rattle.btree_insert.specs.Sizes.{IsTree, greatest_size, greatest_height, IsPlanted, IsNext};
ghost use Rattle.btree_insert.specs.PagesGrown.{edited, taking};
ghost use Rattle.btree_insert.specs.Edits.{CanGrow, IsInUse, WritesAndTakes};

use crate::insert_below::{Grown, insert_below, write_node};
use crate::insert_in_one::{change_of, place_in_one};
use crate::step::root_spot;
use crate::tree::{GREATEST_COUNT, GREATEST_HEIGHT, GREATEST_PAGE_COUNT, Tree, TreeFault};
use arrayvec::ArrayVec;
use btree_node::{Node, NodeKind};
use page_store::{PageEdit, Pages, Store};
use rec_types::{KEY_WIDTH, Key, Memory, RECORD_WIDTH, Record};
use std::alloc::Global;

/// A tree after an insertion that is not in place yet.
#[derive(Clone, Copy)]
struct Changed {
    tree: Tree,
    /// What stood at the key.
    old: Option<Record>,
    /// The leaf that the insertion came to.
    leaf: u32,
}

/// Writes a node as a new page, and answers its number.
fn add_node<S: Store>(
    pages: &Pages<S>,
    edit: &mut PageEdit,
    order: u16,
    node: &Node,
) -> Result<u32, Memory>
    requires order { IsSmallOrder order }
    requires stands { CanStand node.now order }
    requires taken { edit.old.taken ≤ greatest_height + 1 }
    requires fits { WritesFit pages.now.pages edit.old.writes.items edit.old.taken }
    ensures number { IfOk result (λ n. n ≡ candidate pages.now.pages edit.old.taken) }
    ensures writes { IfOk result (λ n. edit.new.writes.items
        ≡ edit.old.writes.items ++ (n, spelling node.now order) ∷ []) }
    ensures taken { OnOk result (edit.new.taken ≡ edit.old.taken + 1) }
    ensures edit { WritesAndTakes order pages.now.pages edit.old result edit.new }
{
    let number = pages.candidate(edit.taken);
    write_node(edit, order, number, node)?;
    edit.taken += 1;
    Ok(number)
}

fn leaf_node(element: (Key, Record)) -> Node
    ensures { result ≡ leaf_of element }
{
    let mut elements = ArrayVec::new();
    elements.push(element);
    Node {
        kind: NodeKind::Leaf,
        elements,
        sons: ArrayVec::new(),
    }
}

fn root_node(left: u32, middle: (Key, Record), right: u32) -> Node
    ensures { result ≡ root_of left middle right }
{
    let mut elements = ArrayVec::new();
    elements.push(middle);
    let mut sons = ArrayVec::new();
    sons.push(left);
    sons.push(right);
    Node {
        kind: NodeKind::Inner,
        elements,
        sons,
    }
}

/// Whether a tree, and a page count after so many numbers were taken, are within their limits.
fn is_small<S: Store>(pages: &Pages<S>, tree: &Tree, taken: u32) -> bool
    requires { taken ≤ greatest_height + 1 }
    ensures { IsTrue result ↔ IsSmall tree.now (count_after pages.now.pages taken) }
{
    let count = pages.page_count() + taken.saturating_sub(pages.free_count());
    tree.height <= GREATEST_HEIGHT
        && tree.count <= GREATEST_COUNT
        && tree.used <= GREATEST_COUNT
        && count <= GREATEST_PAGE_COUNT
}

/// Puts the record at the key of a tree, and collects the pages to write. Where `in_place`, a page in
/// memory is searched where it lies.
fn grow_tree<S: Store>(
    pages: &mut Pages<S>,
    edit: &mut PageEdit,
    tree: &Tree,
    element: (Key, Record),
    in_place: bool,
) -> Result<Changed, TreeFault>
    requires { CanGrow in_place tree.now pages.old element edit.old }
    ensures { GrowsTree tree.now element pages.old edit.old result pages.new edit.new }
{
    if tree.height == 0 {
        return Ok(plant(pages, edit, tree, element)?);
    }
    grow_below(pages, edit, tree, element, in_place)
}

/// Puts the record at the key of a tree that has a root, level by level.
fn grow_below<S: Store>(
    pages: &mut Pages<S>,
    edit: &mut PageEdit,
    tree: &Tree,
    element: (Key, Record),
    in_place: bool,
) -> Result<Changed, TreeFault>
    requires height { 0 < tree.now.height }
    requires grow { CanGrow in_place tree.now pages.old element edit.old }
    ensures { GrowsTree tree.now element pages.old edit.old result pages.new edit.new }
{
    let mut visited = ArrayVec::new();
    let grown = insert_below(
        pages,
        edit,
        &mut visited,
        tree.order,
        &root_spot(tree),
        element,
        in_place,
    )?;
    let leaf = visited[visited.len() - 1];
    Ok(changed_tree(pages, edit, tree, grown, leaf)?)
}

/// The tree after an insertion below its root. Where the root was split, a new root stands above its
/// two parts.
fn changed_tree<S: Store>(
    pages: &Pages<S>,
    edit: &mut PageEdit,
    tree: &Tree,
    grown: Grown,
    leaf: u32,
) -> Result<Changed, Memory>
    requires tree { IsPlanted tree.now }
    requires in_use { IsInUse pages.now.pages tree.now.root }
    requires fits { WritesFit pages.now.pages edit.old.writes.items edit.old.taken }
    requires takes { TakesNumbers tree.now.height 0 edit.old.taken grown }
    requires goes_up { SplitGoesUp unbounded grown }
    ensures grew { (es : List Element) (us key value : List ℕ)
        → Holds (at pages.now.pages) tree.now es us
        → Grew (tree_below tree.now.order 1 tree.now.height tree.now.root)
        (edited pages.now.pages 0 edit.old) es us key value grown
        → IfOk result
        (λ changed. Inserted (edited pages.now.pages 0 edit.new) tree.now es us key value
        (changed.tree, changed.old)) }
    ensures old { IfOk result (λ changed. changed.old ≡ replaced grown) }
    ensures edit { WritesAndTakes tree.now.order pages.now.pages edit.old result edit.new }
    ensures few { OnOk result (edit.new.taken ≤ greatest_height + 1) }
    ensures next { IfOk result (λ changed. IsNext tree.now edit.new.taken changed.tree) }
{
    match grown {
        Grown::Replaced(old) => Ok(Changed {
            tree: *tree,
            old: Some(old),
            leaf,
        }),
        Grown::Fits => Ok(Changed {
            tree: grown_tree(tree, tree.root, tree.height, edit.taken),
            old: None,
            leaf,
        }),
        Grown::Split(middle, right) => {
            let root = add_node(
                pages,
                edit,
                tree.order,
                &root_node(tree.root, middle, right),
            )?;
            Ok(Changed {
                tree: grown_tree(tree, root, tree.height + 1, edit.taken),
                old: None,
                leaf,
            })
        }
    }
}

/// Makes the first page of an empty tree.
fn plant<S: Store>(
    pages: &Pages<S>,
    edit: &mut PageEdit,
    tree: &Tree,
    element: (Key, Record),
) -> Result<Changed, Memory>
    requires height { tree.now.height ≡ 0 }
    requires grow { CanGrow false tree.now pages.now element edit.old }
    ensures grew { (es : List Element) (us : List ℕ) → Holds (at pages.now.pages) tree.now es us
        → IfOk result
        (λ changed. Inserted (edited pages.now.pages 0 edit.new) tree.now es us
        element.0 element.1 (changed.tree, changed.old)) }
    ensures old { IfOk result (λ changed. changed.old ≡ None) }
    ensures edit { WritesAndTakes tree.now.order pages.now.pages edit.old result edit.new }
    ensures few { OnOk result (edit.new.taken ≤ greatest_height + 1) }
    ensures next { IfOk result (λ changed. IsNext tree.now edit.new.taken changed.tree) }
{
    let root = add_node(pages, edit, tree.order, &leaf_node(element))?;
    Ok(Changed {
        tree: grown_tree(tree, root, 1, edit.taken),
        old: None,
        leaf: root,
    })
}

/// The tree with one key more, and so many pages more.
fn grown_tree(tree: &Tree, root: u32, height: u32, taken: u32) -> Tree
    requires count { tree.now.count ≤ greatest_size }
    requires used { tree.now.used ≤ greatest_size }
    requires taken { taken ≤ greatest_height + 1 }
    ensures { result ≡ record {
      order = tree.now.order;
      root = root;
      height = height;
      count = tree.now.count + 1;
      used = tree.now.used + taken;
    } }
{
    Tree {
        order: tree.order,
        root,
        height,
        count: tree.count + 1,
        used: tree.used + taken,
    }
}

/// A key and its record, for which a page has room.
fn element_of(key: Key, value: Record) -> (Key, Record)
    ensures value { result ≡ (key, value) }
    ensures fits { IsElement result }
{
    prove!(key.bytes().len() <= KEY_WIDTH && value.bytes().len() <= RECORD_WIDTH);
    (key, value)
}

/// Puts the record at the key, and answers the new tree and the record that stood there. The
/// conditions are an order from 1 to 16, a height of at most 19, and a `count` and a `used` of at most
/// 1,000,000. It reads each page of the path to the key once. Faults: Device; Damaged with the page
/// that is not in use, spells no node of the order, is of a kind that does not fit its level, has a key
/// that is not strictly between the bounds from all levels above, or is visited twice; Damaged with the
/// leaf where the tree would pass 1,000,000 records, 1,000,001 pages or 19 levels; Memory. After a
/// fault no page has changed.
pub fn insert<S: Store>(
    alloc: Global,
    pages: &mut Pages<S>,
    tree: &Tree,
    key: Key,
    value: Record,
) -> Result<(Tree, Option<Record>), TreeFault>
    requires tree { IsTree tree.now }
    ensures { Inserts tree.now key value pages.old result pages.new }
{
    insert_from_root(alloc, pages, tree, key, value, false)
}

/// The same as `insert`, where each page in memory is known to spell a node of the order: it is searched
/// where it lies, and where that page changes alone it is changed there.
pub fn insert_in_place<S: Store>(
    alloc: Global,
    pages: &mut Pages<S>,
    tree: &Tree,
    key: Key,
    value: Record,
) -> Result<(Tree, Option<Record>), TreeFault>
    requires { IsSpeltTree tree.now pages.old }
    ensures { Inserts tree.now key value pages.old result pages.new }
{
    if let Some(done) = insert_where_it_lies(pages, tree, element_of(key, value)) {
        return Ok(done);
    }
    insert_from_root(alloc, pages, tree, key, value, true)
}

/// Puts the record at the key where that changes one page alone and all pages on the way are in memory:
/// the page is changed there, and no memory is asked for. None where it is not so, or where the tree might
/// pass a limit; no page has changed then.
fn insert_where_it_lies<S: Store>(
    pages: &mut Pages<S>,
    tree: &Tree,
    element: (Key, Record),
) -> Option<(Tree, Option<Record>)>
    requires tree { IsSpeltTree tree.now pages.old }
    requires element { IsElement element }
    ensures inserted { IsTrue pages.old.steady → (es : List Element) (us : List ℕ)
        → Holds (at pages.old.pages) tree.now es us
        → IfSome result (λ r. Inserted (taking pages.old.pages (at pages.new.pages) 0)
        tree.now es us element.0 element.1 r) }
    ensures led { IsTrue pages.old.steady → IfSome result (λ r. LeadsFrom
        (Spells tree.now.order (at pages.old.pages)) element.0 tree.now.height tree.now.root r.1) }
    ensures grown { IfSome result (λ r. IsSmall r.0 (length pages.new.pages)
        × (r.0.order ≡ tree.now.order)) }
    ensures page_count { IfSome result (λ r. (tree.now.used ≤ r.0.used)
        × (length pages.new.pages ≡ count_after pages.old.pages (r.0.used - tree.now.used))) }
    ensures changed { IsSome result → pages.new.changed ≡ true }
    ensures spelt { AreSpeltIn tree.now.order pages.new }
    ensures store { OnlyStages pages.old pages.new
        × (pages.new.failures ≡ pages.old.failures) × (pages.new.reads ≡ pages.old.reads) }
    ensures none { result ≡ None → pages.new ≡ pages.old }
{
    if tree.height == 0 {
        return None;
    }
    let grown = grown_tree(tree, tree.root, tree.height, 0);
    if !is_small(pages, &grown, 0) {
        return None;
    }
    let Some(placed) = place_in_one(pages, tree.order, &root_spot(tree), &element) else {
        return None;
    };
    if pages.in_memory(placed.page).is_none() {
        return None;
    }
    pages.change(tree.order, placed.page, &change_of(&placed, element));
    match placed.old {
        Some(old) => Some((*tree, Some(old))),
        None => Some((grown, None)),
    }
}

/// Puts the record at the key, and answers the new tree and the record that stood there. Where
/// `in_place`, a page in memory is searched where it lies.
fn insert_from_root<S: Store>(
    alloc: Global,
    pages: &mut Pages<S>,
    tree: &Tree,
    key: Key,
    value: Record,
    in_place: bool,
) -> Result<(Tree, Option<Record>), TreeFault>
    requires { IsTreeIn in_place tree.now pages.old }
    ensures { Inserts tree.now key value pages.old result pages.new }
{
    let mut edit = PageEdit {
        writes: Vec::new(alloc),
        taken: 0,
        freed: Vec::new(alloc),
    };
    let changed = grow_tree(pages, &mut edit, tree, element_of(key, value), in_place)?;
    if !is_small(pages, &changed.tree, edit.taken) {
        return Err(TreeFault::Damaged(changed.leaf));
    }
    pages.stage(edit)?;
    Ok((changed.tree, changed.old))
}
