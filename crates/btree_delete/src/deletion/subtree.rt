ghost use Rattle.std.specs.Prelude.{◌≡◌, ◌<◌, ◌≤◌, length};
ghost use Rattle.btree_delete.specs.Subtrees.{son_tree, left_bounds};

use btree_insert::{Bounds, bounds_of_son};
use btree_node::Node;
use rec_types::{Key, Record};

/// What a walk knows of the tree below a page before it reads the page: the order, how many levels it
/// has, the page's number, and the bounds of its keys.
#[derive(Clone, Copy)]
pub(crate) struct Subtree {
    pub order: u16,
    pub height: u32,
    pub page: u32,
    pub bounds: Bounds,
}

/// The tree below son i of a node.
pub(crate) fn tree_of_son(tree: &Subtree, node: &Node, i: usize) -> Subtree
    requires height { 0 < tree.now.height }
    requires place { i ≤ length node.now.elements.items }
    requires son { i < length node.now.sons.items }
    ensures { result ≡ son_tree tree.now node.now i }
{
    Subtree {
        order: tree.order,
        height: tree.height - 1,
        page: node.sons[i],
        bounds: bounds_of_son(&tree.bounds, node.elements.as_slice(), i),
    }
}

/// The tree with the bounds of what is left in it once an element was taken, the first one where no
/// key was given.
pub(crate) fn tree_left(tree: &Subtree, key: &Option<Key>, removed: &(Key, Record)) -> Subtree
    ensures { result
        ≡ record tree.now { bounds = left_bounds key.now removed.now tree.now.bounds } }
{
    let mut left = *tree;
    if key.is_none() {
        left.bounds.low = Some(removed.0);
    }
    left
}
