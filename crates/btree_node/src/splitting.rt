ghost use Rattle.std.specs.Prelude.{◌≡◌, ◌+◌, ◌*◌, ◌≤◌, length, drop, slice_index_or};
ghost use Rattle.btree_node.specs.Cut.{SonsCount, left_of, right_of};
ghost use Rattle.btree_node.specs.Lists.{Element};

use crate::node::Node;
use arrayvec::ArrayVec;
use rec_types::{Key, Record};

/// Cuts a node that has one key more than a page of order `k` holds: the first `k` elements stay, the
/// last `k` go to a right node, and the one between them is for the father. The first `k + 1` sons
/// stay, the others go to the right node. Answers the left node, the middle element, the right node.
pub fn split(mut node: Node, k: u16) -> (Node, (Key, Record), Node)
    requires full { length node.elements.items ≡ 2 * k + 1 }
    requires sons { SonsCount node.kind (2 * k + 1) node.sons.items }
    ensures left { result.0 ≡ left_of k node }
    ensures middle { (d : Element) → result.1 ≡ slice_index_or node.elements.items k d }
    ensures right { result.2 ≡ right_of k node }
{
    let k = k as usize;
    let middle = node.elements[k];
    let right = Node {
        kind: node.kind,
        elements: items_from(node.elements.as_slice(), k + 1),
        sons: items_from(node.sons.as_slice(), k + 1),
    };
    node.elements.truncate(k);
    node.sons.truncate(k + 1);
    (node, middle, right)
}

/// The items from a place on, none where there are fewer.
#[tactic(auto, using(std::proofs::lemmas::List::drop_min))]
pub fn items_from<T: Copy + Default, const N: usize>(items: &[T], from: usize) -> ArrayVec<T, N>
    requires { length items.now ≤ N }
    ensures { result.items ≡ drop from items.now }
{
    let mut rest = ArrayVec::new();
    rest.try_extend_from_slice(&items[from.min(items.len())..])
        .unwrap();
    rest
}
