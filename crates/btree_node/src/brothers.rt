ghost use Rattle.std.specs.Prelude.{◌≡◌, ◌+◌, ◌*◌, ◌<◌, ◌≤◌, ◌++◌, length, take, drop, slice_index_or};
ghost use Rattle.btree_node.specs.Cut.{left_of, right_of};
ghost use Rattle.btree_node.specs.Joined.{joined, keys_of_both, half_of_both, AreBrothers};
ghost use Rattle.btree_node.specs.Lists.{Element, Each};
ghost use Rattle.btree_node.specs.Spelling.{IsElement, CanStand};
ghost use Rattle.btree_node.specs.Layout.{IsOrder};

use crate::node::Node;
use crate::splitting::items_from;
use arrayvec::ArrayVec;
use rec_types::{Key, Record};

/// Makes one node of two brothers: the keys of the left one, the father's element between them, the
/// keys of the right one, and the sons of both in order. The conditions are an order from 1 to 16,
/// brothers of one kind with the sons that fit it, keys that ascend in that order, and fewer than
/// `2k` keys in the two nodes together. The node that it answers fits a page.
pub fn catenate(mut left: Node, middle: (Key, Record), right: Node, k: u16) -> Node
    requires order { IsOrder k }
    requires brothers { AreBrothers left middle right }
    requires few { keys_of_both left right < 2 * k }
    ensures joined { result ≡ joined left middle right }
    ensures stands { Each (IsElement) (joined left middle right).elements.items
        → CanStand result k }
{
    left.elements.push(middle);
    left.elements
        .try_extend_from_slice(right.elements.as_slice())
        .unwrap();
    left.sons
        .try_extend_from_slice(right.sons.as_slice())
        .unwrap();
    left
}

/// Levels two brothers with the father's element between them. Of the keys in order the left node
/// gets half of those in the two nodes, rounded down, the next one is for the father, and the right
/// node gets the rest. Sons follow their keys. The conditions are an order from 1 to 16, brothers
/// of one kind with the sons that fit it, keys that ascend in that order, at most `2k` keys in each
/// node and at least `2k` in the two together. Answers the left node, the father's element, the
/// right node. Both nodes fit a page and have at least `k` keys.
pub fn distribute(
    mut left: Node,
    middle: (Key, Record),
    mut right: Node,
    k: u16,
) -> (Node, (Key, Record), Node)
    requires order { IsOrder k }
    requires brothers { AreBrothers left middle right }
    requires left_most { length left.elements.items ≤ 2 * k }
    requires right_most { length right.elements.items ≤ 2 * k }
    requires many { 2 * k ≤ keys_of_both left right }
    ensures left { result.0 ≡ left_of (half_of_both left right) (joined left middle right) }
    ensures middle { (d : Element) → result.1
        ≡ slice_index_or (joined left middle right).elements.items (half_of_both left right) d }
    ensures right { result.2 ≡ right_of (half_of_both left right) (joined left middle right) }

    // Nothing is lost.
    ensures whole { joined result.0 result.1 result.2 ≡ joined left middle right }

    // What the pages of order k hold.
    ensures left_least { k ≤ length result.0.elements.items }
    ensures right_least { k ≤ length result.2.elements.items }
    ensures stand { Each (IsElement) (joined left middle right).elements.items
        → CanStand result.0 k × CanStand result.2 k }
{
    let cut = (left.elements.len() + right.elements.len()) / 2;
    left.elements.push(middle);
    level(&mut left.elements, &mut right.elements, cut + 1);
    level(&mut left.sons, &mut right.sons, cut + 1);
    let up = left.elements[cut];
    left.elements.truncate(cut);
    (left, up, right)
}

/// Moves the last of the left to the right, or the first of the right to the left, so that the left
/// has `count`, or all where there are fewer.
#[tactic(auto, using(crate::proofs::DistributeLemmas::filled, crate::proofs::DistributeLemmas::left_over))]
fn level<T: Copy + Default, const N: usize>(
    left: &mut ArrayVec<T, N>,
    right: &mut ArrayVec<T, N>,
    count: usize,
)
    requires left_room { count ≤ N }
    requires right_room { length left.old.items + length right.old.items ≤ N + count }
    ensures left { left.new.items ≡ take count (left.old.items ++ right.old.items) }
    ensures right { right.new.items ≡ drop count (left.old.items ++ right.old.items) }
{
    if left.len() > count {
        let mut rest = items_from(left.as_slice(), count);
        rest.try_extend_from_slice(right.as_slice()).unwrap();
        left.truncate(count);
        *right = rest;
    } else {
        let moved = (count - left.len()).min(right.len());
        left.try_extend_from_slice(&right.as_slice()[..moved])
            .unwrap();
        *right = items_from(right.as_slice(), moved);
    }
}
