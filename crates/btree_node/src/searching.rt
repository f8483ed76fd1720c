ghost use Rattle.std.specs.Prelude.{◌<◌, ◌≤◌, length, MatchResult};
ghost use Rattle.btree_node.specs.Lists.{Ascends, IsAt, IsPlace};

use crate::node::Node;
use rec_types::{Key, Record};
use std::cmp::Ordering;

/// The place of the key among the elements of the node, and else the number of smaller keys there.
pub fn place_of(node: &Node, key: &Key) -> Result<usize, usize>
    ensures within { MatchResult result (λ i. i < length node.now.elements.items)
        (λ i. i ≤ length node.now.elements.items) }
    ensures found { Ascends node.now.elements.items
        → MatchResult result (IsAt node.now.elements.items key.now)
        (IsPlace node.now.elements.items key.now) }
{
    place_among(node.elements.as_slice(), key)
}

fn place_among(elements: &[(Key, Record)], key: &Key) -> Result<usize, usize>
    ensures within { MatchResult result (λ i. i < length elements.now)
        (λ i. i ≤ length elements.now) }
    ensures found { Ascends elements.now
        → MatchResult result (IsAt elements.now key.now) (IsPlace elements.now key.now) }
{
    let mut low = 0;
    let mut high = elements.len();
    while low < high {
        let middle = low + (high - low) / 2;
        match elements[middle].0.cmp(key) {
            Ordering::Less => low = middle + 1,
            Ordering::Equal => return Ok(middle),
            Ordering::Greater => high = middle,
        }
    }
    Err(low)
}
