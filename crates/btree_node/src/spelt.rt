ghost use Rattle.std.specs.Prelude.{◌≡◌, ◌+◌, ◌-◌, ◌*◌, ◌<◌, ◌≤◌, ℕ, length, MatchResult, slice_index_or, take};
ghost use Rattle.btree_node.specs.Lists.{Element, Each, Below, IsAt, IsPlace};
ghost use Rattle.btree_node.specs.Reading.{count_at};
ghost use Rattle.btree_node.specs.Spelling.{spelling, CanStand, IsNodePage};
ghost use Rattle.btree_node.specs.declared.node.Node.{Node};
ghost use Rattle.btree_node.specs.Layout.{greatest_order, second_layout, CanHoldSons};

use crate::decoding::{count_of, is_below, kind_of, place_of_page};
use crate::layout::{RECORD_AT, SECOND_LAYOUT, SON_WIDTH};
use crate::node::NodeKind;
use crate::part::u32_of;
use crate::read_first::{a_hundred, sixteen};
use rec_types::{Key, PAGE_WIDTH, Record};
use std::cmp::Ordering;

/// The kind of the node that the page spells.
pub fn kind_in(page: &[u8; PAGE_WIDTH]) -> NodeKind
    ensures { (k : ℕ) (node : Node) → k ≤ greatest_order → CanStand node k
        → page.now ≡ spelling node k → result ≡ node.kind }
{
    kind_of(page).unwrap_or(NodeKind::Leaf)
}

/// How many keys the node has that the page spells.
pub fn count_in(page: &[u8; PAGE_WIDTH]) -> usize
    ensures value { result ≡ count_at page.now }
    ensures node { (k : ℕ) (node : Node) → k ≤ greatest_order → CanStand node k
        → page.now ≡ spelling node k → result ≡ length node.elements.items }
{
    count_of(page)
}

/// Key i of the node that the page spells, in a tree of order `k`.
pub fn key_in(page: &[u8; PAGE_WIDTH], k: u16, i: usize) -> Key
    requires page { IsNodePage k page.now }
    requires index { i < count_at page.now }
    ensures { (node : Node) (other : Element) → CanStand node k → page.now ≡ spelling node k
        → result ≡ (slice_index_or node.elements.items i other).0 }
{
    let place = place_of_page(SECOND_LAYOUT, page, i);
    Key::in_field(&sixteen(place, 1), place[0]).unwrap()
}

/// Record i of the node that the page spells, in a tree of order `k`.
pub fn record_in(page: &[u8; PAGE_WIDTH], k: u16, i: usize) -> Record
    requires page { IsNodePage k page.now }
    requires index { i < count_at page.now }
    ensures { (node : Node) (other : Element) → CanStand node k → page.now ≡ spelling node k
        → result ≡ (slice_index_or node.elements.items i other).1 }
{
    let place = place_of_page(SECOND_LAYOUT, page, i);
    Record::in_field(&a_hundred(place, RECORD_AT + 1), place[RECORD_AT]).unwrap()
}

/// Son j of the node that the page spells, in a tree of order `k`, where j is at most its number of
/// keys. The node is no leaf.
pub fn son_in(page: &[u8; PAGE_WIDTH], k: u16, j: usize) -> u32
    requires { CanHoldSons second_layout k (j + 1) }
    ensures { (node : Node) (other : ℕ) → CanStand node k → page.now ≡ spelling node k
        → j < length node.sons.items → result ≡ slice_index_or node.sons.items j other }
{
    u32_of(page, SECOND_LAYOUT.sons_start(k) + SON_WIDTH * j)
}

/// The place of the key among the keys of the node that the page spells, in a tree of order `k`, and
/// else the number of smaller keys there: the same as `place_of` of the node.
pub fn place_in(page: &[u8; PAGE_WIDTH], k: u16, key: &Key) -> Result<usize, usize>
    requires { IsNodePage k page.now }
    ensures within { MatchResult result (λ i. i < count_at page.now) (λ i. i ≤ count_at page.now) }
    ensures found { (node : Node) → CanStand node k → page.now ≡ spelling node k
        → MatchResult result (IsAt node.elements.items key.now)
        (IsPlace node.elements.items key.now) }
{
    let count = count_in(page);
    let mut at = fours_below(page, k, key);
    while at < count {
        match key_in(page, k, at).cmp(key) {
            Ordering::Less => at += 1,
            Ordering::Equal => return Ok(at),
            Ordering::Greater => return Err(at),
        }
    }
    Err(at)
}

/// How many keys from the first on, in fours, are smaller. Steps of equal width let the processor read
/// ahead of what it compares.
fn fours_below(page: &[u8; PAGE_WIDTH], k: u16, key: &Key) -> usize
    requires { IsNodePage k page.now }
    ensures within { result ≤ count_at page.now }
    ensures below { (node : Node) → CanStand node k → page.now ≡ spelling node k
        → Each (λ e. Below e.0 key.now) (take result node.elements.items) }
{
    let count = count_in(page);
    let mut at = 0;
    while at + 3 < count && is_below(&key_in(page, k, at + 3), key) {
        at += 4;
    }
    at
}
