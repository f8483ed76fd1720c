ghost use Rattle.std.specs.Prelude.{◌≡◌, ℕ, ◌+◌, ◌-◌, ◌*◌, ◌<◌, ◌≤◌, List, [], ◌∷◌, ◌++◌, IsTrue, length, drop};
ghost use Rattle.btree_node.specs.Layout.{second_layout, place_width, place_start, sons_start, IsKeyCount, CanHoldOrder, CanHoldSons};
ghost use Rattle.btree_node.specs.Lists.{Ascends};
ghost use Rattle.btree_node.specs.Reading.{part, place_at, elements_at, sons_of_kind, node_at, IsZero, IsGoodPlace, Passes, PassesBefore};
ghost use Rattle.btree_node.specs.declared.node.NodeFault.TheVariants.{NotZero};

use crate::decoding::{
    count_fits, count_of, is_below, kind_of, place_of_page, push_sons, sons_stand,
};
use crate::layout::{RECORD_AT, SECOND_LAYOUT, SON_WIDTH};
use crate::node::{ELEMENT_ROOM, Node, NodeKind, SON_ROOM};
use crate::part::part_of;
use arrayvec::ArrayVec;
use rec_types::{Key, PAGE_WIDTH, Record};

/// Whether the page of the second file version passes every test; the node is then what it spells. It
/// looks at each byte once, and tells no fault: where it answers false, the tests one by one tell which.
/// Its widths are constants, so that fields are copied by moves.
#[tactic(auto, unfolding(crate::specs::Reading::node_at))]
pub(crate) fn read_first(page: &[u8; PAGE_WIDTH], k: u16, node: &mut Node) -> bool
    requires { CanHoldOrder second_layout k }
    ensures before { IsTrue result → PassesBefore second_layout k page.now NotZero }
    ensures padding { IsTrue result → Passes second_layout k page.now NotZero }
    ensures value { IsTrue result → node.new ≡ node_at second_layout k page.now }
{
    let Some(kind) = kind_of(page) else {
        return false;
    };
    let count = count_of(page);
    if !count_fits(count, k) {
        return false;
    }
    if !head_is_zero(page) {
        return false;
    }
    if !fill_elements(page, count, &mut node.elements) {
        return false;
    }
    fill_sons(page, k, kind, count, &mut node.sons);
    node.kind = kind;
    sons_stand(node.sons.as_slice()) && rest_is_zero(page, k, count, node.sons.len())
}

/// Fills the elements with those of the first places, and answers whether each place is good and the
/// keys ascend.
#[tactic(auto, unfolding(crate::specs::Reading::elements_at))]
fn fill_elements(
    page: &[u8; PAGE_WIDTH],
    count: usize,
    elements: &mut ArrayVec<(Key, Record), ELEMENT_ROOM>,
) -> bool
    requires { IsKeyCount count }
    ensures items { IsTrue result → elements.new.items ≡ elements_at second_layout page.now count }
    ensures ascends { IsTrue result → Ascends elements.new.items }
    ensures good { IsTrue result
        → (i : ℕ) → i < count → IsGoodPlace (place_at second_layout page.now i) }
{
    elements.clear();
    for i in 0..count {
        let place = place_of_page(SECOND_LAYOUT, page, i);
        let Some(key) = Key::in_field(&sixteen(place, 1), place[0]) else {
            return false;
        };
        let Some(value) = Record::in_field(&a_hundred(place, RECORD_AT + 1), place[RECORD_AT])
        else {
            return false;
        };
        if !may_follow(elements.as_slice(), &key) {
            return false;
        }
        elements.push((key, value));
    }
    true
}

/// Whether the key may stand behind ascending elements.
#[tactic(auto, using(crate::proofs::ElementOrderLemmas::ascends_first))]
fn may_follow(elements: &[(Key, Record)], key: &Key) -> bool
    requires { Ascends elements.now }
    ensures { IsTrue result → (value : List ℕ)
        → Ascends (elements.now ++ (key.now, value) ∷ []) }
{
    let len = elements.len();
    len == 0 || is_below(&elements[len - 1].0, key)
}

/// A copy of the sixteen bytes from a place on.
pub(crate) fn sixteen(bytes: &[u8], at: usize) -> [u8; 16]
    requires { at + 16 ≤ length bytes.now }
    ensures { result ≡ part at 16 bytes.now }
{
    let mut copy = [0; 16];
    copy.copy_from_slice(part_of(bytes, at, 16));
    copy
}

/// A copy of the hundred bytes from a place on.
pub(crate) fn a_hundred(bytes: &[u8], at: usize) -> [u8; 100]
    requires { at + 100 ≤ length bytes.now }
    ensures { result ≡ part at 100 bytes.now }
{
    let mut copy = [0; 100];
    copy.copy_from_slice(part_of(bytes, at, 100));
    copy
}

fn fill_sons(
    page: &[u8; PAGE_WIDTH],
    k: u16,
    kind: NodeKind,
    count: usize,
    sons: &mut ArrayVec<u32, SON_ROOM>,
)
    requires { CanHoldSons second_layout k (count + 1) }
    ensures { sons.new.items ≡ sons_of_kind kind second_layout k page.now count }
{
    sons.clear();
    match kind {
        NodeKind::Leaf => {}
        NodeKind::Inner => push_sons(SECOND_LAYOUT, page, k, count + 1, sons),
    }
}

/// Whether the bytes of the head that belong to no field are zero.
pub(crate) fn head_is_zero(page: &[u8; PAGE_WIDTH]) -> bool
    ensures second { IsTrue result → IsZero (part 1 1 page.now) }
    ensures head { IsTrue result → IsZero (part 4 4 page.now) }
{
    is_zero(part_of(page, 1, 1)) && is_zero(part_of(page, 4, 4))
}

/// Whether the places behind `count` places and the bytes behind `sons` sons are zero.
pub(crate) fn rest_is_zero(page: &[u8; PAGE_WIDTH], k: u16, count: usize, sons: usize) -> bool
    requires room { CanHoldSons second_layout k sons }
    requires count { count ≤ 2 * k }
    ensures places { IsTrue result → IsZero (part (place_start second_layout count)
        (place_width second_layout * (2 * k - count)) page.now) }
    ensures rest { IsTrue result
        → IsZero (drop (sons_start second_layout k + 4 * sons) page.now) }
{
    let places = SECOND_LAYOUT.place_start(count);
    let start = SECOND_LAYOUT.sons_start(k);
    let end = start + SON_WIDTH * sons;
    is_zero(part_of(page, places, start - places)) && is_zero(part_of(page, end, PAGE_WIDTH - end))
}

/// Whether each byte is zero. It looks at all of them, which takes less time than to stop at the first
/// that isn't.
fn is_zero(bytes: &[u8]) -> bool
    ensures { IsTrue result → IsZero bytes.now }
{
    let mut any = 0;
    for byte in bytes {
        any = any | *byte;
    }
    any == 0
}
