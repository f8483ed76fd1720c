ghost use Rattle.std.specs.Prelude.{◌≡◌, ℕ, ◌+◌, ◌<◌, ◌≤◌, ◌↔◌, List, IsTrue};
ghost use Rattle.std.specs.List.{All};
ghost use Rattle.btree_node.specs.Layout.{second_layout, IsKeyCount, IsSmallOrder, CanHoldOrder, CanHoldSons};
ghost use Rattle.btree_node.specs.Lists.{Ascends};
ghost use Rattle.btree_node.specs.Reading.{place_at, elements_at, sons_at, sons_of_kind, IsGoodPlace, Passes, PassesBefore};
ghost use Rattle.btree_node.specs.Spelling.{IsSpelt};
ghost use Rattle.btree_node.specs.declared.node.NodeFault.TheVariants.{NotZero};

use crate::decoding::{count_fits, count_of, decode, is_below, kind_of, place_of_page};
use crate::layout::{RECORD_AT, SECOND_LAYOUT, SON_WIDTH};
use crate::node::NodeKind;
use crate::part::u32_of;
use crate::read_first::{a_hundred, head_is_zero, rest_is_zero, sixteen};
use rec_types::{Key, PAGE_WIDTH, Record};

/// Whether the page spells a node, in a tree of order `k`: whether `decode` finds one. None is made.
pub fn is_node_page(page: &[u8; PAGE_WIDTH], k: u16) -> bool
    requires { IsSmallOrder k }
    ensures { IsTrue result ↔ IsSpelt k page.now }
{
    passes_first(page, k) || is_decoded(page, k)
}

/// The same by the tests one by one, which a page that spells a node doesn't come to.
#[cold]
#[inline(never)]
fn is_decoded(page: &[u8; PAGE_WIDTH], k: u16) -> bool
    requires { IsSmallOrder k }
    ensures { IsTrue result ↔ IsSpelt k page.now }
{
    match decode(page, k) {
        Ok(_) => true,
        Err(_) => false,
    }
}

/// Whether the page passes every test. It looks at each byte once, as `read_first`.
fn passes_first(page: &[u8; PAGE_WIDTH], k: u16) -> bool
    requires { CanHoldOrder second_layout k }
    ensures before { IsTrue result → PassesBefore second_layout k page.now NotZero }
    ensures padding { IsTrue result → Passes second_layout k page.now NotZero }
{
    let Some(kind) = kind_of(page) else {
        return false;
    };
    let count = count_of(page);
    if !count_fits(count, k) {
        return false;
    }
    if !head_is_zero(page) {
        return false;
    }
    if !places_are_good(page, count) {
        return false;
    }
    let sons = son_count(kind, count);
    sons_are_set(page, k, sons) && rest_is_zero(page, k, count, sons)
}

/// Whether each of the first places is good, and the keys ascend.
fn places_are_good(page: &[u8; PAGE_WIDTH], count: usize) -> bool
    requires { IsKeyCount count }
    ensures ascends { IsTrue result → Ascends (elements_at second_layout page.now count) }
    ensures good { IsTrue result
        → (i : ℕ) → i < count → IsGoodPlace (place_at second_layout page.now i) }
{
    let mut last = Key::default();
    for i in 0..count {
        let place = place_of_page(SECOND_LAYOUT, page, i);
        let Some(key) = Key::in_field(&sixteen(place, 1), place[0]) else {
            return false;
        };
        if !Record::is_in_field(&a_hundred(place, RECORD_AT + 1), place[RECORD_AT]) {
            return false;
        }
        if i > 0 && !is_below(&last, &key) {
            return false;
        }
        last = key;
    }
    true
}

/// How many sons a page of a kind with so many keys has.
fn son_count(kind: NodeKind, count: usize) -> usize
    requires { IsKeyCount count }
    ensures most { result ≤ count + 1 }
    ensures sons { (k : ℕ) (page : List ℕ) → sons_of_kind kind second_layout k page count
        ≡ sons_at second_layout k page result }
{
    match kind {
        NodeKind::Leaf => 0,
        NodeKind::Inner => count + 1,
    }
}

/// Whether none of the first sons is 0.
fn sons_are_set(page: &[u8; PAGE_WIDTH], k: u16, count: usize) -> bool
    requires { CanHoldSons second_layout k count }
    ensures { IsTrue result → All (λ son. 0 < son) (sons_at second_layout k page.now count) }
{
    let start = SECOND_LAYOUT.sons_start(k);
    for j in 0..count {
        if u32_of(page, start + SON_WIDTH * j) == 0 {
            return false;
        }
    }
    true
}
