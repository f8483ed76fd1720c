ghost use Rattle.std.specs.Prelude.{◌≡◌, ◌+◌, ◌*◌, ◌<◌, ◌≤◌, ℕ, List, suc, length, take, drop, IsTrue, IfOk, OnOk};
ghost use Rattle.btree_node.specs.Cut.{left_of};
ghost use Rattle.btree_node.specs.Layout.{IsOrder, most_keys};
ghost use Rattle.btree_node.specs.Lists.{Element, Each};
ghost use Rattle.btree_node.specs.Spelling.{IsElement};
ghost use Rattle.btree_node.specs.declared.node.NodeKind.TheVariants.{Inner};
ghost use Rattle.btree_load.specs.Filling.{FillsStore, KeepsLength, written_pages};
ghost use Rattle.btree_load.specs.Rows.{wide, from, IsWide, NodeStandsFor, IsRow, AreFewest, HasLevelRoom, TakesShare};

use crate::appending::append_page;
use arrayvec::ArrayVec;
use btree_node::{ELEMENT_ROOM, Node, NodeKind, SON_ROOM, encode};
use page_store::{Store, WriteFault};
use rec_types::{KEY_WIDTH, Key, RECORD_WIDTH, Record};
use std::alloc::Global;

/// The pages of one level from left to right, and the elements between them.
#[derive(Drop)]
pub(crate) struct Row {
    pub sons: Vec<u32>,
    pub between: Vec<(Key, Record)>,
}

/// How many elements a page takes of those that are left, which are too many for it.
fn share(k: usize, left: usize) -> usize
    requires order { IsOrder k }
    requires many { 2 * k < left }
    ensures { TakesShare k left result }
{
    if left > 3 * k { 2 * k } else { (left - 1) / 2 }
}

/// So many of the sons from a place on, or as many as there are.
#[tactic(auto, using(std::proofs::lemmas::List::drop_min, std::proofs::lemmas::List::take_min))]
fn sons_of(sons: &[u32], from: usize, count: usize) -> ArrayVec<u32, SON_ROOM>
    requires { count ≤ most_keys + 1 }
    ensures { result.items ≡ take count (drop from sons.now) }
{
    let rest = &sons[from.min(sons.len())..];
    let mut part = ArrayVec::new();
    part.try_extend_from_slice(&rest[..count.min(rest.len())])
        .unwrap();
    part
}

/// A key and its record, for which a page has room.
fn element_of(element: &(Key, Record)) -> (Key, Record)
    ensures value { result ≡ element.now }
    ensures fits { IsElement result }
{
    let (key, record) = *element;
    prove!(key.bytes().len() <= KEY_WIDTH && record.bytes().len() <= RECORD_WIDTH);
    (key, record)
}

/// The elements of a page, each of which has room there.
fn page_of(elements: &[(Key, Record)]) -> ArrayVec<(Key, Record), ELEMENT_ROOM>
    requires { length elements.now ≤ most_keys }
    ensures same { result.items ≡ elements.now }
    ensures fit { Each IsElement result.items }
{
    let mut page = ArrayVec::new();
    for element in elements {
        page.push(element_of(element));
    }
    page
}

/// The node of so many elements from a place on, with the sons around them.
fn node_of(kind: NodeKind, elements: &[(Key, Record)], sons: &[u32], at: usize, size: usize) -> Node
    requires within { at + size ≤ length elements.now }
    requires size { size ≤ most_keys }
    ensures same { result ≡ left_of size (from at (wide kind elements.now sons.now)) }
    ensures fit { Each IsElement result.elements.items }
{
    Node {
        kind,
        elements: page_of(&elements[at..at + size]),
        sons: sons_of(sons, at, size + 1),
    }
}

/// Writes a level of pages behind the last page: each holds as many of the elements as it may, but that the last two share
/// what is left for them where the last would have too few. Answers the pages, and the elements between them, which
/// belong to the level above. Faults: Device, Memory.
pub(crate) fn write_row<S: Store>(
    alloc: Global,
    store: &mut S,
    count: &mut u32,
    k: u16,
    kind: NodeKind,
    elements: &[(Key, Record)],
    sons: &[u32],
) -> Result<Row, WriteFault>
    requires order { IsOrder k }
    requires some { 0 < length elements.now }
    requires wide { IsWide (wide kind elements.now sons.now) }
    requires room { HasLevelRoom S.StoreState k count.old (length elements.now) store.old }
    ensures row { IsTrue (S.steady store.old) → (least h : ℕ) (es : List Element) (us : List ℕ)
        → least ≤ k → least ≤ length elements.now
        → NodeStandsFor k (written_pages S.StoreState count.old store.old) h
        (wide kind elements.now sons.now) es us
        → IfOk result (λ row. IsRow k (written_pages S.StoreState count.new store.new) least (suc h)
        (wide Inner row.between.items row.sons.items) es) }
    ensures wide { IfOk result (λ row. IsWide (wide Inner row.between.items row.sons.items)) }
    ensures fewest { IfOk result (λ row. AreFewest k (length elements.now) (length row.sons.items)) }
    ensures count { IfOk result (λ row. count.new ≡ count.old + length row.sons.items) }
    ensures long { KeepsLength S.StoreState store.old store.new }
    ensures fills { FillsStore S.StoreState store.old result store.new }
{
    let mut row = Row {
        sons: Vec::new(alloc),
        between: Vec::new(alloc),
    };
    let most = 2 * k as usize;
    let mut at = 0;
    while elements.len() - at > most {
        let size = share(k as usize, elements.len() - at);
        let page = encode(&node_of(kind, elements, sons, at, size), k);
        row.sons.push(append_page(store, count, &page)?)?;
        row.between.push(elements[at + size])?;
        at += size + 1;
    }
    let page = encode(&node_of(kind, elements, sons, at, elements.len() - at), k);
    row.sons.push(append_page(store, count, &page)?)?;
    Ok(row)
}
