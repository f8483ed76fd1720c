ghost use Rattle.std.specs.Prelude.{◌≡◌, ◌<◌, ◌≤◌, length};
ghost use Rattle.btree_node.specs.Spelling.{CanStand};
ghost use Rattle.btree_node.specs.Layout.{greatest_order};

use super::{empty, insert_again, new_pages, put, tree_text, walk_again};
use crate::expect_text;
use arrayvec::ArrayVec;
use btree_insert::{Tree, TreeFault, find};
use btree_node::{Node, NodeKind, decode, encode};
use page_store::{MemStore, PageEdit, Pages, Store};
use rec_types::{KEY_WIDTH, Key, Memory, RECORD_WIDTH, Record};
use std::alloc::Global;
use std::collections::BTreeSet;
use std::process::Abort;

/// Puts these records at these keys.
fn put_all<S: Store>(
    rt: &impl Abort,
    alloc: Global,
    pages: &mut Pages<S>,
    order: u16,
    records: &[(u8, u8)],
) -> Tree {
    let mut tree = empty(order);
    for (key, value) in records {
        let (grown, old) = put(rt, alloc, pages, &tree, &[*key], &[*value]);
        assert!(rt; old.is_none());
        tree = grown;
    }
    tree
}

/// Expects the tree of an order that has the letters as keys, each as its own record.
fn expect_letters(rt: &impl Abort, alloc: Global, order: u16, letters: &[u8], wanted: &str) {
    let mut records = Vec::new(alloc);
    for letter in letters {
        records.push((*letter, *letter)).expect(rt, "no memory");
    }
    let mut pages = new_pages(rt, alloc);
    let tree = put_all(rt, alloc, &mut pages, order, &records);
    expect_text(rt, tree_text(rt, alloc, &mut pages, &tree).as_str(), wanted);
}

/// Puts another record at a key that is there, which leaves the tree as it is and answers the record before.
fn check_replaced<S: Store>(
    rt: &impl Abort,
    alloc: Global,
    pages: &mut Pages<S>,
    tree: &Tree,
    key: &[u8],
    before: &[u8],
) {
    let (same, old) = put(rt, alloc, pages, tree, key, b"new");
    assert_eq!(rt; same, *tree);
    assert!(rt; old == Some(Record::new(before).expect(rt, "no record")));
}

#[test]
fn three_keys_of_order_one(rt: HostRuntime) {
    let mut pages = new_pages(&rt, rt.alloc());
    let records = [(b'a', b'x'), (b'b', b'y'), (b'c', b'z')];
    let tree = put_all(&rt, rt.alloc(), &mut pages, 1, &records);
    let text = tree_text(&rt, rt.alloc(), &mut pages, &tree);
    expect_text(
        &rt,
        text.as_str(),
        "3 2 3 3 of 4; leaf a=x; leaf c=z; inner b=y 1 2",
    );
    check_replaced(&rt, rt.alloc(), &mut pages, &tree, b"b", b"y")
}

#[test]
fn seven_and_eight_keys(rt: HostRuntime) {
    for (order, letters, wanted) in [
        (
            2,
            b"abcdefg".as_slice(),
            "3 2 7 3 of 4; leaf a=a b=b; leaf d=d e=e f=f g=g; inner c=c 1 2",
        ),
        (
            2,
            b"abcdefgh".as_slice(),
            "3 2 8 4 of 5; leaf a=a b=b; leaf d=d e=e; inner c=c f=f 1 2 4; leaf g=g h=h",
        ),
        (
            1,
            b"abcdefg".as_slice(),
            "7 3 7 7 of 8; leaf a=a; leaf c=c; inner b=b 1 2; leaf e=e; leaf g=g; inner f=f 4 5; inner d=d 3 6",
        ),
    ] {
        expect_letters(&rt, rt.alloc(), order, letters, wanted);
    }
}

/// Looks that each page but page 0 is a node of the order.
fn check_nodes<S: Store>(rt: &impl Abort, pages: &mut Pages<S>, order: u16)
    requires { order ≤ greatest_order }
{
    let mut page = [0; 4096];
    for n in 1..pages.page_count() {
        pages.fetch(n, &mut page).expect(rt, "no answer");
        decode(&page, order).expect(rt, "no node");
    }
}

/// Puts the numbers at themselves as keys.
fn put_numbers<S: Store>(
    rt: &impl Abort,
    alloc: Global,
    pages: &mut Pages<S>,
    order: u16,
    numbers: &[u16],
) -> Tree {
    let mut tree = empty(order);
    for n in numbers {
        let bytes = n.to_be_bytes();
        tree = put(rt, alloc, pages, &tree, &bytes, &bytes).0;
    }
    tree
}

/// Looks that a walk over the tree gives the numbers below its count.
fn check_numbers<S: Store>(rt: &impl Abort, alloc: Global, pages: &mut Pages<S>, tree: &Tree) {
    let elements = walk_again(rt, alloc, pages, tree).expect(rt, "no answer");
    assert!(rt; tree.count <= 1000);
    assert_eq!(rt; elements.len(), tree.count as usize);
    for (element, n) in elements.iter().zip(0..tree.count as u16) {
        let bytes = n.to_be_bytes();
        assert!(rt;
            *element
                == (
                    Key::new(&bytes).expect(rt, "no key"),
                    Record::new(&bytes).expect(rt, "no record")
                )
        );
    }
}

/// Inserts the numbers below their count in an order, as keys, walks over them, and looks at all pages.
fn check_order_in<S: Store>(
    rt: &impl Abort,
    alloc: Global,
    pages: &mut Pages<S>,
    order: u16,
    numbers: &[u16],
) {
    let tree = put_numbers(rt, alloc, pages, order, numbers);
    assert!(rt; tree.order == order && order <= 16 && tree.used <= 1_000_000);
    assert_eq!(rt; tree.count as usize, numbers.len());
    check_numbers(rt, alloc, pages, &tree);
    assert_eq!(rt; pages.page_count(), tree.used + 1);
    check_nodes(rt, pages, order)
}

/// Does so in new pages.
fn check_order(rt: &impl Abort, alloc: Global, order: u16, numbers: &[u16]) {
    let mut pages = new_pages(rt, alloc);
    check_order_in(rt, alloc, &mut pages, order, numbers)
}

/// Does so for trees of several orders, with the numbers shuffled by a factor and a shift.
fn check_orders(rt: &impl Abort, alloc: Global, factor: u32, shift: u32) {
    assert!(rt; factor < 300 && shift < 300);
    let mut numbers = Vec::new(alloc);
    numbers.reserve(300).expect(rt, "no memory");
    for n in 0..300u32 {
        numbers
            .push(((n * factor + shift) % 300) as u16)
            .expect(rt, "no memory");
    }
    for order in [1, 2, 3, 16] {
        check_order(rt, alloc, order, &numbers);
    }
}

// The keys ascend, descend, and are shuffled.
#[test]
fn a_walk_is_sorted(rt: HostRuntime) {
    for (factor, shift) in [(1, 0), (299, 299), (7, 0)] {
        check_orders(&rt, rt.alloc(), factor, shift);
    }
}

/// A tree of order 1 with the keys a, b and c.
fn three_keys(rt: &impl Abort, alloc: Global, pages: &mut Pages<MemStore>) -> Tree {
    let mut tree = empty(1);
    for key in b"abc" {
        tree = put(rt, alloc, pages, &tree, &[*key], b"v").0;
    }
    tree
}

/// What a look-up and a walk answer.
fn looks<S: Store>(
    rt: &impl Abort,
    alloc: Global,
    pages: &mut Pages<S>,
    tree: &Tree,
    key: u8,
) -> (Option<TreeFault>, Option<TreeFault>) {
    assert!(rt; 1 <= tree.order && tree.order <= 16 && tree.height <= 19);
    let found = find(pages, tree, &Key::new(&[key]).expect(rt, "no key"));
    let walked = walk_again(rt, alloc, pages, tree);
    (found.err(), walked.err())
}

#[test]
fn pages_that_are_no_tree(rt: HostRuntime) {
    let mut pages = new_pages(&rt, rt.alloc());
    let tree = three_keys(&rt, rt.alloc(), &mut pages);
    for (root, height, used, fault) in [
        (1, 2, 3, TreeFault::Damaged(1)),
        (9, 1, 3, TreeFault::Damaged(9)),
    ] {
        let other = Tree {
            root,
            height,
            used,
            ..tree
        };
        let (found, _) = looks(&rt, rt.alloc(), &mut pages, &other, b'a');
        assert_eq!(rt; found, Some(fault));
    }
    let narrow = Tree {
        height: 2,
        used: 2,
        count: 3,
        ..tree
    };
    let (_, walked) = looks(&rt, rt.alloc(), &mut pages, &narrow, b'a');
    assert_eq!(rt; walked, Some(TreeFault::Damaged(2)));
}

#[test]
fn a_tree_of_the_greatest_count(rt: HostRuntime) {
    let mut pages = new_pages(&rt, rt.alloc());
    let tree = three_keys(&rt, rt.alloc(), &mut pages);
    let full = Tree {
        height: 2,
        used: 3,
        count: 1_000_000,
        ..tree
    };
    let (d, value) = (
        Key::new(b"d").expect(&rt, "no key"),
        Record::new(b"v").expect(&rt, "no record"),
    );
    let answer = insert_again(&rt, rt.alloc(), &mut pages, &full, d, value);
    assert!(rt; answer.err() == Some(TreeFault::Damaged(2)));
}

/// A leaf with one key, whose record is the key.
fn leaf(rt: &impl Abort, key: u8) -> Node
    ensures stands { CanStand result 1 }
    ensures one { length result.elements.items ≡ 1 }
{
    let value = Record::new(&[key]).expect(rt, "no record");
    let key = Key::new(&[key]).expect(rt, "no key");
    prove!(key.bytes().len() <= KEY_WIDTH && value.bytes().len() <= RECORD_WIDTH);
    let mut elements = ArrayVec::new();
    elements.push((key, value));
    Node {
        kind: NodeKind::Leaf,
        elements,
        sons: ArrayVec::new(),
    }
}

/// An inner node with one key, whose record is the key.
fn inner(rt: &impl Abort, key: u8, left: u32, right: u32) -> Node
    requires left { 0 < left }
    requires right { 0 < right }
    ensures { CanStand result 1 }
{
    let mut sons = ArrayVec::new();
    sons.push(left);
    sons.push(right);
    let Node {
        kind: _,
        elements,
        sons: _,
    } = leaf(rt, key);
    Node {
        kind: NodeKind::Inner,
        elements,
        sons,
    }
}

/// Stages a node of order 1 as the next page.
fn stage_page<S: Store>(
    rt: &impl Abort,
    alloc: Global,
    pages: &mut Pages<S>,
    node: &Node,
) -> Result<(), Memory>
    requires { CanStand node.now 1 }
{
    assert!(rt; pages.page_count() < 1000);
    let n = pages.candidate(0);
    let mut writes = Vec::new(alloc);
    if writes.push((n, encode(node, 1))).is_err() {
        return Err(Memory);
    }
    pages.stage(PageEdit {
        writes,
        taken: 1,
        freed: Vec::new(alloc),
    })
}

/// Does so, once more where memory was refused.
fn add_page<S: Store>(rt: &impl Abort, alloc: Global, pages: &mut Pages<S>, node: &Node)
    requires { CanStand node.now 1 }
{
    if stage_page(rt, alloc, pages, node).is_err() {
        stage_page(rt, alloc, pages, node).expect(rt, "no answer");
    }
}

fn tree_at(root: u32, height: u32) -> Tree
    ensures { result ≡ record { order = 1; root = root; height = height; count = 7; used = 7 } }
{
    Tree {
        order: 1,
        root,
        height,
        count: 7,
        used: 7,
    }
}

/// Looks that look-up, walk and insertion find this page damaged, and that no page is new.
fn check_damaged<S: Store>(
    rt: &impl Abort,
    alloc: Global,
    pages: &mut Pages<S>,
    tree: &Tree,
    key: u8,
    n: u32,
) {
    assert!(rt; 1 <= tree.order && tree.order <= 16 && tree.height <= 19);
    let key = Key::new(&[key]).expect(rt, "no key");
    let count = pages.page_count();
    assert!(rt; find(pages, tree, &key) == Err(TreeFault::Damaged(n)));
    let answer = walk_again(rt, alloc, pages, tree);
    assert!(rt; answer.err() == Some(TreeFault::Damaged(n)));
    let answer = insert_again(
        rt,
        alloc,
        pages,
        tree,
        key,
        Record::new(b"v").expect(rt, "no record"),
    );
    assert!(rt; answer.err() == Some(TreeFault::Damaged(n)));
    assert_eq!(rt; pages.page_count(), count);
}

/// Looks that the key is found.
fn check_found<S: Store>(rt: &impl Abort, pages: &mut Pages<S>, tree: &Tree, key: u8) {
    assert!(rt; 1 <= tree.order && tree.order <= 16 && tree.height <= 19);
    let found = find(pages, tree, &Key::new(&[key]).expect(rt, "no key"));
    assert!(rt; found == Ok(Some(Record::new(&[key]).expect(rt, "no record"))));
}

/// A node of order 1 with one key, which is its record too: a leaf, or an inner node with its sons.
#[derive(Clone, Copy)]
enum Spelt {
    Leaf(u8),
    Inner(u8, u32, u32),
}

/// Stages these nodes as the next pages.
fn add_pages<S: Store>(rt: &impl Abort, alloc: Global, pages: &mut Pages<S>, nodes: &[Spelt]) {
    for node in nodes {
        match *node {
            Spelt::Leaf(key) => add_page(rt, alloc, pages, &leaf(rt, key)),
            Spelt::Inner(key, left, right) => {
                assert!(rt; 0 < left && 0 < right);
                add_page(rt, alloc, pages, &inner(rt, key, left, right));
            }
        }
    }
}

/// Seven pages with one key each: the leaves 1 and 2 below page 3, the leaves 4 and 5 below page 6,
/// and 3 and 6 below page 7.
fn seven_pages(rt: &impl Abort, alloc: Global, keys: &[u8; 7]) -> Pages<MemStore> {
    let mut pages = new_pages(rt, alloc);
    let nodes = [
        Spelt::Leaf(keys[0]),
        Spelt::Leaf(keys[1]),
        Spelt::Inner(keys[2], 1, 2),
        Spelt::Leaf(keys[3]),
        Spelt::Leaf(keys[4]),
        Spelt::Inner(keys[5], 4, 5),
        Spelt::Inner(keys[6], 3, 6),
    ];
    add_pages(rt, alloc, &mut pages, &nodes);
    pages
}

/// Looks that a walk over the tree gives these keys, each as its own record.
fn check_keys<S: Store>(
    rt: &impl Abort,
    alloc: Global,
    pages: &mut Pages<S>,
    tree: &Tree,
    keys: &[u8],
) {
    let elements = walk_again(rt, alloc, pages, tree).expect(rt, "no answer");
    assert_eq!(rt; elements.len(), keys.len());
    for (element, key) in elements.iter().zip(keys) {
        assert!(rt;
            *element
                == (
                    Key::new(&[*key]).expect(rt, "no key"),
                    Record::new(&[*key]).expect(rt, "no record")
                )
        );
    }
}

#[test]
fn keys_within_the_bounds_of_all_levels(rt: HostRuntime) {
    let mut pages = seven_pages(&rt, rt.alloc(), b"agdntqm");
    check_keys(&rt, rt.alloc(), &mut pages, &tree_at(7, 3), b"adgmnqt")
}

#[test]
fn keys_outside_the_bounds_of_a_level(rt: HostRuntime) {
    for (keys, key, n) in [
        (b"apdntqm", b'e', 2),
        (b"amdntqm", b'e', 2),
        (b"agzntqm", b'a', 3),
        (b"agdctqm", b'o', 4),
        (b"agdnpqm", b't', 5),
        (b"agdntbm", b'x', 6),
    ] {
        let mut pages = seven_pages(&rt, rt.alloc(), keys);
        check_damaged(&rt, rt.alloc(), &mut pages, &tree_at(7, 3), key, n);
    }
}

/// Looks at the damaged pages of trees, each with its root and its height, a key to look for, and the page.
fn check_all_damaged<S: Store>(
    rt: &impl Abort,
    alloc: Global,
    pages: &mut Pages<S>,
    rows: &[(u32, u32, u8, u32)],
) {
    for (root, height, key, n) in rows {
        check_damaged(rt, alloc, pages, &tree_at(*root, *height), *key, *n);
    }
}

#[test]
fn a_page_that_is_met_twice(rt: HostRuntime) {
    let mut pages = new_pages(&rt, rt.alloc());
    let nodes = [
        Spelt::Leaf(b'a'),
        Spelt::Inner(b'm', 2, 1),
        Spelt::Inner(b'm', 1, 1),
        Spelt::Inner(b'm', 5, 1),
        Spelt::Inner(b'd', 4, 4),
    ];
    add_pages(&rt, rt.alloc(), &mut pages, &nodes);
    let rows = [(2, 3, b'c', 2), (3, 2, b'z', 1), (4, 4, b'e', 4)];
    check_all_damaged(&rt, rt.alloc(), &mut pages, &rows);
    check_found(&rt, &mut pages, &tree_at(3, 2), b'a')
}

/// Two pages with nothing in them, both in use.
fn blank_pages(rt: &impl Abort, alloc: Global) -> Pages<MemStore> {
    let mut pages = Vec::new(alloc);
    if pages.push([0; 4096]).is_err() {
        pages.push([0; 4096]).expect(rt, "no memory");
    }
    if pages.push([0; 4096]).is_err() {
        pages.push([0; 4096]).expect(rt, "no memory");
    }
    Pages::new(alloc, MemStore::new(pages, 0), 2, BTreeSet::new(alloc))
}

#[test]
fn a_page_that_spells_no_node(rt: HostRuntime) {
    let mut pages = blank_pages(&rt, rt.alloc());
    let rows = [(1, 1, b'a', 1), (1, 2, b'a', 1), (2, 1, b'a', 2)];
    check_all_damaged(&rt, rt.alloc(), &mut pages, &rows);
    add_pages(&rt, rt.alloc(), &mut pages, &[Spelt::Inner(b'm', 1, 9)]);
    check_all_damaged(&rt, rt.alloc(), &mut pages, &[(2, 2, b'a', 1)])
}

#[test]
fn a_page_of_the_wrong_kind(rt: HostRuntime) {
    let mut pages = new_pages(&rt, rt.alloc());
    let nodes = [
        Spelt::Leaf(b'a'),
        Spelt::Leaf(b'c'),
        Spelt::Inner(b'b', 1, 2),
        Spelt::Leaf(b'z'),
        Spelt::Inner(b'm', 3, 4),
    ];
    add_pages(&rt, rt.alloc(), &mut pages, &nodes);
    let rows = [
        (5, 1, b'm', 5),
        (5, 2, b'a', 3),
        (4, 2, b'z', 4),
        (5, 3, b'x', 4),
    ];
    check_all_damaged(&rt, rt.alloc(), &mut pages, &rows);
    check_found(&rt, &mut pages, &tree_at(5, 3), b'c')
}
