use super::{empty, new_pages, put, tree_text, walk_again};
use crate::expect_text;
use btree_delete::delete;
use btree_insert::{Tree, TreeFault, find};
use page_store::{MemStore, Pages, Store};
use rec_types::{Key, Record};
use std::alloc::Global;
use std::collections::BTreeSet;
use std::process::Abort;

/// Deletes, once more where memory was refused; then the key still has its record.
fn delete_again<S: Store>(
    rt: &impl Abort,
    alloc: Global,
    pages: &mut Pages<S>,
    tree: &Tree,
    key: &Key,
) -> Result<(Tree, Option<Record>), TreeFault> {
    assert!(rt; 1 <= tree.order && tree.order <= 16 && tree.height <= 19);
    assert!(rt; tree.count <= 1_000_000 && tree.used <= 1_000_000);
    let before = find(pages, tree, key);
    match delete(alloc, pages, tree, key) {
        Err(TreeFault::Memory) => {
            assert!(rt; find(pages, tree, key) == before);
            delete(alloc, pages, tree, key)
        }
        answer => answer,
    }
}

/// Takes a key out, whose record is the key.
fn take<S: Store>(
    rt: &impl Abort,
    alloc: Global,
    pages: &mut Pages<S>,
    tree: &Tree,
    key: &[u8],
) -> Tree {
    let name = Key::new(key).expect(rt, "no key");
    let taken = delete_again(rt, alloc, pages, tree, &name);
    let (next, old) = taken.expect(rt, "no answer");
    assert!(rt; old == Some(Record::new(key).expect(rt, "no record")));
    next
}

/// Puts each small letter as a key and its record, and takes each great letter's small one out.
fn run<S: Store>(
    rt: &impl Abort,
    alloc: Global,
    pages: &mut Pages<S>,
    order: u16,
    steps: &[u8],
) -> Tree {
    let mut tree = empty(order);
    for step in steps {
        let key = [step.to_ascii_lowercase()];
        tree = if step.is_ascii_uppercase() {
            take(rt, alloc, pages, &tree, &key)
        } else {
            put(rt, alloc, pages, &tree, &key, &key).0
        };
    }
    tree
}

/// Expects the tree of an order after these steps.
fn expect_tree(rt: &impl Abort, alloc: Global, order: u16, steps: &str, wanted: &str) {
    let mut pages = new_pages(rt, alloc);
    let tree = run(rt, alloc, &mut pages, order, steps.as_bytes());
    expect_text(rt, tree_text(rt, alloc, &mut pages, &tree).as_str(), wanted);
}

/// Trees of an order after these steps, in which pages are levelled and catenated.
const TREES: [(u16, &str, &str); 8] = [
    (
        2,
        "abcdefgA",
        "3 2 6 3 of 4; leaf b=b c=c; leaf e=e f=f g=g; inner d=d 1 2",
    ),
    (
        2,
        "abcdefgAC",
        "3 2 5 3 of 4; leaf b=b d=d; leaf f=f g=g; inner e=e 1 2",
    ),
    (
        2,
        "abcdefgACB",
        "1 1 4 1 of 4; leaf d=d e=e f=f g=g; free; free",
    ),
    (
        2,
        "abcdefgACBh",
        "3 2 5 3 of 4; leaf d=d e=e; leaf g=g h=h; inner f=f 1 2",
    ),
    // The leaves a, c and e are the pages 1, 2 and 4 below page 3.
    (
        1,
        "abcdeA",
        "3 2 4 3 of 5; leaf b=b c=c; free; inner d=d 1 4; leaf e=e",
    ),
    (
        1,
        "abcdeC",
        "3 2 4 3 of 5; leaf a=a; leaf d=d e=e; inner b=b 1 2; free",
    ),
    (
        1,
        "abcdeE",
        "3 2 4 3 of 5; leaf a=a; leaf c=c d=d; inner b=b 1 2; free",
    ),
    // The next key stands for one of the root.
    (
        2,
        "abcdeC",
        "1 1 4 1 of 4; leaf a=a b=b d=d e=e; free; free",
    ),
];

#[test]
fn pages_are_levelled_and_catenated(rt: HostRuntime) {
    for (order, steps, wanted) in TREES {
        expect_tree(&rt, rt.alloc(), order, steps, wanted);
    }
}

/// Looks that a deletion of each key finds none, and leaves the tree as it is.
fn check_absent<S: Store>(
    rt: &impl Abort,
    alloc: Global,
    pages: &mut Pages<S>,
    tree: &Tree,
    keys: &[u8],
) {
    for key in keys {
        let absent = Key::new(&[*key]).expect(rt, "no key");
        let taken = delete_again(rt, alloc, pages, tree, &absent);
        let (same, old) = taken.expect(rt, "no answer");
        assert!(rt; old.is_none());
        assert_eq!(rt; same, *tree);
    }
}

#[test]
fn an_absent_key_changes_nothing(rt: HostRuntime) {
    let mut pages = new_pages(&rt, rt.alloc());
    let tree = run(&rt, rt.alloc(), &mut pages, 1, b"ace");
    check_absent(&rt, rt.alloc(), &mut pages, &tree, b"bdf");
    check_absent(&rt, rt.alloc(), &mut pages, &empty(1), b"a")
}

/// Looks that the tree has count keys, which ascend and are their own records, in its pages and no
/// others.
fn check_tree<S: Store>(
    rt: &impl Abort,
    alloc: Global,
    pages: &mut Pages<S>,
    tree: &Tree,
    count: usize,
) {
    let elements = walk_again(rt, alloc, pages, tree).expect(rt, "no answer");
    assert_eq!(rt; (elements.len(), tree.count as usize), (count, count));
    let keys = elements.as_slice();
    for i in 1..keys.len() {
        assert!(rt; keys[i - 1].0 < keys[i].0);
        assert_eq!(rt; keys[i].1.bytes(), keys[i].0.bytes());
    }
    assert_eq!(rt;
        pages.page_count() - 1,
        tree.used.saturating_add(pages.free_count())
    );
}

/// Puts 200 keys into a tree of an order and takes them out again, in an order of their own, and looks
/// at the tree after every fortieth.
fn check_order(rt: &impl Abort, alloc: Global, order: u16, step: u16) {
    let mut pages = new_pages(rt, alloc);
    let mut tree = empty(order);
    for n in 0..200u16 {
        let key = (n * 7 % 200).to_be_bytes();
        tree = put(rt, alloc, &mut pages, &tree, &key, &key).0;
    }
    assert!(rt; step < 200);
    for n in 0..200u16 {
        if n % 40 == 0 {
            check_tree(rt, alloc, &mut pages, &tree, 200 - n as usize);
        }
        tree = take(
            rt,
            alloc,
            &mut pages,
            &tree,
            &(n * step % 200).to_be_bytes(),
        );
    }
    assert_eq!(rt; (tree.root, tree.height, tree.used), (0, 0, 0));
    check_tree(rt, alloc, &mut pages, &tree, 0)
}

/// Does so for trees of several orders.
fn check_orders(rt: &impl Abort, alloc: Global, step: u16) {
    for order in [1, 2, 3, 16] {
        check_order(rt, alloc, order, step);
    }
}

// In ascending, in descending and in a shuffled order.
#[test]
fn all_keys_go(rt: HostRuntime) {
    for step in [1, 199, 77] {
        check_orders(&rt, rt.alloc(), step);
    }
}

/// Looks that a deletion finds this page damaged, and frees none.
fn check_damaged<S: Store>(
    rt: &impl Abort,
    alloc: Global,
    pages: &mut Pages<S>,
    tree: &Tree,
    key: u8,
    n: u32,
) {
    let free = pages.free_count();
    let answer = delete_again(
        rt,
        alloc,
        pages,
        tree,
        &Key::new(&[key]).expect(rt, "no key"),
    );
    assert!(rt; answer.err() == Some(TreeFault::Damaged(n)));
    assert_eq!(rt; pages.free_count(), free);
}

#[test]
fn pages_that_are_no_tree(rt: HostRuntime) {
    let mut pages = new_pages(&rt, rt.alloc());
    let tree = run(&rt, rt.alloc(), &mut pages, 1, b"abc");
    for (root, count, used, n) in [(1, 3, 3, 1), (9, 3, 3, 9), (3, 0, 3, 3), (3, 3, 1, 3)] {
        let other = Tree {
            root,
            count,
            used,
            ..tree
        };
        check_damaged(&rt, rt.alloc(), &mut pages, &other, b'a', n);
    }
}

/// A page of order 1 with one key, which is its own record, and these sons.
#[derive(Clone, Copy)]
struct Page {
    kind: u8,
    key: u8,
    left: u8,
    right: u8,
}

fn bytes_of(page: Page) -> [u8; 4096] {
    let mut bytes = [0; 4096];
    bytes[0] = page.kind;
    bytes[3] = 1;
    bytes[8] = 1;
    bytes[9] = page.key;
    bytes[25] = 1;
    bytes[26] = page.key;
    bytes[247] = page.left;
    bytes[251] = page.right;
    bytes
}

fn leaf(key: u8) -> Page {
    Page {
        kind: 1,
        key,
        left: 0,
        right: 0,
    }
}

fn inner(left: u8, right: u8) -> Page {
    Page {
        kind: 2,
        key: b'b',
        left,
        right,
    }
}

const NO_NODE: Page = Page {
    kind: 9,
    key: b'a',
    left: 0,
    right: 0,
};

/// A store of four pages, of which the last three are these.
fn four_pages(rt: &impl Abort, alloc: Global, three: &[Page; 3]) -> Pages<MemStore> {
    let nothing = Page {
        kind: 0,
        key: 0,
        left: 0,
        right: 0,
    };
    let mut pages = Vec::new(alloc);
    for page in [nothing, three[0], three[1], three[2]] {
        if pages.push(bytes_of(page)).is_err() {
            pages.push(bytes_of(page)).expect(rt, "no memory");
        }
    }
    assert!(rt; pages.len() == 4);
    Pages::new(alloc, MemStore::new(pages, 0), 4, BTreeSet::new(alloc))
}

/// Looks that the deletion of a key finds this page damaged, in a tree of order 1 of three pages.
fn check_row(
    rt: &impl Abort,
    alloc: Global,
    three: &[Page; 3],
    root: u32,
    height: u32,
    key: u8,
    n: u32,
) {
    let mut pages = four_pages(rt, alloc, three);
    let tree = Tree {
        order: 1,
        root,
        height,
        count: 3,
        used: 3,
    };
    check_damaged(rt, alloc, &mut pages, &tree, key, n)
}

// On the path, and beside it.
#[test]
fn damaged_pages(rt: HostRuntime) {
    let (a, c, root) = (leaf(b'a'), leaf(b'c'), inner(1, 2));
    for (three, n, height, key, damaged) in [
        ([NO_NODE, c, root], 3, 2, b'a', 1),
        ([NO_NODE, c, root], 1, 1, b'a', 1),
        ([c, c, root], 3, 2, b'a', 1),
        ([a, a, root], 3, 2, b'c', 2),
        ([root, c, root], 3, 2, b'a', 1),
        ([a, c, root], 3, 1, b'a', 3),
        ([a, NO_NODE, root], 3, 2, b'a', 2),
        ([NO_NODE, c, root], 3, 2, b'c', 1),
        ([a, a, root], 3, 2, b'a', 2),
        ([c, c, root], 3, 2, b'c', 1),
        ([a, root, root], 3, 2, b'a', 2),
        ([a, c, inner(1, 1)], 3, 2, b'a', 1),
        ([a, c, inner(1, 7)], 3, 2, b'a', 7),
    ] {
        check_row(&rt, rt.alloc(), &three, n, height, key, damaged);
    }
}
