ghost use Rattle.std.specs.Prelude.{◌≤◌};
ghost use Rattle.btree_node.specs.Layout.{greatest_order};

mod deletions;
mod insertions;

use btree_insert::{Tree, TreeFault, find, insert, walk};
use btree_node::{NodeKind, decode};
use page_store::{FetchFault, MemStore, Pages, Store};
use rec_types::{Key, Record};
use std::alloc::Global;
use std::collections::BTreeSet;
use std::process::Abort;

fn empty(order: u16) -> Tree {
    Tree {
        order,
        root: 0,
        height: 0,
        count: 0,
        used: 0,
    }
}

/// A store of one page, with nothing in it.
fn new_pages(rt: &impl Abort, alloc: Global) -> Pages<MemStore> {
    let mut pages = Vec::new(alloc);
    if pages.push([0; 4096]).is_err() {
        pages.push([0; 4096]).expect(rt, "no memory");
    }
    Pages::new(alloc, MemStore::new(pages, 0), 1, BTreeSet::new(alloc))
}

/// Inserts, once more where memory was refused; then nothing has changed at the key.
fn insert_again<S: Store>(
    rt: &impl Abort,
    alloc: Global,
    pages: &mut Pages<S>,
    tree: &Tree,
    key: Key,
    value: Record,
) -> Result<(Tree, Option<Record>), TreeFault> {
    assert!(rt; 1 <= tree.order && tree.order <= 16 && tree.height <= 19);
    assert!(rt; tree.count <= 1_000_000 && tree.used <= 1_000_000);
    let before = find(pages, tree, &key);
    match insert(alloc, pages, tree, key, value) {
        Err(TreeFault::Memory) => {
            assert!(rt; find(pages, tree, &key) == before);
            insert(alloc, pages, tree, key, value)
        }
        answer => answer,
    }
}

/// All elements, asked for once more where memory was refused.
fn walk_again<S: Store>(
    rt: &impl Abort,
    alloc: Global,
    pages: &mut Pages<S>,
    tree: &Tree,
) -> Result<Vec<(Key, Record)>, TreeFault> {
    assert!(rt; 1 <= tree.order && tree.order <= 16 && tree.height <= 19);
    assert!(rt; tree.count <= 1_000_000 && tree.used <= 1_000_000);
    match walk(alloc, pages, tree) {
        Err(TreeFault::Memory) => walk(alloc, pages, tree),
        answer => answer,
    }
}

/// Puts a record at a key. The answer is what a look-up found before.
fn put<S: Store>(
    rt: &impl Abort,
    alloc: Global,
    pages: &mut Pages<S>,
    tree: &Tree,
    key: &[u8],
    value: &[u8],
) -> (Tree, Option<Record>) {
    let key = Key::new(key).expect(rt, "no key");
    let value = Record::new(value).expect(rt, "no record");
    assert!(rt; 1 <= tree.order && tree.order <= 16 && tree.height <= 19);
    let before = find(pages, tree, &key).expect(rt, "no answer");
    let (grown, old) = insert_again(rt, alloc, pages, tree, key, value).expect(rt, "no answer");
    assert!(rt; old == before);
    (grown, old)
}

/// Appends a key or a record, of letters.
fn push_bytes(rt: &impl Abort, text: &mut String, bytes: &[u8]) {
    for byte in bytes {
        text.push(char::from(*byte)).expect(rt, "no memory");
    }
}

/// Appends what a page spells: its kind, its keys and their records, and its sons.
fn push_page(rt: &impl Abort, text: &mut String, page: &[u8; 4096], order: u16)
    requires { order ≤ greatest_order }
{
    let node = decode(page, order).expect(rt, "no node");
    text.push_str(if node.kind == NodeKind::Leaf {
        "leaf"
    } else {
        "inner"
    })
    .expect(rt, "no memory");
    for (key, record) in node.elements.as_slice() {
        text.push(' ').expect(rt, "no memory");
        push_bytes(rt, text, key.bytes());
        text.push('=').expect(rt, "no memory");
        push_bytes(rt, text, record.bytes());
    }
    for son in node.sons.as_slice() {
        write!(text, " {son}").expect(rt, "no memory");
    }
}

/// The tree's root, height, count and pages used, how many pages there are, and what each but page 0 spells, or that it is
/// free.
fn tree_text<S: Store>(
    rt: &impl Abort,
    alloc: Global,
    pages: &mut Pages<S>,
    tree: &Tree,
) -> String {
    assert!(rt; tree.order <= 16);
    let mut text = String::new(alloc);
    let (root, height, count, used) = (tree.root, tree.height, tree.count, tree.used);
    write!(
        text,
        "{root} {height} {count} {used} of {}",
        pages.page_count()
    )
    .expect(rt, "no memory");
    let mut page = [0; 4096];
    for n in 1..pages.page_count() {
        text.push_str("; ").expect(rt, "no memory");
        match pages.fetch(n, &mut page) {
            Err(FetchFault::OutOfRange) => text.push_str("free").expect(rt, "no memory"),
            Err(fault) => panic!(rt; "{}", fault),
            Ok(()) => push_page(rt, &mut text, &page, tree.order),
        }
    }
    text
}
