ghost use Rattle.btree_node.specs.Changes.{MayChange, ChangedBy};

use crate::changing::{insert_in, remove_in, replace_in};
use rec_types::{Key, PAGE_WIDTH, Record};

/// A change of one element of the node that a page spells.
#[derive(Clone, Copy)]
pub enum PageChange {
    /// This element stands in the place of element i.
    Replace(usize, (Key, Record)),
    /// This element comes before element i, or behind the last.
    Insert(usize, (Key, Record)),
    /// Element i goes.
    Remove(usize),
}

/// Changes the node that the page spells, in a tree of order `k`, where its bytes lie. The condition is a page that
/// has the element to replace or to take out, or room for one more.
pub fn change_page(page: &mut [u8; PAGE_WIDTH], k: u16, change: &PageChange)
    requires { MayChange k change.now page.old }
    ensures { ChangedBy k change.now page.old page.new }
{
    match change {
        PageChange::Replace(i, element) => replace_in(page, k, *i, element),
        PageChange::Insert(i, element) => insert_in(page, k, *i, element),
        PageChange::Remove(i) => remove_in(page, k, *i),
    }
}
