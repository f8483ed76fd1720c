ghost use Rattle.std.specs.Prelude.{◌≡◌, []};
ghost use Rattle.btree_node.specs.declared.node.NodeKind.TheVariants.{Leaf};

use arrayvec::ArrayVec;
use rec_types::{Key, Record};
use thiserror::Error;

/// Whether a page has pages below it.
#[derive(Clone, Copy, Debug, PartialEq, Eq)]
pub enum NodeKind {
    /// No page stands below it.
    Leaf,
    /// It has one son more than keys.
    Inner,
}

/// The elements that a node has room for: one more than a page of the greatest order holds, so that it
/// can be split.
pub const ELEMENT_ROOM: usize = 33;

/// The sons that a node has room for.
pub const SON_ROOM: usize = ELEMENT_ROOM + 1;

/// A page of the tree.
#[derive(Debug, PartialEq, Eq, Drop)]
pub struct Node {
    /// Whether the node has sons.
    pub kind: NodeKind,
    /// The keys with their records, in ascending order.
    pub elements: ArrayVec<(Key, Record), ELEMENT_ROOM>,
    /// The numbers of the pages below, from left to right. A leaf has none.
    pub sons: ArrayVec<u32, SON_ROOM>,
}

impl Node {
    /// A leaf with no keys, to be filled. No page spells it.
    pub fn blank() -> Node
        ensures kind { result.kind ≡ Leaf }
        ensures elements { result.elements.items ≡ [] }
        ensures sons { result.sons.items ≡ [] }
    {
        Node {
            kind: NodeKind::Leaf,
            elements: ArrayVec::new(),
            sons: ArrayVec::new(),
        }
    }
}

/// Why a page is no node. The faults are tested in this order.
#[derive(Clone, Copy, Debug, PartialEq, Eq, Error)]
pub enum NodeFault {
    #[error("the page is neither a leaf nor an inner page")]
    Kind,
    #[error("the number of keys does not fit the order")]
    Count,
    #[error("a key has a length that no key has")]
    KeyLength,
    #[error("a record has a length that no record has")]
    RecordLength,
    #[error("the keys do not ascend")]
    Order,
    #[error("a son is no page number")]
    Son,
    #[error("a byte that belongs to no field is not zero")]
    NotZero,
}
