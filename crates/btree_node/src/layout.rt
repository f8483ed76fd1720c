ghost use Rattle.std.specs.Prelude.{◌≡◌, ◌+◌, ◌*◌, ◌≤◌};
ghost use Rattle.rec_types.specs.Widths.{page_width};
ghost use Rattle.btree_node.specs.Layout.{layout_of, place_width, place_start, sons_start, most_keys, IsNarrow, CanHoldKeys, CanHoldOrder};

use rec_types::{KEY_WIDTH, RECORD_WIDTH};

/// The greatest order of a tree: a page of it has room for its places and sons.
pub const GREATEST_ORDER: u16 = 16;

/// The most keys of a page, of any order.
pub const MOST_KEYS: usize = 32;

/// Where the record's length stands in a place, behind the key's length and the key.
pub const RECORD_AT: usize = 1 + KEY_WIDTH;

/// The bytes before the first place: the kind, a zero, the number of keys, four zeros.
const HEAD_WIDTH: usize = 8;

/// The bytes of a son's page number.
pub const SON_WIDTH: usize = 4;

/// The number that tells the node pages of one file version from those of another.
#[derive(Clone, Copy)]
pub struct Layout {
    /// The bytes that a record may take.
    pub record_width: usize,
}

/// The number of the first file version, which is read.
pub const FIRST_VERSION: u16 = 1;

/// The number of the second file version, which is read and written.
pub const SECOND_VERSION: u16 = 2;

/// The node pages of the first file version, with records of up to 32 bytes.
pub const FIRST_LAYOUT: Layout = Layout { record_width: 32 };

/// The node pages of the second file version.
pub const SECOND_LAYOUT: Layout = Layout {
    record_width: RECORD_WIDTH,
};

/// The layout of the node pages of a file of that version.
pub fn layout_of(version: u16) -> Layout
    ensures value { result ≡ layout_of version }
    ensures narrow { IsNarrow result }
{
    if version == FIRST_VERSION {
        FIRST_LAYOUT
    } else {
        SECOND_LAYOUT
    }
}

impl Layout {
    /// The bytes of a place: a key and a record, each behind its length.
    pub fn place_width(self) -> usize
        requires { IsNarrow self }
        ensures { result ≡ place_width self }
    {
        RECORD_AT + 1 + self.record_width
    }

    /// Where place `i` begins.
    pub fn place_start(self, i: usize) -> usize
        requires { CanHoldKeys self i }
        ensures value { result ≡ place_start self i }
        ensures within { result + 4 * (most_keys + 1) ≤ page_width }
    {
        HEAD_WIDTH + self.place_width() * i
    }

    /// Where the sons begin in a page of order `k`: behind its places.
    pub fn sons_start(self, k: u16) -> usize
        requires { CanHoldOrder self k }
        ensures value { result ≡ sons_start self k }
        ensures within { result + 4 * (most_keys + 1) ≤ page_width }
    {
        self.place_start(2 * k as usize)
    }
}
