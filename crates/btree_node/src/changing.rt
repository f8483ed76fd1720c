ghost use Rattle.std.specs.Prelude.{◌≡◌, suc, ◌+◌, ◌*◌, ◌<◌, ◌≤◌, ◌-◌, length, replicate, slice_set, take, drop};
ghost use Rattle.std.specs.List.{insert, remove};
ghost use Rattle.btree_node.specs.Layout.{second_layout, place_width};
ghost use Rattle.btree_node.specs.Reading.{count_at, part};
ghost use Rattle.btree_node.specs.Spelling.{field, place, spelling, CanStand, IsElement, IsNodePage};
ghost use Rattle.btree_node.specs.Written.{put_at, with_elements, with_parts};
ghost use Rattle.byteorder.specs.Endian.{big_bytes};
ghost use Rattle.rec_types.specs.Widths.{page_width};
ghost use Rattle.btree_node.specs.declared.node.Node.{Node};
ghost use Rattle.btree_node.specs.declared.node.NodeKind.TheVariants.{Inner};

use crate::decoding::count_of;
use crate::layout::{RECORD_AT, SECOND_LAYOUT, SON_WIDTH};
use byteorder::{BigEndian, ByteOrder};
use rec_types::{KEY_WIDTH, Key, PAGE_WIDTH, RECORD_WIDTH, Record};

/// Where the number of keys stands in a page.
const COUNT_AT: usize = 2;

/// Puts another element in the place of element i of the node that the page spells, in a tree of order
/// `k`.
pub fn replace_in(page: &mut [u8; PAGE_WIDTH], k: u16, i: usize, element: &(Key, Record))
    requires page { IsNodePage k page.old }
    requires element { IsElement element.now }
    requires index { i < count_at page.old }
    ensures { (node : Node) → CanStand node k → page.old ≡ spelling node k
        → page.new
        ≡ spelling (with_elements node (slice_set node.elements.items i element.now)) k }
{
    put_place(page, SECOND_LAYOUT.place_start(i), element);
}

/// Puts an element before element i of the node that the page spells, in a tree of order `k`. The page
/// has room for it.
pub fn insert_in(page: &mut [u8; PAGE_WIDTH], k: u16, i: usize, element: &(Key, Record))
    requires page { IsNodePage k page.old }
    requires element { IsElement element.now }
    requires index { i ≤ count_at page.old }
    requires room { count_at page.old < 2 * k }
    ensures { (node : Node) → CanStand node k → page.old ≡ spelling node k
        → page.new ≡ spelling (with_elements node (insert node.elements.items i element.now)) k }
{
    let count = count_of(page);
    let start = SECOND_LAYOUT.place_start(i);
    let end = SECOND_LAYOUT.place_start(count);
    move_bytes(page, start, end, SECOND_LAYOUT.place_start(i + 1));
    put_place(page, start, element);
    put_count(page, count + 1);
}

/// Puts an element before element i of the inner node that the page spells, and a son behind its son i, in a tree of
/// order `k`. The page has room for them.
pub fn insert_son_in(
    page: &mut [u8; PAGE_WIDTH],
    k: u16,
    i: usize,
    element: &(Key, Record),
    son: u32,
)
    requires page { IsNodePage k page.old }
    requires element { IsElement element.now }
    requires index { i ≤ count_at page.old }
    requires room { count_at page.old < 2 * k }
    ensures { (node : Node) → CanStand node k → node.kind ≡ Inner → page.old ≡ spelling node k
        → page.new ≡ spelling (with_parts node (insert node.elements.items i element.now)
        (insert node.sons.items (suc i) son)) k }
{
    let count = count_of(page);
    let sons = SECOND_LAYOUT.sons_start(k);
    let start = sons + SON_WIDTH * (i + 1);
    let end = sons + SON_WIDTH * (count + 1);
    insert_in(page, k, i, element);
    move_bytes(page, start, end, start + SON_WIDTH);
    put_son(page, start, son);
}

/// Writes a son over the bytes from `at` on.
fn put_son(page: &mut [u8; PAGE_WIDTH], at: usize, son: u32)
    requires { at + 4 ≤ page_width }
    ensures { page.new ≡ put_at at (big_bytes 4 son) page.old }
{
    let mut bytes = [0; 4];
    BigEndian::write_u32(&mut bytes, son);
    put_bytes(page, at, &bytes);
}

/// Takes element i out of the node that the page spells, in a tree of order `k`.
pub fn remove_in(page: &mut [u8; PAGE_WIDTH], k: u16, i: usize)
    requires page { IsNodePage k page.old }
    requires index { i < count_at page.old }
    ensures { (node : Node) → CanStand node k → page.old ≡ spelling node k
        → page.new ≡ spelling (with_elements node (remove node.elements.items i)) k }
{
    let left = count_of(page) - 1;
    let start = SECOND_LAYOUT.place_start(i + 1);
    let end = SECOND_LAYOUT.place_start(left + 1);
    move_bytes(page, start, end, SECOND_LAYOUT.place_start(i));
    put_zeros(
        page,
        SECOND_LAYOUT.place_start(left),
        SECOND_LAYOUT.place_width(),
    );
    put_count(page, left);
}

/// Leaves the first `m` elements of the node that the page spells, in a tree of order `k`, and all its sons.
pub fn keep_first(page: &mut [u8; PAGE_WIDTH], k: u16, m: usize)
    requires page { IsNodePage k page.old }
    requires index { m ≤ count_at page.old }
    ensures { (node : Node) → CanStand node k → page.old ≡ spelling node k
        → page.new ≡ spelling (with_elements node (take m node.elements.items)) k }
{
    let gone = count_of(page) - m;
    put_zeros(
        page,
        SECOND_LAYOUT.place_start(m),
        SECOND_LAYOUT.place_width() * gone,
    );
    put_count(page, m);
}

/// Takes the first `m` elements out of the node that the page spells, in a tree of order `k`, and leaves all its
/// sons.
pub fn drop_first(page: &mut [u8; PAGE_WIDTH], k: u16, m: usize)
    requires page { IsNodePage k page.old }
    requires index { m ≤ count_at page.old }
    ensures { (node : Node) → CanStand node k → page.old ≡ spelling node k
        → page.new ≡ spelling (with_elements node (drop m node.elements.items)) k }
{
    let count = count_of(page);
    let start = SECOND_LAYOUT.place_start(m);
    let past = SECOND_LAYOUT.place_start(count);
    move_bytes(page, start, past, SECOND_LAYOUT.place_start(0));
    put_zeros(
        page,
        SECOND_LAYOUT.place_start(count - m),
        SECOND_LAYOUT.place_width() * m,
    );
    put_count(page, count - m);
}

/// Writes the bytes from `start` to `end` over those from `at` on.
fn move_bytes(page: &mut [u8; PAGE_WIDTH], start: usize, end: usize, at: usize)
    requires from { start ≤ end }
    requires part { end ≤ page_width }
    requires room { at + (end - start) ≤ page_width }
    ensures { page.new ≡ put_at at (part start (end - start) page.old) page.old }
{
    page.copy_within(start..end, at);
}

/// Writes the number of keys.
fn put_count(page: &mut [u8; PAGE_WIDTH], count: usize)
    requires { count ≤ 65535 }
    ensures { page.new ≡ put_at 2 (big_bytes 2 count) page.old }
{
    let mut bytes = [0; 2];
    BigEndian::write_u16(&mut bytes, count as u16);
    put_bytes(page, COUNT_AT, &bytes);
}

/// Writes a place over the bytes from `at` on.
#[tactic(auto, unfolding(crate::specs::Spelling::place))]
fn put_place(page: &mut [u8; PAGE_WIDTH], at: usize, element: &(Key, Record))
    requires element { IsElement element.now }
    requires room { at + place_width second_layout ≤ page_width }
    ensures { page.new ≡ put_at at (place second_layout element.now) page.old }
{
    put_field(page, at, element.0.bytes(), KEY_WIDTH);
    put_field(page, at + RECORD_AT, element.1.bytes(), RECORD_WIDTH);
}

/// Writes a field over the bytes from `at` on: the bytes behind their number, padded to a width below
/// 256.
fn put_field(page: &mut [u8; PAGE_WIDTH], at: usize, bytes: &[u8], width: usize)
    requires fits { length bytes.now ≤ width }
    requires short { width ≤ 255 }
    requires room { at + (1 + width) ≤ page_width }
    ensures { page.new ≡ put_at at (field width bytes.now) page.old }
{
    let end = at + 1 + bytes.len();
    put_bytes(page, at, &[bytes.len() as u8]);
    put_bytes(page, at + 1, bytes);
    put_zeros(page, end, width - bytes.len());
}

/// Writes zeros over the bytes from `at` on.
fn put_zeros(page: &mut [u8; PAGE_WIDTH], at: usize, count: usize)
    requires { at + count ≤ page_width }
    ensures { page.new ≡ put_at at (replicate count 0) page.old }
{
    page[at..at + count].fill(0);
}

/// Writes bytes over those from `at` on.
fn put_bytes(page: &mut [u8; PAGE_WIDTH], at: usize, bytes: &[u8])
    requires { at + length bytes.now ≤ page_width }
    ensures { page.new ≡ put_at at bytes.now page.old }
{
    page[at..at + bytes.len()].copy_from_slice(bytes);
}
