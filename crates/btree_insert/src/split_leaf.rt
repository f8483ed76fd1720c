ghost use Rattle.std.specs.Prelude.{◌≡◌, ◌*◌, ◌<◌, ℕ, IfOk, slice_index_or};
ghost use Rattle.std.specs.List.{insert, remove};
ghost use Rattle.btree_node.specs.Cut.{left_of, right_of};
ghost use Rattle.btree_node.specs.Layout.{IsOrder};
ghost use Rattle.btree_node.specs.Lists.{Element};
ghost use Rattle.btree_node.specs.Reading.{count_at};
ghost use Rattle.btree_node.specs.Spelling.{spelling, CanStand, IsElement, IsNodePage, IsSpelt};
ghost use Rattle.btree_node.specs.Written.{with_elements};
ghost use Rattle.btree_node.specs.declared.node.Node.{Node};
ghost use Rattle.btree_insert.specs.Growth.{MayGain, WritesHalves};

use btree_node::{drop_first, insert_in, keep_first, key_in, record_in, remove_in};
use page_store::PageEdit;
use rec_types::{Key, Memory, PAGE_WIDTH, Record};

/// Takes element i out of the node that the page spells, and answers it.
fn take_out(page: &mut [u8; PAGE_WIDTH], order: u16, i: usize) -> (Key, Record)
    requires page { IsNodePage order page.old }
    requires index { i < count_at page.old }
    ensures element { (m : Node) (other : Element) → CanStand m order → page.old ≡ spelling m order
        → result ≡ slice_index_or m.elements.items i other }
    ensures page { (m : Node) → CanStand m order → page.old ≡ spelling m order
        → page.new ≡ spelling (with_elements m (remove m.elements.items i)) order }
{
    let element = (key_in(page, order, i), record_in(page, order, i));
    remove_in(page, order, i);
    element
}

/// Cuts a full leaf with one element more, which comes before element i, around the middle of them, and answers that
/// one. Both pages spell the leaf; then the left one spells what stands before the middle, the right one what stands
/// behind it.
fn cut_leaf(
    left: &mut [u8; PAGE_WIDTH],
    right: &mut [u8; PAGE_WIDTH],
    order: u16,
    i: usize,
    element: &(Key, Record),
) -> (Key, Record)
    requires order { IsOrder order }
    requires page { IsSpelt order left.old }
    requires same { right.old ≡ left.old }
    requires full { count_at left.old ≡ 2 * order }
    requires element { IsElement element.now }
    requires leaf { (m : Node) → CanStand m order → left.old ≡ spelling m order
        → MayGain m i element.now }
    ensures middle { (m : Node) (other : Element) → CanStand m order → left.old ≡ spelling m order
        → result ≡ slice_index_or (insert m.elements.items i element.now) order other }
    ensures left { (m : Node) → CanStand m order → left.old ≡ spelling m order → left.new
        ≡ spelling (left_of order (with_elements m (insert m.elements.items i element.now))) order }
    ensures right { (m : Node) → CanStand m order → left.old ≡ spelling m order → right.new
        ≡ spelling (right_of order (with_elements m (insert m.elements.items i element.now))) order }
{
    let half = order as usize;
    keep_first(left, order, half);
    drop_first(right, order, half);
    if i <= half {
        insert_in(left, order, i, element);
        return take_out(left, order, half);
    }
    insert_in(right, order, i - half, element);
    take_out(right, order, 0)
}

/// Cuts page n, a full leaf, around the middle of its elements and the one that has its place at i, and answers the
/// middle one: what stands before it is written as page n, what stands behind it as another page.
pub(crate) fn write_halves(
    edit: &mut PageEdit,
    order: u16,
    n: u32,
    other: u32,
    page: &[u8; PAGE_WIDTH],
    i: usize,
    element: (Key, Record),
) -> Result<(Key, Record), Memory>
    requires order { IsOrder order }
    requires page { IsSpelt order page.now }
    requires full { count_at page.now ≡ 2 * order }
    requires element { IsElement element }
    requires leaf { (m : Node) → CanStand m order → page.now ≡ spelling m order
        → MayGain m i element }
    ensures cut { (m : Node) → CanStand m order → page.now ≡ spelling m order
        → IfOk result (λ middle. WritesHalves order n other edit.old.writes.items
        edit.new.writes.items (with_elements m (insert m.elements.items i element)) middle) }
    ensures taken { edit.new.taken ≡ edit.old.taken }
    ensures freed { edit.new.freed ≡ edit.old.freed }
{
    let mut left = *page;
    let mut right = *page;
    let middle = cut_leaf(&mut left, &mut right, order, i, &element);
    edit.writes.push((n, left))?;
    edit.writes.push((other, right))?;
    Ok(middle)
}
