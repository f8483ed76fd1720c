ghost use Rattle.std.specs.Prelude.{◌≡◌, ◌*◌, ◌<◌, ◌∷◌, ◌++◌, [], ℕ, List, length, IsTrue, IsSome, IfSome, OnOk, slice_set, true};
ghost use Rattle.std.specs.List.{insert};
ghost use Rattle.page_store.specs.PageMap.{at};
ghost use Rattle.page_store.specs.ChangedPage.{BecomesAt};
ghost use Rattle.btree_node.specs.Lists.{Element, IsAt, IsPlace};
ghost use Rattle.btree_node.specs.Spelling.{spelling, CanStand, IsElement, IsSpelt, IsNodePage};
ghost use Rattle.btree_node.specs.declared.node.Node.{Node};
ghost use Rattle.btree_node.specs.declared.node.NodeKind.TheVariants.{Leaf};
ghost use Rattle.btree_insert.specs.Bounds.{Between};
ghost use Rattle.btree_insert.specs.Growth.{Grew, WritesAs, in_one, change_at, with_son, CanInsert, MayGainSon};
ghost use Rattle.btree_insert.specs.PageTrees.{Spells, TreeAt, Apart, tree_below};
ghost use Rattle.btree_insert.specs.Reached.{Leads};
ghost use Rattle.btree_insert.specs.Spelt.{CanChange};
ghost use Rattle.btree_insert.specs.PagesGrown.{written_over};
ghost use Rattle.btree_insert.specs.Edits.{OnlyWrites};

use crate::reading::lies_at;
use crate::step::{Spot, Step, step_in_page};
use btree_node::{PageChange, count_in, insert_in, insert_son_in, replace_in};
use page_store::{PageEdit, Pages, Store};
use rec_types::{Key, Memory, PAGE_WIDTH, Record};

/// The one page that an insertion changes.
#[derive(Clone, Copy)]
pub(crate) struct Placed {
    /// Its number.
    pub page: u32,
    /// Where in it the key stands, or would stand.
    pub place: usize,
    /// What stood at the key.
    pub old: Option<Record>,
}

/// The change of the page that puts the element there.
pub(crate) fn change_of(placed: &Placed, element: (Key, Record)) -> PageChange
    ensures { result ≡ change_at placed.now.place placed.now.old element }
{
    match placed.old {
        Some(_) => PageChange::Replace(placed.place, element),
        None => PageChange::Insert(placed.place, element),
    }
}

/// Finds the page that an insertion into the tree below a spot changes, where it changes one alone and all
/// pages on the way are in memory, changed or kept. None where it is not so, or a page does not belong on the way.
pub(crate) fn place_in_one<S: Store>(
    pages: &Pages<S>,
    order: u16,
    spot: &Spot,
    element: &(Key, Record),
) -> Option<Placed>
    requires { CanInsert order spot.now true pages.now element.now }
    ensures grew { IsTrue pages.now.steady → (least : ℕ) (es : List Element) (us : List ℕ)
        → TreeAt order (at pages.now.pages) least spot.now.level spot.now.page es us
        → Between spot.now.bounds es → Apart us
        → IfSome result (λ placed. (page : List ℕ) → BecomesAt order placed.page
        (change_at placed.place placed.old element.now) pages.now.pages page
        → Grew (tree_below order least spot.now.level spot.now.page)
        (written_over pages.now.pages placed.page page) es us element.now.0 element.now.1
        (in_one placed.old)) }
    ensures led { IsTrue pages.now.steady → IfSome result (λ placed. Leads
        (Spells order (at pages.now.pages)) element.now.0 spot.now.level spot.now.page
        spot.now.bounds placed.old) }
    ensures change { IfSome result (λ placed. CanChange order pages.now placed.page
        (change_at placed.place placed.old element.now)) }
{
    let n = spot.page;
    let Some(page) = lies_at(pages, order, n) else {
        return None;
    };
    let Ok(step) = step_in_page(page, order, spot, &element.0) else {
        return None;
    };
    match step {
        Step::Found(i, old) => Some(Placed {
            page: n,
            place: i,
            old: Some(old),
        }),
        Step::Ends(i) => {
            if count_in(page) >= 2 * order as usize {
                return None;
            }
            Some(Placed {
                page: n,
                place: i,
                old: None,
            })
        }
        Step::Goes(_, son, bounds) => {
            let below = Spot {
                page: son,
                level: spot.level - 1,
                bounds,
            };
            place_in_one(pages, order, &below, element)
        }
    }
}

/// Writes page n with the element in the place of the one that has its key.
pub(crate) fn write_replaced(
    edit: &mut PageEdit,
    order: u16,
    n: u32,
    page: &[u8; PAGE_WIDTH],
    i: usize,
    element: (Key, Record),
) -> Result<(), Memory>
    requires page { IsNodePage order page.now }
    requires element { IsElement element }
    requires found { (m : Node) → CanStand m order → page.now ≡ spelling m order
        → IsAt m.elements.items element.0 i }
    ensures writes { (m : Node) → CanStand m order → page.now ≡ spelling m order
        → OnOk result (WritesAs order n m (slice_set m.elements.items i element)
        edit.old.writes.items edit.new.writes.items) }
    ensures edit { OnlyWrites order edit.old result edit.new }
{
    let at = edit.writes.len();
    write_page(edit, order, n, page)?;
    replace_in(&mut edit.writes[at].1, order, i, &element);
    Ok(())
}

/// Adds a page to the edit as page n.
fn write_page(
    edit: &mut PageEdit,
    order: u16,
    n: u32,
    page: &[u8; PAGE_WIDTH],
) -> Result<(), Memory>
    requires { IsSpelt order page.now }
    ensures writes { OnOk result
        (edit.new.writes.items ≡ edit.old.writes.items ++ (n, page.now) ∷ []) }
    ensures edit { OnlyWrites order edit.old result edit.new }
{
    edit.writes.push((n, *page)).map_err(|_| Memory)
}

/// Writes page n, a leaf that has room, with the element at its place.
pub(crate) fn write_inserted(
    edit: &mut PageEdit,
    order: u16,
    n: u32,
    page: &[u8; PAGE_WIDTH],
    i: usize,
    element: (Key, Record),
) -> Result<(), Memory>
    requires page { IsNodePage order page.now }
    requires element { IsElement element }
    requires leaf { (m : Node) → CanStand m order → page.now ≡ spelling m order
        → (m.kind ≡ Leaf) × IsPlace m.elements.items element.0 i
        × (length m.elements.items < 2 * order) }
    ensures writes { (m : Node) → CanStand m order → page.now ≡ spelling m order
        → OnOk result (WritesAs order n m (insert m.elements.items i element)
        edit.old.writes.items edit.new.writes.items) }
    ensures edit { OnlyWrites order edit.old result edit.new }
{
    let at = edit.writes.len();
    write_page(edit, order, n, page)?;
    insert_in(&mut edit.writes[at].1, order, i, &element);
    Ok(())
}

/// Writes page n, an inner one that has room, with the element at its place and the son behind it.
pub(crate) fn write_with_son(
    edit: &mut PageEdit,
    order: u16,
    n: u32,
    page: &[u8; PAGE_WIDTH],
    i: usize,
    element: (Key, Record),
    son: u32,
) -> Result<(), Memory>
    requires page { IsNodePage order page.now }
    requires element { IsElement element }
    requires father { (m : Node) → CanStand m order → page.now ≡ spelling m order
        → MayGainSon m i element son × (length m.elements.items < 2 * order) }
    ensures writes { (m : Node) → CanStand m order → page.now ≡ spelling m order
        → OnOk result (edit.new.writes.items
        ≡ edit.old.writes.items ++ (n, spelling (with_son m i element son) order) ∷ []) }
    ensures edit { OnlyWrites order edit.old result edit.new }
{
    let at = edit.writes.len();
    write_page(edit, order, n, page)?;
    insert_son_in(&mut edit.writes[at].1, order, i, &element, son);
    Ok(())
}
