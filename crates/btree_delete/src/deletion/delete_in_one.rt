ghost use Rattle.std.specs.Prelude.{◌≡◌, ◌≤◌, ◌-◌, ℕ, List, Some, IsTrue, IfSome, true};
ghost use Rattle.page_store.specs.ChangedPage.{BecomesAt};
ghost use Rattle.page_store.specs.PageMap.{at};
ghost use Rattle.btree_node.specs.Layout.{IsOrder};
ghost use Rattle.btree_node.specs.Lists.{Element};
ghost use Rattle.btree_node.specs.declared.page_change.PageChange.TheVariants.{Remove};
ghost use Rattle.btree_insert.specs.Bounds.{Between};
ghost use Rattle.btree_insert.specs.PageTrees.{TreeAt, Apart, Spells};
ghost use Rattle.btree_insert.specs.Reached.{Leads};
ghost use Rattle.btree_insert.specs.Spelt.{CanChange};
ghost use Rattle.btree_insert.specs.Steps.{CanSearch};
ghost use Rattle.btree_delete.specs.Shrinking.{Drops, Whole};
ghost use Rattle.btree_delete.specs.Subtrees.{head_page};
ghost use Rattle.btree_delete.specs.PagesLeft.{with_page};

use btree_insert::{Spot, Step, lies_at, step_in_page};
use btree_node::count_in;
use page_store::{Pages, Store};
use rec_types::{Key, Record};

/// The one page that a deletion changes.
#[derive(Clone, Copy)]
pub(crate) struct Taken {
    /// Its number.
    pub page: u32,
    /// Where in it the key stands.
    pub place: usize,
    /// What stands at the key.
    pub old: Record,
}

/// Finds where the key stands in the tree below the page at a spot, where it is in a leaf with a key to spare and all
/// pages on the way are in memory, changed or kept: its deletion changes one page. None where it is not so, or a page
/// does not belong on the way.
pub(crate) fn find_in_one<S: Store>(
    pages: &Pages<S>,
    order: u16,
    spot: &Spot,
    key: &Key,
) -> Option<Taken>
    requires order { IsOrder order }
    requires search { CanSearch order spot.now true pages.now }
    ensures drops { IsTrue pages.now.steady → (least : ℕ) (es : List Element) (us : List ℕ)
        → least ≤ order → TreeAt order (at pages.now.pages) least spot.now.level spot.now.page es us
        → Between spot.now.bounds es → Apart us
        → IfSome result (λ taken. (page : List ℕ)
        → BecomesAt order taken.page (Remove taken.place) pages.now.pages page
        → Drops (head_page order least (spot.now.level - 1) spot.now.page)
        (with_page (at pages.now.pages) taken.page page) es us key.now
        (Some (Whole (key.now, taken.old)))) }
    ensures led { IsTrue pages.now.steady → IfSome result (λ taken. Leads
        (Spells order (at pages.now.pages)) key.now spot.now.level spot.now.page spot.now.bounds
        (Some taken.old)) }
    ensures change { IfSome result
        (λ taken. CanChange order pages.now taken.page (Remove taken.place)) }
{
    let n = spot.page;
    let Some(page) = lies_at(pages, order, n) else {
        return None;
    };
    let Ok(step) = step_in_page(page, order, spot, key) else {
        return None;
    };
    match step {
        Step::Found(i, old) => {
            if spot.level > 1 || count_in(page) <= order as usize {
                return None;
            }
            Some(Taken {
                page: n,
                place: i,
                old,
            })
        }
        Step::Ends(_) => None,
        Step::Goes(_, son, bounds) => {
            let below = Spot {
                page: son,
                level: spot.level - 1,
                bounds,
            };
            find_in_one(pages, order, &below, key)
        }
    }
}
