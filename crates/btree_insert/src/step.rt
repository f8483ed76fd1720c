ghost use Rattle.std.specs.Prelude.{◌≡◌, ◌<◌, ◌⊎◌, ◌↔◌, IsTrue, IsOk, IfOk, IfErr, OnOk, MatchResult};
ghost use Rattle.page_store.specs.PageMap.{at};
ghost use Rattle.btree_node.specs.Spelling.{spelling, CanStand, IsNodePage};
ghost use Rattle.btree_node.specs.declared.node.Node.{Node};
ghost use Rattle.btree_insert.specs.Bounds.{AreWithin, low_at, high_at, son_bounds};
ghost use Rattle.btree_insert.specs.PageTrees.{Spells};
ghost use Rattle.btree_insert.specs.Steps.{Steps, BelongsAt, Stepped, CanSearch, HasSonAt, root_spot};
ghost use Rattle.btree_insert.specs.Edits.{IsInUse, Reads};

use crate::bounds::{Bounds, UNBOUNDED, is_over, is_under};
use crate::reading::{kind_of_level, read_bytes};
use crate::tree::{Tree, TreeFault};
use btree_node::{count_in, key_in, kind_in, place_in, record_in, son_in};
use page_store::{Pages, Store};
use rec_types::{Key, PAGE_WIDTH, Record};

/// A page on the way down from a root.
#[derive(Clone, Copy)]
pub struct Spot {
    /// Its number.
    pub page: u32,
    /// Its level, where level 1 is the lowest.
    pub level: u32,
    /// What all levels above say of its keys.
    pub bounds: Bounds,
}

/// The page at the root of a tree.
pub fn root_spot(tree: &Tree) -> Spot
    ensures { result ≡ root_spot tree.now }
{
    Spot {
        page: tree.root,
        level: tree.height,
        bounds: UNBOUNDED,
    }
}

/// Where the search for a key goes from a page.
#[derive(Clone, Copy)]
pub enum Step {
    /// The key stands at this place of the page, with this record.
    Found(usize, Record),
    /// The page is a leaf, and the key would stand at this place.
    Ends(usize),
    /// The key is below the son at this place, which has this number and these bounds.
    Goes(usize, u32, Bounds),
}

/// Takes the step of the search for a key from the page at a spot. Where `in_place`, a page in memory is
/// searched where it lies; any other is read into the bytes, and searched there. Faults: Device, and
/// Damaged with the page where it is not in use or no node that belongs at the spot. No page changes.
pub(crate) fn take_step<S: Store>(
    pages: &mut Pages<S>,
    order: u16,
    spot: &Spot,
    key: &Key,
    in_place: bool,
    bytes: &mut [u8; PAGE_WIDTH],
) -> Result<Step, TreeFault>
    requires search { CanSearch order spot.now in_place pages.old }
    ensures exact { IsTrue pages.old.steady → (m : Node)
        → Spells order (at pages.old.pages) spot.now.page m → BelongsAt spot.now m
        → MatchResult result (Steps spot.now.level m spot.now.bounds key.now)
        (λ fault. fault ≡ TreeFault.Device) }
    ensures stepped { IfOk result
        (Stepped order pages.old spot.now key.now in_place bytes.new) }
    ensures in_use { OnOk result (IsInUse pages.old.pages spot.now.page) }
    ensures fault { IfErr result
        (λ fault. (fault ≡ TreeFault.Device) ⊎ (fault ≡ TreeFault.Damaged spot.now.page)) }
    ensures reading { Reads 1 pages.old result pages.new }
{
    if in_place {
        if let Some(page) = pages.in_memory(spot.page) {
            return step_in_page(page, order, spot, key);
        }
    }
    read_bytes(pages, order, spot.page, bytes)?;
    step_in_page(bytes, order, spot, key)
}

/// The step from a page that spells a node. Fault: Damaged with the page where the node does not belong at
/// the spot.
pub fn step_in_page(
    page: &[u8; PAGE_WIDTH],
    order: u16,
    spot: &Spot,
    key: &Key,
) -> Result<Step, TreeFault>
    requires page { IsNodePage order page.now }
    requires level { 0 < spot.now.level }
    ensures steps { (m : Node) → CanStand m order → page.now ≡ spelling m order
        → IfOk result (λ step. BelongsAt spot.now m
        × Steps spot.now.level m spot.now.bounds key.now step) }
    ensures exact { (m : Node) → CanStand m order → page.now ≡ spelling m order
        → BelongsAt spot.now m → IsOk result }
    ensures fault { IfErr result (λ fault. fault ≡ TreeFault.Damaged spot.now.page) }
{
    if kind_in(page) != kind_of_level(spot.level) || !is_page_within(page, order, &spot.bounds) {
        return Err(TreeFault::Damaged(spot.page));
    }
    match place_in(page, order, key) {
        Ok(i) => Ok(Step::Found(i, record_in(page, order, i))),
        Err(i) => {
            if spot.level == 1 {
                return Ok(Step::Ends(i));
            }
            let below = bounds_in(page, order, &spot.bounds, i);
            Ok(Step::Goes(i, son_in(page, order, i), below))
        }
    }
}

/// Whether the keys of the node that the page spells are within the bounds, in a tree of that order.
pub fn is_page_within(page: &[u8; PAGE_WIDTH], order: u16, bounds: &Bounds) -> bool
    requires { IsNodePage order page.now }
    ensures { (m : Node) → CanStand m order → page.now ≡ spelling m order
        → IsTrue result ↔ AreWithin bounds.now m.elements.items }
{
    let first = key_in(page, order, 0);
    let last = key_in(page, order, count_in(page) - 1);
    is_over(&bounds.low, &first) && is_under(&bounds.high, &last)
}

/// The bounds of son i of the node that the page spells: the same as `bounds_of_son` of its elements.
pub(crate) fn bounds_in(page: &[u8; PAGE_WIDTH], order: u16, bounds: &Bounds, i: usize) -> Bounds
    requires { HasSonAt order page.now i }
    ensures { (m : Node) → CanStand m order → page.now ≡ spelling m order
        → result ≡ son_bounds m.elements.items i bounds.now }
{
    Bounds {
        low: low_in(page, order, &bounds.low, i),
        high: high_in(page, order, &bounds.high, i),
    }
}

fn low_in(page: &[u8; PAGE_WIDTH], order: u16, low: &Option<Key>, i: usize) -> Option<Key>
    requires { HasSonAt order page.now i }
    ensures { (m : Node) → CanStand m order → page.now ≡ spelling m order
        → result ≡ low_at m.elements.items i low.now }
{
    if i == 0 {
        *low
    } else {
        Some(key_in(page, order, i - 1))
    }
}

fn high_in(page: &[u8; PAGE_WIDTH], order: u16, high: &Option<Key>, i: usize) -> Option<Key>
    requires { HasSonAt order page.now i }
    ensures { (m : Node) → CanStand m order → page.now ≡ spelling m order
        → result ≡ high_at m.elements.items i high.now }
{
    if i == count_in(page) {
        *high
    } else {
        Some(key_in(page, order, i))
    }
}
