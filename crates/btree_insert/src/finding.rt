ghost use Rattle.std.specs.Prelude.{◌≤◌, true};
ghost use Rattle.btree_node.specs.Layout.{IsOrder};
ghost use Rattle.btree_insert.specs.Lookups.{LooksUp, LooksUpBelow};
ghost use Rattle.btree_insert.specs.Sizes.{greatest_height};
ghost use Rattle.btree_insert.specs.Spelt.{AreSpeltIn};
ghost use Rattle.btree_insert.specs.Steps.{CanSearch};

use crate::reading::lies_at;
use crate::step::{Spot, Step, root_spot, step_in_page, take_step};
use crate::tree::{Tree, TreeFault};
use page_store::{Pages, Store};
use rec_types::{Key, PAGE_WIDTH, Record};

/// The record at the key. It reads one page per level from the root until it meets the key. The
/// conditions are an order from 1 to 16 and a height of at most 19. Faults: Device; Damaged with the
/// page that is not in use, spells no node of the order, is of a kind that does not fit its level, or
/// has a key that is not strictly between the bounds from all levels above. No page changes.
pub fn find<S: Store>(
    pages: &mut Pages<S>,
    tree: &Tree,
    key: &Key,
) -> Result<Option<Record>, TreeFault>
    requires order { IsOrder tree.now.order }
    requires height { tree.now.height ≤ greatest_height }
    ensures { LooksUp tree.now key.now pages.old result pages.new }
{
    if tree.height == 0 {
        return Ok(None);
    }
    read_below(pages, tree.order, &root_spot(tree), key, false)
}

/// The same as `find`, where each page in memory is known to spell a node of the order: it is searched
/// where it lies, and no node is made of it.
pub fn look_up<S: Store>(
    pages: &mut Pages<S>,
    tree: &Tree,
    key: &Key,
) -> Result<Option<Record>, TreeFault>
    requires order { IsOrder tree.now.order }
    requires height { tree.now.height ≤ greatest_height }
    requires spelt { AreSpeltIn tree.now.order pages.old }
    ensures { LooksUp tree.now key.now pages.old result pages.new }
{
    if tree.height == 0 {
        return Ok(None);
    }
    look_up_below(pages, tree.order, &root_spot(tree), key)
}

/// The record at the key in the tree below the page at a spot. Pages in memory, changed or kept, are searched where they
/// lie, down to the first one that isn't there.
fn look_up_below<S: Store>(
    pages: &mut Pages<S>,
    order: u16,
    spot: &Spot,
    key: &Key,
) -> Result<Option<Record>, TreeFault>
    requires search { CanSearch order spot.now true pages.old }
    ensures { LooksUpBelow order spot.now key.now pages.old result pages.new }
{
    let Some(lies) = lies_at(pages, order, spot.page) else {
        return read_below(pages, order, spot, key, true);
    };
    match step_in_page(lies, order, spot, key)? {
        Step::Found(_, value) => Ok(Some(value)),
        Step::Ends(_) => Ok(None),
        Step::Goes(_, page, bounds) => {
            let below = Spot {
                page,
                level: spot.level - 1,
                bounds,
            };
            look_up_below(pages, order, &below, key)
        }
    }
}

/// The record at the key in the tree below the page at a spot, with bytes into which pages are read. They
/// are made here, so that a look-up in memory has no room for them.
fn read_below<S: Store>(
    pages: &mut Pages<S>,
    order: u16,
    spot: &Spot,
    key: &Key,
    in_place: bool,
) -> Result<Option<Record>, TreeFault>
    requires search { CanSearch order spot.now in_place pages.old }
    ensures { LooksUpBelow order spot.now key.now pages.old result pages.new }
{
    let mut bytes = [0; PAGE_WIDTH];
    find_below(pages, order, spot, key, in_place, &mut bytes)
}

/// The record at the key in the tree below the page at a spot. Each page on the way that is not searched
/// where it lies is read into the bytes.
fn find_below<S: Store>(
    pages: &mut Pages<S>,
    order: u16,
    spot: &Spot,
    key: &Key,
    in_place: bool,
    bytes: &mut [u8; PAGE_WIDTH],
) -> Result<Option<Record>, TreeFault>
    requires search { CanSearch order spot.now in_place pages.old }
    ensures { LooksUpBelow order spot.now key.now pages.old result pages.new }
{
    match take_step(pages, order, spot, key, in_place, bytes)? {
        Step::Found(_, value) => Ok(Some(value)),
        Step::Ends(_) => Ok(None),
        Step::Goes(_, page, bounds) => {
            let below = Spot {
                page,
                level: spot.level - 1,
                bounds,
            };
            find_below(pages, order, &below, key, in_place, bytes)
        }
    }
}
