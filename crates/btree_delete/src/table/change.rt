ghost use Rattle.std.specs.Prelude.{◌≡◌, ◌≢◌, ◌+◌, ◌-◌, ◌<◌, ◌≤◌, ◌↔◌, ℕ, List, Option, Some, None, true, false, IsTrue, IsOk, IfOk, Ok, Err, MatchResult};
ghost use Rattle.rec_types.specs.LimitBounds.{most_records};
ghost use Rattle.rec_types.specs.Table.{NeverFull, counted, is_device, NeedsNoMemory};
ghost use Rattle.page_store.specs.PageMap.{at};
ghost use Rattle.page_store.specs.PagesView.{OnlyReads};
ghost use Rattle.btree_node.specs.Lists.{Element};
ghost use Rattle.btree_node.specs.Layout.{IsOrder};
ghost use Rattle.btree_insert.specs.Sizes.{greatest_height};
ghost use Rattle.btree_insert.specs.Contents.{lookup_in};
ghost use Rattle.btree_insert.specs.PageTrees.{Holds};
ghost use Rattle.btree_insert.specs.Spelt.{AreSpeltIn, IsSpeltTree};
ghost use Rattle.btree_delete.specs.TableView.{Fills};
ghost use Rattle.btree_delete.specs.TableAnswers.{IsSet, MayRefuse, KeepsLimits, StagesSet, ReadsToSet, TellsChange};

use crate::deletion::deleting::delete_in_place;
use crate::table::fault_counts::told;
use btree_insert::{Tree, insert_in_place, look_up};
use page_store::{Pages, Store};
use rec_types::{Key, Record, TableFault};
use std::alloc::Global;

/// Whether the tree has as many records as there may be, and none at the key. The key is looked up
/// only where there are so many. Faults: Device, Damaged.
fn is_full_for<S: Store>(
    pages: &mut Pages<S>,
    tree: &Tree,
    limit: u32,
    key: &Key,
) -> Result<bool, TableFault>
    requires order { IsOrder tree.now.order }
    requires height { tree.now.height ≤ greatest_height }
    requires spelt { AreSpeltIn tree.now.order pages.old }
    ensures full { IsTrue pages.old.steady → (es : List Element) (us : List ℕ)
        → Holds (at pages.old.pages) tree.now es us
        → MatchResult result
        (λ full. IsTrue full ↔ ((lookup_in key.now es ≡ None) × (limit ≤ tree.now.count)))
        (λ fault. fault ≡ TableFault.Device) }
    ensures no_memory { NeedsNoMemory result }
    ensures no_room { NeverFull result }
    ensures device { pages.new.failures ≡ counted pages.old.failures (is_device result) }
    ensures unchanged { OnlyReads pages.old pages.new }
    ensures no_read { tree.now.count < limit → (result ≡ Ok false) × (pages.new ≡ pages.old) }
    ensures reads { pages.new.reads ≤ pages.old.reads + tree.now.height }
{
    if tree.count < limit {
        return Ok(false);
    }
    let found = told(look_up(pages, tree, key))?;
    Ok(found.is_none())
}

/// Puts the record at the key, and answers the new tree and what stood there. Faults: Device, Damaged,
/// NoRoom, Memory. After a fault no page has changed.
fn put<S: Store>(
    alloc: Global,
    pages: &mut Pages<S>,
    tree: &Tree,
    limit: u32,
    key: Key,
    value: Record,
) -> Result<(Tree, Option<Record>), TableFault>
    requires tree { IsSpeltTree tree.now pages.old }
    requires limit { limit ≤ most_records }
    ensures set { IsTrue pages.old.steady → (es : List Element) (us : List ℕ)
        → Fills pages.old.pages tree.now es us → tree.now.count ≤ limit
        → MatchResult result (λ r. IsSet pages.new.pages r.0 limit es key (Some value) r.1)
        (MayRefuse limit tree.now.count es key (Some value)) }
    ensures limits { IfOk result (λ r. KeepsLimits tree.now r.0) }
    ensures spelt { AreSpeltIn tree.now.order pages.new }
    ensures changed { IsOk result → pages.new.changed ≡ true }
    ensures stages { StagesSet pages.old result pages.new }
    ensures reads { ReadsToSet tree.now limit (Some value) pages.old pages.new }
{
    let _count = pages.page_count();
    if is_full_for(pages, tree, limit, &key)? {
        return Err(TableFault::NoRoom);
    }
    told(insert_in_place(alloc, pages, tree, key, value))
}

/// Puts a record at the key, or takes the key out, and answers the new tree and what stood there.
/// Faults: Device, Damaged, NoRoom, Memory. After a fault no page has changed.
pub(crate) fn change<S: Store>(
    alloc: Global,
    pages: &mut Pages<S>,
    tree: &Tree,
    limit: u32,
    key: Key,
    to: Option<Record>,
) -> Result<(Tree, Option<Record>), TableFault>
    requires tree { IsSpeltTree tree.now pages.old }
    requires limit { limit ≤ most_records }
    ensures set { IsTrue pages.old.steady → (es : List Element) (us : List ℕ)
        → Fills pages.old.pages tree.now es us → tree.now.count ≤ limit
        → MatchResult result (λ r. IsSet pages.new.pages r.0 limit es key to r.1)
        (MayRefuse limit tree.now.count es key to) }
    ensures limits { IfOk result (λ r. KeepsLimits tree.now r.0) }
    ensures spelt { AreSpeltIn tree.now.order pages.new }
    ensures changed { TellsChange tree.now to pages.old result pages.new }
    ensures stages { StagesSet pages.old result pages.new }
    ensures reads { ReadsToSet tree.now limit to pages.old pages.new }
{
    match to {
        Some(value) => put(alloc, pages, tree, limit, key, value),
        None => told(delete_in_place(alloc, pages, tree, &key)),
    }
}
