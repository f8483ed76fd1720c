ghost use Rattle.std.specs.Prelude.{◌≡◌, ℕ, OnOk, IsSome};
ghost use Rattle.std.specs.FinMap.{get};
ghost use Rattle.page_rescue.specs.Rescue.{GrowsBy, IsAmong, Is, HasKeys};

use crate::rescue::RescueFault;
use rec_types::{Key, Record, SortedTable, Table};

// Puts a record at its key, where none stands there.
fn take(table: &mut SortedTable, key: &Key, value: &Record) -> Result<(), RescueFault>
    ensures grows { OnOk result
        (GrowsBy (Is key.now value.now) table.old.contents table.new.contents) }
    ensures has { OnOk result (IsSome (get table.new.contents key.now)) }
{
    if table.get(key)?.is_none() {
        table.set(*key, Some(*value))?;
    }
    Ok(())
}

/// Puts the records of a page at their keys, where none stand there. Faults: Memory, TooManyRecords; some are put then.
pub(crate) fn take_all(
    table: &mut SortedTable,
    elements: &[(Key, Record)],
) -> Result<(), RescueFault>
    ensures grows { OnOk result
        (GrowsBy (IsAmong elements.now) table.old.contents table.new.contents) }
    ensures has { OnOk result (HasKeys table.new.contents elements.now) }
{
    for element in elements {
        take(table, &element.0, &element.1)?;
    }
    Ok(())
}
