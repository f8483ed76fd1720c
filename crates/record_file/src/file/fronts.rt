ghost use Rattle.std.specs.Prelude.{List, Result};
ghost use Rattle.rec_types.specs.declared.transaction.Entry.{Entry as EntryValue};
ghost use Rattle.record_file.specs.AtMost.{IsLimitedTo};
ghost use Rattle.record_file.specs.Runs.{Made, EntriesBeside};
ghost use Rattle.record_file.specs.Steps.{listed};
ghost use Rattle.record_file.specs.declared.fault.EntriesFault.{EntriesFault as EntriesFaultValue};

use super::RecordFile;
use crate::entry_vec::EntryVec;
use crate::fault::EntriesFault;
use crate::{AtMost, SinkStop};
use rec_types::{Entry, Gap, Side, Table};
use std::alloc::Global;

impl<T: Table> RecordFile<T> {
    /// At most so many of the records on a side of a gap, the nearest first, each with the transaction that owns its key. Faults:
    /// Device or Damaged, Memory.
    pub fn entries_beside(
        &mut self,
        alloc: Global,
        side: Side,
        gap: &Gap,
        most: u32,
    ) -> Result<Vec<Entry>, EntriesFault>
        ensures { (all : Result (List EntryValue) EntriesFaultValue)
            × Made T.TableState self.old (EntriesBeside side gap.now all) self.new
            × IsLimitedTo most all (listed result) }
    {
        let list = EntryVec {
            entries: Vec::new(alloc),
        };
        let mut first = AtMost {
            sink: list,
            left: most,
        };
        let told = self.tell_beside(side, gap, &mut first);
        match SinkStop::unless_enough(told) {
            Ok(Ok(())) => Ok(first.sink.entries),
            Ok(Err(_)) => Err(EntriesFault::Memory),
            Err(fault) => Err(fault),
        }
    }
}
