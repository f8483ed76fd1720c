ghost use Rattle.std.specs.Prelude.{◌≡◌};
ghost use Rattle.rec_types.specs.Table.{Damages, is_memory, counted, damaged_by};
ghost use Rattle.btree_delete.specs.TableAnswers.{table_answer};

use btree_insert::TreeFault;
use rec_types::TableFault;

/// How many answers were a refused growth, how many named a damaged page, and which page the last of
/// these named. The numbers stay at their greatest value.
#[derive(Clone, Copy)]
pub(crate) struct FaultCounts {
    pub refusals: u64,
    pub damaged: u64,
    pub page: u32,
}

/// No answer was a fault.
pub(crate) const NO_FAULTS: FaultCounts = FaultCounts {
    refusals: 0,
    damaged: 0,
    page: 0,
};

impl FaultCounts {
    /// Counts an answer.
    pub(crate) fn note<A>(&mut self, answer: &Result<A, TableFault>)
        ensures refusals { self.new.refusals ≡ counted self.old.refusals (is_memory answer.now) }
        ensures damages { ◌≡◌ {A = Damages}
            (record { count = self.new.damaged; page = self.new.page })
            (damaged_by (record { count = self.old.damaged; page = self.old.page }) answer.now) }
    {
        match answer {
            Err(TableFault::Memory) => self.refusals = self.refusals.saturating_add(1),
            Err(TableFault::Damaged(page)) => {
                self.damaged = self.damaged.saturating_add(1);
                self.page = *page;
            }
            Ok(_) | Err(TableFault::Device | TableFault::NoRoom) => {}
        }
    }
}

/// The answer of a table whose tree answers so.
pub(crate) fn told<A>(answer: Result<A, TreeFault>) -> Result<A, TableFault>
    ensures { result ≡ table_answer answer }
{
    match answer {
        Ok(value) => Ok(value),
        Err(TreeFault::Device) => Err(TableFault::Device),
        Err(TreeFault::Damaged(page)) => Err(TableFault::Damaged(page)),
        Err(TreeFault::Memory) => Err(TableFault::Memory),
    }
}
