use btree_delete::TreeTable;
use command_text::write_unit;
use page_journal::{Disk, KeptStore};
use page_store::AppendFault;
use rec_types::{Key, Record, TxId};
use record_file::{Keeper, KeeperFault};
use std::alloc::Global;

/// Keeps the commits of a session over a page file in the log of commits beside it: each as a script that makes its writes,
/// which have the numbers from 1 on. A commit without writes is kept as it is.
#[derive(Clone, Copy)]
pub struct LogKeeper {
    alloc: Global,
    number: u32,
}

impl LogKeeper {
    /// A keeper for a log in which no commit is yet.
    pub fn new(alloc: Global) -> LogKeeper {
        LogKeeper { alloc, number: 0 }
    }
}

impl<D: Disk + Drop> Keeper<TreeTable<KeptStore<D>>> for LogKeeper {
    ghost use Rattle.std.specs.Prelude.{true};
    ghost use Rattle.file_session.specs.LogKeeping.{IsKeptBeside, MadeKept, beside_none, beside_on};

    ghost keeps = { true };

    ghost answers = { λ _ old es answer new. MadeKept es old answer new };

    ghost moves = { IsKeptBeside };

    ghost moves_none = { beside_none };

    ghost moves_on = { beside_on };

    fn keeps(&self) -> bool {
        true
    }

    fn keep(
        &mut self,
        table: &mut TreeTable<KeptStore<D>>,
        writes: &[(Key, Option<Record>)],
    ) -> Result<(), KeeperFault> {
        if writes.is_empty() {
            return Ok(());
        }
        let number = self.number.saturating_add(1);
        let Ok(text) = write_unit(self.alloc, TxId(number), writes) else {
            return Err(KeeperFault::Memory);
        };
        match table.keep_commit(text) {
            Ok(()) => {
                self.number = number;
                Ok(())
            }
            Err(AppendFault::Room) => Err(KeeperFault::Room),
            Err(AppendFault::Doubt) => Err(KeeperFault::Doubt),
        }
    }
}
