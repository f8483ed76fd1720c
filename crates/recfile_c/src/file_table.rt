use crate::journal::JournalStore;
use btree_delete::TreeTable;
use rec_types::{Gap, Key, Record, RecordSink, Side, SortedTable, Table, TableFault, TableState};

/// A table in memory, or in the pages of a file.
#[derive(Drop)]
pub enum FileTable {
    Memory(SortedTable),
    Paged(TreeTable<JournalStore>),
}

impl TableState for FileTable {
    ghost use Rattle.std.specs.Prelude.{Option, []};
    ghost use Rattle.btree_delete.specs.Origins.{Origin};
    ghost use Rattle.recfile_c.specs.FileTables.{contents_in, limit_of, is_sound, failures_in, refusals_in, damages_of, calls_of, origin_in};

    ghost contents = { contents_in };

    ghost record_limit = { limit_of };

    ghost sound = { is_sound };

    ghost device_failures = { failures_in };

    ghost memory_refusals = { refusals_in };

    ghost damages = { damages_of };

    ghost calls = { calls_of };

    ghost Source = { Option Origin };

    ghost origin = { origin_in };

    ghost commits = { λ _. [] };

    ghost doubt = { λ _. [] };
}

impl Table for FileTable {
    fn get(&mut self, key: &Key) -> Result<Option<Record>, TableFault> {
        match self {
            FileTable::Memory(table) => table.get(key),
            FileTable::Paged(table) => table.get(key),
        }
    }

    fn set(&mut self, key: Key, to: Option<Record>) -> Result<Option<Record>, TableFault> {
        match self {
            FileTable::Memory(table) => table.set(key, to),
            FileTable::Paged(table) => table.set(key, to),
        }
    }

    fn beside(&mut self, side: Side, gap: &Gap) -> Result<Option<(Key, Record)>, TableFault> {
        match self {
            FileTable::Memory(table) => table.beside(side, gap),
            FileTable::Paged(table) => table.beside(side, gap),
        }
    }

    fn entries(&mut self) -> Result<Vec<(Key, Record)>, TableFault> {
        match self {
            FileTable::Memory(table) => table.entries(),
            FileTable::Paged(table) => table.entries(),
        }
    }

    fn tell<O, K: RecordSink<O>>(
        &mut self,
        sink: &mut K,
        out: &mut O,
    ) -> Result<Result<(), K::Fault>, TableFault> {
        match self {
            FileTable::Memory(table) => table.tell(sink, out),
            FileTable::Paged(table) => table.tell(sink, out),
        }
    }

    fn tell_beside<O, K: RecordSink<O>>(
        &mut self,
        side: Side,
        gap: &Gap,
        sink: &mut K,
        out: &mut O,
    ) -> Result<Result<(), K::Fault>, TableFault> {
        match self {
            FileTable::Memory(table) => table.tell_beside(side, gap, sink, out),
            FileTable::Paged(table) => table.tell_beside(side, gap, sink, out),
        }
    }

    fn count(&self) -> u32 {
        match self {
            FileTable::Memory(table) => table.count(),
            FileTable::Paged(table) => table.count(),
        }
    }

    fn limit(&self) -> u32 {
        match self {
            FileTable::Memory(table) => table.limit(),
            FileTable::Paged(table) => table.limit(),
        }
    }
}
