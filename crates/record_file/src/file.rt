ghost use Rattle.std.specs.Prelude.{[], ◌≡◌, ◌≢◌, ◌<◌, Some, None, Ok, Err, MatchResult};
ghost use Rattle.std.specs.FinMap as maps;
ghost use Rattle.record_file.specs.Abstract.{new_file};
ghost use Rattle.record_file.specs.Durable.{AsksKeeper, KeptStep};
ghost use Rattle.record_file.specs.Runs.{Made, Begin, Savepoint, Release, Commit, GivesTable};
ghost use Rattle.record_file.specs.TableCalls.{LeavesLog, SameTable};
ghost use Rattle.tx_log.specs.Written.{own, writes};

mod changes;
mod fronts;
mod looks;
mod owned;
mod refusals;
mod rollbacks;

use crate::fault::{CommitFault, ReleaseFault, SavepointFault};
use crate::keeper::{KeepFault, Keeper};
use rec_types::{Limits, Memory, Table, TxId};
use std::alloc::Global;
use std::marker::Model;
use tx_log::{BeginFault, MOST_SAVEPOINTS, Phase, TxLog};

/// Transactions over a table. Contracts see the table itself and the abstract file.
#[derive(Drop)]
pub struct RecordFile<T: Table> {
    table: T,
    log: TxLog,
}

/// A file some of whose transactions haven't ended, and how many.
#[derive(Drop)]
pub struct StillOpen<T: Table> {
    pub file: RecordFile<T>,
    pub count: u32,
}

impl<T: Table> Model for RecordFile<T> {
    ghost use Rattle.record_file.specs.Abstract.{OpenFile, coded_open_file, file_of, IsRecordFile};

    ghost Value = { OpenFile T };

    ghost coded = { coded_open_file T.code };

    ghost view = { λ f. record {
      table = f.table;
      file = file_of f.log (T.contents f.table);
      log = f.log.records;
    } };

    ghost invariant = { λ f.
        IsRecordFile (T.sound f.table) (T.contents f.table) (T.record_limit f.table) f.log };
}

impl<T: Table> RecordFile<T> {
    /// A file over the table, in which nothing was begun. It takes no memory.
    pub fn new(alloc: Global, table: T, limits: Limits) -> RecordFile<T>
        requires { T.record_limit table ≡ limits.records }
        ensures { result ≡ record {
          table = table;
          file = new_file (T.contents table) limits;
          log = [];
        } }
    {
        let _count = table.count();
        RecordFile {
            table,
            log: TxLog::new(alloc, limits),
        }
    }

    /// The table, once every transaction has ended; else the file comes back, with the number of those that
    /// haven't. It takes no memory.
    pub fn into_table(self) -> Result<T, StillOpen<T>>
        ensures ended { maps.len self.file.txs ≡ 0 → result ≡ Ok self.table }
        ensures still_open { maps.len self.file.txs ≢ 0
            → result ≡ Err (record { file = self; count = maps.len self.file.txs }) }
        ensures step { MatchResult result (λ _. GivesTable self.file None)
            (λ still. GivesTable self.file (Some still.count)) }
    {
        let count = self.log.open_count();
        if count == 0 {
            let RecordFile { table, .. } = self;
            Ok(table)
        } else {
            Err(StillOpen { file: self, count })
        }
    }

    /// The table as it is, with the changes of transactions that are open still: the log, by which they could be taken
    /// back, is given up. It takes no memory.
    pub fn abandon(self) -> T
        ensures { result ≡ self.table }
    {
        let RecordFile { table, .. } = self;
        table
    }

    /// Begins a transaction; its number is the count of those begun. Faults: BeginsSpent, Memory.
    pub fn begin(&mut self) -> Result<TxId, BeginFault>
        ensures { Made T.TableState self.old (Begin result) self.new }
    {
        self.log.begin()
    }

    /// Sets a savepoint, and answers its number. Faults: NoSuchTx, Rolling, TooDeep. It takes no memory.
    pub fn savepoint(&mut self, tx: TxId) -> Result<u32, SavepointFault>
        ensures { Made T.TableState self.old (Savepoint tx result) self.new }
    {
        match self.log.phase(tx) {
            None => Err(SavepointFault::NoSuchTx),
            Some(Phase::Rolling { .. }) => Err(SavepointFault::Rolling),
            Some(Phase::Active) => {
                if self.log.depth(tx) as usize >= MOST_SAVEPOINTS {
                    return Err(SavepointFault::TooDeep);
                }
                Ok(self.log.savepoint(tx))
            }
        }
    }

    /// Drops savepoint n and those above it. Faults: NoSuchTx, Rolling, NoSuchSave. It takes no memory.
    pub fn release(&mut self, tx: TxId, n: u32) -> Result<(), ReleaseFault>
        ensures { Made T.TableState self.old (Release tx n result) self.new }
    {
        match self.log.phase(tx) {
            None => Err(ReleaseFault::NoSuchTx),
            Some(Phase::Rolling { .. }) => Err(ReleaseFault::Rolling),
            Some(Phase::Active) => {
                if n == 0 || n > self.log.depth(tx) {
                    return Err(ReleaseFault::NoSuchSave);
                }
                self.log.release(tx, n);
                Ok(())
            }
        }
    }

    /// Ends a transaction; its changes stay. Faults: NoSuchTx, Rolling. It takes no memory.
    pub fn commit(&mut self, tx: TxId) -> Result<(), CommitFault>
        ensures { Made T.TableState self.old (Commit tx result) self.new }
    {
        match self.log.phase(tx) {
            None => Err(CommitFault::NoSuchTx),
            Some(Phase::Rolling { .. }) => Err(CommitFault::Rolling),
            Some(Phase::Active) => {
                self.log.end(tx);
                Ok(())
            }
        }
    }

    /// Ends a transaction once a keeper has kept what its live changes write; its changes stay. Where the keeper keeps nothing,
    /// it is `commit`. Faults: Refused, where a commit is refused; Memory; Unkept, with what the keeper answered. A fault
    /// leaves the file as it was, and nothing more is kept; though of a Doubt the writes may be found after a stop.
    pub fn commit_kept<K: Keeper<T>>(&mut self, tx: TxId, keeper: &mut K) -> Result<(), KeepFault>
        ensures step { KeptStep K.keeps self.old.file tx.0 result self.new.file }
        ensures asked { AsksKeeper (K.answers keeper.old) K.keeps
            (writes (own tx.0 self.old.file.history)) self.old.table result self.new.table }
        ensures same { SameTable T.TableState self.old.table self.new.table }
        ensures moves { K.moves self.old.table self.new.table }
        ensures log { LeavesLog self.old self.new }
    {
        if !keeper.keeps() {
            self.commit(tx)?;
            return Ok(());
        }
        let changes = self.changes_of(tx)?;
        keeper.keep(&mut self.table, &changes)?;
        self.log.end(tx);
        Ok(())
    }
}
