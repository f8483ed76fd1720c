ghost use Rattle.std.specs.Prelude.{◌≡◌, ◌<◌, ◌≤◌, true, false, Some, None, Ok, Err, IsTrue, OnOk, OnErr};
ghost use Rattle.std.specs.FinMap as maps;
ghost use Rattle.rec_types.specs.History.{undo_last};
ghost use Rattle.rec_types.specs.Table.{counted};
ghost use Rattle.rec_types.specs.Answered.{Answered};
ghost use Rattle.record_file.specs.Abstract.{tx_of, phase_at, with_open_txs};
ghost use Rattle.tx_log.specs.Transactions.{depth_of, left_in};
ghost use Rattle.tx_log.specs.LogState.{rolling_to, finished, IsRolling};
ghost use Rattle.record_file.specs.Outside.{by_memory, NeverDamaged};
ghost use Rattle.record_file.specs.Refusals.{stop_refusal, cause_by};
ghost use Rattle.record_file.specs.Runs.{Made, RollbackTo, Abort, Resume};
ghost use Rattle.record_file.specs.declared.refusal.Refusal.TheVariants.{Failed};
ghost use Rattle.record_file.specs.TableCalls.{ChangesTable, undone_by, step_key};
ghost use Rattle.record_file.specs.Asked.{UndoAsks, StepAsks, restores};
ghost use Rattle.record_file.specs.Seen.{seen};
ghost use Rattle.record_file.specs.Steps.{RollsBack, RollsFrom, places_at};

use super::RecordFile;
use crate::fault::{AbortFault, Cause, ResumeFault, RollbackToFault, Stop};
use rec_types::{Memory, Table, TableFault, TxId};
use tx_log::{Phase, UndoStep};

impl<T: Table> RecordFile<T> {
    /// Takes back the changes made since savepoint n, newest first, and answers how many; 0 is the
    /// beginning. Savepoint n stays, and those above it are dropped at once. Faults: NoSuchTx, Rolling,
    /// NoSuchSave, Stopped. A stop leaves the transaction rolling.
    pub fn rollback_to(&mut self, tx: TxId, n: u32) -> Result<u32, RollbackToFault>
        ensures { Made T.TableState self.old (RollbackTo tx n result) self.new }
    {
        match self.log.phase(tx) {
            None => Err(RollbackToFault::NoSuchTx),
            Some(Phase::Rolling { .. }) => Err(RollbackToFault::Rolling),
            Some(Phase::Active) => {
                if n > self.log.depth(tx) {
                    return Err(RollbackToFault::NoSuchSave);
                }
                Ok(self.roll_back(tx, n, false)?)
            }
        }
    }

    /// Takes back every change of the transaction, newest first, and ends it. Faults: NoSuchTx, Rolling,
    /// Stopped. A stop leaves the transaction rolling; it ends once its rollback is finished.
    pub fn abort(&mut self, tx: TxId) -> Result<u32, AbortFault>
        ensures { Made T.TableState self.old (Abort tx result) self.new }
    {
        match self.log.phase(tx) {
            None => Err(AbortFault::NoSuchTx),
            Some(Phase::Rolling { .. }) => Err(AbortFault::Rolling),
            Some(Phase::Active) => Ok(self.roll_back(tx, 0, true)?),
        }
    }

    /// Goes on with a rollback that was stopped, and answers how many changes this call took back. Faults:
    /// NoSuchTx, NotRolling, Stopped.
    pub fn resume(&mut self, tx: TxId) -> Result<u32, ResumeFault>
        ensures { Made T.TableState self.old (Resume tx result) self.new }
    {
        match self.log.phase(tx) {
            None => Err(ResumeFault::NoSuchTx),
            Some(Phase::Active) => Err(ResumeFault::NotRolling),
            Some(Phase::Rolling { .. }) => Ok(self.take_back(tx)?),
        }
    }

    // Starts a rollback of an active transaction, and takes back what it has to.
    fn roll_back(&mut self, tx: TxId, n: u32, ends: bool) -> Result<u32, Stop>
        requires active { phase_at self.old.file tx.0 ≡ Some Phase.Active }
        requires within { n ≤ depth_of (tx_of self.old.file tx.0) }
        requires whole { IsTrue ends → n ≡ 0 }
        ensures rolled { RollsFrom self.old.file tx.0 n ends result self.new.file }
        ensures table { ChangesTable T.TableState self.old (cause_by stop_refusal result) self.new }
        ensures memory { T.memory_refusals self.new.table
            ≡ counted (T.memory_refusals self.old.table) (by_memory (cause_by stop_refusal result)) }
        ensures damaged { NeverDamaged (T.sound self.old.table) (cause_by stop_refusal result) }
        ensures asks { UndoAsks (seen T.TableState self.old) (cause_by stop_refusal result) (seen T.TableState self.new) }
    {
        self.start_rollback(tx, n, ends);
        self.take_back(tx)
    }

    // Starts a rollback of an active transaction.
    fn start_rollback(&mut self, tx: TxId, n: u32, ends: bool)
        requires active { phase_at self.old.file tx.0 ≡ Some Phase.Active }
        requires within { n ≤ depth_of (tx_of self.old.file tx.0) }
        requires whole { IsTrue ends → n ≡ 0 }
        ensures { self.new ≡ with_open_txs self.old (maps.insert self.old.file.txs tx.0
            (rolling_to (places_at self.old.file tx.0) n ends)) }
    {
        self.log.start_rollback(tx, n, ends);
    }

    // Takes back what a rollback under way has left, newest first, and finishes it.
    fn take_back(&mut self, tx: TxId) -> Result<u32, Stop>
        requires { IsRolling (phase_at self.old.file tx.0) }
        ensures rolled { RollsBack self.old.file tx.0 result self.new.file }
        ensures damaged { NeverDamaged (T.sound self.old.table) (cause_by stop_refusal result) }
        ensures asks { UndoAsks (seen T.TableState self.old) (cause_by stop_refusal result) (seen T.TableState self.new) }
        ensures table { ChangesTable T.TableState self.old (cause_by stop_refusal result) self.new }
        ensures memory { T.memory_refusals self.new.table
            ≡ counted (T.memory_refusals self.old.table) (by_memory (cause_by stop_refusal result)) }
    {
        let total = self.left(tx);
        for undone in 0..total {
            if let Err(cause) = self.take_one_back(tx) {
                return Err(Stop {
                    undone,
                    left: total - undone,
                    cause,
                });
            }
        }
        self.finish(tx);
        Ok(total)
    }

    // Takes back the newest change that a rollback under way has left: one `set`, or none for a claim, and one
    // compensation.
    fn take_one_back(&mut self, tx: TxId) -> Result<(), Cause>
        requires { 0 < left_in self.old.file.history tx.0 (tx_of self.old.file tx.0) }
        ensures ok { OnOk result (self.new.file ≡ record self.old.file {
          opening = self.new.file.opening;
          history = undo_last tx.0 self.old.file.history;
        }) }
        ensures err { OnErr result (self.new.file ≡ self.old.file) }
        ensures damaged { NeverDamaged (T.sound self.old.table) (cause_by Failed result) }
        ensures asks { UndoAsks (seen T.TableState self.old) (cause_by Failed result) (seen T.TableState self.new) }
        ensures table { ChangesTable T.TableState self.old (cause_by Failed result) self.new }
        ensures memory { T.memory_refusals self.new.table
            ≡ counted (T.memory_refusals self.old.table) (by_memory (cause_by Failed result)) }
    {
        let step = self.log.next_undo(tx).unwrap();
        put_back(&mut self.table, step)?;
        let _lsn = self.log.compensate(tx);
        Ok(())
    }

    // How many changes a rollback under way is still to take back.
    fn left(&self, tx: TxId) -> u32
        ensures { result ≡ left_in self.now.file.history tx.0 (tx_of self.now.file tx.0) }
    {
        self.log.left(tx)
    }

    // Ends a rollback that has nothing left.
    fn finish(&mut self, tx: TxId)
        requires rolling { IsRolling (phase_at self.old.file tx.0) }
        requires done { left_in self.old.file.history tx.0 (tx_of self.old.file tx.0) ≡ 0 }
        ensures { self.new ≡ with_open_txs self.old
            (finished self.old.file.txs tx.0 (tx_of self.old.file tx.0)) }
    {
        self.log.finish(tx);
    }
}

// Makes an undo step on the table. Of a claim it asks nothing.
fn put_back<T: Table>(table: &mut T, step: UndoStep) -> Result<(), TableFault>
    ensures ok { IsTrue (T.sound table.old)
        → OnOk result (T.contents table.new ≡ undone_by (T.contents table.old) step) }
    ensures err { OnErr result (T.contents table.new ≡ T.contents table.old) }
    ensures no_room { IsTrue (T.sound table.old) → result ≡ Err TableFault.NoRoom
        → (maps.get (T.contents table.old) (step_key step) ≡ None)
        × (T.record_limit table.old ≤ maps.len (T.contents table.old)) }
    ensures answered { Answered T.TableState table.old result table.new }
    ensures claim { restores step ≡ false → result ≡ Ok tt }
    ensures asks { StepAsks (T.calls table.old) step result (T.calls table.new) }
{
    match step {
        UndoStep::Restore { key, before } => match table.set(key, before) {
            Ok(_) => Ok(()),
            Err(fault) => Err(fault),
        },
        UndoStep::Unclaim { .. } => Ok(()),
    }
}
