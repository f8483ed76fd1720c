ghost use Rattle.std.specs.Prelude.{◌≡◌, ◌≢◌, ◌&&◌, Bool, not, is_none, Err, IsTrue, IfOk};
ghost use Rattle.rec_types.specs.Answered.{Answered};
ghost use Rattle.rec_types.specs.Table.{NeverFull, NeedsNoMemory};
ghost use Rattle.std.specs.FinMap as maps;
ghost use Rattle.record_file.specs.Abstract.{is_full, records_of};
ghost use Rattle.record_file.specs.Asked.{looked_unless, may_be_full};
ghost use Rattle.record_file.specs.Runs.{Made, Put, Claim, Remove};

use super::RecordFile;
use crate::fault::{ClaimFault, PutFault, RemoveFault};
use rec_types::{Key, Record, Table, TableFault, TxId};

impl<T: Table> RecordFile<T> {
    /// Puts a record at the key, and answers the one that stood there. Faults: NoSuchTx, Rolling, Held,
    /// LogFull, Device or Damaged, Full, Memory. A fault leaves everything unchanged.
    pub fn put(&mut self, tx: TxId, key: Key, value: Record) -> Result<Option<Record>, PutFault>
        ensures { Made T.TableState self.old (Put tx key value result) self.new }
    {
        self.allow_change(tx, &key)?;
        if self.is_full(&key)? {
            return Err(PutFault::Full);
        }
        self.log.reserve(&key)?; // Nothing is put that the log has no room for.
        let before = self.table.set(key, Some(value))?;
        let told = before.as_ref().copied();
        let _lsn = self.log.accept(tx, key, told, Some(value));
        Ok(before)
    }

    /// Claims the key without changing its record, and answers that. Faults: NoSuchTx, Rolling, Held, LogFull,
    /// Device or Damaged, Full, Memory. A fault leaves everything unchanged.
    pub fn claim(&mut self, tx: TxId, key: Key) -> Result<Option<Record>, ClaimFault>
        ensures { Made T.TableState self.old (Claim tx key result) self.new }
    {
        self.allow_change(tx, &key)?;
        let full = self.is_full_if_absent(&key);
        let seen = self.table.get(&key)?;
        if full && seen.is_none() {
            return Err(ClaimFault::Full);
        }
        self.log.reserve(&key)?;
        let told = seen.as_ref().copied();
        let _lsn = self.log.accept_claim(tx, key, told);
        Ok(seen)
    }

    /// Takes the record at the key out, and answers it. Faults: NoSuchTx, Rolling, Held, LogFull, Device or
    /// Damaged, Absent, Memory. A fault leaves everything unchanged.
    pub fn remove(&mut self, tx: TxId, key: Key) -> Result<Record, RemoveFault>
        ensures { Made T.TableState self.old (Remove tx key result) self.new }
    {
        self.allow_change(tx, &key)?;
        if self.table.get(&key)?.is_none() {
            return Err(RemoveFault::Absent);
        }
        self.log.reserve(&key)?;
        match self.table.set(key, None)? {
            Some(taken) => {
                let _lsn = self.log.accept(tx, key, Some(taken), None);
                Ok(taken)
            }
            None => Err(RemoveFault::Damaged(0)),
        }
    }

    // Whether the key isn't charged and the charged keys have reached the limit. The table is asked only
    // where they may have.
    fn is_full(&mut self, key: &Key) -> Result<bool, TableFault>
        ensures value { IsTrue (T.sound self.old.table)
            → IfOk result (λ full. full ≡ is_full self.old.file key.now) }
        ensures same { (T.contents self.new.table ≡ T.contents self.old.table)
            × (self.new.file ≡ self.old.file) × (self.new.log ≡ self.old.log) }
        ensures no_memory { NeedsNoMemory result }
        ensures no_room { NeverFull result }
        ensures answered { Answered T.TableState self.old.table result self.new.table }
        ensures looks { (looks : Bool)
            × (T.calls self.new.table ≡ looked_unless (not looks) (T.calls self.old.table))
            × (IsTrue (T.sound self.old.table) → looks ≡ may_be_full self.old.file key.now) }
    {
        if !self.is_full_if_absent(key) {
            return Ok(false);
        }
        Ok(self.table.get(key)?.is_none())
    }

    // Whether the key isn't charged and the charged keys have reached the limit, if no record stands there.
    fn is_full_if_absent(&self, key: &Key) -> bool
        ensures value { IsTrue (T.sound self.now.table)
            → result ≡ may_be_full self.now.file key.now }
        ensures full { IsTrue (T.sound self.now.table) → is_full self.now.file key.now
            ≡ result && is_none (maps.get (records_of self.now.file) key.now) }
    {
        self.charged() >= u64::from(self.table.limit()) && self.log.owner(key).is_none()
    }
}
