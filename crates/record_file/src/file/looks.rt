ghost use Rattle.std.specs.Prelude.{◌≡◌, List, Result, Ok, IsTrue, IfOk, IfErr, map, option_map};
ghost use Rattle.std.specs.FinMap as maps;
ghost use Rattle.rec_types.specs.Told.{TakesPart};
ghost use Rattle.rec_types.specs.declared.transaction.Entry.{Entry as EntryValue};
ghost use Rattle.record_file.specs.Abstract.{IsKeptFile, records_of};
ghost use Rattle.tx_log.specs.LogState.{open_in, history_in};
ghost use Rattle.record_file.specs.Durable.{ChangesStep, Keeps};
ghost use Rattle.record_file.specs.OwnedRecords.{GoesTo};
ghost use Rattle.record_file.specs.Runs.{Made, Get, Commit, Entries, Beside, EntriesBeside, CommittedAt, KeysOf, StatusOf, Charged, Begun, LogLen, LogUse, RecordAt};
ghost use Rattle.record_file.specs.Steps.{entries_of, entries_beside, entry_with, listed};

use super::RecordFile;
use super::owned::Owned;
use crate::EntrySink;
use crate::fault::{
    ChangesFault, CommittedFault, EntriesFault, GetFault, KeysOfFault, Status, StatusFault,
};
use rec_types::{Entry, Gap, Key, Memory, Record, Side, Table, TxId};
use std::alloc::Global;
use tx_log::{LogRecord, Phase, TxLog};

impl<T: Table> RecordFile<T> {
    /// The record at the key. Faults: NoSuchTx, Rolling, Held, Device or Damaged. It takes no memory.
    pub fn get(&mut self, tx: TxId, key: &Key) -> Result<Option<Record>, GetFault>
        ensures { Made T.TableState self.old (Get tx key.now result) self.new }
    {
        self.allow_look(tx, key)?;
        Ok(self.table.get(key)?)
    }

    /// The records in key order, each with the transaction that owns its key. Faults: Device or Damaged,
    /// Memory.
    pub fn entries(&mut self) -> Result<Vec<Entry>, EntriesFault>
        ensures { Made T.TableState self.old (Entries (listed result)) self.new }
    {
        let records = self.table.entries()?;
        let entries = with_owners(*records.allocator(), &self.log, &records)?;
        Ok(entries)
    }

    /// The record nearest to a gap on a side of it, with the transaction that owns its key. Faults: Device or Damaged, Memory.
    pub fn beside(&mut self, side: Side, gap: &Gap) -> Result<Option<Entry>, EntriesFault>
        ensures { Made T.TableState self.old (Beside side gap.now result) self.new }
    {
        let found = self.table.beside(side, gap)?;
        let entry = with_owner(&self.log, &found);
        Ok(entry)
    }

    /// The record that would stand at the key if every open transaction went back to its beginning. Faults: Device or Damaged. It
    /// takes no memory.
    pub fn committed(&mut self, key: &Key) -> Result<Option<Record>, CommittedFault>
        ensures { Made T.TableState self.old (CommittedAt key.now result) self.new }
    {
        if let Some(before) = self.log.before_owned(key) {
            return Ok(before);
        }
        let found = self.table.get(key)?;
        Ok(found)
    }

    /// Tells a sink the records in key order, each with the transaction that owns its key, as `entries` lists them. Inside, the
    /// fault at which the sink stopped. Faults: Device or Damaged, Memory; the sink was told some of the entries then, from the
    /// first on.
    pub fn tell<K: EntrySink>(&mut self, sink: &mut K) -> Result<Result<(), K::Fault>, EntriesFault>
        ensures told { (answer : Result (List EntryValue) EntriesFault)
            × Made T.TableState self.old (Entries answer) self.new
            × GoesTo (λ es. K.told sink.old es sink.new) (λ es fault. K.stops sink.old es fault sink.new)
            answer result }
        ensures part { IsTrue (T.sound self.old.table) → IfErr result
            (λ _. TakesPart (λ es. K.told sink.old es sink.new) (entries_of self.old.file)) }
    {
        let mut owned = Owned { log: &self.log };
        let taken = self.table.tell(&mut owned, sink)?;
        Ok(taken)
    }

    /// Tells a sink the records on a side of a gap, the nearest first, each with the transaction that owns its key. Inside, the
    /// fault at which the sink stopped. Faults: Device or Damaged, Memory; the sink was told some of the entries then, from
    /// the nearest on.
    pub fn tell_beside<K: EntrySink>(
        &mut self,
        side: Side,
        gap: &Gap,
        sink: &mut K,
    ) -> Result<Result<(), K::Fault>, EntriesFault>
        ensures told { (answer : Result (List EntryValue) EntriesFault)
            × Made T.TableState self.old (EntriesBeside side gap.now answer) self.new
            × GoesTo (λ es. K.told sink.old es sink.new) (λ es fault. K.stops sink.old es fault sink.new)
            answer result }
        ensures part { IsTrue (T.sound self.old.table) → IfErr result
            (λ _. TakesPart (λ es. K.told sink.old es sink.new)
            (entries_beside self.old.file side gap.now)) }
    {
        let mut owned = Owned { log: &self.log };
        let taken = self.table.tell_beside(side, gap, &mut owned, sink)?;
        Ok(taken)
    }

    /// The keys that an open transaction owns, in order. Faults: NoSuchTx, Memory.
    pub fn keys_of(&self, tx: TxId) -> Result<Vec<Key>, KeysOfFault>
        ensures { Made T.TableState self.now (KeysOf tx (listed result)) self.now }
    {
        if self.log.phase(tx).is_none() {
            return Err(KeysOfFault::NoSuchTx);
        }
        Ok(self.log.keys_of(tx)?)
    }

    /// What the live changes of an active transaction write, oldest first, which a commit of it would have to keep: each
    /// key with the record that is put there, or with none. A claim writes nothing. Faults: NoSuchTx or Rolling, as of a
    /// commit; Memory.
    pub fn changes_of(&self, tx: TxId) -> Result<Vec<(Key, Option<Record>)>, ChangesFault>
        ensures step { ChangesStep self.now.file tx.0 (listed result) }
        ensures keeps { IfOk result
            (λ written. Keeps self.now.file (Commit tx (Ok tt)) written.items) }
    {
        match self.log.phase(tx) {
            None => Err(ChangesFault::NoSuchTx),
            Some(Phase::Rolling { .. }) => Err(ChangesFault::Rolling),
            Some(Phase::Active) => Ok(self.log.changes_of(tx)?),
        }
    }

    /// What an open transaction is doing. Fault: NoSuchTx. It takes no memory.
    pub fn status(&self, tx: TxId) -> Result<Status, StatusFault>
        ensures { Made T.TableState self.now (StatusOf tx result) self.now }
    {
        match self.log.phase(tx) {
            None => Err(StatusFault::NoSuchTx),
            Some(Phase::Active) => Ok(Status::Active {
                saves: self.log.depth(tx),
                live: self.log.live(tx),
            }),
            Some(Phase::Rolling { ends }) => Ok(Status::Rolling {
                left: self.log.left(tx),
                ends,
            }),
        }
    }

    /// How many transactions were begun. Its contract tells what stays true of a file from call to call.
    pub fn begun(&self) -> u32
        ensures made { Made T.TableState self.now (Begun result) self.now }
        ensures kept { IsKeptFile (T.sound self.now.table) (T.contents self.now.table)
            (T.record_limit self.now.table) self.now.file self.now.log }
    {
        self.log.begun()
    }

    /// How many transactions are open.
    pub fn open_count(&self) -> u32
        ensures { result ≡ maps.len self.now.file.txs }
    {
        self.log.open_count()
    }

    /// How many keys have a record or an owner. A table that isn't sound may count anything. It takes no
    /// memory.
    pub fn charged(&self) -> u64
        ensures { Made T.TableState self.now (Charged result) self.now }
    {
        u64::from(self.table.count()) + u64::from(self.log.absent_owned())
    }

    /// How many records there are. A table that isn't sound may count anything. It takes no memory.
    pub fn count(&self) -> u32
        ensures { IsTrue (T.sound self.now.table)
            → result ≡ maps.len (records_of self.now.file) }
    {
        self.table.count()
    }

    /// The length of the log.
    pub fn log_len(&self) -> u32
        ensures { Made T.TableState self.now (LogLen result) self.now }
    {
        self.log.len()
    }

    /// The length of the log, and the live changes of open transactions.
    pub fn log_use(&self) -> u32
        ensures { Made T.TableState self.now (LogUse result) self.now }
    {
        self.log.log_use()
    }

    /// The log record with this number; they count from 1.
    pub fn log_record(&self, lsn: u32) -> Option<LogRecord>
        ensures { Made T.TableState self.now (RecordAt lsn result) self.now }
    {
        self.log.entry_at(lsn)
    }
}

// A record that was found, with the transaction that owns its key.
fn with_owner(log: &TxLog, found: &Option<(Key, Record)>) -> Option<Entry>
    ensures { result ≡ option_map (entry_with (open_in log.now) (history_in log.now)) found.now }
{
    match found {
        Some((key, value)) => Some(Entry {
            key: *key,
            value: *value,
            owner: log.owner(key),
        }),
        None => None,
    }
}

// The records, each with the transaction that owns its key. Fault: Memory.
fn with_owners(alloc: Global, log: &TxLog, records: &[(Key, Record)]) -> Result<Vec<Entry>, Memory>
    ensures { IfOk result (λ entries. entries.items
        ≡ map (entry_with (open_in log.now) (history_in log.now)) records.now) }
{
    let mut entries = Vec::with_capacity(alloc, records.len())?;
    for &(key, value) in records {
        let owner = log.owner(&key);
        entries.push(Entry { key, value, owner })?;
    }
    Ok(entries)
}
