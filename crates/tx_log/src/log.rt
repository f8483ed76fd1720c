ghost use Rattle.std.specs.Prelude.{◌≡◌, ℕ, ◌+◌, ◌-◌, ◌<◌, ◌≤◌, ◌↔◌, [], ◌∷◌, ◌++◌, take, option_map, false, IfOk, IsOkAnd, OnOk, OnErr, IsTrue, IsSome};
ghost use Rattle.std.specs.FinMap as maps;
ghost use Rattle.rec_types.specs.History.{log_len, own_count};
ghost use Rattle.tx_log.specs.Log.{record_at};
ghost use Rattle.tx_log.specs.LogLaws.{IsChained};
ghost use Rattle.tx_log.specs.Transactions.{depth_of, live_in, left_in, fresh, most_savepoints};
ghost use Rattle.tx_log.specs.Owners.{owner_of, holder_of, before_owned, keys_owned, keys_absent};
ghost use Rattle.tx_log.specs.Written.{own, writes};
ghost use Rattle.tx_log.specs.LogState.{new_log, history_in, open_in, tx_in, use_in, phase_in, undo_in, undo_step, places_in, active_with, rolling_to, finished, with_txs, with_update, with_compensation, IsRolling, IsLog, IsActive};

use crate::holding::{Holdings, find_holder, free_held, held_keys, lower, make_room, raise};
use crate::key_order::in_order;
use crate::mark::{Mark, is_absent_below, newest_number};
use crate::open_tx::{OpenTx, OpenTxs, find_open, place_of, recount, take_out};
use crate::phase::Rollback;
use crate::records::Records;
use crate::told::is_lacking;
use crate::undo_chain::{
    changed_records, count_changes, newest_above, newest_change, oldest_before,
};
use crate::{BeginFault, LogRecord, Phase, UndoStep};
use rec_types::{Key, Limits, Memory, Record, TxId};
use std::alloc::Global;
use std::marker::Model;

/// The log of a session, with its open transactions and the owners of keys.
#[derive(Drop)]
pub struct TxLog {
    alloc: Global,
    /// Has room for the compensation of each pending change, and for two records more where a key has room.
    records: Records,
    txs: OpenTxs,
    /// The keys of live changes of open transactions, and the key that has room.
    holdings: Holdings,
    /// The key at which no change may be live.
    over: Option<Key>,
    begun: u32,
    limits: Limits,
    /// Where that key stands, if it has room.
    room_at: Option<usize>,
    /// How many changes of open transactions are live.
    pending: u32,
    /// How many owned keys have no record now.
    gone: u32,
}

impl Model for TxLog {
    ghost use Rattle.tx_log.specs.LogState.{LogState, coded_log_state};

    ghost Value = { LogState };

    ghost coded = { coded_log_state };

    ghost use Rattle.tx_log.specs.LogFields.{log_state_of, IsTxLog};

    ghost view = { log_state_of };

    ghost invariant = { IsTxLog };
}

impl TxLog {
    /// The log of a session in which nothing has happened. It takes no memory.
    pub fn new(alloc: Global, limits: Limits) -> TxLog
        ensures { result ≡ new_log limits }
    {
        // What these say of the limits bounds every sum over the log.
        let _log_records = limits.log_records();
        let _begins = limits.begins();
        TxLog {
            alloc,
            records: Records::new(alloc),
            txs: OpenTxs::new(alloc),
            holdings: Holdings::new(alloc),
            over: None,
            begun: 0,
            limits,
            room_at: None,
            pending: 0,
            gone: 0,
        }
    }

    /// The phase of an open transaction.
    pub fn phase(&self, tx: TxId) -> Option<Phase>
        ensures { result ≡ phase_in self.now tx.0 }
    {
        find_open(&self.txs, tx).map(|open_tx| open_tx.phase())
    }

    /// How many savepoints the transaction has, and 0 where it isn't open.
    pub fn depth(&self, tx: TxId) -> u32
        ensures value { result ≡ depth_of (tx_in self.now tx.0) }
        ensures most { result ≤ most_savepoints }
    {
        find_open(&self.txs, tx).map_or(0, |open_tx| open_tx.saves.len() as u32)
    }

    /// How many live changes the transaction has, and 0 where it isn't open.
    pub fn live(&self, tx: TxId) -> u32
        ensures { result ≡ live_in (history_in self.now) tx.0 (tx_in self.now tx.0) }
    {
        find_open(&self.txs, tx).map_or(0, |open_tx| open_tx.live)
    }

    /// How many changes a rollback under way is still to take back, and 0 where none is.
    pub fn left(&self, tx: TxId) -> u32
        ensures { result ≡ left_in (history_in self.now) tx.0 (tx_in self.now tx.0) }
    {
        find_open(&self.txs, tx).map_or(0, |open_tx| open_tx.left)
    }

    /// The open transaction that owns the key.
    pub fn owner(&self, key: &Key) -> Option<TxId>
        ensures { option_map (λ t. t.0) result
            ≡ owner_of (open_in self.now) (history_in self.now) key.now }
    {
        find_holder(&self.holdings, key)
    }

    /// What stood at the key before the oldest live change there of the transaction that owns it, or what that claim has seen;
    /// nothing where no transaction owns it.
    pub fn before_owned(&self, key: &Key) -> Option<Option<Record>>
        ensures value { result ≡ before_owned (open_in self.now) self.now.changes key.now }
        ensures kept { IsLog self.now }
    {
        let owner = find_holder(&self.holdings, key)?;
        let open_tx = find_open(&self.txs, owner)?;
        oldest_before(&self.records, open_tx.last, key)
    }

    /// How many owned keys have no record now.
    pub fn absent_owned(&self) -> u32
        ensures value { result ≡ maps.len (keys_absent (open_in self.now) self.now.changes) }
        ensures log { IsLog self.now }
    {
        self.gone
    }

    /// Whether the log has room for a change and for taking it back.
    pub fn can_accept(&self) -> bool
        ensures { IsTrue result ↔ (use_in self.now + 2 ≤ self.now.limits.log_records) }
    {
        let most = self.limits.log_records();
        self.log_use() + 2 <= most
    }

    /// The change that a rollback under way takes back next.
    // Goes into its callers, so that fewer copies of records are made.
    #[inline(always)]
    pub fn next_undo(&self, tx: TxId) -> Option<UndoStep>
        ensures { result ≡ option_map undo_step (undo_in self.now tx.0) }
    {
        let Some(open_tx) = find_open(&self.txs, tx) else {
            return None;
        };
        let Some(rollback) = open_tx.rollback else {
            return None;
        };
        newest_above(&self.records, open_tx.last, rollback.to)
    }

    /// The record of the log with the number: none for 0 and above the length.
    pub fn entry_at(&self, lsn: u32) -> Option<LogRecord>
        ensures { result ≡ record_at self.now.records lsn }
    {
        if lsn == 0 {
            return None;
        }
        self.records.get((lsn - 1) as usize)
    }

    /// The length of the log.
    pub fn len(&self) -> u32
        ensures { result ≡ log_len (history_in self.now) }
    {
        self.records.len() as u32
    }

    /// The length of the log, and the live changes of open transactions.
    pub fn log_use(&self) -> u32
        ensures value { result ≡ use_in self.now }
        ensures most { result ≤ self.now.limits.log_records }
    {
        self.records.len() as u32 + self.pending
    }

    /// How many transactions were begun.
    pub fn begun(&self) -> u32
        ensures value { result ≡ self.now.begun }
        ensures kept { IsLog self.now }
        ensures chained { IsChained self.now.records self.now.changes }
    {
        self.begun
    }

    /// How many transactions are open.
    pub fn open_count(&self) -> u32
        ensures { result ≡ maps.len self.now.txs }
    {
        self.txs.len() as u32
    }

    /// The keys that the transaction owns, in order. Fault: Memory.
    pub fn keys_of(&self, tx: TxId) -> Result<Vec<Key>, Memory>
        ensures { IfOk result
            (λ keys. keys.items ≡ keys_owned (open_in self.now) (history_in self.now) tx.0) }
    {
        let Some(open_tx) = find_open(&self.txs, tx) else {
            return Ok(Vec::new(self.alloc));
        };
        let held = held_keys(self.alloc, &self.holdings, &self.records, tx, open_tx)?;
        let mut keys = in_order(self.alloc, &held)?;
        keys.dedup();
        Ok(keys)
    }

    /// What the live changes of an open transaction write, oldest first: each key with the record that is put there, or
    /// with none. A claim writes nothing, nor does a transaction that isn't open. Fault: Memory.
    pub fn changes_of(&self, tx: TxId) -> Result<Vec<(Key, Option<Record>)>, Memory>
        ensures open { IsTrue (open_in self.now tx.0)
            → IfOk result (λ written. written.items ≡ writes (own tx.0 (history_in self.now))) }
        ensures absent { open_in self.now tx.0 ≡ false
            → IsOkAnd result (λ written. written.items ≡ []) }
    {
        let Some(open_tx) = find_open(&self.txs, tx) else {
            return Ok(Vec::new(self.alloc));
        };
        let mut written = changed_records(self.alloc, &self.records, open_tx.last)?;
        written.reverse();
        Ok(written)
    }

    /// Begins a transaction, active and without savepoints; its number is the count of those begun.
    /// Faults: BeginsSpent, Memory. A fault leaves everything but the room unchanged.
    pub fn begin(&mut self) -> Result<TxId, BeginFault>
        ensures number { IfOk result (λ tx. tx.0 ≡ self.old.begun + 1) }
        ensures ok { OnOk result (self.new ≡ record self.old {
          begun = self.old.begun + 1;
          txs = maps.insert self.old.txs (self.old.begun + 1) fresh;
          room = None;
        }) }
        ensures spent { result ≡ Err BeginFault.BeginsSpent
            → self.old.limits.begins ≤ self.old.begun }
        ensures spent_always { self.old.limits.begins ≤ self.old.begun
            → result ≡ Err BeginFault.BeginsSpent }
        ensures err { OnErr result (self.new ≡ record self.old { room = None }) }
        ensures kept { IsLog self.old }
    {
        let most = self.limits.begins();
        self.room_at = None;
        if self.begun >= most {
            return Err(BeginFault::BeginsSpent);
        }
        let tx = TxId(self.begun + 1);
        self.txs.insert(tx, OpenTx::new())?;
        self.begun = tx.0;
        Ok(tx)
    }

    /// Makes room for the next change, at this key, and for taking it back. Fault: Memory, which leaves
    /// everything unchanged and room for no key.
    pub fn reserve(&mut self, key: &Key) -> Result<(), Memory>
        ensures ok { OnOk result (self.new ≡ record self.old { room = Some key.now }) }
        ensures err { OnErr result (self.new ≡ record self.old { room = None }) }
        ensures kept { IsLog self.old }
    {
        self.room_at = None;
        let needed = self.pending as usize + 2;
        self.records.reserve(needed)?;
        let at = make_room(&mut self.holdings, self.over, key)?;
        self.over = Some(*key);
        self.room_at = Some(at);
        Ok(())
    }

    /// Adds a change of an active transaction, live, and answers its LSN. It takes no memory.
    // Goes into its callers, so that fewer copies of records are made.
    #[inline(always)]
    pub fn accept(
        &mut self,
        tx: TxId,
        key: Key,
        before: Option<Record>,
        after: Option<Record>,
    ) -> u32
        requires active { IsActive self.old tx.0 }
        requires free { holder_of (open_in self.old) (history_in self.old) tx.0 key ≡ None }
        requires fits { use_in self.old + 2 ≤ self.old.limits.log_records }
        requires room { self.old.room ≡ Some key }
        ensures lsn { result ≡ log_len (history_in self.old) + 1 }
        ensures after { self.new ≡ with_update self.old tx key before (Some after) }
    {
        self.add(tx, &key, &before, Some(&after))
    }

    /// Adds a claim of an active transaction, live, and answers its LSN; `seen` is what stands at the key. It takes no
    /// memory.
    // Goes into its callers, so that fewer copies of records are made.
    #[inline(always)]
    pub fn accept_claim(&mut self, tx: TxId, key: Key, seen: Option<Record>) -> u32
        requires active { IsActive self.old tx.0 }
        requires free { holder_of (open_in self.old) (history_in self.old) tx.0 key ≡ None }
        requires fits { use_in self.old + 2 ≤ self.old.limits.log_records }
        requires room { self.old.room ≡ Some key }
        ensures lsn { result ≡ log_len (history_in self.old) + 1 }
        ensures after { self.new ≡ with_update self.old tx key seen None }
    {
        self.add(tx, &key, &seen, None)
    }

    /// Adds a change or a claim.
    fn add(
        &mut self,
        tx: TxId,
        key: &Key,
        before: &Option<Record>,
        after: Option<&Option<Record>>,
    ) -> u32
        requires active { IsActive self.old tx.0 }
        requires free { holder_of (open_in self.old) (history_in self.old) tx.0 key.now ≡ None }
        requires fits { use_in self.old + 2 ≤ self.old.limits.log_records }
        requires room { self.old.room ≡ Some key.now }
        ensures lsn { result ≡ log_len (history_in self.old) + 1 }
        ensures after { self.new ≡ with_update self.old tx key.now before.now (option_map (λ w. w.now) after.entry) }
    {
        let place = self.room_at.unwrap();
        let at = place_of(&self.txs, tx);
        let prev = self.txs[at].last;
        let lacks = is_lacking(before, after);
        let writes = after.is_some();
        let out = raise(&mut self.holdings, place, tx, writes, lacks);
        let lsn = self.records.len() as u32 + 1;
        self.records
            .push_change(prev, tx, key, before, after, out.0);
        self.room_at = None;
        self.over = None;
        self.pending += 1;
        self.gone = recount(self.gone, out.0, out.1);
        let open_tx = &mut self.txs[at];
        open_tx.last = lsn;
        open_tx.live += 1;
        open_tx.absent = recount(open_tx.absent, out.0, out.1);
        lsn
    }

    /// Starts a rollback to savepoint n, or to the beginning for 0, and drops the savepoints above it.
    pub fn start_rollback(&mut self, tx: TxId, n: u32, ends: bool)
        requires active { IsActive self.old tx.0 }
        requires within { n ≤ depth_of (tx_in self.old tx.0) }
        requires whole { IsTrue ends → n ≡ 0 }
        ensures after { self.new ≡ with_txs self.old
            (maps.insert self.old.txs tx.0 (rolling_to (places_in self.old tx.0) n ends)) }
        ensures kept { IsLog self.old }
    {
        let at = place_of(&self.txs, tx);
        let to = self.txs[at].save_at(n);
        let open_tx = &self.txs[at];
        let left = count_changes(&self.records, open_tx.last, open_tx.live, to);
        self.room_at = None;
        let open_tx = &mut self.txs[at];
        open_tx.turn_back(n, Rollback { to, ends }, left);
    }

    /// Takes back the next change of a rollback under way, and answers the LSN of its compensation. It takes
    /// no memory.
    pub fn compensate(&mut self, tx: TxId) -> u32
        requires { IsSome (undo_in self.old tx.0) }
        ensures lsn { result ≡ log_len (history_in self.old) + 1 }
        ensures after { self.new ≡ with_compensation self.old tx }
        ensures kept { IsLog self.old }
    {
        let at = place_of(&self.txs, tx);
        let prev = self.txs[at].last;
        let newest = newest_change(&self.records, prev);
        let change = newest.unwrap();
        let will = is_absent_below(&self.records, change.lsn);
        let was = lower(&mut self.holdings, &change.key, will);
        let below = newest_number(&self.records, change.prev);
        let lsn = self.records.len() as u32 + 1;
        let mark = Mark {
            newest: below,
            absent: will,
        };
        self.records
            .push_back((change.lsn - 1) as usize, prev, tx, mark);
        self.room_at = None;
        self.pending -= 1;
        self.gone = recount(self.gone, was, will);
        let open_tx = &mut self.txs[at];
        open_tx.last = lsn;
        open_tx.live -= 1;
        open_tx.left -= 1;
        open_tx.absent = recount(open_tx.absent, was, will);
        lsn
    }

    /// Ends a rollback that has nothing left: the transaction has ended where the rollback ends it, and else
    /// is active again.
    pub fn finish(&mut self, tx: TxId)
        requires rolling { IsRolling (phase_in self.old tx.0) }
        requires done { left_in (history_in self.old) tx.0 (tx_in self.old tx.0) ≡ 0 }
        ensures after { self.new ≡ with_txs self.old
            (finished self.old.txs tx.0 (tx_in self.old tx.0)) }
        ensures kept { IsLog self.old }
    {
        let at = place_of(&self.txs, tx);
        if self.txs[at].is_ending() {
            return self.close(tx);
        }
        self.room_at = None;
        let open_tx = &mut self.txs[at];
        open_tx.rollback = None;
    }

    /// Sets a savepoint, and answers its number.
    pub fn savepoint(&mut self, tx: TxId) -> u32
        requires active { IsActive self.old tx.0 }
        requires room { depth_of (tx_in self.old tx.0) < most_savepoints }
        ensures number { result ≡ depth_of (tx_in self.old tx.0) + 1 }
        ensures after { self.new ≡ with_txs self.old (maps.insert self.old.txs tx.0
            (active_with (places_in self.old tx.0 ++ own_count (history_in self.old) tx.0 ∷ []))) }
        ensures kept { IsLog self.old }
    {
        let at = place_of(&self.txs, tx);
        let number = self.txs[at].saves.len() as u32 + 1;
        self.room_at = None;
        let open_tx = &mut self.txs[at];
        open_tx.save();
        number
    }

    /// Drops savepoint n and those above it.
    pub fn release(&mut self, tx: TxId, n: u32)
        requires active { IsActive self.old tx.0 }
        requires some { 0 < n }
        requires within { n ≤ depth_of (tx_in self.old tx.0) }
        ensures after { self.new ≡ with_txs self.old
            (maps.insert self.old.txs tx.0 (active_with (take (n - 1) (places_in self.old tx.0)))) }
        ensures kept { IsLog self.old }
    {
        let at = place_of(&self.txs, tx);
        self.room_at = None;
        let open_tx = &mut self.txs[at];
        open_tx.keep_saves(n - 1);
    }

    /// Ends an active transaction. Its live changes stay.
    pub fn end(&mut self, tx: TxId)
        requires { IsActive self.old tx.0 }
        ensures after { self.new ≡ with_txs self.old (maps.remove self.old.txs tx.0) }
        ensures kept { IsLog self.old }
    {
        self.close(tx);
    }

    /// Takes an open transaction out, and frees its keys.
    fn close(&mut self, tx: TxId)
        requires { IsTrue (open_in self.old tx.0) }
        ensures after { self.new ≡ with_txs self.old (maps.remove self.old.txs tx.0) }
        ensures kept { IsLog self.old }
    {
        let at = place_of(&self.txs, tx);
        self.room_at = None;
        let closed = take_out(&mut self.txs, at);
        let is_last = self.txs.is_empty();
        free_held(&mut self.holdings, &self.records, closed.last, is_last);
        self.pending -= closed.live;
        self.gone -= closed.absent;
    }
}
