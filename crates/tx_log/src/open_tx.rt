ghost use Rattle.std.specs.Prelude.{◌≡◌, ℕ, ◌+◌, ◌^◌, ◌-◌, ◌<◌, ◌≤◌, [], ◌∷◌, ◌++◌, length, slice_get, take, None, Some, option_map, IsSome, IsTrue, if◌then◌else◌};
ghost use Rattle.indexmap.specs.IndexMap.{index_map_len};
ghost use Rattle.tx_log.specs.Transactions.{place_of_savepoint, most_savepoints};
ghost use Rattle.tx_log.specs.LogState.{rollback_phase};
ghost use Rattle.tx_log.specs.OpenTxs.{ends_at};
ghost use Rattle.tx_log.specs.Finds.{found, PutsAt, StandsAt};
ghost use Rattle.tx_log.specs.declared.open_tx.OpenTx.{OpenTx};

use crate::phase::{Phase, Rollback};
use arrayvec::ArrayVec;
use indexmap::IndexMap;
use rec_types::TxId;

/// How many savepoints a transaction has at most.
pub const MOST_SAVEPOINTS: usize = 32;

/// A transaction that hasn't ended.
#[derive(Drop)]
pub struct OpenTx {
    /// The rollback under way, over the changes whose records have numbers above its `to`.
    pub rollback: Option<Rollback>,
    /// The number of its newest log record, and 0 where it has none.
    pub last: u32,
    /// How many of its changes are live.
    pub live: u32,
    /// How many of them the rollback under way is still to take back, and 0 where none is.
    pub left: u32,
    /// How many of its keys have no record now.
    pub absent: u32,
    /// What `last` was at each savepoint.
    pub saves: ArrayVec<u32, MOST_SAVEPOINTS>,
}

impl OpenTx {
    /// A transaction without changes and savepoints.
    pub fn new() -> OpenTx
        ensures { result ≡ record {
          rollback = None;
          last = 0;
          live = 0;
          left = 0;
          absent = 0;
          saves = record { items = [] };
        } }
    {
        OpenTx {
            rollback: None,
            last: 0,
            live: 0,
            left: 0,
            absent: 0,
            saves: ArrayVec::new(),
        }
    }

    /// Its phase.
    pub fn phase(&self) -> Phase
        ensures { result ≡ rollback_phase self.now.rollback }
    {
        match self.rollback {
            None => Phase::Active,
            Some(rollback) => Phase::Rolling {
                ends: rollback.ends,
            },
        }
    }

    /// Whether it ends with the rollback under way.
    pub fn is_ending(&self) -> bool
        ensures { result ≡ ends_at self.now.rollback }
    {
        self.rollback.is_some_and(|rollback| rollback.ends)
    }

    /// Sets a savepoint.
    pub fn save(&mut self)
        requires { length self.old.saves.items < most_savepoints }
        ensures { self.new ≡ record self.old {
          saves = record { items = self.old.saves.items ++ self.old.last ∷ [] };
        } }
    {
        let last = self.last;
        self.saves.push(last);
    }

    /// Keeps the first n savepoints.
    pub fn keep_saves(&mut self, n: u32)
        ensures { self.new ≡ record self.old {
          saves = record { items = take n self.old.saves.items };
        } }
    {
        self.saves.truncate(n as usize);
    }

    /// What its newest record was at savepoint n, and 0 for 0.
    pub fn save_at(&self, n: u32) -> u32
        requires { n ≤ length self.now.saves.items }
        ensures { result ≡ place_of_savepoint self.now.saves.items n }
    {
        if n == 0 {
            0
        } else {
            self.saves[(n - 1) as usize]
        }
    }

    /// Starts the rollback, which is to take back so many changes, and keeps the first n savepoints.
    pub fn turn_back(&mut self, n: u32, rollback: Rollback, left: u32)
        ensures { self.new ≡ record self.old {
          rollback = Some rollback;
          left = left;
          saves = record { items = take n self.old.saves.items };
        } }
    {
        self.keep_saves(n);
        self.rollback = Some(rollback);
        self.left = left;
    }
}

/// The open transactions by their numbers.
pub type OpenTxs = IndexMap<TxId, OpenTx>;

/// The open transaction with the number.
pub fn find_open(txs: &OpenTxs, tx: TxId) -> Option<&OpenTx>
    ensures { option_map (λ e. e.now) result ≡ found txs.now tx.0 }
{
    // One that is open alone needs no hash.
    if let Some((first, open_tx)) = txs.first() {
        if *first == tx {
            return Some(open_tx);
        }
    }
    txs.get(&tx)
}

/// Where the open transaction with the number stands.
pub fn place_of(txs: &OpenTxs, tx: TxId) -> usize
    requires { IsSome (found txs.now tx.0) }
    ensures within { result < index_map_len txs.now }
    ensures stands { StandsAt txs.now tx.0 result }
{
    // What this says is that no number stands twice.
    let _count = txs.len();
    // One that is open alone needs no hash.
    if let Some((first, _)) = txs.first() {
        if *first == tx {
            return 0;
        }
    }
    let (at, _, _) = txs.get_full(&tx).unwrap();
    at
}

/// Takes out the transaction that stands there.
pub fn take_out(txs: &mut OpenTxs, at: usize) -> OpenTx
    requires { at < index_map_len txs.old }
    ensures { (t : ℕ) → StandsAt txs.old t at
        → (found txs.old t ≡ Some result) × PutsAt (found txs.old) (found txs.new) t None }
{
    let (_, closed) = txs.swap_remove_index(at).unwrap();
    closed
}

/// A count after one of the things that were counted changed.
pub fn recount(count: u32, was: bool, will: bool) -> u32
    requires some { IsTrue was → 0 < count }
    requires most { count < 2 ^ 32 - 1 }
    ensures { result + (if was then 1 else 0) ≡ count + (if will then 1 else 0) }
{
    match (was, will) {
        (true, false) => count - 1,
        (false, true) => count + 1,
        _ => count,
    }
}
