ghost use Rattle.std.specs.Prelude.{◌≡◌, ℕ, ◌+◌, ◌^◌, ◌-◌, ◌<◌, ◌≤◌, Bool, ◌||◌, ◌==◌, List, IsSome, IsTrue, None, Some, false, length, slice_get, reverse, map, IfOk, OnOk, OnErr, if◌then◌else◌};
ghost use Rattle.std.specs.List.{list_any};
ghost use Rattle.indexmap.specs.IndexMap.{index_map_len, values};
ghost use Rattle.tx_log.specs.Log.{chain, key_of_record};
ghost use Rattle.tx_log.specs.Walks.{is_at};
ghost use Rattle.tx_log.specs.Marks.{CanWalk};
ghost use Rattle.tx_log.specs.Holdings.{holdings_in, Places, HeldAt, holder, live_held, owned_in, lowered, busy, or_idle, idle, IsHeld, AreHeld, AllBusy};
ghost use Rattle.tx_log.specs.declared.holding.Holding.{Holding};
ghost use Rattle.tx_log.specs.declared.log_record.LogRecord.{LogRecord};

use crate::open_tx::OpenTx;
use crate::records::Records;
use crate::undo_chain::{changed_keys, newest_link};
use indexmap::IndexMap;
use rec_types::{Key, Memory, TxId};
use std::alloc::Global;

/// What is kept of a key at which changes of an open transaction are live.
#[derive(Clone, Copy, Debug)]
pub struct Holding {
    /// The transaction of the changes.
    pub owner: TxId,
    /// How many there are.
    pub live: u32,
    /// Whether the newest of them takes the key out.
    pub absent: bool,
}

/// The holdings by their keys.
pub type Holdings = IndexMap<Key, Holding>;

impl Holding {
    /// How many changes of the transaction are live.
    fn live_of(&self, tx: TxId) -> u32
        ensures { result ≡ live_held tx.0 (Some self.now) }
    {
        if self.owner == tx { self.live } else { 0 }
    }

    /// No change is live.
    pub fn idle() -> Holding
        ensures { result ≡ idle }
    {
        Holding {
            owner: TxId(0),
            live: 0,
            absent: false,
        }
    }
}

/// The open transaction that owns the key.
pub fn find_holder(holdings: &Holdings, key: &Key) -> Option<TxId>
    ensures { result ≡ holder (holdings_in holdings.now key.now) }
{
    if holdings.is_empty() {
        return None;
    }
    match holdings.get(key) {
        Some(holding) => {
            if holding.live > 0 {
                Some(holding.owner)
            } else {
                None
            }
        }
        None => None,
    }
}

/// The keys of the transaction, in the order in which they stand. Fault: Memory.
fn owned_in(alloc: Global, holdings: &Holdings, tx: TxId) -> Result<Vec<Key>, Memory>
    ensures { IfOk result (λ keys. keys.items ≡ owned_in tx.0 holdings.now.entries) }
{
    let mut keys = Vec::with_capacity(alloc, holdings.len())?;
    for (key, holding) in holdings {
        if holding.live_of(tx) > 0 {
            keys.push(*key)?;
        }
    }
    Ok(keys)
}

/// The keys that an open transaction holds, some of them more than once: those of its changes, or those that are kept
/// where they are no more. Fault: Memory.
pub fn held_keys(
    alloc: Global,
    holdings: &Holdings,
    log: &Records,
    tx: TxId,
    open_tx: &OpenTx,
) -> Result<Vec<Key>, Memory>
    requires walk { CanWalk log.now.items log.now.marks open_tx.now.last }
    requires told { AreHeld (holdings_in holdings.now) tx.0
        (map key_of_record (chain (reverse log.now.items) open_tx.now.last)) }
    requires live { length (chain (reverse log.now.items) open_tx.now.last) ≤ open_tx.now.live }
    ensures held { IfOk result (λ keys. AreHeld (holdings_in holdings.now) tx.0 keys.items) }
    ensures few { IfOk result (λ keys. length keys.items < 4294967296) }
{
    if holdings.len() <= open_tx.live as usize {
        owned_in(alloc, holdings, tx)
    } else {
        changed_keys(alloc, log, open_tx.last, open_tx.live)
    }
}

/// Where the key stands.
fn place_of_key(holdings: &Holdings, key: &Key) -> usize
    requires { IsSome (holdings_in holdings.now key.now) }
    ensures within { result < index_map_len holdings.now }
    ensures stands { HeldAt holdings.now key.now result }
{
    // What this says is that no key stands twice.
    let _count = holdings.len();
    let (at, _, _) = holdings.get_full(key).unwrap();
    at
}

/// Whether a key is absent after one change more, of `live` there: as a change says that writes there, and as a claim
/// says where it is the first.
fn left_out(writes: bool, live: u32, absent: bool, was: bool) -> bool
    ensures { result ≡ (if writes || (live == 0) then absent else was) }
{
    if writes {
        return absent;
    }
    if live == 0 { absent } else { was }
}

/// Counts one more live change at the key that stands there, and answers whether the key was absent, and whether it is
/// now. A change that writes there says so, and a claim only where no change was live: `absent` is what it says.
pub fn raise(
    holdings: &mut Holdings,
    at: usize,
    tx: TxId,
    writes: bool,
    absent: bool,
) -> (bool, bool)
    requires within { at < index_map_len holdings.old }
    requires most { (h : Holding) → slice_get (values holdings.old) at ≡ Some h → h.live < 2 ^ 32 - 1 }
    ensures { (k : List ℕ) (s : HeldAt holdings.old k at) → (result.0 ≡ s.hold.absent)
        × (result.1 ≡ (if writes || (s.hold.live == 0) then absent else s.hold.absent))
        × Places (holdings_in holdings.old) (holdings_in holdings.new) k
        (Some (record { owner = tx; live = s.hold.live + 1; absent = result.1 })) }
{
    let holding = &mut holdings[at];
    let was = holding.absent;
    let will = left_out(writes, holding.live, absent, was);
    holding.owner = tx;
    holding.live += 1;
    holding.absent = will;
    (was, will)
}

/// Counts one live change less at a key, forgets the key with its last one, and answers whether the key was absent.
/// `absent` is whether the changes that are left leave it so.
pub fn lower(holdings: &mut Holdings, key: &Key, absent: bool) -> bool
    requires there { IsSome (holdings_in holdings.old key.now) }
    requires some { (h : Holding) → holdings_in holdings.old key.now ≡ Some h → 0 < h.live }
    ensures { (h : Holding) → holdings_in holdings.old key.now ≡ Some h → (result ≡ h.absent)
        × Places (holdings_in holdings.old) (holdings_in holdings.new) key.now (lowered h absent) }
{
    let at = place_of_key(holdings, key);
    let was = holdings[at].absent;
    let last = holdings[at].live == 1;
    if last {
        let _ = holdings.swap_remove_index(at);
    } else {
        let holding = &mut holdings[at];
        holding.live -= 1;
        holding.absent = absent;
    }
    was
}

/// Forgets the keys of the changes that aren't taken back, on the way down from the record with the number `from`.
pub fn free_keys(holdings: &mut Holdings, log: &Records, from: u32)
    requires { CanWalk log.now.items log.now.marks from }
    ensures { (q : List ℕ) → holdings_in holdings.new q
        ≡ (if list_any (is_at q) (chain (reverse log.now.items) from) then None
        else holdings_in holdings.old q) }
{
    let mut at = from;
    while let Some(link) = newest_link(log, at) {
        let _ = holdings.swap_remove(&link.key);
        at = link.prev;
    }
}

/// Forgets the keys of a transaction that ends: all keys where it is the last that is open, and else those of its
/// changes that aren't taken back, on the way down from the record with the number `from`.
pub fn free_held(holdings: &mut Holdings, log: &Records, from: u32, is_last: bool)
    requires { CanWalk log.now.items log.now.marks from }
    ensures last { IsTrue is_last → (q : List ℕ) → holdings_in holdings.new q ≡ None }
    ensures others { is_last ≡ false → (q : List ℕ) → holdings_in holdings.new q
        ≡ (if list_any (is_at q) (chain (reverse log.now.items) from) then None
        else holdings_in holdings.old q) }
{
    if is_last {
        // Takes as long as there are keys; a clear would take as long as there is room.
        holdings.truncate(0);
    } else {
        free_keys(holdings, log, from);
    }
}

/// Forgets the key where no change is live there.
fn drop_idle(holdings: &mut Holdings, key: &Key)
    ensures { Places (holdings_in holdings.old) (holdings_in holdings.new) key.now
        (busy (holdings_in holdings.old key.now)) }
{
    let idle = match holdings.get_full(key) {
        Some((at, _, holding)) => { if holding.live == 0 { Some(at) } else { None } }
        None => None,
    };
    if let Some(at) = idle {
        let _ = holdings.swap_remove_index(at);
    }
}

/// Puts the key in where it isn't there, and answers where it stands. Fault: Memory, which changes nothing.
fn add_idle(holdings: &mut Holdings, key: &Key) -> Result<usize, Memory>
    ensures ok { OnOk result (Places (holdings_in holdings.old) (holdings_in holdings.new) key.now
        (Some (or_idle (holdings_in holdings.old key.now)))) }
    ensures stands { IfOk result (HeldAt holdings.new key.now) }
    ensures err { OnErr result ((q : List ℕ) → holdings_in holdings.new q ≡ holdings_in holdings.old q) }
{
    let entry = holdings.entry(*key)?;
    let at = entry.index();
    entry.or_insert(Holding::idle());
    Ok(at)
}

/// Puts the key in where it isn't there, and takes out the one that was left over. Answers where the key stands. Fault:
/// Memory.
pub fn make_room(holdings: &mut Holdings, over: Option<Key>, key: &Key) -> Result<usize, Memory>
    requires { AllBusy (holdings_in holdings.old) over }
    ensures kept { (rs : List LogRecord) (is_open : ℕ → Bool)
        → IsHeld rs is_open (holdings_in holdings.old) → IsHeld rs is_open (holdings_in holdings.new) }
    ensures stands { IfOk result (HeldAt holdings.new key.now) }
    ensures one { OnOk result (AllBusy (holdings_in holdings.new) (Some key.now)) }
    ensures still { OnErr result (AllBusy (holdings_in holdings.new) over) }
{
    if let Some(other) = over {
        if other != *key {
            drop_idle(holdings, &other);
        }
    }
    add_idle(holdings, key)
}
