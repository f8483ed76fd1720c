ghost use Rattle.std.specs.Prelude.{◌≡◌, ℕ, ◌+◌, ◌<◌, true, [], ◌++◌, List, length, reverse, map, Option, option_map, Some, None, cond, if◌then◌else◌, IfOk, OnOk};
ghost use Rattle.std.specs.List.{filter};
ghost use Rattle.rec_types.specs.Contents.{same_key};
ghost use Rattle.tx_log.specs.Log.{chain, key_of_record};
ghost use Rattle.tx_log.specs.Marks.{CanWalk};
ghost use Rattle.tx_log.specs.Walks.{link_of, newest_in, is_after, oldest_at, step_to};
ghost use Rattle.tx_log.specs.Written.{written_by, writes_if};

use crate::UndoStep;
use crate::mark::newest_number;
use crate::records::Records;
use rec_types::{Key, Memory, Record};
use std::alloc::Global;

/// A change that isn't taken back, as its log record tells of it.
#[derive(Clone, Copy, Debug)]
pub struct LiveChange {
    pub lsn: u32,
    pub prev: u32,
    pub key: Key,
    pub before: Option<Record>,
    /// What it wrote there: nothing where it is a claim.
    pub after: Option<Option<Record>>,
}

/// What a walk needs of such a change.
#[derive(Clone, Copy, Debug)]
pub struct Link {
    pub lsn: u32,
    pub prev: u32,
    pub key: Key,
}

/// The newest change that isn't taken back, on the way down from the record with the number `from`.
#[inline(always)]
pub fn newest_change(log: &Records, from: u32) -> Option<LiveChange>
    requires { CanWalk log.now.items log.now.marks from }
    ensures { result ≡ newest_in (chain (reverse log.now.items) from) }
{
    let at = newest_number(log, from);
    if at == 0 {
        return None;
    }
    log.change((at - 1) as usize)
}

/// The same change, without its records.
pub fn newest_link(log: &Records, from: u32) -> Option<Link>
    requires { CanWalk log.now.items log.now.marks from }
    ensures { result ≡ option_map link_of (newest_in (chain (reverse log.now.items) from)) }
{
    let at = newest_number(log, from);
    if at == 0 {
        return None;
    }
    log.link((at - 1) as usize)
}

/// What takes back the newest change that isn't taken back, on the way down from the record with the number `from`, if
/// its own number is above `to`.
pub fn newest_above(log: &Records, from: u32, to: u32) -> Option<UndoStep>
    requires { CanWalk log.now.items log.now.marks from }
    ensures { result ≡ option_map step_to
        (newest_in (filter (is_after to) (chain (reverse log.now.items) from))) }
{
    let at = newest_number(log, from);
    if at <= to {
        return None;
    }
    log.undo_step((at - 1) as usize)
}

/// How many changes with numbers above `to` aren't taken back, on the way down from the record with the number
/// `from`. `live` is how many there are with any number.
pub fn count_changes(log: &Records, from: u32, live: u32, to: u32) -> u32
    requires walk { CanWalk log.now.items log.now.marks from }
    requires live { live ≡ length (chain (reverse log.now.items) from) }
    ensures { result ≡ length (filter (is_after to) (chain (reverse log.now.items) from)) }
{
    if to == 0 {
        return live;
    }
    let mut count = 0;
    let mut at = from;
    while at > to {
        match newest_link(log, at) {
            Some(link) => {
                if link.lsn <= to {
                    return count;
                }
                count += 1;
                at = link.prev;
            }
            None => return count,
        }
    }
    count
}

/// The keys of the changes that aren't taken back, newest first, on the way down from the record with the number
/// `from`. `count` is how many are expected. Fault: Memory.
pub fn changed_keys(alloc: Global, log: &Records, from: u32, count: u32) -> Result<Vec<Key>, Memory>
    requires { CanWalk log.now.items log.now.marks from }
    ensures { IfOk result (λ keys. keys.items ≡ map key_of_record (chain (reverse log.now.items) from)) }
{
    let mut keys = Vec::with_capacity(alloc, count as usize)?;
    let mut at = from;
    while let Some(link) = newest_link(log, at) {
        keys.push(link.key)?;
        at = link.prev;
    }
    Ok(keys)
}

// Adds what a change writes, where it writes anything. Fault: Memory.
fn push_write(
    written: &mut Vec<(Key, Option<Record>)>,
    key: Key,
    after: Option<Option<Record>>,
) -> Result<(), Memory>
    ensures { OnOk result (written.new.items ≡ written.old.items ++ writes_if true key after []) }
{
    match after {
        Some(after) => {
            written.push((key, after))?;
            Ok(())
        }
        None => Ok(()),
    }
}

/// What the changes that aren't taken back write, newest first, on the way down from the record with the number `from`.
/// Fault: Memory.
pub fn changed_records(
    alloc: Global,
    log: &Records,
    from: u32,
) -> Result<Vec<(Key, Option<Record>)>, Memory>
    requires { CanWalk log.now.items log.now.marks from }
    ensures { IfOk result
        (λ written. written.items ≡ written_by (chain (reverse log.now.items) from)) }
{
    let mut written = Vec::new(alloc);
    let mut at = from;
    while let Some(change) = newest_change(log, at) {
        push_write(&mut written, change.key, change.after)?;
        at = change.prev;
    }
    Ok(written)
}

// What stood at a key before a change there, or what was found before the change is met.
fn older(change: &LiveChange, key: &Key, found: Option<Option<Record>>) -> Option<Option<Record>>
    ensures { result ≡ (if same_key change.now.key key.now then Some change.now.before else found) }
{
    if change.key == *key {
        Some(change.before)
    } else {
        found
    }
}

/// What stood at a key before the oldest change there that isn't taken back, or what that claim has seen, on the way down
/// from the record with the number `from`; nothing where none is there.
pub fn oldest_before(log: &Records, from: u32, key: &Key) -> Option<Option<Record>>
    requires { CanWalk log.now.items log.now.marks from }
    ensures { result ≡ oldest_at key.now (chain (reverse log.now.items) from) None }
{
    let mut oldest = None;
    let mut at = from;
    while let Some(change) = newest_change(log, at) {
        oldest = older(&change, key, oldest);
        at = change.prev;
    }
    oldest
}
