// Records in the order of their keys, from C.
ghost use Rattle.std.specs.Prelude.{◌≡◌, false, nat_lt};
ghost use Rattle.rec_types.specs.Key.{key_of};
ghost use Rattle.rec_types.specs.declared.side.Side.TheVariants.{After, Before};
ghost use Rattle.recfile_c.specs.Answers.{IsStatusOf};
ghost use Rattle.recfile_c.specs.Calls.{OnHandle, OnSession, InFile};
ghost use Rattle.recfile_c.specs.Gaps.{ListsRange, LooksBeside, gap_of_bytes, gap_of_key, look_outcome, side_of};
ghost use Rattle.recfile_c.specs.Outcomes.{just, closed};
ghost use Rattle.recfile_c.specs.Shown.{IsNoEntry};

use crate::handle::RecFile;
use crate::held::Held;
use crate::lists::list_in;
use crate::outcome::{ABSENT, CLOSED, Outcome};
use crate::shown::ListedEntry;
use rec_types::{Entry, Gap, Key, KeyFault, Side};
use record_file::EntriesFault;
use std::alloc::Global;

// The side of the smaller keys, or that of the greater ones.
fn side_of(is_down: bool) -> Side
    ensures { result ≡ side_of is_down }
{
    if is_down { Side::Before } else { Side::After }
}

// The gap from which a side has what is past a key, and what is at it where that is asked for.
fn gap_of_key(side: Side, at_key: bool, key: Key) -> Gap
    ensures { result ≡ gap_of_key side at_key key }
{
    match (side, at_key) {
        (Side::After, true) | (Side::Before, false) => Gap::Before(key),
        (Side::After, false) | (Side::Before, true) => Gap::Behind(key),
    }
}

// That of the bytes of a key; of none, the one from which the side has all. Fault: TooLong.
fn gap_of_bytes(side: Side, at_key: bool, bytes: &[u8]) -> Result<Gap, KeyFault>
    ensures { result ≡ gap_of_bytes side at_key (key_of bytes.now) }
{
    match (Key::new(bytes), side) {
        (Ok(key), _) => Ok(gap_of_key(side, at_key, key)),
        (Err(KeyFault::Empty), Side::After) => Ok(Gap::Start),
        (Err(KeyFault::Empty), Side::Before) => Ok(Gap::End),
        (Err(KeyFault::TooLong), _) => Err(KeyFault::TooLong),
    }
}

// What a look at a record answered.
fn look_outcome(answer: &Result<Option<Entry>, EntriesFault>) -> Outcome
    ensures { result ≡ look_outcome answer.now }
{
    match answer {
        Ok(None) => Outcome::just(ABSENT),
        Ok(Some(_)) | Err(_) => Outcome::from(answer),
    }
}

// The record nearest to a key on a side of it.
fn beside(held: &mut Held, side: Side, key: &[u8], told: &mut ListedEntry) -> Outcome
    ensures { OnSession ((result ≡ just closed) × IsNoEntry told.new) held.old held.new
        (InFile (LooksBeside side (gap_of_bytes side false (key_of key.now)) result told.new)) }
{
    *told = ListedEntry::default();
    match held {
        Held::Open(session) => {
            let gap = match gap_of_bytes(side, false, key) {
                Ok(gap) => gap,
                Err(fault) => return Outcome::from(fault),
            };
            let answer = session.file.beside(side, &gap);
            *told = ListedEntry::from(&answer);
            look_outcome(&answer)
        }
        Held::Image(_) | Held::Unclosed(_) | Held::Closed(_) => Outcome::just(CLOSED),
    }
}

/// The record of the least key above a key; of no bytes the first record. Statuses: OK, CLOSED, LONG_KEY, DEVICE or DAMAGED,
/// MEMORY, ABSENT.
#[unsafe(no_mangle)]
pub extern "C" fn recfile_after(
    alloc: Global,
    file: &mut RecFile,
    key: &[u8],
    told: &mut ListedEntry,
    detail: &mut Outcome,
) -> i32
    ensures step { OnHandle ((detail.new ≡ just closed) × IsNoEntry told.new)
        file.old.slot.value file.new.slot.value
        (InFile (LooksBeside After (gap_of_bytes After false (key_of key.now)) detail.new told.new)) }
    ensures status { IsStatusOf result detail.new }
{
    let Some(mut held) = file.take(alloc) else {
        *told = ListedEntry::default();
        *detail = Outcome::just(CLOSED);
        return CLOSED;
    };
    *detail = beside(&mut held, Side::After, key, told);
    file.give(held);
    detail.status
}

/// The record of the greatest key below a key; of no bytes the last record. Statuses: as of `recfile_after`.
#[unsafe(no_mangle)]
pub extern "C" fn recfile_before(
    alloc: Global,
    file: &mut RecFile,
    key: &[u8],
    told: &mut ListedEntry,
    detail: &mut Outcome,
) -> i32
    ensures step { OnHandle ((detail.new ≡ just closed) × IsNoEntry told.new)
        file.old.slot.value file.new.slot.value
        (InFile (LooksBeside Before (gap_of_bytes Before false (key_of key.now)) detail.new told.new)) }
    ensures status { IsStatusOf result detail.new }
{
    let Some(mut held) = file.take(alloc) else {
        *told = ListedEntry::default();
        *detail = Outcome::just(CLOSED);
        return CLOSED;
    };
    *detail = beside(&mut held, Side::Before, key, told);
    file.give(held);
    detail.status
}

// Lists so many of the records on a side of a key, and keeps the list.
fn range(
    alloc: Global,
    held: &mut Held,
    side: Side,
    at_key: bool,
    key: &[u8],
    most: u32,
    n: &mut u64,
) -> Outcome
    ensures { OnSession ((result ≡ just closed) × (n.new ≡ 0)) held.old held.new
        (ListsRange side (gap_of_bytes side at_key (key_of key.now)) most result n.new) }
{
    *n = 0;
    match held {
        Held::Open(session) => {
            let gap = match gap_of_bytes(side, at_key, key) {
                Ok(gap) => gap,
                Err(fault) => return Outcome::from(fault),
            };
            let answer = session.file.entries_beside(alloc, side, &gap, most);
            let told = Outcome::from(&answer);
            session.entries = list_in(alloc, answer);
            *n = session.entries.len() as u64;
            told
        }
        Held::Image(_) | Held::Unclosed(_) | Held::Closed(_) => Outcome::just(CLOSED),
    }
}

/// Lists at most `most` records from a key on, `n` of them, for `recfile_entry`: the nearest first, in key order, or, where
/// `is_down` isn't 0, the other way. The record at the key is among them where `at_key` isn't 0; of no bytes they are those from
/// that end of the order on. Statuses: OK, CLOSED, LONG_KEY, DEVICE or DAMAGED, MEMORY.
#[unsafe(no_mangle)]
pub extern "C" fn recfile_range(
    alloc: Global,
    file: &mut RecFile,
    key: &[u8],
    at_key: u8,
    is_down: u8,
    most: u32,
    n: &mut u64,
    detail: &mut Outcome,
) -> i32
    ensures step { OnHandle ((detail.new ≡ just closed) × (n.new ≡ 0))
        file.old.slot.value file.new.slot.value
        (ListsRange (side_of (nat_lt 0 is_down))
        (gap_of_bytes (side_of (nat_lt 0 is_down)) (nat_lt 0 at_key) (key_of key.now)) most detail.new n.new) }
    ensures status { IsStatusOf result detail.new }
{
    let Some(mut held) = file.take(alloc) else {
        *n = 0;
        *detail = Outcome::just(CLOSED);
        return CLOSED;
    };
    let side = side_of(is_down > 0);
    *detail = range(alloc, &mut held, side, at_key > 0, key, most, n);
    file.give(held);
    detail.status
}
