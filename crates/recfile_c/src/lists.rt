// Lists that are made once, and read entry by entry, from C.
ghost use Rattle.std.specs.Prelude.{◌≡◌, [], pos, length};
ghost use Rattle.recfile_c.specs.Shown.{key_shown, tx_shown, IsNoEntry};
ghost use Rattle.recfile_c.specs.Outcomes.{just, closed};
ghost use Rattle.recfile_c.specs.Calls.{OnHandle, OnSession};
ghost use Rattle.recfile_c.specs.Lists.{ListsEntries, ListsKeys, EntryAt, KeyAt, list_in};
ghost use Rattle.record_file.specs.Steps.{listed};
ghost use Rattle.recfile_c.specs.Answers.{IsStatusOf};

use crate::handle::RecFile;
use crate::held::Held;
use crate::outcome::{CLOSED, NO_SUCH_ENTRY, OK, Outcome};
use crate::shown::{KeyBytes, ListedEntry};
use rec_types::{Entry, Key, TxId};
use std::alloc::Global;

/// The list of an answer, and else an empty one.
pub(crate) fn list_in<X: Drop, E: Drop>(alloc: Global, answer: Result<Vec<X>, E>) -> Vec<X>
    ensures { result.items ≡ list_in (listed answer) }
{
    answer.unwrap_or(Vec::new(alloc))
}

// Lists the records, and keeps the list.
fn entries(alloc: Global, held: &mut Held, n: &mut u64) -> Outcome
    ensures { OnSession ((result ≡ just closed) × (n.new ≡ 0)) held.old held.new
        (ListsEntries result n.new) }
{
    *n = 0;
    match held {
        Held::Open(session) => {
            let answer = session.file.entries();
            let told = Outcome::from(&answer);
            session.entries = list_in(alloc, answer);
            *n = session.entries.len() as u64;
            told
        }
        Held::Image(_) | Held::Unclosed(_) | Held::Closed(_) => Outcome::just(CLOSED),
    }
}

/// Lists the records in key order, `n` of them, for `recfile_entry`. Statuses: OK, CLOSED, DEVICE or DAMAGED, MEMORY.
#[unsafe(no_mangle)]
pub extern "C" fn recfile_entries(
    alloc: Global,
    file: &mut RecFile,
    n: &mut u64,
    detail: &mut Outcome,
) -> i32
    ensures step { OnHandle ((detail.new ≡ just closed) × (n.new ≡ 0))
        file.old.slot.value file.new.slot.value
        (ListsEntries detail.new n.new) }
    ensures status { IsStatusOf result detail.new }
{
    let Some(mut held) = file.take(alloc) else {
        *n = 0;
        *detail = Outcome::just(CLOSED);
        return CLOSED;
    };
    *detail = entries(alloc, &mut held, n);
    file.give(held);
    detail.status
}

// An entry of the records that were listed last.
fn entry(held: &mut Held, i: u64, told: &mut ListedEntry) -> i32
    ensures { OnSession ((result ≡ pos closed) × IsNoEntry told.new) held.old held.new
        (EntryAt i result told.new) }
{
    *told = ListedEntry::default();
    match held {
        Held::Open(session) => match session.entries.get(i as usize) {
            Some(entry) => {
                *told = ListedEntry::from(entry);
                OK
            }
            None => NO_SUCH_ENTRY,
        },
        Held::Image(_) | Held::Unclosed(_) | Held::Closed(_) => CLOSED,
    }
}

/// An entry of the records that were listed last, from 0. Statuses: OK, CLOSED, NO_SUCH_ENTRY.
#[unsafe(no_mangle)]
pub extern "C" fn recfile_entry(
    alloc: Global,
    file: &mut RecFile,
    i: u64,
    told: &mut ListedEntry,
) -> i32
    ensures { OnHandle ((result ≡ pos closed) × IsNoEntry told.new)
        file.old.slot.value file.new.slot.value (EntryAt i result told.new) }
{
    let Some(mut held) = file.take(alloc) else {
        *told = ListedEntry::default();
        return CLOSED;
    };
    let status = entry(&mut held, i, told);
    file.give(held);
    status
}

// Lists the keys that a transaction owns, and keeps the list.
fn keys_of(alloc: Global, held: &mut Held, tx: TxId, n: &mut u64) -> i32
    ensures { OnSession ((result ≡ pos closed) × (n.new ≡ 0)) held.old held.new
        (ListsKeys tx result n.new) }
{
    *n = 0;
    match held {
        Held::Open(session) => {
            let answer = session.file.keys_of(tx);
            let told = Outcome::from(&answer);
            session.keys = list_in(alloc, answer);
            *n = session.keys.len() as u64;
            told.status
        }
        Held::Image(_) | Held::Unclosed(_) | Held::Closed(_) => CLOSED,
    }
}

/// Lists the keys that an open transaction owns in order, `n` of them, for `recfile_key`. Statuses: OK, CLOSED,
/// NO_SUCH_TX, MEMORY.
#[unsafe(no_mangle)]
pub extern "C" fn recfile_keys_of(alloc: Global, file: &mut RecFile, tx: u32, n: &mut u64) -> i32
    ensures { OnHandle ((result ≡ pos closed) × (n.new ≡ 0)) file.old.slot.value file.new.slot.value
        (ListsKeys (tx_shown tx) result n.new) }
{
    let Some(mut held) = file.take(alloc) else {
        *n = 0;
        return CLOSED;
    };
    let status = keys_of(alloc, &mut held, TxId(tx), n);
    file.give(held);
    status
}

// A key of those that were listed last.
fn key(held: &mut Held, i: u64, told: &mut KeyBytes) -> i32
    ensures { OnSession ((result ≡ pos closed) × (key_shown told.new ≡ [])) held.old held.new
        (KeyAt i result (key_shown told.new)) }
{
    *told = KeyBytes::default();
    match held {
        Held::Open(session) => match session.keys.get(i as usize) {
            Some(key) => {
                *told = KeyBytes::from(key);
                OK
            }
            None => NO_SUCH_ENTRY,
        },
        Held::Image(_) | Held::Unclosed(_) | Held::Closed(_) => CLOSED,
    }
}

/// A key of those that were listed last, from 0. Statuses: OK, CLOSED, NO_SUCH_ENTRY.
#[unsafe(no_mangle)]
pub extern "C" fn recfile_key(alloc: Global, file: &mut RecFile, i: u64, told: &mut KeyBytes) -> i32
    ensures { OnHandle ((result ≡ pos closed) × (key_shown told.new ≡ []))
        file.old.slot.value file.new.slot.value
        (KeyAt i result (key_shown told.new)) }
{
    let Some(mut held) = file.take(alloc) else {
        *told = KeyBytes::default();
        return CLOSED;
    };
    let status = key(&mut held, i, told);
    file.give(held);
    status
}
