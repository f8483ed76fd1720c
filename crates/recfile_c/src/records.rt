// Records, from C.
ghost use Rattle.std.specs.Prelude.{◌≡◌, None};
ghost use Rattle.rec_types.specs.Key.{key_of};
ghost use Rattle.rec_types.specs.Record.{record_of};
ghost use Rattle.recfile_c.specs.Shown.{shown, tx_shown};
ghost use Rattle.recfile_c.specs.Outcomes.{just, closed};
ghost use Rattle.recfile_c.specs.Calls.{OnHandle, OnSession, InFile, PutBytes, ClaimBytes, CommittedBytes, RemoveBytes, GetBytes};
ghost use Rattle.recfile_c.specs.Answers.{IsStatusOf};

use crate::handle::RecFile;
use crate::held::Held;
use crate::outcome::{CLOSED, LONG_RECORD, Outcome};
use crate::shown::Found;
use rec_types::{Key, Record, TxId};
use std::alloc::Global;

// Puts a record.
fn put(held: &mut Held, tx: TxId, key: &[u8], value: &[u8], before: &mut Found) -> Outcome
    ensures { OnSession ((result ≡ just closed) × (shown before.new ≡ None)) held.old held.new
        (InFile (PutBytes tx (key_of key.now) (record_of value.now) result (shown before.new))) }
{
    *before = Found::default();
    match held {
        Held::Open(session) => {
            let key = match Key::new(key) {
                Ok(key) => key,
                Err(fault) => return Outcome::from(fault),
            };
            let Ok(value) = Record::new(value) else {
                return Outcome::just(LONG_RECORD);
            };
            let answer = session.file.put(tx, key, value);
            before.show_found(&answer);
            Outcome::from(&answer)
        }
        Held::Image(_) | Held::Unclosed(_) | Held::Closed(_) => Outcome::just(CLOSED),
    }
}

/// Puts a record at a key; `before` is the one that stood there. Statuses: OK, CLOSED, EMPTY_KEY, LONG_KEY,
/// LONG_RECORD, NO_SUCH_TX, ROLLING, HELD, LOG_FULL, DEVICE or DAMAGED, FULL, MEMORY.
#[unsafe(no_mangle)]
pub extern "C" fn recfile_put(
    alloc: Global,
    file: &mut RecFile,
    tx: u32,
    key: &[u8],
    value: &[u8],
    before: &mut Found,
    detail: &mut Outcome,
) -> i32
    ensures step { OnHandle ((detail.new ≡ just closed) × (shown before.new ≡ None))
        file.old.slot.value file.new.slot.value
        (InFile (PutBytes (tx_shown tx) (key_of key.now) (record_of value.now) detail.new
        (shown before.new))) }
    ensures status { IsStatusOf result detail.new }
{
    let Some(mut held) = file.take(alloc) else {
        *before = Found::default();
        *detail = Outcome::just(CLOSED);
        return CLOSED;
    };
    *detail = put(&mut held, TxId(tx), key, value, before);
    file.give(held);
    detail.status
}

// Claims a key, and tells of the record there.
fn claim(held: &mut Held, tx: TxId, key: &[u8], seen: &mut Found) -> Outcome
    ensures { OnSession ((result ≡ just closed) × (shown seen.new ≡ None)) held.old held.new
        (InFile (ClaimBytes tx (key_of key.now) result (shown seen.new))) }
{
    *seen = Found::default();
    match held {
        Held::Open(session) => {
            let key = match Key::new(key) {
                Ok(key) => key,
                Err(fault) => return Outcome::from(fault),
            };
            let answer = session.file.claim(tx, key);
            seen.show_found(&answer);
            Outcome::from(&answer)
        }
        Held::Image(_) | Held::Unclosed(_) | Held::Closed(_) => Outcome::just(CLOSED),
    }
}

/// Claims a key without changing its record, and tells of that. Statuses: OK, CLOSED, EMPTY_KEY, LONG_KEY, NO_SUCH_TX,
/// ROLLING, HELD, LOG_FULL, DEVICE or DAMAGED, FULL, MEMORY.
#[unsafe(no_mangle)]
pub extern "C" fn recfile_claim(
    alloc: Global,
    file: &mut RecFile,
    tx: u32,
    key: &[u8],
    seen: &mut Found,
    detail: &mut Outcome,
) -> i32
    ensures step { OnHandle ((detail.new ≡ just closed) × (shown seen.new ≡ None))
        file.old.slot.value file.new.slot.value
        (InFile (ClaimBytes (tx_shown tx) (key_of key.now) detail.new (shown seen.new))) }
    ensures status { IsStatusOf result detail.new }
{
    let Some(mut held) = file.take(alloc) else {
        *seen = Found::default();
        *detail = Outcome::just(CLOSED);
        return CLOSED;
    };
    *detail = claim(&mut held, TxId(tx), key, seen);
    file.give(held);
    detail.status
}

// Takes a record out.
fn remove(held: &mut Held, tx: TxId, key: &[u8], taken: &mut Found) -> Outcome
    ensures { OnSession ((result ≡ just closed) × (shown taken.new ≡ None)) held.old held.new
        (InFile (RemoveBytes tx (key_of key.now) result (shown taken.new))) }
{
    *taken = Found::default();
    match held {
        Held::Open(session) => {
            let key = match Key::new(key) {
                Ok(key) => key,
                Err(fault) => return Outcome::from(fault),
            };
            let answer = session.file.remove(tx, key);
            taken.show_taken(&answer);
            Outcome::from(&answer)
        }
        Held::Image(_) | Held::Unclosed(_) | Held::Closed(_) => Outcome::just(CLOSED),
    }
}

/// Takes the record at a key out. Statuses: OK, CLOSED, EMPTY_KEY, LONG_KEY, NO_SUCH_TX, ROLLING, HELD, LOG_FULL,
/// DEVICE or DAMAGED, ABSENT, MEMORY.
#[unsafe(no_mangle)]
pub extern "C" fn recfile_remove(
    alloc: Global,
    file: &mut RecFile,
    tx: u32,
    key: &[u8],
    taken: &mut Found,
    detail: &mut Outcome,
) -> i32
    ensures step { OnHandle ((detail.new ≡ just closed) × (shown taken.new ≡ None))
        file.old.slot.value file.new.slot.value
        (InFile (RemoveBytes (tx_shown tx) (key_of key.now) detail.new (shown taken.new))) }
    ensures status { IsStatusOf result detail.new }
{
    let Some(mut held) = file.take(alloc) else {
        *taken = Found::default();
        *detail = Outcome::just(CLOSED);
        return CLOSED;
    };
    *detail = remove(&mut held, TxId(tx), key, taken);
    file.give(held);
    detail.status
}

// The record without the changes of open transactions.
fn committed(held: &mut Held, key: &[u8], found: &mut Found) -> Outcome
    ensures { OnSession ((result ≡ just closed) × (shown found.new ≡ None)) held.old held.new
        (InFile (CommittedBytes (key_of key.now) result (shown found.new))) }
{
    *found = Found::default();
    match held {
        Held::Open(session) => {
            let key = match Key::new(key) {
                Ok(key) => key,
                Err(fault) => return Outcome::from(fault),
            };
            let answer = session.file.committed(&key);
            found.show_found(&answer);
            Outcome::from(&answer)
        }
        Held::Image(_) | Held::Unclosed(_) | Held::Closed(_) => Outcome::just(CLOSED),
    }
}

/// The record that stands at a key without the changes of open transactions. Statuses: OK, CLOSED, EMPTY_KEY, LONG_KEY, DEVICE
/// or DAMAGED.
#[unsafe(no_mangle)]
pub extern "C" fn recfile_committed(
    alloc: Global,
    file: &mut RecFile,
    key: &[u8],
    found: &mut Found,
    detail: &mut Outcome,
) -> i32
    ensures step { OnHandle ((detail.new ≡ just closed) × (shown found.new ≡ None))
        file.old.slot.value file.new.slot.value
        (InFile (CommittedBytes (key_of key.now) detail.new (shown found.new))) }
    ensures status { IsStatusOf result detail.new }
{
    let Some(mut held) = file.take(alloc) else {
        *found = Found::default();
        *detail = Outcome::just(CLOSED);
        return CLOSED;
    };
    *detail = committed(&mut held, key, found);
    file.give(held);
    detail.status
}

// Looks a record up.
fn get(held: &mut Held, tx: TxId, key: &[u8], found: &mut Found) -> Outcome
    ensures { OnSession ((result ≡ just closed) × (shown found.new ≡ None)) held.old held.new
        (InFile (GetBytes tx (key_of key.now) result (shown found.new))) }
{
    *found = Found::default();
    match held {
        Held::Open(session) => {
            let key = match Key::new(key) {
                Ok(key) => key,
                Err(fault) => return Outcome::from(fault),
            };
            let answer = session.file.get(tx, &key);
            found.show_found(&answer);
            Outcome::from(&answer)
        }
        Held::Image(_) | Held::Unclosed(_) | Held::Closed(_) => Outcome::just(CLOSED),
    }
}

/// Looks the record at a key up. Statuses: OK, CLOSED, EMPTY_KEY, LONG_KEY, NO_SUCH_TX, ROLLING, HELD, DEVICE or
/// DAMAGED.
#[unsafe(no_mangle)]
pub extern "C" fn recfile_get(
    alloc: Global,
    file: &mut RecFile,
    tx: u32,
    key: &[u8],
    found: &mut Found,
    detail: &mut Outcome,
) -> i32
    ensures step { OnHandle ((detail.new ≡ just closed) × (shown found.new ≡ None))
        file.old.slot.value file.new.slot.value
        (InFile (GetBytes (tx_shown tx) (key_of key.now) detail.new (shown found.new))) }
    ensures status { IsStatusOf result detail.new }
{
    let Some(mut held) = file.take(alloc) else {
        *found = Found::default();
        *detail = Outcome::just(CLOSED);
        return CLOSED;
    };
    *detail = get(&mut held, TxId(tx), key, found);
    file.give(held);
    detail.status
}
