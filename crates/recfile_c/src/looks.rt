// Looks at a file, from C.
ghost use Rattle.std.specs.Prelude.{◌≡◌, pos, None};
ghost use Rattle.recfile_c.specs.Shown.{log_shown, kind_of, tx_shown, no_status};
ghost use Rattle.recfile_c.specs.Outcomes.{closed};
ghost use Rattle.recfile_c.specs.Calls.{OnHandle, OnSession, InFile, StatusOf, Charged, CountsRecords, Begun, LogLen, LogUse, RecordAt};

use crate::handle::RecFile;
use crate::held::Held;
use crate::outcome::{CLOSED, OK, Outcome};
use crate::shown::{LogEntry, TxStatus};
use rec_types::TxId;
use std::alloc::Global;

// What a transaction is doing.
fn status(held: &mut Held, tx: TxId, status: &mut TxStatus) -> i32
    ensures { OnSession ((result ≡ pos closed) × (status.new ≡ no_status)) held.old held.new
        (InFile (StatusOf tx result status.new)) }
{
    *status = TxStatus::default();
    match held {
        Held::Open(session) => {
            let answer = session.file.status(tx);
            *status = TxStatus::from(&answer);
            Outcome::from(&answer).status
        }
        Held::Image(_) | Held::Unclosed(_) | Held::Closed(_) => CLOSED,
    }
}

/// What an open transaction is doing. Statuses: OK, CLOSED, NO_SUCH_TX.
#[unsafe(no_mangle)]
pub extern "C" fn recfile_status(
    alloc: Global,
    file: &mut RecFile,
    tx: u32,
    told: &mut TxStatus,
) -> i32
    ensures { OnHandle ((result ≡ pos closed) × (told.new ≡ no_status))
        file.old.slot.value file.new.slot.value
        (InFile (StatusOf (tx_shown tx) result told.new)) }
{
    let Some(mut held) = file.take(alloc) else {
        *told = TxStatus::default();
        return CLOSED;
    };
    let status = status(&mut held, TxId(tx), told);
    file.give(held);
    status
}

// How many keys have a record or an owner.
fn charged(held: &mut Held, n: &mut u64) -> i32
    ensures { OnSession ((result ≡ pos closed) × (n.new ≡ 0)) held.old held.new
        (InFile (Charged result n.new)) }
{
    *n = 0;
    match held {
        Held::Open(session) => {
            *n = session.file.charged();
            OK
        }
        Held::Image(_) | Held::Unclosed(_) | Held::Closed(_) => CLOSED,
    }
}

/// How many keys have a record or an owner. Statuses: OK, CLOSED.
#[unsafe(no_mangle)]
pub extern "C" fn recfile_charged(alloc: Global, file: &mut RecFile, n: &mut u64) -> i32
    ensures { OnHandle ((result ≡ pos closed) × (n.new ≡ 0)) file.old.slot.value file.new.slot.value
        (InFile (Charged result n.new)) }
{
    let Some(mut held) = file.take(alloc) else {
        *n = 0;
        return CLOSED;
    };
    let status = charged(&mut held, n);
    file.give(held);
    status
}

// How many records there are.
fn count(held: &mut Held, n: &mut u32) -> i32
    ensures { OnSession ((result ≡ pos closed) × (n.new ≡ 0)) held.old held.new
        (InFile (CountsRecords result n.new)) }
{
    *n = 0;
    match held {
        Held::Open(session) => {
            *n = session.file.count();
            OK
        }
        Held::Image(_) | Held::Unclosed(_) | Held::Closed(_) => CLOSED,
    }
}

/// How many records there are. Statuses: OK, CLOSED.
#[unsafe(no_mangle)]
pub extern "C" fn recfile_count(alloc: Global, file: &mut RecFile, n: &mut u32) -> i32
    ensures { OnHandle ((result ≡ pos closed) × (n.new ≡ 0)) file.old.slot.value file.new.slot.value
        (InFile (CountsRecords result n.new)) }
{
    let Some(mut held) = file.take(alloc) else {
        *n = 0;
        return CLOSED;
    };
    let status = count(&mut held, n);
    file.give(held);
    status
}

// How many transactions were begun.
fn begun(held: &mut Held, n: &mut u32) -> i32
    ensures { OnSession ((result ≡ pos closed) × (n.new ≡ 0)) held.old held.new
        (InFile (Begun result n.new)) }
{
    *n = 0;
    match held {
        Held::Open(session) => {
            *n = session.file.begun();
            OK
        }
        Held::Image(_) | Held::Unclosed(_) | Held::Closed(_) => CLOSED,
    }
}

/// How many transactions were begun. Statuses: OK, CLOSED.
#[unsafe(no_mangle)]
pub extern "C" fn recfile_begun(alloc: Global, file: &mut RecFile, n: &mut u32) -> i32
    ensures { OnHandle ((result ≡ pos closed) × (n.new ≡ 0)) file.old.slot.value file.new.slot.value
        (InFile (Begun result n.new)) }
{
    let Some(mut held) = file.take(alloc) else {
        *n = 0;
        return CLOSED;
    };
    let status = begun(&mut held, n);
    file.give(held);
    status
}

// The length of the log.
fn log_len(held: &mut Held, n: &mut u32) -> i32
    ensures { OnSession ((result ≡ pos closed) × (n.new ≡ 0)) held.old held.new
        (InFile (LogLen result n.new)) }
{
    *n = 0;
    match held {
        Held::Open(session) => {
            *n = session.file.log_len();
            OK
        }
        Held::Image(_) | Held::Unclosed(_) | Held::Closed(_) => CLOSED,
    }
}

/// The length of the log. Statuses: OK, CLOSED.
#[unsafe(no_mangle)]
pub extern "C" fn recfile_log_len(alloc: Global, file: &mut RecFile, n: &mut u32) -> i32
    ensures { OnHandle ((result ≡ pos closed) × (n.new ≡ 0)) file.old.slot.value file.new.slot.value
        (InFile (LogLen result n.new)) }
{
    let Some(mut held) = file.take(alloc) else {
        *n = 0;
        return CLOSED;
    };
    let status = log_len(&mut held, n);
    file.give(held);
    status
}

// The length of the log, and the live changes of open transactions.
fn log_use(held: &mut Held, n: &mut u32) -> i32
    ensures { OnSession ((result ≡ pos closed) × (n.new ≡ 0)) held.old held.new
        (InFile (LogUse result n.new)) }
{
    *n = 0;
    match held {
        Held::Open(session) => {
            *n = session.file.log_use();
            OK
        }
        Held::Image(_) | Held::Unclosed(_) | Held::Closed(_) => CLOSED,
    }
}

/// The length of the log, and the live changes of open transactions. Statuses: OK, CLOSED.
#[unsafe(no_mangle)]
pub extern "C" fn recfile_log_use(alloc: Global, file: &mut RecFile, n: &mut u32) -> i32
    ensures { OnHandle ((result ≡ pos closed) × (n.new ≡ 0)) file.old.slot.value file.new.slot.value
        (InFile (LogUse result n.new)) }
{
    let Some(mut held) = file.take(alloc) else {
        *n = 0;
        return CLOSED;
    };
    let status = log_use(&mut held, n);
    file.give(held);
    status
}

// A record of the log.
fn log_record(held: &mut Held, lsn: u32, entry: &mut LogEntry) -> i32
    ensures step { OnSession ((result ≡ pos closed) × (log_shown entry.new ≡ None)) held.old held.new
        (InFile (RecordAt lsn result (log_shown entry.new))) }
    ensures kind { entry.new.kind ≡ kind_of (log_shown entry.new) }
{
    *entry = LogEntry::default();
    match held {
        Held::Open(session) => {
            *entry = LogEntry::from(&session.file.log_record(lsn));
            OK
        }
        Held::Image(_) | Held::Unclosed(_) | Held::Closed(_) => CLOSED,
    }
}

/// The log record with a number, which counts from 1. Statuses: OK, CLOSED.
#[unsafe(no_mangle)]
pub extern "C" fn recfile_log_record(
    alloc: Global,
    file: &mut RecFile,
    lsn: u32,
    entry: &mut LogEntry,
) -> i32
    ensures step { OnHandle ((result ≡ pos closed) × (log_shown entry.new ≡ None))
        file.old.slot.value file.new.slot.value
        (InFile (RecordAt lsn result (log_shown entry.new))) }
    ensures kind { entry.new.kind ≡ kind_of (log_shown entry.new) }
{
    let Some(mut held) = file.take(alloc) else {
        *entry = LogEntry::default();
        return CLOSED;
    };
    let status = log_record(&mut held, lsn, entry);
    file.give(held);
    status
}
