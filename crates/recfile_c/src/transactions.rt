// Transactions, from C.
ghost use Rattle.std.specs.Prelude.{◌≡◌, pos};
ghost use Rattle.recfile_c.specs.Answers.{number_in, begun_in, IsStatusOf};
ghost use Rattle.recfile_c.specs.Shown.{tx_shown};
ghost use Rattle.recfile_c.specs.Outcomes.{just, closed};
ghost use Rattle.recfile_c.specs.Calls.{OnHandle, OnSession, InFile, Begin, Savepoint, Release, RollbackTo, Abort, Resume, Commit};

use crate::handle::RecFile;
use crate::held::Held;
use crate::outcome::{CLOSED, Outcome};
use rec_types::TxId;
use record_file::BeginFault;
use std::alloc::Global;

// The number that an answer has, and else 0.
fn number_in<E>(answer: &Result<u32, E>) -> u32
    ensures { result ≡ number_in answer.now }
{
    answer.as_ref().map_or(0, |n| *n)
}

// The transaction that was begun, and else 0.
fn tx_in(answer: &Result<TxId, BeginFault>) -> u32
    ensures { result ≡ begun_in answer.now }
{
    answer.as_ref().map_or(0, |tx| tx.0)
}

// Begins a transaction.
fn begin(held: &mut Held, tx: &mut u32) -> i32
    ensures { OnSession ((result ≡ pos closed) × (tx.new ≡ 0)) held.old held.new
        (InFile (Begin result tx.new)) }
{
    *tx = 0;
    match held {
        Held::Open(session) => {
            let answer = session.file.begin();
            *tx = tx_in(&answer);
            Outcome::from(&answer).status
        }
        Held::Image(_) | Held::Unclosed(_) | Held::Closed(_) => CLOSED,
    }
}

/// Begins a transaction. Statuses: OK, CLOSED, BEGINS_SPENT, MEMORY.
#[unsafe(no_mangle)]
pub extern "C" fn recfile_begin(alloc: Global, file: &mut RecFile, tx: &mut u32) -> i32
    ensures { OnHandle ((result ≡ pos closed) × (tx.new ≡ 0))
        file.old.slot.value file.new.slot.value
        (InFile (Begin result tx.new)) }
{
    let Some(mut held) = file.take(alloc) else {
        *tx = 0;
        return CLOSED;
    };
    let status = begin(&mut held, tx);
    file.give(held);
    status
}

// Sets a savepoint.
fn savepoint(held: &mut Held, tx: TxId, n: &mut u32) -> i32
    ensures { OnSession ((result ≡ pos closed) × (n.new ≡ 0)) held.old held.new
        (InFile (Savepoint tx result n.new)) }
{
    *n = 0;
    match held {
        Held::Open(session) => {
            let answer = session.file.savepoint(tx);
            *n = number_in(&answer);
            Outcome::from(&answer).status
        }
        Held::Image(_) | Held::Unclosed(_) | Held::Closed(_) => CLOSED,
    }
}

/// Sets a savepoint; `n` is its number. Statuses: OK, CLOSED, NO_SUCH_TX, ROLLING, TOO_DEEP.
#[unsafe(no_mangle)]
pub extern "C" fn recfile_savepoint(alloc: Global, file: &mut RecFile, tx: u32, n: &mut u32) -> i32
    ensures { OnHandle ((result ≡ pos closed) × (n.new ≡ 0)) file.old.slot.value file.new.slot.value
        (InFile (Savepoint (tx_shown tx) result n.new)) }
{
    let Some(mut held) = file.take(alloc) else {
        *n = 0;
        return CLOSED;
    };
    let status = savepoint(&mut held, TxId(tx), n);
    file.give(held);
    status
}

// Drops a savepoint and those above it.
fn release(held: &mut Held, tx: TxId, n: u32) -> i32
    ensures { OnSession (result ≡ pos closed) held.old held.new
        (InFile (Release tx n result)) }
{
    match held {
        Held::Open(session) => {
            let answer = session.file.release(tx, n);
            Outcome::from(&answer).status
        }
        Held::Image(_) | Held::Unclosed(_) | Held::Closed(_) => CLOSED,
    }
}

/// Drops savepoint n and those above it. Statuses: OK, CLOSED, NO_SUCH_TX, ROLLING, NO_SUCH_SAVE.
#[unsafe(no_mangle)]
pub extern "C" fn recfile_release(alloc: Global, file: &mut RecFile, tx: u32, n: u32) -> i32
    ensures { OnHandle (result ≡ pos closed) file.old.slot.value file.new.slot.value
        (InFile (Release (tx_shown tx) n result)) }
{
    let Some(mut held) = file.take(alloc) else {
        return CLOSED;
    };
    let status = release(&mut held, TxId(tx), n);
    file.give(held);
    status
}

// Goes back to a savepoint.
fn rollback_to(held: &mut Held, tx: TxId, n: u32, undone: &mut u32) -> Outcome
    ensures { OnSession ((result ≡ just closed) × (undone.new ≡ 0)) held.old held.new
        (InFile (RollbackTo tx n result undone.new)) }
{
    *undone = 0;
    match held {
        Held::Open(session) => {
            let answer = session.file.rollback_to(tx, n);
            *undone = number_in(&answer);
            Outcome::from(&answer)
        }
        Held::Image(_) | Held::Unclosed(_) | Held::Closed(_) => Outcome::just(CLOSED),
    }
}

/// Takes back all since savepoint n, 0 being the beginning; `undone` is how many changes. Statuses: OK, CLOSED,
/// NO_SUCH_TX, ROLLING, NO_SUCH_SAVE, STOPPED.
#[unsafe(no_mangle)]
pub extern "C" fn recfile_rollback_to(
    alloc: Global,
    file: &mut RecFile,
    tx: u32,
    n: u32,
    undone: &mut u32,
    detail: &mut Outcome,
) -> i32
    ensures step { OnHandle ((detail.new ≡ just closed) × (undone.new ≡ 0))
        file.old.slot.value file.new.slot.value
        (InFile (RollbackTo (tx_shown tx) n detail.new undone.new)) }
    ensures status { IsStatusOf result detail.new }
{
    let Some(mut held) = file.take(alloc) else {
        *undone = 0;
        *detail = Outcome::just(CLOSED);
        return CLOSED;
    };
    *detail = rollback_to(&mut held, TxId(tx), n, undone);
    file.give(held);
    detail.status
}

// Takes a transaction back, and ends it.
fn abort(held: &mut Held, tx: TxId, undone: &mut u32) -> Outcome
    ensures { OnSession ((result ≡ just closed) × (undone.new ≡ 0)) held.old held.new
        (InFile (Abort tx result undone.new)) }
{
    *undone = 0;
    match held {
        Held::Open(session) => {
            let answer = session.file.abort(tx);
            *undone = number_in(&answer);
            Outcome::from(&answer)
        }
        Held::Image(_) | Held::Unclosed(_) | Held::Closed(_) => Outcome::just(CLOSED),
    }
}

/// Takes all of a transaction back, and ends it. Statuses: OK, CLOSED, NO_SUCH_TX, ROLLING, STOPPED.
#[unsafe(no_mangle)]
pub extern "C" fn recfile_abort(
    alloc: Global,
    file: &mut RecFile,
    tx: u32,
    undone: &mut u32,
    detail: &mut Outcome,
) -> i32
    ensures step { OnHandle ((detail.new ≡ just closed) × (undone.new ≡ 0))
        file.old.slot.value file.new.slot.value
        (InFile (Abort (tx_shown tx) detail.new undone.new)) }
    ensures status { IsStatusOf result detail.new }
{
    let Some(mut held) = file.take(alloc) else {
        *undone = 0;
        *detail = Outcome::just(CLOSED);
        return CLOSED;
    };
    *detail = abort(&mut held, TxId(tx), undone);
    file.give(held);
    detail.status
}

// Goes on with a rollback that stopped.
fn resume(held: &mut Held, tx: TxId, undone: &mut u32) -> Outcome
    ensures { OnSession ((result ≡ just closed) × (undone.new ≡ 0)) held.old held.new
        (InFile (Resume tx result undone.new)) }
{
    *undone = 0;
    match held {
        Held::Open(session) => {
            let answer = session.file.resume(tx);
            *undone = number_in(&answer);
            Outcome::from(&answer)
        }
        Held::Image(_) | Held::Unclosed(_) | Held::Closed(_) => Outcome::just(CLOSED),
    }
}

/// Goes on with a rollback that stopped. Statuses: OK, CLOSED, NO_SUCH_TX, NOT_ROLLING, STOPPED.
#[unsafe(no_mangle)]
pub extern "C" fn recfile_resume(
    alloc: Global,
    file: &mut RecFile,
    tx: u32,
    undone: &mut u32,
    detail: &mut Outcome,
) -> i32
    ensures step { OnHandle ((detail.new ≡ just closed) × (undone.new ≡ 0))
        file.old.slot.value file.new.slot.value
        (InFile (Resume (tx_shown tx) detail.new undone.new)) }
    ensures status { IsStatusOf result detail.new }
{
    let Some(mut held) = file.take(alloc) else {
        *undone = 0;
        *detail = Outcome::just(CLOSED);
        return CLOSED;
    };
    *detail = resume(&mut held, TxId(tx), undone);
    file.give(held);
    detail.status
}

// Ends a transaction; its changes stay.
fn commit(held: &mut Held, tx: TxId) -> i32
    ensures { OnSession (result ≡ pos closed) held.old held.new
        (InFile (Commit tx result)) }
{
    match held {
        Held::Open(session) => {
            let answer = session.file.commit(tx);
            Outcome::from(&answer).status
        }
        Held::Image(_) | Held::Unclosed(_) | Held::Closed(_) => CLOSED,
    }
}

/// Ends a transaction; its changes stay. Statuses: OK, CLOSED, NO_SUCH_TX, ROLLING.
#[unsafe(no_mangle)]
pub extern "C" fn recfile_commit(alloc: Global, file: &mut RecFile, tx: u32) -> i32
    ensures { OnHandle (result ≡ pos closed) file.old.slot.value file.new.slot.value
        (InFile (Commit (tx_shown tx) result)) }
{
    let Some(mut held) = file.take(alloc) else {
        return CLOSED;
    };
    let status = commit(&mut held, TxId(tx));
    file.give(held);
    status
}
