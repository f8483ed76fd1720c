ghost use Rattle.std.specs.Prelude.{◌≡◌, ◌<◌, ◌≤◌, ◌++◌, ◌∷◌, [], List, length, take, IfOk, IfErr, OnOk};
ghost use Rattle.record_file.specs.Abstract.{IsKeptFile};
ghost use Rattle.record_file.specs.Runs.{IsKeptSeen, seen};
ghost use Rattle.record_file.specs.Calls.{Makes, MakesAll};
ghost use Rattle.record_file.specs.Exact.{IsExact};
ghost use Rattle.record_file.specs.declared.call.Answer.{Answer};

use crate::RecordFile;
use crate::fault::{
    AbortFault, ClaimFault, CommitFault, CommittedFault, EntriesFault, GetFault, KeysOfFault,
    PutFault, ReleaseFault, RemoveFault, ResumeFault, RollbackToFault, SavepointFault, Status,
    StatusFault,
};
use rec_types::{Entry, Gap, Key, Memory, Record, Side, Table, TxId};
use std::alloc::Global;
use tx_log::{BeginFault, LogRecord};

/// A call that a file can be lent for, with its arguments.
#[derive(Clone, Copy)]
pub enum Call {
    Begin,
    Put(TxId, Key, Record),
    Claim(TxId, Key),
    Remove(TxId, Key),
    Get(TxId, Key),
    Savepoint(TxId),
    Release(TxId, u32),
    RollbackTo(TxId, u32),
    Abort(TxId),
    Resume(TxId),
    Commit(TxId),
    Entries,
    Beside(Side, Gap),
    Committed(Key),
    KeysOf(TxId),
    Status(TxId),
    Charged,
    Begun,
    LogLen,
    LogUse,
    LogRecord(u32),
}

/// What a call answered.
#[derive(Drop)]
pub enum Answer {
    Begin(Result<TxId, BeginFault>),
    Put(Result<Option<Record>, PutFault>),
    Claim(Result<Option<Record>, ClaimFault>),
    Remove(Result<Record, RemoveFault>),
    Get(Result<Option<Record>, GetFault>),
    Savepoint(Result<u32, SavepointFault>),
    Release(Result<(), ReleaseFault>),
    RollbackTo(Result<u32, RollbackToFault>),
    Abort(Result<u32, AbortFault>),
    Resume(Result<u32, ResumeFault>),
    Commit(Result<(), CommitFault>),
    Entries(Result<Vec<Entry>, EntriesFault>),
    Beside(Result<Option<Entry>, EntriesFault>),
    Committed(Result<Option<Record>, CommittedFault>),
    KeysOf(Result<Vec<Key>, KeysOfFault>),
    Status(Result<Status, StatusFault>),
    Charged(u64),
    Begun(u32),
    LogLen(u32),
    LogUse(u32),
    LogRecord(Option<LogRecord>),
}

// What stays true of a file.
fn stays_true<T: Table>(file: &RecordFile<T>)
    ensures { IsKeptFile (T.sound file.now.table) (T.contents file.now.table)
        (T.record_limit file.now.table) file.now.file file.now.log }
{
    let _begun = file.begun();
}

/// Makes a call.
pub fn make_call<T: Table>(file: &mut RecordFile<T>, call: Call) -> Answer
    ensures { Makes (seen T.TableState file.old) call result (seen T.TableState file.new) }
{
    stays_true(file);
    let answer = ask(file, call);
    stays_true(file);
    answer
}

// Makes a call on a file of which what stays true is true.
fn ask<T: Table>(file: &mut RecordFile<T>, call: Call) -> Answer
    ensures { IsKeptSeen (seen T.TableState file.old) → IsKeptSeen (seen T.TableState file.new)
        → Makes (seen T.TableState file.old) call result (seen T.TableState file.new) }
{
    match call {
        Call::Begin => Answer::Begin(file.begin()),
        Call::Put(tx, key, value) => Answer::Put(file.put(tx, key, value)),
        Call::Claim(tx, key) => Answer::Claim(file.claim(tx, key)),
        Call::Remove(tx, key) => Answer::Remove(file.remove(tx, key)),
        Call::Get(tx, key) => Answer::Get(file.get(tx, &key)),
        Call::Savepoint(tx) => Answer::Savepoint(file.savepoint(tx)),
        Call::Release(tx, n) => Answer::Release(file.release(tx, n)),
        Call::RollbackTo(tx, n) => Answer::RollbackTo(file.rollback_to(tx, n)),
        Call::Abort(tx) => Answer::Abort(file.abort(tx)),
        Call::Resume(tx) => Answer::Resume(file.resume(tx)),
        Call::Commit(tx) => Answer::Commit(file.commit(tx)),
        Call::Entries => Answer::Entries(file.entries()),
        Call::Beside(side, gap) => Answer::Beside(file.beside(side, &gap)),
        Call::Committed(key) => Answer::Committed(file.committed(&key)),
        Call::KeysOf(tx) => Answer::KeysOf(file.keys_of(tx)),
        Call::Status(tx) => Answer::Status(file.status(tx)),
        Call::Charged => Answer::Charged(file.charged()),
        Call::Begun => Answer::Begun(file.begun()),
        Call::LogLen => Answer::LogLen(file.log_len()),
        Call::LogUse => Answer::LogUse(file.log_use()),
        Call::LogRecord(lsn) => Answer::LogRecord(file.log_record(lsn)),
    }
}

// One more answer at the end. Fault: Memory.
fn keep(answers: &mut Vec<Answer>, answer: Answer) -> Result<(), Memory>
    ensures { OnOk result (answers.new.items ≡ answers.old.items ++ answer ∷ []) }
{
    answers.push(answer).map_err(|_| Memory)
}

/// An answer couldn't be kept, for want of memory: that of the last of the calls that were made.
#[derive(Clone, Copy, Debug)]
pub struct AnswerLost {
    pub made: usize,
}

/// Makes any calls one after another, and answers what each answered. They are a run, and what stays true
/// of a file is true of it then. So the file is exact: over a sound table its records are the replay of
/// the live changes; an open transaction owns a key exactly where one of its live changes is; and exactly
/// the changes that were taken back are compensated, each once. Fault: AnswerLost; the calls up to that
/// one are made, and no other.
pub fn run_calls<T: Table>(
    alloc: Global,
    file: &mut RecordFile<T>,
    calls: &[Call],
) -> Result<Vec<Answer>, AnswerLost>
    ensures ran { IfOk result (λ answers.
        MakesAll (seen T.TableState file.old) calls.now answers.items
        (seen T.TableState file.new)) }
    ensures stopped { IfErr result (λ lost. (answers : List Answer)
        × MakesAll (seen T.TableState file.old) (take lost.made calls.now) answers
        (seen T.TableState file.new)) }
    ensures made { IfErr result (λ lost. (0 < lost.made) × (lost.made ≤ length calls.now)) }
    ensures exact { IsExact (T.sound file.new.table) (T.contents file.new.table)
        file.new.file file.new.log }
    ensures kept { IsKeptFile (T.sound file.new.table) (T.contents file.new.table)
        (T.record_limit file.new.table) file.new.file file.new.log }
{
    let mut answers = Vec::new(alloc);
    let mut made = 0;
    for &call in calls {
        let answer = make_call(file, call);
        made += 1;
        if keep(&mut answers, answer).is_err() {
            stays_true(file);
            return Err(AnswerLost { made });
        }
    }
    stays_true(file);
    Ok(answers)
}
