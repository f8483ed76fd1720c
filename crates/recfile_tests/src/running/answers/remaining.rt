use super::{answers_to, calls_of, push_answer, text_of};
use crate::expect_named;
use crate::running::rows::{
    CHARGED_KEYS, CLAIM_IN_A_STOP, CLAIM_OVER_A_PUT, CLAIMS_BESIDE, CLAIMS_FILL, COMMIT_BESIDE,
    OWNER_LEFT, STOPPED, TWO_ROLLBACKS,
};
use crate::running::{Row, flaky_file, tree};
use rec_types::{FlakyTable, Limits, Table, TxId};
use record_file::{Answer, Call, RecordFile};
use std::alloc::Global;
use std::process::Abort;
use tx_log::LogRecord;

/// Whether the log takes back the change of this transaction whose record has the one before it with this number.
fn is_compensated<T: Table>(file: &RecordFile<T>, of: TxId, number: u32) -> bool {
    for lsn in 1..=file.log_len() {
        if let Some(
            LogRecord::Compensation { tx, undo_next, .. }
            | LogRecord::Unclaim { tx, undo_next, .. },
        ) = file.log_record(lsn)
        {
            if tx == of && undo_next == number {
                return true;
            }
        }
    }
    false
}

/// Which of the changes are live, oldest first.
fn live_changes<T: Table>(rt: &impl Abort, alloc: Global, file: &RecordFile<T>) -> Vec<bool> {
    let mut lives = Vec::new(alloc);
    for lsn in 1..=file.log_len() {
        if let Some(
            LogRecord::Update { tx, prev, .. } | LogRecord::Claim { tx, prev, .. },
        ) = file.log_record(lsn)
        {
            lives
                .push(!is_compensated(file, tx, prev))
                .expect(rt, "no memory");
        }
    }
    lives
}

/// The accepted begins, the accepted commits, and the puts, claims and removals whose change is live; and what they
/// answered, a line each.
fn remaining_calls(
    rt: &impl Abort,
    alloc: Global,
    calls: &[Call],
    answers: &[Answer],
    lives: &[bool],
) -> (Vec<Call>, String) {
    let mut changes = lives.iter();
    let (mut remaining, mut text) = (Vec::new(alloc), String::new(alloc));
    for (&call, answer) in calls.iter().zip(answers) {
        let stays = match answer {
            Answer::Begin(Ok(_)) | Answer::Commit(Ok(())) => true,
            Answer::Put(Ok(_)) | Answer::Claim(Ok(_)) | Answer::Remove(Ok(_)) => {
                changes.next() == Some(&true)
            }
            _ => false,
        };
        if stays {
            remaining.push(call).expect(rt, "no memory");
            push_answer(rt, &mut text, answer);
        }
    }
    (remaining, text)
}

/// What looks at the records with their owners, and at the keys of each transaction.
const LOOKS: [Call; 4] = [
    Call::Entries,
    Call::KeysOf(TxId(1)),
    Call::KeysOf(TxId(2)),
    Call::KeysOf(TxId(3)),
];

/// What the calls answer, a line each.
fn answered<T: Table>(
    rt: &impl Abort,
    alloc: Global,
    file: &mut RecordFile<T>,
    calls: &[Call],
) -> String {
    text_of(rt, alloc, &answers_to(rt, alloc, file, calls))
}

/// Expects the calls to answer this.
fn expect_answers<T: Table>(
    rt: &impl Abort,
    alloc: Global,
    file: &mut RecordFile<T>,
    name: &str,
    calls: &[Call],
    wanted: &str,
) {
    let text = answered(rt, alloc, file, calls);
    expect_named(rt, name, text.as_str(), wanted);
}

/// Runs the script: the calls that remain, and what they answered.
fn run_whole<T: Table>(
    rt: &impl Abort,
    alloc: Global,
    file: &mut RecordFile<T>,
    script: &str,
) -> (Vec<Call>, String) {
    let calls = calls_of(rt, alloc, script);
    let answers = answers_to(rt, alloc, file, &calls);
    let lives = live_changes(rt, alloc, file);
    remaining_calls(rt, alloc, &calls, &answers, &lives)
}

/// Runs the row's script over one file, and the calls that remain, of which there are so many, over a new one:
/// what they answer is the same, and so are the records, their owners and the keys of each transaction.
fn expect_alone<T: Table>(
    rt: &impl Abort,
    alloc: Global,
    file: &mut RecordFile<T>,
    alone: &mut RecordFile<T>,
    row: &Row<'_>,
    count: usize,
) {
    let (remaining, wanted) = run_whole(rt, alloc, file, row.script);
    assert_eq!(rt; (row.name, remaining.len()), (row.name, count));
    expect_answers(rt, alloc, alone, row.name, &remaining, &wanted);
    let seen = answered(rt, alloc, file, &LOOKS);
    expect_answers(rt, alloc, alone, row.name, &LOOKS, &seen)
}

/// Does so with a new file in the table beside this one.
fn expect_beside<T: Table>(
    rt: &impl Abort,
    alloc: Global,
    file: &mut RecordFile<FlakyTable<T>>,
    other: T,
    limits: Limits,
    row: &Row<'_>,
    count: usize,
) {
    let mut alone = flaky_file(rt, alloc, other, limits, &[]);
    expect_alone(rt, alloc, file, &mut alone, row, count)
}

/// Does so over files in these tables.
fn expect_over<T: Table>(
    rt: &impl Abort,
    alloc: Global,
    one: T,
    other: T,
    limits: Limits,
    row: &Row<'_>,
    count: usize,
) {
    let mut file = flaky_file(rt, alloc, one, limits, row.failing);
    expect_beside(rt, alloc, &mut file, other, limits, row, count)
}

/// Does so over trees of order 1 with the row's limits.
fn expect_over_trees(rt: &impl Abort, alloc: Global, row: &Row<'_>, count: usize) {
    let (records, log_records, begins) = row.limits;
    let limits = Limits::new(records, log_records, begins).expect(rt, "no limits");
    let (one, other) = (tree(rt, alloc, 1, limits), tree(rt, alloc, 1, limits));
    expect_over(rt, alloc, one, other, limits, row, count)
}

#[test]
fn what_remains_stands_alone(rt: HostRuntime) {
    for (row, count) in [
        (COMMIT_BESIDE, 4),
        (OWNER_LEFT, 3),
        (TWO_ROLLBACKS, 1),
        (CHARGED_KEYS, 9),
        (STOPPED, 5),
        (CLAIMS_FILL, 6),
        (CLAIM_IN_A_STOP, 3),
        (CLAIM_OVER_A_PUT, 3),
        (CLAIMS_BESIDE, 9),
    ] {
        expect_over_trees(&rt, rt.alloc(), &row, count);
    }
}
