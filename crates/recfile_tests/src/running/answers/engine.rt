use super::{answers_to, calls_of, text_of};
use crate::expect_named;
use crate::running::flaky_file;
use crate::running::rows::{CLAIMS_BESIDE, TWO_ROLLBACKS};
use rec_types::{Gap, Key, Limits, Record, Side, SortedTable, Table, TxId};
use record_file::{Call, RecordFile};
use std::alloc::Global;
use std::process::Abort;

// What the replies of scripts show is tested by scripts. Here are the calls that no script makes.

/// A script over a new file, whose device fails at these calls of `set`; calls after it; and what they answer, a line
/// each.
#[derive(Clone, Copy)]
struct Row<'a> {
    name: &'a str,
    failing: &'a [u64],
    script: &'a str,
    calls: &'a [Call],
    answers: &'a str,
}

/// What the calls answer after the script, a line each.
fn text_after<T: Table>(
    rt: &impl Abort,
    alloc: Global,
    file: &mut RecordFile<T>,
    script: &str,
    calls: &[Call],
) -> String {
    answers_to(rt, alloc, file, &calls_of(rt, alloc, script));
    text_of(rt, alloc, &answers_to(rt, alloc, file, calls))
}

/// Expects the answers over a new file in the table.
fn expect_over<T: Table>(rt: &impl Abort, alloc: Global, table: T, row: &Row<'_>) {
    let mut file = flaky_file(
        rt,
        alloc,
        table,
        Limits::new(9, 99, 9).expect(rt, "no limits"),
        row.failing,
    );
    let text = text_after(rt, alloc, &mut file, row.script, row.calls);
    expect_named(rt, row.name, text.as_str(), row.answers);
}

/// Expects them over a sorted table.
fn expect(rt: &impl Abort, alloc: Global, row: &Row<'_>) {
    let table = SortedTable::new(alloc, Limits::new(9, 99, 9).expect(rt, "no limits"));
    expect_over(rt, alloc, table, row)
}

const LOG_RECORDS: [Call; 10] = [
    Call::LogRecord(0),
    Call::LogRecord(1),
    Call::LogRecord(2),
    Call::LogRecord(3),
    Call::LogRecord(4),
    Call::LogRecord(5),
    Call::LogRecord(6),
    Call::LogRecord(7),
    Call::LogRecord(8),
    Call::LogRecord(9),
];

#[test]
fn what_the_log_and_the_status_tell(rt: HostRuntime) {
    let script = TWO_ROLLBACKS.script;
    let log = Row {
        name: "two partial rollbacks leave their log",
        failing: &[],
        script,
        calls: &LOG_RECORDS,
        answers: "-\n1 0 1 a - to 1\n2 1 1 a 1 to 2\n3 2 1 b - to 3\n4 3 1 b back to -, then 2\n5 4 1 a back to 1, then 1\n6 5 1 c - to 4\n7 6 1 c back to -, then 5\n8 7 1 a back to -, then 0\n-\n",
    };
    expect(&rt, rt.alloc(), &log);
    let claims = Row {
        name: "claims and their taking back leave their log",
        failing: &[],
        script: CLAIMS_BESIDE.script,
        calls: &LOG_RECORDS,
        answers: "-\n1 0 1 a claimed at -\n2 1 1 a - to 1\n3 2 1 a claimed at 1\n4 3 1 b claimed at -\n5 0 2 c claimed at -\n6 4 1 b unclaimed, then 3\n7 5 2 b claimed at -\n8 7 2 a claimed at 1\n-\n",
    };
    expect(&rt, rt.alloc(), &claims);
    let key = Key::new(b"d").expect(&rt, "no key");
    let record = Record::new(b"5").expect(&rt, "no record");
    let status = Row {
        name: "a status tells savepoints and changes",
        failing: &[],
        script,
        calls: &[
            Call::Status(TxId(1)),
            Call::Put(TxId(1), key, record),
            Call::Status(TxId(1)),
            Call::Begun,
            Call::LogLen,
            Call::LogUse,
            Call::Charged,
            Call::Status(TxId(2)),
        ],
        answers: "active 1 0\n-\nactive 1 1\n1\n9\n10\n1\nNoSuchTx\n",
    };
    expect(&rt, rt.alloc(), &status)
}

#[test]
fn what_a_stop_and_the_lists_tell(rt: HostRuntime) {
    let stopped = Row {
        name: "a stopped abort is rolling",
        failing: &[4],
        script: "begin\nput 1 a =1\nput 1 b =2\n",
        calls: &[
            Call::Abort(TxId(1)),
            Call::Status(TxId(1)),
            Call::Resume(TxId(1)),
            Call::Resume(TxId(1)),
            Call::Status(TxId(1)),
        ],
        answers: "Err(Stopped { undone: 1, left: 1, cause: Device })\nrolling 1 true\nOk(1)\nErr(NoSuchTx)\nNoSuchTx\n",
    };
    expect(&rt, rt.alloc(), &stopped);
    let second = Key::new(b"b").expect(&rt, "no key");
    let lists = Row {
        name: "lists name the owners",
        failing: &[],
        script: "begin\nbegin\nput 1 b =x\nput 2 a =y\ncommit 2\n",
        calls: &[
            Call::Entries,
            Call::KeysOf(TxId(1)),
            Call::KeysOf(TxId(2)),
            Call::Beside(Side::After, Gap::Start),
            Call::Beside(Side::Before, Gap::End),
            Call::Beside(Side::After, Gap::Behind(second)),
            Call::Committed(second),
        ],
        answers: "a=y b=x@1 \nb \nNoSuchTx\na=y \nb=x@1 \n-\n-\n",
    };
    expect(&rt, rt.alloc(), &lists)
}

/// Commits the one transaction of the file, whose table then comes back, and finds the record of a key in it.
fn found_once_committed<T: Table>(
    rt: &impl Abort,
    alloc: Global,
    file: RecordFile<T>,
    key: &Key,
) -> Option<Record> {
    let mut file = file;
    answers_to(rt, alloc, &mut file, &[Call::Commit(TxId(1))]);
    match file.into_table() {
        Ok(mut table) => table.get(key).expect(rt, "no answer"),
        Err(_) => panic!(rt; "a transaction is open"),
    }
}

/// Does so with a file whose table doesn't come back before.
fn found_after<T: Table>(
    rt: &impl Abort,
    alloc: Global,
    file: RecordFile<T>,
    key: &Key,
) -> Option<Record> {
    match file.into_table() {
        Ok(_) => panic!(rt; "no transaction is open"),
        Err(still) => {
            assert_eq!(rt; still.count, 1);
            found_once_committed(rt, alloc, still.file, key)
        }
    }
}

/// Does so with a new file in the table, into which a transaction has put a record.
fn found_over<T: Table>(rt: &impl Abort, alloc: Global, table: T, key: &Key) -> Option<Record> {
    let mut file = flaky_file(
        rt,
        alloc,
        table,
        Limits::new(9, 99, 9).expect(rt, "no limits"),
        &[],
    );
    text_after(rt, alloc, &mut file, "begin\nput 1 a =x\n", &[]);
    found_after(rt, alloc, file, key)
}

#[test]
fn the_table_comes_back_once_all_have_ended(rt: HostRuntime) {
    let table = SortedTable::new(rt.alloc(), Limits::new(9, 99, 9).expect(&rt, "no limits"));
    let found = found_over(
        &rt,
        rt.alloc(),
        table,
        &Key::new(b"a").expect(&rt, "no key"),
    );
    assert_eq!(rt; found, Some(Record::new(b"x").expect(&rt, "no record")));
}
