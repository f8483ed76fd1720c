ghost use Rattle.recfile.specs.Streams.{IsBlankFor};

use super::{answers_to, calls_of, push_answer, text_of};
use crate::expect_text;
use crate::running::rows::{
    BESIDE_A_ROOT, CHARGED_KEYS, CLAIM_IN_A_STOP, CLAIMS_BESIDE, CLAIMS_FILL, COMMIT_BESIDE,
    SPLITS, TWO_ROLLBACKS,
};
use crate::running::{Row, flaky_file, open, run, store_of, three_records, tree};
use btree_delete::{CloseStop, TreeTable};
use file_session::FileFault;
use page_store::{FlakyStore, Store, WriteFault};
use rec_types::{Limits, SortedTable, Table};
use recfile::{Feed, Manner, StreamCalls, exit_status, run_session};
use record_file::{
    AbortFault, Answer, Call, ClaimFault, CommittedFault, EntriesFault, GetFault, PutFault,
    RecordFile, RemoveFault, ResumeFault, RollbackToFault, Unlogged, make_call,
};
use std::alloc::Global;
use std::io::Write;
use std::marker::Brand;
use std::process::Abort;
use std::sync::ledger::{Blank, Ledger};

/// Whether the device refused the call.
fn is_refused(answer: &Answer) -> bool {
    matches!(
        answer,
        Answer::Put(Err(PutFault::Device))
            | Answer::Claim(Err(ClaimFault::Device))
            | Answer::Remove(Err(RemoveFault::Device))
            | Answer::Get(Err(GetFault::Device))
            | Answer::Entries(Err(EntriesFault::Device))
            | Answer::Beside(Err(EntriesFault::Device))
            | Answer::Committed(Err(CommittedFault::Device))
    )
}

/// How many changes a rollback had taken back when it was stopped.
fn undone_before(answer: &Answer) -> Option<u32> {
    match answer {
        Answer::RollbackTo(Err(RollbackToFault::Stopped { undone, .. })) => Some(*undone),
        Answer::Abort(Err(AbortFault::Stopped { undone, .. })) => Some(*undone),
        Answer::Resume(Err(ResumeFault::Stopped { undone, .. })) => Some(*undone),
        _ => None,
    }
}

/// What the call would have answered, had its rollback not been stopped after so many changes, by what going on
/// with it answers.
fn whole<T: Table>(
    rt: &impl Abort,
    file: &mut RecordFile<T>,
    call: Call,
    undone: u32,
    faults: &mut String,
) -> Answer {
    let (Call::RollbackTo(tx, _) | Call::Abort(tx) | Call::Resume(tx)) = call else {
        panic!(rt; "another call was stopped");
    };
    let resumed = file.resume(tx);
    push_answer(rt, faults, &Answer::Resume(resumed));
    let Ok(more) = resumed else {
        panic!(rt; "a rollback was stopped twice");
    };
    let all = undone.saturating_add(more);
    match call {
        Call::RollbackTo(..) => Answer::RollbackTo(Ok(all)),
        Call::Abort(_) => Answer::Abort(Ok(all)),
        _ => Answer::Resume(Ok(all)),
    }
}

/// Makes the call, once more where the device refused it, and goes on where it stopped its rollback. What was said of
/// that goes to the text of the faults.
fn persist<T: Table>(
    rt: &impl Abort,
    file: &mut RecordFile<T>,
    call: &Call,
    faults: &mut String,
) -> Answer {
    let answer = make_call(file, *call);
    if is_refused(&answer) {
        push_answer(rt, faults, &answer);
        return make_call(file, *call);
    }
    match undone_before(&answer) {
        Some(undone) => {
            push_answer(rt, faults, &answer);
            whole(rt, file, *call, undone, faults)
        }
        None => answer,
    }
}

/// Makes the calls so: what they answered in the end, a line each.
fn persist_all<T: Table>(
    rt: &impl Abort,
    alloc: Global,
    file: &mut RecordFile<T>,
    calls: &[Call],
    faults: &mut String,
) -> String {
    let mut text = String::new(alloc);
    for call in calls {
        let answer = persist(rt, file, call, faults);
        push_answer(rt, &mut text, &answer);
    }
    text
}

/// A file over the table.
fn file_over<T: Table>(rt: &impl Abort, alloc: Global, table: T) -> RecordFile<T> {
    let limits = Limits::new(9, 99, 9).expect(rt, "no limits");
    assert!(rt; table.limit() == limits.records());
    RecordFile::new(alloc, table, limits)
}

/// Makes the calls so over a new file in the table.
fn persist_over<T: Table>(
    rt: &impl Abort,
    alloc: Global,
    table: T,
    calls: &[Call],
    faults: &mut String,
) -> String {
    let mut file = file_over(rt, alloc, table);
    persist_all(rt, alloc, &mut file, calls, faults)
}

/// Makes the calls so over the file of three records, in a store that fails at this read.
fn with_read_failing(
    rt: &impl Abort,
    alloc: Global,
    number: u64,
    calls: &[Call],
    faults: &mut String,
) -> String {
    let store = store_of(rt, alloc, &three_records(2), 0);
    let reads = Vec::from_slice(alloc, &[number]).expect(rt, "no memory");
    let table = open(rt, alloc, FlakyStore::new(store, reads, Vec::new(alloc)));
    persist_over(rt, alloc, table, calls, faults)
}

/// Makes the calls over the file of three records with each read failing in turn, from this one on, until none fails.
/// Their answers are the same each time. Answers what was said of the failures.
fn fail_each_read(
    rt: &impl Abort,
    alloc: Global,
    calls: &[Call],
    wanted: &str,
    first: u64,
    most: u64,
) -> String {
    let mut all = String::new(alloc);
    for number in first..most {
        let mut faults = String::new(alloc);
        let text = with_read_failing(rt, alloc, number, calls, &mut faults);
        assert_eq!(rt; (number, text.as_str()), (number, wanted));
        if faults.is_empty() {
            return all;
        }
        all.push_str(&faults).expect(rt, "no memory");
    }
    panic!(rt; "a read failed each time")
}

// Opening makes four reads, and they are good.
#[test]
fn each_read_fails_in_turn(rt: HostRuntime) {
    let alloc = rt.alloc();
    for (script, wanted, faults) in [
        (
            "begin\nbegin\nput 1 a =1\nput 1 a =2\nput 2 c =3\nback 1 0\nlist\n",
            "1\n2\nx\n1\nz\nOk(2)\na=x b=y c=3@2 \n",
            "Device\nDevice\nDevice\n",
        ),
        // A claim of a key of the root reads nothing, nor does taking one back.
        (
            "begin\nbegin\nclaim 1 b\nclaim 1 a\nclaim 2 d\nback 1 0\nkeys 2\nlog\n",
            "1\n2\ny\nx\n-\nOk(2)\nd \n5\n",
            "Device\nDevice\n",
        ),
        // The root and a changed page are in memory, and the log tells what is committed at an owned key.
        (
            "begin\nput 1 a =1\nfrom b 1\nfrom b%00 1\nupto a 1\nupto d 1\ncommitted a\ncommitted c\n",
            "1\nx\nb=y \nc=z \na=1@1 \nc=z \nx\nz\n",
            "Device\nDevice\nDevice\nDevice\n",
        ),
    ] {
        let calls = calls_of(&rt, alloc, script);
        let all = fail_each_read(&rt, alloc, &calls, wanted, 5, 99);
        expect_text(&rt, all.as_str(), faults);
    }
}

/// What the calls answer over a file in the table, in which no `set` fails.
fn answers_over<T: Table>(
    rt: &impl Abort,
    alloc: Global,
    table: T,
    limits: Limits,
    calls: &[Call],
) -> String {
    let mut file = flaky_file(rt, alloc, table, limits, &[]);
    text_of(rt, alloc, &answers_to(rt, alloc, &mut file, calls))
}

/// Makes the row's calls so: the answers are these, and something is said of a failure if this `set` is one of so many.
fn expect_persisted<T: Table>(
    rt: &impl Abort,
    alloc: Global,
    file: &mut RecordFile<T>,
    row: &Row<'_>,
    number: u64,
    sets: u64,
    wanted: &str,
) {
    let mut faults = String::new(alloc);
    let text = persist_all(
        rt,
        alloc,
        file,
        &calls_of(rt, alloc, row.script),
        &mut faults,
    );
    assert_eq!(rt;
        (row.name, number, text.as_str(), faults.is_empty()),
        (row.name, number, wanted, number > sets)
    );
}

/// Does so over the table with this `set` failing.
fn fail_set<T: Table>(
    rt: &impl Abort,
    alloc: Global,
    table: T,
    row: &Row<'_>,
    number: u64,
    sets: u64,
    wanted: &str,
) {
    let (records, log_records, begins) = row.limits;
    let limits = Limits::new(records, log_records, begins).expect(rt, "no limits");
    let mut file = flaky_file(rt, alloc, table, limits, &[number]);
    expect_persisted(rt, alloc, &mut file, row, number, sets, wanted)
}

/// Does so over a sorted table and over a tree of order 1: the answers are those of a run in which none fails.
fn fail_set_of_both(rt: &impl Abort, alloc: Global, row: &Row<'_>, number: u64, sets: u64) {
    let (records, log_records, begins) = row.limits;
    let limits = Limits::new(records, log_records, begins).expect(rt, "no limits");
    let calls = calls_of(rt, alloc, row.script);
    let wanted = answers_over(rt, alloc, SortedTable::new(alloc, limits), limits, &calls);
    fail_set(
        rt,
        alloc,
        SortedTable::new(alloc, limits),
        row,
        number,
        sets,
        &wanted,
    );
    fail_set(
        rt,
        alloc,
        tree(rt, alloc, 1, limits),
        row,
        number,
        sets,
        &wanted,
    )
}

/// Does so with each `set` failing in turn, of which there are so many, and once with none failing.
fn fail_each_set(rt: &impl Abort, alloc: Global, row: &Row<'_>, sets: u64) {
    for failed in 0..=sets {
        fail_set_of_both(rt, alloc, row, failed.saturating_add(1), sets);
    }
}

#[test]
fn each_set_fails_in_turn(rt: HostRuntime) {
    for (row, sets) in [
        (COMMIT_BESIDE, 3),
        (BESIDE_A_ROOT, 4),
        (TWO_ROLLBACKS, 8),
        (CHARGED_KEYS, 4),
        (SPLITS, 20),
        (CLAIMS_FILL, 2),
        (CLAIM_IN_A_STOP, 6),
        (CLAIMS_BESIDE, 1),
    ] {
        fail_each_set(&rt, rt.alloc(), &row, sets);
    }
}

/// Runs the script over the file, in which no transaction is open then: the replies are these, and the table comes back.
fn expect_run<T: Table>(
    rt: &impl Abort,
    alloc: Global,
    file: RecordFile<T>,
    script: &str,
    replies: &str,
) -> T {
    let mut file = file;
    let (text, _) = run(rt, alloc, &mut file, script);
    expect_text(rt, text.as_str(), replies);
    match file.into_table() {
        Ok(table) => table,
        Err(_) => panic!(rt; "a transaction is open"),
    }
}

/// Expects the table to have x at the key a alone, as a file over it lists it.
fn expect_record<T: Table>(rt: &impl Abort, alloc: Global, table: T) -> T {
    let file = file_over(rt, alloc, table);
    expect_run(rt, alloc, file, "list\n", "- a =x\nok 1\n")
}

/// Puts x at the key a of an empty table in a transaction.
fn with_record<T: Table>(rt: &impl Abort, alloc: Global, table: T) -> T {
    let file = file_over(rt, alloc, table);
    let (script, replies) = ("begin\nput 1 a =x\ncommit 1\n", "ok 1\nok none\nok\n");
    expect_record(rt, alloc, expect_run(rt, alloc, file, script, replies))
}

/// A table of order 1 in the store, in which a transaction has put x at the key a.
fn filled<S: Store>(rt: &impl Abort, alloc: Global, store: S) -> TreeTable<S> {
    match TreeTable::create(
        alloc,
        store,
        1,
        Limits::new(9, 2, 1).expect(rt, "no limits"),
    ) {
        Ok(table) => with_record(rt, alloc, table),
        Err(_) => panic!(rt; "the table isn't made"),
    }
}

/// Expects a table that was not closed to have its record still, and to be closed again.
fn expect_second_close<S: Store>(rt: &impl Abort, alloc: Global, stop: CloseStop<S>) {
    assert!(rt; stop.fault == WriteFault::Device);
    match expect_record(rt, alloc, stop.table).close() {
        Ok(store) => {
            expect_record(rt, alloc, open(rt, alloc, store));
        }
        Err(_) => panic!(rt; "the second close failed"),
    }
}

/// Whether the store closes a table of one record at the first time. Else it does at the second.
fn is_closed<S: Store>(rt: &impl Abort, alloc: Global, store: S) -> bool {
    match filled(rt, alloc, store).close() {
        Ok(_) => true,
        Err(stop) => {
            expect_second_close(rt, alloc, stop);
            false
        }
    }
}

/// Closes a table of one record with each write, each lengthening and each sync failing in turn, until none fails, and
/// answers how many failed.
fn fail_each_write(rt: &impl Abort, alloc: Global, most: u64) -> u64 {
    for failed in 0..most {
        let writes = Vec::from_slice(alloc, &[failed + 1]).expect(rt, "no memory");
        let store = FlakyStore::new(store_of(rt, alloc, &[], 0), Vec::new(alloc), writes);
        if is_closed(rt, alloc, store) {
            return failed;
        }
    }
    panic!(rt; "a write failed each time")
}

// The pages, the header twice, the page of the record, and three syncs.
#[test]
fn each_write_of_a_close_fails_in_turn(rt: HostRuntime) {
    assert_eq!(rt; fail_each_write(&rt, rt.alloc(), 99), 7);
}

/// Names why the file wasn't opened or closed, and answers that status.
fn file_fault<E: Write>(err: &mut E, fault: FileFault) -> u8 {
    let _ = writeln!(err, "recfile: {fault}");
    exit_status(false, true, false)
}

/// Opens the store's file, runs a session over it, on that count, and closes it; answers its status.
fn session_counted<L: Ledger, S: Store, W: Write, E: Write>(
    alloc: Global,
    store: S,
    limits: Limits,
    strict: bool,
    script: &[u8],
    out: &mut W,
    err: &mut E,
    blank: Blank,
) -> u8
    requires { IsBlankFor blank.name blank.parts L.name L.parts }
{
    let table = match TreeTable::open_from(alloc, store, limits) {
        Ok(table) => table,
        Err(stop) => return file_fault(err, FileFault::from(stop.fault)),
    };
    let manner = Manner {
        strict,
        feed: Feed::Script,
    };
    let mut file = RecordFile::new(alloc, table, limits);
    let mut calls = StreamCalls::<L>::new(blank);
    let mut reader = script;
    let end = run_session(
        alloc,
        manner,
        &mut file,
        &mut Unlogged,
        &mut reader,
        out,
        err,
        &mut calls,
    );
    match file.abandon().close() {
        Ok(_) => exit_status(end.ended.is_err(), false, end.script.is_err()),
        Err(stop) => file_fault(err, FileFault::from(stop.fault)),
    }
}

/// A session over the store's file: its replies and the line of its fault, and its status.
fn session_in<S: Store>(
    rt: &impl Abort,
    alloc: Global,
    store: S,
    strict: bool,
    script: &str,
) -> (String, u8) {
    let (mut out, mut err) = (Vec::new(alloc), Vec::new(alloc));
    let limits = Limits::new(9, 99, 9).expect(rt, "no limits");
    let status = session_counted::<Brand, S, Vec<u8>, Vec<u8>>(
        alloc,
        store,
        limits,
        strict,
        script.as_bytes(),
        &mut out,
        &mut err,
        Blank::new(1),
    );
    let mut text = String::from_utf8(out).expect(rt, "no text");
    text.push_str(&String::from_utf8(err).expect(rt, "no text"))
        .expect(rt, "no memory");
    (text, status)
}

/// The same over the file of three records, in a store that fails at these reads and writes.
fn session(
    rt: &impl Abort,
    alloc: Global,
    reads: &[u64],
    writes: &[u64],
    strict: bool,
    script: &str,
) -> (String, u8) {
    let reads = Vec::from_slice(alloc, reads).expect(rt, "no memory");
    let writes = Vec::from_slice(alloc, writes).expect(rt, "no memory");
    let store = FlakyStore::new(store_of(rt, alloc, &three_records(2), 0), reads, writes);
    session_in(rt, alloc, store, strict, script)
}

/// Expects of the session, where the read of each number fails, this text and status.
fn expect_with_reads(
    rt: &impl Abort,
    alloc: Global,
    strict: bool,
    script: &str,
    rows: &[(u64, &str, u8)],
) {
    for row in rows {
        let (told, end) = session(rt, alloc, &[row.0], &[], strict, script);
        assert_eq!(rt; (row.0, told.as_str(), end), *row);
    }
}

// Reads 1 to 4 are those of opening, which keeps the root; ending the transaction reads nothing.
const READS_OF_PUTS: [(u64, &str, u8); 7] = [
    (1, "recfile: Device\n", 1),
    (2, "recfile: Device\n", 1),
    (3, "recfile: Device\n", 1),
    (4, "recfile: Device\n", 1),
    (5, "ok 1\nno Device\nok =z\n", 0),
    (6, "ok 1\nok =x\nno Device\n", 0),
    (7, "ok 1\nok =x\nok =z\n", 0),
];

const READS_OF_A_CLAIM: [(u64, &str, u8); 2] = [
    (5, "ok 1\nno Device\n", 0),
    (6, "ok 1\nok =x\n", 0),
];

// A strict script ends at a put that is refused.
const STRICT_READS_OF_A_ROLLBACK: [(u64, &str, u8); 3] = [
    (5, "ok 1\nno Device\nrecfile: Refused 2\n", 3),
    (6, "ok 1\nok =x\nno Device\nrecfile: Refused 3\n", 3),
    (7, "ok 1\nok =x\nok =z\nok 2\nok\n", 0),
];

#[test]
fn each_read_of_a_session_fails_in_turn(rt: HostRuntime) {
    let alloc = rt.alloc();
    let puts = "begin\nput 1 a =1\nput 1 c =2\n";
    expect_with_reads(&rt, alloc, false, puts, &READS_OF_PUTS);
    expect_with_reads(&rt, alloc, false, "begin\nclaim 1 a\n", &READS_OF_A_CLAIM);
    let back = "begin\nput 1 a =1\nput 1 c =2\nback 1 0\ncommit 1\n";
    expect_with_reads(&rt, alloc, true, back, &STRICT_READS_OF_A_ROLLBACK)
}

#[test]
fn each_write_of_a_session_fails_in_turn(rt: HostRuntime) {
    let script = "begin\nput 1 a =1\ncommit 1\n";
    for number in 1..=7 {
        let (told, end) = session(&rt, rt.alloc(), &[], &[number], false, script);
        assert_eq!(rt;
            (number, told.as_str(), end),
            (number, "ok 1\nok =x\nok\nrecfile: Device\n", 1)
        );
    }
    let (told, end) = session(&rt, rt.alloc(), &[], &[8], false, script);
    assert_eq!(rt; (told.as_str(), end), ("ok 1\nok =x\nok\n", 0));
    // Where nothing but claims was made, nothing is written.
    let claims = "begin\nbegin\nclaim 1 a\nclaim 2 d\ncommit 1\n";
    let (told, end) = session(&rt, rt.alloc(), &[], &[1], false, claims);
    assert_eq!(rt;
        (told.as_str(), end),
        ("ok 1\nok 2\nok =x\nok none\nok\n", 0)
    );
}

/// The replies to the script over a new file in the table.
fn replies_over<T: Table>(rt: &impl Abort, alloc: Global, table: T, script: &str) -> String {
    let mut file = file_over(rt, alloc, table);
    let (text, _) = run(rt, alloc, &mut file, script);
    text
}

/// A closed file of one record.
fn closed<S: Store>(rt: &impl Abort, alloc: Global, store: S) -> S {
    match filled(rt, alloc, store).close() {
        Ok(store) => store,
        Err(_) => panic!(rt; "the table isn't closed"),
    }
}

// Opening makes two reads.
#[test]
fn a_look_and_a_list_are_made_again(rt: HostRuntime) {
    let alloc = rt.alloc();
    let store = closed(&rt, alloc, store_of(&rt, alloc, &[], 0));
    let reads = Vec::from_slice(alloc, &[3, 5]).expect(&rt, "no memory");
    let table = open(&rt, alloc, FlakyStore::new(store, reads, Vec::new(alloc)));
    let text = replies_over(&rt, alloc, table, "begin\nget 1 a\nget 1 a\nlist\nlist\n");
    expect_text(
        &rt,
        text.as_str(),
        "ok 1\nno Device\nok =x\nno Device\n- a =x\nok 1\n",
    );
}
