ghost use Rattle.recfile.specs.Streams.{IsBlankFor};

use super::{flaky_file, greatest, run, run_all};
use crate::expect_text;
use page_store::MemStore;
use rec_types::{Limits, SortedTable, Table, TxId};
use recfile::laws::{dumps_are_loaded, endings_by_example};
use recfile::{
    DumpFault, EndFault, Feed, Manner, ScriptFault, StreamCalls, create_in, dump_in, end_all,
    exit_status, run_memory,
};
use record_file::{Cause, RecordFile};
use std::alloc::Global;
use std::io;
use std::io::{Read, Write};
use std::marker::Brand;
use std::process::Abort;
use std::sync::ledger::{Blank, Ledger};

fn empty_file(alloc: Global, limits: Limits) -> RecordFile<SortedTable> {
    RecordFile::new(alloc, SortedTable::new(alloc, limits), limits)
}

/// A writer that refuses every write after so many.
#[derive(Drop)]
struct Closing {
    writes: u32,
}

impl Write for Closing {
    fn write(&mut self, bytes: &[u8]) -> io::Result<usize> {
        if self.writes == 0 {
            return Err(io::Error::from(io::ErrorKind::BrokenPipe));
        }
        self.writes -= 1;
        Ok(bytes.len())
    }

    fn flush(&mut self) -> io::Result<()> {
        Ok(())
    }
}

/// A reader of line ends that fails after so many reads.
#[derive(Drop)]
struct Failing {
    reads: u32,
}

impl Read for Failing {
    fn read(&mut self, bytes: &mut [u8]) -> io::Result<usize> {
        if self.reads == 0 || bytes.is_empty() {
            return Err(io::Error::from(io::ErrorKind::BrokenPipe));
        }
        self.reads -= 1;
        bytes[0] = b'\n';
        Ok(1)
    }
}

#[test]
fn statuses_of_the_program(rt: HostRuntime) {
    for (end_stopped, file_fault, script_fault, status) in [
        (false, false, false, 0),
        (false, false, true, 3),
        (false, true, false, 1),
        (false, true, true, 1),
        (true, false, false, 4),
        (true, false, true, 4),
        (true, true, false, 4),
        (true, true, true, 4),
    ] {
        assert_eq!(rt; exit_status(end_stopped, file_fault, script_fault), status);
    }
}

/// Runs the script over the file: how it ended, and how many transactions are begun.
fn run_over<T: Table, R: Read, W: Write>(
    alloc: Global,
    file: &mut RecordFile<T>,
    reader: &mut R,
    writer: &mut W,
) -> (Result<u32, ScriptFault>, u32) {
    let end = run_all(alloc, reader, writer, file);
    (end, file.begun())
}

/// Expects a reader that fails after so many reads to end the script before its first command, and a writer that
/// refuses after so many writes to end it behind the command whose reply is refused.
fn expect_ends<T: Table>(rt: &impl Abort, alloc: Global, file: &mut RecordFile<T>, calls: u32) {
    let mut out = Vec::new(alloc);
    let read = run_over(alloc, file, &mut Failing { reads: calls }, &mut out);
    assert_eq!(rt; read, (Err(ScriptFault::ReadFault), 0));
    assert_eq!(rt; out.len(), 0);
    let done = calls.saturating_add(1);
    let mut reader = b"begin\nbegin\nbegin\nbegin\n".as_slice();
    let written = run_over(alloc, file, &mut reader, &mut Closing { writes: calls });
    assert_eq!(rt; written, (Err(ScriptFault::WriteFault { done }), done));
}

#[test]
fn readers_and_writers_fail_at_any_call(rt: HostRuntime) {
    for calls in 0..3 {
        let mut file = empty_file(rt.alloc(), greatest().expect(&rt, "no limits"));
        expect_ends(&rt, rt.alloc(), &mut file, calls);
    }
}

/// A script of these bytes and so many `#`.
fn long_script(rt: &impl Abort, alloc: Global, first: &[u8], more: usize) -> Vec<u8> {
    let mut script = Vec::from_slice(alloc, first).expect(rt, "no memory");
    for _ in 0..more {
        script.push(b'#').expect(rt, "no memory");
    }
    script
}

/// Expects the script of these bytes and so many `#` to end so, with nothing written and nothing begun.
fn expect_silent<T: Table>(
    rt: &impl Abort,
    alloc: Global,
    file: &mut RecordFile<T>,
    first: &[u8],
    more: usize,
    end: Result<u32, ScriptFault>,
) {
    let mut out = Vec::new(alloc);
    let script = long_script(rt, alloc, first, more);
    let ran = run_over(alloc, file, &mut script.as_slice(), &mut out);
    assert_eq!(rt; (ran, out.len()), ((end, 0), 0));
}

/// Expects a comment to say nothing, a longer script not to be run, and one whose reply is refused to end there.
fn expect_unrun<T: Table>(rt: &impl Abort, alloc: Global, file: &mut RecordFile<T>) {
    expect_silent(rt, alloc, file, b"#", 1_048_575, Ok(0));
    let fault = Err(ScriptFault::ScriptTooLong);
    expect_silent(rt, alloc, file, b"begin\n", 1_048_571, fault);
    let mut reader = b"begin\n".as_slice();
    let ran = run_over(alloc, file, &mut reader, &mut Closing { writes: 0 });
    assert_eq!(rt; ran, (Err(ScriptFault::WriteFault { done: 1 }), 1));
}

#[test]
fn scripts_that_are_not_run_to_their_end(rt: HostRuntime) {
    let mut file = empty_file(rt.alloc(), greatest().expect(&rt, "no limits"));
    expect_unrun(&rt, rt.alloc(), &mut file)
}

/// Runs the program's session over an empty file in memory, on that count.
fn memory_counted<L: Ledger, R: Read, W: Write>(
    alloc: Global,
    limits: Limits,
    reader: &mut R,
    out: &mut W,
    err: &mut Vec<u8>,
    blank: Blank,
) -> u8
    requires { IsBlankFor blank.name blank.parts L.name L.parts }
{
    let manner = Manner {
        strict: false,
        feed: Feed::Script,
    };
    let mut calls = StreamCalls::<L>::new(blank);
    run_memory(alloc, limits, manner, reader, out, err, &mut calls)
}

/// Expects this status of the program's session, and what it writes to standard error.
fn expect_session<R: Read, W: Write>(
    rt: &impl Abort,
    alloc: Global,
    reader: &mut R,
    out: &mut W,
    fault: &str,
    status: u8,
) {
    let mut err = Vec::new(alloc);
    let limits = greatest().expect(rt, "no limits");
    let ended = memory_counted::<Brand, R, W>(alloc, limits, reader, out, &mut err, Blank::new(1));
    assert_eq!(rt; ended, status);
    let text = String::from_utf8(err).expect(rt, "no text");
    expect_text(rt, text.as_str(), fault);
}

/// Expects of a session what it writes to standard output, too.
fn expect_output<R: Read>(
    rt: &impl Abort,
    alloc: Global,
    reader: &mut R,
    out: &str,
    fault: &str,
    status: u8,
) {
    let mut bytes = Vec::new(alloc);
    expect_session(rt, alloc, reader, &mut bytes, fault, status);
    let text = String::from_utf8(bytes).expect(rt, "no text");
    expect_text(rt, text.as_str(), out)
}

#[test]
fn a_session_names_its_fault(rt: HostRuntime) {
    let alloc = rt.alloc();
    let mut script = b"begin\nlist\n".as_slice();
    expect_output(&rt, alloc, &mut script, "ok 1\nok 0\n", "", 0);
    let mut script = b"begin\nbegin\nput 1 a =x\nsave 2\nput 2 b =y\n".as_slice();
    let out = "ok 1\nok 2\nok none\nok 1\nok none\n";
    expect_output(&rt, alloc, &mut script, out, "", 0);
    let mut failing = Failing { reads: 1 };
    expect_output(&rt, alloc, &mut failing, "", "recfile: ReadFault\n", 3);
    let mut script = b"begin\nbegin\nbegin\n".as_slice();
    let mut closing = Closing { writes: 1 };
    expect_session(
        &rt,
        alloc,
        &mut script,
        &mut closing,
        "recfile: WriteFault 2\n",
        3,
    )
}

/// Runs the script over the file, and ends what is open: what that answered, and the list and the log then.
fn end_in<T: Table>(
    rt: &impl Abort,
    alloc: Global,
    file: &mut RecordFile<T>,
    script: &str,
) -> (Result<u32, EndFault>, String) {
    let (_, end) = run(rt, alloc, file, script);
    assert!(rt; end.is_ok());
    let ended = end_all(file);
    let (text, _) = run(rt, alloc, file, "list\nlog\n");
    (ended, text)
}

/// Does so over an empty table whose device fails at these calls of `set`.
fn end_after(
    rt: &impl Abort,
    alloc: Global,
    numbers: &[u64],
    script: &str,
) -> (Result<u32, EndFault>, String) {
    let limits = greatest().expect(rt, "no limits");
    let table = SortedTable::new(alloc, limits);
    let mut file = flaky_file(rt, alloc, table, limits, numbers);
    end_in(rt, alloc, &mut file, script)
}

/// Expects so many to be ended, and this list and log then.
fn expect_ended(
    rt: &impl Abort,
    alloc: Global,
    numbers: &[u64],
    script: &str,
    count: u32,
    after: &str,
) {
    let (ended, text) = end_after(rt, alloc, numbers, script);
    assert_eq!(rt; ended, Ok(count));
    expect_text(rt, text.as_str(), after);
}

/// Expects the device to stop ending at this transaction with one change left, and this list and log then.
fn expect_stop(
    rt: &impl Abort,
    alloc: Global,
    numbers: &[u64],
    script: &str,
    tx: u32,
    undone: u32,
    after: &str,
) {
    let (ended, text) = end_after(rt, alloc, numbers, script);
    let fault = EndFault::Stopped {
        tx: TxId(tx),
        undone,
        left: 1,
        cause: Cause::Device,
    };
    assert_eq!(rt; ended, Err(fault));
    expect_text(rt, text.as_str(), after);
}

#[test]
fn open_transactions_are_ended(rt: HostRuntime) {
    for (script, count, after) in [
        ("", 0, "ok 0\nok 0 0\n"),
        ("begin\nput 1 a =x\ncommit 1\n", 0, "- a =x\nok 1\nok 1 1\n"),
        (
            "begin\nbegin\nbegin\nput 3 m =keep\ncommit 3\nput 1 a =x\nput 2 b =y\n",
            2,
            "- m =keep\nok 1\nok 5 5\n",
        ),
        (
            "begin\nbegin\nput 1 a =1\nsave 1\nput 1 a =2\nback 1 1\nput 2 b =3\n",
            2,
            "ok 0\nok 6 6\n",
        ),
        (
            "begin\nbegin\nput 1 a =1\nclaim 1 b\nclaim 2 c\n",
            2,
            "ok 0\nok 6 6\n",
        ),
    ] {
        expect_ended(&rt, rt.alloc(), &[], script, count, after);
    }
}

// Three transactions with one change each; and one whose rollback to a savepoint was stopped.
#[test]
fn ending_stops_at_the_first_stop(rt: HostRuntime) {
    let alloc = rt.alloc();
    let three = "begin\nbegin\nbegin\nput 1 a =1\nput 2 b =2\nput 3 c =3\n";
    let back = "begin\nput 1 a =1\nsave 1\nput 1 b =2\nback 1 1\n";
    expect_stop(
        &rt,
        alloc,
        &[5],
        three,
        2,
        0,
        "- b =2 @2\n- c =3 @3\nok 2\nok 4 6\n",
    );
    expect_ended(&rt, alloc, &[3], back, 1, "ok 0\nok 4 4\n");
    expect_stop(
        &rt,
        alloc,
        &[3, 4],
        back,
        1,
        0,
        "- a =1 @1\n- b =2 @1\nok 2\nok 2 4\n",
    );
    expect_stop(&rt, alloc, &[3, 5], back, 1, 0, "- a =1 @1\nok 1\nok 3 4\n")
}

/// Runs the script of so many commands, ends what it leaves open at the third time, and expects this list and log then.
fn end_thrice<T: Table>(
    rt: &impl Abort,
    alloc: Global,
    file: &mut RecordFile<T>,
    script: &str,
    commands: u32,
    count: u32,
    after: &str,
) {
    let (_, end) = run(rt, alloc, file, script);
    assert_eq!(rt; end, Ok(commands));
    let (first, second) = (end_all(file), end_all(file));
    assert!(rt; first.is_err() && second.is_err());
    let (third, text) = end_in(rt, alloc, file, "");
    assert_eq!(rt; third, Ok(count));
    expect_text(rt, text.as_str(), after)
}

// The transaction that was stopped goes on, and the one above it is aborted.
#[test]
fn ending_goes_on_after_a_stop(rt: HostRuntime) {
    let alloc = rt.alloc();
    let limits = greatest().expect(&rt, "no limits");
    let table = SortedTable::new(alloc, limits);
    let mut file = flaky_file(&rt, alloc, table, limits, &[4, 5]);
    let script = "begin\nbegin\nput 1 a =1\nput 1 b =2\nput 2 c =3\n";
    end_thrice(&rt, alloc, &mut file, script, 5, 2, "ok 0\nok 6 6\n")
}

/// The dump of a new file, and how it ended.
fn dump_of_new<W: Write>(rt: &impl Abort, alloc: Global, out: &mut W) -> Result<(), DumpFault> {
    let limits = greatest().expect(rt, "no limits");
    let (store, made) = create_in(alloc, MemStore::new(Vec::new(alloc), 0), 2, limits);
    assert_eq!(rt; made, Ok(()));
    dump_in(alloc, store, limits, None, out).1
}

#[test]
fn a_dump_that_is_not_written(rt: HostRuntime) {
    let mut out = Vec::new(rt.alloc());
    assert_eq!(rt; dump_of_new(&rt, rt.alloc(), &mut out), Ok(()));
    assert!(rt; out.as_slice() == b"begin\ncommit 1\n".as_slice());
    let ended = dump_of_new(&rt, rt.alloc(), &mut Closing { writes: 0 });
    assert_eq!(rt; ended, Err(DumpFault::Write));
}

#[test]
fn laws_hold(_rt: HostRuntime) {
    endings_by_example();
    dumps_are_loaded();
}
