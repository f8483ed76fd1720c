mod engine;
mod keeping;
mod remaining;
mod turns;

use command_text::{Command, read_line};
use rec_types::{Entry, Gap, Key, Record, Side, Table};
use record_file::{Answer, Call, RecordFile, Status, run_calls};
use std::alloc::Global;
use std::fmt::Debug;
use std::process::Abort;
use tx_log::LogRecord;

/// The call of a command; of a list of some records, the look at the first of them.
fn call_of(command: Command) -> Call {
    match command {
        Command::Begin => Call::Begin,
        Command::Put(tx, key, record) => Call::Put(tx, key, record),
        Command::Claim(tx, key) => Call::Claim(tx, key),
        Command::Del(tx, key) => Call::Remove(tx, key),
        Command::Get(tx, key) => Call::Get(tx, key),
        Command::Save(tx) => Call::Savepoint(tx),
        Command::Release(tx, n) => Call::Release(tx, n),
        Command::Back(tx, n) => Call::RollbackTo(tx, n),
        Command::Resume(tx) => Call::Resume(tx),
        Command::Abort(tx) => Call::Abort(tx),
        Command::Commit(tx) => Call::Commit(tx),
        Command::List => Call::Entries,
        Command::From(key, _) => Call::Beside(Side::After, Gap::Before(key)),
        Command::Upto(key, _) => Call::Beside(Side::Before, Gap::Behind(key)),
        Command::Committed(key) => Call::Committed(key),
        Command::Keys(tx) => Call::KeysOf(tx),
        Command::Log => Call::LogLen,
    }
}

/// The calls of a script.
fn calls_of(rt: &impl Abort, alloc: Global, script: &str) -> Vec<Call> {
    let mut calls = Vec::new(alloc);
    for line in script.as_bytes().split(|b| *b == b'\n') {
        if let Some(command) = read_line(line).expect(rt, "no answer") {
            calls.push(call_of(command)).expect(rt, "no memory");
        }
    }
    calls
}

fn shown<'a>(rt: &impl Abort, key: &'a Key) -> &'a str {
    str::from_utf8(key.bytes()).expect(rt, "no text")
}

/// The text of a record, or a dash.
fn word<'a>(rt: &impl Abort, record: &'a Option<Record>) -> &'a str {
    match record {
        Some(record) => str::from_utf8(record.bytes()).expect(rt, "no text"),
        None => "-",
    }
}

fn push_fault(rt: &impl Abort, text: &mut String, fault: &impl Debug) {
    write!(text, "{fault:?}").expect(rt, "no memory")
}

/// Each key with its record and its owner.
fn push_entries(rt: &impl Abort, text: &mut String, entries: &[Entry]) {
    for entry in entries {
        write!(
            text,
            "{}={}",
            shown(rt, &entry.key),
            word(rt, &Some(entry.value))
        )
        .expect(rt, "no memory");
        if let Some(tx) = entry.owner {
            write!(text, "@{}", tx.0).expect(rt, "no memory");
        }
        text.push_str(" ").expect(rt, "no memory");
    }
}

fn push_keys(rt: &impl Abort, text: &mut String, keys: &[Key]) {
    for key in keys {
        write!(text, "{} ", shown(rt, key)).expect(rt, "no memory");
    }
}

fn push_status(rt: &impl Abort, text: &mut String, status: &Status) {
    match status {
        Status::Active { saves, live } => write!(text, "active {saves} {live}").expect(
            rt,
            "no memory",
        ),
        Status::Rolling { left, ends } => write!(text, "rolling {left} {ends}").expect(
            rt,
            "no memory",
        ),
    }
}

/// Number, the one before, transaction and key; the records before and after, or the one that a claim has seen.
fn push_logged_change(rt: &impl Abort, text: &mut String, record: &LogRecord) {
    match record {
        LogRecord::Update {
            lsn,
            prev,
            tx,
            key,
            before,
            after,
        } => {
            let (key, before, after) = (shown(rt, key), word(rt, before), word(rt, after));
            write!(text, "{lsn} {prev} {} {key} {before} to {after}", tx.0).expect(rt, "no memory");
        }
        LogRecord::Claim {
            lsn,
            prev,
            tx,
            key,
            seen,
        } => {
            let (key, seen) = (shown(rt, key), word(rt, seen));
            write!(text, "{lsn} {prev} {} {key} claimed at {seen}", tx.0).expect(rt, "no memory");
        }
        _ => push_logged_back(rt, text, record),
    }
}

/// The same; the restored record, where it wasn't a claim; and the change that is next to be taken back.
fn push_logged_back(rt: &impl Abort, text: &mut String, record: &LogRecord) {
    match record {
        LogRecord::Compensation {
            lsn,
            prev,
            tx,
            key,
            restored,
            undo_next,
        } => {
            let (key, restored) = (shown(rt, key), word(rt, restored));
            write!(
                text,
                "{lsn} {prev} {} {key} back to {restored}, then {undo_next}",
                tx.0
            )
            .expect(rt, "no memory");
        }
        LogRecord::Unclaim {
            lsn,
            prev,
            tx,
            key,
            undo_next,
        } => {
            let key = shown(rt, key);
            write!(
                text,
                "{lsn} {prev} {} {key} unclaimed, then {undo_next}",
                tx.0
            )
            .expect(rt, "no memory");
        }
        _ => (),
    }
}

fn push_log_record(rt: &impl Abort, text: &mut String, record: &Option<LogRecord>) {
    match record {
        Some(record) => push_logged_change(rt, text, record),
        None => text.push_str("-").expect(rt, "no memory"),
    }
}

/// The answers of changes, and of transactions that begin and end.
fn push_change(rt: &impl Abort, text: &mut String, answer: &Answer) {
    match answer {
        Answer::Begin(Ok(tx)) => write!(text, "{}", tx.0).expect(rt, "no memory"),
        Answer::Begin(Err(fault)) => push_fault(rt, text, fault),
        Answer::Put(Ok(old)) => text.push_str(word(rt, old)).expect(rt, "no memory"),
        Answer::Put(Err(fault)) => push_fault(rt, text, fault),
        Answer::Claim(Ok(seen)) => text.push_str(word(rt, seen)).expect(rt, "no memory"),
        Answer::Claim(Err(fault)) => push_fault(rt, text, fault),
        Answer::Remove(Ok(old)) => text.push_str(word(rt, &Some(*old))).expect(rt, "no memory"),
        Answer::Remove(Err(fault)) => push_fault(rt, text, fault),
        Answer::Savepoint(answer) => push_fault(rt, text, answer),
        Answer::Release(answer) => push_fault(rt, text, answer),
        Answer::RollbackTo(answer) => push_fault(rt, text, answer),
        Answer::Abort(answer) => push_fault(rt, text, answer),
        Answer::Resume(answer) => push_fault(rt, text, answer),
        Answer::Commit(answer) => push_fault(rt, text, answer),
        _ => push_look(rt, text, answer),
    }
}

/// The answers of calls that change nothing.
fn push_look(rt: &impl Abort, text: &mut String, answer: &Answer) {
    match answer {
        Answer::Get(Ok(found)) => text.push_str(word(rt, found)).expect(rt, "no memory"),
        Answer::Get(Err(fault)) => push_fault(rt, text, fault),
        Answer::Entries(Ok(entries)) => push_entries(rt, text, entries),
        Answer::Entries(Err(fault)) => push_fault(rt, text, fault),
        Answer::Beside(Ok(Some(entry))) => push_entries(rt, text, &[*entry]),
        Answer::Beside(Ok(None)) => text.push_str("-").expect(rt, "no memory"),
        Answer::Beside(Err(fault)) => push_fault(rt, text, fault),
        Answer::Committed(Ok(found)) => text.push_str(word(rt, found)).expect(rt, "no memory"),
        Answer::Committed(Err(fault)) => push_fault(rt, text, fault),
        Answer::KeysOf(Ok(keys)) => push_keys(rt, text, keys),
        Answer::KeysOf(Err(fault)) => push_fault(rt, text, fault),
        Answer::Status(Ok(status)) => push_status(rt, text, status),
        Answer::Status(Err(fault)) => push_fault(rt, text, fault),
        Answer::Charged(count) => write!(text, "{count}").expect(rt, "no memory"),
        Answer::Begun(count) | Answer::LogLen(count) | Answer::LogUse(count) => {
            write!(text, "{count}").expect(rt, "no memory")
        }
        Answer::LogRecord(record) => push_log_record(rt, text, record),
        _ => (),
    }
}

/// Makes the calls.
fn answers_to<T: Table>(
    rt: &impl Abort,
    alloc: Global,
    file: &mut RecordFile<T>,
    calls: &[Call],
) -> Vec<Answer> {
    run_calls(alloc, file, calls).expect(rt, "no answer")
}

/// Appends an answer as a line.
fn push_answer(rt: &impl Abort, text: &mut String, answer: &Answer) {
    push_change(rt, text, answer);
    text.push_str("\n").expect(rt, "no memory")
}

/// The answers, a line each.
fn text_of(rt: &impl Abort, alloc: Global, answers: &[Answer]) -> String {
    let mut text = String::new(alloc);
    for answer in answers {
        push_answer(rt, &mut text, answer);
    }
    text
}
