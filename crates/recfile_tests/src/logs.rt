ghost use Rattle.std.specs.Prelude.{◌≡◌, None, IsTrue};
ghost use Rattle.tx_log.specs.Owners.{holder_of};
ghost use Rattle.tx_log.specs.LogState.{history_in, open_in};

use rec_types::{Key, Limits, Memory, Record, TxId};
use std::process::Abort;
use tx_log::{BeginFault, LogRecord, Phase, TxLog, UndoStep};

fn is_free(log: &TxLog, tx: TxId, key: &Key) -> bool
    ensures { IsTrue result → holder_of (open_in log.now) (history_in log.now) tx.0 key.now ≡ None }
{
    match log.owner(key) {
        Some(owner) => owner == tx,
        None => true,
    }
}

/// Makes room, once more where memory was refused, and adds a change: a claim where it writes nothing.
fn accept(
    rt: &impl Abort,
    log: &mut TxLog,
    tx: TxId,
    key: &Key,
    before: Option<Record>,
    after: Option<Option<Record>>,
) -> Result<u32, Memory> {
    if log.reserve(key).is_err() {
        log.reserve(key)?;
    }
    assert!(rt; log.phase(tx) == Some(Phase::Active));
    assert!(rt; is_free(log, tx, key));
    assert!(rt; log.can_accept());
    match after {
        Some(after) => Ok(log.accept(tx, *key, before, after)),
        None => Ok(log.accept_claim(tx, *key, before)),
    }
}

/// Does so with a key and records of one byte.
fn put_bytes(
    rt: &impl Abort,
    log: &mut TxLog,
    tx: u32,
    key: u8,
    before: Option<u8>,
    after: Option<u8>,
) -> u32 {
    let (before, after) = (record_of(rt, before), Some(record_of(rt, after)));
    accept(rt, log, TxId(tx), &key_of(rt, key), before, after).expect(rt, "no answer")
}

fn claim_bytes(rt: &impl Abort, log: &mut TxLog, tx: u32, key: u8, seen: Option<u8>) -> u32 {
    let seen = record_of(rt, seen);
    accept(rt, log, TxId(tx), &key_of(rt, key), seen, None).expect(rt, "no answer")
}

/// Begins a transaction, once more where memory was refused.
fn begin(rt: &impl Abort, log: &mut TxLog) -> Result<TxId, BeginFault> {
    let begun = log.begun();
    match log.begin() {
        Err(BeginFault::Memory) => {
            assert_eq!(rt; log.begun(), begun);
            log.begin()
        }
        answer => answer,
    }
}

fn keys_of(log: &TxLog, tx: TxId) -> Result<Vec<Key>, Memory> {
    match log.keys_of(tx) {
        Err(Memory) => log.keys_of(tx),
        answer => answer,
    }
}

fn save(rt: &impl Abort, log: &mut TxLog, tx: TxId) -> u32 {
    assert!(rt; log.phase(tx) == Some(Phase::Active));
    assert!(rt; log.depth(tx) < 32);
    log.savepoint(tx)
}

/// Takes changes back to savepoint n, and answers how many.
fn roll_back(rt: &impl Abort, log: &mut TxLog, tx: TxId, n: u32, ends: bool) -> u32 {
    assert!(rt; log.phase(tx) == Some(Phase::Active));
    assert!(rt; n <= log.depth(tx));
    assert!(rt; n == 0 || !ends);
    log.start_rollback(tx, n, ends);
    let count = log.left(tx);
    for _ in 0..count {
        assert!(rt; log.next_undo(tx).is_some());
        log.compensate(tx);
    }
    assert!(rt; log.phase(tx) == Some(Phase::Rolling { ends }));
    assert!(rt; log.left(tx) == 0);
    log.finish(tx);
    count
}

/// A call of a log, or looks at it, with what they must answer. Keys and records are of one byte.
#[derive(Clone, Copy)]
enum Step {
    /// The number, or none where no more may begin.
    Begin(Option<u32>),
    /// A change of a transaction: the key, the records before and after, and the number of its record.
    Put(u32, u8, Option<u8>, Option<u8>, u32),
    /// A claim of a transaction: the key, what it has seen, and the number of its record.
    Claim(u32, u8, Option<u8>, u32),
    /// The number of the savepoint.
    Save(u32, u32),
    /// From this savepoint on.
    Release(u32, u32),
    /// To this savepoint, whether it ends, and how many changes go.
    Back(u32, u32, bool, u32),
    /// The start of a rollback alone.
    Start(u32, u32, bool),
    /// One change back: its key, the record before, and the number of the compensation.
    Undo(u32, u8, Option<u8>, u32),
    /// One claim back: its key, and the number of the record of that.
    Unclaim(u32, u8, u32),
    /// The end of a rollback, and whether the transaction ends with it.
    Finish(u32, bool),
    End(u32),
    Owner(u8, Option<u32>),
    Keys(u32, &'static [u8]),
    Phase(u32, Option<Phase>),
    /// Depth, live and left.
    Counts(u32, u32, u32, u32),
    /// Length, use, owned keys without a record, transactions begun.
    Whole(u32, u32, u32, u32),
}

fn key_of(rt: &impl Abort, byte: u8) -> Key {
    Key::new(&[byte]).expect(rt, "no key")
}

fn record_of(rt: &impl Abort, byte: Option<u8>) -> Option<Record> {
    match byte {
        Some(byte) => Some(Record::new(&[byte]).expect(rt, "no record")),
        None => None,
    }
}

fn expect_begin(rt: &impl Abort, log: &mut TxLog, number: Option<u32>) {
    match begin(rt, log) {
        Ok(tx) => assert_eq!(rt; Some(tx.0), number),
        Err(fault) => assert_eq!(rt; (fault, number), (BeginFault::BeginsSpent, None)),
    }
}

fn release(rt: &impl Abort, log: &mut TxLog, tx: TxId, n: u32) {
    assert!(rt; log.phase(tx) == Some(Phase::Active));
    assert!(rt; 0 < n);
    assert!(rt; n <= log.depth(tx));
    log.release(tx, n);
}

fn start(rt: &impl Abort, log: &mut TxLog, tx: TxId, n: u32, ends: bool) {
    assert!(rt; log.phase(tx) == Some(Phase::Active));
    assert!(rt; n <= log.depth(tx));
    assert!(rt; n == 0 || !ends);
    log.start_rollback(tx, n, ends);
}

/// Expects the change that is taken back next to be this one.
fn expect_restore(rt: &impl Abort, step: &Option<UndoStep>, wanted: u8, record: Option<u8>) {
    match step {
        Some(UndoStep::Restore { key, before }) => {
            assert!(rt; key.bytes() == [wanted].as_slice());
            assert!(rt; *before == record_of(rt, record));
        }
        _ => panic!(rt; "no change is taken back next"),
    }
}

/// Expects the claim that is taken back next to be of this key.
fn expect_unclaim(rt: &impl Abort, step: &Option<UndoStep>, wanted: u8) {
    match step {
        Some(UndoStep::Unclaim { key }) => assert!(rt; key.bytes() == [wanted].as_slice()),
        _ => panic!(rt; "no claim is taken back next"),
    }
}

fn undo(rt: &impl Abort, log: &mut TxLog, tx: TxId, key: u8, before: Option<u8>) -> u32 {
    let step = log.next_undo(tx);
    assert!(rt; step.is_some());
    expect_restore(rt, &step, key, before);
    log.compensate(tx)
}

fn unclaim(rt: &impl Abort, log: &mut TxLog, tx: TxId, key: u8) -> u32 {
    let step = log.next_undo(tx);
    assert!(rt; step.is_some());
    expect_unclaim(rt, &step, key);
    log.compensate(tx)
}

fn expect_no_undo(rt: &impl Abort, log: &TxLog, tx: TxId) {
    assert!(rt; log.next_undo(tx).is_none());
}

fn finish(rt: &impl Abort, log: &mut TxLog, tx: TxId, ends: bool) {
    assert!(rt; log.phase(tx) == Some(Phase::Rolling { ends }));
    assert!(rt; log.left(tx) == 0);
    log.finish(tx);
}

fn end(rt: &impl Abort, log: &mut TxLog, tx: TxId) {
    assert!(rt; log.phase(tx) == Some(Phase::Active));
    log.end(tx);
}

fn expect_keys(rt: &impl Abort, log: &TxLog, tx: TxId, bytes: &[u8]) {
    let keys = keys_of(log, tx).expect(rt, "no answer");
    assert_eq!(rt; keys.len(), bytes.len());
    for (key, byte) in keys.iter().zip(bytes) {
        assert!(rt; key.bytes() == [*byte].as_slice());
    }
}

fn expect_owner(rt: &impl Abort, log: &TxLog, key: u8, owner: Option<u32>) {
    assert_eq!(rt; log.owner(&key_of(rt, key)).map(|tx| tx.0), owner);
}

/// Makes the changing calls of a step.
fn change(rt: &impl Abort, log: &mut TxLog, step: &Step) {
    match *step {
        Step::Begin(number) => expect_begin(rt, log, number),
        Step::Put(tx, key, before, after, lsn) => {
            assert_eq!(rt; put_bytes(rt, log, tx, key, before, after), lsn);
        }
        Step::Claim(tx, key, seen, lsn) => {
            assert_eq!(rt; claim_bytes(rt, log, tx, key, seen), lsn);
        }
        Step::Save(tx, number) => assert_eq!(rt; save(rt, log, TxId(tx)), number),
        Step::Release(tx, n) => release(rt, log, TxId(tx), n),
        Step::Back(tx, n, ends, count) => {
            assert_eq!(rt; roll_back(rt, log, TxId(tx), n, ends), count);
        }
        Step::Start(tx, n, ends) => start(rt, log, TxId(tx), n, ends),
        Step::Undo(tx, key, before, lsn) => {
            assert_eq!(rt; undo(rt, log, TxId(tx), key, before), lsn);
        }
        Step::Unclaim(tx, key, lsn) => assert_eq!(rt; unclaim(rt, log, TxId(tx), key), lsn),
        Step::Finish(tx, ends) => finish(rt, log, TxId(tx), ends),
        Step::End(tx) => end(rt, log, TxId(tx)),
        _ => look(rt, log, step),
    }
}

/// Makes the looks of a step.
fn look(rt: &impl Abort, log: &TxLog, step: &Step) {
    match *step {
        Step::Owner(key, owner) => expect_owner(rt, log, key, owner),
        Step::Keys(tx, bytes) => expect_keys(rt, log, TxId(tx), bytes),
        Step::Phase(tx, phase) => assert_eq!(rt; log.phase(TxId(tx)), phase),
        Step::Counts(tx, depth, live, left) => {
            let tx = TxId(tx);
            assert_eq!(rt;
                (log.depth(tx), log.live(tx), log.left(tx)),
                (depth, live, left)
            );
        }
        Step::Whole(len, log_use, absent, begun) => assert_eq!(rt;
            (log.len(), log.log_use(), log.absent_owned(), log.begun()),
            (len, log_use, absent, begun)
        ),
        _ => {}
    }
}

/// Makes the steps one after another.
fn make_steps(rt: &impl Abort, log: &mut TxLog, steps: &[Step]) {
    for step in steps {
        change(rt, log, step);
    }
}

/// Expects the log to have these records, and none before and behind them.
fn expect_records(rt: &impl Abort, log: &TxLog, records: &[LogRecord]) {
    let mut lsn: u32 = 0;
    assert_eq!(rt; log.entry_at(lsn), None);
    for record in records {
        lsn = lsn.saturating_add(1);
        assert_eq!(rt; log.entry_at(lsn), Some(*record), "record {lsn}");
    }
    assert_eq!(rt; log.entry_at(lsn.saturating_add(1)), None);
}

const TWO_PARTIAL_ROLLBACKS: [Step; 14] = [
    Step::Begin(Some(1)),
    Step::Save(1, 1),
    Step::Put(1, b'a', None, Some(b'1'), 1),
    Step::Save(1, 2),
    Step::Put(1, b'a', Some(b'1'), Some(b'2'), 2),
    Step::Save(1, 3),
    Step::Put(1, b'b', None, Some(b'3'), 3),
    Step::Back(1, 2, false, 2),
    Step::Counts(1, 2, 1, 0),
    Step::Put(1, b'c', None, Some(b'4'), 6),
    Step::Save(1, 3),
    Step::Back(1, 1, false, 2),
    Step::Counts(1, 1, 0, 0),
    Step::Whole(8, 8, 0, 1),
];

#[test]
fn two_partial_rollbacks(rt: HostRuntime) {
    let mut log = TxLog::new(
        rt.alloc(),
        Limits::new(10, 100, 10).expect(&rt, "no limits"),
    );
    make_steps(&rt, &mut log, &TWO_PARTIAL_ROLLBACKS);
    expect_records(&rt, &log, &eight_records(&rt));
}

/// A change of transaction 1.
fn update(
    lsn: u32,
    prev: u32,
    key: Key,
    before: Option<Record>,
    after: Option<Record>,
) -> LogRecord {
    LogRecord::Update {
        lsn,
        prev,
        tx: TxId(1),
        key,
        before,
        after,
    }
}

/// One of its changes taken back.
fn compensation(
    lsn: u32,
    prev: u32,
    key: Key,
    restored: Option<Record>,
    undo_next: u32,
) -> LogRecord {
    LogRecord::Compensation {
        lsn,
        prev,
        tx: TxId(1),
        key,
        restored,
        undo_next,
    }
}

/// The log of two partial rollbacks.
fn eight_records(rt: &impl Abort) -> [LogRecord; 8] {
    let (a, b, c) = (key_of(rt, b'a'), key_of(rt, b'b'), key_of(rt, b'c'));
    let (one, two) = (record_of(rt, Some(b'1')), record_of(rt, Some(b'2')));
    let (three, four) = (record_of(rt, Some(b'3')), record_of(rt, Some(b'4')));
    [
        update(1, 0, a, None, one.as_ref().copied()),
        update(2, 1, a, one.as_ref().copied(), two),
        update(3, 2, b, None, three),
        compensation(4, 3, b, None, 2),
        compensation(5, 4, a, one, 1),
        update(6, 5, c, None, four),
        compensation(7, 6, c, None, 5),
        compensation(8, 7, a, None, 0),
    ]
}

const OWNERS_AND_KEYS: [Step; 24] = [
    Step::Begin(Some(1)),
    Step::Begin(Some(2)),
    Step::Put(1, b'b', None, Some(b'x'), 1),
    Step::Put(1, b'a', None, Some(b'x'), 2),
    Step::Save(1, 1),
    Step::Put(1, b'b', Some(b'x'), None, 3),
    Step::Put(2, b'c', Some(b'x'), None, 4),
    Step::Keys(1, b"ab"),
    Step::Owner(b'a', Some(1)),
    Step::Owner(b'c', Some(2)),
    Step::Whole(4, 8, 2, 2),
    Step::Back(1, 1, false, 1),
    Step::Owner(b'b', Some(1)),
    Step::Whole(5, 8, 1, 2),
    Step::Back(1, 0, true, 2),
    Step::Owner(b'a', None),
    Step::Owner(b'b', None),
    Step::Owner(b'c', Some(2)),
    Step::Phase(1, None),
    Step::Keys(1, b""),
    Step::Counts(1, 0, 0, 0),
    Step::End(2),
    Step::Owner(b'c', None),
    Step::Whole(7, 7, 0, 2),
];

#[test]
fn owners_and_keys(rt: HostRuntime) {
    let mut log = TxLog::new(
        rt.alloc(),
        Limits::new(10, 100, 10).expect(&rt, "no limits"),
    );
    make_steps(&rt, &mut log, &OWNERS_AND_KEYS)
}

const A_ROLLBACK_BETWEEN: [Step; 16] = [
    Step::Begin(Some(1)),
    Step::Begin(Some(2)),
    Step::Put(1, b'a', None, Some(b'1'), 1),
    Step::Put(1, b'a', Some(b'1'), Some(b'2'), 2),
    Step::Start(1, 0, true),
    Step::Undo(1, b'a', Some(b'1'), 3),
    Step::Put(2, b'b', None, Some(b'1'), 4),
    Step::Phase(1, Some(Phase::Rolling { ends: true })),
    Step::Counts(1, 0, 1, 1),
    Step::Owner(b'a', Some(1)),
    Step::Undo(1, b'a', None, 5),
    Step::Counts(1, 0, 0, 0),
    Step::Owner(b'a', None),
    Step::Finish(1, true),
    Step::Phase(1, None),
    Step::Counts(2, 0, 1, 0),
];

#[test]
fn a_rollback_between_other_changes(rt: HostRuntime) {
    let mut log = TxLog::new(
        rt.alloc(),
        Limits::new(10, 100, 10).expect(&rt, "no limits"),
    );
    make_steps(&rt, &mut log, &A_ROLLBACK_BETWEEN);
    expect_no_undo(&rt, &log, TxId(2))
}

const CLAIMS_ALONE: [Step; 22] = [
    Step::Begin(Some(1)),
    Step::Begin(Some(2)),
    Step::Claim(1, b'b', Some(b'x'), 1),
    Step::Claim(1, b'a', None, 2),
    Step::Claim(2, b'c', None, 3),
    Step::Keys(1, b"ab"),
    Step::Owner(b'b', Some(1)),
    Step::Counts(1, 0, 2, 0),
    Step::Whole(3, 6, 2, 2),
    Step::Start(1, 0, true),
    Step::Unclaim(1, b'a', 4),
    Step::Keys(1, b"b"),
    Step::Whole(4, 6, 1, 2),
    Step::Unclaim(1, b'b', 5),
    Step::Owner(b'b', None),
    Step::Whole(5, 6, 1, 2),
    Step::Finish(1, true),
    Step::Claim(2, b'b', Some(b'x'), 6),
    Step::Keys(2, b"bc"),
    Step::Whole(6, 8, 1, 2),
    Step::End(2),
    Step::Whole(6, 6, 0, 2),
];

// A claim over a put, a put over a claim, a removal over a claim, and a claim over that.
const CLAIMS_BESIDE_PUTS: [Step; 25] = [
    Step::Begin(Some(1)),
    Step::Put(1, b'a', None, Some(b'1'), 1),
    Step::Save(1, 1),
    Step::Claim(1, b'a', Some(b'1'), 2),
    Step::Claim(1, b'b', None, 3),
    Step::Whole(3, 6, 1, 1),
    Step::Put(1, b'b', None, Some(b'2'), 4),
    Step::Whole(4, 8, 0, 1),
    Step::Put(1, b'a', Some(b'1'), None, 5),
    Step::Claim(1, b'a', None, 6),
    Step::Keys(1, b"ab"),
    Step::Whole(6, 12, 1, 1),
    Step::Start(1, 1, false),
    Step::Unclaim(1, b'a', 7),
    Step::Whole(7, 12, 1, 1),
    Step::Undo(1, b'a', Some(b'1'), 8),
    Step::Whole(8, 12, 0, 1),
    Step::Undo(1, b'b', None, 9),
    Step::Whole(9, 12, 1, 1),
    Step::Unclaim(1, b'b', 10),
    Step::Keys(1, b"a"),
    Step::Whole(10, 12, 0, 1),
    Step::Unclaim(1, b'a', 11),
    Step::Owner(b'a', Some(1)),
    Step::Finish(1, false),
];

// What a change writes goes before what a claim above it has seen; of claims alone the first one's counts.
const SEEN_OTHERWISE: [Step; 10] = [
    Step::Begin(Some(1)),
    Step::Put(1, b'a', None, Some(b'1'), 1),
    Step::Claim(1, b'a', None, 2),
    Step::Whole(2, 4, 0, 1),
    Step::Claim(1, b'b', None, 3),
    Step::Claim(1, b'b', Some(b'2'), 4),
    Step::Claim(1, b'c', Some(b'3'), 5),
    Step::Claim(1, b'c', None, 6),
    Step::Whole(6, 12, 1, 1),
    Step::Back(1, 0, false, 6),
];

/// A claim of transaction 1.
fn claimed(lsn: u32, prev: u32, key: Key, seen: Option<Record>) -> LogRecord {
    LogRecord::Claim {
        lsn,
        prev,
        tx: TxId(1),
        key,
        seen,
    }
}

/// One of its claims taken back.
fn unclaimed(lsn: u32, prev: u32, key: Key, undo_next: u32) -> LogRecord {
    LogRecord::Unclaim {
        lsn,
        prev,
        tx: TxId(1),
        key,
        undo_next,
    }
}

/// The log of claims beside puts.
fn eleven_records(rt: &impl Abort) -> [LogRecord; 11] {
    let (a, b) = (key_of(rt, b'a'), key_of(rt, b'b'));
    let (one, two) = (record_of(rt, Some(b'1')), record_of(rt, Some(b'2')));
    let (put, seen) = (one.as_ref().copied(), one.as_ref().copied());
    let removed = one.as_ref().copied();
    [
        update(1, 0, a, None, put),
        claimed(2, 1, a, seen),
        claimed(3, 2, b, None),
        update(4, 3, b, None, two),
        update(5, 4, a, removed, None),
        claimed(6, 5, a, None),
        unclaimed(7, 6, a, 5),
        compensation(8, 7, a, one, 4),
        compensation(9, 8, b, None, 3),
        unclaimed(10, 9, b, 2),
        unclaimed(11, 10, a, 1),
    ]
}

#[test]
fn claims_and_their_taking_back(rt: HostRuntime) {
    let limits = Limits::new(10, 100, 10).expect(&rt, "no limits");
    let mut alone = TxLog::new(rt.alloc(), limits);
    make_steps(&rt, &mut alone, &CLAIMS_ALONE);
    let mut beside = TxLog::new(rt.alloc(), limits);
    make_steps(&rt, &mut beside, &CLAIMS_BESIDE_PUTS);
    expect_records(&rt, &beside, &eleven_records(&rt));
    let mut otherwise = TxLog::new(rt.alloc(), limits);
    make_steps(&rt, &mut otherwise, &SEEN_OTHERWISE)
}

const SAVEPOINTS_AND_LIMITS: [Step; 13] = [
    Step::Release(1, 32),
    Step::Counts(1, 31, 0, 0),
    Step::Save(1, 32),
    Step::Back(1, 0, false, 0),
    Step::Counts(1, 0, 0, 0),
    Step::Put(1, b'a', None, Some(b'x'), 1),
    Step::Put(1, b'b', None, Some(b'x'), 2),
    Step::Whole(2, 4, 0, 1),
    Step::Back(1, 0, false, 2),
    Step::Whole(4, 4, 0, 1),
    Step::Begin(Some(2)),
    Step::Begin(None),
    Step::Whole(4, 4, 0, 2),
];

/// Saves as often as may be.
fn save_all(rt: &impl Abort, log: &mut TxLog, tx: TxId) {
    for number in 1..33 {
        assert_eq!(rt; save(rt, log, tx), number);
    }
}

#[test]
fn savepoints_and_limits(rt: HostRuntime) {
    let mut log = TxLog::new(rt.alloc(), Limits::new(10, 4, 2).expect(&rt, "no limits"));
    expect_begin(&rt, &mut log, Some(1));
    save_all(&rt, &mut log, TxId(1));
    make_steps(&rt, &mut log, &SAVEPOINTS_AND_LIMITS);
    assert!(rt; !log.can_accept());
}
