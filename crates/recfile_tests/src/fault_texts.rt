use crate::expect_text;
use btree_delete::{CreateFault, OpenFault};
use btree_insert::TreeFault;
use btree_node::{HeaderFault, NodeFault};
use command_text::LineFault;
use page_store::{FetchFault, StoreFault, WriteFault};
use rec_types::{KeyFault, LimitFault, RecordFault, TableFault, TxId};
use recfile::{EndFault, RunFault, ScriptFault};
use record_file::{
    AbortFault, BeginFault, Cause, ChangesFault, ClaimFault, CommitFault, EntriesFault, GetFault,
    KeepFault, KeeperFault, KeysOfFault, PutFault, ReleaseFault, RemoveFault, ResumeFault,
    RollbackToFault, SavepointFault, StatusFault,
};
use std::alloc::Global;
use std::fmt::Display;
use std::process::Abort;

/// Expects each fault to be shown by the text beside it.
fn expect_texts<E: Display>(rt: &impl Abort, alloc: Global, rows: &[(E, &str)]) {
    for row in rows {
        let shown = format!(in alloc; "{}", row.0).expect(rt, "no memory");
        expect_text(rt, shown.as_str(), row.1);
    }
}

const KEY_FAULTS: [(KeyFault, &str); 2] = [
    (KeyFault::Empty, "a key has at least one byte"),
    (KeyFault::TooLong, "a key has at most 16 bytes"),
];

const LIMIT_FAULTS: [(LimitFault, &str); 3] = [
    (LimitFault::Records, "the records limit is 1 to 1000000"),
    (LimitFault::Log, "the log limit is 2 to 4000000"),
    (LimitFault::Begins, "the begins limit is 1 to 1000000"),
];

const RECORD_FAULTS: [(RecordFault, &str); 1] = [(
    RecordFault::TooLong,
    "a record has at most 100 bytes",
)];

const TABLE_FAULTS: [(TableFault, &str); 4] = [
    (TableFault::Device, "the device failed"),
    (TableFault::Damaged(7), "page 7 is damaged"),
    (
        TableFault::NoRoom,
        "the table has as many records as it may",
    ),
    (TableFault::Memory, "out of memory"),
];

const BEGIN_FAULTS: [(BeginFault, &str); 2] = [
    (
        BeginFault::BeginsSpent,
        "the session has begun as many transactions as it may",
    ),
    (BeginFault::Memory, "out of memory"),
];

const PUT_FAULTS: [(PutFault, &str); 8] = [
    (PutFault::NoSuchTx, "no such open transaction"),
    (PutFault::Rolling, "the transaction is being rolled back"),
    (
        PutFault::Held(TxId(7)),
        "the key is held by another transaction",
    ),
    (PutFault::LogFull, "the log is full"),
    (PutFault::Device, "the device failed"),
    (PutFault::Damaged(7), "page 7 is damaged"),
    (PutFault::Full, "the file has as many records as it may"),
    (PutFault::Memory, "out of memory"),
];

const CLAIM_FAULTS: [(ClaimFault, &str); 8] = [
    (ClaimFault::NoSuchTx, "no such open transaction"),
    (ClaimFault::Rolling, "the transaction is being rolled back"),
    (
        ClaimFault::Held(TxId(7)),
        "the key is held by another transaction",
    ),
    (ClaimFault::LogFull, "the log is full"),
    (ClaimFault::Device, "the device failed"),
    (ClaimFault::Damaged(7), "page 7 is damaged"),
    (ClaimFault::Full, "the file has as many records as it may"),
    (ClaimFault::Memory, "out of memory"),
];

const REMOVE_FAULTS: [(RemoveFault, &str); 8] = [
    (RemoveFault::NoSuchTx, "no such open transaction"),
    (RemoveFault::Rolling, "the transaction is being rolled back"),
    (
        RemoveFault::Held(TxId(7)),
        "the key is held by another transaction",
    ),
    (RemoveFault::LogFull, "the log is full"),
    (RemoveFault::Device, "the device failed"),
    (RemoveFault::Damaged(7), "page 7 is damaged"),
    (RemoveFault::Absent, "the key has no record"),
    (RemoveFault::Memory, "out of memory"),
];

const GET_FAULTS: [(GetFault, &str); 5] = [
    (GetFault::NoSuchTx, "no such open transaction"),
    (GetFault::Rolling, "the transaction is being rolled back"),
    (
        GetFault::Held(TxId(7)),
        "the key is held by another transaction",
    ),
    (GetFault::Device, "the device failed"),
    (GetFault::Damaged(7), "page 7 is damaged"),
];

const SAVEPOINT_FAULTS: [(SavepointFault, &str); 3] = [
    (SavepointFault::NoSuchTx, "no such open transaction"),
    (
        SavepointFault::Rolling,
        "the transaction is being rolled back",
    ),
    (SavepointFault::TooDeep, "the transaction has 32 savepoints"),
];

const RELEASE_FAULTS: [(ReleaseFault, &str); 3] = [
    (ReleaseFault::NoSuchTx, "no such open transaction"),
    (
        ReleaseFault::Rolling,
        "the transaction is being rolled back",
    ),
    (ReleaseFault::NoSuchSave, "no such savepoint"),
];

const ROLLBACK_TO_FAULTS: [(RollbackToFault, &str); 4] = [
    (RollbackToFault::NoSuchTx, "no such open transaction"),
    (
        RollbackToFault::Rolling,
        "the transaction is being rolled back",
    ),
    (RollbackToFault::NoSuchSave, "no such savepoint"),
    (
        RollbackToFault::Stopped {
            undone: 1,
            left: 2,
            cause: Cause::Device,
        },
        "stopped after 1 changes, 2 are left",
    ),
];

const ABORT_FAULTS: [(AbortFault, &str); 3] = [
    (AbortFault::NoSuchTx, "no such open transaction"),
    (AbortFault::Rolling, "the transaction is being rolled back"),
    (
        AbortFault::Stopped {
            undone: 1,
            left: 2,
            cause: Cause::Device,
        },
        "stopped after 1 changes, 2 are left",
    ),
];

const RESUME_FAULTS: [(ResumeFault, &str); 3] = [
    (ResumeFault::NoSuchTx, "no such open transaction"),
    (
        ResumeFault::NotRolling,
        "the transaction isn't being rolled back",
    ),
    (
        ResumeFault::Stopped {
            undone: 1,
            left: 2,
            cause: Cause::Device,
        },
        "stopped after 1 changes, 2 are left",
    ),
];

const COMMIT_FAULTS: [(CommitFault, &str); 2] = [
    (CommitFault::NoSuchTx, "no such open transaction"),
    (CommitFault::Rolling, "the transaction is being rolled back"),
];

const ENTRIES_FAULTS: [(EntriesFault, &str); 3] = [
    (EntriesFault::Device, "the device failed"),
    (EntriesFault::Damaged(7), "page 7 is damaged"),
    (EntriesFault::Memory, "out of memory"),
];

const KEYS_OF_FAULTS: [(KeysOfFault, &str); 2] = [
    (KeysOfFault::NoSuchTx, "no such open transaction"),
    (KeysOfFault::Memory, "out of memory"),
];

const CHANGES_FAULTS: [(ChangesFault, &str); 3] = [
    (ChangesFault::NoSuchTx, "no such open transaction"),
    (
        ChangesFault::Rolling,
        "the transaction is being rolled back",
    ),
    (ChangesFault::Memory, "out of memory"),
];

const KEEP_FAULTS: [(KeepFault, &str); 4] = [
    (
        KeepFault::Refused(CommitFault::Rolling),
        "the transaction is being rolled back",
    ),
    (KeepFault::Memory, "out of memory"),
    (
        KeepFault::Unkept(KeeperFault::Room),
        "there is no room to keep the commit",
    ),
    (
        KeepFault::Unkept(KeeperFault::Doubt),
        "it isn't known whether the commit is kept",
    ),
];

const STATUS_FAULTS: [(StatusFault, &str); 1] = [(
    StatusFault::NoSuchTx,
    "no such open transaction",
)];

const LINE_FAULTS: [(LineFault, &str); 7] = [
    (LineFault::LineTooLong, "LineTooLong"),
    (LineFault::UnknownCommand, "UnknownCommand"),
    (LineFault::WordCount, "WordCount"),
    (LineFault::BadNumber, "BadNumber"),
    (LineFault::KeyTooLong, "KeyTooLong"),
    (LineFault::NoRecordMark, "NoRecordMark"),
    (LineFault::RecordTooLong, "RecordTooLong"),
];

const SCRIPT_FAULTS: [(ScriptFault, &str); 4] = [
    (ScriptFault::ScriptTooLong, "ScriptTooLong"),
    (ScriptFault::ReadFault, "ReadFault"),
    (ScriptFault::WriteFault { done: 1 }, "WriteFault 1"),
    (ScriptFault::Memory { done: 1 }, "Memory 1"),
];

const RUN_FAULTS: [(RunFault, &str); 3] = [
    (
        RunFault::Script(ScriptFault::WriteFault { done: 1 }),
        "WriteFault 1",
    ),
    (RunFault::Refused { line: 2 }, "Refused 2"),
    (RunFault::Flush, "Flush"),
];

const END_FAULTS: [(EndFault, &str); 3] = [
    (
        EndFault::Stopped {
            tx: TxId(7),
            undone: 1,
            left: 2,
            cause: Cause::Device,
        },
        "Stopped 7 1 2 Device",
    ),
    (
        EndFault::Stopped {
            tx: TxId(7),
            undone: 1,
            left: 2,
            cause: Cause::Damaged(9),
        },
        "Stopped 7 1 2 Damaged 9",
    ),
    (
        EndFault::Stopped {
            tx: TxId(7),
            undone: 1,
            left: 2,
            cause: Cause::Memory,
        },
        "Stopped 7 1 2 Memory",
    ),
];

const STORE_FAULTS: [(StoreFault, &str); 2] = [
    (StoreFault::Failed, "the store failed"),
    (StoreFault::Memory, "out of memory"),
];

const FETCH_FAULTS: [(FetchFault, &str); 2] = [
    (FetchFault::Device, "a read of the store failed"),
    (FetchFault::OutOfRange, "the page is not in use"),
];

const WRITE_FAULTS: [(WriteFault, &str); 2] = [
    (WriteFault::Device, "a call of the store failed"),
    (WriteFault::Memory, "out of memory"),
];

const HEADER_FAULTS: [(HeaderFault, &str); 5] = [
    (HeaderFault::BadMagic, "the file is no record file"),
    (HeaderFault::BadVersion(7), "the file has version 7"),
    (
        HeaderFault::BadOrder,
        "the order of the tree is not from 1 to 16",
    ),
    (HeaderFault::NotClean, "the file was not closed cleanly"),
    (
        HeaderFault::BadHeader,
        "the state is unknown, or a byte behind it is not zero",
    ),
];

const NODE_FAULTS: [(NodeFault, &str); 7] = [
    (
        NodeFault::Kind,
        "the page is neither a leaf nor an inner page",
    ),
    (
        NodeFault::Count,
        "the number of keys does not fit the order",
    ),
    (NodeFault::KeyLength, "a key has a length that no key has"),
    (
        NodeFault::RecordLength,
        "a record has a length that no record has",
    ),
    (NodeFault::Order, "the keys do not ascend"),
    (NodeFault::Son, "a son is no page number"),
    (
        NodeFault::NotZero,
        "a byte that belongs to no field is not zero",
    ),
];

const TREE_FAULTS: [(TreeFault, &str); 3] = [
    (TreeFault::Device, "a read of the store failed"),
    (
        TreeFault::Damaged(7),
        "page 7 is no page of a tree at its place",
    ),
    (TreeFault::Memory, "no memory"),
];

const OPEN_FAULTS: [(OpenFault, &str); 11] = [
    (OpenFault::Device, "a read of the file failed"),
    (
        OpenFault::BadLength,
        "the file has a length that no record file has",
    ),
    (OpenFault::BadMagic, "the file is no record file"),
    (OpenFault::BadVersion(7), "the file has version 7"),
    (
        OpenFault::BadOrder,
        "the order of the tree is not from 1 to 16",
    ),
    (OpenFault::NotClean, "the file was not closed cleanly"),
    (OpenFault::BadHeader, "the header is not that of this file"),
    (OpenFault::Damaged(7), "page 7 is damaged"),
    (
        OpenFault::WrongCount,
        "the header tells another number of records",
    ),
    (
        OpenFault::TooManyRecords,
        "the file has more records than the limit",
    ),
    (OpenFault::Memory, "out of memory"),
];

const CREATE_FAULTS: [(CreateFault, &str); 3] = [
    (
        CreateFault::BadOrder,
        "the order of the tree is not from 1 to 16",
    ),
    (CreateFault::Device, "the store failed"),
    (CreateFault::NotEmpty, "the store is not empty"),
];

#[test]
fn texts_of_values_and_tables(rt: HostRuntime) {
    let alloc = rt.alloc();
    expect_texts(&rt, alloc, &KEY_FAULTS);
    expect_texts(&rt, alloc, &LIMIT_FAULTS);
    expect_texts(&rt, alloc, &RECORD_FAULTS);
    expect_texts(&rt, alloc, &TABLE_FAULTS)
}

#[test]
fn texts_of_the_file(rt: HostRuntime) {
    let alloc = rt.alloc();
    expect_texts(&rt, alloc, &BEGIN_FAULTS);
    expect_texts(&rt, alloc, &PUT_FAULTS);
    expect_texts(&rt, alloc, &CLAIM_FAULTS);
    expect_texts(&rt, alloc, &REMOVE_FAULTS);
    expect_texts(&rt, alloc, &GET_FAULTS);
    expect_texts(&rt, alloc, &SAVEPOINT_FAULTS);
    expect_texts(&rt, alloc, &RELEASE_FAULTS);
    expect_texts(&rt, alloc, &ROLLBACK_TO_FAULTS);
    expect_texts(&rt, alloc, &ABORT_FAULTS);
    expect_texts(&rt, alloc, &RESUME_FAULTS);
    expect_texts(&rt, alloc, &COMMIT_FAULTS);
    expect_texts(&rt, alloc, &ENTRIES_FAULTS);
    expect_texts(&rt, alloc, &KEYS_OF_FAULTS);
    expect_texts(&rt, alloc, &CHANGES_FAULTS);
    expect_texts(&rt, alloc, &KEEP_FAULTS);
    expect_texts(&rt, alloc, &STATUS_FAULTS)
}

#[test]
fn texts_of_scripts(rt: HostRuntime) {
    let alloc = rt.alloc();
    expect_texts(&rt, alloc, &LINE_FAULTS);
    expect_texts(&rt, alloc, &SCRIPT_FAULTS);
    expect_texts(&rt, alloc, &RUN_FAULTS);
    expect_texts(&rt, alloc, &END_FAULTS)
}

#[test]
fn texts_of_pages_and_trees(rt: HostRuntime) {
    let alloc = rt.alloc();
    expect_texts(&rt, alloc, &STORE_FAULTS);
    expect_texts(&rt, alloc, &FETCH_FAULTS);
    expect_texts(&rt, alloc, &WRITE_FAULTS);
    expect_texts(&rt, alloc, &HEADER_FAULTS);
    expect_texts(&rt, alloc, &NODE_FAULTS);
    expect_texts(&rt, alloc, &TREE_FAULTS);
    expect_texts(&rt, alloc, &OPEN_FAULTS);
    expect_texts(&rt, alloc, &CREATE_FAULTS)
}
