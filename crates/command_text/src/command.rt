use rec_types::{Key, Record, TxId};
use thiserror::Error;

/// A call that a script line asks for, by the word of the language, with the call's arguments.
#[derive(Clone, Copy, Debug)]
pub enum Command {
    Begin,
    Put(TxId, Key, Record),
    Claim(TxId, Key),
    Del(TxId, Key),
    Get(TxId, Key),
    Save(TxId),
    Release(TxId, u32),
    Back(TxId, u32),
    Resume(TxId),
    Abort(TxId),
    Commit(TxId),
    List,
    From(Key, u32),
    Upto(Key, u32),
    Committed(Key),
    Keys(TxId),
    Log,
}

/// Why a line says no command, in the order of the checks: its length, where lines have a bound; its first word, the
/// number of its words, and then its arguments from left to right.
#[derive(Clone, Copy, Debug, PartialEq, Eq, Error)]
pub enum LineFault {
    #[error("LineTooLong")]
    LineTooLong,
    #[error("UnknownCommand")]
    UnknownCommand,
    #[error("WordCount")]
    WordCount,
    #[error("BadNumber")]
    BadNumber,
    #[error("KeyTooLong")]
    KeyTooLong,
    #[error("NoRecordMark")]
    NoRecordMark,
    #[error("RecordTooLong")]
    RecordTooLong,
}
