use rec_types::{Key, Record, TxId};

/// A record of the log. Its number counts from 1 along the log. `prev` is the number of the record of the same
/// transaction before it, and 0 where there is none.
#[derive(Clone, Copy, Debug, PartialEq, Eq)]
pub enum LogRecord {
    /// A transaction wrote `after` at the key, where `before` stood.
    Update {
        lsn: u32,
        prev: u32,
        tx: TxId,
        key: Key,
        before: Option<Record>,
        after: Option<Record>,
    },
    /// The update whose `prev` is `undo_next` was taken back, so that `restored` stands at the key again.
    Compensation {
        lsn: u32,
        prev: u32,
        tx: TxId,
        key: Key,
        restored: Option<Record>,
        undo_next: u32,
    },
    /// A transaction claimed the key, where `seen` stands, and left it there.
    Claim {
        lsn: u32,
        prev: u32,
        tx: TxId,
        key: Key,
        seen: Option<Record>,
    },
    /// The claim whose `prev` is `undo_next` was taken back.
    Unclaim {
        lsn: u32,
        prev: u32,
        tx: TxId,
        key: Key,
        undo_next: u32,
    },
}
