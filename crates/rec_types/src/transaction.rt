use crate::{Key, Record};

/// The number of a transaction. Numbers count from 1.
#[derive(Clone, Copy, Debug, PartialEq, Eq, PartialOrd, Ord, Hash)]
pub struct TxId(pub u32);

/// A record at its key, with the open transaction that owns the key, if there is one.
#[derive(Clone, Copy, Debug)]
pub struct Entry {
    pub key: Key,
    pub value: Record,
    pub owner: Option<TxId>,
}
