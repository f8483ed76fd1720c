use rec_types::{Key, TxId};

/// What a log record tells: a change, or that one was taken back and where the undo goes on below it.
#[derive(Clone, Copy, Debug, PartialEq, Eq)]
pub enum Deed {
    Put,
    Del,
    Claim,
    Undo { of: u32, next: u32 },
}

/// A record of the log: `prev` is the number of the one of its transaction before it, and `undone_by` of the one that takes
/// it back; each is 0 where there is none.
#[derive(Clone, Copy, Debug)]
pub struct ChainRecord {
    pub tx: TxId,
    pub prev: u32,
    pub key: Key,
    pub deed: Deed,
    pub undone_by: u32,
}

/// An open transaction: the number of its newest record, and whether a rollback that stopped is to end it.
#[derive(Clone, Copy, Debug)]
pub struct OpenTx {
    pub tx: TxId,
    pub last: u32,
    pub ends: bool,
}

/// The record of that number; they count from 1.
pub fn record_at(records: &[ChainRecord], number: u32) -> Option<&ChainRecord> {
    records.get(number.checked_sub(1)? as usize)
}

/// The number of the newest change that isn't taken back, from the newest record of its transaction on.
pub fn undo_from(records: &[ChainRecord], last: u32) -> Option<u32> {
    let mut number = last;
    for _ in 0..records.len() {
        match record_at(records, number)?.deed {
            Deed::Undo { next, .. } => number = next,
            _ => return Some(number),
        }
    }
    None
}
