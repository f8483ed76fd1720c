use crate::chain::{ChainRecord, Deed, OpenTx, undo_from};
use crate::watch::Watch;
use rec_types::TxId;
use std::io;
use std::io::Write;

// The most transactions that are drawn, and the most records of each: the newest.
const MOST_CHAINS: u32 = 12;

const MOST_RECORDS: usize = 24;

// What a record says, behind its number and that of the one before it.
fn draw_deed<E: Write>(record: &ChainRecord, err: &mut E) -> io::Result<()> {
    let key = record.key;
    match record.deed {
        Deed::Put => write!(err, "put {key}")?,
        Deed::Del => write!(err, "del {key}")?,
        Deed::Claim => write!(err, "claim {key}")?,
        Deed::Undo { of, next: 0 } => write!(err, "takes back {of}, the first")?,
        Deed::Undo { of, next } => write!(err, "takes back {of}, undo goes on at {next}")?,
    }
    match record.undone_by {
        0 => writeln!(err),
        by => writeln!(err, ", taken back by {by}"),
    }
}

fn draw_record<E: Write>(number: usize, record: &ChainRecord, err: &mut E) -> io::Result<()> {
    match record.prev {
        0 => write!(err, "{number:>6}            ")?,
        prev => write!(err, "{number:>6} -> {prev:<8}")?,
    }
    draw_deed(record, err)
}

// What a transaction is, before its records.
fn draw_head<E: Write>(
    records: &[ChainRecord],
    tx: TxId,
    open: Option<&OpenTx>,
    err: &mut E,
) -> io::Result<()> {
    let number = tx.0;
    let Some(open) = open else {
        return writeln!(err, "transaction {number}, ended");
    };
    match undo_from(records, open.last) {
        Some(from) => writeln!(err, "transaction {number}, open: undo begins at {from}"),
        None => writeln!(err, "transaction {number}, open: nothing to take back"),
    }
}

// The chain of a transaction, its newest records.
fn draw_chain<E: Write>(watch: &Watch, tx: TxId, err: &mut E) -> io::Result<()> {
    let records = watch.records();
    let open = watch.open().iter().find(|open| open.tx == tx);
    let count = records.iter().filter(|record| record.tx == tx).count();
    if open.is_none() && count == 0 {
        return Ok(());
    }
    draw_head(records, tx, open, err)?;
    let left_out = count.saturating_sub(MOST_RECORDS);
    if left_out > 0 {
        writeln!(err, "{left_out:>6} records before")?;
    }
    let mut passed = 0_usize;
    for (index, record) in records.iter().enumerate() {
        if record.tx != tx {
            continue;
        }
        passed = passed.saturating_add(1);
        if passed > left_out {
            draw_record(index.saturating_add(1), record, err)?;
        }
    }
    Ok(())
}

/// Draws the chains of the log: of each transaction its records, each with the one before it, which were taken back, and
/// where its undo goes on. Of many transactions and of long chains it draws the newest.
pub fn draw_chains<E: Write>(watch: &Watch, err: &mut E) -> io::Result<()> {
    if !watch.is_known() {
        return writeln!(err, "the log isn't known");
    }
    let first = watch.begun().saturating_sub(MOST_CHAINS);
    for number in first..watch.begun() {
        draw_chain(watch, TxId(number.saturating_add(1)), err)?;
    }
    Ok(())
}
