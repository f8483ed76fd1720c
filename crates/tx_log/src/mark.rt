ghost use Rattle.std.specs.Prelude.{◌≡◌, ℕ, ◌<◌, ◌≤◌, List, ◌∷◌, length, reverse};
ghost use Rattle.tx_log.specs.Walks.{absent_at};
ghost use Rattle.tx_log.specs.Log.{chain, key_of_record, lsn_of, IsNumbered};
ghost use Rattle.tx_log.specs.Marks.{first_lsn, AreMarked};
ghost use Rattle.tx_log.specs.declared.log_record.LogRecord.{LogRecord};

use crate::records::Records;

/// What is kept beside a record of the log, so that no walk passes over compensations.
#[derive(Clone, Copy, Debug)]
pub struct Mark {
    /// The number of the newest change that isn't taken back, on the way down from the record, and 0 where there is
    /// none. That of a change is its own.
    pub newest: u32,
    /// Whether the record's key is absent by the changes below it.
    pub absent: bool,
}

/// The number of the newest change that isn't taken back, on the way down from the record with the number `from`, and
/// 0 where there is none.
pub fn newest_number(log: &Records, from: u32) -> u32
    requires { from ≤ length log.now.marks }
    ensures { (rs : List LogRecord) → IsNumbered rs → AreMarked rs (reverse log.now.marks)
        → result ≡ first_lsn (chain rs from) }
{
    if from == 0 {
        0
    } else {
        log.mark((from - 1) as usize).newest
    }
}

/// Whether the key of the change with the number is absent by the changes below it.
pub fn is_absent_below(log: &Records, lsn: u32) -> bool
    requires some { 0 < lsn }
    requires within { lsn ≤ length log.now.marks }
    ensures { (rs us : List LogRecord) (n : ℕ) (u : LogRecord) → IsNumbered rs
        → AreMarked rs (reverse log.now.marks) → chain rs n ≡ u ∷ us → lsn_of u ≡ lsn
        → result ≡ absent_at (key_of_record u) us }
{
    log.mark((lsn - 1) as usize).absent
}
