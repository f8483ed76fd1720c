ghost use Rattle.std.specs.Prelude.{◌≡◌, ◌≤◌};
ghost use Rattle.rec_types.specs.LimitBounds.{most_records, most_log_records, most_begins};
ghost use Rattle.rec_types.specs.Limits.{limits_of};

use std::marker::Model;
use thiserror::Error;

/// The greatest limit of a file's records.
pub const MOST_RECORDS: u32 = 1_000_000;

/// The greatest limit of a session's log, in records.
pub const MOST_LOG_RECORDS: u32 = 4_000_000;

/// The greatest limit of the transactions that a session begins.
pub const MOST_BEGINS: u32 = 1_000_000;

/// Why numbers are no limits.
#[derive(Clone, Copy, Debug, PartialEq, Eq, Error)]
pub enum LimitFault {
    #[error("the records limit is 1 to 1000000")]
    Records,
    #[error("the log limit is 2 to 4000000")]
    Log,
    #[error("the begins limit is 1 to 1000000")]
    Begins,
}

/// How many records a file holds at most, how long the log of a session grows, and how many
/// transactions it begins.
#[derive(Clone, Copy, Debug)]
pub struct Limits {
    records: u32,
    log_records: u32,
    begins: u32,
}

impl Model for Limits {
    ghost use Rattle.rec_types.specs.LimitBounds.{Bounds, coded_bounds};

    ghost Value = { Bounds };

    ghost coded = { coded_bounds };

    ghost use Rattle.rec_types.specs.LimitFields.{bounds_of, AreLimits, limit_fields_of};

    ghost view = { bounds_of };

    ghost invariant = { AreLimits };

    ghost inverse = { limit_fields_of };
}

impl Limits {
    /// These limits: records 1 to 1,000,000, log records 2 to 4,000,000, transactions begun 1 to
    /// 1,000,000. Faults in this order: Records, Log, Begins.
    pub fn new(records: u32, log_records: u32, begins: u32) -> Result<Limits, LimitFault>
        ensures { result ≡ limits_of records log_records begins }
    {
        if records < 1 || records > MOST_RECORDS {
            return Err(LimitFault::Records);
        }
        if log_records < 2 || log_records > MOST_LOG_RECORDS {
            return Err(LimitFault::Log);
        }
        if begins < 1 || begins > MOST_BEGINS {
            return Err(LimitFault::Begins);
        }
        Ok(Limits {
            records,
            log_records,
            begins,
        })
    }

    /// How many records a file holds at most.
    pub fn records(&self) -> u32
        ensures value { result ≡ self.now.records }
        ensures some { 1 ≤ result }
        ensures most { result ≤ most_records }
    {
        self.records
    }

    /// How many records the log of a session has at most.
    pub fn log_records(&self) -> u32
        ensures value { result ≡ self.now.log_records }
        ensures some { 2 ≤ result }
        ensures most { result ≤ most_log_records }
    {
        self.log_records
    }

    /// How many transactions a session begins at most.
    pub fn begins(&self) -> u32
        ensures value { result ≡ self.now.begins }
        ensures some { 1 ≤ result }
        ensures most { result ≤ most_begins }
    {
        self.begins
    }
}
