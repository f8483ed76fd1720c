ghost use Rattle.std.specs.Prelude.{◌≡◌, pos};
ghost use Rattle.recfile_c.specs.Outcomes as outcomes;

use btree_delete::{CreateFault, OpenFault};
use rec_types::{KeyFault, LimitFault, TxId};
use record_file::{Cause, Refusal, ToRefusal};

/// The call did what it was asked.
pub const OK: i32 = 0;
/// The handle has no open file.
pub const CLOSED: i32 = 1;
/// A key has at least one byte.
pub const EMPTY_KEY: i32 = 2;
/// A key has at most 16 bytes.
pub const LONG_KEY: i32 = 3;
/// A record has at most 100 bytes.
pub const LONG_RECORD: i32 = 4;
/// As many transactions were begun as may be.
pub const BEGINS_SPENT: i32 = 5;
/// No such open transaction.
pub const NO_SUCH_TX: i32 = 6;
/// The transaction is being rolled back.
pub const ROLLING: i32 = 7;
/// The transaction isn't being rolled back.
pub const NOT_ROLLING: i32 = 8;
/// Another transaction holds the key: `owner`.
pub const HELD: i32 = 9;
/// The log is full.
pub const LOG_FULL: i32 = 10;
/// The device failed.
pub const DEVICE: i32 = 11;
/// A page is damaged: `page`.
pub const DAMAGED: i32 = 12;
/// The file has as many records as it may.
pub const FULL: i32 = 13;
/// The key has no record.
pub const ABSENT: i32 = 14;
/// The transaction has 32 savepoints.
pub const TOO_DEEP: i32 = 15;
/// No such savepoint.
pub const NO_SUCH_SAVE: i32 = 16;
/// A rollback stopped: `undone`, `left`, `cause`, and `page` where that is a damaged one.
pub const STOPPED: i32 = 17;
/// Out of memory.
pub const MEMORY: i32 = 18;
/// The list has no such entry.
pub const NO_SUCH_ENTRY: i32 = 19;
/// The handle is not closed.
pub const NOT_CLOSED: i32 = 20;
/// The records limit is 1 to 1,000,000.
pub const BAD_RECORDS: i32 = 21;
/// The log limit is 2 to 4,000,000.
pub const BAD_LOG: i32 = 22;
/// The begins limit is 1 to 1,000,000.
pub const BAD_BEGINS: i32 = 23;
/// Some transactions have not ended: `left`.
pub const STILL_OPEN: i32 = 24;
/// The file has a length that no record file has.
pub const BAD_LENGTH: i32 = 25;
/// The file is no record file.
pub const BAD_MAGIC: i32 = 26;
/// The file has another version: `page`.
pub const BAD_VERSION: i32 = 27;
/// The order of the tree is not from 1 to 16.
pub const BAD_ORDER: i32 = 28;
/// The file was not closed cleanly.
pub const NOT_CLEAN: i32 = 29;
/// The header is not that of this file.
pub const BAD_HEADER: i32 = 30;
/// The header tells another number of records.
pub const WRONG_COUNT: i32 = 31;
/// The file has more records than the limit.
pub const TOO_MANY_RECORDS: i32 = 32;

/// What a call answered: its status, and what that carries; the rest is 0.
#[repr(C)]
#[derive(Clone, Copy)]
pub struct Outcome {
    /// The status.
    pub status: i32,
    /// The transaction that holds the key.
    pub owner: u32,
    /// The damaged page.
    pub page: u32,
    /// How many changes a stopped rollback took back in this call.
    pub undone: u32,
    /// How many it has left.
    pub left: u32,
    /// Why it stopped: DEVICE, DAMAGED or MEMORY.
    pub cause: i32,
}

impl Outcome {
    /// A status that carries nothing.
    pub(crate) fn just(status: i32) -> Outcome
        ensures { result ≡ record (outcomes.just outcomes.ok) { status = status } }
    {
        Outcome {
            status,
            owner: 0,
            page: 0,
            undone: 0,
            left: 0,
            cause: OK,
        }
    }

    /// Transactions that have not ended.
    pub(crate) fn still_open(count: u32) -> Outcome
        ensures { result ≡ outcomes.still_open_by count }
    {
        Outcome {
            left: count,
            ..Outcome::just(STILL_OPEN)
        }
    }

    // A damaged page.
    fn at_page(page: u32) -> Outcome
        ensures { result ≡ outcomes.at_page page }
    {
        Outcome {
            page,
            ..Outcome::just(DAMAGED)
        }
    }
}

impl From<KeyFault> for Outcome {
    ghost use Rattle.std.specs.Prelude.{◌≡◌};
    ghost use Rattle.recfile_c.specs.Outcomes.{key_outcome};

    ghost from_gives = { λ fault told. told ≡ key_outcome fault };

    /// Bytes that are no key.
    fn from(fault: KeyFault) -> Outcome {
        match fault {
            KeyFault::Empty => Outcome::just(EMPTY_KEY),
            KeyFault::TooLong => Outcome::just(LONG_KEY),
        }
    }
}

impl From<LimitFault> for Outcome {
    ghost use Rattle.std.specs.Prelude.{◌≡◌};
    ghost use Rattle.recfile_c.specs.Outcomes.{limits_outcome};

    ghost from_gives = { λ fault told. told ≡ limits_outcome fault };

    /// Numbers that are no limits.
    fn from(fault: LimitFault) -> Outcome {
        match fault {
            LimitFault::Records => Outcome::just(BAD_RECORDS),
            LimitFault::Log => Outcome::just(BAD_LOG),
            LimitFault::Begins => Outcome::just(BAD_BEGINS),
        }
    }
}

impl From<OpenFault> for Outcome {
    ghost use Rattle.std.specs.Prelude.{◌≡◌};
    ghost use Rattle.recfile_c.specs.Outcomes.{open_outcome};

    ghost from_gives = { λ fault told. told ≡ open_outcome fault };

    /// Why a file was not opened.
    fn from(fault: OpenFault) -> Outcome {
        match fault {
            OpenFault::Device => Outcome::just(DEVICE),
            OpenFault::BadLength => Outcome::just(BAD_LENGTH),
            OpenFault::BadMagic => Outcome::just(BAD_MAGIC),
            OpenFault::BadVersion(version) => Outcome {
                page: u32::from(version),
                ..Outcome::just(BAD_VERSION)
            },
            OpenFault::BadOrder => Outcome::just(BAD_ORDER),
            OpenFault::NotClean => Outcome::just(NOT_CLEAN),
            OpenFault::BadHeader => Outcome::just(BAD_HEADER),
            OpenFault::Damaged(page) => Outcome::at_page(page),
            OpenFault::WrongCount => Outcome::just(WRONG_COUNT),
            OpenFault::TooManyRecords => Outcome::just(TOO_MANY_RECORDS),
            OpenFault::Memory => Outcome::just(MEMORY),
        }
    }
}

impl From<CreateFault> for Outcome {
    ghost use Rattle.std.specs.Prelude.{◌≡◌};
    ghost use Rattle.recfile_c.specs.Outcomes.{create_outcome};

    ghost from_gives = { λ fault told. told ≡ create_outcome fault };

    /// Why no file was made.
    fn from(fault: CreateFault) -> Outcome {
        match fault {
            CreateFault::BadOrder => Outcome::just(BAD_ORDER),
            CreateFault::Device => Outcome::just(DEVICE),
            CreateFault::NotEmpty => Outcome::just(BAD_LENGTH),
        }
    }
}

impl From<Cause> for Outcome {
    ghost use Rattle.std.specs.Prelude.{◌≡◌};
    ghost use Rattle.recfile_c.specs.Outcomes.{cause_outcome};

    ghost from_gives = { λ cause told. told ≡ cause_outcome cause };

    /// Why a device or memory failed.
    #[inline]
    fn from(cause: Cause) -> Outcome {
        match cause {
            Cause::Device => Outcome::just(DEVICE),
            Cause::Damaged(page) => Outcome::at_page(page),
            Cause::Memory => Outcome::just(MEMORY),
        }
    }
}

impl From<Refusal> for Outcome {
    ghost use Rattle.std.specs.Prelude.{◌≡◌};
    ghost use Rattle.recfile_c.specs.Outcomes.{refusal_outcome};

    ghost from_gives = { λ refusal told. told ≡ refusal_outcome refusal };

    /// Why a call did nothing, or how far a rollback came that was stopped, and why it was.
    #[inline]
    fn from(refusal: Refusal) -> Outcome {
        match refusal {
            Refusal::BeginsSpent => Outcome::just(BEGINS_SPENT),
            Refusal::NoSuchTx => Outcome::just(NO_SUCH_TX),
            Refusal::Rolling => Outcome::just(ROLLING),
            Refusal::NotRolling => Outcome::just(NOT_ROLLING),
            Refusal::Held(TxId(owner)) => Outcome {
                owner,
                ..Outcome::just(HELD)
            },
            Refusal::LogFull => Outcome::just(LOG_FULL),
            Refusal::Full => Outcome::just(FULL),
            Refusal::Absent => Outcome::just(ABSENT),
            Refusal::TooDeep => Outcome::just(TOO_DEEP),
            Refusal::NoSuchSave => Outcome::just(NO_SUCH_SAVE),
            Refusal::Failed(cause) => Outcome::from(cause),
            Refusal::Stopped {
                undone,
                left,
                cause,
            } => {
                let why = Outcome::from(cause);
                Outcome {
                    status: STOPPED,
                    undone,
                    left,
                    cause: why.status,
                    ..why
                }
            }
        }
    }
}

impl<A, F: ToRefusal> From<&Result<A, F>> for Outcome {
    ghost use Rattle.std.specs.Prelude.{◌≡◌};
    ghost use Rattle.recfile_c.specs.Outcomes.{outcome_by};

    ghost from_gives = { λ answer told. told ≡ outcome_by F.refusal_of answer.now };

    /// The outcome of a call.
    #[inline]
    fn from(answer: &Result<A, F>) -> Outcome {
        match answer {
            Ok(_) => Outcome::just(OK),
            Err(fault) => Outcome::from(fault.to_refusal()),
        }
    }
}
