ghost use Rattle.std.specs.Prelude.{◌≡◌};
ghost use Rattle.record_file.specs.declared.refusal.Refusal.{Refusal};
ghost use Rattle.record_file.specs.Refusals.{begin_refusal, put_refusal, claim_refusal, remove_refusal, get_refusal, savepoint_refusal, release_refusal, rollback_refusal, abort_refusal, resume_refusal, commit_refusal, committed_refusal, entries_refusal, keys_of_refusal, changes_refusal, status_refusal};

use crate::fault::{
    AbortFault, Cause, ChangesFault, ClaimFault, CommitFault, CommittedFault, EntriesFault,
    GetFault, KeysOfFault, PutFault, ReleaseFault, RemoveFault, ResumeFault, RollbackToFault,
    SavepointFault, StatusFault,
};
use rec_types::TxId;
use thiserror::Error;
use tx_log::BeginFault;

/// Why a call did nothing, or how far a rollback came that was stopped.
#[derive(Clone, Copy, Debug, PartialEq, Eq, Error)]
pub enum Refusal {
    #[error("the session has begun as many transactions as it may")]
    BeginsSpent,
    #[error("no such open transaction")]
    NoSuchTx,
    #[error("the transaction is being rolled back")]
    Rolling,
    #[error("the transaction isn't being rolled back")]
    NotRolling,
    #[error("the key is held by another transaction")]
    Held(TxId),
    #[error("the log is full")]
    LogFull,
    #[error("the file has as many records as it may")]
    Full,
    #[error("the key has no record")]
    Absent,
    #[error("the transaction has 32 savepoints")]
    TooDeep,
    #[error("no such savepoint")]
    NoSuchSave,
    #[error("{0}")]
    Failed(Cause),
    #[error("stopped after {undone} changes, {left} are left")]
    Stopped {
        undone: u32,
        left: u32,
        cause: Cause,
    },
}

/// The fault of a call.
pub trait ToRefusal: Copy {
    ghost refusal_of: { Self → Refusal };

    /// The refusal that it is.
    fn to_refusal(self) -> Refusal
        ensures { result ≡ refusal_of self };
}

impl ToRefusal for BeginFault {
    ghost refusal_of = { begin_refusal };

    #[inline]
    fn to_refusal(self) -> Refusal {
        match self {
            BeginFault::BeginsSpent => Refusal::BeginsSpent,
            BeginFault::Memory => Refusal::Failed(Cause::Memory),
        }
    }
}

impl ToRefusal for PutFault {
    ghost refusal_of = { put_refusal };

    #[inline]
    fn to_refusal(self) -> Refusal {
        match self {
            PutFault::NoSuchTx => Refusal::NoSuchTx,
            PutFault::Rolling => Refusal::Rolling,
            PutFault::Held(owner) => Refusal::Held(owner),
            PutFault::LogFull => Refusal::LogFull,
            PutFault::Device => Refusal::Failed(Cause::Device),
            PutFault::Damaged(page) => Refusal::Failed(Cause::Damaged(page)),
            PutFault::Full => Refusal::Full,
            PutFault::Memory => Refusal::Failed(Cause::Memory),
        }
    }
}

impl ToRefusal for ClaimFault {
    ghost refusal_of = { claim_refusal };

    #[inline]
    fn to_refusal(self) -> Refusal {
        match self {
            ClaimFault::NoSuchTx => Refusal::NoSuchTx,
            ClaimFault::Rolling => Refusal::Rolling,
            ClaimFault::Held(owner) => Refusal::Held(owner),
            ClaimFault::LogFull => Refusal::LogFull,
            ClaimFault::Device => Refusal::Failed(Cause::Device),
            ClaimFault::Damaged(page) => Refusal::Failed(Cause::Damaged(page)),
            ClaimFault::Full => Refusal::Full,
            ClaimFault::Memory => Refusal::Failed(Cause::Memory),
        }
    }
}

impl ToRefusal for RemoveFault {
    ghost refusal_of = { remove_refusal };

    #[inline]
    fn to_refusal(self) -> Refusal {
        match self {
            RemoveFault::NoSuchTx => Refusal::NoSuchTx,
            RemoveFault::Rolling => Refusal::Rolling,
            RemoveFault::Held(owner) => Refusal::Held(owner),
            RemoveFault::LogFull => Refusal::LogFull,
            RemoveFault::Device => Refusal::Failed(Cause::Device),
            RemoveFault::Damaged(page) => Refusal::Failed(Cause::Damaged(page)),
            RemoveFault::Absent => Refusal::Absent,
            RemoveFault::Memory => Refusal::Failed(Cause::Memory),
        }
    }
}

impl ToRefusal for GetFault {
    ghost refusal_of = { get_refusal };

    #[inline]
    fn to_refusal(self) -> Refusal {
        match self {
            GetFault::NoSuchTx => Refusal::NoSuchTx,
            GetFault::Rolling => Refusal::Rolling,
            GetFault::Held(owner) => Refusal::Held(owner),
            GetFault::Device => Refusal::Failed(Cause::Device),
            GetFault::Damaged(page) => Refusal::Failed(Cause::Damaged(page)),
        }
    }
}

impl ToRefusal for SavepointFault {
    ghost refusal_of = { savepoint_refusal };

    #[inline]
    fn to_refusal(self) -> Refusal {
        match self {
            SavepointFault::NoSuchTx => Refusal::NoSuchTx,
            SavepointFault::Rolling => Refusal::Rolling,
            SavepointFault::TooDeep => Refusal::TooDeep,
        }
    }
}

impl ToRefusal for ReleaseFault {
    ghost refusal_of = { release_refusal };

    #[inline]
    fn to_refusal(self) -> Refusal {
        match self {
            ReleaseFault::NoSuchTx => Refusal::NoSuchTx,
            ReleaseFault::Rolling => Refusal::Rolling,
            ReleaseFault::NoSuchSave => Refusal::NoSuchSave,
        }
    }
}

impl ToRefusal for RollbackToFault {
    ghost refusal_of = { rollback_refusal };

    #[inline]
    fn to_refusal(self) -> Refusal {
        match self {
            RollbackToFault::NoSuchTx => Refusal::NoSuchTx,
            RollbackToFault::Rolling => Refusal::Rolling,
            RollbackToFault::NoSuchSave => Refusal::NoSuchSave,
            RollbackToFault::Stopped {
                undone,
                left,
                cause,
            } => Refusal::Stopped {
                undone,
                left,
                cause,
            },
        }
    }
}

impl ToRefusal for AbortFault {
    ghost refusal_of = { abort_refusal };

    #[inline]
    fn to_refusal(self) -> Refusal {
        match self {
            AbortFault::NoSuchTx => Refusal::NoSuchTx,
            AbortFault::Rolling => Refusal::Rolling,
            AbortFault::Stopped {
                undone,
                left,
                cause,
            } => Refusal::Stopped {
                undone,
                left,
                cause,
            },
        }
    }
}

impl ToRefusal for ResumeFault {
    ghost refusal_of = { resume_refusal };

    #[inline]
    fn to_refusal(self) -> Refusal {
        match self {
            ResumeFault::NoSuchTx => Refusal::NoSuchTx,
            ResumeFault::NotRolling => Refusal::NotRolling,
            ResumeFault::Stopped {
                undone,
                left,
                cause,
            } => Refusal::Stopped {
                undone,
                left,
                cause,
            },
        }
    }
}

impl ToRefusal for CommitFault {
    ghost refusal_of = { commit_refusal };

    #[inline]
    fn to_refusal(self) -> Refusal {
        match self {
            CommitFault::NoSuchTx => Refusal::NoSuchTx,
            CommitFault::Rolling => Refusal::Rolling,
        }
    }
}

impl ToRefusal for CommittedFault {
    ghost refusal_of = { committed_refusal };

    #[inline]
    fn to_refusal(self) -> Refusal {
        match self {
            CommittedFault::Device => Refusal::Failed(Cause::Device),
            CommittedFault::Damaged(page) => Refusal::Failed(Cause::Damaged(page)),
        }
    }
}

impl ToRefusal for EntriesFault {
    ghost refusal_of = { entries_refusal };

    #[inline]
    fn to_refusal(self) -> Refusal {
        match self {
            EntriesFault::Device => Refusal::Failed(Cause::Device),
            EntriesFault::Damaged(page) => Refusal::Failed(Cause::Damaged(page)),
            EntriesFault::Memory => Refusal::Failed(Cause::Memory),
        }
    }
}

impl ToRefusal for KeysOfFault {
    ghost refusal_of = { keys_of_refusal };

    #[inline]
    fn to_refusal(self) -> Refusal {
        match self {
            KeysOfFault::NoSuchTx => Refusal::NoSuchTx,
            KeysOfFault::Memory => Refusal::Failed(Cause::Memory),
        }
    }
}

impl ToRefusal for ChangesFault {
    ghost refusal_of = { changes_refusal };

    #[inline]
    fn to_refusal(self) -> Refusal {
        match self {
            ChangesFault::NoSuchTx => Refusal::NoSuchTx,
            ChangesFault::Rolling => Refusal::Rolling,
            ChangesFault::Memory => Refusal::Failed(Cause::Memory),
        }
    }
}

impl ToRefusal for StatusFault {
    ghost refusal_of = { status_refusal };

    #[inline]
    fn to_refusal(self) -> Refusal {
        match self {
            StatusFault::NoSuchTx => Refusal::NoSuchTx,
        }
    }
}
