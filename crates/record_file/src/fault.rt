ghost use Rattle.std.specs.Prelude.{◌≡◌};
ghost use Rattle.record_file.specs.Outside.{cause_of, look_cause};
ghost use Rattle.record_file.specs.Refusals.{put_refusal, claim_refusal, remove_refusal, get_refusal, committed_refusal, entries_refusal};
ghost use Rattle.record_file.specs.declared.refusal.Refusal.TheVariants.{Failed};

use crate::refusal::ToRefusal;
use rec_types::{Memory, TableFault, TxId};
use thiserror::Error;

/// Why a table ended a call: a device failed, a page is damaged, or a growth was refused.
#[derive(Clone, Copy, Debug, PartialEq, Eq, Error)]
pub enum Cause {
    #[error("the device failed")]
    Device,
    #[error("page {0} is damaged")]
    Damaged(u32),
    #[error("out of memory")]
    Memory,
}

/// How far a rollback came in one call, and why it stopped.
#[derive(Clone, Copy)]
pub struct Stop {
    pub undone: u32,
    pub left: u32,
    pub cause: Cause,
}

/// Why no record was put.
#[derive(Clone, Copy, Debug, PartialEq, Eq, Error)]
#[error("{}", self.to_refusal())]
pub enum PutFault {
    NoSuchTx,
    Rolling,
    Held(TxId),
    LogFull,
    Device,
    Damaged(u32),
    Full,
    Memory,
}

/// Why no key was claimed.
#[derive(Clone, Copy, Debug, PartialEq, Eq, Error)]
#[error("{}", self.to_refusal())]
pub enum ClaimFault {
    NoSuchTx,
    Rolling,
    Held(TxId),
    LogFull,
    Device,
    Damaged(u32),
    Full,
    Memory,
}

/// Why no record was removed.
#[derive(Clone, Copy, Debug, PartialEq, Eq, Error)]
#[error("{}", self.to_refusal())]
pub enum RemoveFault {
    NoSuchTx,
    Rolling,
    Held(TxId),
    LogFull,
    Device,
    Damaged(u32),
    Absent,
    Memory,
}

/// Why no record was read.
#[derive(Clone, Copy, Debug, PartialEq, Eq, Error)]
#[error("{}", self.to_refusal())]
pub enum GetFault {
    NoSuchTx,
    Rolling,
    Held(TxId),
    Device,
    Damaged(u32),
}

/// Why no savepoint was set.
#[derive(Clone, Copy, Debug, PartialEq, Eq, Error)]
#[error("{}", self.to_refusal())]
pub enum SavepointFault {
    NoSuchTx,
    Rolling,
    TooDeep,
}

/// Why no savepoint was dropped.
#[derive(Clone, Copy, Debug, PartialEq, Eq, Error)]
#[error("{}", self.to_refusal())]
pub enum ReleaseFault {
    NoSuchTx,
    Rolling,
    NoSuchSave,
}

/// Why a rollback wasn't finished. A stopped one has taken back `undone` changes in this call, newest first,
/// and has `left` still to take back.
#[derive(Clone, Copy, Debug, PartialEq, Eq, Error)]
#[error("{}", self.to_refusal())]
pub enum RollbackToFault {
    NoSuchTx,
    Rolling,
    NoSuchSave,
    Stopped {
        undone: u32,
        left: u32,
        cause: Cause,
    },
}

/// Why a transaction wasn't aborted.
#[derive(Clone, Copy, Debug, PartialEq, Eq, Error)]
#[error("{}", self.to_refusal())]
pub enum AbortFault {
    NoSuchTx,
    Rolling,
    Stopped {
        undone: u32,
        left: u32,
        cause: Cause,
    },
}

/// Why a rollback under way wasn't finished.
#[derive(Clone, Copy, Debug, PartialEq, Eq, Error)]
#[error("{}", self.to_refusal())]
pub enum ResumeFault {
    NoSuchTx,
    NotRolling,
    Stopped {
        undone: u32,
        left: u32,
        cause: Cause,
    },
}

/// Why a transaction wasn't committed.
#[derive(Clone, Copy, Debug, PartialEq, Eq, Error)]
#[error("{}", self.to_refusal())]
pub enum CommitFault {
    NoSuchTx,
    Rolling,
}

/// Why the committed record wasn't told.
#[derive(Clone, Copy, Debug, PartialEq, Eq, Error)]
#[error("{}", self.to_refusal())]
pub enum CommittedFault {
    Device,
    Damaged(u32),
}

/// Why the records weren't listed.
#[derive(Clone, Copy, Debug, PartialEq, Eq, Error)]
#[error("{}", self.to_refusal())]
pub enum EntriesFault {
    Device,
    Damaged(u32),
    Memory,
}

/// Why the keys of a transaction weren't listed.
#[derive(Clone, Copy, Debug, PartialEq, Eq, Error)]
#[error("{}", self.to_refusal())]
pub enum KeysOfFault {
    NoSuchTx,
    Memory,
}

/// Why what a transaction writes wasn't told.
#[derive(Clone, Copy, Debug, PartialEq, Eq, Error)]
#[error("{}", self.to_refusal())]
pub enum ChangesFault {
    NoSuchTx,
    Rolling,
    Memory,
}

/// Why there is no status.
#[derive(Clone, Copy, Debug, PartialEq, Eq, Error)]
#[error("{}", self.to_refusal())]
pub enum StatusFault {
    NoSuchTx,
}

/// What an open transaction is doing: how many savepoints and live changes it has, or how many changes its
/// rollback is still to take back and whether it ends with it.
#[derive(Clone, Copy, Debug, PartialEq, Eq)]
pub enum Status {
    Active { saves: u32, live: u32 },
    Rolling { left: u32, ends: bool },
}

impl From<TableFault> for Cause {
    ghost from_gives = { λ fault cause. cause ≡ cause_of fault };

    // A table that has no room for what it held before, or where a put isn't full, isn't sound.
    fn from(fault: TableFault) -> Cause {
        match fault {
            TableFault::Device => Cause::Device,
            TableFault::Damaged(page) => Cause::Damaged(page),
            TableFault::NoRoom => Cause::Damaged(0),
            TableFault::Memory => Cause::Memory,
        }
    }
}

impl From<TableFault> for PutFault {
    ghost from_gives = { λ fault told. put_refusal told ≡ Failed (cause_of fault) };

    fn from(fault: TableFault) -> PutFault {
        match Cause::from(fault) {
            Cause::Device => PutFault::Device,
            Cause::Damaged(page) => PutFault::Damaged(page),
            Cause::Memory => PutFault::Memory,
        }
    }
}

impl From<TableFault> for ClaimFault {
    ghost from_gives = { λ fault told. claim_refusal told ≡ Failed (cause_of fault) };

    fn from(fault: TableFault) -> ClaimFault {
        match Cause::from(fault) {
            Cause::Device => ClaimFault::Device,
            Cause::Damaged(page) => ClaimFault::Damaged(page),
            Cause::Memory => ClaimFault::Memory,
        }
    }
}

impl From<TableFault> for RemoveFault {
    ghost from_gives = { λ fault told. remove_refusal told ≡ Failed (cause_of fault) };

    fn from(fault: TableFault) -> RemoveFault {
        match Cause::from(fault) {
            Cause::Device => RemoveFault::Device,
            Cause::Damaged(page) => RemoveFault::Damaged(page),
            Cause::Memory => RemoveFault::Memory,
        }
    }
}

impl From<TableFault> for EntriesFault {
    ghost from_gives = { λ fault told. entries_refusal told ≡ Failed (cause_of fault) };

    fn from(fault: TableFault) -> EntriesFault {
        match Cause::from(fault) {
            Cause::Device => EntriesFault::Device,
            Cause::Damaged(page) => EntriesFault::Damaged(page),
            Cause::Memory => EntriesFault::Memory,
        }
    }
}

impl From<TableFault> for CommittedFault {
    ghost from_gives = { λ fault told. committed_refusal told ≡ Failed (look_cause fault) };

    // A look wants neither room nor memory.
    fn from(fault: TableFault) -> CommittedFault {
        match fault {
            TableFault::Damaged(page) => CommittedFault::Damaged(page),
            TableFault::Device | TableFault::NoRoom | TableFault::Memory => CommittedFault::Device,
        }
    }
}

impl From<TableFault> for GetFault {
    ghost from_gives = { λ fault told. get_refusal told ≡ Failed (look_cause fault) };

    // A look wants neither room nor memory.
    fn from(fault: TableFault) -> GetFault {
        match fault {
            TableFault::Damaged(page) => GetFault::Damaged(page),
            TableFault::Device | TableFault::NoRoom | TableFault::Memory => GetFault::Device,
        }
    }
}

impl From<Memory> for PutFault {
    ghost use Rattle.record_file.specs.declared.fault.PutFault.TheVariants as faults;

    ghost from_gives = { λ _ told. told ≡ faults.Memory };

    fn from(_memory: Memory) -> PutFault {
        PutFault::Memory
    }
}

impl From<Memory> for ClaimFault {
    ghost use Rattle.record_file.specs.declared.fault.ClaimFault.TheVariants as faults;

    ghost from_gives = { λ _ told. told ≡ faults.Memory };

    fn from(_memory: Memory) -> ClaimFault {
        ClaimFault::Memory
    }
}

impl From<Memory> for RemoveFault {
    ghost use Rattle.record_file.specs.declared.fault.RemoveFault.TheVariants as faults;

    ghost from_gives = { λ _ told. told ≡ faults.Memory };

    fn from(_memory: Memory) -> RemoveFault {
        RemoveFault::Memory
    }
}

impl From<Memory> for EntriesFault {
    ghost use Rattle.record_file.specs.declared.fault.EntriesFault.TheVariants as faults;

    ghost from_gives = { λ _ told. told ≡ faults.Memory };

    fn from(_memory: Memory) -> EntriesFault {
        EntriesFault::Memory
    }
}

impl From<Memory> for ChangesFault {
    ghost use Rattle.record_file.specs.declared.fault.ChangesFault.TheVariants as faults;

    ghost from_gives = { λ _ told. told ≡ faults.Memory };

    fn from(_memory: Memory) -> ChangesFault {
        ChangesFault::Memory
    }
}

impl From<Memory> for KeysOfFault {
    ghost use Rattle.record_file.specs.declared.fault.KeysOfFault.TheVariants as faults;

    ghost from_gives = { λ _ told. told ≡ faults.Memory };

    fn from(_memory: Memory) -> KeysOfFault {
        KeysOfFault::Memory
    }
}

impl From<Stop> for RollbackToFault {
    ghost use Rattle.record_file.specs.declared.fault.RollbackToFault.TheVariants as faults;

    ghost from_gives = { λ stop told.
        told ≡ faults.Stopped stop.undone stop.left stop.cause };

    fn from(stop: Stop) -> RollbackToFault {
        RollbackToFault::Stopped {
            undone: stop.undone,
            left: stop.left,
            cause: stop.cause,
        }
    }
}

impl From<Stop> for AbortFault {
    ghost use Rattle.record_file.specs.declared.fault.AbortFault.TheVariants as faults;

    ghost from_gives = { λ stop told.
        told ≡ faults.Stopped stop.undone stop.left stop.cause };

    fn from(stop: Stop) -> AbortFault {
        AbortFault::Stopped {
            undone: stop.undone,
            left: stop.left,
            cause: stop.cause,
        }
    }
}

impl From<Stop> for ResumeFault {
    ghost use Rattle.record_file.specs.declared.fault.ResumeFault.TheVariants as faults;

    ghost from_gives = { λ stop told.
        told ≡ faults.Stopped stop.undone stop.left stop.cause };

    fn from(stop: Stop) -> ResumeFault {
        ResumeFault::Stopped {
            undone: stop.undone,
            left: stop.left,
            cause: stop.cause,
        }
    }
}
