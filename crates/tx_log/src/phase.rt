use rec_types::{Key, Record};
use std::alloc::AllocFailed;
use thiserror::Error;

/// Whether an open transaction is active, or is being rolled back.
#[derive(Clone, Copy, Debug, PartialEq, Eq)]
pub enum Phase {
    Active,
    /// A rollback is under way. Where `ends` is set the transaction ends with it.
    Rolling { ends: bool },
}

/// A rollback under way: what it goes back to, and whether the transaction ends with it.
#[derive(Clone, Copy, Debug)]
pub struct Rollback {
    pub to: u32,
    pub ends: bool,
}

/// What a rollback does next to take a change back.
#[derive(Clone, Copy, Debug)]
pub enum UndoStep {
    /// `before` is to be put at the key again.
    Restore { key: Key, before: Option<Record> },
    /// The key was claimed, and its record stays.
    Unclaim { key: Key },
}

/// Why no transaction was begun.
#[derive(Clone, Copy, Debug, PartialEq, Eq, Error)]
pub enum BeginFault {
    #[error("the session has begun as many transactions as it may")]
    BeginsSpent,
    #[error("out of memory")]
    Memory,
}

impl<T: Drop> From<AllocFailed<T>> for BeginFault {
    ghost use Rattle.std.specs.Prelude.{◌≡◌};
    ghost use Rattle.tx_log.specs.declared.phase.BeginFault.TheVariants.{Memory};

    ghost from_gives = { λ _ fault. fault ≡ Memory };

    fn from(_: AllocFailed<T>) -> BeginFault {
        BeginFault::Memory
    }
}
