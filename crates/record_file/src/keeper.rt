ghost use Rattle.std.specs.Prelude.{◌≡◌, ℕ, Bool, List, Option, Result};
ghost use Rattle.record_file.specs.TableCalls.{SameTable};
ghost use Rattle.record_file.specs.declared.keeper.KeeperFault.{KeeperFault};
ghost use Rattle.record_file.specs.Durable.{unasked};

use crate::fault::{ChangesFault, CommitFault};
use rec_types::{Key, Record, Table};
use thiserror::Error;

/// Why a keeper didn't keep the writes of a commit.
#[derive(Clone, Copy, Debug, PartialEq, Eq, Error)]
pub enum KeeperFault {
    /// None of them was written: they are found after no stop, and a later commit may be kept.
    #[error("there is no room to keep the commit")]
    Room,
    /// Nor was there memory for what is kept of it.
    #[error("out of memory")]
    Memory,
    /// It isn't known whether they were written: they may be found after a stop, all or none of them. Until the keeper
    /// has ended the doubt, it keeps no other commit.
    #[error("it isn't known whether the commit is kept")]
    Doubt,
}

/// Why a transaction wasn't committed. The file and what was kept are as they were: an active transaction stays so,
/// and can be rolled back, or committed by another try.
#[derive(Clone, Copy, Debug, PartialEq, Eq, Error)]
pub enum KeepFault {
    /// What any commit of it is refused for. The keeper wasn't asked.
    #[error("{0}")]
    Refused(CommitFault),
    /// There was no memory for the list of its writes. The keeper wasn't asked.
    #[error("out of memory")]
    Memory,
    /// What the keeper answered. After a doubt a stop may yet find the transaction committed.
    #[error("{0}")]
    Unkept(KeeperFault),
}

/// What keeps the writes of commits beside a table before the commits are answered, or keeps none. What a stop leaves of them no
/// clause here says; a keeper's `answers` may.
pub trait Keeper<T: Table> {
    /// Whether it keeps any.
    ghost keeps: { Bool };

    /// Asked to keep these writes beside the table, it may answer so, and this is then the table.
    ghost answers: { Self → T → List (List ℕ × Option (List ℕ))
        → Result (Unit {0}) KeeperFault → T → Type 0 };

    /// What it may change of what a table tells of what it was made of.
    ghost moves: { T → T → Type 0 };

    /// Whether it keeps any.
    fn keeps(&self) -> bool
        ensures { result ≡ keeps };

    /// Keeps the writes of a commit beside the table, all of them or none. Faults: Room, Memory, or Doubt, at which they don't count
    /// as kept.
    fn keep(&mut self, table: &mut T, writes: &[(Key, Option<Record>)]) -> Result<(), KeeperFault>
        ensures same { SameTable T.TableState table.old table.new }
        ensures answer { answers self.old table.old writes.now result table.new }
        ensures moves { moves table.old table.new };

    /// A call of the table doesn't go beyond that.
    ghost moves_none: { (a b : T) → T.origin b ≡ T.origin a → moves a b };

    /// Nor do several calls of it.
    ghost moves_on: { (a b c : T) → moves a b → moves b c → moves a c };
}

/// Keeps nothing: the commits of a file without a log.
#[derive(Clone, Copy, Debug)]
pub struct Unlogged;

impl<T: Table> Keeper<T> for Unlogged {
    ghost use Rattle.std.specs.Prelude.{◌≡◌, false};
    ghost use mathlib.Core.Path.{◌∙◌};

    ghost keeps = { false };

    ghost answers = { λ _ old _ _ new. new ≡ old };

    ghost moves = { λ a b. T.origin b ≡ T.origin a };

    ghost moves_none = { λ a b same. same };

    ghost moves_on = { λ a b c first second. second ∙ first };

    fn keeps(&self) -> bool {
        false
    }

    fn keep(
        &mut self,
        _table: &mut T,
        _writes: &[(Key, Option<Record>)],
    ) -> Result<(), KeeperFault> {
        Ok(())
    }
}

impl From<ChangesFault> for KeepFault {
    ghost from_gives = { λ fault told. told ≡ unasked fault };

    fn from(fault: ChangesFault) -> KeepFault {
        match fault {
            ChangesFault::NoSuchTx => KeepFault::Refused(CommitFault::NoSuchTx),
            ChangesFault::Rolling => KeepFault::Refused(CommitFault::Rolling),
            ChangesFault::Memory => KeepFault::Memory,
        }
    }
}

impl From<CommitFault> for KeepFault {
    ghost use Rattle.record_file.specs.declared.keeper.KeepFault.TheVariants as faults;

    ghost from_gives = { λ fault told. told ≡ faults.Refused fault };

    fn from(fault: CommitFault) -> KeepFault {
        KeepFault::Refused(fault)
    }
}

impl From<KeeperFault> for KeepFault {
    ghost use Rattle.record_file.specs.declared.keeper.KeepFault.TheVariants as faults;

    ghost from_gives = { λ fault told. told ≡ faults.Unkept fault };

    fn from(fault: KeeperFault) -> KeepFault {
        KeepFault::Unkept(fault)
    }
}
