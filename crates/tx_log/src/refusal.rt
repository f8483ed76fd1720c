ghost use Rattle.std.specs.Prelude.{◌≡◌, option_map};
ghost use Rattle.tx_log.specs.LogRefusals.{as_change_refusal, look_refusal_in, change_refusal_in, unless_refused};
ghost use Rattle.tx_log.specs.LogState.{open_in, history_in};
ghost use Rattle.tx_log.specs.Owners.{holder_of};

use crate::{Phase, TxLog};
use rec_types::{Key, TxId};
use thiserror::Error;

/// Why a transaction may not look at a key. Inside `Held`, the one that owns it.
#[derive(Clone, Copy, Debug, PartialEq, Eq, Error)]
pub enum LookRefusal {
    #[error("no such open transaction")]
    NoSuchTx,
    #[error("the transaction is being rolled back")]
    Rolling,
    #[error("the key is held by another transaction")]
    Held(TxId),
}

/// Why a transaction may not change a key. Inside `Held`, the one that owns it.
#[derive(Clone, Copy, Debug, PartialEq, Eq, Error)]
pub enum ChangeRefusal {
    #[error("no such open transaction")]
    NoSuchTx,
    #[error("the transaction is being rolled back")]
    Rolling,
    #[error("the key is held by another transaction")]
    Held(TxId),
    #[error("the log is full")]
    LogFull,
}

impl TxLog {
    /// Whether a look at the key is allowed: the transaction is active, and no other owns the key. Faults: NoSuchTx, Rolling,
    /// Held. It takes no memory.
    #[inline(always)]
    pub fn allow_look(&self, tx: TxId, key: &Key) -> Result<(), LookRefusal>
        ensures { result ≡ unless_refused (look_refusal_in self.now tx.0 key.now) }
    {
        match self.phase(tx) {
            None => Err(LookRefusal::NoSuchTx),
            Some(Phase::Rolling { .. }) => Err(LookRefusal::Rolling),
            Some(Phase::Active) => match self.holder(tx, key) {
                Some(owner) => Err(LookRefusal::Held(owner)),
                None => Ok(()),
            },
        }
    }

    /// Whether a change at the key is allowed: a look at it is, and the log has room for the change and for taking it back.
    /// Faults: NoSuchTx, Rolling, Held, LogFull. It takes no memory.
    #[inline(always)]
    pub fn allow_change(&self, tx: TxId, key: &Key) -> Result<(), ChangeRefusal>
        ensures { result ≡ unless_refused (change_refusal_in self.now tx.0 key.now) }
    {
        self.allow_look(tx, key)?;
        if !self.can_accept() {
            return Err(ChangeRefusal::LogFull);
        }
        Ok(())
    }

    // The transaction that owns the key, where it is another.
    fn holder(&self, tx: TxId, key: &Key) -> Option<TxId>
        ensures { option_map (λ t. t.0) result
            ≡ holder_of (open_in self.now) (history_in self.now) tx.0 key.now }
    {
        match self.owner(key) {
            Some(owner) if owner != tx => Some(owner),
            _ => None,
        }
    }
}

impl From<LookRefusal> for ChangeRefusal {
    ghost from_gives = { λ refusal told. told ≡ as_change_refusal refusal };

    fn from(refusal: LookRefusal) -> ChangeRefusal {
        match refusal {
            LookRefusal::NoSuchTx => ChangeRefusal::NoSuchTx,
            LookRefusal::Rolling => ChangeRefusal::Rolling,
            LookRefusal::Held(owner) => ChangeRefusal::Held(owner),
        }
    }
}
