ghost use Rattle.std.specs.Prelude.{◌≡◌, true, false};
ghost use Rattle.record_file.specs.Refusals.{look_refusal, change_refusal, put_refusal, claim_refusal, remove_refusal, get_refusal, refusal_by};
ghost use Rattle.record_file.specs.Steps.{key_refusal};

use super::RecordFile;
use crate::fault::{ClaimFault, GetFault, PutFault, RemoveFault};
use rec_types::{Key, Table, TxId};
use tx_log::{ChangeRefusal, LookRefusal};

impl<T: Table> RecordFile<T> {
    /// Whether the file allows a look at the key.
    #[inline(always)]
    pub(super) fn allow_look(&self, tx: TxId, key: &Key) -> Result<(), LookRefusal>
        ensures { refusal_by look_refusal result
            ≡ key_refusal false self.now.file tx.0 key.now }
    {
        self.log.allow_look(tx, key)
    }

    /// Whether the file allows a change at the key.
    #[inline(always)]
    pub(super) fn allow_change(&self, tx: TxId, key: &Key) -> Result<(), ChangeRefusal>
        ensures { refusal_by change_refusal result
            ≡ key_refusal true self.now.file tx.0 key.now }
    {
        self.log.allow_change(tx, key)
    }
}

impl From<LookRefusal> for GetFault {
    ghost from_gives = { λ refusal told. get_refusal told ≡ look_refusal refusal };

    fn from(refusal: LookRefusal) -> GetFault {
        match refusal {
            LookRefusal::NoSuchTx => GetFault::NoSuchTx,
            LookRefusal::Rolling => GetFault::Rolling,
            LookRefusal::Held(owner) => GetFault::Held(owner),
        }
    }
}

impl From<ChangeRefusal> for PutFault {
    ghost from_gives = { λ refusal told. put_refusal told ≡ change_refusal refusal };

    fn from(refusal: ChangeRefusal) -> PutFault {
        match refusal {
            ChangeRefusal::NoSuchTx => PutFault::NoSuchTx,
            ChangeRefusal::Rolling => PutFault::Rolling,
            ChangeRefusal::Held(owner) => PutFault::Held(owner),
            ChangeRefusal::LogFull => PutFault::LogFull,
        }
    }
}

impl From<ChangeRefusal> for ClaimFault {
    ghost from_gives = { λ refusal told. claim_refusal told ≡ change_refusal refusal };

    fn from(refusal: ChangeRefusal) -> ClaimFault {
        match refusal {
            ChangeRefusal::NoSuchTx => ClaimFault::NoSuchTx,
            ChangeRefusal::Rolling => ClaimFault::Rolling,
            ChangeRefusal::Held(owner) => ClaimFault::Held(owner),
            ChangeRefusal::LogFull => ClaimFault::LogFull,
        }
    }
}

impl From<ChangeRefusal> for RemoveFault {
    ghost from_gives = { λ refusal told. remove_refusal told ≡ change_refusal refusal };

    fn from(refusal: ChangeRefusal) -> RemoveFault {
        match refusal {
            ChangeRefusal::NoSuchTx => RemoveFault::NoSuchTx,
            ChangeRefusal::Rolling => RemoveFault::Rolling,
            ChangeRefusal::Held(owner) => RemoveFault::Held(owner),
            ChangeRefusal::LogFull => RemoveFault::LogFull,
        }
    }
}
