use page_store::StoreFault;
use thiserror::Error;

/// Why a recovery stopped.
#[derive(Clone, Copy, Debug, PartialEq, Eq, Error)]
pub enum RecoveryFault {
    #[error("the store failed")]
    Device,
    #[error("the side file is of a longer file")]
    BadJournal,
}

impl From<StoreFault> for RecoveryFault {
    ghost use Rattle.std.specs.Prelude.{◌≡◌};
    ghost use Rattle.page_journal.specs.declared.recovery_fault.RecoveryFault.TheVariants.{Device};

    ghost from_gives = { λ _ fault. fault ≡ Device };

    fn from(_: StoreFault) -> RecoveryFault {
        RecoveryFault::Device
    }
}
