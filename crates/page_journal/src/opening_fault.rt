use rec_types::Memory;
use std::io;
use thiserror::Error;

/// Why a disk in files was not opened.
#[derive(Clone, Copy, Debug, PartialEq, Eq, Error)]
pub enum OpeningFault {
    #[error("the system refused a call")]
    Device,
    #[error("the side file isn't one of this file")]
    BadJournal,
    #[error("what has the name of a log of commits is none")]
    BadCommits,
    #[error("out of memory")]
    Memory,
}

impl From<io::Error> for OpeningFault {
    ghost use Rattle.std.specs.Prelude.{◌≡◌};
    ghost use Rattle.page_journal.specs.declared.opening_fault.OpeningFault.TheVariants.{Device};

    ghost from_gives = { λ _ fault. fault ≡ Device };

    fn from(_: io::Error) -> OpeningFault {
        OpeningFault::Device
    }
}

impl From<Memory> for OpeningFault {
    ghost use Rattle.std.specs.Prelude.{◌≡◌};
    ghost use Rattle.page_journal.specs.declared.opening_fault.OpeningFault.TheVariants.{Memory as NoMemory};

    ghost from_gives = { λ _ fault. fault ≡ NoMemory };

    fn from(_: Memory) -> OpeningFault {
        OpeningFault::Memory
    }
}
