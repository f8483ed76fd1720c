use crate::overlaying::OverlayFault;
use btree_delete::{CreateFault, OpenFault};
use page_journal::{OpeningFault, RecoveryFault};
use page_store::{StoreFault, WriteFault};
use rec_types::TableFault;
use std::io;
use thiserror::Error;

/// Why a page file was not made, opened or closed, by its name.
#[derive(Clone, Copy, Debug, PartialEq, Eq, Error)]
pub enum FileFault {
    #[error("Device")]
    Device,
    #[error("NotEmpty")]
    NotEmpty,
    #[error("BadLength")]
    BadLength,
    #[error("BadMagic")]
    BadMagic,
    #[error("BadVersion {0}")]
    BadVersion(u16),
    #[error("BadOrder")]
    BadOrder,
    #[error("NotClean")]
    NotClean,
    #[error("BadHeader")]
    BadHeader,
    #[error("Damaged {0}")]
    Damaged(u32),
    #[error("WrongCount")]
    WrongCount,
    #[error("TooManyRecords")]
    TooManyRecords,
    #[error("Memory")]
    Memory,
    #[error("BadJournal")]
    BadJournal,
    #[error("BadCommits")]
    BadCommits,
}

impl From<StoreFault> for FileFault {
    ghost use Rattle.std.specs.Prelude.{◌≡◌};
    ghost use Rattle.file_session.specs.FileFaults.{fault_of_store};

    ghost from_gives = { λ fault named. named ≡ fault_of_store fault };

    fn from(fault: StoreFault) -> FileFault {
        match fault {
            StoreFault::Failed => FileFault::Device,
            StoreFault::Memory => FileFault::Memory,
        }
    }
}

impl From<RecoveryFault> for FileFault {
    ghost use Rattle.std.specs.Prelude.{◌≡◌};
    ghost use Rattle.file_session.specs.FileFaults.{fault_of_recovery};

    ghost from_gives = { λ fault named. named ≡ fault_of_recovery fault };

    fn from(fault: RecoveryFault) -> FileFault {
        match fault {
            RecoveryFault::Device => FileFault::Device,
            RecoveryFault::BadJournal => FileFault::BadJournal,
        }
    }
}

impl From<OpeningFault> for FileFault {
    ghost use Rattle.std.specs.Prelude.{◌≡◌};
    ghost use Rattle.file_session.specs.FileFaults.{fault_of_files};

    ghost from_gives = { λ fault named. named ≡ fault_of_files fault };

    fn from(fault: OpeningFault) -> FileFault {
        match fault {
            OpeningFault::Device => FileFault::Device,
            OpeningFault::BadJournal => FileFault::BadJournal,
            OpeningFault::BadCommits => FileFault::BadCommits,
            OpeningFault::Memory => FileFault::Memory,
        }
    }
}

impl From<OverlayFault> for FileFault {
    ghost use Rattle.std.specs.Prelude.{◌≡◌};
    ghost use Rattle.file_session.specs.FileFaults.{fault_of_overlay};

    ghost from_gives = { λ fault named. named ≡ fault_of_overlay fault };

    fn from(fault: OverlayFault) -> FileFault {
        match fault {
            OverlayFault::Line => FileFault::BadCommits,
            OverlayFault::Table(TableFault::Device) => FileFault::Device,
            OverlayFault::Table(TableFault::Damaged(page)) => FileFault::Damaged(page),
            OverlayFault::Table(TableFault::NoRoom) => FileFault::TooManyRecords,
            OverlayFault::Table(TableFault::Memory) => FileFault::Memory,
        }
    }
}

// A call of the system that fails.
impl From<io::Error> for FileFault {
    ghost use Rattle.std.specs.Prelude.{◌≡◌};
    ghost use Rattle.file_session.specs.declared.file_fault.FileFault.TheVariants.{Device};

    ghost from_gives = { λ _ fault. fault ≡ Device };

    fn from(_: io::Error) -> FileFault {
        FileFault::Device
    }
}

impl From<CreateFault> for FileFault {
    ghost use Rattle.std.specs.Prelude.{◌≡◌};
    ghost use Rattle.file_session.specs.FileFaults.{fault_of_making};

    ghost from_gives = { λ fault named. named ≡ fault_of_making fault };

    fn from(fault: CreateFault) -> FileFault {
        match fault {
            CreateFault::BadOrder => FileFault::BadOrder,
            CreateFault::Device => FileFault::Device,
            CreateFault::NotEmpty => FileFault::NotEmpty,
        }
    }
}

impl From<OpenFault> for FileFault {
    ghost use Rattle.std.specs.Prelude.{◌≡◌};
    ghost use Rattle.file_session.specs.FileFaults.{fault_of_opening};

    ghost from_gives = { λ fault named. named ≡ fault_of_opening fault };

    fn from(fault: OpenFault) -> FileFault {
        match fault {
            OpenFault::Device => FileFault::Device,
            OpenFault::BadLength => FileFault::BadLength,
            OpenFault::BadMagic => FileFault::BadMagic,
            OpenFault::BadVersion(version) => FileFault::BadVersion(version),
            OpenFault::BadOrder => FileFault::BadOrder,
            OpenFault::NotClean => FileFault::NotClean,
            OpenFault::BadHeader => FileFault::BadHeader,
            OpenFault::Damaged(page) => FileFault::Damaged(page),
            OpenFault::WrongCount => FileFault::WrongCount,
            OpenFault::TooManyRecords => FileFault::TooManyRecords,
            OpenFault::Memory => FileFault::Memory,
        }
    }
}

impl From<WriteFault> for FileFault {
    ghost use Rattle.std.specs.Prelude.{◌≡◌};
    ghost use Rattle.file_session.specs.FileFaults.{fault_of_closing};

    ghost from_gives = { λ fault named. named ≡ fault_of_closing fault };

    fn from(fault: WriteFault) -> FileFault {
        match fault {
            WriteFault::Device => FileFault::Device,
            WriteFault::Memory => FileFault::Memory,
        }
    }
}

impl From<TableFault> for FileFault {
    ghost use Rattle.std.specs.Prelude.{◌≡◌};
    ghost use Rattle.file_session.specs.FileFaults.{fault_of_listing};

    ghost from_gives = { λ fault named. named ≡ fault_of_listing fault };

    // A list never wants room.
    fn from(fault: TableFault) -> FileFault {
        match fault {
            TableFault::Device => FileFault::Device,
            TableFault::Damaged(page) => FileFault::Damaged(page),
            TableFault::NoRoom => FileFault::Damaged(0),
            TableFault::Memory => FileFault::Memory,
        }
    }
}
