use crate::store_fault::StoreFault;
use rec_types::PAGE_WIDTH;
use std::alloc::AllocFailed;
use thiserror::Error;

/// An edit of several pages, which is put in place whole or not at all.
#[derive(Drop)]
pub struct PageEdit {
    /// The pages to write, with their numbers. Of two pages for one number the later stays.
    pub writes: Vec<(u32, [u8; PAGE_WIDTH])>,
    /// How many page numbers are taken: the first so many candidates.
    pub taken: u32,
    /// The page numbers to free.
    pub freed: Vec<u32>,
}

/// Why a page was not fetched.
#[derive(Clone, Copy, Debug, PartialEq, Eq, Error)]
pub enum FetchFault {
    #[error("a read of the store failed")]
    Device,
    #[error("the page is not in use")]
    OutOfRange,
}

/// Why pages were not written.
#[derive(Clone, Copy, Debug, PartialEq, Eq, Error)]
pub enum WriteFault {
    #[error("a call of the store failed")]
    Device,
    #[error("out of memory")]
    Memory,
}

impl From<StoreFault> for WriteFault {
    ghost use Rattle.std.specs.Prelude.{◌≡◌};
    ghost use Rattle.page_store.specs.WriteFaults.{told};

    ghost from_gives = { λ fault named. named ≡ told fault };

    fn from(fault: StoreFault) -> WriteFault {
        match fault {
            StoreFault::Failed => WriteFault::Device,
            StoreFault::Memory => WriteFault::Memory,
        }
    }
}

impl<T: Drop> From<AllocFailed<T>> for WriteFault {
    ghost use Rattle.std.specs.Prelude.{◌≡◌};
    ghost use Rattle.page_store.specs.declared.page_edit.WriteFault.TheVariants.{Memory as NoMemory};

    ghost from_gives = { λ _ fault. fault ≡ NoMemory };

    fn from(_: AllocFailed<T>) -> WriteFault {
        WriteFault::Memory
    }
}
