use std::io;
use thiserror::Error;

/// The length of a store: whole pages, and the bytes after them.
#[derive(Clone, Copy, Debug, PartialEq, Eq)]
pub struct Shape {
    pub pages: u64,
    pub tail: u16,
}

/// Why a store refused a call.
#[derive(Clone, Copy, Debug, PartialEq, Eq, Error)]
pub enum StoreFault {
    #[error("the store failed")]
    Failed,
    #[error("out of memory")]
    Memory,
}

impl From<io::Error> for StoreFault {
    ghost use Rattle.std.specs.Prelude.{◌≡◌};
    ghost use Rattle.page_store.specs.declared.store_fault.StoreFault.TheVariants.{Failed};

    ghost from_gives = { λ _ fault. fault ≡ Failed };

    fn from(_: io::Error) -> StoreFault {
        StoreFault::Failed
    }
}
