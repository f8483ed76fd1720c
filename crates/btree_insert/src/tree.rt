use rec_types::Memory;
use std::alloc::AllocError;
use thiserror::Error;

/// The most levels of a tree.
pub const GREATEST_HEIGHT: u32 = 19;

/// The pages on a way down a tree: one a level.
pub const PATH_ROOM: usize = GREATEST_HEIGHT as usize;

/// The most keys of a tree, and the most pages.
pub const GREATEST_COUNT: u32 = 1_000_000;

/// The most pages of a file, page 0 included.
pub const GREATEST_PAGE_COUNT: u32 = 1 + GREATEST_COUNT;

/// A tree in pages: where it begins, and how large it is.
#[derive(Clone, Copy, Debug, PartialEq, Eq)]
pub struct Tree {
    /// A page has at most twice so many keys, and but for the root at least so many. 1 to 16.
    pub order: u16,
    /// The number of the root page, 0 where the tree is empty.
    pub root: u32,
    /// The number of levels, 0 where the tree is empty.
    pub height: u32,
    /// The number of keys.
    pub count: u32,
    /// The number of pages.
    pub used: u32,
}

/// Why a tree was not read or changed.
#[derive(Clone, Copy, Debug, PartialEq, Eq, Error)]
pub enum TreeFault {
    #[error("a read of the store failed")]
    Device,
    #[error("page {0} is no page of a tree at its place")]
    Damaged(u32),
    #[error("no memory")]
    Memory,
}

impl From<AllocError> for TreeFault {
    ghost use Rattle.std.specs.Prelude.{◌≡◌};
    ghost use Rattle.btree_insert.specs.declared.tree.TreeFault.TheVariants.{Memory as OutOfMemory};

    ghost from_gives = { λ _ fault. fault ≡ OutOfMemory };

    fn from(_: AllocError) -> TreeFault {
        TreeFault::from(Memory)
    }
}

impl From<Memory> for TreeFault {
    ghost use Rattle.std.specs.Prelude.{◌≡◌};
    ghost use Rattle.btree_insert.specs.declared.tree.TreeFault.TheVariants.{Memory as OutOfMemory};

    ghost from_gives = { λ _ fault. fault ≡ OutOfMemory };

    fn from(_fault: Memory) -> TreeFault {
        TreeFault::Memory
    }
}
