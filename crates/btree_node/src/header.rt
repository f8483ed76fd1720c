use thiserror::Error;

/// What page 0 says of its file.
#[derive(Clone, Copy, Debug, PartialEq, Eq)]
pub struct Header {
    /// The file version, 1 or 2.
    pub version: u16,
    /// The order of the tree, 1 to 16.
    pub order: u16,
    /// How many pages the file has, page 0 included.
    pub pages: u32,
    /// The number of the root page, 0 for an empty tree.
    pub root: u32,
    /// How many records the tree has.
    pub count: u32,
}

/// Why a page is no header of a file that was closed. The faults are tested in this order.
#[derive(Clone, Copy, Debug, PartialEq, Eq, Error)]
pub enum HeaderFault {
    #[error("the file is no record file")]
    BadMagic,
    #[error("the file has version {0}")]
    BadVersion(u16),
    #[error("the order of the tree is not from 1 to 16")]
    BadOrder,
    #[error("the file was not closed cleanly")]
    NotClean,
    #[error("the state is unknown, or a byte behind it is not zero")]
    BadHeader,
}
