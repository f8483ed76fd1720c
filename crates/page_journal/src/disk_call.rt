use crate::commit_call::CommitCall;
use rec_types::PAGE_WIDTH;

/// A changing call of a disk.
#[derive(Drop)]
pub enum DiskCall {
    /// The page of that number was written.
    Write(u32, [u8; PAGE_WIDTH]),
    /// The file was made so many pages long; new pages are zero.
    Grow(u32),
    /// The file was cut to so many pages.
    Cut(u32),
    /// The device kept the file.
    Sync,
    /// A side file for a file of so many pages was begun, of which those that it won't keep have that sum.
    Start(u32, u64),
    /// The old page of that number was added to it.
    Keep(u32, [u8; PAGE_WIDTH]),
    /// The device kept the side file that is being made.
    SyncFresh,
    /// It got the name that an opening looks for.
    Name,
    /// The side file of that name was taken away.
    Remove,
    /// The device kept whether there is one, and a log of commits.
    SyncNames,
    /// A call on the logs of commits.
    Commits(CommitCall),
}
