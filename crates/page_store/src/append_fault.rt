use thiserror::Error;

/// Why a commit wasn't kept.
#[derive(Clone, Copy, Debug, PartialEq, Eq, Error)]
pub enum AppendFault {
    /// There is no room for it: nothing of it is kept, and others may be.
    #[error("there is no room in the log")]
    Room,
    /// A write or a sync failed: a crash may leave it kept or not, and no other is kept any more.
    #[error("it isn't known whether it is in the log")]
    Doubt,
}
