/// Whether the pages of a store may be written over.
#[derive(Clone, Copy, Debug, PartialEq, Eq)]
pub enum SealState {
    /// None may: no page was kept.
    Unsealed,
    /// Those that were kept and those past the old end may.
    Sealed,
    /// None may: pages were to be kept, and a call of the disk failed.
    Stopped,
}
