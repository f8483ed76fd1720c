use rec_types::PAGE_WIDTH;

/// A changing call of a store that succeeded, as a step that leads from its old pages to its new ones.
#[derive(Clone, Copy)]
pub enum Step {
    /// The store was made so many pages long; new pages are zero.
    SetPages(u32),
    /// The page of that number was written.
    Write(u32, [u8; PAGE_WIDTH]),
    /// The device kept what was written.
    Sync,
}
