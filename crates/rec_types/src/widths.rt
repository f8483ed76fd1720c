/// The bytes that a key may take.
pub const KEY_WIDTH: usize = 16;

/// The bytes that a record may take.
pub const RECORD_WIDTH: usize = 100;

/// The bytes that a short record may take.
pub(crate) const SHORT_WIDTH: usize = 32;

/// The bytes of a page.
pub const PAGE_WIDTH: usize = 4096;
