ghost use Rattle.std.specs.Prelude.{◌≡◌};
ghost use Rattle.page_store.specs.Blank.{blank};
ghost use Rattle.page_journal.specs.Fates.{noise};

use rec_types::PAGE_WIDTH;

/// A page of zeros.
pub(crate) fn blank_page() -> [u8; PAGE_WIDTH]
    ensures { result ≡ blank }
{
    [0; PAGE_WIDTH]
}

/// A page of bytes that nobody wrote.
pub(crate) fn noise_page() -> [u8; PAGE_WIDTH]
    ensures { result ≡ noise }
{
    [255; PAGE_WIDTH]
}
