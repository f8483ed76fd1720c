ghost use Rattle.std.specs.Prelude.{◌≡◌, ◌-◌, ◌≤◌, ◌++◌, length, OnOk, OnErr};
ghost use Rattle.page_store.specs.Blank.{blank, blanks};

use rec_types::{Memory, PAGE_WIDTH};

/// A page of zeros.
pub(crate) fn blank_page() -> [u8; PAGE_WIDTH]
    ensures { result ≡ blank }
{
    [0; PAGE_WIDTH]
}

/// Adds pages of zeros up to n pages. Fault: Memory; nothing has changed then.
pub(crate) fn add_blank_pages(pages: &mut Vec<[u8; PAGE_WIDTH]>, n: u32) -> Result<(), Memory>
    requires { length pages.old.items ≤ n }
    ensures ok { OnOk result
        (pages.new.items ≡ pages.old.items ++ blanks (n - length pages.old.items)) }
    ensures err { OnErr result (pages.new.items ≡ pages.old.items) }
{
    pages.resize(n as usize, blank_page()).map_err(|_| Memory)
}
