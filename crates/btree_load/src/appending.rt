ghost use Rattle.std.specs.Prelude.{◌≡◌, ◌+◌, ◌++◌, ◌∷◌, [], IsTrue, IfOk, OnOk};
ghost use Rattle.btree_load.specs.Filling.{FillsStore, HasPages, KeepsLength, written_pages};

use page_store::{Store, WriteFault};
use rec_types::PAGE_WIDTH;

/// Writes the page behind those that were written, of which there are so many, and answers its number. Fault: Device.
pub(crate) fn append_page<S: Store>(
    store: &mut S,
    count: &mut u32,
    page: &[u8; PAGE_WIDTH],
) -> Result<u32, WriteFault>
    requires { HasPages S.StoreState count.old 1 store.old }
    ensures number { IfOk result (λ n. n ≡ count.old) }
    ensures count { OnOk result (count.new ≡ count.old + 1) }
    ensures long { KeepsLength S.StoreState store.old store.new }
    ensures pages { IsTrue (S.steady store.old) → OnOk result (written_pages S.StoreState count.new store.new
        ≡ written_pages S.StoreState count.old store.old ++ page.now ∷ []) }
    ensures fills { FillsStore S.StoreState store.old result store.new }
{
    let n = *count;
    store.write(n, page)?;
    *count = n + 1;
    Ok(n)
}
