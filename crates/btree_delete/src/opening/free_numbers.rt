ghost use Rattle.std.specs.Prelude.{◌≡◌, ℕ, ◌<◌, ◌≤◌, ◌↔◌, false, true, length, drop, IfOk, slice_index_or};
ghost use Rattle.std.specs.BTreeSet.{contains, btree_set_len};
ghost use Rattle.std.specs.Ordering.{nat_cmp};
ghost use Rattle.page_store.specs.FreeNumbers.{greatest_page_count};
ghost use Rattle.btree_delete.specs.Survey.{unreached};

use rec_types::Memory;
use std::alloc::Global;
use std::collections::BTreeSet;

/// The numbers from 1 on of the pages that were not reached, of at most 1,000,001. Fault: Memory.
pub(crate) fn free_numbers(alloc: Global, reached: &[bool]) -> Result<BTreeSet<u32>, Memory>
    requires { length reached.now ≤ greatest_page_count }
    ensures free { IfOk result (λ free. (n : ℕ) → (contains nat_cmp free n ≡ true)
        ↔ ((1 ≤ n) × (slice_index_or reached.now n true ≡ false))) }
    ensures count { IfOk result (λ free. btree_set_len free ≡ unreached (drop 1 reached.now)) }
{
    let mut free = BTreeSet::new(alloc);
    for n in 1..reached.len() {
        if reached[n] {
            continue;
        }
        free.insert(n as u32)?;
    }
    Ok(free)
}
