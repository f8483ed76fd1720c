ghost use Rattle.std.specs.Prelude.{◌≡◌, ℕ, ◌+◌, ◌-◌, ◌<◌, ◌≤◌, ◌&&◌, ◌||◌, [], true, false, not, IsOk, OnOk, OnErr};
ghost use Rattle.std.specs.BTreeSet.{contains, IsOrdered};
ghost use Rattle.std.specs.Ordering.{nat_cmp};
ghost use Rattle.page_store.specs.PageMap.{is_freed};
ghost use Rattle.page_store.specs.FreeNumbers.{nth_or_above, greatest_page_count};

use rec_types::Memory;
use std::collections::BTreeSet;

/// The i-th number of the set, from 0, or where it has fewer the count or a number above it.
pub(crate) fn nth_number(free: &BTreeSet<u32>, count: u32, i: u32) -> u32
    requires count { count ≤ greatest_page_count }
    requires i { i ≤ 1000 }
    ensures value { result ≡ nth_or_above free.now.keys count i }
    ensures ordered { IsOrdered nat_cmp free.now }
{
    match free.iter().nth(i as usize) {
        Some(n) => *n,
        None => count + (i - free.len() as u32),
    }
}

/// Takes numbers out of the set.
pub(crate) fn remove_all(free: &mut BTreeSet<u32>, numbers: &[u32])
    ensures { (q : ℕ) →
        contains nat_cmp free.new q ≡
        (contains nat_cmp free.old q && not (is_freed numbers.now q)) }
{
    for n in numbers {
        free.remove(n);
    }
}

/// Puts numbers into the set that aren't there, all of them or none. Fault: Memory; the set has the
/// same numbers then.
pub(crate) fn add_all(free: &mut BTreeSet<u32>, numbers: &[u32]) -> Result<(), Memory>
    requires { (q : ℕ) → is_freed numbers.now q ≡ true → contains nat_cmp free.old q ≡ false }
    ensures ok { OnOk result ((q : ℕ) →
        contains nat_cmp free.new q ≡ (contains nat_cmp free.old q || is_freed numbers.now q)) }
    ensures err { OnErr result ((q : ℕ) →
        contains nat_cmp free.new q ≡ contains nat_cmp free.old q) }
    ensures empty { numbers.now ≡ [] → IsOk result }
{
    for (i, n) in numbers.iter().enumerate() {
        let Ok(_) = free.insert(*n) else {
            remove_all(free, &numbers[..i]);
            return Err(Memory);
        };
    }
    Ok(())
}
