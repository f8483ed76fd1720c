ghost use Rattle.std.specs.Prelude.{◌≡◌, ◌<◌, ◌≤◌, length, map, All, IfOk, IsPermutation, IsSorted};
ghost use Rattle.std.specs.Cmp.Lexicographic.{slice_cmp};
ghost use Rattle.std.specs.Ordering.{nat_cmp};
ghost use Rattle.rec_types.specs.KeyOrder.{key_at};

use rec_types::{Key, Memory, order_of};
use std::alloc::Global;

/// The keys at the places. Fault: Memory.
fn keys_at(alloc: Global, keys: &[Key], places: &[u32]) -> Result<Vec<Key>, Memory>
    requires { All (λ place. place < length keys.now) places.now }
    ensures { IfOk result (λ told. told.items ≡ map (key_at keys.now) places.now) }
{
    let mut told = Vec::with_capacity(alloc, places.len())?;
    for place in places {
        told.push(keys[*place as usize])?;
    }
    Ok(told)
}

/// The keys in order. Fault: Memory.
pub fn in_order(alloc: Global, keys: &[Key]) -> Result<Vec<Key>, Memory>
    requires { length keys.now ≤ 4294967296 }
    ensures permutation { IfOk result (λ sorted. IsPermutation keys.now sorted.items) }
    ensures sorted { IfOk result (λ sorted. IsSorted (slice_cmp nat_cmp) sorted.items) }
{
    let places = order_of(alloc, keys)?;
    keys_at(alloc, keys, &places)
}
