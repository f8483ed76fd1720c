ghost use Rattle.std.specs.Prelude.{◌≡◌, ◌/◌, ◌<◌, ◌≤◌, length, map, slice_get, IfOk, OnOk, All, IsTrue};
ghost use Rattle.std.specs.Cmp.Lexicographic.{slice_cmp};
ghost use Rattle.std.specs.List.{range_with_len, AllAdjacentBelow};
ghost use Rattle.std.specs.List.Sorted.{IsPermutation};
ghost use Rattle.std.specs.Option.{option_cmp};
ghost use Rattle.std.specs.Ordering.{nat_cmp};
ghost use Rattle.rec_types.specs.KeyOrder.{IsOrderOf};
ghost use Rattle.rec_types.specs.Padded.{AreBytes};
ghost use Rattle.rec_types.specs.Tags.{tag_of, tags_from, place_in};

use crate::{Key, Memory};
use std::alloc::Global;
use std::cmp::Ordering;

/// How many places a tag tells apart.
const PLACES: u64 = 1_048_576;

/// So few keys are put in order as quickly without tags.
const FEW: usize = 32;

/// The first 44 bits of a key, and behind them its place: a number that is quick to compare.
fn tag(key: &Key, place: u64) -> u64
    requires { place < 1048576 }
    ensures value { result ≡ tag_of place key.now }
    ensures bytes { AreBytes key.now }
{
    let front = key.front();
    front - front % PLACES + place
}

/// The tags of the keys. Fault: Memory.
fn tags_of(alloc: Global, keys: &[Key]) -> Result<Vec<u64>, Memory>
    requires { length keys.now ≤ 1048576 }
    ensures tags { IfOk result (λ tags. tags.items ≡ tags_from 0 keys.now) }
    ensures bytes { OnOk result (All AreBytes keys.now) }
{
    let mut tags = Vec::with_capacity(alloc, keys.len())?;
    for (place, key) in keys.iter().enumerate() {
        tags.push(tag(key, place as u64))?;
    }
    Ok(tags)
}

/// Whether the first bits of each tag's key are below those of the next.
fn are_apart(tags: &[u64]) -> bool
    ensures { IsTrue result → AllAdjacentBelow (λ t u. t / 1048576 < u / 1048576) tags.now (length tags.now) }
{
    tags.is_sorted_by(|first, second| first / PLACES < second / PLACES)
}

/// The places of which the tags tell. Fault: Memory.
fn told_places(alloc: Global, tags: &[u64]) -> Result<Vec<u32>, Memory>
    ensures { IfOk result (λ places. places.items ≡ map place_in tags.now) }
{
    let mut places = Vec::with_capacity(alloc, tags.len())?;
    for tag in tags {
        places.push((*tag % PLACES) as u32)?;
    }
    Ok(places)
}

/// So many places, from the first on. Fault: Memory.
fn first_places(alloc: Global, count: usize) -> Result<Vec<u32>, Memory>
    requires { count ≤ 4294967296 }
    ensures { IfOk result (λ places. places.items ≡ range_with_len 0 count) }
{
    let mut places = Vec::with_capacity(alloc, count)?;
    for place in 0..count {
        places.push(place as u32)?;
    }
    Ok(places)
}

/// The order of the keys at two places. A place behind the last key goes first.
fn compare(keys: &[Key], first: u32, second: u32) -> Ordering
    ensures { result ≡ option_cmp (slice_cmp nat_cmp) (slice_get keys.now first) (slice_get keys.now second) }
{
    keys.get(first as usize).cmp(&keys.get(second as usize))
}

/// Puts the places of all keys in the order of the keys. Fault: Memory.
fn sort(places: &mut Vec<u32>, keys: &[Key]) -> Result<(), Memory>
    requires { IsPermutation (range_with_len 0 (length keys.now)) places.old.items }
    ensures { OnOk result (IsOrderOf keys.now places.new.items) }
{
    places.sort_by(|first, second| compare(keys, *first, *second))?;
    Ok(())
}

/// The places of the keys in the order of the keys. Fault: Memory.
pub fn order_of(alloc: Global, keys: &[Key]) -> Result<Vec<u32>, Memory>
    requires { length keys.now ≤ 4294967296 }
    ensures { IfOk result (λ places. IsOrderOf keys.now places.items) }
{
    if keys.len() <= FEW || keys.len() > PLACES as usize {
        let mut places = first_places(alloc, keys.len())?;
        sort(&mut places, keys)?;
        return Ok(places);
    }
    let mut tags = tags_of(alloc, keys)?;
    tags.sort_unstable();
    let mut places = told_places(alloc, &tags)?;
    if !are_apart(&tags) {
        sort(&mut places, keys)?;
    }
    Ok(places)
}
