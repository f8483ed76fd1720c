ghost use Rattle.std.specs.Prelude.{◌≡◌, ℕ, [], ◌∷◌, Ok, Err, List, reverse, slice_get, Option, Some, None};
ghost use Rattle.rec_types.specs.KeyOrder.{IsOrderOf, IsOrderOfFirst, three};
ghost use Rattle.std.specs.FinMap.{entries, len};
ghost use Rattle.rec_types.specs.Contents.{Contents};
ghost use Rattle.rec_types.specs.Ordered.{beside, all_beside, IsNextBeside, walked, at_a_ab_and_b};
ghost use Rattle.rec_types.specs.Tags.{tag_of, place_in};
ghost use Rattle.rec_types.specs.Told.{TellsUntil, at_a_and_b};

use crate::{Gap, Side, TableFault};

/// The keys b, a and ab are in order at the places 1, 2 and 0. Places that leave them unsorted, name one twice, or leave one
/// out are no order of theirs; 1 and 0 are the order of the first two, and 2 and 0 aren't. A tag begins with its key, whatever the place, and gives the place back.
pub fn keys_in_order()
    ensures order { IsOrderOf three (1 ∷ 2 ∷ 0 ∷ []) }
    ensures unsorted { IsOrderOf three (1 ∷ 0 ∷ 2 ∷ []) → ⊥ }
    ensures twice { IsOrderOf three (1 ∷ 1 ∷ 0 ∷ []) → ⊥ }
    ensures left_out { IsOrderOf three (1 ∷ 0 ∷ []) → ⊥ }
    ensures first { IsOrderOfFirst three (1 ∷ 0 ∷ []) }
    ensures other { IsOrderOfFirst three (2 ∷ 0 ∷ []) → ⊥ }
    ensures tag { tag_of 3 (97 ∷ []) ≡ 6989586621679009795 }
    ensures place { place_in 6989586621679009795 ≡ 3 }
{}

/// Up to a fault a sink may have been told nothing, or the first record, or all; but not the second without the first, and a
/// sink that was told only the first wasn't told all.
pub fn records_until_a_fault()
    ensures none { TellsUntil {F = ℕ} (λ es. es ≡ []) (λ _ _. ⊥) at_a_and_b (Err TableFault.Memory) }
    ensures first { TellsUntil {F = ℕ} (λ es. es ≡ (97 ∷ [], 120 ∷ []) ∷ []) (λ _ _. ⊥) at_a_and_b
        (Err TableFault.Device) }
    ensures all { TellsUntil {F = ℕ} (λ es. es ≡ at_a_and_b) (λ _ _. ⊥) at_a_and_b
        (Err TableFault.Memory) }
    ensures second { TellsUntil {F = ℕ} (λ es. es ≡ (98 ∷ [], []) ∷ []) (λ _ _. ⊥) at_a_and_b
        (Err TableFault.Device) → ⊥ }
    ensures whole { TellsUntil {E = TableFault} {F = ℕ} (λ es. es ≡ (97 ∷ [], 120 ∷ []) ∷ []) (λ _ _. ⊥)
        at_a_and_b (Ok (Ok tt)) → ⊥ }
{}

/// The record beside a gap is the next one on that side, and there is no other such. Going on past each key that was found
/// tells all records on that side: from the start all that there are in order, and from the end in falling order. The first
/// of them is the record beside the gap. Of the records at a, ab and b the one
/// behind a is that at ab: not the one at b, nor the one at a itself, and there is one. From a on the first is at a, up to b
/// the last is at b. Behind a are those at ab and b, and before b those at ab and a. Behind b there is none. From the start the first, from the end the last.
pub fn records_beside()
    ensures next { (side : Side) (m : Contents) (gap : Gap) → IsNextBeside side m gap (beside side m gap) }
    ensures one { (side : Side) (m : Contents) (gap : Gap) (found : Option (List ℕ × List ℕ))
        → IsNextBeside side m gap found → found ≡ beside side m gap }
    ensures walk { (side : Side) (m : Contents) (gap : Gap)
        → walked side m (len m) gap ≡ all_beside side m gap }
    ensures up { (m : Contents) → all_beside Side.After m Gap.Start ≡ entries m }
    ensures down { (m : Contents) → all_beside Side.Before m Gap.End ≡ reverse (entries m) }
    ensures nearest { (side : Side) (m : Contents) (gap : Gap)
        → slice_get (all_beside side m gap) 0 ≡ beside side m gap }
    ensures after { beside Side.After at_a_ab_and_b (Gap.Behind (97 ∷ [])) ≡ Some (97 ∷ 98 ∷ [], []) }
    ensures from { beside Side.After at_a_ab_and_b (Gap.Before (97 ∷ [])) ≡ Some (97 ∷ [], 120 ∷ []) }
    ensures rest { all_beside Side.After at_a_ab_and_b (Gap.Behind (97 ∷ []))
        ≡ (97 ∷ 98 ∷ [], []) ∷ (98 ∷ [], 121 ∷ []) ∷ [] }
    ensures falling { all_beside Side.Before at_a_ab_and_b (Gap.Before (98 ∷ []))
        ≡ (97 ∷ 98 ∷ [], []) ∷ (97 ∷ [], 120 ∷ []) ∷ [] }
    ensures before { beside Side.Before at_a_ab_and_b (Gap.Before (98 ∷ [])) ≡ Some (97 ∷ 98 ∷ [], []) }
    ensures upto { beside Side.Before at_a_ab_and_b (Gap.Behind (98 ∷ [])) ≡ Some (98 ∷ [], 121 ∷ []) }
    ensures first { beside Side.After at_a_ab_and_b Gap.Start ≡ Some (97 ∷ [], 120 ∷ []) }
    ensures last { beside Side.Before at_a_ab_and_b Gap.End ≡ Some (98 ∷ [], 121 ∷ []) }
    ensures end { IsNextBeside Side.After at_a_ab_and_b (Gap.Behind (98 ∷ [])) None }
    ensures far { IsNextBeside Side.After at_a_ab_and_b (Gap.Behind (97 ∷ []))
        (Some (98 ∷ [], 121 ∷ [])) → ⊥ }
    ensures itself { IsNextBeside Side.After at_a_ab_and_b (Gap.Behind (97 ∷ []))
        (Some (97 ∷ [], 120 ∷ [])) → ⊥ }
    ensures nothing { IsNextBeside Side.After at_a_ab_and_b (Gap.Behind (97 ∷ [])) None → ⊥ }
{}
